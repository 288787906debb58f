// Logs the octets on standard input: blocks of 480 octets, the last with what is left, numbered from 0.
// The arguments are the take number and the mode, 1 to 3.
#![tactic(auto)]

ghost use Rattle.std.specs.Prelude.{◌≤◌, IfOk, length};

use refusal::Stop;
use std::env::{Env, FillError};
use std::io;
use std::io::{Read, Write};

// Reads until there is no more room or the input ends, and answers what there is.
fn read_full<'a>(input: &mut impl Read, room: &'a mut [u8]) -> io::Result<&'a [u8]>
    ensures { IfOk result (λ bytes. length bytes.now ≤ length room.old) }
{
    let mut n = 0;
    while n < room.len() {
        match input.read(&mut room[n..])? {
            0 => break,
            more => n += more,
        }
    }
    Ok(&room[..n])
}

// Writes a block of octets.
fn send(out: &mut impl Write, take: u32, number: u32, mode: u8, octets: &[u8]) -> Result<(), Stop> {
    let mut block = [0u8; 512];
    block::write(take, number, mode, octets, &mut block)?;
    out.write_all(&block).map_err(Stop::Write)
}

// Block after block. A proved loop has to end, and nothing says that the input does: no recording has so many blocks.
fn run(input: &mut impl Read, out: &mut impl Write, take: u32, mode: u8) -> Result<(), Stop> {
    for number in 0..u32::MAX {
        let mut room = [0u8; 480];
        let octets = read_full(input, &mut room).map_err(Stop::Read)?;
        if octets.is_empty() {
            break;
        }
        send(out, take, number, mode, octets)?;
    }
    Ok(())
}

// The number that argument i gives, if it gives one.
fn told(env: &impl Env, i: usize) -> Option<u32> {
    let mut word = [0u8; 10];
    let n = env.arg(i, &mut word).ok()?;
    argument::number(&word[..n])
}

// Whether the program was started with a word of this number, its own name being word 0.
fn has_word(env: &impl Env, i: usize) -> bool {
    !matches!(env.arg(i, &mut []), Err(FillError::NotPresent))
}

// The take and the mode, where the arguments are just these.
fn words(env: &impl Env) -> Option<(u32, u8)> {
    let take = told(env, 1)?;
    let mode = u8::try_from(told(env, 2)?).ok()?;
    if has_word(env, 3) {
        None
    } else {
        Some((take, mode))
    }
}

fn main(rt: HostRuntime) {
    let Some((take, mode)) = words(&rt) else {
        let _ = eprintln!(rt;
            "usage: logger TAKE MODE < octets > recording, where MODE is 1, 2 or 3"
        );
        return;
    };
    if let Err(stop) = run(&mut rt.stdin(), &mut rt.stdout(), take, mode) {
        refusal::report(&rt.stderr(), stop);
    }
}
