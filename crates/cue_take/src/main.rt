// Takes out of the octets on standard input the bytes that the cue channel brought, and writes these.
// The argument is the mode, 2 or 3. The octets are 8 for each byte in mode 2, and 4 in mode 3.
#![tactic(auto)]

ghost use Rattle.std.specs.Prelude.{◌≤◌, IfOk, length};

use refusal::Stop;
use std::env::{Env, FillError};
use std::io;
use std::io::{Read, Write};

// Reads until there is no more room or the input ends, and answers what there is.
fn read_full<'a>(input: &mut impl Read, room: &'a mut [u8]) -> io::Result<&'a [u8]>
    ensures { IfOk result (λ bytes. length bytes.now ≤ length room.old) }
{
    let mut n = 0;
    while n < room.len() {
        match input.read(&mut room[n..])? {
            0 => break,
            more => n += more,
        }
    }
    Ok(&room[..n])
}

// Takes the bytes out of octets, and writes them.
fn send(out: &mut impl Write, mode: u8, octets: &[u8]) -> Result<(), Stop>
    requires { length octets.now ≤ 8000 }
{
    let mut bytes = [0u8; 2000];
    let per_byte = if mode == 3 { 4 } else { 8 };
    let bytes = &mut bytes[..octets.len() / per_byte];
    cue::take(mode, octets, bytes)?;
    out.write_all(bytes).map_err(Stop::Write)
}

// Turn after turn, each of 8000 octets, or what is left. A proved loop has to end, and nothing says that the input does: no run has
// so many turns.
fn run(input: &mut impl Read, out: &mut impl Write, mode: u8) -> Result<(), Stop> {
    for _ in 0..u64::MAX {
        let mut room = [0u8; 8000];
        let octets = read_full(input, &mut room).map_err(Stop::Read)?;
        send(out, mode, octets)?;
        if octets.len() < 8000 {
            break;
        }
    }
    Ok(())
}

// The mode that the one argument tells, if there is one argument and it is a number below 256.
fn told(env: &impl Env) -> Option<u8> {
    if has_word(env, 2) {
        return None;
    }
    let mut word = [0u8; 10];
    let n = env.arg(1, &mut word).ok()?;
    u8::try_from(argument::number(&word[..n])?).ok()
}

// Whether the program was started with a word of this number, its own name being word 0.
fn has_word(env: &impl Env, i: usize) -> bool {
    !matches!(env.arg(i, &mut []), Err(FillError::NotPresent))
}

fn main(rt: HostRuntime) {
    let Some(mode) = told(&rt) else {
        let _ = eprintln!(rt; "usage: cue_take MODE < octets > bytes, where MODE is 2 or 3");
        return;
    };
    if let Err(stop) = run(&mut rt.stdin(), &mut rt.stdout(), mode) {
        refusal::report(&rt.stderr(), stop);
    }
}
