// Octets on standard input to samples on standard output, two bytes each and the high byte first.
// The one argument is the mode, 0 to 3.
#![tactic(auto)]

ghost use Rattle.std.specs.Prelude.{◌≤◌, length};

use g722::{Decoder, Refusal};
use pcm::decode_chunk;
use refusal::Stop;
use std::env::{Env, FillError};
use std::io::{Read, Write};

// Decodes a piece and writes its samples.
fn send(out: &mut impl Write, d: Decoder, mode: u8, octets: &[u8]) -> Result<Decoder, Stop>
    requires { length octets.now ≤ 8000 }
{
    let mut bytes = [0u8; 32000];
    let bytes = &mut bytes[..4 * octets.len()];
    let done = decode_chunk(d, mode, octets, bytes)?;
    out.write_all(bytes).map_err(Stop::Write)?;
    Ok(done.next)
}

// Reads what has arrived and sends it: nothing waits for a longer piece. At the end of the input there is no next decoder.
fn turn(
    input: &mut impl Read,
    out: &mut impl Write,
    d: Decoder,
    mode: u8,
) -> Result<Option<Decoder>, Stop> {
    let mut octets = [0u8; 8000];
    match input.read(&mut octets).map_err(Stop::Read)? {
        0 => Ok(None),
        n => Ok(Some(send(out, d, mode, &octets[..n])?)),
    }
}

// Piece after piece. A proved loop has to end, and nothing says that the input does: no run has so many pieces.
fn run(input: &mut impl Read, out: &mut impl Write, mode: u8) -> Result<(), Stop> {
    let mut d = decoder::reset();
    for _ in 0..u64::MAX {
        let Some(next) = turn(input, out, d, mode)? else {
            break;
        };
        d = next;
    }
    Ok(())
}

// The mode that the one argument tells, if there is one argument and it is a number below 256.
fn told(env: &impl Env) -> Option<u8> {
    if has_word(env, 2) {
        return None;
    }
    let mut word = [0u8; 10];
    let n = env.arg(1, &mut word).ok()?;
    u8::try_from(argument::number(&word[..n])?).ok()
}

// Whether the program was started with a word of this number, its own name being word 0.
fn has_word(env: &impl Env, i: usize) -> bool {
    !matches!(env.arg(i, &mut []), Err(FillError::NotPresent))
}

fn main(rt: HostRuntime) {
    match told(&rt) {
        Some(mode @ 0..=3) => {
            if let Err(stop) = run(&mut rt.stdin(), &mut rt.stdout(), mode) {
                refusal::report(&rt.stderr(), stop);
            }
            return;
        }
        Some(_) => refusal::say(&rt.stderr(), Refusal::Mode.number(), 0),
        None => {}
    }
    let _ = eprintln!(rt; "usage: decode MODE < octets > samples, where MODE is 0, 1, 2 or 3");
}
