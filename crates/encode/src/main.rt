// Samples on standard input, two bytes each and the high byte first, to octets on standard output.
#![tactic(auto)]

ghost use Rattle.std.specs.Prelude.{◌+◌, ◌*◌, ◌^◌, ◌≤◌, ◌<◌, IfErr, IfOk, IfSome, length};
ghost use Rattle.g722.specs.Refused.{index_of};

use g722::{Accepted, Coder, Refusal};
use pcm::encode_chunk;
use refusal::Stop;
use std::env::{Env, FillError};
use std::io::{Read, Write};

// Where the stream has come to: the coder there, and the index of the next sample.
#[derive(Clone, Copy)]
struct Place {
    coder: Coder,
    sample: u64,
}

// Codes bytes to octets. The index of a refusal lies in the call.
fn coded(c: Coder, bytes: &[u8], octets: &mut [u8]) -> Result<Accepted<Coder>, Refusal>
    ensures { IfErr result (λ refusal. index_of refusal ≤ 2 * length octets.old) }
{
    encode_chunk(c, bytes, octets)
}

// Sends the whole pairs of a piece of the stream. Those before a refused sample are sent too, so that what is written does not show
// where a piece ended.
fn send(out: &mut impl Write, at: Place, bytes: &[u8]) -> Result<Place, Stop>
    requires sample_bound { at.sample + 16000 < 2 ^ 64 }
    requires bytes_len_bound { length bytes.now ≤ 32000 }
    ensures { IfOk result (λ to. to.sample ≤ at.sample + 16000) }
{
    let mut octets = [0u8; 8000];
    let pairs = bytes.len() / 4;
    match coded(at.coder, &bytes[..4 * pairs], &mut octets[..pairs]) {
        Ok(done) => {
            out.write_all(&octets[..pairs]).map_err(Stop::Write)?;
            Ok(Place {
                coder: done.next,
                sample: at.sample + 2 * pairs as u64,
            })
        }
        Err(refusal) => {
            let good = refusal.index() / 2;
            let _ = coded(at.coder, &bytes[..4 * good], &mut octets[..good]);
            let _ = out.write_all(&octets[..good]);
            Err(Stop::Refused(refusal, at.sample + refusal.index() as u64))
        }
    }
}

// Reads what has arrived and the rest of its last pair, and sends that: nothing waits for a longer piece. At the end of the input
// there is no next place.
fn turn(input: &mut impl Read, out: &mut impl Write, at: Place) -> Result<Option<Place>, Stop>
    requires { at.sample + 16000 < 2 ^ 64 }
    ensures { IfOk result (λ to. IfSome to (λ to. to.sample ≤ at.sample + 16000)) }
{
    let mut bytes = [0u8; 32000];
    let n = input.read(&mut bytes).map_err(Stop::Read)?;
    if n == 0 {
        return Ok(None);
    }
    let whole = n - n % 4;
    if whole == n {
        return Ok(Some(send(out, at, &bytes[..n])?));
    }
    match input.read_exact(&mut bytes[n..whole + 4]) {
        Ok(()) => Ok(Some(send(out, at, &bytes[..whole + 4])?)),
        Err(error) => {
            send(out, at, &bytes[..whole])?;
            Err(Stop::Within("pair of samples", error))
        }
    }
}

// Piece after piece. A proved loop has to end, and nothing says that the input does: no run has so many pieces.
fn run(input: &mut impl Read, out: &mut impl Write) -> Result<(), Stop> {
    let mut at = Place {
        coder: coder::reset(),
        sample: 0,
    };
    for _ in 0..281474976710656u64 {
        let Some(next) = turn(input, out, at)? else {
            break;
        };
        at = next;
    }
    Ok(())
}

// Whether the program was started with a word of this number, its own name being word 0.
fn has_word(env: &impl Env, i: usize) -> bool {
    !matches!(env.arg(i, &mut []), Err(FillError::NotPresent))
}

fn main(rt: HostRuntime) {
    if has_word(&rt, 1) {
        let _ = eprintln!(rt; "usage: encode < samples > octets");
        return;
    }
    if let Err(stop) = run(&mut rt.stdin(), &mut rt.stdout()) {
        refusal::report(&rt.stderr(), stop);
    }
}
