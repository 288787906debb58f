// Pairs of signals on standard input, low then high, two bytes each and the high byte first, to octets on standard output: both
// sub-band coders from reset, without the transmit filter. They are blocks and take any 16-bit number, so no signal is out of range.
#![tactic(auto)]

ghost use Rattle.std.specs.Prelude.{◌≤◌, length};

use coder::BothBands;
use plain::bands_coded;
use refusal::Stop;
use std::env::{Env, FillError};
use std::io::{Read, Write};

// Both bands at reset.
fn reset() -> BothBands {
    let c = coder::reset();
    BothBands {
        low: c.low,
        high: c.high,
    }
}

// Codes as many pairs to octets as there are of both, and answers the bands after them.
fn code(mut bands: BothBands, pairs: &[[u8; 4]], octets: &mut [u8]) -> BothBands {
    for (octet, &[a, b, c, d]) in octets.iter_mut().zip(pairs) {
        let low = i16::from_be_bytes([a, b]);
        let high = i16::from_be_bytes([c, d]);
        let coded = bands_coded(bands.low, bands.high, low, high);
        *octet = coded.octet;
        bands = BothBands {
            low: coded.low,
            high: coded.high,
        };
    }
    bands
}

// Sends the whole pairs of a piece, and answers the bands after them.
fn send(out: &mut impl Write, bands: BothBands, bytes: &[u8]) -> Result<BothBands, Stop>
    requires { length bytes.now ≤ 32000 }
{
    let mut octets = [0; 8000];
    let (pairs, _) = bytes.as_chunks();
    let octets = &mut octets[..pairs.len()];
    let next = code(bands, pairs, octets);
    out.write_all(octets).map_err(Stop::Write)?;
    Ok(next)
}

// Reads what has arrived and the rest of its last pair, and sends that: nothing waits for a longer piece. At the end of the input no
// bands are left.
fn turn(
    input: &mut impl Read,
    out: &mut impl Write,
    bands: BothBands,
) -> Result<Option<BothBands>, Stop> {
    let mut bytes = [0; 32000];
    let n = input.read(&mut bytes).map_err(Stop::Read)?;
    if n == 0 {
        return Ok(None);
    }
    let end = n.next_multiple_of(4);
    if n < end
        && let Err(error) = input.read_exact(&mut bytes[n..end])
    {
        send(out, bands, &bytes[..n])?;
        return Err(Stop::Within("pair of signals", error));
    }
    Ok(Some(send(out, bands, &bytes[..end])?))
}

// Piece after piece. A proved loop has to end, and nothing says that the input does: no run has so many pieces.
fn run(input: &mut impl Read, out: &mut impl Write) -> Result<(), Stop> {
    let mut bands = reset();
    for _ in 0..u64::MAX {
        let Some(next) = turn(input, out, bands)? else {
            break;
        };
        bands = next;
    }
    Ok(())
}

// Whether the program was started with a word of this number, its own name being word 0.
fn has_word(env: &impl Env, i: usize) -> bool {
    !matches!(env.arg(i, &mut []), Err(FillError::NotPresent))
}

fn main(rt: HostRuntime) {
    if has_word(&rt, 1) {
        let _ = eprintln!(rt; "usage: sub_bands < signals > octets");
        return;
    }
    if let Err(stop) = run(&mut rt.stdin(), &mut rt.stdout()) {
        refusal::report(&rt.stderr(), stop);
    }
}
