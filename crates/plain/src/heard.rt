// The sub-band decoders: an octet to the heard signal of either band.
ghost use Rattle.std.specs.Prelude.{◌≡◌};
ghost use Rattle.plain.specs.Step.{heard_in, low_heard, high_heard};

use crate::{Signal, after};
use arith::{add, limit};
use band::estimate;
use g722::Band;
use quant::{High, Low, SubBand, invqbl};

// A band's signal where the difference d is heard, and the band after its word. The loop goes by the word, whatever is heard.
fn heard<B: SubBand>(s: Band, word: u8, d: i16) -> Signal
    ensures { result ≡ heard_in B.own s word d }
{
    let e = estimate(s);
    Signal {
        signal: limit(i32::from(add(e.s, d))),
        next: after::<B>(s, e, word),
    }
}

// The low band's heard signal, by the mode in force.
pub fn low_heard(mode: u8, s: Band, o: u8) -> Signal
    ensures { result ≡ low_heard mode s o }
{
    let il = o % 64;
    heard::<Low>(s, il, invqbl(mode, il, s.factors.scale))
}

// The high band's.
pub fn high_heard(s: Band, o: u8) -> Signal
    ensures { result ≡ high_heard s o }
{
    let ih = o / 64;
    heard::<High>(s, ih, High::invqa(ih, s.factors.scale))
}
