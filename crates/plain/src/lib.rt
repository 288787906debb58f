// One octet through both sub-bands, by the Recommendation's blocks one by one: the desk has one octet a tick, and goes by these. A call of
// many octets goes by `sweep`, which has the same definitions behind it.
#![tactic(auto)]

mod coded;
mod heard;

ghost use Rattle.std.specs.Prelude.{◌≡◌};
ghost use Rattle.band.specs.Loop.{adapted};
ghost use Rattle.quant.specs.Own.{difference_of, factors_of};

use band::{Estimates, adapt};
pub use coded::{bands_coded, high_coded, low_coded};
use g722::{Band, Limited};
pub use heard::{high_heard, low_heard};
use quant::SubBand;

// A band's code word, and the band after it.
#[derive(Clone, Copy)]
pub struct Word {
    pub word: u8,
    pub next: Band,
}

// An octet, and both bands after it.
#[derive(Clone, Copy)]
pub struct Banded {
    pub octet: u8,
    pub low: Band,
    pub high: Band,
}

// A band's heard signal, limited, and the band after it.
#[derive(Clone, Copy)]
pub struct Signal {
    pub signal: Limited,
    pub next: Band,
}

// A band after a word, at either end. It is inlined, since a call would copy the band: both ends together took over half as much again.
#[inline(always)]
fn after<B: SubBand>(s: Band, e: Estimates, word: u8) -> Band
    ensures { result ≡ adapted s e (difference_of B.own word s.factors.scale) (factors_of B.own s.factors word) }
{
    adapt(
        s,
        e,
        B::invqa(word, s.factors.scale),
        B::factors(s.factors, word),
    )
}
