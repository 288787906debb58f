// The sub-band coders: a signal of either band to its word, and one of each to an octet.
ghost use Rattle.std.specs.Prelude.{◌≡◌, ◌<◌};
ghost use Rattle.g722.specs.Octet.{octet};
ghost use Rattle.plain.specs.Step.{coded_in, low_coded, high_coded, bands_coded};

use crate::{Banded, Word, after};
use arith::sub;
use band::estimate;
use g722::Band;
use quant::{High, Low, SubBand};

// A band's word for its signal.
fn coded<B: SubBand>(s: Band, x: i16) -> Word
    ensures { result ≡ coded_in B.own s x }
{
    let e = estimate(s);
    let word = B::quant(sub(x, e.s), s.factors.scale);
    Word {
        word,
        next: after::<B>(s, e, word),
    }
}

// The low band's.
#[tactic(auto, using(crate::specs::Step::low_is_coded))]
pub fn low_coded(s: Band, x: i16) -> Word
    ensures { result ≡ low_coded s x }
{
    coded::<Low>(s, x)
}

// The high band's.
#[tactic(auto, using(crate::specs::Step::high_is_coded))]
pub fn high_coded(s: Band, x: i16) -> Word
    ensures { result ≡ high_coded s x }
{
    coded::<High>(s, x)
}

// The octet of two words.
#[tactic(auto, unfolding(g722::specs::Octet::octet))]
fn octet(ih: u8, il: u8) -> u8
    requires { (ih < 4) × (il < 64) }
    ensures { result ≡ octet ih il }
{
    ih * 64 + il
}

// Both sub-band coders, without the transmit filter: the octet of a low and a high signal.
pub fn bands_coded(low: Band, high: Band, xl: i16, xh: i16) -> Banded
    ensures { result ≡ bands_coded low high xl xh }
{
    let l = low_coded(low, xl);
    let h = high_coded(high, xh);
    Banded {
        octet: octet(h.word, l.word),
        low: l.next,
        high: h.next,
    }
}
