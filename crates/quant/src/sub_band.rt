// The two sub-bands: the blocks that both have, each said once, and what of them is each band's own.
ghost use Rattle.std.specs.Prelude.{◌≡◌, refl, ◌+◌, ◌≤◌, map, ℕ, ℤ, pos, get_or};
ghost use Rattle.g722.specs.Quantise.{level, at_or_below, quantl, quanth};
ghost use Rattle.quant.specs.Own.{Own, low_own, high_own, word_of, difference_of, log_of, scale_of, factors_of};
ghost use Rattle.tables.specs.Entries.{qq4_small, qq2_small};

use crate::inverse::inverse;
use crate::levels::{high_interval, low_interval};
use arith::{add, clamp, mul, size};
use g722::{Factors, Interval};
use tables::{qq2_at, qq4_at, scale_at, wh_at, wl_at};
use words::{from_four, from_two, to_six, to_two};

// A sub-band, by what sets it apart from the other.
pub trait SubBand {
    // The most that a log factor can be.
    const TOP: i16;

    // The address of the scale factor at log factor 0.
    const FIRST: u16;

    ghost TOP: { ℤ };

    ghost FIRST: { ℕ };

    ghost own: { Own };

    // The interval of a size, by the decision levels at a scale.
    fn interval(size: u16, scale: i16) -> u8
        ensures { result ≡ 1 + at_or_below size (map (level scale) own.levels) };

    // The word of an interval.
    fn to_word(v: Interval) -> u8
        ensures { result ≡ own.to_word v };

    // The interval of a word, as far as the loop at both ends goes by it.
    fn from_word(word: u8) -> Interval
        ensures { result ≡ own.from_word word };

    // The output of the inverse quantiser at an address.
    fn output(k: u8) -> u16
        ensures { result ≡ get_or own.outputs k 0 };

    // The weight of the log factor at an address.
    fn weight(k: u8) -> i16
        ensures { result ≡ get_or own.weights k (pos 0) };

    // QUANTL and QUANTH: the word of a difference.
    #[tactic(auto, unfolding(g722::specs::Quantise::quantise))]
    fn quant(e: i16, scale: i16) -> u8
        ensures { result ≡ word_of own e scale }
    {
        Self::to_word(Interval {
            negative: e < 0,
            number: Self::interval(size(e), scale),
        })
    }

    // INVQAL and INVQAH: the difference that the loop at both ends uses.
    #[tactic(auto, unfolding(g722::specs::Quantise::inverse))]
    fn invqa(word: u8, scale: i16) -> i16
        ensures { result ≡ difference_of own word scale }
    {
        let v = Self::from_word(word);
        inverse(Self::output(v.number), v.negative, scale)
    }

    // LOGSCL and LOGSCH: the next log factor is the old one times 32512, plus a weight, kept between 0 and the top.
    #[tactic(auto, unfolding(g722::specs::Quantise::logsc))]
    fn logsc(word: u8, log: i16) -> i16
        ensures { result ≡ log_of own word log }
    {
        let weight = Self::weight(Self::from_word(word).number);
        clamp(i32::from(add(mul(log, 32512), weight)), 0, Self::TOP)
    }

    // SCALEL and SCALEH: the scale factor that a log factor gives.
    fn scale(log: i16) -> i16
        ensures { result ≡ scale_of own log }
    {
        scale_at(usize::from(size(log)) / 64 + usize::from(Self::FIRST))
    }

    // Both factors after a word.
    fn factors(f: Factors, word: u8) -> Factors
        ensures { result ≡ factors_of own f word }
    {
        let log = Self::logsc(word, f.log);
        Factors {
            log,
            scale: Self::scale(log),
        }
    }

    ghost top_own: { TOP ≡ own.top };

    ghost first_own: { FIRST ≡ own.first };

    // Eight times an output fits 16 bits.
    ghost outputs_small: { (k : ℕ) → get_or own.outputs k 0 ≤ 4095 };
}

// The low band: words of six bits, of which the loop goes by the upper four.
pub struct Low;

impl SubBand for Low {
    const TOP: i16 = 18432;

    const FIRST: u16 = 64;

    ghost TOP = { pos 18432 };

    ghost FIRST = { 64 };

    ghost own = { low_own };

    ghost top_own = { refl };

    ghost first_own = { refl };

    ghost outputs_small = { qq4_small };

    fn interval(size: u16, scale: i16) -> u8 {
        low_interval(size, scale)
    }

    fn to_word(v: Interval) -> u8 {
        to_six(v)
    }

    fn from_word(il: u8) -> Interval {
        from_four(il / 4)
    }

    fn output(k: u8) -> u16 {
        qq4_at(k)
    }

    fn weight(k: u8) -> i16 {
        wl_at(k)
    }
}

// The high band: words of two bits.
pub struct High;

impl SubBand for High {
    const TOP: i16 = 22528;

    const FIRST: u16 = 0;

    ghost TOP = { pos 22528 };

    ghost FIRST = { 0 };

    ghost own = { high_own };

    ghost top_own = { refl };

    ghost first_own = { refl };

    ghost outputs_small = { qq2_small };

    fn interval(size: u16, scale: i16) -> u8 {
        high_interval(size, scale)
    }

    fn to_word(v: Interval) -> u8 {
        to_two(v)
    }

    fn from_word(ih: u8) -> Interval {
        from_two(ih)
    }

    fn output(k: u8) -> u16 {
        qq2_at(k)
    }

    fn weight(k: u8) -> i16 {
        wh_at(k)
    }
}

// QUANTL: the 6-bit word of a difference.
#[tactic(auto, using(crate::specs::Own::low_quant))]
pub fn quantl(el: i16, detl: i16) -> u8
    ensures { result ≡ quantl el detl }
{
    Low::quant(el, detl)
}

// QUANTH: the 2-bit word.
#[tactic(auto, using(crate::specs::Own::high_quant))]
pub fn quanth(eh: i16, deth: i16) -> u8
    ensures { result ≡ quanth eh deth }
{
    High::quant(eh, deth)
}
