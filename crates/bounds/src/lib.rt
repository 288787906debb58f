// The bounds of records and of samples: SCOPE 2 and 14 to 22.
#![tactic(auto)]

ghost use Rattle.std.specs.Prelude.{◌≡◌};
ghost use Rattle.g722.specs.Coding.{misfit, first_bad};
ghost use Rattle.g722.specs.Records.{in_range, all_in_range, good_poles, good_factors, good_low, good_high, reset_band};
ghost use Rattle.quant.specs.Own.{scale_of};

use arith::{sub, within};
use g722::{Band, Factors, Poles, Zeros};
use quant::{High, Low, SubBand};

// Whether lent lengths do not fit: 2n samples to n octets, n at most 8000.
#[tactic(auto, using(std::proofs::lemmas::Bool::Decides::nat_tests), unfolding(g722::specs::Coding::misfit))]
pub fn misfit(samples: usize, octets: usize) -> bool
    ensures { result ≡ misfit samples octets }
{
    8000 < octets || samples != 2 * octets
}

// Whether x lies in the range of samples and sub-band signals.
pub fn in_range(x: i16) -> bool
    ensures { result ≡ in_range x }
{
    within(-16384, 16383, x)
}

// Whether all do, by one pass without a branch.
pub fn all_in_range(xs: &[i16]) -> bool
    ensures { result ≡ all_in_range xs.now }
{
    xs.iter().fold(true, |ok, x| ok & in_range(*x))
}

// The index of the first out of range, or the length where there is none.
pub fn first_bad(xs: &[i16]) -> usize
    ensures { result ≡ first_bad xs.now }
{
    xs.iter().position(|x| !in_range(*x)).unwrap_or(xs.len())
}

// Whether both pole coefficients lie within their bounds.
pub fn good_poles(s: Poles) -> bool
    ensures { result ≡ good_poles s }
{
    let reach = sub(15360, s.a2);
    within(-12288, 12288, s.a2) && within(sub(0, reach), reach, s.a1)
}

// Whether a log factor lies within its limits, and the scale factor beside it is the one that belongs to it.
fn good_factors<B: SubBand>(f: Factors) -> bool
    ensures { result ≡ good_factors B.own.top (scale_of B.own) f }
{
    within(0, B::TOP, f.log) && f.scale == B::scale(f.log)
}

// Whether a low band keeps its bounds.
#[tactic(auto, using(quant::specs::Own::low_scale), unfolding(g722::specs::Records::good_low))]
pub fn good_low(s: Band) -> bool
    ensures { result ≡ good_low s }
{
    good_poles(s.poles) && good_factors::<Low>(s.factors)
}

// Whether a high band does.
#[tactic(auto, using(quant::specs::Own::high_scale), unfolding(g722::specs::Records::good_high))]
pub fn good_high(s: Band) -> bool
    ensures { result ≡ good_high s }
{
    good_poles(s.poles) && good_factors::<High>(s.factors)
}

// A band at reset, with its least scale factor.
pub fn reset_band(scale: i16) -> Band
    ensures { result ≡ reset_band scale }
{
    Band {
        zeros: Zeros {
            b: [0; 6],
            d: [0; 6],
        },
        poles: Poles {
            a1: 0,
            a2: 0,
            r1: 0,
            r2: 0,
            p1: 0,
            p2: 0,
        },
        factors: Factors { log: 0, scale },
    }
}
