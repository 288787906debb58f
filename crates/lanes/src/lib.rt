// FILTEZ and UPZERO over rows of eight lanes: six coefficients, and two lanes beside them whose past differences are 0.
#![tactic(auto)]

ghost use Rattle.std.specs.Prelude.{◌≡◌, cond, ◌&&◌, ◌≤◌, pos, negsuc, neg_ℤ, nat_abs, ◌-ℤ◌};
ghost use mathlib.Core.List.{zip_with};
ghost use Rattle.std.specs.Int.Signed.{lt_z};
ghost use Rattle.laws.specs.Order.{up};
ghost use Rattle.g722.specs.Arithmetic.{neg, negative, add, mul};
ghost use Rattle.g722.specs.Band.{upzero};
ghost use Rattle.idle.specs.Plain.{raw, signed_gain};
ghost use Rattle.lanes.specs.Sum.{plain_of};

use arith::{add, mul};
use std::array;

// A plain sum of terms, and whether it is what the chain of stopping sums gives: neither its positive nor its negative terms,
// added up, leave 16 bits.
#[derive(Clone, Copy)]
pub struct PlainSum {
    pub sum: i32,
    pub whole: bool,
}

// A term of the sum before its stop.
fn raw(b: i16, d: i16) -> i32
    ensures { (result ≡ raw b d) × (nat_abs result ≤ 32768) }
{
    (i32::from(b) * i32::from(add(d, d))) >> 15
}

// x where it is above 0, else 0.
fn positive(x: i32) -> i32
    ensures { result ≡ pos (up x) }
{
    x.max(0)
}

// Whether neither the positive nor the negative terms of a sum leave 16 bits: all is the sum, high that of its positive terms.
fn whole(all: i32, high: i32) -> bool
    requires { nat_abs (all -ℤ high) ≤ 524288 }
    ensures { result ≡ (lt_z high (pos 32768) && lt_z (neg 32769) (all -ℤ high)) }
{
    high < 32768 && -32769 < all - high
}

// The plain sum of a row of eight lanes.
pub fn plain(b: [i16; 8], d: [i16; 8]) -> PlainSum
    ensures { result ≡ plain_of b d }
{
    let mut sum = 0;
    let mut high = 0;
    for (b, d) in b.iter().zip(&d) {
        let w = raw(*b, *d);
        sum += w;
        high += positive(w);
    }
    PlainSum {
        sum,
        whole: whole(sum, high),
    }
}

// -1 below 0, else 1.
fn side(x: i16) -> i16
    ensures { result ≡ cond (negative x) (negsuc 0) (pos 1) }
{
    1 + 2 * (x >> 15)
}

// The gain of UPZERO with the sign of the difference.
fn signed_gain(d: i16) -> i16
    ensures { result ≡ signed_gain d }
{
    if d < 0 {
        -128
    } else if 0 < d {
        128
    } else {
        0
    }
}

// One coefficient's next value, at the signed gain g.
fn moved(g: i16, b: i16, past: i16) -> i16
    requires { nat_abs g ≤ 128 }
    ensures { result ≡ add (cond (negative past) (neg_ℤ g) g) (mul b (pos 32640)) }
{
    add(side(past) * g, mul(b, 32640))
}

// UPZERO over a row.
pub fn adapt(b: [i16; 8], past: [i16; 8], d: i16) -> [i16; 8]
    ensures { result ≡ zip_with (upzero d) b past }
{
    let g = signed_gain(d);
    array::from_fn(|k| moved(g, b[k], past[k]))
}
