// The arithmetic of section 6 on 16-bit numbers: sums that stop, the product, limits, sign and size.
#![tactic(auto)]

ghost use Rattle.std.specs.Prelude.{◌≡◌};
ghost use Rattle.std.specs.Int.Signed.{mag};
ghost use Rattle.laws.specs.Clamp.{clamp};
ghost use Rattle.g722.specs.Arithmetic.{add, sub, mul, same_sign, within, limited, changes};

use g722::Limited;

// x, kept between lo and hi.
pub fn fit(x: i32, lo: i32, hi: i32) -> i32
    ensures { result ≡ clamp lo hi x }
{
    if x < lo {
        lo
    } else if hi < x {
        hi
    } else {
        x
    }
}

// The same between two ends of 16 bits, and so in 16 bits.
pub fn clamp(x: i32, lo: i16, hi: i16) -> i16
    ensures { result ≡ clamp lo hi x }
{
    fit(x, i32::from(lo), i32::from(hi)) as i16
}

// The sum, which stops at -32768 and 32767.
pub fn add(a: i16, b: i16) -> i16
    ensures { result ≡ add a b }
{
    clamp(i32::from(a) + i32::from(b), -32768, 32767)
}

// The difference, which stops alike.
pub fn sub(a: i16, b: i16) -> i16
    ensures { result ≡ sub a b }
{
    clamp(i32::from(a) - i32::from(b), -32768, 32767)
}

// The product shifted right by 15, rounding down; -32768 times -32768 gives 32767.
pub fn mul(a: i16, b: i16) -> i16
    ensures { result ≡ mul a b }
{
    clamp((i32::from(a) * i32::from(b)) >> 15, -32768, 32767)
}

// x, limited to -16384..16383, and whether that changed it.
pub fn limit(x: i32) -> Limited
    ensures { result ≡ limited x }
{
    let value = clamp(x, -16384, 16383);
    Limited {
        value,
        changed: i32::from(value) != x,
    }
}

// How many of two limited values were changed. The counts are of 32 bits, as are the sums in the filters, so that a loop over both stays
// one over numbers of one width.
pub fn changes(a: Limited, b: Limited) -> u32
    ensures { result ≡ changes a b }
{
    u32::from(a.changed) + u32::from(b.changed)
}

// The size of a difference: x from 0 up, -1 - x below 0.
pub fn size(x: i16) -> u16
    ensures { result ≡ mag x }
{
    (if x < 0 { -1 - x } else { x }) as u16
}

// Whether a and b have one sign, 0 being positive.
pub fn same(a: i32, b: i32) -> bool
    ensures { result ≡ same_sign a b }
{
    (a < 0) == (b < 0)
}

// The same of numbers of 16 bits.
pub fn same_sign(a: i16, b: i16) -> bool
    ensures { result ≡ same_sign a b }
{
    same(i32::from(a), i32::from(b))
}

// Whether lo <= x <= hi.
pub fn within(lo: i16, hi: i16, x: i16) -> bool
    ensures { result ≡ within lo hi x }
{
    (lo..=hi).contains(&x)
}
