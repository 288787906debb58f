// The adaptive predictor, block 4 of section 6.2: one for both bands and both ends.
#![tactic(auto)]

ghost use Rattle.std.specs.Prelude.{◌≡◌};
ghost use mathlib.Core.List.{zip_with};
ghost use Rattle.g722.specs.Band.{slide, term, filtez, filtep, gain, upzero, four, turned, uppol2, uppol1, next_zeros, next_poles};
ghost use Rattle.band.specs.Loop.{estimated, adapted};

use arith::{add, clamp, mul, same_sign, sub};
use g722::{Band, Factors, Poles, Zeros};
use std::array;

// What is known before the difference: SZ, the output of the transversal part, and S, the prediction.
#[derive(Clone, Copy)]
pub struct Estimates {
    pub sz: i16,
    pub s: i16,
}

// One term of a predictor's sum: a coefficient times twice a past value.
fn term(b: i16, d: i16) -> i16
    ensures { result ≡ term b d }
{
    mul(b, add(d, d))
}

// FILTEZ: the output of the transversal part, summed from the oldest on. It stays a function of its own in the machine code: the loop of
// `sweep` seldom calls it, and is to stay small.
#[inline(never)]
pub fn filtez(z: Zeros) -> i16
    ensures { result ≡ filtez z }
{
    z.b.iter()
        .zip(&z.d)
        .fold(0, |sum, (b, d)| add(sum, term(*b, *d)))
}

// FILTEP: the output of the recursive part.
pub fn filtep(s: Poles) -> i16
    ensures { result ≡ filtep s }
{
    add(term(s.a1, s.r1), term(s.a2, s.r2))
}

// FILTEZ and PREDIC.
pub fn estimate(s: Band) -> Estimates
    ensures { result ≡ estimated s }
{
    let sz = filtez(s.zeros);
    let predicted = add(filtep(s.poles), sz);
    Estimates { sz, s: predicted }
}

// The gain of UPZERO: none at a difference of 0.
fn gain(d: i16) -> i16
    ensures { result ≡ gain d }
{
    if d == 0 { 0 } else { 128 }
}

// UPZERO: the next value of the coefficient bi, which meets the past difference di, at the difference d.
pub fn upzero(d: i16, bi: i16, di: i16) -> i16
    ensures { result ≡ upzero d bi di }
{
    let g = gain(d);
    let signed = if same_sign(d, di) { g } else { sub(0, g) };
    add(signed, mul(bi, 32640))
}

// The first coefficient four times, by sums that stop.
fn four(a1: i16) -> i16
    ensures { result ≡ four a1 }
{
    let two = add(a1, a1);
    add(two, two)
}

// That number after its sign and its shift by 7.
fn turned(s: Poles, p: i16) -> i16
    ensures { result ≡ turned s p }
{
    let f = four(s.a1);
    let signed = if same_sign(p, s.p1) { sub(0, f) } else { f };
    signed >> 7
}

// UPPOL2: the next second coefficient, at the partial signal p.
pub fn uppol2(s: Poles, p: i16) -> i16
    ensures { result ≡ uppol2 s p }
{
    let step = if same_sign(p, s.p2) { 128 } else { -128 };
    let sum = add(turned(s, p), step);
    add(sum, mul(s.a2, 32512)).clamp(-12288, 12288)
}

// UPPOL1: the next first coefficient, after the next second one.
pub fn uppol1(s: Poles, apl2: i16, p: i16) -> i16
    ensures { result ≡ uppol1 s apl2 p }
{
    let step = if same_sign(p, s.p1) { 192 } else { -192 };
    let sum = add(step, mul(s.a1, 32640));
    let reach = sub(15360, apl2);
    clamp(i32::from(sum), sub(0, reach), reach)
}

// The next six coefficients.
fn coefficients(z: Zeros, d: i16) -> [i16; 6]
    ensures { result ≡ zip_with (upzero d) z.b z.d }
{
    array::from_fn(|k| upzero(d, z.b[k], z.d[k]))
}

// The row of past differences after d: the oldest leaves it.
fn slide(past: [i16; 6], d: i16) -> [i16; 6]
    ensures { result ≡ slide past d }
{
    let mut row = past;
    row.rotate_left(1);
    row[5] = d;
    row
}

// The transversal part after the difference d.
pub fn next_zeros(z: Zeros, d: i16) -> Zeros
    ensures { result ≡ next_zeros z d }
{
    Zeros {
        b: coefficients(z, d),
        d: slide(z.d, d),
    }
}

// The recursive part after the partial signal p and the reconstructed signal r.
pub fn next_poles(s: Poles, p: i16, r: i16) -> Poles
    ensures { result ≡ next_poles s p r }
{
    let a2 = uppol2(s, p);
    let a1 = uppol1(s, a2, p);
    Poles {
        a1,
        a2,
        r1: r,
        r2: s.r1,
        p1: p,
        p2: s.p1,
    }
}

// PARREC, RECONS and the next record: the band after its estimate, the difference d and the next factors f.
pub fn adapt(s: Band, e: Estimates, d: i16, f: Factors) -> Band
    ensures { result ≡ adapted s e d f }
{
    let p = add(d, e.sz);
    let r = add(e.s, d);
    Band {
        zeros: next_zeros(s.zeros, d),
        poles: next_poles(s.poles, p, r),
        factors: f,
    }
}
