// The recursive part of a predictor in 32 bits: its stops left out where the bounds of its coefficients make them idle.
ghost use Rattle.std.specs.Prelude.{◌≡◌, cond, ◌≤◌, pos, nat_abs, ◌+ℤ◌, ◌*ℤ◌};
ghost use Rattle.std.specs.Int.Signed.{shr_z};
ghost use Rattle.g722.specs.Arithmetic.{neg, stop};
ghost use Rattle.g722.specs.Band.{filtep, next_poles};
ghost use Rattle.idle.specs.Recursive.{poles_of, turned_by, second_of, first_of};

use arith::{clamp, fit, same};
use g722::Poles;
use idle::Recursive;

// x if t holds, else y.
fn choose(t: bool, x: i32, y: i32) -> i32
    ensures { result ≡ cond t x y }
{
    if t { x } else { y }
}

// The product shifted right by 15.
fn scaled(a: i32, b: i32) -> i32
    requires a_bound { nat_abs a ≤ 32768 }
    requires b_bound { nat_abs b ≤ 32768 }
    ensures { (result ≡ shr_z (a *ℤ b) 32768) × (nat_abs result ≤ nat_abs a) }
{
    (a * b) >> 15
}

// Twice r, stopped.
fn twice(r: i32) -> i32
    requires { nat_abs r ≤ 65536 }
    ensures { result ≡ stop (r +ℤ r) }
{
    fit(r + r, -32768, 32767)
}

// Four times the first coefficient, after its sign and its shift by 7.
fn turned(t: bool, a1: i32) -> i32
    requires { nat_abs a1 ≤ 27648 }
    ensures { (result ≡ turned_by t a1) × (nat_abs result ≤ 256) }
{
    fit(choose(t, 0 - a1, a1) >> 5, -256, 255)
}

// The next second coefficient.
fn second(one: bool, two: bool, a1: i32, a2: i32) -> i32
    requires a1_bound { nat_abs a1 ≤ 27648 }
    requires a2_bound { nat_abs a2 ≤ 12288 }
    ensures { result ≡ second_of one two a1 a2 }
{
    fit(
        turned(one, a1) + choose(two, 128, -128) + scaled(a2, 32512),
        -12288,
        12288,
    )
}

// The next first coefficient, after the next second one.
fn first(one: bool, a1: i32, a2: i32) -> i32
    requires a1_bound { nat_abs a1 ≤ 27648 }
    requires a2_bound { nat_abs a2 ≤ 12288 }
    ensures { result ≡ first_of one a1 a2 }
{
    fit(
        choose(one, 192, -192) + scaled(a1, 32640),
        a2 - 15360,
        15360 - a2,
    )
}

// FILTEP.
pub(crate) fn filtep(w: Recursive) -> i32
    ensures { (result ≡ filtep (poles_of w)) × (nat_abs result ≤ 32768) }
{
    fit(scaled(w.a1, w.t1) + scaled(w.a2, w.t2), -32768, 32767)
}

// The recursive part after the partial signal p and the reconstructed signal r, neither stopped.
pub(crate) fn next(w: Recursive, p: i32, r: i32) -> Recursive
    requires { nat_abs r ≤ 65536 }
    ensures { poles_of result ≡ next_poles (poles_of w) (stop p) (stop r) }
{
    let one = same(p, w.p1);
    let two = same(p, w.p2);
    let a2 = second(one, two, w.a1, w.a2);
    let a1 = first(one, w.a1, a2);
    Recursive {
        a1,
        a2,
        r1: r,
        r2: w.r1,
        t1: twice(r),
        t2: w.t1,
        p1: p,
        p2: w.p1,
    }
}

// A record's recursive part in 32 bits, where its coefficients keep their bounds.
pub(crate) fn widened(s: Poles) -> Recursive
    requires { (nat_abs s.a1 ≤ 27648) × (nat_abs s.a2 ≤ 12288) }
    ensures { poles_of result ≡ s }
{
    Recursive {
        a1: i32::from(s.a1),
        a2: i32::from(s.a2),
        r1: i32::from(s.r1),
        r2: i32::from(s.r2),
        t1: twice(i32::from(s.r1)),
        t2: twice(i32::from(s.r2)),
        p1: i32::from(s.p1),
        p2: i32::from(s.p2),
    }
}

// And back.
pub(crate) fn narrowed(w: Recursive) -> Poles
    ensures { result ≡ poles_of w }
{
    Poles {
        a1: clamp(w.a1, -32768, 32767),
        a2: clamp(w.a2, -32768, 32767),
        r1: clamp(w.r1, -32768, 32767),
        r2: clamp(w.r2, -32768, 32767),
        p1: clamp(w.p1, -32768, 32767),
        p2: clamp(w.p2, -32768, 32767),
    }
}
