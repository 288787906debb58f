// The numbers of a band's loop in 32 bits, for stops that can be left out. Types only; what they stand for is in the definitions.
#![tactic(auto)]

ghost use Rattle.std.specs.Prelude.{◌≡◌, ◌^◌, ◌≤◌, ◌<◌, nat_abs, ◌+ℤ◌};
ghost use Rattle.std.specs.Int.Signed.{mag};
ghost use Rattle.g722.specs.Arithmetic.{stop};

// The recursive part of a predictor: its past signals before their stops, and the doubles of r1 and r2 after theirs. Its coefficients
// have the bounds of a good record.
#[derive(Clone, Copy)]
pub struct Recursive {
    pub a1: i32,
    pub a2: i32,
    pub r1: i32,
    pub r2: i32,
    pub t1: i32,
    pub t2: i32,
    pub p1: i32,
    pub p2: i32,
    pub ghost a1_bound: { nat_abs a1 ≤ 27648 },
    pub ghost a2_bound: { nat_abs a2 ≤ 12288 },
    pub ghost t1_is: { t1 ≡ stop (r1 +ℤ r1) },
    pub ghost t2_is: { t2 ≡ stop (r2 +ℤ r2) },
}

// The log factor and the scale factor, numbers of 16 bits.
#[derive(Clone, Copy)]
pub struct Scales {
    pub log: i32,
    pub scale: i32,
    pub ghost log_bound: { mag log < 2 ^ 15 },
    pub ghost scale_bound: { mag scale < 2 ^ 15 },
}
