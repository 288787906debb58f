// The transversal part over a block: its coefficients in two rows of eight lanes that take turns, its differences in one history.
ghost use Rattle.std.specs.Prelude.{◌≡◌, ℕ, [], ◌∷◌, ◌++◌, pos, ◌+◌, ◌^◌, ◌≤◌, ◌<◌, length, take, drop, replicate};
ghost use Rattle.std.specs.Int.Signed.{mag};
ghost use Rattle.g722.specs.Band.{filtez, next_zeros};
ghost use Rattle.g722.specs.declared.Zeros.{Zeros};
ghost use Rattle.idle.specs.Rows.{zeros_at, Quiet};

use band::filtez;
use g722::Zeros;
use lanes::{adapt, plain};
use std::marker::Model;

// N numbers from place at on.
fn taken<const N: usize>(a: &[i16], at: usize) -> [i16; N]
    requires { at + N ≤ length a.now }
    ensures { result ≡ take N (drop at a.now) }
{
    let mut r = [0i16; N];
    r.copy_from_slice(&a[at..at + N]);
    r
}

// A row put in place from at on.
fn put(b: &mut [i16], at: usize, n: [i16; 8])
    requires { at + 8 ≤ length b.old }
    ensures { b.new ≡ take at b.old ++ (n ++ drop (at + 8) b.old) }
{
    b[at..at + 8].copy_from_slice(&n);
}

// Six coefficients at the start of two rows.
fn two_rows(b: [i16; 6]) -> [i16; 16]
    ensures { result ≡ b ++ replicate 10 (pos 0) }
{
    let mut r = [0i16; 16];
    r[..6].copy_from_slice(&b);
    r
}

// Six differences at the start of a history, and two lanes behind them that are 0. What follows may be anything.
fn begin(history: &mut [i16], d: [i16; 6])
    requires { length history.old ≡ 168 }
    ensures { take 8 history.new ≡ d ++ (pos 0 ∷ pos 0 ∷ []) }
{
    history[..6].copy_from_slice(&d);
    history[6] = 0;
    history[7] = 0;
}

// The coefficients stand from o on, the differences from i on. The two lanes behind the six differences are 0. What follows them may be
// anything.
#[derive(Drop)]
pub(crate) struct Rows {
    b: [i16; 16],
    d: [i16; 168],
    o: usize,
    i: usize,
}

// The record that they stand for, and how many turns they have gone.
impl Model for Rows {
    ghost Value = { Zeros × ℕ };

    ghost view = { λ r. (zeros_at r.b r.o r.d r.i, r.i) };

    ghost invariant = { λ r. (r.o ≤ 8) × (r.i ≤ 160) × Quiet r.d r.i };
}

impl Rows {
    // Before the first turn.
    pub(crate) fn of(z: Zeros) -> Self
        ensures { result ≡ (z, 0) }
    {
        let mut d = [1i16; 168];
        begin(&mut d, z.d);
        Rows {
            b: two_rows(z.b),
            d,
            o: 0,
            i: 0,
        }
    }

    // The record again.
    pub(crate) fn zeros(&self) -> Zeros
        ensures { result ≡ self.now.0 }
    {
        Zeros {
            b: taken(&self.b, self.o),
            d: taken(&self.d, self.i),
        }
    }

    // FILTEZ: the plain sum where it is the chain's, else the chain.
    #[inline(always)]
    pub(crate) fn filtez(&self) -> i32
        ensures { (result ≡ filtez self.now.0) × (mag result < 2 ^ 15) }
    {
        let p = plain(taken(&self.b, self.o), taken(&self.d, self.i));
        if p.whole {
            p.sum
        } else {
            i32::from(filtez(self.zeros()))
        }
    }

    // After the difference e: the coefficients move to the other row, and e joins the differences. The lane that the next turn reads behind
    // them is made 0.
    #[inline(always)]
    pub(crate) fn adapt(&mut self, e: i16)
        requires { self.old.1 < 160 }
        ensures { self.new ≡ (next_zeros self.old.0 e, self.old.1 + 1) }
    {
        let n = adapt(taken(&self.b, self.o), taken(&self.d, self.i), e);
        put(&mut self.b, 8 - self.o, n);
        self.o = 8 - self.o;
        self.d[self.i + 6] = e;
        self.d[self.i + 8] = 0;
        self.i += 1;
    }
}
