// One band over a block of at most 160 octets, at either end. The low and the high band are one loop: they differ in their tables.
#![tactic(auto)]

mod code;
mod factors;
mod hear;
mod lookup;
mod poles;
mod rows;
mod run;
mod turn;

ghost use Rattle.std.specs.Prelude.{◌≡◌};
ghost use Rattle.sweep.specs.Block.{takes};

use bounds::good_poles;
pub use code::code_band;
use g722::Poles;
pub use hear::hear_band;
use idle::{Recursive, Scales};

// What a turn gives: the quantised difference, and the next of all but the transversal part.
#[derive(Clone, Copy)]
pub(crate) struct Turned {
    pub(crate) d: i16,
    pub(crate) poles: Recursive,
    pub(crate) factors: Scales,
}

// Whether a block is taken: so many items with so many places for what comes of them, from these coefficients.
pub(crate) fn takes(p: Poles, items: usize, places: usize) -> bool
    ensures { result ≡ takes p items places }
{
    places <= 160 && items == places && good_poles(p)
}
