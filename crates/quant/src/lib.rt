// Blocks 1, 2, 3 and 5 of section 6: the level search, the inverse quantisers, and the log and scale factors.
#![tactic(auto)]

mod inverse;
mod levels;
mod sub_band;

ghost use Rattle.std.specs.Prelude.{◌≡◌, ◌≤◌};
ghost use Rattle.std.specs.Int.Signed.{mag};
ghost use Rattle.g722.specs.Arithmetic.{mul};

pub use inverse::{in_force, invqbl};
pub use sub_band::{High, Low, SubBand, quanth, quantl};

// The product shifted right by 15, where no stop can come in: a is at most 32766 in size.
fn product(a: i16, b: i16) -> i32
    requires { mag a ≤ 32766 }
    ensures { result ≡ mul a b }
{
    (i32::from(a) * i32::from(b)) >> 15
}
