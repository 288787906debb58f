// A record as the bytes that a host keeps: which record it is, then its values, two bytes each, high byte first.
#![tactic(auto)]

mod read;
mod write;

ghost use Rattle.std.specs.Prelude.{◌≡◌};
ghost use Rattle.state.specs.Layout.{byte_of};

use g722::Band;
pub use read::{read_coder, read_decoder};
pub use write::{write_coder, write_decoder};

// How many bytes a state has, and where its parts begin, behind the one that says which record it is.
const LENGTH: usize = 125;

const LOW: usize = 1;

const HIGH: usize = 41;

const PAST: usize = 81;

// Which record a state is of, as its first byte says.
#[derive(Clone, Copy)]
enum Kind {
    OfCoder = 1,
    OfDecoder = 2,
}

// The first byte of such a state.
fn first_byte(kind: Kind) -> u8
    ensures { result ≡ byte_of kind }
{
    kind as u8
}

// What either record has: two bands, and 22 values more.
#[derive(Clone, Copy)]
struct Parts {
    low: Band,
    high: Band,
    past: [i16; 22],
}
