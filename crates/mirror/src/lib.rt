// The two quadrature mirror filters of section 5, over a block of at most 160 pairs. Each filter goes over two rows of numbers, the past
// ones first, with twelve taps at every place: so the compiler takes several places at a time. Time runs left to right in every array.
#![tactic(auto)]

mod receive;
mod rows;
mod transmit;

ghost use Rattle.std.specs.Prelude.{◌≡◌, ◌*◌, ◌≤◌, ◌<◌, nat_abs};
ghost use Rattle.mirror.specs.Rows.{nth, taps_at};
ghost use Rattle.mirror.specs.Block.{block_fits};

use g722::Pairs;
pub use receive::join;
pub use transmit::split;

// What the transmit filter leaves of a block: how many of its signals were limited, and the 22 samples that the next one sees again.
#[derive(Clone, Copy)]
pub struct Parted {
    pub limited: u32,
    pub past: [i16; 22],
}

// What the receive filter leaves of a block: how many of its samples were limited, and the eleven pairs that the next one sees again.
#[derive(Clone, Copy)]
pub struct Joined {
    pub limited: u32,
    pub past: Pairs,
}

// Table 11: H0 to H23.
const H: [i16; 24] = [
    3, -11, -11, 53, 12, -156, 32, 362, -210, -805, 951, 3876, 3876, // H12
    951, -805, -210, 362, 32, -156, 12, 53, -11, -11, 3,
];

// Twelve taps of one phase at place i of a row: H(2j + phase) meets the number j places before place i + 11.
fn taps(phase: usize, x: &[i16; 171], i: usize) -> i32
    requires phase_bound { phase ≤ 1 }
    requires i_bound { i < 160 }
    ensures { (result ≡ taps_at phase (nth x.now) i) × (nat_abs result ≤ 6482 * 32768) }
{
    let h = H;
    let mut sum = 0;
    for j in 0..12 {
        sum += i32::from(h[2 * j + phase]) * i32::from(x[i + 11 - j]);
    }
    sum
}

// Whether so many samples and low and high signals make one block.
#[tactic(auto, unfolding(crate::specs::Block::block_fits))]
fn fits(samples: usize, low: usize, high: usize) -> bool
    ensures { result ≡ block_fits samples low high }
{
    low <= 160 && samples == 2 * low && high == low
}
