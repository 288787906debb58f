// The receive filter: low and high signals to samples.
ghost use Rattle.std.specs.Prelude.{◌≡◌, ◌/◌, ◌%◌, ◌≤◌, length};
ghost use Rattle.laws.specs.Outcome.{Does};
ghost use Rattle.mirror.specs.Rows.{rows_joined};
ghost use Rattle.mirror.specs.Block.{join_block};

use crate::rows::{cross, last};
use crate::{Joined, fits, taps};
use arith::{changes, limit};
use g722::Pairs;

// The receive filter at as many places as there are pairs of samples, and how many of the samples were limited.
fn join_rows(xd: &[i16; 171], xs: &[i16; 171], samples: &mut [i16]) -> u32
    requires samples_len_bound { length samples.old ≤ 320 }
    requires samples_len_even { length samples.old % 2 ≡ 0 }
    ensures { Does (rows_joined xd.now xs.now (length samples.old / 2)) result samples.new }
{
    let mut limited = 0;
    for i in 0..samples.len() / 2 {
        let first = limit(taps(0, xd, i) >> 12);
        let second = limit(taps(1, xs, i) >> 12);
        samples[2 * i] = first.value;
        samples[2 * i + 1] = second.value;
        limited += changes(first, second);
    }
    limited
}

// The receive filter over a block: the samples of its low and high signals. A block that does not fit is given back as it came.
#[tactic(auto, using(crate::specs::Fitting::fit_lengths), unfolding(crate::specs::Block::join_block))]
pub fn join(past: Pairs, low: &[i16], high: &[i16], samples: &mut [i16]) -> Joined
    ensures { Does (join_block past low.now high.now samples.old) result samples.new }
{
    if !fits(samples.len(), low.len(), high.len()) {
        return Joined { limited: 0, past };
    }
    let mut xd = [1i16; 171];
    let mut xs = [1i16; 171];
    cross(&mut xd, &mut xs, &past, low, high);
    let limited = join_rows(&xd, &xs, samples);
    let next = Pairs {
        rl: last(past.rl, low),
        rh: last(past.rh, high),
    };
    Joined {
        limited,
        past: next,
    }
}
