// The transmit filter: samples to low and high signals.
ghost use Rattle.std.specs.Prelude.{◌≡◌, ◌≤◌, length};
ghost use Rattle.laws.specs.Outcome.{Does};
ghost use Rattle.mirror.specs.Rows.{rows_split};
ghost use Rattle.mirror.specs.Block.{split_block};

use crate::rows::{deal, kept};
use crate::{Parted, fits, taps};
use arith::{changes, limit};

// The transmit filter at as many places as there are signals, and how many of them were limited. XA is of the later samples of the pairs.
fn split_rows(even: &[i16; 171], odd: &[i16; 171], low: &mut [i16], high: &mut [i16]) -> u32
    requires low_len_bound { length low.old ≤ 160 }
    requires high_len { length high.old ≡ length low.old }
    ensures { Does (rows_split even.now odd.now (length low.old)) result
        (low.new, high.new) }
{
    let mut limited = 0;
    for (i, signal) in low.iter_mut().enumerate() {
        let xa = taps(0, odd, i);
        let xb = taps(1, even, i);
        let xl = limit((xa + xb) >> 13);
        let xh = limit((xa - xb) >> 13);
        *signal = xl.value;
        high[i] = xh.value;
        limited += changes(xl, xh);
    }
    limited
}

// The transmit filter over a block: the low and high signals of its samples. A block that does not fit is given back as it came.
#[tactic(auto, using(crate::specs::Fitting::fit_lengths), unfolding(crate::specs::Block::split_block))]
pub fn split(past: [i16; 22], samples: &[i16], low: &mut [i16], high: &mut [i16]) -> Parted
    ensures { Does (split_block past samples.now low.old high.old) result
        (low.new, high.new) }
{
    if !fits(samples.len(), low.len(), high.len()) {
        return Parted { limited: 0, past };
    }
    let n = low.len();
    let mut even = [1i16; 171];
    let mut odd = [1i16; 171];
    deal(&mut even, 0, &past, samples);
    deal(&mut odd, 1, &past, samples);
    let limited = split_rows(&even, &odd, low, high);
    Parted {
        limited,
        past: kept(&even, &odd, n),
    }
}
