// The rows that the filters go over: at most 160 numbers behind eleven past ones, and no more than that is read of them.
ghost use Rattle.std.specs.Prelude.{◌≡◌, ◌++◌, ℕ, ◌+◌, ◌*◌, ◌/◌, ◌≤◌, length, drop};
ghost use Rattle.mirror.specs.Rows.{nth, from, in_turn, Holds};
ghost use Rattle.mirror.specs.Block.{stopped_xd, stopped_xs};

use arith::{add, sub};
use g722::Pairs;
use std::array;

// Every second sample, from that of a phase on.
fn every_second(row: &mut [i16], phase: usize, samples: &[i16])
    requires phase_bound { phase ≤ 1 }
    requires samples_len { 2 * length row.old ≤ length samples.now }
    ensures { row.new ≡ from (λ (k : ℕ). nth samples.now (2 * k + phase)) 0 (length row.old) }
{
    for (i, sample) in row.iter_mut().enumerate() {
        *sample = samples[2 * i + phase];
    }
}

// One sample of each pair, the earlier ones in phase 0 and the later ones in phase 1: of the past pairs, then of the new ones.
pub(crate) fn deal(row: &mut [i16; 171], phase: usize, past: &[i16; 22], samples: &[i16])
    requires phase_bound { phase ≤ 1 }
    requires samples_len_bound { length samples.now ≤ 320 }
    ensures { Holds (λ (k : ℕ). nth (past.now ++ samples.now) (2 * k + phase)) row.new
        (11 + length samples.now / 2) }
{
    let n = samples.len() / 2;
    every_second(&mut row[..11], phase, past);
    every_second(&mut row[11..11 + n], phase, samples);
}

// The 22 samples of the eleven pairs from place n on.
pub(crate) fn kept(even: &[i16; 171], odd: &[i16; 171], n: usize) -> [i16; 22]
    requires { n ≤ 160 }
    ensures { result ≡ in_turn (λ (k : ℕ). nth even.now (n + k)) (λ (k : ℕ). nth odd.now (n + k)) 0 11 }
{
    array::from_fn(|k| {
        let row = if k % 2 == 0 { even } else { odd };
        row[n + k / 2]
    })
}

// The difference and the sum of each pair.
fn differences_and_sums(xd: &mut [i16], xs: &mut [i16], low: &[i16], high: &[i16])
    requires xs_len { length xs.old ≡ length xd.old }
    requires low_len { length low.now ≡ length xd.old }
    requires high_len { length high.now ≡ length xd.old }
    ensures differences { xd.new ≡ from (stopped_xd low.now high.now) 0 (length xd.old) }
    ensures sums { xs.new ≡ from (stopped_xs low.now high.now) 0 (length xs.old) }
{
    for (i, difference) in xd.iter_mut().enumerate() {
        let l = low[i];
        let h = high[i];
        *difference = sub(l, h);
        xs[i] = add(l, h);
    }
}

// XD and XS of pairs: of the past ones, then of the new ones.
pub(crate) fn cross(
    xd: &mut [i16; 171],
    xs: &mut [i16; 171],
    past: &Pairs,
    low: &[i16],
    high: &[i16],
)
    requires low_len_bound { length low.now ≤ 160 }
    requires high_len { length high.now ≡ length low.now }
    ensures differences { Holds (stopped_xd (past.now.rl ++ low.now) (past.now.rh ++ high.now)) xd.new (11 + length low.now) }
    ensures sums { Holds (stopped_xs (past.now.rl ++ low.now) (past.now.rh ++ high.now)) xs.new (11 + length low.now) }
{
    let n = low.len();
    differences_and_sums(&mut xd[..11], &mut xs[..11], &past.rl, &past.rh);
    differences_and_sums(&mut xd[11..11 + n], &mut xs[11..11 + n], low, high);
}

// The eleven numbers that the next block sees again.
pub(crate) fn last(past: [i16; 11], x: &[i16]) -> [i16; 11]
    ensures { result ≡ drop (length x.now) (past ++ x.now) }
{
    array::from_fn(|i| {
        let k = x.len() + i;
        if k < 11 { past[k] } else { x[k - 11] }
    })
}
