// The coding call: samples to octets, with its refusals 3, 2, 4 (SCOPE 8). A block of samples goes through the transmit filter first, and
// then its signals through both bands: so the filter is a loop of its own, which the compiler makes four pairs at a time of.
#![tactic(auto)]

mod bands;

ghost use Rattle.std.specs.Prelude.{◌≡◌, true, ◌*◌, ◌≤◌, length};
ghost use Rattle.laws.specs.Outcome.{Does};
ghost use Rattle.facts.specs.Blocks.{coder_done};
ghost use Rattle.g722.specs.Answers.{answered};
ghost use Rattle.g722.specs.Records.{all_in_range, reset_coder, good_coder};
ghost use Rattle.g722.specs.Coding.{coded, code_call};

use bands::bands_all;
use bounds::{all_in_range, first_bad, good_high, good_low, misfit, reset_band};
use g722::{Accepted, Band, Coder, Refusal};
use mirror::split;

// Both bands.
#[derive(Clone, Copy)]
pub struct BothBands {
    pub low: Band,
    pub high: Band,
}

// A record that keeps its bounds, as every block leaves it.
#[derive(Clone, Copy)]
struct Kept {
    coder: Coder,
    ghost good: { good_coder coder ≡ true },
}

// The record from which both ends start.
#[tactic(auto, unfolding(g722::specs::Records::reset_coder))]
pub fn reset() -> Coder
    ensures { result ≡ reset_coder }
{
    Coder {
        low: reset_band(32),
        high: reset_band(8),
        past: [0; 22],
    }
}

// Whether a record keeps its bounds.
#[tactic(auto, unfolding(g722::specs::Records::good_coder))]
pub fn good_coder(c: Coder) -> bool
    ensures { result ≡ good_coder c }
{
    good_low(c.low) && good_high(c.high) && all_in_range(&c.past)
}

// The filter and then the bands, with lent room for the signals and words on their way.
fn in_turn(
    c: Kept,
    samples: &[i16],
    low: &mut [i16],
    high: &mut [i16],
    words: &mut [u8],
    octets: &mut [u8],
) -> Accepted<Kept>
    requires octets_len_bound { length octets.old ≤ 160 }
    requires samples_len { length samples.now ≡ 2 * length octets.old }
    requires low_len { length low.old ≡ length octets.old }
    requires high_len { length high.old ≡ length octets.old }
    requires words_len { length words.old ≡ length octets.old }
    requires samples_value { all_in_range samples.now ≡ true }
    ensures { Does (coded c.coder samples.now) (coder_done result.limited result.next.coder) octets.new }
{
    let parted = split(c.coder.past, samples, low, high);
    let bands = bands_all(c.coder.low, c.coder.high, low, high, words, octets);
    let past = parted.past;
    let next = Coder {
        low: bands.low,
        high: bands.high,
        past,
    };
    Accepted {
        limited: parted.limited,
        next: Kept { coder: next },
    }
}

// The same over a block, with room of its own, which begins as ones: for zeros the compiler would call C's memset.
fn block(c: Kept, samples: &[i16], octets: &mut [u8]) -> Accepted<Kept>
    requires octets_len_bound { length octets.old ≤ 160 }
    requires samples_len { length samples.now ≡ 2 * length octets.old }
    requires samples_value { all_in_range samples.now ≡ true }
    ensures { Does (coded c.coder samples.now) (coder_done result.limited result.next.coder) octets.new }
{
    let n = octets.len();
    let mut low = [1i16; 160];
    let mut high = [1i16; 160];
    let mut words = [0u8; 160];
    in_turn(
        c,
        samples,
        &mut low[..n],
        &mut high[..n],
        &mut words[..n],
        octets,
    )
}

// Block after block.
fn run(c: Kept, samples: &[i16], octets: &mut [u8]) -> Accepted<Kept>
    requires octets_len_bound { length octets.old ≤ 8000 }
    requires samples_len { length samples.now ≡ 2 * length octets.old }
    requires samples_value { all_in_range samples.now ≡ true }
    ensures { Does (coded c.coder samples.now) (coder_done result.limited result.next.coder) octets.new }
{
    let mut next = c;
    let mut limited = 0;
    for at in (0..octets.len()).step_by(160) {
        let to = octets.len().min(at + 160);
        let done = block(next, &samples[2 * at..2 * to], &mut octets[at..to]);
        next = done.next;
        limited += done.limited;
    }
    Accepted { limited, next }
}

// A coding call: 2n samples to n octets, n at most 8000. All samples are looked at before the first is coded.
#[tactic(auto, unfolding(g722::specs::Coding::code_call, g722::specs::Coding::not_coded, g722::specs::Coding::misfit))]
pub fn code(c: Coder, samples: &[i16], octets: &mut [u8]) -> Result<Accepted<Coder>, Refusal>
    ensures { Does (code_call c samples.now octets.old) (answered c result) octets.new }
{
    let unfit = misfit(samples.len(), octets.len());
    let good = good_coder(c);
    if unfit {
        return Err(Refusal::Length);
    }
    if !good {
        return Err(Refusal::Record);
    }
    if !all_in_range(samples) {
        return Err(Refusal::Sample(first_bad(samples)));
    }
    let Accepted { limited, next } = run(Kept { coder: c }, samples, octets);
    let next = next.coder;
    Ok(Accepted { limited, next })
}
