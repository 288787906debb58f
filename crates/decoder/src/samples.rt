// The second step: low and high signals to samples, by the receive filter. It moves the past pairs, and leaves both bands.
ghost use Rattle.std.specs.Prelude.{◌≡◌, true, ◌*◌, ◌≤◌, length};
ghost use Rattle.laws.specs.Outcome.{Does};
ghost use Rattle.facts.specs.Blocks.{done};
ghost use Rattle.g722.specs.Answers.{answered};
ghost use Rattle.g722.specs.Records.{all_in_range};
ghost use Rattle.g722.specs.Steps.{joined, join_call};

use crate::good_decoder;
use crate::kept::{Kept, given};
use bounds::{all_in_range, first_bad, misfit};
use g722::{Accepted, Decoder, Refusal};

// Pair after pair of a block.
pub(crate) fn join_block(d: Kept, low: &[i16], high: &[i16], samples: &mut [i16]) -> Accepted<Kept>
    requires low_len_bound { length low.now ≤ 160 }
    requires high_len { length high.now ≡ length low.now }
    requires samples_len { length samples.old ≡ 2 * length low.now }
    requires low_value { all_in_range low.now ≡ true }
    requires high_value { all_in_range high.now ≡ true }
    ensures { Does (joined d.decoder low.now high.now) (done result.limited result.next.decoder) samples.new }
{
    let joined = mirror::join(d.decoder.past, low, high, samples);
    Accepted {
        limited: joined.limited,
        next: Kept {
            decoder: Decoder {
                past: joined.past,
                ..d.decoder
            },
        },
    }
}

// Block after block.
fn join_all(d: Kept, low: &[i16], high: &[i16], samples: &mut [i16]) -> Accepted<Kept>
    requires low_len_bound { length low.now ≤ 8000 }
    requires high_len { length high.now ≡ length low.now }
    requires samples_len { length samples.old ≡ 2 * length low.now }
    requires low_value { all_in_range low.now ≡ true }
    requires high_value { all_in_range high.now ≡ true }
    ensures { Does (joined d.decoder low.now high.now) (done result.limited result.next.decoder) samples.new }
{
    let mut next = d;
    let mut limited = 0;
    for at in (0..low.len()).step_by(160) {
        let to = low.len().min(at + 160);
        let done = join_block(
            next,
            &low[at..to],
            &high[at..to],
            &mut samples[2 * at..2 * to],
        );
        next = done.next;
        limited += done.limited;
    }
    Accepted { limited, next }
}

// A call of the second step: n low and n high signals to 2n samples, n at most 8000. All are looked at before the first is joined.
#[tactic(auto, unfolding(g722::specs::Steps::join_call, g722::specs::Steps::not_joined, g722::specs::Coding::misfit))]
pub fn join(
    d: Decoder,
    low: &[i16],
    high: &[i16],
    samples: &mut [i16],
) -> Result<Accepted<Decoder>, Refusal>
    ensures { Does (join_call d low.now high.now samples.old) (answered d result) samples.new }
{
    let unfit = misfit(samples.len(), low.len());
    let good = good_decoder(d);
    if unfit || high.len() != low.len() {
        return Err(Refusal::Length);
    }
    if !good {
        return Err(Refusal::Record);
    }
    if !all_in_range(low) || !all_in_range(high) {
        return Err(Refusal::Sample(first_bad(low).min(first_bad(high))));
    }
    Ok(given(join_all(Kept { decoder: d }, low, high, samples)))
}
