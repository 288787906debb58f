// Decoding: octets to samples in a told mode, with its refusals 1, 3, 2 (SCOPE 8), and the two steps that it is made of.
#![tactic(auto)]

mod kept;
mod samples;
mod signals;

ghost use Rattle.std.specs.Prelude.{◌≡◌, ◌*◌, ◌≤◌, length};
ghost use Rattle.laws.specs.Outcome.{Does};
ghost use Rattle.facts.specs.Blocks.{done};
ghost use Rattle.g722.specs.Answers.{answered};
ghost use Rattle.g722.specs.Records.{reset_decoder, good_decoder};
ghost use Rattle.g722.specs.Decoding.{decoded, decode_call};

use bounds::{all_in_range, good_high, good_low, misfit, reset_band};
use g722::{Accepted, Decoder, Pairs, Refusal};
use kept::{Kept, given};
use quant::in_force;
pub use samples::join;
use samples::join_block;
pub use signals::hear;
use signals::hear_block;

// The record from which both ends start.
#[tactic(auto, unfolding(g722::specs::Records::reset_decoder))]
pub fn reset() -> Decoder
    ensures { result ≡ reset_decoder }
{
    Decoder {
        low: reset_band(32),
        high: reset_band(8),
        past: Pairs {
            rl: [0; 11],
            rh: [0; 11],
        },
    }
}

// Whether a record keeps its bounds.
#[tactic(auto, unfolding(g722::specs::Records::good_decoder))]
pub fn good_decoder(d: Decoder) -> bool
    ensures { result ≡ good_decoder d }
{
    good_low(d.low) && good_high(d.high) && all_in_range(&d.past.rl) && all_in_range(&d.past.rh)
}

// The two steps in turn, with lent room for the signals on their way.
fn in_turn(
    mode: u8,
    d: Kept,
    octets: &[u8],
    low: &mut [i16],
    high: &mut [i16],
    samples: &mut [i16],
) -> Accepted<Kept>
    requires octets_len_bound { length octets.now ≤ 160 }
    requires low_len { length low.old ≡ length octets.now }
    requires high_len { length high.old ≡ length octets.now }
    requires samples_len { length samples.old ≡ 2 * length octets.now }
    ensures { Does (decoded mode d.decoder octets.now) (done result.limited result.next.decoder) samples.new }
{
    let heard = hear_block(mode, d, octets, low, high);
    join_block(heard.next, low, high, samples)
}

// The same over a block, with room of its own, which begins as ones: for zeros the compiler would call C's memset.
fn block(mode: u8, d: Kept, octets: &[u8], samples: &mut [i16]) -> Accepted<Kept>
    requires octets_len_bound { length octets.now ≤ 160 }
    requires samples_len { length samples.old ≡ 2 * length octets.now }
    ensures { Does (decoded mode d.decoder octets.now) (done result.limited result.next.decoder) samples.new }
{
    let n = octets.len();
    let mut low = [1i16; 160];
    let mut high = [1i16; 160];
    in_turn(mode, d, octets, &mut low[..n], &mut high[..n], samples)
}

// Block after block, so that the signals of a long call need no more room than those of a short one.
fn run(mode: u8, d: Kept, octets: &[u8], samples: &mut [i16]) -> Accepted<Kept>
    requires octets_len_bound { length octets.now ≤ 8000 }
    requires samples_len { length samples.old ≡ 2 * length octets.now }
    ensures { Does (decoded mode d.decoder octets.now) (done result.limited result.next.decoder) samples.new }
{
    let mut next = d;
    let mut limited = 0;
    for at in (0..octets.len()).step_by(160) {
        let to = octets.len().min(at + 160);
        let done = block(mode, next, &octets[at..to], &mut samples[2 * at..2 * to]);
        next = done.next;
        limited += done.limited;
    }
    Accepted { limited, next }
}

// A decoding call: n octets to 2n samples, n at most 8000, in a told mode, 0 being no indication.
#[tactic(auto, unfolding(g722::specs::Decoding::decode_call, g722::specs::Decoding::not_decoded, g722::specs::Coding::misfit))]
pub fn decode(
    d: Decoder,
    told: u8,
    octets: &[u8],
    samples: &mut [i16],
) -> Result<Accepted<Decoder>, Refusal>
    ensures { Does (decode_call d told octets.now samples.old) (answered d result) samples.new }
{
    let unfit = misfit(samples.len(), octets.len());
    let good = good_decoder(d);
    if told > 3 {
        return Err(Refusal::Mode);
    }
    if unfit {
        return Err(Refusal::Length);
    }
    if !good {
        return Err(Refusal::Record);
    }
    Ok(given(run(in_force(told), Kept { decoder: d }, octets, samples)))
}
