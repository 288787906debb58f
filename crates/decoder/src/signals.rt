// The first step: octets to the low and high signals that are heard. It moves both bands, and leaves the past pairs.
ghost use Rattle.std.specs.Prelude.{◌≡◌, map, ◌≤◌, length};
ghost use Rattle.laws.specs.Outcome.{Does};
ghost use Rattle.facts.specs.Blocks.{done};
ghost use Rattle.g722.specs.Answers.{answered};
ghost use Rattle.g722.specs.Arithmetic.{limit, overloads};
ghost use Rattle.g722.specs.Steps.{unpaired, heard, hear_call};

use crate::good_decoder;
use crate::kept::{Kept, given};
use arith::limit;
use g722::{Accepted, Decoder, Refusal};
use quant::in_force;
use sweep::hear_band;

// Whether lent lengths do not fit: n signals of each band to n octets, n at most 8000.
#[tactic(auto, unfolding(g722::specs::Steps::unpaired))]
fn unpaired(octets: usize, low: usize, high: usize) -> bool
    ensures { result ≡ unpaired octets low high }
{
    octets > 8000 || low != octets || high != octets
}

// Limits each signal where it stands, and counts those that it changes.
fn limit_all(x: &mut [i16]) -> u32
    requires { length x.old ≤ 8000 }
    ensures { (result ≡ overloads x.old) × (x.new ≡ map limit x.old) }
{
    let mut limited = 0;
    for signal in x {
        let kept = limit(i32::from(*signal));
        *signal = kept.value;
        limited += u32::from(kept.changed);
    }
    limited
}

// Octet after octet of a block, in the mode in force.
pub(crate) fn hear_block(
    mode: u8,
    d: Kept,
    octets: &[u8],
    low: &mut [i16],
    high: &mut [i16],
) -> Accepted<Kept>
    requires octets_len_bound { length octets.now ≤ 160 }
    requires low_len { length low.old ≡ length octets.now }
    requires high_len { length high.old ≡ length octets.now }
    ensures { Does (heard mode d.decoder octets.now) (done result.limited result.next.decoder) (low.new, high.new) }
{
    let low_band = hear_band(false, mode, d.decoder.low, octets, low);
    let high_band = hear_band(true, mode, d.decoder.high, octets, high);
    Accepted {
        limited: limit_all(low) + limit_all(high),
        next: Kept {
            decoder: Decoder {
                low: low_band,
                high: high_band,
                past: d.decoder.past,
            },
        },
    }
}

// Block after block.
fn hear_all(mode: u8, d: Kept, octets: &[u8], low: &mut [i16], high: &mut [i16]) -> Accepted<Kept>
    requires octets_len_bound { length octets.now ≤ 8000 }
    requires low_len { length low.old ≡ length octets.now }
    requires high_len { length high.old ≡ length octets.now }
    ensures { Does (heard mode d.decoder octets.now) (done result.limited result.next.decoder) (low.new, high.new) }
{
    let mut next = d;
    let mut limited = 0;
    for at in (0..octets.len()).step_by(160) {
        let to = octets.len().min(at + 160);
        let done = hear_block(
            mode,
            next,
            &octets[at..to],
            &mut low[at..to],
            &mut high[at..to],
        );
        next = done.next;
        limited += done.limited;
    }
    Accepted { limited, next }
}

// A call of the first step: n octets to n low and n high signals, n at most 8000, in a told mode, 0 being no indication.
#[tactic(auto, unfolding(g722::specs::Steps::hear_call, g722::specs::Steps::not_heard, g722::specs::Steps::unpaired))]
pub fn hear(
    d: Decoder,
    told: u8,
    octets: &[u8],
    low: &mut [i16],
    high: &mut [i16],
) -> Result<Accepted<Decoder>, Refusal>
    ensures { Does (hear_call d told octets.now low.old high.old) (answered d result)
        (low.new, high.new) }
{
    let unfit = unpaired(octets.len(), low.len(), high.len());
    let good = good_decoder(d);
    if told > 3 {
        return Err(Refusal::Mode);
    }
    if unfit {
        return Err(Refusal::Length);
    }
    if !good {
        return Err(Refusal::Record);
    }
    Ok(given(hear_all(in_force(told), Kept { decoder: d }, octets, low, high)))
}
