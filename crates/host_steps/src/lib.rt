// The two steps of decoding for a host that is not Rattle. They are a library of their own, so that their archive (`host_steps_c`) is
// compiled by itself: in one with `zelcandry_decode` the compiler would no longer put into its loops what the steps call too.
#![tactic(auto)]

ghost use Rattle.laws.specs.Outcome.{Does};
ghost use Rattle.host_steps.specs.Calls.{hear_bytes, join_bytes};

use host::{accepted, refused};
use pcm::{hear_chunk, join_chunk};
use state::{read_decoder, write_decoder};

// The first step: n octets to 2n bytes of low and 2n of high signals, in a told mode.
pub fn zelcandry_hear(
    state: &mut [u8],
    mode: u8,
    octets: &[u8],
    low: &mut [u8],
    high: &mut [u8],
) -> u64
    ensures { Does (hear_bytes state.old mode octets.now low.old high.old) result
        (state.new, (low.new, high.new)) }
{
    match hear_chunk(read_decoder(state), mode, octets, low, high) {
        Ok(heard) => {
            write_decoder(heard.next, state);
            accepted(heard.limited)
        }
        Err(refusal) => refused(refusal),
    }
}

// The second step: 2n bytes of low and 2n of high signals to 4n bytes of samples.
pub fn zelcandry_join(state: &mut [u8], low: &[u8], high: &[u8], samples: &mut [u8]) -> u64
    ensures { Does (join_bytes state.old low.now high.now samples.old) result
        (state.new, samples.new) }
{
    match join_chunk(read_decoder(state), low, high, samples) {
        Ok(joined) => {
            write_decoder(joined.next, state);
            accepted(joined.limited)
        }
        Err(refusal) => refused(refusal),
    }
}
