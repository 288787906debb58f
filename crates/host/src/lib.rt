// The calls for a host that is not Rattle, over numbers and byte slices, but for the two steps of decoding (`host_steps`). The host keeps
// the state as bytes.
#![tactic(auto)]

ghost use Rattle.std.specs.Prelude.{◌≡◌, min};
ghost use Rattle.laws.specs.Outcome.{Does};
ghost use Rattle.g722.specs.Refused.{number_of, index_of};
ghost use Rattle.host.specs.Answer.{packed};
ghost use Rattle.host.specs.Calls.{code_bytes, decode_bytes, put_bytes, take_bytes};

use g722::Refusal;
use pcm::{decode_chunk, encode_chunk};
use state::{read_coder, read_decoder, write_coder, write_decoder};

// The word of an accepted call: its count.
#[tactic(auto, unfolding(crate::specs::Answer::packed))]
pub fn accepted(limited: u32) -> u64
    ensures { result ≡ packed 0 0 limited }
{
    4294967296 * u64::from(limited)
}

// The word of a refused call: its number, and its index. A chunk's index is small; one that has no room in its 24 bits is told as the
// greatest that has.
#[tactic(auto, unfolding(crate::specs::Answer::packed))]
pub fn refused(refusal: Refusal) -> u64
    ensures { result ≡ packed (number_of refusal) (min (index_of refusal) 16777215) 0 }
{
    u64::from(refusal.number()) + 256 * (refusal.index().min(16777215) as u64)
}

// Codes 4n bytes of samples to n octets.
pub fn zelcandry_code(state: &mut [u8], samples: &[u8], octets: &mut [u8]) -> u64
    ensures { Does (code_bytes state.old samples.now octets.old) result
        (state.new, octets.new) }
{
    match encode_chunk(read_coder(state), samples, octets) {
        Ok(coded) => {
            write_coder(coded.next, state);
            accepted(coded.limited)
        }
        Err(refusal) => refused(refusal),
    }
}

// Decodes n octets to 4n bytes of samples, in a told mode.
pub fn zelcandry_decode(state: &mut [u8], mode: u8, octets: &[u8], samples: &mut [u8]) -> u64
    ensures { Does (decode_bytes state.old mode octets.now samples.old) result
        (state.new, samples.new) }
{
    match decode_chunk(read_decoder(state), mode, octets, samples) {
        Ok(decoded) => {
            write_decoder(decoded.next, state);
            accepted(decoded.limited)
        }
        Err(refusal) => refused(refusal),
    }
}

// Puts data into octets.
pub fn zelcandry_put(mode: u8, octets: &mut [u8], bytes: &[u8]) -> u64
    ensures { Does (put_bytes mode octets.old bytes.now) result octets.new }
{
    match cue::put(mode, octets, bytes) {
        Ok(()) => accepted(0),
        Err(refusal) => refused(refusal),
    }
}

// Takes data out of octets.
pub fn zelcandry_take(mode: u8, octets: &[u8], bytes: &mut [u8]) -> u64
    ensures { Does (take_bytes mode octets.now bytes.old) result bytes.new }
{
    match cue::take(mode, octets, bytes) {
        Ok(()) => accepted(0),
        Err(refusal) => refused(refusal),
    }
}
