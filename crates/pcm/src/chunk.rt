// Coding and decoding of samples that stand as bytes, two a sample: one chunk of a stream.
ghost use Rattle.std.specs.Prelude.{◌≡◌, ◌*◌, ◌≤◌, length};
ghost use Rattle.laws.specs.Outcome.{Does};
ghost use Rattle.g722.specs.Answers.{answered};
ghost use Rattle.pcm.specs.Chunks.{encode_chunk, decode_chunk};

use big_endian::{load, store};
use coder::good_coder;
use decoder::good_decoder;
use g722::{Accepted, Coder, Decoder, Refusal};

// The samples of a call stand in a local array on their way. Filling one for the longest call would cost a short call more than its
// own work, so a frame of 20 ms has its own, and a broken record is refused before a long one is filled. Each begins as ones: for
// zeros the compiler would call C's memset, and then a program that links the archive needs one.

// A coding call on bytes: 4n bytes to n octets, n at most 8000.
pub fn encode_chunk(c: Coder, bytes: &[u8], octets: &mut [u8]) -> Result<Accepted<Coder>, Refusal>
    ensures { Does (encode_chunk c bytes.now octets.old) (answered c result) octets.new }
{
    let n = octets.len();
    if n > 8000 || bytes.len() != 4 * n {
        return Err(Refusal::Length);
    }
    if n <= 160 {
        return load_and_code::<320>(c, bytes, octets);
    }
    if !good_coder(c) {
        return Err(Refusal::Record);
    }
    load_and_code::<16000>(c, bytes, octets)
}

// A decoding call to bytes: n octets to 4n bytes, n at most 8000, in a told mode.
pub fn decode_chunk(
    d: Decoder,
    told: u8,
    octets: &[u8],
    bytes: &mut [u8],
) -> Result<Accepted<Decoder>, Refusal>
    ensures { Does (decode_chunk d told octets.now bytes.old) (answered d result) bytes.new }
{
    if told > 3 {
        return Err(Refusal::Mode);
    }
    let n = octets.len();
    if n > 8000 || bytes.len() != 4 * n {
        return Err(Refusal::Length);
    }
    if n <= 160 {
        return decode_and_store::<320>(d, told, octets, bytes);
    }
    if !good_decoder(d) {
        return Err(Refusal::Record);
    }
    decode_and_store::<16000>(d, told, octets, bytes)
}

// Reads the samples, with room for N of them, and codes them.
fn load_and_code<const N: usize>(
    c: Coder,
    bytes: &[u8],
    octets: &mut [u8],
) -> Result<Accepted<Coder>, Refusal>
    requires room { 2 * length octets.old ≤ N }
    requires at_most { N ≤ 16000 }
    requires bytes_len { length bytes.now ≡ 4 * length octets.old }
    ensures { Does (encode_chunk c bytes.now octets.old) (answered c result) octets.new }
{
    let mut room = [1i16; N];
    let samples = &mut room[..bytes.len() / 2];
    load(bytes, samples);
    coder::code(c, samples, octets)
}

// Decodes, with room for N samples, and writes them where the call was not refused.
fn decode_and_store<const N: usize>(
    d: Decoder,
    told: u8,
    octets: &[u8],
    bytes: &mut [u8],
) -> Result<Accepted<Decoder>, Refusal>
    requires room { 2 * length octets.now ≤ N }
    requires at_most { N ≤ 16000 }
    requires bytes_len { length bytes.old ≡ 4 * length octets.now }
    ensures { Does (decode_chunk d told octets.now bytes.old) (answered d result) bytes.new }
{
    let mut room = [1i16; N];
    let samples = &mut room[..2 * octets.len()];
    let accepted = decoder::decode(d, told, octets, samples)?;
    store(samples, bytes);
    Ok(accepted)
}
