// The two steps of decoding on signals that stand as bytes, two a signal.
ghost use Rattle.std.specs.Prelude.{◌≡◌, ◌*◌, ◌/◌, ◌≤◌, false, length};
ghost use Rattle.laws.specs.Outcome.{Does};
ghost use Rattle.g722.specs.Answers.{answered};
ghost use Rattle.pcm.specs.Signals.{unpaired_bytes, hear_chunk, join_chunk};

use big_endian::{load, store};
use decoder::{good_decoder, hear, join};
use g722::{Accepted, Decoder, Refusal};

// The arrays on the way are those of a chunk's calls, for the reasons given there: a frame of 20 ms has its own, and each begins as ones.

// Whether lengths do not fit: n pairs, at most 8000, of two bytes each low and high.
#[tactic(auto, unfolding(crate::specs::Signals::unpaired_bytes))]
fn unpaired(n: usize, low: usize, high: usize) -> bool
    ensures { result ≡ unpaired_bytes n low high }
{
    n > 8000 || low != 2 * n || high != 2 * n
}

// A call of the first step: n octets to 2n bytes of low and 2n of high signals, n at most 8000, in a told mode.
pub fn hear_chunk(
    d: Decoder,
    told: u8,
    octets: &[u8],
    low: &mut [u8],
    high: &mut [u8],
) -> Result<Accepted<Decoder>, Refusal>
    ensures { Does (hear_chunk d told octets.now low.old high.old) (answered d result)
        (low.new, high.new) }
{
    if told > 3 {
        return Err(Refusal::Mode);
    }
    let n = octets.len();
    if unpaired(n, low.len(), high.len()) {
        return Err(Refusal::Length);
    }
    if n <= 160 {
        return hear_and_store::<160>(d, told, octets, low, high);
    }
    if !good_decoder(d) {
        return Err(Refusal::Record);
    }
    hear_and_store::<8000>(d, told, octets, low, high)
}

// A call of the second step: 2n bytes of low and 2n of high signals to 4n bytes of samples, n at most 8000.
pub fn join_chunk(
    d: Decoder,
    low: &[u8],
    high: &[u8],
    samples: &mut [u8],
) -> Result<Accepted<Decoder>, Refusal>
    ensures { Does (join_chunk d low.now high.now samples.old) (answered d result) samples.new }
{
    let n = low.len() / 2;
    if unpaired(n, low.len(), high.len()) || samples.len() != 4 * n {
        return Err(Refusal::Length);
    }
    if n <= 160 {
        return load_and_join::<160, 320>(d, low, high, samples);
    }
    if !good_decoder(d) {
        return Err(Refusal::Record);
    }
    load_and_join::<8000, 16000>(d, low, high, samples)
}

// Hears, with room for N pairs, and writes their signals where the call was not refused.
fn hear_and_store<const N: usize>(
    d: Decoder,
    told: u8,
    octets: &[u8],
    low: &mut [u8],
    high: &mut [u8],
) -> Result<Accepted<Decoder>, Refusal>
    requires room { length octets.now ≤ N }
    requires at_most { N ≤ 8000 }
    requires fit { unpaired_bytes (length octets.now) (length low.old) (length high.old) ≡ false }
    ensures { Does (hear_chunk d told octets.now low.old high.old) (answered d result)
        (low.new, high.new) }
{
    let n = octets.len();
    let mut low_room = [1i16; N];
    let mut high_room = [1i16; N];
    let rl = &mut low_room[..n];
    let rh = &mut high_room[..n];
    let accepted = hear(d, told, octets, rl, rh)?;
    store(rl, low);
    store(rh, high);
    Ok(accepted)
}

// Reads the signals, with room for N pairs and M samples, joins them, and writes the samples where the call was not refused.
fn load_and_join<const N: usize, const M: usize>(
    d: Decoder,
    low: &[u8],
    high: &[u8],
    samples: &mut [u8],
) -> Result<Accepted<Decoder>, Refusal>
    requires room { length low.now / 2 ≤ N }
    requires samples_room { 2 * N ≤ M }
    requires at_most { M ≤ 16000 }
    requires fit { unpaired_bytes (length low.now / 2) (length low.now) (length high.now) ≡ false }
    requires samples_fit { length samples.old ≡ 4 * (length low.now / 2) }
    ensures { Does (join_chunk d low.now high.now samples.old) (answered d result) samples.new }
{
    let n = low.len() / 2;
    let mut low_room = [1i16; N];
    let mut high_room = [1i16; N];
    let mut room = [1i16; M];
    let rl = &mut low_room[..n];
    let rh = &mut high_room[..n];
    let x = &mut room[..2 * n];
    load(low, rl);
    load(high, rh);
    let accepted = join(d, rl, rh, x)?;
    store(x, samples);
    Ok(accepted)
}
