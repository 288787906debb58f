// The cue channel: data bytes put into the last bits of octets, and taken out of them, highest bit first.
#![tactic(auto)]

ghost use Rattle.std.specs.Prelude.{◌≡◌, ◌+◌, ◌*◌, ◌^◌, ◌≤◌, ◌<◌, length, take, drop, get_or, IfOk};
ghost use Rattle.std.specs.Result.{result_map_both};
ghost use Rattle.laws.specs.Outcome.{Does};
ghost use Rattle.g722.specs.Answers.{moved};
ghost use Rattle.g722.specs.Cue.{bits_of, spelt, gathered, carrying, given_up, data_number, put_call, take_call};
ghost use Rattle.cue.specs.Fills.{Fills};

use g722::Refusal;

// Bit n of all the bits that xs give, each its last k, highest first.
#[tactic(auto, using(crate::specs::Bits::bit_of))]
fn bit(xs: &[u8], k: usize, n: usize) -> u8
    requires { (0 < k) × (k ≤ 8) × (n < k * length xs.now) }
    ensures { (result ≡ get_or (bits_of k xs.now) n 0) × (result < 2) }
{
    (xs[n / k] >> (k - 1 - n % k)) % 2
}

// The number that w of these bits spell, from bit n on.
fn spell(xs: &[u8], k: usize, n: usize, w: usize) -> u8
    requires { (0 < k) × (k ≤ 8) × (w ≤ 8) × (n + w ≤ k * length xs.now) × (n + w ≤ 16000) }
    ensures { (result ≡ spelt 0 (take w (drop n (bits_of k xs.now)))) × (result < 2 ^ w) }
{
    (n..n + w).fold(0, |value, at| value * 2 + bit(xs, k, at))
}

// Puts the bits of the bytes into the last k bits of each octet.
#[tactic(auto, using(crate::proofs::Laws::filling))]
fn fill(octets: &mut [u8], bytes: &[u8], k: usize)
    requires { Fills k (length octets.old) (length bytes.now) }
    ensures { octets.new ≡ carrying k octets.old (bits_of 8 bytes.now) }
{
    for (i, octet) in octets.iter_mut().enumerate() {
        *octet = (*octet >> k << k) + spell(bytes, 8, k * i, k);
    }
}

// Takes the bytes out of the last k bits of each octet.
#[tactic(auto, using(crate::proofs::Laws::gathering))]
fn gather(octets: &[u8], bytes: &mut [u8], k: usize)
    requires { Fills k (length octets.now) (length bytes.old) }
    ensures { bytes.new ≡ gathered (length bytes.old) (bits_of k octets.now) }
{
    for (j, byte) in bytes.iter_mut().enumerate() {
        *byte = spell(octets, k, 8 * j, 8);
    }
}

// How many bits of each octet data takes in a mode, where it fills the octets by them. More bytes than octets never do: they are refused
// before 8 * bytes is taken, which then fits.
#[tactic(auto, using(std::proofs::lemmas::Bool::Decides::nat_tests), unfolding(g722::specs::Cue::data_number, g722::specs::Cue::unfilled))]
fn width(mode: u8, octets: usize, bytes: usize) -> Result<usize, Refusal>
    ensures said { moved (result_map_both (λ k. tt) (λ r. r) result) ≡ record { number = data_number mode octets bytes; index = 0 } }
    ensures given { IfOk result (λ k. k ≡ given_up mode) }
{
    if 3 < mode {
        return Err(Refusal::Mode);
    }
    if mode < 2 {
        return Err(Refusal::DataChannel);
    }
    let k = usize::from(mode - 1);
    if 8000 < octets || octets < bytes || 8 * bytes != k * octets {
        return Err(Refusal::Length);
    }
    Ok(k)
}

// Puts data bytes into octets, where the mode and the lengths allow it.
#[tactic(auto, using(crate::proofs::Laws::calls), unfolding(g722::specs::Cue::put_call))]
pub fn put(mode: u8, octets: &mut [u8], bytes: &[u8]) -> Result<(), Refusal>
    ensures { Does (put_call mode octets.old bytes.now) (moved result) octets.new }
{
    let k = width(mode, octets.len(), bytes.len())?;
    fill(octets, bytes, k);
    Ok(())
}

// Takes data bytes out of octets, where they allow it.
#[tactic(auto, using(crate::proofs::Laws::calls), unfolding(g722::specs::Cue::take_call))]
pub fn take(mode: u8, octets: &[u8], bytes: &mut [u8]) -> Result<(), Refusal>
    ensures { Does (take_call mode octets.now bytes.old) (moved result) bytes.new }
{
    let k = width(mode, octets.len(), bytes.len())?;
    gather(octets, bytes, k);
    Ok(())
}
