// Samples as bytes and back: two bytes a sample, high byte first, two's complement.
ghost use Rattle.std.specs.Prelude.{◌≡◌};
ghost use Rattle.laws.specs.Outcome.{Does};
ghost use Rattle.big_endian.specs.Bytes.{load_call, store_call};

// Reads as many samples as both have room for, and answers how many.
#[tactic(auto, unfolding(crate::specs::Bytes::load_call, crate::specs::Bytes::loaded, crate::specs::Bytes::pcm_samples))]
pub fn load(bytes: &[u8], samples: &mut [i16]) -> usize
    ensures { Does (load_call bytes.now samples.old) result samples.new }
{
    let (pairs, _) = bytes.as_chunks::<2>();
    let n = pairs.len().min(samples.len());
    for (i, x) in samples[..n].iter_mut().enumerate() {
        *x = i16::from_be_bytes(pairs[i]);
    }
    n
}

// Writes as many samples as both have room for, and answers how many.
#[tactic(auto, unfolding(crate::specs::Bytes::store_call, crate::specs::Bytes::stored, crate::specs::Bytes::pcm_bytes))]
pub fn store(samples: &[i16], bytes: &mut [u8]) -> usize
    ensures { Does (store_call samples.now bytes.old) result bytes.new }
{
    let n = samples.len().min(bytes.len() / 2);
    for (i, x) in samples[..n].iter().enumerate() {
        bytes[2 * i..2 * i + 2].copy_from_slice(&x.to_be_bytes());
    }
    n
}
