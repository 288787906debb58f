// Records to state bytes.
ghost use Rattle.std.specs.Prelude.{◌≡◌, ◌∷◌, ◌++◌, length, take};
ghost use Rattle.laws.specs.Outcome.{Does};
ghost use Rattle.big_endian.specs.Bytes.{pcm_bytes};
ghost use Rattle.state.specs.Layout.{byte_of, band_values, coder_bytes, decoder_bytes, write_call};

use crate::{HIGH, Kind, LENGTH, LOW, PAST, Parts, first_byte};
use big_endian::store;
use g722::{Band, Coder, Decoder, Pairs};

// A band as its 20 values.
fn write_band(s: Band, bytes: &mut [u8])
    requires { length bytes.old ≡ 40 }
    ensures { bytes.new ≡ pcm_bytes (band_values s) }
{
    let p = s.poles;
    let f = s.factors;
    store(&s.zeros.b, &mut bytes[0..12]);
    store(&s.zeros.d, &mut bytes[12..24]);
    store(
        &[p.a1, p.a2, p.r1, p.r2, p.p1, p.p2, f.log, f.scale],
        &mut bytes[24..40],
    );
}

// What both records begin with: the kind, and the two bands.
fn write_bands(kind: u8, low: Band, high: Band, state: &mut [u8])
    requires { length state.old ≡ 125 }
    ensures { take 81 state.new ≡ kind ∷ pcm_bytes (band_values low ++ band_values high) }
{
    state[0] = kind;
    write_band(low, &mut state[LOW..HIGH]);
    write_band(high, &mut state[HIGH..PAST]);
}

// Writes a state where the bytes have its length, and answers whether they have.
fn write(kind: Kind, parts: Parts, state: &mut [u8]) -> bool
    ensures { let values = band_values parts.low ++ (band_values parts.high ++ parts.past) in
        Does (write_call (byte_of kind ∷ pcm_bytes values) state.old) result state.new }
{
    if state.len() != LENGTH {
        return false;
    }
    write_bands(first_byte(kind), parts.low, parts.high, state);
    store(&parts.past, &mut state[PAST..LENGTH]);
    true
}

// The past pairs as 22 values: the low signals, and then the high.
fn joined(pairs: Pairs) -> [i16; 22]
    ensures { result ≡ pairs.rl ++ pairs.rh }
{
    let Pairs { rl, rh } = pairs;
    let mut past = [0; 22];
    past.copy_from_slice([rl, rh].as_flattened());
    past
}

// Writes the coder's record where the bytes have the length of a state, and answers whether they have.
pub fn write_coder(c: Coder, state: &mut [u8]) -> bool
    ensures { Does (write_call (coder_bytes c) state.old) result state.new }
{
    let Coder { low, high, past } = c;
    write(Kind::OfCoder, Parts { low, high, past }, state)
}

// The decoder's.
pub fn write_decoder(d: Decoder, state: &mut [u8]) -> bool
    ensures { Does (write_call (decoder_bytes d) state.old) result state.new }
{
    let Decoder { low, high, past } = d;
    let past = joined(past);
    write(Kind::OfDecoder, Parts { low, high, past }, state)
}
