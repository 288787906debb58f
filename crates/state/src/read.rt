// State bytes to records.
ghost use Rattle.std.specs.Prelude.{◌≡◌, length, take, drop};
ghost use Rattle.big_endian.specs.Bytes.{pcm_samples};
ghost use Rattle.state.specs.Layout.{byte_of, band_of, part, holds, coder_in, decoder_in};

use crate::{HIGH, Kind, LENGTH, LOW, PAST, Parts, first_byte};
use big_endian::load;
use bounds::reset_band;
use g722::{Band, Coder, Decoder, Factors, Pairs, Poles, Zeros};

// Whether the bytes have the length of a state, and the first is this kind's.
fn holds(kind: Kind, state: &[u8]) -> bool
    ensures { result ≡ holds (byte_of kind) state.now }
{
    state.len() == LENGTH && state[0] == first_byte(kind)
}

// A band from its 20 values.
fn band(bytes: &[u8]) -> Band
    requires { length bytes.now ≡ 40 }
    ensures { result ≡ band_of (pcm_samples bytes.now) }
{
    let mut b = [0i16; 6];
    let mut d = [0i16; 6];
    let mut rest = [0i16; 8];
    load(&bytes[0..12], &mut b);
    load(&bytes[12..24], &mut d);
    load(&bytes[24..40], &mut rest);
    Band {
        zeros: Zeros { b, d },
        poles: Poles {
            a1: rest[0],
            a2: rest[1],
            r1: rest[2],
            r2: rest[3],
            p1: rest[4],
            p2: rest[5],
        },
        factors: Factors {
            log: rest[6],
            scale: rest[7],
        },
    }
}

// The bands and the values behind them, from the bytes of a state.
fn parts(state: &[u8]) -> Parts
    requires { length state.now ≡ 125 }
    ensures low { result.low ≡ band_of (part 0 20 (pcm_samples (drop 1 state.now))) }
    ensures high { result.high ≡ band_of (part 20 20 (pcm_samples (drop 1 state.now))) }
    ensures past { result.past ≡ part 40 22 (pcm_samples (drop 1 state.now)) }
{
    let mut past = [0; 22];
    load(&state[PAST..LENGTH], &mut past);
    Parts {
        low: band(&state[LOW..HIGH]),
        high: band(&state[HIGH..PAST]),
        past,
    }
}

// The past pairs of 22 values: the low signals, and then the high.
fn parted(past: [i16; 22]) -> Pairs
    ensures rl { result.rl ≡ take 11 past }
    ensures rh { result.rh ≡ take 11 (drop 11 past) }
{
    let mut rl = [0; 11];
    let mut rh = [0; 11];
    rl.copy_from_slice(&past[..11]);
    rh.copy_from_slice(&past[11..]);
    Pairs { rl, rh }
}

// The coder's record that the bytes hold; a broken one where they hold none.
pub fn read_coder(state: &[u8]) -> Coder
    ensures { result ≡ coder_in state.now }
{
    if holds(Kind::OfCoder, state) {
        let Parts { low, high, past } = parts(state);
        Coder { low, high, past }
    } else {
        Coder {
            low: reset_band(0),
            high: reset_band(0),
            past: [0; 22],
        }
    }
}

// The decoder's.
pub fn read_decoder(state: &[u8]) -> Decoder
    ensures { result ≡ decoder_in state.now }
{
    if holds(Kind::OfDecoder, state) {
        let Parts { low, high, past } = parts(state);
        let past = parted(past);
        Decoder { low, high, past }
    } else {
        Decoder {
            low: reset_band(0),
            high: reset_band(0),
            past: Pairs {
                rl: [0; 11],
                rh: [0; 11],
            },
        }
    }
}
