// Sub-blocks INFA to INFD: the words of the sequences around the sub-band coders and decoders.
use crate::text::Word;
use arith::add;
use bounds::reset_band;
use g722::Band;
use plain::{bands_coded, high_heard, low_heard};

// Both bands, of which a decoder moves only its own.
#[derive(Clone, Copy)]
struct Bands {
    low: Band,
    high: Band,
}

impl Bands {
    // The bands at reset.
    fn reset() -> Bands {
        Bands {
            low: reset_band(32),
            high: reset_band(8),
        }
    }
}

// A word, and the bands after it.
#[derive(Clone, Copy)]
struct Output {
    word: Word,
    next: Bands,
}

// The coders' word I# of X#, whose upper 15 bits are the signal of both bands.
fn coded(s: Bands, x: i16) -> Output {
    let signal = x >> 1;
    let coded = bands_coded(s.low, s.high, signal, signal);
    Output {
        word: [coded.octet, 0],
        next: Bands {
            low: coded.low,
            high: coded.high,
        },
    }
}

// The word RL# or RH# of a decoder's signal: its 15 bits, and a 0 that marks it as valid.
fn heard(signal: i16) -> Word {
    add(signal, signal).to_be_bytes()
}

// What makes the words of a file.
#[derive(Clone, Copy)]
pub(crate) enum Maker {
    Coders,
    // In this mode.
    LowDecoder(u8),
    HighDecoder,
}

impl From<u8> for Maker {
    // By the last letter of the file's name. The coders' is D, and any letter stands for them that stands for no decoder.
    fn from(letter: u8) -> Maker {
        match letter {
            b'0' => Maker::HighDecoder,
            b'1'..=b'3' => Maker::LowDecoder(letter - b'0'),
            _ => Maker::Coders,
        }
    }
}

impl Maker {
    // What is made of one word. While the input resets, the output is marked as not valid.
    fn output(self, s: Bands, word: Word) -> Output {
        let [first, second] = word;
        if second % 2 == 1 {
            return Output {
                word: [0, 1],
                next: Bands::reset(),
            };
        }
        match self {
            Maker::Coders => coded(s, i16::from_be_bytes(word)),
            Maker::LowDecoder(mode) => {
                let low = low_heard(mode, s.low, first);
                Output {
                    word: heard(low.signal.value),
                    next: Bands { low: low.next, ..s },
                }
            }
            Maker::HighDecoder => {
                let high = high_heard(s.high, first);
                Output {
                    word: heard(high.signal.value),
                    next: Bands {
                        high: high.next,
                        ..s
                    },
                }
            }
        }
    }

    // The place of the first wanted word that is not what is made of the given one.
    pub(crate) fn first_wrong(self, given: &[Word], wanted: &[Word]) -> Option<usize> {
        let mut s = Bands::reset();
        given.iter().zip(wanted).position(|(given, wanted)| {
            let output = self.output(s, *given);
            s = output.next;
            output.word != *wanted
        })
    }
}
