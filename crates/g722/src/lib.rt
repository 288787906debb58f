// The records of G.722 (11/88), section 6, as SCOPE 14 to 16 list them, and what a call answers.
// Time runs left to right in every array: the oldest stands first, so b[5] is BL1 and d[5] is DLT1.
#![tactic(auto)]

ghost use Rattle.std.specs.Prelude.{◌≡◌};
ghost use Rattle.g722.specs.Refused.{number_of, index_of};

// The transversal part of a predictor: six coefficients and the six past quantised differences that they meet.
#[derive(Clone, Copy)]
pub struct Zeros {
    pub b: [i16; 6],
    pub d: [i16; 6],
}

// The recursive part: two coefficients, two past reconstructed signals, two past partial signals.
#[derive(Clone, Copy)]
pub struct Poles {
    pub a1: i16,
    pub a2: i16,
    pub r1: i16,
    pub r2: i16,
    pub p1: i16,
    pub p2: i16,
}

// The log scale factor NB and the scale factor DET that it gives.
#[derive(Clone, Copy)]
pub struct Factors {
    pub log: i16,
    pub scale: i16,
}

// One band, the same at both ends.
#[derive(Clone, Copy)]
pub struct Band {
    pub zeros: Zeros,
    pub poles: Poles,
    pub factors: Factors,
}

// The coder's record, with its 22 past samples.
#[derive(Clone, Copy)]
pub struct Coder {
    pub low: Band,
    pub high: Band,
    pub past: [i16; 22],
}

// The decoder's eleven past sub-band pairs, RL beside RH.
#[derive(Clone, Copy)]
pub struct Pairs {
    pub rl: [i16; 11],
    pub rh: [i16; 11],
}

// The decoder's record.
#[derive(Clone, Copy)]
pub struct Decoder {
    pub low: Band,
    pub high: Band,
    pub past: Pairs,
}

// A sign and the number of a quantising interval: what a code word stands for.
#[derive(Clone, Copy)]
pub struct Interval {
    pub negative: bool,
    pub number: u8,
}

// A signal limited to -16384..16383, and whether that changed it.
#[derive(Clone, Copy)]
pub struct Limited {
    pub value: i16,
    pub changed: bool,
}

// Why a call is refused: the numbers of SCOPE 7. A sample or signal out of range has a place, which is its index (SCOPE 11).
#[derive(Clone, Copy)]
pub enum Refusal {
    Mode,
    Record,
    Length,
    Sample(usize),
    DataChannel,
    BlockSize,
    Check,
    Contents,
    Ports,
}

impl Refusal {
    // The number of SCOPE 7.
    pub fn number(self) -> u8
        ensures { result ≡ number_of self }
    {
        match self {
            Refusal::Mode => 1,
            Refusal::Record => 2,
            Refusal::Length => 3,
            Refusal::Sample(_) => 4,
            Refusal::DataChannel => 5,
            Refusal::BlockSize => 6,
            Refusal::Check => 7,
            Refusal::Contents => 8,
            Refusal::Ports => 9,
        }
    }

    // The index that number 4 gives a place; 0 of every other.
    pub fn index(self) -> usize
        ensures { result ≡ index_of self }
    {
        match self {
            Refusal::Sample(index) => index,
            _ => 0,
        }
    }
}

// What an accepted call gives: how many values were limited (SCOPE 86), and the next record.
#[derive(Clone, Copy)]
pub struct Accepted<R> {
    pub limited: u32,
    pub next: R,
}
