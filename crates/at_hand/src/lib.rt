// Table 14 by the code word itself, with its signs: what a loop over code words lends, so that a turn is one read.
#![tactic(auto)]

ghost use Rattle.std.specs.Prelude.{◌≡◌};
ghost use Rattle.g722.specs.Tables.{ilb};
ghost use Rattle.at_hand.specs.Signed.{outputs_of, weights_of};

// The outputs of the low band by the six bits of a word: QQ6 with the signs of Table 18, eight times.
const SIX: [i16; 64] = [
    -136, -136, -136, -136, -24808, -21904, -19008, -16704, -14984, -13512, -12280, -11192, -10232,
    -9360, -8576, -7856, -7192, -6576, -6000, -5456, -4944, -4464, -4008, -3576, -3168, -2776,
    -2400, -2032, -1688, -1360, -1040, -728, 24808, 21904, 19008, 16704, 14984, 13512, 12280,
    11192, 10232, 9360, 8576, 7856, 7192, 6576, 6000, 5456, 4944, 4464, 4008, 3576, 3168, 2776,
    2400, 2032, 1688, 1360, 1040, 728, 432, 136, -432, -136,
];

// The same where five bits count: QQ5 with the signs of Table 19.
const FIVE: [i16; 64] = [
    -280, // 00000
    -280, -280, // 00001
    -280, -23352, // 00010
    -23352, -17560, // 00011
    -17560, -14120, // 00100
    -14120, -11664, // 00101
    -11664, -9752, // 00110
    -9752, -8184, // 00111
    -8184, -6864, // 01000
    -6864, -5712, // 01001
    -5712, -4696, // 01010
    -4696, -3784, // 01011
    -3784, -2960, // 01100
    -2960, -2208, // 01101
    -2208, -1520, // 01110
    -1520, -880, // 01111
    -880, 23352, // 10000
    23352, 17560, // 10001
    17560, 14120, // 10010
    14120, 11664, // 10011
    11664, 9752, // 10100
    9752, 8184, // 10101
    8184, 6864, // 10110
    6864, 5712, // 10111
    5712, 4696, // 11000
    4696, 3784, // 11001
    3784, 2960, // 11010
    2960, 2208, // 11011
    2208, 1520, // 11100
    1520, 880, // 11101
    880, 280, // 11110
    280, -280, // 11111
    -280,
];

// Where four count: QQ4 with the signs of Table 17.
const FOUR: [i16; 64] = [
    0, // 0000
    0, 0, 0, -20456, // 0001
    -20456, -20456, -20456, -12896, // 0010
    -12896, -12896, -12896, -8968, // 0011
    -8968, -8968, -8968, -6288, // 0100
    -6288, -6288, -6288, -4240, // 0101
    -4240, -4240, -4240, -2584, // 0110
    -2584, -2584, -2584, -1200, // 0111
    -1200, -1200, -1200, 20456, // 1000
    20456, 20456, 20456, 12896, // 1001
    12896, 12896, 12896, 8968, // 1010
    8968, 8968, 8968, 6288, // 1011
    6288, 6288, 6288, 4240, // 1100
    4240, 4240, 4240, 2584, // 1101
    2584, 2584, 2584, 1200, // 1110
    1200, 1200, 1200, 0, // 1111
    0, 0, 0,
];

// The outputs of the high band, QQ2 with the signs of Table 21: its two bits stand above two that do not count.
const TWO: [i16; 64] = [
    -7408, // 00
    -7408, -7408, -7408, -1616, // 01
    -1616, -1616, -1616, 7408, // 10
    7408, 7408, 7408, 1616, // 11
    1616, 1616, 1616, 0, 0, 0, 0, 0, 0, 0, 0, 0, 0, 0, 0, 0, 0, 0, 0, 0, 0, 0, 0, 0, 0, 0, 0, 0, 0,
    0, 0, 0, 0, 0, 0, 0, 0, 0, 0, 0, 0, 0, 0, 0, 0, 0, 0, 0, 0, 0, 0,
];

// The weights of the low band, WL, by the upper four bits of a word.
const LOW: [i16; 16] = [
    -60, // 0000
    3042, // 0001
    1198, // 0010
    538, // 0011
    334, // 0100
    172, // 0101
    58, // 0110
    -30, // 0111
    3042, // 1000
    1198, // 1001
    538, // 1010
    334, // 1011
    172, // 1100
    58, // 1101
    -30, // 1110
    -60, // 1111
];

// The weights of the high band, WH, by its two bits.
const HIGH: [i16; 16] = [798, -214, 798, -214, 0, 0, 0, 0, 0, 0, 0, 0, 0, 0, 0, 0];

// Table 15.
const ILB: [u16; 32] = [
    2048, 2093, 2139, 2186, 2233, 2282, 2332, 2383, 2435, 2489, 2543, 2599, 2656, 2714, 2774, 2834,
    2896, 2960, 3025, 3091, 3158, 3228, 3298, 3371, 3444, 3520, 3597, 3676, 3756, 3838, 3922, 4008,
];

// The outputs of the inverse quantisers by the six bits of a word, with their signs and eight times: what WD2 is. The high band's two
// bits stand above two that do not count.
pub fn outputs(high: bool, mode: u8) -> [i16; 64]
    ensures { result ≡ outputs_of high mode }
{
    match (high, mode) {
        (true, _) => TWO,
        (false, 1) => SIX,
        (false, 2) => FIVE,
        (false, _) => FOUR,
    }
}

// The weights of the log factors by a word's upper four bits.
pub fn weights(high: bool) -> [i16; 16]
    ensures { result ≡ weights_of high }
{
    if high { HIGH } else { LOW }
}

// Table 15 whole.
#[tactic(auto, unfolding(g722::specs::Tables::ilb))]
pub fn ilb() -> [u16; 32]
    ensures { result ≡ ilb }
{
    ILB
}
