// Code words to sign and interval, and back, decided over ranges of the word, with rows for words that are never sent.
#![tactic(auto)]

ghost use Rattle.std.specs.Prelude.{◌≡◌};
ghost use Rattle.g722.specs.Words.{minus, plus, to_six, from_four, from_six, from_five, to_two, from_two};

use g722::Interval;

// SIL -1, with an interval's number.
fn minus(number: u8) -> Interval
    ensures { result ≡ minus number }
{
    Interval {
        negative: true,
        number,
    }
}

// SIL 0, with an interval's number.
fn plus(number: u8) -> Interval
    ensures { result ≡ plus number }
{
    Interval {
        negative: false,
        number,
    }
}

// Table 16: the 6-bit word of an interval of the low band.
#[tactic(auto, using(std::proofs::lemmas::Bool::Decides::nat_tests), unfolding(g722::specs::Words::to_six))]
pub fn to_six(v: Interval) -> u8
    ensures { result ≡ to_six v }
{
    match (v.negative, v.number) {
        (true, m @ 0..=2) => 64 - m,
        (true, m) => 34u8.saturating_sub(m),
        (false, m) => 62u8.saturating_sub(m),
    }
}

// Table 17: the interval of a 4-bit word. 0000 is never sent.
#[tactic(auto, using(std::proofs::lemmas::Bool::Decides::nat_tests), unfolding(g722::specs::Words::from_four))]
pub fn from_four(w: u8) -> Interval
    ensures { result ≡ from_four w }
{
    match w {
        0 => plus(0),
        1..=7 => minus(8 - w),
        _ => plus(15u8.saturating_sub(w)),
    }
}

// Table 18: the interval of a 6-bit word. 000000 to 000011 are never sent.
#[tactic(auto, using(std::proofs::lemmas::Bool::Decides::nat_tests), unfolding(g722::specs::Words::from_six))]
pub fn from_six(w: u8) -> Interval
    ensures { result ≡ from_six w }
{
    match w {
        0..=3 => minus(1),
        4..=31 => minus(34 - w),
        32..=61 => plus(62 - w),
        _ => minus(64u8.saturating_sub(w)),
    }
}

// Table 19: the interval of a 5-bit word. 00000 and 00001 are never sent.
#[tactic(auto, using(std::proofs::lemmas::Bool::Decides::nat_tests), unfolding(g722::specs::Words::from_five))]
pub fn from_five(w: u8) -> Interval
    ensures { result ≡ from_five w }
{
    match w {
        0..=1 => minus(1),
        2..=15 => minus(17 - w),
        16..=30 => plus(31 - w),
        _ => minus(32u8.saturating_sub(w)),
    }
}

// Table 20: the 2-bit word of an interval of the high band.
#[tactic(auto, using(std::proofs::lemmas::Bool::Decides::nat_tests), unfolding(g722::specs::Words::to_two))]
pub fn to_two(v: Interval) -> u8
    ensures { result ≡ to_two v }
{
    let first: u8 = if v.negative { 2 } else { 4 };
    first.saturating_sub(v.number)
}

// Table 21: the interval of a 2-bit word.
#[tactic(auto, using(std::proofs::lemmas::Bool::Decides::nat_tests), unfolding(g722::specs::Words::from_two))]
pub fn from_two(w: u8) -> Interval
    ensures { result ≡ from_two w }
{
    match w {
        0..=1 => minus(2 - w),
        _ => plus(4u8.saturating_sub(w)),
    }
}
