// The inverse quantisers: an output with its sign at a scale, and INVQBL, the difference that is heard.
ghost use Rattle.std.specs.Prelude.{◌≡◌, cond, ◌*◌, ◌≤◌, pos};
ghost use Rattle.g722.specs.Arithmetic.{neg, mul};
ghost use Rattle.g722.specs.Quantise.{in_force, invqbl};

use crate::product;
use crate::sub_band::{Low, SubBand};
use tables::{qq5_at, qq6_at};
use words::{from_five, from_six};

// An output with its sign, times the scale: DET * WD2.
pub(crate) fn inverse(q: u16, negative: bool, det: i16) -> i16
    requires { q ≤ 4095 }
    ensures { result ≡ mul det (cond negative (neg (q * 8)) (pos (q * 8))) }
{
    let w = (q * 8) as i16;
    product(if negative { -w } else { w }, det) as i16
}

// The mode that a told mode puts in force: 0, no indication, is mode 1.
#[tactic(auto, unfolding(g722::specs::Quantise::in_force))]
pub fn in_force(told: u8) -> u8
    ensures { result ≡ in_force told }
{
    if told == 0 { 1 } else { told }
}

// INVQBL: the difference that is heard, by the mode in force. A number that is no mode is taken as 3; no call hands one on.
#[tactic(auto, unfolding(g722::specs::Quantise::invqbl, g722::specs::Quantise::inverse))]
pub fn invqbl(mode: u8, ilr: u8, detl: i16) -> i16
    ensures { result ≡ invqbl mode ilr detl }
{
    match mode {
        1 => {
            let v = from_six(ilr);
            inverse(qq6_at(v.number), v.negative, detl)
        }
        2 => {
            let v = from_five(ilr / 2);
            inverse(qq5_at(v.number), v.negative, detl)
        }
        _ => Low::invqa(ilr, detl),
    }
}
