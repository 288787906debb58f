// The decoder's end: octets to the signals that are heard of a band, in full.
ghost use Rattle.std.specs.Prelude.{◌≡◌, cond, ◌<◌};
ghost use Rattle.laws.specs.Outcome.{Does};
ghost use Rattle.at_hand.specs.Signed.{outputs_of};
ghost use Rattle.sweep.specs.Block.{signal_of, heard_next, heard_block};
ghost use Rattle.sweep.specs.Octet.{word_in};

use crate::lookup::Tables;
use crate::run::{End, run};
use crate::turn::{inverse, predic};
use crate::{Turned, takes};
use arith::clamp;
use at_hand::outputs;
use g722::Band;
use idle::{Recursive, Scales};

// How far the band's word is moved to stand in the lower six bits.
fn places(high: bool) -> u32
    ensures { result ≡ cond high 4 0 }
{
    if high { 4 } else { 0 }
}

// A band's word of an octet, in six bits. Of the high band's the upper four count.
fn word(high: bool, o: u8) -> u8
    ensures { (result ≡ word_in high o) × (result < 64) }
{
    (o >> places(high)) % 64
}

// With the outputs of the mode in force.
#[derive(Drop)]
struct Hearer {
    tables: Tables,
    mode: u8,
    heard: [i16; 64],
    ghost heard_are: { heard ≡ outputs_of tables.high mode },
}

impl End for Hearer {
    type In = u8;

    type Out = i16;

    ghost out = { λ h. signal_of h.tables.high h.mode };

    ghost next = { λ h. heard_next h.tables.high };

    fn turn(&self, p: Recursive, f: Scales, sz: i32, o: u8) -> (i16, Turned) {
        let s = predic(p, sz);
        let word = word(self.tables.high, o);
        let y = s + inverse(self.heard[word as usize], f.scale);
        (clamp(y, -32768, 32767), self.tables.turn(p, f, sz, s, word))
    }
}

// A band's signals of a block of octets, in a mode in force. What is no block is given back as it came.
pub fn hear_band(high: bool, mode: u8, s: Band, octets: &[u8], signals: &mut [i16]) -> Band
    ensures { Does (heard_block high mode s octets.now signals.old) result signals.new }
{
    if !takes(s.poles, octets.len(), signals.len()) {
        return s;
    }
    let hearer = Hearer {
        tables: Tables::of(high),
        mode,
        heard: outputs(high, mode),
    };
    run(&hearer, s, octets, signals)
}
