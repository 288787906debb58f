// The coder's end: a band's signals to its words.
ghost use Rattle.std.specs.Prelude.{◌≡◌, cond, ◌*◌, ◌<◌};
ghost use Rattle.laws.specs.Outcome.{Does};
ghost use Rattle.g722.specs.Quantise.{quantl, quanth};
ghost use Rattle.sweep.specs.Block.{word_of, coded_next, coded_block};

use crate::lookup::Tables;
use crate::run::{End, run};
use crate::turn::predic;
use crate::{Turned, takes};
use arith::sub;
use g722::Band;
use idle::{Recursive, Scales};
use quant::{quanth, quantl};

// The word of a difference, in six bits.
fn word(high: bool, e: i16, scale: i16) -> u8
    ensures { (result ≡ cond high (quanth e scale * 4) (quantl e scale)) × (result < 64) }
{
    if high {
        quanth(e, scale) * 4
    } else {
        quantl(e, scale)
    }
}

#[derive(Drop)]
struct Coder {
    tables: Tables,
}

impl End for Coder {
    type In = i16;

    type Out = u8;

    ghost out = { λ c. word_of c.tables.high };

    ghost next = { λ c. coded_next c.tables.high };

    fn turn(&self, p: Recursive, f: Scales, sz: i32, x: i16) -> (u8, Turned) {
        let s = predic(p, sz);
        let word = word(self.tables.high, sub(x, s as i16), f.scale as i16);
        (word, self.tables.turn(p, f, sz, s, word))
    }
}

// A band's signals of a block to its words. What is no block is given back as it came.
pub fn code_band(high: bool, s: Band, x: &[i16], words: &mut [u8]) -> Band
    ensures { Does (coded_block high s x.now words.old) result words.new }
{
    if !takes(s.poles, x.len(), words.len()) {
        return s;
    }
    let coder = Coder {
        tables: Tables::of(high),
    };
    run(&coder, s, x, words)
}
