// What a turn of a band's loop does at both ends, whatever gave the word.
ghost use Rattle.std.specs.Prelude.{◌≡◌, ◌^◌, ◌≤◌, ◌<◌, nat_abs};
ghost use Rattle.std.specs.Int.Signed.{mag};
ghost use Rattle.g722.specs.Arithmetic.{add, mul};
ghost use Rattle.g722.specs.Band.{filtep};
ghost use Rattle.idle.specs.Recursive.{poles_of};
ghost use Rattle.idle.specs.Factors.{factors_of};
ghost use Rattle.sweep.specs.Turn.{step_of, step_by};

use crate::Turned;
use crate::factors::weighed;
use crate::lookup::Tables;
use crate::poles::{filtep, next};
use arith::fit;
use idle::{Recursive, Scales};

// PREDIC, from the output of the transversal part.
pub(crate) fn predic(p: Recursive, sz: i32) -> i32
    requires { mag sz < 2 ^ 15 }
    ensures { (result ≡ add (filtep (poles_of p)) sz) × (mag result < 2 ^ 15) }
{
    fit(filtep(p) + sz, -32768, 32767)
}

// The difference of an output at a scale: DET * WD2.
pub(crate) fn inverse(q: i16, scale: i32) -> i32
    requires q_bound { nat_abs q ≤ 24808 }
    requires scale_bound { mag scale < 2 ^ 15 }
    ensures { (result ≡ mul scale q) × (mag result < 2 ^ 15) }
{
    (i32::from(q) * scale) >> 15
}

impl Tables {
    // A turn by its word, after the prediction s.
    pub(crate) fn turn(&self, p: Recursive, f: Scales, sz: i32, s: i32, word: u8) -> Turned
        requires { (mag sz < 2 ^ 15) × (mag s < 2 ^ 15) × (word < 64) }
        ensures { step_of result ≡ step_by self.now.high (poles_of p) (factors_of f) sz s word }
    {
        let d = inverse(self.outputs[word as usize], f.scale);
        Turned {
            d: d as i16,
            poles: next(p, d + sz, s + d),
            factors: weighed(
                self.high,
                &self.powers,
                f,
                self.weights[(word / 4) as usize],
            ),
        }
    }
}
