// The loop over a block. Coder and decoder differ in what a turn takes and gives: each is an end.
ghost use Rattle.std.specs.Prelude.{◌≡◌, true, ◌^◌, ◌≤◌, ◌<◌, length};
ghost use Rattle.std.specs.Int.Signed.{mag};
ghost use Rattle.laws.specs.Outcome.{Does};
ghost use Rattle.g722.specs.Records.{good_poles};
ghost use Rattle.g722.specs.declared.Band.{Band};
ghost use Rattle.idle.specs.Recursive.{poles_of};
ghost use Rattle.idle.specs.Factors.{factors_of};
ghost use Rattle.sweep.specs.Block.{run_of};
ghost use Rattle.sweep.specs.Turn.{ByTurn};

use crate::Turned;
use crate::factors::{factors, scales};
use crate::poles::{narrowed, widened};
use crate::rows::Rows;
use g722::Band;
use idle::{Recursive, Scales};

// What a band's turn gives of an item, and the band after it.
pub(crate) trait End {
    type In: Copy;

    type Out: Copy;

    ghost out: { Self → Band → Self.In → Self.Out };

    ghost next: { Self → Band → Self.In → Band };

    // From the output sz of the transversal part.
    fn turn(&self, p: Recursive, f: Scales, sz: i32, x: Self::In) -> (Self::Out, Turned)
        requires { mag sz < 2 ^ 15 }
        ensures { ByTurn (out self.now) (next self.now) (poles_of p) (factors_of f) sz x result };
}

// A block that is taken.
pub(crate) fn run<E: End>(end: &E, s: Band, xs: &[E::In], ys: &mut [E::Out]) -> Band
    requires ys_len_bound { length ys.old ≤ 160 }
    requires xs_len { length xs.now ≡ length ys.old }
    requires poles_value { good_poles s.poles ≡ true }
    ensures { Does (run_of (E.out end.now) (E.next end.now) s xs.now) result ys.new }
{
    let mut rows = Rows::of(s.zeros);
    let mut p = widened(s.poles);
    let mut f = scales(s.factors);
    for (i, place) in ys.iter_mut().enumerate() {
        let (y, turned) = end.turn(p, f, rows.filtez(), xs[i]);
        *place = y;
        rows.adapt(turned.d);
        p = turned.poles;
        f = turned.factors;
    }
    Band {
        zeros: rows.zeros(),
        poles: narrowed(p),
        factors: factors(f),
    }
}
