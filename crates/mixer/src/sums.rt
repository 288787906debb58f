// The sum of the other ports' signals: all are summed once, and a port's own is taken off.
ghost use Rattle.std.specs.Prelude.{◌≡◌, ◌≤◌, nat_abs, ◌-ℤ◌, length};
ghost use Rattle.g722.specs.Arithmetic.{limited};
ghost use Rattle.conference.specs.Sums.{sum_of};

use arith::limit;
use g722::Limited;

// The sum of all.
pub(crate) fn total(signals: &[i16]) -> i32
    requires { length signals.now ≤ 8 }
    ensures { (result ≡ sum_of signals.now) × (nat_abs result ≤ 262144) }
{
    signals.iter().map(|signal| i32::from(*signal)).sum()
}

// All but a port's own, limited.
pub(crate) fn others(all: i32, own: i16) -> Limited
    requires { nat_abs all ≤ 262144 }
    ensures { result ≡ limited (all -ℤ own) }
{
    limit(all - i32::from(own))
}
