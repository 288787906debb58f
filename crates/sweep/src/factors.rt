// The log and the scale factor of a band, in 32 bits, with Table 15 lent: method 2 of SCALEL and SCALEH.
ghost use Rattle.std.specs.Prelude.{◌≡◌, cond, ◌≤◌, nat_abs};
ghost use Rattle.g722.specs.Tables.{ilb};
ghost use Rattle.g722.specs.Quantise.{scale_at};
ghost use Rattle.idle.specs.Factors.{factors_of, top, weighed};

use arith::{clamp, fit};
use g722::Factors;
use idle::Scales;
use quant::{High, Low, SubBand};

// The factors of a record in 32 bits.
pub(crate) fn scales(f: Factors) -> Scales
    ensures { factors_of result ≡ f }
{
    Scales {
        log: i32::from(f.log),
        scale: i32::from(f.scale),
    }
}

// And back.
pub(crate) fn factors(f: Scales) -> Factors
    ensures { result ≡ factors_of f }
{
    Factors {
        log: clamp(f.log, -32768, 32767),
        scale: clamp(f.scale, -32768, 32767),
    }
}

// The limit of the log factor.
fn top(high: bool) -> i32
    ensures { result ≡ top high }
{
    i32::from(if high { High::TOP } else { Low::TOP })
}

// The address of log factor 0.
fn first(high: bool) -> u32
    ensures { result ≡ cond high 0 64 }
{
    u32::from(if high { High::FIRST } else { Low::FIRST })
}

// The scale factor at an address.
fn scale_at(table: &[u16; 32], k: usize) -> i32
    requires table_value { table.now ≡ ilb }
    requires k_bound { k ≤ 352 }
    ensures { result ≡ scale_at k }
{
    (((u32::from(table[k % 32]) << ((k / 32) as u32)) >> 10) * 4) as i32
}

// The factors after a weight.
pub(crate) fn weighed(high: bool, table: &[u16; 32], f: Scales, w: i16) -> Scales
    requires { table.now ≡ ilb }
    ensures { factors_of result ≡ weighed high w (factors_of f) }
{
    let log = fit(((f.log * 32512) >> 15) + i32::from(w), 0, top(high));
    let k = log as u32 / 64 + first(high);
    Scales {
        log,
        scale: scale_at(table, k as usize),
    }
}
