// Table 15, and the scale factor that an address gives: method 2 of SCALEL and SCALEH.
ghost use Rattle.std.specs.Prelude.{◌≡◌, ◌<◌, get_or};
ghost use Rattle.g722.specs.Tables.{ilb};
ghost use Rattle.g722.specs.Quantise.{scale_at};
ghost use Rattle.tables.specs.Rows.{joined, row};

// Four entries in one number, 16 bits each, the first lowest.
#[tactic(auto, unfolding(crate::specs::Rows::joined))]
fn joined(a: u16, b: u16, c: u16, d: u16) -> u64
    ensures { result ≡ joined a b c d }
{
    u64::from(a) + 65536 * (u64::from(b) + 65536 * (u64::from(c) + 65536 * u64::from(d)))
}

// ILB, four entries to a row. A constant of 32 entries would be copied to the stack at every look, and a choice among 32 numbers the
// compiler does not work into the loops. A choice among eight it does, and makes it one read (docs/SPEED.md).
#[tactic(auto, unfolding(crate::specs::Rows::row, g722::specs::Tables::ilb))]
fn row(k: usize) -> u64
    requires { k < 8 }
    ensures { result ≡ row k }
{
    match k {
        0 => joined(2048, 2093, 2139, 2186),
        1 => joined(2233, 2282, 2332, 2383),
        2 => joined(2435, 2489, 2543, 2599),
        3 => joined(2656, 2714, 2774, 2834),
        4 => joined(2896, 2960, 3025, 3091),
        5 => joined(3158, 3228, 3298, 3371),
        6 => joined(3444, 3520, 3597, 3676),
        _ => joined(3756, 3838, 3922, 4008),
    }
}

// The entry of ILB at a place.
#[tactic(auto, using(crate::specs::Rows::entry_of_row))]
fn ilb_at(k: usize) -> u32
    requires { k < 32 }
    ensures { result ≡ get_or ilb k 0 }
{
    ((row(k / 4) >> (16 * (k % 4))) % 65536) as u32
}

// The last address of ILA, and the scale factor of those above.
const TOP: usize = 352;

const ABOVE: i16 = 4;

// The scale factor at an address, 4 above the 353 of ILA. The lower five bits of an address give the entry, the others how far it is
// shifted: 10 − k / 32 places down, at the top −1, which is one place up. So it goes k / 32 places up, and then 10 down.
pub fn scale_at(k: usize) -> i16
    ensures { result ≡ scale_at k }
{
    if TOP < k {
        ABOVE
    } else {
        (((ilb_at(k % 32) << (k / 32)) >> 10) * 4) as i16
    }
}
