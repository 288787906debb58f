// The level search: the size of a difference to the interval that it lies in, by the decision levels at a scale.
ghost use Rattle.std.specs.Prelude.{◌≡◌, map, ◌+◌, ◌≤◌, pos, drop};
ghost use Rattle.std.specs.Int.Signed.{lt_z};
ghost use Rattle.g722.specs.Tables.{q6, q2};
ghost use Rattle.g722.specs.Quantise.{level, at_or_below};

// Table 14: Q6 (1) to Q6 (29).
const Q6: [u16; 29] = [
    35, 72, 110, 150, 190, 233, 276, 323, 370, 422, 473, 530, 587, 650, 714, 786, 858, 940, 1023,
    1121, 1219, 1339, 1458, 1612, 1765, 1980, 2195, 2557, 2919,
];

// Whether a size is below the level of q at a scale. The level is q * scale / 4096, rounded down: so it is above the size exactly if
// q * scale is at least 4096 times the size and one more, and nothing need be shifted or stopped.
fn below(size: u16, q: u16, scale: i16) -> bool
    requires { q ≤ 4095 }
    ensures { result ≡ lt_z (pos size) (level scale q) }
{
    (i32::from(size) + 1) * 4096 <= i32::from(q) * i32::from(scale)
}

// The interval of a size that no level before the place `from` is above: the place of the first level above it, or 30 where there is none.
fn search(from: usize, size: u16, scale: i16) -> u8
    requires { from ≤ 29 }
    ensures { result ≡ 1 + (from + at_or_below size (drop from (map (level scale) (drop 1 q6)))) }
{
    let q = Q6;
    let mut i = from;
    loop {
        if 29 <= i {
            break 30;
        }
        if below(size, q[i], scale) {
            break (i + 1) as u8;
        }
        i += 1;
    }
}

// The interval of a size. The levels rise, so where one of them is not above the size none before it is, and the search may begin behind
// it. The fifth, the tenth and the nineteenth level part the 29 in four, so that a search is short; the places are written out, so that
// the compiler can unroll each search.
pub(crate) fn low_interval(size: u16, scale: i16) -> u8
    ensures { result ≡ 1 + at_or_below size (map (level scale) (drop 1 q6)) }
{
    let q = Q6;
    if below(size, q[9], scale) {
        if below(size, q[4], scale) {
            search(0, size, scale)
        } else {
            search(5, size, scale)
        }
    } else if below(size, q[18], scale) {
        search(10, size, scale)
    } else {
        search(19, size, scale)
    }
}

// The interval in the high band, which has one level.
#[tactic(auto, unfolding(g722::specs::Quantise::at_or_below, g722::specs::Tables::q2))]
pub(crate) fn high_interval(size: u16, scale: i16) -> u8
    ensures { result ≡ 1 + at_or_below size (map (level scale) (drop 1 q2)) }
{
    if below(size, 564, scale) { 1 } else { 2 }
}
