// The scale factor that the codec works out, beside the 353 entries of ILA: at every address that a log factor can give, 223 of them
// above the table. An argument, if given, is added to the codec's address, so that wrong ones are seen to be caught.
#![tactic(auto)]

ghost use Rattle.std.specs.Prelude.{◌≡◌, get_or};
ghost use Rattle.g722.specs.Tables.{ila};
ghost use Rattle.g722.specs.Quantise.{scale_at};

use std::env::Env;
use std::io;
use std::io::Print;

// Table 15: ILA, from address 0 on.
const ILA: [u16; 353] = [
    1, 1, 1, 1, 1, 1, 1, 1, 1, 1, 1, 1, 1, 1, 1, 1, 1, 1, 1, 2, 2, 2, 2, 2, 2, 2, 2, 2, 2, 2, 2, 2,
    3, 3, 3, 3, 3, 3, 3, 3, 3, 3, 3, 4, 4, 4, 4, 4, 4, 4, 4, 5, 5, 5, 5, 5, 5, 5, 6, 6, 6, 6, 6, 6,
    7, 7, 7, 7, 7, 7, 8, 8, 8, 8, 8, 9, 9, 9, 9, 10, 10, 10, 10, 11, 11, 11, 11, 12, 12, 12, 13,
    13, 13, 13, 14, 14, 15, 15, 15, 16, 16, 16, 17, 17, 18, 18, 18, 19, 19, 20, 20, 21, 21, 22, 22,
    23, 23, 24, 24, 25, 25, 26, 27, 27, 28, 28, 29, 30, 31, 31, 32, 33, 33, 34, 35, 36, 37, 37, 38,
    39, 40, 41, 42, 43, 44, 45, 46, 47, 48, 49, 50, 51, 52, 54, 55, 56, 57, 58, 60, 61, 63, 64, 65,
    67, 68, 70, 71, 73, 75, 76, 78, 80, 82, 83, 85, 87, 89, 91, 93, 95, 97, 99, 102, 104, 106, 109,
    111, 113, 116, 118, 121, 124, 127, 129, 132, 135, 138, 141, 144, 147, 151, 154, 157, 161, 165,
    168, 172, 176, 180, 184, 188, 192, 196, 200, 205, 209, 214, 219, 223, 228, 233, 238, 244, 249,
    255, 260, 266, 272, 278, 284, 290, 296, 303, 310, 316, 323, 331, 338, 345, 353, 361, 369, 377,
    385, 393, 402, 411, 420, 429, 439, 448, 458, 468, 478, 489, 500, 511, 522, 533, 545, 557, 569,
    582, 594, 607, 621, 634, 648, 663, 677, 692, 707, 723, 739, 755, 771, 788, 806, 823, 841, 860,
    879, 898, 918, 938, 958, 979, 1001, 1023, 1045, 1068, 1092, 1115, 1140, 1165, 1190, 1216, 1243,
    1270, 1298, 1327, 1356, 1386, 1416, 1447, 1479, 1511, 1544, 1578, 1613, 1648, 1684, 1721, 1759,
    1797, 1837, 1877, 1918, 1960, 2003, 2047, 2092, 2138, 2185, 2232, 2281, 2331, 2382, 2434, 2488,
    2542, 2598, 2655, 2713, 2773, 2833, 2895, 2959, 3024, 3090, 3157, 3227, 3297, 3370, 3443, 3519,
    3596, 3675, 3755, 3837, 3921, 4007, 4095,
];

// The entry at an address, 0 above the table.
fn ila_at(k: usize) -> u16
    ensures { result ≡ get_or ila k 0 }
{
    ILA.get(k).copied().unwrap_or(0)
}

// (ILA + 1) << 2 at an address: method 1 of SCALEL and SCALEH.
fn stored(k: usize) -> i16
    ensures { result ≡ scale_at k }
{
    ((ila_at(k) + 1) * 4) as i16
}

// Counts the addresses at which both are the same.
fn count(more: u16) -> usize {
    (0..576)
        .filter(|k| tables::scale_at(*k + usize::from(more)) == stored(*k))
        .count()
}

// The number that the argument gives, or 0 where it gives none below 65536.
fn told(rt: &impl Env) -> u16 {
    let mut word = [0; 5];
    let n = rt.arg(1, &mut word).unwrap_or(0);
    argument::number(&word[..n])
        .and_then(|number| u16::try_from(number).ok())
        .unwrap_or(0)
}

fn say(out: &impl Print, same: usize) -> io::Result<()> {
    println!(out; "{same} of 576 addresses have the scale factor of the table")
}

// The count goes to standard output where it is all of them, and to standard error else.
fn main(rt: HostRuntime) -> io::Result<()> {
    let same = count(told(&rt));
    if same == 576 {
        say(&rt.stdout(), same)
    } else {
        say(&rt.stderr(), same)
    }
}
