// Both bands over a block of signals: the words of each alone, put together to octets.
ghost use Rattle.std.specs.Prelude.{◌≡◌, true, ◌≤◌, length};
ghost use mathlib.Core.List.{zip_with};
ghost use Rattle.laws.specs.Outcome.{Does};
ghost use Rattle.g722.specs.Records.{good_poles};
ghost use Rattle.coder.specs.ByBand.{together};
ghost use Rattle.coder.specs.Step.{bands_run};

use crate::BothBands;
use g722::Band;
use sweep::code_band;

// The low band's words become octets: the high band's two bits go above each.
fn put_together(words: &[u8], octets: &mut [u8])
    requires { length words.now ≡ length octets.old }
    ensures { octets.new ≡ zip_with together words.now octets.old }
{
    for (i, octet) in octets.iter_mut().enumerate() {
        *octet = *octet % 64 + 64 * (words[i] / 4 % 4);
    }
}

// Both bands over a block of signals, one after the other, with lent room for the high band's words.
pub(crate) fn bands_all(
    low: Band,
    high: Band,
    xl: &[i16],
    xh: &[i16],
    words: &mut [u8],
    octets: &mut [u8],
) -> BothBands
    requires octets_len_bound { length octets.old ≤ 160 }
    requires words_len { length words.old ≡ length octets.old }
    requires xl_len { length xl.now ≡ length octets.old }
    requires xh_len { length xh.now ≡ length octets.old }
    requires poles_value { good_poles low.poles ≡ true }
    requires poles_value_2 { good_poles high.poles ≡ true }
    ensures { Does (bands_run low high xl.now xh.now) result octets.new }
{
    let low = code_band(false, low, xl, octets);
    let high = code_band(true, high, xh, words);
    put_together(words, octets);
    BothBands { low, high }
}
