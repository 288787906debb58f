// A number as an argument of a program gives it.
#![tactic(auto)]

ghost use Rattle.std.specs.Prelude.{◌≡◌};
ghost use Rattle.argument.specs.Number.{with, number_of, below};

// The number with one more digit behind it, where the byte is a digit and what comes of it lies below 2^32.
fn with(number: u32, byte: u8) -> Option<u32>
    ensures { result ≡ below (with number byte) }
{
    if !(b'0'..=b'9').contains(&byte) {
        return None;
    }
    number.checked_mul(10)?.checked_add(u32::from(byte - b'0'))
}

// The number that a word of decimal digits gives, where it gives one below 2^32.
pub fn number(word: &[u8]) -> Option<u32>
    ensures { result ≡ below (number_of word.now) }
{
    if word.is_empty() {
        return None;
    }
    let mut all = 0;
    for byte in word {
        all = with(all, *byte)?;
    }
    Some(all)
}
