// Numbers from 0 up in two and in four bytes, the high byte first. A place beyond the end reads as 0, so that reading asks nothing.
ghost use Rattle.std.specs.Prelude.{◌≡◌, get_or};
ghost use Rattle.big_endian.specs.Numbers.{two_at, four_at};

// The byte at a place.
fn byte_at(b: &[u8], i: usize) -> u8
    ensures { result ≡ get_or b.now i 0 }
{
    b.get(i).copied().unwrap_or(0)
}

// The number in two bytes.
pub fn two_at(b: &[u8], i: usize) -> u16
    ensures { result ≡ two_at b.now i }
{
    if i < b.len() {
        u16::from_be_bytes([byte_at(b, i), byte_at(b, i + 1)])
    } else {
        0
    }
}

// The number in four bytes.
pub fn four_at(b: &[u8], i: usize) -> u32
    ensures { result ≡ four_at b.now i }
{
    if i < b.len() {
        u32::from_be_bytes([
            byte_at(b, i),
            byte_at(b, i + 1),
            byte_at(b, i + 2),
            byte_at(b, i + 3),
        ])
    } else {
        0
    }
}
