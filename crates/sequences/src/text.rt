// The words of a file as appendix II.4.4 writes it.
ghost use Rattle.std.specs.Prelude.{◌*◌, ◌≤◌, IfSome, length};

// A word of 16 bits, the high byte first.
pub(crate) type Word = [u8; 2];

// The words of a data line.
pub(crate) type Row = [Word; 16];

// The byte of two hexadecimal digits.
fn byte(high: u8, low: u8) -> Option<u8> {
    let high = char::from(high).to_digit(16)?;
    let low = char::from(low).to_digit(16)?;
    Some((16 * high + low) as u8)
}

// The words of a data line, if it is sound: 64 digits, and a checksum of two that adds up to 0 with their codes.
fn row(line: &[u8; 66]) -> Option<Row> {
    let (digits, checksum) = line.as_chunks::<4>();
    let mut row = [[0; 2]; 16];
    let mut sum: u8 = 0;
    for (word, &[a, b, c, d]) in row.iter_mut().zip(digits) {
        *word = [byte(a, b)?, byte(c, d)?];
        sum = sum
            .wrapping_add(a)
            .wrapping_add(b)
            .wrapping_add(c)
            .wrapping_add(d);
    }
    let checksum = byte(checksum[0], checksum[1])?;
    if sum.wrapping_add(checksum) == 0 {
        Some(row)
    } else {
        None
    }
}

// The words of all data lines, if each is sound and there is room for them.
// Lines that start with a slash, or are shorter than a data line, hold none.
pub(crate) fn words<'a>(text: &[u8], room: &'a mut [Row]) -> Option<&'a [Word]>
    ensures { IfSome result (λ words. length words.now ≤ 16 * length room.old) }
{
    let mut n = 0;
    for line in text.split(|c| *c == b'\n') {
        if let Some(line) = line.first_chunk::<66>()
            && line[0] != b'/'
        {
            *room.get_mut(n)? = row(line)?;
            n += 1;
        }
    }
    Some(room[..n].as_flattened())
}
