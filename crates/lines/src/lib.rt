// The lines of a listing, as bytes. A line is written from its end to its start, into the end of 160 bytes.
#![tactic(auto)]

ghost use Rattle.std.specs.Prelude.{◌≡◌, [], ◌∷◌, ◌+◌, ◌<◌, length};
ghost use Rattle.lines.specs.Decimal.{decimal, signed};
ghost use Rattle.lines.specs.Lines.{line_of, text_of, Ready, Wrote, block_line, refused_line, overload_line};

// Bytes that end with a line: it stands from `at` on, behind zeros.
#[derive(Clone, Copy)]
pub struct Line {
    pub bytes: [u8; 160],
    pub at: usize,
}

// A digit's byte.
fn digit(n: u64) -> u8
    requires { n < 10 }
    ensures { result ≡ 48 + n }
{
    b'0' + n as u8
}

impl Line {
    // No line yet.
    fn empty() -> Line
        ensures { (result ≡ line_of []) × Ready 160 result }
    {
        Line {
            bytes: [0; 160],
            at: 160,
        }
    }

    // Bytes before the line.
    fn word(self, bytes: &[u8]) -> Line
        requires { Ready (length bytes.now) self }
        ensures { Wrote (length bytes.now) bytes.now self result }
    {
        let at = self.at - bytes.len();
        let mut all = self.bytes;
        all[at..self.at].copy_from_slice(bytes);
        Line { bytes: all, at }
    }

    // A byte before the line.
    fn put(self, byte: u8) -> Line
        requires { Ready 1 self }
        ensures { Wrote 1 (byte ∷ []) self result }
    {
        let at = self.at - 1;
        let mut bytes = self.bytes;
        bytes[at] = byte;
        Line { bytes, at }
    }

    // A number before the line.
    fn decimal(self, n: u64) -> Line
        requires { Ready 20 self }
        ensures { Wrote 20 (decimal n) self result }
    {
        let mut line = self;
        let mut rest = n;
        while 10 <= rest {
            line = line.put(digit(rest % 10));
            rest /= 10;
        }
        line.put(digit(rest))
    }

    // A signed number before the line.
    fn signed(self, z: i16) -> Line
        requires { Ready 21 self }
        ensures { Wrote 21 (signed z) self result }
    {
        let line = self.decimal(u64::from(z.unsigned_abs()));
        if z < 0 { line.put(b'-') } else { line }
    }

    // A space and a number before the line.
    fn field(self, n: u64) -> Line
        requires { Ready 21 self }
        ensures { Wrote 21 (32 ∷ decimal n) self result }
    {
        self.decimal(n).put(b' ')
    }

    // A space and a signed number before the line.
    fn signed_field(self, z: i16) -> Line
        requires { Ready 22 self }
        ensures { Wrote 22 (32 ∷ signed z) self result }
    {
        self.signed(z).put(b' ')
    }

    // The bytes of the line; none where it would begin behind them.
    pub fn text(&self) -> &[u8]
        ensures { result ≡ text_of self.entry }
    {
        &self.bytes[self.at.min(160)..]
    }
}

// The line of a block.
pub fn block_line(
    take: u32,
    block: u32,
    mode: u8,
    count: usize,
    first: i16,
    last: i16,
    limited: u32,
) -> Line
    ensures { result ≡ line_of (block_line take block mode count first last limited) }
{
    let end = Line::empty().put(b'\n').field(u64::from(limited));
    let samples = end.signed_field(last).signed_field(first);
    let counted = samples.field(count as u64).field(u64::from(mode));
    counted.field(u64::from(block)).decimal(u64::from(take))
}

// The line of a refusal after so many blocks.
pub fn refused_line(number: u8, blocks: u64) -> Line
    ensures { result ≡ line_of (refused_line number blocks) }
{
    let end = Line::empty().put(b'\n');
    let numbers = end.field(blocks).field(u64::from(number));
    numbers.word(b"refused")
}

// The line of an overload.
pub fn overload_line(limited: u64) -> Line
    ensures { result ≡ line_of (overload_line limited) }
{
    let end = Line::empty().put(b'\n').word(b" sums limited");
    end.field(limited).word(b"overload:")
}
