// The logger's 512-byte blocks (SCOPE, logger blocks): their check, writing one, reading one.
#![tactic(auto)]

ghost use Rattle.std.specs.Prelude.{◌≡◌, ◌≤◌, length};
ghost use Rattle.laws.specs.Outcome.{Does};
ghost use Rattle.g722.specs.Answers.{moved};
ghost use Rattle.block.specs.Check.{byte_step, check};
ghost use Rattle.block.specs.Layout.{head, body, block_of};
ghost use Rattle.block.specs.Read.{read_as};
ghost use Rattle.block.specs.Calls.{allowed, well_formed, write_call, read_call};

use big_endian::{four_at, two_at};
use g722::Refusal;

// What a block says: its take, its number in that, its mode, and how many octets it has.
#[derive(Clone, Copy)]
pub struct Header {
    pub take: u32,
    pub block: u32,
    pub mode: u8,
    pub count: usize,
}

// The register after a byte: the eight steps at once.
fn byte_step(reg: u16, byte: u8) -> u16
    ensures { result ≡ byte_step reg byte }
{
    let met = reg ^ (u16::from(byte) * 256);
    let high = met / 256;
    let t = high ^ (high / 16);
    (t % 16 * 4096) ^ (t * 32) ^ t ^ (met % 256 * 256)
}

// The check of bytes.
pub fn check(bytes: &[u8]) -> u16
    ensures { result ≡ check bytes.now }
{
    bytes.iter().fold(65535, |reg, byte| byte_step(reg, *byte))
}

// Whether a block may have this mode and this many octets.
#[tactic(auto, using(std::proofs::lemmas::Bool::Decides::nat_tests), unfolding(crate::specs::Calls::allowed, crate::specs::Calls::between))]
fn allowed(mode: u8, count: usize) -> bool
    ensures { result ≡ allowed mode count }
{
    (1..=3).contains(&mode) && (1..=480).contains(&count)
}

// The first twelve bytes of a block.
fn head(take: u32, block: u32, mode: u8, count: u16) -> [u8; 12]
    ensures { result ≡ head take block mode count }
{
    let mut head = [0; 12];
    head[0..4].copy_from_slice(&take.to_be_bytes());
    head[4..8].copy_from_slice(&block.to_be_bytes());
    head[8] = mode;
    head[10..12].copy_from_slice(&count.to_be_bytes());
    head
}

// Bytes 0 to 509 of a block.
fn put_body(take: u32, block: u32, mode: u8, octets: &[u8], to: &mut [u8])
    requires { (length to.old ≡ 510) × (length octets.now ≤ 480) }
    ensures { to.new ≡ body take block mode octets.now }
{
    let count = octets.len();
    let end = 12 + count;
    to[0..12].copy_from_slice(&head(take, block, mode, count as u16));
    to[12..end].copy_from_slice(octets);
    to[end..510].fill(0);
}

// A whole block: the body and its check.
fn put(take: u32, block: u32, mode: u8, octets: &[u8], out: &mut [u8])
    requires { (length out.old ≡ 512) × (length octets.now ≤ 480) }
    ensures { out.new ≡ block_of take block mode octets.now }
{
    put_body(take, block, mode, octets, &mut out[0..510]);
    let sum = check(&out[0..510]);
    out[510..512].copy_from_slice(&sum.to_be_bytes());
}

// Writes a block into the 512 bytes lent: 6, then 8.
#[tactic(auto, using(crate::proofs::Numbers::writing))]
pub fn write(take: u32, block: u32, mode: u8, octets: &[u8], out: &mut [u8]) -> Result<(), Refusal>
    ensures { Does (write_call take block mode octets.now out.old) (moved result) out.new }
{
    let whole = out.len() == 512;
    let fits = allowed(mode, octets.len());
    if !whole {
        Err(Refusal::BlockSize)
    } else if !fits {
        Err(Refusal::Contents)
    } else {
        put(take, block, mode, octets, out);
        Ok(())
    }
}

// Whether the mode and the count are allowed and the bytes that must be zero are.
fn well_formed(b: &[u8]) -> bool
    requires { length b.now ≡ 512 }
    ensures { result ≡ well_formed b.now }
{
    let count = usize::from(two_at(b, 10));
    allowed(b[8], count) && b[9] == 0 && b[12 + count..510].iter().all(|byte| *byte == 0)
}

// Reads a block: 6, then 7, then 8.
#[tactic(auto, using(crate::proofs::Numbers::reading))]
pub fn read(b: &[u8]) -> Result<Header, Refusal>
    ensures { read_as result ≡ read_call b.now }
{
    if b.len() != 512 {
        return Err(Refusal::BlockSize);
    }
    let right = check(&b[0..510]) == two_at(b, 510);
    let formed = well_formed(b);
    if !right {
        return Err(Refusal::Check);
    }
    if !formed {
        return Err(Refusal::Contents);
    }
    Ok(Header {
        take: four_at(b, 0),
        block: four_at(b, 4),
        mode: b[8],
        count: usize::from(two_at(b, 10)),
    })
}
