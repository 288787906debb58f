// A recording, 512-byte blocks one after another, walked block by block (SCOPE, the reader).
#![tactic(auto)]

ghost use Rattle.std.specs.Prelude.{◌≡◌, ◌+◌, ◌^◌, ◌<◌};
ghost use Rattle.block.specs.Read.{read_as};
ghost use Rattle.reader.specs.Walk.{walked, ended, stood, step_at, next_at};

use block::Header;
use g722::Refusal;

// A lent recording and the number of the block at which its walk stands.
#[derive(Clone, Copy)]
pub struct Reader<'a> {
    pub src: &'a [u8],
    pub at: usize,
}

// What stands at a place of a recording: nothing, or a block, read or refused; and the place from which the walk goes on.
#[derive(Clone, Copy)]
pub struct Found {
    pub block: Option<Result<Header, Refusal>>,
    pub next: usize,
}

// Nothing is left: the walk stays.
fn ended(at: usize) -> Found
    ensures { walked result ≡ ended at }
{
    Found {
        block: None,
        next: at,
    }
}

// A block that was read or refused: the walk goes on past a good one.
fn stood(block: Result<Header, Refusal>, at: usize) -> Found
    requires { at + 1 < 2 ^ 64 }
    ensures { walked result ≡ stood (read_as block) at }
{
    let next = if block.is_ok() { at + 1 } else { at };
    Found {
        block: Some(block),
        next,
    }
}

// Block number `at` of a recording.
pub fn step_at(src: &[u8], at: usize) -> Found
    ensures { walked result ≡ step_at src.now at }
{
    let whole = src.len() / 512;
    if whole < at {
        return ended(at);
    }
    let from = 512 * at;
    if at < whole {
        return stood(block::read(&src[from..from + 512]), at);
    }
    if src.len() == from {
        return ended(at);
    }
    stood(block::read(&src[from..]), at)
}

// The number of the block from which the walk goes on.
pub fn next_at(src: &[u8], at: usize) -> usize
    ensures { result ≡ next_at src.now at }
{
    step_at(src, at).next
}

// A reader at the first block.
pub fn new<'a>(src: &'a [u8]) -> Reader<'a>
    ensures { (result.src ≡ src.entry) × (result.at ≡ 0) }
{
    Reader { src, at: 0 }
}

// What stands where the reader is, and where it goes on.
pub fn next<'a>(r: Reader<'a>) -> Found
    ensures { walked result ≡ step_at r.entry.src.now r.entry.at }
{
    step_at(r.src, r.at)
}

// The reader past a good block; at the same one else.
pub fn moved_on<'a>(r: Reader<'a>) -> Reader<'a>
    ensures { (result.src ≡ r.entry.src) × (result.at ≡ next_at r.entry.src.now r.entry.at) }
{
    Reader {
        src: r.src,
        at: next_at(r.src, r.at),
    }
}
