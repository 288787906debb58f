// Walks a recording, lent as a whole, by the reader, and writes the lines of the listing. A recording of up to 128 blocks is read.
#![tactic(auto)]

ghost use Rattle.std.specs.Prelude.{◌≡◌, ◌≤◌, length};
ghost use Rattle.reader.specs.Walk.{walked, step_at, next_at};

use block::Header;
use g722::Refusal;
use lines::Line;
use playing::{PlayedBlock, Player};
use reader::{Found, Reader};
use std::io;
use std::io::{Eprint, Print, Read};

// What the reader says at first.
fn first(src: &[u8]) -> Found
    ensures { walked result ≡ step_at src.now 0 }
{
    reader::next(reader::new(src))
}

// What the reader says after it moved on from block number `at`.
fn after(src: &[u8], at: usize) -> Found
    ensures { walked result ≡ step_at src.now (next_at src.now at) }
{
    reader::next(reader::moved_on(Reader { src, at }))
}

// Writes a line out.
fn print(rt: &impl Print, line: Line) -> io::Result<()> {
    rt.write_all(line.text())
}

// The line of what the reader says of a block, with what the player says of its samples; or of a refusal after so many others.
#[tactic(auto, unfolding(lines::specs::Lines::line_of))]
fn line(read: Result<Header, Refusal>, played: Result<PlayedBlock, Refusal>, before: usize) -> Line
    ensures { result.at ≤ 160 }
{
    match (read, played) {
        (Ok(h), Ok(b)) => {
            lines::block_line(h.take, h.block, h.mode, h.count, b.first, b.last, b.limited)
        }
        (Err(refusal), _) | (Ok(_), Err(refusal)) => {
            lines::refused_line(refusal.number(), before as u64)
        }
    }
}

// Plays a whole block and prints the line of what the reader says of it. It answers the player after it, unless the block is refused.
fn list(
    rt: &(impl Print + Eprint),
    p: Player,
    read: Result<Header, Refusal>,
    before: usize,
    block: &[u8],
    samples: &mut [i16],
) -> io::Result<Option<Player>> {
    let played = player::play(p, block, samples);
    print(rt, line(read, played, before))?;
    match played {
        Ok(b) => Ok(Some(b.next)),
        Err(_) => {
            eprintln!(rt; "stopped at a block that is refused")?;
            Ok(None)
        }
    }
}

// Past the last whole block: the end, or a shorter piece, which is refused.
fn finish(rt: &(impl Print + Eprint), found: Found, before: usize) -> io::Result<()> {
    if let Some(read) = found.block {
        print(rt, line(read, Err(Refusal::BlockSize), before))?;
        eprintln!(rt; "stopped at a block that is refused")?;
    }
    Ok(())
}

// Walks over the whole blocks and to the end.
fn run(rt: &(impl Print + Eprint), src: &[u8]) -> io::Result<()> {
    let mut samples = [0; 960];
    let mut p = player::start();
    let mut found = first(src);
    for (at, block) in src.chunks_exact(512).enumerate() {
        let Some(read) = found.block else {
            return Ok(());
        };
        let Some(next) = list(rt, p, read, at, block, &mut samples)? else {
            return Ok(());
        };
        p = next;
        found = after(src, at);
    }
    finish(rt, found, src.len() / 512)
}

// Reads until there is no more room, the input ends or a read fails, and answers what there is.
fn read_full<'a>(input: &mut impl Read, room: &'a mut [u8]) -> &'a [u8]
    ensures { length result.now ≤ length room.old }
{
    let mut n = 0;
    while n < room.len() {
        match input.read(&mut room[n..]) {
            Ok(more) if 0 < more => n += more,
            _ => break,
        }
    }
    &room[..n]
}

fn main(rt: HostRuntime) -> io::Result<()> {
    let mut room = [0; 65536];
    run(&rt, read_full(&mut rt.stdin(), &mut room))
}
