// Lists a recording from standard input: one line per block, each take decoded from reset, and a last line at the first refusal.
#![tactic(auto)]

ghost use Rattle.std.specs.Prelude.{◌≡◌, ◌≤◌, length};
ghost use Rattle.lines.specs.Lines.{line_of};
ghost use Rattle.playing.specs.Answer.{played_as};
ghost use Rattle.listing.specs.Listed.{listed};

use g722::Refusal;
use lines::Line;
use playing::{PlayedBlock, Player};
use refusal::Stop;
use std::env::{Env, FillError};
use std::io;
use std::io::{Read, Write};

// What the listing says of a block after so many others.
fn listed(p: Player, played: Result<PlayedBlock, Refusal>, before: u64) -> Line
    ensures { result ≡ line_of (listed (played_as p played) before) }
{
    match played {
        Ok(b) => {
            let h = b.header;
            lines::block_line(h.take, h.block, h.mode, h.count, b.first, b.last, b.limited)
        }
        Err(refusal) => lines::refused_line(refusal.number(), before),
    }
}

// Writes a line out.
fn print(out: &mut impl Write, line: Line) -> io::Result<()> {
    out.write_all(line.text())
}

// Plays a block, or a shorter last piece, and prints its line.
fn list(
    out: &mut impl Write,
    p: Player,
    before: u64,
    block: &[u8],
    samples: &mut [i16],
) -> Result<Player, Stop> {
    let played = player::play(p, block, samples);
    print(out, listed(p, played, before)).map_err(Stop::Write)?;
    match played {
        Ok(b) => Ok(b.next),
        Err(_) => Err(Stop::Because("stopped at a block that is refused")),
    }
}

// Reads until there is no more room, the input ends or a read fails, and answers what there is.
fn read_full<'a>(input: &mut impl Read, room: &'a mut [u8]) -> &'a [u8]
    ensures { length result.now ≤ length room.old }
{
    let mut n = 0;
    while n < room.len() {
        match input.read(&mut room[n..]) {
            Ok(more) if 0 < more => n += more,
            _ => break,
        }
    }
    &room[..n]
}

// Reads a block and lists it; at the end of the input there is no next player. What a failed read leaves of a block is a short one.
// After a short one it asks once more, since a read that fails is not the end.
fn turn(
    input: &mut impl Read,
    out: &mut impl Write,
    p: Player,
    before: u64,
    samples: &mut [i16],
) -> Result<Option<Player>, Stop> {
    let mut room = [0u8; 512];
    let block = read_full(input, &mut room);
    if block.len() < 512 {
        input.read(&mut [0u8; 1]).map_err(Stop::Read)?;
    }
    if block.is_empty() {
        return Ok(None);
    }
    Ok(Some(list(out, p, before, block, samples)?))
}

// Block after block. A proved loop has to end, and nothing says that the input does: no recording has so many blocks.
fn run(input: &mut impl Read, out: &mut impl Write) -> Result<(), Stop> {
    let mut samples = [0i16; 960];
    let mut p = player::start();
    for before in 0..u64::MAX {
        let Some(next) = turn(input, out, p, before, &mut samples)? else {
            break;
        };
        p = next;
    }
    Ok(())
}

// Whether the program was started with a word of this number, its own name being word 0.
fn has_word(env: &impl Env, i: usize) -> bool {
    !matches!(env.arg(i, &mut []), Err(FillError::NotPresent))
}

fn main(rt: HostRuntime) {
    if has_word(&rt, 1) {
        let _ = eprintln!(rt; "usage: listing < recording");
        return;
    }
    if let Err(stop) = run(&mut rt.stdin(), &mut rt.stdout()) {
        refusal::report(&rt.stderr(), stop);
    }
}
