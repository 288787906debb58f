// Puts the bytes of a file into the octets on standard input, by the cue channel, and writes the octets.
// The arguments are the mode, 2 or 3, and the file. It has to fill the octets: one byte for 8 octets in mode 2, for 4 in mode 3.
#![tactic(auto)]

ghost use Rattle.std.specs.Prelude.{◌≤◌, IfOk, length};

use refusal::Stop;
use std::env::{Env, FillError};
use std::io::{ErrorKind, Read, Write};
use std::rt::Files;
use std::{fs, io};

// Reads until there is no more room or the input ends, and answers what there is.
fn read_full<'a>(input: &mut impl Read, room: &'a mut [u8]) -> io::Result<&'a mut [u8]>
    ensures { IfOk result (λ bytes. length bytes.now ≤ length room.old) }
{
    let mut n = 0;
    while n < room.len() {
        match input.read(&mut room[n..])? {
            0 => break,
            more => n += more,
        }
    }
    Ok(&mut room[..n])
}

// Puts bytes into octets, and writes these.
fn send(out: &mut impl Write, mode: u8, octets: &mut [u8], bytes: &[u8]) -> Result<(), Stop> {
    cue::put(mode, octets, bytes)?;
    out.write_all(octets).map_err(Stop::Write)
}

// Reads 1000 bytes and the octets for them, or what is left of both, and answers whether to read on.
fn turn(
    input: &mut impl Read,
    out: &mut impl Write,
    mode: u8,
    file: &mut impl Read,
) -> Result<bool, Stop> {
    let most = if mode == 3 { 4000 } else { 8000 };
    let mut room = [0u8; 8000];
    let octets = read_full(input, &mut room[..most]).map_err(Stop::Read)?;
    let mut text = [0u8; 1000];
    let bytes = read_full(file, &mut text).map_err(Stop::Read)?;
    send(out, mode, octets, bytes)?;
    Ok(octets.len() == most)
}

// Turn after turn. A proved loop has to end, and nothing says that the input does: no run has so many turns.
fn run(
    input: &mut impl Read,
    out: &mut impl Write,
    mode: u8,
    file: &mut impl Read,
) -> Result<(), Stop> {
    for _ in 0..u64::MAX {
        if !turn(input, out, mode, file)? {
            break;
        }
    }
    Ok(())
}

// Opens a file to read. Its name has to be UTF-8.
fn opened<R: Files>(files: &R, name: &[u8]) -> io::Result<R::File> {
    let name = str::from_utf8(name).map_err(|_| ErrorKind::InvalidFilename)?;
    fs::open(files, name)
}

// The mode that the first of two arguments tells, if there are two and it is a number below 256.
fn told(env: &impl Env) -> Option<u8> {
    if !has_word(env, 2) || has_word(env, 3) {
        return None;
    }
    let mut word = [0u8; 10];
    let n = env.arg(1, &mut word).ok()?;
    u8::try_from(argument::number(&word[..n])?).ok()
}

// Whether the program was started with a word of this number, its own name being word 0.
fn has_word(env: &impl Env, i: usize) -> bool {
    !matches!(env.arg(i, &mut []), Err(FillError::NotPresent))
}

fn main(rt: HostRuntime) {
    let Some(mode) = told(&rt) else {
        let _ = eprintln!(rt; "usage: cue_put MODE FILE < octets > octets, where MODE is 2 or 3");
        return;
    };
    let mut name = [0u8; 4096];
    let n = rt.arg(2, &mut name).unwrap_or(0);
    let name = &name[..n];
    match opened(&rt, name) {
        Ok(mut file) => {
            if let Err(stop) = run(&mut rt.stdin(), &mut rt.stdout(), mode, &mut file) {
                refusal::report(&rt.stderr(), stop);
            }
        }
        Err(error) => refusal::fail(&rt.stderr(), name, error),
    }
}
