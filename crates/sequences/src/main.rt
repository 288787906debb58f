// Runs the test sequences of appendix II of G.722 through the sub-band coders and decoders, without the mirror filters.
// The arguments are pairs of files, an input and what is expected of it. The last letter of the expected file says what
// makes it: D the coders, 1 to 3 the low decoder in that mode, 0 the high decoder.
#![tactic(auto)]

mod bands;
mod text;

ghost use Rattle.std.specs.Prelude.{◌*◌, ◌≤◌, IfOk, IfSome, length};

use bands::Maker;
use std::env::{Env, FillError};
use std::fs::File;
use std::io::{ErrorKind, Print, Read, Stderr, Stdout};
use std::rt::Files;
use std::{fmt, io};
use text::{Row, Word};

// What is wrong with a pair of files.
#[derive(Clone, Copy, Debug, PartialEq, Eq)]
enum Fault {
    // Either has no words or a damaged line, or they have not the same number of words.
    NotRead,
    // The first word that differs.
    Word(usize),
}

impl fmt::Display for Fault {
    fn fmt<W: fmt::Write>(&self, f: &mut fmt::Formatter<W>) -> fmt::Result {
        match self {
            Fault::NotRead => write!(f, "not read, or not as many words as its input"),
            Fault::Word(place) => write!(f, "the first word that differs is {place}"),
        }
    }
}

// Opens a file to read. Its name has to be UTF-8.
fn opened(files: &impl Files<File = File>, name: &[u8]) -> io::Result<File> {
    let name = str::from_utf8(name).map_err(|_| ErrorKind::InvalidFilename)?;
    File::open(files, name)
}

// Reads until there is no more room, the file ends or a read fails, and answers what there is.
fn read_full<'a>(file: &mut impl Read, room: &'a mut [u8]) -> &'a [u8]
    ensures { length result.now ≤ length room.old }
{
    let mut n = 0;
    while n < room.len() {
        match file.read(&mut room[n..]) {
            Ok(more) if 0 < more => n += more,
            _ => break,
        }
    }
    &room[..n]
}

// Reads a file to its end: its text, if it can be opened and there is room for all of it. Where a read fails, which is said, the text is
// what there is before that.
fn read_text<'a>(
    files: &impl Files<File = File>,
    err: &Stderr,
    name: &[u8],
    room: &'a mut [u8],
) -> Option<&'a [u8]>
    ensures { IfSome result (λ text. length text.now ≤ length room.old) }
{
    let mut file = match opened(files, name) {
        Ok(file) => file,
        Err(error) => {
            refusal::fail(err, name, error);
            return None;
        }
    };
    let text = read_full(&mut file, room);
    match file.read(&mut [0]) {
        Ok(0) => {}
        Ok(_) => return None,
        Err(error) => refusal::fail(err, name, error),
    }
    Some(text)
}

// The words of a file, if it can be read and none of its lines is damaged.
fn load<'a>(
    files: &impl Files<File = File>,
    err: &Stderr,
    name: &[u8],
    room: &'a mut [Row],
) -> Result<&'a [Word], Fault>
    ensures { IfOk result (λ words. length words.now ≤ 16 * length room.old) }
{
    let mut bytes = [0; 80000];
    read_text(files, err, name, &mut bytes)
        .and_then(|text| text::words(text, room))
        .ok_or(Fault::NotRead)
}

// Compares what is made of one file with another, and answers how many words are the same.
fn compare(rt: &HostRuntime, input: &[u8], expected: &[u8]) -> Result<usize, Fault> {
    let err = rt.stderr();
    let mut given = [[[0; 2]; 16]; 1250];
    let mut wanted = [[[0; 2]; 16]; 1250];
    let given = load(rt, &err, input, &mut given);
    let letter = expected.last().ok_or(Fault::NotRead)?;
    let wanted = load(rt, &err, expected, &mut wanted)?;
    let given = given?;
    if given.is_empty() || given.len() != wanted.len() {
        return Err(Fault::NotRead);
    }
    match Maker::from(*letter).first_wrong(given, wanted) {
        Some(place) => Err(Fault::Word(place)),
        None => Ok(wanted.len()),
    }
}

// Says that the words of the expected file are the same.
fn say_same(out: &Stdout, name: &[u8], words: usize) -> io::Result<()> {
    out.write_all(name)?;
    println!(out; ": same, {words} words")
}

// Says, on standard error, what is wrong with it.
fn say_wrong(err: &Stderr, name: &[u8], fault: Fault) -> io::Result<()> {
    err.write_all(name)?;
    eprintln!(err; ": {fault}")
}

// An argument, or nothing where there is no room for it.
fn argument<'a>(env: &impl Env, i: usize, room: &'a mut [u8]) -> &'a [u8]
    ensures { length result.now ≤ length room.old }
{
    match env.arg(i, room) {
        Ok(n) => &room[..n],
        Err(_) => &[],
    }
}

// Compares the pair of files whose names are arguments i and i + 1.
fn pair(rt: &HostRuntime, i: usize) -> io::Result<()>
    requires { i ≤ 1000 }
{
    let mut input = [0; 4096];
    let mut expected = [0; 4096];
    let input = argument(rt, i, &mut input);
    let expected = argument(rt, i + 1, &mut expected);
    match compare(rt, input, expected) {
        Ok(words) => say_same(&rt.stdout(), expected, words),
        Err(fault) => say_wrong(&rt.stderr(), expected, fault),
    }
}

// How many words the program was started with, its own name among them, if at most 1000.
fn word_count(env: &impl Env) -> Option<usize>
    ensures { IfSome result (λ n. n ≤ 1000) }
{
    (0..1001).find(|i| matches!(env.arg(*i, &mut []), Err(FillError::NotPresent)))
}

// Compares pair after pair.
fn run(rt: &HostRuntime, count: usize) -> io::Result<()>
    requires { count ≤ 1000 }
{
    for i in (1..count).step_by(2) {
        pair(rt, i)?;
    }
    Ok(())
}

fn main(rt: HostRuntime) -> io::Result<()> {
    match word_count(&rt) {
        Some(count) if 3 <= count && count % 2 == 1 => run(&rt, count),
        _ => eprintln!(rt; "usage: sequences INPUT EXPECTED [INPUT EXPECTED ..]"),
    }
}
