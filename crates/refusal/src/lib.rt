// What a program says of a refusal, of an overload, and of what failed.
#![tactic(auto)]

ghost use Rattle.std.specs.Prelude.{◌≡◌, ◌≤◌, length};
ghost use Rattle.g722.specs.Refused.{index_of};
ghost use Rattle.refusal.specs.declared.Stop.TheVariants.{Refused};

use g722::Refusal;
use lines::Line;
use std::io;
use std::io::{ErrorKind, Print, Stderr, Write};

// Why a program stops before the end of its input.
#[derive(Clone, Copy)]
pub enum Stop {
    // A call refused what it was given: why, and the index.
    Refused(Refusal, u64),
    // The input could not be read.
    Read(io::Error),
    // The output could not be written.
    Write(io::Error),
    // The input stopped within one of what is named.
    Within(&'static str, io::Error),
    // What follows the last whole one of what is named is left out.
    LeftOut(&'static str),
    // Another reason, in words.
    Because(&'static str),
}

impl From<Refusal> for Stop {
    ghost from_gives = { λ refusal stop. stop ≡ Refused refusal (index_of refusal) };

    fn from(refusal: Refusal) -> Stop {
        Stop::Refused(refusal, refusal.index() as u64)
    }
}

// Writes a line to standard error.
fn write_line(err: &Stderr, line: Line) {
    let _ = Print::write_all(err, line.text());
}

// Writes the line `refused NUMBER INDEX` to standard error. It answers nothing; what is written no contract can say.
pub fn say(err: &Stderr, number: u8, index: u64)
    ensures { result ≡ tt }
{
    write_line(err, lines::refused_line(number, index));
}

// Writes the line `overload: COUNT sums limited` to standard error, if there are any. It answers nothing, alike.
pub fn overload(err: &Stderr, limited: u64)
    ensures { result ≡ tt }
{
    if 0 < limited {
        write_line(err, lines::overload_line(limited));
    }
}

// How long the system's reason is in the text of an error: behind it are its number and zeros.
fn reason_end(text: &[u8]) -> usize
    ensures { result ≤ length text.now }
{
    (0..text.len())
        .position(|i| text[i] == 0 || text[i..].starts_with(b" (os error "))
        .unwrap_or(text.len())
}

// Writes the line `WHAT: REASON` to standard error: what failed, and the system's reason. It answers nothing, alike.
pub fn fail(err: &Stderr, what: &[u8], error: io::Error)
    ensures { result ≡ tt }
{
    let mut text = [0u8; 256];
    let _ = write!(&mut text[..], "{error}");
    let reason = &text[..reason_end(&text)];
    for part in [what, b": ", reason, b"\n"] {
        let _ = Print::write_all(err, part);
    }
}

// The input has more than whole ones of what is named.
fn say_left_out(err: &Stderr, whole: &'static str) {
    say(err, Refusal::Length.number(), 0);
    let _ = eprintln!(err; "left out: what follows the last whole {whole}");
}

// The input stopped within one of what is named: it could not be read on, or its end is left out.
fn say_within(err: &Stderr, whole: &'static str, error: io::Error) {
    if error.kind() == ErrorKind::UnexpectedEof {
        say_left_out(err, whole);
    } else {
        fail(err, b"read", error);
    }
}

// Says why a program stops. It answers nothing, alike.
pub fn report(err: &Stderr, stop: Stop)
    ensures { result ≡ tt }
{
    match stop {
        Stop::Refused(refusal, index) => say(err, refusal.number(), index),
        Stop::Read(error) => fail(err, b"read", error),
        Stop::Write(error) => fail(err, b"write", error),
        Stop::LeftOut(whole) => say_left_out(err, whole),
        Stop::Within(whole, error) => say_within(err, whole, error),
        Stop::Because(words) => {
            let _ = eprintln!(err; "{words}");
        }
    }
}
