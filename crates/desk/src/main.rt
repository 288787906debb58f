// Mixes the octets of a desk of 2 to 8 ports, tick after tick: a tick is one octet a port, in and out alike.
// The arguments are the number of ports and the mode of each, 0 to 3. The ticks stand on standard input and on standard output,
// port after port; or each port has a file to read and a new file to write, whose names are the arguments that follow.
#![tactic(auto)]

mod files;
mod stream;
mod ticks;

ghost use Rattle.std.specs.Prelude.{◌≡◌, ◌≤◌, ◌<◌, IfOk};
ghost use Rattle.arrayvec.specs.ArrayVec.{array_vec_len};

use arrayvec::ArrayVec;
use conference::Desk;
use g722::Refusal;
use std::env::{Env, FillError};
use std::io::Stderr;
use stream::Streams;
use ticks::Mixing;

// Why the arguments do not serve.
#[derive(Clone, Copy)]
enum Misuse {
    // They are those of no form.
    Unfit,
    // A number in them is refused.
    Refused(Refusal),
    // A file that one names is not opened, which is said.
    Unopened,
}

// The number below 256 that argument i gives.
fn told(env: &impl Env, i: usize) -> Result<u8, Misuse> {
    let mut word = [0u8; 10];
    env.arg(i, &mut word)
        .ok()
        .and_then(|n| argument::number(&word[..n]))
        .and_then(|number| u8::try_from(number).ok())
        .ok_or(Misuse::Unfit)
}

// The desk of as many ports as the first argument asks for.
fn desk(env: &impl Env) -> Result<Desk, Misuse>
    ensures { IfOk result (λ desk. (0 < desk.ports) × (desk.ports ≤ 8)) }
{
    mixer::reset(told(env, 1)?).map_err(|reset| Misuse::Refused(reset.refusal))
}

// The modes of so many ports. A number above 3 is refused.
fn modes(env: &impl Env, ports: u8) -> Result<ArrayVec<u8, 8>, Misuse>
    requires { ports ≤ 8 }
    ensures { IfOk result (λ modes. array_vec_len modes ≡ ports) }
{
    let mut modes = ArrayVec::new();
    for i in 0..ports {
        let mode = told(env, 2 + usize::from(i))?;
        if 3 < mode {
            return Err(Misuse::Refused(Refusal::Mode));
        }
        modes.push(mode);
    }
    Ok(modes)
}

// Whether the program was started with a word of this number, its own name being word 0.
fn has_word(env: &impl Env, i: usize) -> bool {
    !matches!(env.arg(i, &mut []), Err(FillError::NotPresent))
}

// Whether the program was started with a word of this number, and none behind it.
fn has_last_word(env: &impl Env, i: usize) -> bool
    requires { i ≤ 1000 }
{
    has_word(env, i) && !has_word(env, i + 1)
}

// Runs the form that the number of words tells.
fn run(rt: &HostRuntime, err: &Stderr) -> Result<(), Misuse> {
    let desk = desk(rt)?;
    let ports = usize::from(desk.ports);
    let by_files = has_last_word(rt, 1 + 3 * ports);
    if !by_files && !has_last_word(rt, 1 + ports) {
        return Err(Misuse::Unfit);
    }
    let mut mixing = Mixing::new(desk, modes(rt, desk.ports)?, rt.stderr());
    if by_files {
        return files::run(rt, err, &mut mixing);
    }
    let mut streams = Streams {
        input: rt.stdin(),
        out: rt.stdout(),
    };
    mixing.run(&mut streams);
    Ok(())
}

fn main(rt: HostRuntime) {
    let err = rt.stderr();
    match run(&rt, &err) {
        Ok(()) | Err(Misuse::Unopened) => return,
        Err(Misuse::Refused(refusal)) => refusal::say(&err, refusal.number(), 0),
        Err(Misuse::Unfit) => {}
    }
    let _ = eprintln!(rt;
        "usage: desk PORTS MODE.. < octets > octets, or desk PORTS MODE.. IN.. OUT.., where PORTS is 2 to 8 and a MODE 0, 1, 2 or 3"
    );
}
