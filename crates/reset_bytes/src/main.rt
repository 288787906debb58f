// Prints the lengths and the reset bytes of both states as the macros that include/zelcandry.h has: what the records at reset are as
// bytes stands there by the code that writes states, and by nobody's hand.
#![tactic(auto)]

use std::io;
use std::io::{Eprint, Print};

// Byte i of a list: 25 stand on a line.
fn item(rt: &impl Print, i: usize, byte: u8) -> io::Result<()> {
    if 0 < i {
        print!(rt; ",")?;
    }
    if i % 25 == 0 {
        print!(rt; " \\\n    {byte}")
    } else {
        print!(rt; " {byte}")
    }
}

fn list(rt: &impl Print, bytes: &[u8]) -> io::Result<()> {
    for (i, byte) in bytes.iter().enumerate() {
        item(rt, i, *byte)?;
    }
    Ok(())
}

// The two macros of the state that is written, or a line on standard error where the bytes have not its length.
fn print<F: FnOnce(&mut [u8]) -> bool>(
    rt: &(impl Print + Eprint),
    name: &str,
    write: F,
) -> io::Result<()>
    requires { F.IsAlwaysCallable write }
{
    let mut state = [0; 125];
    if !write(&mut state) {
        return eprintln!(rt; "the bytes have not the length of a state");
    }
    println!(rt; "#define ZELCANDRY_{name}_BYTES {}", state.len())?;
    print!(rt; "#define ZELCANDRY_{name}_RESET {{")?;
    list(rt, &state)?;
    println!(rt; " }}")
}

fn main(rt: HostRuntime) -> io::Result<()> {
    print(
        &rt,
        "CODER",
        |state| state::write_coder(coder::reset(), state),
    )?;
    print(
        &rt,
        "DECODER",
        |state| state::write_decoder(decoder::reset(), state),
    )
}
