// Ticks on standard input, an octet for each port and port after port, to ticks on standard output.
ghost use Rattle.std.specs.Prelude.{◌≤◌, length};

use crate::ticks::{Form, Mixing};
use refusal::Stop;
use std::io::{Read, Write};

// An input and an output.
#[derive(Drop)]
pub(crate) struct Streams<R, W> {
    pub(crate) input: R,
    pub(crate) out: W,
}

// Mixes and sends the ticks of a piece.
fn send(mixing: &mut Mixing, out: &mut impl Write, octets: &[u8]) -> Result<(), Stop>
    requires { length octets.now ≤ 8000 }
{
    let mut room = [0u8; 8000];
    let room = &mut room[..octets.len()];
    mixing.mix(octets, room)?;
    out.write_all(room).map_err(Stop::Write)
}

impl<R: Read, W: Write> Form for Streams<R, W> {
    // It reads what has arrived, up to 1000 ticks, and the rest of its last tick: nothing waits for a longer piece.
    fn turn(&mut self, mixing: &mut Mixing) -> Result<bool, Stop> {
        let ports = mixing.ports();
        let mut octets = [0u8; 8000];
        let n = self
            .input
            .read(&mut octets[..1000 * ports])
            .map_err(Stop::Read)?;
        let whole = n - n % ports;
        if whole == n {
            send(mixing, &mut self.out, &octets[..n])?;
            return Ok(0 < n);
        }
        match self.input.read_exact(&mut octets[n..whole + ports]) {
            Ok(()) => send(mixing, &mut self.out, &octets[..whole + ports])?,
            Err(error) => {
                send(mixing, &mut self.out, &octets[..whole])?;
                return Err(Stop::Within("tick", error));
            }
        }
        Ok(true)
    }
}
