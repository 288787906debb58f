// What both forms share: a desk in use, tick after tick and turn after turn.
ghost use Rattle.std.specs.Prelude.{◌≤◌, ◌<◌};
ghost use Rattle.arrayvec.specs.ArrayVec.{array_vec_len};

use arrayvec::ArrayVec;
use conference::Desk;
use refusal::Stop;
use std::io::Stderr;

// A desk in use, with the mode of each port, how many sums were limited since the lamp was shown, and where that is said.
#[derive(Drop)]
pub(crate) struct Mixing {
    desk: Desk,
    modes: ArrayVec<u8, 8>,
    limited: u64,
    err: Stderr,
    ghost seated: { 0 < array_vec_len modes },
}

impl Mixing {
    // Before the first tick.
    pub(crate) fn new(desk: Desk, modes: ArrayVec<u8, 8>, err: Stderr) -> Self
        requires { 0 < array_vec_len modes }
    {
        Mixing {
            desk,
            modes,
            limited: 0,
            err,
        }
    }

    pub(crate) fn ports(&self) -> usize
        ensures some { 0 < result }
        ensures most { result ≤ 8 }
    {
        self.modes.len()
    }

    // Mixes tick after tick, each an octet a port. A tick that is refused is the last.
    pub(crate) fn mix(&mut self, octets: &[u8], room: &mut [u8]) -> Result<(), Stop> {
        let ports = self.ports();
        for (tick, sent) in octets.chunks_exact(ports).zip(room.chunks_exact_mut(ports)) {
            let done = mixer::tick(self.desk, &self.modes, tick, sent)?;
            self.desk = done.next;
            self.limited = self.limited.saturating_add(u64::from(done.limited));
        }
        Ok(())
    }

    // Shows the lamp, if any sums were limited.
    pub(crate) fn show_lamp(&mut self) {
        refusal::overload(&self.err, self.limited);
        self.limited = 0;
    }

    // Turn after turn, as long as one says that the next follows. Where a turn stops, that is said before its lamp is shown.
    // A proved loop has to end, and nothing says that the input does: no run has so many turns.
    pub(crate) fn run(&mut self, form: &mut impl Form) {
        for _ in 0..u64::MAX {
            let turned = form.turn(self);
            if let Err(stop) = turned {
                refusal::report(&self.err, stop);
            }
            self.show_lamp();
            if !matches!(turned, Ok(true)) {
                break;
            }
        }
    }
}

// Where ticks come from and go to.
pub(crate) trait Form {
    // Reads the ticks of a turn, mixes and sends them, and answers whether a turn follows.
    fn turn(&mut self, mixing: &mut Mixing) -> Result<bool, Stop>;
}
