// What a tick looks at before it does anything.
ghost use Rattle.std.specs.Prelude.{◌≡◌};
ghost use Rattle.conference.specs.Tick.{unseated, uneven, any_above, good_port, good_ports};

use coder::good_coder;
use conference::Desk;
use decoder::good_decoder;
use g722::{Coder, Decoder};

// Whether ports are not 2 to 8.
#[tactic(auto, unfolding(conference::specs::Tick::unseated))]
pub(crate) fn unseated(ports: u8) -> bool
    ensures { result ≡ unseated ports }
{
    !(2..=8).contains(&ports)
}

// Whether modes, octets or room are not one for each port.
#[tactic(auto, unfolding(conference::specs::Tick::uneven))]
pub(crate) fn uneven(ports: usize, modes: usize, octets: usize, room: usize) -> bool
    ensures { result ≡ uneven ports modes octets room }
{
    modes != ports || octets != ports || room != ports
}

// Whether a told mode is above 3.
pub(crate) fn any_above(modes: &[u8]) -> bool
    ensures { result ≡ any_above modes.now }
{
    modes.iter().any(|mode| 3 < *mode)
}

// Whether the records of a port keep their bounds.
#[tactic(auto, unfolding(conference::specs::Tick::good_port))]
fn good_port(coder: &Coder, decoder: &Decoder) -> bool
    ensures { result ≡ good_port (coder.now, decoder.now) }
{
    good_coder(*coder) && good_decoder(*decoder)
}

// Whether those of every port in use do.
pub(crate) fn good_ports(desk: Desk) -> bool
    ensures { result ≡ good_ports desk }
{
    let n = usize::from(desk.ports).min(8);
    desk.coders[..n]
        .iter()
        .zip(&desk.decoders[..n])
        .all(|(coder, decoder)| good_port(coder, decoder))
}
