// The conference desk: two to eight ports hear each other, one octet from and to each at a tick (SCOPE 79 to 85).
#![tactic(auto)]

mod check;
mod sums;

ghost use Rattle.std.specs.Prelude.{◌≡◌, ◌≤◌, length, Ok};
ghost use Rattle.laws.specs.Outcome.{Does};
ghost use Rattle.g722.specs.Answers.{answered};
ghost use Rattle.conference.specs.Answers.{reset_as};
ghost use Rattle.conference.specs.Tick.{ticked, tick_call, reset_call};
ghost use Rattle.mixer.specs.Run.{hear_run, send_run};

use check::{any_above, good_ports, uneven, unseated};
use conference::{Desk, RefusedReset};
use g722::{Accepted, Coder, Decoder, Refusal};
use port::{Signals, heard, sent};
use sums::{others, total};

// All that the ports are sent: how many of their sums were limited, and the coders after it.
#[derive(Clone, Copy)]
struct Mixed {
    limited: u32,
    coders: [Coder; 8],
}

// A desk of so many ports, or 9 and that desk.
#[tactic(auto, unfolding(conference::specs::Tick::reset_call, conference::specs::Tick::reset_desk))]
pub fn reset(ports: u8) -> Result<Desk, RefusedReset>
    ensures { reset_as result ≡ reset_call ports }
{
    let desk = Desk {
        ports,
        coders: [coder::reset(); 8],
        decoders: [decoder::reset(); 8],
    };
    if unseated(ports) {
        return Err(RefusedReset {
            refusal: Refusal::Ports,
            desk,
        });
    }
    Ok(desk)
}

// Every port's octet through its decoder's first step. Each record is updated where it stands.
fn hear_all(
    mut decoders: [Decoder; 8],
    modes: &[u8],
    octets: &[u8],
    low: &mut [i16],
    high: &mut [i16],
) -> [Decoder; 8]
    requires octets_len_bound { length octets.now ≤ 8 }
    requires modes_len { length modes.now ≡ length octets.now }
    requires low_len { length low.old ≡ length octets.now }
    requires high_len { length high.old ≡ length octets.now }
    ensures { Does (hear_run decoders modes.now octets.now) result (low.new, high.new) }
{
    for (i, octet) in octets.iter().enumerate() {
        let Signals { rl, rh, next } = heard(decoders[i], modes[i], *octet);
        low[i] = rl;
        high[i] = rh;
        decoders[i] = next;
    }
    decoders
}

// Every port's octet out of what the others gave: all signals of a band are summed once, and each port's own is taken off.
fn send_all(mut coders: [Coder; 8], low: &[i16], high: &[i16], room: &mut [u8]) -> Mixed
    requires low_len_bound { length low.now ≤ 8 }
    requires high_len { length high.now ≡ length low.now }
    requires room_len { length room.old ≡ length low.now }
    ensures { Does (send_run coders low.now high.now) result room.new }
{
    let all_low = total(low);
    let all_high = total(high);
    let mut limited = 0;
    for (i, octet) in room.iter_mut().enumerate() {
        let s = sent(
            coders[i],
            others(all_low, low[i]),
            others(all_high, high[i]),
        );
        *octet = s.octet;
        coders[i] = s.next;
        limited += s.limited;
    }
    Mixed { limited, coders }
}

// All are heard, and then all are sent to, with lent room for the signals on their way.
fn in_turn(
    desk: Desk,
    modes: &[u8],
    octets: &[u8],
    low: &mut [i16],
    high: &mut [i16],
    room: &mut [u8],
) -> Accepted<Desk>
    requires octets_len_bound { length octets.now ≤ 8 }
    requires modes_len { length modes.now ≡ length octets.now }
    requires low_len { length low.old ≡ length octets.now }
    requires high_len { length high.old ≡ length octets.now }
    requires room_len { length room.old ≡ length octets.now }
    ensures { Does (ticked desk modes.now octets.now) (answered desk (Ok result)) room.new }
{
    let decoders = hear_all(desk.decoders, modes, octets, low, high);
    let sent = send_all(desk.coders, low, high, room);
    let coders = sent.coders;
    Accepted {
        limited: sent.limited,
        next: Desk {
            ports: desk.ports,
            coders,
            decoders,
        },
    }
}

// A tick that is not refused, with room of its own for the signals.
fn run(desk: Desk, modes: &[u8], octets: &[u8], room: &mut [u8]) -> Accepted<Desk>
    requires octets_len_bound { length octets.now ≤ 8 }
    requires modes_len { length modes.now ≡ length octets.now }
    requires room_len { length room.old ≡ length octets.now }
    ensures { Does (ticked desk modes.now octets.now) (answered desk (Ok result)) room.new }
{
    let n = octets.len();
    let mut low = [0i16; 8];
    let mut high = [0i16; 8];
    in_turn(desk, modes, octets, &mut low[..n], &mut high[..n], room)
}

// A tick: an octet and a told mode from every port, and room for an octet to each.
#[tactic(auto, unfolding(conference::specs::Tick::tick_call, conference::specs::Tick::not_ticked, conference::specs::Tick::ticked))]
pub fn tick(
    desk: Desk,
    modes: &[u8],
    octets: &[u8],
    room: &mut [u8],
) -> Result<Accepted<Desk>, Refusal>
    ensures { Does (tick_call desk modes.now octets.now room.old) (answered desk result) room.new }
{
    let no_desk = unseated(desk.ports);
    let ports = usize::from(desk.ports);
    let unfit = uneven(ports, modes.len(), octets.len(), room.len());
    if no_desk {
        Err(Refusal::Ports)
    } else if unfit {
        Err(Refusal::Length)
    } else if any_above(modes) {
        Err(Refusal::Mode)
    } else if !good_ports(desk) {
        Err(Refusal::Record)
    } else {
        Ok(run(desk, modes, octets, room))
    }
}
