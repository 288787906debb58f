// One port: its octet through the first step of decoding, and its octet out of the two sub-band coders.
#![tactic(auto)]

ghost use Rattle.std.specs.Prelude.{◌≡◌};
ghost use Rattle.port.specs.Step.{heard_of, sent_of};

use arith::changes;
use g722::{Coder, Decoder, Limited};
use plain::{bands_coded, high_heard, low_heard};
use quant::in_force;

// What a port's octet gives: its two signals, and the decoder after it.
#[derive(Clone, Copy)]
pub struct Signals {
    pub rl: i16,
    pub rh: i16,
    pub next: Decoder,
}

// A port's octet, in the mode that it was told. The past pairs stay.
pub fn heard(d: Decoder, told: u8, octet: u8) -> Signals
    ensures { result ≡ heard_of d told octet }
{
    let low = low_heard(in_force(told), d.low, octet);
    let high = high_heard(d.high, octet);
    Signals {
        rl: low.signal.value,
        rh: high.signal.value,
        next: Decoder {
            low: low.next,
            high: high.next,
            ..d
        },
    }
}

// What a port is sent: an octet, how many of its two sums were limited, and the coder after it.
#[derive(Clone, Copy)]
pub struct Reply {
    pub octet: u8,
    pub limited: u32,
    pub next: Coder,
}

// A port's octet for a low and a high sum. The past samples stay.
pub fn sent(c: Coder, xl: Limited, xh: Limited) -> Reply
    ensures { result ≡ sent_of c xl xh }
{
    let coded = bands_coded(c.low, c.high, xl.value, xh.value);
    Reply {
        octet: coded.octet,
        limited: changes(xl, xh),
        next: Coder {
            low: coded.low,
            high: coded.high,
            ..c
        },
    }
}
