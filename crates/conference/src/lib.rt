// The conference desk's record, and what a refused reset of it answers.
#![tactic(auto)]

ghost use Rattle.std.specs.Prelude.{◌≡◌};

use g722::{Coder, Decoder, Refusal};

// The desk. The ports in use are the first ones; what stands in the others is of no account.
#[derive(Clone, Copy)]
pub struct Desk {
    pub ports: u8,
    pub coders: [Coder; 8],
    pub decoders: [Decoder; 8],
}

// A reset that is refused: why, and the desk that stands beside that, every tick of which is refused too.
#[derive(Clone, Copy)]
pub struct RefusedReset {
    pub refusal: Refusal,
    pub desk: Desk,
}

impl From<RefusedReset> for Refusal {
    ghost from_gives = { λ reset refusal. refusal ≡ reset.refusal };

    fn from(reset: RefusedReset) -> Refusal {
        reset.refusal
    }
}
