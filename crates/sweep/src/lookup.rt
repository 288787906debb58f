// The tables that a band's loop reads, in its own memory.
ghost use Rattle.std.specs.Prelude.{◌≡◌};
ghost use Rattle.g722.specs.Tables.{ilb};
ghost use Rattle.at_hand.specs.Signed.{outputs_of, weights_of};

use at_hand::{ilb, outputs, weights};

// Table 15, the outputs of the inverse quantiser by a word's six bits, and the weights by its upper four.
#[derive(Drop)]
pub(crate) struct Tables {
    pub(crate) high: bool,
    pub(crate) powers: [u16; 32],
    pub(crate) outputs: [i16; 64],
    pub(crate) weights: [i16; 16],
    ghost powers_are: { powers ≡ ilb },
    ghost outputs_are: { outputs ≡ outputs_of high 3 },
    ghost weights_are: { weights ≡ weights_of high },
}

impl Tables {
    pub(crate) fn of(high: bool) -> Self
        ensures { result.high ≡ high }
    {
        Tables {
            high,
            powers: ilb(),
            outputs: outputs(high, 3),
            weights: weights(high),
        }
    }
}
