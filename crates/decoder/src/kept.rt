// A record that keeps its bounds, as every block leaves it.
ghost use Rattle.std.specs.Prelude.{◌≡◌, true};
ghost use Rattle.g722.specs.Records.{good_decoder};

use g722::{Accepted, Decoder};

#[derive(Clone, Copy)]
pub(crate) struct Kept {
    pub(crate) decoder: Decoder,
    ghost good: { good_decoder decoder ≡ true },
}

// What a call gives where its blocks gave this.
pub(crate) fn given(done: Accepted<Kept>) -> Accepted<Decoder>
    ensures { result ≡ record { limited = done.limited; next = done.next.decoder } }
{
    Accepted {
        limited: done.limited,
        next: done.next.decoder,
    }
}
