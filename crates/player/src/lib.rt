// A block of a recording played from inside it, each take from reset (SCOPE, the listing).
#![tactic(auto)]

ghost use Rattle.std.specs.Prelude.{◌≡◌, true, ◌*◌, length, Ok};
ghost use Rattle.laws.specs.Outcome.{Does};
ghost use Rattle.g722.specs.Answers.{answered};
ghost use Rattle.g722.specs.Records.{good_decoder};
ghost use Rattle.g722.specs.Decoding.{decoded};
ghost use Rattle.block.specs.Formed.{Allowed};
ghost use Rattle.block.specs.Read.{read_as};
ghost use Rattle.playing.specs.Answer.{played_as};
ghost use Rattle.playing.specs.Play.{start_player, begins, decoder_for, play_call};

use block::Header;
use g722::{Accepted, Decoder, Refusal};
use playing::{PlayedBlock, Player};

// The player before the first block.
pub fn start() -> Player
    ensures { result ≡ start_player }
{
    Player {
        decoder: decoder::reset(),
        begun: false,
        take: 0,
    }
}

// Whether a block after one of this take begins a take: it is numbered 0, or it is of another take.
fn begins(before: u32, header: Header) -> bool
    ensures { result ≡ begins before (read_as (Ok header)) }
{
    header.block == 0 || header.take != before
}

// The decoder's record for a block: that of a reset where a take begins, else the player's. The first block begins one anyway.
fn decoder_for(p: Player, header: Header) -> Decoder
    ensures { result ≡ decoder_for p (read_as (Ok header)) }
{
    if !p.begun || begins(p.take, header) {
        decoder::reset()
    } else {
        p.decoder
    }
}

// Octets as a block may have them, heard and then joined, which is to decode them. The rows are lent for their signals.
fn in_steps(
    d: Decoder,
    mode: u8,
    octets: &[u8],
    low: &mut [i16],
    high: &mut [i16],
    samples: &mut [i16],
) -> Result<Accepted<Decoder>, Refusal>
    requires allowed { Allowed mode (length octets.now) × (good_decoder d ≡ true) }
    requires low_len { (length low.old ≡ length octets.now) × (length high.old ≡ length octets.now) }
    requires samples_len { length samples.old ≡ 2 * length octets.now }
    ensures { Does (decoded mode d octets.now) (answered d result) samples.new }
{
    let heard = decoder::hear(d, mode, octets, low, high)?;
    decoder::join(heard.next, low, high, samples)
}

// The same with rows of its own, which have room for the signals of any block.
fn heard_and_joined(
    d: Decoder,
    mode: u8,
    octets: &[u8],
    samples: &mut [i16],
) -> Result<Accepted<Decoder>, Refusal>
    requires allowed { Allowed mode (length octets.now) × (good_decoder d ≡ true) }
    requires samples_len { length samples.old ≡ 2 * length octets.now }
    ensures { Does (decoded mode d octets.now) (answered d result) samples.new }
{
    let n = octets.len();
    let mut low = [0i16; 480];
    let mut high = [0i16; 480];
    in_steps(d, mode, octets, &mut low[..n], &mut high[..n], samples)
}

// Reads a block and decodes its octets, from inside it and in two steps, into the front of the samples, from reset where a take begins.
// It gives reading's refusals, then 3 where the samples are too few, then 2 where the player's record is broken.
pub fn play(p: Player, b: &[u8], samples: &mut [i16]) -> Result<PlayedBlock, Refusal>
    ensures { Does (play_call p b.now samples.old) (played_as p result) samples.new }
{
    let header = block::read(b)?;
    let count = header.count;
    let size = 2 * count;
    if samples.len() < size {
        return Err(Refusal::Length);
    }
    if !decoder::good_decoder(p.decoder) {
        return Err(Refusal::Record);
    }
    let d = decoder_for(p, header);
    let done = heard_and_joined(d, header.mode, &b[12..12 + count], &mut samples[..size])?;
    Ok(PlayedBlock {
        next: Player {
            decoder: done.next,
            begun: true,
            take: header.take,
        },
        header,
        first: samples[0],
        last: samples[size - 1],
        limited: done.limited,
    })
}
