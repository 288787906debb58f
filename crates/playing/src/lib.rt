// A player's record, and what playing a block gives. Types only.
#![tactic(auto)]

use block::Header;
use g722::Decoder;

// What is kept from block to block: the decoder's record, whether a block was played before, and the take of the last that was.
#[derive(Clone, Copy)]
pub struct Player {
    pub decoder: Decoder,
    pub begun: bool,
    pub take: u32,
}

// A block that was played: the player's next record, what the block says of itself, and what the listing says of its samples.
#[derive(Clone, Copy)]
pub struct PlayedBlock {
    pub next: Player,
    pub header: Header,
    pub first: i16,
    pub last: i16,
    pub limited: u32,
}
