// PCM: one chunk of a stream of samples as bytes through either end, or through one step of decoding.
#![tactic(auto)]

mod chunk;
mod signals;

pub use chunk::{decode_chunk, encode_chunk};
pub use signals::{hear_chunk, join_chunk};
