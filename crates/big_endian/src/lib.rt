// Numbers as bytes, the high byte first: samples in two bytes, and numbers from 0 up in two and in four.
#![tactic(auto)]

mod numbers;
mod samples;

pub use numbers::{four_at, two_at};
pub use samples::{load, store};
