// The leaves of Tables 14 and 15 of section 6: an entry read at an address, and the scale factor that an address gives.
#![tactic(auto)]

mod entries;
mod scale;

pub use entries::{qq2_at, qq4_at, qq5_at, qq6_at, wh_at, wl_at};
pub use scale::scale_at;
