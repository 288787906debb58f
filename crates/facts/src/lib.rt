// What follows from the meaning and several crates cite. This crate has no code.
#![tactic(auto)]
