// What the codec promises to a host that keeps the record as bytes, as theorems over the definitions that the contracts cite. This crate
// has no code.
#![tactic(auto)]
