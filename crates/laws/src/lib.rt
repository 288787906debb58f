// Laws that several proofs cite. This crate has no code.
#![tactic(auto)]
