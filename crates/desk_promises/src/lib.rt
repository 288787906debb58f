// What the conference desk promises, as theorems over the definitions that the contracts cite. This crate has no code.
#![tactic(auto)]
