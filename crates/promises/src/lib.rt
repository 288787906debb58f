// What the codec promises of calls on records, as theorems over the definitions that the contracts cite. This crate has no code.
#![tactic(auto)]
