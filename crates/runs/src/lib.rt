// Long runs of the definitions, too dear to be computed again for each wrong version of a definition. This crate has no code.
#![tactic(auto)]
