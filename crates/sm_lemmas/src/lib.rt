//! Lemmas on lists, truth values and numbers that proofs of several crates use and the kit doesn't state. It has no code.
#![tactic(auto)]
