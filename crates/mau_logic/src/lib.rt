//! What justifies a derivation, and that every told run has one.
#![tactic(auto)]

pub mod laws;
