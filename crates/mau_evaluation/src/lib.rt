//! What evaluation means, for programs whose terms are trees, and the laws of it.
#![tactic(auto)]

pub mod laws;
pub mod strategy_laws;
