//! Listings whose solutions are shown where a condition holds under them, by any listing and any evaluator. [`laws`] has what holds of them.
#![tactic(auto)]

pub mod laws;
mod next;

pub use next::next_where;
