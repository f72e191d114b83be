//! The solutions of a strategy from a term, one after another. [`laws`] has what holds of them.
#![tactic(auto)]

pub mod laws;
mod next;
mod start;

pub use next::{Next, next_solution};
pub use start::{MOST_CALLS, begin};
