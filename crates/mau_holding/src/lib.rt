//! Whether a condition holds under a solution: it is asked of any evaluator, with what is left of the budget of an item.
#![tactic(auto)]

mod holding;

pub use holding::{bound_by, holds_for};
