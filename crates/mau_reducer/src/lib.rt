//! The evaluator of the product: a program, its native operators, and the sorts that are settled.
#![tactic(auto)]

mod asking;
mod at_once;
mod evaluating;
mod flagged;
mod fragments;
mod keeping;
pub mod laws;
mod reducer;
mod settling;
mod tests_of_programs;
mod world;

pub use at_once::Sorting;
pub use flagged::Flagged;
pub use reducer::{Candidates, Reducer};
pub use tests_of_programs::derives_nothing;
