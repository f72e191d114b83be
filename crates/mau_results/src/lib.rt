//! What commands answer that evaluate terms, by any evaluator. [`laws`] has what holds of answers.
#![tactic(auto)]

mod answer;
mod kind;
pub mod laws;

pub use answer::{Answer, Evaluated, evaluate_bare, evaluate_item, shown_sort};
pub use kind::RunKind;
