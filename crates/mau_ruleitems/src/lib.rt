//! Items that rewrite by rules, by any evaluator, any listing with contexts and any watcher: whether terms of a program are rewritten, and runs with the budget of an item.
#![tactic(auto)]

mod rewriting;
mod running;

pub use rewriting::{is_runnable, rewriting_condition};
pub use running::{RunAnswer, Running, run_item};
