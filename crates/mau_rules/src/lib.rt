//! Rules at one place, and runs of rules, by any evaluator and any listing with contexts.
#![tactic(auto)]

mod attempt;
mod by_top;
mod frames;
mod one;
mod passes;
mod round;
mod run;
mod search;
mod telling;
mod tops;
mod walk;
mod whole;

pub use attempt::{Found, by_rule};
pub use run::{RuleEnd, RuleRun};
pub use search::at_place;
pub use walk::{Open, next_place};
pub use whole::{end_around, put_back};
