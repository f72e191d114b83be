//! Which strategies of a command are searched for so far.
#![tactic(auto)]

mod rules;
mod strategies;

pub use strategies::is_searched;
