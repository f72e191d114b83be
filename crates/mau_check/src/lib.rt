//! Whether the facts of a section are justified.
#![tactic(auto)]

mod building;
mod built;
mod check;
mod contexts;
mod facts;
mod filling;
mod fragments;
mod instances;
mod kept;
mod lines;
mod named;
mod over;
mod plain;
mod renumbering;
mod said;
mod sorts;
mod statements;
mod variables;
mod written;

pub use check::{CheckAnswer, Conclusion, Judgement, check_facts, judge};
pub use kept::{Holes, Kept, kept_all, kept_at};
pub use lines::{add_variable, numeral};
pub use over::build_over;
pub use renumbering::renumbered;
