//! Conditions as machines that call nobody: a run says what it lacks, and is told it.
#![tactic(auto)]

mod bound;
mod run;
mod stage;
mod step;

pub use bound::Bound;
pub use run::CondRun;
pub use stage::Ask;
