//! Runs of strategies, over whoever gives the results of leaves and the bodies of calls.
#![tactic(auto)]

mod ahead;
mod branch;
mod course;
mod cursor;
pub mod laws;
mod leaves;
mod outside;
mod run;
mod turns;

pub use course::Course;
pub use leaves::{Body, Lead, LeafEnd, Leaves, Yielded};
pub use run::StratRun;
