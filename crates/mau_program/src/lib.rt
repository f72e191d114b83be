//! Programs: the statements of a module, its strategies, and what it says to those that run it.
#![tactic(auto)]

mod definitions;
pub mod laws;
mod program;
mod statements;
mod strategies;

pub use definitions::{StratDecl, StratDef};
pub use program::Program;
pub use statements::{Equation, Fragment, Membership, Rule};
pub use strategies::{Assign, PartUse, Strategy, StrategyForm, TestKind};
