//! Strategies of a program as numbers, over a table of their leaves.
#![tactic(auto)]

pub mod laws;
mod maker;
mod same;
mod table;

pub use maker::{ProgramForms, StratForms, forms_of};
pub use table::LeafTable;
