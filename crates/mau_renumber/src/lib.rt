//! Declarations, statements and strategies in the numbers of a module that includes theirs: sorts, kinds and operators have other numbers
//! there, and a variable keeps its name.
#![tactic(auto)]

mod carry;
pub mod laws;
mod numbers;
mod strategies;

pub use carry::Tables;
pub use numbers::{declaration_to, operator_table};
