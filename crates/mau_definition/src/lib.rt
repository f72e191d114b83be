//! Definitions of strategies: [`read_definition`] reads `sd CALL := E` or `csd CALL := E if C` of a text, or says why it is none.
#![tactic(auto)]

mod bound;
mod call;
mod definition;
mod fault;
pub mod laws;

pub use definition::read_definition;
pub use fault::{DefinitionFault, of_statement};
