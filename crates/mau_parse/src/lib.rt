//! The mixfix reader: [`parse`] gives the term that some tokens of a text are by the
//! productions of a grammar, or says why they are none. The tokens are seen as words, of
//! which some are numerals or begin variables; a chart of the productions tells their
//! trees; and the one tree becomes a term, whose variables are added to those of an item.
//! [`laws`] has what holds of all this.
#![tactic(auto)]

mod fault;
mod forms;
mod goals;
pub mod laws;
mod leaves;
mod numerals;
mod overflow;
mod reader;
mod readings;
mod results;
mod terms;
mod trees;
mod words;

pub use fault::ParseFault;
pub use goals::Goal;
pub use reader::parse;
