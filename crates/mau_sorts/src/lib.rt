//! The sorts of terms: for each term of a store its minimal sorts, by declarations and by what else is known of it.
//! (J. Goguen and J. Meseguer, "Order-sorted algebra I", Theoretical Computer Science 105, 1992.)
#![tactic(auto)]

mod derive;
pub mod laws;
mod minimal;
mod ready;
mod settle;
mod sort_set;
mod table;

pub use ready::are_terms;
pub use table::SortTable;
