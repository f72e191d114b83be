//! Sorts under the order that subsort pairs give them, and the kinds above the sorts.
#![tactic(auto)]

mod closure;
mod fault;
mod kinds;
pub mod laws;
mod poset;
mod rows;
mod table;

pub use fault::PosetFault;
pub use poset::Poset;

/// The greatest number of sorts that a poset may have.
pub const MAX_SORTS: u32 = 16_384;
