//! Sub-multisets of a sorted list of terms, and contiguous parts of any list of terms, in ascending order. A listing keeps the items
//! and the list that comes next, and computes the following one in place.
#![tactic(auto)]

mod fronts;
pub mod laws;
mod segments;
mod sorted;
mod sub_lists;

pub use segments::Segments;
pub use sorted::are_sorted;
pub use sub_lists::SubLists;
