//! Listing the solutions of a pattern and a subject with their contexts, over any listing of those without.
#![tactic(auto)]

mod compared;
mod fresh;
pub mod laws;
mod listing;
mod narrowed;
mod next;
mod search;
mod shape;
mod start;

pub use listing::ExtListing;
