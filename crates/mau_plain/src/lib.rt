//! A plain slow listing without contexts, to which others are compared: it gathers all that the variables of a pattern may have, and tries
//! all lists of these.
#![tactic(auto)]

mod among;
mod least;
mod listing;
mod parts;
mod settled;
mod words;

pub use listing::PlainListing;
