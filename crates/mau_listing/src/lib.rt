//! Listings of solutions: what solves a pattern and a subject, the trait that each listing implements, and what listings share.
#![tactic(auto)]

mod facts;
mod first;
pub mod laws;
mod lister;
mod order;
mod places;
mod prepared;
mod settle;
mod solution;

pub use facts::{has_nodes, is_lawful};
pub use first::{FirstSolutions, first_solutions};
pub use lister::{Lister, WholeLister};
pub use order::{compare_lists, compare_values, value_key_of};
pub use places::{Place, places_of};
pub use prepared::{put_identities, settle_store};
pub use settle::{settle_ready, settle_value};
pub use solution::Solution;
