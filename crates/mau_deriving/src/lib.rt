//! The sorts of terms by memberships.
#![tactic(auto)]

mod binding;
mod derivation;
pub mod laws;
mod listing;
mod questions;

pub use derivation::{Deriving, begin_deriving};
