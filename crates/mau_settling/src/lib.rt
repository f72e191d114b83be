//! Settling the sorts of terms: identities, then what is below a term from left to right, then the term, with the memberships of each.
#![tactic(auto)]

mod beginning;
pub mod laws;
mod plain;
mod settling;
mod solving;
mod walk;

pub use settling::{Settling, Stage, begin_settling, settle_term};
pub use solving::{ConditionSolver, settle_by};
pub use walk::{Place, first_unsettled};
