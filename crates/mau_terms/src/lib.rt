//! Bare terms, their axioms, and what it means that two of them are equal.
#![tactic(auto)]

mod bare;
mod ids;
pub mod laws;
mod memory;
mod seq;
mod text;
mod theory;
mod vars;

pub use bare::{Args, Bare, Subst};
pub use ids::{OpId, TermId, VarId};
pub use memory::NoMemory;
pub use seq::{Duplicate, Seq};
pub use text::Text;
pub use theory::{Identity, Theory};
pub use vars::Vars;
