//! Operators: which declarations are of one operator, its attributes, and its least declared results.
#![tactic(auto)]

mod attributes;
mod bare;
mod build;
mod decl;
mod fault;
mod form;
mod group;
mod judge;
pub mod laws;
mod names;
mod operator;
mod results;
mod signature;
mod terms;

pub use attributes::{Attrs, Gather, IdSpec};
pub use bare::is_bare;
pub use decl::Decl;
pub use fault::SigFault;
pub use form::{Form, Piece};
pub use signature::Signature;

/// The greatest number of declarations that a signature may be made from.
pub const MAX_DECLARATIONS: usize = 1_100_000;

/// The greatest number of arguments of an operator.
pub const MAX_ARITY: usize = 16;
