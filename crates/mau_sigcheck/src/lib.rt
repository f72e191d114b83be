//! Which signatures are accepted: the declarations of each operator, judged at all tuples of sorts and kinds. [`laws`] has what
//! holds of this.
#![tactic(auto)]

mod checker;
mod count;
mod demand;
mod fault;
mod identity;
pub mod laws;
mod operators;
mod walk;

pub use fault::CheckFault;
pub use operators::check;

/// The greatest number of tuples and triples that are checked for one operator.
pub const MAX_TUPLES: u64 = 4_000_000;
