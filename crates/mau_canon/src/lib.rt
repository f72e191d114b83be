//! Shared terms in normal form: equal terms have one number. (Normal forms modulo associativity, commutativity and identity:
//! S. Eker, "Associative-commutative rewriting on large terms", RTA 2003.)
#![tactic(auto)]

mod around;
mod bare;
mod builder;
mod fault;
pub mod laws;
mod list;
mod normal;
mod readback;
mod value;

pub use around::build_around;
pub use bare::{assoc_top, build_bare, build_instance};
pub use builder::{build, from_list};
pub use fault::BuildFault;
pub use list::list_of;
pub use readback::read;

/// The greatest depth of a normal form; a leaf has the depth 1.
pub const MAX_DEPTH: usize = 1_000;
