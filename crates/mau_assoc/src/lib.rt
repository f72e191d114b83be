//! What a term can take as an argument of an operator that is associative and not commutative, with or without an identity.
#![tactic(auto)]

mod values;

pub use values::assoc_values;
