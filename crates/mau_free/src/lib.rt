//! What a term can take as an argument of an operator that is not associative: free, commutative, with an identity, or the successor.
#![tactic(auto)]

mod taken;
mod values;

pub use values::free_values;
