//! A question as a listing holds it, and the last test of values: whether they are those of a solution without context.
#![tactic(auto)]

mod fits;
mod kinds;
mod tried;

pub use fits::is_for;
pub use tried::{Trial, copy_bound, solution_of, solves, variables_of};
