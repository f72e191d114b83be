//! Native operators that are stored as closures, each with the formula that it computes.
#![tactic(auto)]

mod divisor;
mod formula;
mod hook;
mod native;
mod operators;
mod powers;
mod table;

pub use formula::{Formula, Gives, HookAnswer};
pub use hook::Hook;
pub use native::Native;
pub use operators::{
    difference, greater, greater_or_equal, greatest_common_divisor, less, less_or_equal, maximum,
    minimum, power, product, quotient, remainder, sum,
};
pub use table::{HookFault, HookTable};
