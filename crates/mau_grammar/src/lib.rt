//! The productions of a signature: how its terms are written.
#![tactic(auto)]

mod aliases;
mod grammar;
mod index;
mod operators;
mod parts;
mod precedence;
mod prefix;
mod production;
mod sorts;

pub use aliases::{Alias, Variable};
pub use grammar::Grammar;
pub use production::{Hole, Part, Production};
pub use sorts::SortName;
