//! The solutions of a matching fragment of a condition, one after another.
#![tactic(auto)]

mod choices;
mod own;
mod told;

pub use choices::{Choices, begin_choices, next_choice};
pub use own::own_choice;
