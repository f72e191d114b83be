//! The values that a place of a pattern may take of a subject, as parts, and the next value of a part behind another one.
#![tactic(auto)]

mod build;
mod key;
mod long;
mod nearest;
mod next;
mod part;
mod start;
mod taken;

pub use nearest::nearest_behind;
pub use next::next_value;
pub use part::{Part, Reach};
pub use taken::next_taken;
