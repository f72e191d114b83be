//! Strategy runs between the items of a session: begun, kept while there is no evaluator, and asked for one solution after another.
#![tactic(auto)]

mod ask;
mod kept;
mod next;
mod rest;
mod start;
mod watch;
mod watched;

pub use kept::{KeptRun, RestingRun};
pub use next::{NextShown, Shown, next_shown};
pub use rest::AtRest;
pub use start::begin;
