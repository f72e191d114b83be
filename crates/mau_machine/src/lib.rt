//! Evaluation as one loop over a stack of frames on the heap.
#![tactic(auto)]

mod frame;
mod goal;
mod machine;
mod replies;
mod settling;
mod steps;
mod telling;
mod world;

pub use frame::{Arguments, Choosing, Condition, Control, Frame, Settled, Trial};
pub use goal::Goal;
pub use machine::{evaluate, solve};
pub use settling::settle;
pub use world::World;
