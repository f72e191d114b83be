//! Runs of strategies: a run depth first over any successors, and configurations as numbers.
#![tactic(auto)]

mod configs;
mod exact;
mod forms;
pub mod laws;
mod listed;
mod lists;
mod numbered;
mod successors;
mod trace;
mod walk;

pub use configs::{BindingId, Bound, Config, Frame, FramesId, Interner, StrategyId, Todo, TodosId};
pub use forms::{Form, Forms, LeafId};
pub use listed::Listed;
pub use successors::Successors;
pub use trace::Trace;
pub use walk::{Open, StartError, Walk, WalkEnd};
