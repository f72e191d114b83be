//! What sessions write of runs and of themselves: the steps of a run, a session that is made, and its summary.
#![tactic(auto)]

mod counting;
mod session;
mod trace;
mod variables;

pub use counting::{Counts, counts_of};
pub use session::{made_text, write_summary};
pub use trace::write_step;
