//! Evaluation over a store: what an evaluation's loop asks of terms and programs.
#![tactic(auto)]

mod arguments;
mod attempts;
mod binding;
mod built_in;
mod compiling;
mod given;
mod making;
mod natives;
mod ordering;
mod rebuilding;
mod replacing;
mod stepping;
mod taking;
mod trying;

pub use arguments::{Opened, open, order_of};
pub use attempts::{Attempts, begin_attempts, next_attempt};
pub use binding::Binding;
pub use built_in::{BuiltIn, Truths, built_in_of};
pub use compiling::Compiled;
pub use given::{Given, Leaf, given_at};
pub use making::{made, make};
pub use natives::{Answered, Hooks, Natives};
pub use ordering::equations_in_order;
pub use rebuilding::{Rebuilt, rebuild};
pub use replacing::{instance, replace};
pub use stepping::{fills, has_one_hole, hole_for, shown_number, step};
pub use taking::take_given;
pub use trying::Found;
