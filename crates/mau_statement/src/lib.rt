//! Statements of a module's text. [`read_statement`] reads an equation, a membership or a rule
//! as typed terms and fragments, or says why it is none: a part is no term, a left side or a
//! head may not be one, a variable is not bound, or there are too many parts. [`read_condition`] reads
//! a condition by itself, and [`first_unbound`] tells which of its variables isn't bound; [`has_only`], [`are_bound`] and
//! [`add_variables`] judge the same of other texts. [`laws`] has what holds of this.
#![tactic(auto)]

mod binding;
mod condition;
mod context;
mod fault;
mod judged;
pub mod laws;
mod long;
mod part;
mod reading;
mod statement;
mod tops;

pub use binding::{add_variables, are_bound, first_unbound, has_only};
pub use condition::read_condition;
pub use context::Context;
pub use fault::{Limit, StatementFault};
pub use part::{is_empty, read_term, sort_named};
pub use reading::read_statement;
pub use statement::Statement;
pub use tops::{is_head, is_left_side};

/// The greatest number of variables of a statement.
pub const MAX_VARIABLES: usize = 64;

/// The greatest number of fragments of a condition.
pub const MAX_FRAGMENTS: usize = 32;
