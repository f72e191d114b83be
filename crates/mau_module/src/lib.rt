//! Whole modules: what a module of a text is over the modules that were accepted before, with all that it includes, and why it
//! is none. A [`Library`] holds all accepted modules, those of the prelude first. [`laws`] has what holds of this.
#![tactic(auto)]

mod context;
mod declarations;
mod fault;
mod flatten;
mod frame;
mod include;
pub mod laws;
mod library;
mod limits;
mod module;
mod naming;
mod numbering;
mod own;
mod prelude;
mod signing;
mod statements;
mod tables;
mod truth;

pub use context::truth_of;
pub use fault::{Limit, ModuleFault};
pub use library::{Library, NAT};
pub use module::Module;

/// The greatest depth of imports.
pub const MAX_DEPTH: u32 = 32;
