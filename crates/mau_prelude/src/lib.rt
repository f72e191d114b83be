//! The modules of the prelude as tables of what each declares. No text is read.
#![tactic(auto)]

mod booleans;
mod contents;
mod equations;
mod module;
mod numbers;
mod rows;

pub use contents::table;
pub use module::{PreludeModule, Table};
