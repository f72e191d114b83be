//! What all answers of a session are made by.

use mau_declare::Words;
use mau_formula::HookTable;
use std::alloc::Global;

/// The words of the text, the native operators, and the budget of each item.
#[derive(Drop)]
pub struct Session<'a> {
    pub alloc: Global,
    pub words: &'a Words<'a>,
    pub hooks: &'a HookTable,
    pub limit: u64,
}
