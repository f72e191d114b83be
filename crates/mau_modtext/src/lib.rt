//! The items of a session text: modules, commands and settings, each part with its own tokens.
#![tactic(auto)]

mod attributes;
mod brackets;
mod commands;
mod elements;
mod fault;
mod forms;
mod item;
pub mod laws;
mod names;
mod operators;
mod parts;
mod raw;
mod sides;
mod sorts;
mod statements;
mod word;

pub use item::items;
pub use raw::{
    CommandKind, FragmentKind, ModuleKind, RawAttr, RawBody, RawCommand, RawElement, RawFragment,
    RawItem, RawModule, RawOps, RawStatement, RawStrats, RawVars, Setting, StatementKind,
    TextFault,
};
pub use word::TokenList;
