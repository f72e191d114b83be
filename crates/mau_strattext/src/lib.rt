//! Strategies of a text: [`read_strategy`] reads the words of a strategy, or says why they are none.
#![tactic(auto)]

mod arguments;
mod brackets;
mod build;
mod cut;
mod fault;
mod fragments;
pub mod laws;
mod leaf;
mod setting;
mod stack;
mod strategy;
mod term;
mod uses;

pub use brackets::closing;
pub use fault::StratFault;
pub use strategy::read_strategy;
