//! What a text reads as by the productions of a grammar: no way, exactly one way, or two that differ.
#![tactic(auto)]

mod chart;
mod fill;
mod grammar;
mod groups;
mod marks;
mod places;
mod reading;
mod trees;

pub use grammar::{Leaf, Piece, Production, Said};
pub use reading::{Forest, read};
pub use trees::Trees;
