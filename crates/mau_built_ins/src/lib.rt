//! What is built in gives terms of the kind of its operator, where a program is lawful. Laws alone: no code runs.
#![tactic(auto)]

mod laws;

pub use laws::{built_ins_give_their_kind, literals_give_numerals, natives_give_numerals};
