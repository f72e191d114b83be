//! Tests of documents of facts: what is read, which line is at fault, what is written. Without its tests it is empty.
#![tactic(auto)]

#[cfg(test)]
mod tests;
