//! Tests of texts of strategies: which pieces they have, and which word is at fault. Without its tests it is empty.
#![tactic(auto)]

#[cfg(test)]
mod shapes;
#[cfg(test)]
mod strategies;
