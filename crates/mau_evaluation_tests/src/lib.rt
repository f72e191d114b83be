//! Tests of evaluation over the public calls of several crates. Without its tests it has nothing.
#![tactic(auto)]

#[cfg(test)]
mod conditions;
#[cfg(test)]
mod signed;
#[cfg(test)]
mod told;
