//! Tests over the public calls of several crates: bytes that come and go, tokens, native operators, grammars, charts, and how terms are
//! read and printed. Without its tests it has nothing.
#![tactic(auto)]

#[cfg(test)]
mod bytes;
#[cfg(test)]
mod charts;
#[cfg(test)]
mod formulas;
#[cfg(test)]
mod hooks;
#[cfg(test)]
mod modules;
#[cfg(test)]
mod notation;
#[cfg(test)]
mod parsing;
#[cfg(test)]
mod printing;
#[cfg(test)]
mod productions;
#[cfg(test)]
mod signed;
#[cfg(test)]
mod tokens;
