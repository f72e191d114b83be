//! Tokens: what a text is cut into before it is read.
//!
//! [`tokens`] gives the spans of all tokens of a text, or the text's first fault. What the tokens
//! of a text are is said in `specs/`, by what may begin at a place and by its first possible end;
//! [`laws`] has what holds of them.
#![tactic(auto)]

pub mod laws;
mod scan;
mod token;

pub use scan::tokens;
pub use token::{Token, TokenFault};
