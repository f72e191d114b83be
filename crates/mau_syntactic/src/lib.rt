//! Patterns whose operators have no axioms: they are compiled once, and matched by one walk over the numbers of a store. (Matching
//! of syntactic patterns: F. Baader and T. Nipkow, "Term Rewriting and All That", 1998, section 4.7.)
#![tactic(auto)]

mod compile;
mod free;
pub mod laws;
mod part;
mod pattern;
mod solution;
mod step;
mod template;

pub use pattern::Pattern;
pub use template::Template;
