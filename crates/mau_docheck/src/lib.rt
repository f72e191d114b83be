//! Documents of derivations checked: the sections of a document, each judged in the module that the text of the document has before the
//! section's item, and what is written of them.
#![tactic(auto)]

mod conclusion;
mod document;
mod holes;
mod known;
mod lines;
mod naming;
mod section;

pub use document::check;
