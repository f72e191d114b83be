//! Derivations as text: documents of sections, each of terms and facts.
#![tactic(auto)]

mod block;
mod document;
mod entry;
mod fact;
mod fault;
mod fields;
pub mod laws;
mod line;
mod progress;
mod read;
mod show;
mod term;
mod words;
mod writable;
mod write;

pub use document::{
    Axiom, BuiltFact, Document, Fact, MbFact, Section, SortFact, StepFact, TermLine, UnderFact,
};
pub use fault::FactFault;
pub use read::read_facts;
pub use show::show_document;
pub use writable::can_be_written;
