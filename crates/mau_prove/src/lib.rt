//! Derivations made of what was told: a recorder of runs, the sorts that memberships give, and sections of facts that prove what a run leads to.
#![tactic(auto)]

mod certified;
mod contexts;
mod copies;
mod document;
mod frames;
mod known;
mod lines;
mod memberships;
mod names;
mod nodes;
mod recorder;
mod rounds;
mod section;
mod steps;
mod terms;
mod told_sorts;
mod walk;

pub use document::show_sections;
pub use memberships::{Reason, Shown, SortOf, derive_sorts};
pub use recorder::{Recorder, Told};
pub use section::{Run, prove};
