//! The mixfix printer: [`show`] gives the text of a term of a store, as a [`Printer`] of its
//! module writes operators, sorts and kinds. [`laws`] has what holds of such texts: read again, they
//! are the term.
#![tactic(auto)]

pub mod laws;
mod layout;
mod making;
mod printer;
mod printing;
mod productions;
mod sorts;
mod texts;

pub use layout::Layout;
pub use printer::Printer;
pub use printing::show;
