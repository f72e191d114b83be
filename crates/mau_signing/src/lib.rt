//! The signature of some declarations over the names of sorts: [`order_sorts`] gives the order of the sorts, and [`sign`] the
//! signature, or the text of the refusal that names what is at fault. [`laws`] has what holds of this.
#![tactic(auto)]

mod fault;
pub mod laws;
mod refusal;
mod signed;

pub use fault::SignFault;
pub use refusal::write_operator;
pub use signed::{order_sorts, sign};
