//! Terms as shared nodes: equal nodes have one number, so two terms are the same tree exactly where their numbers are equal.
//! (Hash consing: A. P. Ershov, "On programming of arithmetic operations", Comm. ACM 1(8), 1958; J.-C. Filliâtre and
//! S. Conchon, "Type-safe modular hash-consing", ML 2006.)
#![tactic(auto)]

pub mod laws;
mod node;
mod store;

pub use node::NodeView;
pub use store::Store;
