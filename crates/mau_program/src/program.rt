//! What a module says to those that run it.

use crate::{Equation, Membership, Rule, StratDef};
use mau_signature::Signature;
use mau_terms::{Seq, Text};

/// What a module says to those that run it: its signature, the names of its sorts in the order of their numbers, its statements, each
/// kind in order, and the definitions of its strategies in order.
#[derive(Drop)]
pub struct Program {
    pub sig: Signature,
    pub sorts: Seq<Text>,
    pub equations: Seq<Equation>,
    pub memberships: Seq<Membership>,
    pub rules: Seq<Rule>,
    pub strategies: Seq<StratDef>,
}
