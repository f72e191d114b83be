//! The modules of the prelude, and what a module declares.

use mau_grammar::Alias;
use mau_program::Equation;
use mau_signature::Decl;
use mau_terms::Text;

/// A module of the prelude.
#[derive(Clone, Copy, PartialEq, Eq, Debug)]
pub enum PreludeModule {
    /// `TRUTH-VALUE`: the sort of truth values, with its two constants.
    TruthValue,
    /// `TRUTH`, which imports that one. The operators that each kind of such a module has besides are not in the tables.
    Truth,
    /// `BOOL`: the operators on truth values.
    Bool,
    /// `NAT`: the natural numbers.
    Nat,
}

/// What a module declares itself, and not what it imports. Sorts and operators have their numbers in the whole module: sorts are counted
/// from 0 and operators from 1, first those of what it imports.
#[derive(Drop)]
pub struct Table {
    pub name: Text,
    /// The sorts in order.
    pub sorts: Vec<Text>,
    /// Pairs of a sort and one above it.
    pub pairs: Vec<(u32, u32)>,
    /// The declarations of operators in order.
    pub declarations: Vec<Decl>,
    /// The declared variables in order.
    pub variables: Vec<Alias>,
    /// The equations in order.
    pub equations: Vec<Equation>,
}
