//! The axioms of an operator.

use crate::OpId;

/// The identity element of an operator: a constant or a numeral.
#[derive(Clone, Copy, PartialEq, Eq, Hash, Debug)]
pub enum Identity {
    Const(OpId),
    Num(u128),
}

/// The axioms of an operator: associativity, commutativity, its identity element, and whether it is the successor of the
/// numerals.
#[derive(Clone, Copy, PartialEq, Eq, Hash, Debug)]
pub struct Theory {
    pub assoc: bool,
    pub comm: bool,
    pub id: Option<Identity>,
    pub succ: bool,
}
