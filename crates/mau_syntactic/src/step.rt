//! The steps of a pattern.

use mau_terms::OpId;

/// What is asked of one term, from left to right through a pattern.
#[derive(Clone, Copy, PartialEq, Eq, Debug)]
pub(crate) enum Step {
    /// This operator, over so many arguments, which come next.
    Operator(OpId, usize),
    /// This numeral.
    Numeral(u128),
    /// The value of the variable at this place; its first term becomes its value.
    Place(usize),
}
