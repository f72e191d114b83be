//! What an operator has to meet at each tuple of sorts.
ghost use Rattle.std.specs.Prelude.{◌≡◌, ◌↔◌, IsTrue, IfSome, All, ◌∷◌, []};
ghost use Rattle.mau_signature.specs.Faults.{IsSort};
ghost use Rattle.mau_signature.specs.Signature.{IsOperator};
ghost use Rattle.mau_sigcheck.specs.Accepted.{BracketsAgreeAt, GivesFromLeft, GivesFromRight};
ghost use Rattle.mau_sigcheck.specs.Checking.{Meets};

use crate::checker::Checker;
use mau_terms::OpId;

/// What an operator has to meet at each tuple of sorts.
#[derive(Clone, Copy)]
pub enum Demand {
    /// The declarations that apply have a least result.
    LeastResult,
    /// Both bracketings of three sorts have one sort.
    OneBracketing,
}

// Whether both are there, and they are one sort.
fn are_one(left: Option<u32>, right: Option<u32>) -> bool
    ensures { IsTrue result ↔ ((r : _) × (left ≡ Some r) × (right ≡ Some r)) }
{
    match (left, right) {
        (Some(left), Some(right)) => left == right,
        _ => false,
    }
}

impl<'a> Checker<'a> {
    /// Whether an operator meets a demand at a tuple.
    pub fn meets(&self, op: OpId, demand: Demand, sorts: &[u32]) -> bool
        requires operator { IsOperator self.now op.0 }
        requires sorts { All (IsSort self.now.hierarchy) sorts.now }
        ensures { IsTrue result ↔ Meets self.now op.0 demand sorts.now }
    {
        match demand {
            Demand::LeastResult => self.result_of(op, sorts).is_some(),
            Demand::OneBracketing => self.brackets_agree(op, sorts),
        }
    }

    // Whether both bracketings of three sorts have one sort.
    fn brackets_agree(&self, op: OpId, sorts: &[u32]) -> bool
        requires operator { IsOperator self.now op.0 }
        requires sorts { All (IsSort self.now.hierarchy) sorts.now }
        ensures { IsTrue result ↔ BracketsAgreeAt self.now op.0 sorts.now }
    {
        match sorts {
            [a, b, c] => are_one(
                self.from_left(op, *a, *b, *c),
                self.from_right(op, *a, *b, *c),
            ),
            _ => true,
        }
    }

    // The sort of f(f(a, b), c), if there is one.
    fn from_left(&self, op: OpId, a: u32, b: u32, c: u32) -> Option<u32>
        requires operator { IsOperator self.now op.0 }
        requires a { IsSort self.now.hierarchy a }
        requires b { IsSort self.now.hierarchy b }
        requires c { IsSort self.now.hierarchy c }
        ensures value { IfSome result (GivesFromLeft self.now op.0 a b c) }
        ensures one { (r : _) → GivesFromLeft self.now op.0 a b c r → result ≡ Some r }
    {
        match self.result_of(op, &[a, b]) {
            Some(inner) => self.result_of(op, &[inner, c]),
            None => None,
        }
    }

    // The sort of f(a, f(b, c)), if there is one.
    fn from_right(&self, op: OpId, a: u32, b: u32, c: u32) -> Option<u32>
        requires operator { IsOperator self.now op.0 }
        requires a { IsSort self.now.hierarchy a }
        requires b { IsSort self.now.hierarchy b }
        requires c { IsSort self.now.hierarchy c }
        ensures value { IfSome result (GivesFromRight self.now op.0 a b c) }
        ensures one { (r : _) → GivesFromRight self.now op.0 a b c r → result ≡ Some r }
    {
        match self.result_of(op, &[b, c]) {
            Some(inner) => self.result_of(op, &[a, inner]),
            None => None,
        }
    }
}
