//! The parts of a subject that a place of a pattern may stand for.
ghost use Rattle.std.specs.Prelude.{◌≡◌, IfOk};

use mau_terms::{Duplicate, NoMemory, OpId, Seq, TermId};
use std::alloc::Global;

/// How much of a list is meant: the whole, what stands at its front, or what stands anywhere in it. Under a commutative operator
/// the last two are one.
#[derive(Clone, Copy, PartialEq, Eq, Debug)]
pub enum Reach {
    Whole,
    Front,
    Inside,
}

/// Terms that a place of a pattern may stand for: one term, or all whose list under an associative operator is so much of some items.
#[derive(Drop, Debug)]
pub enum Part {
    One(TermId),
    ListOf(Reach, OpId, Seq<TermId>),
}

impl Part {
    /// An equal part.
    pub fn copy(&self, alloc: Global) -> Result<Part, NoMemory>
        ensures { IfOk result (λ copy. copy ≡ self.now) }
    {
        match self {
            Part::One(id) => Ok(Part::One(*id)),
            Part::ListOf(reach, op, items) => Ok(Part::ListOf(*reach, *op, items.copy(alloc)?)),
        }
    }
}
