//! Solutions.
ghost use Rattle.std.specs.Prelude.{◌≡◌, IfOk};

use mau_terms::{Duplicate, NoMemory, Seq, TermId};
use std::alloc::Global;

/// A solution of a pattern and a subject, by the numbers of a store: the lists of the left and the right context, and one value for
/// each variable of the pattern, by first occurrence. A rest stands in `right`. Without context both lists are empty.
#[derive(Drop, Debug)]
pub struct Solution {
    pub left: Seq<TermId>,
    pub right: Seq<TermId>,
    pub values: Seq<TermId>,
}

impl Solution {
    /// An equal solution.
    pub fn copy(&self, alloc: Global) -> Result<Solution, NoMemory>
        ensures { IfOk result (λ copy. copy ≡ self.now) }
    {
        Ok(Solution {
            left: self.left.copy(alloc)?,
            right: self.right.copy(alloc)?,
            values: self.values.copy(alloc)?,
        })
    }
}

impl Duplicate for Solution {
    fn copy(&self, alloc: Global) -> Result<Solution, NoMemory> {
        self.copy(alloc)
    }
}
