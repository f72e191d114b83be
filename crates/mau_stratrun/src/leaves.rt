//! Who gives the results of leaves and the bodies of calls.
ghost use Rattle.std.specs.Prelude.{List, [], All, IfOk};
ghost use Rattle.mau_terms.specs.Tree.{Tree};
ghost use Rattle.mau_evaluation.specs.Configs.{Todo};
ghost use Rattle.mau_stratrun.specs.Settings.{IsLeadIn};
ghost use Rattle.mau_stratrun.specs.Yields.{Yield};
ghost use Rattle.mau_stratrun.specs.Worlds.{World, LeavesGrow, IsWorld, begun_by, IsNextYield};

use mau_strat::{Bound, LeafId};
use mau_terms::{NoMemory, TermId};

/// A strategy whose results are asked for one after another.
#[derive(Clone, Copy)]
pub enum Lead {
    /// `all`
    All,
    /// `top(all)`
    TopOfAll,
    /// A label, a test or a call.
    Leaf(LeafId),
    /// `top(l)`
    TopOf(LeafId),
}

/// The body of a definition, by the number of the definition: the calls that are left to it, and the values of its variables.
#[derive(Drop)]
pub struct Body {
    pub definition: usize,
    pub calls: usize,
    pub values: Vec<Bound>,
}

/// What is yielded.
#[derive(Drop)]
pub enum Yielded {
    /// A result.
    Term(TermId),
    /// What a call leads to, on the same term.
    Body(Body),
}

/// Why no more is yielded, though there may be more.
#[derive(Clone, Copy, Drop, Debug)]
pub enum LeafEnd {
    Stopped,
    TooDeep,
    Overflow,
    /// No calls are left to a call.
    CallDepth,
    NoMemory,
}

/// Gives the results of leaves and the bodies of calls, by a cursor for each, and keeps the terms.
pub trait Leaves {
    /// Where the search for the results of a leaf, or for the bodies of a call, stands.
    type Cursor: Drop;

    /// What there is of terms and cursors.
    ghost world: { Self → World Self.Cursor };

    /// What is kept is so.
    ghost is_ready: { Self → Type 0 };

    /// A cursor that has yielded nothing.
    fn start(
        &mut self,
        lead: Lead,
        calls: usize,
        values: &[Bound],
        term: TermId,
    ) -> Result<Self::Cursor, NoMemory>
        requires ready { is_ready self.old }
        requires lead { IsLeadIn (world self.old).setting.fixed.leaves lead }
        requires values { All (world self.old).is_bound values.now }
        requires term { (world self.old).is_term term.0 }
        ensures yields { IfOk result (λ c. (world self.new).yields c
            (begun_by (world self.old).setting lead calls values.now) ((world self.old).setting.tree term.0) []) }
        ensures ready { is_ready self.new }
        ensures grows { LeavesGrow (world self.old) (world self.new) };

    /// What comes behind that which a cursor has yielded. The cursor is one that was made here.
    fn next(&mut self, cursor: &mut Self::Cursor) -> Result<Option<Yielded>, LeafEnd>
        requires ready { is_ready self.old }
        requires yields { (d : Todo) × (t : Tree) × (ys : List Yield) × (world self.old).yields cursor.old d t ys }
        ensures next { (d : Todo) (t : Tree) (ys : List Yield) → (world self.old).yields cursor.old d t ys →
            IsNextYield (world self.new) cursor.new d t ys result }
        ensures ready { is_ready self.new }
        ensures grows { LeavesGrow (world self.old) (world self.new) };

    /// Leaves, conditions and terms are as runs need them.
    ghost laws: { (x : Self) → is_ready x → IsWorld (world x) };
}
