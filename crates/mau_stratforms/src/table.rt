//! Leaves by numbers.
ghost use Rattle.std.specs.Prelude.{◌≡◌, ◌↔◌, ◌⊎◌, ℕ, [], ◌∷◌, ◌++◌, ◌<◌, length, slice_get, Some, IsTrue, IfOk, OnErr, MatchOption};
ghost use Rattle.mau_strat.specs.Forms.{IsLeaf};
ghost use Rattle.mau_stratforms.specs.Meanings.{meaning_of, meant};
ghost use Rattle.mau_stratforms.specs.Tables.{IsTable};

use crate::same::same;
use mau_program::Strategy;
use mau_strat::LeafId;
use mau_terms::NoMemory;
use std::alloc::Global;
use std::marker::Model;

/// Labels, calls, tests and forms with strategies inside parts or fragments by their numbers, seen as their list. None is taken out.
#[derive(Drop)]
pub struct LeafTable {
    leaves: Vec<Strategy>,
}

impl Model for LeafTable {
    ghost use Rattle.std.specs.Prelude.{List};
    ghost use Rattle.std.specs.Coded.{codes, coded_list};
    ghost use Rattle.mau_program.specs.Trees.{StrategyOf};

    ghost Value = { List StrategyOf };

    ghost use Rattle.mau_terms.specs.Code.{tree_code};
    ghost use Rattle.mau_program.specs.Code.{strategy_code};

    ghost coded = { coded_list (strategy_code (Prim.hlevel (codes, tree_code))) };

    ghost use Rattle.mau_stratforms.specs.Meanings.{meant};
    ghost use Rattle.mau_stratforms.specs.Tables.{IsTable};

    ghost view = { λ t. t.leaves.items };

    ghost invariant = { λ t. IsTable (meant t.leaves.items) };
}

impl LeafTable {
    /// None.
    pub fn new(alloc: Global) -> LeafTable
        ensures { result ≡ [] }
    {
        LeafTable {
            leaves: Vec::new(alloc),
        }
    }

    /// How many there are.
    pub fn len(&self) -> usize
        ensures len { result ≡ length self.now }
        ensures table { IsTable (meant self.now) }
    {
        self.leaves.len()
    }

    /// Whether there is none.
    pub fn is_empty(&self) -> bool
        ensures { IsTrue result ↔ (length self.now ≡ 0) }
    {
        self.leaves.is_empty()
    }

    /// The leaf with a number.
    pub fn leaf(&self, id: LeafId) -> &Strategy
        requires { id.0 < length self.now }
        ensures leaf { slice_get self.now id.0 ≡ Some result.now }
        ensures table { IsTable (meant self.now) }
    {
        &self.leaves[id.0]
    }

    /// All leaves, each at its number.
    pub fn items(&self) -> &[Strategy]
        ensures leaves { result.now ≡ self.now }
        ensures table { IsTable (meant self.now) }
    {
        self.leaves.as_slice()
    }

    /// The number of a leaf, if it has one.
    fn find(&self, leaf: &Strategy) -> Option<usize>
        ensures { MatchOption result ((l : ℕ) → slice_get (meant self.now) l ≡ Some (meaning_of leaf.now) → ⊥)
            (λ l. slice_get (meant self.now) l ≡ Some (meaning_of leaf.now)) }
    {
        for place in 0..self.leaves.len() {
            if same(&self.leaves[place], leaf) {
                return Some(place);
            }
        }
        None
    }

    /// The number of a leaf. One that is there keeps its number; another goes last. Out of memory, all stay as they were.
    pub fn add(&mut self, alloc: Global, leaf: &Strategy) -> Result<LeafId, NoMemory>
        requires { IsLeaf (meaning_of leaf.now) }
        ensures ok { IfOk result (λ l. slice_get (meant self.new) l.0 ≡ Some (meaning_of leaf.now)) }
        ensures added { (self.new ≡ self.old) ⊎ (self.new ≡ self.old ++ leaf.now ∷ []) }
        ensures unchanged { OnErr result (self.new ≡ self.old) }
        ensures table { IsTable (meant self.new) }
    {
        if let Some(place) = self.find(leaf) {
            return Ok(LeafId(place));
        }
        let copy = leaf.copy(alloc)?;
        let place = self.leaves.len();
        self.leaves.push(copy)?;
        Ok(LeafId(place))
    }
}
