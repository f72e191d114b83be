//! Sets of sorts that hold with each sort all that are above it.
ghost use Rattle.std.specs.Prelude.{◌≡◌, ◌↔◌, ◌⊎◌, ℕ, IsTrue, IfOk};
ghost use Rattle.std.specs.List.Sorted.{IsStrictlyIncreasing};
ghost use Rattle.mau_signature.specs.Faults.{IsSort};
ghost use Rattle.mau_sorts.specs.SortSets.{IsAbove, IsIn, IsOver, AreApart, AreSorts, shown_sort};

use crate::minimal::{add_all, is_above, order};
use mau_poset::Poset;
use mau_terms::NoMemory;
use std::alloc::Global;
use std::marker::Model;

/// The minimal sorts of a set, and the kind that is in it.
#[derive(Drop)]
pub(crate) struct SortSet {
    pub(crate) minimal: Vec<u32>,
    pub(crate) kind: u32,
}

impl Model for SortSet {
    ghost use Rattle.mau_sorts.specs.SortSets.{SortsOf};

    ghost Value = { SortsOf };

    ghost view = { λ s. record { minimal = s.minimal.items; kind = s.kind } };
}

impl SortSet {
    /// The minimal sorts.
    pub(crate) fn minimal(&self) -> &[u32]
        ensures { result.now ≡ self.now.minimal }
    {
        &self.minimal
    }

    /// The first of the minimal sorts, or the kind where there is none.
    pub(crate) fn shown(&self) -> u32
        ensures { result ≡ shown_sort self.now }
    {
        match self.minimal.first() {
            Some(sort) => *sort,
            None => self.kind,
        }
    }

    /// The set with these sorts and all that are above them. Its minimal sorts stand in ascending order.
    pub(crate) fn with(
        self,
        alloc: Global,
        poset: &Poset,
        more: &[u32],
    ) -> Result<SortSet, NoMemory>
        requires over { IsOver poset.now self }
        requires apart { AreApart poset.now self.minimal }
        requires more { AreSorts poset.now more.now }
        ensures exact { IfOk result (λ e. (r : ℕ) → IsIn poset.now e r ↔ (IsIn poset.now self r ⊎ IsAbove poset.now more.now r)) }
        ensures over { IfOk result (IsOver poset.now) }
        ensures apart { IfOk result (λ e. AreApart poset.now e.minimal) }
        ensures ascending { IfOk result (λ e. IsStrictlyIncreasing e.minimal) }
    {
        let SortSet { mut minimal, kind } = self;
        add_all(alloc, poset, &mut minimal, more)?;
        order(&mut minimal);
        Ok(SortSet { minimal, kind })
    }

    /// Whether a sort or a kind is in the set.
    pub(crate) fn has(&self, poset: &Poset, sort: u32) -> bool
        requires over { IsOver poset.now self.now }
        requires sort { IsSort poset.now sort }
        ensures { IsTrue result ↔ IsIn poset.now self.now sort }
    {
        self.kind == sort || is_above(poset, &self.minimal, sort)
    }
}
