//! The sorts of a store's terms.
ghost use Rattle.std.specs.Prelude.{◌≡◌, ◌↔◌, ◌≢◌, ◌≤◌, ◌∷◌, ◌++◌, ℕ, [], length, take, slice_index_or, None, true, is_some, All, Contains, IfOk, IfSome, IfNone, OnOk, OnErr, IsTrue, Some};
ghost use Rattle.std.specs.Option.{option_map};
ghost use Rattle.std.specs.List.Sorted.{IsStrictlyIncreasing};
ghost use Rattle.mau_poset.specs.Order.{Hierarchy};
ghost use Rattle.mau_signature.specs.Faults.{IsSort};
ghost use Rattle.mau_store.specs.Node.{IsOf, arguments, numeral_node, operator_node};
ghost use Rattle.mau_store.specs.Trees.{tree_at};
ghost use Rattle.mau_store.specs.View.{node_of, numbers};
ghost use Rattle.mau_sigcheck.specs.Accepted.{IsSortOfNumeral};
ghost use Rattle.mau_sorts.specs.SortSets.{IsIn, IsOver, AreApart, AreSorts, shown_sort};
ghost use Rattle.mau_sorts.specs.HasSort.{Known};
ghost use Rattle.mau_sorts.specs.Table.{empty_table, IsOrdered, entry_at, IsSettled, AreEntries, AreOver, IsKnownOf, IsNodeOver, IsReady, AreSame, KeepsEntries, Settles};
ghost use Rattle.mau_sorts.specs.Derived.{NodeHas, NodeHasWith, sets, sets_at};

use crate::derive::{given, of_list, of_sort};
use crate::sort_set::SortSet;
use mau_signature::Signature;
use mau_store::{NodeView, Store};
use mau_terms::{NoMemory, OpId, TermId};
use std::alloc::Global;
use std::marker::Model;

/// For each number of a store the minimal sorts of its term, as far as they are settled. The sorts of a term are settled once,
/// after those of its arguments, and then stay.
#[derive(Drop)]
pub struct SortTable {
    alloc: Global,
    entries: Vec<Option<SortSet>>,
    order: Vec<TermId>,
    further: Vec<TermId>,
}

impl Model for SortTable {
    ghost use Rattle.mau_store.specs.View.{numbers};
    ghost use Rattle.mau_sorts.specs.Table.{Table, IsOrdered, kept_in};

    ghost Value = { Table };

    ghost view = { λ t. kept_in t.entries.items (numbers t.order.items) (numbers t.further.items) };

    ghost invariant = { λ t. IsOrdered (kept_in t.entries.items (numbers t.order.items) (numbers t.further.items)) };
}

impl SortTable {
    /// A table in which nothing is settled. What is entered later is allocated by `alloc`.
    pub fn new(alloc: Global) -> SortTable
        ensures value { result ≡ empty_table }
        ensures over { (h : Hierarchy) → AreOver h result }
    {
        SortTable {
            alloc,
            entries: Vec::new(alloc),
            order: Vec::new(alloc),
            further: Vec::new(alloc),
        }
    }

    /// The numbers of the terms that are settled, in the order in which they were settled, each once.
    pub fn settled(&self) -> &[TermId]
        ensures value { numbers result.now ≡ self.now.order }
        ensures ordered { IsOrdered self.now }
    {
        &self.order
    }

    /// The numbers of those terms that were settled with further sorts, besides what declarations tell, in the same order.
    pub fn further(&self) -> &[TermId]
        ensures { numbers result.now ≡ self.now.further }
    {
        &self.further
    }

    /// Enters the minimal sorts of a term: those that declarations give it by the sorts of its arguments, and the sorts `more`. A
    /// variable has the sort that it carries. Of a list of n elements it takes n times the declarations of its operator.
    pub fn settle_declared(
        &mut self,
        sig: &Signature,
        store: &Store,
        id: TermId,
        more: &[u32],
    ) -> Result<(), NoMemory>
        requires ready { IsReady sig.now store.now self.old id.0 }
        requires unsettled { ¬ IsSettled self.old id.0 }
        requires over { AreOver sig.now.hierarchy self.old }
        requires more { AreSorts sig.now.hierarchy more.now }
        ensures ok { OnOk result (Settles self.old self.new id.0 more.now) }
        ensures value { OnOk result ((known : Known) → AreEntries sig.now known store.now self.old → IsKnownOf known (tree_at store.now id.0) more.now
            → AreEntries sig.now known store.now self.new) }
        ensures over { AreOver sig.now.hierarchy self.new }
        ensures kept { KeepsEntries self.old self.new }
        ensures unchanged { OnErr result (AreSame self.old self.new) }
    {
        let set = self.derive(sig, store.view(id), more)?;
        self.enter(store, id, set, !more.is_empty())?;
        Ok(())
    }

    /// The minimal sorts of a term, in ascending order; no sort, where it has its kind alone. There is no answer exactly where
    /// they are not settled.
    pub fn sorts_of(&self, id: TermId) -> Option<&[u32]>
        ensures value { option_map (λ s. s.now) result ≡ option_map (λ e. e.minimal) (entry_at self.now id.0) }
    {
        match self.entry(id) {
            Some(set) => Some(set.minimal()),
            None => None,
        }
    }

    /// The sort that is shown for a term: the first of its minimal sorts, or its kind where it has no sort. There is no answer
    /// exactly where they are not settled.
    pub fn sort_of(&self, id: TermId) -> Option<u32>
        ensures value { result ≡ option_map shown_sort (entry_at self.now id.0) }
    {
        match self.entry(id) {
            Some(set) => Some(set.shown()),
            None => None,
        }
    }

    /// Whether a term has a sort or a kind. There is no answer exactly where its sorts are not settled.
    pub fn has(&self, sig: &Signature, id: TermId, sort: u32) -> Option<bool>
        requires over { AreOver sig.now.hierarchy self.now }
        requires sort { IsSort sig.now.hierarchy sort }
        ensures value { IfSome result (λ has. (e : _) → entry_at self.now id.0 ≡ Some e → IsTrue has ↔ IsIn sig.now.hierarchy e sort) }
        ensures some { IfSome result (λ has. IsSettled self.now id.0) }
        ensures none { IfNone result (¬ IsSettled self.now id.0) }
    {
        match self.entry(id) {
            Some(set) => Some(set.has(sig.poset(), sort)),
            None => None,
        }
    }

    /// What is kept of the sorts of a term.
    fn entry(&self, id: TermId) -> Option<&SortSet>
        ensures { option_map (λ s. s.now) result ≡ entry_at self.now id.0 }
    {
        match self.entries.get(id.0) {
            Some(entry) => entry.as_ref(),
            None => None,
        }
    }

    /// The sets of some terms.
    fn sets_of(&self, ids: &[TermId]) -> Result<Vec<&SortSet>, NoMemory>
        requires { All (IsSettled self.now) (numbers ids.now) }
        ensures { IfOk result (λ found. sets found.items ≡ sets_at self.now (numbers ids.now)) }
    {
        let mut found = Vec::with_capacity(self.alloc, ids.len())?;
        for id in ids {
            match self.entry(*id) {
                Some(set) => found.push(set)?,
                None => unreachable!(),
            }
        }
        Ok(found)
    }

    /// The set of an operator over arguments.
    fn of_operator(&self, sig: &Signature, op: OpId, args: &[TermId]) -> Result<SortSet, NoMemory>
        requires operator { IsNodeOver sig.now (operator_node op.0 (numbers args.now)) }
        requires args { All (IsSettled self.now) (numbers args.now) }
        requires over { AreOver sig.now.hierarchy self.now }
        ensures exact { IfOk result (λ e. (r : ℕ) → IsIn sig.now.hierarchy e r ↔ NodeHas sig.now self.now (operator_node op.0 (numbers args.now)) r) }
        ensures over { IfOk result (IsOver sig.now.hierarchy) }
        ensures apart { IfOk result (λ e. AreApart sig.now.hierarchy e.minimal) }
    {
        let sets = self.sets_of(args)?;
        if sig.theory(op).assoc {
            let set = of_list(self.alloc, sig, op, &sets)?;
            return Ok(set);
        }
        let set = given(self.alloc, sig, op, &sets)?;
        Ok(set)
    }

    /// The set of a numeral.
    fn of_numeral(&self, sig: &Signature, value: u128) -> Result<SortSet, NoMemory>
        requires { IsNodeOver sig.now (numeral_node value) }
        ensures exact { IfOk result (λ e. (r : ℕ) → IsIn sig.now.hierarchy e r ↔ NodeHas sig.now self.now (numeral_node value) r) }
        ensures over { IfOk result (IsOver sig.now.hierarchy) }
        ensures apart { IfOk result (λ e. AreApart sig.now.hierarchy e.minimal) }
    {
        let set = of_sort(self.alloc, sig.poset(), sort_of_numeral(sig, value))?;
        Ok(set)
    }

    /// The set of a node by the sets of its arguments.
    fn of_node(&self, sig: &Signature, node: NodeView<'_>) -> Result<SortSet, NoMemory>
        requires node { IsNodeOver sig.now (node_of node) }
        requires args { All (IsSettled self.now) (arguments (node_of node)) }
        requires over { AreOver sig.now.hierarchy self.now }
        ensures exact { IfOk result (λ e. (r : ℕ) → IsIn sig.now.hierarchy e r ↔ NodeHas sig.now self.now (node_of node.entry) r) }
        ensures over { IfOk result (IsOver sig.now.hierarchy) }
        ensures apart { IfOk result (λ e. AreApart sig.now.hierarchy e.minimal) }
    {
        match node {
            NodeView::Num(value) => Ok(self.of_numeral(sig, value)?),
            NodeView::Var(variable) => Ok(of_sort(self.alloc, sig.poset(), variable.sort)?),
            NodeView::App(op, args) => Ok(self.of_operator(sig, op, args)?),
        }
    }

    /// The set of a node by the sets of its arguments, with the sorts `more`.
    fn derive(&self, sig: &Signature, node: NodeView<'_>, more: &[u32]) -> Result<SortSet, NoMemory>
        requires node { IsNodeOver sig.now (node_of node) }
        requires args { All (IsSettled self.now) (arguments (node_of node)) }
        requires over { AreOver sig.now.hierarchy self.now }
        requires more { AreSorts sig.now.hierarchy more.now }
        ensures exact { IfOk result (λ e. (r : ℕ) → IsIn sig.now.hierarchy e r ↔ NodeHasWith sig.now self.now (node_of node.entry) more.now r) }
        ensures over { IfOk result (IsOver sig.now.hierarchy) }
        ensures apart { IfOk result (λ e. AreApart sig.now.hierarchy e.minimal) }
        ensures ascending { IfOk result (λ e. IsStrictlyIncreasing e.minimal) }
    {
        let set = self.of_node(sig, node)?;
        let set = set.with(self.alloc, sig.poset(), more)?;
        Ok(set)
    }

    /// Keeps the set of a term, and whether it has further sorts.
    fn enter(
        &mut self,
        store: &Store,
        id: TermId,
        set: SortSet,
        further: bool,
    ) -> Result<(), NoMemory>
        requires there { IsOf store.now id.0 }
        requires unsettled { ¬ IsSettled self.old id.0 }
        ensures ok { OnOk result (entry_at self.new id.0 ≡ Some set) }
        ensures others { OnOk result ((j : ℕ) → j ≢ id.0 → entry_at self.new j ≡ entry_at self.old j) }
        ensures order { OnOk result (self.new.order ≡ self.old.order ++ id.0 ∷ []) }
        ensures further { OnOk result (further ≡ true → Contains self.new.further id.0) }
        ensures kept { OnOk result ((j : ℕ) → Contains self.old.further j → Contains self.new.further j) }
        ensures unchanged { OnErr result (AreSame self.old self.new) }
    {
        make_room(&mut self.entries, store.len())?;
        let count = self.further.len();
        add_if(&mut self.further, id, further)?;
        match self.order.push(id) {
            Ok(()) => {
                self.entries[id.0] = Some(set);
                Ok(())
            }
            Err(error) => {
                self.further.truncate(count);
                Err(error.into())
            }
        }
    }
}

/// Adds a number behind others, if it belongs to them.
fn add_if(ids: &mut Vec<TermId>, id: TermId, belongs: bool) -> Result<(), NoMemory>
    ensures added { OnOk result (belongs ≡ true → Contains (numbers ids.new.items) id.0) }
    ensures kept { OnOk result ((j : ℕ) → Contains (numbers ids.old.items) j → Contains (numbers ids.new.items) j) }
    ensures front { OnOk result (take (length ids.old.items) ids.new.items ≡ ids.old.items) }
    ensures unchanged { OnErr result (ids.new.items ≡ ids.old.items) }
{
    if belongs {
        ids.push(id)?;
    }
    Ok(())
}

/// Makes room for so many entries.
fn make_room(entries: &mut Vec<Option<SortSet>>, count: usize) -> Result<(), NoMemory>
    ensures room { OnOk result (count ≤ length entries.new.items) }
    ensures same { (i : ℕ) → slice_index_or entries.new.items i None ≡ slice_index_or entries.old.items i None }
{
    for _index in entries.len()..count {
        entries.push(None)?;
    }
    Ok(())
}

/// The sort of a numeral.
fn sort_of_numeral(sig: &Signature, value: u128) -> u32
    requires { is_some sig.now.numerals ≡ true }
    ensures value { IsSortOfNumeral sig.now.numerals value result }
    ensures sort { IsSort sig.now.hierarchy result }
{
    match sig.numerals() {
        Some((zero, other)) => { if value == 0 { zero } else { other } }
        None => unreachable!(),
    }
}
