//! The chart of a text: what reads as what, from where to where.
ghost use Rattle.std.specs.Prelude.{◌≡◌, ◌↔◌, ◌∷◌, ◌++◌, [], ◌<◌, ◌≤◌, Some, IfOk, IfSome, OnOk, IsTrue, length};
ghost use Rattle.std.specs.List.{slice_get};
ghost use Rattle.mau_chart.specs.Nodes.{AllBelow, NamesBelow, tree_at, trees_at, node_tree};
ghost use Rattle.mau_chart.specs.Chart.{edge, Full, Covers, Offered, Joined, Lifted, IsSame};
ghost use Rattle.mau_chart.specs.Reads.{made, said_trees};
ghost use Rattle.mau_chart.specs.Table.{table, cells, IsChart, IsThere, HasOther, Put};

use crate::grammar::{Item, Said};
use crate::trees::Trees;
use mau_store::NodeView;
use mau_terms::{NoMemory, OpId, TermId};
use std::alloc::Global;

/// What was found: an item, where it ends, and its trees. It is a second one where another of other trees
/// has the same item and end.
#[derive(Drop)]
pub struct Fact {
    pub item: Item,
    pub end: usize,
    pub second: bool,
    pub trees: Vec<TermId>,
}

/// What was found from one start on.
#[derive(Drop)]
pub struct Row {
    pub facts: Vec<Fact>,
}

#[derive(Drop)]
pub struct Chart {
    pub store: Trees,
    pub rows: Vec<Row>,
    /// For the number of an item and an end, where in the row it was last found: a hint, which is tried before it is used.
    pub hints: Vec<usize>,
    pub width: usize,
}

impl Chart {
    /// Whether the two lists have the same trees.
    pub fn same(&self, ts: &[TermId], us: &[TermId]) -> bool
        requires first { AllBelow (length self.now.store) ts.now }
        requires second { AllBelow (length self.now.store) us.now }
        ensures { IsTrue result ↔ trees_at self.now.store ts.now ≡ trees_at self.now.store us.now }
    {
        if ts.len() != us.len() {
            return false;
        }
        for i in 0..ts.len() {
            if !self.store.same(ts[i], us[i]) {
                return false;
            }
        }
        true
    }

    /// How many facts begin at i.
    pub fn count(&self, i: usize) -> usize
        ensures { result ≡ length (cells self.now.rows.items i) }
    {
        if i < self.rows.len() {
            self.rows[i].facts.len()
        } else {
            0
        }
    }

    pub fn fact(&self, i: usize, k: usize) -> &Fact
        requires { k < length (cells self.now.rows.items i) }
        ensures { slice_get (cells self.now.rows.items i) k ≡ Some result.now }
    {
        &self.rows[i].facts[k]
    }

    /// Such a fact, where the hint for it is right.
    fn hinted(&self, slot: usize, i: usize, item: Item, end: usize) -> Option<&Fact>
        ensures { IfSome result (λ f. IsThere (cells self.now.rows.items i) f.now item end) }
    {
        let at = slot.wrapping_mul(self.width).wrapping_add(end);
        if at >= self.hints.len() {
            return None;
        }
        let k = self.hints[at];
        if k >= self.count(i) {
            return None;
        }
        let fact = self.fact(i, k);
        if fact.item == item && fact.end == end {
            Some(fact)
        } else {
            None
        }
    }

    /// Whether two different facts are known there.
    pub fn is_full(&self, slot: usize, i: usize, item: Item, end: usize) -> bool
        requires { IsChart self.now }
        ensures { IsTrue result → Full (table self.now) i item end }
    {
        match self.hinted(slot, i, item, end) {
            None => false,
            Some(fact) => fact.second,
        }
    }

    fn is_news(&self, slot: usize, i: usize, item: Item, end: usize, trees: &[TermId]) -> News
        requires chart { IsChart self.now }
        requires below { AllBelow (length self.now.store) trees.now }
        ensures old { result ≡ News.Old → Covers (table self.now) i item end (trees_at self.now.store trees.now) }
        ensures second { result ≡ News.Second → HasOther (table self.now) i item end (trees_at self.now.store trees.now) }
    {
        match self.hinted(slot, i, item, end) {
            None => News::First,
            Some(fact) => {
                if fact.second {
                    return News::Old;
                }
                if self.same(&fact.trees, trees) {
                    News::Old
                } else {
                    News::Second
                }
            }
        }
    }

    /// Puts a fact at the end of the row.
    fn put(&mut self, slot: usize, i: usize, fact: Fact) -> Result<(), NoMemory>
        requires { i < length self.old.rows.items }
        ensures store { OnOk result (self.new.store ≡ self.old.store) }
        ensures put { OnOk result (Put self.old.rows.items self.new.rows.items i fact) }
    {
        let at = slot.wrapping_mul(self.width).wrapping_add(fact.end);
        let place = self.rows[i].facts.len();
        self.rows[i].facts.push(fact)?;
        if at < self.hints.len() {
            self.hints[at] = place;
        }
        Ok(())
    }

    /// Puts a fact into the row, where it is not covered already.
    fn offer(
        &mut self,
        slot: usize,
        i: usize,
        item: Item,
        end: usize,
        trees: Vec<TermId>,
    ) -> Result<(), NoMemory>
        requires chart { IsChart self.old }
        requires row { i < length self.old.rows.items }
        requires below { AllBelow (length self.old.store) trees.items }
        ensures chart { OnOk result (IsChart self.new) }
        ensures store { OnOk result (self.new.store ≡ self.old.store) }
        ensures rows { OnOk result (length self.new.rows.items ≡ length self.old.rows.items) }
        ensures offered { OnOk result (Offered (table self.old) (table self.new) i (edge item end (trees_at self.old.store trees.items))) }
    {
        match self.is_news(slot, i, item, end, &trees) {
            News::Old => Ok(()),
            News::First => {
                self.put(
                    slot,
                    i,
                    Fact {
                        item,
                        end,
                        second: false,
                        trees,
                    },
                )?;
                Ok(())
            }
            News::Second => {
                self.put(
                    slot,
                    i,
                    Fact {
                        item,
                        end,
                        second: true,
                        trees,
                    },
                )?;
                Ok(())
            }
        }
    }

    /// Puts the second of two facts behind the first.
    pub fn join(
        &mut self,
        alloc: Global,
        slot: usize,
        i: usize,
        k: usize,
        m: usize,
        x: usize,
        item: Item,
    ) -> Result<(), NoMemory>
        requires chart { IsChart self.old }
        requires row { i < length self.old.rows.items }
        requires first { k < length (cells self.old.rows.items i) }
        requires second { x < length (cells self.old.rows.items m) }
        ensures chart { OnOk result (IsChart self.new) }
        ensures rows { OnOk result (length self.new.rows.items ≡ length self.old.rows.items) }
        ensures offered { OnOk result (Joined (table self.old) (table self.new) i k m x item) }
    {
        let end = self.fact(m, x).end;
        if self.is_full(slot, i, item, end) {
            return Ok(());
        }
        let mut trees = Vec::from_slice(alloc, &self.fact(i, k).trees)?;
        trees.extend_from_slice(&self.fact(m, x).trees)?;
        self.offer(slot, i, item, end, trees)?;
        Ok(())
    }

    fn node(&mut self, node: NodeView<'_>) -> Result<TermId, NoMemory>
        requires chart { IsChart self.old }
        requires below { NamesBelow (length self.old.store) node }
        ensures chart { OnOk result (IsChart self.new) }
        ensures rows { OnOk result (self.new.rows ≡ self.old.rows) }
        ensures same { OnOk result (IsSame (table self.old) (table self.new)) }
        ensures below { IfOk result (λ id. id.0 < length self.new.store) }
        ensures node { IfOk result (λ id. tree_at self.new.store id.0 ≡ node_tree self.old.store node.entry) }
    {
        let id = self.store.add(node)?;
        Ok(id)
    }

    /// The list of the operator over the trees, or of the trees.
    fn make(
        &mut self,
        alloc: Global,
        op: Option<OpId>,
        trees: Vec<TermId>,
    ) -> Result<Vec<TermId>, NoMemory>
        requires chart { IsChart self.old }
        requires below { AllBelow (length self.old.store) trees.items }
        ensures chart { OnOk result (IsChart self.new) }
        ensures rows { OnOk result (self.new.rows ≡ self.old.rows) }
        ensures same { OnOk result (IsSame (table self.old) (table self.new)) }
        ensures below { IfOk result (λ ts. AllBelow (length self.new.store) ts.items) }
        ensures made { IfOk result (λ ts. trees_at self.new.store ts.items ≡ made op (trees_at self.old.store trees.items)) }
    {
        match op {
            None => Ok(trees),
            Some(op) => {
                let id = self.node(NodeView::App(op, &trees))?;
                let one = Vec::from_slice(alloc, &[id])?;
                Ok(one)
            }
        }
    }

    fn speak(&mut self, alloc: Global, said: Said) -> Result<Vec<TermId>, NoMemory>
        requires { IsChart self.old }
        ensures chart { OnOk result (IsChart self.new) }
        ensures rows { OnOk result (self.new.rows ≡ self.old.rows) }
        ensures same { OnOk result (IsSame (table self.old) (table self.new)) }
        ensures below { IfOk result (λ ts. AllBelow (length self.new.store) ts.items) }
        ensures made { IfOk result (λ ts. trees_at self.new.store ts.items ≡ said_trees said) }
    {
        match said {
            Said::Word => Ok(Vec::new(alloc)),
            Said::Var(v) => {
                let id = self.node(NodeView::Var(v))?;
                let one = Vec::from_slice(alloc, &[id])?;
                Ok(one)
            }
            Said::Num(n) => {
                let id = self.node(NodeView::Num(n))?;
                let one = Vec::from_slice(alloc, &[id])?;
                Ok(one)
            }
        }
    }

    /// Puts what a fact makes by the operator.
    pub fn lift(
        &mut self,
        alloc: Global,
        slot: usize,
        i: usize,
        k: usize,
        item: Item,
        op: Option<OpId>,
    ) -> Result<(), NoMemory>
        requires chart { IsChart self.old }
        requires row { i < length self.old.rows.items }
        requires first { k < length (cells self.old.rows.items i) }
        ensures chart { OnOk result (IsChart self.new) }
        ensures rows { OnOk result (length self.new.rows.items ≡ length self.old.rows.items) }
        ensures offered { OnOk result (Lifted (table self.old) (table self.new) i k item op) }
    {
        let end = self.fact(i, k).end;
        if self.is_full(slot, i, item, end) {
            return Ok(());
        }
        let trees = Vec::from_slice(alloc, &self.fact(i, k).trees)?;
        let whole = self.make(alloc, op, trees)?;
        self.offer(slot, i, item, end, whole)?;
        Ok(())
    }

    /// Puts what is said.
    pub fn say(
        &mut self,
        alloc: Global,
        slot: usize,
        i: usize,
        item: Item,
        end: usize,
        said: Said,
    ) -> Result<(), NoMemory>
        requires chart { IsChart self.old }
        requires row { i < length self.old.rows.items }
        ensures chart { OnOk result (IsChart self.new) }
        ensures rows { OnOk result (length self.new.rows.items ≡ length self.old.rows.items) }
        ensures offered { OnOk result (Offered (table self.old) (table self.new) i (edge item end (said_trees said))) }
    {
        let trees = self.speak(alloc, said)?;
        self.offer(slot, i, item, end, trees)?;
        Ok(())
    }
}

/// Whether a fact is new: there already, the first with its item and end, or one with other trees.
pub enum News {
    Old,
    First,
    Second,
}
