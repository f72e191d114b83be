//! The store of shared nodes.
ghost use Rattle.std.specs.Prelude.{◌≡◌, ◌↔◌, ◌⊎◌, ◌++◌, ◌∷◌, [], ℕ, length, slice_get, Some, IfOk, OnOk, OnErr, IsTrue, ◌<◌, ◌≢◌, ◌^◌};
ghost use Rattle.std.specs.ControlFlow.{MatchControlFlow};
ghost use Rattle.mau_terms.specs.Order.{tree_cmp};
ghost use Rattle.mau_store.specs.Node.{AreNodes, Extends, IsOf, AreOf, AreBelow, arguments};
ghost use Rattle.mau_terms.specs.Depth.{depth, list_depth};
ghost use Rattle.mau_store.specs.View.{node_of, numbers};
ghost use Rattle.mau_store.specs.Trees.{tree_over, tree_at, trees_at};

use crate::node::{NodeView, StoredNode, first_difference};
use indexmap::IndexSet;
use mau_terms::{NoMemory, TermId};
use std::alloc::Global;
use std::cmp::Ordering;
use std::marker::Model;
use std::ops::ControlFlow;

/// Shared nodes, seen as their list. The number of a node is its place in this list, counted from 0. Nodes are never taken out.
#[derive(Drop)]
pub struct Store {
    alloc: Global,
    nodes: IndexSet<StoredNode>,
    depths: Vec<usize>,
}

impl Model for Store {
    ghost use Rattle.std.specs.Prelude.{List, map};
    ghost use Rattle.mau_store.specs.Node.{Node};

    ghost Value = { List Node };

    ghost use Rattle.mau_store.specs.Trees.{AreKept};
    ghost use Rattle.mau_store.specs.View.{stored_node};

    ghost view = { λ s. map stored_node s.nodes.keys };

    ghost invariant = { λ s. AreKept (map stored_node s.nodes.keys) s.depths.items };
}

impl Store {
    /// No nodes. What is stored later is allocated by `alloc`.
    pub fn new(alloc: Global) -> Store
        ensures { result ≡ [] }
    {
        Store {
            alloc,
            nodes: IndexSet::new(alloc),
            depths: Vec::new(alloc),
        }
    }

    /// What the store allocates by.
    pub fn allocator(&self) -> Global {
        self.alloc
    }

    /// The number of nodes.
    pub fn len(&self) -> usize
        ensures counted { result ≡ length self.now }
        ensures nodes { AreNodes self.now }
    {
        self.nodes.len()
    }

    /// Whether there are no nodes.
    pub fn is_empty(&self) -> bool
        ensures { IsTrue result ↔ (length self.now ≡ 0) }
    {
        self.nodes.is_empty()
    }

    /// The number of a node, whose arguments are of this store. A node that is there keeps its number; another goes last. Out
    /// of memory, the store stays as it was.
    pub fn intern(&mut self, node: NodeView<'_>) -> Result<TermId, NoMemory>
        requires { AreOf self.old (arguments (node_of node)) }
        ensures ok { IfOk result (λ id. slice_get self.new id.0 ≡ Some (node_of node.entry)) }
        ensures there { (k : ℕ) → slice_get self.old k ≡ Some (node_of node.entry) → IfOk result (λ id. id.0 ≡ k) }
        ensures tree { IfOk result (λ id. tree_at self.new id.0 ≡ tree_over (tree_at self.old) (node_of node.entry)) }
        ensures added { OnOk result ((self.new ≡ self.old) ⊎ (self.new ≡ self.old ++ node_of node.entry ∷ [])) }
        ensures extends { Extends self.old self.new }
        ensures unchanged { OnErr result (self.new ≡ self.old) }
        ensures nodes { AreNodes self.new }
    {
        match self.nodes.get_full(node) {
            Some((index, _)) => Ok(TermId(index)),
            None => self.add(node),
        }
    }

    /// The same, where the node is not looked up before its arguments are copied.
    fn add(&mut self, node: NodeView<'_>) -> Result<TermId, NoMemory>
        requires { AreOf self.old (arguments (node_of node)) }
        ensures ok { IfOk result (λ id. slice_get self.new id.0 ≡ Some (node_of node.entry)) }
        ensures there { (k : ℕ) → slice_get self.old k ≡ Some (node_of node.entry) → IfOk result (λ id. id.0 ≡ k) }
        ensures tree { IfOk result (λ id. tree_at self.new id.0 ≡ tree_over (tree_at self.old) (node_of node.entry)) }
        ensures added { OnOk result ((self.new ≡ self.old) ⊎ (self.new ≡ self.old ++ node_of node.entry ∷ [])) }
        ensures extends { Extends self.old self.new }
        ensures unchanged { OnErr result (self.new ≡ self.old) }
        ensures nodes { AreNodes self.new }
    {
        let depth = self.depth_over(node);
        let node = StoredNode::new(self.alloc, node)?;
        self.depths.push(depth)?;
        let inserted = self.nodes.insert_full(node);
        // The depth of a node that is not added is not kept.
        self.depths.truncate(self.nodes.len());
        let (index, _) = inserted?;
        Ok(TermId(index))
    }

    /// How deep a term is, in constant time: a numeral, a variable and a constant have the depth 1.
    pub fn depth(&self, id: TermId) -> usize
        requires { IsOf self.now id.0 }
        ensures value { result ≡ depth (tree_at self.now id.0) }
    {
        self.depths[id.0]
    }

    /// How deep a node is over its arguments, which are of this store.
    fn depth_over(&self, node: NodeView<'_>) -> usize
        requires { AreOf self.now (arguments (node_of node)) }
        ensures value { result ≡ depth (tree_over (tree_at self.now) (node_of node.entry)) }
    {
        match node {
            NodeView::Num(_) | NodeView::Var(_) => 1,
            NodeView::App(_, args) => self.deepest(args) + 1,
        }
    }

    /// The depth of the deepest of these terms, or 0 where there is none.
    fn deepest(&self, ids: &[TermId]) -> usize
        requires { AreOf self.now (numbers ids.now) }
        ensures value { result ≡ list_depth (trees_at self.now (numbers ids.now)) }
        ensures bounded { result < 2 ^ 63 }
    {
        let mut deepest: usize = 0;
        for id in ids {
            deepest = deepest.max(self.depths[id.0]);
        }
        deepest
    }

    /// The node with a number of this store, its arguments lent.
    pub fn view(&self, id: TermId) -> NodeView<'_>
        requires { IsOf self.now id.0 }
        ensures node { slice_get self.now id.0 ≡ Some (node_of result) }
        ensures older { AreBelow id.0 (arguments (node_of result)) }
        ensures tree { tree_at self.now id.0 ≡ tree_over (tree_at self.now) (node_of result) }
        ensures nodes { AreNodes self.now }
    {
        self.nodes.get_index(id.0).unwrap().view()
    }

    /// The order of two terms. Equal numbers are one term, and of two lists of arguments the first two numbers that are different
    /// decide: so the call follows one path down from each term, and walks through no shared part twice. A number that is not of
    /// this store counts as the numeral 0, so that any two numbers can be compared, as a sort asks.
    pub fn compare(&self, a: TermId, b: TermId) -> Ordering
        ensures order { result ≡ tree_cmp (tree_at self.now a.0) (tree_at self.now b.0) }
        ensures equal { IsOf self.now a.0 → IsOf self.now b.0 → (result ≡ Ordering.Equal) ↔ (a.0 ≡ b.0) }
    {
        let (mut left, mut right) = (a, b);
        while left != right {
            match self.decide(left, right) {
                ControlFlow::Break(order) => return order,
                ControlFlow::Continue((first, second)) => {
                    left = first;
                    right = second;
                }
            }
        }
        Ordering::Equal
    }

    /// The order of two terms, where their nodes tell it, and else two different arguments that are in the same order.
    fn decide(&self, a: TermId, b: TermId) -> ControlFlow<Ordering, (TermId, TermId)>
        ensures order { MatchControlFlow result
            (λ p. tree_cmp (tree_at self.now a.0) (tree_at self.now b.0) ≡ tree_cmp (tree_at self.now p.0.0) (tree_at self.now p.1.0))
            (λ order. tree_cmp (tree_at self.now a.0) (tree_at self.now b.0) ≡ order) }
        ensures arguments { MatchControlFlow result (λ p. (p.0.0 < a.0) × (p.1.0 < b.0) × (p.0.0 ≢ p.1.0)) (λ _. Unit {0}) }
        ensures nodes { AreNodes self.now }
    {
        match (self.node_or_zero(a), self.node_or_zero(b)) {
            (NodeView::Num(m), NodeView::Num(n)) => ControlFlow::Break(m.cmp(&n)),
            (NodeView::Num(_), _) => ControlFlow::Break(Ordering::Less),
            (_, NodeView::Num(_)) => ControlFlow::Break(Ordering::Greater),
            (NodeView::Var(v), NodeView::Var(w)) => ControlFlow::Break(v.cmp(&w)),
            (NodeView::Var(_), NodeView::App(_, _)) => ControlFlow::Break(Ordering::Less),
            (NodeView::App(_, _), NodeView::Var(_)) => ControlFlow::Break(Ordering::Greater),
            (NodeView::App(f, ts), NodeView::App(g, us)) => {
                if f != g {
                    return ControlFlow::Break(f.cmp(&g));
                }
                match first_difference(ts, us) {
                    Some((t, u)) => ControlFlow::Continue((*t, *u)),
                    None => ControlFlow::Break(ts.len().cmp(&us.len())),
                }
            }
        }
    }

    /// The node with a number, and the numeral 0 for a number that is not of this store.
    fn node_or_zero(&self, id: TermId) -> NodeView<'_>
        ensures older { AreBelow id.0 (arguments (node_of result)) }
        ensures within { AreOf self.now (arguments (node_of result)) }
        ensures tree { tree_at self.now id.0 ≡ tree_over (tree_at self.now) (node_of result) }
        ensures nodes { AreNodes self.now }
    {
        match self.nodes.get_index(id.0) {
            Some(node) => node.view(),
            None => NodeView::Num(0),
        }
    }
}
