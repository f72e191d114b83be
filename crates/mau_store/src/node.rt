//! One node of a shared term.
ghost use Rattle.std.specs.Prelude.{◌≡◌, ◌==◌, not, find, IfOk};
ghost use Rattle.std.specs.List.{zip};
ghost use Rattle.std.specs.Option.{option_map};

use indexmap::Equivalent;
use mau_terms::{NoMemory, OpId, TermId, VarId};
use std::alloc::Global;

/// A node as it is read: a numeral, a variable, or an operator over the numbers of its arguments.
#[derive(Clone, Copy, Debug, PartialEq, Eq, Hash)]
pub enum NodeView<'a> {
    Num(u128),
    Var(VarId),
    App(OpId, &'a [TermId]),
}

/// A node as it is stored.
#[derive(Debug, Drop, PartialEq, Eq, Hash)]
pub(crate) enum StoredNode {
    Num(u128),
    Var(VarId),
    App(OpId, Vec<TermId>),
}

impl StoredNode {
    ghost use Rattle.mau_store.specs.View.{node_of, stored_node};

    /// The node with arguments of its own.
    pub(crate) fn new(alloc: Global, node: NodeView<'_>) -> Result<StoredNode, NoMemory>
        ensures { IfOk result (λ stored. stored_node stored ≡ node_of node.entry) }
    {
        match node {
            NodeView::Num(n) => Ok(StoredNode::Num(n)),
            NodeView::Var(v) => Ok(StoredNode::Var(v)),
            NodeView::App(op, args) => Ok(StoredNode::App(op, Vec::from_slice(alloc, args)?)),
        }
    }

    /// The node as it is read.
    pub(crate) fn view(&self) -> NodeView<'_>
        ensures { node_of result ≡ stored_node self.now }
    {
        match self {
            StoredNode::Num(n) => NodeView::Num(*n),
            StoredNode::Var(v) => NodeView::Var(*v),
            StoredNode::App(op, args) => NodeView::App(*op, args),
        }
    }
}

/// A stored node is looked up by a node as it is read.
impl<'a> Equivalent<StoredNode> for NodeView<'a> {
    ghost use Rattle.mau_store.specs.View.{same_as_stored};
    ghost use Rattle.mau_store.specs.Looked.{hashed_alike, equal_alike};

    ghost equivalent = { same_as_stored };

    ghost respects_hash = { hashed_alike };

    ghost respects_eq = { equal_alike };

    fn equivalent(&self, key: &StoredNode) -> bool {
        match (self, key) {
            (NodeView::Num(m), StoredNode::Num(n)) => m == n,
            (NodeView::Var(v), StoredNode::Var(w)) => v == w,
            (NodeView::App(f, ts), StoredNode::App(g, us)) => f == g && *ts == us.as_slice(),
            _ => false,
        }
    }
}

/// The first two numbers at one place of both lists that are different.
pub(crate) fn first_difference<'a>(
    first: &'a [TermId],
    second: &'a [TermId],
) -> Option<(&'a TermId, &'a TermId)>
    ensures { option_map (λ p. (p.0.now, p.1.now)) result ≡ find (λ p. not (p.0.0 == p.1.0)) (zip first.now second.now) }
{
    first.iter().zip(second).find(|(t, u)| t != u)
}
