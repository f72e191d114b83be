//! Tests of what settling asks.
ghost use Rattle.std.specs.Prelude.{◌↔◌, All, IsTrue};
ghost use Rattle.mau_signature.specs.Signature.{IsOperator};
ghost use Rattle.mau_store.specs.View.{node_of, numbers};
ghost use Rattle.mau_sorts.specs.Table.{IsSettled, IsNodeOver, IsReady, EachIsOver};

use crate::SortTable;
use crate::settle::arguments_of;
use mau_signature::Signature;
use mau_store::{NodeView, Store};
use mau_terms::{OpId, TermId};

/// Whether an operator is declared.
fn is_operator(sig: &Signature, op: OpId) -> bool
    ensures { IsTrue result ↔ IsOperator sig.now op.0 }
{
    0 < op.0 && op.0 <= sig.operators()
}

/// Whether a term over the signature can have this node.
fn is_node(sig: &Signature, node: NodeView<'_>) -> bool
    ensures { IsTrue result ↔ IsNodeOver sig.now (node_of node.entry) }
{
    match node {
        NodeView::Num(_) => sig.numerals().is_some(),
        NodeView::Var(variable) => variable.sort < sig.poset().sorts() + sig.poset().kinds(),
        NodeView::App(op, args) => {
            if !is_operator(sig, op) {
                return false;
            }
            !sig.theory(op).assoc || args.len() >= 2
        }
    }
}

/// Whether each term of the store is one over the signature, so that `settle_term` can be asked for it. It looks once at each node.
pub fn are_terms(sig: &Signature, store: &Store) -> bool
    ensures { IsTrue result ↔ EachIsOver sig.now store.now }
{
    for i in 0..store.len() {
        if !is_node(sig, store.view(TermId(i))) {
            return false;
        }
    }
    true
}

impl SortTable {
    /// Whether `settle_declared` can be asked for a term that is not settled: it is of the store, a term over the signature
    /// can have its node, and its arguments are settled.
    pub fn is_ready(&self, sig: &Signature, store: &Store, id: TermId) -> bool
        ensures { IsTrue result ↔ IsReady sig.now store.now self.now id.0 }
    {
        if id.0 >= store.len() {
            return false;
        }
        let node = store.view(id);
        is_node(sig, node) && self.are_settled(arguments_of(node))
    }

    /// Whether all of these terms are settled.
    fn are_settled(&self, ids: &[TermId]) -> bool
        ensures { IsTrue result ↔ All (IsSettled self.now) (numbers ids.now) }
    {
        for id in ids {
            if !self.is_settled(*id) {
                return false;
            }
        }
        true
    }
}
