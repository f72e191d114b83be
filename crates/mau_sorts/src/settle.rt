//! Settling a term with all that is below it.
ghost use Rattle.std.specs.Prelude.{◌≡◌, ◌↔◌, [], IsTrue, OnOk};
ghost use Rattle.mau_store.specs.Node.{IsOf, arguments};
ghost use Rattle.mau_store.specs.Trees.{tree_at};
ghost use Rattle.mau_store.specs.View.{node_of, numbers};
ghost use Rattle.mau_sorts.specs.Table.{IsSettled, AreEntries, AreOver, KeepsEntries};
ghost use Rattle.mau_signature.specs.OverSignature.{IsTreeOver};

use crate::SortTable;
use mau_signature::Signature;
use mau_store::{NodeView, Store};
use mau_terms::{NoMemory, TermId};

/// The arguments of a node.
pub(crate) fn arguments_of<'a>(node: NodeView<'a>) -> &'a [TermId]
    ensures { numbers result.now ≡ arguments (node_of node.entry) }
{
    match node {
        NodeView::App(_, args) => args,
        NodeView::Num(_) | NodeView::Var(_) => &[],
    }
}

impl SortTable {
    /// Enters the minimal sorts by declarations of a term and of all that is below it, as far as they are not settled.
    ///
    /// Some of them may be entered where memory is wanting.
    pub fn settle_term(
        &mut self,
        sig: &Signature,
        store: &Store,
        id: TermId,
    ) -> Result<(), NoMemory>
        requires there { IsOf store.now id.0 }
        requires tree { IsTreeOver sig.now (tree_at store.now id.0) }
        requires over { AreOver sig.now.hierarchy self.old }
        ensures ok { OnOk result (IsSettled self.new id.0) }
        ensures value { AreEntries sig.now [] store.now self.old → AreEntries sig.now [] store.now self.new }
        ensures over { AreOver sig.now.hierarchy self.new }
        ensures kept { KeepsEntries self.old self.new }
    {
        if self.is_settled(id) {
            return Ok(());
        }
        for arg in arguments_of(store.view(id)) {
            self.settle_term(sig, store, *arg)?;
        }
        // Nothing says yet that the arguments did not settle the term itself.
        if self.is_settled(id) {
            return Ok(());
        }
        self.settle_declared(sig, store, id, &[])?;
        Ok(())
    }

    /// Whether the sorts of a term are settled.
    pub fn is_settled(&self, id: TermId) -> bool
        ensures { IsTrue result ↔ IsSettled self.now id.0 }
    {
        self.sort_of(id).is_some()
    }
}
