//! The terms of a store in another one.
ghost use Rattle.std.specs.Prelude.{◌≡◌, ◌<◌, ℕ, List, length, map, slice_index, IfOk};
ghost use Rattle.mau_terms.specs.Tree.{Tree};
ghost use Rattle.mau_store.specs.Node.{Node, AreBelow, Extends, IsOf, arguments};
ghost use Rattle.mau_store.specs.Trees.{tree_at, tree_over};
ghost use Rattle.mau_store.specs.View.{node_of, numbers};
ghost use Rattle.mau_prove.specs.Copies.{AreCopies};

use mau_check::renumbered;
use mau_store::{NodeView, Store};
use mau_terms::{NoMemory, TermId};

/// Adds a node of another store, where `ids` are the numbers of that store's older nodes.
fn add_copy(store: &mut Store, ids: &[TermId], node: NodeView<'_>) -> Result<TermId, NoMemory>
    requires older { AreBelow (length ids.now) (arguments (node_of node)) }
    requires copies { (old : List Node) × AreCopies old store.old ids.now }
    ensures there { IfOk result (λ id. IsOf store.new id.0) }
    ensures tree { (old : List Node) → AreCopies old store.old ids.now → IfOk result (λ id. tree_at store.new id.0 ≡ tree_over (tree_at old) (node_of node.entry)) }
    ensures extends { Extends store.old store.new }
{
    match node {
        NodeView::Num(value) => store.intern(NodeView::Num(value)),
        NodeView::Var(variable) => store.intern(NodeView::Var(variable)),
        NodeView::App(op, args) => {
            let args = match renumbered(store.allocator(), ids, args) {
                Ok(args) => args,
                Err(fault) => return Err(fault),
            };
            store.intern(NodeView::App(op, &args))
        }
    }
}

/// Adds all terms of a store to another one. Gives their numbers there.
pub fn copy_terms(store: &mut Store, other: &Store) -> Result<Vec<TermId>, NoMemory>
    ensures copies { IfOk result (λ ids. AreCopies other.now store.new ids.items) }
    ensures all { IfOk result (λ ids. length ids.items ≡ length other.now) }
    ensures extends { Extends store.old store.new }
{
    let mut ids = Vec::new(store.allocator());
    let _ = store.len();
    for i in 0..other.len() {
        let id = add_copy(store, &ids, other.view(TermId(i)))?;
        ids.push(id)?;
    }
    Ok(ids)
}
