//! The terms of a store with their holes named.
ghost use Rattle.std.specs.Prelude.{◌≡◌, ◌<◌, ℕ, List, length, IfOk};
ghost use Rattle.mau_terms.specs.Tree.{Tree};
ghost use Rattle.mau_store.specs.Node.{Node, AreBelow, Extends, arguments};
ghost use Rattle.mau_store.specs.Trees.{tree_at, tree_over};
ghost use Rattle.mau_store.specs.View.{node_of, numbers as numbers_of};
ghost use Rattle.mau_docheck.specs.Naming.{IsNamed, AreNamed};

use crate::holes::named_variable;
use mau_check::renumbered;
use mau_store::{NodeView, Store};
use mau_terms::{NoMemory, TermId, Vars};

/// Adds a node of another store with its holes named, where `numbers` are those of that store's older nodes.
fn add_named(
    store: &mut Store,
    vars: &Vars,
    numbers: &[TermId],
    node: NodeView<'_>,
) -> Result<TermId, NoMemory>
    requires few { length vars.now < 4294967296 }
    requires older { AreBelow (length numbers.now) (arguments (node_of node)) }
    requires numbers { (old : List Node) × AreNamed vars.now old store.old numbers.now }
    ensures named { (old : List Node) → AreNamed vars.now old store.old numbers.now
        → IfOk result (λ id. IsNamed vars.now store.new id (tree_over (tree_at old) (node_of node.entry))) }
    ensures extends { Extends store.old store.new }
{
    match node {
        NodeView::Num(value) => store.intern(NodeView::Num(value)),
        NodeView::Var(v) => store.intern(NodeView::Var(named_variable(vars, v))),
        NodeView::App(op, args) => {
            let args = match renumbered(store.allocator(), numbers, args) {
                Ok(args) => args,
                Err(fault) => return Err(fault),
            };
            store.intern(NodeView::App(op, &args))
        }
    }
}

/// All terms of a store with their holes named, and their numbers.
pub fn name_holes(store: &Store, vars: &Vars) -> Result<(Store, Vec<TermId>), NoMemory>
    requires few { length vars.now < 4294967296 }
    ensures named { IfOk result (λ r. AreNamed vars.now store.now r.0 r.1.items) }
    ensures all { IfOk result (λ r. length r.1.items ≡ length store.now) }
{
    let alloc = store.allocator();
    let mut named = Store::new(alloc);
    let mut numbers = Vec::new(alloc);
    for i in 0..store.len() {
        let id = add_named(&mut named, vars, &numbers, store.view(TermId(i)))?;
        numbers.push(id)?;
    }
    Ok((named, numbers))
}
