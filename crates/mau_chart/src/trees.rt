//! Trees in a store, each once.
ghost use Rattle.std.specs.Prelude.{◌≡◌, ◌↔◌, ◌<◌, [], length, IfOk, OnOk, OnErr, IsTrue};
ghost use Rattle.mau_chart.specs.Nodes.{tree_at, node_tree, NamesBelow, Extends};

use mau_store::{NodeView, Store};
use mau_terms::{NoMemory, TermId};
use std::alloc::Global;
use std::marker::Model;

/// Trees, seen as their list. The number of a tree is its place in this list, and equal trees have one number.
#[derive(Drop)]
pub struct Trees {
    store: Store,
}

impl Model for Trees {
    ghost use Rattle.std.specs.Prelude.{List};
    ghost use Rattle.std.specs.Coded.{coded_list};
    ghost use Rattle.mau_terms.specs.Tree.{Tree};
    ghost use Rattle.mau_terms.specs.Code.{tree_code};

    ghost Value = { List Tree };

    ghost coded = { coded_list tree_code };

    ghost use Rattle.mau_store.specs.Node.{AreNodes};
    ghost use Rattle.mau_store.specs.Trees.{trees};

    ghost view = { λ s. trees s.store };

    ghost invariant = { λ s. AreNodes s.store };
}

impl Trees {
    /// No trees. What is stored later is allocated by `alloc`.
    pub fn new(alloc: Global) -> Trees
        ensures { result ≡ [] }
    {
        Trees {
            store: Store::new(alloc),
        }
    }

    /// The number of the tree of a node, whose arguments are trees of this store. Out of memory, the trees stay as they were.
    pub fn add(&mut self, node: NodeView<'_>) -> Result<TermId, NoMemory>
        requires { NamesBelow (length self.old) node }
        ensures extends { OnOk result (Extends self.old self.new) }
        ensures below { IfOk result (λ id. id.0 < length self.new) }
        ensures tree { IfOk result (λ id. tree_at self.new id.0 ≡ node_tree self.old node.entry) }
        ensures unchanged { OnErr result (self.new ≡ self.old) }
    {
        let id = self.store.intern(node)?;
        Ok(id)
    }

    /// The node of a tree.
    pub fn view(&self, id: TermId) -> NodeView<'_>
        requires { id.0 < length self.now }
        ensures tree { tree_at self.now id.0 ≡ node_tree self.now result }
        ensures older { NamesBelow id.0 result }
    {
        self.store.view(id)
    }

    /// Whether the two are one tree.
    pub fn same(&self, a: TermId, b: TermId) -> bool
        requires first { a.0 < length self.now }
        requires second { b.0 < length self.now }
        ensures { IsTrue result ↔ tree_at self.now a.0 ≡ tree_at self.now b.0 }
    {
        let _ = &self.store;
        a == b
    }
}
