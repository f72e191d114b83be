//! The list of a term under an operator.
ghost use Rattle.std.specs.Prelude.{◌≡◌, ℕ};
ghost use Rattle.mau_terms.specs.declared.theory.Identity.TheVariants.{Const};
ghost use Rattle.mau_terms.specs.Tree.{Tree};
ghost use Rattle.mau_terms.specs.Norm.{is_unit, pieces};
ghost use Rattle.mau_terms.specs.Solution.{list_under};
ghost use Rattle.mau_signature.specs.Signature.{IsOperator, theory_at};
ghost use Rattle.mau_store.specs.Node.{AreOf, IsOf};
ghost use Rattle.mau_store.specs.Trees.{tree_at, tree_over, trees_at};
ghost use Rattle.mau_store.specs.View.{node_of, numbers};
ghost use Rattle.mau_canon.specs.Standing.{StandsWithin, StandWithin};

use mau_signature::Signature;
use mau_store::{NodeView, Store};
use mau_terms::{Identity, OpId, TermId, Theory};
use std::slice;

/// The list of a term under an associative operator: its arguments, if the operator is its top, nothing, if it is the identity
/// of the operator, and else the term alone.
pub fn list_of<'a>(store: &'a Store, sig: &Signature, op: OpId, id: &'a TermId) -> &'a [TermId]
    requires operator { IsOperator sig.now op.0 }
    requires there { IsOf store.now id.now.0 }
    ensures list { trees_at store.now (numbers result.now) ≡ list_under (theory_at sig.now op.0) op.0 (tree_at store.now id.entry.now.0) }
    ensures there { AreOf store.now (numbers result.now) }
    ensures within { StandsWithin (theory_at sig.now) store.now id.entry.now.0 → StandWithin (theory_at sig.now) store.now (numbers result.now) }
{
    pieces(store, sig.theory(op), op, id)
}

/// The same, where the axioms of the operator are known.
pub(crate) fn pieces<'a>(
    store: &'a Store,
    theory: &Theory,
    op: OpId,
    id: &'a TermId,
) -> &'a [TermId]
    requires { IsOf store.now id.now.0 }
    ensures list { trees_at store.now (numbers result.now) ≡ list_under theory.now op.0 (tree_at store.now id.entry.now.0) }
    ensures there { AreOf store.now (numbers result.now) }
{
    let node = store.view(*id);
    if is_identity(theory, node) {
        return &[];
    }
    match node {
        NodeView::App(top, args) => {
            if theory.assoc && top == op {
                args
            } else {
                slice::from_ref(id)
            }
        }
        _ => slice::from_ref(id),
    }
}

/// Whether a node is the identity of an operator with these axioms.
fn is_identity(theory: &Theory, node: NodeView<'_>) -> bool
    ensures { (g : ℕ → Tree) → result ≡ is_unit theory.now.id (tree_over g (node_of node.entry)) }
{
    match theory.id {
        Some(Identity::Const(constant)) => is_constant(node, constant),
        Some(Identity::Num(value)) => node == NodeView::Num(value),
        None => false,
    }
}

/// Whether a node is a constant.
fn is_constant(node: NodeView<'_>, constant: OpId) -> bool
    ensures { (g : ℕ → Tree) → result ≡ is_unit (Some (Const constant)) (tree_over g (node_of node.entry)) }
{
    match node {
        NodeView::App(op, args) => args.is_empty() && op == constant,
        _ => false,
    }
}
