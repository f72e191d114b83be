//! Normal forms of an operator over a list of terms.
ghost use Rattle.std.specs.Prelude.{◌≡◌, IfOk, OnOk};
ghost use Rattle.mau_terms.specs.Tree.{trees_of};
ghost use Rattle.mau_terms.specs.Norm.{unit_tree, all_pieces, finish, over_one, is_greatest_numeral};
ghost use Rattle.mau_terms.specs.Order.{sort_trees};
ghost use Rattle.mau_terms.specs.Solution.{over_list};
ghost use Rattle.mau_store.specs.Node.{AreOf, Extends, IsOf};
ghost use Rattle.mau_store.specs.Trees.{tree_at, trees_at};
ghost use Rattle.mau_store.specs.View.{numbers};
ghost use Rattle.mau_canon.specs.Standing.{IsNumberOf};
ghost use Rattle.mau_canon.specs.Judging.{is_overflow};

use crate::list::pieces;
use mau_store::{NodeView, Store};
use mau_terms::{Identity, NoMemory, OpId, TermId, Theory};

/// The lists of some terms under an operator, joined.
pub(crate) fn joined(
    store: &Store,
    theory: &Theory,
    op: OpId,
    args: &[TermId],
) -> Result<Vec<TermId>, NoMemory>
    requires { AreOf store.now (numbers args.now) }
    ensures list { IfOk result (λ items. trees_at store.now (numbers items.items) ≡ all_pieces theory.now.assoc theory.now.id op.0 (trees_at store.now (numbers args.now))) }
    ensures there { IfOk result (λ items. AreOf store.now (numbers items.items)) }
{
    let mut items = Vec::new(store.allocator());
    for arg in args {
        items.extend_from_slice(pieces(store, theory, op, arg))?;
    }
    Ok(items)
}

/// The normal form of an operator over a list, each element of which is its own list under the operator.
pub(crate) fn normal_form(
    store: &mut Store,
    theory: &Theory,
    op: OpId,
    mut items: Vec<TermId>,
) -> Result<TermId, NoMemory>
    requires { AreOf store.old (numbers items.items) }
    ensures ok { IfOk result (λ id. IsNumberOf store.new id.0 (over_list theory.now op.0 (trees_at store.old (numbers items.items)))) }
    ensures extends { Extends store.old store.new }
{
    if theory.comm {
        sort(store, &mut items)?;
    }
    finish(store, theory, op, &items)
}

/// Puts terms into the order of trees.
fn sort(store: &Store, items: &mut Vec<TermId>) -> Result<(), NoMemory>
    ensures sorted { OnOk result (trees_at store.now (numbers items.new.items) ≡ sort_trees (trees_at store.now (numbers items.old.items))) }
    ensures there { AreOf store.now (numbers items.old.items) → AreOf store.now (numbers items.new.items) }
{
    items.sort_by(|first, second| store.compare(*first, *second))?;
    Ok(())
}

/// An operator over a list that is ready: the identity, where it is empty, and a single element, where the operator is
/// associative or has an identity.
fn finish(
    store: &mut Store,
    theory: &Theory,
    op: OpId,
    items: &[TermId],
) -> Result<TermId, NoMemory>
    requires { AreOf store.old (numbers items.now) }
    ensures ok { IfOk result (λ id. IsNumberOf store.new id.0 (finish theory.now.assoc theory.now.id theory.now.succ op.0 (trees_at store.old (numbers items.now)))) }
    ensures extends { Extends store.old store.new }
{
    match items {
        [] => match theory.id {
            Some(identity) => unit(store, identity),
            None => store.intern(NodeView::App(op, items)),
        },
        [item] => {
            if theory.assoc || theory.id.is_some() {
                Ok(*item)
            } else {
                over_one(store, theory.succ, op, *item)
            }
        }
        _ => store.intern(NodeView::App(op, items)),
    }
}

/// An identity as a term.
fn unit(store: &mut Store, identity: Identity) -> Result<TermId, NoMemory>
    ensures ok { IfOk result (λ id. IsNumberOf store.new id.0 (unit_tree identity)) }
    ensures extends { Extends store.old store.new }
{
    match identity {
        Identity::Const(c) => store.intern(NodeView::App(c, &[])),
        Identity::Num(n) => store.intern(NodeView::Num(n)),
    }
}

/// An operator over one term: the successor of a numeral is the next numeral, but for the greatest.
fn over_one(store: &mut Store, succ: bool, op: OpId, item: TermId) -> Result<TermId, NoMemory>
    requires { IsOf store.old item.0 }
    ensures ok { IfOk result (λ id. IsNumberOf store.new id.0 (over_one succ op.0 (tree_at store.old item.0))) }
    ensures extends { Extends store.old store.new }
{
    match store.view(item) {
        NodeView::Num(n) => {
            if succ && n < u128::MAX {
                store.intern(NodeView::Num(n + 1))
            } else {
                store.intern(NodeView::App(op, &[item]))
            }
        }
        _ => store.intern(NodeView::App(op, &[item])),
    }
}

/// Whether a term is an operator, which is the successor, over the greatest numeral.
pub(crate) fn is_overflow(store: &Store, theory: &Theory, op: OpId, id: TermId) -> bool
    requires { IsOf store.now id.0 }
    ensures { result ≡ is_overflow theory.now.succ op.0 (tree_at store.now id.0) }
{
    match store.view(id) {
        NodeView::App(top, args) => theory.succ && top == op && is_greatest(store, args),
        _ => false,
    }
}

/// Whether there is one term, and it is the greatest numeral.
fn is_greatest(store: &Store, terms: &[TermId]) -> bool
    requires { AreOf store.now (numbers terms.now) }
    ensures { result ≡ is_greatest_numeral (trees_of (trees_at store.now (numbers terms.now))) }
{
    match terms {
        [term] => store.view(*term) == NodeView::Num(u128::MAX),
        _ => false,
    }
}
