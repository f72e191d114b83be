//! All that a term can take as an argument of an operator that is not associative.
ghost use Rattle.std.specs.Prelude.{◌≡◌, Some, IfOk, OnOk};
ghost use Rattle.mau_terms.specs.Norm.{unit_tree};
ghost use Rattle.mau_signature.specs.Signature.{IsOperator, theory_at};
ghost use Rattle.mau_store.specs.Node.{Extends};
ghost use Rattle.mau_store.specs.Trees.{tree_at, trees_at};
ghost use Rattle.mau_store.specs.View.{numbers};
ghost use Rattle.mau_canon.specs.Standing.{StandsWithin, StandWithin};
ghost use Rattle.mau_domains.specs.Stored.{AddsTerms};
ghost use Rattle.mau_free.specs.Arguments.{arguments_at, one_before, beside_unit, taken_of};

use mau_signature::Signature;
use mau_store::{NodeView, Store};
use mau_terms::{Identity, NoMemory, OpId, TermId};

/// The arguments of a term, where the operator is its top.
fn arguments_of(
    store: &Store,
    sig: &Signature,
    op: OpId,
    term: TermId,
) -> Result<Vec<TermId>, NoMemory>
    requires operator { IsOperator sig.now op.0 }
    requires term { StandsWithin (theory_at sig.now) store.now term.0 }
    ensures terms { IfOk result (λ values. trees_at store.now (numbers values.items) ≡ arguments_at op.0 (tree_at store.now term.0)) }
    ensures within { IfOk result (λ values. StandWithin (theory_at sig.now) store.now (numbers values.items)) }
{
    let _ = sig.theory(op);
    match store.view(term) {
        NodeView::App(top, args) => {
            if top == op {
                Ok(Vec::from_slice(store.allocator(), args)?)
            } else {
                Ok(Vec::new(store.allocator()))
            }
        }
        _ => Ok(Vec::new(store.allocator())),
    }
}

/// Adds the numeral before a term, where the operator is the successor.
fn push_before(
    store: &mut Store,
    sig: &Signature,
    op: OpId,
    term: TermId,
    values: &mut Vec<TermId>,
) -> Result<(), NoMemory>
    requires operator { IsOperator sig.now op.0 }
    requires term { StandsWithin (theory_at sig.now) store.old term.0 }
    requires values { StandWithin (theory_at sig.now) store.old (numbers values.old.items) }
    ensures ok { OnOk result (AddsTerms sig.now store.old store.new values.old.items values.new.items (one_before (theory_at sig.now op.0).succ (tree_at store.old term.0))) }
    ensures extends { Extends store.old store.new }
{
    let succ = sig.theory(op).succ;
    match store.view(term) {
        NodeView::Num(n) => {
            if succ && 0 < n {
                let before = store.intern(NodeView::Num(n - 1))?;
                values.push(before)?;
            }
            Ok(())
        }
        _ => Ok(()),
    }
}

/// An identity as a term.
fn unit(
    store: &mut Store,
    sig: &Signature,
    op: OpId,
    identity: Identity,
) -> Result<TermId, NoMemory>
    requires operator { IsOperator sig.now op.0 }
    requires identity { (theory_at sig.now op.0).id ≡ Some identity }
    ensures tree { IfOk result (λ id. tree_at store.new id.0 ≡ unit_tree identity) }
    ensures within { IfOk result (λ id. StandsWithin (theory_at sig.now) store.new id.0) }
    ensures extends { Extends store.old store.new }
{
    let _ = sig.operators();
    match identity {
        Identity::Const(constant) => store.intern(NodeView::App(constant, &[])),
        Identity::Num(value) => store.intern(NodeView::Num(value)),
    }
}

/// Adds the identity of the operator, if it has one, and the term beside it.
fn push_unit(
    store: &mut Store,
    sig: &Signature,
    op: OpId,
    term: TermId,
    values: &mut Vec<TermId>,
) -> Result<(), NoMemory>
    requires operator { IsOperator sig.now op.0 }
    requires term { StandsWithin (theory_at sig.now) store.old term.0 }
    requires values { StandWithin (theory_at sig.now) store.old (numbers values.old.items) }
    ensures ok { OnOk result (AddsTerms sig.now store.old store.new values.old.items values.new.items (beside_unit (theory_at sig.now op.0).id (tree_at store.old term.0))) }
    ensures extends { Extends store.old store.new }
{
    match sig.theory(op).id {
        Some(identity) => {
            let unit = unit(store, sig, op, identity)?;
            values.push(unit)?;
            values.push(term)?;
            Ok(())
        }
        None => Ok(()),
    }
}

/// All that a term can take.
pub fn all_taken(
    store: &mut Store,
    sig: &Signature,
    op: OpId,
    term: TermId,
) -> Result<Vec<TermId>, NoMemory>
    requires operator { IsOperator sig.now op.0 }
    requires term { StandsWithin (theory_at sig.now) store.old term.0 }
    ensures terms { IfOk result (λ values. trees_at store.new (numbers values.items) ≡ taken_of (theory_at sig.now op.0) op.0 (tree_at store.old term.0)) }
    ensures within { IfOk result (λ values. StandWithin (theory_at sig.now) store.new (numbers values.items)) }
    ensures extends { Extends store.old store.new }
{
    let mut values = arguments_of(store, sig, op, term)?;
    push_before(store, sig, op, term, &mut values)?;
    push_unit(store, sig, op, term, &mut values)?;
    Ok(values)
}
