//! Where a listing of a widened pattern goes on.
ghost use Rattle.std.specs.Prelude.{◌≡◌, ◌≢◌, [], true, false, IfOk, IfSome};
ghost use Rattle.std.specs.Option.{option_map};
ghost use Rattle.mau_terms.specs.Tree.{node};
ghost use Rattle.mau_terms.specs.Norm.{norm};
ghost use Rattle.mau_signature.specs.Signature.{IsOperator, theory_at};
ghost use Rattle.mau_store.specs.Node.{IsOf};
ghost use Rattle.mau_store.specs.Trees.{tree_at, trees_at};
ghost use Rattle.mau_store.specs.View.{numbers};
ghost use Rattle.mau_canon.specs.Standing.{StandsWithin, StandWithin};
ghost use Rattle.mau_sorts.specs.HasSort.{Known};
ghost use Rattle.mau_sorts.specs.Table.{IsSettled, AreOver};
ghost use Rattle.mau_listing.specs.Asked.{question_in, matcher_in, IsTableOf, CanGoOn};
ghost use Rattle.mau_trial.specs.Tried.{asked_in, without_context};
ghost use Rattle.mau_match.specs.Searched.{Grows, subject_in};
ghost use Rattle.mau_extend.specs.Widened.{around};
ghost use Rattle.mau_extend.specs.Extended.{IsShapeOf, CanStart, IsStartOf, shaped_asked};

use crate::shape::Shape;
use mau_canon::{BuildFault, from_list};
use mau_listing::{Solution, has_nodes, is_lawful, settle_value};
use mau_signature::Signature;
use mau_sorts::SortTable;
use mau_store::Store;
use mau_terms::{NoMemory, OpId, Seq, TermId};
use mau_trial::Trial;
use std::alloc::Global;

/// Where a listing of a widened pattern goes on: nowhere, as nothing is left, from the first solution on, or behind a point.
#[derive(Drop)]
pub enum Start {
    Nowhere,
    First,
    Behind(Solution),
}

/// The normal form of an operator over the list of a context, with its sorts settled. There is none, where the list is empty and the
/// operator has no identity.
fn argument(
    store: &mut Store,
    sig: &Signature,
    sorts: &mut SortTable,
    op: OpId,
    subject: TermId,
    ids: &[TermId],
) -> Result<Option<TermId>, NoMemory>
    requires operator { IsOperator sig.now op.0 }
    requires ids { StandWithin (theory_at sig.now) store.old (numbers ids.now) }
    requires subject { IsOf store.old subject.0 }
    requires over { AreOver sig.now.hierarchy sorts.old }
    ensures value { IfOk result (λ o. IfSome o (λ id. tree_at store.new id.0 ≡ norm (theory_at sig.now) (node op.0 (trees_at store.old (numbers ids.now))))) }
    ensures within { IfOk result (λ o. IfSome o (λ id. StandsWithin (theory_at sig.now) store.new id.0)) }
    ensures settled { IfOk result (λ o. IfSome o (λ id. IsSettled sorts.new id.0)) }
    ensures grows { Grows sig.now (tree_at store.old subject.0) store.old store.new sorts.old sorts.new }
{
    if ids.is_empty() && sig.theory(op).id.is_none() {
        return Ok(None);
    }
    match from_list(store, sig, op, ids) {
        Ok(id) => {
            if settle_value(store, sig, sorts, id, subject)? {
                Ok(Some(id))
            } else {
                Ok(None)
            }
        }
        Err(BuildFault::NoMemory) => Err(NoMemory),
        Err(BuildFault::TooDeep) => Ok(None),
        Err(BuildFault::Overflow) => Ok(None),
    }
}

/// Values with an argument for the left context in front, and one for the right context behind.
fn values_around(
    alloc: Global,
    shape: Shape,
    first: TermId,
    values: &[TermId],
    last: TermId,
) -> Result<Vec<TermId>, NoMemory>
    ensures { IfOk result (λ out. out.items ≡ around shape.left shape.right first values.now last) }
{
    let mut out = Vec::new(alloc);
    if shape.left {
        out.push(first)?;
    }
    out.extend_from_slice(values)?;
    if shape.right {
        out.push(last)?;
    }
    Ok(out)
}

/// The point behind which all solutions stand that come behind a solution: its values between its left context and any right one.
fn behind(
    alloc: Global,
    shape: Shape,
    first: TermId,
    last: &Solution,
    subject: TermId,
) -> Result<Solution, NoMemory>
    ensures { IfOk result (λ y. y ≡ without_context (around shape.left shape.right first last.now.values subject)) }
{
    let values = values_around(alloc, shape, first, last.values.items(), subject)?;
    Ok(Solution {
        left: Seq::new(Vec::new(alloc)),
        right: Seq::new(Vec::new(alloc)),
        values: Seq::new(values),
    })
}

/// Whether no solution of a shape stands behind a solution, as it has a left context and they have none.
fn is_beyond(shape: Shape, last: &Solution) -> bool
    ensures beyond { result ≡ true → (shape.left ≡ false) × (last.now.left ≢ []) }
    ensures inside { result ≡ false → shape.left ≡ false → last.now.left ≡ [] }
{
    !shape.left && !last.left.items().is_empty()
}

/// Whether the subject can stand for the right context of a shape.
fn can_stand(shape: Shape, sorts: &SortTable, subject: TermId) -> bool
    ensures { result ≡ true → shape.right ≡ true → IsSettled sorts.now subject.0 }
{
    !shape.right || sorts.is_settled(subject)
}

/// An argument for the left context of a solution, if the shape has one, and any term if it has none.
fn first_argument(
    trial: &Trial,
    shape: Shape,
    store: &mut Store,
    sig: &Signature,
    sorts: &mut SortTable,
    last: &Solution,
) -> Result<Option<TermId>, NoMemory>
    requires operator { IsOperator sig.now shape.op.0 }
    requires ids { StandWithin (theory_at sig.now) store.old (numbers last.now.left) }
    requires subject { IsOf store.old trial.now.subject.0 }
    requires over { AreOver sig.now.hierarchy sorts.old }
    ensures value { IfOk result (λ o. IfSome o (λ id. shape.left ≡ true → tree_at store.new id.0 ≡ norm (theory_at sig.now) (node shape.op.0 (trees_at store.old (numbers last.now.left))))) }
    ensures within { IfOk result (λ o. IfSome o (λ id. shape.left ≡ true → StandsWithin (theory_at sig.now) store.new id.0)) }
    ensures settled { IfOk result (λ o. IfSome o (λ id. shape.left ≡ true → IsSettled sorts.new id.0)) }
    ensures grows { Grows sig.now (subject_in store.old trial.now) store.old store.new sorts.old sorts.new }
{
    if !shape.left {
        has_nodes(store);
        return Ok(Some(trial.subject));
    }
    argument(
        store,
        sig,
        sorts,
        shape.op,
        trial.subject,
        last.left.items(),
    )
}

/// Where a listing of the widened pattern goes on behind the last solution.
pub fn start_of(
    trial: &Trial,
    shape: Shape,
    store: &mut Store,
    sig: &Signature,
    sorts: &mut SortTable,
) -> Result<Start, NoMemory>
    requires shape { IsShapeOf sig.now (question_in store.old (asked_in trial.now)) shape }
    requires can { CanGoOn true sig.now store.old sorts.old (asked_in trial.now) trial.now.last }
    ensures start { (known : Known) → IsTableOf sig.now known store.old sorts.old → IfOk result (λ start.
        IsStartOf sig.now known (question_in store.old (asked_in trial.now)) shape (option_map (matcher_in store.old) trial.now.last) store.new start) }
    ensures point { IfOk result (CanStart sig.now store.new sorts.new (shaped_asked shape (asked_in trial.now))) }
    ensures grows { Grows sig.now (subject_in store.old trial.now) store.old store.new sorts.old sorts.new }
{
    is_lawful(sig);
    has_nodes(store);
    let Some(last) = &trial.last else {
        return Ok(Start::First);
    };
    if is_beyond(shape, last) {
        return Ok(Start::Nowhere);
    }
    if !can_stand(shape, sorts, trial.subject) {
        return Ok(Start::First);
    }
    let Some(first) = first_argument(trial, shape, store, sig, sorts, last)? else {
        return Ok(Start::First);
    };
    let point = behind(store.allocator(), shape, first, last, trial.subject)?;
    Ok(Start::Behind(point))
}
