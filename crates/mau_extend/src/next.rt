//! The next solution with contexts, over a listing of those without.
ghost use Rattle.std.specs.Prelude.{◌≡◌, ◌⊎◌, ◌<◌, [], IsSome, Some, None, true, false, IfOk, IfSome};
ghost use Rattle.std.specs.Option.{option_map};
ghost use Rattle.mau_terms.specs.Norm.{norm};
ghost use Rattle.mau_terms.specs.Tree.{Tree};
ghost use Rattle.mau_terms.specs.Solution.{assoc_top, places as places_by};
ghost use Rattle.mau_terms.specs.View.{tree_of};
ghost use Rattle.mau_signature.specs.Signature.{IsOperator, theory_at};
ghost use Rattle.mau_sorts.specs.HasSort.{Known};
ghost use Rattle.mau_listing.specs.Question.{IsSolution};
ghost use Rattle.mau_listing.specs.Next.{matcher_cmp, IsBehind, IsNext};
ghost use Rattle.mau_listing.specs.Asked.{question_in, matcher_in, IsTableOf, BySort, IsGiven, CanGoOn};
ghost use Rattle.mau_listing.specs.Finite.{count_left};
ghost use Rattle.mau_trial.specs.Tried.{ArePlacesOf, asked_in};
ghost use Rattle.mau_match.specs.Searched.{Grows, subject_in};
ghost use Rattle.mau_listing.specs.Places.{under_all, AreUnderOperators};
ghost use Rattle.mau_extend.specs.Extended.{IsNextOf, IsNextBeside, IsListed, IsLesser};

use crate::compared::compare_found;
use crate::search::first_accepted;
use crate::shape::{shape_of, shaped};
use crate::start::{Start, start_of};
use mau_listing::{Lister, Place, Solution, is_lawful, places_of};
use mau_signature::Signature;
use mau_sorts::SortTable;
use mau_store::Store;
use mau_terms::{NoMemory, OpId};
use mau_trial::Trial;
use std::alloc::Global;
use std::cmp::Ordering;

/// The least solution behind the last one, of those with a left and a right context, or with none on a side.
pub fn next_of_shape<L: Lister + Drop>(
    trial: &Trial,
    places: &[Place],
    op: OpId,
    left: bool,
    right: bool,
    store: &mut Store,
    sig: &Signature,
    sorts: &mut SortTable,
) -> Result<Option<Solution>, NoMemory>
    requires plain { L.with_context ≡ false }
    requires operator { IsOperator sig.now op.0 }
    requires top { assoc_top (theory_at sig.now) (norm (theory_at sig.now) (tree_of trial.now.pattern)) ≡ Some op.0 }
    requires places { ArePlacesOf sig.now (tree_of trial.now.pattern) places.now }
    requires alone { (theory_at sig.now op.0).comm ≡ true → left ≡ false }
    requires can { CanGoOn true sig.now store.old sorts.old (asked_in trial.now) trial.now.last }
    ensures next { (known : Known) → IsTableOf sig.now known store.old sorts.old → IfOk result (λ o.
        IsNextOf sig.now known (question_in store.old (asked_in trial.now)) left right op.0 (option_map (matcher_in store.old) trial.now.last) (option_map (matcher_in store.new) o)) }
    ensures given { IfOk result (λ o. IfSome o (IsGiven true sig.now store.new sorts.new (asked_in trial.now))) }
    ensures behind { IfOk result (λ o. IfSome (option_map (matcher_in store.new) o) (IsBehind (matcher_cmp (theory_at sig.now) (tree_of trial.now.pattern)) (option_map (matcher_in store.old) trial.now.last))) }
    ensures grows { Grows sig.now (subject_in store.old trial.now) store.old store.new sorts.old sorts.new }
{
    is_lawful(sig);
    let shape = shape_of(sig, trial, places, op, left, right)?;
    let alloc = store.allocator();
    let pattern = shaped(alloc, shape, &trial.pattern)?;
    match start_of(trial, shape, store, sig, sorts)? {
        Start::Nowhere => Ok(None),
        Start::First => {
            let mut listing: L = L::start(alloc, sig, &pattern, &trial.bound, trial.subject)?;
            first_accepted(trial, places, shape, &mut listing, store, sig, sorts)
        }
        Start::Behind(point) => {
            let bound = &trial.bound;
            let mut listing: L = L::resume(alloc, sig, &pattern, bound, trial.subject, &point)?;
            first_accepted(trial, places, shape, &mut listing, store, sig, sorts)
        }
    }
}

/// The lesser of two solutions of a pattern, if there are two.
fn lesser(
    store: &Store,
    sig: &Signature,
    places: &[Place],
    one: Option<Solution>,
    other: Option<Solution>,
) -> Option<Solution>
    requires operators { AreUnderOperators sig.now places.now }
    requires one { IfSome one (IsListed sig.now store.now places.now) }
    requires other { IfSome other (IsListed sig.now store.now places.now) }
    ensures lesser { (p : Tree) → under_all places.now ≡ places_by (theory_at sig.now) p → IsLesser (matcher_cmp (theory_at sig.now) p) (option_map (matcher_in store.now) one) (option_map (matcher_in store.now) other) (option_map (matcher_in store.now) result) }
    ensures among { (result ≡ one) ⊎ (result ≡ other) }
{
    let Some(first) = &one else {
        return other;
    };
    let Some(second) = &other else {
        return one;
    };
    if compare_found(store, sig, places, second, first) == Ordering::Less {
        other
    } else {
        one
    }
}

/// The least solution behind the last one, of those with a left context, or of those without.
fn next_beside<L: Lister + Drop>(
    trial: &Trial,
    places: &[Place],
    op: OpId,
    left: bool,
    store: &mut Store,
    sig: &Signature,
    sorts: &mut SortTable,
) -> Result<Option<Solution>, NoMemory>
    requires plain { L.with_context ≡ false }
    requires operator { IsOperator sig.now op.0 }
    requires top { assoc_top (theory_at sig.now) (norm (theory_at sig.now) (tree_of trial.now.pattern)) ≡ Some op.0 }
    requires places { ArePlacesOf sig.now (tree_of trial.now.pattern) places.now }
    requires alone { (theory_at sig.now op.0).comm ≡ true → left ≡ false }
    requires can { CanGoOn true sig.now store.old sorts.old (asked_in trial.now) trial.now.last }
    ensures next { (known : Known) → IsTableOf sig.now known store.old sorts.old → IfOk result (λ o.
        IsNextBeside sig.now known (question_in store.old (asked_in trial.now)) left op.0 (option_map (matcher_in store.old) trial.now.last) (option_map (matcher_in store.new) o)) }
    ensures given { IfOk result (λ o. IfSome o (IsGiven true sig.now store.new sorts.new (asked_in trial.now))) }
    ensures behind { IfOk result (λ o. IfSome (option_map (matcher_in store.new) o) (IsBehind (matcher_cmp (theory_at sig.now) (tree_of trial.now.pattern)) (option_map (matcher_in store.old) trial.now.last))) }
    ensures grows { Grows sig.now (subject_in store.old trial.now) store.old store.new sorts.old sorts.new }
{
    is_lawful(sig);
    let whole = next_of_shape::<L>(trial, places, op, left, false, store, sig, sorts)?;
    let part = next_of_shape::<L>(trial, places, op, left, true, store, sig, sorts)?;
    Ok(lesser(store, sig, places, whole, part))
}

/// Whether a solution has no left context.
fn begins(solution: &Option<Solution>) -> bool
    ensures { result ≡ true → IsSome solution.now × IfSome solution.now (λ x. x.left ≡ []) }
{
    match solution {
        Some(solution) => solution.left.items().is_empty(),
        None => false,
    }
}

/// The least solution behind the last one, under an operator that is not commutative: those without a left context come first.
fn next_apart<L: Lister + Drop>(
    trial: &Trial,
    places: &[Place],
    op: OpId,
    store: &mut Store,
    sig: &Signature,
    sorts: &mut SortTable,
) -> Result<Option<Solution>, NoMemory>
    requires plain { L.with_context ≡ false }
    requires operator { IsOperator sig.now op.0 }
    requires top { assoc_top (theory_at sig.now) (norm (theory_at sig.now) (tree_of trial.now.pattern)) ≡ Some op.0 }
    requires places { ArePlacesOf sig.now (tree_of trial.now.pattern) places.now }
    requires apart { (theory_at sig.now op.0).comm ≡ false }
    requires can { CanGoOn true sig.now store.old sorts.old (asked_in trial.now) trial.now.last }
    ensures next { (known : Known) → IsTableOf sig.now known store.old sorts.old → IfOk result (λ o.
        IsNext (IsSolution true sig.now (BySort sig.now known) (question_in store.old (asked_in trial.now)))
        (matcher_cmp (theory_at sig.now) (tree_of trial.now.pattern)) (option_map (matcher_in store.old) trial.now.last) (option_map (matcher_in store.new) o)) }
    ensures given { IfOk result (λ o. IfSome o (IsGiven true sig.now store.new sorts.new (asked_in trial.now))) }
    ensures behind { IfOk result (λ o. IfSome (option_map (matcher_in store.new) o) (IsBehind (matcher_cmp (theory_at sig.now) (tree_of trial.now.pattern)) (option_map (matcher_in store.old) trial.now.last))) }
    ensures grows { Grows sig.now (subject_in store.old trial.now) store.old store.new sorts.old sorts.new }
{
    is_lawful(sig);
    let first = next_beside::<L>(trial, places, op, false, store, sig, sorts)?;
    if begins(&first) {
        return Ok(first);
    }
    let second = next_beside::<L>(trial, places, op, true, store, sig, sorts)?;
    Ok(lesser(store, sig, places, first, second))
}

/// The least solution behind the last one, of a pattern with an associative top. With an identity each context can be an argument, and
/// else solutions with and without contexts are looked for one by one.
pub fn next_part<L: Lister + Drop>(
    trial: &Trial,
    op: OpId,
    store: &mut Store,
    sig: &Signature,
    sorts: &mut SortTable,
) -> Result<Option<Solution>, NoMemory>
    requires plain { L.with_context ≡ false }
    requires operator { IsOperator sig.now op.0 }
    requires top { assoc_top (theory_at sig.now) (norm (theory_at sig.now) (tree_of trial.now.pattern)) ≡ Some op.0 }
    requires can { CanGoOn true sig.now store.old sorts.old (asked_in trial.now) trial.now.last }
    ensures next { (known : Known) → IsTableOf sig.now known store.old sorts.old → IfOk result (λ o.
        IsNext (IsSolution true sig.now (BySort sig.now known) (question_in store.old (asked_in trial.now)))
        (matcher_cmp (theory_at sig.now) (tree_of trial.now.pattern)) (option_map (matcher_in store.old) trial.now.last) (option_map (matcher_in store.new) o)) }
    ensures given { IfOk result (λ o. IfSome o (IsGiven true sig.now store.new sorts.new (asked_in trial.now))) }
    ensures falls { IfOk result (λ o. IfSome o (λ x. count_left sig.now store.new (asked_in trial.now) (Some x) < count_left sig.now store.old (asked_in trial.now) trial.now.last)) }
    ensures grows { Grows sig.now (subject_in store.old trial.now) store.old store.new sorts.old sorts.new }
{
    let places = places_of(store.allocator(), sig, &trial.pattern)?;
    let theory = sig.theory(op);
    if theory.id.is_some() {
        return next_of_shape::<L>(trial, &places, op, !theory.comm, true, store, sig, sorts);
    }
    if theory.comm {
        return next_beside::<L>(trial, &places, op, false, store, sig, sorts);
    }
    next_apart::<L>(trial, &places, op, store, sig, sorts)
}

/// The least solution behind the last one, of a pattern without an associative top: it is one without contexts.
pub fn next_whole<L: Lister + Drop>(
    trial: &Trial,
    store: &mut Store,
    sig: &Signature,
    sorts: &mut SortTable,
) -> Result<Option<Solution>, NoMemory>
    requires plain { L.with_context ≡ false }
    requires top { assoc_top (theory_at sig.now) (norm (theory_at sig.now) (tree_of trial.now.pattern)) ≡ None }
    requires can { CanGoOn true sig.now store.old sorts.old (asked_in trial.now) trial.now.last }
    ensures next { (known : Known) → IsTableOf sig.now known store.old sorts.old → IfOk result (λ o.
        IsNext (IsSolution true sig.now (BySort sig.now known) (question_in store.old (asked_in trial.now)))
        (matcher_cmp (theory_at sig.now) (tree_of trial.now.pattern)) (option_map (matcher_in store.old) trial.now.last) (option_map (matcher_in store.new) o)) }
    ensures given { IfOk result (λ o. IfSome o (IsGiven true sig.now store.new sorts.new (asked_in trial.now))) }
    ensures falls { IfOk result (λ o. IfSome o (λ x. count_left sig.now store.new (asked_in trial.now) (Some x) < count_left sig.now store.old (asked_in trial.now) trial.now.last)) }
    ensures grows { Grows sig.now (subject_in store.old trial.now) store.old store.new sorts.old sorts.new }
{
    let mut listing: L = listing_of(store.allocator(), trial, sig)?;
    let found = listing.next(store, sig, sorts)?;
    Ok(found)
}

/// A listing of the pattern itself, behind the last solution.
fn listing_of<L: Lister>(alloc: Global, trial: &Trial, sig: &Signature) -> Result<L, NoMemory>
    ensures asked { IfOk result (λ listing. L.asked listing ≡ asked_in trial.now) }
    ensures signature { IfOk result (λ listing. L.is_for listing sig.now) }
    ensures given { IfOk result (λ listing. L.given listing ≡ trial.now.last) }
{
    match &trial.last {
        None => L::start(alloc, sig, &trial.pattern, &trial.bound, trial.subject),
        Some(last) => L::resume(
            alloc,
            sig,
            &trial.pattern,
            &trial.bound,
            trial.subject,
            last,
        ),
    }
}
