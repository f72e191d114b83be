//! The search for the next solution with contexts, shape after shape.
ghost use Rattle.std.specs.Prelude.{◌≡◌, ◌<◌, List, All, Contains, length, Some, true, false, IfOk, IfSome, IfNone, OnSome};
ghost use Rattle.std.specs.Option.{option_map};
ghost use Rattle.mau_terms.specs.View.{tree_of};
ghost use Rattle.mau_signature.specs.Signature.{theory_at};
ghost use Rattle.mau_sorts.specs.HasSort.{Known};
ghost use Rattle.mau_store.specs.Node.{IsOf};
ghost use Rattle.mau_store.specs.View.{numbers};
ghost use Rattle.mau_terms.specs.declared.ids.TermId.{TermId};
ghost use Rattle.mau_canon.specs.Standing.{StandWithin};
ghost use Rattle.mau_listing.specs.Question.{IsSolution};
ghost use Rattle.mau_listing.specs.Next.{matcher_cmp, IsBehind, IsNext};
ghost use Rattle.mau_listing.specs.Finite.{count_left};
ghost use Rattle.mau_listing.specs.Asked.{question_in, matcher_in, last_after, IsTableOf, BySort, IsGiven, CanBeLast, CanGoOn};
ghost use Rattle.mau_extend.specs.Widened.{around};
ghost use Rattle.mau_trial.specs.Tried.{ArePlacesOf, asked_in};
ghost use Rattle.mau_match.specs.Searched.{Grows, subject_in};
ghost use Rattle.mau_extend.specs.Extended.{IsShapeOf, IsAheadOf, IsNextShaped, IsAccepted, IsRefused, shaped, shaped_asked};

use crate::compared::{is_behind, is_wide};
use crate::narrowed::narrowed;
use crate::shape::Shape;
use mau_listing::{Lister, Place, Solution, is_lawful};
use mau_signature::Signature;
use mau_sorts::SortTable;
use mau_store::Store;
use mau_terms::NoMemory;
use mau_trial::Trial;

/// The next solution of a listing of the widened pattern.
fn next_wide<L: Lister>(
    trial: &Trial,
    shape: Shape,
    listing: &mut L,
    store: &mut Store,
    sig: &Signature,
    sorts: &mut SortTable,
) -> Result<Option<Solution>, NoMemory>
    requires plain { L.with_context ≡ false }
    requires signature { L.is_for listing.old sig.now }
    requires asked { L.asked listing.old ≡ shaped_asked shape (asked_in trial.now) }
    requires ready { CanGoOn false sig.now store.old sorts.old (shaped_asked shape (asked_in trial.now)) (L.given listing.old) }
    ensures next { (known : Known) → IsTableOf sig.now known store.old sorts.old → IfOk result (λ answer.
        IsNext (IsSolution false sig.now (BySort sig.now known) (question_in store.old (shaped_asked shape (asked_in trial.now))))
        (matcher_cmp (theory_at sig.now) (shaped shape (tree_of trial.now.pattern)))
        (option_map (matcher_in store.old) (L.given listing.old)) (option_map (matcher_in store.new) answer)) }
    ensures solves { IfOk result (λ answer. IfSome answer (IsGiven false sig.now store.new sorts.new (shaped_asked shape (asked_in trial.now)))) }
    ensures given { IfOk result (λ answer. L.given listing.new ≡ last_after (L.given listing.old) answer) }
    ensures falls { IfOk result (λ answer. OnSome answer (count_left sig.now store.new (shaped_asked shape (asked_in trial.now)) (L.given listing.new)
        < count_left sig.now store.old (shaped_asked shape (asked_in trial.now)) (L.given listing.old))) }
    ensures asked { L.asked listing.new ≡ shaped_asked shape (asked_in trial.now) }
    ensures signature { L.is_for listing.new sig.now }
    ensures grows { Grows sig.now (subject_in store.old trial.now) store.old store.new sorts.old sorts.new }
{
    let found = listing.next(store, sig, sorts)?;
    Ok(found)
}

/// A solution of the widened pattern as one with contexts, if its contexts are wide enough and it stands behind the last solution.
fn accepted(
    trial: &Trial,
    places: &[Place],
    shape: Shape,
    store: &Store,
    sig: &Signature,
    found: &Solution,
) -> Result<Option<Solution>, NoMemory>
    requires shape { IsShapeOf sig.now (question_in store.now (asked_in trial.now)) shape }
    requires places { ArePlacesOf sig.now (tree_of trial.now.pattern) places.now }
    requires within { StandWithin (theory_at sig.now) store.now (numbers found.now.values) }
    requires around { (l r : TermId) × (vs : List TermId) × (found.now.values ≡ around shape.left shape.right l vs r) × (length vs ≡ length places.now) }
    requires subject { IsOf store.now trial.now.subject.0 }
    requires last { IfSome trial.now.last (λ x. StandWithin (theory_at sig.now) store.now (numbers x.values) × (length x.values ≡ length places.now)) }
    ensures some { IfOk result (λ o. IfSome o (λ x. IsAccepted sig.now store.now (asked_in trial.now) shape trial.now.last found.now x)) }
    ensures left { IfOk result (λ o. IfSome o (λ x. StandWithin (theory_at sig.now) store.now (numbers x.left))) }
    ensures right { IfOk result (λ o. IfSome o (λ x. StandWithin (theory_at sig.now) store.now (numbers x.right))) }
    ensures among { IfOk result (λ o. IfSome o (λ x. All (Contains found.now.values) x.values)) }
    ensures none { IfOk result (λ o. IfNone o (IsRefused sig.now store.now (asked_in trial.now) shape trial.now.last found.now)) }
{
    let solution = narrowed(store, sig, shape, found)?;
    if !is_wide(store, sig, shape.op, trial.subject, &solution) {
        return Ok(None);
    }
    if !is_behind(store, sig, places, &trial.last, &solution) {
        return Ok(None);
    }
    Ok(Some(solution))
}

/// The first solution of a listing of the widened pattern that is one with contexts behind the last solution, where all such stand behind
/// the listing's last one.
pub fn first_accepted<L: Lister>(
    trial: &Trial,
    places: &[Place],
    shape: Shape,
    listing: &mut L,
    store: &mut Store,
    sig: &Signature,
    sorts: &mut SortTable,
) -> Result<Option<Solution>, NoMemory>
    requires plain { L.with_context ≡ false }
    requires signature { L.is_for listing.old sig.now }
    requires asked { L.asked listing.old ≡ shaped_asked shape (asked_in trial.now) }
    requires shape { IsShapeOf sig.now (question_in store.old (asked_in trial.now)) shape }
    requires places { ArePlacesOf sig.now (tree_of trial.now.pattern) places.now }
    requires can { CanGoOn true sig.now store.old sorts.old (asked_in trial.now) trial.now.last }
    requires given { IfSome (L.given listing.old) (CanBeLast false sig.now store.old sorts.old (shaped_asked shape (asked_in trial.now))) }
    ensures next { (known : Known) → IsTableOf sig.now known store.old sorts.old →
        IsAheadOf sig.now known (question_in store.old (asked_in trial.now)) shape (option_map (matcher_in store.old) trial.now.last) (option_map (matcher_in store.old) (L.given listing.old)) → IfOk result (λ o.
        IsNextShaped sig.now known (question_in store.old (asked_in trial.now)) shape (option_map (matcher_in store.old) trial.now.last) (option_map (matcher_in store.new) o)) }
    ensures given { IfOk result (λ o. IfSome o (IsGiven true sig.now store.new sorts.new (asked_in trial.now))) }
    ensures behind { IfOk result (λ o. IfSome (option_map (matcher_in store.new) o) (IsBehind (matcher_cmp (theory_at sig.now) (tree_of trial.now.pattern)) (option_map (matcher_in store.old) trial.now.last))) }
    ensures grows { Grows sig.now (subject_in store.old trial.now) store.old store.new sorts.old sorts.new }
{
    is_lawful(sig);
    while let Some(found) = next_wide(trial, shape, listing, store, sig, sorts)? {
        if let Some(solution) = accepted(trial, places, shape, store, sig, &found)? {
            return Ok(Some(solution));
        }
    }
    Ok(None)
}
