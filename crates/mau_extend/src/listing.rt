//! The listing of solutions with contexts.
ghost use Rattle.std.specs.Prelude.{◌≡◌, ◌<◌, false, true, IfOk, IfSome, Some};
ghost use Rattle.std.specs.Option.{option_map};
ghost use Rattle.mau_terms.specs.View.{tree_of};
ghost use Rattle.mau_signature.specs.Signature.{theory_at};
ghost use Rattle.mau_sorts.specs.HasSort.{Known};
ghost use Rattle.mau_listing.specs.Question.{IsSolution};
ghost use Rattle.mau_listing.specs.Next.{matcher_cmp, IsNext};
ghost use Rattle.mau_listing.specs.Asked.{question_in, matcher_in, IsTableOf, BySort, IsGiven, CanGoOn};
ghost use Rattle.mau_listing.specs.Finite.{count_left};
ghost use Rattle.mau_trial.specs.Tried.{asked_in};
ghost use Rattle.mau_match.specs.Searched.{Grows, subject_in};

use crate::next::{next_part, next_whole};
use mau_canon::assoc_top;
use mau_listing::{Lister, Solution, WholeLister};
use mau_signature::Signature;
use mau_sorts::SortTable;
use mau_store::Store;
use mau_terms::{Bare, Duplicate, NoMemory, TermId, VarId};
use mau_trial::{Trial, copy_bound};
use std::alloc::Global;
use std::marker::PhantomData;

/// A listing of solutions with their contexts, over any listing of those without. Where the top of the pattern's normal form is an
/// associative operator, the pattern is widened by variables for the contexts. What goes on from call to call is the last solution alone.
#[derive(Drop)]
pub struct ExtListing<L> {
    trial: Trial,
    of: PhantomData<L>,
}

/// The next solution with contexts.
fn next_with_contexts<L: Lister + Drop>(
    trial: &Trial,
    store: &mut Store,
    sig: &Signature,
    sorts: &mut SortTable,
) -> Result<Option<Solution>, NoMemory>
    requires plain { L.with_context ≡ false }
    requires can { CanGoOn true sig.now store.old sorts.old (asked_in trial.now) trial.now.last }
    ensures next { (known : Known) → IsTableOf sig.now known store.old sorts.old → IfOk result (λ o.
        IsNext (IsSolution true sig.now (BySort sig.now known) (question_in store.old (asked_in trial.now)))
        (matcher_cmp (theory_at sig.now) (tree_of trial.now.pattern)) (option_map (matcher_in store.old) trial.now.last) (option_map (matcher_in store.new) o)) }
    ensures given { IfOk result (λ o. IfSome o (IsGiven true sig.now store.new sorts.new (asked_in trial.now))) }
    ensures falls { IfOk result (λ o. IfSome o (λ x. count_left sig.now store.new (asked_in trial.now) (Some x) < count_left sig.now store.old (asked_in trial.now) trial.now.last)) }
    ensures grows { Grows sig.now (subject_in store.old trial.now) store.old store.new sorts.old sorts.new }
{
    match assoc_top(store.allocator(), sig, &trial.pattern)? {
        Some(op) => next_part::<L>(trial, op, store, sig, sorts),
        None => next_whole::<L>(trial, store, sig, sorts),
    }
}

impl<L: WholeLister + Drop> Lister for ExtListing<L> {
    ghost use Rattle.std.specs.Prelude.{true};
    ghost use Rattle.mau_trial.specs.Tried.{asked_in};

    ghost with_context = { true };

    ghost asked = { λ l. asked_in l.trial };

    ghost given = { λ l. l.trial.last };

    ghost is_for = { λ l s. Unit {0} };

    fn start(
        alloc: Global,
        _: &Signature,
        pattern: &Bare,
        bound: &[(VarId, TermId)],
        subject: TermId,
    ) -> Result<ExtListing<L>, NoMemory> {
        Ok(ExtListing {
            trial: Trial {
                pattern: pattern.copy(alloc)?,
                bound: copy_bound(alloc, bound)?,
                subject,
                last: None,
            },
            of: PhantomData,
        })
    }

    fn resume(
        alloc: Global,
        _: &Signature,
        pattern: &Bare,
        bound: &[(VarId, TermId)],
        subject: TermId,
        last: &Solution,
    ) -> Result<ExtListing<L>, NoMemory> {
        Ok(ExtListing {
            trial: Trial {
                pattern: pattern.copy(alloc)?,
                bound: copy_bound(alloc, bound)?,
                subject,
                last: Some(last.copy(alloc)?),
            },
            of: PhantomData,
        })
    }

    fn last(&self) -> Option<&Solution> {
        self.trial.last.as_ref()
    }

    fn next(
        &mut self,
        store: &mut Store,
        sig: &Signature,
        sorts: &mut SortTable,
    ) -> Result<Option<Solution>, NoMemory> {
        match next_with_contexts::<L>(&self.trial, store, sig, sorts)? {
            None => Ok(None),
            Some(solution) => {
                self.trial.last = Some(solution.copy(store.allocator())?);
                Ok(Some(solution))
            }
        }
    }
}
