//! The plain listing.
ghost use Rattle.std.specs.Prelude.{◌≡◌, ℕ, List, [], All, Contains, false, IfOk, None};
ghost use Rattle.std.specs.Option.{option_map};
ghost use Rattle.mau_terms.specs.View.{tree_of};
ghost use Rattle.mau_terms.specs.declared.ids.TermId.{TermId};
ghost use Rattle.mau_signature.specs.Signature.{theory_at};
ghost use Rattle.mau_store.specs.Node.{Extends};
ghost use Rattle.mau_store.specs.Trees.{tree_at};
ghost use Rattle.mau_store.specs.View.{numbers};
ghost use Rattle.mau_sorts.specs.HasSort.{Known};
ghost use Rattle.mau_sorts.specs.Table.{IsSettled, AreOver, KeepsEntries};
ghost use Rattle.mau_canon.specs.Standing.{StandWithin};
ghost use Rattle.mau_listing.specs.Matcher.{Matcher};
ghost use Rattle.mau_listing.specs.Question.{IsSolution};
ghost use Rattle.mau_listing.specs.Next.{matcher_cmp, IsBehind};
ghost use Rattle.mau_listing.specs.Asked.{question_in, matcher_in, IsTableOf, IsClosedTable, BySort, MaySettle, CanGoOn};
ghost use Rattle.mau_trial.specs.Tried.{ArePlacesOf, asked_in, without_context};
ghost use Rattle.mau_plain.specs.Behind.{HasNumberIn, IsTriedBehind};

use crate::among::tried_among;
use crate::least::least_of;
use crate::parts::push_candidates;
use crate::settled::settled_among;
use crate::words::all_words;
use mau_listing::{Lister, Place, Solution, WholeLister, has_nodes, is_lawful, places_of};
use mau_signature::Signature;
use mau_sorts::SortTable;
use mau_store::Store;
use mau_terms::{Bare, Duplicate, NoMemory, Seq, TermId, VarId};
use mau_trial::{Trial, copy_bound, solution_of, variables_of};
use std::alloc::Global;

/// A listing without contexts that tries all lists of values there are, for each solution anew. It is slow, and a yardstick for
/// other listings over small terms.
#[derive(Drop)]
pub struct PlainListing {
    trial: Trial,
}

/// All that may be values of solutions and whose sorts are settled, after those were settled that a listing may settle.
fn settled_candidates(
    trial: &Trial,
    store: &mut Store,
    sig: &Signature,
    sorts: &mut SortTable,
) -> Result<Vec<TermId>, NoMemory>
    requires ready { CanGoOn false sig.now store.old sorts.old (asked_in trial.now) trial.now.last }
    ensures within { IfOk result (λ out. StandWithin (theory_at sig.now) store.new (numbers out.items)) }
    ensures settled { IfOk result (λ out. All (IsSettled sorts.new) (numbers out.items)) }
    ensures all { (known : Known) → IsTableOf sig.now known store.old sorts.old → IfOk result (λ out. (x : Matcher) →
        IsSolution false sig.now (BySort sig.now known) (question_in store.old (asked_in trial.now)) x → All (HasNumberIn store.new out.items) x.values) }
    ensures extends { Extends store.old store.new }
    ensures entries { (i : ℕ) → IsSettled sorts.new i → MaySettle sig.now store.new sorts.old (tree_at store.old trial.now.subject.0) i }
    ensures kept { KeepsEntries sorts.old sorts.new }
    ensures over { AreOver sig.now.hierarchy sorts.new }
    ensures table { (known : Known) → IsTableOf sig.now known store.old sorts.old → IsTableOf sig.now known store.new sorts.new }
    ensures closed { IsClosedTable store.old sorts.old → IsClosedTable store.new sorts.new }
{
    is_lawful(sig);
    let mut candidates = Vec::new(store.allocator());
    push_candidates(
        store,
        sig,
        &trial.pattern,
        &[trial.subject],
        &mut candidates,
    )?;
    has_nodes(store);
    settled_among(store, sig, sorts, trial.subject, &candidates)
}

/// The lists of values that make solutions behind the last one.
fn tried_lists(
    trial: &Trial,
    store: &mut Store,
    sig: &Signature,
    sorts: &mut SortTable,
    places: &[Place],
) -> Result<Vec<Seq<TermId>>, NoMemory>
    requires ready { CanGoOn false sig.now store.old sorts.old (asked_in trial.now) trial.now.last }
    requires places { ArePlacesOf sig.now (tree_of trial.now.pattern) places.now }
    ensures tried { IfOk result (λ out. All (IsTriedBehind sig.now store.new sorts.new trial.now places.now) out.items) }
    ensures within { IfOk result (λ out. All (λ l. StandWithin (theory_at sig.now) store.new (numbers l)) out.items) }
    ensures settled { IfOk result (λ out. All (λ l. All (IsSettled sorts.new) (numbers l)) out.items) }
    ensures all { (known : Known) → IsTableOf sig.now known store.old sorts.old → IfOk result (λ out. (x : Matcher) →
        IsSolution false sig.now (BySort sig.now known) (question_in store.old (asked_in trial.now)) x →
        IsBehind (matcher_cmp (theory_at sig.now) (tree_of trial.now.pattern)) (option_map (matcher_in store.old) trial.now.last) x →
        (l : List TermId) × Contains out.items l × (matcher_in store.new (without_context l) ≡ x)) }
    ensures extends { Extends store.old store.new }
    ensures entries { (i : ℕ) → IsSettled sorts.new i → MaySettle sig.now store.new sorts.old (tree_at store.old trial.now.subject.0) i }
    ensures kept { KeepsEntries sorts.old sorts.new }
    ensures over { AreOver sig.now.hierarchy sorts.new }
    ensures table { (known : Known) → IsTableOf sig.now known store.old sorts.old → IsTableOf sig.now known store.new sorts.new }
    ensures closed { IsClosedTable store.old sorts.old → IsClosedTable store.new sorts.new }
{
    is_lawful(sig);
    let alloc = store.allocator();
    let settled = settled_candidates(trial, store, sig, sorts)?;
    has_nodes(store);
    let lists = all_words(alloc, &settled, places.len())?;
    let variables = variables_of(alloc, places)?;
    tried_among(store, sig, sorts, trial, places, &variables, &lists)
}

impl Lister for PlainListing {
    ghost use Rattle.std.specs.Prelude.{false};
    ghost use Rattle.mau_trial.specs.Tried.{asked_in};

    ghost with_context = { false };

    ghost asked = { λ l. asked_in l.trial };

    ghost given = { λ l. l.trial.last };

    ghost is_for = { λ l s. Unit {0} };

    fn start(
        alloc: Global,
        _: &Signature,
        pattern: &Bare,
        bound: &[(VarId, TermId)],
        subject: TermId,
    ) -> Result<PlainListing, NoMemory> {
        Ok(PlainListing {
            trial: Trial {
                pattern: pattern.copy(alloc)?,
                bound: copy_bound(alloc, bound)?,
                subject,
                last: None,
            },
        })
    }

    fn resume(
        alloc: Global,
        _: &Signature,
        pattern: &Bare,
        bound: &[(VarId, TermId)],
        subject: TermId,
        last: &Solution,
    ) -> Result<PlainListing, NoMemory> {
        Ok(PlainListing {
            trial: Trial {
                pattern: pattern.copy(alloc)?,
                bound: copy_bound(alloc, bound)?,
                subject,
                last: Some(last.copy(alloc)?),
            },
        })
    }

    fn last(&self) -> Option<&Solution> {
        self.trial.last.as_ref()
    }

    fn next(
        &mut self,
        store: &mut Store,
        sig: &Signature,
        sorts: &mut SortTable,
    ) -> Result<Option<Solution>, NoMemory> {
        is_lawful(sig);
        let alloc = store.allocator();
        let places = places_of(alloc, sig, &self.trial.pattern)?;
        let tried = tried_lists(&self.trial, store, sig, sorts, &places)?;
        has_nodes(store);
        match least_of(store, sig, &places, &tried) {
            None => Ok(None),
            Some(i) => {
                let solution = solution_of(alloc, &tried[i])?;
                self.trial.last = Some(solution.copy(alloc)?);
                Ok(Some(solution))
            }
        }
    }
}

impl WholeLister for PlainListing {
    ghost use Rattle.std.specs.Prelude.{refl};

    ghost whole = { refl };
}
