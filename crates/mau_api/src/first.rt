//! The first solutions of a listing, by the sorts that an evaluator derived.
ghost use Rattle.std.specs.Prelude.{◌≡◌, ◌≤◌, ℕ, [], true, length, map, None, IfOk};
ghost use Rattle.std.specs.Option.{option_map};
ghost use Rattle.mau_terms.specs.Bare.{IsBare};
ghost use Rattle.mau_terms.specs.View.{tree_of};
ghost use Rattle.mau_signature.specs.Signature.{theory_at, terms_over};
ghost use Rattle.mau_store.specs.Node.{Extends};
ghost use Rattle.mau_store.specs.Trees.{tree_at};
ghost use Rattle.mau_sorts.specs.HasSort.{Known};
ghost use Rattle.mau_sorts.specs.Table.{KeepsEntries};
ghost use Rattle.mau_listing.specs.Question.{IsSolution};
ghost use Rattle.mau_listing.specs.Next.{matcher_cmp, AreFirst};
ghost use Rattle.mau_listing.specs.Asked.{asks, question_in, matcher_in, IsTableOf, BySort, CanGoOn};
ghost use Rattle.mau_api.specs.Terms.{IsTerm};
ghost use Rattle.mau_api.specs.Answers.{levels_of_item, GivesUnder};

use crate::{EvalEnd, Evaluator, Reduced, StepWatcher};
use mau_listing::{FirstSolutions, Lister};
use mau_signature::Signature;
use mau_store::Store;
use mau_terms::{Bare, NoMemory, TermId};
use std::alloc::Global;

/// The next `count` solutions of a listing, in order and by the sorts that the evaluator has settled, or all that are left where there
/// are fewer, and whether there are more behind them.
pub fn first_derived<E: Evaluator, L: Lister + Drop>(
    alloc: Global,
    evaluator: &mut E,
    store: &mut Store,
    listing: &mut L,
    count: usize,
) -> Result<FirstSolutions, NoMemory>
    requires fits { E.fits evaluator.old store.old }
    requires signature { L.is_for listing.old (E.meanings evaluator.old).program.sig }
    requires ready { CanGoOn L.with_context (E.meanings evaluator.old).program.sig store.old (E.table evaluator.old) (L.asked listing.old) (L.given listing.old) }
    ensures first { (known : Known) → IsTableOf (E.meanings evaluator.old).program.sig known store.old (E.table evaluator.old) → IfOk result (λ first.
        AreFirst (IsSolution L.with_context (E.meanings evaluator.old).program.sig (BySort (E.meanings evaluator.old).program.sig known) (question_in store.old (L.asked listing.old)))
        (matcher_cmp (theory_at (E.meanings evaluator.old).program.sig) (L.asked listing.old).pattern)
        (option_map (matcher_in store.old) (L.given listing.old)) (map (matcher_in store.new) first.solutions.items) first.more) }
    ensures count { IfOk result (λ first. length first.solutions.items ≤ count) }
    ensures all { IfOk result (λ first. first.more ≡ true → length first.solutions.items ≡ count) }
    ensures extends { Extends store.old store.new }
    ensures fits { E.fits evaluator.new store.new }
    ensures kept { KeepsEntries (E.table evaluator.old) (E.table evaluator.new) }
    ensures table { (known : Known) → IsTableOf (E.meanings evaluator.old).program.sig known store.old (E.table evaluator.old)
        → IsTableOf (E.meanings evaluator.old).program.sig known store.new (E.table evaluator.new) }
    ensures meanings { E.meanings evaluator.new ≡ E.meanings evaluator.old }
{
    let mut solutions = Vec::new(alloc);
    for _ in 0..count {
        match evaluator.list(store, listing)? {
            Some(solution) => solutions.push(solution)?,
            None => return Ok(FirstSolutions {
                solutions,
                more: false,
            }),
        }
    }
    let more = evaluator.list(store, listing)?.is_some();
    Ok(FirstSolutions { solutions, more })
}

/// The value of a term, and the first `count` solutions of a pattern in it, by derived sorts.
pub fn solutions_in_value<E: Evaluator, W: StepWatcher, L: Lister + Drop>(
    alloc: Global,
    evaluator: &mut E,
    store: &mut Store,
    sig: &Signature,
    pattern: &Bare,
    term: TermId,
    count: usize,
    budget: &mut u64,
    watcher: &mut W,
) -> Result<(Reduced, FirstSolutions), EvalEnd>
    requires fits { E.fits evaluator.old store.old }
    requires signature { sig.now ≡ (E.meanings evaluator.old).program.sig }
    requires pattern { IsBare (terms_over sig.now) (tree_of pattern.now) }
    requires term { IsTerm sig.now store.old term.0 }
    ensures value { IfOk result (λ x. (r : ℕ) ×
        GivesUnder (λ k B. (E.meanings evaluator.old).evaluation k B (tree_at store.old term.0)) levels_of_item (E.meanings evaluator.old).limit budget.old (tree_at store.new x.0.term.0) r) }
    ensures first { IfOk result (λ x. (known : Known) × IsTableOf sig.now known store.new (E.table evaluator.new) ×
        AreFirst (IsSolution L.with_context sig.now (BySort sig.now known) (question_in store.new (asks (tree_of pattern.now) [] x.0.term)))
        (matcher_cmp (theory_at sig.now) (tree_of pattern.now)) None (map (matcher_in store.new) x.1.solutions.items) x.1.more) }
    ensures falls { budget.new ≤ budget.old }
    ensures fits { E.fits evaluator.new store.new }
{
    let value = evaluator.evaluate(store, term, budget, watcher)?;
    let mut listing = L::start(alloc, sig, pattern, &[], value.term)?;
    let first = first_derived(alloc, evaluator, store, &mut listing, count)?;
    Ok((value, first))
}
