//! The answer of an evaluation.
ghost use Rattle.std.specs.Prelude.{◌≡◌, true, false, IfOk, Some};
ghost use Rattle.std.specs.Option.{option_map};
ghost use Rattle.mau_poset.specs.Order.{IsPoset};
ghost use Rattle.mau_terms.specs.Bare.{IsBare};
ghost use Rattle.mau_terms.specs.View.{tree_of};
ghost use Rattle.mau_signature.specs.Signature.{terms_over};
ghost use Rattle.mau_store.specs.Node.{Extends, IsOf};
ghost use Rattle.mau_store.specs.Trees.{tree_at};
ghost use Rattle.mau_sorts.specs.SortSets;
ghost use Rattle.mau_sorts.specs.Table.{entry_at};
ghost use Rattle.mau_listing.specs.Asked.{IsTreeSettled};
ghost use Rattle.mau_api.specs.Terms.{IsTerm};
ghost use Rattle.mau_api.specs.Answers.{uses_results};
ghost use Rattle.mau_api.specs.Told.{TellsMore};
ghost use Rattle.mau_results.specs.Results.{MayAnswer};
ghost use Rattle.mau_results.specs.Kept.{answer_in, IsThere, IsSettledAnswer, TellsAnswer, TellsRead, AreByDefinition};

use mau_api::{EvalEnd, Evaluator, StepWatcher};
use mau_canon::{BuildFault, build_bare};
use mau_signature::Signature;
use mau_sorts::SortTable;
use mau_store::Store;
use mau_terms::{Bare, NoMemory, TermId};

/// A value, the sort that is shown for it, and how many applications led to it, or 2^64 - 1 where there are more.
#[derive(Clone, Copy, Debug, PartialEq, Eq)]
pub struct Evaluated {
    pub term: TermId,
    pub sort: u32,
    pub rewrites: u64,
}

/// What an evaluation with the budget of an item answers.
#[derive(Clone, Copy, Debug, PartialEq, Eq)]
pub enum Answer {
    Value(Evaluated),
    /// An application is due, and the budget is used up.
    Stopped,
    /// A level over 2,000 or a normal form that is deeper than 1,000 is needed.
    TooDeep,
    /// The successor of the greatest numeral is needed, or a native operator overflows.
    Overflow,
}

/// The sort that is shown for a term, which is settled.
pub fn shown_sort(sig: &Signature, store: &Store, sorts: &SortTable, term: TermId) -> u32
    requires there { IsOf store.now term.0 }
    requires settled { IsTreeSettled store.now sorts.now (tree_at store.now term.0) }
    ensures shown { Some result ≡ option_map SortSets.shown_sort (entry_at sorts.now term.0) }
    ensures poset { IsPoset sig.now.hierarchy }
{
    let _ = store.len();
    let _ = sig.poset().sorts();
    match sorts.sort_of(term) {
        Some(sort) => sort,
        None => unreachable!(),
    }
}

/// Evaluates a term with the budget of an item. Where the watcher wants steps, it is told of the evaluation where there is a value; else
/// what was told before stays in front.
pub fn evaluate_item<E: Evaluator, W: StepWatcher>(
    evaluator: &mut E,
    sig: &Signature,
    store: &mut Store,
    term: TermId,
    limit: u64,
    watcher: &mut W,
) -> Result<Answer, NoMemory>
    requires fits { E.fits evaluator.old store.old }
    requires signature { sig.now ≡ (E.meanings evaluator.old).program.sig }
    requires term { IsTerm (E.meanings evaluator.old).program.sig store.old term.0 }
    requires limit { limit ≡ (E.meanings evaluator.old).limit }
    ensures allowed { IfOk result (λ a. MayAnswer (E.meanings evaluator.old) (uses_results (E.meanings evaluator.old) (W.wanted watcher.old))
        (tree_at store.old term.0) (answer_in store.new a)) }
    ensures there { IfOk result (IsThere store.new) }
    ensures settled { IfOk result (IsSettledAnswer (E.meanings evaluator.old).program.sig store.new (E.table evaluator.new)) }
    ensures extends { Extends store.old store.new }
    ensures fits { E.fits evaluator.new store.new }
    ensures meanings { E.meanings evaluator.new ≡ E.meanings evaluator.old }
    ensures told { W.wanted watcher.old ≡ true → IfOk result (TellsAnswer (E.meanings evaluator.old).program (E.meanings evaluator.old).hooks store.new
        (E.table evaluator.new) (W.told watcher.old) (W.told watcher.new) term) }
    ensures before { W.wanted watcher.old ≡ true → TellsMore (W.told watcher.old) (W.told watcher.new) }
    ensures silent { W.wanted watcher.old ≡ false → W.told watcher.new ≡ W.told watcher.old }
{
    let mut budget = limit;
    match evaluator.evaluate(store, term, &mut budget, watcher) {
        Ok(value) => {
            let sort = shown_sort(sig, store, evaluator.sorts(), value.term);
            Ok(Answer::Value(Evaluated {
                term: value.term,
                sort,
                rewrites: value.rewrites,
            }))
        }
        Err(EvalEnd::Stopped) => Ok(Answer::Stopped),
        Err(EvalEnd::TooDeep) => Ok(Answer::TooDeep),
        Err(EvalEnd::Overflow) => Ok(Answer::Overflow),
        Err(EvalEnd::NoMemory) => Err(NoMemory),
    }
}

/// Evaluates a term as it was read, with the budget of an item. One whose normal form is beyond the limits ends so.
pub fn evaluate_bare<E: Evaluator, W: StepWatcher>(
    evaluator: &mut E,
    sig: &Signature,
    store: &mut Store,
    term: &Bare,
    limit: u64,
    watcher: &mut W,
) -> Result<Answer, NoMemory>
    requires fits { E.fits evaluator.old store.old }
    requires signature { sig.now ≡ (E.meanings evaluator.old).program.sig }
    requires bare { IsBare (terms_over sig.now) (tree_of term.now) }
    requires limit { limit ≡ (E.meanings evaluator.old).limit }
    requires meanings { AreByDefinition (E.meanings evaluator.old) }
    ensures allowed { IfOk result (λ a. MayAnswer (E.meanings evaluator.old) (uses_results (E.meanings evaluator.old) (W.wanted watcher.old))
        (tree_of term.now) (answer_in store.new a)) }
    ensures there { IfOk result (IsThere store.new) }
    ensures settled { IfOk result (IsSettledAnswer (E.meanings evaluator.old).program.sig store.new (E.table evaluator.new)) }
    ensures extends { Extends store.old store.new }
    ensures fits { E.fits evaluator.new store.new }
    ensures meanings { E.meanings evaluator.new ≡ E.meanings evaluator.old }
    ensures told { W.wanted watcher.old ≡ true → IfOk result (TellsRead (E.meanings evaluator.old).program (E.meanings evaluator.old).hooks store.new
        (E.table evaluator.new) (W.told watcher.old) (W.told watcher.new) (tree_of term.now)) }
    ensures before { W.wanted watcher.old ≡ true → TellsMore (W.told watcher.old) (W.told watcher.new) }
    ensures silent { W.wanted watcher.old ≡ false → W.told watcher.new ≡ W.told watcher.old }
{
    let _ = sig.operators();
    match build_bare(store, sig, term) {
        Ok(number) => evaluate_item(evaluator, sig, store, number, limit, watcher),
        Err(BuildFault::TooDeep) => Ok(Answer::TooDeep),
        Err(BuildFault::Overflow) => Ok(Answer::Overflow),
        Err(BuildFault::NoMemory) => Err(NoMemory),
    }
}
