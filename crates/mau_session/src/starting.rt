//! The value of a term from which strategies are run.
ghost use Rattle.std.specs.Prelude.{◌≡◌, IfOk, IfErr};
ghost use Rattle.mau_terms.specs.Bare.{IsBare};
ghost use Rattle.mau_terms.specs.View.{tree_of};
ghost use Rattle.mau_signature.specs.Signature.{terms_over};
ghost use Rattle.mau_store.specs.Node.{Extends};
ghost use Rattle.mau_store.specs.Trees.{tree_at};
ghost use Rattle.mau_api.specs.Terms.{IsTerm};
ghost use Rattle.mau_api.specs.Answers.{uses_results, AreSettled};
ghost use Rattle.mau_results.specs.Results.{gives_value, MayAnswer};
ghost use Rattle.mau_results.specs.Kept.{AreByDefinition};
ghost use Rattle.mau_session.specs.StrategyGains.{MayEndSo};

use mau_api::{EvalEnd, Evaluator, StepWatcher};
use mau_canon::{BuildFault, build_bare};
use mau_results::{Evaluated, shown_sort};
use mau_signature::Signature;
use mau_store::Store;
use mau_terms::{Bare, TermId};

/// Evaluates a term with the budget of an item.
fn evaluate_number<E: Evaluator, W: StepWatcher>(
    evaluator: &mut E,
    sig: &Signature,
    store: &mut Store,
    term: TermId,
    limit: u64,
    watcher: &mut W,
) -> Result<Evaluated, EvalEnd>
    requires fits { E.fits evaluator.old store.old }
    requires signature { sig.now ≡ (E.meanings evaluator.old).program.sig }
    requires term { IsTerm (E.meanings evaluator.old).program.sig store.old term.0 }
    requires limit { limit ≡ (E.meanings evaluator.old).limit }
    ensures value { IfOk result (λ x. MayAnswer (E.meanings evaluator.old) (uses_results (E.meanings evaluator.old) (W.wanted watcher.old))
        (tree_at store.old term.0) (gives_value (tree_at store.new x.term.0) x.sort x.rewrites)) }
    ensures ends { IfErr result (MayEndSo (E.meanings evaluator.old) (uses_results (E.meanings evaluator.old) (W.wanted watcher.old)) (tree_at store.old term.0)) }
    ensures term { IfOk result (λ x. IsTerm (E.meanings evaluator.old).program.sig store.new x.term.0) }
    ensures settled { IfOk result (λ x. AreSettled (E.meanings evaluator.old).program.sig store.new (E.table evaluator.new) (tree_at store.new x.term.0)) }
    ensures extends { Extends store.old store.new }
    ensures fits { E.fits evaluator.new store.new }
    ensures meanings { E.meanings evaluator.new ≡ E.meanings evaluator.old }
{
    let mut budget = limit;
    match evaluator.evaluate(store, term, &mut budget, watcher) {
        Ok(value) => {
            let sort = shown_sort(sig, store, evaluator.sorts(), value.term);
            Ok(Evaluated {
                term: value.term,
                sort,
                rewrites: value.rewrites,
            })
        }
        Err(end) => Err(end),
    }
}

/// Evaluates a term as it was read, with the budget of an item. One whose normal form is beyond the limits ends so.
pub fn evaluate_start<E: Evaluator, W: StepWatcher>(
    evaluator: &mut E,
    sig: &Signature,
    store: &mut Store,
    term: &Bare,
    limit: u64,
    watcher: &mut W,
) -> Result<Evaluated, EvalEnd>
    requires fits { E.fits evaluator.old store.old }
    requires signature { sig.now ≡ (E.meanings evaluator.old).program.sig }
    requires bare { IsBare (terms_over sig.now) (tree_of term.now) }
    requires limit { limit ≡ (E.meanings evaluator.old).limit }
    requires meanings { AreByDefinition (E.meanings evaluator.old) }
    ensures value { IfOk result (λ x. MayAnswer (E.meanings evaluator.old) (uses_results (E.meanings evaluator.old) (W.wanted watcher.old))
        (tree_of term.now) (gives_value (tree_at store.new x.term.0) x.sort x.rewrites)) }
    ensures ends { IfErr result (MayEndSo (E.meanings evaluator.old) (uses_results (E.meanings evaluator.old) (W.wanted watcher.old)) (tree_of term.now)) }
    ensures term { IfOk result (λ x. IsTerm (E.meanings evaluator.old).program.sig store.new x.term.0) }
    ensures settled { IfOk result (λ x. AreSettled (E.meanings evaluator.old).program.sig store.new (E.table evaluator.new) (tree_at store.new x.term.0)) }
    ensures fits { IfOk result (λ _. E.fits evaluator.new store.new) }
    ensures meanings { E.meanings evaluator.new ≡ E.meanings evaluator.old }
{
    let _ = sig.operators();
    match build_bare(store, sig, term) {
        Ok(number) => evaluate_number(evaluator, sig, store, number, limit, watcher),
        Err(BuildFault::TooDeep) => Err(EvalEnd::TooDeep),
        Err(BuildFault::Overflow) => Err(EvalEnd::Overflow),
        Err(BuildFault::NoMemory) => Err(EvalEnd::NoMemory),
    }
}
