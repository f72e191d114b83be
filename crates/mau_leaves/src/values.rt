//! The values of terms under what is bound, evaluated in turn, each with the whole budget of an item.
ghost use Rattle.std.specs.Prelude.{ℕ, ◌≡◌, ◌≤◌, map, length, All, IfOk, OnOk};
ghost use Rattle.mau_terms.specs.Tree.{Tree};
ghost use Rattle.mau_terms.specs.Bare.{IsBare};
ghost use Rattle.mau_terms.specs.Subst.{instance as instance_of};
ghost use Rattle.mau_terms.specs.View.{tree_of};
ghost use Rattle.mau_signature.specs.Signature.{terms_over};
ghost use Rattle.mau_store.specs.Node.{Extends};
ghost use Rattle.mau_store.specs.Trees.{tree_at, trees_at};
ghost use Rattle.mau_store.specs.View.{numbers};
ghost use Rattle.mau_sorts.specs.Table.{KeepsEntries};
ghost use Rattle.mau_evaluation.specs.Evaluation.{look_up};
ghost use Rattle.mau_api.specs.Terms.{IsTerm};
ghost use Rattle.mau_api.specs.Programs.{program_over};
ghost use Rattle.mau_api.specs.Answers.{binding_in, IsValueOf, AreSettled};
ghost use Rattle.mau_rules.specs.Runnable.{IsRunnable, GoesBy};
ghost use Rattle.mau_leaves.specs.Answers.{GivesValue};
ghost use Rattle.mau_leaves.specs.InTurn.{IsEvaluated, AreNextValues};

use crate::value::parted;
use mau_api::{EvalEnd, Evaluator, Program, Unwatched};
use mau_program::Assign;
use mau_reduce::instance;
use mau_store::Store;
use mau_terms::{Bare, TermId, VarId};

/// What has a term.
pub trait HasTerm {
    /// The tree of its term.
    ghost tree_in: { Self → Tree };

    /// Its term.
    fn term(&self) -> &Bare
        ensures { tree_of result.now ≡ tree_in self.now };
}

impl HasTerm for Bare {
    ghost tree_in = { tree_of };

    fn term(&self) -> &Bare {
        self
    }
}

impl HasTerm for Assign {
    ghost tree_in = { λ a. tree_of a.value };

    fn term(&self) -> &Bare {
        &self.value
    }
}

/// The value of an instance of a term, evaluated with the whole budget of an item.
pub(crate) fn value_under<E: Evaluator>(
    program: &Program,
    store: &mut Store,
    evaluator: &mut E,
    term: &Bare,
    bound: &[(VarId, TermId)],
    limit: u64,
) -> Result<TermId, EvalEnd>
    requires runnable { IsRunnable program.now }
    requires goes_by { GoesBy program.now (E.meanings evaluator.old) }
    requires fits { E.fits evaluator.old store.old }
    requires limit { limit ≡ (E.meanings evaluator.old).limit }
    requires term { IsBare (terms_over program.now.sig) (tree_of term.now) }
    requires bound { All (IsValueOf program.now.sig store.old (E.table evaluator.old)) bound.now }
    ensures valued { GivesValue (program_over program.now (E.meanings evaluator.old).hooks) limit
        (instance_of (look_up (binding_in store.old bound.now)) (tree_of term.now)) store.new result }
    ensures evaluated { IfOk result (IsEvaluated program.now.sig store.new (E.table evaluator.new)) }
    ensures extends { Extends store.old store.new }
    ensures fits { E.fits evaluator.new store.new }
    ensures kept { KeepsEntries (E.table evaluator.old) (E.table evaluator.new) }
    ensures meanings { E.meanings evaluator.new ≡ E.meanings evaluator.old }
{
    let binding = match parted(store.allocator(), bound) {
        Ok(binding) => binding,
        Err(_) => return Err(EvalEnd::NoMemory),
    };
    let whole = match instance(store, &program.sig, term, &binding) {
        Ok(whole) => whole,
        Err(end) => return Err(end),
    };
    let mut budget = limit;
    match evaluator.evaluate(store, whole, &mut budget, &mut Unwatched) {
        Ok(value) => Ok(value.term),
        Err(end) => Err(end),
    }
}

/// Evaluates the instances of some terms in turn. `done` has the values of the first ones; it goes on behind them, and after an end they
/// stay.
pub(crate) fn next_values<E: Evaluator, T: HasTerm>(
    program: &Program,
    store: &mut Store,
    evaluator: &mut E,
    terms: &[T],
    bound: &[(VarId, TermId)],
    done: &mut Vec<TermId>,
    limit: u64,
) -> Result<(), EvalEnd>
    requires runnable { IsRunnable program.now }
    requires goes_by { GoesBy program.now (E.meanings evaluator.old) }
    requires fits { E.fits evaluator.old store.old }
    requires limit { limit ≡ (E.meanings evaluator.old).limit }
    requires terms { All (IsBare (terms_over program.now.sig)) (map T.tree_in terms.now) }
    requires bound { All (IsValueOf program.now.sig store.old (E.table evaluator.old)) bound.now }
    requires done { All (IsEvaluated program.now.sig store.old (E.table evaluator.old)) done.old.items }
    requires count { length done.old.items ≤ length terms.now }
    ensures values { AreNextValues (program_over program.now (E.meanings evaluator.old).hooks) limit
        (map (instance_of (look_up (binding_in store.old bound.now))) (map T.tree_in terms.now))
        (trees_at store.old (numbers done.old.items)) (trees_at store.new (numbers done.new.items)) result }
    ensures done { All (IsEvaluated program.now.sig store.new (E.table evaluator.new)) done.new.items }
    ensures count { length done.new.items ≤ length terms.now }
    ensures all { OnOk result (length done.new.items ≡ length terms.now) }
    ensures extends { Extends store.old store.new }
    ensures fits { E.fits evaluator.new store.new }
    ensures kept { KeepsEntries (E.table evaluator.old) (E.table evaluator.new) }
    ensures meanings { E.meanings evaluator.new ≡ E.meanings evaluator.old }
{
    for index in done.len()..terms.len() {
        let value = match value_under(
            program,
            store,
            evaluator,
            terms[index].term(),
            bound,
            limit,
        ) {
            Ok(value) => value,
            Err(end) => return Err(end),
        };
        match done.push(value) {
            Ok(()) => (),
            Err(_) => return Err(EvalEnd::NoMemory),
        }
    }
    Ok(())
}
