//! One rule at one place: the solutions of its left side, one after another, until its condition holds.
ghost use Rattle.std.specs.Prelude.{◌≡◌, ◌≤◌, ◌<◌, length, map, true, All, slice_get, Some, IfOk, IfSome, IfNone};
ghost use Rattle.std.specs.Option.{option_map};
ghost use Rattle.mau_terms.specs.Tree.{Tree};
ghost use Rattle.mau_terms.specs.Subst.{variables};
ghost use Rattle.mau_terms.specs.View.{tree_of, variable_of};
ghost use Rattle.mau_terms.specs.declared.ids.VarId.{VarId};
ghost use Rattle.mau_store.specs.Node.{Extends};
ghost use Rattle.mau_store.specs.Trees.{tree_at};
ghost use Rattle.mau_sorts.specs.Table.{KeepsEntries};
ghost use Rattle.mau_program.specs.declared.statements.Rule.{Rule};
ghost use Rattle.mau_evaluation.specs.Evaluation.{look_up, binding_of};
ghost use Rattle.mau_evaluation.specs.RuleRuns.{Turns};
ghost use Rattle.mau_api.specs.Terms.{IsTerm};
ghost use Rattle.mau_api.specs.Programs.{rule_of, program_over};
ghost use Rattle.mau_api.specs.Variables.{statement_variables};
ghost use Rattle.mau_api.specs.Told.{TellsCondition};
ghost use Rattle.mau_api.specs.Answers.{AreSettled, IsValueOf, binding_in, mapped};
ghost use Rattle.mau_reduce.specs.Trying.{solution_in};
ghost use Rattle.mau_rules.specs.Runnable.{IsRunnable, GoesBy};
ghost use Rattle.mau_rules.specs.Found.{IsFound, IsExecutable, IsValued, KnownSolving, solving_by, found_stand, item_of, KnownSearch, rule_at};
ghost use Rattle.mau_rules.specs.Telling.{TellsBehind, TellsFound};

use mau_api::{EvalEnd, Evaluator, Lister, Program, Solution, StepWatcher};
use mau_holding::bound_by;
use mau_store::Store;
use mau_terms::{NoMemory, TermId, VarId};

/// A use of a rule: the term, the number of the rule, counted from 0, a solution of its left side, the values of its variables for
/// which its condition holds, and how many applications led to that.
#[derive(Drop)]
pub struct Found {
    pub term: TermId,
    pub number: usize,
    pub solution: Solution,
    pub bound: Vec<(VarId, TermId)>,
    pub rewrites: u64,
}

/// The first solution of a rule's condition by a solution of its left side, and how many applications led to it.
fn shown_for<E: Evaluator, W: StepWatcher>(
    program: &Program,
    store: &mut Store,
    evaluator: &mut E,
    number: usize,
    solution: &Solution,
    budget: &mut u64,
    watcher: &mut W,
) -> Result<Option<(Vec<(VarId, TermId)>, u64)>, EvalEnd>
    requires runnable { IsRunnable program.now }
    requires goes_by { GoesBy program.now (E.meanings evaluator.old) }
    requires fits { E.fits evaluator.old store.old }
    requires number { number < length program.now.rules }
    requires executable { IsExecutable program.now number }
    requires values { (rule : Rule) → slice_get program.now.rules number ≡ Some rule → IsValued program.now.sig store.old (E.table evaluator.old) (tree_of rule.left) solution.now }
    ensures known { (rule : Rule) → slice_get program.now.rules number ≡ Some rule → KnownSolving (item_of (E.meanings evaluator.old) (W.wanted watcher.old))
        (solving_by (program_over program.now (E.meanings evaluator.old).hooks) (rule_of rule).cond (binding_of (rule_of rule).left (solution_in store.old solution.now)))
        budget.old store.new (mapped (option_map (λ x. (x.0.items, x.1))) result) budget.new }
    ensures bound { IfOk result (λ o. IfSome o (λ x. All (IsValueOf program.now.sig store.new (E.table evaluator.new)) x.0.items)) }
    ensures falls { budget.new ≤ budget.old }
    ensures extends { Extends store.old store.new }
    ensures fits { E.fits evaluator.new store.new }
    ensures kept { KeepsEntries (E.table evaluator.old) (E.table evaluator.new) }
    ensures meanings { E.meanings evaluator.new ≡ E.meanings evaluator.old }
    ensures named { (rule : Rule) → slice_get program.now.rules number ≡ Some rule →
        IfOk result (λ o. IfSome o (λ x. map (λ b. variable_of b.0) x.0.items ≡ statement_variables (tree_of rule.left) rule.cond (tree_of rule.right))) }
    ensures told { W.wanted watcher.old ≡ true → (rule : Rule) → slice_get program.now.rules number ≡ Some rule → IfOk result (λ o. IfSome o (λ x.
        TellsCondition program.now (E.meanings evaluator.old).hooks store.new (E.table evaluator.new) (W.told watcher.old) (W.told watcher.new)
        (look_up (binding_in store.new x.0.items)) rule.cond x.1)) }
    ensures untold { IfOk result (λ o. IfNone o (W.told watcher.new ≡ W.told watcher.old)) }
    ensures behind { TellsBehind (W.wanted watcher.old) (W.told watcher.old) (W.told watcher.new) }
    ensures wanted { W.wanted watcher.new ≡ W.wanted watcher.old }
{
    let rule = &program.rules.items()[number];
    let bound = match bound_by(
        store.allocator(),
        &program.sig,
        &rule.left,
        &solution.values,
    ) {
        Ok(bound) => bound,
        Err(_) => return Err(EvalEnd::NoMemory),
    };
    evaluator.solve(store, rule.cond.items(), &bound, None, budget, watcher)
}

/// A rule at a term: its least solution whose values have their sorts and whose condition holds.
pub fn by_rule<E: Evaluator, L: Lister + Drop, W: StepWatcher>(
    program: &Program,
    store: &mut Store,
    evaluator: &mut E,
    number: usize,
    term: TermId,
    budget: &mut u64,
    watcher: &mut W,
) -> Result<Option<Found>, EvalEnd>
    requires contexts { L.with_context ≡ true }
    requires runnable { IsRunnable program.now }
    requires goes_by { GoesBy program.now (E.meanings evaluator.old) }
    requires fits { E.fits evaluator.old store.old }
    requires number { number < length program.now.rules }
    requires term { IsTerm program.now.sig store.old term.0 }
    requires settled { AreSettled program.now.sig store.old (E.table evaluator.old) (tree_at store.old term.0) }
    ensures known { (g : Turns) (around : Tree → Tree) (rule : Rule) → slice_get program.now.rules number ≡ Some rule →
        KnownSearch (item_of (E.meanings evaluator.old) (W.wanted watcher.old))
        (rule_at (program_over program.now (E.meanings evaluator.old).hooks) g (record { term = tree_at store.old term.0; around = around }) (number, rule_of rule))
        budget.old (found_stand program.now (program_over program.now (E.meanings evaluator.old).hooks) g (record { term = tree_at store.old term.0; around = around }) store.new)
        result budget.new }
    ensures found { IfOk result (λ o. IfSome o (IsFound program.now store.new (E.table evaluator.new) (tree_at store.old term.0))) }
    ensures term { IfOk result (λ o. IfSome o (λ x. x.term ≡ term)) }
    ensures falls { budget.new ≤ budget.old }
    ensures extends { Extends store.old store.new }
    ensures fits { E.fits evaluator.new store.new }
    ensures kept { KeepsEntries (E.table evaluator.old) (E.table evaluator.new) }
    ensures meanings { E.meanings evaluator.new ≡ E.meanings evaluator.old }
    ensures told { W.wanted watcher.old ≡ true → IfOk result (λ o. IfSome o
        (TellsFound program.now (E.meanings evaluator.old).hooks store.new (E.table evaluator.new) (W.told watcher.old) (W.told watcher.new))) }
    ensures untold { IfOk result (λ o. IfNone o (W.told watcher.new ≡ W.told watcher.old)) }
    ensures behind { TellsBehind (W.wanted watcher.old) (W.told watcher.old) (W.told watcher.new) }
    ensures wanted { W.wanted watcher.new ≡ W.wanted watcher.old }
{
    let rule = &program.rules.items()[number];
    if !rule.exec {
        return Ok(None);
    }
    let mut listing = match L::start(store.allocator(), &program.sig, &rule.left, &[], term) {
        Ok(listing) => listing,
        Err(_) => return Err(EvalEnd::NoMemory),
    };
    for _ in 0..u64::MAX {
        let solution = match evaluator.list(store, &mut listing) {
            Ok(Some(solution)) => solution,
            Ok(None) => return Ok(None),
            Err(_) => return Err(EvalEnd::NoMemory),
        };
        match shown_for(
            program, store, evaluator, number, &solution, budget, watcher,
        ) {
            Ok(Some((bound, rewrites))) => return Ok(Some(Found {
                term,
                number,
                solution,
                bound,
                rewrites,
            })),
            Ok(None) => (),
            Err(end) => return Err(end),
        }
    }
    Err(EvalEnd::NoMemory)
}
