//! Runs of rewrite and frewrite.
ghost use Rattle.std.specs.Prelude.{◌≡◌, ℕ, List, length, suc, slice_index, true, false, IfOk};
ghost use Rattle.mau_store.specs.Node.{Node, Extends};
ghost use Rattle.mau_store.specs.Trees.{tree_at};
ghost use Rattle.mau_sorts.specs.Table.{KeepsEntries};
ghost use Rattle.mau_evaluation.specs.RuleRuns.{is_out, one_less};
ghost use Rattle.mau_api.specs.Terms.{IsTerm};
ghost use Rattle.mau_api.specs.Told.{TellsMore};
ghost use Rattle.mau_api.specs.Answers.{AreSettled, uses_results};
ghost use Rattle.mau_rules.specs.Runnable.{IsRunnable, GoesBy};
ghost use Rattle.mau_rules.specs.Runs.{stand_of, begins_with, IsRunOf, IsRunExactly, MayRun, rewriting_by, frewriting_by};
ghost use Rattle.mau_rules.specs.Telling.{TellsRules};

use crate::by_top::RulesByTop;
use crate::passes::pass_on;
use crate::round::round;
use crate::tops::Tally;
use mau_api::{EvalEnd, Evaluator, Lister, Program, Reduced, StepWatcher};
use mau_store::Store;
use mau_terms::{NoMemory, TermId};
use std::alloc::Global;

/// How a run ends that was not broken off.
#[derive(Clone, Copy, Debug, PartialEq, Eq)]
pub enum RuleEnd {
    /// No rule applies at any place.
    Normal,
    /// As many rules were applied as were asked for.
    Bound,
}

/// A run of rules: its term, and for each operator, by its number, how many rules stand before the one that is tried first at it. It
/// borrows no program.
#[derive(Drop)]
pub struct RuleRun {
    pub(crate) term: TermId,
    pub(crate) turns: Vec<usize>,
}

/// Whether no rewrite may be made.
pub(crate) fn is_out(bound: Option<u64>) -> bool
    ensures { result ≡ is_out bound }
{
    match bound {
        Some(count) => count == 0,
        None => false,
    }
}

/// One rewrite less.
pub(crate) fn one_less(bound: Option<u64>) -> Option<u64>
    ensures { result ≡ one_less bound }
{
    match bound {
        Some(count) => Some(count.saturating_sub(1)),
        None => None,
    }
}

/// At each operator the rules are tried from the first on.
fn first_turns(alloc: Global, operators: u32) -> Result<Vec<usize>, NoMemory>
    ensures first { (f : ℕ) → IfOk result (λ turns. slice_index turns.items f ≡ 0) }
    ensures as_many { IfOk result (λ turns. length turns.items ≡ suc operators) }
{
    let mut turns = Vec::new(alloc);
    turns.push(0)?;
    for _ in 0..operators {
        turns.push(0)?;
    }
    Ok(turns)
}

impl RuleRun {
    /// A run from a term on, at which no rule was applied.
    pub fn start(alloc: Global, program: &Program, term: TermId) -> Result<RuleRun, NoMemory>
        ensures stand { (nodes : List Node) → IfOk result (λ run. stand_of nodes run ≡ begins_with (tree_at nodes term.0)) }
        ensures run { (nodes : List Node) → IsTerm program.now.sig nodes term.0 → IfOk result (IsRunOf program.now nodes) }
    {
        let turns = first_turns(alloc, program.sig.operators())?;
        Ok(RuleRun { term, turns })
    }

    /// The term that it has reached.
    pub fn term(&self) -> TermId
        ensures { result ≡ self.now.term }
    {
        self.term
    }

    /// Rewrites the term, by as many rules as are asked for or by any number of them: it is evaluated, and then again and again a rule
    /// is applied at the first place at which one applies, and the whole term is evaluated. What the run has at its end is what it
    /// goes on with.
    pub fn rewrite<E: Evaluator, L: Lister + Drop, W: StepWatcher>(
        &mut self,
        program: &Program,
        store: &mut Store,
        evaluator: &mut E,
        bound: Option<u64>,
        budget: u64,
        watcher: &mut W,
    ) -> Result<(RuleEnd, Reduced), EvalEnd>
        requires contexts { L.with_context ≡ true }
        requires runnable { IsRunnable program.now }
        requires goes_by { GoesBy program.now (E.meanings evaluator.old) }
        requires fits { E.fits evaluator.old store.old }
        requires run { IsRunOf program.now store.old self.old }
        ensures exact { uses_results (E.meanings evaluator.old) (W.wanted watcher.old) ≡ false →
            IsRunExactly (E.meanings evaluator.old) (rewriting_by program.now (E.meanings evaluator.old) bound (stand_of store.old self.old)) budget store.new self.new result }
        ensures allowed { MayRun (E.meanings evaluator.old) (rewriting_by program.now (E.meanings evaluator.old) bound (stand_of store.old self.old)) budget store.new self.new result }
        ensures term { IfOk result (λ x. x.1.term ≡ self.new.term) }
        ensures settled { IfOk result (λ x. AreSettled program.now.sig store.new (E.table evaluator.new) (tree_at store.new x.1.term.0)) }
        ensures run { IsRunOf program.now store.new self.new }
        ensures extends { Extends store.old store.new }
        ensures fits { E.fits evaluator.new store.new }
        ensures kept { KeepsEntries (E.table evaluator.old) (E.table evaluator.new) }
        ensures meanings { E.meanings evaluator.new ≡ E.meanings evaluator.old }
        ensures told { W.wanted watcher.old ≡ true → IfOk result (λ x.
            TellsRules program.now (E.meanings evaluator.old).hooks store.new (E.table evaluator.new) (W.told watcher.old) (W.told watcher.new)
            (tree_at store.old self.old.term.0) (tree_at store.new self.new.term.0) x.1.rewrites) }
        ensures before { W.wanted watcher.old ≡ true → TellsMore (W.told watcher.old) (W.told watcher.new) }
        ensures silent { W.wanted watcher.old ≡ false → W.told watcher.new ≡ W.told watcher.old }
        ensures wanted { W.wanted watcher.new ≡ W.wanted watcher.old }
    {
        let mut left = budget;
        let value = match evaluator.evaluate(store, self.term, &mut left, watcher) {
            Ok(value) => value,
            Err(end) => return Err(end),
        };
        let mut by_top = match RulesByTop::new(store.allocator(), program) {
            Ok(by_top) => by_top,
            Err(_) => return Err(EvalEnd::NoMemory),
        };
        self.term = value.term;
        let mut rewrites = value.rewrites;
        let mut more = bound;
        for _ in 0..u64::MAX {
            let term = self.term;
            if is_out(more) {
                return Ok((RuleEnd::Bound, Reduced { term, rewrites }));
            }
            match round::<E, L, W>(
                self,
                program,
                store,
                evaluator,
                &mut by_top,
                &mut left,
                watcher,
            ) {
                Ok(Some(count)) => rewrites = rewrites.saturating_add(count),
                Ok(None) => return Ok((RuleEnd::Normal, Reduced { term, rewrites })),
                Err(end) => return Err(end),
            }
            more = one_less(more);
        }
        Err(EvalEnd::NoMemory)
    }

    /// Rewrites the term fairly, by as many rules as are asked for or by any number of them: pass after pass, until one makes no
    /// rewrite. A pass goes over the arguments of a term that are not frozen, from left to right; the term is built again and evaluated,
    /// and then up to `gas` rewrites are made at its top, each followed by evaluation. Once as many were made as were asked for, all
    /// other places are left as they are, and the whole term is evaluated. The term is not evaluated before the first pass.
    pub fn frewrite<E: Evaluator, L: Lister + Drop, W: StepWatcher>(
        &mut self,
        program: &Program,
        store: &mut Store,
        evaluator: &mut E,
        bound: Option<u64>,
        gas: u64,
        budget: u64,
        watcher: &mut W,
    ) -> Result<(RuleEnd, Reduced), EvalEnd>
        requires contexts { L.with_context ≡ true }
        requires runnable { IsRunnable program.now }
        requires goes_by { GoesBy program.now (E.meanings evaluator.old) }
        requires fits { E.fits evaluator.old store.old }
        requires run { IsRunOf program.now store.old self.old }
        ensures exact { uses_results (E.meanings evaluator.old) (W.wanted watcher.old) ≡ false →
            IsRunExactly (E.meanings evaluator.old) (frewriting_by program.now (E.meanings evaluator.old) gas bound (stand_of store.old self.old)) budget store.new self.new result }
        ensures allowed { MayRun (E.meanings evaluator.old) (frewriting_by program.now (E.meanings evaluator.old) gas bound (stand_of store.old self.old)) budget store.new self.new result }
        ensures term { IfOk result (λ x. x.1.term ≡ self.new.term) }
        ensures settled { IfOk result (λ x. AreSettled program.now.sig store.new (E.table evaluator.new) (tree_at store.new x.1.term.0)) }
        ensures run { IsRunOf program.now store.new self.new }
        ensures extends { Extends store.old store.new }
        ensures fits { E.fits evaluator.new store.new }
        ensures kept { KeepsEntries (E.table evaluator.old) (E.table evaluator.new) }
        ensures meanings { E.meanings evaluator.new ≡ E.meanings evaluator.old }
        ensures told { W.wanted watcher.old ≡ true → IfOk result (λ x.
            TellsRules program.now (E.meanings evaluator.old).hooks store.new (E.table evaluator.new) (W.told watcher.old) (W.told watcher.new)
            (tree_at store.old self.old.term.0) (tree_at store.new self.new.term.0) x.1.rewrites) }
        ensures before { W.wanted watcher.old ≡ true → TellsMore (W.told watcher.old) (W.told watcher.new) }
        ensures silent { W.wanted watcher.old ≡ false → W.told watcher.new ≡ W.told watcher.old }
        ensures wanted { W.wanted watcher.new ≡ W.wanted watcher.old }
    {
        let by_top = match RulesByTop::new(store.allocator(), program) {
            Ok(by_top) => by_top,
            Err(_) => return Err(EvalEnd::NoMemory),
        };
        let mut left = budget;
        let mut tally = Tally {
            gas,
            left: bound,
            made: false,
            rewrites: 0,
            by_top,
        };
        for _ in 0..u64::MAX {
            match pass_on::<E, L, W>(
                self, program, store, evaluator, &mut tally, &mut left, watcher,
            ) {
                Ok(Some(end)) => {
                    let term = self.term;
                    let rewrites = tally.rewrites;
                    return Ok((end, Reduced { term, rewrites }));
                }
                Ok(None) => (),
                Err(end) => return Err(end),
            }
        }
        Err(EvalEnd::NoMemory)
    }
}
