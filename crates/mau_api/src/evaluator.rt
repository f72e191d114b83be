//! Evaluators.
ghost use Rattle.std.specs.Prelude.{◌≡◌, ◌<◌, ◌≤◌, ℕ, List, map, Bool, true, false, All, Option, Some, None, IfOk, OnOk, OnErr, IfErr, IfSome, OnSome};
ghost use Rattle.std.specs.Option.{option_map};
ghost use Rattle.mau_terms.specs.View.{variable_of};
ghost use Rattle.mau_signature.specs.Signature.{theory_at};
ghost use Rattle.mau_store.specs.Node.{Node, Extends};
ghost use Rattle.mau_store.specs.Trees.{tree_at};
ghost use Rattle.mau_sorts.specs.HasSort.{Known};
ghost use Rattle.mau_sorts.specs.Table.{Table, KeepsEntries};
ghost use Rattle.mau_listing.specs.Question.{IsSolution};
ghost use Rattle.mau_listing.specs.Next.{matcher_cmp, IsNext};
ghost use Rattle.mau_listing.specs.Asked.{question_in, matcher_in, last_after, IsTableOf, BySort, IsGiven, CanGoOn};
ghost use Rattle.mau_listing.specs.Finite.{count_left};
ghost use Rattle.mau_evaluation.specs.Evaluation.{look_up};
ghost use Rattle.mau_api.specs.Programs.{fragment_of};
ghost use Rattle.mau_api.specs.Terms.{IsTerm};
ghost use Rattle.mau_api.specs.Told.{TellsEvaluation, TellsCondition, TellsMore};
ghost use Rattle.mau_api.specs.Meanings.{Meanings, AreMeanings};
ghost use Rattle.mau_api.specs.Answers.{uses_results, IsExact, IsAllowed, LeavesEnough, levels_of_item, binding_in, IsAskable, IsValueOf, IsSolutionOf, solving_from, levels_of_condition, IsSolvedExactly, MaySolve, IsDerivedTable, AreSettled, MayEnd, mapped};

use crate::{EvalEnd, Reduced, StepWatcher};
use mau_listing::{Lister, Solution};
use mau_program::Fragment;
use mau_sorts::SortTable;
use mau_store::Store;
use mau_terms::{NoMemory, TermId, VarId};

type Binding = (VarId, TermId);

/// Evaluates terms, solves conditions and derives sorts by one program and one table of native operators.
pub trait Evaluator {
    /// What it goes by. No call changes it.
    ghost meanings: { Self → Meanings };

    /// The sorts that it has settled.
    ghost table: { Self → Table };

    /// What it keeps is right over the nodes of a store.
    ghost fits: { Self → List Node → Type 0 };

    /// The value of a term, by the levels of an item. Where the watcher wants steps or no results are remembered, the answer is that for
    /// just the budget given. The budget never rises, and at least what the definition leaves is left. After a value it, what is below it
    /// and the identities are settled.
    ///
    /// Where the watcher wants steps, it is told of the evaluation where there is a value; else what was told before stays in front.
    fn evaluate<W: StepWatcher>(
        &mut self,
        store: &mut Store,
        term: TermId,
        budget: &mut u64,
        watcher: &mut W,
    ) -> Result<Reduced, EvalEnd>
        requires fits { fits self.old store.old }
        requires term { IsTerm (meanings self.old).program.sig store.old term.0 }
        ensures allowed { IsAllowed (meanings self.old) (uses_results (meanings self.old) (W.wanted watcher.old)) (tree_at store.old term.0) budget.old store.new result }
        ensures exact { uses_results (meanings self.old) (W.wanted watcher.old) ≡ false →
            IsExact (meanings self.old) (tree_at store.old term.0) budget.old store.new result budget.new }
        ensures left { OnOk result (LeavesEnough ((meanings self.old).evaluation levels_of_item (meanings self.old).limit (tree_at store.old term.0) budget.old) budget.new) }
        ensures falls { budget.new ≤ budget.old }
        ensures term { IfOk result (λ x. IsTerm (meanings self.old).program.sig store.new x.term.0) }
        ensures settled { IfOk result (λ x. AreSettled (meanings self.old).program.sig store.new (table self.new) (tree_at store.new x.term.0)) }
        ensures extends { Extends store.old store.new }
        ensures fits { fits self.new store.new }
        ensures kept { KeepsEntries (table self.old) (table self.new) }
        ensures meanings { meanings self.new ≡ meanings self.old }
        ensures told { W.wanted watcher.old ≡ true → IfOk result (λ x.
            TellsEvaluation (meanings self.old).program (meanings self.old).hooks store.new (table self.new) (W.told watcher.old) (W.told watcher.new) term x.term x.rewrites) }
        ensures before { W.wanted watcher.old ≡ true → TellsMore (W.told watcher.old) (W.told watcher.new) }
        ensures silent { W.wanted watcher.old ≡ false → W.told watcher.new ≡ W.told watcher.old }
        ensures wanted { W.wanted watcher.new ≡ W.wanted watcher.old };

    /// The first solution of a condition, or the first one behind `last`, which is a solution of it, and how many applications led to
    /// it. The condition binds its variables in order, behind those that have values. Terms are evaluated one level deeper than an item. `None` comes only where there is none, and always where there is none
    /// and no end is met.
    ///
    /// Where the watcher wants steps, it is told of the evaluations by which the condition holds, and of nothing where it does not; where
    /// there is an end what was told before stays in front.
    fn solve<W: StepWatcher>(
        &mut self,
        store: &mut Store,
        cond: &[Fragment],
        bound: &[Binding],
        last: Option<&[Binding]>,
        budget: &mut u64,
        watcher: &mut W,
    ) -> Result<Option<(Vec<Binding>, u64)>, EvalEnd>
        requires fits { fits self.old store.old }
        requires condition { IsAskable (meanings self.old).program.sig (map (λ b. variable_of b.0) bound.now) cond.now }
        requires bound { All (IsValueOf (meanings self.old).program.sig store.old (table self.old)) bound.now }
        requires last { IfSome last (λ x. All (IsValueOf (meanings self.old).program.sig store.old (table self.old)) x.now) }
        requires solution { IfSome last (λ x. IsSolutionOf (meanings self.old) (map fragment_of cond.now) (binding_in store.old bound.now) (binding_in store.old x.now)) }
        ensures allowed { MaySolve (meanings self.old)
            (solving_from (meanings self.old) (option_map (λ x. binding_in store.old x.now) last.entry) (map fragment_of cond.now) (binding_in store.old bound.now))
            budget.old store.new (mapped (option_map (λ x. (x.0.items, x.1))) result) }
        ensures exact { uses_results (meanings self.old) (W.wanted watcher.old) ≡ false → IsSolvedExactly (meanings self.old)
            (solving_from (meanings self.old) (option_map (λ x. binding_in store.old x.now) last.entry) (map fragment_of cond.now) (binding_in store.old bound.now))
            budget.old store.new (mapped (option_map (λ x. (x.0.items, x.1))) result) budget.new }
        ensures left { OnOk result (LeavesEnough (solving_from (meanings self.old) (option_map (λ x. binding_in store.old x.now) last.entry) (map fragment_of cond.now) (binding_in store.old bound.now)
            levels_of_condition (meanings self.old).limit budget.old) budget.new) }
        ensures falls { budget.new ≤ budget.old }
        ensures values { IfOk result (λ answer. IfSome answer (λ x. All (IsValueOf (meanings self.old).program.sig store.new (table self.new)) x.0.items)) }
        ensures extends { Extends store.old store.new }
        ensures fits { fits self.new store.new }
        ensures kept { KeepsEntries (table self.old) (table self.new) }
        ensures meanings { meanings self.new ≡ meanings self.old }
        ensures told { W.wanted watcher.old ≡ true → IfOk result (λ answer. IfSome answer (λ x.
            TellsCondition (meanings self.old).program (meanings self.old).hooks store.new (table self.new) (W.told watcher.old) (W.told watcher.new)
            (look_up (binding_in store.new x.0.items)) cond.now x.1)) }
        ensures untold { W.wanted watcher.old ≡ true → result ≡ Ok None → W.told watcher.new ≡ W.told watcher.old }
        ensures before { W.wanted watcher.old ≡ true → TellsMore (W.told watcher.old) (W.told watcher.new) }
        ensures silent { W.wanted watcher.old ≡ false → W.told watcher.new ≡ W.told watcher.old }
        ensures wanted { W.wanted watcher.new ≡ W.wanted watcher.old };

    /// Derives the sorts of a term, of the terms below it and of the identities.
    fn settle(&mut self, store: &mut Store, term: TermId) -> Result<(), EvalEnd>
        requires fits { fits self.old store.old }
        requires term { IsTerm (meanings self.old).program.sig store.old term.0 }
        ensures settled { OnOk result (AreSettled (meanings self.old).program.sig store.new (table self.new) (tree_at store.old term.0)) }
        ensures ends { IfErr result (MayEnd (meanings self.old) (tree_at store.old term.0)) }
        ensures extends { Extends store.old store.new }
        ensures fits { fits self.new store.new }
        ensures kept { KeepsEntries (table self.old) (table self.new) }
        ensures meanings { meanings self.new ≡ meanings self.old };

    /// The next solution of a listing, by the sorts that are settled.
    fn list<L: Lister>(
        &mut self,
        store: &mut Store,
        listing: &mut L,
    ) -> Result<Option<Solution>, NoMemory>
        requires fits { fits self.old store.old }
        requires signature { L.is_for listing.old (meanings self.old).program.sig }
        requires ready { CanGoOn L.with_context (meanings self.old).program.sig store.old (table self.old) (L.asked listing.old) (L.given listing.old) }
        ensures next { (known : Known) → IsTableOf (meanings self.old).program.sig known store.old (table self.old) → IfOk result (λ answer.
            IsNext (IsSolution L.with_context (meanings self.old).program.sig (BySort (meanings self.old).program.sig known) (question_in store.old (L.asked listing.old)))
            (matcher_cmp (theory_at (meanings self.old).program.sig) (L.asked listing.old).pattern)
            (option_map (matcher_in store.old) (L.given listing.old)) (option_map (matcher_in store.new) answer)) }
        ensures solves { IfOk result (λ answer. IfSome answer (IsGiven L.with_context (meanings self.old).program.sig store.new (table self.new) (L.asked listing.old))) }
        ensures given { IfOk result (λ answer. L.given listing.new ≡ last_after (L.given listing.old) answer) }
        ensures ends { IfOk result (λ answer. OnSome answer
            (count_left (meanings self.old).program.sig store.new (L.asked listing.new) (L.given listing.new)
            < count_left (meanings self.old).program.sig store.old (L.asked listing.old) (L.given listing.old))) }
        ensures unchanged { OnErr result (L.given listing.new ≡ L.given listing.old) }
        ensures asked { L.asked listing.new ≡ L.asked listing.old }
        ensures signature { L.is_for listing.new (meanings self.old).program.sig }
        ensures extends { Extends store.old store.new }
        ensures fits { fits self.new store.new }
        ensures kept { KeepsEntries (table self.old) (table self.new) }
        ensures table { (known : Known) → IsTableOf (meanings self.old).program.sig known store.old (table self.old) → IsTableOf (meanings self.old).program.sig known store.new (table self.new) }
        ensures meanings { meanings self.new ≡ meanings self.old };

    /// The sorts that are settled.
    fn sorts(&self) -> &SortTable
        ensures value { result.now ≡ table self.now };

    /// The laws of its meanings.
    ghost laws: { (e : Self) → AreMeanings (meanings e) };

    /// What is kept stays right in a store that grows.
    ghost grows: { (e : Self) (old new : List Node) → Extends old new → fits e old → fits e new };

    /// The sorts that are settled are the derived ones.
    ghost derived: { (e : Self) (nodes : List Node) → fits e nodes → IsDerivedTable (meanings e) nodes (table e) };
}
