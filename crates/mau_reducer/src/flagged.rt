//! An evaluator that flags the terms that it has found to be reduced.
ghost use Rattle.std.specs.Prelude.{◌≡◌, List, All, true, false, IfOk};
ghost use Rattle.mau_store.specs.Node.{Node};
ghost use Rattle.mau_program.specs.LawfulPrograms.{IsLawfulProgram};
ghost use Rattle.mau_api.specs.Meanings.{meanings_by};
ghost use Rattle.mau_built_ins.specs.NativeNumerals.{GivesNumerals};

use crate::asking::{as_pairs, last_of};
use crate::evaluating::{levels_of_condition, levels_of_item};
use crate::reducer::Reducer;
use mau_api::{EvalEnd, Evaluator, Fragment, Lister, Program, Reduced, Solution, StepWatcher};
use mau_listing::WholeLister;
use mau_reduce::Natives;
use mau_resting::Resting;
use mau_sorts::SortTable;
use mau_store::Store;
use mau_terms::{NoMemory, TermId, VarId};
use std::alloc::Global;

/// An evaluator as `Reducer` is, which flags the terms that it has found to be reduced, and doesn't evaluate them again. (So are the nodes
/// of Maude's terms flagged: M. Clavel et al., "All About Maude", LNCS 4350, 2007.)
#[derive(Drop)]
pub struct Flagged<'a, L, M, N> {
    pub(crate) world: Resting<Reducer<'a, L, M, N>>,
}

impl<'a, L: Lister + Drop, M: WholeLister + Drop, N: Natives + Drop> Flagged<'a, L, M, N> {
    /// An evaluator by a program and its native operators, before anything is settled or flagged. `limit` is the budget of an item. It
    /// remembers no results yet, whatever `remember` says.
    pub fn new(
        alloc: Global,
        program: &'a Program,
        natives: N,
        limit: u64,
        remember: bool,
    ) -> Result<Flagged<'a, L, M, N>, NoMemory>
        requires lawful { IsLawfulProgram program.now }
        requires numerals { All GivesNumerals (N.operators natives) }
        requires contexts { L.with_context ≡ true }
        ensures meanings { IfOk result (λ e. ⟦<Flagged<'a, L, M, N> as Evaluator>⟧.meanings e
            ≡ meanings_by program.now (N.operators natives) limit false) }
        ensures fits { (nodes : List Node) → IfOk result (λ e. ⟦<Flagged<'a, L, M, N> as Evaluator>⟧.fits e nodes) }
    {
        let reducer = Reducer::new(alloc, program, natives, limit, remember)?;
        Ok(Flagged {
            world: Resting::new(alloc, reducer),
        })
    }
}

impl<'a, L: Lister + Drop, M: WholeLister + Drop, N: Natives + Drop> Evaluator
    for Flagged<'a, L, M, N> {
    ghost use Rattle.std.specs.Prelude.{true};
    ghost use Rattle.mau_resting.specs.Rests.{AreResting};
    ghost use Rattle.mau_reducer.specs.Worlds.{basis_of};
    ghost use Rattle.mau_reducer.specs.Handles.{words_of};
    ghost use Rattle.mau_reducer.specs.Meant.{meanings_of};
    ghost use Rattle.mau_reducer.specs.States.{IsFit};
    ghost use Rattle.mau_reducer.specs.MeantLaws.{are_meanings, derived_as_meant};
    ghost use Rattle.mau_reducer.specs.LaterStates.{fit_grown};
    ghost use Rattle.mau_reducer.specs.Flags.{flags_grown};

    ghost meanings = { λ w. meanings_of (basis_of N.operators w.world.world) };

    ghost table = { λ w. w.world.world.table };

    ghost fits = { λ w nodes. IsFit (basis_of N.operators w.world.world) nodes w.world.world.table w.world.world.begun × (L.with_context ≡ true)
        × AreResting (words_of L.with_context L.asked L.given L.is_for M.asked M.given M.is_for (basis_of N.operators w.world.world) nodes w.world.world.table)
        w.world.levels.items };

    fn evaluate<W: StepWatcher>(
        &mut self,
        store: &mut Store,
        term: TermId,
        budget: &mut u64,
        watcher: &mut W,
    ) -> Result<Reduced, EvalEnd> {
        let levels = levels_of_item();
        mau_resting::evaluate(
            store.allocator(),
            &mut self.world,
            store,
            term,
            levels,
            budget,
            watcher,
        )
    }

    fn solve<W: StepWatcher>(
        &mut self,
        store: &mut Store,
        cond: &[Fragment],
        bound: &[(VarId, TermId)],
        last: Option<&[(VarId, TermId)]>,
        budget: &mut u64,
        watcher: &mut W,
    ) -> Result<Option<(Vec<(VarId, TermId)>, u64)>, EvalEnd> {
        let behind = last_of(store.allocator(), last)?;
        match self.world.world.ask(store.allocator(), cond, bound) {
            Ok(binding) => {
                let condition = self.world.world.program.equations.items().len() + 1;
                let levels = levels_of_condition();
                let solved = mau_resting::solve(
                    store.allocator(),
                    &mut self.world,
                    store,
                    condition,
                    binding,
                    behind,
                    levels,
                    budget,
                    watcher,
                );
                as_pairs(store.allocator(), solved)
            }
            Err(NoMemory) => Err(EvalEnd::NoMemory),
        }
    }

    fn settle(&mut self, store: &mut Store, term: TermId) -> Result<(), EvalEnd> {
        let levels = levels_of_condition();
        mau_resting::settle(&mut self.world, store, term, levels)
    }

    fn list<K: Lister>(
        &mut self,
        store: &mut Store,
        listing: &mut K,
    ) -> Result<Option<Solution>, NoMemory> {
        self.world.world.list(store, listing)
    }

    fn sorts(&self) -> &SortTable {
        self.world.world.sorts()
    }

    ghost laws = { λ w. are_meanings (basis_of N.operators w.world.world) };

    ghost grows = { λ w old new x fit. (
      fit_grown (basis_of N.operators w.world.world) old new w.world.world.table w.world.world.begun x fit.0,
      fit.1,
      flags_grown L.with_context L.asked L.given L.is_for M.asked M.given M.is_for (basis_of N.operators w.world.world) old new w.world.world.table w.world.world.begun x fit.0 w.world.levels.items fit.2,
    ) };

    ghost derived = { λ w nodes fit. derived_as_meant (basis_of N.operators w.world.world) nodes w.world.world.table fit.0.derived };
}
