//! A program and a store as an evaluator.
ghost use Rattle.std.specs.Prelude.{◌≡◌};
ghost use Rattle.mau_api.specs.Answers.{levels_of_item, levels_of_condition};

use crate::asking::{as_pairs, last_of};
use crate::reducer::Reducer;
use mau_api::{EvalEnd, Evaluator, Fragment, Lister, Reduced, Solution, StepWatcher};
use mau_listing::{WholeLister, has_nodes};
use mau_reduce::Natives;
use mau_sorts::SortTable;
use mau_store::Store;
use mau_terms::{NoMemory, TermId, VarId};

/// The levels of an item.
pub(crate) fn levels_of_item() -> u32
    ensures { result ≡ levels_of_item }
{
    2000
}

/// The levels of a condition that an item asks.
pub(crate) fn levels_of_condition() -> u32
    ensures { result ≡ levels_of_condition }
{
    1999
}

impl<'a, L: Lister + Drop, M: WholeLister + Drop, N: Natives + Drop> Evaluator
    for Reducer<'a, L, M, N> {
    ghost use Rattle.std.specs.Prelude.{true};
    ghost use Rattle.mau_reducer.specs.Worlds.{basis_of};
    ghost use Rattle.mau_reducer.specs.Meant.{meanings_of};
    ghost use Rattle.mau_reducer.specs.States.{IsFit};
    ghost use Rattle.mau_reducer.specs.MeantLaws.{are_meanings, derived_as_meant};
    ghost use Rattle.mau_reducer.specs.LaterStates.{fit_grown};

    ghost meanings = { λ w. meanings_of (basis_of N.operators w) };

    ghost table = { λ w. w.table };

    ghost fits = { λ w nodes. IsFit (basis_of N.operators w) nodes w.table w.begun × (L.with_context ≡ true) };

    fn evaluate<W: StepWatcher>(
        &mut self,
        store: &mut Store,
        term: TermId,
        budget: &mut u64,
        watcher: &mut W,
    ) -> Result<Reduced, EvalEnd> {
        let levels = levels_of_item();
        mau_machine::evaluate(
            store.allocator(),
            self,
            store,
            term,
            levels,
            budget,
            watcher,
        )
    }

    fn solve<W: StepWatcher>(
        &mut self,
        store: &mut Store,
        cond: &[Fragment],
        bound: &[(VarId, TermId)],
        last: Option<&[(VarId, TermId)]>,
        budget: &mut u64,
        watcher: &mut W,
    ) -> Result<Option<(Vec<(VarId, TermId)>, u64)>, EvalEnd> {
        let behind = last_of(store.allocator(), last)?;
        match self.ask(store.allocator(), cond, bound) {
            Ok(binding) => {
                let condition = self.program.equations.items().len() + 1;
                let levels = levels_of_condition();
                let solved = mau_machine::solve(
                    store.allocator(),
                    self,
                    store,
                    condition,
                    binding,
                    behind,
                    levels,
                    budget,
                    watcher,
                );
                as_pairs(store.allocator(), solved)
            }
            Err(NoMemory) => Err(EvalEnd::NoMemory),
        }
    }

    fn settle(&mut self, store: &mut Store, term: TermId) -> Result<(), EvalEnd> {
        let levels = levels_of_condition();
        mau_machine::settle(self, store, term, levels)
    }

    fn list<K: Lister>(
        &mut self,
        store: &mut Store,
        listing: &mut K,
    ) -> Result<Option<Solution>, NoMemory> {
        let found = listing.next(store, &self.program.sig, &mut self.table);
        has_nodes(store);
        found
    }

    fn sorts(&self) -> &SortTable {
        &self.table
    }

    ghost laws = { λ w. are_meanings (basis_of N.operators w) };

    ghost grows = { λ w old new x fit. (fit_grown (basis_of N.operators w) old new w.table w.begun x fit.0, fit.1) };

    ghost derived = { λ w nodes fit. derived_as_meant (basis_of N.operators w) nodes w.table fit.0.derived };
}
