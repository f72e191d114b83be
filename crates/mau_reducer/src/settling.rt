//! The settling of the sorts of a term, as a world begins it and goes on with it.
ghost use Rattle.std.specs.Prelude.{◌≡◌, true, IfOk, IfSome, IfNone};
ghost use Rattle.mau_store.specs.Trees.{tree_at};
ghost use Rattle.mau_reduce.specs.Bindings.{bound_in};
ghost use Rattle.mau_machine.specs.Words.{EndsWhere, settle_on, solve_on};
ghost use Rattle.mau_reducer.specs.Handles.{rules_of, way_of, IsKnownTerm, IsKnownValue, IsKnownBinding, IsKnownSettling, IsKnownWay, IsKnownAsking};

use crate::asking::values_of;
use crate::at_once::{Sorting, settle_at_once};
use crate::fragments::number_of_member;
use crate::reducer::Reducer;
use mau_api::Lister;
use mau_listing::{WholeLister, has_nodes};
use mau_reduce::{Binding, Natives};
use mau_settling::{Settling, begin_settling, settle_term};
use mau_store::Store;
use mau_terms::{NoMemory, TermId};

impl<'a, L: Lister + Drop, M: WholeLister + Drop, N: Natives + Drop> Reducer<'a, L, M, N> {
    ghost use Rattle.mau_reducer.specs.Worlds.{basis_of};
    ghost use Rattle.mau_reducer.specs.States.{IsFit, ComesOf};

    /// How the sorts of a term are settled. Where the identities are settled, this is done at once if nothing has to be asked.
    pub(crate) fn begin_sorting(
        &mut self,
        store: &mut Store,
        term: TermId,
    ) -> Result<Sorting, NoMemory>
        requires fit { IsFit (basis_of N.operators self.old) store.old self.old.table self.old.begun }
        requires term { IsKnownTerm self.old.program.now.sig store.old term.0 }
        ensures known { IfOk result (λ d. IsKnownWay (basis_of N.operators self.new) store.new self.new.table term.0 (way_of d)) }
        ensures grows { ComesOf (basis_of N.operators self.old) (basis_of N.operators self.new) store.old store.new self.old.table self.new.table
            self.new.begun }
    {
        if !self.begun {
            let settling = begin_settling(store, self.program, term)?;
            let way = Box::new(store.allocator(), settling)?;
            return Ok(Sorting { way: Some(way) });
        }
        let done = settle_at_once::<M>(store, self.program, &mut self.table, term);
        has_nodes(store);
        if done? {
            return Ok(Sorting { way: None });
        }
        let settling = settle_term(store, self.program, term)?;
        let way = Box::new(store.allocator(), settling)?;
        Ok(Sorting { way: Some(way) })
    }

    /// Settles further, up to the next condition that has to be solved: its number, and the values of its variables. `None` where all is settled.
    pub(crate) fn derive(
        &mut self,
        store: &mut Store,
        term: TermId,
        settling: &mut Settling,
    ) -> Result<Option<(usize, Binding)>, NoMemory>
        requires fit { IsFit (basis_of N.operators self.old) store.old self.old.table self.old.begun }
        requires term { IsKnownTerm self.old.program.now.sig store.old term.0 }
        requires settling { IsKnownSettling (basis_of N.operators self.old) store.old self.old.table term.0 settling.old }
        ensures none { IfOk result (λ o. IfNone o (IsKnownValue self.new.program.now.sig store.new self.new.table term.0)) }
        ensures binding { IfOk result (λ o. IfSome o (λ x.
            IsKnownBinding (basis_of N.operators self.new) store.new self.new.table x.0 0 x.1)) }
        ensures asking { IfOk result (λ o. IfSome o (λ x.
            IsKnownAsking (basis_of N.operators self.new) store.new self.new.table term.0 x.0 (bound_in store.new x.1) settling.new)) }
        ensures ends { IfOk result (λ o. IfSome o (λ x. EndsWhere (rules_of (basis_of N.operators self.new)).program
            (λ k. settle_on (rules_of (basis_of N.operators self.new)) k (tree_at store.new term.0))
            (λ k. solve_on (rules_of (basis_of N.operators self.new)) k x.0 0 (bound_in store.new x.1) (rules_of (basis_of N.operators self.new)).limit))) }
        ensures grows { ComesOf (basis_of N.operators self.old) (basis_of N.operators self.new) store.old store.new self.old.table self.new.table
            self.new.begun }
    {
        let asks = settling.advance::<M>(store, self.program, &mut self.table)?;
        has_nodes(store);
        if asks {
            return match settling.question() {
                Some((at, question)) => {
                    let binding = values_of(store.allocator(), question.items())?;
                    Ok(Some((number_of_member(self.program, at), binding)))
                }
                None => unreachable!(),
            };
        }
        self.begun = true;
        Ok(None)
    }
}
