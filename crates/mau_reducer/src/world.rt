//! A program and a store as a world.
ghost use Rattle.std.specs.Prelude.{◌≡◌, IfSome, length};
ghost use Rattle.std.specs.List.{zip};
ghost use Rattle.std.specs.Option.{option_copied, option_map};
ghost use Rattle.mau_reducer.specs.Handles.{goal_in};

use crate::asking::values_of;
use crate::at_once::Sorting;
use crate::fragments::{fragment_at, pattern_at, side_at, sort_at};
use crate::reducer::{Candidates, Reducer};
use mau_api::{EvalEnd, Fragment, Lister, Step};
use mau_choices::{Choices, begin_choices, next_choice, own_choice};
use mau_cond::Bound;
use mau_listing::{WholeLister, has_nodes};
use mau_machine::{Goal, World};
use mau_reduce::{
    Binding, Natives, begin_attempts, instance, make, next_attempt, open, rebuild, step,
};
use mau_store::Store;
use mau_terms::{NoMemory, OpId, TermId};

/// What a fragment asks, if there is one.
fn goal_in(fragment: Option<&Fragment>) -> Goal
    ensures { result ≡ goal_in (option_copied fragment.entry) }
{
    match fragment {
        None => Goal::Nothing,
        Some(Fragment::Equal(_, _)) => Goal::Equality,
        Some(Fragment::Match(_, _)) => Goal::Matching,
        Some(Fragment::Sort(_, _)) => Goal::Sort,
        Some(Fragment::Reach(_, _)) => Goal::Reaching,
    }
}

/// A binding in two lists.
fn parted(bound: Option<Bound>) -> Option<Binding>
    ensures pairs { option_map (λ b. zip b.variables.items b.values.items) result ≡ bound }
    ensures one_each { IfSome result (λ b. length b.variables.items ≡ length b.values.items) }
{
    match bound {
        Some(bound) => {
            let (variables, values) = bound.into_parts();
            Some(Binding { variables, values })
        }
        None => None,
    }
}

impl<'a, L: Lister + Drop, M: WholeLister + Drop, N: Natives + Drop> World
    for Reducer<'a, L, M, N> {
    ghost use Rattle.mau_reducer.specs.Worlds.{basis_of};
    ghost use Rattle.mau_reducer.specs.Handles.{words_of};
    ghost use Rattle.mau_reducer.specs.States.{IsFit, ComesOf};
    ghost use Rattle.std.specs.Prelude.{refl, true};
    ghost use Rattle.mau_reducer.specs.KnownHandles.{operand_put, operand_known, normal_term};
    ghost use Rattle.mau_reducer.specs.Fragments.{passes_on, has_values_of};
    ghost use Rattle.mau_reducer.specs.LaterStates.{same_state, later_state, fit_later, words_kept};

    type Attempts = Candidates<L>;

    type Choices = Choices<M>;

    type Binding = Binding;

    type Settling = Sorting;

    ghost words = { λ w nodes. words_of L.with_context L.asked L.given L.is_for M.asked M.given M.is_for
        (basis_of N.operators w) nodes w.table };

    ghost table = { λ w. w.table };

    ghost ready = { λ w nodes. IsFit (basis_of N.operators w) nodes w.table w.begun × (L.with_context ≡ true) };

    ghost grows = { λ w nodes v more. ComesOf (basis_of N.operators w)
        (basis_of N.operators v) nodes more w.table v.table v.begun };

    fn rests(&self, _: &Store, _: TermId, _: u32) -> bool {
        false
    }

    fn arguments(
        &self,
        store: &Store,
        term: TermId,
    ) -> Result<Option<(OpId, Vec<TermId>, Vec<usize>)>, NoMemory> {
        match open(store.allocator(), store, &self.program.sig, term)? {
            Some(opened) => Ok(Some((opened.op, opened.args, opened.order))),
            None => Ok(None),
        }
    }

    fn build(
        &mut self,
        store: &mut Store,
        op: OpId,
        args: &[TermId],
        order: &[usize],
    ) -> Result<(TermId, bool), EvalEnd> {
        match rebuild(store, &self.program.sig, op, args, order) {
            Ok(rebuilt) => Ok((rebuilt.term, rebuilt.changed)),
            Err(end) => Err(end),
        }
    }

    fn limit(&self) -> u64 {
        self.limit
    }

    fn settling(&mut self, store: &mut Store, term: TermId) -> Result<Sorting, NoMemory> {
        self.begin_sorting(store, term)
    }

    fn settle(
        &mut self,
        store: &mut Store,
        term: TermId,
        settling: &mut Sorting,
    ) -> Result<Option<(usize, Binding)>, NoMemory> {
        match &mut settling.way {
            Some(way) => self.derive(store, term, &mut **way),
            None => Ok(None),
        }
    }

    fn told(&self, _: &Store, _: TermId, _: usize, holds: bool, settling: &mut Sorting) {
        if let Some(way) = &mut settling.way {
            way.told(holds);
        }
    }

    fn attempts(&mut self, store: &mut Store, term: TermId) -> Result<Candidates<L>, NoMemory> {
        let built_in = self.built_in_at(store, term);
        let begun = begin_attempts(store, self.program, &self.natives, built_in, term);
        let attempts = Box::new(store.allocator(), begun)?;
        Ok(Candidates { term, attempts })
    }

    fn attempt(
        &mut self,
        store: &mut Store,
        term: TermId,
        attempts: &mut Candidates<L>,
    ) -> Result<Option<(usize, Binding)>, EvalEnd> {
        match next_attempt(
            store,
            self.program,
            &mut self.table,
            &self.compiled,
            term,
            &mut *attempts.attempts,
        ) {
            Ok(next) => Ok(next),
            Err(end) => Err(end),
        }
    }

    fn replace(
        &mut self,
        store: &mut Store,
        term: TermId,
        _: usize,
        attempts: &Candidates<L>,
        binding: &Binding,
    ) -> Result<TermId, EvalEnd> {
        make(
            store,
            self.program,
            &self.compiled,
            term,
            &*attempts.attempts,
            binding,
        )
    }

    fn step(
        &mut self,
        store: &mut Store,
        term: TermId,
        condition: usize,
        attempts: &Candidates<L>,
        binding: &Binding,
        after: TermId,
    ) -> Result<Step, NoMemory> {
        step(
            store,
            self.program,
            term,
            condition,
            &*attempts.attempts,
            binding,
            after,
        )
    }

    fn goal(&self, condition: usize, at: usize) -> Goal {
        goal_in(fragment_at(self.program, &self.asked, condition, at))
    }

    fn side(
        &mut self,
        store: &mut Store,
        condition: usize,
        at: usize,
        right: bool,
        binding: &Binding,
    ) -> Result<TermId, EvalEnd> {
        match side_at(self.program, &self.asked, condition, at, right) {
            Some(side) => instance(store, &self.program.sig, side, binding),
            None => unreachable!(),
        }
    }

    fn same(&self, store: &Store, left: TermId, right: TermId) -> bool {
        // What holds of the nodes of a store is told with their number.
        let _nodes = store.len();
        left == right
    }

    fn sorted(
        &mut self,
        store: &mut Store,
        condition: usize,
        at: usize,
        value: TermId,
    ) -> Result<bool, NoMemory> {
        // What holds of the nodes of a store is told with their number.
        let _nodes = store.len();
        match sort_at(self.program, &self.asked, condition, at) {
            Some(sort) => match self.table.has(&self.program.sig, value, sort) {
                Some(has) => Ok(has),
                None => unreachable!(),
            },
            None => unreachable!(),
        }
    }

    fn choices(
        &mut self,
        store: &mut Store,
        condition: usize,
        at: usize,
        binding: Binding,
        value: TermId,
    ) -> Result<Choices<M>, NoMemory> {
        match pattern_at(self.program, &self.asked, condition, at) {
            Some(pattern) => {
                let bound = Bound::from_parts(binding.variables, binding.values);
                begin_choices(store, &self.program.sig, &self.table, pattern, bound, value)
            }
            None => unreachable!(),
        }
    }

    fn choose(
        &mut self,
        store: &mut Store,
        condition: usize,
        at: usize,
        choices: &mut Choices<M>,
    ) -> Result<Option<Binding>, NoMemory> {
        let program = self.program;
        match pattern_at(program, &self.asked, condition, at) {
            Some(pattern) => match next_choice(store, program, &mut self.table, pattern, choices) {
                Ok(next) => Ok(parted(next)),
                Err(end) => Err(end),
            },
            None => unreachable!(),
        }
    }

    fn own(
        &mut self,
        store: &mut Store,
        condition: usize,
        at: usize,
        choices: &mut Choices<M>,
        last: &Binding,
    ) -> Result<Binding, NoMemory> {
        let program = self.program;
        match pattern_at(program, &self.asked, condition, at) {
            Some(pattern) => match own_choice(store, program, &self.table, pattern, choices, last) {
                Ok(bound) => {
                    let (variables, values) = bound.into_parts();
                    Ok(Binding { variables, values })
                }
                Err(end) => Err(end),
            },
            None => unreachable!(),
        }
    }

    // ---- laws

    ghost normal = { λ w nodes t h. h.term.within.normal };

    ghost within = { λ w nodes t h. h.term.within.within };

    ghost settled = { λ w nodes t h. h.known };

    ghost puts = { λ w nodes f ts i t v h e k same. operand_put w.program.now.sig nodes f ts i t v h e k same };

    ghost holds = { λ w nodes f ts i t h e. operand_known w.program.now.sig nodes f ts i t h e };

    ghost passes = { λ w nodes e i σ h p. passes_on (basis_of N.operators w) nodes w.table e i σ h p };

    ghost has_values = { λ w nodes e i right σ τ h k x. has_values_of (basis_of N.operators w) nodes w.table e i σ h right τ k x };

    ghost stands = { λ w nodes t h. (h.term.within.there, refl, normal_term w.program.now.sig nodes t h) };

    ghost extends = { λ w v nodes more h. (h.extends, h.kept) };

    ghost stays = { λ w nodes r. same_state (basis_of N.operators w) nodes w.table w.begun r.0 };

    ghost goes_on = { λ u v w nodes more most h k. later_state (basis_of N.operators u)
        (basis_of N.operators v)
        (basis_of N.operators w) nodes more most u.table v.table w.table v.begun w.begun h k };

    ghost begins = { λ u v nodes more r h. (
      fit_later (basis_of N.operators u)
          (basis_of N.operators v) nodes more u.table v.table u.begun v.begun r.0 h,
      r.1,
    ) };

    ghost keeps = { λ u v nodes more h. words_kept L.with_context L.asked L.given L.is_for M.asked M.given M.is_for (basis_of N.operators u)
        (basis_of N.operators v) nodes more u.table v.table v.begun h };
}
