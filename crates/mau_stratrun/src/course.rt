//! The course of a run: strategies and configurations by numbers, and the cursors of its open entries.
ghost use Rattle.std.specs.Prelude.{◌≡◌, ◌<◌, ◌∷◌, [], ℕ, List, length, map, slice_get, Option, Some, Ok, Err, All, OnOk, IfErr};
ghost use Rattle.mau_strat.specs.Sharing.{list_at};
ghost use Rattle.mau_stratrun.specs.declared.leaves.LeafEnd.TheVariants as End;
ghost use Rattle.mau_stratrun.specs.Yields.{IsEnd};
ghost use Rattle.mau_stratrun.specs.Worlds.{LeavesGrow};
ghost use Rattle.mau_stratrun.specs.States.{config_in, begins_in, next_in};
ghost use Rattle.mau_stratrun.specs.Branches.{IsAtPlace};
ghost use Rattle.mau_stratrun.specs.Courses.{state_in, IsListed, is_solution, IsCourse, IsLastFor, IsStep, IsLeadOf};

use crate::branch::{Branch, by_branch};
use crate::cursor::{Kept, by_cursor, values_of};
use crate::leaves::{Lead, LeafEnd, Leaves};
use crate::outside::{by_turns, outside};
use crate::turns::{Kind, kind_of};
use mau_strat::{Config, Forms, Interner, Listed, StrategyId, Successors, Todo, TodosId};
use mau_terms::NoMemory;
use std::alloc::Global;

/// What a run keeps beside what it has listed.
#[derive(Drop)]
pub struct Course<X: Leaves + Drop> {
    pub alloc: Global,
    pub leaves: X,
    pub forms: Forms,
    pub bodies: Vec<StrategyId>,
    pub interner: Interner,
    pub kept: Vec<Kept<X::Cursor>>,
}

/// An answer whose only end is want of memory.
fn by_room(answer: Result<Option<usize>, NoMemory>) -> Result<Option<usize>, LeafEnd>
    ensures ok { (o : Option ℕ) → answer ≡ Ok o → result ≡ Ok o }
    ensures end { (e : NoMemory) → answer ≡ Err e → result ≡ Err End.NoMemory }
{
    match answer {
        Ok(successor) => Ok(successor),
        Err(_) => Err(LeafEnd::NoMemory),
    }
}

impl<X: Leaves + Drop> Course<X> {
    /// Sees to it that the last cursor is for a configuration.
    fn keep(
        &mut self,
        number: usize,
        lead: Lead,
        config: Config,
        own: Todo,
        rest: TodosId,
        at: usize,
    ) -> Result<(), LeafEnd>
        requires ready { X.is_ready self.old.leaves }
        requires course { IsCourse (X.world self.old.leaves) self.old.forms self.old.bodies.items self.old.interner self.old.kept.items }
        requires config { slice_get self.old.interner.configs number ≡ Some config }
        requires own { list_at self.old.interner.todos config.todo.0 ≡ own ∷ list_at self.old.interner.todos rest.0 }
        requires values { own.values.0 < length self.old.interner.bindings }
        requires lead { IsLeadOf (state_in (X.world self.old.leaves) self.old.forms self.old.interner) own.form.0 lead }
        ensures course { IsCourse (X.world self.new.leaves) self.new.forms self.new.bodies.items self.new.interner self.new.kept.items }
        ensures last { OnOk result (IsLastFor self.new.kept.items number) }
        ensures end { IfErr result (λ e. e ≡ End.NoMemory) }
        ensures ready { X.is_ready self.new.leaves }
        ensures grows { LeavesGrow (X.world self.old.leaves) (X.world self.new.leaves) }
        ensures forms { self.new.forms ≡ self.old.forms }
        ensures interner { self.new.interner ≡ self.old.interner }
        ensures bodies { self.new.bodies.items ≡ self.old.bodies.items }
    {
        if let Some(last) = self.kept.last() {
            if last.config == number {
                return Ok(());
            }
        }
        if at != 0 {
            return Err(LeafEnd::NoMemory);
        }
        let values = match values_of(self.alloc, &self.interner, own.values) {
            Ok(values) => values,
            Err(_) => return Err(LeafEnd::NoMemory),
        };
        let cursor = match self.leaves.start(lead, own.calls, &values, config.term) {
            Ok(cursor) => cursor,
            Err(_) => return Err(LeafEnd::NoMemory),
        };
        let kept = Kept {
            config: number,
            given: Vec::new(self.alloc),
            pending: None,
            cursor,
        };
        match self.kept.push(kept) {
            Ok(()) => Ok(()),
            Err(_) => Err(LeafEnd::NoMemory),
        }
    }

    /// The successor at a place of a configuration whose first strategy yields its successors.
    fn by_lead(
        &mut self,
        number: usize,
        lead: Lead,
        config: Config,
        own: Todo,
        rest: TodosId,
        at: usize,
    ) -> Result<Option<usize>, LeafEnd>
        requires ready { X.is_ready self.old.leaves }
        requires course { IsCourse (X.world self.old.leaves) self.old.forms self.old.bodies.items self.old.interner self.old.kept.items }
        requires config { slice_get self.old.interner.configs number ≡ Some config }
        requires own { list_at self.old.interner.todos config.todo.0 ≡ own ∷ list_at self.old.interner.todos rest.0 }
        requires values { own.values.0 < length self.old.interner.bindings }
        requires rest { rest.0 < length self.old.interner.todos }
        requires frames { config.frames.0 < length self.old.interner.frames }
        requires lead { IsLeadOf (state_in (X.world self.old.leaves) self.old.forms self.old.interner) own.form.0 lead }
        ensures step { IsStep (X.world self.old.leaves) self.old.forms self.old.interner (X.world self.new.leaves) self.new.forms
            self.new.interner self.old.bodies.items self.new.kept.items
            (config_in (state_in (X.world self.old.leaves) self.old.forms self.old.interner) number) at result }
        ensures ready { X.is_ready self.new.leaves }
        ensures bodies { self.new.bodies.items ≡ self.old.bodies.items }
    {
        match self.keep(number, lead, config, own, rest, at) {
            Ok(()) => (),
            Err(end) => return Err(end),
        }
        let last = self.kept.len() - 1;
        match by_cursor(
            &mut self.leaves,
            &mut self.interner,
            &self.bodies,
            &mut self.kept[last],
            config,
            own,
            rest,
            at,
        ) {
            Ok(Some(successor)) => Ok(Some(successor)),
            Ok(None) => {
                self.kept.pop();
                Ok(None)
            }
            Err(end) => Err(end),
        }
    }

    /// The successor at a place of a configuration, by its first strategy.
    fn by_first(
        &mut self,
        listed: &Listed,
        number: usize,
        config: Config,
        own: Todo,
        rest: TodosId,
        at: usize,
    ) -> Result<Option<usize>, LeafEnd>
        requires ready { X.is_ready self.old.leaves }
        requires course { IsCourse (X.world self.old.leaves) self.old.forms self.old.bodies.items self.old.interner self.old.kept.items }
        requires listed { All (λ c. c < length self.old.interner.configs) listed.now }
        requires config { slice_get self.old.interner.configs number ≡ Some config }
        requires own { list_at self.old.interner.todos config.todo.0 ≡ own ∷ list_at self.old.interner.todos rest.0 }
        requires todo { config.todo.0 < length self.old.interner.todos }
        requires rest { rest.0 < length self.old.interner.todos }
        requires place { IsAtPlace (state_in (X.world self.old.leaves) self.old.forms self.old.interner)
            (config_in (state_in (X.world self.old.leaves) self.old.forms self.old.interner) number) listed.now at }
        ensures step { IsStep (X.world self.old.leaves) self.old.forms self.old.interner (X.world self.new.leaves) self.new.forms
            self.new.interner self.old.bodies.items self.new.kept.items
            (config_in (state_in (X.world self.old.leaves) self.old.forms self.old.interner) number) at result }
        ensures ready { X.is_ready self.new.leaves }
        ensures bodies { self.new.bodies.items ≡ self.old.bodies.items }
    {
        match kind_of(&self.forms, own.form) {
            Kind::ByCursor(lead) => self.by_lead(number, lead, config, own, rest, at),
            Kind::ByBranch(test, then, other) => {
                let parts = Branch { test, then, other };
                let answer = by_branch(listed, &mut self.interner, config, own, rest, parts, at);
                by_room(answer)
            }
            Kind::ByTurns(form) => {
                let answer = by_turns(
                    &mut self.forms,
                    &mut self.interner,
                    config,
                    form,
                    own,
                    rest,
                    at,
                );
                by_room(answer)
            }
        }
    }

    /// The successor at a place of a configuration, by its number.
    fn go_on(&mut self, listed: &Listed, number: usize, at: usize) -> Result<Option<usize>, LeafEnd>
        requires ready { X.is_ready self.old.leaves }
        requires course { IsCourse (X.world self.old.leaves) self.old.forms self.old.bodies.items self.old.interner self.old.kept.items }
        requires listed { All (λ c. c < length self.old.interner.configs) listed.now }
        requires number { number < length self.old.interner.configs }
        requires place { IsAtPlace (state_in (X.world self.old.leaves) self.old.forms self.old.interner)
            (config_in (state_in (X.world self.old.leaves) self.old.forms self.old.interner) number) listed.now at }
        ensures step { IsStep (X.world self.old.leaves) self.old.forms self.old.interner (X.world self.new.leaves) self.new.forms
            self.new.interner self.old.bodies.items self.new.kept.items
            (config_in (state_in (X.world self.old.leaves) self.old.forms self.old.interner) number) at result }
        ensures ready { X.is_ready self.new.leaves }
        ensures bodies { self.new.bodies.items ≡ self.old.bodies.items }
    {
        let config = self.interner.config(number);
        match self.interner.todo_parts(config.todo) {
            None => {
                let answer = outside(&mut self.interner, config, at);
                by_room(answer)
            }
            Some((own, rest)) => self.by_first(listed, number, config, own, rest, at),
        }
    }
}

impl<X: Leaves + Drop> Successors for Course<X> {
    ghost use Rattle.mau_stratrun.specs.States.{config_in, begins_in, next_in};
    ghost use Rattle.mau_stratrun.specs.Yields.{IsEnd};
    ghost use Rattle.mau_stratrun.specs.Courses.{state_in, IsListed, is_solution, IsCourse};
    ghost use Rattle.mau_stratrun.specs.States.{Larger};
    ghost use Rattle.mau_stratrun.specs.CourseLaws.{none_given, stays_listed, larger_none, larger_on};
    ghost use Rattle.std.specs.Prelude.{map};

    type Cause = LeafEnd;

    ghost begins = { λ s e cs. begins_in (state_in (X.world s.leaves) s.forms s.interner) e cs };

    ghost next = { λ s e cs. next_in (state_in (X.world s.leaves) s.forms s.interner) e cs };

    ghost due = { λ s e given end. IsEnd (X.world s.leaves).setting.fixed (config_in (state_in (X.world s.leaves) s.forms s.interner) e)
        (map (config_in (state_in (X.world s.leaves) s.forms s.interner)) given) end };

    ghost solves = { λ s c. is_solution (config_in (state_in (X.world s.leaves) s.forms s.interner) c) };

    ghost ready = { λ s listed. X.is_ready s.leaves × IsCourse (X.world s.leaves) s.forms s.bodies.items s.interner s.kept.items ×
        IsListed (state_in (X.world s.leaves) s.forms s.interner) listed };

    ghost grows = { λ s t. Larger (state_in (X.world s.leaves) s.forms s.interner) (state_in (X.world t.leaves) t.forms t.interner) };

    fn is_solution(&self, config: usize) -> bool {
        let config = self.interner.config(config);
        if self.interner.todo_parts(config.todo).is_some() {
            return false;
        }
        self.interner.frame_parts(config.frames).is_none()
    }

    fn successor(
        &mut self,
        listed: &Listed,
        entry: usize,
        at: usize,
    ) -> Result<Option<usize>, LeafEnd> {
        let number = listed.at(entry);
        self.go_on(listed, number, at)
    }

    ghost grows_none = { λ s. larger_none (state_in (X.world s.leaves) s.forms s.interner) };

    ghost grows_on = { λ s t u a b. larger_on (state_in (X.world s.leaves) s.forms s.interner) (state_in (X.world t.leaves) t.forms t.interner)
        (state_in (X.world u.leaves) u.forms u.interner) a b };

    ghost none_given = { λ s listed e r c. none_given (state_in (X.world s.leaves) s.forms s.interner) listed r.2 e c };

    ghost stays_ready = { λ s listed e c given r k b. (
      r.0,
      r.1,
      stays_listed (state_in (X.world s.leaves) s.forms s.interner) listed
          r.2 e c given b,
    ) };
}
