//! What is looked at when a run is asked, and what changes when it is told.
ghost use Rattle.std.specs.Prelude.{◌≡◌, ◌⊎◌, ◌<◌, ◌≤◌, ◌+◌, ◌++◌, ◌∷◌, ◌↔◌, ℕ, suc, [], List, map, drop, length, slice_get, All, Option, Some, None, IfOk, IfErr, IfSome, IfNone, OnOk, OnErr, IsTrue};
ghost use Rattle.std.specs.Option.{option_map};
ghost use Rattle.mau_terms.specs.Norm.{norm};
ghost use Rattle.mau_terms.specs.Bare.{IsBare};
ghost use Rattle.mau_terms.specs.View.{tree_of};
ghost use Rattle.mau_terms.specs.Subst.{instance};
ghost use Rattle.mau_signature.specs.Signature.{SignatureOf, theory_at, terms_over};
ghost use Rattle.mau_store.specs.Node.{Node, Extends};
ghost use Rattle.mau_store.specs.Trees.{tree_at, StandsFor};
ghost use Rattle.mau_canon.specs.Within.{IsCause};
ghost use Rattle.mau_sorts.specs.SortSets.{SortsOf, IsIn};
ghost use Rattle.mau_sorts.specs.Table.{Table, AreOver, IsSettled, entry_at};
ghost use Rattle.mau_evaluation.specs.Evaluation.{look_up};
ghost use Rattle.mau_api.specs.Terms.{IsTerm};
ghost use Rattle.mau_api.specs.Answers.{binding_in, IsValueOf};
ghost use Rattle.mau_cond.specs.Path.{all_stations, IsAnswer, IsAsked, IsNoSolution, AwaitsValue, AwaitsSolution, IsMatching, IsPath, with_value, term_by};
ghost use Rattle.mau_cond.specs.Meaning.{SameWhole, Ends, TakesValue, TakesSolution, TakesNone};
ghost use Rattle.mau_cond.specs.Known.{IsKnown, IsToldValue};
ghost use Rattle.mau_cond.specs.Steps.{opened, failing, decided, due_ask, first_term, IsWaiting, IsAnswered};

use crate::CondRun;
use crate::stage::{Ask, Stage, Station};
use mau_canon::{BuildFault, build_instance};
use mau_program::Fragment;
use mau_signature::Signature;
use mau_sorts::SortTable;
use mau_store::Store;
use mau_terms::{Bare, NoMemory, TermId, VarId};

impl<'c> CondRun<'c> {
    /// Looks at the fragment at a place, of which nothing was told.
    pub(crate) fn look(
        &mut self,
        store: &mut Store,
        sig: &Signature,
        sorts: &SortTable,
        at: usize,
    ) -> Result<Ask, BuildFault>
        requires known { IsKnown sig.now store.old sorts.now (opened self.old at) }
        ensures answered { IfOk result (IsAnswered sig.now store.new sorts.now (opened self.old at) self.new) }
        ensures ends { IfErr result (Ends sig.now store.new sorts.now (opened self.old at)) }
        ensures cond { self.new.cond ≡ self.old.cond }
        ensures unchanged { OnErr result (self.new ≡ self.old) }
        ensures extends { Extends store.old store.new }
    {
        let cond = self.cond;
        match cond.get(at) {
            Some(fragment) => match first_of(fragment) {
                Some(term) => self.evaluate(store, sig, sorts, term, at, Stage::Open),
                None => Ok(self.back()),
            },
            None => self.hold(store, at),
        }
    }

    /// The first term of the fragment has a value.
    pub(crate) fn with_first(
        &mut self,
        store: &mut Store,
        sig: &Signature,
        sorts: &SortTable,
        value: TermId,
    ) -> Result<Ask, BuildFault>
        requires first { self.old.stage ≡ Stage.First value }
        requires known { IsKnown sig.now store.old sorts.now self.old }
        requires over { AreOver sig.now.hierarchy sorts.now }
        ensures answered { IfOk result (IsAnswered sig.now store.new sorts.now self.old self.new) }
        ensures ends { IfErr result (Ends sig.now store.new sorts.now self.old) }
        ensures cond { self.new.cond ≡ self.old.cond }
        ensures unchanged { OnErr result (self.new ≡ self.old) }
        ensures extends { Extends store.old store.new }
    {
        let cond = self.cond;
        let at = self.at;
        match cond.get(at) {
            Some(Fragment::Equal(_, right)) => {
                self.evaluate(store, sig, sorts, right, at, Stage::First(value))
            }
            Some(Fragment::Sort(_, sort)) => {
                let holds = has_sort(sig, sorts, value, *sort);
                self.decide(store, sig, sorts, holds)
            }
            Some(Fragment::Match(_, _)) => unreachable!(),
            Some(Fragment::Reach(_, _)) => unreachable!(),
            None => unreachable!(),
        }
    }

    /// Both terms of an equality have values.
    pub(crate) fn with_both(
        &mut self,
        store: &mut Store,
        sig: &Signature,
        sorts: &SortTable,
        left: TermId,
        right: TermId,
    ) -> Result<Ask, BuildFault>
        requires both { self.old.stage ≡ Stage.Both left right }
        requires path { IsPath self.old }
        requires known { IsKnown sig.now store.old sorts.now self.old }
        ensures answered { IfOk result (IsAnswered sig.now store.new sorts.now self.old self.new) }
        ensures ends { IfErr result (Ends sig.now store.new sorts.now self.old) }
        ensures cond { self.new.cond ≡ self.old.cond }
        ensures unchanged { OnErr result (self.new ≡ self.old) }
        ensures extends { Extends store.old store.new }
    {
        let _nodes = store.len();
        self.decide(store, sig, sorts, left == right)
    }

    /// Goes on behind the first undecided fragment where it is true, and else goes back.
    fn decide(
        &mut self,
        store: &mut Store,
        sig: &Signature,
        sorts: &SortTable,
        holds: bool,
    ) -> Result<Ask, BuildFault>
        requires there { self.old.at < length self.old.cond }
        requires known { IsKnown sig.now store.old sorts.now (decided self.old holds) }
        ensures answered { IfOk result (IsAnswered sig.now store.new sorts.now (decided self.old holds) self.new) }
        ensures ends { IfErr result (Ends sig.now store.new sorts.now (decided self.old holds)) }
        ensures cond { self.new.cond ≡ self.old.cond }
        ensures unchanged { OnErr result (self.new ≡ self.old) }
        ensures extends { Extends store.old store.new }
    {
        if holds {
            let at = self.at + 1;
            self.look(store, sig, sorts, at)
        } else {
            Ok(self.back())
        }
    }

    /// Builds a term of the fragment at a place and asks its value.
    fn evaluate(
        &mut self,
        store: &mut Store,
        sig: &Signature,
        sorts: &SortTable,
        term: &Bare,
        at: usize,
        stage: Stage,
    ) -> Result<Ask, BuildFault>
        requires term { term_by stage (slice_get self.old.cond at) ≡ Some term.now }
        requires known { IsKnown sig.now store.old sorts.now (record self.old { at = at; stage = stage }) }
        ensures answered { IfOk result (IsAnswered sig.now store.new sorts.now (record self.old { at = at; stage = stage }) self.new) }
        ensures ends { IfErr result (Ends sig.now store.new sorts.now (record self.old { at = at; stage = stage })) }
        ensures cond { self.new.cond ≡ self.old.cond }
        ensures unchanged { OnErr result (self.new ≡ self.old) }
        ensures extends { Extends store.old store.new }
    {
        let _operators = sig.operators();
        match build_instance(
            store,
            sig,
            term,
            self.bound.variables(),
            self.bound.values(),
        ) {
            Ok(id) => {
                self.at = at;
                self.stage = stage;
                Ok(Ask::Evaluate(id))
            }
            Err(fault) => Err(fault),
        }
    }

    /// The condition holds; then it goes back.
    fn hold(&mut self, store: &Store, at: usize) -> Result<Ask, BuildFault>
        requires end { length self.old.cond ≤ at }
        ensures answered { (s : SignatureOf) (table : Table) →
            IsKnown s store.now table (opened self.old at) → IfOk result (IsAnswered s store.now table (opened self.old at) self.new) }
        ensures fault { IfErr result (λ fault. fault ≡ BuildFault.NoMemory) }
        ensures cond { self.new.cond ≡ self.old.cond }
        ensures unchanged { OnErr result (self.new ≡ self.old) }
    {
        match self.bound.pairs(store.allocator()) {
            Ok(values) => {
                self.go_back();
                Ok(Ask::Holds(values))
            }
            Err(_) => Err(BuildFault::NoMemory),
        }
    }

    /// Goes back, and asks what is due.
    fn back(&mut self) -> Ask
        ensures cond { self.new.cond ≡ self.old.cond }
        ensures answered { (s : SignatureOf) (nodes : List Node) (table : Table) →
            IsKnown s nodes table (failing self.old) → IsAnswered s nodes table (failing self.old) self.new result }
    {
        self.go_back();
        self.due()
    }

    /// No solution is left of the fragment that is due.
    pub(crate) fn tell_none(&mut self)
        requires asked { (i : ℕ) × (v : TermId) × AwaitsSolution self.old i v }
        ensures goes { (nodes : List Node) → TakesNone nodes self.old self.new }
        ensures stations { all_stations self.new ≡ self.old.stations }
        ensures cond { self.new.cond ≡ self.old.cond }
        ensures known { (s : SignatureOf) (nodes : List Node) (table : Table) →
            IsKnown s nodes table self.old → IsKnown s nodes table self.new }
    {
        let _stage = self.stage;
        self.go_back();
    }

    /// The latest matching fragment before is due, if there is one.
    fn go_back(&mut self)
        ensures goes { (nodes : List Node) → SameWhole nodes (failing self.old) self.new }
        ensures waits { IsWaiting self.new.stage }
        ensures stations { all_stations self.new ≡ self.old.stations }
        ensures cond { self.new.cond ≡ self.old.cond }
        ensures path { IsPath self.new }
        ensures known { (s : SignatureOf) (nodes : List Node) (table : Table) →
            IsKnown s nodes table (failing self.old) → IsKnown s nodes table self.new }
    {
        match self.stations.pop() {
            Some(station) => {
                self.bound.keep(station.bound);
                self.stage = Stage::Due(station);
            }
            None => self.stage = Stage::Failed,
        }
    }

    /// What is asked where a solution is due.
    pub(crate) fn due(&self) -> Ask
        ensures value { result ≡ due_ask self.now.stage }
        ensures matching { (s : Station) → self.now.stage ≡ Stage.Due s → IsMatching (slice_get self.now.cond s.at) }
    {
        match self.stage {
            Stage::Due(station) => Ask::Match(station.at as u32, station.value),
            _ => Ask::Fails,
        }
    }

    /// The value of the first term of a fragment.
    pub(crate) fn tell_first(&mut self, value: TermId)
        requires open { self.old.stage ≡ Stage.Open }
        requires asked { AwaitsValue self.old }
        ensures goes { (nodes : List Node) → TakesValue nodes self.old self.new (tree_at nodes value.0) }
        ensures path { self.new ≡ with_value self.old value }
        ensures known { (s : SignatureOf) (nodes : List Node) (table : Table) →
            IsKnown s nodes table self.old → IsToldValue s nodes table value → IsKnown s nodes table self.new }
    {
        match self.cond.get(self.at) {
            Some(Fragment::Match(_, _)) => {
                self.stage = Stage::Due(Station {
                    at: self.at,
                    value,
                    bound: self.bound.len(),
                })
            }
            Some(Fragment::Equal(_, _)) => self.stage = Stage::First(value),
            Some(Fragment::Sort(_, _)) => self.stage = Stage::First(value),
            Some(Fragment::Reach(_, _)) => unreachable!(),
            None => unreachable!(),
        }
    }

    /// A solution of the fragment that is due: what it binds is added, and the fragments behind it are looked at.
    pub(crate) fn tell_some(&mut self, told: &[(VarId, TermId)]) -> Result<(), NoMemory>
        requires asked { (i : ℕ) × (v : TermId) × AwaitsSolution self.old i v }
        ensures goes { OnOk result ((nodes : List Node) → TakesSolution nodes self.old self.new told.now) }
        ensures stations { OnOk result (all_stations self.new ≡ all_stations self.old) }
        ensures known { (s : SignatureOf) (nodes : List Node) (table : Table) →
            IsKnown s nodes table self.old → All (IsValueOf s nodes table) told.now → IsKnown s nodes table self.new }
        ensures cond { self.new.cond ≡ self.old.cond }
        ensures unchanged { OnErr result (self.new ≡ self.old) }
    {
        match self.stage {
            Stage::Due(station) => {
                let before = self.bound.len();
                match self.bound.extend(told) {
                    Ok(()) => (),
                    Err(end) => return Err(end),
                }
                match self.stations.push(station) {
                    Ok(()) => {
                        self.at = station.at + 1;
                        self.stage = Stage::Open;
                        Ok(())
                    }
                    Err(_) => {
                        self.bound.keep(before);
                        Err(NoMemory)
                    }
                }
            }
            _ => unreachable!(),
        }
    }
}

/// The term of a fragment that is evaluated first.
fn first_of(fragment: &Fragment) -> Option<&Bare>
    ensures { option_map (λ t. t.now) result ≡ first_term fragment.now }
{
    match fragment {
        Fragment::Equal(term, _) => Some(term),
        Fragment::Match(_, term) => Some(term),
        Fragment::Sort(term, _) => Some(term),
        Fragment::Reach(_, _) => None,
    }
}

/// Whether a settled term has a sort. What is the number of no sort or kind, it does not have.
fn has_sort(sig: &Signature, sorts: &SortTable, value: TermId, sort: u32) -> bool
    requires over { AreOver sig.now.hierarchy sorts.now }
    requires settled { IsSettled sorts.now value.0 }
    ensures { (e : SortsOf) → entry_at sorts.now value.0 ≡ Some e → IsTrue result ↔ IsIn sig.now.hierarchy e sort }
{
    let poset = sig.poset();
    if sort >= poset.sorts() + poset.kinds() {
        return false;
    }
    match sorts.has(sig, value, sort) {
        Some(holds) => holds,
        None => unreachable!(),
    }
}
