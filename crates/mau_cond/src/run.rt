//! Runs of conditions.
ghost use Rattle.std.specs.Prelude.{◌≡◌, ◌≤◌, ◌+◌, ◌++◌, ◌∷◌, ℕ, suc, [], List, map, drop, length, All, Option, Some, None, IfOk, IfErr, IfSome, IfNone, OnOk, OnErr};
ghost use Rattle.mau_terms.specs.declared.ids.TermId.{TermId};
ghost use Rattle.mau_signature.specs.Signature.{SignatureOf, theory_at};
ghost use Rattle.mau_store.specs.Node.{Node, Extends};
ghost use Rattle.mau_store.specs.Trees.{tree_at};
ghost use Rattle.mau_sorts.specs.Table.{Table, AreOver};
ghost use Rattle.mau_evaluation.specs.Run.{counted_if};
ghost use Rattle.mau_evaluation.specs.Program.{Program};
ghost use Rattle.mau_evaluation.specs.Listing.{Solution as Listed};
ghost use Rattle.mau_evaluation.specs.Evaluation.{Binding, Level};
ghost use Rattle.mau_api.specs.Programs.{fragment_of};
ghost use Rattle.mau_api.specs.Answers.{binding_in, IsFragment, IsValueOf};
ghost use Rattle.mau_cond.specs.Path.{all_stations, IsAnswer, IsAsked, with_value, IsNoSolution, AwaitsValue, AwaitsSolution};
ghost use Rattle.mau_cond.specs.Meaning.{solve_from, whole, Goes, Ends, TakesValue, TakesSolution, TakesNone};
ghost use Rattle.mau_cond.specs.Known.{IsKnown, IsKnownAnswer, IsToldValue, IsLevelOf};

use crate::bound::Bound;
use crate::stage::{Ask, Stage, Station};
use mau_canon::BuildFault;
use mau_program::Fragment;
use mau_signature::Signature;
use mau_sorts::SortTable;
use mau_store::Store;
use mau_terms::{NoMemory, TermId, VarId};
use std::alloc::Global;
use std::marker::Model;

/// A run of a condition, from solution to solution. It calls nobody: it is asked what it lacks, and is told it. Seen as its path: what
/// was told and not gone back on.
#[derive(Drop)]
pub struct CondRun<'c> {
    pub(crate) cond: &'c [Fragment],
    pub(crate) bound: Bound,
    pub(crate) stations: Vec<Station>,
    pub(crate) at: usize,
    pub(crate) stage: Stage,
}

impl<'c> Model for CondRun<'c> {
    ghost use Rattle.std.specs.Coded.{codes};
    ghost use Rattle.mau_terms.specs.Code.{tree_code};
    ghost use Rattle.mau_cond.specs.Path.{Path, IsPath};

    ghost Value = { Path };

    ghost coded = { Prim.hlevel (codes, tree_code) };

    ghost view = { λ r. record { cond = r.cond.now; bound = r.bound; stations = r.stations.items; at = r.at; stage = r.stage } };

    ghost invariant = { λ r.
        IsPath (record { cond = r.cond.now; bound = r.bound; stations = r.stations.items; at = r.at; stage = r.stage }) };
}

/// The greatest number of fragments that are numbered.
const MAX_FRAGMENTS: usize = 4_294_967_295;

impl<'c> CondRun<'c> {
    /// A run of a condition under some values of its variables. It still has to compute the first solution, or the first one behind a
    /// solution that was found earlier. A condition with more fragments than can be numbered doesn't fit into memory.
    pub fn start(
        alloc: Global,
        cond: &'c [Fragment],
        bound: &[(VarId, TermId)],
    ) -> Result<CondRun<'c>, NoMemory>
        ensures starts { (P : Program) (l : Level) (nodes : List Node) (last : Option Binding) (r b : ℕ) → IfOk result (λ run.
            whole P l nodes run last [] r b
            ≡ counted_if r (solve_from P l last (map fragment_of cond.now) (binding_in nodes bound.now) b)) }
        ensures begins { IfOk result (λ run. run ≡ record { cond = cond.now; bound = bound.now; stations = []; at = 0; stage = Stage.Open }) }
        ensures known { (s : SignatureOf) (nodes : List Node) (table : Table) →
            All (IsFragment s) cond.now → All (IsValueOf s nodes table) bound.now
            → IfOk result (IsKnown s nodes table) }
    {
        if cond.len() > MAX_FRAGMENTS {
            return Err(NoMemory);
        }
        let mut values = Bound::new(alloc);
        for pair in bound {
            values.push(pair.0, pair.1)?;
        }
        Ok(CondRun {
            cond,
            bound: values,
            stations: Vec::new(alloc),
            at: 0,
            stage: Stage::Open,
        })
    }

    /// What the run lacks: the value of a term or the next solution of a matching fragment; or that it holds, or fails.
    ///
    /// Of the first undecided fragment the terms are evaluated one after the other. Where it isn't true the path goes back to the latest
    /// matching fragment, whose next solution is due, and where there is none the run fails. After `Holds` the path has gone back, and
    /// what is asked then is what comes behind that solution. A term without a normal form within the limits is refused.
    pub fn ask(
        &mut self,
        store: &mut Store,
        sig: &Signature,
        sorts: &SortTable,
    ) -> Result<Ask, BuildFault>
        requires known { IsKnown sig.now store.old sorts.now self.old }
        requires over { AreOver sig.now.hierarchy sorts.now }
        ensures goes { IfOk result (Goes sig.now store.new sorts.now self.old self.new) }
        ensures ends { IfErr result (Ends sig.now store.new sorts.now self.old) }
        ensures answer { IfOk result (IsAnswer self.new) }
        ensures stations { OnOk result (all_stations self.new ≡ all_stations self.old) }
        ensures cond { self.new.cond ≡ self.old.cond }
        ensures known { IsKnown sig.now store.new sorts.now self.new }
        ensures given { IfOk result (IsKnownAnswer sig.now store.new sorts.now) }
        ensures again { IsAsked self.old → IfOk result (λ answer. (self.new ≡ self.old) × IsNoSolution answer) }
        ensures unchanged { OnErr result (self.new ≡ self.old) }
        ensures extends { Extends store.old store.new }
    {
        let at = self.at;
        match self.stage {
            Stage::Open => self.look(store, sig, sorts, at),
            Stage::First(value) => self.with_first(store, sig, sorts, value),
            Stage::Both(left, right) => self.with_both(store, sig, sorts, left, right),
            Stage::Due(_) => Ok(self.due()),
            Stage::Failed => Ok(self.due()),
        }
    }

    /// The variables that have values where the path stands, for who lists the solutions of the fragment that is due.
    pub fn bound(&self, alloc: Global) -> Result<Vec<(VarId, TermId)>, NoMemory>
        ensures { IfOk result (λ bound. bound.items ≡ self.now.bound) }
    {
        self.bound.pairs(alloc)
    }

    /// The value of the term that was asked.
    pub fn tell_value(&mut self, value: TermId)
        requires asked { AwaitsValue self.old }
        ensures goes { (nodes : List Node) → TakesValue nodes self.old self.new (tree_at nodes value.0) }
        ensures path { self.new ≡ with_value self.old value }
        ensures known { (s : SignatureOf) (nodes : List Node) (table : Table) →
            IsKnown s nodes table self.old → IsToldValue s nodes table value → IsKnown s nodes table self.new }
    {
        match self.stage {
            Stage::Open => self.tell_first(value),
            Stage::First(left) => self.stage = Stage::Both(left, value),
            _ => unreachable!(),
        }
    }

    /// The next solution of the fragment that was asked, as the values of all variables of its pattern; or that there is none.
    pub fn tell_solution(&mut self, values: Option<Vec<(VarId, TermId)>>) -> Result<(), NoMemory>
        requires asked { (i : ℕ) × (v : TermId) × AwaitsSolution self.old i v }
        ensures some { OnOk result (IfSome values (λ told. (nodes : List Node) → TakesSolution nodes self.old self.new told.items)) }
        ensures none { OnOk result (IfNone values ((nodes : List Node) → TakesNone nodes self.old self.new)) }
        ensures kept { OnOk result (IfSome values (λ _. all_stations self.new ≡ all_stations self.old)) }
        ensures cond { self.new.cond ≡ self.old.cond }
        ensures gone { OnOk result (IfNone values (all_stations self.new ≡ self.old.stations)) }
        ensures known { (s : SignatureOf) (nodes : List Node) (table : Table) →
            IsKnown s nodes table self.old
            → IfSome values (λ told. All (IsValueOf s nodes table) told.items) → IsKnown s nodes table self.new }
        ensures unchanged { OnErr result (self.new ≡ self.old) }
    {
        match values {
            Some(told) => self.tell_some(&told),
            None => {
                self.tell_none();
                Ok(())
            }
        }
    }
}
