//! Solutions of patterns.
ghost use Rattle.std.specs.Prelude.{◌≡◌, ◌⊎◌, ◌↔◌, ℕ, List, [], All, map, true, None, Some, IfOk, IfSome, IsTrue};
ghost use Rattle.std.specs.Option.{option_map};
ghost use Rattle.mau_terms.specs.Tree.{Tree};
ghost use Rattle.mau_terms.specs.Bare.{IsBare};
ghost use Rattle.mau_terms.specs.Reading.{reading};
ghost use Rattle.mau_signature.specs.Faults.{IsSort};
ghost use Rattle.mau_signature.specs.Signature.{terms_over, theory_at};
ghost use Rattle.mau_store.specs.Node.{IsOf};
ghost use Rattle.mau_store.specs.Trees.{tree_at};
ghost use Rattle.mau_canon.specs.Standing.{StandsWithin};
ghost use Rattle.mau_sorts.specs.HasSort.{Known};
ghost use Rattle.mau_sorts.specs.Table.{AreOver};
ghost use Rattle.mau_listing.specs.Asked.{asks, question_in, matcher_in, IsBelow, IsTreeSettled, IsTableOf, BySort, IsGiven};
ghost use Rattle.mau_listing.specs.Next.{matcher_cmp, IsNext};
ghost use Rattle.mau_listing.specs.Question.{IsSolution};
ghost use Rattle.mau_trial.specs.Tried.{HoldsAtEach, IsFor};
ghost use Rattle.mau_syntactic.specs.Free.{has_free_operators};
ghost use Rattle.mau_syntactic.specs.Match.{top_of};
ghost use Rattle.mau_syntactic.specs.Sorted.{as_place};

use crate::Pattern;
use mau_listing::{Place, Solution, has_nodes, is_lawful};
use mau_signature::Signature;
use mau_sorts::SortTable;
use mau_store::{NodeView, Store};
use mau_terms::{NoMemory, OpId, Seq, TermId, VarId};
use mau_trial::is_for;

/// Whether a term has an operator on top.
fn has_top(store: &Store, term: TermId, op: OpId) -> bool
    requires { IsOf store.now term.0 }
    ensures { IsTrue result ↔ (top_of (tree_at store.now term.0) ≡ Some op.0) }
{
    match store.view(term) {
        NodeView::App(other, _) => other == op,
        NodeView::Num(_) | NodeView::Var(_) => false,
    }
}

/// Whether the entry of each value has its variable's sort.
fn have_sorts(sig: &Signature, sorts: &SortTable, variables: &[VarId], values: &[TermId]) -> bool
    requires over { AreOver sig.now.hierarchy sorts.now }
    requires sorts { All (λ x. IsSort sig.now.hierarchy x.sort) variables.now }
    ensures { IsTrue result ↔ HoldsAtEach (λ x v. IsFor sig.now.hierarchy sorts.now [] (as_place x) v) variables.now values.now }
{
    if values.len() != variables.len() {
        return false;
    }
    for i in 0..variables.len() {
        let place = Place {
            variable: variables[i],
            under: None,
        };
        if !is_for(sig, sorts, &[], place, values[i]) {
            return false;
        }
    }
    true
}

impl Pattern {
    /// The solution of the pattern in a term whose sorts are settled, with those of all below it: there is one at most, and its contexts
    /// are empty.
    pub fn solution(
        &self,
        store: &Store,
        sig: &Signature,
        sorts: &SortTable,
        term: TermId,
    ) -> Result<Option<Solution>, NoMemory>
        requires pattern { IsBare (terms_over sig.now) self.now }
        requires free { has_free_operators (theory_at sig.now) self.now ≡ true }
        requires term { StandsWithin (theory_at sig.now) store.now term.0 }
        requires bare { IsBare (terms_over sig.now) (reading (theory_at sig.now) (tree_at store.now term.0)) }
        requires settled { (u : Tree) → (u ≡ tree_at store.now term.0) ⊎ IsBelow u (tree_at store.now term.0)
            → IsTreeSettled store.now sorts.now u }
        requires over { AreOver sig.now.hierarchy sorts.now }
        ensures next { (known : Known) → IsTableOf sig.now known store.now sorts.now → IfOk result (λ answer.
            IsNext (IsSolution true sig.now (BySort sig.now known) (question_in store.now (asks self.now [] term)))
            (matcher_cmp (theory_at sig.now) self.now) None (option_map (matcher_in store.now) answer)) }
        ensures solves { IfOk result (λ answer. IfSome answer (IsGiven true sig.now store.now sorts.now (asks self.now [] term))) }
    {
        is_lawful(sig);
        has_nodes(store);
        if let Some(op) = self.top() {
            if !has_top(store, term, op) {
                return Ok(None);
            }
        }
        let alloc = store.allocator();
        let mut values = Vec::new(alloc);
        let mut stack = Vec::new(alloc);
        let found = self.matches(store, term, &mut values, &mut stack)?;
        if !found {
            return Ok(None);
        }
        if !have_sorts(sig, sorts, self.variables(), &values) {
            return Ok(None);
        }
        Ok(Some(Solution {
            left: Seq::new(Vec::new(alloc)),
            right: Seq::new(Vec::new(alloc)),
            values: Seq::new(values),
        }))
    }
}
