//! Patterns, and the walk that matches them.
ghost use Rattle.std.specs.Prelude.{◌≡◌, ◌≢◌, ◌↔◌, ◌∷◌, ◌++◌, ℕ, List, true, false, length, map, reverse, slice_get, Some, IfOk, OnOk, IfSome, IsSome, IsTrue};
ghost use Rattle.std.specs.Option.{option_map};
ghost use Rattle.mau_terms.specs.Bare.{IsBare};
ghost use Rattle.mau_terms.specs.Lawful.{AreLawful};
ghost use Rattle.mau_terms.specs.Subst.{variables};
ghost use Rattle.mau_terms.specs.View.{tree_of, variable_of};
ghost use Rattle.mau_terms.specs.declared.theory.Theory.{Theory};
ghost use Rattle.mau_terms.specs.Tree.{Tree, numeral, node};
ghost use Rattle.mau_signature.specs.Signature.{terms_over, theory_at};
ghost use Rattle.mau_store.specs.Node.{AreOf, IsOf};
ghost use Rattle.mau_store.specs.Trees.{tree_at, trees_at};
ghost use Rattle.mau_store.specs.View.{numbers};
ghost use Rattle.mau_canon.specs.Standing.{StandsWithin, StandWithin};
ghost use Rattle.mau_syntactic.specs.Free.{has_free_operators};
ghost use Rattle.mau_syntactic.specs.Match.{IsMatch, top_of};
ghost use Rattle.mau_syntactic.specs.Steps.{Follows, IsOver};

use crate::compile::add_term;
use crate::free::has_free_operators;
use crate::step::Step;
use mau_signature::Signature;
use mau_store::{NodeView, Store};
use mau_terms::{Bare, NoMemory, OpId, TermId, VarId};
use std::alloc::Global;
use std::marker::Model;

/// A pattern whose operators have no axioms, seen as its tree.
#[derive(Drop, Debug)]
pub struct Pattern {
    variables: Vec<VarId>,
    steps: Vec<Step>,
}

impl Model for Pattern {
    ghost use Rattle.mau_terms.specs.Tree.{Tree};
    ghost use Rattle.mau_syntactic.specs.Steps.{pattern_from, AreStepsOf};
    ghost use Rattle.mau_terms.specs.Code.{tree_code};

    ghost Value = { Tree };

    ghost coded = { tree_code };

    ghost view = { λ p. pattern_from p.variables.items p.steps.items };

    ghost invariant = { λ p. AreStepsOf (pattern_from p.variables.items p.steps.items) p.variables.items p.steps.items };
}

impl Pattern {
    /// The pattern of a bare term, if none of its operators has axioms.
    pub fn new(alloc: Global, sig: &Signature, term: &Bare) -> Result<Option<Pattern>, NoMemory>
        requires { IsBare (terms_over sig.now) (tree_of term.now) }
        ensures tree { IfOk result (λ found. IfSome found (λ pattern. pattern ≡ tree_of term.now)) }
        ensures free { IfOk result (λ found. IsSome found ↔ (has_free_operators (theory_at sig.now) (tree_of term.now) ≡ true)) }
    {
        if !has_free_operators(sig, term) {
            return Ok(None);
        }
        let mut steps = Vec::new(alloc);
        let mut variables = Vec::new(alloc);
        add_term(&mut steps, &mut variables, term)?;
        Ok(Some(Pattern { variables, steps }))
    }

    /// The variables, by first occurrence.
    pub fn variables(&self) -> &[VarId]
        ensures { map variable_of result.now ≡ variables self.now }
    {
        &self.variables
    }

    /// The operator at the root, if there is one.
    pub fn top(&self) -> Option<OpId>
        ensures { option_map (λ op. op.0) result ≡ top_of self.now }
    {
        match self.steps.first() {
            Some(Step::Operator(op, _)) => Some(*op),
            _ => None,
        }
    }

    /// Whether the pattern matches a term: then `values` are the values of its variables, by first occurrence. What `values` and
    /// `stack` hold beforehand is dropped; they keep their memory for the next call.
    pub fn matches(
        &self,
        store: &Store,
        subject: TermId,
        values: &mut Vec<TermId>,
        stack: &mut Vec<TermId>,
    ) -> Result<bool, NoMemory>
        requires { IsOf store.now subject.0 }
        ensures found { IfOk result (λ found. found ≡ true →
            IsMatch self.now (tree_at store.now subject.0) (trees_at store.now (numbers values.new.items))) }
        ensures missed { IfOk result (λ found. found ≡ false → (vs : List Tree) → ¬ IsMatch self.now (tree_at store.now subject.0) vs) }
        ensures there { OnOk result (AreOf store.now (numbers values.new.items)) }
        ensures within { IfOk result (λ found. found ≡ true → (th : ℕ → Theory) → AreLawful th →
            StandsWithin th store.now subject.0 → StandWithin th store.now (numbers values.new.items)) }
    {
        values.clear();
        stack.clear();
        stack.push(subject)?;
        for step in &self.steps {
            let taken = follow(*step, store, values, stack)?;
            if !taken {
                return Ok(false);
            }
        }
        Ok(true)
    }
}

/// Takes a step at the last term of the stack, and says whether it could be taken.
fn follow(
    step: Step,
    store: &Store,
    values: &mut Vec<TermId>,
    stack: &mut Vec<TermId>,
) -> Result<bool, NoMemory>
    requires values { AreOf store.now (numbers values.old.items) }
    requires stack { AreOf store.now (numbers stack.old.items) }
    ensures taken { IfOk result (λ taken. taken ≡ true → Follows step
        (reverse (trees_at store.now (numbers stack.old.items))) (trees_at store.now (numbers values.old.items))
        (reverse (trees_at store.now (numbers stack.new.items))) (trees_at store.now (numbers values.new.items))) }
    ensures refused { IfOk result (λ taken. taken ≡ false → (us vs : List Tree) →
        ¬ Follows step (reverse (trees_at store.now (numbers stack.old.items))) (trees_at store.now (numbers values.old.items)) us vs) }
    ensures values { OnOk result (AreOf store.now (numbers values.new.items)) }
    ensures stack { OnOk result (AreOf store.now (numbers stack.new.items)) }
{
    let Some(id) = stack.pop() else {
        return Ok(false);
    };
    match step {
        Step::Operator(op, count) => take_operator(store, id, op, count, stack),
        Step::Numeral(n) => Ok(is_numeral(store, id, n)),
        Step::Place(place) => take_place(store, id, place, values),
    }
}

/// Whether a term is a numeral.
fn is_numeral(store: &Store, id: TermId, n: u128) -> bool
    requires { IsOf store.now id.0 }
    ensures { IsTrue result ↔ (tree_at store.now id.0 ≡ numeral n) }
{
    match store.view(id) {
        NodeView::Num(m) => m == n,
        _ => false,
    }
}

/// Puts the arguments of a term onto the stack, where it is an operator over so many.
fn take_operator(
    store: &Store,
    id: TermId,
    op: OpId,
    count: usize,
    stack: &mut Vec<TermId>,
) -> Result<bool, NoMemory>
    requires there { IsOf store.now id.0 }
    requires stack { AreOf store.now (numbers stack.old.items) }
    ensures taken { IfOk result (λ taken. taken ≡ true → IsOver op.0 count (tree_at store.now id.0)
        (reverse (trees_at store.now (numbers stack.old.items))) (reverse (trees_at store.now (numbers stack.new.items)))) }
    ensures refused { IfOk result (λ taken. taken ≡ false → (ts : List Tree) → length ts ≡ count → tree_at store.now id.0 ≢ node op.0 ts) }
    ensures stack { OnOk result (AreOf store.now (numbers stack.new.items)) }
{
    match store.view(id) {
        NodeView::App(top, args) => {
            if args.len() != count {
                return Ok(false);
            }
            if top == op {
                push_all(stack, args)?;
                return Ok(true);
            }
            Ok(false)
        }
        _ => Ok(false),
    }
}

/// Puts some terms onto a stack, the first one on top.
fn push_all(stack: &mut Vec<TermId>, terms: &[TermId]) -> Result<(), NoMemory>
    ensures { OnOk result (stack.new.items ≡ stack.old.items ++ reverse terms.now) }
{
    for term in terms.iter().rev() {
        stack.push(*term)?;
    }
    Ok(())
}

/// Makes a term the next value, or compares it with the value at a place.
fn take_place(
    store: &Store,
    id: TermId,
    place: usize,
    values: &mut Vec<TermId>,
) -> Result<bool, NoMemory>
    requires there { IsOf store.now id.0 }
    requires values { AreOf store.now (numbers values.old.items) }
    ensures taken { IfOk result (λ taken. taken ≡ true → (us : List Tree) → Follows (Step.Place place)
        (tree_at store.now id.0 ∷ us) (trees_at store.now (numbers values.old.items)) us (trees_at store.now (numbers values.new.items))) }
    ensures refused { IfOk result (λ taken. taken ≡ false → (place ≢ length values.old.items)
        × (slice_get (trees_at store.now (numbers values.old.items)) place ≢ Some (tree_at store.now id.0))) }
    ensures values { OnOk result (AreOf store.now (numbers values.new.items)) }
{
    let _ = store.len();
    if place == values.len() {
        values.push(id)?;
        return Ok(true);
    }
    match values.get(place) {
        Some(value) => Ok(*value == id),
        None => Ok(false),
    }
}
