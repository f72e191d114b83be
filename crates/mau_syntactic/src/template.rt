//! Right sides, and how their instances are built.
ghost use Rattle.std.specs.Prelude.{◌≡◌, ◌∷◌, ◌++◌, ◌-◌, ◌≤◌, [], true, length, map, take, drop, IfOk, OnOk, IfErr};
ghost use Rattle.mau_terms.specs.Tree.{node};
ghost use Rattle.mau_terms.specs.Norm.{norm};
ghost use Rattle.mau_terms.specs.Bare.{IsBare};
ghost use Rattle.mau_terms.specs.View.{tree_of, variable_of};
ghost use Rattle.mau_signature.specs.Signature.{IsOperator, terms_over, theory_at};
ghost use Rattle.mau_store.specs.Node.{Extends};
ghost use Rattle.mau_store.specs.Trees.{StandsFor, trees_at};
ghost use Rattle.mau_store.specs.View.{numbers};
ghost use Rattle.mau_canon.specs.Standing.{StandsWithin, StandWithin};
ghost use Rattle.mau_canon.specs.Within.{IsCause};
ghost use Rattle.mau_syntactic.specs.Free.{is_free};
ghost use Rattle.mau_syntactic.specs.Filled.{filled};
ghost use Rattle.mau_syntactic.specs.Parts.{after_part, CanFollow};

use crate::free::is_free;
use crate::part::{Part, add_parts};
use mau_canon::{BuildFault, MAX_DEPTH, build, build_instance};
use mau_signature::Signature;
use mau_store::{NodeView, Store};
use mau_terms::{Bare, NoMemory, OpId, TermId, VarId};
use std::alloc::Global;
use std::marker::Model;

/// A term and the variables whose values take their places, seen as both.
#[derive(Drop, Debug)]
pub struct Template {
    term: Bare,
    variables: Vec<VarId>,
    parts: Vec<Part>,
}

impl Model for Template {
    ghost use Rattle.std.specs.Prelude.{◌≡◌, ℕ, List, map};
    ghost use Rattle.std.specs.Coded.{coded_list, coded×, coded_ℕ};
    ghost use Rattle.mau_terms.specs.Tree.{Tree};
    ghost use Rattle.mau_terms.specs.Code.{tree_code};
    ghost use Rattle.mau_terms.specs.View.{tree_of, variable_of};
    ghost use Rattle.mau_syntactic.specs.Parts.{parts_of};

    ghost Value = { Tree × List (ℕ × ℕ) };

    ghost coded = { coded× tree_code (coded_list (coded× coded_ℕ coded_ℕ)) };

    ghost view = { λ t. (tree_of t.term, map variable_of t.variables.items) };

    ghost invariant = { λ t. t.parts.items ≡ parts_of (map variable_of t.variables.items) (tree_of t.term) };
}

impl Template {
    /// A term, and the variables whose values will be given, each at its place.
    pub fn new(alloc: Global, term: &Bare, variables: &[VarId]) -> Result<Template, NoMemory>
        ensures { IfOk result (λ template. template ≡ (tree_of term.now, map variable_of variables.now)) }
    {
        let mut parts = Vec::new(alloc);
        add_parts(&mut parts, variables, term)?;
        let term = term.copy(alloc)?;
        let variables = Vec::from_slice(alloc, variables)?;
        Ok(Template {
            term,
            variables,
            parts,
        })
    }

    /// The variables.
    pub fn variables(&self) -> &[VarId]
        ensures { map variable_of result.now ≡ self.now.1 }
    {
        &self.variables
    }

    /// The normal form of the term with the values in the places of its variables. What `stack` holds beforehand is dropped; it keeps its
    /// memory for the next call.
    ///
    /// The store may have gained nodes where the instance is refused.
    pub fn build(
        &self,
        store: &mut Store,
        sig: &Signature,
        values: &[TermId],
        stack: &mut Vec<TermId>,
    ) -> Result<TermId, BuildFault>
        requires bare { IsBare (terms_over sig.now) self.now.0 }
        requires values { StandWithin (theory_at sig.now) store.old (numbers values.now) }
        requires one_each { length values.now ≡ length self.now.1 }
        ensures ok { IfOk result (λ id. StandsFor (theory_at sig.now) store.new id.0 (filled store.old values.now self.now)) }
        ensures within { IfOk result (λ id. StandsWithin (theory_at sig.now) store.new id.0) }
        ensures refused { IfErr result (IsCause (theory_at sig.now) (norm (theory_at sig.now) (filled store.old values.now self.now))) }
        ensures extends { Extends store.old store.new }
    {
        match self.run(store, sig, values, stack) {
            Ok(id) => Ok(id),
            // The cause is that of the whole, which a part that is refused does not tell.
            Err(_) => build_instance(store, sig, &self.term, &self.variables, values),
        }
    }

    /// The same, where no part is refused.
    fn run(
        &self,
        store: &mut Store,
        sig: &Signature,
        values: &[TermId],
        stack: &mut Vec<TermId>,
    ) -> Result<TermId, BuildFault>
        requires bare { IsBare (terms_over sig.now) self.now.0 }
        requires values { StandWithin (theory_at sig.now) store.old (numbers values.now) }
        requires one_each { length values.now ≡ length self.now.1 }
        ensures ok { IfOk result (λ id. StandsFor (theory_at sig.now) store.new id.0 (filled store.old values.now self.now)) }
        ensures within { IfOk result (λ id. StandsWithin (theory_at sig.now) store.new id.0) }
        ensures extends { Extends store.old store.new }
    {
        let _ = sig.operators();
        stack.clear();
        for part in &self.parts {
            add(*part, store, sig, values, stack)?;
        }
        match stack.pop() {
            Some(id) => Ok(id),
            None => unreachable!(),
        }
    }
}

/// Adds a part to the terms of a stack.
fn add(
    part: Part,
    store: &mut Store,
    sig: &Signature,
    values: &[TermId],
    stack: &mut Vec<TermId>,
) -> Result<(), BuildFault>
    requires part { CanFollow sig.now (length values.now) (length stack.old.items) part }
    requires values { StandWithin (theory_at sig.now) store.old (numbers values.now) }
    requires stack { StandWithin (theory_at sig.now) store.old (numbers stack.old.items) }
    ensures trees { OnOk result (trees_at store.new (numbers stack.new.items)
        ≡ after_part (theory_at sig.now) (trees_at store.old (numbers values.now)) part (trees_at store.old (numbers stack.old.items))) }
    ensures stack { OnOk result (StandWithin (theory_at sig.now) store.new (numbers stack.new.items)) }
    ensures extends { Extends store.old store.new }
{
    match part {
        Part::Operator(op, count) => {
            replace_last(store, sig, op, count, stack)?;
            Ok(())
        }
        Part::Numeral(n) => {
            let id = store.intern(NodeView::Num(n))?;
            push(stack, id)?;
            Ok(())
        }
        Part::Value(place) => {
            push(stack, values[place])?;
            Ok(())
        }
        Part::Unbound(variable) => {
            let id = store.intern(NodeView::Var(variable))?;
            push(stack, id)?;
            Ok(())
        }
    }
}

/// Puts an operator over the last terms of a stack in their place.
fn replace_last(
    store: &mut Store,
    sig: &Signature,
    op: OpId,
    count: usize,
    stack: &mut Vec<TermId>,
) -> Result<(), BuildFault>
    requires operator { IsOperator sig.now op.0 }
    requires count { count ≤ length stack.old.items }
    requires stack { StandWithin (theory_at sig.now) store.old (numbers stack.old.items) }
    ensures trees { OnOk result (trees_at store.new (numbers stack.new.items)
        ≡ take (length stack.old.items - count) (trees_at store.old (numbers stack.old.items))
        ++ norm (theory_at sig.now) (node op.0 (drop (length stack.old.items - count) (trees_at store.old (numbers stack.old.items))))
        ∷ []) }
    ensures stack { OnOk result (StandWithin (theory_at sig.now) store.new (numbers stack.new.items)) }
    ensures extends { Extends store.old store.new }
{
    let start = stack.len() - count;
    let id = over(store, sig, op, &stack[start..])?;
    stack.truncate(start);
    push(stack, id)?;
    Ok(())
}

/// An operator over normal forms. Where it has no axioms, the term is a node over them.
fn over(store: &mut Store, sig: &Signature, op: OpId, args: &[TermId]) -> Result<TermId, BuildFault>
    requires operator { IsOperator sig.now op.0 }
    requires args { StandWithin (theory_at sig.now) store.old (numbers args.now) }
    ensures ok { IfOk result (λ id. StandsFor (theory_at sig.now) store.new id.0 (node op.0 (trees_at store.old (numbers args.now)))) }
    ensures within { IfOk result (λ id. StandsWithin (theory_at sig.now) store.new id.0) }
    ensures extends { Extends store.old store.new }
{
    if !is_free(sig.theory(op)) {
        return build(store, sig, op, args);
    }
    let id = store.intern(NodeView::App(op, args))?;
    if store.depth(id) > MAX_DEPTH {
        return Err(BuildFault::TooDeep);
    }
    Ok(id)
}

/// Puts a term onto a stack.
fn push(stack: &mut Vec<TermId>, id: TermId) -> Result<(), NoMemory>
    ensures { OnOk result (stack.new.items ≡ stack.old.items ++ id ∷ []) }
{
    stack.push(id)?;
    Ok(())
}
