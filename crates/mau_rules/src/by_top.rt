//! The rules of a program by the operators under which they may apply, and the terms in which none may.
ghost use Rattle.std.specs.Prelude.{◌≡◌, ◌<◌, ◌≤◌, ◌++◌, ◌∷◌, [], ℕ, List, Bool, if◌then◌else◌, map, length, slice_get, slice_index_or, Some, true, false, IfOk, OnOk};
ghost use Rattle.std.specs.List.{list_all};
ghost use Rattle.mau_terms.specs.Bare.{IsBare, IsLawful};
ghost use Rattle.mau_terms.specs.View.{tree_of};
ghost use Rattle.mau_signature.specs.Signature.{terms_over, theory_at};
ghost use Rattle.mau_store.specs.Node.{Node, IsOf, AreBelow};
ghost use Rattle.mau_store.specs.View.{numbers};
ghost use Rattle.mau_reduce.specs.ByTop.{stays_on_top, firm_top, may_apply, top_number};
ghost use Rattle.mau_program.specs.declared.statements.Rule.{Rule};
ghost use Rattle.mau_rules.specs.Runnable.{IsRunnable};

use mau_api::Program;
use mau_signature::Signature;
use mau_store::{NodeView, Store};
use mau_terms::{Bare, NoMemory, TermId, Theory};
use std::alloc::Global;

/// The numbers of the executable rules that may apply under each top, first for numerals and variables and then for each operator;
/// and of the first nodes of a store, whether no rule may apply at them or below.
#[derive(Drop)]
pub(crate) struct RulesByTop {
    pub(crate) orders: Vec<Vec<usize>>,
    pub(crate) idle: Vec<bool>,
}

ghost use Rattle.mau_store.specs.Trees.{tree_at};
ghost use Rattle.mau_api.specs.Programs.{rule_of};
ghost use Rattle.mau_api.specs.Terms.{IsTerm};
ghost use Rattle.mau_rules.specs.ByTop.{may_rewrite, numbers_under, AreRulesByTop, has_none, is_idle, IsIdleTable, IsByTop};

/// Whether an operator with these axioms stays on top of normal forms.
fn stays_on_top(theory: &Theory) -> bool
    ensures { result ≡ stays_on_top theory.now }
{
    theory.id.is_none() && !theory.succ
}

/// Whether a left side may match a term with this number on top.
fn may_match(sig: &Signature, left: &Bare, top: usize) -> bool
    requires { IsBare (terms_over sig.now) (tree_of left.now) }
    ensures { result ≡ may_apply (firm_top (theory_at sig.now) (tree_of left.now)) top }
{
    match left {
        Bare::Var(_) => true,
        Bare::Num(_) => top == 0,
        Bare::App(op, _) => {
            if stays_on_top(sig.theory(*op)) {
                return op.0 as usize == top;
            }
            true
        }
    }
}

/// Whether a rule may apply at a term with this number on top.
fn may_rewrite(program: &Program, number: usize, top: usize) -> bool
    requires runnable { IsRunnable program.now }
    requires number { number < length program.now.rules }
    ensures { (rule : Rule) → slice_get program.now.rules number ≡ Some rule → result ≡ may_rewrite (theory_at program.now.sig) top (number, rule_of rule) }
{
    let rule = &program.rules.items()[number];
    if !rule.exec {
        return false;
    }
    may_match(&program.sig, &rule.left, top)
}

/// One number more, where it is meant.
fn push_if(numbers: &mut Vec<usize>, meant: bool, number: usize) -> Result<(), NoMemory>
    ensures { OnOk result (numbers.new.items ≡ numbers.old.items ++ (if meant then number ∷ [] else [])) }
{
    if meant {
        numbers.push(number)?;
    }
    Ok(())
}

/// The numbers of the rules that may apply under a top, in ascending order.
pub(crate) fn numbers_under(
    alloc: Global,
    program: &Program,
    top: usize,
) -> Result<Vec<usize>, NoMemory>
    requires runnable { IsRunnable program.now }
    ensures { IfOk result (λ kept. kept.items ≡ numbers_under program.now top) }
{
    let count = program.rules.items().len();
    let mut kept = Vec::new(alloc);
    for number in 0..count {
        push_if(&mut kept, may_rewrite(program, number, top), number)?;
    }
    Ok(kept)
}

/// For each top the numbers of the rules that may apply under it.
fn all_numbers(alloc: Global, program: &Program) -> Result<Vec<Vec<usize>>, NoMemory>
    requires runnable { IsRunnable program.now }
    ensures { IfOk result (λ orders. AreRulesByTop program.now (map (λ list. list.items) orders.items)) }
{
    let tops = program.sig.operators() as usize + 1;
    let mut orders = Vec::with_capacity(alloc, tops)?;
    for top in 0..tops {
        let kept = numbers_under(alloc, program, top)?;
        orders.push(kept)?;
    }
    Ok(orders)
}

/// The number of the operator on top of a term, and 0 where there is none.
pub(crate) fn top_number(store: &Store, sig: &Signature, term: TermId) -> usize
    requires lawful { IsLawful (terms_over sig.now) }
    requires term { IsTerm sig.now store.now term.0 }
    ensures top { result ≡ top_number (tree_at store.now term.0) }
    ensures within { result ≤ length sig.now.declarations }
{
    match store.view(term) {
        NodeView::App(op, _) => op.0 as usize,
        NodeView::Num(_) | NodeView::Var(_) => 0,
    }
}

/// Whether a top has a list, and it is empty.
fn has_none(orders: &[Vec<usize>], top: usize) -> bool
    ensures { result ≡ has_none (map (λ list. list.items) orders.now) top }
{
    if top < orders.len() {
        return orders[top].is_empty();
    }
    false
}

/// Whether all of these nodes are idle.
fn all_idle(idle: &[bool], ids: &[TermId]) -> bool
    requires { AreBelow (length idle.now) (numbers ids.now) }
    ensures { (f : ℕ → Bool) → ((i : ℕ) → i < length idle.now → slice_index_or idle.now i false ≡ f i) → result ≡ list_all f (numbers ids.now) }
{
    for id in ids {
        if !idle[id.0] {
            return false;
        }
    }
    true
}

/// Whether no rule may apply at a node or below it, where this is kept of the nodes before it.
fn is_idle(orders: &[Vec<usize>], idle: &[bool], store: &Store, term: TermId) -> bool
    requires term { IsOf store.now term.0 }
    requires count { length idle.now ≡ term.0 }
    requires table { IsIdleTable (map (λ list. list.items) orders.now) store.now idle.now }
    ensures { result ≡ is_idle (map (λ list. list.items) orders.now) (tree_at store.now term.0) }
{
    match store.view(term) {
        NodeView::App(op, ids) => {
            if !has_none(orders, op.0 as usize) {
                return false;
            }
            all_idle(idle, ids)
        }
        NodeView::Num(_) | NodeView::Var(_) => has_none(orders, 0),
    }
}

impl RulesByTop {
    /// The rules of a program by their tops. Of no node it is kept whether it is idle.
    pub(crate) fn new(alloc: Global, program: &Program) -> Result<RulesByTop, NoMemory>
        requires runnable { IsRunnable program.now }
        ensures { (nodes : List Node) → IfOk result (IsByTop program.now nodes) }
    {
        let orders = all_numbers(alloc, program)?;
        Ok(RulesByTop {
            orders,
            idle: Vec::new(alloc),
        })
    }

    /// The numbers of the rules that may apply at the top of a term, in ascending order.
    pub(crate) fn numbers_at(&self, program: &Program, store: &Store, term: TermId) -> &[usize]
        requires runnable { IsRunnable program.now }
        requires rules { AreRulesByTop program.now (map (λ list. list.items) self.now.orders.items) }
        requires term { IsTerm program.now.sig store.now term.0 }
        ensures { result.now ≡ numbers_under program.now (top_number (tree_at store.now term.0)) }
    {
        let top = top_number(store, &program.sig, term);
        self.orders[top].as_slice()
    }

    /// It is kept also of the nodes that are new in a store whether they are idle; where there is no memory for that, of fewer.
    pub(crate) fn note(&mut self, store: &Store)
        requires { IsIdleTable (map (λ list. list.items) self.old.orders.items) store.now self.old.idle.items }
        ensures orders { self.new.orders ≡ self.old.orders }
        ensures table { IsIdleTable (map (λ list. list.items) self.old.orders.items) store.now self.new.idle.items }
    {
        let count = store.len();
        for number in self.idle.len()..count {
            let idle = is_idle(&self.orders, &self.idle, store, TermId(number));
            if self.idle.push(idle).is_err() {
                return;
            }
        }
    }

    /// Whether it is known that no rule may apply at a term or below it.
    pub(crate) fn skips(&self, term: TermId) -> bool
        ensures { (lists : List (List ℕ)) (nodes : List Node) → result ≡ true → IsIdleTable lists nodes self.now.idle.items → is_idle lists (tree_at nodes term.0) ≡ true }
    {
        if term.0 < self.idle.len() {
            return self.idle[term.0];
        }
        false
    }
}
