//! The equations of a program, made ready for terms.
ghost use Rattle.std.specs.Prelude.{◌≡◌, ◌<◌, ◌≤◌, map, length, Some, None, IfOk, OnOk, IfSome};
ghost use Rattle.mau_terms.specs.Bare.{IsBare, IsLawful};
ghost use Rattle.mau_terms.specs.View.{tree_of};
ghost use Rattle.mau_signature.specs.Signature.{terms_over, theory_at};
ghost use Rattle.mau_reduce.specs.Reducible.{IsReducible};
ghost use Rattle.mau_reduce.specs.ByTop.{stays_on_top, firm_top, top_number};

use crate::equations_in_order;
use mau_api::{Equation, Program};
use mau_listing::places_of;
use mau_signature::Signature;
use mau_store::{NodeView, Store};
use mau_syntactic::{Pattern, Template};
use mau_terms::{Bare, NoMemory, TermId, Theory, VarId};
use mau_trial::variables_of;
use std::alloc::Global;

/// An equation: the variables of its left side, by first occurrence, the left side, if none of its operators has axioms, and the right
/// side.
#[derive(Drop)]
pub(crate) struct CompiledEquation {
    pub variables: Vec<VarId>,
    pub pattern: Option<Pattern>,
    pub right: Template,
}

/// The equations of a program, and for each top the numbers of those that may apply under it, in the order in which they are tried: first
/// for numerals and variables, and then for each operator.
#[derive(Drop)]
pub struct Compiled {
    pub(crate) equations: Vec<CompiledEquation>,
    pub(crate) orders: Vec<Vec<usize>>,
}

ghost use Rattle.mau_trial.specs.Tried.{HoldsAtEach};
ghost use Rattle.mau_store.specs.Trees.{tree_at};
ghost use Rattle.mau_api.specs.Terms.{IsTerm};
ghost use Rattle.mau_reduce.specs.ByTop.{IsAdded, AreEmpty, AreOrders, order_for};
ghost use Rattle.mau_reduce.specs.Compiled.{IsCompiledEquation, IsCompiled};

/// Whether an operator with these axioms stays on top of normal forms.
fn stays_on_top(theory: &Theory) -> bool
    ensures { result ≡ stays_on_top theory.now }
{
    theory.id.is_none() && !theory.succ
}

/// The number on top of all that a left side matches, if its own top tells.
fn firm_top(sig: &Signature, left: &Bare) -> Option<u32>
    requires { IsBare (terms_over sig.now) (tree_of left.now) }
    ensures { result ≡ firm_top (theory_at sig.now) (tree_of left.now) }
{
    match left {
        Bare::Var(_) => None,
        Bare::Num(_) => Some(0),
        Bare::App(op, _) => {
            if stays_on_top(sig.theory(*op)) {
                return Some(op.0);
            }
            None
        }
    }
}

/// Adds the number of an equation to each list.
fn add_to_all(orders: &mut Vec<Vec<usize>>, number: usize) -> Result<(), NoMemory>
    ensures { OnOk result (IsAdded None number (map (λ list. list.items) orders.old.items) (map (λ list. list.items) orders.new.items)) }
{
    for top in 0..orders.len() {
        orders[top].push(number)?;
    }
    Ok(())
}

/// Adds the number of an equation to the lists of the tops under which it may apply.
fn add_number(orders: &mut Vec<Vec<usize>>, top: Option<u32>, number: usize) -> Result<(), NoMemory>
    requires { IfSome top (λ g. g < length orders.old.items) }
    ensures { OnOk result (IsAdded top number (map (λ list. list.items) orders.old.items) (map (λ list. list.items) orders.new.items)) }
{
    match top {
        Some(top) => {
            orders[top as usize].push(number)?;
            Ok(())
        }
        None => add_to_all(orders, number),
    }
}

/// So many empty lists.
fn empty_lists(alloc: Global, count: usize) -> Result<Vec<Vec<usize>>, NoMemory>
    ensures { IfOk result (λ lists. AreEmpty count (map (λ list. list.items) lists.items)) }
{
    let mut lists = Vec::with_capacity(alloc, count)?;
    for _ in 0..count {
        lists.push(Vec::new(alloc))?;
    }
    Ok(lists)
}

/// For each top the numbers of the equations that may apply under it.
fn orders_of(alloc: Global, program: &Program) -> Result<Vec<Vec<usize>>, NoMemory>
    requires reducible { IsReducible program.now }
    ensures { IfOk result (λ orders. AreOrders program.now (map (λ list. list.items) orders.items)) }
{
    let order = equations_in_order(alloc, program)?;
    let mut orders = empty_lists(alloc, program.sig.operators() as usize + 1)?;
    for number in &order {
        let top = firm_top(&program.sig, &program.equations.items()[*number].left);
        add_number(&mut orders, top, *number)?;
    }
    Ok(orders)
}

/// An equation, compiled.
fn compile(
    alloc: Global,
    sig: &Signature,
    equation: &Equation,
) -> Result<CompiledEquation, NoMemory>
    requires { IsBare (terms_over sig.now) (tree_of equation.now.left) }
    ensures { IfOk result (IsCompiledEquation sig.now equation.now) }
{
    let places = places_of(alloc, sig, &equation.left)?;
    let variables = variables_of(alloc, &places)?;
    let pattern = Pattern::new(alloc, sig, &equation.left)?;
    let right = Template::new(alloc, &equation.right, &variables)?;
    Ok(CompiledEquation {
        variables,
        pattern,
        right,
    })
}

/// The equations of a program, compiled.
fn compile_all(alloc: Global, program: &Program) -> Result<Vec<CompiledEquation>, NoMemory>
    requires { IsReducible program.now }
    ensures { IfOk result (λ found. HoldsAtEach (IsCompiledEquation program.now.sig) program.now.equations found.items) }
{
    let equations = program.equations.items();
    let mut found = Vec::with_capacity(alloc, equations.len())?;
    for equation in equations {
        found.push(compile(alloc, &program.sig, equation)?)?;
    }
    Ok(found)
}

/// The number of the operator on top of a term, and 0 where there is none.
fn top_number(store: &Store, sig: &Signature, term: TermId) -> usize
    requires lawful { IsLawful (terms_over sig.now) }
    requires term { IsTerm sig.now store.now term.0 }
    ensures top { result ≡ top_number (tree_at store.now term.0) }
    ensures within { result ≤ length sig.now.declarations }
{
    match store.view(term) {
        NodeView::App(op, _) => op.0 as usize,
        NodeView::Num(_) | NodeView::Var(_) => 0,
    }
}

impl Compiled {
    /// The equations of a program, and the orders in which they are tried.
    pub fn new(alloc: Global, program: &Program) -> Result<Compiled, NoMemory>
        requires { IsReducible program.now }
        ensures { IfOk result (IsCompiled program.now) }
    {
        let equations = compile_all(alloc, program)?;
        let orders = orders_of(alloc, program)?;
        Ok(Compiled { equations, orders })
    }

    /// The numbers of the equations that may apply at the top of a term, in order.
    pub(crate) fn order_at(&self, program: &Program, store: &Store, term: TermId) -> &[usize]
        requires reducible { IsReducible program.now }
        requires compiled { IsCompiled program.now self.now }
        requires term { IsTerm program.now.sig store.now term.0 }
        ensures { result.now ≡ order_for program.now (tree_at store.now term.0) }
    {
        let top = top_number(store, &program.sig, term);
        self.orders[top].as_slice()
    }
}
