//! The sorts of a node, by those of its arguments.
ghost use Rattle.std.specs.Prelude.{◌≡◌, ◌↔◌, ◌<◌, ◌≤◌, ℕ, length, All, IfOk, OnOk, IsTrue};
ghost use Rattle.mau_poset.specs.Order.{IsAtOrBelow, kind_of};
ghost use Rattle.mau_signature.specs.Faults.{HasSorts, IsSort};
ghost use Rattle.mau_signature.specs.Signature.{IsOperator, swapped};
ghost use Rattle.mau_sorts.specs.SortSets.{IsIn, IsOver, AreApart, AreSorts};
ghost use Rattle.mau_sorts.specs.HasSort.{Gives, Suits};
ghost use Rattle.mau_sorts.specs.Derived.{AllIn, ListIn, sets, AddsResult};

use crate::minimal::add;
use crate::sort_set::SortSet;
use mau_poset::Poset;
use mau_signature::{Decl, Signature};
use mau_terms::{NoMemory, OpId};
use std::alloc::Global;

/// Whether each of these sorts is in the set in its place.
fn all_have(poset: &Poset, args: &[&SortSet], sorts: &[u32]) -> bool
    requires args { All (IsOver poset.now) (sets args.now) }
    requires sorts { All (IsSort poset.now) sorts.now }
    ensures { IsTrue result ↔ AllIn poset.now (sets args.now) sorts.now }
{
    if args.len() != sorts.len() {
        return false;
    }
    for i in 0..args.len() {
        if !args[i].has(poset, sorts[i]) {
            return false;
        }
    }
    true
}

/// The same of two sorts in the other order.
fn all_have_swapped(poset: &Poset, args: &[&SortSet], sorts: &[u32]) -> bool
    requires args { All (IsOver poset.now) (sets args.now) }
    requires sorts { All (IsSort poset.now) sorts.now }
    ensures { IsTrue result ↔ AllIn poset.now (sets args.now) (swapped sorts.now) }
{
    match sorts {
        [first, second] => all_have(poset, args, &[*second, *first]),
        _ => all_have(poset, args, sorts),
    }
}

/// Whether the arguments have the argument sorts of a declaration, under comm in either order.
fn suits(poset: &Poset, decl: &Decl, args: &[&SortSet]) -> bool
    requires decl { HasSorts poset.now decl.now }
    requires args { All (IsOver poset.now) (sets args.now) }
    ensures { IsTrue result ↔ Suits (AllIn poset.now (sets args.now)) decl.now }
{
    let sorts = decl.args.items();
    if all_have(poset, args, sorts) {
        return true;
    }
    decl.attrs.comm && all_have_swapped(poset, args, sorts)
}

/// The set of a variable, whose sort or kind this is.
pub(crate) fn of_sort(alloc: Global, poset: &Poset, sort: u32) -> Result<SortSet, NoMemory>
    requires { IsSort poset.now sort }
    ensures exact { IfOk result (λ e. (r : ℕ) → IsIn poset.now e r ↔ IsAtOrBelow poset.now sort r) }
    ensures over { IfOk result (IsOver poset.now) }
    ensures apart { IfOk result (λ e. AreApart poset.now e.minimal) }
{
    let mut minimal = Vec::new(alloc);
    if sort < poset.sorts() {
        minimal.push(sort)?;
    }
    Ok(SortSet {
        minimal,
        kind: poset.kind_of(sort),
    })
}

/// Adds the result of a declaration, if that suits and its result is a sort.
fn add_result(
    alloc: Global,
    poset: &Poset,
    minimal: &mut Vec<u32>,
    decl: &Decl,
    args: &[&SortSet],
) -> Result<(), NoMemory>
    requires sorts { AreSorts poset.now minimal.old.items }
    requires decl { HasSorts poset.now decl.now }
    requires args { All (IsOver poset.now) (sets args.now) }
    ensures added { OnOk result (AddsResult poset.now decl.now (AllIn poset.now (sets args.now)) minimal.old.items minimal.new.items) }
    ensures apart { AreApart poset.now minimal.old.items → AreApart poset.now minimal.new.items }
    ensures sorts { AreSorts poset.now minimal.new.items }
{
    if decl.result >= poset.sorts() {
        return Ok(());
    }
    if !suits(poset, decl, args) {
        return Ok(());
    }
    add(alloc, poset, minimal, decl.result)?;
    Ok(())
}

/// The set of an operator over arguments of these sets: the results of the declarations that suit, and the kind of the result.
pub(crate) fn given(
    alloc: Global,
    sig: &Signature,
    op: OpId,
    args: &[&SortSet],
) -> Result<SortSet, NoMemory>
    requires operator { IsOperator sig.now op.0 }
    requires args { All (IsOver sig.now.hierarchy) (sets args.now) }
    ensures exact { IfOk result (λ e. (r : ℕ) → IsIn sig.now.hierarchy e r ↔ Gives sig.now op.0 (AllIn sig.now.hierarchy (sets args.now)) r) }
    ensures over { IfOk result (IsOver sig.now.hierarchy) }
    ensures apart { IfOk result (λ e. AreApart sig.now.hierarchy e.minimal) }
{
    let poset = sig.poset();
    let mut minimal = Vec::new(alloc);
    for decl in sig.declarations(op) {
        add_result(alloc, poset, &mut minimal, decl, args)?;
    }
    Ok(SortSet {
        minimal,
        kind: sig.result_kind(op),
    })
}

/// The set of an associative operator over a list of two or more elements of these sets, which is nested to the right.
pub(crate) fn of_list(
    alloc: Global,
    sig: &Signature,
    op: OpId,
    items: &[&SortSet],
) -> Result<SortSet, NoMemory>
    requires operator { IsOperator sig.now op.0 }
    requires items { All (IsOver sig.now.hierarchy) (sets items.now) }
    requires two { 2 ≤ length items.now }
    ensures exact { IfOk result (λ e. (r : ℕ) → IsIn sig.now.hierarchy e r ↔ ListIn sig.now op.0 (sets items.now) r) }
    ensures over { IfOk result (IsOver sig.now.hierarchy) }
    ensures apart { IfOk result (λ e. AreApart sig.now.hierarchy e.minimal) }
{
    let mut first = items.len() - 2;
    let mut rest = given(alloc, sig, op, &[items[first], items[first + 1]])?;
    while first > 0 {
        first -= 1;
        rest = given(alloc, sig, op, &[items[first], &rest])?;
    }
    Ok(rest)
}
