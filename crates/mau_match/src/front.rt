//! Lists that begin with elements that are known: patterns with these in place of a variable, and the lists that stand behind all of them.
ghost use Rattle.std.specs.Prelude.{◌≡◌, ◌⊎◌, ◌≤◌, ◌++◌, ◌∷◌, [], List, length, map, None, false, All, IfOk, IfSome, OnOk};
ghost use Rattle.mau_terms.specs.Tree.{apply, no_trees, tree, trees_of, variable};
ghost use Rattle.mau_terms.specs.Subst.{instance, instances, same_variable};
ghost use Rattle.mau_terms.specs.Solution.{list_under};
ghost use Rattle.mau_terms.specs.View.{tree_of, variable_of};
ghost use Rattle.mau_terms.specs.declared.bare.Bare.{Bare as BareOf};
ghost use Rattle.mau_signature.specs.Signature.{theory_at};
ghost use Rattle.mau_store.specs.Node.{Extends};
ghost use Rattle.mau_store.specs.Trees.{tree_at, trees_at};
ghost use Rattle.mau_store.specs.View.{numbers};
ghost use Rattle.mau_canon.specs.Standing.{StandsWithin, StandWithin};
ghost use Rattle.mau_domains.specs.Stored.{IsListOperator, IsPartOver};
ghost use Rattle.mau_match.specs.Fronts.{split_at, IsOtherLimit};

use crate::Limit;
use mau_canon::{BuildFault, from_list, list_of};
use mau_domains::Part;
use mau_listing::compare_lists;
use mau_signature::Signature;
use mau_store::Store;
use mau_terms::{Args, Bare, NoMemory, OpId, TermId, VarId};
use std::alloc::Global;

// ---- patterns

/// An operator over two variables.
fn pair_of(alloc: Global, op: OpId, first: VarId, second: VarId) -> Result<Bare, NoMemory>
    ensures { IfOk result (λ p. tree_of p ≡ apply op.0 (tree (variable first.index first.sort) (tree (variable second.index second.sort) no_trees))) }
{
    let mut args = Vec::new(alloc);
    args.push(Bare::Var(first))?;
    args.push(Bare::Var(second))?;
    Ok(Bare::App(op, Args::new(args)))
}

/// A pattern with an operator over another variable and a variable at each place of that variable.
#[cycle(front)]
pub fn with_front(
    alloc: Global,
    pattern: &Bare,
    op: OpId,
    target: VarId,
    front: VarId,
) -> Result<Bare, NoMemory>
    ensures { IfOk result (λ copy. tree_of copy ≡ instance (split_at op.0 (variable_of target) (variable_of front)) (tree_of pattern.now)) }
{
    match pattern {
        Bare::Var(v) => {
            if *v == target {
                return pair_of(alloc, op, front, *v);
            }
            Ok(Bare::Var(*v))
        }
        Bare::Num(n) => Ok(Bare::Num(*n)),
        Bare::App(top, args) => {
            let mut out = Vec::new(alloc);
            push_with_front(alloc, args.items(), op, target, front, &mut out)?;
            Ok(Bare::App(*top, Args::new(out)))
        }
    }
}

/// Adds such a copy of each of some patterns.
#[cycle(front)]
fn push_with_front(
    alloc: Global,
    patterns: &[Bare],
    op: OpId,
    target: VarId,
    front: VarId,
    out: &mut Vec<Bare>,
) -> Result<(), NoMemory>
    ensures { OnOk result ((more : List BareOf) × (out.new.items ≡ out.old.items ++ more)
        × (trees_of (map tree_of more) ≡ instances (split_at op.0 (variable_of target) (variable_of front)) (trees_of (map tree_of patterns.now)))) }
{
    match patterns {
        [] => Ok(()),
        [first, rest @ ..] => {
            let copy = with_front(alloc, first, op, target, front)?;
            out.push(copy)?;
            push_with_front(alloc, rest, op, target, front, out)
        }
    }
}

// ---- values

/// The term over a list, where it has just this list.
pub fn term_over(
    store: &mut Store,
    sig: &Signature,
    op: OpId,
    list: &[TermId],
) -> Result<Option<TermId>, NoMemory>
    requires operator { IsListOperator sig.now op.0 }
    requires list { StandWithin (theory_at sig.now) store.old (numbers list.now) }
    ensures list { IfOk result (λ o. IfSome o (λ id. list_under (theory_at sig.now op.0) op.0 (tree_at store.new id.0) ≡ trees_at store.old (numbers list.now))) }
    ensures within { IfOk result (λ o. IfSome o (λ id. StandsWithin (theory_at sig.now) store.new id.0)) }
    ensures extends { Extends store.old store.new }
{
    match from_list(store, sig, op, list) {
        Ok(id) => {
            if compare_lists(store, list_of(store, sig, op, &id), list).is_eq() {
                return Ok(Some(id));
            }
            Ok(None)
        }
        Err(BuildFault::NoMemory) => Err(NoMemory),
        Err(BuildFault::TooDeep) => Ok(None),
        Err(BuildFault::Overflow) => Ok(None),
    }
}

/// Whether a list has no element, and no term has such a list.
pub fn is_blank(sig: &Signature, op: OpId, list: &[TermId]) -> bool
    requires operator { IsListOperator sig.now op.0 }
    ensures { result ≡ false → (theory_at sig.now op.0).id ≡ None → 1 ≤ length list.now }
{
    if list.is_empty() {
        return sig.theory(op).id.is_none();
    }
    false
}

/// The greater of two terms, as far as there are two.
fn greater(store: &Store, sig: &Signature, best: Option<TermId>, id: TermId) -> TermId
    requires best { IfSome best (λ b. StandsWithin (theory_at sig.now) store.now b.0) }
    requires id { StandsWithin (theory_at sig.now) store.now id.0 }
    ensures { StandsWithin (theory_at sig.now) store.now result.0 }
{
    let Some(other) = best else {
        return id;
    };
    if store.compare(other, id).is_gt() {
        return other;
    }
    id
}

/// The greatest of some terms and another one, if there is one.
fn greatest_of(
    store: &Store,
    sig: &Signature,
    items: &[TermId],
    best: Option<TermId>,
) -> Option<TermId>
    requires best { IfSome best (λ b. StandsWithin (theory_at sig.now) store.now b.0) }
    requires items { StandWithin (theory_at sig.now) store.now (numbers items.now) }
    ensures { IfSome result (λ b. StandsWithin (theory_at sig.now) store.now b.0) }
{
    let mut found = best;
    for id in items {
        found = Some(greater(store, sig, found, *id));
    }
    found
}

/// The same with the items of a part, if that is a list of an operator.
fn greatest_with(
    store: &Store,
    sig: &Signature,
    op: OpId,
    part: &Part,
    best: Option<TermId>,
) -> Option<TermId>
    requires part { IsPartOver sig.now store.now part.now }
    requires best { IfSome best (λ b. StandsWithin (theory_at sig.now) store.now b.0) }
    ensures { IfSome result (λ b. StandsWithin (theory_at sig.now) store.now b.0) }
{
    match part {
        Part::One(_) => best,
        Part::ListOf(_, top, items) => {
            if *top == op {
                return greatest_of(store, sig, items.items(), best);
            }
            best
        }
    }
}

/// The greatest item of those parts that are lists of an operator, if there is one.
pub fn greatest_item(store: &Store, sig: &Signature, op: OpId, parts: &[Part]) -> Option<TermId>
    requires parts { All (IsPartOver sig.now store.now) parts.now }
    ensures { IfSome result (λ id. StandsWithin (theory_at sig.now) store.now id.0) }
{
    let mut found = None;
    for part in parts {
        found = greatest_with(store, sig, op, part, found);
    }
    found
}

// ---- limits

/// Adds a limit, unless it is one of a variable.
fn push_other(target: VarId, limit: Limit, out: &mut Vec<Limit>) -> Result<(), NoMemory>
    ensures { OnOk result ((out.new.items ≡ out.old.items) ⊎ ((out.new.items ≡ out.old.items ++ limit ∷ []) × (same_variable (variable_of limit.variable) (variable_of target) ≡ false))) }
{
    if limit.variable == target {
        return Ok(());
    }
    out.push(limit)?;
    Ok(())
}

/// The limits of other variables than this one, and that this one has an element at least.
pub fn other_limits(
    alloc: Global,
    limits: &[Limit],
    op: OpId,
    target: VarId,
) -> Result<Vec<Limit>, NoMemory>
    ensures { IfOk result (λ out. All (IsOtherLimit limits.now op target) out.items) }
{
    let mut out = Vec::new(alloc);
    out.push(Limit {
        op,
        variable: target,
        least: 1,
        most: None,
    })?;
    for limit in limits {
        push_other(target, *limit, &mut out)?;
    }
    Ok(out)
}
