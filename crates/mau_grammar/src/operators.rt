//! The productions of operators.
ghost use Rattle.std.specs.Prelude.{◌≡◌, ◌≤◌, ◌<◌, ◌+◌, ◌++◌, ◌∷◌, [], OnOk, IfOk, length};
ghost use Rattle.mau_poset.specs.Order.{kinds};
ghost use Rattle.mau_signature.specs.declared.decl.Decl.{Decl};
ghost use Rattle.mau_signature.specs.declared.TheConstants.{MAX_DECLARATIONS};
ghost use Rattle.mau_grammar.specs.Productions.{written, prefixed, prefixed_by, of_operator, of_operators};

use crate::parts::{parts_in_order, push_arguments};
use crate::precedence::precedence;
use crate::prefix::head_of;
use crate::production::{Part, Production};
use crate::sorts::{kind_at, kinds_of};
use mau_poset::Poset;
use mau_signature::{Decl, MAX_DECLARATIONS, Signature};
use mau_terms::{NoMemory, OpId, Seq};
use std::alloc::Global;

/// The level of a term that is written with the form of the declaration.
fn level(decl: &Decl) -> u32
    ensures { result ≡ Rattle.mau_grammar.specs.Productions.level decl.now }
{
    if decl.form.holes() == 0 {
        1
    } else {
        precedence(decl) as u32 + 1
    }
}

/// Whether a term of the operator is written with its words and arguments in order.
fn is_written(decl: &Decl) -> bool
    ensures { result ≡ Rattle.mau_grammar.specs.Productions.is_written decl.now }
{
    !decl.form.pieces().is_empty() && (decl.form.holes() != 0 || decl.args.items().is_empty())
}

/// Puts the production of the form behind others.
fn push_written(
    alloc: Global,
    out: &mut Vec<Production>,
    poset: &Poset,
    op: OpId,
    decl: &Decl,
) -> Result<(), NoMemory>
    ensures { OnOk result (out.new.items ≡ out.old.items ++ written poset.now op.0 decl.now) }
{
    if !is_written(decl) {
        return Ok(());
    }
    let kinds = kinds_of(alloc, poset, decl.args.items())?;
    let parts = parts_in_order(alloc, decl, &kinds)?;
    out.push(Production {
        kind: kind_at(poset, decl.result),
        level: level(decl),
        op: Some(op),
        parts: Seq::new(parts),
    })?;
    Ok(())
}

/// The production of a list of two arguments; the second may be a list itself.
fn pair(alloc: Global, op: OpId, kind: u32, first: u32, second: u32) -> Result<Production, NoMemory>
    ensures { IfOk result (λ p. p ≡ Rattle.mau_grammar.specs.Productions.pair op.0 kind first second) }
{
    let mut parts = Vec::new(alloc);
    parts.push(Part::any(first))?;
    parts.push(Part::word(alloc, ",")?)?;
    parts.push(Part::any(second))?;
    Ok(Production {
        kind,
        level: 1,
        op: Some(op),
        parts: Seq::new(parts),
    })
}

/// Puts the prefix form of an associative operator behind other productions.
fn push_chained(
    alloc: Global,
    out: &mut Vec<Production>,
    op: OpId,
    kind: u32,
    list: u32,
    head: Vec<Part>,
) -> Result<(), NoMemory>
    ensures { OnOk result (out.new.items ≡ out.old.items ++ Rattle.mau_grammar.specs.Productions.chained op.0 kind list head.items) }
{
    let mut parts = head;
    push_arguments(alloc, &mut parts, &[list])?;
    out.push(Production {
        kind,
        level: 1,
        op: None,
        parts: Seq::new(parts),
    })?;
    out.push(pair(alloc, op, list, kind, kind)?)?;
    out.push(pair(alloc, op, list, kind, list)?)?;
    Ok(())
}

/// Puts the prefix form behind this head behind other productions.
fn push_prefixed_by(
    alloc: Global,
    out: &mut Vec<Production>,
    poset: &Poset,
    op: OpId,
    decl: &Decl,
    head: Vec<Part>,
) -> Result<(), NoMemory>
    requires few { op.0 ≤ MAX_DECLARATIONS }
    ensures { OnOk result (out.new.items ≡ out.old.items ++ prefixed_by poset.now op.0 decl.now head.items) }
{
    let kind = kind_at(poset, decl.result);
    if decl.attrs.assoc {
        let list = poset.sorts() + poset.kinds() + op.0;
        return push_chained(alloc, out, op, kind, list, head);
    }
    let mut parts = head;
    let kinds = kinds_of(alloc, poset, decl.args.items())?;
    push_arguments(alloc, &mut parts, &kinds)?;
    out.push(Production {
        kind,
        level: 1,
        op: Some(op),
        parts: Seq::new(parts),
    })?;
    Ok(())
}

/// Puts the prefix form behind other productions.
fn push_prefixed(
    alloc: Global,
    out: &mut Vec<Production>,
    poset: &Poset,
    op: OpId,
    decl: &Decl,
) -> Result<(), NoMemory>
    requires few { op.0 ≤ MAX_DECLARATIONS }
    ensures { OnOk result (out.new.items ≡ out.old.items ++ prefixed poset.now op.0 decl.now) }
{
    if decl.args.items().is_empty() {
        return Ok(());
    }
    match head_of(alloc, &decl.form)? {
        None => Ok(()),
        Some(head) => {
            push_prefixed_by(alloc, out, poset, op, decl, head)?;
            Ok(())
        }
    }
}

/// Puts the productions of an operator behind others.
fn push_operator(
    alloc: Global,
    out: &mut Vec<Production>,
    poset: &Poset,
    op: OpId,
    decls: &[Decl],
) -> Result<(), NoMemory>
    requires few { op.0 ≤ MAX_DECLARATIONS }
    ensures { OnOk result (out.new.items ≡ out.old.items ++ of_operator poset.now op.0 decls.now) }
{
    match decls.first() {
        None => Ok(()),
        Some(decl) => {
            push_written(alloc, out, poset, op, decl)?;
            push_prefixed(alloc, out, poset, op, decl)?;
            Ok(())
        }
    }
}

/// Puts the productions of all operators behind others.
pub fn push_operators(
    alloc: Global,
    out: &mut Vec<Production>,
    sig: &Signature,
) -> Result<(), NoMemory>
    ensures { OnOk result (out.new.items ≡ out.old.items ++ of_operators sig.now (length sig.now.declarations)) }
{
    for i in 0..sig.operators() {
        let op = OpId(i + 1);
        push_operator(alloc, out, sig.poset(), op, sig.declarations(op))?;
    }
    Ok(())
}
