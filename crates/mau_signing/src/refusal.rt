//! The texts of sorts, declarations and operators at fault.
ghost use Rattle.std.specs.Prelude.{◌≡◌, ◌++◌, codes, decimal, IfOk, OnOk};
ghost use Rattle.mau_declare.specs.Flattened.{AreLower};
ghost use Rattle.mau_signature.specs.Signature.{terms_over};
ghost use Rattle.mau_signing.specs.Signed.{cycle_text, declared_text, declaration_text, sorts_text, operator_text, operator_fault_text};
ghost use Rattle.mau_signing.specs.Refusals.{IsNamed};

use mau_declare::{Names, write_form, write_name, write_number, write_sort, write_text};
use mau_poset::Poset;
use mau_sigcheck::CheckFault;
use mau_signature::{Decl, SigFault, Signature};
use mau_terms::{NoMemory, OpId};
use std::alloc::Global;

/// The text for sorts on a cycle.
pub fn cycle_text(alloc: Global, sorts: &Names, a: u32, b: u32) -> Result<Vec<u8>, NoMemory>
    ensures { IfOk result (λ text. text.items ≡ cycle_text sorts.now a b) }
{
    let mut out = Vec::new(alloc);
    write_text(&mut out, "Cycle ")?;
    write_name(&mut out, sorts, a)?;
    write_text(&mut out, " ")?;
    write_name(&mut out, sorts, b)?;
    Ok(out)
}

/// The text of a fault, behind which the operator of a declaration is named.
fn named_text(alloc: Global, decls: &[Decl], fault: &str, number: u32) -> Result<Vec<u8>, NoMemory>
    ensures { IfOk result (λ text. text.items ≡ fault.now ++ declared_text decls.now number) }
{
    let mut out = Vec::new(alloc);
    write_text(&mut out, fault)?;
    match decls.get(number as usize) {
        Some(decl) => write_form(&mut out, &decl.form)?,
        None => (),
    }
    Ok(out)
}

/// The text of a fault of one of these declarations.
pub fn declaration_text(alloc: Global, decls: &[Decl], fault: SigFault) -> Result<Vec<u8>, NoMemory>
    ensures { IfOk result (λ text. text.items ≡ declaration_text decls.now fault) }
{
    match fault {
        SigFault::KindMismatch(number) => named_text(alloc, decls, "KindMismatch ", number),
        SigFault::AttrConflict(number) => named_text(alloc, decls, "AttrConflict ", number),
        SigFault::BadStrat(number) => named_text(alloc, decls, "BadStrat ", number),
        SigFault::IdNotConstant(number) => named_text(alloc, decls, "IdNotConstant ", number),
        SigFault::Arity(number) => named_text(alloc, decls, "Arity ", number),
        SigFault::NoMemory => Ok(Vec::new(alloc)),
    }
}

/// Whether the number is that of an operator.
fn is_operator(signature: &Signature, op: OpId) -> bool
    ensures { result ≡ (terms_over signature.now).has_operator op.0 }
{
    op.0 > 0 && op.0 <= signature.operators()
}

/// Writes an operator: the pieces of its form.
pub fn write_operator(out: &mut Vec<u8>, signature: &Signature, op: OpId) -> Result<(), NoMemory>
    ensures { OnOk result (out.new.items ≡ out.old.items ++ operator_text signature.now op.0) }
{
    if !is_operator(signature, op) {
        return Ok(());
    }
    write_form(out, signature.form(op))
}

/// Writes sorts and kinds, each behind a space.
fn write_sorts(
    out: &mut Vec<u8>,
    sorts: &Names,
    poset: &Poset,
    lower: &[bool],
    tuple: &[u32],
) -> Result<(), NoMemory>
    requires { AreLower poset.now.sorts poset.now.pairs lower.now }
    ensures { OnOk result (out.new.items ≡ out.old.items ++ sorts_text sorts.now poset.now tuple.now) }
{
    for sort in tuple {
        write_text(out, " ")?;
        write_sort(out, sorts, poset, lower, *sort)?;
    }
    Ok(())
}

/// The text of a fault, an operator, and sorts behind it.
fn tuple_text(
    alloc: Global,
    sorts: &Names,
    signature: &Signature,
    lower: &[bool],
    fault: &str,
    op: OpId,
    tuple: &[u32],
) -> Result<Vec<u8>, NoMemory>
    requires { AreLower signature.now.hierarchy.sorts signature.now.hierarchy.pairs lower.now }
    ensures { IfOk result (λ text. text.items ≡ fault.now ++ operator_text signature.now op.0 ++ sorts_text sorts.now signature.now.hierarchy tuple.now) }
{
    let mut out = Vec::new(alloc);
    write_text(&mut out, fault)?;
    write_operator(&mut out, signature, op)?;
    write_sorts(&mut out, sorts, signature.poset(), lower, tuple)?;
    Ok(out)
}

/// The text for an operator with too many tuples.
fn count_text(alloc: Global, signature: &Signature, op: OpId, n: u64) -> Result<Vec<u8>, NoMemory>
    ensures { IfOk result (λ text. text.items ≡ codes "TooManyTuples " ++ operator_text signature.now op.0 ++ codes " " ++ decimal n) }
{
    let mut out = Vec::new(alloc);
    write_text(&mut out, "TooManyTuples ")?;
    write_operator(&mut out, signature, op)?;
    write_text(&mut out, " ")?;
    write_number(&mut out, u128::from(n))?;
    Ok(out)
}

/// The text of a fault of an operator, over the names of sorts; want of memory has none.
pub fn operator_fault_text(
    alloc: Global,
    sorts: &Names,
    signature: &Signature,
    lower: &[bool],
    fault: &CheckFault,
) -> Result<Vec<u8>, NoMemory>
    requires { AreLower signature.now.hierarchy.sorts signature.now.hierarchy.pairs lower.now }
    ensures text { IfOk result (λ text. text.items ≡ operator_fault_text sorts.now signature.now fault.now) }
    ensures named { IfOk result (λ text. IsNamed fault.now) }
{
    match fault {
        CheckFault::TooManyTuples(op, n) => count_text(alloc, signature, *op, *n),
        CheckFault::NotPreregular(op, tuple) => tuple_text(
            alloc,
            sorts,
            signature,
            lower,
            "NotPreregular ",
            *op,
            tuple.items(),
        ),
        CheckFault::NotAssociativeSorts(op, triple) => tuple_text(
            alloc,
            sorts,
            signature,
            lower,
            "NotAssociativeSorts ",
            *op,
            triple,
        ),
        CheckFault::IdentityLowersSort(op, sort) => tuple_text(
            alloc,
            sorts,
            signature,
            lower,
            "IdentityLowersSort ",
            *op,
            &[*sort],
        ),
        CheckFault::NoMemory => Err(NoMemory),
    }
}
