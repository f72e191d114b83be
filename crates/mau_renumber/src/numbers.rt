//! Declarations and operators in other numbers of sorts and kinds.
ghost use Rattle.std.specs.Prelude.{◌≡◌, ◌<◌, ◌+◌, ℕ, length, get_or, slice_get, All, Some, IfOk};
ghost use Rattle.mau_poset.specs.Order.{kinds};
ghost use Rattle.mau_signature.specs.Faults.{IsSort, HasSorts};
ghost use Rattle.mau_signature.specs.Signature.{IsOperator, declarations_at};
ghost use Rattle.mau_renumber.specs.Carried.{declaration_to, operator_to};

use mau_signature::{Decl, Signature};
use mau_terms::{NoMemory, OpId, Seq};
use std::alloc::Global;

/// A declaration in other numbers, which stand in a table.
pub fn declaration_to(alloc: Global, table: &[u32], decl: &Decl) -> Result<Decl, NoMemory>
    requires args { All (λ a. a < length table.now) decl.now.args }
    requires result { decl.now.result < length table.now }
    ensures value { IfOk result (λ d. d ≡ declaration_to (λ a. get_or table.now a 0) decl.now) }
{
    let mut args = Vec::with_capacity(alloc, decl.args.items().len())?;
    for arg in decl.args.items() {
        args.push(table[*arg as usize])?;
    }
    Ok(Decl {
        form: decl.form.copy(alloc)?,
        args: Seq::new(args),
        result: table[decl.result as usize],
        attrs: decl.attrs.copy(alloc)?,
    })
}

/// The first declaration of an operator.
fn first_declaration(signature: &Signature, op: OpId) -> &Decl
    requires { IsOperator signature.now op.0 }
    ensures first { slice_get (declarations_at signature.now op.0) 0 ≡ Some result.now }
    ensures sorts { HasSorts signature.now.hierarchy result.now }
{
    match signature.declarations(op).first() {
        Some(decl) => decl,
        None => unreachable!(),
    }
}

/// The number, over a new signature, of an operator of an old one, whose sorts and kinds have the numbers of a table.
fn operator_to(
    alloc: Global,
    sorts: &[u32],
    old: &Signature,
    new: &Signature,
    op: OpId,
) -> Result<u32, NoMemory>
    requires operator { IsOperator old.now op.0 }
    requires table { length sorts.now ≡ old.now.hierarchy.sorts + kinds old.now.hierarchy }
    requires sorts { All (IsSort new.now.hierarchy) sorts.now }
    ensures { IfOk result (λ n. n ≡ operator_to (λ a. get_or sorts.now a 0) old.now new.now op.0) }
{
    let decl = declaration_to(alloc, sorts, first_declaration(old, op))?;
    match new.operator(alloc, &decl)? {
        Some(op) => Ok(op.0),
        None => Ok(0),
    }
}

/// The numbers of all operators, the first of them being that of none.
pub fn operator_table(
    alloc: Global,
    sorts: &[u32],
    old: &Signature,
    new: &Signature,
) -> Result<Vec<u32>, NoMemory>
    requires table { length sorts.now ≡ old.now.hierarchy.sorts + kinds old.now.hierarchy }
    requires sorts { All (IsSort new.now.hierarchy) sorts.now }
    ensures { IfOk result (λ table. (n : ℕ) → get_or table.items n 0 ≡ operator_to (λ a. get_or sorts.now a 0) old.now new.now n) }
{
    let mut table = Vec::new(alloc);
    table.push(0)?;
    for i in 0..old.operators() {
        table.push(operator_to(alloc, sorts, old, new, OpId(i + 1))?)?;
    }
    Ok(table)
}
