//! All declarations of a module: those of its parts, its own, and those of truth values.
ghost use Rattle.std.specs.Prelude.{◌≡◌, ◌++◌, ◌∷◌, [], ◌<◌, ◌≤◌, map, length, true, All, IfOk, OnOk, get_or};
ghost use Rattle.mau_poset.specs.Order.{IsWithin};
ghost use Rattle.mau_poset.specs.declared.TheConstants.{MAX_SORTS};
ghost use Rattle.mau_signature.specs.Faults.{HasSorts};
ghost use Rattle.mau_declare.specs.Names.{has_name};
ghost use Rattle.mau_renumber.specs.Carried.{declaration_to};
ghost use Rattle.mau_module.specs.Numbering.{pair_to};
ghost use Rattle.mau_module.specs.Included.{pairs_of, number_from};
ghost use Rattle.mau_module.specs.Declarations.{declarations_of, all_declarations};
ghost use Rattle.mau_module.specs.Known.{AreKnown};

use crate::library::{Library, TRUTH};
use crate::module::Module;
use crate::numbering::{number_in, number_table, sort_table};
use crate::truth::add_truth;
use mau_declare::Names;
use mau_poset::Poset;
use mau_renumber::declaration_to;
use mau_signature::Decl;
use mau_terms::{Duplicate, NoMemory};
use std::alloc::Global;

/// A subsort pair in the numbers of a table.
fn pair_in(table: &[u32], pair: (u32, u32)) -> (u32, u32)
    requires first { pair.0 < length table.now }
    requires second { pair.1 < length table.now }
    ensures { result ≡ (get_or table.now pair.0 0, get_or table.now pair.1 0) }
{
    (table[pair.0 as usize], table[pair.1 as usize])
}

/// Adds the subsort pairs that a module itself declares.
fn add_module_pairs(
    alloc: Global,
    module: &Module,
    names: &Names,
    pairs: &mut Vec<(u32, u32)>,
) -> Result<(), NoMemory>
    requires few { length names.now ≤ MAX_SORTS }
    requires known { All (λ x. has_name names.now x ≡ true) «module».now.sorts }
    ensures pairs { OnOk result (pairs.new.items ≡ pairs.old.items ++ map (pair_to «module».now.sorts names.now) «module».now.own.pairs) }
    ensures within { OnOk result (IsWithin pairs.old.items (length names.now) → IsWithin pairs.new.items (length names.now)) }
{
    let table = sort_table(alloc, module.sorts(), names)?;
    let _sorts = module.sorts();
    for pair in module.own_pairs() {
        pairs.push(pair_in(&table, *pair))?;
    }
    Ok(())
}

/// The subsort pairs of some modules.
pub fn pairs_of(
    alloc: Global,
    library: &Library,
    names: &Names,
    parts: &[usize],
) -> Result<Vec<(u32, u32)>, NoMemory>
    requires few { length names.now ≤ MAX_SORTS }
    requires parts { All (λ p. p < length library.now) parts.now }
    requires known { AreKnown library.now names.now parts.now }
    ensures pairs { IfOk result (λ pairs. pairs.items ≡ pairs_of library.now names.now parts.now) }
    ensures within { IfOk result (λ pairs. IsWithin pairs.items (length names.now)) }
{
    let mut pairs = Vec::new(alloc);
    for part in parts {
        add_module_pairs(alloc, library.module(*part), names, &mut pairs)?;
    }
    Ok(pairs)
}

/// Adds the operators that a module itself declares.
fn add_module_declarations(
    alloc: Global,
    module: &Module,
    names: &Names,
    poset: &Poset,
    decls: &mut Vec<Decl>,
) -> Result<(), NoMemory>
    requires few { length names.now ≤ MAX_SORTS }
    requires known { All (λ x. has_name names.now x ≡ true) «module».now.sorts }
    requires named { length names.now ≡ poset.now.sorts }
    ensures decls { OnOk result (decls.new.items ≡ decls.old.items ++ map (declaration_to (number_from «module».now names.now poset.now)) «module».now.own.declarations) }
    ensures sorts { OnOk result (All (HasSorts poset.now) decls.old.items → All (HasSorts poset.now) decls.new.items) }
{
    let table = number_table(alloc, module, names, poset)?;
    for decl in module.own_declarations() {
        decls.push(declaration_to(alloc, &table, decl)?)?;
    }
    Ok(())
}

/// The operators that some modules declare.
fn declarations_of(
    alloc: Global,
    library: &Library,
    names: &Names,
    poset: &Poset,
    parts: &[usize],
) -> Result<Vec<Decl>, NoMemory>
    requires few { length names.now ≤ MAX_SORTS }
    requires parts { All (λ p. p < length library.now) parts.now }
    requires known { AreKnown library.now names.now parts.now }
    requires named { length names.now ≡ poset.now.sorts }
    ensures decls { IfOk result (λ decls. decls.items ≡ declarations_of library.now names.now poset.now parts.now) }
    ensures sorts { IfOk result (λ decls. All (HasSorts poset.now) decls.items) }
{
    let mut decls = Vec::new(alloc);
    for part in parts {
        add_module_declarations(alloc, library.module(*part), names, poset, &mut decls)?;
    }
    Ok(decls)
}

/// An equal declaration.
fn copy_declaration(alloc: Global, decl: &Decl) -> Result<Decl, NoMemory>
    ensures { IfOk result (λ copy. copy ≡ decl.now) }
{
    Ok(Decl {
        form: decl.form.copy(alloc)?,
        args: decl.args.copy(alloc)?,
        result: decl.result,
        attrs: decl.attrs.copy(alloc)?,
    })
}

/// Adds copies of declarations.
pub fn add_copies(alloc: Global, decls: &mut Vec<Decl>, more: &[Decl]) -> Result<(), NoMemory>
    ensures { OnOk result (decls.new.items ≡ decls.old.items ++ more.now) }
{
    for decl in more {
        decls.push(copy_declaration(alloc, decl)?)?;
    }
    Ok(())
}

/// Whether a number is among the parts, or is that of the module itself, which has the next one.
pub fn has_part(library: &Library, parts: &[usize], number: usize) -> bool
    ensures { result ≡ Rattle.mau_module.specs.Included.has_part (parts.now ++ length library.now ∷ []) number }
{
    parts.contains(&number) || library.len() == number
}

/// All declarations of a module, where its own are these.
pub fn all_declarations(
    alloc: Global,
    library: &Library,
    names: &Names,
    poset: &Poset,
    parts: &[usize],
    own: &[Decl],
) -> Result<Vec<Decl>, NoMemory>
    requires few { length names.now ≤ MAX_SORTS }
    requires parts { All (λ p. p < length library.now) parts.now }
    requires known { AreKnown library.now names.now parts.now }
    requires named { length names.now ≡ poset.now.sorts }
    requires sorts { All (HasSorts poset.now) own.now }
    ensures decls { IfOk result (λ decls. decls.items ≡ all_declarations library.now parts.now names.now poset.now own.now) }
    ensures within { IfOk result (λ decls. All (HasSorts poset.now) decls.items) }
{
    let mut decls = declarations_of(alloc, library, names, poset, parts)?;
    add_copies(alloc, &mut decls, own)?;
    if has_part(library, parts, TRUTH) {
        add_truth(alloc, poset, number_in(names, "Bool"), &mut decls)?;
    }
    Ok(decls)
}
