//! Declarations of operators and variables, from what a module reads as.
ghost use Rattle.std.specs.Prelude.{◌≡◌, ◌++◌, ◌<◌, ◌≤◌, length, map, option_map, slice_get, All, false, IfOk, OnOk};
ghost use Rattle.std.specs.Option.{option_copied};
ghost use Rattle.mau_poset.specs.Order.{kind_of};
ghost use Rattle.mau_signature.specs.Faults.{IsSort, HasSorts, is_successor};
ghost use Rattle.mau_declare.specs.Flattened.{declared_forms, meant, numeral_of, identity_meant, is_numeric, attributes_meant, declaration_at, declarations_in, declarations, first_conflict, variable_at};
ghost use Rattle.mau_declare.specs.Elements.{IsOver, AreOver};

use crate::element::{Declared, Elements, Operators, SortUse};
use crate::words::Words;
use mau_grammar::Alias;
use mau_numerals::great_number;
use mau_poset::Poset;
use mau_signature::{Attrs, Decl, Form, IdSpec, Piece};
use mau_terms::{NoMemory, Seq, Text};
use std::alloc::Global;

/// The form of the declaration with this number, counted from 0.
pub fn declared_form(operators: &[Operators], number: usize) -> Option<&Form>
    ensures { option_copied result ≡ slice_get (declared_forms operators.now) number }
{
    let mut rest = number;
    for ops in operators {
        let forms = ops.forms.items();
        if rest < forms.len() {
            return Some(&forms[rest]);
        }
        rest -= forms.len();
    }
    None
}

/// The number, among all declarations, of the first one whose attributes conflict, counted from 0. Of a declaration of several
/// forms that is the number of the first form.
pub fn first_conflict(operators: &[Operators]) -> Option<usize>
    requires few { length (declared_forms operators.now) ≤ usize.MAX }
    ensures { result ≡ first_conflict operators.now }
{
    let mut before = 0;
    for ops in operators {
        if ops.conflict {
            return Some(before);
        }
        before += ops.forms.items().len();
    }
    None
}

/// What a sort in a declaration stands for: in a partial one, and in brackets, its kind.
fn meant(poset: &Poset, partial: bool, used: SortUse) -> u32
    requires { used.sort < poset.now.sorts }
    ensures value { result ≡ Rattle.mau_declare.specs.Flattened.meant poset.now partial used }
    ensures sort { IsSort poset.now result }
{
    let _sorts = poset.sorts();
    if partial || used.whole_kind {
        poset.kind_of(used.sort)
    } else {
        used.sort
    }
}

/// What some sorts stand for.
fn all_meant(
    alloc: Global,
    poset: &Poset,
    partial: bool,
    uses: &[SortUse],
) -> Result<Vec<u32>, NoMemory>
    requires { All (λ u. u.sort < poset.now.sorts) uses.now }
    ensures value { IfOk result (λ sorts. sorts.items ≡ map (meant poset.now partial) uses.now) }
    ensures sorts { IfOk result (λ sorts. All (IsSort poset.now) sorts.items) }
{
    let mut sorts = Vec::with_capacity(alloc, uses.len())?;
    for used in uses {
        sorts.push(meant(poset, partial, *used))?;
    }
    Ok(sorts)
}

/// The numeral that a form is: one word that is a numeral of at most 128 bits.
fn numeral_of(form: &Form) -> Option<u128>
    ensures { result ≡ numeral_of form.now }
{
    match form.pieces() {
        [Piece::Word(word)] => great_number(word.as_str().as_bytes()),
        _ => None,
    }
}

/// What an identity stands for, where numerals may stand or not.
fn identity_meant(numerals: bool, identity: IdSpec) -> IdSpec
    ensures { result ≡ identity_meant numerals identity }
{
    match identity {
        IdSpec::Const(form) => {
            if !numerals {
                return IdSpec::Const(form);
            }
            match numeral_of(&form) {
                Some(number) => IdSpec::Num(number),
                None => IdSpec::Const(form),
            }
        }
        IdSpec::Num(number) => IdSpec::Num(number),
    }
}

/// Whether a sort or kind lies in the kind of the numerals, if there are numerals.
fn is_numeric(poset: &Poset, numerals: Option<u32>, sort: u32) -> bool
    requires { IsSort poset.now sort }
    ensures { result ≡ is_numeric poset.now numerals sort }
{
    match numerals {
        Some(kind) => poset.kind_of(sort) == kind,
        None => false,
    }
}

/// What a given identity stands for, if one is given.
fn given_identity(numerals: bool, given: Option<IdSpec>) -> Option<IdSpec>
    ensures { result ≡ option_map (identity_meant numerals) given }
{
    match given {
        Some(identity) => Some(identity_meant(numerals, identity)),
        None => None,
    }
}

/// The attributes of a declaration whose result lies in the kind of the numerals, or does not.
fn attributes_meant(alloc: Global, numerals: bool, attrs: &Attrs) -> Result<Attrs, NoMemory>
    ensures { IfOk result (λ a. a ≡ attributes_meant numerals attrs.now) }
{
    let same = attrs.copy(alloc)?;
    Ok(Attrs {
        id: given_identity(numerals, same.id),
        ..same
    })
}

/// The declaration of the operator with this form.
fn declaration(
    alloc: Global,
    poset: &Poset,
    numerals: Option<u32>,
    ops: &Operators,
    form: &Form,
) -> Result<Decl, NoMemory>
    requires { IsOver poset.now.sorts ops.now }
    ensures value { IfOk result (λ decl. decl ≡ declaration_at poset.now numerals ops.now form.now) }
    ensures sorts { IfOk result (HasSorts poset.now) }
    ensures no_hooks { IfOk result (λ decl. is_successor decl.attrs ≡ false) }
{
    let args = all_meant(alloc, poset, ops.partial, ops.args.items())?;
    let result = meant(poset, ops.partial, ops.result);
    Ok(Decl {
        form: form.copy(alloc)?,
        args: Seq::new(args),
        result,
        attrs: attributes_meant(alloc, is_numeric(poset, numerals, result), &ops.attrs)?,
    })
}

/// Adds the declarations of some operators.
fn add_declarations_in(
    alloc: Global,
    poset: &Poset,
    numerals: Option<u32>,
    ops: &Operators,
    decls: &mut Vec<Decl>,
) -> Result<(), NoMemory>
    requires { IsOver poset.now.sorts ops.now }
    ensures value { OnOk result (decls.new.items ≡ decls.old.items ++ declarations_in poset.now numerals ops.now) }
    ensures sorts { OnOk result (All (HasSorts poset.now) (declarations_in poset.now numerals ops.now)) }
    ensures no_hooks { OnOk result (All (λ d. is_successor d.attrs ≡ false) (declarations_in poset.now numerals ops.now)) }
{
    for form in ops.forms.items() {
        decls.push(declaration(alloc, poset, numerals, ops, form)?)?;
    }
    Ok(())
}

/// Adds all declarations, in order, where `numerals` is the kind of the numerals, if there are any.
pub fn add_declarations(
    alloc: Global,
    poset: &Poset,
    numerals: Option<u32>,
    elements: &Elements,
    decls: &mut Vec<Decl>,
) -> Result<(), NoMemory>
    requires over { AreOver poset.now.sorts elements.now }
    ensures value { OnOk result (decls.new.items ≡ decls.old.items ++ declarations poset.now numerals elements.now.operators) }
    ensures sorts { OnOk result (All (HasSorts poset.now) (declarations poset.now numerals elements.now.operators)) }
    ensures no_hooks { OnOk result (All (λ d. is_successor d.attrs ≡ false) (declarations poset.now numerals elements.now.operators)) }
{
    for ops in &elements.operators {
        add_declarations_in(alloc, poset, numerals, ops, decls)?;
    }
    Ok(())
}

/// A declared variable, with its sort or kind.
fn variable(
    alloc: Global,
    words: &Words,
    poset: &Poset,
    declared: Declared,
) -> Result<Alias, NoMemory>
    requires { declared.sort.sort < poset.now.sorts }
    ensures value { IfOk result (λ alias. alias ≡ variable_at words.now poset.now declared) }
    ensures sort { IfOk result (λ alias. IsSort poset.now alias.sort) }
{
    Ok(Alias {
        name: Text::new(alloc, words.text(declared.name))?,
        sort: meant(poset, false, declared.sort),
    })
}

/// All declared variables, in order.
pub fn variables(
    alloc: Global,
    words: &Words,
    poset: &Poset,
    elements: &Elements,
) -> Result<Vec<Alias>, NoMemory>
    requires { AreOver poset.now.sorts elements.now }
    ensures value { IfOk result (λ found. found.items ≡ map (variable_at words.now poset.now) elements.now.variables) }
    ensures sorts { IfOk result (λ found. All (λ alias. IsSort poset.now alias.sort) found.items) }
{
    let mut found = Vec::with_capacity(alloc, elements.variables.len())?;
    for declared in &elements.variables {
        found.push(variable(alloc, words, poset, *declared)?)?;
    }
    Ok(found)
}
