//! Reading the elements of a module.
ghost use Rattle.std.specs.Prelude.{◌≡◌, ◌≤◌, ◌+◌, ◌++◌, length, map, IfOk, IfErr, OnOk, Ok, Err, Some, None};
ghost use Rattle.mau_poset.specs.declared.TheConstants.{MAX_SORTS};
ghost use Rattle.mau_declare.specs.Counts.{forms_in, declaration_count};
ghost use Rattle.mau_declare.specs.Flattened.{declared_forms};
ghost use Rattle.mau_declare.specs.Elements.{AreOver, declared, element_step, elements_of};
ghost use Rattle.mau_declare.specs.Statements.{unknown_in_statement, unknown_in_strats};
ghost use Rattle.mau_declare.specs.Faults.{IfUnknownSort};
ghost use Rattle.mau_modtext.specs.declared.raw.RawElement.TheVariants as RawElement;

use crate::element::{Declared, Elements, SortUse};
use crate::fault::ElementFault;
use crate::lists::read_subsorts;
use crate::names::Names;
use crate::operators::read_operators;
use crate::statements::{unknown_in_statement, unknown_in_strats};
use crate::uses::read_sort_use;
use crate::words::Words;
use mau_modtext::{RawElement, RawOps, RawStatement, RawStrats, RawVars, TokenList};
use mau_terms::{NoMemory, Seq};
use mau_tokens::Token;
use std::alloc::Global;

/// Adds pairs to others.
fn add_pairs(pairs: &mut Vec<(u32, u32)>, more: &[(u32, u32)]) -> Result<(), NoMemory>
    ensures { OnOk result (pairs.new.items ≡ pairs.old.items ++ more.now) }
{
    pairs.extend_from_slice(more)?;
    Ok(())
}

/// Reads a declaration of subsorts, and adds its pairs.
fn add_subsorts(
    alloc: Global,
    words: &Words,
    sorts: &Names,
    lists: &Seq<Seq<TokenList>>,
    elements: &mut Elements,
) -> Result<(), ElementFault>
    requires { length sorts.now ≤ MAX_SORTS }
    ensures ok { OnOk result (element_step words.now sorts.now elements.old (RawElement.Subsorts lists.now) ≡ Ok elements.new) }
    ensures unknown { IfErr result (λ e. IfUnknownSort e (λ j. element_step words.now sorts.now elements.old (RawElement.Subsorts lists.now) ≡ Err j)) }
    ensures over { OnOk result (AreOver (length sorts.now) elements.old → AreOver (length sorts.now) elements.new) }
{
    match read_subsorts(alloc, words, sorts, lists.items()) {
        Ok(pairs) => {
            add_pairs(&mut elements.pairs, &pairs)?;
            Ok(())
        }
        Err(fault) => Err(fault),
    }
}

/// Reads a declaration of operators, and adds it.
fn add_operators(
    alloc: Global,
    words: &Words,
    sorts: &Names,
    ops: &RawOps,
    elements: &mut Elements,
) -> Result<(), ElementFault>
    requires { length sorts.now ≤ MAX_SORTS }
    ensures ok { OnOk result (element_step words.now sorts.now elements.old (RawElement.Ops ops.now) ≡ Ok elements.new) }
    ensures unknown { IfErr result (λ e. IfUnknownSort e (λ j. element_step words.now sorts.now elements.old (RawElement.Ops ops.now) ≡ Err j)) }
    ensures over { OnOk result (AreOver (length sorts.now) elements.old → AreOver (length sorts.now) elements.new) }
{
    match read_operators(alloc, words, sorts, ops) {
        Ok(operators) => {
            elements.operators.push(operators)?;
            Ok(())
        }
        Err(fault) => Err(fault),
    }
}

/// The declared variables of these names, in one sort or kind.
fn declare(
    alloc: Global,
    words: &Words,
    names: &[Token],
    sort: SortUse,
) -> Result<Vec<Declared>, NoMemory>
    ensures { IfOk result (λ vs. vs.items ≡ map (declared words.now sort) names.now) }
{
    let mut variables = Vec::with_capacity(alloc, names.len())?;
    for name in names {
        variables.push(Declared {
            name: words.token_index(*name),
            sort,
        })?;
    }
    Ok(variables)
}

/// Adds variables to others.
fn add_declared(variables: &mut Vec<Declared>, more: &[Declared]) -> Result<(), NoMemory>
    ensures { OnOk result (variables.new.items ≡ variables.old.items ++ more.now) }
{
    variables.extend_from_slice(more)?;
    Ok(())
}

/// Reads a declaration of variables, and adds them.
fn add_variables(
    alloc: Global,
    words: &Words,
    sorts: &Names,
    vars: &RawVars,
    elements: &mut Elements,
) -> Result<(), ElementFault>
    requires { length sorts.now ≤ MAX_SORTS }
    ensures ok { OnOk result (element_step words.now sorts.now elements.old (RawElement.Vars vars.now) ≡ Ok elements.new) }
    ensures unknown { IfErr result (λ e. IfUnknownSort e (λ j. element_step words.now sorts.now elements.old (RawElement.Vars vars.now) ≡ Err j)) }
    ensures over { OnOk result (AreOver (length sorts.now) elements.old → AreOver (length sorts.now) elements.new) }
{
    match read_sort_use(words, sorts, vars.sort.items()) {
        Ok(sort) => {
            let more = declare(alloc, words, vars.names.items(), sort)?;
            add_declared(&mut elements.variables, &more)?;
            Ok(())
        }
        Err(at) => Err(ElementFault::UnknownSort(at)),
    }
}

/// Reads the sorts that a statement names.
fn check_statement(
    words: &Words,
    sorts: &Names,
    statement: &RawStatement,
) -> Result<(), ElementFault>
    ensures ok { OnOk result (unknown_in_statement words.now sorts.now statement.now ≡ None) }
    ensures unknown { IfErr result (λ e. IfUnknownSort e (λ at. unknown_in_statement words.now sorts.now statement.now ≡ Some at)) }
{
    match unknown_in_statement(words, sorts, statement) {
        Some(at) => Err(ElementFault::UnknownSort(at)),
        None => Ok(()),
    }
}

/// Reads the sorts that a declaration of strategies names.
fn check_strats(words: &Words, sorts: &Names, strats: &RawStrats) -> Result<(), ElementFault>
    ensures ok { OnOk result (unknown_in_strats words.now sorts.now strats.now ≡ None) }
    ensures unknown { IfErr result (λ e. IfUnknownSort e (λ at. unknown_in_strats words.now sorts.now strats.now ≡ Some at)) }
{
    match unknown_in_strats(words, sorts, strats) {
        Some(at) => Err(ElementFault::UnknownSort(at)),
        None => Ok(()),
    }
}

/// Reads an element, and adds what it declares. The sorts that it declares are among `sorts` already.
fn read_element(
    alloc: Global,
    words: &Words,
    sorts: &Names,
    element: &RawElement,
    elements: &mut Elements,
) -> Result<(), ElementFault>
    requires { length sorts.now ≤ MAX_SORTS }
    ensures ok { OnOk result (element_step words.now sorts.now elements.old element.now ≡ Ok elements.new) }
    ensures unknown { IfErr result (λ e. IfUnknownSort e (λ at. element_step words.now sorts.now elements.old element.now ≡ Err at)) }
    ensures over { OnOk result (AreOver (length sorts.now) elements.old → AreOver (length sorts.now) elements.new) }
    ensures counted { OnOk result (length (declared_forms elements.new.operators) ≡ length (declared_forms elements.old.operators) + forms_in element.now) }
{
    match element {
        RawElement::Subsorts(lists) => add_subsorts(alloc, words, sorts, lists, elements),
        RawElement::Ops(ops) => add_operators(alloc, words, sorts, ops, elements),
        RawElement::Vars(vars) => add_variables(alloc, words, sorts, vars, elements),
        RawElement::Statement(statement) => check_statement(words, sorts, statement),
        RawElement::Strats(strats) => check_strats(words, sorts, strats),
        RawElement::Import(_) | RawElement::Sorts(_) => Ok(()),
    }
}

/// What elements declare, over the sorts that the module has; these are among `sorts` already.
pub fn read_elements(
    alloc: Global,
    words: &Words,
    sorts: &Names,
    raw: &[RawElement],
) -> Result<Elements, ElementFault>
    requires few { length sorts.now ≤ MAX_SORTS }
    ensures ok { IfOk result (λ e. elements_of words.now sorts.now raw.now ≡ Ok e) }
    ensures unknown { IfErr result (λ fault. IfUnknownSort fault (λ at. elements_of words.now sorts.now raw.now ≡ Err at)) }
    ensures over { IfOk result (AreOver (length sorts.now)) }
    ensures counted { IfOk result (λ e. length (declared_forms e.operators) ≡ declaration_count raw.now) }
{
    let mut elements = Elements {
        pairs: Vec::new(alloc),
        operators: Vec::new(alloc),
        variables: Vec::new(alloc),
    };
    for element in raw {
        match read_element(alloc, words, sorts, element, &mut elements) {
            Ok(()) => (),
            Err(fault) => return Err(fault),
        }
    }
    Ok(elements)
}
