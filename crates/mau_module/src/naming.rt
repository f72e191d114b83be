//! What names name in the strategies of a module: labels of rules, and declared strategies.
ghost use Rattle.std.specs.Prelude.{◌≡◌, ◌<◌, ◌≤◌, ◌++◌, length, map, All, IfOk, OnOk};
ghost use Rattle.std.specs.List.{flat_map};
ghost use Rattle.mau_poset.specs.declared.TheConstants.{MAX_SORTS};
ghost use Rattle.mau_program.specs.declared.definitions.StratDecl.{StratDecl as DeclOf};
ghost use Rattle.mau_module.specs.Named as Specs;
ghost use Rattle.mau_modtext.specs.Statements as Parts;
ghost use Rattle.mau_module.specs.Named.{as_list, labels_of, own_labels, own_strats};

use crate::numbering::number_in;
use crate::statements::Statements;
use mau_declare::{Names, Words};
use mau_modtext::{RawElement, RawStrats, StatementKind, TokenList};
use mau_program::{Rule, StratDecl};
use mau_terms::{NoMemory, Seq, Text};
use mau_tokens::Token;
use std::alloc::Global;

/// The labels of rules, all declared strategies, and those that the module itself declares.
#[derive(Drop)]
pub struct Named {
    pub labels: Vec<Text>,
    pub names: Vec<StratDecl>,
    pub strats: Vec<StratDecl>,
}

/// Adds the label of a rule, if it has one.
fn add_label(alloc: Global, rule: &Rule, labels: &mut Vec<Text>) -> Result<(), NoMemory>
    ensures { OnOk result (labels.new.items ≡ labels.old.items ++ as_list rule.now.label) }
{
    match &rule.label {
        Some(label) => {
            labels.push(label.copy(alloc)?)?;
            Ok(())
        }
        None => Ok(()),
    }
}

/// The labels of rules.
fn labels_of(alloc: Global, rules: &[Rule]) -> Result<Vec<Text>, NoMemory>
    ensures { IfOk result (λ labels. labels.items ≡ labels_of rules.now) }
{
    let mut labels = Vec::new(alloc);
    for rule in rules {
        add_label(alloc, rule, &mut labels)?;
    }
    Ok(labels)
}

/// Whether a statement is a rule.
fn is_rule(kind: StatementKind) -> bool
    ensures { result ≡ Parts.is_rule kind }
{
    match kind {
        StatementKind::Rule => true,
        _ => false,
    }
}

/// The label of an element that is a rule, if it has one.
fn label_token(element: &RawElement) -> Option<Token>
    ensures { result ≡ Specs.label_token element.now }
{
    match element {
        RawElement::Statement(raw) => { if is_rule(raw.kind) { raw.label } else { None } }
        _ => None,
    }
}

/// Adds the label of an element that is a rule, if it has one.
fn add_own_label(
    alloc: Global,
    words: &Words,
    element: &RawElement,
    labels: &mut Vec<Text>,
) -> Result<(), NoMemory>
    ensures { OnOk result (labels.new.items ≡ labels.old.items ++ Specs.label_in words.now element.now) }
{
    match label_token(element) {
        Some(token) => {
            labels.push(Text::new(alloc, words.token_text(token))?)?;
            Ok(())
        }
        None => Ok(()),
    }
}

/// Adds the labels of the rules of a text.
fn add_own_labels(
    alloc: Global,
    words: &Words,
    elements: &[RawElement],
    labels: &mut Vec<Text>,
) -> Result<(), NoMemory>
    ensures { OnOk result (labels.new.items ≡ labels.old.items ++ own_labels words.now elements.now) }
{
    for element in elements {
        add_own_label(alloc, words, element, labels)?;
    }
    Ok(())
}

/// The number of the sort that one token names.
fn sort_in(words: &Words, sorts: &Names, tokens: &TokenList) -> u32
    requires { length sorts.now ≤ MAX_SORTS }
    ensures value { result ≡ Specs.sort_in words.now sorts.now tokens.now }
    ensures within { 0 < length sorts.now → result < length sorts.now }
{
    number_in(sorts, words.first_text(tokens.items()))
}

/// The sorts that some tokens name, one each.
fn sorts_in(
    alloc: Global,
    words: &Words,
    sorts: &Names,
    named: &[TokenList],
) -> Result<Vec<u32>, NoMemory>
    requires { length sorts.now ≤ MAX_SORTS }
    ensures { IfOk result (λ found. found.items ≡ map (Specs.sort_in words.now sorts.now) named.now) }
{
    let mut found = Vec::with_capacity(alloc, named.len())?;
    for tokens in named {
        found.push(sort_in(words, sorts, tokens))?;
    }
    Ok(found)
}

/// The declared strategy with a name.
fn declared(
    alloc: Global,
    words: &Words,
    sorts: &Names,
    strats: &RawStrats,
    name: Token,
) -> Result<StratDecl, NoMemory>
    requires { length sorts.now ≤ MAX_SORTS }
    ensures { IfOk result (λ d. d ≡ Specs.declared_strat words.now sorts.now strats.now name) }
{
    Ok(StratDecl {
        name: Text::new(alloc, words.token_text(name))?,
        args: Seq::new(sorts_in(alloc, words, sorts, strats.args.items())?),
        sort: sort_in(words, sorts, &strats.sort),
    })
}

/// Adds the strategies of one declaration.
fn add_declared(
    alloc: Global,
    words: &Words,
    sorts: &Names,
    strats: &RawStrats,
    out: &mut Vec<StratDecl>,
) -> Result<(), NoMemory>
    requires { length sorts.now ≤ MAX_SORTS }
    ensures { OnOk result (out.new.items ≡ out.old.items ++ map (Specs.declared_strat words.now sorts.now strats.now) strats.now.names) }
{
    for name in strats.names.items() {
        out.push(declared(alloc, words, sorts, strats, *name)?)?;
    }
    Ok(())
}

/// Adds the strategies that an element declares.
fn add_strats(
    alloc: Global,
    words: &Words,
    sorts: &Names,
    element: &RawElement,
    out: &mut Vec<StratDecl>,
) -> Result<(), NoMemory>
    requires { length sorts.now ≤ MAX_SORTS }
    ensures { OnOk result (out.new.items ≡ out.old.items ++ Specs.strats_in words.now sorts.now element.now) }
{
    match element {
        RawElement::Strats(strats) => add_declared(alloc, words, sorts, strats, out),
        _ => Ok(()),
    }
}

/// The strategies that elements declare, where the sorts have these names.
fn own_strats(
    alloc: Global,
    words: &Words,
    sorts: &Names,
    elements: &[RawElement],
) -> Result<Vec<StratDecl>, NoMemory>
    requires { length sorts.now ≤ MAX_SORTS }
    ensures { IfOk result (λ strats. strats.items ≡ own_strats words.now sorts.now elements.now) }
{
    let mut strats = Vec::new(alloc);
    for element in elements {
        add_strats(alloc, words, sorts, element, &mut strats)?;
    }
    Ok(strats)
}

/// Adds equal declarations.
fn add_copies(alloc: Global, strats: &[StratDecl], out: &mut Vec<StratDecl>) -> Result<(), NoMemory>
    ensures { OnOk result (out.new.items ≡ out.old.items ++ strats.now) }
{
    for strat in strats {
        out.push(strat.copy(alloc)?)?;
    }
    Ok(())
}

/// What names name in the strategies of a module with these statements of its parts, where the sorts have these names.
pub fn named_in(
    alloc: Global,
    words: &Words,
    sorts: &Names,
    elements: &[RawElement],
    carried: &Statements,
) -> Result<Named, NoMemory>
    requires { length sorts.now ≤ MAX_SORTS }
    ensures labels { IfOk result (λ n. n.labels.items ≡ labels_of carried.now.rules ++ own_labels words.now elements.now) }
    ensures names { IfOk result (λ n. n.names.items ≡ carried.now.strats ++ own_strats words.now sorts.now elements.now) }
    ensures strats { IfOk result (λ n. n.strats.items ≡ own_strats words.now sorts.now elements.now) }
{
    let mut labels = labels_of(alloc, &carried.rules)?;
    add_own_labels(alloc, words, elements, &mut labels)?;
    let strats = own_strats(alloc, words, sorts, elements)?;
    let mut names = Vec::new(alloc);
    add_copies(alloc, &carried.strats, &mut names)?;
    add_copies(alloc, &strats, &mut names)?;
    Ok(Named {
        labels,
        names,
        strats,
    })
}
