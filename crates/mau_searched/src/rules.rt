//! Which rules that are not executable a strategy may use all the same.
ghost use Rattle.std.specs.Prelude.{◌≡◌, map, fold, IfOk, OnOk};
ghost use Rattle.std.specs.List.{list_any, list_all};
ghost use Rattle.mau_terms.specs.Subst.{has_variable};
ghost use Rattle.mau_terms.specs.View.{variable_of};
ghost use Rattle.mau_program.specs.Binding.{listed};
ghost use Rattle.mau_searched.specs.Searched;

use mau_program::{Fragment, Rule};
use mau_statement::{add_variables, has_only};
use mau_terms::{Bare, NoMemory, VarId, Vars};
use std::alloc::Global;

/// Adds the variables that a fragment determines.
fn add_matched(variables: &mut Vec<VarId>, fragment: &Fragment) -> Result<(), NoMemory>
    ensures { OnOk result (map variable_of variables.new.items ≡ Searched.determined_behind (map variable_of variables.old.items) fragment.now) }
{
    match fragment {
        Fragment::Match(pattern, _) => add_variables(variables, pattern),
        Fragment::Equal(..) | Fragment::Sort(..) | Fragment::Reach(..) => Ok(()),
    }
}

/// Adds the variables that fragments determine.
fn add_all_matched(variables: &mut Vec<VarId>, fragments: &[Fragment]) -> Result<(), NoMemory>
    ensures { OnOk result (map variable_of variables.new.items ≡ fold Searched.determined_behind (map variable_of variables.old.items) fragments.now) }
{
    match fragments {
        [] => Ok(()),
        [first, rest @ ..] => {
            add_matched(variables, first)?;
            add_all_matched(variables, rest)
        }
    }
}

/// The variables that a rule determines.
fn determined(alloc: Global, rule: &Rule) -> Result<Vec<VarId>, NoMemory>
    ensures { IfOk result (λ found. map variable_of found.items ≡ Searched.determined rule.now) }
{
    let mut found = Vec::new(alloc);
    add_variables(&mut found, &rule.left)?;
    add_all_matched(&mut found, rule.cond.items())?;
    Ok(found)
}

/// Whether all variables of a statement are among these. More than can be numbered don't fit into memory.
fn has_all(variables: &[VarId], vars: &Vars) -> Result<bool, NoMemory>
    ensures { IfOk result (λ all. all ≡ list_all (has_variable (map variable_of variables.now)) (listed vars.now)) }
{
    for index in 0..u32::MAX {
        let variable = match vars.variable(index) {
            Some(variable) => variable,
            None => return Ok(true),
        };
        if !has_only(variables, &Bare::Var(variable)) {
            return Ok(false);
        }
    }
    Err(NoMemory)
}

/// Whether a rule is not executable and determines all its variables.
fn is_determined(alloc: Global, rule: &Rule) -> Result<bool, NoMemory>
    ensures { IfOk result (λ is. is ≡ Searched.is_determined rule.now) }
{
    if rule.exec {
        return Ok(false);
    }
    let found = determined(alloc, rule)?;
    has_all(&found, &rule.vars)
}

/// Whether one of these rules is such a rule.
pub(crate) fn are_determined(alloc: Global, rules: &[Rule]) -> Result<bool, NoMemory>
    ensures { IfOk result (λ some. some ≡ list_any Searched.is_determined rules.now) }
{
    for rule in rules {
        if is_determined(alloc, rule)? {
            return Ok(true);
        }
    }
    Ok(false)
}

/// Whether a rule has this label.
fn has_label(rule: &Rule, label: &str) -> bool
    ensures { result ≡ Searched.is_label label.now rule.now.label }
{
    match &rule.label {
        Some(own) => own.as_str() == label,
        None => false,
    }
}

/// Whether a rule with this label is such a rule.
fn is_determined_by(alloc: Global, rule: &Rule, label: &str) -> Result<bool, NoMemory>
    ensures { IfOk result (λ is. is ≡ Searched.is_determined_by label.now rule.now) }
{
    if !has_label(rule, label) {
        return Ok(false);
    }
    is_determined(alloc, rule)
}

/// Whether one of the rules with this label is such a rule.
pub(crate) fn chooses_determined(
    alloc: Global,
    rules: &[Rule],
    label: &str,
) -> Result<bool, NoMemory>
    ensures { IfOk result (λ some. some ≡ list_any (Searched.is_determined_by label.now) rules.now) }
{
    for rule in rules {
        if is_determined_by(alloc, rule, label)? {
            return Ok(true);
        }
    }
    Ok(false)
}
