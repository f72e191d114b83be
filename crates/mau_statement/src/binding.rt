//! Which variables are bound.
ghost use Rattle.std.specs.Prelude.{◌≡◌, map, fold, true, IfOk, OnOk};
ghost use Rattle.std.specs.Option.{option_map};
ghost use Rattle.mau_terms.specs.Tree.{variable, trees_of};
ghost use Rattle.mau_terms.specs.Subst.{has_variable, add_variables, add_all_variables, variables};
ghost use Rattle.mau_terms.specs.View.{tree_of, variable_of};
ghost use Rattle.mau_program.specs.Binding;
ghost use Rattle.mau_statement.specs.Statements.{binds_variables};
ghost use Rattle.mau_statement.specs.Binding as Own;

use crate::statement::Statement;
use mau_program::Fragment;
use mau_terms::{Bare, NoMemory, VarId};
use std::alloc::Global;

/// Whether a variable is among these.
fn has_variable(variables: &[VarId], variable: VarId) -> bool
    ensures { result ≡ has_variable (map variable_of variables.now) (variable_of variable) }
{
    match variables {
        [] => false,
        [first, rest @ ..] => *first == variable || has_variable(rest, variable),
    }
}

/// Whether each variable of a term is among these.
#[cycle(only)]
pub fn has_only(variables: &[VarId], term: &Bare) -> bool
    ensures { result ≡ Binding.has_only (map variable_of variables.now) (tree_of term.now) }
{
    match term {
        Bare::Var(variable) => has_variable(variables, *variable),
        Bare::Num(_) => true,
        Bare::App(_, args) => have_only(variables, args.items()),
    }
}

/// Whether each variable of some terms is among these.
#[cycle(only)]
fn have_only(variables: &[VarId], terms: &[Bare]) -> bool
    ensures { result ≡ Binding.have_only (map variable_of variables.now) (trees_of (map tree_of terms.now)) }
{
    match terms {
        [] => true,
        [first, rest @ ..] => has_only(variables, first) && have_only(variables, rest),
    }
}

/// Adds a variable, unless it is there.
fn add_variable(variables: &mut Vec<VarId>, added: VarId) -> Result<(), NoMemory>
    ensures { OnOk result (map variable_of variables.new.items ≡ add_variables (map variable_of variables.old.items) (variable added.index added.sort)) }
{
    if !has_variable(variables, added) {
        variables.push(added)?;
    }
    Ok(())
}

/// Adds the variables of a term that are not there, by first occurrence.
#[cycle(add)]
pub fn add_variables(variables: &mut Vec<VarId>, term: &Bare) -> Result<(), NoMemory>
    ensures { OnOk result (map variable_of variables.new.items ≡ add_variables (map variable_of variables.old.items) (tree_of term.now)) }
{
    match term {
        Bare::Var(variable) => add_variable(variables, *variable),
        Bare::Num(_) => Ok(()),
        Bare::App(_, args) => add_all_variables(variables, args.items()),
    }
}

/// Adds the variables of some terms that are not there.
#[cycle(add)]
fn add_all_variables(variables: &mut Vec<VarId>, terms: &[Bare]) -> Result<(), NoMemory>
    ensures { OnOk result (map variable_of variables.new.items ≡ add_all_variables (map variable_of variables.old.items) (trees_of (map tree_of terms.now))) }
{
    match terms {
        [] => Ok(()),
        [first, rest @ ..] => {
            add_variables(variables, first)?;
            add_all_variables(variables, rest)
        }
    }
}

/// Whether a fragment has no other variables than it may have.
fn is_bound(variables: &[VarId], fragment: &Fragment) -> bool
    ensures { result ≡ Binding.is_bound (map variable_of variables.now) fragment.now }
{
    match fragment {
        Fragment::Equal(term, other) => has_only(variables, term) && has_only(variables, other),
        Fragment::Match(_, subject) => has_only(variables, subject),
        Fragment::Sort(term, _) => has_only(variables, term),
        Fragment::Reach(start, _) => has_only(variables, start),
    }
}

/// Adds the variables that a fragment binds.
fn bind(variables: &mut Vec<VarId>, fragment: &Fragment) -> Result<(), NoMemory>
    ensures { OnOk result (map variable_of variables.new.items ≡ Binding.bound_behind (map variable_of variables.old.items) fragment.now) }
{
    match fragment {
        Fragment::Match(pattern, _) => add_variables(variables, pattern),
        Fragment::Reach(_, end) => add_variables(variables, end),
        Fragment::Equal(..) | Fragment::Sort(..) => Ok(()),
    }
}

/// Whether fragments have no other variables than they may have. Adds those that they bind, where they do.
pub fn are_bound(variables: &mut Vec<VarId>, fragments: &[Fragment]) -> Result<bool, NoMemory>
    ensures value { IfOk result (λ bound. bound ≡ Binding.are_bound (map variable_of variables.old.items) fragments.now) }
    ensures behind { IfOk result (λ bound. bound ≡ true → map variable_of variables.new.items ≡ fold Binding.bound_behind (map variable_of variables.old.items) fragments.now) }
{
    match fragments {
        [] => Ok(true),
        [first, rest @ ..] => {
            if !is_bound(variables, first) {
                return Ok(false);
            }
            bind(variables, first)?;
            are_bound(variables, rest)
        }
    }
}

/// Whether a condition and what stands behind it have no other variables than they may have.
fn binds(alloc: Global, left: &Bare, fragments: &[Fragment], right: &Bare) -> Result<bool, NoMemory>
    ensures { IfOk result (λ bound. bound ≡ Binding.binds (tree_of left.now) fragments.now (tree_of right.now)) }
{
    let mut variables = Vec::new(alloc);
    add_variables(&mut variables, left)?;
    if !are_bound(&mut variables, fragments)? {
        return Ok(false);
    }
    Ok(has_only(&variables, right))
}

/// The same where nothing stands behind the condition.
fn binds_fragments(alloc: Global, left: &Bare, fragments: &[Fragment]) -> Result<bool, NoMemory>
    ensures { IfOk result (λ bound. bound ≡ Binding.are_bound (variables (tree_of left.now)) fragments.now) }
{
    let mut variables = Vec::new(alloc);
    add_variables(&mut variables, left)?;
    are_bound(&mut variables, fragments)
}

/// Whether a statement has no other variables than it may have.
pub fn binds_variables(alloc: Global, statement: &Statement) -> Result<bool, NoMemory>
    ensures { IfOk result (λ bound. bound ≡ binds_variables statement.now) }
{
    match statement {
        Statement::Equation(equation) => binds(
            alloc,
            &equation.left,
            equation.cond.items(),
            &equation.right,
        ),
        Statement::Membership(membership) => {
            binds_fragments(alloc, &membership.left, membership.cond.items())
        }
        Statement::Rule(rule) => binds(alloc, &rule.left, rule.cond.items(), &rule.right),
    }
}

/// The first variable of a term that is not among these.
#[cycle(other)]
fn first_other(variables: &[VarId], term: &Bare) -> Option<VarId>
    ensures { option_map variable_of result ≡ Own.first_other (map variable_of variables.now) (tree_of term.now) }
{
    match term {
        Bare::Var(variable) => {
            if has_variable(variables, *variable) {
                None
            } else {
                Some(*variable)
            }
        }
        Bare::Num(_) => None,
        Bare::App(_, args) => first_other_in(variables, args.items()),
    }
}

/// The first variable of some terms that is not among these.
#[cycle(other)]
fn first_other_in(variables: &[VarId], terms: &[Bare]) -> Option<VarId>
    ensures { option_map variable_of result ≡ Own.first_other_in (map variable_of variables.now) (trees_of (map tree_of terms.now)) }
{
    match terms {
        [] => None,
        [first, rest @ ..] => match first_other(variables, first) {
            Some(variable) => Some(variable),
            None => first_other_in(variables, rest),
        },
    }
}

/// The first variable of a fragment that isn't bound, where these are.
fn other_in_fragment(variables: &[VarId], fragment: &Fragment) -> Option<VarId>
    ensures { option_map variable_of result ≡ Own.other_in_fragment (map variable_of variables.now) fragment.now }
{
    match fragment {
        Fragment::Equal(term, other) => match first_other(variables, term) {
            Some(variable) => Some(variable),
            None => first_other(variables, other),
        },
        Fragment::Match(_, subject) => first_other(variables, subject),
        Fragment::Sort(term, _) => first_other(variables, term),
        Fragment::Reach(start, _) => first_other(variables, start),
    }
}

/// The first variable of fragments that isn't bound, where these are before them. Adds those that they bind.
fn unbound_behind(
    variables: &mut Vec<VarId>,
    fragments: &[Fragment],
) -> Result<Option<VarId>, NoMemory>
    ensures { IfOk result (λ o. option_map variable_of o ≡ Own.first_unbound (map variable_of variables.old.items) fragments.now) }
{
    match fragments {
        [] => Ok(None),
        [first, rest @ ..] => match other_in_fragment(variables, first) {
            Some(variable) => Ok(Some(variable)),
            None => {
                bind(variables, first)?;
                unbound_behind(variables, rest)
            }
        },
    }
}

/// The first variable of a condition that isn't bound, where the variables of a pattern are bound before it.
pub fn first_unbound(
    alloc: Global,
    pattern: &Bare,
    fragments: &[Fragment],
) -> Result<Option<VarId>, NoMemory>
    ensures { IfOk result (λ o. option_map variable_of o ≡ Own.first_unbound (variables (tree_of pattern.now)) fragments.now) }
{
    let mut variables = Vec::new(alloc);
    add_variables(&mut variables, pattern)?;
    unbound_behind(&mut variables, fragments)
}
