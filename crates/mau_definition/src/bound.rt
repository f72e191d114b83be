//! Which variables of a strategy are bound.
ghost use Rattle.std.specs.Prelude.{◌≡◌, ◌&&◌, map, fold, [], true, IfOk, OnOk};
ghost use Rattle.mau_terms.specs.Subst.{add_variables};
ghost use Rattle.mau_terms.specs.View.{variable_of};
ghost use Rattle.mau_program.specs.Binding;
ghost use Rattle.mau_program.specs.LawfulStrategies.{variables_in};
ghost use Rattle.mau_program.specs.Strategies.{strategy_of};
ghost use Rattle.mau_definition.specs.Bound;

use mau_program::{Assign, Fragment, StratDef, Strategy, StrategyForm};
use mau_statement::{add_variables, are_bound, has_only};
use mau_terms::{Args, Bare, NoMemory, VarId};
use std::alloc::Global;

/// Whether all values of variables have no other variables than these.
fn are_values_bound(variables: &[VarId], uses: &[Assign]) -> bool
    ensures { result ≡ Bound.are_values_bound (map variable_of variables.now) uses.now }
{
    match uses {
        [] => true,
        [first, rest @ ..] => {
            has_only(variables, &first.value) && are_values_bound(variables, rest)
        }
    }
}

/// Whether all terms have no other variables than these.
fn are_terms_bound(variables: &[VarId], terms: &[Bare]) -> bool
    ensures { result ≡ Bound.are_terms_bound (map variable_of variables.now) (map Rattle.mau_terms.specs.View.tree_of terms.now) }
{
    match terms {
        [] => true,
        [first, rest @ ..] => has_only(variables, first) && are_terms_bound(variables, rest),
    }
}

/// Whether the condition of a test has no other variables than these and those that the test binds.
fn is_test_bound(
    alloc: Global,
    variables: &[VarId],
    pattern: &Bare,
    cond: &[Fragment],
) -> Result<bool, NoMemory>
    ensures { IfOk result (λ bound. bound ≡ Binding.are_bound (add_variables (map variable_of variables.now) (Rattle.mau_terms.specs.View.tree_of pattern.now)) cond.now) }
{
    let mut all = variables.to_vec(alloc)?;
    add_variables(&mut all, pattern)?;
    are_bound(&mut all, cond)
}

/// Whether two strategies have no other variables than they may have, where these are bound.
#[cycle(bound)]
fn are_both_bound(
    alloc: Global,
    variables: &[VarId],
    first: &Box<Strategy>,
    second: &Box<Strategy>,
) -> Result<bool, NoMemory>
    ensures { IfOk result (λ bound. bound ≡ (Bound.is_bound_in (map variable_of variables.now) first.now.value && Bound.is_bound_in (map variable_of variables.now) second.now.value)) }
{
    if !is_bound_in(alloc, variables, first)? {
        return Ok(false);
    }
    is_bound_in(alloc, variables, second)
}

/// Whether a strategy has no other variables than it may have, where these are bound.
#[cycle(bound)]
pub fn is_bound_in(
    alloc: Global,
    variables: &[VarId],
    strategy: &Strategy,
) -> Result<bool, NoMemory>
    ensures { IfOk result (λ bound. bound ≡ Bound.is_bound_in (map variable_of variables.now) strategy.now) }
{
    is_form_bound(alloc, variables, strategy.form())
}

/// Whether a strategy of this form has no other variables than it may have, where these are bound.
#[cycle(bound)]
fn is_form_bound(alloc: Global, variables: &[VarId], form: &StrategyForm) -> Result<bool, NoMemory>
    ensures { IfOk result (λ bound. bound ≡ Bound.is_bound_in (map variable_of variables.now) (strategy_of form.now)) }
{
    match form {
        StrategyForm::Idle | StrategyForm::Fail | StrategyForm::All => Ok(true),
        StrategyForm::Label(_, uses) => Ok(are_values_bound(variables, uses.items())),
        StrategyForm::Top(s) => is_bound_in(alloc, variables, s),
        StrategyForm::Call(_, args) => Ok(are_terms_bound(variables, args.items())),
        StrategyForm::Test(_, pattern, cond) => {
            is_test_bound(alloc, variables, pattern, cond.items())
        }
        StrategyForm::Star(s) => is_bound_in(alloc, variables, s),
        StrategyForm::Plus(s) => is_bound_in(alloc, variables, s),
        StrategyForm::Normal(s) => is_bound_in(alloc, variables, s),
        StrategyForm::Then(s, t) => are_both_bound(alloc, variables, s, t),
        StrategyForm::Or(s, t) => are_both_bound(alloc, variables, s, t),
        StrategyForm::OrElse(s, t) => are_both_bound(alloc, variables, s, t),
        StrategyForm::If(s, t, u) => {
            if !is_bound_in(alloc, variables, s)? {
                return Ok(false);
            }
            are_both_bound(alloc, variables, t, u)
        }
        StrategyForm::Not(s) => is_bound_in(alloc, variables, s),
        StrategyForm::Try(s) => is_bound_in(alloc, variables, s),
        StrategyForm::TestOf(s) => is_bound_in(alloc, variables, s),
        StrategyForm::PartRewrite(..) | StrategyForm::LabelBy(..) => Ok(false),
    }
}

/// Adds the variables of some terms that are not there.
fn add_all(variables: &mut Vec<VarId>, terms: &[Bare]) -> Result<(), NoMemory>
    ensures { OnOk result (map variable_of variables.new.items ≡ fold add_variables (map variable_of variables.old.items) (map Rattle.mau_terms.specs.View.tree_of terms.now)) }
{
    match terms {
        [] => Ok(()),
        [first, rest @ ..] => {
            add_variables(variables, first)?;
            add_all(variables, rest)
        }
    }
}

/// Whether a condition has no other variables than it may have, where those of a call are bound.
pub fn binds_condition(alloc: Global, args: &Args, cond: &[Fragment]) -> Result<bool, NoMemory>
    ensures { IfOk result (λ bound. bound ≡ Binding.are_bound (variables_in args.now) cond.now) }
{
    let mut variables = Vec::new(alloc);
    add_all(&mut variables, args.items())?;
    are_bound(&mut variables, cond)
}

/// Whether a definition has no other variables than it may have.
pub fn binds(alloc: Global, definition: &StratDef) -> Result<bool, NoMemory>
    ensures { IfOk result (λ bound. bound ≡ (Bound.binds_condition definition.now && Bound.binds_body definition.now)) }
{
    let mut variables = Vec::new(alloc);
    add_all(&mut variables, definition.args.items())?;
    if !are_bound(&mut variables, definition.cond.items())? {
        return Ok(false);
    }
    is_bound_in(alloc, &variables, &definition.body)
}
