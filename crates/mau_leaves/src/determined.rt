//! Whether a rule that is not executable may be used where nothing is assigned to its variables.
ghost use Rattle.std.specs.Prelude.{◌≡◌, List, [], All, false, IfOk};
ghost use Rattle.mau_terms.specs.Bare.{IsBare};
ghost use Rattle.mau_terms.specs.Subst.{variables, has_variable};
ghost use Rattle.mau_terms.specs.View.{tree_of, variable_of};
ghost use Rattle.mau_signature.specs.Signature.{terms_over};
ghost use Rattle.mau_program.specs.LawfulStatements.{IsLawfulFragment, HasLawfulSides};
ghost use Rattle.mau_evaluation.specs.Evaluation.{binds};
ghost use Rattle.mau_evaluation.specs.Satisfies as Defined;
ghost use Rattle.mau_evaluation.specs.OrderedLists.{may_use};
ghost use Rattle.mau_api.specs.Programs.{rule_of};
ghost use Rattle.mau_leaves.specs.Matched.{matched_in};

use mau_api::places_of;
use mau_program::{Fragment, Rule};
use mau_signature::Signature;
use mau_terms::{Bare, NoMemory, VarId};
use mau_trial::variables_of;
use std::alloc::Global;

/// Whether a variable is one of a pattern's.
fn is_in(alloc: Global, sig: &Signature, pattern: &Bare, variable: VarId) -> Result<bool, NoMemory>
    requires { IsBare (terms_over sig.now) (tree_of pattern.now) }
    ensures { IfOk result (λ b. b ≡ false → has_variable (variables (tree_of pattern.now)) (variable_of variable) ≡ false) }
{
    let places = places_of(alloc, sig, pattern)?;
    let variables = variables_of(alloc, &places)?;
    for own in &variables {
        if *own == variable {
            return Ok(true);
        }
    }
    Ok(false)
}

/// Whether a fragment matches a variable.
fn is_matched(
    alloc: Global,
    sig: &Signature,
    fragment: &Fragment,
    variable: VarId,
) -> Result<bool, NoMemory>
    requires { IsLawfulFragment sig.now fragment.now }
    ensures { IfOk result (λ b. b ≡ false → has_variable (matched_in fragment.now) (variable_of variable) ≡ false) }
{
    match fragment {
        Fragment::Match(pattern, _) => is_in(alloc, sig, pattern, variable),
        Fragment::Equal(_, _) => Ok(false),
        Fragment::Sort(_, _) => Ok(false),
        Fragment::Reach(_, _) => Ok(false),
    }
}

/// Whether a variable is determined by the left side of a rule, or by a pattern of its condition.
fn is_determined(
    alloc: Global,
    sig: &Signature,
    rule: &Rule,
    variable: VarId,
) -> Result<bool, NoMemory>
    requires { HasLawfulSides sig.now rule.now.left rule.now.right rule.now.cond }
    ensures { IfOk result (λ b. b ≡ false → binds (Defined.determined (rule_of rule.now) []) (variable_of variable) ≡ false) }
{
    if is_in(alloc, sig, &rule.left, variable)? {
        return Ok(true);
    }
    for fragment in rule.cond.items() {
        if is_matched(alloc, sig, fragment, variable)? {
            return Ok(true);
        }
    }
    Ok(false)
}

/// Whether a rule may be used where nothing is assigned: it is executable, or all its variables are determined.
pub(crate) fn may_be_used(alloc: Global, sig: &Signature, rule: &Rule) -> Result<bool, NoMemory>
    requires { HasLawfulSides sig.now rule.now.left rule.now.right rule.now.cond }
    ensures { IfOk result (λ b. b ≡ false → may_use (rule_of rule.now) [] ≡ false) }
{
    if rule.exec {
        return Ok(true);
    }
    for index in 0..u32::MAX {
        let variable = match rule.vars.variable(index) {
            Some(variable) => variable,
            None => return Ok(true),
        };
        if !is_determined(alloc, sig, rule, variable)? {
            return Ok(false);
        }
    }
    Ok(true)
}
