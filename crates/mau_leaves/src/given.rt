//! The values that variables have before a strategy is run.
ghost use Rattle.std.specs.Prelude.{◌≡◌, map, true, IfOk};
ghost use Rattle.mau_terms.specs.Subst.{has_variable};
ghost use Rattle.mau_terms.specs.View.{variable_of};
ghost use Rattle.mau_api.specs.Answers.{AreApart};
ghost use Rattle.mau_leaves.specs.Given.{pair_by};
ghost use Rattle.mau_leaves.specs.Searches.{variables_in};

use mau_strat::Bound;
use mau_terms::{NoMemory, TermId, VarId};
use std::alloc::Global;

/// Variables and their values in pairs.
pub(crate) fn pairs_of(alloc: Global, values: &[Bound]) -> Result<Vec<(VarId, TermId)>, NoMemory>
    ensures { IfOk result (λ pairs. pairs.items ≡ map pair_by values.now) }
{
    let mut pairs = Vec::new(alloc);
    for bound in values {
        pairs.push((bound.variable, bound.value))?;
    }
    Ok(pairs)
}

/// Whether a variable has a value.
fn has_value(bound: &[(VarId, TermId)], variable: VarId) -> bool
    ensures { result ≡ has_variable (variables_in bound.now) (variable_of variable) }
{
    match bound {
        [] => false,
        [(first, _), rest @ ..] => *first == variable || has_value(rest, variable),
    }
}

/// Whether no variable has two values.
pub(crate) fn are_apart(bound: &[(VarId, TermId)]) -> bool
    ensures { result ≡ true → AreApart (variables_in bound.now) }
{
    match bound {
        [] => true,
        [(first, _), rest @ ..] => !has_value(rest, *first) && are_apart(rest),
    }
}
