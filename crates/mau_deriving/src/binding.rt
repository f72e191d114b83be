//! Solutions as bindings.
ghost use Rattle.std.specs.Prelude.{◌≡◌, map, IfOk, length};
ghost use Rattle.std.specs.List.{zip};
ghost use Rattle.mau_terms.specs.Bare.{IsBare};
ghost use Rattle.mau_terms.specs.Subst.{variables};
ghost use Rattle.mau_terms.specs.View.{tree_of, variable_of};
ghost use Rattle.mau_signature.specs.Signature.{terms_over};

use mau_listing::places_of;
use mau_signature::Signature;
use mau_terms::{Bare, NoMemory, TermId, VarId};
use mau_trial::variables_of;
use std::alloc::Global;

/// The variables of a pattern with these values, one for each.
pub(crate) fn told(
    alloc: Global,
    sig: &Signature,
    pattern: &Bare,
    values: &[TermId],
) -> Result<Vec<(VarId, TermId)>, NoMemory>
    requires pattern { IsBare (terms_over sig.now) (tree_of pattern.now) }
    requires one_each { length values.now ≡ length (variables (tree_of pattern.now)) }
    ensures variables { IfOk result (λ told. map (λ b. variable_of b.0) told.items ≡ variables (tree_of pattern.now)) }
    ensures values { IfOk result (λ told. map (λ b. b.1) told.items ≡ values.now) }
{
    let places = places_of(alloc, sig, pattern)?;
    let variables = variables_of(alloc, &places)?;
    let told = pair_up(alloc, &variables, values)?;
    Ok(told)
}

/// Variables with the values in their places.
fn pair_up(
    alloc: Global,
    variables: &[VarId],
    values: &[TermId],
) -> Result<Vec<(VarId, TermId)>, NoMemory>
    requires { length variables.now ≡ length values.now }
    ensures { IfOk result (λ pairs. pairs.items ≡ zip variables.now values.now) }
{
    let mut pairs = Vec::with_capacity(alloc, variables.len())?;
    for i in 0..variables.len() {
        pairs.push((variables[i], values[i]))?;
    }
    Ok(pairs)
}
