//! Variables with their values.
ghost use Rattle.std.specs.Prelude.{◌≡◌, IfOk};

use mau_terms::{NoMemory, Seq, TermId, VarId};
use std::alloc::Global;

/// Variables with the values in their places.
#[derive(Drop, Debug)]
pub struct Binding {
    pub variables: Vec<VarId>,
    pub values: Vec<TermId>,
}

/// Variables with these values.
pub(crate) fn bind(
    alloc: Global,
    variables: &[VarId],
    values: &Seq<TermId>,
) -> Result<Binding, NoMemory>
    ensures variables { IfOk result (λ b. b.variables.items ≡ variables.now) }
    ensures values { IfOk result (λ b. b.values.items ≡ values.now) }
{
    let variables = Vec::from_slice(alloc, variables)?;
    let values = Vec::from_slice(alloc, values.items())?;
    Ok(Binding { variables, values })
}
