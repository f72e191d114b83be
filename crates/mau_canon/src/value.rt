//! The value of a variable.
ghost use Rattle.std.specs.Prelude.{◌≡◌, IfOk, IfSome, IfNone, Contains, List};
ghost use Rattle.mau_terms.specs.Tree.{variable as variable_tree};
ghost use Rattle.mau_terms.specs.View.{variable_of};
ghost use Rattle.mau_signature.specs.Signature.{theory_at};
ghost use Rattle.mau_store.specs.Node.{Node, Extends};
ghost use Rattle.mau_store.specs.Trees.{tree_at};
ghost use Rattle.mau_store.specs.View.{numbers};
ghost use Rattle.mau_canon.specs.Standing.{StandsWithin, StandWithin};
ghost use Rattle.mau_canon.specs.Values.{values_in};

use mau_signature::Signature;
use mau_store::{NodeView, Store};
use mau_terms::{NoMemory, TermId, VarId};

/// The value at the place of a variable, if it has one.
fn find_value(variables: &[VarId], values: &[TermId], variable: VarId) -> Option<TermId>
    ensures some { IfSome result (λ id. (nodes : List Node) → values_in nodes variables.now values.now (variable_of variable) ≡ tree_at nodes id.0) }
    ensures among { IfSome result (Contains values.now) }
    ensures none { IfNone result ((nodes : List Node) → values_in nodes variables.now values.now (variable_of variable) ≡ variable_tree variable.index variable.sort) }
{
    let count = variables.len().min(values.len());
    for i in 0..count {
        if variables[i] == variable {
            return Some(values[i]);
        }
    }
    None
}

/// The term that a variable stands for: its value, or itself where it has none.
pub(crate) fn value_of(
    store: &mut Store,
    sig: &Signature,
    variables: &[VarId],
    values: &[TermId],
    variable: VarId,
) -> Result<TermId, NoMemory>
    requires { StandWithin (theory_at sig.now) store.old (numbers values.now) }
    ensures value { IfOk result (λ id. tree_at store.new id.0 ≡ values_in store.old variables.now values.now (variable_of variable)) }
    ensures within { IfOk result (λ id. StandsWithin (theory_at sig.now) store.new id.0) }
    ensures extends { Extends store.old store.new }
{
    match find_value(variables, values, variable) {
        Some(value) => Ok(value),
        None => Ok(store.intern(NodeView::Var(variable))?),
    }
}
