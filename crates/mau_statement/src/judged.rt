//! What is judged of a statement whose parts are read.
ghost use Rattle.std.specs.Prelude.{◌≡◌, ◌≤◌, Ok, Err, IfOk, OnOk, IfErr};
ghost use Rattle.mau_signature.specs.Signature.{theory_at};
ghost use Rattle.mau_statement.specs.declared.TheConstants.{MAX_FRAGMENTS};
ghost use Rattle.mau_statement.specs.Faults.{IfFault};
ghost use Rattle.mau_statement.specs.Lawful.{HasLawfulParts, HasOwnVariables, HasNoFault};
ghost use Rattle.mau_statement.specs.Statements;
ghost use Rattle.mau_statement.specs.Statements.{Judged};

use crate::MAX_VARIABLES;
use crate::binding::binds_variables;
use crate::fault::{Limit, StatementFault};
use crate::statement::Statement;
use crate::tops::{is_head, is_left_side};
use mau_signature::Signature;
use mau_terms::NoMemory;
use std::alloc::Global;

/// An equation whose left side is none, and a membership whose head is none.
fn head_fault(signature: &Signature, statement: &Statement) -> Option<StatementFault>
    requires { HasLawfulParts signature.now statement.now }
    ensures { result ≡ Statements.head_fault (theory_at signature.now) statement.now }
{
    match statement {
        Statement::Equation(equation) => {
            if is_left_side(signature, &equation.left) {
                None
            } else {
                Some(StatementFault::LhsVariable)
            }
        }
        Statement::Membership(membership) => {
            if is_head(signature, &membership.left) {
                None
            } else {
                Some(StatementFault::MembershipHead)
            }
        }
        Statement::Rule(_) => None,
    }
}

/// Whether an executable statement has a variable that isn't bound.
fn has_unbound(alloc: Global, statement: &Statement) -> Result<bool, NoMemory>
    ensures { IfOk result (λ found. found ≡ Statements.has_unbound statement.now) }
{
    if statement.is_executable() {
        Ok(!binds_variables(alloc, statement)?)
    } else {
        Ok(false)
    }
}

/// The fault of a statement with not too many fragments, if it has one.
pub fn judge(
    alloc: Global,
    signature: &Signature,
    _fragments: usize,
    statement: &Statement,
) -> Result<(), StatementFault>
    requires few { _fragments ≤ MAX_FRAGMENTS }
    requires parts { HasLawfulParts signature.now statement.now }
    requires own { HasOwnVariables statement.now }
    ensures accepted { OnOk result (Judged (theory_at signature.now) _fragments statement.now (Ok statement.now)) }
    ensures faultless { OnOk result (HasNoFault signature.now statement.now) }
    ensures fault { IfErr result (IfFault (λ f. Judged (theory_at signature.now) _fragments statement.now (Err f))) }
{
    if statement.variable_count() > MAX_VARIABLES {
        return Err(StatementFault::LimitExceeded(Limit::Variables));
    }
    match head_fault(signature, statement) {
        Some(fault) => Err(fault),
        None => {
            if has_unbound(alloc, statement)? {
                Err(StatementFault::UnboundVariable)
            } else {
                Ok(())
            }
        }
    }
}
