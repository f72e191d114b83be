//! The variables of a pattern, with the operators under which they first occur.
ghost use Rattle.std.specs.Prelude.{◌≡◌, All, None, [], map, IfOk, OnOk, IfSome};
ghost use Rattle.std.specs.List.{list_any};
ghost use Rattle.mau_terms.specs.Tree.{trees_of};
ghost use Rattle.mau_terms.specs.Bare.{IsBare};
ghost use Rattle.mau_terms.specs.Subst.{variables, same_variable};
ghost use Rattle.mau_terms.specs.Solution.{add_places, add_all_places, places};
ghost use Rattle.mau_terms.specs.View.{tree_of, variable_of};
ghost use Rattle.mau_signature.specs.Signature.{IsOperator, theory_at, terms_over};
ghost use Rattle.mau_listing.specs.Places.{operator_number, under_all, places_in, variables_in, assoc_or_none, AreUnderOperators};

use mau_signature::Signature;
use mau_terms::{Bare, NoMemory, OpId, VarId};
use std::alloc::Global;

/// A variable of a pattern, and the operator of which it is an argument where it first occurs, if that is associative.
#[derive(Clone, Copy, PartialEq, Eq, Debug)]
pub struct Place {
    pub variable: VarId,
    pub under: Option<OpId>,
}

/// The variables of a pattern, by first occurrence.
pub fn places_of(alloc: Global, sig: &Signature, pattern: &Bare) -> Result<Vec<Place>, NoMemory>
    requires { IsBare (terms_over sig.now) (tree_of pattern.now) }
    ensures variables { IfOk result (λ found. map variable_of (variables_in found.items) ≡ variables (tree_of pattern.now)) }
    ensures places { IfOk result (λ found. under_all found.items ≡ places (theory_at sig.now) (tree_of pattern.now)) }
    ensures operators { IfOk result (λ found. AreUnderOperators sig.now found.items) }
{
    let mut found = Vec::new(alloc);
    add_term(sig, None, &mut found, pattern)?;
    Ok(found)
}

/// Whether a variable is among these.
fn is_among(found: &[Place], variable: VarId) -> bool
    ensures { result ≡ list_any (λ p. same_variable (variable_of p.variable) (variable_of variable)) found.now }
{
    found.iter().any(|place| place.variable == variable)
}

/// The operator, if it is associative.
fn if_assoc(sig: &Signature, op: OpId) -> Option<OpId>
    requires { IsOperator sig.now op.0 }
    ensures value { operator_number result ≡ assoc_or_none sig.now op.0 }
    ensures operator { IfSome result (λ under. IsOperator sig.now under.0) }
{
    if sig.theory(op).assoc { Some(op) } else { None }
}

/// Adds the variables of a term that are not there. The operator above it is associative, if there is one.
#[cycle(places)]
fn add_term(
    sig: &Signature,
    under: Option<OpId>,
    found: &mut Vec<Place>,
    term: &Bare,
) -> Result<(), NoMemory>
    requires bare { IsBare (terms_over sig.now) (tree_of term.now) }
    requires operators { AreUnderOperators sig.now found.old.items }
    requires under { IfSome under (λ op. IsOperator sig.now op.0) }
    ensures ok { OnOk result (places_in found.new.items ≡ add_places (theory_at sig.now) (operator_number under) (places_in found.old.items) (tree_of term.now)) }
    ensures operators { AreUnderOperators sig.now found.new.items }
{
    match term {
        Bare::Var(variable) => {
            if !is_among(found, *variable) {
                found.push(Place {
                    variable: *variable,
                    under,
                })?;
            }
            Ok(())
        }
        Bare::Num(_) => Ok(()),
        Bare::App(op, args) => add_arguments(sig, *op, found, args.items()),
    }
}

/// Adds the variables of the arguments of an operator.
#[cycle(places)]
fn add_arguments(
    sig: &Signature,
    op: OpId,
    found: &mut Vec<Place>,
    terms: &[Bare],
) -> Result<(), NoMemory>
    requires bare { All (λ t. IsBare (terms_over sig.now) (tree_of t)) terms.now }
    requires operators { AreUnderOperators sig.now found.old.items }
    requires operator { IsOperator sig.now op.0 }
    ensures ok { OnOk result (places_in found.new.items ≡ add_all_places (theory_at sig.now) (assoc_or_none sig.now op.0) (places_in found.old.items) (trees_of (map tree_of terms.now))) }
    ensures operators { AreUnderOperators sig.now found.new.items }
{
    let under = if_assoc(sig, op);
    for term in terms {
        add_term(sig, under, found, term)?;
    }
    Ok(())
}
