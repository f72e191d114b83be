//! The variables of a statement, in the order in which their values are told.
ghost use Rattle.std.specs.Prelude.{◌≡◌, List, All, map, IfOk, OnOk};
ghost use Rattle.mau_terms.specs.Tree.{trees_of};
ghost use Rattle.mau_terms.specs.Bare.{IsBare};
ghost use Rattle.mau_terms.specs.Subst.{add_variables, add_all_variables, has_variable};
ghost use Rattle.mau_terms.specs.View.{tree_of, variable_of};
ghost use Rattle.mau_signature.specs.Signature.{terms_over};
ghost use Rattle.mau_program.specs.LawfulStatements.{IsLawfulFragment};
ghost use Rattle.mau_api.specs.Variables.{fragment_variables, condition_variables, statement_variables};
ghost use Rattle.mau_making.specs.Variables.{AreOfSorts, variables_in};

use mau_program::Fragment;
use mau_signature::Signature;
use mau_terms::{Bare, NoMemory, VarId};
use std::alloc::Global;

/// Whether a variable is among some.
fn is_among(found: &[VarId], variable: VarId) -> bool
    ensures { result ≡ has_variable (variables_in found.now) (variable_of variable) }
{
    for other in found {
        if *other == variable {
            return true;
        }
    }
    false
}

/// Adds the variables of a term that are not there.
#[cycle(adding)]
fn add_term(sig: &Signature, found: &mut Vec<VarId>, term: &Bare) -> Result<(), NoMemory>
    requires bare { IsBare (terms_over sig.now) (tree_of term.now) }
    requires sorts { AreOfSorts sig.now found.old.items }
    ensures ok { OnOk result (variables_in found.new.items ≡ add_variables (variables_in found.old.items) (tree_of term.now)) }
    ensures sorts { AreOfSorts sig.now found.new.items }
{
    match term {
        Bare::Var(variable) => {
            if !is_among(found, *variable) {
                found.push(*variable)?;
            }
            Ok(())
        }
        Bare::Num(_) => Ok(()),
        Bare::App(_, args) => add_all(sig, found, args.items()),
    }
}

/// The same of some terms.
#[cycle(adding)]
fn add_all(sig: &Signature, found: &mut Vec<VarId>, terms: &[Bare]) -> Result<(), NoMemory>
    requires bare { All (λ t. IsBare (terms_over sig.now) (tree_of t)) terms.now }
    requires sorts { AreOfSorts sig.now found.old.items }
    ensures ok { OnOk result (variables_in found.new.items ≡ add_all_variables (variables_in found.old.items) (trees_of (map tree_of terms.now))) }
    ensures sorts { AreOfSorts sig.now found.new.items }
{
    for term in terms {
        add_term(sig, found, term)?;
    }
    Ok(())
}

/// The same of a fragment.
fn add_fragment(
    sig: &Signature,
    found: &mut Vec<VarId>,
    fragment: &Fragment,
) -> Result<(), NoMemory>
    requires lawful { IsLawfulFragment sig.now fragment.now }
    requires sorts { AreOfSorts sig.now found.old.items }
    ensures ok { OnOk result (variables_in found.new.items ≡ fragment_variables (variables_in found.old.items) fragment.now) }
    ensures sorts { AreOfSorts sig.now found.new.items }
{
    match fragment {
        Fragment::Equal(left, right) => {
            add_term(sig, found, left)?;
            add_term(sig, found, right)
        }
        Fragment::Match(pattern, term) => {
            add_term(sig, found, pattern)?;
            add_term(sig, found, term)
        }
        Fragment::Sort(term, _) => add_term(sig, found, term),
        Fragment::Reach(from, to) => {
            add_term(sig, found, from)?;
            add_term(sig, found, to)
        }
    }
}

/// Adds those of a condition.
fn add_condition(sig: &Signature, found: &mut Vec<VarId>, cond: &[Fragment]) -> Result<(), NoMemory>
    requires lawful { All (IsLawfulFragment sig.now) cond.now }
    requires sorts { AreOfSorts sig.now found.old.items }
    ensures ok { OnOk result (variables_in found.new.items ≡ condition_variables (variables_in found.old.items) cond.now) }
    ensures sorts { AreOfSorts sig.now found.new.items }
{
    for fragment in cond {
        add_fragment(sig, found, fragment)?;
    }
    Ok(())
}

/// The variables of a statement, by first occurrence in left side, condition and right side.
pub fn statement_variables(
    alloc: Global,
    sig: &Signature,
    left: &Bare,
    cond: &[Fragment],
    right: &Bare,
) -> Result<Vec<VarId>, NoMemory>
    requires left { IsBare (terms_over sig.now) (tree_of left.now) }
    requires cond { All (IsLawfulFragment sig.now) cond.now }
    requires right { IsBare (terms_over sig.now) (tree_of right.now) }
    ensures { IfOk result (λ found. variables_in found.items ≡ statement_variables (tree_of left.now) cond.now (tree_of right.now)) }
{
    let mut found = Vec::new(alloc);
    add_term(sig, &mut found, left)?;
    add_condition(sig, &mut found, cond)?;
    add_term(sig, &mut found, right)?;
    Ok(found)
}
