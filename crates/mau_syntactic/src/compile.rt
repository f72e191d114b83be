//! The steps of a term.
ghost use Rattle.std.specs.Prelude.{◌≡◌, ◌++◌, map, IfOk, OnOk};
ghost use Rattle.mau_terms.specs.Tree.{variable as variable_tree, trees_of};
ghost use Rattle.mau_terms.specs.Subst.{add_variables, add_all_variables};
ghost use Rattle.mau_terms.specs.View.{tree_of, variable_of};
ghost use Rattle.mau_syntactic.specs.Steps.{place_in, steps_of, all_steps_of};

use crate::step::Step;
use mau_terms::{Bare, NoMemory, VarId};

/// The first place of a variable among these, or their number where it is not there.
pub(crate) fn place_of(variables: &[VarId], variable: VarId) -> usize
    ensures { result ≡ place_in (map variable_of variables.now) (variable_of variable) }
{
    for (place, other) in variables.iter().enumerate() {
        if *other == variable {
            return place;
        }
    }
    variables.len()
}

/// The place of a variable, which is added if it is not there.
fn add_variable(variables: &mut Vec<VarId>, variable: VarId) -> Result<usize, NoMemory>
    ensures place { IfOk result (λ place. place ≡ place_in (map variable_of variables.old.items) (variable_of variable)) }
    ensures variables { OnOk result (map variable_of variables.new.items
        ≡ add_variables (map variable_of variables.old.items) (variable_tree variable.index variable.sort)) }
{
    let place = place_of(variables, variable);
    if place < variables.len() {
        return Ok(place);
    }
    variables.push(variable)?;
    Ok(place)
}

/// Adds the steps of a term, and the variables that are not there.
#[cycle(compile)]
pub(crate) fn add_term(
    steps: &mut Vec<Step>,
    variables: &mut Vec<VarId>,
    term: &Bare,
) -> Result<(), NoMemory>
    ensures steps { OnOk result (steps.new.items ≡ steps.old.items ++ steps_of (map variable_of variables.old.items) (tree_of term.now)) }
    ensures variables { OnOk result (map variable_of variables.new.items
        ≡ add_variables (map variable_of variables.old.items) (tree_of term.now)) }
{
    match term {
        Bare::Var(variable) => {
            let place = add_variable(variables, *variable)?;
            steps.push(Step::Place(place))?;
            Ok(())
        }
        Bare::Num(n) => {
            steps.push(Step::Numeral(*n))?;
            Ok(())
        }
        Bare::App(op, args) => {
            steps.push(Step::Operator(*op, args.items().len()))?;
            add_arguments(steps, variables, args.items())?;
            Ok(())
        }
    }
}

/// Adds the steps and the variables of several terms, one after another.
#[cycle(compile)]
fn add_arguments(
    steps: &mut Vec<Step>,
    variables: &mut Vec<VarId>,
    terms: &[Bare],
) -> Result<(), NoMemory>
    ensures steps { OnOk result (steps.new.items
        ≡ steps.old.items ++ all_steps_of (map variable_of variables.old.items) (trees_of (map tree_of terms.now))) }
    ensures variables { OnOk result (map variable_of variables.new.items
        ≡ add_all_variables (map variable_of variables.old.items) (trees_of (map tree_of terms.now))) }
{
    for term in terms {
        add_term(steps, variables, term)?;
    }
    Ok(())
}
