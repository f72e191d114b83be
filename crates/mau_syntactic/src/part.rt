//! The parts of a term.
ghost use Rattle.std.specs.Prelude.{◌≡◌, ◌++◌, map, OnOk};
ghost use Rattle.mau_terms.specs.Tree.{trees_of};
ghost use Rattle.mau_terms.specs.View.{tree_of, variable_of};

use crate::compile::place_of;
use mau_terms::{Bare, NoMemory, OpId, VarId};

/// What is added next, from left to right through a term, where each operator comes behind its arguments.
#[derive(Clone, Copy, PartialEq, Eq, Debug)]
pub(crate) enum Part {
    /// This operator over so many of the last terms, which it takes away.
    Operator(OpId, usize),
    /// This numeral.
    Numeral(u128),
    /// The value at this place.
    Value(usize),
    /// This variable, which has no value.
    Unbound(VarId),
}

ghost use Rattle.mau_syntactic.specs.Parts.{part_of, parts_of, all_parts_of};

/// A variable as a part.
fn variable_part(variables: &[VarId], variable: VarId) -> Part
    ensures { result ≡ part_of (map variable_of variables.now) (variable_of variable) }
{
    let place = place_of(variables, variable);
    if place < variables.len() {
        return Part::Value(place);
    }
    Part::Unbound(variable)
}

/// Adds the parts of a term.
#[cycle(parts)]
pub(crate) fn add_parts(
    parts: &mut Vec<Part>,
    variables: &[VarId],
    term: &Bare,
) -> Result<(), NoMemory>
    ensures { OnOk result (parts.new.items ≡ parts.old.items ++ parts_of (map variable_of variables.now) (tree_of term.now)) }
{
    match term {
        Bare::Var(variable) => {
            parts.push(variable_part(variables, *variable))?;
            Ok(())
        }
        Bare::Num(n) => {
            parts.push(Part::Numeral(*n))?;
            Ok(())
        }
        Bare::App(op, args) => {
            add_all_parts(parts, variables, args.items())?;
            parts.push(Part::Operator(*op, args.items().len()))?;
            Ok(())
        }
    }
}

/// Adds the parts of several terms, one after another.
#[cycle(parts)]
fn add_all_parts(parts: &mut Vec<Part>, variables: &[VarId], terms: &[Bare]) -> Result<(), NoMemory>
    ensures { OnOk result (parts.new.items
        ≡ parts.old.items ++ all_parts_of (map variable_of variables.now) (trees_of (map tree_of terms.now))) }
{
    for term in terms {
        add_parts(parts, variables, term)?;
    }
    Ok(())
}
