//! Declared variables.
ghost use Rattle.std.specs.Prelude.{◌≡◌, IfOk, map};
ghost use Rattle.mau_grammar.specs.Grammar.{variable_of};

use crate::sorts::kind_at;
use mau_poset::Poset;
use mau_terms::{NoMemory, Text};
use std::alloc::Global;

/// A name that is declared as a variable, and the number of its sort or kind.
#[derive(Drop, Debug)]
pub struct Alias {
    pub name: Text,
    pub sort: u32,
}

/// A declared variable: its name, the number of its sort or kind, and the number of the kind in which it lies.
#[derive(Drop, Debug)]
pub struct Variable {
    pub name: Text,
    pub sort: u32,
    pub kind: u32,
}

/// The declared variables with their kinds.
pub fn variables_of(
    alloc: Global,
    poset: &Poset,
    aliases: &[Alias],
) -> Result<Vec<Variable>, NoMemory>
    ensures { IfOk result (λ vs. vs.items ≡ map (variable_of poset.now) aliases.now) }
{
    let mut variables = Vec::with_capacity(alloc, aliases.len())?;
    for alias in aliases {
        variables.push(Variable {
            name: alias.name.copy(alloc)?,
            sort: alias.sort,
            kind: kind_at(poset, alias.sort),
        })?;
    }
    Ok(variables)
}
