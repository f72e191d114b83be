//! The declarations of the modules of truth values, and their variables.
ghost use Rattle.std.specs.Prelude.{◌≡◌, IfOk};
ghost use Rattle.mau_prelude.specs.Booleans.{constants, connectives, variables};

use crate::rows::{BOOL, Rows, assoc_comm_at, gathering, precedence, variable};
use mau_grammar::Alias;
use mau_signature::{Decl, Gather};
use mau_terms::NoMemory;
use std::alloc::Global;

pub fn constants(alloc: Global) -> Result<Vec<Decl>, NoMemory>
    ensures { IfOk result (λ rows. rows.items ≡ constants) }
{
    let mut rows = Rows::new(alloc);
    rows.constant("true", BOOL)?;
    rows.constant("false", BOOL)?;
    Ok(rows.list)
}

pub fn connectives(alloc: Global) -> Result<Vec<Decl>, NoMemory>
    ensures { IfOk result (λ rows. rows.items ≡ connectives) }
{
    let mut rows = Rows::new(alloc);
    rows.between("and", [BOOL, BOOL], BOOL, assoc_comm_at(55))?;
    rows.between("or", [BOOL, BOOL], BOOL, assoc_comm_at(59))?;
    rows.between("xor", [BOOL, BOOL], BOOL, assoc_comm_at(57))?;
    rows.prefix("not", BOOL, BOOL, precedence(53))?;
    let to_the_right = gathering(alloc, 61, Gather::Below, Gather::Upto)?;
    rows.between("implies", [BOOL, BOOL], BOOL, to_the_right)?;
    Ok(rows.list)
}

// The variables of `BOOL`.
pub fn boolean_variables(alloc: Global) -> Result<Vec<Alias>, NoMemory>
    ensures { IfOk result (λ rows. rows.items ≡ variables) }
{
    let mut rows = Vec::new(alloc);
    rows.push(variable(alloc, "A", BOOL)?)?;
    rows.push(variable(alloc, "B", BOOL)?)?;
    rows.push(variable(alloc, "C", BOOL)?)?;
    Ok(rows)
}
