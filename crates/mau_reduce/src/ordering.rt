//! The order in which equations are tried.
ghost use Rattle.std.specs.Prelude.{◌≡◌, ◌++◌, ◌&&◌, ◌<◌, map, not, if◌then◌else◌, length, All, IfOk};
ghost use Rattle.mau_api.specs.Programs.{equation_of};
ghost use Rattle.mau_reduce.specs.Trying.{numbers_of, order_of_all, IsExecutable};

use mau_api::{Equation, Program};
use mau_terms::NoMemory;
use std::alloc::Global;

/// Whether an equation is tried among those with owise, or among those without.
fn is_tried(equation: &Equation, owise: bool) -> bool
    ensures { result ≡ (equation.now.exec && (if owise then equation.now.owise else not equation.now.owise)) }
{
    if owise {
        return equation.exec && equation.owise;
    }
    equation.exec && !equation.owise
}

/// The numbers of the executable equations with owise, or of those without.
fn numbers_with(alloc: Global, program: &Program, owise: bool) -> Result<Vec<usize>, NoMemory>
    ensures numbers { IfOk result (λ found. found.items ≡ numbers_of owise 0 (map equation_of program.now.equations)) }
{
    let equations = program.equations.items();
    let mut found = Vec::new(alloc);
    for number in 0..equations.len() {
        if is_tried(&equations[number], owise) {
            found.push(number)?;
        }
    }
    Ok(found)
}

/// The numbers of the executable equations: those without owise, and then those with it, both as they stand in the program.
pub fn equations_in_order(alloc: Global, program: &Program) -> Result<Vec<usize>, NoMemory>
    ensures numbers { IfOk result (λ found. found.items ≡ order_of_all (map equation_of program.now.equations)) }
    ensures within { IfOk result (λ found. All (λ i. i < length program.now.equations) found.items) }
    ensures executable { IfOk result (λ found. All (IsExecutable program.now) found.items) }
{
    let mut order = numbers_with(alloc, program, false)?;
    let last = numbers_with(alloc, program, true)?;
    order.extend_from_slice(&last)?;
    Ok(order)
}
