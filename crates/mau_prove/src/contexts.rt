//! Contexts as lines.
ghost use Rattle.std.specs.Prelude.{◌≡◌, OnOk};
ghost use Rattle.mau_program.specs.LawfulPrograms.{IsLawfulProgram};
ghost use Rattle.mau_prove.specs.Making.{Stand};

use crate::lines::{HOLE, Lines, add_hole, add_numeral, add_over, line_of_variable};
use mau_program::Program;
use mau_terms::{Bare, NoMemory, OpId, VarId};

/// The line of a variable of a context; that of its hole is `hole`, or, where this is 0, a line of the hole itself.
fn add_variable_or_part(
    lines: &mut Lines,
    program: &Program,
    variable: VarId,
    hole: u64,
) -> Result<u64, NoMemory>
    requires lawful { IsLawfulProgram program.now }
    requires stand { Stand program.now.sig lines.old }
    ensures { OnOk result (Stand program.now.sig lines.new) }
{
    if variable.index != HOLE {
        return Ok(line_of_variable(lines, variable));
    }
    if hole != 0 {
        return Ok(hole);
    }
    add_hole(lines, program, variable.sort)
}

/// Whether an operator is associative.
fn is_associative(program: &Program, op: OpId) -> bool {
    op.0 > 0 && op.0 <= program.sig.operators() && program.sig.theory(op).assoc
}

/// The line of a context, with the term of the line `hole` in its hole, or with the hole where this is 0. What is nested under an associative operator
/// stands in one line. It takes a stack as deep as the context.
#[cycle(context)]
pub fn add_context(
    lines: &mut Lines,
    program: &Program,
    context: &Bare,
    hole: u64,
) -> Result<u64, NoMemory>
    requires lawful { IsLawfulProgram program.now }
    requires stand { Stand program.now.sig lines.old }
    ensures { OnOk result (Stand program.now.sig lines.new) }
{
    match context {
        Bare::Var(variable) => add_variable_or_part(lines, program, *variable, hole),
        Bare::Num(value) => add_numeral(lines, program, *value),
        Bare::App(op, args) => {
            let mut numbers = Vec::with_capacity(lines.store.allocator(), args.items().len())?;
            add_contexts(lines, program, *op, args.items(), hole, &mut numbers)?;
            match add_over(lines, program, *op, numbers) {
                Ok(Some(number)) => Ok(number),
                Ok(None) => Err(NoMemory),
                Err(fault) => Err(fault),
            }
        }
    }
}

/// Adds the lines of some contexts under an operator.
#[cycle(context)]
fn add_contexts(
    lines: &mut Lines,
    program: &Program,
    op: OpId,
    contexts: &[Bare],
    hole: u64,
    numbers: &mut Vec<u64>,
) -> Result<(), NoMemory>
    requires lawful { IsLawfulProgram program.now }
    requires stand { Stand program.now.sig lines.old }
    ensures { OnOk result (Stand program.now.sig lines.new) }
{
    for context in contexts {
        add_under(lines, program, op, context, hole, numbers)?;
    }
    Ok(())
}

/// Adds the line of a context under an operator, or those of its elements where it is a list of this operator.
#[cycle(context)]
fn add_under(
    lines: &mut Lines,
    program: &Program,
    op: OpId,
    context: &Bare,
    hole: u64,
    numbers: &mut Vec<u64>,
) -> Result<(), NoMemory>
    requires lawful { IsLawfulProgram program.now }
    requires stand { Stand program.now.sig lines.old }
    ensures { OnOk result (Stand program.now.sig lines.new) }
{
    if let Bare::App(top, args) = context {
        if *top == op && is_associative(program, op) {
            return add_contexts(lines, program, op, args.items(), hole, numbers);
        }
    }
    let number = add_context(lines, program, context, hole)?;
    numbers.push(number)?;
    Ok(())
}
