//! The arguments of a normal form, as lines.
ghost use Rattle.std.specs.Prelude.{◌≡◌, ◌≤◌, OnOk, Option, List};
ghost use Rattle.mau_terms.specs.Tree.{Tree};
ghost use Rattle.mau_store.specs.Node.{IsOf};
ghost use Rattle.mau_program.specs.LawfulPrograms.{IsLawfulProgram};
ghost use Rattle.mau_check.specs.Kept.{AreKept};
ghost use Rattle.mau_prove.specs.Making.{Stand};

use crate::lines::{Lines, add_numeral, add_over, line_with};
use crate::terms::add_leaf;
use mau_check::kept_at;
use mau_program::Program;
use mau_store::{NodeView, Store};
use mau_terms::{NoMemory, OpId, TermId, VarId};
use std::alloc::Global;

/// A node of which the arguments are copied.
#[derive(Drop)]
pub enum Owned {
    Num(u128),
    Var(VarId),
    App(OpId, Vec<TermId>),
}

/// A node.
pub fn copy_of(store: &Store, id: TermId) -> Result<Owned, NoMemory>
    requires { IsOf store.now id.0 }
{
    match store.view(id) {
        NodeView::Num(value) => Ok(Owned::Num(value)),
        NodeView::Var(variable) => Ok(Owned::Var(variable)),
        NodeView::App(op, args) => {
            let args: Vec<TermId> = args.iter().copied().collect(store.allocator())?;
            Ok(Owned::App(op, args))
        }
    }
}

/// The lines of normal forms, each 0 where there is none.
fn lines_with(lines: &Lines, ids: &[TermId]) -> Result<Vec<u64>, NoMemory> {
    let mut numbers = Vec::with_capacity(lines.store.allocator(), ids.len())?;
    for id in ids {
        numbers.push(line_with(lines, *id))?;
    }
    Ok(numbers)
}

/// Adds a line for a normal form that has none, where there is one.
fn add_normal(lines: &mut Lines, program: &Program, id: TermId) -> Result<(), NoMemory>
    requires lawful { IsLawfulProgram program.now }
    requires stand { Stand program.now.sig lines.old }
    ensures { OnOk result (Stand program.now.sig lines.new) }
{
    if line_with(lines, id) != 0 || id.0 >= lines.store.len() {
        return Ok(());
    }
    match copy_of(&lines.store, id)? {
        Owned::Num(value) => {
            add_numeral(lines, program, value)?;
            Ok(())
        }
        Owned::Var(variable) => {
            add_leaf(lines, program, variable)?;
            Ok(())
        }
        Owned::App(op, args) => {
            let numbers = lines_with(lines, &args)?;
            add_over(lines, program, op, numbers)?;
            Ok(())
        }
    }
}

/// Adds lines for the normal forms up to a number that have none.
fn complete(lines: &mut Lines, program: &Program, count: usize) -> Result<(), NoMemory>
    requires lawful { IsLawfulProgram program.now }
    requires stand { Stand program.now.sig lines.old }
    ensures { OnOk result (Stand program.now.sig lines.new) }
{
    for i in lines.done..count {
        add_normal(lines, program, TermId(i))?;
        lines.done = i;
    }
    Ok(())
}

/// The line of a normal form.
fn line_for(lines: &mut Lines, program: &Program, id: TermId) -> Result<u64, NoMemory>
    requires lawful { IsLawfulProgram program.now }
    requires stand { Stand program.now.sig lines.old }
    ensures { OnOk result (Stand program.now.sig lines.new) }
{
    let there = line_with(lines, id);
    if there != 0 {
        return Ok(there);
    }
    let count = lines.store.len();
    complete(lines, program, count)?;
    Ok(line_with(lines, id))
}

/// The lines of normal forms.
fn lines_for(lines: &mut Lines, program: &Program, ids: &[TermId]) -> Result<Vec<u64>, NoMemory>
    requires lawful { IsLawfulProgram program.now }
    requires stand { Stand program.now.sig lines.old }
    ensures { OnOk result (Stand program.now.sig lines.new) }
{
    let mut numbers = Vec::with_capacity(lines.store.allocator(), ids.len())?;
    for id in ids {
        let number = line_for(lines, program, *id)?;
        numbers.push(number)?;
    }
    Ok(numbers)
}

/// The operator on top of the normal form of a line, and the lines of its arguments. None where it is over none.
pub fn parts_of(
    lines: &mut Lines,
    program: &Program,
    line: u64,
) -> Result<Option<(OpId, Vec<u64>)>, NoMemory>
    requires lawful { IsLawfulProgram program.now }
    requires stand { Stand program.now.sig lines.old }
    ensures { OnOk result (Stand program.now.sig lines.new) }
{
    let id = match kept_at(&lines.kept, line) {
        Some(kept) => kept.id,
        None => return Ok(None),
    };
    if id.0 >= lines.store.len() {
        return Ok(None);
    }
    match copy_of(&lines.store, id)? {
        Owned::Num(_) | Owned::Var(_) => Ok(None),
        Owned::App(op, args) => {
            let numbers = lines_for(lines, program, &args)?;
            Ok(Some((op, numbers)))
        }
    }
}
