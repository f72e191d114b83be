//! The lines of a section while it is made.
ghost use Rattle.std.specs.Prelude.{◌≡◌, OnOk, IfOk, List, Option};
ghost use Rattle.mau_terms.specs.Tree.{Tree};
ghost use Rattle.mau_signature.specs.Signature.{SignatureOf};
ghost use Rattle.mau_program.specs.LawfulPrograms.{IsLawfulProgram};
ghost use Rattle.mau_check.specs.Kept.{IsKeptFor, AreKept};
ghost use Rattle.mau_prove.specs.Making.{Stand, IsOne};

use crate::names::variable_text;
use mau_check::{Kept, add_variable, build_over, kept_all, numeral};
use mau_facts::TermLine;
use mau_program::Program;
use mau_store::Store;
use mau_terms::{NoMemory, OpId, Seq, TermId, Text, VarId, Vars};
use std::alloc::Global;

/// The index of the variables that are holes.
pub const HOLE: u32 = 4_294_967_295;

/// Lines, and what a check keeps of each: the number of its normal form. Lines are counted from 1, and 0 stands for none.
#[derive(Drop)]
pub struct Lines {
    pub store: Store,
    pub vars: Vars,
    pub kept: Vec<Option<Kept>>,
    pub lines: Vec<TermLine>,
    /// For each normal form the line that has it.
    pub by_id: Vec<u64>,
    /// The lines of the variables, by their numbers.
    pub named: Vec<u64>,
    /// The kinds whose holes have lines, and these.
    pub holes: Vec<(u32, u64)>,
    /// So many of the first normal forms have lines.
    pub done: usize,
}

/// No lines.
pub fn no_lines(alloc: Global) -> Lines
    ensures { (s : SignatureOf) → Stand s result }
{
    Lines {
        store: Store::new(alloc),
        vars: Vars::new(alloc),
        kept: Vec::new(alloc),
        lines: Vec::new(alloc),
        by_id: Vec::new(alloc),
        named: Vec::new(alloc),
        holes: Vec::new(alloc),
        done: 0,
    }
}

/// The line that has a normal form.
pub fn line_with(lines: &Lines, id: TermId) -> u64 {
    match lines.by_id.get(id.0) {
        Some(number) => *number,
        None => 0,
    }
}

/// Notes which line has a normal form.
fn note(by_id: &mut Vec<u64>, count: usize, id: TermId, number: u64) -> Result<(), NoMemory> {
    for _ in by_id.len()..count {
        by_id.push(0)?;
    }
    if id.0 < by_id.len() {
        by_id[id.0] = number;
    }
    Ok(())
}

/// Adds a line, and what is kept of it. Gives its number.
fn keep(lines: &mut Lines, line: TermLine, kept: Kept) -> Result<u64, NoMemory>
    ensures { (s : SignatureOf) → Stand s lines.old → IsOne s lines.old.store kept → OnOk result (Stand s lines.new) }
{
    lines.lines.push(line)?;
    lines.kept.push(Some(kept))?;
    let number = lines.kept.len() as u64;
    note(&mut lines.by_id, lines.store.len(), kept.id, number)?;
    Ok(number)
}

/// The line that has what is kept, or else a new one.
fn keep_once(lines: &mut Lines, line: TermLine, kept: Kept) -> Result<u64, NoMemory>
    ensures { (s : SignatureOf) → Stand s lines.old → IsOne s lines.old.store kept → OnOk result (Stand s lines.new) }
{
    let there = line_with(lines, kept.id);
    if there != 0 {
        return Ok(there);
    }
    keep(lines, line, kept)
}

/// The line of a numeral.
pub fn add_numeral(lines: &mut Lines, program: &Program, value: u128) -> Result<u64, NoMemory>
    requires { Stand program.now.sig lines.old }
    ensures { OnOk result (Stand program.now.sig lines.new) }
{
    match numeral(&mut lines.store, &program.sig, value) {
        Ok(Some(kept)) => keep_once(lines, TermLine::Num(value), kept),
        Ok(None) => Err(NoMemory),
        Err(fault) => Err(fault),
    }
}

/// The line of an operator over those with these numbers, if that is a term within the limits.
pub fn add_over(
    lines: &mut Lines,
    program: &Program,
    op: OpId,
    args: Vec<u64>,
) -> Result<Option<u64>, NoMemory>
    requires { Stand program.now.sig lines.old }
    ensures { OnOk result (Stand program.now.sig lines.new) }
{
    let alloc = lines.store.allocator();
    let terms = match kept_all(alloc, &lines.kept, &args) {
        Ok(Some(terms)) => terms,
        Ok(None) => return Ok(None),
        Err(fault) => return Err(fault),
    };
    let kept = match build_over(&mut lines.store, &program.sig, op.0, &terms) {
        Ok(Some(kept)) => kept,
        Ok(None) => return Ok(None),
        Err(fault) => return Err(fault),
    };
    match keep_once(lines, TermLine::App(op.0, Seq::new(args)), kept) {
        Ok(number) => Ok(Some(number)),
        Err(fault) => Err(fault),
    }
}

/// The line of a variable or a hole, as it is written.
fn add_written(lines: &mut Lines, program: &Program, text: Text) -> Result<u64, NoMemory>
    requires lawful { IsLawfulProgram program.now }
    requires stand { Stand program.now.sig lines.old }
    ensures { OnOk result (Stand program.now.sig lines.new) }
{
    match add_variable(&mut lines.store, program, &mut lines.vars, text.as_str()) {
        Ok(Some(kept)) => keep(lines, TermLine::Var(text), kept),
        Ok(None) => Err(NoMemory),
        Err(fault) => Err(fault),
    }
}

/// Adds lines for all variables, in order.
pub fn add_variables(lines: &mut Lines, program: &Program, vars: &Vars) -> Result<(), NoMemory>
    requires lawful { IsLawfulProgram program.now }
    requires stand { Stand program.now.sig lines.old }
    ensures { OnOk result (Stand program.now.sig lines.new) }
{
    let alloc = lines.store.allocator();
    if vars.len() > HOLE as usize {
        return Err(NoMemory);
    }
    for i in 0..vars.len() {
        let (name, sort) = match vars.variable(i as u32) {
            Some(variable) => vars.get(variable).ok_or(NoMemory)?,
            None => return Err(NoMemory),
        };
        let text = variable_text(alloc, program, name, sort)?;
        let number = add_written(lines, program, text)?;
        lines.named.push(number)?;
    }
    Ok(())
}

/// The line of the hole of a kind, if there is one.
fn hole_of(holes: &[(u32, u64)], kind: u32) -> u64 {
    for hole in holes {
        if hole.0 == kind {
            return hole.1;
        }
    }
    0
}

/// The line of the hole of a kind.
pub fn add_hole(lines: &mut Lines, program: &Program, kind: u32) -> Result<u64, NoMemory>
    requires lawful { IsLawfulProgram program.now }
    requires stand { Stand program.now.sig lines.old }
    ensures { OnOk result (Stand program.now.sig lines.new) }
{
    let there = hole_of(&lines.holes, kind);
    if there != 0 {
        return Ok(there);
    }
    let text = variable_text(lines.store.allocator(), program, "HOLE", kind)?;
    let number = add_written(lines, program, text)?;
    lines.holes.push((kind, number))?;
    Ok(number)
}

/// The line of a variable, or 0 for one that has none.
pub fn line_of_variable(lines: &Lines, variable: VarId) -> u64 {
    match lines.named.get(variable.index as usize) {
        Some(number) => *number,
        None => 0,
    }
}
