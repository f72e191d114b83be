//! A section of a document that proves what a run leads to.
ghost use Rattle.std.specs.Prelude.{◌≡◌, All, IfOk};
ghost use Rattle.mau_store.specs.Node.{IsOf};
ghost use Rattle.mau_store.specs.Trees.{tree_at};
ghost use Rattle.mau_formula.specs.Operators.{operators};
ghost use Rattle.mau_program.specs.LawfulPrograms.{IsLawfulProgram};
ghost use Rattle.mau_built_ins.specs.NativeNumerals.{GivesNumerals};
ghost use Rattle.mau_prove.specs.Proved.{CanBeWritten, Proves};

use crate::certified::is_proof;
use crate::frames::Making;
use crate::lines::{add_variables, no_lines};
use crate::memberships::SortOf;
use crate::recorder::Told;
use crate::terms::{add_terms, line_of};
use crate::told_sorts::{add_sorts, no_sort_facts};
use crate::walk::add_facts;
use mau_facts::{Section, can_be_written};
use mau_formula::HookTable;
use mau_program::Program;
use mau_store::Store;
use mau_terms::{NoMemory, Seq, TermId, Text, Vars};
use std::alloc::Global;

/// What was told of a run from one term of a store to another, with the variables of these terms, and why values have their sorts.
#[derive(Clone, Copy)]
pub struct Run<'a> {
    pub store: &'a Store,
    pub vars: &'a Vars,
    pub events: &'a [Told],
    pub sorts: &'a [SortOf],
    pub start: TermId,
    pub end: TermId,
}

/// The lines and facts of a run.
fn make(alloc: Global, program: &Program, run: Run<'_>) -> Result<Making, NoMemory>
    requires { IsLawfulProgram program.now }
{
    let mut lines = no_lines(alloc);
    add_variables(&mut lines, program, run.vars)?;
    let memo = add_terms(
        &mut lines, program, run.store, run.events, run.sorts, run.start, run.end,
    )?;
    let mut making = Making {
        alloc,
        lines,
        facts: Vec::new(alloc),
        same: Vec::new(alloc),
        sorted: no_sort_facts(alloc),
    };
    add_sorts(&mut making, program, run.store, &memo, run.sorts)?;
    let (first, last) = (line_of(&memo, run.start), line_of(&memo, run.end));
    add_facts(
        &mut making,
        program,
        run.store,
        &memo,
        run.events,
        first,
        last,
    )?;
    Ok(making)
}

/// A section for an item in a module.
fn section_of(alloc: Global, making: Making, item: u32, name: &str) -> Result<Section, NoMemory>
    ensures item { IfOk result (λ x. x.item ≡ item) }
    ensures named { IfOk result (λ x. x.«module» ≡ name.now) }
{
    let name = Text::new(alloc, name)?;
    let lines = making.lines;
    Ok(Section {
        item,
        module: name,
        terms: Seq::new(lines.lines),
        facts: Seq::new(making.facts),
    })
}

/// A section that proves what a run leads to, for an item in a module. What is made of the events is judged before it is given away, as `check`
/// judges it, so nothing is asked of them; where it is no proof, or there is no memory, there is no section.
pub fn prove(
    alloc: Global,
    program: &Program,
    hooks: &HookTable,
    run: Run<'_>,
    item: u32,
    name: &str,
) -> Result<Section, NoMemory>
    requires lawful { IsLawfulProgram program.now }
    requires numerals { All GivesNumerals (operators hooks.now) }
    requires start { IsOf run.store.now run.start.0 }
    requires end { IsOf run.store.now run.end.0 }
    ensures item { IfOk result (λ x. x.item ≡ item) }
    ensures named { IfOk result (λ x. x.«module» ≡ name.now) }
    ensures written { IfOk result CanBeWritten }
    ensures proves { IfOk result (Proves program.now (operators hooks.now) run.entry.vars.now (tree_at run.entry.store.now run.entry.start.0) (tree_at run.entry.store.now run.entry.end.0)) }
{
    let making = make(alloc, program, run)?;
    let section = match section_of(alloc, making, item, name) {
        Ok(section) => section,
        Err(fault) => return Err(fault),
    };
    if !can_be_written(&section) {
        return Err(NoMemory);
    }
    let (store, vars) = (run.store, run.vars);
    match is_proof(
        alloc, program, hooks, store, vars, &section, run.start, run.end,
    ) {
        Ok(true) => Ok(section),
        Ok(false) => Err(NoMemory),
        Err(fault) => Err(fault),
    }
}
