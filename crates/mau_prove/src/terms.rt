//! The terms of a run as lines.
ghost use Rattle.std.specs.Prelude.{◌≡◌, ◌≤◌, ◌<◌, OnOk, length};
ghost use Rattle.mau_store.specs.Node.{AreOf, IsOf, arguments};
ghost use Rattle.mau_store.specs.View.{node_of};
ghost use Rattle.mau_program.specs.LawfulPrograms.{IsLawfulProgram};
ghost use Rattle.mau_prove.specs.Making.{Stand};

use crate::lines::{HOLE, Lines, add_hole, add_numeral, add_over, line_of_variable};
use crate::memberships::{Reason, Shown, SortOf};
use crate::recorder::Told;
use mau_api::Step;
use mau_program::Program;
use mau_store::{NodeView, Store};
use mau_terms::{NoMemory, TermId, VarId};

/// Marks a term.
fn mark(marks: &mut Vec<bool>, id: TermId)
    ensures { length marks.new.items ≡ length marks.old.items }
{
    if id.0 < marks.len() {
        marks[id.0] = true;
    }
}

/// Marks some terms.
fn mark_all(marks: &mut Vec<bool>, ids: &[TermId])
    ensures { length marks.new.items ≡ length marks.old.items }
{
    for id in ids {
        mark(marks, *id);
    }
}

/// Marks the terms of a step.
fn mark_step(marks: &mut Vec<bool>, step: &Step)
    ensures { length marks.new.items ≡ length marks.old.items }
{
    mark(marks, step.before);
    mark(marks, step.after);
    mark_all(marks, step.values.items());
}

/// Marks the terms that were told.
fn mark_told(marks: &mut Vec<bool>, events: &[Told])
    ensures { length marks.new.items ≡ length marks.old.items }
{
    for event in events {
        match event {
            Told::Entered(term, _) => mark(marks, *term),
            Told::Left(value) => mark(marks, *value),
            Told::Made(step) => mark_step(marks, step),
        }
    }
}

/// Marks the terms that show a condition, with the values of variables.
fn mark_shown(marks: &mut Vec<bool>, shown: &Shown)
    ensures { length marks.new.items ≡ length marks.old.items }
{
    mark_all(marks, shown.values.items());
    mark_told(marks, shown.told.events());
}

/// Marks the terms of sorts, and those that show these.
fn mark_sorts(marks: &mut Vec<bool>, sorts: &[SortOf])
    ensures { length marks.new.items ≡ length marks.old.items }
{
    for derived in sorts {
        mark(marks, derived.term);
        match &derived.reason {
            Reason::Declared => (),
            Reason::Member(_, shown) => mark_shown(marks, shown),
        }
    }
}

/// Marks the arguments of a term that is marked.
fn mark_arguments(marks: &mut Vec<bool>, store: &Store, id: TermId)
    requires there { IsOf store.now id.0 }
    ensures { length marks.new.items ≡ length marks.old.items }
{
    match store.view(id) {
        NodeView::App(_, args) => mark_all(marks, args),
        NodeView::Num(_) | NodeView::Var(_) => (),
    }
}

/// Which terms of a store are named by what was told or by what shows sorts, or are below such a term.
fn needed(
    store: &Store,
    events: &[Told],
    sorts: &[SortOf],
    start: TermId,
    end: TermId,
) -> Result<Vec<bool>, NoMemory> {
    let mut marks = Vec::new(store.allocator());
    for _ in 0..store.len() {
        marks.push(false)?;
    }
    mark(&mut marks, start);
    mark(&mut marks, end);
    mark_told(&mut marks, events);
    mark_sorts(&mut marks, sorts);
    for i in 0..store.len() {
        let place = store.len() - 1 - i;
        if place < marks.len() && marks[place] {
            mark_arguments(&mut marks, store, TermId(place));
        }
    }
    Ok(marks)
}

/// The line of a term, or 0 for one that has none.
pub fn line_of(memo: &[u64], id: TermId) -> u64 {
    match memo.get(id.0) {
        Some(number) => *number,
        None => 0,
    }
}

/// The lines of some terms.
pub fn lines_of(lines: &Lines, memo: &[u64], ids: &[TermId]) -> Result<Vec<u64>, NoMemory> {
    let mut numbers = Vec::with_capacity(lines.store.allocator(), ids.len())?;
    for id in ids {
        numbers.push(line_of(memo, *id))?;
    }
    Ok(numbers)
}

/// The line of a variable or of a hole.
pub fn add_leaf(lines: &mut Lines, program: &Program, variable: VarId) -> Result<u64, NoMemory>
    requires lawful { IsLawfulProgram program.now }
    requires stand { Stand program.now.sig lines.old }
    ensures { OnOk result (Stand program.now.sig lines.new) }
{
    if variable.index == HOLE {
        return add_hole(lines, program, variable.sort);
    }
    Ok(line_of_variable(lines, variable))
}

/// The line of a node, over those of its arguments.
fn add_node(
    lines: &mut Lines,
    program: &Program,
    memo: &[u64],
    node: NodeView<'_>,
) -> Result<u64, NoMemory>
    requires lawful { IsLawfulProgram program.now }
    requires stand { Stand program.now.sig lines.old }
    ensures { OnOk result (Stand program.now.sig lines.new) }
{
    match node {
        NodeView::Num(value) => add_numeral(lines, program, value),
        NodeView::Var(variable) => add_leaf(lines, program, variable),
        NodeView::App(op, args) => {
            let numbers = lines_of(lines, memo, args)?;
            match add_over(lines, program, op, numbers) {
                Ok(Some(number)) => Ok(number),
                Ok(None) => Err(NoMemory),
                Err(fault) => Err(fault),
            }
        }
    }
}

/// The line of a term that is marked, and 0 for any other.
fn add_if_marked(
    lines: &mut Lines,
    program: &Program,
    store: &Store,
    marks: &[bool],
    memo: &[u64],
    place: usize,
) -> Result<u64, NoMemory>
    requires lawful { IsLawfulProgram program.now }
    requires stand { Stand program.now.sig lines.old }
    requires there { IsOf store.now place }
    ensures { OnOk result (Stand program.now.sig lines.new) }
{
    if place >= marks.len() || !marks[place] {
        return Ok(0);
    }
    add_node(lines, program, memo, store.view(TermId(place)))
}

/// Adds the terms that are marked. Gives the line of each.
fn add_marked(
    lines: &mut Lines,
    program: &Program,
    store: &Store,
    marks: &[bool],
) -> Result<Vec<u64>, NoMemory>
    requires lawful { IsLawfulProgram program.now }
    requires stand { Stand program.now.sig lines.old }
    ensures { OnOk result (Stand program.now.sig lines.new) }
{
    let mut memo = Vec::new(store.allocator());
    for i in 0..store.len() {
        let number = add_if_marked(lines, program, store, marks, &memo, i)?;
        memo.push(number)?;
    }
    Ok(memo)
}

/// Adds the terms that were told or that show sorts, and what is below them. Gives the line of each, and 0 for all others.
pub fn add_terms(
    lines: &mut Lines,
    program: &Program,
    store: &Store,
    events: &[Told],
    sorts: &[SortOf],
    start: TermId,
    end: TermId,
) -> Result<Vec<u64>, NoMemory>
    requires lawful { IsLawfulProgram program.now }
    requires stand { Stand program.now.sig lines.old }
    ensures { OnOk result (Stand program.now.sig lines.new) }
{
    let marks = needed(store, events, sorts, start, end)?;
    add_marked(lines, program, store, &marks)
}
