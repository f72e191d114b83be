//! The facts of a run, event after event.
ghost use Rattle.std.specs.Prelude.{◌≡◌, OnOk};
ghost use Rattle.mau_program.specs.LawfulPrograms.{IsLawfulProgram};
ghost use Rattle.mau_prove.specs.Making.{Stand};

use crate::frames::{Frame, Making, Moved, add_fact, copied, joined, opened, same_fact};
use crate::recorder::Told;
use crate::rounds::end_round;
use crate::steps::add_step;
use crate::terms::line_of;
use crate::told_sorts::add_sort_facts;
use mau_api::Place;
use mau_facts::Fact;
use mau_program::Program;
use mau_store::Store;
use mau_terms::{NoMemory, TermId};

/// What a side of a fragment leads to, and the sorts of its value, show the fragment.
fn use_side(making: &Making, outer: &mut Frame, fact: u64, value: TermId) -> Result<(), NoMemory> {
    outer.uses.push(fact)?;
    add_sort_facts(&making.sorted, &[value], &mut outer.uses)
}

/// What a frame leads to becomes a part of the one around it: its whole, an argument, or a side of a fragment. The value has the line `to`.
fn leave(
    making: &mut Making,
    outer: &mut Frame,
    inner: &Frame,
    value: TermId,
    to: u64,
) -> Result<(), NoMemory>
    ensures { making.new.lines ≡ making.old.lines }
{
    let fact = joined(making, inner)?;
    match (inner.place, fact) {
        (Place::Whole, Some(fact)) => {
            outer.facts.push(fact)?;
            outer.at = to;
        }
        (Place::Argument(index), Some(fact)) => outer.moved.push(Moved { index, fact, to })?,
        (Place::Fragment(_, _), Some(fact)) => use_side(making, outer, fact, value)?,
        (Place::Fragment(_, _), None) => {
            let fact = same_fact(making, inner.at)?;
            use_side(making, outer, fact, value)?;
        }
        (_, None) => (),
    }
    Ok(())
}

/// Goes on by one event, with the innermost frame taken from the others.
fn go_on(
    making: &mut Making,
    program: &Program,
    store: &Store,
    memo: &[u64],
    frames: &mut Vec<Frame>,
    mut top: Frame,
    event: &Told,
) -> Result<(), NoMemory>
    requires lawful { IsLawfulProgram program.now }
    requires stand { Stand program.now.sig making.old.lines }
    ensures { OnOk result (Stand program.now.sig making.new.lines) }
{
    match event {
        Told::Entered(term, Place::Argument(index)) => {
            frames.push(top)?;
            let at = line_of(memo, *term);
            frames.push(opened(making.alloc, Place::Argument(*index), at))?;
            Ok(())
        }
        Told::Entered(term, place) => {
            end_round(making, program, &mut top)?;
            frames.push(top)?;
            frames.push(opened(making.alloc, *place, line_of(memo, *term)))?;
            Ok(())
        }
        Told::Left(value) => {
            end_round(making, program, &mut top)?;
            let mut outer = frames.pop().ok_or(NoMemory)?;
            leave(making, &mut outer, &top, *value, line_of(memo, *value))?;
            frames.push(outer)?;
            Ok(())
        }
        Told::Made(step) => {
            end_round(making, program, &mut top)?;
            add_step(making, program, store, memo, &mut top, step)?;
            frames.push(top)?;
            Ok(())
        }
    }
}

/// A frame behind events that were told in it.
pub fn add_events(
    making: &mut Making,
    program: &Program,
    store: &Store,
    memo: &[u64],
    frame: Frame,
    events: &[Told],
) -> Result<Frame, NoMemory>
    requires lawful { IsLawfulProgram program.now }
    requires stand { Stand program.now.sig making.old.lines }
    ensures { OnOk result (Stand program.now.sig making.new.lines) }
{
    let mut frames = Vec::new(making.alloc);
    frames.push(frame)?;
    for event in events {
        let top = frames.pop().ok_or(NoMemory)?;
        go_on(making, program, store, memo, &mut frames, top, event)?;
    }
    frames.pop().ok_or(NoMemory)
}

/// Adds the facts of a run, which begins with the term of the line `start` and ends with that of the line `end`; the last fact leads from the one to the other.
pub fn add_facts(
    making: &mut Making,
    program: &Program,
    store: &Store,
    memo: &[u64],
    events: &[Told],
    start: u64,
    end: u64,
) -> Result<(), NoMemory>
    requires lawful { IsLawfulProgram program.now }
    requires stand { Stand program.now.sig making.old.lines }
    ensures { OnOk result (Stand program.now.sig making.new.lines) }
{
    let frame = opened(making.alloc, Place::Whole, start);
    let mut frame = add_events(making, program, store, memo, frame, events)?;
    end_round(making, program, &mut frame)?;
    if frame.facts.is_empty() {
        add_fact(making, Fact::Same(start, end, None))?;
        return Ok(());
    }
    if frame.facts.len() == 1 && frame.facts[0] == making.facts.len() as u64 {
        return Ok(());
    }
    let chain = copied(making.alloc, &frame.facts)?;
    add_fact(making, Fact::Chain(chain))?;
    Ok(())
}
