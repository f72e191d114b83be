//! Rounds of arguments: an operator over what the facts of its arguments lead to.
ghost use Rattle.std.specs.Prelude.{◌≡◌, OnOk};
ghost use Rattle.mau_program.specs.LawfulPrograms.{IsLawfulProgram};
ghost use Rattle.mau_prove.specs.Making.{Stand};

use crate::frames::{Frame, Making, Moved, add_fact, same_fact};
use crate::lines::add_over;
use crate::nodes::parts_of;
use mau_facts::{Fact, UnderFact};
use mau_program::Program;
use mau_terms::{NoMemory, Seq};

/// The facts of the arguments that moved, at their places, and 0 at all others.
fn facts_at(making: &Making, moved: &[Moved], count: usize) -> Result<Vec<u64>, NoMemory> {
    let mut facts = Vec::with_capacity(making.alloc, count)?;
    for _ in 0..count {
        facts.push(0)?;
    }
    for one in moved {
        let place = one.index as usize;
        if place < facts.len() {
            facts[place] = one.fact;
        }
    }
    Ok(facts)
}

/// The lines of the arguments after a round.
fn lines_after(making: &Making, moved: &[Moved], before: &[u64]) -> Result<Vec<u64>, NoMemory> {
    let mut after: Vec<u64> = before.iter().copied().collect(making.alloc)?;
    for one in moved {
        let place = one.index as usize;
        if place < after.len() {
            after[place] = one.to;
        }
    }
    Ok(after)
}

/// Puts the fact that an argument is equal to itself where it did not move.
fn fill_same(making: &mut Making, facts: &mut Vec<u64>, before: &[u64]) -> Result<(), NoMemory>
    ensures { making.new.lines ≡ making.old.lines }
{
    for i in 0..facts.len() {
        if facts[i] == 0 && i < before.len() {
            let number = same_fact(making, before[i])?;
            facts[i] = number;
        }
    }
    Ok(())
}

/// Ends the round of a frame, if arguments moved: the term at hand is rebuilt.
pub fn end_round(making: &mut Making, program: &Program, frame: &mut Frame) -> Result<(), NoMemory>
    requires lawful { IsLawfulProgram program.now }
    requires stand { Stand program.now.sig making.old.lines }
    ensures { OnOk result (Stand program.now.sig making.new.lines) }
{
    if frame.moved.is_empty() {
        return Ok(());
    }
    let (op, before) = match parts_of(&mut making.lines, program, frame.at) {
        Ok(Some(parts)) => parts,
        Ok(None) => return Err(NoMemory),
        Err(fault) => return Err(fault),
    };
    let after = lines_after(making, &frame.moved, &before)?;
    let mut facts = facts_at(making, &frame.moved, before.len())?;
    fill_same(making, &mut facts, &before)?;
    let to = match add_over(&mut making.lines, program, op, after) {
        Ok(Some(to)) => to,
        Ok(None) => return Err(NoMemory),
        Err(fault) => return Err(fault),
    };
    let number = add_fact(
        making,
        Fact::Under(UnderFact {
            op: op.0,
            facts: Seq::new(facts),
            from: frame.at,
            to,
        }),
    )?;
    frame.facts.push(number)?;
    frame.moved.clear();
    frame.at = to;
    Ok(())
}
