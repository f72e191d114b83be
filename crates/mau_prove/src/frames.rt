//! What is open while a run is told: evaluations and passes, each with the facts so far.
ghost use Rattle.std.specs.Prelude.{◌≡◌};

use crate::lines::Lines;
use crate::told_sorts::SortFacts;
use mau_api::Place;
use mau_facts::Fact;
use mau_terms::{NoMemory, Seq};
use std::alloc::Global;

/// An argument that leads to another term, by a fact.
#[derive(Clone, Copy)]
pub struct Moved {
    pub index: u32,
    pub fact: u64,
    pub to: u64,
}

/// An evaluation, a pass or the whole run: where it stands, the line of the term at hand, the facts that lead to it one after another, those that show
/// the condition of the next step, and the arguments that moved since it was at hand.
#[derive(Drop)]
pub struct Frame {
    pub place: Place,
    pub at: u64,
    pub facts: Vec<u64>,
    pub uses: Vec<u64>,
    pub moved: Vec<Moved>,
}

/// A frame in which nothing was told.
pub fn opened(alloc: Global, place: Place, at: u64) -> Frame {
    Frame {
        place,
        at,
        facts: Vec::new(alloc),
        uses: Vec::new(alloc),
        moved: Vec::new(alloc),
    }
}

/// A section while it is made: its lines, its facts, for each line the fact that its term is equal to itself, or 0, and the facts that tell sorts.
#[derive(Drop)]
pub struct Making {
    pub alloc: Global,
    pub lines: Lines,
    pub facts: Vec<Fact>,
    pub same: Vec<u64>,
    pub sorted: SortFacts,
}

/// Adds a fact. Gives its number.
pub fn add_fact(making: &mut Making, fact: Fact) -> Result<u64, NoMemory>
    ensures { making.new.lines ≡ making.old.lines }
{
    making.facts.push(fact)?;
    Ok(making.facts.len() as u64)
}

/// Puts a number at a place, among so many.
fn put(numbers: &mut Vec<u64>, count: usize, place: usize, number: u64) -> Result<(), NoMemory> {
    for _ in numbers.len()..count {
        numbers.push(0)?;
    }
    if place < numbers.len() {
        numbers[place] = number;
    }
    Ok(())
}

/// The fact that the term of a line is equal to itself.
pub fn same_fact(making: &mut Making, line: u64) -> Result<u64, NoMemory>
    ensures { making.new.lines ≡ making.old.lines }
{
    let place = line as usize;
    if place < making.same.len() && making.same[place] != 0 {
        return Ok(making.same[place]);
    }
    let number = add_fact(making, Fact::Same(line, line, None))?;
    let count = making.lines.lines.len() + 1;
    put(&mut making.same, count, place, number)?;
    Ok(number)
}

/// A copy of some numbers.
pub fn copied(alloc: Global, numbers: &[u64]) -> Result<Seq<u64>, NoMemory> {
    let numbers: Vec<u64> = numbers.iter().copied().collect(alloc)?;
    Ok(Seq::new(numbers))
}

/// One fact that leads where the facts of a frame lead, if it has one.
pub fn joined(making: &mut Making, frame: &Frame) -> Result<Option<u64>, NoMemory>
    ensures { making.new.lines ≡ making.old.lines }
{
    if frame.facts.is_empty() {
        return Ok(None);
    }
    if frame.facts.len() == 1 {
        return Ok(Some(frame.facts[0]));
    }
    let chain = copied(making.alloc, &frame.facts)?;
    let number = add_fact(making, Fact::Chain(chain))?;
    Ok(Some(number))
}
