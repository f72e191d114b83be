//! Facts that tell sorts: which of them there are, and how they are made.
ghost use Rattle.std.specs.Prelude.{◌≡◌, OnOk};
ghost use Rattle.mau_program.specs.LawfulPrograms.{IsLawfulProgram};
ghost use Rattle.mau_prove.specs.Making.{Stand};

use crate::frames::{Making, add_fact, opened};
use crate::memberships::{Reason, Shown, SortOf};
use crate::terms::{line_of, lines_of};
use crate::walk::add_events;
use mau_api::Place;
use mau_facts::{Fact, MbFact, SortFact};
use mau_program::Program;
use mau_store::{NodeView, Store};
use mau_terms::{NoMemory, Seq, TermId};
use std::alloc::Global;

/// Facts that tell sorts of terms, those of one term one after another.
#[derive(Drop)]
pub struct SortFacts {
    pub facts: Vec<u64>,
    /// For each term of the run's store where its facts begin, and how many there are.
    pub places: Vec<(usize, usize)>,
}

/// None.
pub fn no_sort_facts(alloc: Global) -> SortFacts {
    SortFacts {
        facts: Vec::new(alloc),
        places: Vec::new(alloc),
    }
}

/// Where the facts of a term begin and end.
fn range_of(known: &SortFacts, id: TermId) -> (usize, usize) {
    match known.places.get(id.0) {
        Some((start, count)) => (*start, start.saturating_add(*count)),
        None => (0, 0),
    }
}

/// Adds the facts of a term to others.
fn push_sort_facts(known: &SortFacts, id: TermId, uses: &mut Vec<u64>) -> Result<(), NoMemory> {
    let (start, end) = range_of(known, id);
    for place in start..end {
        match known.facts.get(place) {
            Some(fact) => uses.push(*fact)?,
            None => return Ok(()),
        }
    }
    Ok(())
}

/// Adds the facts of some terms to others.
pub fn add_sort_facts(
    known: &SortFacts,
    ids: &[TermId],
    uses: &mut Vec<u64>,
) -> Result<(), NoMemory> {
    for id in ids {
        push_sort_facts(known, *id, uses)?;
    }
    Ok(())
}

/// Notes a fact of a term, behind those of the others.
fn note(known: &mut SortFacts, id: TermId, fact: u64) -> Result<(), NoMemory> {
    for _ in known.places.len()..id.0 {
        known.places.push((0, 0))?;
    }
    if known.places.len() == id.0 {
        known.places.push((0, 0))?;
    }
    let start = known.facts.len();
    known.facts.push(fact)?;
    if id.0 < known.places.len() {
        let (before, count) = known.places[id.0];
        let first = if count == 0 { start } else { before };
        known.places[id.0] = (first, count.saturating_add(1));
    }
    Ok(())
}

/// The fact of a sort that declarations give, by the facts of the term's arguments.
fn declared_fact(
    making: &Making,
    store: &Store,
    memo: &[u64],
    derived: &SortOf,
) -> Result<Fact, NoMemory> {
    let mut uses = Vec::new(making.alloc);
    if derived.term.0 < store.len() {
        match store.view(derived.term) {
            NodeView::App(_, args) => add_sort_facts(&making.sorted, args, &mut uses)?,
            NodeView::Num(_) | NodeView::Var(_) => (),
        }
    }
    Ok(Fact::SortDecl(SortFact {
        term: line_of(memo, derived.term),
        sort: derived.sort.saturating_add(1),
        uses: Seq::new(uses),
    }))
}

/// The fact of a sort that a membership gives, behind those that show its condition.
fn member_fact(
    making: &mut Making,
    program: &Program,
    store: &Store,
    memo: &[u64],
    derived: &SortOf,
    number: u32,
    shown: &Shown,
) -> Result<Fact, NoMemory>
    requires lawful { IsLawfulProgram program.now }
    requires stand { Stand program.now.sig making.old.lines }
    ensures { OnOk result (Stand program.now.sig making.new.lines) }
{
    let term = line_of(memo, derived.term);
    let frame = opened(making.alloc, Place::Whole, term);
    let frame = add_events(making, program, store, memo, frame, shown.told.events())?;
    let mut uses = frame.uses;
    add_sort_facts(&making.sorted, shown.values.items(), &mut uses)?;
    let bind = lines_of(&making.lines, memo, shown.values.items())?;
    Ok(Fact::SortMb(MbFact {
        term,
        sort: derived.sort.saturating_add(1),
        membership: number,
        bind: Seq::new(bind),
        uses: Seq::new(uses),
    }))
}

/// The fact of a sort, behind those that it needs.
fn fact_of(
    making: &mut Making,
    program: &Program,
    store: &Store,
    memo: &[u64],
    derived: &SortOf,
) -> Result<Fact, NoMemory>
    requires lawful { IsLawfulProgram program.now }
    requires stand { Stand program.now.sig making.old.lines }
    ensures { OnOk result (Stand program.now.sig making.new.lines) }
{
    match &derived.reason {
        Reason::Declared => declared_fact(making, store, memo, derived),
        Reason::Member(number, shown) => {
            member_fact(making, program, store, memo, derived, *number, shown)
        }
    }
}

/// Adds the fact of a sort.
fn add_sort(
    making: &mut Making,
    program: &Program,
    store: &Store,
    memo: &[u64],
    derived: &SortOf,
) -> Result<(), NoMemory>
    requires lawful { IsLawfulProgram program.now }
    requires stand { Stand program.now.sig making.old.lines }
    ensures { OnOk result (Stand program.now.sig making.new.lines) }
{
    let fact = fact_of(making, program, store, memo, derived)?;
    let number = add_fact(making, fact)?;
    note(&mut making.sorted, derived.term, number)?;
    Ok(())
}

/// Adds the facts of sorts, in this order.
pub fn add_sorts(
    making: &mut Making,
    program: &Program,
    store: &Store,
    memo: &[u64],
    sorts: &[SortOf],
) -> Result<(), NoMemory>
    requires lawful { IsLawfulProgram program.now }
    requires stand { Stand program.now.sig making.old.lines }
    ensures { OnOk result (Stand program.now.sig making.new.lines) }
{
    for derived in sorts {
        add_sort(making, program, store, memo, derived)?;
    }
    Ok(())
}
