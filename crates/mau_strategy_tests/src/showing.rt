//! Solutions of a run, as text.
ghost use Rattle.std.specs.Prelude.{◌≡◌, IfOk};
ghost use Rattle.mau_store.specs.Node.{IsOf};
ghost use Rattle.mau_stratitems.specs.Kept.{store_of, CanRun};

use mau_api::{Evaluator, Lister};
use mau_module::Module;
use mau_print::{Printer, show};
use mau_program::Program;
use mau_store::Store;
use mau_stratitems::{KeptRun, NextShown, next_shown};
use mau_terms::{NoMemory, TermId, Vars};
use std::alloc::Global;
use std::test::Fail;

/// A run with its evaluator, and whether it is to be asked for more.
#[derive(Drop)]
pub struct Search<E, L: Drop> {
    pub run: KeptRun<L>,
    pub evaluator: E,
    pub more: bool,
}

/// What solutions are shown by: their program, what prints its terms, and their variables.
#[derive(Drop)]
pub struct Shower<'a> {
    pub program: &'a Program,
    pub printer: &'a Printer,
    pub vars: &'a Vars,
}

/// What prints the terms of a module.
pub fn printer_of(alloc: Global, of: &Module) -> Result<Printer, NoMemory> {
    let kinds = of.kind_names(alloc)?;
    let printer = Printer::of(alloc, of.signature(), of.grammar(), &kinds)?;
    Ok(printer)
}

/// Appends a solution: the sort that is shown for it, and its term.
fn push_solution(
    alloc: Global,
    shower: &Shower,
    store: &Store,
    term: TermId,
    sort: u32,
    shown: &mut String,
) -> Result<(), Fail>
    requires { IsOf store.now term.0 }
{
    match shower.program.sorts.items().get(sort as usize) {
        Some(name) => shown.push_str(name.as_str())?,
        None => shown.push('?')?,
    }
    shown.push_str(": ")?;
    let text = show(alloc, shower.printer, shower.vars, store, term)?;
    shown.push_str(text.as_str())?;
    shown.push_str(" / ")?;
    Ok(())
}

/// How a listing ends.
fn end_of(next: NextShown) -> &'static str {
    match next {
        NextShown::Solution(_, _) => "a solution",
        NextShown::NoMore => "no more",
        NextShown::Stopped => "stopped",
        NextShown::TooDeep => "too deep",
        NextShown::Overflow => "overflow",
        NextShown::CallDepth => "call depth",
    }
}

/// Appends the next solution of a run, or how it ends.
fn show_next<E: Evaluator + Drop, L: Lister + Drop>(
    alloc: Global,
    shower: &Shower,
    search: Search<E, L>,
    shown: &mut String,
) -> Result<Search<E, L>, Fail>
    requires run { CanRun L.asked L.given L.is_for L.with_context shower.now.program.now
        (E.meanings search.evaluator) (E.table search.evaluator) search.run }
    requires fits { E.fits search.evaluator (store_of search.run) }
    ensures run { IfOk result (λ s. CanRun L.asked L.given L.is_for L.with_context shower.now.program.now
        (E.meanings s.evaluator) (E.table s.evaluator) s.run) }
    ensures fits { IfOk result (λ s. E.fits s.evaluator (store_of s.run)) }
    ensures meanings { IfOk result (λ s. E.meanings s.evaluator ≡ E.meanings search.evaluator) }
{
    let came = next_shown(shower.program, search.evaluator, search.run)?;
    let more = match came.next {
        NextShown::Solution(term, sort) => {
            push_solution(alloc, shower, &came.run.rest.store, term, sort, shown)?;
            true
        }
        end => {
            shown.push_str(end_of(end))?;
            false
        }
    };
    Ok(Search {
        run: came.run,
        evaluator: came.evaluator,
        more,
    })
}

/// Appends the next solutions of a run, at most so many, and how it ends where it does.
pub fn show_some<E: Evaluator + Drop, L: Lister + Drop>(
    alloc: Global,
    shower: &Shower,
    search: Search<E, L>,
    most: u64,
    shown: &mut String,
) -> Result<Search<E, L>, Fail>
    requires run { CanRun L.asked L.given L.is_for L.with_context shower.now.program.now
        (E.meanings search.evaluator) (E.table search.evaluator) search.run }
    requires fits { E.fits search.evaluator (store_of search.run) }
    ensures run { IfOk result (λ s. CanRun L.asked L.given L.is_for L.with_context shower.now.program.now
        (E.meanings s.evaluator) (E.table s.evaluator) s.run) }
    ensures fits { IfOk result (λ s. E.fits s.evaluator (store_of s.run)) }
    ensures meanings { IfOk result (λ s. E.meanings s.evaluator ≡ E.meanings search.evaluator) }
{
    let mut search = search;
    for _ in 0..most {
        if !search.more {
            return Ok(search);
        }
        search = show_next(alloc, shower, search, shown)?;
    }
    Ok(search)
}

/// Appends the next solutions of a run, up to the end of the listing, or 99.
pub fn show_all<E: Evaluator + Drop, L: Lister + Drop>(
    alloc: Global,
    shower: &Shower,
    search: Search<E, L>,
    shown: &mut String,
) -> Result<(), Fail>
    requires run { CanRun L.asked L.given L.is_for L.with_context shower.now.program.now
        (E.meanings search.evaluator) (E.table search.evaluator) search.run }
    requires fits { E.fits search.evaluator (store_of search.run) }
{
    show_some(alloc, shower, search, 99, shown)?;
    Ok(())
}
