//! Rows: a module, a term, which conditions are asked for in which order, and the sorts of what is settled in that order.
ghost use Rattle.std.specs.Prelude.{◌≤◌, length};
ghost use Rattle.mau_api.specs.Terms.{IsTerm};
ghost use Rattle.mau_module.specs.Lawful.{program_of};
ghost use Rattle.mau_program.specs.LawfulPrograms.{IsLawfulProgram};

use crate::reading::{module_of, term_of};
use crate::table_solver::TableSolver;
use mau_listing::is_lawful;
use mau_match::Listing;
use mau_module::Module;
use mau_program::Program;
use mau_settling::settle_by;
use mau_sorts::SortTable;
use mau_store::Store;
use mau_terms::TermId;
use std::alloc::Global;
use std::process::Abort;
use std::test::Fail;

/// The numbers 0, s 0, .. of which the even ones have a sort, by a membership whose condition asks for that sort.
pub(crate) const EVEN: &str =
    "fmod EVEN is sorts Even Nat . subsort Even < Nat . op z : -> Nat . op s_ : Nat -> Nat . var N : Nat .
mb z : Even . cmb s s N : Even if N : Even . endfm ";

/// A constant with two minimal sorts.
pub(crate) const TWO: &str =
    "fmod TWO is sorts A B C . subsorts A B < C . op a : -> C . op f : C -> C . mb a : B . mb a : A . endfm ";

/// An identity with a membership.
pub(crate) const UNIT: &str =
    "fmod UNIT is sorts E L . subsort E < L . op e : -> L . op a : -> L . op _;_ : L L -> L [assoc id: e] . mb e : E . endfm ";

/// Pairs of numerals, of which some are told to have a sort.
const PAIR: &str =
    "fmod PAIR is protecting NAT . sorts Up Pair . subsort Up < Pair . op pair : Nat Nat -> Pair . vars X Y : Nat .
cmb pair(X, Y) : Up if X < Y . endfm ";

/// Appends the name of the sort that is shown for a term.
pub(crate) fn push_sort(
    program: &Program,
    table: &SortTable,
    id: TermId,
    shown: &mut String,
) -> Result<(), Fail> {
    match table.sort_of(id) {
        Some(sort) => match program.sorts.items().get(sort as usize) {
            Some(name) => shown.push_str(name.as_str())?,
            None => shown.push('?')?,
        },
        None => shown.push('-')?,
    }
    Ok(())
}

/// Appends the name of the sort that is shown for each settled term, in the order in which they were settled.
fn show_sorts(program: &Program, table: &SortTable, shown: &mut String) -> Result<(), Fail> {
    for id in table.settled() {
        shown.push(' ')?;
        push_sort(program, table, *id, shown)?;
    }
    Ok(())
}

/// Settles a term, and stops before one more condition than so many. Which conditions were asked for, `!` where it stopped, and the sorts.
fn shown_of(
    alloc: Global,
    program: &Program,
    store: &mut Store,
    id: TermId,
    left: u32,
    equal: bool,
) -> Result<String, Fail>
    requires lawful { IsLawfulProgram program.now }
    requires term { IsTerm program.now.sig store.old id.0 }
{
    let mut table = SortTable::new(alloc);
    let mut solver = TableSolver {
        log: String::new(alloc),
        left,
        equal,
    };
    is_lawful(&program.sig);
    let ended = settle_by::<Listing, TableSolver>(&mut solver, store, program, &mut table, id);
    let mut shown = solver.log;
    if ended.is_err() {
        shown.push('!')?;
    }
    show_sorts(program, &table, &mut shown)?;
    Ok(shown)
}

/// What is shown of the term of a text.
fn shown_of_text(
    rt: &impl Abort,
    alloc: Global,
    of: &Module,
    term: &str,
    left: u32,
    equal: bool,
) -> Result<String, Fail>
    requires lawful { IsLawfulProgram (program_of of.now) }
    requires term { length term.now ≤ 16777216 }
{
    let mut store = Store::new(alloc);
    let id = term_of(rt, alloc, of, &mut store, term)?;
    shown_of(alloc, of.program(), &mut store, id, left, equal)
}

/// What is shown of the term of a text over the module of another one.
fn shown_row(
    rt: &impl Abort,
    alloc: Global,
    text: &str,
    term: &str,
    left: u32,
    equal: bool,
) -> Result<String, Fail>
    requires text { length text.now ≤ 16777216 }
    requires term { length term.now ≤ 16777216 }
{
    let read = module_of(alloc, text)?;
    shown_of_text(rt, alloc, &read, term, left, equal)
}

/// Each row: the module, the term, and what is shown.
const ROWS: [(&str, &str, u32, &str); 7] = [
    (EVEN, "z", 9, "0 Even"),
    (EVEN, "s s z", 9, "01 Even Nat Even"),
    (EVEN, "s s s s z", 9, "0111 Even Nat Even Nat Even"),
    (EVEN, "s s s s z", 2, "01! Even Nat Even"),
    (TWO, "f(a)", 9, "01 A C"),
    (UNIT, "a", 9, "0 E L"),
    (UNIT, "a ; a", 9, "0 E L L"),
];

#[test]
fn sorts_of_memberships(rt: HostRuntime) -> Result<(), Fail> {
    for row in ROWS {
        let shown = shown_row(&rt, rt.alloc(), row.0, row.1, row.2, false)?;
        assert_eq!(rt; shown.as_str(), row.3);
    }
    Ok(())
}

#[test]
fn equal_conditions(rt: HostRuntime) -> Result<(), Fail> {
    let up = shown_row(&rt, rt.alloc(), PAIR, "pair(1, 2)", 9, true)?;
    assert!(rt; up.as_str().ends_with(" Up"));
    let pair = shown_row(&rt, rt.alloc(), PAIR, "pair(2, 1)", 9, false)?;
    assert!(rt; pair.as_str().ends_with(" Pair"));
    Ok(())
}
