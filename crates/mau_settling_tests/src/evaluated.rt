//! Rows: a module, the budget of each condition of a membership, a term, and what the evaluator makes of it.
ghost use Rattle.std.specs.Prelude.{◌≤◌, length};
ghost use Rattle.mau_api.specs.Terms.{IsTerm};
ghost use Rattle.mau_module.specs.Lawful.{program_of};
ghost use Rattle.mau_program.specs.LawfulPrograms.{IsLawfulProgram};

use crate::reading::{module_of, term_of};
use crate::rows::{EVEN, TWO, UNIT, push_sort};
use mau_api::{EvalEnd, Evaluator, Unwatched};
use mau_extend::ExtListing;
use mau_formula::HookTable;
use mau_match::Listing;
use mau_module::Module;
use mau_program::Program;
use mau_reduce::Hooks;
use mau_reducer::Flagged;
use mau_store::Store;
use mau_terms::TermId;
use std::alloc::Global;
use std::process::Abort;
use std::test::Fail;

/// Pairs of which those have a sort whose first number is less, by a condition that takes an application for each successor; and equations by that sort.
const LESS: &str =
    "fmod LESS is sorts Nat True False Truth Up Pair . subsorts True False < Truth . subsort Up < Pair . op z : -> Nat . op s_ : Nat -> Nat .
op t : -> True . op f : -> False . op lt : Nat Nat -> Truth . op pair : Nat Nat -> Pair . op pick : Pair -> Truth . vars X Y : Nat . var P : Pair . var Q : Up .
eq lt(X, z) = f . eq lt(z, s Y) = t . eq lt(s X, s Y) = lt(X, Y) . cmb pair(X, Y) : Up if lt(X, Y) = t . eq pick(Q) = t . eq pick(P) = f [owise] . endfm ";

/// The sort that is shown of a term's value, and a `+` for each application that is counted; or `!` where the evaluation stops.
fn shown_of(
    alloc: Global,
    program: &Program,
    store: &mut Store,
    id: TermId,
    limit: u64,
) -> Result<String, Fail>
    requires lawful { IsLawfulProgram program.now }
    requires term { IsTerm program.now.sig store.old id.0 }
{
    let hooks = HookTable::new(alloc);
    let natives = Hooks::new(&hooks);
    let mut evaluator = Flagged::<ExtListing<Listing>, Listing, Hooks>::new(
        alloc, program, natives, limit, false,
    )?;
    let mut shown = String::new(alloc);
    let mut budget = 100;
    match evaluator.evaluate(store, id, &mut budget, &mut Unwatched) {
        Ok(reduced) => {
            push_sort(program, evaluator.sorts(), reduced.term, &mut shown)?;
            for _ in 0..reduced.rewrites {
                shown.push('+')?;
            }
        }
        Err(EvalEnd::Stopped) => shown.push('!')?,
        Err(_) => shown.push('?')?,
    }
    Ok(shown)
}

/// What is shown of the term of a text.
fn shown_of_text(
    rt: &impl Abort,
    alloc: Global,
    of: &Module,
    term: &str,
    limit: u64,
) -> Result<String, Fail>
    requires lawful { IsLawfulProgram (program_of of.now) }
    requires term { length term.now ≤ 16777216 }
{
    let mut store = Store::new(alloc);
    let id = term_of(rt, alloc, of, &mut store, term)?;
    shown_of(alloc, of.program(), &mut store, id, limit)
}

/// What is shown of the term of a text over the module of another one.
fn shown_row(
    rt: &impl Abort,
    alloc: Global,
    text: &str,
    limit: u64,
    term: &str,
) -> Result<String, Fail>
    requires text { length text.now ≤ 16777216 }
    requires term { length term.now ≤ 16777216 }
{
    let read = module_of(alloc, text)?;
    shown_of_text(rt, alloc, &read, term, limit)
}

/// Each row: the module, the budget of each condition, the term, and what is shown.
const ROWS: [(&str, u64, &str, &str); 11] = [
    (EVEN, 9, "s s s s z", "Even"),
    (EVEN, 9, "s s s z", "Nat"),
    (TWO, 9, "f(a)", "C"),
    (TWO, 9, "a", "A"),
    (UNIT, 9, "a ; a", "L"),
    (LESS, 9, "pair(z, s z)", "Up"),
    (LESS, 9, "pair(s z, z)", "Pair"),
    (LESS, 9, "pick(pair(z, s z))", "True+"),
    (LESS, 9, "pick(pair(s z, z))", "False+"),
    (LESS, 2, "pick(pair(s z, s s z))", "True+"),
    (LESS, 1, "pick(pair(s z, s s z))", "!"),
];

#[test]
fn values_by_memberships(rt: HostRuntime) -> Result<(), Fail> {
    for row in ROWS {
        let shown = shown_row(&rt, rt.alloc(), row.0, row.1, row.2)?;
        assert_eq!(rt; shown.as_str(), row.3);
    }
    Ok(())
}
