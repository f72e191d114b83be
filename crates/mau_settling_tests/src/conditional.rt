//! Rows of conditional equations: a module, a term, a budget, the value, and how many applications are counted.
ghost use Rattle.std.specs.Prelude.{◌≡◌, ◌≤◌, ◌∷◌, [], length, All, IfOk};
ghost use Rattle.mau_api.specs.Terms.{IsTerm};
ghost use Rattle.mau_built_ins.specs.NativeNumerals.{GivesNumerals};
ghost use Rattle.mau_formula.specs.Expr.{value};
ghost use Rattle.mau_formula.specs.Native.{formula_of, native_operator};
ghost use Rattle.mau_formula.specs.Operators.{operators};
ghost use Rattle.mau_module.specs.Lawful.{program_of};
ghost use Rattle.mau_program.specs.LawfulPrograms.{IsLawfulProgram};

use crate::reading::{module_of, term_of};
use mau_api::{EvalEnd, Evaluator, Unwatched};
use mau_built_ins::natives_give_numerals;
use mau_extend::ExtListing;
use mau_formula::{Hook, HookAnswer, HookTable, Native};
use mau_match::Listing;
use mau_module::Module;
use mau_program::Program;
use mau_reduce::Hooks;
use mau_reducer::Flagged;
use mau_store::Store;
use mau_terms::{TermId, Text};
use std::alloc::Global;
use std::process::Abort;
use std::test::Fail;

/// The greater of two numerals.
const BIG: &str =
    "fmod K is protecting NAT . op big : Nat Nat -> Nat . vars X Y : Nat . ceq big(X, Y) = X if Y <= X . eq big(X, Y) = Y [owise] . endfm ";

/// The last element of a list.
const LAST: &str =
    "fmod LST is sorts Elt Lst . subsort Elt < Lst . ops a b : -> Elt . op __ : Lst Lst -> Lst [assoc] .
op last : Lst -> Elt . vars L M : Lst . var E : Elt . eq last(E) = E . ceq last(L) = E if M E := L . endfm ";

/// A condition that fails behind an application.
const FAILS: &str =
    "fmod B is sort S . ops a b c d : -> S . eq b = c . ceq d = a if b = a . eq d = c . endfm ";

/// A table with the native operator `<=` alone.
fn less_or_equal(alloc: Global) -> Result<HookTable, Fail>
    ensures { IfOk result (λ table. All GivesNumerals (operators table)) }
{
    let native = Native::LessOrEqual;
    let name = Text::new(alloc, native.name())?;
    let formula = native.formula(alloc)?;
    let call = move |a: u128, b: u128| -> HookAnswer
        ensures { result ≡ value (formula_of native) a b }
    { native.call(a, b) };
    let hook = Hook::new(name, formula, native.gives(), Box::new(alloc, call)?);
    let mut hooks = HookTable::new(alloc);
    natives_give_numerals();
    match hooks.add(hook) {
        Ok(()) => Ok(hooks),
        Err(_) => Err("there is no memory".into()),
    }
}

/// A `+` for each application that is counted behind `=`, where the value of a term is the other one; `!` where the evaluation stops.
fn shown_of(
    alloc: Global,
    hooks: &HookTable,
    program: &Program,
    store: &mut Store,
    term: TermId,
    budget: u64,
    wanted: TermId,
) -> Result<String, Fail>
    requires numerals { All GivesNumerals (operators hooks.now) }
    requires lawful { IsLawfulProgram program.now }
    requires term { IsTerm program.now.sig store.old term.0 }
{
    let natives = Hooks::new(hooks);
    let mut evaluator = Flagged::<ExtListing<Listing>, Listing, Hooks>::new(
        alloc, program, natives, budget, false,
    )?;
    let mut shown = String::new(alloc);
    let mut left = budget;
    match evaluator.evaluate(store, term, &mut left, &mut Unwatched) {
        Ok(reduced) => {
            if reduced.term == wanted {
                shown.push('=')?;
            }
            for _ in 0..reduced.rewrites {
                shown.push('+')?;
            }
        }
        Err(EvalEnd::Stopped) => shown.push('!')?,
        Err(_) => shown.push('?')?,
    }
    Ok(shown)
}

/// The same of the texts of two terms over the module of a text.
fn shown_over(
    rt: &impl Abort,
    alloc: Global,
    of: &Module,
    term: &str,
    budget: u64,
    wanted: &str,
) -> Result<String, Fail>
    requires lawful { IsLawfulProgram (program_of of.now) }
    requires term { length term.now ≤ 16777216 }
    requires wanted { length wanted.now ≤ 16777216 }
{
    let hooks = less_or_equal(alloc)?;
    let mut store = Store::new(alloc);
    let other = term_of(rt, alloc, of, &mut store, wanted)?;
    let id = term_of(rt, alloc, of, &mut store, term)?;
    shown_of(alloc, &hooks, of.program(), &mut store, id, budget, other)
}

/// The same over the module of a text.
fn shown_row(
    rt: &impl Abort,
    alloc: Global,
    text: &str,
    term: &str,
    budget: u64,
    wanted: &str,
) -> Result<String, Fail>
    requires text { length text.now ≤ 16777216 }
    requires term { length term.now ≤ 16777216 }
    requires wanted { length wanted.now ≤ 16777216 }
{
    let read = module_of(alloc, text)?;
    shown_over(rt, alloc, &read, term, budget, wanted)
}

/// Each row: the module, the term, the budget, the value, and what is shown.
const ROWS: [(&str, &str, u64, &str, &str); 5] = [
    (BIG, "big(3, 7)", 9, "7", "=+"),
    (BIG, "big(7, 3)", 9, "7", "=++"),
    (LAST, "last(a b a)", 9, "a", "=+"),
    (FAILS, "d", 2, "c", "=+"),
    (FAILS, "d", 1, "c", "!"),
];

#[test]
fn values_by_conditions(rt: HostRuntime) -> Result<(), Fail> {
    for row in ROWS {
        let shown = shown_row(&rt, rt.alloc(), row.0, row.1, row.2, row.3)?;
        assert_eq!(rt; shown.as_str(), row.4);
    }
    Ok(())
}
