//! Rows: a module, the number of an equation whose condition can be asked with no value given, its budget, and what solves it one behind
//! another solution.
ghost use Rattle.std.specs.Prelude.{◌≡◌, ◌≤◌, length, [], map, All, true, false, IfOk, IfSome};
ghost use Rattle.std.specs.Option.{option_map};
ghost use Rattle.mau_program.specs.LawfulPrograms.{IsLawfulProgram};
ghost use Rattle.mau_evaluation.specs.Rules.{has_reach};
ghost use Rattle.mau_api.specs.Programs.{fragment_of};
ghost use Rattle.mau_api.specs.Answers.{binding_in, IsAskable, IsValueOf, IsSolutionOf};

use crate::reading::module_of;
use crate::rows::push_sort;
use mau_api::{EvalEnd, Evaluator, Fragment, Unwatched};
use mau_extend::ExtListing;
use mau_formula::HookTable;
use mau_match::Listing;
use mau_program::Program;
use mau_reduce::Hooks;
use mau_reducer::Flagged;
use mau_sorts::SortTable;
use mau_statement::are_bound;
use mau_store::Store;
use mau_terms::{TermId, VarId};
use std::alloc::Global;
use std::test::Fail;

/// Lists over three elements, each of a sort of its own, and parts of them.
const PARTS: &str =
    "fmod PARTS is sorts A B C Elt List Truth . subsorts A B C < Elt < List . op a : -> A . op b : -> B . op c : -> C . op nil : -> List .
op __ : List List -> List [assoc id: nil] . op t : -> Truth . op f : Elt -> Truth . op w : -> List . op k : -> Elt . vars X Y : Elt . vars L M N O : List .
eq w = a b c . eq f(b) = t . eq f(c) = t .
ceq k = X if L X M := w .
ceq k = X if L X M := w /\\ N Y := M .
ceq k = X if L M := w /\\ N X O := M .
ceq k = X if L X M := w /\\ f(X) = t .
endfm ";

/// Appends the sorts that are shown of values, and a `+` for each application that is counted.
fn push_solution(
    program: &Program,
    table: &SortTable,
    values: &[(VarId, TermId)],
    rewrites: u64,
    shown: &mut String,
) -> Result<(), Fail> {
    for pair in values {
        push_sort(program, table, pair.1, shown)?;
    }
    for _ in 0..rewrites {
        shown.push('+')?;
    }
    shown.push(' ')?;
    Ok(())
}

/// Whether no fragment is solved by rules.
fn are_plain(cond: &[Fragment]) -> bool
    ensures { result ≡ true → has_reach (map fragment_of cond.now) ≡ false }
{
    match cond {
        [] => true,
        [Fragment::Reach(..), ..] => false,
        [_, rest @ ..] => are_plain(rest),
    }
}

/// The solution behind which the next one is asked.
fn slice_of(last: &Option<Vec<(VarId, TermId)>>) -> Option<&[(VarId, TermId)]>
    ensures { option_map (λ x. x.now) result ≡ option_map (λ x. x.items) last.now }
{
    match last {
        Some(values) => Some(values.as_slice()),
        None => None,
    }
}

/// The next solution of a condition behind one, or the first.
fn next_of<E: Evaluator>(
    store: &mut Store,
    evaluator: &mut E,
    cond: &[Fragment],
    last: &Option<Vec<(VarId, TermId)>>,
    limit: u64,
) -> Result<Option<(Vec<(VarId, TermId)>, u64)>, EvalEnd>
    requires fits { E.fits evaluator.old store.old }
    requires condition { IsAskable (E.meanings evaluator.old).program.sig [] cond.now }
    requires last { IfSome last.now (λ x. All (IsValueOf (E.meanings evaluator.old).program.sig store.old (E.table evaluator.old)) x.items) }
    requires solution { IfSome last.now (λ x. IsSolutionOf (E.meanings evaluator.old) (map fragment_of cond.now) [] (binding_in store.old x.items)) }
    ensures values { IfOk result (λ o. IfSome o (λ x.
        All (IsValueOf (E.meanings evaluator.old).program.sig store.new (E.table evaluator.new)) x.0.items)) }
    ensures solution { IfOk result (λ o. IfSome o (λ x.
        IsSolutionOf (E.meanings evaluator.old) (map fragment_of cond.now) [] (binding_in store.new x.0.items))) }
    ensures fits { E.fits evaluator.new store.new }
    ensures meanings { E.meanings evaluator.new ≡ E.meanings evaluator.old }
{
    let mut budget = limit;
    let behind = slice_of(last);
    evaluator.solve(store, cond, &[], behind, &mut budget, &mut Unwatched)
}

/// Appends the solutions of a condition, one behind another, each asked with the same budget: `.` where there is no further one, and `!`
/// where it stops.
fn push_solutions<E: Evaluator>(
    program: &Program,
    store: &mut Store,
    evaluator: &mut E,
    cond: &[Fragment],
    limit: u64,
    shown: &mut String,
) -> Result<(), Fail>
    requires fits { E.fits evaluator.old store.old }
    requires condition { IsAskable (E.meanings evaluator.old).program.sig [] cond.now }
{
    let mut last: Option<Vec<(VarId, TermId)>> = None;
    for _ in 0..9 {
        match next_of(store, evaluator, cond, &last, limit) {
            Ok(Some((values, rewrites))) => {
                push_solution(program, evaluator.sorts(), &values, rewrites, shown)?;
                last = Some(values);
            }
            Ok(None) => {
                shown.push('.')?;
                return Ok(());
            }
            Err(EvalEnd::Stopped) => {
                shown.push('!')?;
                return Ok(());
            }
            Err(_) => {
                shown.push('?')?;
                return Ok(());
            }
        }
    }
    Ok(())
}

/// What is shown of a condition.
fn shown_of(alloc: Global, program: &Program, cond: &[Fragment], limit: u64) -> Result<String, Fail>
    requires lawful { IsLawfulProgram program.now }
    requires condition { IsAskable program.now.sig [] cond.now }
{
    let hooks = HookTable::new(alloc);
    let natives = Hooks::new(&hooks);
    let mut store = Store::new(alloc);
    let mut evaluator = Flagged::<ExtListing<Listing>, Listing, Hooks>::new(
        alloc, program, natives, limit, false,
    )?;
    let mut shown = String::new(alloc);
    push_solutions(program, &mut store, &mut evaluator, cond, limit, &mut shown)?;
    Ok(shown)
}

/// What is shown of the condition of an equation.
fn shown_at(alloc: Global, program: &Program, number: usize, limit: u64) -> Result<String, Fail>
    requires lawful { IsLawfulProgram program.now }
{
    match program.equations.items().get(number) {
        Some(equation) => {
            let cond = equation.cond.items();
            let mut variables: Vec<VarId> = Vec::new(alloc);
            if are_plain(cond) && are_bound(&mut variables, cond)? {
                shown_of(alloc, program, cond, limit)
            } else {
                Err("it cannot be asked".into())
            }
        }
        None => Err("there is none".into()),
    }
}

/// What is shown of the condition of an equation of the module of a text, counted from the last one back, which is 1.
fn shown_row(alloc: Global, text: &str, back: usize, limit: u64) -> Result<String, Fail>
    requires { length text.now ≤ 16777216 }
{
    let read = module_of(alloc, text)?;
    let program = read.program();
    match program.equations.items().len().checked_sub(back) {
        Some(number) => shown_at(alloc, program, number, limit),
        None => Err("there is none".into()),
    }
}

/// Each row: the module, the number of the equation from the last one back, the budget, and what is shown.
const ROWS: [(&str, usize, u64, &str); 7] = [
    (PARTS, 4, 9, "ListAList+ ABC+ ListCList+ ."),
    (PARTS, 3, 9, "ListAListBC+ ABCListC+ ."),
    (
        PARTS,
        2,
        9,
        "ListListListAList+ ListListABC+ ListListListCList+ AListListBC+ AListBCList+ ListCListCList+ .",
    ),
    (PARTS, 1, 9, "ABC++ ListCList++ ."),
    (PARTS, 1, 1, "!"),
    (PARTS, 1, 2, "ABC++ !"),
    (PARTS, 1, 3, "ABC++ ListCList++ ."),
];

#[test]
fn solutions_behind_another(rt: HostRuntime) -> Result<(), Fail> {
    for row in ROWS {
        let shown = shown_row(rt.alloc(), row.0, row.1, row.2)?;
        assert_eq!(rt; shown.as_str(), row.3);
    }
    Ok(())
}
