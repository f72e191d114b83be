//! The sorts that memberships give to the settled terms of an evaluator, with what shows them.
ghost use Rattle.std.specs.Prelude.{◌≡◌, List, All, Bool, false, Option, Some, map, IfOk, IfSome, IsTrue, OnOk};
ghost use Rattle.mau_terms.specs.Bare.{IsBare};
ghost use Rattle.mau_terms.specs.Subst.{variables};
ghost use Rattle.mau_terms.specs.View.{tree_of, variable_of};
ghost use Rattle.mau_signature.specs.Signature.{terms_over};
ghost use Rattle.mau_store.specs.Node.{Node, Extends};
ghost use Rattle.mau_sorts.specs.Table.{AreOver};
ghost use Rattle.mau_program.specs.LawfulPrograms.{IsLawfulProgram};
ghost use Rattle.mau_program.specs.LawfulStatements.{IsLawfulMembership};
ghost use Rattle.mau_api.specs.Terms.{IsTerm};
ghost use Rattle.mau_api.specs.Answers.{IsAskable, IsValueOf};
ghost use Rattle.mau_prove.specs.Making.{AreSomeKept};
ghost use Rattle.mau_prove.specs.Sorting.{is_rewriting, IsWorking, HasWorked};

use crate::known::{complete_known, is_term, known_at};
use crate::recorder::Recorder;
use mau_api::{EvalEnd, Evaluator, Solution, WholeLister, first_derived, places_of};
use mau_check::Kept;
use mau_program::{Fragment, Membership, Program};
use mau_signature::Signature;
use mau_sorts::SortTable;
use mau_store::Store;
use mau_terms::{Bare, NoMemory, Seq, TermId, VarId};
use std::alloc::Global;

/// Why a term has a sort.
#[derive(Drop, Debug)]
pub enum Reason {
    /// Declarations give it, by the sorts of the term's arguments.
    Declared,
    /// The membership with this number, counted from 1, gives it.
    Member(u32, Shown),
}

/// Values of the variables of a membership, and what was told of its condition, which holds for them.
#[derive(Drop, Debug)]
pub struct Shown {
    pub values: Seq<TermId>,
    pub told: Recorder,
}

/// A sort that a term has by a membership, or by one of a term below it.
#[derive(Drop, Debug)]
pub struct SortOf {
    pub term: TermId,
    pub sort: u32,
    pub reason: Reason,
}

// ---- conditions

/// Whether a fragment is one that rules solve.
fn is_rewriting(fragment: &Fragment) -> bool
    ensures { result ≡ is_rewriting fragment.now }
{
    match fragment {
        Fragment::Reach(_, _) => true,
        Fragment::Equal(_, _) | Fragment::Match(_, _) | Fragment::Sort(_, _) => false,
    }
}

/// Whether one of some fragments is.
fn has_rewriting(cond: &[Fragment]) -> bool
    ensures { result ≡ false → All (λ f. is_rewriting f ≡ false) cond.now }
{
    for fragment in cond {
        if is_rewriting(fragment) {
            return true;
        }
    }
    false
}

/// The variables of a pattern, by first occurrence.
fn variables_of(alloc: Global, sig: &Signature, pattern: &Bare) -> Result<Vec<VarId>, NoMemory>
    requires { IsBare (terms_over sig.now) (tree_of pattern.now) }
    ensures { IfOk result (λ found. map variable_of found.items ≡ variables (tree_of pattern.now)) }
{
    let places = places_of(alloc, sig, pattern)?;
    let found = mau_trial::variables_of(alloc, &places)?;
    Ok(found)
}

// ---- values

/// Whether a term may be the value of a variable: it is of the variable's kind, and has its sort.
fn is_value(
    sig: &Signature,
    table: &SortTable,
    known: &[Option<Kept>],
    variable: VarId,
    id: TermId,
) -> bool
    requires over { AreOver sig.now.hierarchy table.now }
    ensures { (nodes : List Node) → AreSomeKept sig.now nodes known.now → IsTrue result → IsValueOf sig.now nodes table.now (variable, id) }
{
    let _ = sig.operators();
    let poset = sig.poset();
    if variable.sort >= poset.sorts() + poset.kinds() {
        return false;
    }
    let kept = match known_at(known, id) {
        Some(kept) => kept,
        None => return false,
    };
    if kept.kind != poset.kind_of(variable.sort) {
        return false;
    }
    match table.has(sig, id, variable.sort) {
        Some(has) => has,
        None => false,
    }
}

/// Variables with the values in their places, if each may be the value of its variable.
fn bound_to(
    alloc: Global,
    sig: &Signature,
    table: &SortTable,
    known: &[Option<Kept>],
    variables: &[VarId],
    values: &[TermId],
) -> Result<Option<Vec<(VarId, TermId)>>, NoMemory>
    requires over { AreOver sig.now.hierarchy table.now }
    ensures variables { IfOk result (λ o. IfSome o (λ found. map (λ b. b.0) found.items ≡ variables.now)) }
    ensures values { (nodes : List Node) → AreSomeKept sig.now nodes known.now → IfOk result (λ o. IfSome o (λ found. All (IsValueOf sig.now nodes table.now) found.items)) }
{
    if variables.len() != values.len() {
        return Ok(None);
    }
    let mut found = Vec::with_capacity(alloc, variables.len())?;
    for i in 0..variables.len() {
        if !is_value(sig, table, known, variables[i], values[i]) {
            return Ok(None);
        }
        found.push((variables[i], values[i]))?;
    }
    Ok(Some(found))
}

/// The values of a binding.
fn values_of(alloc: Global, binding: &[(VarId, TermId)]) -> Result<Seq<TermId>, NoMemory> {
    let mut values = Vec::with_capacity(alloc, binding.len())?;
    for pair in binding {
        values.push(pair.1)?;
    }
    Ok(Seq::new(values))
}

// ---- solutions

/// The first solution of a condition, where these variables have values.
fn solve_under<E: Evaluator>(
    alloc: Global,
    store: &mut Store,
    evaluator: &mut E,
    cond: &[Fragment],
    bound: &[(VarId, TermId)],
    limit: u64,
) -> Result<Option<Shown>, EvalEnd>
    requires fits { E.fits evaluator.old store.old }
    requires condition { IsAskable (E.meanings evaluator.old).program.sig (map (λ b. variable_of b.0) bound.now) cond.now }
    requires bound { All (IsValueOf (E.meanings evaluator.old).program.sig store.old (E.table evaluator.old)) bound.now }
    ensures fits { E.fits evaluator.new store.new }
    ensures meanings { E.meanings evaluator.new ≡ E.meanings evaluator.old }
    ensures extends { Extends store.old store.new }
{
    let mut budget = limit;
    let mut told = Recorder::new(alloc);
    match evaluator.solve(store, cond, bound, None, &mut budget, &mut told) {
        Ok(Some((binding, _))) => {
            let values = values_of(alloc, &binding)?;
            Ok(Some(Shown { values, told }))
        }
        Ok(None) => Ok(None),
        Err(end) => Err(end),
    }
}

/// All solutions of a pattern in a term, by the sorts that an evaluator settles.
fn solutions_of<E: Evaluator, L: WholeLister + Drop>(
    alloc: Global,
    store: &mut Store,
    sig: &Signature,
    evaluator: &mut E,
    pattern: &Bare,
    term: TermId,
) -> Result<Vec<Solution>, EvalEnd>
    requires fits { E.fits evaluator.old store.old }
    requires signature { sig.now ≡ (E.meanings evaluator.old).program.sig }
    requires pattern { IsBare (terms_over sig.now) (tree_of pattern.now) }
    requires term { IsTerm sig.now store.old term.0 }
    ensures fits { E.fits evaluator.new store.new }
    ensures meanings { E.meanings evaluator.new ≡ E.meanings evaluator.old }
    ensures extends { Extends store.old store.new }
{
    match evaluator.settle(store, term) {
        Ok(()) => (),
        Err(end) => return Err(end),
    }
    let mut listing = L::start(alloc, sig, pattern, &[], term)?;
    let first = first_derived(alloc, evaluator, store, &mut listing, usize::MAX)?;
    Ok(first.solutions)
}

/// The first solution of a condition, where variables have the values of a solution.
fn try_solution<E: Evaluator>(
    alloc: Global,
    store: &mut Store,
    program: &Program,
    evaluator: &mut E,
    known: &mut Vec<Option<Kept>>,
    cond: &[Fragment],
    variables: &[VarId],
    solution: &Solution,
    limit: u64,
) -> Result<Option<Shown>, EvalEnd>
    requires working { IsWorking program.now (E.meanings evaluator.old) (E.fits evaluator.old store.old) store.old known.old.items }
    requires condition { IsAskable program.now.sig (map variable_of variables.now) cond.now }
    ensures { HasWorked program.now.sig (E.meanings evaluator.old) (E.meanings evaluator.new) (E.fits evaluator.new store.new) store.old store.new known.new.items }
{
    complete_known(store, program, known)?;
    let bound = match bound_to(
        alloc,
        &program.sig,
        evaluator.sorts(),
        known,
        variables,
        solution.values.items(),
    ) {
        Ok(Some(bound)) => bound,
        Ok(None) => return Ok(None),
        Err(_) => return Err(EvalEnd::NoMemory),
    };
    solve_under(alloc, store, evaluator, cond, &bound, limit)
}

/// The first solution of a condition, where variables have the values of one of some solutions.
fn try_all<E: Evaluator>(
    alloc: Global,
    store: &mut Store,
    program: &Program,
    evaluator: &mut E,
    known: &mut Vec<Option<Kept>>,
    cond: &[Fragment],
    variables: &[VarId],
    solutions: &[Solution],
    limit: u64,
) -> Result<Option<Shown>, EvalEnd>
    requires working { IsWorking program.now (E.meanings evaluator.old) (E.fits evaluator.old store.old) store.old known.old.items }
    requires condition { IsAskable program.now.sig (map variable_of variables.now) cond.now }
    ensures { HasWorked program.now.sig (E.meanings evaluator.old) (E.meanings evaluator.new) (E.fits evaluator.new store.new) store.old store.new known.new.items }
{
    for solution in solutions {
        match try_solution(
            alloc, store, program, evaluator, known, cond, variables, solution, limit,
        ) {
            Ok(Some(shown)) => return Ok(Some(shown)),
            Ok(None) => (),
            Err(end) => return Err(end),
        }
    }
    Ok(None)
}

// ---- memberships

/// What shows that a membership holds of a term, if it does.
fn by_membership<E: Evaluator, L: WholeLister + Drop>(
    alloc: Global,
    store: &mut Store,
    program: &Program,
    evaluator: &mut E,
    known: &mut Vec<Option<Kept>>,
    term: TermId,
    membership: &Membership,
    limit: u64,
) -> Result<Option<Shown>, EvalEnd>
    requires membership { IsLawfulMembership program.now.sig membership.now }
    requires working { IsWorking program.now (E.meanings evaluator.old) (E.fits evaluator.old store.old) store.old known.old.items }
    ensures { HasWorked program.now.sig (E.meanings evaluator.old) (E.meanings evaluator.new) (E.fits evaluator.new store.new) store.old store.new known.new.items }
{
    let cond = membership.cond.items();
    if !membership.exec || has_rewriting(cond) {
        return Ok(None);
    }
    if !is_term(&program.sig, known, term) {
        return Ok(None);
    }
    let variables = variables_of(alloc, &program.sig, &membership.left)?;
    let solutions = match solutions_of::<E, L>(
        alloc,
        store,
        &program.sig,
        evaluator,
        &membership.left,
        term,
    ) {
        Ok(solutions) => solutions,
        Err(end) => return Err(end),
    };
    try_all(
        alloc, store, program, evaluator, known, cond, &variables, &solutions, limit,
    )
}

/// What shows that the membership at a place gives a term a sort, if it does.
fn by_membership_at<E: Evaluator, L: WholeLister + Drop>(
    alloc: Global,
    store: &mut Store,
    program: &Program,
    evaluator: &mut E,
    known: &mut Vec<Option<Kept>>,
    term: TermId,
    sort: u32,
    at: usize,
    limit: u64,
) -> Result<Option<Shown>, EvalEnd>
    requires lawful { IsLawfulProgram program.now }
    requires working { IsWorking program.now (E.meanings evaluator.old) (E.fits evaluator.old store.old) store.old known.old.items }
    ensures { HasWorked program.now.sig (E.meanings evaluator.old) (E.meanings evaluator.new) (E.fits evaluator.new store.new) store.old store.new known.new.items }
{
    match program.memberships.items().get(at) {
        Some(membership) => {
            if membership.sort != sort {
                return Ok(None);
            }
            by_membership::<E, L>(
                alloc, store, program, evaluator, known, term, membership, limit,
            )
        }
        None => Ok(None),
    }
}

/// Why a term has a sort: by the first membership that gives it, or else by declarations.
fn reason_for<E: Evaluator, L: WholeLister + Drop>(
    alloc: Global,
    store: &mut Store,
    program: &Program,
    evaluator: &mut E,
    known: &mut Vec<Option<Kept>>,
    term: TermId,
    sort: u32,
    limit: u64,
) -> Result<Reason, EvalEnd>
    requires lawful { IsLawfulProgram program.now }
    requires working { IsWorking program.now (E.meanings evaluator.old) (E.fits evaluator.old store.old) store.old known.old.items }
    ensures { HasWorked program.now.sig (E.meanings evaluator.old) (E.meanings evaluator.new) (E.fits evaluator.new store.new) store.old store.new known.new.items }
{
    for at in 0..u32::MAX {
        if at as usize >= program.memberships.items().len() {
            return Ok(Reason::Declared);
        }
        match by_membership_at::<E, L>(
            alloc,
            store,
            program,
            evaluator,
            known,
            term,
            sort,
            at as usize,
            limit,
        ) {
            Ok(Some(shown)) => return Ok(Reason::Member(at + 1, shown)),
            Ok(None) => (),
            Err(end) => return Err(end),
        }
    }
    Ok(Reason::Declared)
}

// ---- terms

/// Whether a term has a sort by declarations alone, by a table of such sorts.
fn is_plain(sig: &Signature, plain: &SortTable, term: TermId, sort: u32) -> bool
    requires { AreOver sig.now.hierarchy plain.now }
{
    if sort >= sig.poset().sorts() {
        return true;
    }
    match plain.has(sig, term, sort) {
        Some(has) => has,
        None => true,
    }
}

/// Adds why a term has a sort.
fn push_sort(
    found: &mut Vec<SortOf>,
    term: TermId,
    sort: u32,
    reason: Reason,
) -> Result<(), NoMemory> {
    found.push(SortOf { term, sort, reason })?;
    Ok(())
}

/// Adds why a term has a sort, unless declarations alone give it.
fn add_sort<E: Evaluator, L: WholeLister + Drop>(
    alloc: Global,
    store: &mut Store,
    program: &Program,
    evaluator: &mut E,
    known: &mut Vec<Option<Kept>>,
    plain: &SortTable,
    term: TermId,
    sort: u32,
    limit: u64,
    found: &mut Vec<SortOf>,
) -> Result<(), EvalEnd>
    requires lawful { IsLawfulProgram program.now }
    requires plain { AreOver program.now.sig.hierarchy plain.now }
    requires working { IsWorking program.now (E.meanings evaluator.old) (E.fits evaluator.old store.old) store.old known.old.items }
    ensures { HasWorked program.now.sig (E.meanings evaluator.old) (E.meanings evaluator.new) (E.fits evaluator.new store.new) store.old store.new known.new.items }
{
    if is_plain(&program.sig, plain, term, sort) {
        return Ok(());
    }
    let reason = match reason_for::<E, L>(
        alloc, store, program, evaluator, known, term, sort, limit,
    ) {
        Ok(reason) => reason,
        Err(end) => return Err(end),
    };
    push_sort(found, term, sort, reason)?;
    Ok(())
}

/// The minimal sorts of a term.
fn sorts_of(alloc: Global, table: &SortTable, term: TermId) -> Result<Vec<u32>, NoMemory> {
    match table.sorts_of(term) {
        Some(sorts) => {
            let sorts: Vec<u32> = sorts.iter().copied().collect(alloc)?;
            Ok(sorts)
        }
        None => Ok(Vec::new(alloc)),
    }
}

/// Adds why a term has some sorts.
fn add_sorts<E: Evaluator, L: WholeLister + Drop>(
    alloc: Global,
    store: &mut Store,
    program: &Program,
    evaluator: &mut E,
    known: &mut Vec<Option<Kept>>,
    plain: &SortTable,
    term: TermId,
    sorts: &[u32],
    limit: u64,
    found: &mut Vec<SortOf>,
) -> Result<(), EvalEnd>
    requires lawful { IsLawfulProgram program.now }
    requires plain { AreOver program.now.sig.hierarchy plain.now }
    requires working { IsWorking program.now (E.meanings evaluator.old) (E.fits evaluator.old store.old) store.old known.old.items }
    ensures { HasWorked program.now.sig (E.meanings evaluator.old) (E.meanings evaluator.new) (E.fits evaluator.new store.new) store.old store.new known.new.items }
{
    for sort in sorts {
        match add_sort::<E, L>(
            alloc, store, program, evaluator, known, plain, term, *sort, limit, found,
        ) {
            Ok(()) => (),
            Err(end) => return Err(end),
        }
    }
    Ok(())
}

/// Adds why a term has its minimal sorts, as far as declarations alone don't give them.
fn add_term<E: Evaluator, L: WholeLister + Drop>(
    alloc: Global,
    store: &mut Store,
    program: &Program,
    evaluator: &mut E,
    known: &mut Vec<Option<Kept>>,
    plain: &mut SortTable,
    term: TermId,
    limit: u64,
    found: &mut Vec<SortOf>,
) -> Result<(), EvalEnd>
    requires lawful { IsLawfulProgram program.now }
    requires plain { AreOver program.now.sig.hierarchy plain.old }
    requires working { IsWorking program.now (E.meanings evaluator.old) (E.fits evaluator.old store.old) store.old known.old.items }
    ensures worked { HasWorked program.now.sig (E.meanings evaluator.old) (E.meanings evaluator.new) (E.fits evaluator.new store.new) store.old store.new known.new.items }
    ensures plain { AreOver program.now.sig.hierarchy plain.new }
{
    complete_known(store, program, known)?;
    if !is_term(&program.sig, known, term) {
        return Ok(());
    }
    plain.settle_term(&program.sig, store, term)?;
    let sorts = sorts_of(alloc, evaluator.sorts(), term)?;
    add_sorts::<E, L>(
        alloc, store, program, evaluator, known, plain, term, &sorts, limit, found,
    )
}

/// Why the terms that an evaluator has settled have their minimal sorts, in the order in which they were settled, as far as declarations alone
/// don't give them. Conditions of executable memberships are asked again for it, with the budget `limit` each, and nothing else is.
pub fn derive_sorts<E: Evaluator, L: WholeLister + Drop>(
    alloc: Global,
    program: &Program,
    store: &mut Store,
    evaluator: &mut E,
    limit: u64,
) -> Result<Vec<SortOf>, EvalEnd>
    requires lawful { IsLawfulProgram program.now }
    requires fits { E.fits evaluator.old store.old }
    requires program { (E.meanings evaluator.old).program ≡ program.now }
    ensures fits { E.fits evaluator.new store.new }
    ensures meanings { E.meanings evaluator.new ≡ E.meanings evaluator.old }
    ensures extends { Extends store.old store.new }
{
    let mut found = Vec::new(alloc);
    if program.memberships.items().is_empty() {
        return Ok(found);
    }
    let settled: Vec<TermId> = evaluator.sorts().settled().iter().copied().collect(alloc)?;
    let mut known = Vec::new(alloc);
    let mut plain = SortTable::new(alloc);
    for term in &settled {
        match add_term::<E, L>(
            alloc, store, program, evaluator, &mut known, &mut plain, *term, limit, &mut found,
        ) {
            Ok(()) => (),
            Err(end) => return Err(end),
        }
    }
    Ok(found)
}
