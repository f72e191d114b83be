//! Listings over many elements, whose first solutions come at once.
use crate::asking::{Question, first, number};
use crate::notation::{over_all, term};
use crate::signature::{A, ALL, FIRST, U, V, example};
use mau_listing::{FirstSolutions, Solution};
use mau_match::Listing;
use mau_signature::Signature;
use mau_store::Store;
use mau_terms::{Args, Bare, OpId, TermId, VarId};
use std::alloc::Global;
use std::process::Abort;
use std::test::Fail;

/// An operator over twenty variables.
fn twenty(alloc: Global, op: u32) -> Result<Bare, Fail> {
    let mut terms = Vec::new(alloc);
    for index in 0..20 {
        terms.push(Bare::Var(VarId { index, sort: ALL }))?;
    }
    over_all(alloc, op, terms)
}

fn constant(alloc: Global, op: u32) -> Bare {
    Bare::App(OpId(op), Args::new(Vec::new(alloc)))
}

/// An operator over so many terms a.
fn equal(alloc: Global, op: u32, count: usize) -> Result<Bare, Fail> {
    let mut terms = Vec::new(alloc);
    for _ in 0..count {
        terms.push(constant(alloc, A))?;
    }
    over_all(alloc, op, terms)
}

/// An operator over some of the sixty constants.
fn distinct(alloc: Global, op: u32, from: u32, to: u32) -> Result<Bare, Fail> {
    let mut terms = Vec::new(alloc);
    for i in from..to {
        terms.push(constant(alloc, FIRST.saturating_add(i)))?;
    }
    over_all(alloc, op, terms)
}

/// The first solutions of a pattern and a subject, without values beforehand.
fn first_of(
    rt: &impl Abort,
    sig: &Signature,
    store: &mut Store,
    pattern: Bare,
    subject: Bare,
    count: usize,
) -> Result<FirstSolutions, Fail> {
    let bound = Vec::new(store.allocator());
    let question = Question {
        pattern,
        bound,
        subject,
    };
    first::<Listing>(rt, sig, store, &question, count)
}

/// A solution for twenty variables has `each` for all but the last one, which has `rest`.
fn has_values(rt: &impl Abort, solution: &Solution, each: TermId, rest: TermId) {
    let values = solution.values.items();
    assert_eq!(rt; values.len(), 20);
    assert!(rt; values[..19].iter().all(|id| *id == each));
    assert_eq!(rt; values[19], rest);
}

/// The first solution of twenty variables over sixty terms a has `value` for all variables but the last one, which has `count` times a.
fn begins(
    rt: &impl Abort,
    sig: &Signature,
    store: &mut Store,
    op: u32,
    value: &str,
    count: usize,
) -> Result<(), Fail> {
    let alloc = store.allocator();
    let subject = equal(alloc, op, 60)?;
    let found = first_of(rt, sig, store, twenty(alloc, op)?, subject, 1)?;
    assert!(rt; found.more && found.solutions.len() == 1);
    let each = number(rt, sig, store, &term(alloc, value)?)?;
    let rest = number(rt, sig, store, &equal(alloc, op, count)?)?;
    has_values(rt, &found.solutions[0], each, rest);
    Ok(())
}

#[test]
fn twenty_variables_over_sixty_elements_begin_at_once(rt: HostRuntime) -> Result<(), Fail> {
    let sig = example(&rt, rt.alloc())?;
    begins(&rt, &sig, &mut Store::new(rt.alloc()), V, "a", 41)
}

#[test]
fn twenty_variables_over_a_multiset_begin_at_once(rt: HostRuntime) -> Result<(), Fail> {
    let sig = example(&rt, rt.alloc())?;
    begins(&rt, &sig, &mut Store::new(rt.alloc()), U, "e", 60)
}

/// Twenty variables over fewer elements have no solution, where each takes an element.
fn ends(rt: &impl Abort, sig: &Signature, store: &mut Store) -> Result<(), Fail> {
    let alloc = store.allocator();
    let subject = equal(alloc, V, 19)?;
    let found = first_of(rt, sig, store, twenty(alloc, V)?, subject, 1)?;
    assert!(rt; found.solutions.is_empty() && !found.more);
    Ok(())
}

#[test]
fn twenty_variables_over_nineteen_elements_end_at_once(rt: HostRuntime) -> Result<(), Fail> {
    let sig = example(&rt, rt.alloc())?;
    ends(&rt, &sig, &mut Store::new(rt.alloc()))
}

/// The first `count` of the sixty constants, or e where these are none.
fn taken(alloc: Global, count: u32) -> Result<Bare, Fail> {
    match count {
        0 => term(alloc, "e"),
        _ => distinct(alloc, U, 0, count),
    }
}

/// The values of two variables are the first `count` of the sixty constants and the others.
fn has_two_values(
    rt: &impl Abort,
    sig: &Signature,
    store: &mut Store,
    solution: &Solution,
    count: u32,
) -> Result<(), Fail> {
    let alloc = store.allocator();
    let one = number(rt, sig, store, &taken(alloc, count)?)?;
    let others = number(rt, sig, store, &distinct(alloc, U, count, 60)?)?;
    assert_eq!(rt; solution.values.items(), [one, others].as_slice());
    Ok(())
}

/// The first values of two variables over the sixty constants: none, the first one, and the first two, beside all others.
fn splits(rt: &impl Abort, sig: &Signature, store: &mut Store) -> Result<(), Fail> {
    let alloc = store.allocator();
    let subject = distinct(alloc, U, 0, 60)?;
    let found = first_of(rt, sig, store, term(alloc, "xyu")?, subject, 3)?;
    assert!(rt; found.more && found.solutions.len() == 3);
    let mut count = 0;
    for solution in &found.solutions {
        has_two_values(rt, sig, store, solution, count)?;
        count = count.saturating_add(1);
    }
    Ok(())
}

#[test]
fn two_variables_over_sixty_constants_begin_at_once(rt: HostRuntime) -> Result<(), Fail> {
    let sig = example(&rt, rt.alloc())?;
    splits(&rt, &sig, &mut Store::new(rt.alloc()))
}
