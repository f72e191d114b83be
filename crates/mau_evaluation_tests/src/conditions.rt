//! Conditions that are run without an evaluator, by told values and solutions.
ghost use Rattle.std.specs.Prelude.{◌≡◌, All, IfOk, OnOk, Some};
ghost use Rattle.mau_store.specs.Node.{Extends, IsOf};
ghost use Rattle.mau_sorts.specs.Table.{AreOver, IsSettled};
ghost use Rattle.mau_api.specs.Answers.{IsFragment, IsValueOf};
ghost use Rattle.mau_cond.specs.Path.{AwaitsSolution};
ghost use Rattle.mau_cond.specs.Known.{IsKnown, IsToldValue};

use crate::signed::signature;
use crate::told::{constant, letter, name, next_of, value, variable};
use mau_canon::build_bare;
use mau_cond::{Ask, CondRun};
use mau_listing::settle_store;
use mau_program::Fragment;
use mau_signature::{Signature, is_bare};
use mau_sorts::{SortTable, are_terms};
use mau_store::Store;
use mau_terms::{Bare, TermId, VarId};
use std::alloc::Global;
use std::process::Abort;
use std::test::Fail;

/// A run is told the value of the term that it asked, which is the term itself; asked again before it is told, it answers the same.
fn tell_value(
    rt: &impl Abort,
    run: &mut CondRun,
    store: &mut Store,
    sig: &Signature,
    sorts: &SortTable,
    term: TermId,
) -> Result<(), Fail>
    requires over { AreOver sig.now.hierarchy sorts.now }
    requires known { IsKnown sig.now store.old sorts.now run.old }
    ensures known { OnOk result (IsKnown sig.now store.new sorts.now run.new) }
{
    assert!(rt; sig.poset().sorts() > 0);
    match run.ask(store, sig, sorts)? {
        Ask::Evaluate(again) => {
            assert_eq!(rt; again, term);
            assert!(rt; sorts.has(sig, again, 0) == Some(true));
            run.tell_value(again);
            Ok(())
        }
        _ => Err("another answer".into()),
    }
}

/// A run is told the next solution of the fragment that it asked, a letter, or that there is none.
fn tell_solution(
    rt: &impl Abort,
    run: &mut CondRun,
    store: &mut Store,
    sig: &Signature,
    sorts: &SortTable,
    fragment: u32,
    letter: Option<u8>,
) -> Result<(), Fail>
    requires over { AreOver sig.now.hierarchy sorts.now }
    requires known { IsKnown sig.now store.old sorts.now run.old }
    requires asked { (i : _) × (v : _) × AwaitsSolution run.old i v }
    ensures known { OnOk result (IsKnown sig.now store.new sorts.now run.new) }
{
    match letter {
        Some(letter) => {
            let mut told = Vec::new(store.allocator());
            told.push(value(rt, sig, store, sorts, fragment, letter)?)?;
            run.tell_solution(Some(told))?;
        }
        None => run.tell_solution(None)?,
    }
    Ok(())
}

/// What a run answers, in letters: `e` for a term to be evaluated, the number of a fragment of which a solution is due, `H` with the values
/// of the variables where the condition holds, `F` where it fails. It is told what it asks. Gives whether it holds or fails.
fn answer(
    rt: &impl Abort,
    run: &mut CondRun,
    store: &mut Store,
    sig: &Signature,
    sorts: &SortTable,
    lists: &str,
    counts: &mut [usize],
    log: &mut String,
) -> Result<bool, Fail>
    requires over { AreOver sig.now.hierarchy sorts.now }
    requires known { IsKnown sig.now store.old sorts.now run.old }
    ensures known { OnOk result (IsKnown sig.now store.new sorts.now run.new) }
{
    match run.ask(store, sig, sorts)? {
        Ask::Evaluate(term) => {
            log.push('e')?;
            tell_value(rt, run, store, sig, sorts, term)?;
            Ok(false)
        }
        Ask::Match(fragment, _) => {
            log.push((b'0').wrapping_add((fragment & 15) as u8) as char)?;
            let letter = letter(lists, fragment, next_of(counts, fragment));
            tell_solution(rt, run, store, sig, sorts, fragment, letter)?;
            Ok(false)
        }
        Ask::Holds(values) => {
            log.push('H')?;
            show(store, &values, log)?;
            Ok(true)
        }
        Ask::Fails => {
            log.push('F')?;
            Ok(true)
        }
    }
}

/// Appends the letters of values.
fn show(store: &Store, values: &[(VarId, TermId)], log: &mut String) -> Result<(), Fail>
    requires { All (λ b. IsOf store.now b.1.0) values.now }
{
    for pair in values {
        log.push(name(store, pair.1))?;
    }
    Ok(())
}

/// A fragment is of bare terms.
fn assert_fragment(rt: &impl Abort, sig: &Signature, fragment: &Fragment)
    ensures { IsFragment sig.now fragment.now }
{
    match fragment {
        Fragment::Equal(left, right) => {
            assert!(rt; is_bare(sig, left));
            assert!(rt; is_bare(sig, right));
        }
        Fragment::Match(left, right) => {
            assert!(rt; is_bare(sig, left));
            assert!(rt; is_bare(sig, right));
        }
        Fragment::Sort(term, sort) => {
            assert!(rt; is_bare(sig, term));
            assert!(rt; *sort < sig.poset().sorts());
        }
        Fragment::Reach(_, _) => {
            assert!(rt; false);
        }
    }
}

/// All fragments are of bare terms.
fn assert_fragments(rt: &impl Abort, sig: &Signature, cond: &[Fragment])
    ensures { All (IsFragment sig.now) cond.now }
{
    for fragment in cond {
        assert_fragment(rt, sig, fragment);
    }
}

/// A run is told what it asks until it holds or fails, which takes fewer than 200 answers.
fn round(
    rt: &impl Abort,
    run: &mut CondRun,
    store: &mut Store,
    sig: &Signature,
    sorts: &SortTable,
    lists: &str,
    counts: &mut [usize],
    log: &mut String,
) -> Result<(), Fail>
    requires over { AreOver sig.now.hierarchy sorts.now }
    requires known { IsKnown sig.now store.old sorts.now run.old }
    ensures known { OnOk result (IsKnown sig.now store.new sorts.now run.new) }
{
    for _ in 0..200 {
        if answer(rt, run, store, sig, sorts, lists, counts, log)? {
            return Ok(());
        }
    }
    Err("no end".into())
}

/// The sorts of the constants.
fn sorts_of(
    rt: &impl Abort,
    sig: &Signature,
    store: &mut Store,
    letters: &str,
) -> Result<SortTable, Fail>
    ensures over { IfOk result (AreOver sig.now.hierarchy) }
{
    for letter in letters.bytes() {
        let constant = constant(store.allocator(), letter);
        assert!(rt; is_bare(sig, &constant));
        build_bare(store, sig, &constant)?;
    }
    assert!(rt; are_terms(sig, store));
    let mut sorts = SortTable::new(store.allocator());
    settle_store(store, sig, &mut sorts)?;
    Ok(sorts)
}

/// What a run answers up to each solution and up to its end, parted by spaces.
fn rounds(
    rt: &impl Abort,
    run: &mut CondRun,
    store: &mut Store,
    sig: &Signature,
    sorts: &SortTable,
    lists: &str,
    counts: &mut [usize],
) -> Result<String, Fail>
    requires over { AreOver sig.now.hierarchy sorts.now }
    requires known { IsKnown sig.now store.old sorts.now run.old }
{
    let mut log = String::new(store.allocator());
    for _ in 0..10 {
        round(rt, run, store, sig, sorts, lists, counts, &mut log)?;
        if log.as_str().ends_with('F') {
            return Ok(log);
        }
        log.push(' ')?;
    }
    Err("no end".into())
}

/// What a condition answers up to each solution and up to its end, parted by spaces, where the values of the fragments' variables are those of a text
/// and the first fragment begins with the one of a number.
fn answers(
    rt: &impl Abort,
    alloc: Global,
    cond: &[Fragment],
    lists: &str,
    first: usize,
) -> Result<String, Fail> {
    let sig = signature(rt, alloc, 2, &[], None, "a : > 0\nb : > 0\nc : > 0")?;
    let mut store = Store::new(alloc);
    let sorts = sorts_of(rt, &sig, &mut store, "abc")?;
    assert_fragments(rt, &sig, cond);
    let mut run = CondRun::start(alloc, cond, &[])?;
    let mut counts = Vec::from_array(alloc, [first, 0, 0])?;
    rounds(rt, &mut run, &mut store, &sig, &sorts, lists, &mut counts)
}

/// A variable as a term.
fn x(index: u32) -> Bare {
    Bare::Var(variable(index))
}

/// `X0 := a`, where the variable has the values of a text.
fn first(alloc: Global) -> Fragment {
    Fragment::Match(x(0), constant(alloc, b'a'))
}

#[test]
fn the_second_of_two_solutions_holds(rt: HostRuntime) -> Result<(), Fail> {
    let alloc = rt.alloc();
    let is_b = Fragment::Equal(x(0), constant(alloc, b'b'));
    let cond = Vec::from_array(alloc, [first(alloc), is_b])?;
    assert_eq!(rt;
        answers(&rt, alloc, &cond, "ab", 0)?.as_str(),
        "e0ee0eeHb 0F"
    );
    Ok(())
}

#[test]
fn a_fragment_fails_behind_two_that_match(rt: HostRuntime) -> Result<(), Fail> {
    let alloc = rt.alloc();
    let second = Fragment::Match(x(1), constant(alloc, b'a'));
    let cond = Vec::from_array(alloc, [first(alloc), second, Fragment::Equal(x(0), x(1))])?;
    let wanted = "e0e1ee1ee10e1ee1eeHbb 10F";
    assert_eq!(rt; answers(&rt, alloc, &cond, "ab cb", 0)?.as_str(), wanted);
    Ok(())
}

#[test]
fn it_goes_on_behind_a_solution(rt: HostRuntime) -> Result<(), Fail> {
    let alloc = rt.alloc();
    let second = Fragment::Match(x(1), x(0));
    let cond = Vec::from_array(alloc, [first(alloc), second, Fragment::Sort(x(1), 0)])?;
    let all = "e0e1eHac 1eHab 10e1eHbc 1eHbb 10F";
    assert_eq!(rt; answers(&rt, alloc, &cond, "ab cb", 0)?.as_str(), all);
    // from the solution b of the first fragment on
    let behind = "e0e1eHbc 1eHbb 10F";
    assert_eq!(rt; answers(&rt, alloc, &cond, "ab cb", 1)?.as_str(), behind);
    Ok(())
}

#[test]
fn a_value_lacks_a_sort(rt: HostRuntime) -> Result<(), Fail> {
    let alloc = rt.alloc();
    let cond = Vec::from_array(alloc, [first(alloc), Fragment::Sort(x(0), 1)])?;
    assert_eq!(rt; answers(&rt, alloc, &cond, "ab", 0)?.as_str(), "e0e0e0F");
    Ok(())
}

#[test]
fn conditions_have_32_fragments_or_none(rt: HostRuntime) -> Result<(), Fail> {
    let alloc = rt.alloc();
    let mut cond = Vec::new(alloc);
    assert_eq!(rt; answers(&rt, alloc, &cond, "", 0)?.as_str(), "H F");
    for _ in 0..32 {
        cond.push(Fragment::Equal(constant(alloc, b'a'), constant(alloc, b'a')))?;
    }
    let asked = "eeeeeeeeeeeeeeeeeeeeeeeeeeeeeeeeeeeeeeeeeeeeeeeeeeeeeeeeeeeeeeee";
    let wanted = format!(in alloc; "{}H F", asked)?;
    assert_eq!(rt;
        answers(&rt, alloc, &cond, "", 0)?.as_str(),
        wanted.as_str()
    );
    Ok(())
}
