//! Rows of listings by hand: over each theory, by sorts, with values beforehand, and with contexts, from the first solution on and each one
//! resumed in a store that has other terms besides.
ghost use Rattle.std.specs.Prelude.{OnOk};
ghost use Rattle.mau_store.specs.Node.{Extends};

use crate::agreement::grow;
use crate::asking::{first, next_behind, numbers, question_of, settled};
use crate::signature::example;
use mau_extend::ExtListing;
use mau_listing::{Lister, Solution};
use mau_match::Listing;
use mau_plain::PlainListing;
use mau_signature::Signature;
use mau_store::Store;
use mau_terms::TermId;
use std::alloc::Global;
use std::process::Abort;
use std::test::Fail;

/// These are the numbers of some terms.
fn are(
    rt: &impl Abort,
    sig: &Signature,
    store: &mut Store,
    ids: &[TermId],
    terms: &str,
    text: &str,
) -> Result<(), Fail>
    ensures { OnOk result (Extends store.old store.new) }
{
    let wanted = numbers(rt, sig, store, terms)?;
    assert_eq!(rt; ids, wanted.as_slice(), "{text}");
    Ok(())
}

/// The left context, the values and the right context of a solution: without contexts a text has the values alone.
pub fn split_at_contexts(wanted: &str) -> Option<(&str, &str, &str)> {
    let Some((left, rest)) = wanted.split_once('/') else {
        return Some(("", wanted, ""));
    };
    let (values, right) = rest.split_once('/')?;
    Some((left, values, right))
}

/// A solution of a question has these contexts and values.
fn is_solution(
    rt: &impl Abort,
    sig: &Signature,
    store: &mut Store,
    solution: &Solution,
    wanted: &str,
    text: &str,
) -> Result<(), Fail>
    ensures { OnOk result (Extends store.old store.new) }
{
    let (left, values, right) = split_at_contexts(wanted).ok_or("no right context")?;
    are(rt, sig, store, solution.left.items(), left, text)?;
    are(rt, sig, store, solution.values.items(), values, text)?;
    are(rt, sig, store, solution.right.items(), right, text)
}

/// What stands between the colons of a row: a question, and its solutions.
pub fn parts_of(alloc: Global, row: &str) -> Result<Vec<&str>, Fail> {
    let mut parts = Vec::new(alloc);
    for part in row.split(':') {
        parts.push(part)?;
    }
    Ok(parts)
}

/// A listing gives these solutions of a question, and no more.
fn lists<L: Lister + Drop>(
    rt: &impl Abort,
    sig: &Signature,
    store: &mut Store,
    text: &str,
    wanted: &[&str],
) -> Result<(), Fail> {
    let question = question_of(rt, sig, store, text)?;
    let found = first::<L>(rt, sig, store, &question, wanted.len())?;
    assert_eq!(rt; found.solutions.len(), wanted.len(), "{text}");
    assert!(rt; !found.more, "{text}");
    for (solution, values) in found.solutions.iter().zip(wanted) {
        is_solution(rt, sig, store, solution, values, text)?;
    }
    Ok(())
}

/// So do listings each of which is made from the last solution, in a store that gets other terms besides.
fn resumes<L: Lister + Drop>(
    rt: &impl Abort,
    sig: &Signature,
    store: &mut Store,
    text: &str,
    wanted: &[&str],
) -> Result<(), Fail> {
    let question = question_of(rt, sig, store, text)?;
    let (id, mut sorts) = settled(rt, sig, store, &question)?;
    let mut last = None;
    for k in 0..wanted.len() {
        let next = next_behind::<L>(sig, store, &mut sorts, &question, id, &last)?;
        let solution = next.as_ref().ok_or("a solution is missing")?;
        is_solution(rt, sig, store, solution, wanted[k], text)?;
        grow(rt, sig, store, &mut sorts, 10 + k as u128)?;
        last = next;
    }
    let next = next_behind::<L>(sig, store, &mut sorts, &question, id, &last)?;
    assert!(rt; next.is_none(), "{text}");
    Ok(())
}

fn row_is_listed<L: Lister + Drop>(
    rt: &impl Abort,
    alloc: Global,
    sig: &Signature,
    row: &str,
) -> Result<(), Fail> {
    let parts = parts_of(alloc, row)?;
    let (text, wanted) = parts.split_first().ok_or("no question")?;
    lists::<L>(rt, sig, &mut Store::new(alloc), text, wanted)?;
    resumes::<L>(rt, sig, &mut Store::new(alloc), text, wanted)
}

fn rows_are_listed<L: Lister + Drop>(
    rt: &impl Abort,
    alloc: Global,
    rows: &str,
) -> Result<(), Fail> {
    let sig = example(rt, alloc)?;
    for row in rows.lines() {
        row_is_listed::<L>(rt, alloc, &sig, row)?;
    }
    Ok(())
}

/// A pattern, a subject, a value beforehand, if there is one, and the values of the solutions in order: without axioms; under C, U and CU;
/// the successor; A and AU; AC and ACU; an alien that is nothing, one element or several; and with values beforehand.
const ROWS: &str = "x abv : abv
p abv
p a : a
xg abvg : abv
pg abvg
xyf abf : a b
xxf abf
xyh abh : a b : b a
xyh aeh : a e : e a
xyh aah : a a
xyk aak : a a : e aak : aak e
xyk a : a e : e a
xyi abi : a b : b a : e abi : abi e
xyi e : e e
xs 3 : 2
xs 0
xss 1
xyv abavv : a bav : abv a
pyv abavv : a bav
xxv abvabvv : abv
xyl abl : e abl : a b : abl e
xyw abcww : a bcw : abw c : acw b : b acw : bcw a : c abw
xyu abu : e abu : a b : abu e : b a
xyu e : e e
pyu a : a e
pxu a : a e
ppyuu aabuu : a b
ppxuu aabuu : a b
xxu aau : a
pqu abcuu
yzmpu a : e n a : n e a
yzmpu abcuu : abu n c : acu n b : bcu n a : n abu c : n acu b : n bcu a
xgyu agbu : a b
xgyu abu
xyv abavv xabv : abv a";

#[test]
fn rows_are_listed_by_the_plain_listing(rt: HostRuntime) -> Result<(), Fail> {
    rows_are_listed::<PlainListing>(&rt, rt.alloc(), ROWS)
}

#[test]
fn rows_are_listed_by_the_lazy_listing(rt: HostRuntime) -> Result<(), Fail> {
    rows_are_listed::<Listing>(&rt, rt.alloc(), ROWS)
}

/// The same with contexts, each solution by its left context, its values and its right one: under AC and ACU, where the right one is the
/// rest; A and AU, where what a variable takes may be nothing; one element that is no part, but may be the whole; and patterns that have no
/// associative operator for the top of their normal form.
const CONTEXTS: &str = "pqu abcuu : /a b/c : /a c/b : /b a/c : /b c/a : /c a/b : /c b/a
xau abcuu : /b/c : /bcu/ : /c/b
abu cacbuuu : //c c
acu abu
ppw aaabwww : /a/a b
xyw abcww : /a b/c : /a bcw/ : /a c/b : /abw c/ : /acw b/ : /b a/c : /b acw/ : /b c/a : /bcw a/ : /c a/b : /c abw/ : /c b/a
pqv ababvvv : /a b/a b : a/b a/b : a b/a b/
xpv abavv : /a b/a : /abv a/ : a/b a/
xyv abavv : /a b/a : /a bav/ : /abv a/ : a/b a/
xbl aball : /a/a
xbl b : /e/
xyl abl : /e abl/ : /a b/ : /abl e/
xel abl : /abl/
xyh aeh : /a e/ : /e a/
xxh aeh";

#[test]
fn rows_are_listed_with_contexts(rt: HostRuntime) -> Result<(), Fail> {
    rows_are_listed::<ExtListing<Listing>>(&rt, rt.alloc(), CONTEXTS)
}
