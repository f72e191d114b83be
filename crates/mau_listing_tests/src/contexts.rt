//! A table of questions on which the listing with contexts is compared with the plain slow one: what it finds are the solutions of the
//! pattern and each part of the subject, with what stands around that part.
use crate::asking::{first, numbers, question_of};
use crate::listings::{parts_of, split_at_contexts};
use crate::signature::example;
use mau_extend::ExtListing;
use mau_listing::Solution;
use mau_match::Listing;
use mau_plain::PlainListing;
use mau_signature::Signature;
use mau_store::Store;
use mau_terms::TermId;
use std::alloc::Global;
use std::process::Abort;
use std::test::Fail;

/// More solutions than a question of the table has.
const MOST: usize = 100;

/// Whether a solution with these contexts and values was found.
fn is_among(found: &[Solution], left: &[TermId], values: &[TermId], right: &[TermId]) -> bool {
    found.iter().any(|solution| {
        solution.left.items() == left
            && solution.values.items() == values
            && solution.right.items() == right
    })
}

/// A store that begins with the parts of a subject in their order, so that each list of its elements has one number in all such stores.
fn store_of(
    rt: &impl Abort,
    alloc: Global,
    sig: &Signature,
    parts: &[&str],
) -> Result<Store, Fail> {
    let mut store = Store::new(alloc);
    numbers(rt, sig, &mut store, "e n")?;
    for part in parts {
        let (_, part, _) = split_at_contexts(part).ok_or("no right context")?;
        numbers(rt, sig, &mut store, part)?;
    }
    Ok(store)
}

/// The solutions of a pattern and a part were found, with what stands around the part. Gives how many they are.
fn solutions_of_part(
    rt: &impl Abort,
    sig: &Signature,
    store: &mut Store,
    pattern: &str,
    part: &str,
    found: &[Solution],
) -> Result<usize, Fail> {
    let shared = store.len();
    let (left, part, right) = split_at_contexts(part).ok_or("no right context")?;
    let left = numbers(rt, sig, store, left)?;
    let right = numbers(rt, sig, store, right)?;
    let text = format!(in store.allocator(); "{pattern} {part}")?;
    let question = question_of(rt, sig, store, text.as_str())?;
    let wanted = first::<PlainListing>(rt, sig, store, &question, MOST)?;
    assert!(rt; !wanted.more, "{text}");
    for solution in &wanted.solutions {
        let values = solution.values.items();
        assert!(rt; values.iter().all(|id| id.0 < shared), "{text}");
        assert!(rt; is_among(found, &left, values, &right), "{text}");
    }
    Ok(wanted.solutions.len())
}

/// For a pattern and a subject is found what is found for the parts of the subject, the first of which is the whole.
fn agrees(
    rt: &impl Abort,
    alloc: Global,
    sig: &Signature,
    pattern: &str,
    parts: &[&str],
) -> Result<(), Fail> {
    let whole = parts.first().ok_or("no part")?;
    let (_, subject, _) = split_at_contexts(whole).ok_or("no right context")?;
    let text = format!(in alloc; "{pattern} {subject}")?;
    let mut store = store_of(rt, alloc, sig, parts)?;
    let question = question_of(rt, sig, &mut store, text.as_str())?;
    let found = first::<ExtListing<Listing>>(rt, sig, &mut store, &question, MOST)?;
    assert!(rt; !found.more, "{text}");
    let mut count: usize = 0;
    for part in parts {
        let mut store = store_of(rt, alloc, sig, parts)?;
        let of_part = solutions_of_part(rt, sig, &mut store, pattern, part, &found.solutions)?;
        count = count.saturating_add(of_part);
    }
    assert_eq!(rt; found.solutions.len(), count, "{text}");
    Ok(())
}

fn row_agrees(rt: &impl Abort, alloc: Global, sig: &Signature, row: &str) -> Result<(), Fail> {
    let parts = parts_of(alloc, row)?;
    let (patterns, parts) = parts.split_first().ok_or("no pattern")?;
    for pattern in patterns.split_whitespace() {
        agrees(rt, alloc, sig, pattern, parts)?;
    }
    Ok(())
}

/// Patterns whose normal form has the associative operator of the row for its top, and a subject with its parts: the whole first, and then
/// what has two elements at least, between the elements on its left and on its right, or under a commutative operator before the others.
const ROWS: &str =
    "xyv pqv xpv xxv abv : /ababvvv/ : /abv/a b : /abavv/b : a/bav/b : a/babvv/ : a b/abv/
xyl pxl xxl abl pykxl : /aball/ : /abl/a : a/bal/
xyl xbl : /abvcl/
xyw ppw xaw xxw : /aabww/ : /aaw/b : /abw/a
pqw abw : /abcww/ : /abw/c : /acw/b : /bcw/a
xyu pxu xxu xau pyixu : /aabuu/ : /aau/b : /abu/a
pqu xau : /abcuu/ : /abu/c : /acu/b : /bcu/a";

#[test]
fn solutions_with_contexts_are_those_of_the_parts(rt: HostRuntime) -> Result<(), Fail> {
    let sig = example(&rt, rt.alloc())?;
    for row in ROWS.lines() {
        row_agrees(&rt, rt.alloc(), &sig, row)?;
    }
    Ok(())
}
