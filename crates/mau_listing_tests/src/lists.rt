//! Rows of sub-multisets and of parts. A list of constants is written by their letters, and the empty list by `-`; behind the last
//! list stands a full stop. The constants are numbered against their order, so that the order of numbers is not that of terms.
ghost use Rattle.std.specs.Prelude.{◌≡◌};
ghost use Rattle.mau_store.specs.Node.{AreOf};
ghost use Rattle.mau_store.specs.View.{numbers};
ghost use Rattle.mau_lists.specs.Terms.{AreSorted};

use mau_lists::{Segments, SubLists, are_sorted};
use mau_store::{NodeView, Store};
use mau_terms::{NoMemory, OpId, TermId};
use std::alloc::Global;
use std::process::Abort;
use std::test::Fail;

/// The constants z, y, and so on up to a, numbered from 0.
fn alphabet(alloc: Global) -> Result<Store, NoMemory> {
    let mut store = Store::new(alloc);
    for number in 0..26 {
        store.intern(NodeView::App(OpId(25 - number), &[]))?;
    }
    Ok(store)
}

/// The constants of a text.
fn terms(alloc: Global, text: &str) -> Result<Vec<TermId>, NoMemory> {
    let mut ids = Vec::new(alloc);
    for letter in text.as_bytes() {
        ids.push(TermId(b'z'.saturating_sub(*letter) as usize))?;
    }
    Ok(ids)
}

/// Stops where a number is not of the store.
fn are_there(rt: &impl Abort, store: &Store, ids: &[TermId])
    ensures there { AreOf store.now (numbers ids.now) }
{
    let len = store.len();
    assert!(rt; ids.iter().all(|id| id.0 < len));
}

/// Stops where the items are not what a listing of sub-multisets asks for.
fn are_items(rt: &impl Abort, store: &Store, items: &[TermId])
    ensures there { AreOf store.now (numbers items.now) }
    ensures sorted { AreSorted store.now (numbers items.now) }
{
    are_there(rt, store, items);
    assert!(rt; are_sorted(store, items));
}

fn write_list(text: &mut String, list: &[TermId]) -> Result<(), NoMemory> {
    if list.is_empty() {
        text.push('-')?;
    }
    for id in list {
        text.push((b'z' - (id.0 % 26) as u8) as char)?;
    }
    text.push(' ')?;
    Ok(())
}

/// The next lists, at most so many.
fn next_sub_lists(
    alloc: Global,
    store: &Store,
    lists: &mut SubLists,
    limit: usize,
) -> Result<String, NoMemory>
    requires there { AreOf store.now lists.old.items }
    requires sorted { AreSorted store.now lists.old.items }
{
    let mut text = String::new(alloc);
    for _ in 0..limit {
        match lists.next(store) {
            Some(list) => write_list(&mut text, list)?,
            None => {
                text.push('.')?;
                return Ok(text);
            }
        }
    }
    Ok(text)
}

fn next_parts(alloc: Global, store: &Store, parts: &mut Segments) -> Result<String, NoMemory> {
    let mut text = String::new(alloc);
    for _ in 0..100 {
        match parts.next(store) {
            Some(list) => write_list(&mut text, list)?,
            None => {
                text.push('.')?;
                return Ok(text);
            }
        }
    }
    Ok(text)
}

/// The sub-multisets of some items, from the first on or behind a list, at most so many.
fn sub_lists_of(
    rt: &impl Abort,
    alloc: Global,
    items: &str,
    behind: Option<&str>,
    limit: usize,
) -> Result<String, Fail> {
    let store = alphabet(alloc)?;
    let items = terms(alloc, items)?;
    are_items(rt, &store, &items);
    let mut lists = SubLists::new(alloc, &items)?;
    if let Some(list) = behind {
        let list = terms(alloc, list)?;
        are_there(rt, &store, &list);
        lists.after(&store, &list);
    }
    Ok(next_sub_lists(alloc, &store, &mut lists, limit)?)
}

/// The parts of some items, from the first on or behind a list.
fn parts_of(alloc: Global, items: &str, behind: Option<&str>) -> Result<String, Fail> {
    let store = alphabet(alloc)?;
    let items = terms(alloc, items)?;
    let mut parts = Segments::new(alloc, &items)?;
    if let Some(list) = behind {
        let list = terms(alloc, list)?;
        parts.after(&store, &list);
    }
    Ok(next_parts(alloc, &store, &mut parts)?)
}

/// From the first list on; in the middle; behind a list that is none of them, before the first list that is not empty, and behind the
/// last one.
const SUB_LISTS: [(&str, Option<&str>, &str); 13] = [
    ("", None, "- ."),
    ("a", None, "- a ."),
    ("aaa", None, "- a aa aaa ."),
    ("aab", None, "- a aa aab ab b ."),
    ("abbc", None, "- a ab abb abbc abc ac b bb bbc bc c ."),
    ("abbc", Some("abc"), "ac b bb bbc bc c ."),
    ("abbc", Some("abbb"), "abbc abc ac b bb bbc bc c ."),
    ("abbc", Some("abz"), "ac b bb bbc bc c ."),
    ("abbc", Some(""), "a ab abb abbc abc ac b bb bbc bc c ."),
    ("bc", Some("a"), "b bc c ."),
    ("abbc", Some("c"), "."),
    ("abbc", Some("zzzzzz"), "."),
    (
        "abcdefghijklmnopqrst",
        Some("qrt"),
        "qs qst qt r rs rst rt s st t .",
    ),
];

#[test]
fn sub_lists_ascend_each_once(rt: HostRuntime) -> Result<(), Fail> {
    for (items, behind, wanted) in SUB_LISTS {
        let given = sub_lists_of(&rt, rt.alloc(), items, behind, 100)?;
        assert_eq!(rt; given.as_str(), wanted, "{items}");
    }
    Ok(())
}

/// Of twenty elements the first thirteen lists, and what stands behind abcdefghijklm in the next 87.
const FIRST_LISTS: &str =
    "- a ab abc abcd abcde abcdef abcdefg abcdefgh abcdefghi abcdefghij abcdefghijk abcdefghijkl ";

const TAILS: [&str; 87] = [
    "", "n", "no", "nop", "nopq", "nopqr", "nopqrs", "nopqrst", "nopqrt", "nopqs", "nopqst",
    "nopqt", "nopr", "noprs", "noprst", "noprt", "nops", "nopst", "nopt", "noq", "noqr", "noqrs",
    "noqrst", "noqrt", "noqs", "noqst", "noqt", "nor", "nors", "norst", "nort", "nos", "nost",
    "not", "np", "npq", "npqr", "npqrs", "npqrst", "npqrt", "npqs", "npqst", "npqt", "npr", "nprs",
    "nprst", "nprt", "nps", "npst", "npt", "nq", "nqr", "nqrs", "nqrst", "nqrt", "nqs", "nqst",
    "nqt", "nr", "nrs", "nrst", "nrt", "ns", "nst", "nt", "o", "op", "opq", "opqr", "opqrs",
    "opqrst", "opqrt", "opqs", "opqst", "opqt", "opr", "oprs", "oprst", "oprt", "ops", "opst",
    "opt", "oq", "oqr", "oqrs", "oqrst", "oqrt",
];

#[test]
fn twenty_elements_begin_with_these_hundred(rt: HostRuntime) -> Result<(), Fail> {
    let mut wanted = String::new(rt.alloc());
    wanted.push_str(FIRST_LISTS)?;
    for tail in TAILS {
        wanted.push_str("abcdefghijklm")?;
        wanted.push_str(tail)?;
        wanted.push(' ')?;
    }
    let given = sub_lists_of(&rt, rt.alloc(), "abcdefghijklmnopqrst", None, 100)?;
    assert_eq!(rt; given.as_str(), wanted.as_str());
    Ok(())
}

/// How many lists are given before there is none.
fn count(store: &Store, lists: &mut SubLists) -> usize
    requires there { AreOf store.now lists.old.items }
    requires sorted { AreSorted store.now lists.old.items }
{
    let mut count: usize = 0;
    while lists.next(store).is_some() {
        count = count.saturating_add(1);
    }
    count
}

#[test]
fn sixteen_elements_have_65536_sub_lists(rt: HostRuntime) -> Result<(), Fail> {
    let store = alphabet(rt.alloc())?;
    let items = terms(rt.alloc(), "abcdefghijklmnop")?;
    are_items(&rt, &store, &items);
    let mut lists = SubLists::new(rt.alloc(), &items)?;
    assert_eq!(rt; count(&store, &mut lists), 65536);
    Ok(())
}

/// The same of contiguous parts, each as the list that it is.
const PARTS: [(&str, Option<&str>, &str); 14] = [
    ("", None, "- ."),
    ("a", None, "- a ."),
    ("aa", None, "- a aa ."),
    ("abab", None, "- a ab aba abab b ba bab ."),
    ("cab", None, "- a ab b c ca cab ."),
    ("abab", Some("ab"), "aba abab b ba bab ."),
    ("abab", Some("abb"), "b ba bab ."),
    ("abab", Some("bb"), "."),
    ("abab", Some(""), "a ab aba abab b ba bab ."),
    ("cb", Some("a"), "b c cb ."),
    ("abab", Some("bab"), "."),
    ("abab", Some("zzzzzz"), "."),
    (
        "aabaab",
        Some("aab"),
        "aaba aabaa aabaab ab aba abaa abaab b ba baa baab .",
    ),
    ("aab", Some("aaab"), "aab ab b ."),
];

#[test]
fn parts_ascend_each_once(rt: HostRuntime) -> Result<(), Fail> {
    for (items, behind, wanted) in PARTS {
        let given = parts_of(rt.alloc(), items, behind)?;
        assert_eq!(rt; given.as_str(), wanted, "{items}");
    }
    Ok(())
}
