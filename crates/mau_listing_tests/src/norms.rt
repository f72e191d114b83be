//! Normal forms of a store: equal terms have one number, successors are folded, the limits are met exactly, and instances are built in
//! their contexts.
use crate::notation::{leaf, operator, term};
use crate::signature::{G, L, S, U, V, example};
use mau_canon::BuildFault;
use mau_terms::{Args, Bare, OpId, TermId, VarId};
use std::alloc::Global;
use std::process::Abort;
use std::test::Fail;

mod terms;

use terms::Terms;

fn no_terms(rt: &impl Abort, alloc: Global) -> Result<Terms, Fail> {
    Ok(Terms::new(alloc, example(rt, alloc)?))
}

/// The number of a term that is written behind its arguments, by `build_bare`.
fn number(rt: &impl Abort, alloc: Global, terms: &mut Terms, text: &str) -> Result<TermId, Fail> {
    Ok(terms.bare(rt, &term(alloc, text)?)?)
}

/// The numbers of such terms.
fn all_of(
    rt: &impl Abort,
    alloc: Global,
    terms: &mut Terms,
    texts: &[&str],
) -> Result<Vec<TermId>, Fail> {
    let mut ids = Vec::new(alloc);
    for text in texts {
        ids.push(number(rt, alloc, terms, text)?)?;
    }
    Ok(ids)
}

/// The number of the same term, which is built from below by `build`.
fn built(rt: &impl Abort, alloc: Global, terms: &mut Terms, text: &str) -> Result<TermId, Fail> {
    let mut ids = Vec::new(alloc);
    for letter in text.bytes() {
        let next = match operator(letter) {
            Some((op, 2)) => {
                let second = ids.pop().ok_or("no argument")?;
                let first = ids.pop().ok_or("no argument")?;
                terms.over(rt, op, &[first, second])?
            }
            Some((op, 1)) => {
                let only = ids.pop().ok_or("no argument")?;
                terms.over(rt, op, &[only])?
            }
            Some((op, _)) => terms.over(rt, op, &[])?,
            None => terms.bare(rt, &leaf(letter).ok_or("no letter of the notation")?)?,
        };
        ids.push(next)?;
    }
    Ok(ids.pop().ok_or("no term")?)
}

/// Terms of one number: those of u over a, b and its identity e, each once; v is associative alone, i is commutative with the identity
/// e, and s is the successor.
const EQUAL: [&str; 10] = [
    "abu abueu abeuu aeubu aebuu baueu baeuu beuau beauu eaubu eabuu ebuau ebauu",
    "bavbv babvv",
    "abi bai eabii",
    "e eeu eei",
    "agbuau abuagu",
    "5 3ss 2sss",
    "1 0s",
    "4s5u 5eu5u",
    "abl abell aebll",
    "abk abkek eabkk",
];

fn are_equal(rt: &impl Abort, alloc: Global, terms: &mut Terms, text: &str) -> Result<(), Fail> {
    let mut first = None;
    for word in text.split_whitespace() {
        let id = number(rt, alloc, terms, word)?;
        assert_eq!(rt; *first.get_or_insert(id), id, "{word}");
        assert_eq!(rt; built(rt, alloc, terms, word)?, id, "{word}");
    }
    Ok(())
}

#[test]
fn equal_terms_have_one_number(rt: HostRuntime) -> Result<(), Fail> {
    for text in EQUAL {
        let mut terms = no_terms(&rt, rt.alloc())?;
        are_equal(&rt, rt.alloc(), &mut terms, text)?;
    }
    Ok(())
}

const DIFFERENT: [(&str, &str); 8] = [
    ("abv", "bav"),
    ("abvev", "abv"),
    ("abiai", "aaibi"),
    ("abu", "aabuu"),
    ("xs", "x"),
    ("3g", "4g"),
    ("abu", "abw"),
    ("abk", "bak"),
];

fn different(rt: &impl Abort, alloc: Global, terms: &mut Terms) -> Result<(), Fail> {
    for (left, right) in DIFFERENT {
        let other = number(rt, alloc, terms, left)?;
        assert_ne!(rt; number(rt, alloc, terms, right)?, other, "{left} {right}");
    }
    Ok(())
}

#[test]
fn different_terms_have_two_numbers(rt: HostRuntime) -> Result<(), Fail> {
    let mut terms = no_terms(&rt, rt.alloc())?;
    different(&rt, rt.alloc(), &mut terms)
}

/// g as often as `count` around a term.
fn around(alloc: Global, op: u32, count: u32, text: &str) -> Result<Bare, Fail> {
    let mut whole = term(alloc, text)?;
    for _ in 0..count {
        let args = Vec::from_array(alloc, [whole])?;
        whole = Bare::App(OpId(op), Args::new(args));
    }
    Ok(whole)
}

/// A term, an operator, how often it stands around the term, and why the whole has no number, if it has none.
const LIMITS: [(&str, u32, u32, Option<BuildFault>); 12] = [
    ("M", G, 0, None),
    ("Ms", G, 0, Some(BuildFault::Overflow)),
    ("Mseu", G, 0, Some(BuildFault::Overflow)),
    ("eMsi", G, 0, Some(BuildFault::Overflow)),
    ("Msg", G, 0, Some(BuildFault::Overflow)),
    ("aMsv", G, 0, Some(BuildFault::Overflow)),
    ("a", G, 999, None),
    ("a", G, 1000, Some(BuildFault::TooDeep)),
    ("Ms", G, 998, Some(BuildFault::Overflow)),
    ("Ms", G, 999, Some(BuildFault::TooDeep)),
    ("Mseu", G, 999, Some(BuildFault::TooDeep)),
    ("0", S, 1500, None),
];

fn limits(rt: &impl Abort, alloc: Global, terms: &mut Terms) -> Result<(), Fail> {
    for (text, op, count, wanted) in LIMITS {
        let whole = around(alloc, op, count, text)?;
        assert_eq!(rt; terms.bare(rt, &whole).err(), wanted, "{text} {op} {count}");
    }
    Ok(())
}

#[test]
fn the_limits_are_met_exactly(rt: HostRuntime) -> Result<(), Fail> {
    let mut terms = no_terms(&rt, rt.alloc())?;
    limits(&rt, rt.alloc(), &mut terms)
}

fn one_more(rt: &impl Abort, alloc: Global, terms: &mut Terms) -> Result<(), Fail> {
    let deepest = terms.bare(rt, &around(alloc, G, 999, "a")?)?;
    let greatest = number(rt, alloc, terms, "M")?;
    let (deep, large) = (Some(BuildFault::TooDeep), Some(BuildFault::Overflow));
    assert_eq!(rt; terms.over(rt, G, &[deepest]).err(), deep);
    assert_eq!(rt; terms.list(rt, U, &[deepest, deepest]).err(), deep);
    assert_eq!(rt; terms.over(rt, S, &[greatest]).err(), large);
    Ok(())
}

#[test]
fn one_more_may_be_too_much(rt: HostRuntime) -> Result<(), Fail> {
    let mut terms = no_terms(&rt, rt.alloc())?;
    one_more(&rt, rt.alloc(), &mut terms)
}

/// An operator, the terms of a list, and the term that the list is.
const LISTS: [(u32, &str, &str); 8] = [
    (U, "b ag a", "abuagu"),
    (U, "b e e", "b"),
    (U, "abu e a", "aabuu"),
    (U, "", "e"),
    (V, "b a b", "babvv"),
    (V, "abv e abv", "abvevavbv"),
    (V, "e", "e"),
    (L, "e abl e a", "aball"),
];

fn list(
    rt: &impl Abort,
    alloc: Global,
    terms: &mut Terms,
    op: u32,
    items: &str,
) -> Result<TermId, Fail> {
    let mut ids = Vec::new(alloc);
    for item in items.split_whitespace() {
        ids.push(number(rt, alloc, terms, item)?)?;
    }
    Ok(terms.list(rt, op, &ids)?)
}

fn lists(rt: &impl Abort, alloc: Global, terms: &mut Terms) -> Result<(), Fail> {
    for (op, items, whole) in LISTS {
        let wanted = number(rt, alloc, terms, whole)?;
        assert_eq!(rt; list(rt, alloc, terms, op, items)?, wanted, "{whole}");
    }
    Ok(())
}

#[test]
fn lists_are_built(rt: HostRuntime) -> Result<(), Fail> {
    let mut terms = no_terms(&rt, rt.alloc())?;
    lists(&rt, rt.alloc(), &mut terms)
}

/// The variable x.
const X: VarId = VarId { index: 0, sort: 1 };

/// A pattern, the value of x, and the instance.
const INSTANCES: [(&str, &str, &str); 5] = [
    ("xau", "abu", "aabuu"),
    ("xau", "e", "a"),
    ("xxv", "abv", "ababvvv"),
    ("xss", "3", "5"),
    ("ag", "b", "ag"),
];

fn instances(rt: &impl Abort, alloc: Global, terms: &mut Terms) -> Result<(), Fail> {
    for (pattern, value, instance) in INSTANCES {
        let value = number(rt, alloc, terms, value)?;
        let wanted = number(rt, alloc, terms, instance)?;
        let pattern = term(alloc, pattern)?;
        assert_eq!(rt;
            terms.instance(rt, &pattern, &[X], &[value])?,
            wanted,
            "{instance}"
        );
        let unbound = terms.bare(rt, &pattern)?;
        assert_eq!(rt;
            terms.instance(rt, &pattern, &[], &[])?,
            unbound,
            "{instance}"
        );
    }
    Ok(())
}

#[test]
fn variables_have_values(rt: HostRuntime) -> Result<(), Fail> {
    let mut terms = no_terms(&rt, rt.alloc())?;
    instances(&rt, rt.alloc(), &mut terms)
}

/// An operator, a context on both sides, a pattern, the value of x, and the whole.
const CONTEXTS: [(u32, &str, &str, &str, &str); 4] = [
    (V, "a", "xg", "b", "abgavv"),
    (V, "a b", "xxv", "abv", "ababababvvvvvvv"),
    (L, "a", "x", "e", "aal"),
    (U, "b", "xau", "agbu", "abbbaguuuu"),
];

fn whole(
    rt: &impl Abort,
    alloc: Global,
    terms: &mut Terms,
    row: (u32, &str, &str, &str, &str),
) -> Result<TermId, Fail> {
    let (op, around, pattern, value, _) = row;
    let mut context = Vec::new(alloc);
    for item in around.split_whitespace() {
        context.push(number(rt, alloc, terms, item)?)?;
    }
    let value = number(rt, alloc, terms, value)?;
    let pattern = term(alloc, pattern)?;
    Ok(terms.within(rt, op, &context, &pattern, &[X], &[value])?)
}

fn contexts(rt: &impl Abort, alloc: Global, terms: &mut Terms) -> Result<(), Fail> {
    for row in CONTEXTS {
        let wanted = number(rt, alloc, terms, row.4)?;
        assert_eq!(rt; whole(rt, alloc, terms, row)?, wanted, "{}", row.4);
    }
    Ok(())
}

#[test]
fn instances_stand_in_contexts(rt: HostRuntime) -> Result<(), Fail> {
    let mut terms = no_terms(&rt, rt.alloc())?;
    contexts(&rt, rt.alloc(), &mut terms)
}

/// An operator, a term, and how many elements its list has.
const ELEMENTS: [(u32, &str, usize); 5] = [
    (U, "bagubu", 3),
    (U, "ag", 1),
    (U, "e", 0),
    (V, "bagubu", 1),
    (V, "abvevavbv", 5),
];

fn elements(rt: &impl Abort, alloc: Global, terms: &mut Terms) -> Result<(), Fail> {
    for (op, text, count) in ELEMENTS {
        let id = number(rt, alloc, terms, text)?;
        assert_eq!(rt; terms.elements(rt, op, id)?.len(), count, "{text}");
    }
    Ok(())
}

#[test]
fn lists_are_read(rt: HostRuntime) -> Result<(), Fail> {
    let mut terms = no_terms(&rt, rt.alloc())?;
    elements(&rt, rt.alloc(), &mut terms)
}

/// A term, and its normal form as it is read: lists are nested to the right, those of u with the least element first.
const READ: [(&str, &str); 6] = [
    ("5", "5"),
    ("x", "x"),
    ("bau", "abu"),
    ("abvavbv", "ababvvv"),
    ("bagueuau", "abaguu"),
    ("3sgag5uf", "4g5aguf"),
];

fn read_back(rt: &impl Abort, alloc: Global, terms: &mut Terms) -> Result<(), Fail> {
    for (text, normal) in READ {
        let id = number(rt, alloc, terms, text)?;
        let wanted = term(alloc, normal)?;
        assert!(rt; terms.read(rt, id)?.same(&wanted), "{text}");
    }
    Ok(())
}

#[test]
fn normal_forms_are_read(rt: HostRuntime) -> Result<(), Fail> {
    let mut terms = no_terms(&rt, rt.alloc())?;
    read_back(&rt, rt.alloc(), &mut terms)
}

fn long_list(rt: &impl Abort, alloc: Global, terms: &mut Terms) -> Result<(), Fail> {
    // 7919 and 100003 are prime, so the variables stand in no order.
    for i in 0..100000u64 {
        let index = (i * 7919 % 100003) as u32;
        terms.bare(rt, &Bare::Var(VarId { index, sort: 0 }))?;
    }
    let whole = terms.list_of_all(rt, U)?;
    assert_eq!(rt; terms.elements(rt, U, whole)?.len(), 100000);
    Ok(())
}

#[test]
fn a_long_list_is_built_at_once(rt: HostRuntime) -> Result<(), Fail> {
    let mut terms = no_terms(&rt, rt.alloc())?;
    long_list(&rt, rt.alloc(), &mut terms)
}
