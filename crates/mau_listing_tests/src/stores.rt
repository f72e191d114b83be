//! Nodes of a store: equal ones have one number, each is read as it was stored, and they are compared as the terms that they are.
use mau_store::{NodeView, Store};
use mau_terms::{NoMemory, OpId, TermId, VarId};
use std::alloc::Global;
use std::cmp::Ordering;
use std::process::Abort;
use std::test::Fail;

/// The number of an operator over terms of the store.
pub fn application(
    rt: &impl Abort,
    store: &mut Store,
    op: u32,
    args: &[TermId],
) -> Result<TermId, NoMemory> {
    let len = store.len();
    assert!(rt; args.iter().all(|id| id.0 < len));
    store.intern(NodeView::App(OpId(op), args))
}

/// The last node of the store: a digit is a numeral, a small letter an operator over the nodes of the digits behind it, and a capital
/// letter a variable, whose sort the digit behind it is.
fn node(rt: &impl Abort, store: &mut Store, text: &str) -> Result<TermId, Fail> {
    match text.as_bytes() {
        [digit] if digit.is_ascii_digit() => {
            Ok(store.intern(NodeView::Num(digit.wrapping_sub(b'0') as u128))?)
        }
        [name, sort] if name.is_ascii_uppercase() => {
            let index = name.wrapping_sub(b'X') as u32;
            let sort = sort.wrapping_sub(b'0') as u32;
            Ok(store.intern(NodeView::Var(VarId { index, sort }))?)
        }
        [name, places @ ..] => {
            let mut args = Vec::new(store.allocator());
            for place in places {
                args.push(TermId(place.wrapping_sub(b'0') as usize))?;
            }
            let op = name.wrapping_sub(b'a') as u32;
            Ok(application(rt, store, op, &args)?)
        }
        [] => Err("no node".into()),
    }
}

/// Each node, the number that it has where they are stored in this order, and its depth.
const NODES: [(&str, usize, usize); 10] = [
    ("5", 0, 1),
    ("X1", 1, 1),
    ("h01", 2, 2),
    ("h10", 3, 2),
    ("5", 0, 1),
    ("X1", 1, 1),
    ("h01", 2, 2),
    ("X2", 4, 1),
    ("h230", 5, 3),
    ("h", 6, 1),
];

#[test]
fn equal_nodes_have_one_number(rt: HostRuntime) -> Result<(), Fail> {
    let mut store = Store::new(rt.alloc());
    assert!(rt; store.is_empty());
    for (text, number, depth) in NODES {
        let id = node(&rt, &mut store, text)?;
        assert_eq!(rt; id.0, number, "{text}");
        assert!(rt; id.0 < store.len());
        assert_eq!(rt; store.depth(id), depth, "{text}");
    }
    assert_eq!(rt; store.len(), 7);
    Ok(())
}

#[test]
fn a_node_is_read_as_it_was_stored(rt: HostRuntime) -> Result<(), Fail> {
    let mut store = Store::new(rt.alloc());
    for text in ["5", "X1", "h10"] {
        node(&rt, &mut store, text)?;
    }
    let args = [TermId(1), TermId(0)];
    for (number, wanted) in [
        (0, NodeView::Num(5)),
        (1, NodeView::Var(VarId { index: 0, sort: 1 })),
        (2, NodeView::App(OpId(7), &args)),
    ] {
        assert!(rt; number < store.len());
        assert_eq!(rt; store.view(TermId(number)), wanted);
    }
    Ok(())
}

/// Nodes whose arguments are the nodes of these numbers, and their numbers in ascending order: numerals, then variables by their place
/// and then by their sort, then applications by the operator and then by their arguments, where a front comes before the whole.
const STORED: [&str; 13] = [
    "Y1", "c", "b", "5", "0", "Y2", "X3", "b6", "b37", "b374", "b32", "b3", "c4",
];

const ASCENDING: [usize; 13] = [4, 3, 6, 0, 5, 2, 11, 10, 8, 9, 7, 1, 12];

#[test]
fn numerals_come_before_variables_before_applications(rt: HostRuntime) -> Result<(), Fail> {
    let mut store = Store::new(rt.alloc());
    for text in STORED {
        node(&rt, &mut store, text)?;
    }
    assert_eq!(rt; store.len(), 13);
    for (i, one) in ASCENDING.iter().enumerate() {
        for (j, other) in ASCENDING.iter().enumerate() {
            let (one, other) = (TermId(*one), TermId(*other));
            assert!(rt; one.0 < store.len() && other.0 < store.len());
            assert_eq!(rt; store.compare(one, other), i.cmp(&j), "{i} {j}");
        }
    }
    Ok(())
}

#[test]
fn shared_and_deep_terms_are_compared_at_once(rt: HostRuntime) -> Result<(), Fail> {
    let mut store = Store::new(rt.alloc());
    let mut low = store.intern(NodeView::Num(0))?;
    let mut high = store.intern(NodeView::Num(1))?;
    for _ in 0..100000 {
        low = application(&rt, &mut store, 7, &[low, low])?;
        high = application(&rt, &mut store, 7, &[high, high])?;
    }
    for (one, other, order) in [
        (low, high, Ordering::Less),
        (high, low, Ordering::Greater),
        (low, low, Ordering::Equal),
    ] {
        assert_eq!(rt; store.compare(one, other), order);
    }
    Ok(())
}
