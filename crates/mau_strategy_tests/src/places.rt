//! Rows of labels at all places and at the root alone, of conditional rules, and of tests.
use crate::modules::{BAG, FROGS, LETTERS, TREES, VENDING};
use crate::rows::{Row, assert_rows};
use std::test::Fail;

const PLACES: [Row; 18] = [
    (TREES, 1000, "a", "x", 9, "T: b / T: c / no more"),
    (
        TREES,
        1000,
        "p(a, a)",
        "x",
        9,
        "T: p(b, a) / T: p(c, a) / T: p(a, b) / T: p(a, c) / no more",
    ),
    (TREES, 1000, "p(a, a)", "y", 9, "T: a / no more"),
    (
        TREES,
        1000,
        "p(a, a)",
        "all",
        9,
        "T: a / T: p(b, a) / T: p(c, a) / T: p(a, b) / T: p(a, c) / no more",
    ),
    (TREES, 1000, "g(a)", "x", 9, "no more"),
    (
        TREES,
        1000,
        "p(g(a), a)",
        "all",
        9,
        "T: p(b, a) / T: p(g(a), b) / T: p(g(a), c) / no more",
    ),
    (TREES, 1000, "p(a, a)", "top(x)", 9, "no more"),
    (TREES, 1000, "p(a, a)", "top(all)", 9, "T: a / no more"),
    (TREES, 1000, "a", "top(x)", 9, "T: b / T: c / no more"),
    (TREES, 1000, "g(a)", "top(all)", 9, "T: b / no more"),
    (
        FROGS,
        1000,
        "f o f o",
        "hop",
        9,
        "Leaf: o f f o / Leaf: f o o f / no more",
    ),
    (
        FROGS,
        1000,
        "f o t",
        "all *",
        9,
        "Leaf: f o t / Leaf: o f t / Leaf: t f o / Leaf: t o f / Leaf: f t o / Leaf: o t f / no more",
    ),
    (
        FROGS,
        1000,
        "f f o t t",
        "all !",
        9,
        "Leaf: o f f t t / Leaf: t o f f t / Leaf: f t t o f / Leaf: t t o f f / Leaf: f f t t o / no more",
    ),
    (
        FROGS,
        1000,
        "f o f t o",
        "top(hop)",
        9,
        "Leaf: o f f t o / no more",
    ),
    (
        VENDING,
        1000,
        "q q q q a",
        "change",
        9,
        "Place: $ a / no more",
    ),
    (
        VENDING,
        1000,
        "q q q q a",
        "top(change)",
        9,
        "Place: $ a / no more",
    ),
    (VENDING, 1000, "$ $", "top(buy-c)", 9, "no more"),
    (
        VENDING,
        1000,
        "$",
        "top(all)",
        9,
        "Item: c / Place: q a / no more",
    ),
];

const CONDITIONS: [Row; 6] = [
    (
        LETTERS,
        1000,
        "c b a",
        "swap",
        9,
        "Lst: b c a / Lst: c a b / no more",
    ),
    (LETTERS, 1000, "c b a", "swap !", 9, "Lst: a b c / no more"),
    (LETTERS, 1000, "a b c", "swap", 9, "no more"),
    (
        LETTERS,
        1000,
        "inner(a b c d)",
        "choose",
        9,
        "Elt: b / Elt: c / no more",
    ),
    (
        BAG,
        1000,
        "a b c",
        "take",
        9,
        "Bag: a c / Bag: a b / Bag: b c / no more",
    ),
    (
        BAG,
        1000,
        "a b c",
        "take !",
        1,
        "Elt: a / Elt: c / Elt: b / no more",
    ),
];

const TESTS: [Row; 20] = [
    (
        TREES,
        1000,
        "p(b, b)",
        "match p(X:T, X:T)",
        9,
        "T: p(b, b) / no more",
    ),
    (TREES, 1000, "p(a, b)", "match p(X:T, X:T)", 9, "no more"),
    (
        TREES,
        1000,
        "p(a, b)",
        "match p(X:T, Y:T) s.t. X:T = a",
        9,
        "T: p(a, b) / no more",
    ),
    (
        TREES,
        1000,
        "p(b, a)",
        "match p(X:T, Y:T) such that X:T = a",
        9,
        "no more",
    ),
    (TREES, 1000, "p(a, b)", "match b", 9, "no more"),
    (
        TREES,
        1000,
        "p(a, b)",
        "amatch b",
        9,
        "T: p(a, b) / no more",
    ),
    (
        TREES,
        1000,
        "p(g(a), b)",
        "amatch a",
        9,
        "T: p(g(a), b) / no more",
    ),
    (TREES, 1000, "p(b, b)", "amatch a", 9, "no more"),
    (FROGS, 1000, "f t o", "match t o", 9, "no more"),
    (
        FROGS,
        1000,
        "f t o",
        "xmatch t o",
        9,
        "Leaf: f t o / no more",
    ),
    (FROGS, 1000, "f t o", "xmatch t", 9, "no more"),
    (FROGS, 1000, "f t o", "amatch t", 9, "Leaf: f t o / no more"),
    (VENDING, 1000, "$ q a", "match $ a", 9, "no more"),
    (
        VENDING,
        1000,
        "$ q a",
        "match $ X:Place",
        9,
        "Place: $ q a / no more",
    ),
    (VENDING, 1000, "$ q a", "match $ X:Coin", 9, "no more"),
    (
        VENDING,
        1000,
        "$ q a",
        "xmatch $ a",
        9,
        "Place: $ q a / no more",
    ),
    (
        VENDING,
        1000,
        "$ q a",
        "xmatch X:Place Y:Place s.t. (X:Place : Item)",
        9,
        "Place: $ q a / no more",
    ),
    (
        VENDING,
        1000,
        "$ q",
        "xmatch X:Place Y:Place s.t. (X:Place : Item)",
        9,
        "no more",
    ),
    (VENDING, 1000, "$ $", "xmatch $", 9, "no more"),
    (
        VENDING,
        1000,
        "$ $",
        "buy-a ; xmatch a $ ; buy-c",
        9,
        "Place: q a c / no more",
    ),
];

#[test]
fn labels_at_places(rt: HostRuntime) -> Result<(), Fail> {
    assert_rows(&rt, rt.alloc(), &PLACES)
}

#[test]
fn conditions_of_rules(rt: HostRuntime) -> Result<(), Fail> {
    assert_rows(&rt, rt.alloc(), &CONDITIONS)
}

#[test]
fn tests_of_all_kinds(rt: HostRuntime) -> Result<(), Fail> {
    assert_rows(&rt, rt.alloc(), &TESTS)
}
