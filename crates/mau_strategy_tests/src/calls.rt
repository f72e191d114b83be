//! Rows of calls: several definitions of a name, calls in calls, arguments, conditions, and as many as may be nested.
use crate::modules::{DOWN, RIVER, SHOP};
use crate::rows::{Row, assert_rows};
use std::test::Fail;

const CALLS: [Row; 11] = [
    (SHOP, 1000, "$", "one", 9, "Item: c / Place: q a / no more"),
    (
        SHOP,
        1000,
        "$ $",
        "one ; one",
        9,
        "Place: c c / Place: q a c / Place: q q a a / no more",
    ),
    (
        SHOP,
        1000,
        "$ $",
        "spend",
        1,
        "Place: c c / Place: q a c / Place: q q a a / no more",
    ),
    (SHOP, 1000, "$ $", "apples", 9, "Place: q q a a / no more"),
    (
        RIVER,
        1000,
        "crossing(left, left, left, left)",
        "cross * ; done",
        9,
        "Crossing: crossing(right, right, right, right) / no more",
    ),
    (
        RIVER,
        1000,
        "crossing(left, left, left, left)",
        "wolf ; eaten ? idle : fail",
        9,
        "Crossing: crossing(right, right, left, left) / no more",
    ),
    (SHOP, 1000, "$", "loop", 9, "call depth"),
    (SHOP, 1000, "$", "idle | loop", 1, "Coin: $ / call depth"),
    (SHOP, 1000, "$", "not(loop)", 9, "call depth"),
    (DOWN, 10000, "199", "down", 9, "Zero: 0 / no more"),
    (DOWN, 10000, "200", "down", 9, "call depth"),
];

const ARGUMENTS: [Row; 13] = [
    (SHOP, 1000, "$", "get(c)", 9, "Item: c / no more"),
    (SHOP, 1000, "$", "get($)", 9, "no more"),
    (
        SHOP,
        1000,
        "$",
        "get(a) ; not(get(c))",
        9,
        "Place: q a / no more",
    ),
    (
        SHOP,
        1000,
        "$ $",
        "twice(a)",
        1,
        "Place: q a c / Place: $ q a / Place: q q a a / no more",
    ),
    (
        SHOP,
        1000,
        "$ $",
        "same($ a, a $)",
        9,
        "Place: $ c / no more",
    ),
    (SHOP, 1000, "$ $", "same($, a)", 9, "no more"),
    (SHOP, 1000, "$ a", "part(a c)", 9, "Place: a c / no more"),
    (SHOP, 1000, "$ a", "part(a)", 9, "no more"),
    (
        RIVER,
        1000,
        "crossing(left, right, left, left)",
        "there(over(right))",
        9,
        "Crossing: crossing(left, right, left, left) / no more",
    ),
    (
        RIVER,
        1000,
        "crossing(left, right, left, left)",
        "there(right)",
        9,
        "no more",
    ),
    (DOWN, 10000, "5", "lower(s 2)", 9, "NzNat: 2 / no more"),
    (DOWN, 10000, "2", "lower(3)", 9, "no more"),
    (
        DOWN,
        10000,
        "300",
        "lower(199) | lower(200)",
        9,
        "NzNat: 101 / call depth",
    ),
];

#[test]
fn calls_of_strategies(rt: HostRuntime) -> Result<(), Fail> {
    assert_rows(&rt, rt.alloc(), &CALLS)
}

#[test]
fn calls_with_arguments(rt: HostRuntime) -> Result<(), Fail> {
    assert_rows(&rt, rt.alloc(), &ARGUMENTS)
}
