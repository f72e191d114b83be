//! Rows of all forms of strategies but labels at places, tests and calls; and of runs that rest.
use crate::modules::{RIVER, VENDING};
use crate::rows::{Row, assert_rows};
use std::test::Fail;

const WORKED: [Row; 5] = [
    (
        VENDING,
        1000,
        "$ $",
        "buy-c ; buy-a",
        9,
        "Place: q a c / no more",
    ),
    (VENDING, 1000, "$ $", "fail", 9, "no more"),
    (VENDING, 1000, "$ $", "idle *", 9, "Place: $ $ / no more"),
    (
        VENDING,
        1000,
        "$",
        "(change | buy-c) ? idle : buy-a",
        9,
        "Item: c / no more",
    ),
    (
        VENDING,
        1000,
        "$ $",
        "all !",
        9,
        "Place: c c / Place: q a c / Place: q q a a / no more",
    ),
];

const FORMS: [Row; 17] = [
    (VENDING, 1000, "$ $", "idle", 9, "Place: $ $ / no more"),
    (
        VENDING,
        1000,
        "$ $",
        "all",
        9,
        "Place: $ c / Place: $ q a / no more",
    ),
    (
        VENDING,
        1000,
        "$ $",
        "buy-a | buy-c",
        9,
        "Place: $ q a / Place: $ c / no more",
    ),
    (
        VENDING,
        1000,
        "$ $",
        "buy-c +",
        9,
        "Place: $ c / Place: c c / no more",
    ),
    (VENDING, 1000, "c", "all !", 9, "Item: c / no more"),
    (
        VENDING,
        1000,
        "$ $",
        "change or-else buy-a",
        9,
        "Place: $ q a / no more",
    ),
    (
        VENDING,
        1000,
        "$ $",
        "buy-c or-else buy-a",
        9,
        "Place: $ c / no more",
    ),
    (
        VENDING,
        1000,
        "$ $",
        "all ? all : idle",
        9,
        "Place: c c / Place: q a c / Place: q q a a / no more",
    ),
    (
        VENDING,
        1000,
        "c",
        "all ? all : idle",
        9,
        "Item: c / no more",
    ),
    (
        VENDING,
        1000,
        "$ $",
        "change ? fail : buy-c",
        9,
        "Place: $ c / no more",
    ),
    (
        VENDING,
        1000,
        "$ $",
        "not(change)",
        9,
        "Place: $ $ / no more",
    ),
    (VENDING, 1000, "$ $", "not(buy-c)", 9, "no more"),
    (
        VENDING,
        1000,
        "$ $",
        "try(change)",
        9,
        "Place: $ $ / no more",
    ),
    (
        VENDING,
        1000,
        "$ $",
        "try(buy-c)",
        9,
        "Place: $ c / no more",
    ),
    (
        VENDING,
        1000,
        "$ $",
        "test(buy-c)",
        9,
        "Place: $ $ / no more",
    ),
    (VENDING, 1000, "$ $", "test(change)", 9, "no more"),
    (
        VENDING,
        1000,
        "q q q q $",
        "change ; test(change) or-else buy-c +",
        9,
        "Place: q q q q c / no more",
    ),
];

/// What `all *` shows from two dollars.
const REACHED: &str =
    "Place: $ $ / Place: $ c / Place: c c / Place: q a c / Place: $ q a / Place: q q a a / no more";

const RESTING: [Row; 5] = [
    (VENDING, 1000, "$ $", "all *", 0, REACHED),
    (VENDING, 1000, "$ $", "all *", 1, REACHED),
    (VENDING, 1000, "$ $", "all *", 5, REACHED),
    (
        VENDING,
        1000,
        "$ $",
        "all !",
        1,
        "Place: c c / Place: q a c / Place: q q a a / no more",
    ),
    (
        RIVER,
        1000,
        "crossing(left, left, left, left)",
        "cross ; cross",
        1,
        "Crossing: crossing(left, left, right, left) / Crossing: crossing(left, left, left, left) / no more",
    ),
];

#[test]
fn worked_rows(rt: HostRuntime) -> Result<(), Fail> {
    assert_rows(&rt, rt.alloc(), &WORKED)
}

#[test]
fn forms_of_strategies(rt: HostRuntime) -> Result<(), Fail> {
    assert_rows(&rt, rt.alloc(), &FORMS)
}

#[test]
fn runs_that_rest(rt: HostRuntime) -> Result<(), Fail> {
    assert_rows(&rt, rt.alloc(), &RESTING)
}
