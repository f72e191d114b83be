//! Rows with small budgets, of configurations and of evaluations.
use crate::modules::{LONG, VENDING};
use crate::rows::{Row, assert_rows};
use std::test::Fail;

const BUDGETS: [Row; 12] = [
    (VENDING, 1, "$ $", "idle *", 9, "stopped"),
    (VENDING, 2, "$ $", "idle *", 9, "Place: $ $ / stopped"),
    (VENDING, 3, "$ $", "idle *", 9, "Place: $ $ / no more"),
    (VENDING, 2, "$ $", "all", 9, "Place: $ c / stopped"),
    (
        VENDING,
        3,
        "$ $",
        "all",
        9,
        "Place: $ c / Place: $ q a / no more",
    ),
    (VENDING, 3, "$ $", "buy-c ; buy-a", 9, "stopped"),
    (
        VENDING,
        4,
        "$ $",
        "buy-c ; buy-a",
        9,
        "Place: q a c / no more",
    ),
    (
        VENDING,
        5,
        "$ $",
        "all *",
        1,
        "Place: $ $ / Place: $ c / stopped",
    ),
    (LONG, 5, "a", "r", 9, "stopped"),
    (LONG, 6, "a", "r", 9, "T: h / no more"),
    (LONG, 5, "a", "idle | r", 1, "T: a / stopped"),
    (LONG, 6, "a", "idle | r", 1, "T: a / T: h / no more"),
];

#[test]
fn small_budgets(rt: HostRuntime) -> Result<(), Fail> {
    assert_rows(&rt, rt.alloc(), &BUDGETS)
}
