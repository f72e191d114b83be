//! The native operators: their values on edges, their names, and a formula.
use mau_formula::{Formula, Gives, HookAnswer, Native};
use std::test::Fail;

const MAX: u128 = 340282366920938463463374607431768211455;

const HALF: u128 = 170141183460469231731687303715884105728;

/// Two arguments, and what is answered.
type Row = (Native, u128, u128, HookAnswer);

const ROWS: [Row; 61] = [
    (Native::Sum, 0, 0, HookAnswer::Value(0)),
    (Native::Sum, HALF, HALF - 1, HookAnswer::Value(MAX)),
    (Native::Sum, HALF, HALF, HookAnswer::Overflow),
    (Native::Sum, MAX, 0, HookAnswer::Value(MAX)),
    (Native::Sum, MAX, 1, HookAnswer::Overflow),
    (Native::Product, 0, MAX, HookAnswer::Value(0)),
    (Native::Product, 1, MAX, HookAnswer::Value(MAX)),
    (Native::Product, HALF, 2, HookAnswer::Overflow),
    (Native::Product, HALF - 1, 2, HookAnswer::Value(MAX - 1)),
    (
        Native::Product,
        18446744073709551616,
        18446744073709551616,
        HookAnswer::Overflow,
    ),
    (Native::Difference, 0, MAX, HookAnswer::Value(MAX)),
    (Native::Difference, MAX, 0, HookAnswer::Value(MAX)),
    (Native::Difference, HALF, HALF, HookAnswer::Value(0)),
    (Native::Difference, 3, 7, HookAnswer::Value(4)),
    (Native::Quotient, 7, 2, HookAnswer::Value(3)),
    (Native::Quotient, 0, 0, HookAnswer::NoValue),
    (Native::Quotient, MAX, 0, HookAnswer::NoValue),
    (Native::Quotient, MAX, 1, HookAnswer::Value(MAX)),
    (Native::Quotient, MAX, MAX, HookAnswer::Value(1)),
    (Native::Remainder, 7, 2, HookAnswer::Value(1)),
    (Native::Remainder, 0, 0, HookAnswer::NoValue),
    (Native::Remainder, MAX, 0, HookAnswer::NoValue),
    (Native::Remainder, MAX, HALF, HookAnswer::Value(HALF - 1)),
    (Native::Remainder, 5, MAX, HookAnswer::Value(5)),
    (Native::Power, 0, 0, HookAnswer::Value(1)),
    (Native::Power, MAX, 0, HookAnswer::Value(1)),
    (Native::Power, 0, MAX, HookAnswer::Value(0)),
    (Native::Power, 1, MAX, HookAnswer::Value(1)),
    (Native::Power, MAX, 1, HookAnswer::Value(MAX)),
    (Native::Power, MAX, 2, HookAnswer::Overflow),
    (Native::Power, 2, 127, HookAnswer::Value(HALF)),
    (Native::Power, 2, 128, HookAnswer::Overflow),
    (Native::Power, 2, 4294967296, HookAnswer::Overflow),
    (
        Native::Power,
        3,
        80,
        HookAnswer::Value(147808829414345923316083210206383297601),
    ),
    (Native::Power, 3, 81, HookAnswer::Overflow),
    (
        Native::Power,
        18446744073709551615,
        2,
        HookAnswer::Value(340282366920938463426481119284349108225),
    ),
    (Native::Power, 18446744073709551616, 2, HookAnswer::Overflow),
    (Native::GreatestCommonDivisor, 0, 0, HookAnswer::Value(0)),
    (Native::GreatestCommonDivisor, 0, 5, HookAnswer::Value(5)),
    (Native::GreatestCommonDivisor, 5, 0, HookAnswer::Value(5)),
    (Native::GreatestCommonDivisor, 12, 18, HookAnswer::Value(6)),
    (
        Native::GreatestCommonDivisor,
        MAX,
        HALF,
        HookAnswer::Value(1),
    ),
    (
        Native::GreatestCommonDivisor,
        MAX,
        MAX,
        HookAnswer::Value(MAX),
    ),
    (Native::Minimum, 0, MAX, HookAnswer::Value(0)),
    (Native::Minimum, HALF, HALF - 1, HookAnswer::Value(HALF - 1)),
    (Native::Maximum, 0, MAX, HookAnswer::Value(MAX)),
    (Native::Maximum, HALF, HALF - 1, HookAnswer::Value(HALF)),
    (Native::Less, 0, 1, HookAnswer::Value(1)),
    (Native::Less, 1, 1, HookAnswer::Value(0)),
    (Native::Less, MAX, HALF, HookAnswer::Value(0)),
    (Native::LessOrEqual, 0, 1, HookAnswer::Value(1)),
    (Native::LessOrEqual, 1, 1, HookAnswer::Value(1)),
    (Native::LessOrEqual, MAX, HALF, HookAnswer::Value(0)),
    (Native::Greater, 0, 1, HookAnswer::Value(0)),
    (Native::Greater, 1, 1, HookAnswer::Value(0)),
    (Native::Greater, MAX, HALF, HookAnswer::Value(1)),
    (Native::GreaterOrEqual, 0, 1, HookAnswer::Value(0)),
    (Native::GreaterOrEqual, 1, 1, HookAnswer::Value(1)),
    (Native::GreaterOrEqual, MAX, HALF, HookAnswer::Value(1)),
    (Native::Minimum, 0, 0, HookAnswer::Value(0)),
    (Native::Maximum, 0, 0, HookAnswer::Value(0)),
];

const NAMES: [(Native, &str, Gives); 13] = [
    (Native::Sum, "nat-add", Gives::Nat),
    (Native::Product, "nat-mul", Gives::Nat),
    (Native::Difference, "nat-sd", Gives::Nat),
    (Native::Quotient, "nat-quo", Gives::Nat),
    (Native::Remainder, "nat-rem", Gives::Nat),
    (Native::Power, "nat-pow", Gives::Nat),
    (Native::GreatestCommonDivisor, "nat-gcd", Gives::Nat),
    (Native::Minimum, "nat-min", Gives::Nat),
    (Native::Maximum, "nat-max", Gives::Nat),
    (Native::Less, "nat-lt", Gives::Bool),
    (Native::LessOrEqual, "nat-le", Gives::Bool),
    (Native::Greater, "nat-gt", Gives::Bool),
    (Native::GreaterOrEqual, "nat-ge", Gives::Bool),
];

#[test]
fn each_operator_has_its_values_on_edges(rt: HostRuntime) {
    for (native, a, b, answer) in ROWS {
        assert_eq!(rt; native.call(a, b), answer, "{a} {b}");
    }
}

#[test]
fn each_operator_has_its_name(rt: HostRuntime) {
    for (native, name, gives) in NAMES {
        assert_eq!(rt; native.name(), name);
        assert_eq!(rt; native.gives(), gives);
    }
    assert_eq!(rt; Native::ALL.len(), NAMES.len());
}

#[test]
fn a_formula_is_written_out(rt: HostRuntime) -> Result<(), Fail> {
    let formula = Native::LessOrEqual.formula(rt.alloc())?;
    match &formula {
        Formula::IfLess(a, b, then, otherwise) => {
            assert!(rt; matches!(&**a, Formula::Arg(true)));
            assert!(rt; matches!(&**b, Formula::Arg(false)));
            assert!(rt; matches!(&**then, Formula::Lit(0)));
            assert!(rt; matches!(&**otherwise, Formula::Lit(1)));
        }
        _ => assert!(rt; false),
    }
    Ok(())
}
