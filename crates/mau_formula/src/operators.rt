//! The native operators on numbers. Each answers the value of its formula, and `Overflow` exactly where a whole-number result
//! is 2^128 or more.
ghost use Rattle.std.specs.Prelude.{◌≡◌, ℕ, ◌^◌, ◌<◌, if◌then◌else◌};
ghost use Rattle.std.specs.Int.{IsGcd};
ghost use Rattle.std.specs.Option.{SomeIff};
ghost use Rattle.mau_formula.specs.Expr.{value, fitting};
ghost use Rattle.mau_formula.specs.Native.{formula_of};
ghost use Rattle.mau_formula.specs.declared.native.Native.TheVariants as Native;

use crate::HookAnswer;
use crate::divisor::gcd;
use crate::powers::checked_power;

/// The number, or that it is too large.
fn answer(number: Option<u128>) -> HookAnswer
    ensures { (n : ℕ) → SomeIff number (n < 2 ^ 128) n → result ≡ fitting n }
{
    match number {
        Some(n) => HookAnswer::Value(n),
        None => HookAnswer::Overflow,
    }
}

/// 1 for true, 0 for false.
fn truth(holds: bool) -> HookAnswer
    ensures { result ≡ (if holds then HookAnswer.Value 1 else HookAnswer.Value 0) }
{
    if holds {
        HookAnswer::Value(1)
    } else {
        HookAnswer::Value(0)
    }
}

/// `a + b`.
pub fn sum(a: u128, b: u128) -> HookAnswer
    ensures { result ≡ value (formula_of Native.Sum) a b }
{
    answer(a.checked_add(b))
}

/// `a * b`.
pub fn product(a: u128, b: u128) -> HookAnswer
    ensures { result ≡ value (formula_of Native.Product) a b }
{
    answer(a.checked_mul(b))
}

/// The greater of `a` and `b` less the smaller.
pub fn difference(a: u128, b: u128) -> HookAnswer
    ensures { result ≡ value (formula_of Native.Difference) a b }
{
    HookAnswer::Value(a.abs_diff(b))
}

/// How many times `b` goes into `a`; no value where `b` is 0.
pub fn quotient(a: u128, b: u128) -> HookAnswer
    ensures { result ≡ value (formula_of Native.Quotient) a b }
{
    if b == 0 {
        HookAnswer::NoValue
    } else {
        HookAnswer::Value(a / b)
    }
}

/// What is left of `a` then; no value where `b` is 0.
pub fn remainder(a: u128, b: u128) -> HookAnswer
    ensures { result ≡ value (formula_of Native.Remainder) a b }
{
    if b == 0 {
        HookAnswer::NoValue
    } else {
        HookAnswer::Value(a % b)
    }
}

/// `a` to the power `b`; 1 where `b` is 0.
pub fn power(a: u128, b: u128) -> HookAnswer
    ensures { result ≡ value (formula_of Native.Power) a b }
{
    answer(checked_power(a, b))
}

/// The greatest number that divides both; 0 of 0 and 0. Each number that divides both divides it.
pub fn greatest_common_divisor(a: u128, b: u128) -> HookAnswer
    ensures value { result ≡ value (formula_of Native.GreatestCommonDivisor) a b }
    ensures divisor { (g : ℕ) → result ≡ HookAnswer.Value g → IsGcd a b g }
{
    HookAnswer::Value(gcd(a, b))
}

/// The smaller of the two.
pub fn minimum(a: u128, b: u128) -> HookAnswer
    ensures { result ≡ value (formula_of Native.Minimum) a b }
{
    HookAnswer::Value(a.min(b))
}

/// The greater of the two.
pub fn maximum(a: u128, b: u128) -> HookAnswer
    ensures { result ≡ value (formula_of Native.Maximum) a b }
{
    HookAnswer::Value(a.max(b))
}

/// Whether `a` is less than `b`, as 1 or 0.
pub fn less(a: u128, b: u128) -> HookAnswer
    ensures { result ≡ value (formula_of Native.Less) a b }
{
    truth(a < b)
}

/// Whether `a` is at most `b`, as 1 or 0.
pub fn less_or_equal(a: u128, b: u128) -> HookAnswer
    ensures { result ≡ value (formula_of Native.LessOrEqual) a b }
{
    truth(a <= b)
}

/// Whether `a` is greater than `b`, as 1 or 0.
pub fn greater(a: u128, b: u128) -> HookAnswer
    ensures { result ≡ value (formula_of Native.Greater) a b }
{
    truth(a > b)
}

/// Whether `a` is at least `b`, as 1 or 0.
pub fn greater_or_equal(a: u128, b: u128) -> HookAnswer
    ensures { result ≡ value (formula_of Native.GreaterOrEqual) a b }
{
    truth(a >= b)
}
