//! The native operators on numbers, with their names and formulas.
ghost use Rattle.std.specs.Prelude.{◌≡◌, true, false, IfOk};
ghost use Rattle.mau_formula.specs.declared.native.Native.TheVariants as Native;
ghost use Rattle.mau_formula.specs.Expr.{value, arg, lit, if_less};
ghost use Rattle.mau_formula.specs.Value.{expr_of};
ghost use Rattle.mau_formula.specs.Native.{name_of, formula_of, gives_of};

use crate::{Formula, Gives, HookAnswer, operators};
use mau_terms::NoMemory;
use std::alloc::Global;

/// A native operator on two numbers.
#[derive(Clone, Copy, Debug, PartialEq, Eq)]
pub enum Native {
    Sum,
    Product,
    /// The greater number less the smaller.
    Difference,
    Quotient,
    Remainder,
    Power,
    GreatestCommonDivisor,
    Minimum,
    Maximum,
    Less,
    LessOrEqual,
    Greater,
    GreaterOrEqual,
}

/// The first argument.
fn first(alloc: Global) -> Result<Box<Formula>, NoMemory>
    ensures { IfOk result (λ f. expr_of f.value ≡ arg false) }
{
    Ok(Box::new(alloc, Formula::Arg(false))?)
}

/// The second argument.
fn second(alloc: Global) -> Result<Box<Formula>, NoMemory>
    ensures { IfOk result (λ f. expr_of f.value ≡ arg true) }
{
    Ok(Box::new(alloc, Formula::Arg(true))?)
}

/// A number.
fn literal(alloc: Global, n: u128) -> Result<Box<Formula>, NoMemory>
    ensures { IfOk result (λ f. expr_of f.value ≡ lit n) }
{
    Ok(Box::new(alloc, Formula::Lit(n))?)
}

/// The greater argument less the smaller: one of the two differences is 0.
fn difference(alloc: Global) -> Result<Formula, NoMemory>
    ensures { IfOk result (λ f. expr_of f ≡ formula_of Native.Difference) }
{
    let forth = Formula::Monus(first(alloc)?, second(alloc)?);
    let back = Formula::Monus(second(alloc)?, first(alloc)?);
    Ok(Formula::Add(Box::new(alloc, forth)?, Box::new(alloc, back)?))
}

/// `then` where the first argument is less than the second, and else `otherwise`.
fn if_first_less(alloc: Global, then: u128, otherwise: u128) -> Result<Formula, NoMemory>
    ensures { IfOk result (λ f. expr_of f ≡ if_less (arg false) (arg true) (lit then) (lit otherwise)) }
{
    let then = literal(alloc, then)?;
    let otherwise = literal(alloc, otherwise)?;
    Ok(Formula::IfLess(first(alloc)?, second(alloc)?, then, otherwise))
}

/// `then` where the second argument is less than the first, and else `otherwise`.
fn if_second_less(alloc: Global, then: u128, otherwise: u128) -> Result<Formula, NoMemory>
    ensures { IfOk result (λ f. expr_of f ≡ if_less (arg true) (arg false) (lit then) (lit otherwise)) }
{
    let then = literal(alloc, then)?;
    let otherwise = literal(alloc, otherwise)?;
    Ok(Formula::IfLess(second(alloc)?, first(alloc)?, then, otherwise))
}

impl Native {
    /// Every native operator on numbers, each once.
    pub const ALL: [Native; 13] = [
        Native::Sum,
        Native::Product,
        Native::Difference,
        Native::Quotient,
        Native::Remainder,
        Native::Power,
        Native::GreatestCommonDivisor,
        Native::Minimum,
        Native::Maximum,
        Native::Less,
        Native::LessOrEqual,
        Native::Greater,
        Native::GreaterOrEqual,
    ];

    /// The name of its hook.
    pub fn name(self) -> &'static str
        ensures { result.now ≡ name_of self }
    {
        match self {
            Native::Sum => "nat-add",
            Native::Product => "nat-mul",
            Native::Difference => "nat-sd",
            Native::Quotient => "nat-quo",
            Native::Remainder => "nat-rem",
            Native::Power => "nat-pow",
            Native::GreatestCommonDivisor => "nat-gcd",
            Native::Minimum => "nat-min",
            Native::Maximum => "nat-max",
            Native::Less => "nat-lt",
            Native::LessOrEqual => "nat-le",
            Native::Greater => "nat-gt",
            Native::GreaterOrEqual => "nat-ge",
        }
    }

    /// What it computes.
    pub fn formula(self, alloc: Global) -> Result<Formula, NoMemory>
        ensures { IfOk result (λ f. expr_of f ≡ formula_of self) }
    {
        match self {
            Native::Sum => Ok(Formula::Add(first(alloc)?, second(alloc)?)),
            Native::Product => Ok(Formula::Mul(first(alloc)?, second(alloc)?)),
            Native::Difference => difference(alloc),
            Native::Quotient => Ok(Formula::Quo(first(alloc)?, second(alloc)?)),
            Native::Remainder => Ok(Formula::Rem(first(alloc)?, second(alloc)?)),
            Native::Power => Ok(Formula::Pow(first(alloc)?, second(alloc)?)),
            Native::GreatestCommonDivisor => Ok(Formula::Gcd(first(alloc)?, second(alloc)?)),
            Native::Minimum => Ok(Formula::Min(first(alloc)?, second(alloc)?)),
            Native::Maximum => Ok(Formula::Max(first(alloc)?, second(alloc)?)),
            Native::Less => if_first_less(alloc, 1, 0),
            Native::LessOrEqual => if_second_less(alloc, 0, 1),
            Native::Greater => if_second_less(alloc, 1, 0),
            Native::GreaterOrEqual => if_first_less(alloc, 0, 1),
        }
    }

    /// What its answers stand for.
    pub fn gives(self) -> Gives
        ensures { result ≡ gives_of self }
    {
        match self {
            Native::Less | Native::LessOrEqual | Native::Greater | Native::GreaterOrEqual => {
                Gives::Bool
            }
            _ => Gives::Nat,
        }
    }

    /// Its value at two arguments.
    pub fn call(self, a: u128, b: u128) -> HookAnswer
        ensures { result ≡ value (formula_of self) a b }
    {
        match self {
            Native::Sum => operators::sum(a, b),
            Native::Product => operators::product(a, b),
            Native::Difference => operators::difference(a, b),
            Native::Quotient => operators::quotient(a, b),
            Native::Remainder => operators::remainder(a, b),
            Native::Power => operators::power(a, b),
            Native::GreatestCommonDivisor => operators::greatest_common_divisor(a, b),
            Native::Minimum => operators::minimum(a, b),
            Native::Maximum => operators::maximum(a, b),
            Native::Less => operators::less(a, b),
            Native::LessOrEqual => operators::less_or_equal(a, b),
            Native::Greater => operators::greater(a, b),
            Native::GreaterOrEqual => operators::greater_or_equal(a, b),
        }
    }
}
