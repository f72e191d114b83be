//! What a native operator computes, and what it answers.

/// A formula over two numbers.
#[derive(Debug, Drop)]
pub enum Formula {
    /// The first argument for `false`, the second for `true`.
    Arg(bool),
    Lit(u128),
    Add(Box<Formula>, Box<Formula>),
    Mul(Box<Formula>, Box<Formula>),
    /// The difference, or 0 where the second part is greater.
    Monus(Box<Formula>, Box<Formula>),
    Quo(Box<Formula>, Box<Formula>),
    Rem(Box<Formula>, Box<Formula>),
    Gcd(Box<Formula>, Box<Formula>),
    Min(Box<Formula>, Box<Formula>),
    Max(Box<Formula>, Box<Formula>),
    Pow(Box<Formula>, Box<Formula>),
    /// The third part where the first is less than the second, else the fourth. The other of these two is not valued.
    IfLess(Box<Formula>, Box<Formula>, Box<Formula>, Box<Formula>),
}

/// What a native operator answers: a number, no value (the operator does not apply), or that the number is 2^128 or more.
#[derive(Clone, Copy, Debug, PartialEq, Eq)]
pub enum HookAnswer {
    Value(u128),
    NoValue,
    Overflow,
}

/// What an answer stands for: a number, or `false` and `true` as 0 and 1.
#[derive(Clone, Copy, Debug, PartialEq, Eq)]
pub enum Gives {
    Nat,
    Bool,
}
