//! A native operator.
ghost use Rattle.std.specs.Prelude.{◌≡◌, ℕ, ◌<◌, ◌^◌};
ghost use Rattle.mau_formula.specs.Expr.{value};
ghost use Rattle.mau_formula.specs.Value.{expr_of};
ghost use Rattle.mau_formula.specs.Operator.{StandsFor};
ghost use Rattle.mau_formula.specs.declared.formula.HookAnswer.{HookAnswer};

use crate::{Formula, Gives, HookAnswer};
use mau_terms::Text;

type Call = Box<dyn Fn(u128, u128) -> HookAnswer>;

/// A native operator: a closure, and the formula whose value it answers.
#[derive(Drop)]
pub struct Hook {
    name: Text,
    formula: Formula,
    gives: Gives,
    call: Call,
    ghost callable: { Call.IsAlwaysCallable call },
    ghost computes: { (a b : ℕ) (r : HookAnswer) → a < 2 ^ 128 → b < 2 ^ 128 → Call.post call a b r → r ≡ value (expr_of formula) a b },
    ghost stands: { (a b : ℕ) → a < 2 ^ 128 → b < 2 ^ 128 → StandsFor gives (value (expr_of formula) a b) },
}

impl Hook {
    ghost use Rattle.mau_formula.specs.Operators.{operator_of};

    /// A native operator of this name, whose closure answers the formula's value for all arguments. Where the answers stand
    /// for `false` and `true`, their values are 0 and 1 alone.
    pub fn new(name: Text, formula: Formula, gives: Gives, call: Call) -> Hook
        requires callable { Call.IsAlwaysCallable call }
        requires computes { (a b : ℕ) (r : HookAnswer) → a < 2 ^ 128 → b < 2 ^ 128 → Call.post call a b r → r ≡ value (expr_of formula) a b }
        requires stands { (a b : ℕ) → a < 2 ^ 128 → b < 2 ^ 128 → StandsFor gives (value (expr_of formula) a b) }
        ensures { operator_of result ≡ record { name = name; formula = expr_of formula; gives = gives } }
    {
        Hook {
            name,
            formula,
            gives,
            call,
        }
    }

    /// The formula's value at two arguments.
    pub fn call(&self, a: u128, b: u128) -> HookAnswer
        ensures value { result ≡ value (operator_of self.now).formula a b }
        ensures stands { StandsFor (operator_of self.now).gives result }
    {
        (self.call)(a, b)
    }

    /// Its name.
    pub fn name(&self) -> &str
        ensures { result.now ≡ (operator_of self.now).name }
    {
        self.name.as_str()
    }

    /// The formula that it computes.
    pub fn formula(&self) -> &Formula
        ensures { expr_of result.now ≡ (operator_of self.now).formula }
    {
        &self.formula
    }

    /// What its answers stand for.
    pub fn gives(&self) -> Gives
        ensures { result ≡ (operator_of self.now).gives }
    {
        self.gives
    }
}
