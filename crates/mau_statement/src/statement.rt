//! Statements, and what each kind of them has.
ghost use Rattle.std.specs.Prelude.{◌≡◌, length};
ghost use Rattle.mau_statement.specs.Statements.{variables_of, is_executable};

use mau_program::{Equation, Membership, Rule};

/// A statement of a module.
#[derive(Drop)]
pub enum Statement {
    Equation(Equation),
    Membership(Membership),
    Rule(Rule),
}

impl Statement {
    /// How many variables it has.
    pub fn variable_count(&self) -> usize
        ensures { result ≡ length (variables_of self.now) }
    {
        match self {
            Statement::Equation(equation) => equation.vars.len(),
            Statement::Membership(membership) => membership.vars.len(),
            Statement::Rule(rule) => rule.vars.len(),
        }
    }

    /// Whether it may be used to evaluate.
    pub fn is_executable(&self) -> bool
        ensures { result ≡ is_executable self.now }
    {
        match self {
            Statement::Equation(equation) => equation.exec,
            Statement::Membership(membership) => membership.exec,
            Statement::Rule(rule) => rule.exec,
        }
    }
}
