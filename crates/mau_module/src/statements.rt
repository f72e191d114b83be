//! Statements of a module, each kind in order, and the strategies that it declares.
use mau_program::{Equation, Membership, Rule, StratDecl, StratDef};
use mau_statement::Statement;
use mau_terms::NoMemory;
use std::alloc::Global;
use std::marker::Model;

/// A statement of a text: an equation, a membership or a rule; or a definition of a strategy.
#[derive(Drop)]
pub enum Stated {
    Statement(Statement),
    Definition(StratDef),
}

/// Statements, each kind in order, and declared strategies.
#[derive(Drop)]
pub struct Statements {
    pub equations: Vec<Equation>,
    pub memberships: Vec<Membership>,
    pub rules: Vec<Rule>,
    /// The definitions of strategies.
    pub strategies: Vec<StratDef>,
    /// The strategies that are declared.
    pub strats: Vec<StratDecl>,
}

impl Model for Statements {
    ghost use Rattle.std.specs.Coded.{codes};
    ghost use Rattle.mau_program.specs.contracts.statements.Equation as equation;
    ghost use Rattle.mau_program.specs.contracts.statements.Membership as membership;
    ghost use Rattle.mau_program.specs.contracts.statements.Rule as rule;
    ghost use Rattle.mau_program.specs.contracts.definitions.StratDef as definition;
    ghost use Rattle.mau_program.specs.contracts.definitions.StratDecl as strat;
    ghost use Rattle.mau_module.specs.Modules.{StatementsOf};

    ghost Value = { StatementsOf };

    ghost coded = { Prim.hlevel (codes, equation.the_row.coded, membership.the_row.coded, rule.the_row.coded, definition.the_row.coded, strat.the_row.coded) };

    ghost view = { λ s. record {
      equations = s.equations.items;
      memberships = s.memberships.items;
      rules = s.rules.items;
      strategies = s.strategies.items;
      strats = s.strats.items;
    } };
}

/// How many statements of each kind, and how many declared strategies.
#[derive(Clone, Copy, Drop, Debug)]
pub struct Counts {
    pub equations: usize,
    pub memberships: usize,
    pub rules: usize,
    pub strategies: usize,
    pub strats: usize,
}

impl Statements {
    ghost use Rattle.std.specs.Prelude.{◌≡◌, OnOk};
    ghost use Rattle.mau_module.specs.Modules.{no_statements, and_more};
    ghost use Rattle.mau_module.specs.Behind.{counts_of};
    ghost use Rattle.mau_module.specs.Stated.{with_one, with_statement};

    /// No statements.
    pub fn new(alloc: Global) -> Statements
        ensures { result ≡ no_statements }
    {
        Statements {
            equations: Vec::new(alloc),
            memberships: Vec::new(alloc),
            rules: Vec::new(alloc),
            strategies: Vec::new(alloc),
            strats: Vec::new(alloc),
        }
    }

    /// These equations alone.
    pub fn of_equations(alloc: Global, equations: Vec<Equation>) -> Statements
        ensures { result ≡ record no_statements { equations = equations.items } }
    {
        Statements {
            equations,
            memberships: Vec::new(alloc),
            rules: Vec::new(alloc),
            strategies: Vec::new(alloc),
            strats: Vec::new(alloc),
        }
    }

    /// No statements, and these declared strategies.
    pub fn of_strats(alloc: Global, strats: Vec<StratDecl>) -> Statements
        ensures { result ≡ record no_statements { strats = strats.items } }
    {
        Statements {
            equations: Vec::new(alloc),
            memberships: Vec::new(alloc),
            rules: Vec::new(alloc),
            strategies: Vec::new(alloc),
            strats,
        }
    }

    /// Adds an equation, a membership or a rule behind those of its kind.
    fn add_one(&mut self, statement: Statement) -> Result<(), NoMemory>
        ensures { OnOk result (self.new ≡ with_one self.old statement) }
    {
        match statement {
            Statement::Equation(equation) => self.equations.push(equation)?,
            Statement::Membership(membership) => self.memberships.push(membership)?,
            Statement::Rule(rule) => self.rules.push(rule)?,
        }
        Ok(())
    }

    /// Adds a statement behind those of its kind.
    pub fn add(&mut self, statement: Stated) -> Result<(), NoMemory>
        ensures { OnOk result (self.new ≡ with_statement self.old statement) }
    {
        match statement {
            Stated::Statement(statement) => self.add_one(statement),
            Stated::Definition(definition) => {
                self.strategies.push(definition)?;
                Ok(())
            }
        }
    }

    /// Adds other statements behind these.
    pub fn append(&mut self, mut more: Statements) -> Result<(), NoMemory>
        ensures { OnOk result (self.new ≡ and_more self.old more) }
    {
        self.equations.append(&mut more.equations)?;
        self.memberships.append(&mut more.memberships)?;
        self.rules.append(&mut more.rules)?;
        self.strategies.append(&mut more.strategies)?;
        self.strats.append(&mut more.strats)?;
        Ok(())
    }

    /// How many statements there are.
    pub fn counts(&self) -> Counts
        ensures { result ≡ counts_of self.now }
    {
        Counts {
            equations: self.equations.len(),
            memberships: self.memberships.len(),
            rules: self.rules.len(),
            strategies: self.strategies.len(),
            strats: self.strats.len(),
        }
    }
}
