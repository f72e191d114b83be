//! Strategies, and their declarations and definitions, in the numbers of a module that includes theirs.
use crate::carry::{Tables, number_at};
use mau_program::{Assign, PartUse, StratDecl, StratDef, Strategy, StrategyForm};
use mau_terms::{Args, NoMemory, Seq, VarId};
use std::alloc::Global;

impl Tables {
    ghost use Rattle.std.specs.Prelude.{◌≡◌, ◌≤◌, length, map, IfOk};
    ghost use Rattle.mau_program.specs.Strategies.{strategy_of, strategies_of, uses_of};
    ghost use Rattle.mau_renumber.specs.Tables.{numbers_in};
    ghost use Rattle.mau_renumber.specs.Carried.{tree_to};
    ghost use Rattle.mau_renumber.specs.Parts.{part_to};
    ghost use Rattle.mau_renumber.specs.Strategies.{assign_to, strategy_to, strategies_to, uses_to, definition_to, strategy_declaration_to};

    /// Arguments.
    fn arguments(&self, alloc: Global, args: &Args) -> Result<Args, NoMemory>
        ensures { IfOk result (λ found. found ≡ map (tree_to (numbers_in self.now)) args.now) }
    {
        let found = self.terms(alloc, args.items())?;
        Ok(Args::new(found))
    }

    /// An assignment.
    fn assign(&self, alloc: Global, assign: &Assign) -> Result<Assign, NoMemory>
        ensures { IfOk result (λ found. found ≡ assign_to (numbers_in self.now) assign.now) }
    {
        Ok(Assign {
            name: assign.name.copy(alloc)?,
            sort: number_at(&self.sorts, assign.sort),
            value: self.term(alloc, &assign.value)?,
        })
    }

    /// Some assignments.
    fn assigns(&self, alloc: Global, assigns: &Seq<Assign>) -> Result<Seq<Assign>, NoMemory>
        ensures { IfOk result (λ found. found ≡ map (assign_to (numbers_in self.now)) assigns.now) }
    {
        let assigns = assigns.items();
        let mut found = Vec::with_capacity(alloc, assigns.len())?;
        for assign in assigns {
            found.push(self.assign(alloc, assign)?)?;
        }
        Ok(Seq::new(found))
    }

    /// A strategy in a box.
    #[cycle(strategy)]
    fn boxed(&self, alloc: Global, strategy: &Box<Strategy>) -> Result<Box<Strategy>, NoMemory>
        ensures { IfOk result (λ found. found.value ≡ strategy_to (numbers_in self.now) strategy.now.value) }
    {
        let found = self.strategy(alloc, strategy)?;
        Ok(Box::new(alloc, found)?)
    }

    /// Some strategies.
    #[cycle(strategy)]
    fn strategies(&self, alloc: Global, strategies: &[Strategy]) -> Result<Vec<Strategy>, NoMemory>
        ensures { IfOk result (λ found. strategies_of found.items ≡ strategies_to (numbers_in self.now) (strategies_of strategies.now)) }
    {
        let mut found = Vec::with_capacity(alloc, strategies.len())?;
        for strategy in strategies {
            found.push(self.strategy(alloc, strategy)?)?;
        }
        Ok(found)
    }

    /// A variable and its strategy.
    #[cycle(strategy)]
    fn part(&self, alloc: Global, part: &PartUse) -> Result<PartUse, NoMemory>
        ensures { IfOk result (λ found. found ≡ part_to (numbers_in self.now) part.now) }
    {
        let strategy = self.strategy(alloc, &part.strategy)?;
        Ok(PartUse {
            var: VarId {
                index: part.var.index,
                sort: number_at(&self.sorts, part.var.sort),
            },
            strategy,
        })
    }

    /// Some variables and their strategies.
    #[cycle(strategy)]
    fn parts(&self, alloc: Global, parts: &[PartUse]) -> Result<Vec<PartUse>, NoMemory>
        ensures { IfOk result (λ found. uses_of found.items ≡ uses_to (numbers_in self.now) (uses_of parts.now)) }
    {
        let mut found = Vec::with_capacity(alloc, parts.len())?;
        for part in parts {
            found.push(self.part(alloc, part)?)?;
        }
        Ok(found)
    }

    /// A strategy.
    #[cycle(strategy)]
    fn strategy(&self, alloc: Global, strategy: &Strategy) -> Result<Strategy, NoMemory>
        ensures { IfOk result (λ found. found ≡ strategy_to (numbers_in self.now) strategy.now) }
    {
        let form = self.form(alloc, strategy.form())?;
        Ok(Strategy::new(form))
    }

    /// A form of a strategy.
    #[cycle(strategy)]
    fn form(&self, alloc: Global, form: &StrategyForm) -> Result<StrategyForm, NoMemory>
        ensures { IfOk result (λ found. strategy_of found ≡ strategy_to (numbers_in self.now) (strategy_of form.now)) }
    {
        match form {
            StrategyForm::Idle => Ok(StrategyForm::Idle),
            StrategyForm::Fail => Ok(StrategyForm::Fail),
            StrategyForm::All => Ok(StrategyForm::All),
            StrategyForm::Label(label, assigns) => Ok(StrategyForm::Label(
                label.copy(alloc)?,
                self.assigns(alloc, assigns)?,
            )),
            StrategyForm::Top(s) => Ok(StrategyForm::Top(self.boxed(alloc, s)?)),
            StrategyForm::Call(name, args) => Ok(StrategyForm::Call(
                name.copy(alloc)?,
                self.arguments(alloc, args)?,
            )),
            StrategyForm::Test(kind, pattern, cond) => Ok(StrategyForm::Test(
                *kind,
                self.term(alloc, pattern)?,
                self.condition(alloc, cond.items())?,
            )),
            StrategyForm::Star(s) => Ok(StrategyForm::Star(self.boxed(alloc, s)?)),
            StrategyForm::Plus(s) => Ok(StrategyForm::Plus(self.boxed(alloc, s)?)),
            StrategyForm::Normal(s) => Ok(StrategyForm::Normal(self.boxed(alloc, s)?)),
            StrategyForm::Then(s, t) => Ok(StrategyForm::Then(
                self.boxed(alloc, s)?,
                self.boxed(alloc, t)?,
            )),
            StrategyForm::Or(s, t) => Ok(StrategyForm::Or(
                self.boxed(alloc, s)?,
                self.boxed(alloc, t)?,
            )),
            StrategyForm::OrElse(s, t) => Ok(StrategyForm::OrElse(
                self.boxed(alloc, s)?,
                self.boxed(alloc, t)?,
            )),
            StrategyForm::If(s, t, u) => Ok(StrategyForm::If(
                self.boxed(alloc, s)?,
                self.boxed(alloc, t)?,
                self.boxed(alloc, u)?,
            )),
            StrategyForm::Not(s) => Ok(StrategyForm::Not(self.boxed(alloc, s)?)),
            StrategyForm::Try(s) => Ok(StrategyForm::Try(self.boxed(alloc, s)?)),
            StrategyForm::TestOf(s) => Ok(StrategyForm::TestOf(self.boxed(alloc, s)?)),
            StrategyForm::PartRewrite(kind, pattern, cond, uses) => Ok(StrategyForm::PartRewrite(
                *kind,
                self.term(alloc, pattern)?,
                self.condition(alloc, cond.items())?,
                self.parts(alloc, uses)?,
            )),
            StrategyForm::LabelBy(label, assigns, strategies) => Ok(StrategyForm::LabelBy(
                label.copy(alloc)?,
                self.assigns(alloc, assigns)?,
                self.strategies(alloc, strategies)?,
            )),
        }
    }

    /// A definition of a strategy.
    pub fn definition(&self, alloc: Global, definition: &StratDef) -> Result<StratDef, NoMemory>
        requires few { length definition.now.vars ≤ 4294967295 }
        ensures { IfOk result (λ found. found ≡ definition_to (numbers_in self.now) definition.now) }
    {
        Ok(StratDef {
            name: definition.name.copy(alloc)?,
            args: self.arguments(alloc, &definition.args)?,
            body: self.strategy(alloc, &definition.body)?,
            cond: self.condition(alloc, definition.cond.items())?,
            vars: self.variables(alloc, &definition.vars)?,
        })
    }

    /// A declaration of a strategy.
    pub fn strategy_declaration(
        &self,
        alloc: Global,
        decl: &StratDecl,
    ) -> Result<StratDecl, NoMemory>
        ensures { IfOk result (λ found. found ≡ strategy_declaration_to (numbers_in self.now) decl.now) }
    {
        let mut args = Vec::with_capacity(alloc, decl.args.items().len())?;
        for arg in decl.args.items() {
            args.push(number_at(&self.sorts, *arg))?;
        }
        Ok(StratDecl {
            name: decl.name.copy(alloc)?,
            args: Seq::new(args),
            sort: number_at(&self.sorts, decl.sort),
        })
    }
}
