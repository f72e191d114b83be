//! Statements in the numbers of a module that includes theirs.
ghost use Rattle.std.specs.Prelude.{◌≡◌, ◌<◌, length, get_or, IfOk, OnOk};
ghost use Rattle.mau_renumber.specs.Carried.{with_variable};

use mau_program::{Equation, Fragment, Membership, Rule};
use mau_terms::{Args, Bare, NoMemory, OpId, Seq, Text, VarId, Vars};
use std::alloc::Global;

/// The number at a place of a table; 0 where it has none.
pub(crate) fn number_at(table: &[u32], place: u32) -> u32
    ensures { result ≡ get_or table.now place 0 }
{
    match table.get(place as usize) {
        Some(number) => *number,
        None => 0,
    }
}

/// The numbers that sorts and kinds, and operators, have in another module.
#[derive(Drop)]
pub struct Tables {
    pub sorts: Vec<u32>,
    pub operators: Vec<u32>,
}

/// Adds a variable, with as many apostrophes behind its name as make it none of those that are there.
fn add_apart(alloc: Global, vars: &mut Vars, name: &str, sort: u32) -> Result<(), NoMemory>
    requires { length vars.old < 4294967295 }
    ensures { OnOk result (vars.new ≡ with_variable vars.old (name.now, sort)) }
{
    let before = vars.len();
    let mut text = String::from_str(alloc, name)?;
    for _count in 0..before + 1 {
        vars.add(text.as_str(), sort)?;
        if vars.len() > before {
            return Ok(());
        }
        text.push_str("'")?;
    }
    unreachable!()
}

impl Tables {
    ghost use Rattle.std.specs.Prelude.{◌≡◌, ◌<◌, ◌≤◌, [], length, map, get_or, IfOk, OnOk};
    ghost use Rattle.mau_terms.specs.View.{tree_of};
    ghost use Rattle.mau_renumber.specs.Tables.{sorts_in, numbers_in};
    ghost use Rattle.mau_renumber.specs.Carried.{carry, tree_to, term_to, fragment_to, equation_to, membership_to, rule_to, variables_to};

    /// The variables of a statement.
    pub(crate) fn variables(&self, alloc: Global, vars: &Vars) -> Result<Vars, NoMemory>
        requires few { length vars.now ≤ 4294967295 }
        ensures { IfOk result (λ found. found ≡ variables_to (sorts_in self.now) vars.now) }
    {
        let mut found = Vars::new(alloc);
        for index in 0..vars.len() as u32 {
            self.add_variable(alloc, vars, index, &mut found)?;
        }
        Ok(found)
    }

    /// Adds the variable with a number.
    fn add_variable(
        &self,
        alloc: Global,
        vars: &Vars,
        index: u32,
        found: &mut Vars,
    ) -> Result<(), NoMemory>
        requires there { index < length vars.now }
        requires room { length found.old < 4294967295 }
        ensures more { OnOk result (found.new ≡ carry (sorts_in self.now) found.old (get_or vars.now index ([], 0))) }
    {
        match vars.variable(index) {
            Some(variable) => match vars.get(variable) {
                Some((name, sort)) => {
                    add_apart(alloc, found, name, number_at(&self.sorts, sort))?;
                    Ok(())
                }
                None => unreachable!(),
            },
            None => unreachable!(),
        }
    }

    /// Some terms.
    #[cycle(term)]
    pub(crate) fn terms(&self, alloc: Global, terms: &[Bare]) -> Result<Vec<Bare>, NoMemory>
        ensures { IfOk result (λ found. map tree_of found.items ≡ map (tree_to (numbers_in self.now)) (map tree_of terms.now)) }
    {
        let mut found = Vec::with_capacity(alloc, terms.len())?;
        for term in terms {
            found.push(self.term(alloc, term)?)?;
        }
        Ok(found)
    }

    /// A term.
    #[cycle(term)]
    pub(crate) fn term(&self, alloc: Global, term: &Bare) -> Result<Bare, NoMemory>
        ensures term { IfOk result (λ found. found ≡ term_to (numbers_in self.now) term.now) }
        ensures tree { IfOk result (λ found. tree_of found ≡ tree_to (numbers_in self.now) (tree_of term.now)) }
    {
        match term {
            Bare::Var(variable) => Ok(Bare::Var(VarId {
                index: variable.index,
                sort: number_at(&self.sorts, variable.sort),
            })),
            Bare::Num(number) => Ok(Bare::Num(*number)),
            Bare::App(op, args) => {
                let args = self.terms(alloc, args.items())?;
                Ok(Bare::App(OpId(number_at(&self.operators, op.0)), Args::new(args)))
            }
        }
    }

    /// A fragment.
    fn fragment(&self, alloc: Global, fragment: &Fragment) -> Result<Fragment, NoMemory>
        ensures { IfOk result (λ found. found ≡ fragment_to (numbers_in self.now) fragment.now) }
    {
        match fragment {
            Fragment::Equal(t, u) => Ok(Fragment::Equal(
                self.term(alloc, t)?,
                self.term(alloc, u)?,
            )),
            Fragment::Match(p, u) => Ok(Fragment::Match(
                self.term(alloc, p)?,
                self.term(alloc, u)?,
            )),
            Fragment::Sort(t, sort) => Ok(Fragment::Sort(
                self.term(alloc, t)?,
                number_at(&self.sorts, *sort),
            )),
            Fragment::Reach(t, u) => Ok(Fragment::Reach(
                self.term(alloc, t)?,
                self.term(alloc, u)?,
            )),
        }
    }

    /// A condition.
    pub(crate) fn condition(
        &self,
        alloc: Global,
        condition: &[Fragment],
    ) -> Result<Seq<Fragment>, NoMemory>
        ensures { IfOk result (λ found. found ≡ map (fragment_to (numbers_in self.now)) condition.now) }
    {
        let mut found = Vec::with_capacity(alloc, condition.len())?;
        for fragment in condition {
            found.push(self.fragment(alloc, fragment)?)?;
        }
        Ok(Seq::new(found))
    }

    /// An equation.
    pub fn equation(&self, alloc: Global, equation: &Equation) -> Result<Equation, NoMemory>
        requires few { length equation.now.vars ≤ 4294967295 }
        ensures { IfOk result (λ found. found ≡ equation_to (numbers_in self.now) equation.now) }
    {
        Ok(Equation {
            left: self.term(alloc, &equation.left)?,
            right: self.term(alloc, &equation.right)?,
            cond: self.condition(alloc, equation.cond.items())?,
            owise: equation.owise,
            exec: equation.exec,
            vars: self.variables(alloc, &equation.vars)?,
        })
    }

    /// A membership.
    pub fn membership(&self, alloc: Global, membership: &Membership) -> Result<Membership, NoMemory>
        requires few { length membership.now.vars ≤ 4294967295 }
        ensures { IfOk result (λ found. found ≡ membership_to (numbers_in self.now) membership.now) }
    {
        Ok(Membership {
            left: self.term(alloc, &membership.left)?,
            sort: number_at(&self.sorts, membership.sort),
            cond: self.condition(alloc, membership.cond.items())?,
            exec: membership.exec,
            vars: self.variables(alloc, &membership.vars)?,
        })
    }

    /// A rule.
    pub fn rule(&self, alloc: Global, rule: &Rule) -> Result<Rule, NoMemory>
        requires few { length rule.now.vars ≤ 4294967295 }
        ensures { IfOk result (λ found. found ≡ rule_to (numbers_in self.now) rule.now) }
    {
        Ok(Rule {
            label: copy_label(alloc, &rule.label)?,
            left: self.term(alloc, &rule.left)?,
            right: self.term(alloc, &rule.right)?,
            cond: self.condition(alloc, rule.cond.items())?,
            exec: rule.exec,
            vars: self.variables(alloc, &rule.vars)?,
        })
    }
}

/// An equal label, if there is one.
fn copy_label(alloc: Global, label: &Option<Text>) -> Result<Option<Text>, NoMemory>
    ensures { IfOk result (λ copy. copy ≡ label.now) }
{
    match label {
        Some(label) => Ok(Some(label.copy(alloc)?)),
        None => Ok(None),
    }
}
