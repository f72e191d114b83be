//! Steps of a run.
ghost use Rattle.std.specs.Prelude.{◌≡◌, IfOk};

use mau_terms::{Bare, Duplicate, NoMemory, OpId, Seq, TermId, VarId};
use std::alloc::Global;

/// What was applied. Equations and rules are counted from 1, as they are shown.
#[derive(Drop, Debug)]
pub enum Statement {
    Equation(u32),
    Rule(u32),
    /// The built-in of an operator.
    BuiltIn(OpId),
    /// A pattern, whose variables in the list had results of strategies in the place of their values.
    Parts(Bare, Seq<VarId>),
}

/// Where an evaluation or a pass begins: the whole of the term at hand; an argument or list element of it, counted from 0; or a
/// fragment, counted from 0, and its side, 0 or 1.
#[derive(Clone, Copy, Debug, PartialEq, Eq)]
pub enum Place {
    Whole,
    Argument(u32),
    Fragment(u32, u32),
}

/// One use of a statement. The context has the hole once, the variable with the index 2^32 - 1 whose sort is a kind: with `before` in it
/// it is the term at which the step is made, and with `after` the next one. The values are those of the statement's variables, by first
/// occurrence in left side, condition and right side, and none for a built-in.
///
/// `inner` has the paths of steps by which rewriting fragments, or the parts of a pattern, were solved by strategies, one path after the
/// other. It is empty for all other steps.
#[derive(Drop, Debug)]
pub struct Step {
    pub statement: Statement,
    pub context: Bare,
    pub values: Seq<TermId>,
    pub before: TermId,
    pub after: TermId,
    pub inner: Seq<Inner>,
}

/// A part of the paths within a step: a path stands between `Begins` and `Ends`, and the paths within a step of it follow that step.
#[derive(Drop, Debug)]
pub enum Inner {
    Begins,
    /// A step, with what a `Step` has, in this order.
    Made(Statement, Bare, Seq<TermId>, TermId, TermId),
    Ends,
}

impl Statement {
    /// An equal statement.
    pub fn copy(&self, alloc: Global) -> Result<Statement, NoMemory>
        ensures { IfOk result (λ copy. copy ≡ self.now) }
    {
        match self {
            Statement::Equation(number) => Ok(Statement::Equation(*number)),
            Statement::Rule(number) => Ok(Statement::Rule(*number)),
            Statement::BuiltIn(op) => Ok(Statement::BuiltIn(*op)),
            Statement::Parts(pattern, parts) => Ok(Statement::Parts(
                pattern.copy(alloc)?,
                parts.copy(alloc)?,
            )),
        }
    }
}

impl Inner {
    /// An equal part.
    pub fn copy(&self, alloc: Global) -> Result<Inner, NoMemory>
        ensures { IfOk result (λ copy. copy ≡ self.now) }
    {
        match self {
            Inner::Begins => Ok(Inner::Begins),
            Inner::Made(statement, context, values, before, after) => {
                let statement = statement.copy(alloc)?;
                Ok(Inner::Made(
                    statement,
                    context.copy(alloc)?,
                    values.copy(alloc)?,
                    *before,
                    *after,
                ))
            }
            Inner::Ends => Ok(Inner::Ends),
        }
    }
}

impl Step {
    /// An equal step.
    pub fn copy(&self, alloc: Global) -> Result<Step, NoMemory>
        ensures { IfOk result (λ copy. copy ≡ self.now) }
    {
        Ok(Step {
            statement: self.statement.copy(alloc)?,
            context: self.context.copy(alloc)?,
            values: self.values.copy(alloc)?,
            before: self.before,
            after: self.after,
            inner: self.inner.copy(alloc)?,
        })
    }
}

impl Duplicate for Statement {
    fn copy(&self, alloc: Global) -> Result<Statement, NoMemory> {
        self.copy(alloc)
    }
}

impl Duplicate for Inner {
    fn copy(&self, alloc: Global) -> Result<Inner, NoMemory> {
        self.copy(alloc)
    }
}

impl Duplicate for Step {
    fn copy(&self, alloc: Global) -> Result<Step, NoMemory> {
        self.copy(alloc)
    }
}
