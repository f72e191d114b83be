//! Strategies that a module declares and defines.
ghost use Rattle.std.specs.Prelude.{◌≡◌, ◌<◌, ◌+◌, length, take, IfOk, OnOk};

use crate::{Fragment, Strategy};
use mau_terms::{Args, Duplicate, NoMemory, Seq, Text, Vars};
use std::alloc::Global;

/// A strategy that is declared: its name, the sorts of its arguments, and the sort of the terms that it is for.
#[derive(Drop)]
pub struct StratDecl {
    pub name: Text,
    pub args: Seq<u32>,
    pub sort: u32,
}

/// A definition of a strategy: where its arguments match these and the condition holds, a call has the results of the body. The variables
/// are those of its terms, in the order in which they are read.
#[derive(Drop)]
pub struct StratDef {
    pub name: Text,
    pub args: Args,
    pub body: Strategy,
    pub cond: Seq<Fragment>,
    pub vars: Vars,
}

impl StratDecl {
    /// An equal declaration.
    pub fn copy(&self, alloc: Global) -> Result<StratDecl, NoMemory>
        ensures { IfOk result (λ copy. copy ≡ self.now) }
    {
        Ok(StratDecl {
            name: self.name.copy(alloc)?,
            args: self.args.copy(alloc)?,
            sort: self.sort,
        })
    }
}

impl Duplicate for StratDecl {
    fn copy(&self, alloc: Global) -> Result<StratDecl, NoMemory> {
        self.copy(alloc)
    }
}

/// The greatest number of variables that are numbered.
const MAX_VARIABLES: usize = 4_294_967_295;

/// Equal variables. More than can be numbered don't fit into memory.
fn copy_variables(alloc: Global, vars: &Vars) -> Result<Vars, NoMemory>
    ensures { IfOk result (λ copy. copy ≡ vars.now) }
{
    let mut copy = Vars::new(alloc);
    if vars.len() >= MAX_VARIABLES {
        return Err(NoMemory);
    }
    for index in 0..vars.len() as u32 {
        copy_variable(vars, index, &mut copy)?;
    }
    Ok(copy)
}

/// Adds the variable with a number, of which those before it are there.
fn copy_variable(vars: &Vars, index: u32, copy: &mut Vars) -> Result<(), NoMemory>
    requires there { index < length vars.now }
    requires room { length copy.old < 4294967295 }
    requires before { copy.old ≡ take index vars.now }
    ensures more { OnOk result (copy.new ≡ take (index + 1) vars.now) }
{
    match vars.variable(index) {
        Some(variable) => match vars.get(variable) {
            Some((name, sort)) => {
                copy.add(name, sort)?;
                Ok(())
            }
            None => unreachable!(),
        },
        None => unreachable!(),
    }
}

impl StratDef {
    /// An equal definition.
    pub fn copy(&self, alloc: Global) -> Result<StratDef, NoMemory>
        ensures { IfOk result (λ copy. copy ≡ self.now) }
    {
        Ok(StratDef {
            name: self.name.copy(alloc)?,
            args: self.args.copy(alloc)?,
            body: self.body.copy(alloc)?,
            cond: self.cond.copy(alloc)?,
            vars: copy_variables(alloc, &self.vars)?,
        })
    }
}

impl Duplicate for StratDef {
    fn copy(&self, alloc: Global) -> Result<StratDef, NoMemory> {
        self.copy(alloc)
    }
}
