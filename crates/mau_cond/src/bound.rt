//! Variables with their values.
ghost use Rattle.std.specs.Prelude.{◌≡◌, ◌++◌, ◌∷◌, ◌≤◌, [], length, map, take, IfOk, OnOk, OnErr};
ghost use Rattle.std.specs.List.{zip};
ghost use Rattle.mau_store.specs.View.{numbers};
ghost use Rattle.mau_cond.specs.Bound.{is_bound, extended};

use mau_terms::{NoMemory, TermId, VarId};
use std::alloc::Global;
use std::marker::Model;

/// Variables with their values, in the order in which they got them; seen as pairs.
#[derive(Drop)]
pub struct Bound {
    variables: Vec<VarId>,
    values: Vec<TermId>,
}

impl Model for Bound {
    ghost use Rattle.std.specs.Prelude.{◌≡◌, List, length};
    ghost use Rattle.std.specs.List.{zip};
    ghost use Rattle.mau_terms.specs.declared.ids.VarId.{VarId};
    ghost use Rattle.mau_terms.specs.declared.ids.TermId.{TermId};

    ghost Value = { List (VarId × TermId) };

    ghost view = { λ b. zip b.variables.items b.values.items };

    ghost invariant = { λ b. length b.variables.items ≡ length b.values.items };
}

impl Bound {
    /// No variable has a value.
    pub fn new(alloc: Global) -> Bound
        ensures { result ≡ [] }
    {
        Bound {
            variables: Vec::new(alloc),
            values: Vec::new(alloc),
        }
    }

    /// The same once more.
    pub fn copy(&self, alloc: Global) -> Result<Bound, NoMemory>
        ensures { IfOk result (λ b. b ≡ self.now) }
    {
        Ok(Bound {
            variables: Vec::from_slice(alloc, &self.variables)?,
            values: Vec::from_slice(alloc, &self.values)?,
        })
    }

    /// Variables with the values in their places.
    pub fn from_parts(variables: Vec<VarId>, values: Vec<TermId>) -> Bound
        requires { length variables.items ≡ length values.items }
        ensures { result ≡ zip variables.items values.items }
    {
        Bound { variables, values }
    }

    /// The variables and their values.
    pub fn into_parts(self) -> (Vec<VarId>, Vec<TermId>)
        ensures pairs { zip result.0.items result.1.items ≡ self }
        ensures one_each { length result.0.items ≡ length result.1.items }
    {
        (self.variables, self.values)
    }

    /// How many variables there are.
    pub fn len(&self) -> usize
        ensures { result ≡ length self.now }
    {
        self.variables.len()
    }

    /// The variables.
    pub fn variables(&self) -> &[VarId]
        ensures { result.now ≡ map (λ b. b.0) self.now }
    {
        &self.variables
    }

    /// Their values.
    pub fn values(&self) -> &[TermId]
        ensures { result.now ≡ map (λ b. b.1) self.now }
    {
        &self.values
    }

    /// The first variables alone.
    pub fn keep(&mut self, count: usize)
        ensures { self.new ≡ take count self.old }
    {
        self.variables.truncate(count);
        self.values.truncate(count);
    }

    /// One more.
    pub fn push(&mut self, variable: VarId, value: TermId) -> Result<(), NoMemory>
        ensures more { OnOk result (self.new ≡ self.old ++ (variable, value) ∷ []) }
        ensures unchanged { OnErr result (self.new ≡ self.old) }
    {
        match self.variables.push(variable) {
            Ok(()) => match self.values.push(value) {
                Ok(()) => Ok(()),
                Err(_) => {
                    self.variables.pop();
                    Err(NoMemory)
                }
            },
            Err(_) => Err(NoMemory),
        }
    }

    /// Whether a variable has a value.
    pub fn binds(&self, variable: VarId) -> bool
        ensures { result ≡ is_bound self.now variable }
    {
        self.variables.contains(&variable)
    }

    /// Those of some variables that have no value yet get theirs.
    pub fn extend(&mut self, told: &[(VarId, TermId)]) -> Result<(), NoMemory>
        ensures more { OnOk result (self.new ≡ extended self.old told.now) }
        ensures unchanged { OnErr result (self.new ≡ self.old) }
    {
        let before = self.len();
        for pair in told {
            if self.binds(pair.0) {
                continue;
            }
            match self.push(pair.0, pair.1) {
                Ok(()) => (),
                Err(end) => {
                    self.keep(before);
                    return Err(end);
                }
            }
        }
        Ok(())
    }

    /// All pairs.
    pub fn pairs(&self, alloc: Global) -> Result<Vec<(VarId, TermId)>, NoMemory>
        ensures { IfOk result (λ pairs. pairs.items ≡ self.now) }
    {
        let mut pairs = Vec::with_capacity(alloc, self.variables.len())?;
        for index in 0..self.variables.len() {
            pairs.push((self.variables[index], self.values[index]))?;
        }
        Ok(pairs)
    }
}
