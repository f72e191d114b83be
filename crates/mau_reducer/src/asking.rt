//! Conditions that are asked.
ghost use Rattle.std.specs.Prelude.{◌≡◌, length, map, IfOk, IfSome, OnOk, OnErr};
ghost use Rattle.std.specs.List.{zip};
ghost use Rattle.std.specs.Option.{option_map};
ghost use Rattle.mau_terms.specs.View.{variable_of};
ghost use Rattle.mau_api.specs.Answers.{mapped};
ghost use Rattle.mau_reducer.specs.Basis.{asking};
ghost use Rattle.mau_reducer.specs.Solutions.{IsPaired};

use crate::reducer::Reducer;
use mau_api::{EvalEnd, Fragment, Lister};
use mau_cond::Bound;
use mau_listing::WholeLister;
use mau_reduce::{Binding, Natives};
use mau_terms::{NoMemory, TermId, VarId};
use std::alloc::Global;

/// The same fragments once more.
fn copies(alloc: Global, cond: &[Fragment]) -> Result<Vec<Fragment>, NoMemory>
    ensures { IfOk result (λ copies. copies.items ≡ cond.now) }
{
    let mut copies = Vec::with_capacity(alloc, cond.len())?;
    for fragment in cond {
        copies.push(fragment.copy(alloc)?)?;
    }
    Ok(copies)
}

/// Variables with their values, in two lists.
pub(crate) fn values_of(alloc: Global, bound: &[(VarId, TermId)]) -> Result<Binding, NoMemory>
    ensures pairs { IfOk result (λ b. zip b.variables.items b.values.items ≡ bound.now) }
    ensures one_each { IfOk result (λ b. length b.variables.items ≡ length b.values.items) }
{
    let mut values = Bound::new(alloc);
    for pair in bound {
        values.push(pair.0, pair.1)?;
    }
    let (variables, values) = values.into_parts();
    Ok(Binding { variables, values })
}

/// The solution behind which a condition is solved, with its variables and their values in two lists.
pub(crate) fn last_of(
    alloc: Global,
    last: Option<&[(VarId, TermId)]>,
) -> Result<Option<Box<Binding>>, NoMemory>
    ensures pairs { IfOk result (λ o. option_map (λ b. zip b.value.variables.items b.value.values.items) o ≡ option_map (λ l. l.now) last.entry) }
    ensures one_each { IfOk result (λ o. IfSome o (λ b. length b.value.variables.items ≡ length b.value.values.items)) }
{
    match last {
        Some(last) => {
            let values = values_of(alloc, last)?;
            Ok(Some(Box::new(alloc, values)?))
        }
        None => Ok(None),
    }
}

/// What becomes of a condition, with the values in pairs.
pub(crate) fn as_pairs(
    alloc: Global,
    solved: Result<Option<(Binding, u64)>, EvalEnd>,
) -> Result<Option<(Vec<(VarId, TermId)>, u64)>, EvalEnd>
    requires { IfOk solved (λ o. IfSome o (λ x. length x.0.variables.items ≡ length x.0.values.items)) }
    ensures { IsPaired solved (mapped (option_map (λ x. (x.0.items, x.1))) result) }
{
    match solved {
        Ok(Some((binding, rewrites))) => {
            match Bound::from_parts(binding.variables, binding.values).pairs(alloc) {
                Ok(values) => Ok(Some((values, rewrites))),
                Err(_) => Err(EvalEnd::NoMemory),
            }
        }
        Ok(None) => Ok(None),
        Err(end) => Err(end),
    }
}

impl<'a, L: Lister + Drop, M: WholeLister + Drop, N: Natives + Drop> Reducer<'a, L, M, N> {
    ghost use Rattle.mau_reducer.specs.Worlds.{basis_of};

    /// Begins to ask a condition, where these variables have values.
    pub(crate) fn ask(
        &mut self,
        alloc: Global,
        cond: &[Fragment],
        bound: &[(VarId, TermId)],
    ) -> Result<Binding, NoMemory>
        ensures asks { OnOk result (basis_of N.operators self.new
            ≡ asking (basis_of N.operators self.old) cond.now (map (λ b. variable_of b.0) bound.now)) }
        ensures pairs { IfOk result (λ b. zip b.variables.items b.values.items ≡ bound.now) }
        ensures one_each { IfOk result (λ b. length b.variables.items ≡ length b.values.items) }
        ensures unchanged { OnErr result (basis_of N.operators self.new ≡ basis_of N.operators self.old) }
        ensures table { self.new.table ≡ self.old.table }
        ensures begun { self.new.begun ≡ self.old.begun }
    {
        let asked = copies(alloc, cond)?;
        let binding = values_of(alloc, bound)?;
        let asked_under = Vec::from_slice(alloc, &binding.variables)?;
        self.asked = asked;
        self.asked_under = asked_under;
        Ok(binding)
    }
}
