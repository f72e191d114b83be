//! The names of sorts, with their kinds.
ghost use Rattle.std.specs.Prelude.{◌≡◌, ◌<◌, IfOk, map, length};
ghost use Rattle.mau_poset.specs.Order.{kind_of};
ghost use Rattle.mau_grammar.specs.Productions.{sort_names};

use mau_poset::Poset;
use mau_terms::{NoMemory, Text};
use std::alloc::Global;

/// The name of a sort, and the number of its kind.
#[derive(Drop, Debug)]
pub struct SortName {
    pub name: Text,
    pub kind: u32,
}

/// The kind of a sort; any other number is its own.
pub fn kind_at(poset: &Poset, sort: u32) -> u32
    ensures { result ≡ kind_of poset.now sort }
{
    if sort < poset.sorts() {
        poset.kind_of(sort)
    } else {
        sort
    }
}

/// The kinds of some sorts.
pub fn kinds_of(alloc: Global, poset: &Poset, sorts: &[u32]) -> Result<Vec<u32>, NoMemory>
    ensures { IfOk result (λ kinds. kinds.items ≡ map (kind_of poset.now) sorts.now) }
{
    let mut kinds = Vec::with_capacity(alloc, sorts.len())?;
    for sort in sorts {
        kinds.push(kind_at(poset, *sort))?;
    }
    Ok(kinds)
}

/// The names of all sorts, with their kinds.
pub fn sort_names(alloc: Global, poset: &Poset, names: &[Text]) -> Result<Vec<SortName>, NoMemory>
    requires { length names.now ≡ poset.now.sorts }
    ensures { IfOk result (λ sorts. sorts.items ≡ Rattle.mau_grammar.specs.Productions.sort_names poset.now 0 names.now) }
{
    let mut sorts = Vec::with_capacity(alloc, names.len())?;
    for number in 0..poset.sorts() {
        sorts.push(SortName {
            name: names[number as usize].copy(alloc)?,
            kind: kind_at(poset, number),
        })?;
    }
    Ok(sorts)
}
