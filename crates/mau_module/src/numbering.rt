//! Sorts and kinds of a module in the numbers of another one that includes it.
ghost use Rattle.std.specs.Prelude.{◌≡◌, ◌+◌, ◌<◌, ◌≤◌, ℕ, map, length, true, All, IfOk, get_or};
ghost use Rattle.mau_poset.specs.Order.{kinds};
ghost use Rattle.mau_poset.specs.declared.TheConstants.{MAX_SORTS};
ghost use Rattle.mau_signature.specs.Faults.{IsSort};
ghost use Rattle.mau_declare.specs.Names.{has_name};
ghost use Rattle.mau_module.specs.Numbering.{number_in, first_sort_of};
ghost use Rattle.mau_module.specs.Included.{number_from};

use crate::module::Module;
use mau_declare::Names;
use mau_poset::Poset;
use mau_terms::NoMemory;
use std::alloc::Global;

/// The number of a name; 0 where it has none.
pub fn number_in(names: &Names, name: &str) -> u32
    requires { length names.now ≤ MAX_SORTS }
    ensures value { result ≡ number_in names.now name.now }
    ensures within { has_name names.now name.now ≡ true → result < length names.now }
    ensures small { 0 < length names.now → result < length names.now }
{
    match names.number(name) {
        Some(number) => number as u32,
        None => 0,
    }
}

/// The numbers, among new names, of the sorts with old ones.
pub fn sort_table(alloc: Global, olds: &Names, news: &Names) -> Result<Vec<u32>, NoMemory>
    requires few { length news.now ≤ MAX_SORTS }
    requires known { All (λ x. has_name news.now x ≡ true) olds.now }
    ensures table { IfOk result (λ table. table.items ≡ map (number_in news.now) olds.now) }
    ensures within { IfOk result (λ table. All (λ s. s < length news.now) table.items) }
{
    let mut table = Vec::with_capacity(alloc, olds.len())?;
    for number in 0..olds.len() {
        match olds.get(number) {
            Some(name) => table.push(number_in(news, name))?,
            None => unreachable!(),
        }
    }
    Ok(table)
}

/// The first sort of a kind.
fn first_sort(poset: &Poset, kind: u32) -> u32
    requires { kind < poset.now.sorts + kinds poset.now }
    ensures first { result ≡ first_sort_of poset.now kind }
    ensures sort { 0 < poset.now.sorts → result < poset.now.sorts }
{
    for sort in 0..poset.sorts() {
        if poset.kind_of(sort) == kind {
            return sort;
        }
    }
    0
}

/// The numbers, over new names and a new order, of all sorts and kinds of a module.
pub fn number_table(
    alloc: Global,
    module: &Module,
    news: &Names,
    poset: &Poset,
) -> Result<Vec<u32>, NoMemory>
    requires few { length news.now ≤ MAX_SORTS }
    requires known { All (λ x. has_name news.now x ≡ true) «module».now.sorts }
    requires named { length news.now ≡ poset.now.sorts }
    ensures len { IfOk result (λ table. length table.items ≡ «module».now.signature.hierarchy.sorts + kinds «module».now.signature.hierarchy) }
    ensures each { IfOk result (λ table. (a : ℕ) → get_or table.items a 0 ≡ number_from «module».now news.now poset.now a) }
    ensures sorts { IfOk result (λ table. All (IsSort poset.now) table.items) }
{
    let mut table = sort_table(alloc, module.sorts(), news)?;
    let old = module.signature().poset();
    for i in 0..old.kinds() {
        let sort = table[first_sort(old, old.sorts() + i) as usize];
        table.push(poset.kind_of(sort))?;
    }
    Ok(table)
}
