//! The first sort of each kind.
ghost use Rattle.std.specs.Prelude.{◌≡◌, All, ◌+◌, ◌<◌, ◌==◌, ℕ, List, Option, length, get_or, OnOk, IfOk};
ghost use Rattle.mau_print.specs.FirstSorts.{or_name, AreFirstNames};

use mau_grammar::SortName;
use mau_terms::{NoMemory, Text};
use std::alloc::Global;

/// Notes the name of a sort for its kind, unless one is known. The kinds are the numbers from `first` on.
fn note_first(
    alloc: Global,
    firsts: &mut Vec<Option<Text>>,
    first: u32,
    sort: &SortName,
) -> Result<(), NoMemory>
    ensures len { length firsts.new.items ≡ length firsts.old.items }
    ensures each { OnOk result ((k : ℕ) (d : Option (List ℕ)) → k < length firsts.old.items → get_or firsts.new.items k d ≡ or_name (get_or firsts.old.items k d) (sort.now.kind == first + k) sort.now.name) }
{
    if sort.kind < first {
        return Ok(());
    }
    let place = (sort.kind - first) as usize;
    if place >= firsts.len() {
        return Ok(());
    }
    if firsts[place].is_some() {
        return Ok(());
    }
    firsts[place] = Some(sort.name.copy(alloc)?);
    Ok(())
}

/// So many times no name.
fn no_names(alloc: Global, kinds: u32) -> Result<Vec<Option<Text>>, NoMemory>
    ensures len { IfOk result (λ firsts. length firsts.items ≡ kinds) }
    ensures none { IfOk result (λ firsts. All (λ name. name ≡ None) firsts.items) }
{
    let mut firsts: Vec<Option<Text>> = Vec::with_capacity(alloc, kinds as usize)?;
    for _kind in 0..kinds {
        firsts.push(None)?;
    }
    Ok(firsts)
}

/// The names of the first sorts of `kinds` kinds, which are the numbers from `first` on.
pub fn first_names(
    alloc: Global,
    sorts: &[SortName],
    first: u32,
    kinds: u32,
) -> Result<Vec<Option<Text>>, NoMemory>
    ensures { IfOk result (λ firsts. AreFirstNames sorts.now first kinds firsts.items) }
{
    let mut firsts = no_names(alloc, kinds)?;
    for sort in sorts {
        note_first(alloc, &mut firsts, first, sort)?;
    }
    Ok(firsts)
}
