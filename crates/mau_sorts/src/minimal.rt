//! Minimal sorts: lists of sorts of which none is below another.
ghost use Rattle.std.specs.Prelude.{◌≡◌, ◌↔◌, ◌⊎◌, ◌<◌, ℕ, Contains, IsTrue, IfOk, OnOk};
ghost use Rattle.std.specs.List.Sorted.{IsStrictlyIncreasing};
ghost use Rattle.mau_poset.specs.Order.{IsAtOrBelow};
ghost use Rattle.mau_signature.specs.Faults.{IsSort};
ghost use Rattle.mau_sorts.specs.SortSets.{IsAbove, AreApart, AreNotAbove, AreSorts};

use mau_poset::Poset;
use mau_terms::NoMemory;
use std::alloc::Global;

/// Whether a sort or a kind is at or above one of these sorts.
pub(crate) fn is_above(poset: &Poset, minimal: &[u32], sort: u32) -> bool
    requires sorts { AreSorts poset.now minimal.now }
    requires sort { IsSort poset.now sort }
    ensures { IsTrue result ↔ IsAbove poset.now minimal.now sort }
{
    for lower in minimal {
        if poset.leq(*lower, sort) {
            return true;
        }
    }
    false
}

/// Those of these sorts that are not above another one.
fn not_above(alloc: Global, poset: &Poset, minimal: &[u32], sort: u32) -> Result<Vec<u32>, NoMemory>
    requires sorts { AreSorts poset.now minimal.now }
    requires sort { IsSort poset.now sort }
    ensures kept { IfOk result (λ kept. AreNotAbove poset.now sort minimal.now kept.items) }
{
    let mut kept = Vec::with_capacity(alloc, minimal.len())?;
    for lower in minimal {
        if !poset.leq(sort, *lower) {
            kept.push(*lower)?;
        }
    }
    Ok(kept)
}

/// Adds a sort, unless it is at or above one that is there, and takes out those that are above it.
pub(crate) fn add(
    alloc: Global,
    poset: &Poset,
    minimal: &mut Vec<u32>,
    sort: u32,
) -> Result<(), NoMemory>
    requires sorts { AreSorts poset.now minimal.old.items }
    requires sort { sort < poset.now.sorts }
    ensures above { OnOk result ((r : ℕ) → IsAbove poset.now minimal.new.items r ↔ (IsAbove poset.now minimal.old.items r ⊎ IsAtOrBelow poset.now sort r)) }
    ensures apart { AreApart poset.now minimal.old.items → AreApart poset.now minimal.new.items }
    ensures sorts { AreSorts poset.now minimal.new.items }
{
    // That the order is transitive is needed below, and this call tells it.
    let _ = poset.sorts();
    if is_above(poset, minimal, sort) {
        return Ok(());
    }
    let mut kept = not_above(alloc, poset, minimal, sort)?;
    kept.push(sort)?;
    *minimal = kept;
    Ok(())
}

/// Adds each of these sorts.
pub(crate) fn add_all(
    alloc: Global,
    poset: &Poset,
    minimal: &mut Vec<u32>,
    more: &[u32],
) -> Result<(), NoMemory>
    requires sorts { AreSorts poset.now minimal.old.items }
    requires more { AreSorts poset.now more.now }
    ensures above { OnOk result ((r : ℕ) → IsAbove poset.now minimal.new.items r ↔ (IsAbove poset.now minimal.old.items r ⊎ IsAbove poset.now more.now r)) }
    ensures apart { AreApart poset.now minimal.old.items → AreApart poset.now minimal.new.items }
    ensures sorts { AreSorts poset.now minimal.new.items }
{
    for sort in more {
        add(alloc, poset, minimal, *sort)?;
    }
    Ok(())
}

/// Puts sorts into ascending order, each once.
pub(crate) fn order(sorts: &mut Vec<u32>)
    ensures same { (m : ℕ) → Contains sorts.new.items m ↔ Contains sorts.old.items m }
    ensures ascending { IsStrictlyIncreasing sorts.new.items }
{
    sorts.sort_unstable();
    sorts.dedup();
}
