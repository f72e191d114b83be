//! The parts of a row by what they wait for.
ghost use Rattle.std.specs.Prelude.{◌≡◌, ◌<◌, ◌≤◌, ◌++◌, ◌∷◌, [], IfOk, OnOk, IfSome};
ghost use Rattle.mau_chart.specs.declared.grammar.Item.{Item};
ghost use Rattle.mau_chart.specs.declared.places.Place.{Place};
ghost use Rattle.mau_chart.specs.Groups.{HasPart, IsPlace, AreGrouped, groups_at};
ghost use Rattle.mau_chart.specs.Table.{table};

use crate::chart::Chart;
use crate::grammar::Item;
use crate::places::{Group, Place};
use mau_terms::NoMemory;
use std::alloc::Global;

/// The groups of a row.
pub fn groups_of(index: &[Vec<Group>], r: usize) -> &[Group]
    ensures { result.now ≡ groups_at index.now r }
{
    if r < index.len() { &index[r] } else { &[] }
}

/// Where the group of an item is.
fn place_of(groups: &[Group], item: Item) -> Option<usize>
    ensures { IfSome result (IsPlace groups.now item) }
{
    for w in 0..groups.len() {
        if groups[w].item.is(item) {
            return Some(w);
        }
    }
    None
}

/// Adds a place to a group.
fn add_place(group: &mut Group, x: Place) -> Result<(), NoMemory>
    ensures item { OnOk result (group.new.item ≡ group.old.item) }
    ensures parts { OnOk result (group.new.parts.items ≡ group.old.parts.items ++ x ∷ []) }
{
    group.low = group.low.min(x.end);
    group.high = group.high.max(x.end);
    group.parts.push(x)?;
    Ok(())
}

/// Puts the place x into the group of the item.
fn enter(alloc: Global, groups: &mut Vec<Group>, item: Item, x: Place) -> Result<(), NoMemory>
    ensures there { OnOk result (HasPart groups.new.items item x) }
    ensures others { OnOk result ((it : Item) (y : Place) → HasPart groups.old.items it y → HasPart groups.new.items it y) }
{
    match place_of(groups, item) {
        Some(w) => {
            add_place(&mut groups[w], x)?;
            Ok(())
        }
        None => {
            let mut parts = Vec::new(alloc);
            parts.push(x)?;
            groups.push(Group {
                item,
                parts,
                low: x.end,
                high: x.end,
            })?;
            Ok(())
        }
    }
}

/// The parts of a row that wait for a piece, by their items.
pub fn group_row(alloc: Global, chart: &Chart, m: usize) -> Result<Vec<Group>, NoMemory>
    ensures { IfOk result (λ groups. AreGrouped (table chart.now) m groups.items) }
{
    let mut groups = Vec::new(alloc);
    for x in 0..chart.count(m) {
        let fact = chart.fact(m, x);
        let item = fact.item;
        let end = fact.end;
        if item.waits() {
            enter(alloc, &mut groups, item, Place { at: x, end })?;
        }
    }
    Ok(groups)
}
