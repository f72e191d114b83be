//! Filling a chart.
ghost use Rattle.std.specs.List.{slice_get};
ghost use Rattle.std.specs.Prelude.{◌≡◌, ◌≢◌, ◌<◌, ◌≤◌, ◌+◌, ◌-◌, ◌^◌, ℕ, List, Some, None, Option, IfOk, OnOk, IfSome, IsTrue, true, get_or, length, min};
ghost use Rattle.mau_terms.specs.declared.ids.OpId.{OpId};
ghost use Rattle.mau_chart.specs.declared.grammar.Item.{Item};
ghost use Rattle.mau_chart.specs.declared.grammar.Leaf.{Leaf};
ghost use Rattle.mau_chart.specs.declared.grammar.Production.{Production};
ghost use Rattle.mau_chart.specs.declared.grammar.Item.TheVariants.{Whole, Part};
ghost use Rattle.mau_chart.specs.Chart.{Edge, Steps, StepsOnly, IsOne, IsAmong, Lifts, Completed, Combined, Grows, AreSound, AreLeaves, AreForms, Processed, IsDone, Begun, Ended, IsRow, IsEmpty, Closed, Wants, IsMask, IsAllowed};
ghost use Rattle.mau_chart.specs.Groups.{IsGrouped, AreIndexed};
ghost use Rattle.mau_chart.specs.Marks.{IsMarked, AllMarked};
ghost use Rattle.mau_chart.specs.Table.{table, cells, IsChart};

use crate::chart::Chart;
use crate::grammar::{Item, Leaf, Production, Said};
use crate::groups::{group_row, groups_of};
use crate::marks::{next_open, no_marks};
use crate::places::{Group, Mark, Place};
use mau_terms::{NoMemory, OpId};
use std::alloc::Global;

/// The part of a production that has the piece a and then the part b, where the mask does not rule it out: the piece before that
/// part may end where the part begins.
pub fn step_of(productions: &[Production], mask: &[bool], a: Item, b: Item) -> Option<Item>
    ensures some { IfSome result (λ to. Steps productions.now a b to) }
    ensures only { (ls : List Leaf) (i : ℕ) (to : Item) → IsMask productions.now ls i mask.now → Steps productions.now a b to → Wants productions.now ls i to → result ≡ Some to }
    ensures allowed { IfSome result (IsAllowed productions.now mask.now) }
{
    match plain_step_of(productions, a, b) {
        None => None,
        Some(item) => if is_wanted(productions, mask, item) {
            Some(item)
        } else {
            None
        },
    }
}

/// Whether the piece before the item may end where the mask is of.
fn is_wanted(productions: &[Production], mask: &[bool], item: Item) -> bool
    ensures allowed { IsTrue result → IsAllowed productions.now mask.now item }
    ensures wanted { (ls : List Leaf) (i : ℕ) → IsMask productions.now ls i mask.now → Wants productions.now ls i item → (number dot : ℕ) → item ≡ Part number dot → number < length productions.now → IsTrue result }
{
    match item {
        Item::Whole(_, _) => true,
        Item::Part(number, dot) => {
            if dot == 0 {
                return true;
            }
            if number >= productions.len() {
                return true;
            }
            let before = dot - 1;
            if before >= productions[number].pieces.len() {
                return true;
            }
            let kind = productions[number].pieces[before].kind;
            if kind >= mask.len() {
                return true;
            }
            mask[kind]
        }
    }
}

/// The part of a production that has the piece a and then the part b.
pub fn plain_step_of(productions: &[Production], a: Item, b: Item) -> Option<Item>
    ensures some { IfSome result (λ to. Steps productions.now a b to) }
    ensures only { (to : Item) → Steps productions.now a b to → result ≡ Some to }
{
    match (a, b) {
        (Item::Whole(kind, level), Item::Part(number, dot)) => {
            if dot == 0 {
                return None;
            }
            if number >= productions.len() {
                return None;
            }
            let before = dot - 1;
            if before >= productions[number].pieces.len() {
                return None;
            }
            let piece = productions[number].pieces[before];
            if piece.kind != kind {
                return None;
            }
            if level > piece.upto {
                return None;
            }
            Some(Item::Part(number, before))
        }
        _ => None,
    }
}

fn head_of(form: &Production) -> (Item, Option<OpId>)
    ensures item { result.0 ≡ Whole form.now.kind form.now.level }
    ensures op { result.1 ≡ form.now.op }
{
    (Item::Whole(form.kind, form.level), form.op)
}

/// What a part becomes that has all its pieces.
pub fn lift_of(productions: &[Production], item: Item) -> Option<(Item, Option<OpId>)>
    ensures some { IfSome result (λ to. Lifts productions.now item to.0 to.1) }
    ensures only { (to : Item) (o : Option OpId) → Lifts productions.now item to o → result ≡ Some (to, o) }
{
    match item {
        Item::Part(number, dot) => {
            if dot != 0 {
                return None;
            }
            if number >= productions.len() {
                return None;
            }
            Some(head_of(&productions[number]))
        }
        Item::Whole(_, _) => None,
    }
}

/// The number of an item among the items of its row: hints alone depend on it.
fn slot_of(slots: &[usize], item: Item) -> usize {
    match item {
        Item::Part(number, dot) => {
            if number < slots.len() {
                slots[number].wrapping_add(dot)
            } else {
                0
            }
        }
        Item::Whole(_, _) => 0,
    }
}

/// The place of the mark for an item of this number. Items may share a mark.
fn place_for(slot: usize, count: usize) -> usize
    requires { 0 < count }
    ensures { result < count }
{
    if slot < count { slot } else { 0 }
}

/// What a chart is filled from: the productions, the number of the first item of each, and the leaves.
#[derive(Clone, Copy)]
struct Input<'a> {
    alloc: Global,
    productions: &'a [Production],
    slots: &'a [usize],
    leaves: &'a [Leaf],
}

/// A fact, by its row and its place there, and the row in which it ends.
#[derive(Clone, Copy)]
struct At {
    row: usize,
    fact: usize,
    behind: usize,
}

/// Puts a fact before the fact x of the row behind it, where this part stands there.
fn try_part(
    chart: &mut Chart,
    input: Input<'_>,
    at: At,
    slot: usize,
    part: Item,
    item: Item,
    x: usize,
) -> Result<(), NoMemory>
    requires chart { IsChart chart.old }
    requires row { at.row < length chart.old.rows.items }
    requires first { at.fact < length (cells chart.old.rows.items at.row) }
    requires steps { (f : Edge) → slice_get (table chart.old at.row) at.fact ≡ Some f → Steps input.productions.now f.item part item }
    requires only { StepsOnly input.productions.now input.leaves.now (table chart.old) at.row at.fact part item }
    ensures chart { OnOk result (IsChart chart.new) }
    ensures rows { OnOk result (length chart.new.rows.items ≡ length chart.old.rows.items) }
    ensures combined { OnOk result (Combined input.entry.productions.now input.entry.leaves.now (table chart.old) (table chart.new) at.row at.fact at.behind (IsOne x part)) }
{
    if x >= chart.count(at.behind) {
        return Ok(());
    }
    if !chart.fact(at.behind, x).item.is(part) {
        return Ok(());
    }
    chart.join(input.alloc, slot, at.row, at.fact, at.behind, x, item)?;
    Ok(())
}

/// The same of a place, and marks its end where two facts are known then.
fn try_place(
    chart: &mut Chart,
    input: Input<'_>,
    at: At,
    slot: usize,
    mark: &mut Mark,
    part: Item,
    item: Item,
    place: Place,
) -> Result<(), NoMemory>
    requires chart { IsChart chart.old }
    requires row { at.row < length chart.old.rows.items }
    requires first { at.fact < length (cells chart.old.rows.items at.row) }
    requires steps { (f : Edge) → slice_get (table chart.old at.row) at.fact ≡ Some f → Steps input.productions.now f.item part item }
    requires only { StepsOnly input.productions.now input.leaves.now (table chart.old) at.row at.fact part item }
    requires mark { (mark.old.row ≡ at.row) × (mark.old.item ≡ item) }
    requires marked { IsMarked (table chart.old) mark.old }
    ensures chart { OnOk result (IsChart chart.new) }
    ensures rows { OnOk result (length chart.new.rows.items ≡ length chart.old.rows.items) }
    ensures combined { OnOk result (Combined input.entry.productions.now input.entry.leaves.now (table chart.old) (table chart.new) at.row at.fact at.behind (IsOne place.at part)) }
    ensures mark { OnOk result ((mark.new.row ≡ at.row) × (mark.new.item ≡ item)) }
    ensures marked { OnOk result (IsMarked (table chart.new) mark.new) }
{
    try_part(chart, input, at, slot, part, item, place.at)?;
    if chart.is_full(slot, at.row, item, place.end) {
        mark.set(place.end);
    }
    Ok(())
}

/// Puts a fact before each of these places of the row behind it, where this part stands there. Where a place ends, the mark tells
/// whether there are two facts already.
fn combine_places(
    chart: &mut Chart,
    input: Input<'_>,
    at: At,
    slot: usize,
    mark: &mut Mark,
    part: Item,
    item: Item,
    places: &[Place],
) -> Result<(), NoMemory>
    requires chart { IsChart chart.old }
    requires row { at.row < length chart.old.rows.items }
    requires first { at.fact < length (cells chart.old.rows.items at.row) }
    requires other { at.behind ≢ at.row }
    requires steps { (f : Edge) → slice_get (table chart.old at.row) at.fact ≡ Some f → Steps input.productions.now f.item part item }
    requires only { StepsOnly input.productions.now input.leaves.now (table chart.old) at.row at.fact part item }
    requires mark { (mark.old.row ≡ at.row) × (mark.old.item ≡ item) }
    requires marked { IsMarked (table chart.old) mark.old }
    ensures chart { OnOk result (IsChart chart.new) }
    ensures rows { OnOk result (length chart.new.rows.items ≡ length chart.old.rows.items) }
    ensures combined { OnOk result (Combined input.entry.productions.now input.entry.leaves.now (table chart.old) (table chart.new) at.row at.fact at.behind (IsAmong places.now part (length places.now))) }
    ensures marked { OnOk result (IsMarked (table chart.new) mark.new) }
{
    let mut z = next_open(&mark.full, places, 0);
    while z < places.len() {
        try_place(chart, input, at, slot, mark, part, item, places[z])?;
        z = next_open(&mark.full, places, z + 1);
    }
    Ok(())
}

/// Puts what comes of a part that has all its pieces.
fn complete(chart: &mut Chart, input: Input<'_>, i: usize, k: usize) -> Result<(), NoMemory>
    requires chart { IsChart chart.old }
    requires row { i < length chart.old.rows.items }
    requires first { k < length (cells chart.old.rows.items i) }
    ensures chart { OnOk result (IsChart chart.new) }
    ensures rows { OnOk result (length chart.new.rows.items ≡ length chart.old.rows.items) }
    ensures completed { OnOk result (Completed input.entry.productions.now (table chart.old) (table chart.new) i k) }
{
    let item = chart.fact(i, k).item;
    match lift_of(input.productions, item) {
        None => Ok(()),
        Some((whole, op)) => {
            let slot = end_slot(input.productions, input.slots, item);
            chart.lift(input.alloc, slot, i, k, whole, op)?;
            Ok(())
        }
    }
}

fn end_slot(productions: &[Production], slots: &[usize], item: Item) -> usize {
    match item {
        Item::Part(number, _) => {
            if number < slots.len() && number < productions.len() {
                slots[number]
                    .wrapping_add(productions[number].pieces.len())
                    .wrapping_add(1)
            } else {
                0
            }
        }
        Item::Whole(_, _) => 0,
    }
}

/// Puts a fact, which is this whole, before the parts of a group of the row behind it.
fn combine_group(
    chart: &mut Chart,
    input: Input<'_>,
    at: At,
    mask: &[bool],
    marks: &mut [Mark],
    group: &Group,
    whole: Item,
) -> Result<(), NoMemory>
    requires chart { IsChart chart.old }
    requires mask { IsMask input.productions.now input.leaves.now at.row mask.now }
    requires row { at.row < length chart.old.rows.items }
    requires first { at.fact < length (cells chart.old.rows.items at.row) }
    requires whole { (f : Edge) → slice_get (table chart.old at.row) at.fact ≡ Some f → f.item ≡ whole }
    requires other { at.behind ≢ at.row }
    requires some { 0 < length marks.old }
    requires marked { AllMarked (table chart.old) marks.old }
    ensures chart { OnOk result (IsChart chart.new) }
    ensures rows { OnOk result (length chart.new.rows.items ≡ length chart.old.rows.items) }
    ensures combined { OnOk result (Combined input.entry.productions.now input.entry.leaves.now (table chart.old) (table chart.new) at.row at.fact at.behind (IsAmong group.now.parts.items group.now.item (length group.now.parts.items))) }
    ensures marked { OnOk result (AllMarked (table chart.new) marks.new) }
{
    match step_of(input.productions, mask, whole, group.item) {
        None => Ok(()),
        Some(item) => {
            let slot = slot_of(input.slots, item);
            let mark = &mut marks[place_for(slot, marks.len())];
            mark.turn(at.row, item, chart.width)?;
            if mark.has_all(group) {
                return Ok(());
            }
            combine_places(chart, input, at, slot, mark, group.item, item, &group.parts)?;
            Ok(())
        }
    }
}

/// Puts a fact, which is this whole, before the parts of the row behind it, which are these groups.
fn combine(
    chart: &mut Chart,
    input: Input<'_>,
    at: At,
    mask: &[bool],
    marks: &mut [Mark],
    groups: &[Group],
    whole: Item,
) -> Result<(), NoMemory>
    requires chart { IsChart chart.old }
    requires mask { IsMask input.productions.now input.leaves.now at.row mask.now }
    requires row { at.row < length chart.old.rows.items }
    requires first { at.fact < length (cells chart.old.rows.items at.row) }
    requires whole { (f : Edge) → slice_get (table chart.old at.row) at.fact ≡ Some f → f.item ≡ whole }
    requires other { at.behind ≢ at.row }
    requires some { 0 < length marks.old }
    requires marked { AllMarked (table chart.old) marks.old }
    ensures chart { OnOk result (IsChart chart.new) }
    ensures rows { OnOk result (length chart.new.rows.items ≡ length chart.old.rows.items) }
    ensures combined { OnOk result (Combined input.entry.productions.now input.entry.leaves.now (table chart.old) (table chart.new) at.row at.fact at.behind (IsGrouped groups.now (length groups.now))) }
    ensures marked { OnOk result (AllMarked (table chart.new) marks.new) }
{
    for w in 0..groups.len() {
        combine_group(chart, input, at, mask, marks, &groups[w], whole)?;
    }
    Ok(())
}

/// Does what is to be done with the fact k of the row i.
fn process(
    chart: &mut Chart,
    input: Input<'_>,
    mask: &[bool],
    marks: &mut [Mark],
    index: &[Vec<Group>],
    n: usize,
    i: usize,
    k: usize,
) -> Result<(), NoMemory>
    requires chart { IsChart chart.old }
    requires index { AreIndexed (table chart.old) n i index.now }
    requires mask { IsMask input.productions.now input.leaves.now i mask.now }
    requires row { i < length chart.old.rows.items }
    requires first { k < length (cells chart.old.rows.items i) }
    requires sound { AreSound input.productions.now input.leaves.now (table chart.old) }
    requires leaves { AreLeaves input.leaves.now n }
    requires forms { AreForms input.productions.now }
    requires some { 0 < length marks.old }
    requires marked { AllMarked (table chart.old) marks.old }
    ensures chart { OnOk result (IsChart chart.new) }
    ensures rows { OnOk result (length chart.new.rows.items ≡ length chart.old.rows.items) }
    ensures grows { OnOk result (Grows (table chart.old) (table chart.new) i) }
    ensures sound { OnOk result (AreSound input.entry.productions.now input.entry.leaves.now (table chart.new)) }
    ensures processed { OnOk result (Processed input.entry.productions.now input.entry.leaves.now (table chart.new) i k) }
    ensures marked { OnOk result (AllMarked (table chart.new) marks.new) }
{
    let fact = chart.fact(i, k);
    let item = fact.item;
    let end = fact.end;
    match item {
        Item::Whole(_, _) => {
            let groups = groups_of(index, n - end);
            let at = At {
                row: i,
                fact: k,
                behind: end,
            };
            combine(chart, input, at, mask, marks, groups, item)?;
            Ok(())
        }
        Item::Part(_, _) => {
            complete(chart, input, i, k)?;
            Ok(())
        }
    }
}

/// Does what is to be done with each fact of the row i, those that come of it too.
fn saturate(
    chart: &mut Chart,
    input: Input<'_>,
    mask: &[bool],
    marks: &mut [Mark],
    index: &[Vec<Group>],
    n: usize,
    i: usize,
) -> Result<(), NoMemory>
    requires chart { IsChart chart.old }
    requires index { AreIndexed (table chart.old) n i index.now }
    requires mask { IsMask input.productions.now input.leaves.now i mask.now }
    requires row { i < length chart.old.rows.items }
    requires sound { AreSound input.productions.now input.leaves.now (table chart.old) }
    requires leaves { AreLeaves input.leaves.now n }
    requires forms { AreForms input.productions.now }
    requires some { 0 < length marks.old }
    requires marked { AllMarked (table chart.old) marks.old }
    ensures chart { OnOk result (IsChart chart.new) }
    ensures rows { OnOk result (length chart.new.rows.items ≡ length chart.old.rows.items) }
    ensures grows { OnOk result (Grows (table chart.old) (table chart.new) i) }
    ensures sound { OnOk result (AreSound input.entry.productions.now input.entry.leaves.now (table chart.new)) }
    ensures done { OnOk result (IsDone input.entry.productions.now input.entry.leaves.now (table chart.new) i (length (table chart.new i))) }
    ensures marked { OnOk result (AllMarked (table chart.new) marks.new) }
{
    for k in 0..usize::MAX {
        if k >= chart.count(i) {
            return Ok(());
        }
        process(chart, input, mask, marks, index, n, i, k)?;
    }
    let _count = chart.count(i);
    Ok(())
}

/// Puts the leaves that begin at i.
fn begin(chart: &mut Chart, input: Input<'_>, i: usize) -> Result<(), NoMemory>
    requires chart { IsChart chart.old }
    requires row { i < length chart.old.rows.items }
    ensures chart { OnOk result (IsChart chart.new) }
    ensures rows { OnOk result (length chart.new.rows.items ≡ length chart.old.rows.items) }
    ensures begun { OnOk result (Begun input.entry.leaves.now (table chart.old) (table chart.new) i (length input.entry.leaves.now)) }
{
    for k in 0..input.leaves.len() {
        let leaf = input.leaves[k];
        if leaf.start == i {
            let item = Item::Whole(leaf.kind, leaf.level);
            chart.say(input.alloc, 0, i, item, leaf.end, leaf.said)?;
        }
    }
    Ok(())
}

/// Puts the ends of the productions whose last piece may end here.
fn finish(chart: &mut Chart, input: Input<'_>, mask: &[bool], i: usize) -> Result<(), NoMemory>
    requires chart { IsChart chart.old }
    requires mask { IsMask input.productions.now input.leaves.now i mask.now }
    requires row { i < length chart.old.rows.items }
    ensures chart { OnOk result (IsChart chart.new) }
    ensures rows { OnOk result (length chart.new.rows.items ≡ length chart.old.rows.items) }
    ensures ended { OnOk result (Ended input.entry.productions.now input.entry.leaves.now (table chart.old) (table chart.new) i (length input.entry.productions.now)) }
{
    for k in 0..input.productions.len() {
        let item = Item::Part(k, input.productions[k].pieces.len());
        if is_wanted(input.productions, mask, item) {
            let slot = slot_of(input.slots, item);
            chart.say(input.alloc, slot, i, item, i, Said::Word)?;
        }
    }
    Ok(())
}

/// Fills the row i, where those behind it are full.
fn fill_row(
    chart: &mut Chart,
    input: Input<'_>,
    marks: &mut [Mark],
    index: &[Vec<Group>],
    kinds: usize,
    n: usize,
    i: usize,
) -> Result<(), NoMemory>
    requires chart { IsChart chart.old }
    requires index { AreIndexed (table chart.old) n i index.now }
    requires row { i < length chart.old.rows.items }
    requires sound { AreSound input.productions.now input.leaves.now (table chart.old) }
    requires leaves { AreLeaves input.leaves.now n }
    requires forms { AreForms input.productions.now }
    requires some { 0 < length marks.old }
    requires marked { AllMarked (table chart.old) marks.old }
    ensures chart { OnOk result (IsChart chart.new) }
    ensures rows { OnOk result (length chart.new.rows.items ≡ length chart.old.rows.items) }
    ensures grows { OnOk result (Grows (table chart.old) (table chart.new) i) }
    ensures sound { OnOk result (AreSound input.entry.productions.now input.entry.leaves.now (table chart.new)) }
    ensures full { OnOk result (IsRow input.entry.productions.now input.entry.leaves.now (table chart.new) i) }
    ensures marked { OnOk result (AllMarked (table chart.new) marks.new) }
{
    let mask = mask_of(input.alloc, input.productions, input.leaves, kinds, i)?;
    begin(chart, input, i)?;
    finish(chart, input, &mask, i)?;
    saturate(chart, input, &mask, marks, index, n, i)?;
    Ok(())
}

/// One more than the greatest kind of which there is a production, or as much as the type holds; 0 where there is none.
pub fn count_kinds(productions: &[Production]) -> usize
    ensures above { (k : ℕ) (p : Production) → slice_get productions.now k ≡ Some p → min (p.kind + 1) (2 ^ 64 - 1) ≤ result }
    ensures least { (m : ℕ) → ((k : ℕ) (p : Production) → slice_get productions.now k ≡ Some p → min (p.kind + 1) (2 ^ 64 - 1) ≤ m) → result ≤ m }
{
    let mut count = 0;
    for k in 0..productions.len() {
        count = productions[k].kind.saturating_add(1).max(count);
    }
    count
}

/// Fills the rows from the last to the first. The numbers of items are below `count`.
pub fn fill(
    chart: &mut Chart,
    alloc: Global,
    productions: &[Production],
    slots: &[usize],
    count: usize,
    leaves: &[Leaf],
    n: usize,
) -> Result<(), NoMemory>
    requires chart { IsChart chart.old }
    requires rows { length chart.old.rows.items ≡ n + 1 }
    requires empty { IsEmpty (table chart.old) }
    requires leaves { AreLeaves leaves.now n }
    requires forms { AreForms productions.now }
    ensures chart { OnOk result (IsChart chart.new) }
    ensures sound { OnOk result (AreSound productions.now leaves.now (table chart.new)) }
    ensures closed { OnOk result (Closed productions.now leaves.now n (table chart.new) 0) }
{
    let input = Input {
        alloc,
        productions,
        slots,
        leaves,
    };
    let kinds = count_kinds(productions);
    let mut marks = no_marks(alloc, count)?;
    let mut index = Vec::new(alloc);
    let rows = chart.rows.len();
    for r in 0..rows {
        fill_row(chart, input, &mut marks, &index, kinds, n, n - r)?;
        index.push(group_row(alloc, chart, n - r)?)?;
    }
    Ok(())
}

/// Marks a kind as one that may end here.
fn mark(mask: &mut Vec<bool>, kind: usize)
    ensures there { get_or mask.new.items kind true ≡ true }
    ensures others { (j : ℕ) → get_or mask.old.items j true ≡ true → get_or mask.new.items j true ≡ true }
{
    if kind < mask.len() {
        mask[kind] = true;
    }
}

/// The kinds of which something may end at i: those of productions, and those of leaves that end there.
fn mask_of(
    alloc: Global,
    productions: &[Production],
    leaves: &[Leaf],
    kinds: usize,
    i: usize,
) -> Result<Vec<bool>, NoMemory>
    ensures { IfOk result (λ mask. IsMask productions.now leaves.now i mask.items) }
{
    let mut mask = Vec::new(alloc);
    mask.resize(kinds, false)?;
    for k in 0..productions.len() {
        mark(&mut mask, productions[k].kind);
    }
    for k in 0..leaves.len() {
        if leaves[k].end == i {
            mark(&mut mask, leaves[k].kind);
        }
    }
    Ok(mask)
}
