//! What a whole text reads as.
ghost use Rattle.std.specs.Prelude.{◌≡◌, ◌↔◌, ◌<◌, ◌≤◌, ◌+◌, IfOk, Some, IsTrue, length};
ghost use Rattle.std.specs.List.{slice_get};
ghost use Rattle.mau_chart.specs.Chart.{AreLeaves, AreForms, IsEmpty, Edge};
ghost use Rattle.mau_chart.specs.Goal.{IsGoal, IsExact, Scanned};
ghost use Rattle.mau_chart.specs.Told.{AreThere, IsToldBy, IsForest};
ghost use Rattle.mau_chart.specs.Nodes.{AllBelow, trees_at};
ghost use Rattle.mau_chart.specs.Table.{table, cells, IsChart};

use crate::chart::{Chart, Fact, Row};
use crate::fill::{count_kinds, fill};
use crate::grammar::{Item, Leaf, Production};
use crate::trees::Trees;
use mau_terms::{NoMemory, TermId};
use std::alloc::Global;

/// Where in the first row the readings stand: none, all alike, or two that differ.
#[derive(Clone, Copy, PartialEq, Eq, Debug)]
pub enum Answer {
    Nothing,
    One(usize),
    Two(usize, usize),
}

fn is_goal(fact: &Fact, low: usize, high: usize, n: usize) -> bool
    ensures { IsTrue result ↔ IsGoal low high n fact.now.item fact.now.end }
{
    match fact.item {
        Item::Whole(kind, _) => low <= kind && kind < high && fact.end == n,
        Item::Part(_, _) => false,
    }
}

/// Whether two facts of the first row have the same trees.
fn alike(chart: &Chart, j: usize, k: usize) -> bool
    requires chart { IsChart chart.now }
    requires first { j < length (cells chart.now.rows.items 0) }
    requires second { k < length (cells chart.now.rows.items 0) }
    ensures { (f g : Edge) → slice_get (table chart.now 0) j ≡ Some f → slice_get (table chart.now 0) k ≡ Some g → IsTrue result ↔ f.trees ≡ g.trees }
{
    chart.same(&chart.fact(0, j).trees, &chart.fact(0, k).trees)
}

/// Tells the readings of the kinds from low to high that are in the table.
fn scan(chart: &Chart, low: usize, high: usize, n: usize) -> Answer
    requires { IsChart chart.now }
    ensures { Scanned low high n (table chart.now) (length (table chart.now 0)) result }
{
    let mut answer = Answer::Nothing;
    for k in 0..chart.count(0) {
        let fact = chart.fact(0, k);
        if is_goal(fact, low, high, n) {
            match answer {
                Answer::Nothing => {
                    answer = Answer::One(k);
                }
                Answer::One(j) => {
                    if alike(chart, j, k) {
                        continue;
                    }
                    return Answer::Two(j, k);
                }
                Answer::Two(_, _) => return answer,
            }
        }
    }
    answer
}

/// An empty chart with rows from 0 to n.
fn empty(alloc: Global, slots: usize, n: usize) -> Result<Chart, NoMemory>
    requires { n < 4294967296 }
    ensures chart { IfOk result (λ c. IsChart c) }
    ensures rows { IfOk result (λ c. length c.rows.items ≡ n + 1) }
    ensures empty { IfOk result (λ c. IsEmpty (table c)) }
{
    let width = n + 1;
    let mut rows = Vec::with_capacity(alloc, width)?;
    for _ in 0..width {
        rows.push(Row {
            facts: Vec::new(alloc),
        })?;
    }
    let mut hints = Vec::new(alloc);
    hints.resize(slots.wrapping_mul(width), 0)?;
    Ok(Chart {
        store: Trees::new(alloc),
        rows,
        hints,
        width,
    })
}

/// Marks the kind.
fn mark_kind(marks: &mut [bool], kind: usize) {
    if kind < marks.len() {
        marks[kind] = true;
    }
}

/// For each kind of a production whether there is one, or a leaf of it.
fn present_kinds(
    alloc: Global,
    productions: &[Production],
    leaves: &[Leaf],
) -> Result<Vec<bool>, NoMemory> {
    let mut marks = Vec::new(alloc);
    marks.resize(count_kinds(productions), false)?;
    for production in productions {
        mark_kind(&mut marks, production.kind);
    }
    for leaf in leaves {
        mark_kind(&mut marks, leaf.kind);
    }
    Ok(marks)
}

/// Whether the last piece of the production may be found.
fn has_last(production: &Production, present: &[bool]) -> bool {
    match production.pieces.last() {
        Some(piece) => piece.kind < present.len() && present[piece.kind],
        None => false,
    }
}

/// A number for the first part of each production, and one more than the greatest for any part. A production whose last piece is
/// nowhere gets none, since nothing is found of it.
fn number_parts(
    alloc: Global,
    productions: &[Production],
    present: &[bool],
) -> Result<(Vec<usize>, usize), NoMemory> {
    let mut slots = Vec::with_capacity(alloc, productions.len())?;
    let mut count: usize = 1;
    for production in productions {
        if has_last(production, present) {
            slots.push(count)?;
            count = count.wrapping_add(production.pieces.len()).wrapping_add(2);
        } else {
            slots.push(0)?;
        }
    }
    Ok((slots, count))
}

/// A chart of the text, and where its readings stand.
fn answer_of(
    alloc: Global,
    productions: &[Production],
    leaves: &[Leaf],
    n: usize,
    low: usize,
    high: usize,
) -> Result<(Chart, Answer), NoMemory>
    requires short { n < 4294967296 }
    requires leaves { AreLeaves leaves.now n }
    requires forms { AreForms productions.now }
    ensures chart { IfOk result (λ r. IsChart r.0) }
    ensures exact { IfOk result (λ r. IsExact productions.now leaves.now n low high (table r.0) r.1) }
{
    let present = present_kinds(alloc, productions, leaves)?;
    let (slots, count) = number_parts(alloc, productions, &present)?;
    let mut chart = empty(alloc, count, n)?;
    fill(&mut chart, alloc, productions, &slots, count, leaves, n)?;
    let answer = scan(&chart, low, high, n);
    Ok((chart, answer))
}

/// The readings of a text, by the numbers of their trees: none, exactly one, or two that differ.
#[derive(Drop)]
pub enum Forest {
    Nothing,
    One(Vec<TermId>),
    Two(Vec<TermId>, Vec<TermId>),
}

/// The trees of a fact of the first row.
fn trees_of(alloc: Global, chart: &Chart, k: usize) -> Result<Vec<TermId>, NoMemory>
    requires chart { IsChart chart.now }
    requires there { k < length (cells chart.now.rows.items 0) }
    ensures below { IfOk result (λ ids. AllBelow (length chart.now.store) ids.items) }
    ensures value { IfOk result (λ ids. (f : Edge) → slice_get (table chart.now 0) k ≡ Some f → trees_at chart.now.store ids.items ≡ f.trees) }
{
    Ok(Vec::from_slice(alloc, &chart.fact(0, k).trees)?)
}

/// The readings that the answer tells.
fn reading_of(alloc: Global, chart: &Chart, answer: Answer) -> Result<Forest, NoMemory>
    requires chart { IsChart chart.now }
    requires there { AreThere (table chart.now) answer }
    ensures { IfOk result (λ reading. IsToldBy chart.now.store (table chart.now) answer reading) }
{
    match answer {
        Answer::Nothing => Ok(Forest::Nothing),
        Answer::One(j) => Ok(Forest::One(trees_of(alloc, chart, j)?)),
        Answer::Two(j, k) => {
            let first = trees_of(alloc, chart, j)?;
            Ok(Forest::Two(first, trees_of(alloc, chart, k)?))
        }
    }
}

/// The readings of the text of n tokens, from its first to its last token, in the kinds from `low` to below `high`: all of them,
/// up to two. The time is polynomial in n: a chart of the parts of productions that begin at each token is filled from the last
/// token to the first, and of each part between two tokens it keeps two that differ.
///
/// The method is that of J. Earley, "An efficient context-free parsing algorithm", CACM 13 (1970), from right to left and without
/// prediction, with shared trees.
pub fn read(
    alloc: Global,
    productions: &[Production],
    leaves: &[Leaf],
    n: usize,
    low: usize,
    high: usize,
) -> Result<(Trees, Forest), NoMemory>
    requires short { n < 4294967296 }
    requires leaves { AreLeaves leaves.now n }
    requires forms { AreForms productions.now }
    ensures { IfOk result (λ r. IsForest productions.now leaves.now n low high r.0 r.1) }
{
    let (chart, answer) = answer_of(alloc, productions, leaves, n, low, high)?;
    let reading = reading_of(alloc, &chart, answer)?;
    let Chart {
        store,
        rows: _,
        hints: _,
        width: _,
    } = chart;
    Ok((store, reading))
}
