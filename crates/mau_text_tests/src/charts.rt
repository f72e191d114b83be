//! Readings of `1 + 2 + 3` by one binary production.
ghost use Rattle.std.specs.Prelude.{IsTrue};
ghost use Rattle.mau_chart.specs.Chart.{AreForms, AreLeaves};

use mau_chart::{Forest, Leaf, Piece, Production, Said, read};
use mau_terms::{NoMemory, OpId};
use std::alloc::Global;
use std::process::Abort;
use std::test::Fail;

/// The word is of kind 0, and a term of kind 1; numbers have level 1, and sums level 42.
fn sums(alloc: Global, left: u32) -> Result<Vec<Production>, NoMemory> {
    let mut pieces = Vec::new(alloc);
    pieces.push(Piece {
        kind: 1,
        upto: left,
    })?;
    pieces.push(Piece { kind: 0, upto: 0 })?;
    pieces.push(Piece { kind: 1, upto: 42 })?;
    let mut productions = Vec::new(alloc);
    productions.push(Production {
        kind: 1,
        level: 42,
        op: Some(OpId(7)),
        pieces,
    })?;
    Ok(productions)
}

/// Whether the leaves lie within the text.
fn are_leaves(leaves: &[Leaf], n: usize) -> bool
    ensures { IsTrue result → AreLeaves leaves.now n }
{
    for k in 0..leaves.len() {
        let leaf = leaves[k];
        if leaf.start >= leaf.end {
            return false;
        }
        if leaf.end > n {
            return false;
        }
    }
    true
}

/// Whether each production has a piece.
fn are_forms(productions: &[Production]) -> bool
    ensures { IsTrue result → AreForms productions.now }
{
    for k in 0..productions.len() {
        if productions[k].pieces.len() == 0 {
            return false;
        }
    }
    true
}

/// A number at each even place of the text and a word at each odd one.
fn leaf(i: usize) -> Leaf {
    let (kind, level, said) = if i % 2 == 0 {
        (1, 1, Said::Num(i as u128))
    } else {
        (0, 0, Said::Word)
    };
    Leaf {
        kind,
        level,
        start: i,
        end: i.saturating_add(1),
        said,
    }
}

/// How many readings the text of so many tokens has: 2 for any more than one.
fn readings(rt: &impl Abort, alloc: Global, n: usize, left: u32) -> Result<u8, NoMemory> {
    let productions = sums(alloc, left)?;
    assert!(rt; n < 1000);
    let mut leaves = Vec::new(alloc);
    for i in 0..n {
        leaves.push(leaf(i))?;
    }
    assert!(rt; are_forms(&productions));
    assert!(rt; are_leaves(&leaves, n));
    let (_, reading) = read(alloc, &productions, &leaves, n, 1, 2)?;
    Ok(match reading {
        Forest::Nothing => 0,
        Forest::One(_) => 1,
        Forest::Two(_, _) => 2,
    })
}

/// How many tokens, the level that the left place of a sum takes, and how many readings.
const ROWS: [(usize, u32, u8); 7] = [
    (1, 42, 1),
    (2, 42, 0),
    (3, 42, 1),
    (5, 42, 2),
    (5, 41, 1),
    (15, 42, 2),
    (15, 41, 1),
];

#[test]
fn readings_are_none_one_or_two(rt: HostRuntime) -> Result<(), Fail> {
    for (n, left, wanted) in ROWS {
        let found = readings(&rt, rt.alloc(), n, left)?;
        assert_eq!(rt; found, wanted, "{n} {left}");
    }
    Ok(())
}
