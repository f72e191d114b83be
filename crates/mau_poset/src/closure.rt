// The transitive closure of the subsort pairs, as a table of bits: row a has the bit of each b to which a chain of at
// least one pair leads from a.
//
// For a pair (a, b) row a takes up b and all that row b has, n / 64 words. That is right at any time, and the table is
// whole once a run over all pairs changes nothing. So the closure ends in such runs. Each but the last sets a bit, so
// they end. They are few: the rows are first made from the top down, as `row_order` says, which closes them all, and
// the first run finds nothing to add. In all each pair is taken at most three times, in about n * pairs / 20 steps, and
// the table has n * n / 8 bytes. (P. Purdom, A transitive closure algorithm, 1970; E. Nuutila, Efficient transitive
// closure computation in large digraphs, 1995; S. Warshall, A theorem on Boolean matrices, 1962, for rows of bits.)
ghost use Rattle.std.specs.Prelude.{◌≡◌, ℕ, ◌*◌, ◌<◌, ◌≤◌, List, length, All, IfOk};
ghost use Rattle.std.specs.Bool.{OnFalse};
ghost use Rattle.mau_poset.specs.Order.{Leads, IsWithin};
ghost use Rattle.mau_poset.specs.Graph.{AreNeighbours, AreUppers};
ghost use Rattle.mau_poset.specs.Table.{width_of, Grew};
ghost use Rattle.mau_poset.specs.Closure.{HasOnlyChains, IsClosedUnder, IsClosureOf};

use crate::MAX_SORTS;
use crate::rows::{lowers, row_order, uppers};
use crate::table::{add, width_of};
use std::alloc::{AllocError, Global};

// Adds each of `uppers` to row `a`.
fn add_all(table: &mut [u64], n: usize, a: usize, uppers: &[u32])
    requires a { a < n }
    requires uppers { All (λ b. b < n) uppers.now }
    requires small { n ≤ MAX_SORTS }
    requires room { length table.old ≡ n * width_of n }
    ensures { (pairs : List (ℕ × ℕ))
        → All (Leads pairs a) uppers.now
        → HasOnlyChains pairs n table.old
        → HasOnlyChains pairs n table.new }
{
    for b in uppers {
        let _ = add(table, n, a, *b as usize);
    }
}

// Adds to each row of `order` its uppers, in that order.
fn run_in_order(table: &mut [u64], n: usize, order: &[u32], uppers: &[Vec<u32>])
    requires order { All (λ a. a < n) order.now }
    requires len { length uppers.now ≡ n }
    requires uppers { AreNeighbours uppers.now }
    requires small { n ≤ MAX_SORTS }
    requires room { length table.old ≡ n * width_of n }
    ensures { (pairs : List (ℕ × ℕ))
        → AreUppers pairs uppers.now
        → HasOnlyChains pairs n table.old
        → HasOnlyChains pairs n table.new }
{
    for a in order {
        let own = &uppers[*a as usize];
        add_all(table, n, *a as usize, own);
    }
}

// One run over the pairs. Says whether it changed the table.
fn run(table: &mut [u64], n: usize, pairs: &[(u32, u32)]) -> bool
    requires within { IsWithin pairs.now n }
    requires small { n ≤ MAX_SORTS }
    requires room { length table.old ≡ n * width_of n }
    ensures sound { HasOnlyChains pairs.now n table.old → HasOnlyChains pairs.now n table.new }
    ensures grew { Grew result table.old table.new }
    ensures closed { OnFalse result (IsClosedUnder pairs.now n table.new) }
{
    let mut changed = false;
    for (a, b) in pairs {
        if add(table, n, *a as usize, *b as usize) {
            changed = true;
        }
    }
    changed
}

// Adds what is missing: first along `order`, and then in runs over all pairs until one changes nothing.
fn close(table: &mut [u64], n: usize, pairs: &[(u32, u32)], order: &[u32], uppers: &[Vec<u32>])
    requires within { IsWithin pairs.now n }
    requires order { All (λ a. a < n) order.now }
    requires len { length uppers.now ≡ n }
    requires uppers { AreNeighbours uppers.now }
    requires leads { AreUppers pairs.now uppers.now }
    requires small { n ≤ MAX_SORTS }
    requires room { length table.old ≡ n * width_of n }
    requires sound { HasOnlyChains pairs.now n table.old }
    ensures { IsClosureOf pairs.now n table.new }
{
    run_in_order(table, n, order, uppers);
    while run(table, n, pairs) {}
}

// The closure of the pairs on the numbers below `n`.
pub fn closure(alloc: Global, n: usize, pairs: &[(u32, u32)]) -> Result<Vec<u64>, AllocError>
    requires small { n ≤ MAX_SORTS }
    requires within { IsWithin pairs.now n }
    ensures { IfOk result (λ table. IsClosureOf pairs.now n table.items) }
{
    let above = uppers(alloc, n, pairs)?;
    let below = lowers(alloc, n, pairs)?;
    let order = row_order(alloc, &above, &below, n + pairs.len())?;
    let mut table = vec![in alloc; 0u64; n * width_of(n)]?;
    close(&mut table, n, pairs, &order, &above);
    Ok(table)
}
