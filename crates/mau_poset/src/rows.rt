// The order in which the rows of the closure are best made. Nothing rests on it but the time that the closure takes.
ghost use Rattle.std.specs.Prelude.{◌≡◌, ◌<◌, ◌≤◌, [], length, All, IfOk, OnOk, vec_len};
ghost use Rattle.mau_poset.specs.Order.{IsWithin};
ghost use Rattle.mau_poset.specs.Graph.{AreNeighbours, AreUppers};

use crate::MAX_SORTS;
use std::alloc::{AllocError, Global};

// How far a number is in the search for components.
#[derive(Clone, Copy, PartialEq, Eq)]
enum Mark {
    Waiting,
    Reached,
    Ordered,
}

// `n` empty lists.
fn empty_lists(alloc: Global, n: usize) -> Result<Vec<Vec<u32>>, AllocError>
    ensures { IfOk result (λ lists. (vec_len lists ≡ n) × All (λ list. list.items ≡ []) lists.items) }
{
    let mut lists = Vec::with_capacity(alloc, n)?;
    for _ in 0..n {
        lists.push(Vec::new(alloc))?;
    }
    Ok(lists)
}

// For each number the numbers to which a pair leads from it.
pub fn uppers(alloc: Global, n: usize, pairs: &[(u32, u32)]) -> Result<Vec<Vec<u32>>, AllocError>
    requires { IsWithin pairs.now n }
    ensures len { IfOk result (λ lists. vec_len lists ≡ n) }
    ensures within { IfOk result (λ lists. AreNeighbours lists.items) }
    ensures leads { IfOk result (λ lists. AreUppers pairs.now lists.items) }
{
    let mut lists = empty_lists(alloc, n)?;
    for (a, b) in pairs {
        lists[*a as usize].push(*b)?;
    }
    Ok(lists)
}

// For each number the numbers from which a pair leads to it.
pub fn lowers(alloc: Global, n: usize, pairs: &[(u32, u32)]) -> Result<Vec<Vec<u32>>, AllocError>
    requires { IsWithin pairs.now n }
    ensures len { IfOk result (λ lists. vec_len lists ≡ n) }
    ensures within { IfOk result (λ lists. AreNeighbours lists.items) }
{
    let mut lists = empty_lists(alloc, n)?;
    for (a, b) in pairs {
        lists[*b as usize].push(*a)?;
    }
    Ok(lists)
}

// The numbers in the order in which a depth-first search along the lists finishes them, where `steps` is at least the
// number of pairs and numbers.
fn finishing_order(alloc: Global, lists: &[Vec<u32>], steps: usize) -> Result<Vec<u32>, AllocError>
    requires within { AreNeighbours lists.now }
    requires small { length lists.now ≤ MAX_SORTS }
    ensures { IfOk result (λ order. All (λ a. a < length lists.now) order.items) }
{
    let mut seen = vec![in alloc; false; lists.len()]?;
    let mut order = Vec::new(alloc);
    for root in 0..lists.len() {
        if !seen[root] {
            seen[root] = true;
            finish(alloc, lists, root as u32, steps, &mut seen, &mut order)?;
        }
    }
    Ok(order)
}

// Follows the entry at `next` in the list of `a`. Says whether there is one.
fn follow(
    lists: &[Vec<u32>],
    a: u32,
    next: usize,
    seen: &mut [bool],
    stack: &mut Vec<(u32, usize)>,
) -> Result<bool, AllocError>
    requires within { AreNeighbours lists.now }
    requires a { a < length lists.now }
    requires seen { length seen.old ≡ length lists.now }
    requires stack { All (λ e. e.0 < length lists.now) stack.old.items }
    ensures { OnOk result (All (λ e. e.0 < length lists.now) stack.new.items) }
{
    let Some(b) = lists[a as usize].get(next) else {
        return Ok(false);
    };
    stack.push((a, next + 1))?;
    if !seen[*b as usize] {
        seen[*b as usize] = true;
        stack.push((*b, 0))?;
    }
    Ok(true)
}

// Searches from `root` for what is not seen yet. Each step follows one pair or finishes one number, so as many as there
// are of both are enough.
fn finish(
    alloc: Global,
    lists: &[Vec<u32>],
    root: u32,
    steps: usize,
    seen: &mut [bool],
    order: &mut Vec<u32>,
) -> Result<(), AllocError>
    requires within { AreNeighbours lists.now }
    requires root { root < length lists.now }
    requires seen { length seen.old ≡ length lists.now }
    requires order { All (λ a. a < length lists.now) order.old.items }
    ensures { All (λ a. a < length lists.now) order.new.items }
{
    let mut stack = vec![in alloc; (root, 0usize)]?;
    for _ in 0..steps {
        let Some((a, next)) = stack.pop() else {
            return Ok(());
        };
        if !follow(lists, a, next, seen, &mut stack)? {
            order.push(a)?;
        }
    }
    Ok(())
}

// Marks those of `list` that are marked `from` by `to`, and adds them to `found`.
fn take_marked(
    list: &[u32],
    mark: &mut [Mark],
    from: Mark,
    to: Mark,
    found: &mut Vec<u32>,
) -> Result<(), AllocError>
    requires list { All (λ b. b < length mark.old) list.now }
    requires found { All (λ b. b < length mark.old) found.old.items }
    ensures { All (λ b. b < length mark.new) found.new.items }
{
    for b in list {
        if mark[*b as usize] == from {
            mark[*b as usize] = to;
            found.push(*b)?;
        }
    }
    Ok(())
}

// What `start` leads to along the lists among the numbers marked `from`, nearest first. They are marked `to`.
fn reach(
    alloc: Global,
    lists: &[Vec<u32>],
    start: u32,
    mark: &mut [Mark],
    from: Mark,
    to: Mark,
) -> Result<Vec<u32>, AllocError>
    requires within { AreNeighbours lists.now }
    requires start { start < length lists.now }
    requires mark { length mark.old ≡ length lists.now }
    ensures { IfOk result (λ found. All (λ a. a < length lists.now) found.items) }
{
    mark[start as usize] = to;
    let mut found = vec![in alloc; start]?;
    for next in 0..lists.len() {
        if next >= found.len() {
            break;
        }
        take_marked(&lists[found[next] as usize], mark, from, to, &mut found)?;
    }
    Ok(found)
}

// Adds to `order` what closes the rows of the component of `start`. The rows above the component are closed already.
// Farthest first, each row takes up those of the numbers that were reached from it, so the last, that of `start`, has
// all. Then nearest first, each row takes up one that has all.
fn add_component(
    alloc: Global,
    uppers: &[Vec<u32>],
    lowers: &[Vec<u32>],
    start: u32,
    mark: &mut [Mark],
    order: &mut Vec<u32>,
) -> Result<(), AllocError>
    requires uppers { AreNeighbours uppers.now }
    requires lowers { AreNeighbours lowers.now }
    requires same { length uppers.now ≡ length lowers.now }
    requires start { start < length lowers.now }
    requires mark { length mark.old ≡ length lowers.now }
    requires order { All (λ a. a < length lowers.now) order.old.items }
    ensures { All (λ a. a < length lowers.now) order.new.items }
{
    let mut above = reach(alloc, uppers, start, mark, Mark::Waiting, Mark::Reached)?;
    let below = reach(alloc, lowers, start, mark, Mark::Reached, Mark::Ordered)?;
    above.reverse();
    order.extend_from_slice(&above)?;
    if below.len() > 1 {
        order.extend_from_slice(&below)?;
    }
    Ok(())
}

// An order of the rows, some of them twice: where each in turn takes up the rows of its uppers, all are closed in the
// end. `steps` is at least the number of pairs and numbers.
//
// The strongly connected components come one by one, those above a component before it. They are found by two searches,
// first depth first along `lowers`, then from the last finished number to the first along `uppers` (Kosaraju; M. Sharir,
// A strong-connectivity algorithm and its applications in data flow analysis, 1981). Each search follows each pair
// once.
pub fn row_order(
    alloc: Global,
    uppers: &[Vec<u32>],
    lowers: &[Vec<u32>],
    steps: usize,
) -> Result<Vec<u32>, AllocError>
    requires uppers { AreNeighbours uppers.now }
    requires lowers { AreNeighbours lowers.now }
    requires same { length uppers.now ≡ length lowers.now }
    requires small { length lowers.now ≤ MAX_SORTS }
    ensures { IfOk result (λ order. All (λ a. a < length lowers.now) order.items) }
{
    let mut finished = finishing_order(alloc, lowers, steps)?;
    finished.reverse();
    let mut mark = vec![in alloc; Mark::Waiting; lowers.len()]?;
    let mut order = Vec::new(alloc);
    for start in &finished {
        if mark[*start as usize] == Mark::Waiting {
            add_component(alloc, uppers, lowers, *start, &mut mark, &mut order)?;
        }
    }
    Ok(order)
}
