// A relation on the numbers below n as a table of bits: a row of `width` words for each number.
ghost use Rattle.std.specs.Prelude.{◌≡◌, ℕ, ◌+◌, ◌*◌, ◌/◌, ◌<◌, ◌≤◌, ◌↔◌, IsTrue, IfNone, IfSome, List, length, slice_index, slice_set};
ghost use Rattle.std.specs.Bool.{OnFalse};
ghost use Rattle.std.specs.Int.RustNames.{bit_or};
ghost use Rattle.mau_poset.specs.Order.{Leads};
ghost use Rattle.mau_poset.specs.Closure.{HasOnlyChains, IsClosedAt};
ghost use Rattle.mau_poset.specs.Table.{width_of, HasBit, TakesUp, Grew, IsLeastLoop};

use crate::MAX_SORTS;

// How many words a row of `n` bits takes.
pub fn width_of(n: usize) -> usize
    requires { n ≤ MAX_SORTS }
    ensures { result ≡ width_of n }
{
    (n + 63) / 64
}

// Whether the bit of `b` is set in row `a`.
pub fn has_bit(table: &[u64], width: usize, a: usize, b: usize) -> bool
    requires { a * width + b / 64 < length table.now }
    ensures { IsTrue result ↔ HasBit width table.now a b }
{
    (table[a * width + b / 64] >> (b % 64)) & 1 == 1
}

// Adds the bits of `more` to a word. Says whether that changed it.
fn raise(table: &mut [u64], at: usize, more: u64) -> bool
    requires { at < length table.old }
    ensures word { table.new ≡ slice_set table.old at (bit_or (slice_index table.old at) more) }
    ensures grew { Grew result table.old table.new }
{
    let had = table[at];
    if had | more == had {
        return false;
    }
    table[at] = had | more;
    true
}

// Adds the bits of row `b` to row `a`. Says whether that changed the table.
fn take_up(table: &mut [u64], width: usize, a: usize, b: usize) -> bool
    requires a_in { a * width + width ≤ length table.old }
    requires b_in { b * width + width ≤ length table.old }
    ensures taken { TakesUp width table.old table.new a b width }
    ensures grew { Grew result table.old table.new }
{
    let mut changed = false;
    for k in 0..width {
        let more = table[b * width + k];
        if raise(table, a * width + k, more) {
            changed = true;
        }
    }
    changed
}

// Adds `b`, and all that row `b` has, to row `a`. Says whether that changed the table.
pub fn add(table: &mut [u64], n: usize, a: usize, b: usize) -> bool
    requires a_in { a < n }
    requires b_in { b < n }
    requires small { n ≤ MAX_SORTS }
    requires room { length table.old ≡ n * width_of n }
    ensures sound { (pairs : List (ℕ × ℕ))
        → Leads pairs a b
        → HasOnlyChains pairs n table.old
        → HasOnlyChains pairs n table.new }
    ensures grew { Grew result table.old table.new }
    ensures closed { OnFalse result (IsClosedAt n table.new a b) }
{
    let width = width_of(n);
    let taken = take_up(table, width, a, b);
    let set = raise(table, a * width + b / 64, 1 << (b % 64));
    set || taken
}

// The least number whose own bit is set in its row.
pub fn least_loop(table: &[u64], n: usize) -> Option<u32>
    requires small { n ≤ MAX_SORTS }
    requires room { length table.now ≡ n * width_of n }
    ensures none { IfNone result ((a : ℕ) → a < n → ¬ HasBit (width_of n) table.now a a) }
    ensures least { IfSome result (IsLeastLoop n table.now) }
{
    let width = width_of(n);
    for a in 0..n {
        if has_bit(table, width, a, a) {
            return Some(a as u32);
        }
    }
    None
}
