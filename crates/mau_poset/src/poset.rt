// Sorts with their subsort order, and the kinds above them.
ghost use Rattle.std.specs.Prelude.{◌≡◌, ℕ, ◌+◌, ◌<◌, ◌≤◌, ◌↔◌, IsTrue, All, Contains, IfOk, IfErr, IfSome, IfNone};
ghost use Rattle.mau_poset.specs.Order.{Hierarchy, IsWithin, IsBelow, IsLeastCycle, IsPoset, kinds, kind_of, IsAtOrBelow, IsLeastOf};
ghost use Rattle.mau_poset.specs.Closure.{IsClosureOf};
ghost use Rattle.mau_poset.specs.Fault.{IfCycle};

use crate::MAX_SORTS;
use crate::closure::closure;
use crate::fault::PosetFault;
use crate::kinds::number_kinds;
use crate::table::{has_bit, least_loop, width_of};
use std::alloc::Global;
use std::marker::Model;

/// The sorts, which are the numbers below `sorts()`, and the kinds, which are the `kinds()` numbers from there on, in
/// their order. A contract sees the number of sorts and the subsort pairs that it was built from.
#[derive(Drop)]
pub struct Poset {
    sorts: u32,
    pairs: Vec<(u32, u32)>,
    // The bit of b in row a says whether a is below b.
    table: Vec<u64>,
    // The number of each sort's kind, counted from 0.
    numbers: Vec<u32>,
    kinds: u32,
}

impl Model for Poset {
    ghost use Rattle.mau_poset.specs.Order.{Hierarchy};
    ghost use Rattle.mau_poset.specs.Built.{IsBuilt};

    ghost Value = { Hierarchy };

    ghost view = { λ p. record { sorts = p.sorts; pairs = p.pairs.items } };

    ghost invariant = { λ p. IsBuilt (record { sorts = p.sorts; pairs = p.pairs.items }) p.table.items p.numbers.items p.kinds };
}

impl Poset {
    /// The order of `n` sorts in which for each pair (a, b) the sort a is a subsort of b. A pair may come more than once.
    ///
    /// The answer is `Cycle` exactly where a chain of at least one pair leads from a sort back to it, as the pair (a, a)
    /// does. It takes about n * pairs / 20 steps, and n * n / 8 bytes beside the pairs.
    pub fn build(alloc: Global, n: u32, pairs: &[(u32, u32)]) -> Result<Poset, PosetFault>
        requires sorts { n ≤ MAX_SORTS }
        requires within { IsWithin pairs.now n }
        ensures ok { IfOk result (λ poset. poset ≡ record { sorts = n; pairs = pairs.now }) }
        ensures poset { IfOk result IsPoset }
        ensures cycle { IfErr result (λ fault. IfCycle fault (IsLeastCycle pairs.now)) }
    {
        let table = closure(alloc, n as usize, pairs)?;
        match least_loop(&table, n as usize) {
            Some(a) => Err(PosetFault::Cycle(a, a)),
            None => Poset::over(alloc, n, pairs, table),
        }
    }

    // The poset of pairs whose closure is `table`.
    fn over(
        alloc: Global,
        n: u32,
        pairs: &[(u32, u32)],
        table: Vec<u64>,
    ) -> Result<Poset, PosetFault>
        requires sorts { n ≤ MAX_SORTS }
        requires poset { IsPoset (record { sorts = n; pairs = pairs.now }) }
        requires table { IsClosureOf pairs.now n table.items }
        ensures ok { IfOk result (λ poset. poset ≡ record { sorts = n; pairs = pairs.now }) }
        ensures no_memory { IfErr result (λ fault. fault ≡ PosetFault.NoMemory) }
    {
        let (numbers, kinds) = number_kinds(alloc, n, pairs)?;
        let pairs = Vec::from_slice(alloc, pairs)?;
        Ok(Poset {
            sorts: n,
            pairs,
            table,
            numbers,
            kinds,
        })
    }

    /// How many sorts there are.
    pub fn sorts(&self) -> u32
        ensures value { result ≡ self.now.sorts }
        ensures limit { result ≤ MAX_SORTS }
        ensures poset { IsPoset self.now }
    {
        self.sorts
    }

    /// How many kinds there are.
    pub fn kinds(&self) -> u32
        ensures value { result ≡ kinds self.now }
        ensures limit { result ≤ self.now.sorts }
        ensures poset { IsPoset self.now }
    {
        self.kinds
    }

    // Whether a chain of at least one pair leads from `a` to `b`.
    fn is_below(&self, a: u32, b: u32) -> bool
        ensures { IsTrue result ↔ IsBelow self.now.pairs a b }
    {
        if a >= self.sorts || b >= self.sorts {
            return false;
        }
        let width = width_of(self.sorts as usize);
        has_bit(&self.table, width, a as usize, b as usize)
    }

    /// Whether `a` is at or below `b`, two sorts or kinds, in constant time.
    pub fn leq(&self, a: u32, b: u32) -> bool
        requires a { a < self.now.sorts + kinds self.now }
        requires b { b < self.now.sorts + kinds self.now }
        ensures value { IsTrue result ↔ IsAtOrBelow self.now a b }
        ensures poset { IsPoset self.now }
    {
        let kind = self.kind_of(a);
        if a == b || kind == b {
            return true;
        }
        self.is_below(a, b)
    }

    /// The kind of a sort, in constant time. A kind is its own kind.
    pub fn kind_of(&self, a: u32) -> u32
        requires { a < self.now.sorts + kinds self.now }
        ensures value { result ≡ kind_of self.now a }
        ensures kind { (self.now.sorts ≤ result) × (result < self.now.sorts + kinds self.now) }
        ensures poset { IsPoset self.now }
    {
        if a < self.sorts {
            self.sorts + self.numbers[a as usize]
        } else {
            a
        }
    }

    /// The one of some sorts and kinds that is at or below each of them, if one is. It takes two comparisons for each.
    pub fn least_of(&self, sorts: &[u32]) -> Option<u32>
        requires { All (λ s. s < self.now.sorts + kinds self.now) sorts.now }
        ensures least { IfSome result (IsLeastOf self.now sorts.now) }
        ensures none { IfNone result ((m : ℕ) → ¬ IsLeastOf self.now sorts.now m) }
        ensures poset { IsPoset self.now }
    {
        // That the order is transitive is needed below, and a use of a field tells it.
        let _ = &self.sorts;
        let lowest = self.lowest_of(sorts)?;
        if self.is_below_all(lowest, sorts) {
            Some(lowest)
        } else {
            None
        }
    }

    // The one of `sorts` that is the least if one is. No other can be: it is at or below the least.
    fn lowest_of(&self, sorts: &[u32]) -> Option<u32>
        requires { All (λ s. s < self.now.sorts + kinds self.now) sorts.now }
        ensures member { IfSome result (Contains sorts.now) }
        ensures lowest { IfSome result (λ s. (m : ℕ) → IsLeastOf self.now sorts.now m → IsAtOrBelow self.now s m) }
        ensures none { IfNone result ((m : ℕ) → ¬ Contains sorts.now m) }
    {
        let mut lowest = *sorts.first()?;
        for sort in sorts {
            if self.leq(*sort, lowest) {
                lowest = *sort;
            }
        }
        Some(lowest)
    }

    // Whether `a` is at or below each of `sorts`.
    fn is_below_all(&self, a: u32, sorts: &[u32]) -> bool
        requires a { a < self.now.sorts + kinds self.now }
        requires sorts { All (λ s. s < self.now.sorts + kinds self.now) sorts.now }
        ensures { IsTrue result ↔ All (IsAtOrBelow self.now a) sorts.now }
    {
        for sort in sorts {
            if !self.leq(a, *sort) {
                return false;
            }
        }
        true
    }
}
