//! Values as numbers.
ghost use Rattle.std.specs.Prelude.{◌≡◌, ◌⊎◌, ◌∷◌, ◌++◌, ◌<◌, [], length, slice_get, Some, IfOk, OnErr};
ghost use Rattle.std.specs.Bool.{Decides};
ghost use Rattle.mau_strat.specs.Sharing.{EachOnce};

use indexmap::IndexSet;
use mau_terms::NoMemory;
use std::alloc::Global;
use std::hash::Hash;
use std::marker::Model;

/// Small values of which `==` says whether they are one.
pub trait Exact: Copy + Eq + Hash {
    ghost exact: { (x y : Self) → Decides (Self.eq x y) (x ≡ y) };
}

/// Values by their numbers, which are their places: seen as their list, in which no value stands twice.
#[derive(Drop)]
pub struct Numbered<T: Exact> {
    items: IndexSet<T>,
}

impl<T: Exact> Model for Numbered<T> {
    ghost use Rattle.std.specs.Prelude.{List};

    ghost Value = { List T };

    ghost use Rattle.mau_strat.specs.Sharing.{EachOnce};

    ghost view = { λ n. n.items.keys };

    ghost invariant = { λ n. EachOnce n.items.keys };
}

impl<T: Exact> Numbered<T> {
    /// None.
    pub(crate) fn new(alloc: Global) -> Numbered<T>
        ensures { result ≡ [] }
    {
        Numbered {
            items: IndexSet::new(alloc),
        }
    }

    /// How many there are.
    pub(crate) fn len(&self) -> usize
        ensures { result ≡ length self.now }
    {
        self.items.len()
    }

    /// The number of a value. One that is there keeps its number; another goes last. Out of memory, all stay as they were.
    pub(crate) fn add(&mut self, item: T) -> Result<usize, NoMemory>
        ensures ok { IfOk result (λ number. slice_get self.new number ≡ Some item) }
        ensures added { (self.new ≡ self.old) ⊎ (self.new ≡ self.old ++ item ∷ []) }
        ensures unchanged { OnErr result (self.new ≡ self.old) }
        ensures once { EachOnce self.new }
    {
        let (number, _) = self.items.insert_full(item)?;
        Ok(number)
    }

    /// The value with a number.
    pub(crate) fn at(&self, number: usize) -> T
        requires { number < length self.now }
        ensures item { slice_get self.now number ≡ Some result }
        ensures once { EachOnce self.now }
    {
        self.items.as_slice()[number]
    }
}
