//! Lists as numbers.
ghost use Rattle.std.specs.Prelude.{◌≡◌, ◌⊎◌, ◌∷◌, ◌++◌, ◌<◌, [], length, slice_get, Some, IfOk, OnOk, OnErr, MatchOption};
ghost use Rattle.mau_strat.specs.Sharing.{list_at, EachOnce};

use crate::numbered::Exact;
use indexmap::IndexSet;
use mau_terms::NoMemory;
use std::alloc::Global;
use std::marker::Model;

/// A list as it is stored: its first element, and the number of the rest.
#[derive(Clone, Copy, PartialEq, Eq, Hash)]
pub struct Link<T> {
    pub first: T,
    pub rest: usize,
}

/// Lists by their numbers: seen as the list of them, in which no list stands twice. The empty one has the number 0. A list is stored as
/// one element before another list.
#[derive(Drop)]
pub struct Lists<T: Exact> {
    links: IndexSet<Link<T>>,
}

impl<T: Exact> Model for Lists<T> {
    ghost use Rattle.std.specs.Prelude.{List};

    ghost Value = { List (List T) };

    ghost use Rattle.mau_strat.specs.Sharing.{lists_of, AreLinks};

    ghost view = { λ l. lists_of l.links.keys };

    ghost invariant = { λ l. AreLinks l.links.keys };
}

impl<T: Exact> Lists<T> {
    /// The empty list alone.
    pub(crate) fn new(alloc: Global) -> Lists<T>
        ensures { result ≡ [] ∷ [] }
    {
        Lists {
            links: IndexSet::new(alloc),
        }
    }

    /// How many lists have numbers, the empty one among them.
    pub(crate) fn len(&self) -> usize
        ensures { result ≡ length self.now }
    {
        self.links.len() + 1
    }

    /// The number of the list with this first element and this rest. A list that is there keeps its number; another goes last. Out
    /// of memory, the lists stay as they were.
    pub(crate) fn add(&mut self, first: T, rest: usize) -> Result<usize, NoMemory>
        requires { rest < length self.old }
        ensures ok { IfOk result (λ list. slice_get self.new list ≡ Some (first ∷ list_at self.old rest)) }
        ensures added { (self.new ≡ self.old) ⊎ (self.new ≡ self.old ++ (first ∷ list_at self.old rest) ∷ []) }
        ensures unchanged { OnErr result (self.new ≡ self.old) }
        ensures once { EachOnce self.new }
    {
        let (place, _) = self.links.insert_full(Link { first, rest })?;
        // Fewer than 2^63 are stored, so the number fits.
        let _stored = self.links.len();
        Ok(place + 1)
    }

    /// The first element of a list and the number of the rest, and none of the empty list.
    pub(crate) fn parts(&self, list: usize) -> Option<(T, usize)>
        requires { list < length self.now }
        ensures parts { MatchOption result (list_at self.now list ≡ []) (λ p. list_at self.now list ≡ p.0 ∷ list_at self.now p.1) }
        ensures older { MatchOption result (list ≡ 0) (λ p. p.1 < list) }
        ensures once { EachOnce self.now }
    {
        let links = self.links.as_slice();
        if list == 0 {
            return None;
        }
        let link = &links[list - 1];
        Some((link.first, link.rest))
    }
}
