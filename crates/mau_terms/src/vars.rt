//! The variables of an item, numbered in the order in which they first come.
ghost use Rattle.std.specs.Prelude.{◌≡◌, ◌<◌, ◌≤◌, ◌↔◌, [], length, slice_get, IfOk, OnOk, OnErr, IsSome, IfSome, IfNone, IsTrue};
ghost use Rattle.mau_terms.specs.Vars.{place_of, with_pair, AreDistinct, IsGiven};

use crate::{NoMemory, VarId};
use indexmap::IndexSet;
use std::alloc::Global;
use std::marker::Model;

/// The variables of an item: their names and sorts, in the order in which they were added, each pair once. A variable is
/// the place of its pair, with its sort.
#[derive(Drop)]
pub struct Vars {
    alloc: Global,
    pairs: IndexSet<Pair>,
}

/// A name and the number of a sort.
#[derive(Drop, PartialEq, Eq, Hash)]
struct Pair {
    name: String,
    sort: u32,
}

impl Pair {
    ghost use Rattle.mau_terms.specs.View.{pair_of};

    fn new(alloc: Global, name: &str, sort: u32) -> Result<Pair, NoMemory>
        ensures { IfOk result (λ p. pair_of p ≡ (name.now, sort)) }
    {
        Ok(Pair {
            name: String::from_str(alloc, name)?,
            sort,
        })
    }
}

impl Model for Vars {
    ghost use Rattle.std.specs.Prelude.{List, ℕ, map};

    ghost Value = { List (List ℕ × ℕ) };

    ghost use Rattle.mau_terms.specs.Vars.{AreDistinct};
    ghost use Rattle.mau_terms.specs.View.{pair_of};

    ghost view = { λ v. map pair_of v.pairs.keys };

    ghost invariant = { λ v. AreDistinct (map pair_of v.pairs.keys) };
}

impl Vars {
    /// No variables. What is added later is allocated by `alloc`.
    pub fn new(alloc: Global) -> Vars
        ensures { result ≡ [] }
    {
        Vars {
            alloc,
            pairs: IndexSet::new(alloc),
        }
    }

    /// The number of variables.
    pub fn len(&self) -> usize
        ensures counted { result ≡ length self.now }
        ensures distinct { AreDistinct self.now }
    {
        self.pairs.len()
    }

    /// Whether there are none.
    pub fn is_empty(&self) -> bool
        ensures { IsTrue result ↔ (length self.now ≡ 0) }
    {
        self.pairs.is_empty()
    }

    /// The variable with this name and sort. A pair that is there keeps its number; another goes last. Out of memory, the
    /// variables stay as they were.
    pub fn add(&mut self, name: &str, sort: u32) -> Result<VarId, NoMemory>
        requires room { length self.old < 4294967295 }
        ensures ok { IfOk result (λ v. v.index ≡ place_of self.old (name.now, sort)) }
        ensures sort { IfOk result (λ v. v.sort ≡ sort) }
        ensures pairs { OnOk result (self.new ≡ with_pair self.old (name.now, sort)) }
        ensures err { OnErr result (self.new ≡ self.old) }
        ensures distinct { AreDistinct self.new }
    {
        let pair = Pair::new(self.alloc, name, sort)?;
        let (index, _) = self.pairs.insert_full(pair)?;
        Ok(VarId {
            index: index as u32,
            sort,
        })
    }

    /// The name and the sort of a variable. None for a variable that was not given: where its index is not below the
    /// number of variables, or the pair at its index has another sort.
    pub fn get(&self, v: VarId) -> Option<(&str, u32)>
        ensures given { IsSome result ↔ IsGiven self.now v }
        ensures value { IfSome result (λ p. slice_get self.now v.index ≡ Some (p.0.now, p.1)) }
        ensures sort { IfSome result (λ p. p.1 ≡ v.sort) }
        ensures distinct { AreDistinct self.now }
    {
        let pair = self.pairs.get_index(v.index as usize)?;
        if pair.sort == v.sort {
            Some((pair.name.as_str(), pair.sort))
        } else {
            None
        }
    }

    /// The variable with a number, counted from 0. None where there are not so many.
    pub fn variable(&self, index: u32) -> Option<VarId>
        ensures given { IfSome result (λ v. (v.index ≡ index) × IsGiven self.now v) }
        ensures none { IfNone result (length self.now ≤ index) }
    {
        match self.pairs.get_index(index as usize) {
            Some(pair) => Some(VarId {
                index,
                sort: pair.sort,
            }),
            None => None,
        }
    }
}
