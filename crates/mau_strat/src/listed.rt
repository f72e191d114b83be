//! The configurations that a run has reached.
ghost use Rattle.std.specs.Prelude.{◌≡◌, ◌↔◌, ◌∷◌, ◌++◌, ◌<◌, [], length, slice_index, Contains, IsTrue, OnOk, OnErr};

use indexmap::IndexSet;
use mau_terms::NoMemory;
use std::alloc::Global;
use std::marker::Model;

/// Configurations by their numbers, in the order of entry, seen as their list.
#[derive(Drop)]
pub struct Listed {
    entries: IndexSet<usize>,
}

impl Model for Listed {
    ghost use Rattle.std.specs.Prelude.{ℕ, List};

    ghost Value = { List ℕ };

    ghost view = { λ l. l.entries.keys };
}

impl Listed {
    /// None.
    pub(crate) fn new(alloc: Global) -> Listed
        ensures { result ≡ [] }
    {
        Listed {
            entries: IndexSet::new(alloc),
        }
    }

    /// How many there are.
    pub fn len(&self) -> usize
        ensures { result ≡ length self.now }
    {
        self.entries.len()
    }

    /// Whether there is none.
    pub fn is_empty(&self) -> bool
        ensures { IsTrue result ↔ (length self.now ≡ 0) }
    {
        self.entries.is_empty()
    }

    /// The one at a place, counted from 0.
    pub fn at(&self, place: usize) -> usize
        requires { place < length self.now }
        ensures { result ≡ slice_index self.now place }
    {
        self.entries.as_slice()[place]
    }

    /// Whether a configuration is listed.
    pub fn contains(&self, config: usize) -> bool
        ensures { IsTrue result ↔ Contains self.now config }
    {
        self.entries.contains(&config)
    }

    /// Lists another one.
    pub(crate) fn add(&mut self, config: usize) -> Result<(), NoMemory>
        requires { Contains self.old config → ⊥ }
        ensures ok { OnOk result (self.new ≡ self.old ++ config ∷ []) }
        ensures err { OnErr result (self.new ≡ self.old) }
    {
        self.entries.insert_full(config)?;
        Ok(())
    }
}
