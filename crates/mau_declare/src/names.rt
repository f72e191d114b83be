//! Names, numbered in the order in which they were added.
ghost use Rattle.std.specs.Prelude.{◌≡◌, ◌<◌, ◌≤◌, ◌+◌, [], length, not, slice_get, IfOk, OnOk, OnErr, IfSome};
ghost use Rattle.std.specs.Option.{option_copied};
ghost use Rattle.mau_grammar.specs.Names.{AreDistinct};
ghost use Rattle.mau_declare.specs.Names.{has_name, with_name, number_of};

use indexmap::IndexSet;
use mau_terms::NoMemory;
use std::alloc::Global;
use std::marker::Model;

/// Names in order, each once.
#[derive(Drop)]
pub struct Names {
    alloc: Global,
    names: IndexSet<String>,
}

impl Model for Names {
    ghost use Rattle.std.specs.Prelude.{List, ℕ, map, string_bytes};
    ghost use Rattle.mau_grammar.specs.Names.{AreDistinct};

    ghost Value = { List (List ℕ) };

    ghost view = { λ n. map string_bytes n.names.keys };

    ghost invariant = { λ n. AreDistinct (map string_bytes n.names.keys) };
}

impl Names {
    /// No names.
    pub fn new(alloc: Global) -> Names
        ensures { result ≡ [] }
    {
        Names {
            alloc,
            names: IndexSet::new(alloc),
        }
    }

    /// What takes memory for names.
    pub fn allocator(&self) -> Global {
        self.alloc
    }

    /// How many names there are.
    pub fn len(&self) -> usize
        ensures count { result ≡ length self.now }
        ensures distinct { AreDistinct self.now }
    {
        self.names.len()
    }

    /// Adds a name at the end, unless it is there. Says whether it was new. Out of memory, the names stay as they were.
    pub fn add(&mut self, name: &str) -> Result<bool, NoMemory>
        ensures new { IfOk result (λ is_new. is_new ≡ not (has_name self.old name.now)) }
        ensures names { OnOk result (self.new ≡ with_name self.old name.now) }
        ensures few { OnOk result (length self.new ≤ length self.old + 1) }
        ensures kept { OnErr result (self.new ≡ self.old) }
    {
        let name = String::from_str(self.alloc, name)?;
        let (_, is_new) = self.names.insert_full(name)?;
        Ok(is_new)
    }

    /// The number of a name, counted from 0.
    pub fn number(&self, name: &str) -> Option<usize>
        ensures number { result ≡ number_of self.now name.now }
        ensures within { IfSome result (λ number. number < length self.now) }
    {
        self.names.get_index_of(name)
    }

    /// The name with a number.
    pub fn get(&self, number: usize) -> Option<&str>
        ensures { option_copied result ≡ slice_get self.now number }
    {
        match self.names.get_index(number) {
            Some(name) => Some(name.as_str()),
            None => None,
        }
    }
}
