//! A list of values, and values that can be copied.
ghost use Rattle.std.specs.Prelude.{◌≡◌, IfOk};

use crate::{NoMemory, OpId, TermId, VarId};
use std::alloc::Global;
use std::marker::Model;

/// Values in order, seen as their list.
#[derive(Drop, Debug)]
pub struct Seq<T> {
    items: Vec<T>,
}

impl<T> Model for Seq<T> {
    ghost use Rattle.std.specs.Prelude.{List};

    ghost Value = { List T };

    ghost view = { λ s. s.items.items };
}

impl<T> Seq<T> {
    /// The list of these values.
    pub fn new(items: Vec<T>) -> Seq<T>
        ensures { result ≡ items.items }
    {
        Seq { items }
    }

    /// The values.
    pub fn items(&self) -> &[T]
        ensures { result.now ≡ self.now }
    {
        &self.items
    }
}

/// What can be copied, where memory is found.
pub trait Duplicate: Sized {
    /// An equal value.
    fn copy(&self, alloc: Global) -> Result<Self, NoMemory>
        ensures { IfOk result (λ copy. copy ≡ self.now) };
}

impl<T: Duplicate + Drop> Duplicate for Seq<T> {
    fn copy(&self, alloc: Global) -> Result<Seq<T>, NoMemory> {
        let mut items = Vec::with_capacity(alloc, self.items.len())?;
        for item in &self.items {
            items.push(item.copy(alloc)?)?;
        }
        Ok(Seq { items })
    }
}

impl<A: Duplicate + Drop, B: Duplicate + Drop> Duplicate for (A, B) {
    fn copy(&self, alloc: Global) -> Result<(A, B), NoMemory> {
        let first = self.0.copy(alloc)?;
        let second = self.1.copy(alloc)?;
        Ok((first, second))
    }
}

impl Duplicate for u32 {
    fn copy(&self, _: Global) -> Result<u32, NoMemory> {
        Ok(*self)
    }
}

impl Duplicate for OpId {
    fn copy(&self, _: Global) -> Result<OpId, NoMemory> {
        Ok(*self)
    }
}

impl Duplicate for VarId {
    fn copy(&self, _: Global) -> Result<VarId, NoMemory> {
        Ok(*self)
    }
}

impl Duplicate for TermId {
    fn copy(&self, _: Global) -> Result<TermId, NoMemory> {
        Ok(*self)
    }
}
