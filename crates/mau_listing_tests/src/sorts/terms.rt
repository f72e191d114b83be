//! A store, a table of its sorts and their signature. Each call asserts what the call of the crate asks.
//!
//! Terms are written behind their arguments: `07f` is f(0, 7), and `x` and `y` are variables, of NAT and of its kind. The
//! operator u takes all that stands before it: `aaau` is the list of three.
use super::{NAT, NUMBERS};
use crate::notation::last;
use crate::stores::application;
use mau_signature::Signature;
use mau_sorts::{SortTable, are_terms};
use mau_store::{NodeView, Store};
use mau_terms::{NoMemory, TermId, VarId};
use std::alloc::Global;
use std::marker::Model;
use std::process::Abort;
use std::test::Fail;

#[derive(Drop)]
pub struct Terms {
    sig: Signature,
    store: Store,
    table: SortTable,
}

impl Model for Terms {
    ghost use Rattle.mau_sorts.specs.Table.{Table, AreOver};

    ghost Value = { Table };

    ghost view = { λ t. t.table };

    ghost invariant = { λ t. AreOver t.sig.hierarchy t.table };
}

/// The operator of a letter, with the number of its arguments where it does not take all.
fn operator(letter: u8) -> Option<(u32, Option<usize>)> {
    match letter {
        b'a' => Some((1, Some(0))),
        b'p' => Some((2, Some(0))),
        b'e' => Some((3, Some(0))),
        b'f' => Some((4, Some(2))),
        b'c' => Some((5, Some(2))),
        b'g' => Some((6, Some(1))),
        b'h' => Some((7, Some(1))),
        b's' => Some((8, Some(1))),
        b'u' => Some((9, None)),
        _ => None,
    }
}

impl Terms {
    /// No terms.
    pub fn new(alloc: Global, sig: Signature) -> Terms {
        Terms {
            sig,
            store: Store::new(alloc),
            table: SortTable::new(alloc),
        }
    }

    pub fn table(&self) -> &SortTable {
        &self.table
    }

    /// The number of an operator over terms.
    pub fn over(&mut self, rt: &impl Abort, op: u32, args: &[TermId]) -> Result<TermId, NoMemory> {
        application(rt, &mut self.store, op, args)
    }

    /// The number of a variable.
    pub fn variable(&mut self, sort: u32) -> Result<TermId, NoMemory> {
        self.store.intern(NodeView::Var(VarId { index: 0, sort }))
    }

    /// The number of the leaf of a letter that is no operator.
    fn leaf(&mut self, letter: u8) -> Result<TermId, Fail> {
        match letter {
            b'0'..=b'9' => Ok(self.store.intern(NodeView::Num((letter - b'0') as u128))?),
            b'x' => Ok(self.variable(NAT)?),
            b'y' => Ok(self.variable(NUMBERS)?),
            _ => Err(Fail::from("no letter of the notation")),
        }
    }

    /// The number of the term that a text stands for. Nothing of it is settled by this.
    pub fn number(&mut self, rt: &impl Abort, alloc: Global, text: &str) -> Result<TermId, Fail> {
        let mut ids = Vec::new(alloc);
        for letter in text.bytes() {
            let next = match operator(letter) {
                Some((op, count)) => {
                    let count = count.unwrap_or(ids.len());
                    self.over(rt, op, &last(alloc, &mut ids, count)?)?
                }
                None => self.leaf(letter)?,
            };
            ids.push(next)?;
        }
        Ok(ids.pop().ok_or("no term")?)
    }

    /// Whether each term is one over the signature.
    pub fn are_terms(&self) -> bool {
        are_terms(&self.sig, &self.store)
    }

    /// Whether `settle_declared` can be asked for a term.
    pub fn is_ready(&self, id: TermId) -> bool {
        self.table.is_ready(&self.sig, &self.store, id)
    }

    pub fn settle_declared(
        &mut self,
        rt: &impl Abort,
        id: TermId,
        more: &[u32],
    ) -> Result<(), NoMemory> {
        let sorts = self.sig.poset().sorts();
        assert!(rt; self.table.is_ready(&self.sig, &self.store, id));
        assert!(rt; !self.table.is_settled(id));
        assert!(rt; more.iter().all(|sort| *sort < sorts));
        self.table.settle_declared(&self.sig, &self.store, id, more)
    }

    pub fn settle_term(&mut self, rt: &impl Abort, id: TermId) -> Result<(), NoMemory> {
        assert!(rt; are_terms(&self.sig, &self.store));
        assert!(rt; id.0 < self.store.len());
        self.table.settle_term(&self.sig, &self.store, id)
    }

    pub fn has(&self, rt: &impl Abort, id: TermId, sort: u32) -> Option<bool> {
        assert!(rt; sort < self.sig.poset().sorts() + self.sig.poset().kinds());
        self.table.has(&self.sig, id, sort)
    }
}
