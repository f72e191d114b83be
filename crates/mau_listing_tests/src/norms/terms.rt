//! Terms of a store, for tests: each was built, so it is in normal form and within the limits.
ghost use Rattle.std.specs.Prelude.{◌≡◌, ◌⊎◌, ◌++◌, ◌∷◌, [], true, All, Contains};
ghost use Rattle.mau_signature.specs.Signature.{IsOperator};

use mau_canon::{
    BuildFault, build, build_around, build_bare, build_instance, from_list, list_of, read,
};
use mau_signature::{Signature, is_bare};
use mau_sorts::are_terms;
use mau_store::Store;
use mau_terms::{Bare, NoMemory, OpId, TermId, VarId};
use std::alloc::{AllocError, Global};
use std::marker::Model;
use std::process::Abort;

/// A store, its signature, and the terms that were built.
#[derive(Drop)]
pub struct Terms {
    store: Store,
    sig: Signature,
    ids: Vec<TermId>,
}

impl Model for Terms {
    ghost use Rattle.std.specs.Prelude.{List, ℕ};

    ghost Value = { List ℕ };

    ghost use Rattle.mau_signature.specs.Signature.{theory_at};
    ghost use Rattle.mau_store.specs.View.{numbers};
    ghost use Rattle.mau_canon.specs.Standing.{StandWithin};

    ghost view = { λ t. numbers t.ids.items };

    ghost invariant = { λ t. StandWithin (theory_at t.sig) t.store (numbers t.ids.items) };
}

/// An operator of the signature.
fn operator(rt: &impl Abort, sig: &Signature, op: u32) -> OpId
    ensures { IsOperator sig.now result.0 }
{
    assert!(rt; 0 < op && op <= sig.operators());
    OpId(op)
}

/// Whether each of the terms is among `ids`.
fn are_among(terms: &[TermId], ids: &[TermId]) -> bool
    ensures { result ≡ true → All (Contains ids.now) terms.now }
{
    for term in terms {
        if !ids.contains(term) {
            return false;
        }
    }
    true
}

/// Adds a term.
fn keep(ids: &mut Vec<TermId>, id: TermId) -> Result<TermId, BuildFault>
    ensures { (ids.new.items ≡ ids.old.items) ⊎ (ids.new.items ≡ ids.old.items ++ id ∷ []) }
{
    match ids.push(id) {
        Ok(()) => Ok(id),
        Err(_) => Err(BuildFault::NoMemory),
    }
}

impl Terms {
    /// No terms.
    pub fn new(alloc: Global, sig: Signature) -> Terms {
        Terms {
            store: Store::new(alloc),
            sig,
            ids: Vec::new(alloc),
        }
    }

    /// The term by `build`.
    pub fn over(
        &mut self,
        rt: &impl Abort,
        op: u32,
        args: &[TermId],
    ) -> Result<TermId, BuildFault> {
        let op = operator(rt, &self.sig, op);
        assert!(rt; are_among(args, &self.ids));
        let id = build(&mut self.store, &self.sig, op, args)?;
        keep(&mut self.ids, id)
    }

    /// The term by `from_list`.
    pub fn list(
        &mut self,
        rt: &impl Abort,
        op: u32,
        items: &[TermId],
    ) -> Result<TermId, BuildFault> {
        let op = operator(rt, &self.sig, op);
        assert!(rt; are_among(items, &self.ids));
        let id = from_list(&mut self.store, &self.sig, op, items)?;
        keep(&mut self.ids, id)
    }

    /// The list of all terms by `from_list`.
    pub fn list_of_all(&mut self, rt: &impl Abort, op: u32) -> Result<TermId, BuildFault> {
        let op = operator(rt, &self.sig, op);
        from_list(&mut self.store, &self.sig, op, &self.ids)
    }

    /// The term by `build_bare`.
    pub fn bare(&mut self, rt: &impl Abort, term: &Bare) -> Result<TermId, BuildFault> {
        assert!(rt; is_bare(&self.sig, term));
        let id = build_bare(&mut self.store, &self.sig, term)?;
        keep(&mut self.ids, id)
    }

    /// The instance of a term by `build_instance`.
    pub fn instance(
        &mut self,
        rt: &impl Abort,
        term: &Bare,
        variables: &[VarId],
        values: &[TermId],
    ) -> Result<TermId, BuildFault> {
        assert!(rt; is_bare(&self.sig, term));
        assert!(rt; are_among(values, &self.ids));
        let id = build_instance(&mut self.store, &self.sig, term, variables, values)?;
        keep(&mut self.ids, id)
    }

    /// The instance of a term between a list and the same list, by `build_around`.
    pub fn within(
        &mut self,
        rt: &impl Abort,
        op: u32,
        left: &[TermId],
        term: &Bare,
        variables: &[VarId],
        values: &[TermId],
    ) -> Result<TermId, BuildFault> {
        let op = operator(rt, &self.sig, op);
        assert!(rt; is_bare(&self.sig, term));
        assert!(rt; are_among(left, &self.ids));
        assert!(rt; are_among(values, &self.ids));
        let id = build_around(
            &mut self.store,
            &self.sig,
            op,
            left,
            term,
            variables,
            values,
            left,
        )?;
        keep(&mut self.ids, id)
    }

    /// A term as it is read.
    pub fn read(&self, rt: &impl Abort, id: TermId) -> Result<Bare, NoMemory> {
        assert!(rt; are_terms(&self.sig, &self.store));
        assert!(rt; id.0 < self.store.len());
        read(self.store.allocator(), &self.store, &self.sig, id)
    }

    /// The list of a term by `list_of`.
    pub fn elements(
        &self,
        rt: &impl Abort,
        op: u32,
        id: TermId,
    ) -> Result<Vec<TermId>, AllocError> {
        let op = operator(rt, &self.sig, op);
        assert!(rt; id.0 < self.store.len());
        Vec::from_slice(
            self.store.allocator(),
            list_of(&self.store, &self.sig, op, &id),
        )
    }
}
