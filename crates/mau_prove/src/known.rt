//! Which terms of a run's store are terms of the program within the limits, and what is kept of these.
ghost use Rattle.std.specs.Prelude.{◌≡◌, ◌++◌, ◌∷◌, [], List, Option, IfOk, IfSome, IsTrue, OnOk, OnErr};
ghost use Rattle.mau_signature.specs.Signature.{SignatureOf};
ghost use Rattle.mau_signature.specs.OverSignature.{IsTreeOver};
ghost use Rattle.mau_store.specs.Node.{Node, Extends, IsOf};
ghost use Rattle.mau_store.specs.Trees.{tree_at};
ghost use Rattle.mau_api.specs.Terms.{IsTerm};
ghost use Rattle.mau_prove.specs.Making.{AreSomeKept, IsOne};
ghost use Rattle.mau_prove.specs.Sorting.{IsKeptTerm};

use crate::lines::HOLE;
use crate::nodes::{Owned, copy_of};
use mau_check::{Holes, Kept, build_over, kept_all, kept_at, numeral};
use mau_program::Program;
use mau_signature::Signature;
use mau_store::{NodeView, Store};
use mau_terms::{NoMemory, TermId, VarId};
use std::alloc::Global;

/// The place of a term among what is kept, counted from 1.
fn place_of(id: TermId) -> u64 {
    (id.0 as u64).saturating_add(1)
}

/// The places of some terms.
fn places_of(alloc: Global, ids: &[TermId]) -> Result<Vec<u64>, NoMemory> {
    let mut places = Vec::with_capacity(alloc, ids.len())?;
    for id in ids {
        places.push(place_of(*id))?;
    }
    Ok(places)
}

/// A variable that is no hole, if there is its sort or kind.
fn known_variable(
    store: &mut Store,
    sig: &Signature,
    variable: VarId,
) -> Result<Option<Kept>, NoMemory>
    ensures one { IfOk result (λ o. IfSome o (IsOne sig.now store.new)) }
    ensures extends { Extends store.old store.new }
{
    let poset = sig.poset();
    if variable.index >= HOLE || variable.sort >= poset.sorts() + poset.kinds() {
        return Ok(None);
    }
    let id = store.intern(NodeView::Var(variable))?;
    Ok(Some(Kept {
        id,
        kind: sig.poset().kind_of(variable.sort),
        holes: Holes::Absent,
    }))
}

/// What is kept of a node, over what is kept of older ones. Nothing is, where it is no term of the program within the limits.
fn kept_node(
    store: &mut Store,
    program: &Program,
    kept: &[Option<Kept>],
    node: &Owned,
) -> Result<Option<Kept>, NoMemory>
    requires kept { AreSomeKept program.now.sig store.old kept.now }
    ensures one { IfOk result (λ o. IfSome o (IsOne program.now.sig store.new)) }
    ensures extends { Extends store.old store.new }
{
    match node {
        Owned::Num(value) => numeral(store, &program.sig, *value),
        Owned::Var(variable) => known_variable(store, &program.sig, *variable),
        Owned::App(op, args) => {
            let places = places_of(store.allocator(), args)?;
            let terms = match kept_all(store.allocator(), kept, &places) {
                Ok(Some(terms)) => terms,
                Ok(None) => return Ok(None),
                Err(fault) => return Err(fault),
            };
            build_over(store, &program.sig, op.0, &terms)
        }
    }
}

/// What is kept of a node, if the node is its own normal form.
fn own(found: Option<Kept>, place: usize) -> Option<Kept>
    ensures { (s : SignatureOf) (nodes : List Node) → IfSome found (IsOne s nodes) → IfSome result (IsOne s nodes) }
{
    match found {
        Some(kept) => {
            if kept.id.0 == place {
                return Some(kept);
            }
            None
        }
        None => None,
    }
}

/// Adds what is kept of a node, if anything is.
fn push_kept(kept: &mut Vec<Option<Kept>>, found: Option<Kept>) -> Result<(), NoMemory>
    ensures added { OnOk result (kept.new.items ≡ kept.old.items ++ found ∷ []) }
    ensures unchanged { OnErr result (kept.new.items ≡ kept.old.items) }
{
    kept.push(found)?;
    Ok(())
}

/// Adds what is kept of a node of a store.
fn add_known(
    store: &mut Store,
    program: &Program,
    kept: &mut Vec<Option<Kept>>,
    place: usize,
) -> Result<(), NoMemory>
    requires there { IsOf store.old place }
    requires kept { AreSomeKept program.now.sig store.old kept.old.items }
    ensures kept { AreSomeKept program.now.sig store.new kept.new.items }
    ensures extends { Extends store.old store.new }
{
    let node = copy_of(store, TermId(place))?;
    let found = kept_node(store, program, kept, &node)?;
    push_kept(kept, own(found, place))
}

/// Adds what is kept of the terms of a store that are not there yet.
pub fn complete_known(
    store: &mut Store,
    program: &Program,
    kept: &mut Vec<Option<Kept>>,
) -> Result<(), NoMemory>
    requires { AreSomeKept program.now.sig store.old kept.old.items }
    ensures kept { AreSomeKept program.now.sig store.new kept.new.items }
    ensures extends { Extends store.old store.new }
{
    let count = store.len();
    for i in kept.len()..count {
        add_known(store, program, kept, i)?;
    }
    Ok(())
}

/// What is kept of a term.
pub fn known_at(kept: &[Option<Kept>], id: TermId) -> Option<Kept>
    ensures { (s : SignatureOf) (nodes : List Node) → AreSomeKept s nodes kept.now → IfSome result (IsKeptTerm s nodes id.0) }
{
    match kept_at(kept, place_of(id)) {
        Some(found) => {
            if found.id.0 == id.0 {
                return Some(found);
            }
            None
        }
        None => None,
    }
}

/// Whether a term is one of the program within the limits.
pub fn is_term(sig: &Signature, kept: &[Option<Kept>], id: TermId) -> bool
    ensures term { (nodes : List Node) → AreSomeKept sig.now nodes kept.now → IsTrue result → IsTerm sig.now nodes id.0 }
    ensures tree { (nodes : List Node) → AreSomeKept sig.now nodes kept.now → IsTrue result → IsTreeOver sig.now (tree_at nodes id.0) }
{
    let _ = sig.operators();
    match known_at(kept, id) {
        Some(_) => true,
        None => false,
    }
}
