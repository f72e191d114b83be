//! Putting into a store, and settling, what a listing needs.
ghost use Rattle.std.specs.Prelude.{◌≡◌, ℕ, Some, OnOk};
ghost use Rattle.mau_terms.specs.Norm.{unit_tree};
ghost use Rattle.mau_terms.specs.declared.theory.Identity.{Identity};
ghost use Rattle.mau_signature.specs.Signature.{IsOperator, theory_at};
ghost use Rattle.mau_store.specs.Node.{Extends, IsOf};
ghost use Rattle.mau_sorts.specs.HasSort.{Known};
ghost use Rattle.mau_sorts.specs.Table.{AreOver, EachIsOver, KeepsEntries};
ghost use Rattle.mau_canon.specs.Standing.{IsNumberOf};
ghost use Rattle.mau_listing.specs.Asked.{Asked, IsSettledFor, IsTableOf, IsClosedTable};
ghost use Rattle.mau_listing.specs.Prepared.{HasIdentities, AllAreSettled};

use crate::settle::settle_ready;
use mau_signature::Signature;
use mau_sorts::SortTable;
use mau_store::{NodeView, Store};
use mau_terms::{Identity, NoMemory, OpId, TermId};

/// Puts the identity of an operator into a store, if it has one.
fn put_identity(store: &mut Store, sig: &Signature, op: OpId) -> Result<(), NoMemory>
    requires operator { IsOperator sig.now op.0 }
    ensures there { OnOk result ((i : Identity) → (theory_at sig.now op.0).id ≡ Some i → (n : ℕ) × IsNumberOf store.new n (unit_tree i)) }
    ensures extends { Extends store.old store.new }
    ensures terms { EachIsOver sig.now store.old → EachIsOver sig.now store.new }
{
    match sig.theory(op).id {
        None => Ok(()),
        Some(Identity::Const(constant)) => {
            store.intern(NodeView::App(constant, &[]))?;
            Ok(())
        }
        Some(Identity::Num(number)) => {
            store.intern(NodeView::Num(number))?;
            Ok(())
        }
    }
}

/// Puts the identities of all operators into a store.
pub fn put_identities(store: &mut Store, sig: &Signature) -> Result<(), NoMemory>
    ensures identities { OnOk result (HasIdentities sig.now store.new) }
    ensures extends { Extends store.old store.new }
    ensures terms { EachIsOver sig.now store.old → EachIsOver sig.now store.new }
{
    for number in 0..sig.operators() {
        put_identity(store, sig, OpId(number + 1))?;
    }
    Ok(())
}

/// Settles the sorts of all terms of a store, by declarations alone, as far as they are not settled. They are terms over the signature,
/// as `mau_sorts::are_terms` tells. Where the identities are among them, this is what a listing needs for each of them as a subject.
pub fn settle_store(store: &Store, sig: &Signature, sorts: &mut SortTable) -> Result<(), NoMemory>
    requires terms { EachIsOver sig.now store.now }
    requires over { AreOver sig.now.hierarchy sorts.old }
    ensures settled { OnOk result (AllAreSettled store.now sorts.new) }
    ensures ready { OnOk result (HasIdentities sig.now store.now → (a : Asked) → IsOf store.now a.subject.0 → IsSettledFor sig.now store.now sorts.new a) }
    ensures kept { KeepsEntries sorts.old sorts.new }
    ensures over { AreOver sig.now.hierarchy sorts.new }
    ensures table { (known : Known) → IsTableOf sig.now known store.now sorts.old → IsTableOf sig.now known store.now sorts.new }
    ensures closed { IsClosedTable store.now sorts.old → IsClosedTable store.now sorts.new }
{
    for i in 0..store.len() {
        settle_ready(store, sig, sorts, TermId(i))?;
    }
    Ok(())
}
