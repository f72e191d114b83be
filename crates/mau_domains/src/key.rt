//! How values are compared.
ghost use Rattle.std.specs.Prelude.{◌≡◌, IfSome};
ghost use Rattle.mau_terms.specs.Solution.{value_key};
ghost use Rattle.mau_signature.specs.Signature.{theory_at};
ghost use Rattle.mau_store.specs.Node.{AreOf};
ghost use Rattle.mau_store.specs.Trees.{tree_at, trees_at};
ghost use Rattle.mau_store.specs.View.{numbers};
ghost use Rattle.mau_canon.specs.Standing.{StandsWithin};
ghost use Rattle.mau_listing.specs.Places.{operator_number};
ghost use Rattle.mau_domains.specs.Stored.{IsListOperator};
ghost use Rattle.mau_domains.specs.Lists.{is_own};

use mau_canon::list_of;
use mau_signature::Signature;
use mau_store::Store;
use mau_terms::{OpId, TermId};
use std::slice;

/// Whether values are compared as lists of an operator.
pub fn is_own(under: Option<OpId>, op: OpId) -> bool
    ensures { result ≡ is_own (operator_number under) op.0 }
{
    match under {
        Some(top) => top == op,
        None => false,
    }
}

/// How a value is compared: as its list under the operator, if there is one, and else as it is.
pub fn key_of<'a>(
    store: &'a Store,
    sig: &Signature,
    under: Option<OpId>,
    value: &'a TermId,
) -> &'a [TermId]
    requires under { IfSome under (λ op. IsListOperator sig.now op.0) }
    requires value { StandsWithin (theory_at sig.now) store.now value.now.0 }
    ensures key { trees_at store.now (numbers result.now) ≡ value_key (theory_at sig.now) (operator_number under) (tree_at store.now value.entry.now.0) }
    ensures there { AreOf store.now (numbers result.now) }
{
    match under {
        Some(op) => list_of(store, sig, op, value),
        None => slice::from_ref(value),
    }
}
