//! Where the lists of two items or more begin that are behind a value.
ghost use Rattle.std.specs.Prelude.{IfSome};
ghost use Rattle.std.specs.Option.{option_map};
ghost use Rattle.mau_signature.specs.Signature.{theory_at};
ghost use Rattle.mau_store.specs.Node.{AreOf, IsOf};
ghost use Rattle.mau_store.specs.Trees.{tree_at, trees_at};
ghost use Rattle.mau_store.specs.View.{numbers};
ghost use Rattle.mau_canon.specs.Standing.{StandsWithin};
ghost use Rattle.mau_listing.specs.Places.{operator_number};
ghost use Rattle.mau_domains.specs.Stored.{tree_in, IsListOperator};
ghost use Rattle.mau_domains.specs.Lists.{StartsAt, StartsBehind};

use crate::key::{is_own, key_of};
use mau_signature::Signature;
use mau_store::{NodeView, Store};
use mau_terms::{OpId, TermId};
use std::cmp::Ordering;

/// The list from which on an operator over a list is behind a term, in the order of terms.
fn start_behind<'a>(store: &'a Store, op: OpId, term: &TermId) -> Option<&'a [TermId]>
    requires { IsOf store.now term.now.0 }
    ensures start { StartsBehind op.0 (tree_at store.now term.entry.now.0) (option_map (λ list. trees_at store.now (numbers list.now)) result) }
    ensures there { IfSome result (λ list. AreOf store.now (numbers list.now)) }
{
    match store.view(*term) {
        NodeView::App(top, args) => match top.cmp(&op) {
            Ordering::Less => Some(&[]),
            Ordering::Equal => Some(args),
            Ordering::Greater => None,
        },
        _ => Some(&[]),
    }
}

/// The list from which on an operator over a list is behind a value.
pub fn start_of<'a>(
    store: &'a Store,
    sig: &Signature,
    under: Option<OpId>,
    op: OpId,
    after: &'a Option<TermId>,
) -> Option<&'a [TermId]>
    requires under { IfSome under (λ op. IsListOperator sig.now op.0) }
    requires operator { IsListOperator sig.now op.0 }
    requires after { IfSome after.now (λ id. StandsWithin (theory_at sig.now) store.now id.0) }
    ensures start { StartsAt (theory_at sig.now) (operator_number under) op.0 (tree_in store.now after.entry.now) (option_map (λ list. trees_at store.now (numbers list.now)) result) }
    ensures there { IfSome result (λ list. AreOf store.now (numbers list.now)) }
{
    let Some(last) = after else {
        return Some(&[]);
    };
    let key = key_of(store, sig, under, last);
    if is_own(under, op) {
        return Some(key);
    }
    match key {
        [] => Some(&[]),
        [first, ..] => start_behind(store, op, first),
    }
}
