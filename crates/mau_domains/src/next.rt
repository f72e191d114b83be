//! The next value of a part behind another one.
ghost use Rattle.std.specs.Prelude.{◌≡◌, ◌≢◌, [], List, OnOk, IfOk, IfSome};
ghost use Rattle.mau_terms.specs.Tree.{Tree};
ghost use Rattle.mau_terms.specs.Finite.{units_of};
ghost use Rattle.mau_signature.specs.Signature.{theory_at};
ghost use Rattle.mau_store.specs.Node.{Extends};
ghost use Rattle.mau_store.specs.Trees.{tree_at, trees_at};
ghost use Rattle.mau_store.specs.View.{numbers};
ghost use Rattle.mau_canon.specs.Standing.{StandsWithin, StandWithin};
ghost use Rattle.mau_listing.specs.Places.{operator_number};
ghost use Rattle.mau_domains.specs.Parts.{some_of};
ghost use Rattle.mau_domains.specs.Search.{IsLeastOrNone};
ghost use Rattle.mau_domains.specs.Values.{IsValueOf, by_key};
ghost use Rattle.mau_domains.specs.Stored.{reach_of, part_in, tree_in, IsListOperator, AreItems, IsPartOver, AddsTerms, list_in};
ghost use Rattle.mau_domains.specs.Nearest.{HoldsNext};
ghost use Rattle.mau_domains.specs.Lists.{IsNodeIn, IsLeastLong, alone_of, whole_of};

use crate::build::build_list;
use crate::long::next_long;
use crate::nearest::nearest_behind;
use crate::start::start_of;
use crate::{Part, Reach};
use mau_listing::is_lawful;
use mau_signature::Signature;
use mau_store::Store;
use mau_terms::{NoMemory, OpId, TermId};
use std::alloc::Global;
use std::slice;

/// The only value of a whole list, if it has one: no items make a value only where the operator has an identity.
fn whole_values(
    store: &mut Store,
    sig: &Signature,
    op: OpId,
    items: &[TermId],
) -> Result<Vec<TermId>, NoMemory>
    requires operator { IsListOperator sig.now op.0 }
    requires items { AreItems sig.now store.old op.0 items.now }
    ensures terms { IfOk result (λ values. trees_at store.new (numbers values.items) ≡ whole_of (theory_at sig.now op.0) op.0 (trees_at store.old (numbers items.now))) }
    ensures within { IfOk result (λ values. StandWithin (theory_at sig.now) store.new (numbers values.items)) }
    ensures extends { Extends store.old store.new }
{
    let mut values = Vec::new(store.allocator());
    if !items.is_empty() || sig.theory(op).id.is_some() {
        let value = build_list(store, sig, op, items)?;
        values.push(value)?;
    }
    Ok(values)
}

/// The items that are alone such a list.
fn alone(alloc: Global, comm: bool, reach: Reach, items: &[TermId]) -> Result<Vec<TermId>, NoMemory>
    requires reach { reach ≢ Reach.Whole }
    ensures { IfOk result (λ values. values.items ≡ alone_of comm (reach_of reach) items.now) }
{
    let count = if comm || reach == Reach::Inside {
        items.len()
    } else {
        items.len().min(1)
    };
    Ok(Vec::from_slice(alloc, &items[..count])?)
}

/// Adds the identity of an operator, if it has one.
fn push_unit(
    store: &mut Store,
    sig: &Signature,
    op: OpId,
    values: &mut Vec<TermId>,
) -> Result<(), NoMemory>
    requires operator { IsListOperator sig.now op.0 }
    requires values { StandWithin (theory_at sig.now) store.old (numbers values.old.items) }
    ensures ok { OnOk result (AddsTerms sig.now store.old store.new values.old.items values.new.items (units_of (theory_at sig.now op.0).id)) }
    ensures extends { Extends store.old store.new }
{
    if sig.theory(op).id.is_some() {
        let unit = build_list(store, sig, op, &[])?;
        values.push(unit)?;
    }
    Ok(())
}

/// The least list of two items or more such that the operator over it is behind a value.
fn long_behind(
    store: &Store,
    sig: &Signature,
    under: Option<OpId>,
    reach: Reach,
    op: OpId,
    items: &[TermId],
    after: Option<TermId>,
) -> Result<Option<Vec<TermId>>, NoMemory>
    requires under { IfSome under (λ op. IsListOperator sig.now op.0) }
    requires reach { reach ≢ Reach.Whole }
    requires operator { IsListOperator sig.now op.0 }
    requires items { AreItems sig.now store.now op.0 items.now }
    requires after { IfSome after (λ id. StandsWithin (theory_at sig.now) store.now id.0) }
    ensures next { IfOk result (λ list. IsLeastLong (theory_at sig.now) (operator_number under) op.0 (theory_at sig.now op.0).comm (reach_of reach) (trees_at store.now (numbers items.now)) (tree_in store.now after) (list_in store.now list)) }
    ensures stand { IfOk result (λ list. IfSome list (λ v. StandWithin (theory_at sig.now) store.now (numbers v.items))) }
{
    is_lawful(sig);
    match start_of(store, sig, under, op, &after) {
        Some(start) => next_long(store, sig, sig.theory(op).comm, reach, items, start),
        None => Ok(None),
    }
}

/// Adds an operator over the least list of two items or more that is behind a value, if there is one.
fn push_long(
    store: &mut Store,
    sig: &Signature,
    under: Option<OpId>,
    reach: Reach,
    op: OpId,
    items: &[TermId],
    after: Option<TermId>,
    values: &mut Vec<TermId>,
) -> Result<(), NoMemory>
    requires under { IfSome under (λ op. IsListOperator sig.now op.0) }
    requires reach { reach ≢ Reach.Whole }
    requires operator { IsListOperator sig.now op.0 }
    requires items { AreItems sig.now store.old op.0 items.now }
    requires after { IfSome after (λ id. StandsWithin (theory_at sig.now) store.old id.0) }
    requires values { StandWithin (theory_at sig.now) store.old (numbers values.old.items) }
    ensures ok { OnOk result ((more : List Tree) × AddsTerms sig.now store.old store.new values.old.items values.new.items more
        × HoldsNext (by_key (theory_at sig.now) (operator_number under)) (IsNodeIn (theory_at sig.now op.0).comm (reach_of reach) op.0 (trees_at store.old (numbers items.now))) 0 (tree_in store.old after) more) }
    ensures extends { Extends store.old store.new }
{
    is_lawful(sig);
    let found = long_behind(store, sig, under, reach, op, items, after)?;
    match found {
        Some(list) => {
            let value = build_list(store, sig, op, &list)?;
            values.push(value)?;
            Ok(())
        }
        None => Ok(()),
    }
}

/// Values of a list part, among which is the next one behind a value.
fn list_values(
    store: &mut Store,
    sig: &Signature,
    under: Option<OpId>,
    reach: Reach,
    op: OpId,
    items: &[TermId],
    after: Option<TermId>,
) -> Result<Vec<TermId>, NoMemory>
    requires under { IfSome under (λ op. IsListOperator sig.now op.0) }
    requires reach { reach ≢ Reach.Whole }
    requires operator { IsListOperator sig.now op.0 }
    requires items { AreItems sig.now store.old op.0 items.now }
    requires after { IfSome after (λ id. StandsWithin (theory_at sig.now) store.old id.0) }
    ensures next { IfOk result (λ values. HoldsNext (by_key (theory_at sig.now) (operator_number under)) (IsValueOf (theory_at sig.now) (some_of (reach_of reach) op.0 (trees_at store.old (numbers items.now)))) 0
        (tree_in store.old after) (trees_at store.new (numbers values.items))) }
    ensures within { IfOk result (λ values. StandWithin (theory_at sig.now) store.new (numbers values.items)) }
    ensures extends { Extends store.old store.new }
{
    is_lawful(sig);
    let mut values = alone(store.allocator(), sig.theory(op).comm, reach, items)?;
    push_unit(store, sig, op, &mut values)?;
    push_long(store, sig, under, reach, op, items, after, &mut values)?;
    Ok(values)
}

/// Values of a part, among which is the next one behind a value.
fn values_of(
    store: &mut Store,
    sig: &Signature,
    under: Option<OpId>,
    part: &Part,
    after: Option<TermId>,
) -> Result<Vec<TermId>, NoMemory>
    requires under { IfSome under (λ op. IsListOperator sig.now op.0) }
    requires part { IsPartOver sig.now store.old part.now }
    requires after { IfSome after (λ id. StandsWithin (theory_at sig.now) store.old id.0) }
    ensures next { IfOk result (λ values. HoldsNext (by_key (theory_at sig.now) (operator_number under)) (IsValueOf (theory_at sig.now) (part_in store.old part.now)) 0
        (tree_in store.old after) (trees_at store.new (numbers values.items))) }
    ensures within { IfOk result (λ values. StandWithin (theory_at sig.now) store.new (numbers values.items)) }
    ensures extends { Extends store.old store.new }
{
    is_lawful(sig);
    match part {
        Part::One(id) => Ok(Vec::from_slice(store.allocator(), slice::from_ref(id))?),
        Part::ListOf(reach, op, items) => match *reach {
            Reach::Whole => whole_values(store, sig, *op, items.items()),
            some => list_values(store, sig, under, some, *op, items.items(), after),
        },
    }
}

/// The least value of a part behind another one, or the least of all where `after` is none, in the order of the values of a variable
/// that first occurs under the operator `under`, if that is associative.
pub fn next_value(
    store: &mut Store,
    sig: &Signature,
    under: Option<OpId>,
    part: &Part,
    after: Option<TermId>,
) -> Result<Option<TermId>, NoMemory>
    requires under { IfSome under (λ op. IsListOperator sig.now op.0) }
    requires part { IsPartOver sig.now store.old part.now }
    requires after { IfSome after (λ id. StandsWithin (theory_at sig.now) store.old id.0) }
    ensures next { IfOk result (λ value. IsLeastOrNone (by_key (theory_at sig.now) (operator_number under)) (IsValueOf (theory_at sig.now) (part_in store.old part.now)) 0
        (tree_in store.old after) (tree_in store.new value)) }
    ensures value { IfOk result (λ value. IfSome value (λ id. IsValueOf (theory_at sig.now) (part_in store.old part.now) (tree_at store.new id.0))) }
    ensures within { IfOk result (λ value. IfSome value (λ id. StandsWithin (theory_at sig.now) store.new id.0)) }
    ensures extends { Extends store.old store.new }
{
    is_lawful(sig);
    let values = values_of(store, sig, under, part, after)?;
    Ok(nearest_behind(store, sig, under, after, &values))
}
