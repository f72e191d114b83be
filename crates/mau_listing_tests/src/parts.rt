//! Rows of parts and their values in order, by hand.
ghost use Rattle.std.specs.Prelude.{IfOk, IfSome};
ghost use Rattle.mau_signature.specs.Signature.{theory_at};
ghost use Rattle.mau_canon.specs.Standing.{StandsWithin};
ghost use Rattle.mau_domains.specs.Stored.{IsListOperator, IsPartOver};

use crate::asking::{number, numbers};
use crate::notation::{operator, term};
use crate::signature::example;
use mau_canon::list_of;
use mau_domains::{Part, Reach, next_value};
use mau_listing::is_lawful;
use mau_signature::Signature;
use mau_store::Store;
use mau_terms::{NoMemory, OpId, Seq, TermId};
use std::alloc::Global;
use std::process::Abort;
use std::test::Fail;

/// An associative operator of the signature, by its letter.
fn list_operator(rt: &impl Abort, sig: &Signature, text: &str) -> Result<OpId, Fail>
    ensures { IfOk result (λ op. IsListOperator sig.now op.0) }
{
    let letter = text.bytes().next().ok_or("no operator")?;
    let (op, _) = operator(letter).ok_or("no letter of the notation")?;
    assert!(rt; 0 < op && op <= sig.operators());
    assert!(rt; sig.theory(OpId(op)).assoc);
    Ok(OpId(op))
}

/// The operator of a place, if there is one.
fn place(rt: &impl Abort, sig: &Signature, text: &str) -> Result<Option<OpId>, Fail>
    ensures { IfOk result (λ under. IfSome under (λ op. IsListOperator sig.now op.0)) }
{
    if text == "-" {
        return Ok(None);
    }
    let op = list_operator(rt, sig, text)?;
    Ok(Some(op))
}

/// How much of a list is meant.
fn reach(text: &str) -> Option<Reach> {
    match text {
        "whole" => Some(Reach::Whole),
        "front" => Some(Reach::Front),
        "inside" => Some(Reach::Inside),
        _ => None,
    }
}

/// The part of a term's list under an operator.
fn part_of(
    store: &Store,
    sig: &Signature,
    reach: Reach,
    op: OpId,
    subject: TermId,
) -> Result<Part, NoMemory>
    requires operator { IsListOperator sig.now op.0 }
    requires subject { StandsWithin (theory_at sig.now) store.now subject.0 }
    ensures { IfOk result (IsPartOver sig.now store.now) }
{
    is_lawful(sig);
    let items = Vec::from_slice(store.allocator(), list_of(store, sig, op, &subject))?;
    Ok(Part::ListOf(reach, op, Seq::new(items)))
}

/// The values of a part, each behind the one before it, twenty at most.
fn values(
    store: &mut Store,
    sig: &Signature,
    under: Option<OpId>,
    part: &Part,
) -> Result<Vec<TermId>, NoMemory>
    requires under { IfSome under (λ op. IsListOperator sig.now op.0) }
    requires part { IsPartOver sig.now store.old part.now }
{
    let mut values = Vec::new(store.allocator());
    let mut last = None;
    for _ in 0..20 {
        match next_value(store, sig, under, part, last)? {
            Some(value) => {
                values.push(value)?;
                last = Some(value);
            }
            None => return Ok(values),
        }
    }
    Ok(values)
}

/// The values of the part that a text says.
fn values_of(
    rt: &impl Abort,
    sig: &Signature,
    store: &mut Store,
    text: &str,
) -> Result<Vec<TermId>, Fail> {
    let mut words = text.split_whitespace();
    let under = place(rt, sig, words.next().ok_or("no place")?)?;
    let reach = reach(words.next().ok_or("no reach")?).ok_or("no such reach")?;
    let op = list_operator(rt, sig, words.next().ok_or("no operator")?)?;
    let subject = term(store.allocator(), words.next().ok_or("no subject")?)?;
    let id = number(rt, sig, store, &subject)?;
    let part = part_of(store, sig, reach, op, id)?;
    Ok(values(store, sig, under, &part)?)
}

/// The part on the left of a row has the values on its right.
fn has_values(rt: &impl Abort, alloc: Global, sig: &Signature, row: &str) -> Result<(), Fail> {
    let (part, wanted) = row.split_once(':').ok_or("no colon")?;
    let mut store = Store::new(alloc);
    let found = values_of(rt, sig, &mut store, part)?;
    let wanted = numbers(rt, sig, &mut store, wanted)?;
    assert_eq!(rt; found.as_slice(), wanted.as_slice(), "{row}");
    Ok(())
}

/// The operator of a place, or a dash; how much of the list of a subject under an operator; and the values of that part. The constants
/// a, b, e come first in the order of terms, then u, w, l, v; u and l have the identity e, u and w are commutative.
const ROWS: &str = "u whole u abu : abu
v whole u e : e
v whole v a : a
u inside u bau : e a abu b
- inside u bau : a b e abu
l inside u bau : e a b abu
u front u e : e
- front u eeu : e
v front u aabvu : a abv e aabvu
- front u aabvu : a e aabvu abv
w inside w babww : a abw abbww b bbw
- front w babww : a b abw abbww bbw
v front v abavv : a abv abavv
- front v babvv : b bav babvv
v inside v abavv : a abv abavv b bav
- inside v abavv : a b abv abavv bav
l front l bal : e b bal
- front l bal : b e bal
l inside l bal : e a b bal";

fn rows_have_values(rt: &impl Abort, alloc: Global) -> Result<(), Fail> {
    let sig = example(rt, alloc)?;
    for row in ROWS.lines() {
        has_values(rt, alloc, &sig, row)?;
    }
    Ok(())
}

#[test]
fn values_of_parts_ascend_each_once(rt: HostRuntime) -> Result<(), Fail> {
    rows_have_values(&rt, rt.alloc())
}

fn has_one_value(rt: &impl Abort, sig: &Signature, store: &mut Store) -> Result<(), Fail> {
    let term = term(store.allocator(), "abu")?;
    let id = number(rt, sig, store, &term)?;
    let found = values(store, sig, None, &Part::One(id))?;
    assert_eq!(rt; found.as_slice(), [id].as_slice());
    Ok(())
}

#[test]
fn one_term_is_its_only_value(rt: HostRuntime) -> Result<(), Fail> {
    let sig = example(&rt, rt.alloc())?;
    has_one_value(&rt, &sig, &mut Store::new(rt.alloc()))
}
