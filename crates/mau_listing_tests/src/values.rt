//! Rows of operators, terms and what they can take as an argument, in order, by hand.
ghost use Rattle.std.specs.Prelude.{IfOk};
ghost use Rattle.mau_terms.specs.Bare.{IsBareIn};
ghost use Rattle.mau_terms.specs.Reading.{reading};
ghost use Rattle.mau_signature.specs.Signature.{IsOperator, terms_over, theory_at};
ghost use Rattle.mau_store.specs.Trees.{tree_at};
ghost use Rattle.mau_canon.specs.Standing.{StandsWithin};

use crate::asking::numbers;
use crate::notation::{operator, term};
use crate::signature::example;
use crate::taken::{is_of_kind, next_taken};
use mau_canon::build_bare;
use mau_signature::{Signature, is_bare};
use mau_store::Store;
use mau_terms::{Bare, NoMemory, OpId, TermId};
use std::alloc::Global;
use std::process::Abort;
use std::test::Fail;

/// An operator of the signature, and the number of a subject of the kind of its results.
fn asked(
    rt: &impl Abort,
    sig: &Signature,
    store: &mut Store,
    op: u32,
    subject: &Bare,
) -> Result<(OpId, TermId), Fail>
    ensures operator { IfOk result (λ p. IsOperator sig.now p.0.0) }
    ensures within { IfOk result (λ p. StandsWithin (theory_at sig.now) store.new p.1.0) }
    ensures kind { IfOk result (λ p. IsBareIn (terms_over sig.now) (reading (theory_at sig.now) (tree_at store.new p.1.0)) ((terms_over sig.now).result p.0.0)) }
{
    let count = sig.operators();
    assert!(rt; 0 < op && op <= count);
    let op = OpId(op);
    assert!(rt; is_bare(sig, subject));
    assert!(rt; is_of_kind(sig, op, subject));
    let id = build_bare(store, sig, subject)?;
    Ok((op, id))
}

/// All that a term can take, each behind the one before it, twenty at most.
fn values(
    store: &mut Store,
    sig: &Signature,
    op: OpId,
    argument: &Bare,
    subject: TermId,
) -> Result<Vec<TermId>, NoMemory>
    requires operator { IsOperator sig.now op.0 }
    requires subject { StandsWithin (theory_at sig.now) store.old subject.0 }
    requires kind { IsBareIn (terms_over sig.now) (reading (theory_at sig.now) (tree_at store.old subject.0)) ((terms_over sig.now).result op.0) }
{
    let mut values = Vec::new(store.allocator());
    let mut last = None;
    for _ in 0..20 {
        match next_taken(store, sig, op, argument, subject, last)? {
            Some(value) => {
                values.push(value)?;
                last = Some(value);
            }
            None => return Ok(values),
        }
    }
    Ok(values)
}

/// All that a term can take under an operator, as a text says both.
fn values_of(
    rt: &impl Abort,
    sig: &Signature,
    store: &mut Store,
    text: &str,
) -> Result<Vec<TermId>, Fail> {
    let mut words = text.split_whitespace();
    let letter = words
        .next()
        .ok_or("no operator")?
        .bytes()
        .next()
        .ok_or("no letter")?;
    let (op, _) = operator(letter).ok_or("no letter of the notation")?;
    let term = term(store.allocator(), words.next().ok_or("no term")?)?;
    let (op, subject) = asked(rt, sig, store, op, &term)?;
    Ok(values(store, sig, op, &term, subject)?)
}

/// The term on the left of a row can take just what stands on its right.
fn takes(rt: &impl Abort, alloc: Global, sig: &Signature, row: &str) -> Result<(), Fail> {
    let (asked, wanted) = row.split_once(':').ok_or("no colon")?;
    let mut store = Store::new(alloc);
    let found = values_of(rt, sig, &mut store, asked)?;
    let wanted = numbers(rt, sig, &mut store, wanted)?;
    assert_eq!(rt; found.as_slice(), wanted.as_slice(), "{row}");
    Ok(())
}

fn rows_are_taken(rt: &impl Abort, alloc: Global, rows: &str) -> Result<(), Fail> {
    let sig = example(rt, alloc)?;
    for row in rows.lines() {
        takes(rt, alloc, &sig, row)?;
    }
    Ok(())
}

/// An operator, a term, and what that can take, in the order of terms: numerals, then the constants a, b, e, then other terms. The
/// operators f and g have no axioms, h and i are commutative, k and i have the identity e, and s is the successor.
const FREE: &str = "f abf : a b
f aaf : a
f a :
g bg : b
g bah :
h bah : a b
h aah : a
h abf :
k bak : a b e bak
k e : e
k a : a e
i bai : a b e bai
i abf : e abf
s 3 : 2
s 0 :
s as : a
s b :
g 3 :";

#[test]
fn all_is_taken_without_associativity(rt: HostRuntime) -> Result<(), Fail> {
    rows_are_taken(&rt, rt.alloc(), FREE)
}

/// In the order of lists: v and l are associative, and l has the identity e.
const ASSOCIATIVE: &str = "v abavv : a abv b bav
v aav : a
v a :
l bal : e a b bal
l e : e
l a : e a";

#[test]
fn all_is_taken_of_lists_in_order(rt: HostRuntime) -> Result<(), Fail> {
    rows_are_taken(&rt, rt.alloc(), ASSOCIATIVE)
}

/// In the order of lists: w and u are associative and commutative, and u has the identity e.
const MULTISETS: &str = "w babww : a abw b bbw
w aaw : a
w a :
u bau : e a abu b
u aau : e a aau
u e : e
u bbaawww : e bbaawww";

#[test]
fn all_is_taken_of_multisets(rt: HostRuntime) -> Result<(), Fail> {
    rows_are_taken(&rt, rt.alloc(), MULTISETS)
}
