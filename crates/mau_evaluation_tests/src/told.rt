//! What conditions are told in tests: each constant, a letter, is its own value and of the sort 0, and the fragment `i` has for the variable `i` the
//! constants of the word `i` of a text, one after the other.
ghost use Rattle.std.specs.Prelude.{◌≡◌, All, IfOk, OnOk, Some};
ghost use Rattle.mau_store.specs.Node.{Extends, IsOf};
ghost use Rattle.mau_signature.specs.Faults.{IsSort};
ghost use Rattle.mau_sorts.specs.SortSets.{SortsOf, IsIn};
ghost use Rattle.mau_sorts.specs.Table.{AreOver, entry_at};
ghost use Rattle.mau_api.specs.Answers.{IsValueOf};
ghost use Rattle.mau_cond.specs.Known.{IsToldValue};

use mau_canon::build_bare;
use mau_listing::is_lawful;
use mau_signature::{Signature, is_bare};
use mau_sorts::SortTable;
use mau_store::{NodeView, Store};
use mau_terms::{Args, Bare, OpId, TermId, VarId};
use std::alloc::Global;
use std::process::Abort;
use std::test::Fail;

/// The constant of a letter, in the order in which they are declared.
pub fn constant(alloc: Global, letter: u8) -> Bare {
    let op = OpId(letter.wrapping_sub(b'`') as u32);
    Bare::App(op, Args::new(Vec::new(alloc)))
}

/// The variable `index`, which is of the sort 0.
pub fn variable(index: u32) -> VarId
    ensures { result.sort ≡ 0 }
{
    VarId { index, sort: 0 }
}

/// The term has the sort 0.
fn assert_sort(sig: &Signature, sorts: &SortTable, id: TermId) -> Result<(), Fail>
    requires over { AreOver sig.now.hierarchy sorts.now }
    requires sort { IsSort sig.now.hierarchy 0 }
    ensures { OnOk result ((e : SortsOf) × (entry_at sorts.now id.0 ≡ Some e) × IsIn sig.now.hierarchy e 0) }
{
    match sorts.has(sig, id, 0) {
        Some(has) => {
            if has {
                return Ok(());
            }
            Err("another sort".into())
        }
        None => Err("no sorts".into()),
    }
}

/// The constant of a letter as a value of a variable.
pub fn value(
    rt: &impl Abort,
    sig: &Signature,
    store: &mut Store,
    sorts: &SortTable,
    index: u32,
    letter: u8,
) -> Result<(VarId, TermId), Fail>
    requires over { AreOver sig.now.hierarchy sorts.now }
    ensures value { IfOk result (IsValueOf sig.now store.new sorts.now) }
    ensures told { IfOk result (λ b. IsToldValue sig.now store.new sorts.now b.1) }
    ensures extends { Extends store.old store.new }
{
    is_lawful(sig);
    let constant = constant(store.allocator(), letter);
    assert!(rt; is_bare(sig, &constant));
    assert!(rt; sig.poset().sorts() > 0);
    assert!(rt; sig.kind(&constant) == sig.poset().kind_of(0));
    let id = build_bare(store, sig, &constant)?;
    assert_sort(sig, sorts, id)?;
    Ok((variable(index), id))
}

/// The letter that the fragment's variable has next, if there is one.
pub fn letter(lists: &str, fragment: u32, next: usize) -> Option<u8> {
    let word = lists.split_whitespace().nth(fragment as usize)?;
    let letter = word.as_bytes().get(next)?;
    Some(*letter)
}

/// The number of the value that is due for a fragment, which from now on is told. What was told of the fragments behind it is forgotten.
pub fn next_of(counts: &mut [usize], fragment: u32) -> usize {
    let at = fragment as usize;
    if at >= counts.len() {
        return usize::MAX;
    }
    let next = counts[at];
    counts[at] = next.saturating_add(1);
    for later in at + 1..counts.len() {
        counts[later] = 0;
    }
    next
}

/// The letter of a constant.
pub fn name(store: &Store, id: TermId) -> char
    requires { IsOf store.now id.0 }
{
    match store.view(id) {
        NodeView::App(op, _) => ((op.0 & 255) as u8).wrapping_add(b'`') as char,
        _ => '?',
    }
}
