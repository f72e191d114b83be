//! What the values of a pattern's variables may be.
ghost use Rattle.std.specs.Prelude.{◌≡◌, ◌+◌, ◌⊎◌, ◌≤◌, [], All, map, OnOk};
ghost use Rattle.mau_terms.specs.Bare.{IsBare, IsLawful};
ghost use Rattle.mau_terms.specs.View.{tree_of};
ghost use Rattle.mau_signature.specs.Signature.{IsOperator, terms_over, theory_at};
ghost use Rattle.mau_store.specs.Node.{Extends};
ghost use Rattle.mau_store.specs.Trees.{tree_at, trees_at};
ghost use Rattle.mau_store.specs.View.{numbers};
ghost use Rattle.mau_canon.specs.Standing.{StandsWithin, StandWithin};
ghost use Rattle.mau_listing.specs.Values.{IsPartUnder};
ghost use Rattle.mau_plain.specs.Gathered.{Gathers};
ghost use Rattle.mau_plain.specs.Parts.{IsBelowOrLess, IsOverList, IsOverOneList, IsWordOf, IsOfSome, IsOfSomeOfAll, IsPartOfOne};

use crate::words::all_words;
use mau_canon::{BuildFault, from_list, list_of};
use mau_signature::Signature;
use mau_store::{NodeView, Store};
use mau_terms::{Bare, NoMemory, OpId, Seq, TermId};

/// Adds the normal form of an operator over a list, if it is within the limits.
fn push_list(
    store: &mut Store,
    sig: &Signature,
    op: OpId,
    items: &[TermId],
    out: &mut Vec<TermId>,
) -> Result<(), NoMemory>
    requires operator { IsOperator sig.now op.0 }
    requires items { StandWithin (theory_at sig.now) store.old (numbers items.now) }
    requires out { StandWithin (theory_at sig.now) store.old (numbers out.old.items) }
    ensures ok { OnOk result (Gathers (theory_at sig.now) store.old store.new out.old.items out.new.items (IsOverList (theory_at sig.now) op.0 (trees_at store.old (numbers items.now)))) }
    ensures extends { Extends store.old store.new }
{
    match from_list(store, sig, op, items) {
        Ok(id) => {
            out.push(id)?;
            Ok(())
        }
        Err(BuildFault::NoMemory) => Err(NoMemory),
        Err(BuildFault::TooDeep) => Ok(()),
        Err(BuildFault::Overflow) => Ok(()),
    }
}

/// Adds the identity of an operator, if it has one.
fn push_identity(
    store: &mut Store,
    sig: &Signature,
    op: OpId,
    out: &mut Vec<TermId>,
) -> Result<(), NoMemory>
    requires operator { IsOperator sig.now op.0 }
    requires out { StandWithin (theory_at sig.now) store.old (numbers out.old.items) }
    ensures ok { OnOk result (Gathers (theory_at sig.now) store.old store.new out.old.items out.new.items (IsOverList (theory_at sig.now) op.0 (trees_at store.old (numbers [])))) }
    ensures extends { Extends store.old store.new }
{
    push_list(store, sig, op, &[], out)
}

/// Adds the arguments of a term, or the numeral before a numeral.
fn push_below(
    store: &mut Store,
    sig: &Signature,
    id: TermId,
    out: &mut Vec<TermId>,
) -> Result<(), NoMemory>
    requires lawful { IsLawful (terms_over sig.now) }
    requires term { StandsWithin (theory_at sig.now) store.old id.0 }
    requires out { StandWithin (theory_at sig.now) store.old (numbers out.old.items) }
    ensures ok { OnOk result (Gathers (theory_at sig.now) store.old store.new out.old.items out.new.items (IsBelowOrLess (tree_at store.old id.0))) }
    ensures extends { Extends store.old store.new }
{
    match store.view(id) {
        NodeView::Num(n) => {
            if n > 0 {
                let less = store.intern(NodeView::Num(n - 1))?;
                out.push(less)?;
            }
            Ok(())
        }
        NodeView::Var(_) => Ok(()),
        NodeView::App(_, args) => {
            out.extend_from_slice(args)?;
            Ok(())
        }
    }
}

/// Adds the operator over each of some lists.
fn push_lists(
    store: &mut Store,
    sig: &Signature,
    op: OpId,
    lists: &[Seq<TermId>],
    out: &mut Vec<TermId>,
) -> Result<(), NoMemory>
    requires operator { IsOperator sig.now op.0 }
    requires lists { All (λ l. StandWithin (theory_at sig.now) store.old (numbers l)) lists.now }
    requires out { StandWithin (theory_at sig.now) store.old (numbers out.old.items) }
    ensures ok { OnOk result (Gathers (theory_at sig.now) store.old store.new out.old.items out.new.items (IsOverOneList (theory_at sig.now) op.0 store.old lists.now)) }
    ensures extends { Extends store.old store.new }
{
    for list in lists {
        push_list(store, sig, op, list.items(), out)?;
    }
    Ok(())
}

/// Adds an associative operator over each list of elements of a term that is not longer than the term's own.
fn push_words(
    store: &mut Store,
    sig: &Signature,
    op: OpId,
    id: TermId,
    out: &mut Vec<TermId>,
) -> Result<(), NoMemory>
    requires operator { IsOperator sig.now op.0 }
    requires term { StandsWithin (theory_at sig.now) store.old id.0 }
    requires out { StandWithin (theory_at sig.now) store.old (numbers out.old.items) }
    requires lawful { IsLawful (terms_over sig.now) }
    ensures ok { OnOk result (Gathers (theory_at sig.now) store.old store.new out.old.items out.new.items (IsWordOf (theory_at sig.now) op.0 (tree_at store.old id.0))) }
    ensures extends { Extends store.old store.new }
{
    let alloc = store.allocator();
    let items = list_of(store, sig, op, &id);
    let lists = all_words(alloc, items, items.len())?;
    push_lists(store, sig, op, &lists, out)?;
    Ok(())
}

/// Adds all that may have been an argument of an operator whose normal form is a term.
fn push_parts(
    store: &mut Store,
    sig: &Signature,
    op: OpId,
    id: TermId,
    out: &mut Vec<TermId>,
) -> Result<(), NoMemory>
    requires operator { IsOperator sig.now op.0 }
    requires term { StandsWithin (theory_at sig.now) store.old id.0 }
    requires out { StandWithin (theory_at sig.now) store.old (numbers out.old.items) }
    ensures ok { OnOk result (Gathers (theory_at sig.now) store.old store.new out.old.items out.new.items (IsPartUnder (theory_at sig.now) op.0 (tree_at store.old id.0))) }
    ensures extends { Extends store.old store.new }
{
    let assoc = sig.theory(op).assoc;
    out.push(id)?;
    push_identity(store, sig, op, out)?;
    push_below(store, sig, id, out)?;
    if assoc {
        push_words(store, sig, op, id, out)?;
    }
    Ok(())
}

/// Adds all that may have been an argument of an operator whose normal form is one of some terms.
fn push_all_parts(
    store: &mut Store,
    sig: &Signature,
    op: OpId,
    ids: &[TermId],
    out: &mut Vec<TermId>,
) -> Result<(), NoMemory>
    requires operator { IsOperator sig.now op.0 }
    requires terms { StandWithin (theory_at sig.now) store.old (numbers ids.now) }
    requires out { StandWithin (theory_at sig.now) store.old (numbers out.old.items) }
    ensures ok { OnOk result (Gathers (theory_at sig.now) store.old store.new out.old.items out.new.items (IsPartOfOne (theory_at sig.now) op.0 (trees_at store.old (numbers ids.now)))) }
    ensures extends { Extends store.old store.new }
{
    for id in ids {
        push_parts(store, sig, op, *id, out)?;
    }
    Ok(())
}

/// Adds what the values of a pattern's variables may be, where the normal form of the instance is one of some terms.
#[cycle(candidates)]
pub fn push_candidates(
    store: &mut Store,
    sig: &Signature,
    pattern: &Bare,
    ids: &[TermId],
    out: &mut Vec<TermId>,
) -> Result<(), NoMemory>
    requires pattern { IsBare (terms_over sig.now) (tree_of pattern.now) }
    requires terms { StandWithin (theory_at sig.now) store.old (numbers ids.now) }
    requires out { StandWithin (theory_at sig.now) store.old (numbers out.old.items) }
    ensures ok { OnOk result (Gathers (theory_at sig.now) store.old store.new out.old.items out.new.items (IsOfSome (theory_at sig.now) (tree_of pattern.now) (trees_at store.old (numbers ids.now)))) }
    ensures extends { Extends store.old store.new }
{
    match pattern {
        Bare::Var(_) => {
            out.extend_from_slice(ids)?;
            Ok(())
        }
        Bare::Num(_) => Ok(()),
        Bare::App(op, args) => {
            let mut parts = Vec::new(store.allocator());
            push_all_parts(store, sig, *op, ids, &mut parts)?;
            push_all_candidates(store, sig, args.items(), &parts, out)
        }
    }
}

/// The same of several patterns.
#[cycle(candidates)]
fn push_all_candidates(
    store: &mut Store,
    sig: &Signature,
    patterns: &[Bare],
    ids: &[TermId],
    out: &mut Vec<TermId>,
) -> Result<(), NoMemory>
    requires patterns { All (λ p. IsBare (terms_over sig.now) (tree_of p)) patterns.now }
    requires terms { StandWithin (theory_at sig.now) store.old (numbers ids.now) }
    requires out { StandWithin (theory_at sig.now) store.old (numbers out.old.items) }
    ensures ok { OnOk result (Gathers (theory_at sig.now) store.old store.new out.old.items out.new.items (IsOfSomeOfAll (theory_at sig.now) (map tree_of patterns.now) (trees_at store.old (numbers ids.now)))) }
    ensures extends { Extends store.old store.new }
{
    for pattern in patterns {
        push_candidates(store, sig, pattern, ids, out)?;
    }
    Ok(())
}
