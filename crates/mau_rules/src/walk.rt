//! The places of a term in pre-order, outside frozen arguments.
ghost use Rattle.std.specs.Prelude.{◌≡◌, ◌++◌, [], ℕ, suc, map, IfOk, IfSome, IfNone};
ghost use Rattle.mau_terms.specs.Tree.{Tree};
ghost use Rattle.mau_terms.specs.Bare.{IsLawful};
ghost use Rattle.mau_signature.specs.Attributes.{has_number};
ghost use Rattle.mau_signature.specs.Signature.{IsOperator, terms_over};
ghost use Rattle.mau_store.specs.Trees.{tree_at};
ghost use Rattle.mau_evaluation.specs.Rules.{places};
ghost use Rattle.mau_api.specs.Terms.{IsTerm};
ghost use Rattle.mau_rules.specs.Walk.{is_frozen_at, opened, around_last, around_all, places_behind, below_unless, places_left, IsStep, IsWalk, IsPath};

use mau_signature::Signature;
use mau_store::{NodeView, Store};
use mau_terms::{NoMemory, OpId, TermId};

/// A term on the way to a place, and how many of its arguments are behind the walk.
#[derive(Clone, Copy, Debug)]
pub struct Open {
    pub term: TermId,
    pub next: usize,
}

/// Whether a list names an argument, counted from 1.
fn names(numbers: &[u8], argument: usize) -> bool
    ensures { result ≡ has_number numbers.now argument }
{
    for number in numbers {
        if usize::from(*number) == argument {
            return true;
        }
    }
    false
}

/// Whether an argument, counted from 1, is frozen. Of an associative operator all are or none.
pub(crate) fn is_frozen(sig: &Signature, op: OpId, argument: usize) -> bool
    requires { IsOperator sig.now op.0 }
    ensures { (place : ℕ) → argument ≡ suc place → result ≡ is_frozen_at sig.now op.0 place }
{
    if sig.theory(op).assoc {
        return sig.frozen(op, 1);
    }
    match sig.declarations(op).first() {
        Some(decl) => match &decl.attrs.frozen {
            Some(numbers) => names(numbers.items(), argument),
            None => false,
        },
        None => false,
    }
}

/// The next argument of a term, from those on that are behind the walk, that is not frozen, and how many are behind the walk then.
fn entered(store: &Store, sig: &Signature, at: Open) -> Option<(usize, TermId)>
    requires lawful { IsLawful (terms_over sig.now) }
    requires term { IsTerm sig.now store.now at.term.0 }
    ensures some { (around : Tree → Tree) → IfSome result (λ x. places_behind (is_frozen_at sig.now) around (tree_at store.now at.term.0) at.next
        ≡ places (is_frozen_at sig.now) (around_last around (tree_at store.now at.term.0) x.0) (tree_at store.now x.1.0)
        ++ places_behind (is_frozen_at sig.now) around (tree_at store.now at.term.0) x.0) }
    ensures step { IfSome result (λ x. IsStep store.now (record { term = at.term; next = x.0 }) x.1.0) }
    ensures none { (around : Tree → Tree) → IfNone result (places_behind (is_frozen_at sig.now) around (tree_at store.now at.term.0) at.next ≡ []) }
{
    match store.view(at.term) {
        NodeView::App(op, args) => {
            for place in at.next..args.len() {
                if !is_frozen(sig, op, place + 1) {
                    return Some((place + 1, args[place]));
                }
            }
            None
        }
        NodeView::Num(_) | NodeView::Var(_) => None,
    }
}

/// The next place from an open term on, of which so many arguments are behind the walk: below it, or else beside it or beside one of
/// those through which it is reached. None where the walk is at its end.
fn next_from(
    store: &Store,
    sig: &Signature,
    way: &mut Vec<Open>,
    from: Open,
) -> Result<Option<TermId>, NoMemory>
    requires lawful { IsLawful (terms_over sig.now) }
    requires walk { (root : ℕ) × IsWalk sig.now store.now root way.old.items from.term.0 }
    ensures some { (around : Tree → Tree) → IfOk result (λ o. IfSome o (λ next.
        places_behind (is_frozen_at sig.now) (around_all around (map (opened store.now) way.old.items)) (tree_at store.now from.term.0) from.next
        ++ places_left (is_frozen_at sig.now) around (map (opened store.now) way.old.items)
        ≡ places (is_frozen_at sig.now) (around_all around (map (opened store.now) way.new.items)) (tree_at store.now next.0)
        ++ places_left (is_frozen_at sig.now) around (map (opened store.now) way.new.items))) }
    ensures none { (around : Tree → Tree) → IfOk result (λ o. IfNone o (
        places_behind (is_frozen_at sig.now) (around_all around (map (opened store.now) way.old.items)) (tree_at store.now from.term.0) from.next
        ++ places_left (is_frozen_at sig.now) around (map (opened store.now) way.old.items) ≡ [])) }
    ensures path { (root : ℕ) → IsPath store.now root way.old.items from.term.0 → IfOk result (λ o. IfSome o (λ next. IsPath store.now root way.new.items next.0)) }
{
    let _ = store.len();
    let mut top = from;
    loop {
        if let Some((next, child)) = entered(store, sig, top) {
            way.push(Open {
                term: top.term,
                next,
            })?;
            return Ok(Some(child));
        }
        match way.pop() {
            Some(before) => top = before,
            None => return Ok(None),
        }
    }
}

/// The place behind a term that is reached through some open ones: below it, if what is below is not left out, or else beside it or
/// beside one of these. None where the walk is at its end.
pub fn next_place(
    store: &Store,
    sig: &Signature,
    way: &mut Vec<Open>,
    term: TermId,
    skip: bool,
) -> Result<Option<TermId>, NoMemory>
    requires lawful { IsLawful (terms_over sig.now) }
    requires walk { (root : ℕ) × IsWalk sig.now store.now root way.old.items term.0 }
    ensures some { (around : Tree → Tree) → IfOk result (λ o. IfSome o (λ next.
        below_unless skip (is_frozen_at sig.now) (around_all around (map (opened store.now) way.old.items)) (tree_at store.now term.0)
        ++ places_left (is_frozen_at sig.now) around (map (opened store.now) way.old.items)
        ≡ places (is_frozen_at sig.now) (around_all around (map (opened store.now) way.new.items)) (tree_at store.now next.0)
        ++ places_left (is_frozen_at sig.now) around (map (opened store.now) way.new.items))) }
    ensures none { (around : Tree → Tree) → IfOk result (λ o. IfNone o (
        below_unless skip (is_frozen_at sig.now) (around_all around (map (opened store.now) way.old.items)) (tree_at store.now term.0)
        ++ places_left (is_frozen_at sig.now) around (map (opened store.now) way.old.items) ≡ [])) }
    ensures path { (root : ℕ) → IsPath store.now root way.old.items term.0 → IfOk result (λ o. IfSome o (λ next. IsPath store.now root way.new.items next.0)) }
{
    if !skip {
        return next_from(store, sig, way, Open { term, next: 0 });
    }
    match way.pop() {
        Some(before) => next_from(store, sig, way, before),
        None => Ok(None),
    }
}
