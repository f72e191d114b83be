//! The kinds of normal forms, read as bare terms.
ghost use Rattle.std.specs.Prelude.{◌≡◌, ◌↔◌, All, true, false, map, IfSome, IfNone, IsTrue};
ghost use Rattle.mau_poset.specs.Order.{kind_of as kind_of_sort};
ghost use Rattle.mau_terms.specs.Tree.{trees_of};
ghost use Rattle.mau_terms.specs.Bare.{IsBare, IsBareIn, AreBareIn, IsLawful};
ghost use Rattle.mau_terms.specs.Reading.{reading};
ghost use Rattle.mau_signature.specs.Faults.{IsSort};
ghost use Rattle.mau_signature.specs.Signature.{IsOperator, arguments_of, declarations_at, terms_over, theory_at};
ghost use Rattle.mau_store.specs.Trees.{tree_at, trees_at};
ghost use Rattle.mau_store.specs.View.{numbers};
ghost use Rattle.mau_canon.specs.Standing.{StandsWithin, StandWithin};
ghost use Rattle.mau_trial.specs.Arguments.{AreArguments};

use mau_signature::Signature;
use mau_store::{NodeView, Store};
use mau_terms::{OpId, TermId};

/// The kind of the numerals, if there are any.
fn numeral_kind(sig: &Signature) -> Option<u32>
    ensures { result ≡ (terms_over sig.now).numerals }
{
    match sig.numerals() {
        Some((zero, _)) => Some(sig.poset().kind_of(zero)),
        None => None,
    }
}

/// The kind of a sort or a kind, if there is one with this number.
fn sort_kind(sig: &Signature, sort: u32) -> Option<u32>
    ensures some { IfSome result (λ k. ((terms_over sig.now).has_sort sort ≡ true) × ((terms_over sig.now).kind_of sort ≡ k)) }
    ensures none { IfNone result ((terms_over sig.now).has_sort sort ≡ false) }
{
    if sort < sig.poset().sorts() + sig.poset().kinds() {
        Some(sig.poset().kind_of(sort))
    } else {
        None
    }
}

/// Whether an operator is declared.
fn is_operator(sig: &Signature, op: OpId) -> bool
    ensures value { IsTrue result ↔ IsOperator sig.now op.0 }
    ensures lawful { IsLawful (terms_over sig.now) }
{
    let count = sig.operators();
    0 < op.0 && op.0 <= count
}

/// The sorts of an operator's arguments.
fn argument_sorts(sig: &Signature, op: OpId) -> &[u32]
    requires { IsOperator sig.now op.0 }
    ensures value { result.now ≡ arguments_of (declarations_at sig.now op.0) }
    ensures sorts { All (IsSort sig.now.hierarchy) result.now }
{
    match sig.declarations(op).first() {
        Some(decl) => decl.args.items(),
        None => unreachable!(),
    }
}

/// The kind of a normal form, if it is read as a bare term.
#[cycle(kinds)]
pub fn kind_of(store: &Store, sig: &Signature, id: TermId) -> Option<u32>
    requires { StandsWithin (theory_at sig.now) store.now id.0 }
    ensures some { IfSome result (IsBareIn (terms_over sig.now) (reading (theory_at sig.now) (tree_at store.now id.0))) }
    ensures none { IfNone result (¬ IsBare (terms_over sig.now) (reading (theory_at sig.now) (tree_at store.now id.0))) }
{
    match store.view(id) {
        NodeView::Num(_) => numeral_kind(sig),
        NodeView::Var(variable) => sort_kind(sig, variable.sort),
        NodeView::App(op, args) => {
            if !is_operator(sig, op) {
                return None;
            }
            if !are_arguments(store, sig, op, args) {
                return None;
            }
            Some(sig.result_kind(op))
        }
    }
}

/// Whether terms are of the kinds of an operator's arguments, or elements of its lists.
#[cycle(kinds)]
fn are_arguments(store: &Store, sig: &Signature, op: OpId, args: &[TermId]) -> bool
    requires operator { IsOperator sig.now op.0 }
    requires args { StandWithin (theory_at sig.now) store.now (numbers args.now) }
    ensures { IsTrue result ↔ AreArguments sig.now op.0 (trees_at store.now (numbers args.now)) }
{
    if sig.theory(op).assoc {
        args.len() >= 2 && are_of_kind(store, sig, args, sig.result_kind(op))
    } else {
        are_of_kinds(store, sig, args, argument_sorts(sig, op))
    }
}

/// Whether a term is of a kind.
#[cycle(kinds)]
pub fn is_of_kind(store: &Store, sig: &Signature, id: TermId, kind: u32) -> bool
    requires { StandsWithin (theory_at sig.now) store.now id.0 }
    ensures { IsTrue result ↔ IsBareIn (terms_over sig.now) (reading (theory_at sig.now) (tree_at store.now id.0)) kind }
{
    match kind_of(store, sig, id) {
        Some(found) => found == kind,
        None => false,
    }
}

/// Whether all terms are of one kind.
#[cycle(kinds)]
fn are_of_kind(store: &Store, sig: &Signature, ids: &[TermId], kind: u32) -> bool
    requires { StandWithin (theory_at sig.now) store.now (numbers ids.now) }
    ensures { IsTrue result ↔ All (λ t. IsBareIn (terms_over sig.now) (reading (theory_at sig.now) t) kind) (trees_at store.now (numbers ids.now)) }
{
    for id in ids {
        if !is_of_kind(store, sig, *id, kind) {
            return false;
        }
    }
    true
}

/// Whether there are as many terms as sorts, each of the kind of its sort.
#[cycle(kinds)]
fn are_of_kinds(store: &Store, sig: &Signature, ids: &[TermId], sorts: &[u32]) -> bool
    requires ids { StandWithin (theory_at sig.now) store.now (numbers ids.now) }
    requires sorts { All (IsSort sig.now.hierarchy) sorts.now }
    ensures { IsTrue result ↔ AreBareIn (terms_over sig.now) (trees_of (map (reading (theory_at sig.now)) (trees_at store.now (numbers ids.now)))) (map (kind_of_sort sig.now.hierarchy) sorts.now) }
{
    if ids.len() != sorts.len() {
        return false;
    }
    for i in 0..ids.len() {
        let kind = sig.poset().kind_of(sorts[i]);
        if !is_of_kind(store, sig, ids[i], kind) {
            return false;
        }
    }
    true
}
