//! What a term can take as an argument of an associative operator.
ghost use Rattle.std.specs.Prelude.{◌≡◌, ◌&&◌, IfOk, IfSome, Some, is_none};
ghost use Rattle.mau_terms.specs.Bare.{IsBareIn};
ghost use Rattle.mau_terms.specs.Reading.{reading};
ghost use Rattle.mau_terms.specs.CanTake.{CanTakeNormal};
ghost use Rattle.mau_signature.specs.Signature.{terms_over, theory_at};
ghost use Rattle.mau_store.specs.Node.{Extends};
ghost use Rattle.mau_store.specs.Trees.{tree_at};
ghost use Rattle.mau_canon.specs.Standing.{StandsWithin};
ghost use Rattle.mau_domains.specs.Search.{IsLeastOrNone};
ghost use Rattle.mau_domains.specs.Values.{by_key};
ghost use Rattle.mau_domains.specs.Stored.{tree_in, part_in, IsListOperator, IsPartOver};
ghost use Rattle.mau_domains.specs.Taken.{inside_part, is_tree};

use crate::{Part, Reach, next_value};
use mau_canon::list_of;
use mau_listing::is_lawful;
use mau_signature::Signature;
use mau_store::Store;
use mau_terms::{NoMemory, OpId, Seq, TermId};

/// All terms whose list stands anywhere in that of a term.
fn inside_of(store: &Store, sig: &Signature, op: OpId, term: TermId) -> Result<Part, NoMemory>
    requires operator { IsListOperator sig.now op.0 }
    requires term { StandsWithin (theory_at sig.now) store.now term.0 }
    ensures part { IfOk result (λ part. part_in store.now part ≡ inside_part (theory_at sig.now) op.0 (tree_at store.now term.0)) }
    ensures over { IfOk result (IsPartOver sig.now store.now) }
{
    is_lawful(sig);
    let items = Vec::from_slice(store.allocator(), list_of(store, sig, op, &term))?;
    Ok(Part::ListOf(Reach::Inside, op, Seq::new(items)))
}

/// Whether a value is the term itself.
fn is_term(store: &Store, value: Option<TermId>, term: TermId) -> bool
    ensures { result ≡ is_tree (tree_in store.now value) (tree_at store.now term.0) }
{
    match value {
        Some(id) => store.compare(id, term).is_eq(),
        None => false,
    }
}

/// Whether a value is the term itself, and that is no argument of the operator: it is none beside others without an identity.
fn is_passed_over(
    store: &Store,
    sig: &Signature,
    op: OpId,
    value: Option<TermId>,
    term: TermId,
) -> bool
    requires { IsListOperator sig.now op.0 }
    ensures { result ≡ (is_none (theory_at sig.now op.0).id && is_tree (tree_in store.now value) (tree_at store.now term.0)) }
{
    sig.theory(op).id.is_none() && is_term(store, value, term)
}

/// The same, where the part of all terms whose list stands in that of the term is at hand.
fn next_of_inside(
    store: &mut Store,
    sig: &Signature,
    op: OpId,
    part: &Part,
    term: TermId,
    after: Option<TermId>,
) -> Result<Option<TermId>, NoMemory>
    requires operator { IsListOperator sig.now op.0 }
    requires term { StandsWithin (theory_at sig.now) store.old term.0 }
    requires kind { IsBareIn (terms_over sig.now) (reading (theory_at sig.now) (tree_at store.old term.0)) ((terms_over sig.now).result op.0) }
    requires part { part_in store.old part.now ≡ inside_part (theory_at sig.now) op.0 (tree_at store.old term.0) }
    requires over { IsPartOver sig.now store.old part.now }
    requires after { IfSome after (λ id. StandsWithin (theory_at sig.now) store.old id.0) }
    ensures next { IfOk result (λ value. IsLeastOrNone (by_key (theory_at sig.now) (Some op.0)) (CanTakeNormal (terms_over sig.now) op.0 (tree_at store.old term.0)) 0
        (tree_in store.old after) (tree_in store.new value)) }
    ensures value { IfOk result (λ value. IfSome value (λ id. CanTakeNormal (terms_over sig.now) op.0 (tree_at store.old term.0) (tree_at store.new id.0))) }
    ensures within { IfOk result (λ value. IfSome value (λ id. StandsWithin (theory_at sig.now) store.new id.0)) }
    ensures extends { Extends store.old store.new }
{
    is_lawful(sig);
    let value = next_value(store, sig, Some(op), part, after)?;
    if is_passed_over(store, sig, op, value, term) {
        next_value(store, sig, Some(op), part, Some(term))
    } else {
        Ok(value)
    }
}

/// The least of what a term can take as an argument of an associative operator that is behind another value, or the least of all, in
/// the order of lists. The term is of the kind of the operator's results.
pub fn next_taken(
    store: &mut Store,
    sig: &Signature,
    op: OpId,
    term: TermId,
    after: Option<TermId>,
) -> Result<Option<TermId>, NoMemory>
    requires operator { IsListOperator sig.now op.0 }
    requires term { StandsWithin (theory_at sig.now) store.old term.0 }
    requires kind { IsBareIn (terms_over sig.now) (reading (theory_at sig.now) (tree_at store.old term.0)) ((terms_over sig.now).result op.0) }
    requires after { IfSome after (λ id. StandsWithin (theory_at sig.now) store.old id.0) }
    ensures next { IfOk result (λ value. IsLeastOrNone (by_key (theory_at sig.now) (Some op.0)) (CanTakeNormal (terms_over sig.now) op.0 (tree_at store.old term.0)) 0
        (tree_in store.old after) (tree_in store.new value)) }
    ensures value { IfOk result (λ value. IfSome value (λ id. CanTakeNormal (terms_over sig.now) op.0 (tree_at store.old term.0) (tree_at store.new id.0))) }
    ensures within { IfOk result (λ value. IfSome value (λ id. StandsWithin (theory_at sig.now) store.new id.0)) }
    ensures extends { Extends store.old store.new }
{
    let part = inside_of(store, sig, op, term)?;
    next_of_inside(store, sig, op, &part, term, after)
}
