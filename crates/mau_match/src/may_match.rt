//! Whether a pattern may be of a part, by what is known of its variables: where it may not, no values of the others make it so.
ghost use Rattle.std.specs.Prelude.{◌≡◌, ◌∷◌, [], ◌+◌, ◌<◌, ◌≤◌, List, length, map, None, Some, All, true, false, IfOk, IfErr, IfSome, IfNone};
ghost use Rattle.mau_terms.specs.Tree.{Tree, apply, trees_of, node};
ghost use Rattle.mau_terms.specs.Bare.{IsBare};
ghost use Rattle.mau_terms.specs.Finite.{IsIn};
ghost use Rattle.mau_terms.specs.Subst.{Variable};
ghost use Rattle.mau_terms.specs.View.{tree_of};
ghost use Rattle.mau_terms.specs.declared.theory.Identity.{Identity};
ghost use Rattle.mau_signature.specs.Signature.{IsOperator, theory_at, terms_over};
ghost use Rattle.mau_store.specs.Node.{Node, Extends};
ghost use Rattle.mau_store.specs.Trees.{tree_at, trees_at};
ghost use Rattle.mau_store.specs.View.{numbers};
ghost use Rattle.mau_canon.specs.Standing.{StandsWithin, StandWithin};
ghost use Rattle.mau_domains.specs.Parts.{Part as PartOf, whole, just, IsOf};
ghost use Rattle.mau_domains.specs.Stored.{part_in, reach_of};
ghost use Rattle.mau_match.specs.Parts.{headed, apart_from, is_bound, IsFair, AreFair};
ghost use Rattle.mau_match.specs.Limited.{AreLimited};
ghost use Rattle.mau_match.specs.Possible.{free, frees, IsNever, IsNeverPlaced, AreNever, AreNeverSorted, AreNeverJoined, IsNeverAmong, AreNeverAmong, AreNeverLeft};
ghost use Rattle.mau_match.specs.Walked.{IsPartWithin, IsSpanWithin, AreGivenWithin, bound_of, values_of, target_of, span_in};

use crate::arguments::spans_in;
use crate::choices::{push_alone, unit_of};
use crate::known::build_known;
use crate::limits::{is_plain, least_of, most_of};
use crate::lists::copy_of;
use crate::steps::{are_too_few, without_known};
use crate::sums::are_uneven;
use crate::variables::is_bound;
use crate::{Given, Span};
use mau_canon::BuildFault;
use mau_domains::{Part, Reach};
use mau_listing::is_lawful;
use mau_signature::Signature;
use mau_store::{NodeView, Store};
use mau_terms::{Bare, NoMemory, OpId, Seq, TermId};
use std::alloc::Global;

/// Whether a pattern may be of a part.
#[cycle(may)]
pub fn may_match(
    store: &mut Store,
    sig: &Signature,
    given: &Given,
    pattern: &Bare,
    part: &Part,
) -> Result<bool, NoMemory>
    requires bare { IsBare (terms_over sig.now) (tree_of pattern.now) }
    requires values { AreGivenWithin sig.now store.old given.now }
    requires part { IsPartWithin sig.now store.old part.now }
    ensures refused { IfOk result (λ b. b ≡ false → IsNever sig.now store.old given.now (tree_of pattern.now) (part_in store.old part.now)) }
    ensures extends { Extends store.old store.new }
{
    if is_bound(given.variables.items(), pattern) {
        return may_be_known(store, sig, given, pattern, part);
    }
    match pattern {
        Bare::App(op, args) => {
            if sig.theory(*op).assoc {
                may_list(store, sig, given, *op, args.items(), part)
            } else {
                may_term(store, sig, given, *op, args.items(), part)
            }
        }
        _ => Ok(true),
    }
}

/// The same of a pattern whose variables all have values.
fn may_be_known(
    store: &mut Store,
    sig: &Signature,
    given: &Given,
    pattern: &Bare,
    part: &Part,
) -> Result<bool, NoMemory>
    requires bare { IsBare (terms_over sig.now) (tree_of pattern.now) }
    requires bound { is_bound (bound_of given.now) (tree_of pattern.now) ≡ true }
    requires values { AreGivenWithin sig.now store.old given.now }
    requires part { IsPartWithin sig.now store.old part.now }
    ensures refused { IfOk result (λ b. b ≡ false → IsNever sig.now store.old given.now (tree_of pattern.now) (part_in store.old part.now)) }
    ensures extends { Extends store.old store.new }
{
    match build_known(store, sig, given, pattern) {
        Ok(value) => Ok(may_be(store, value, part)),
        Err(BuildFault::NoMemory) => Err(NoMemory),
        Err(BuildFault::TooDeep) => Ok(true),
        Err(BuildFault::Overflow) => Ok(true),
    }
}

/// Whether a term may be of a part; of lists nothing is said.
fn may_be(store: &Store, value: TermId, part: &Part) -> bool
    ensures { result ≡ false → (th : _) → IsOf th (part_in store.now part.now) (tree_at store.now value.0) → ⊥ }
{
    match part {
        Part::One(id) => store.compare(value, *id).is_eq(),
        Part::ListOf(_, _, _) => true,
    }
}

// ---- operators that are not associative

/// Whether an operator that is not associative, over some patterns, may be of a part.
#[cycle(may)]
fn may_term(
    store: &mut Store,
    sig: &Signature,
    given: &Given,
    op: OpId,
    patterns: &[Bare],
    part: &Part,
) -> Result<bool, NoMemory>
    requires operator { IsOperator sig.now op.0 }
    requires plain { (theory_at sig.now op.0).assoc ≡ false }
    requires bare { All (λ p. IsBare (terms_over sig.now) (tree_of p)) patterns.now }
    requires values { AreGivenWithin sig.now store.old given.now }
    requires part { IsPartWithin sig.now store.old part.now }
    ensures refused { IfOk result (λ b. b ≡ false → IsNever sig.now store.old given.now (apply op.0 (trees_of (map tree_of patterns.now))) (part_in store.old part.now)) }
    ensures extends { Extends store.old store.new }
{
    let theory = sig.theory(op);
    if theory.succ {
        return Ok(true);
    }
    if theory.id.is_some() {
        return may_be_united(store, sig, given, op, patterns, part);
    }
    let mut ids = Vec::new(store.allocator());
    push_alone(store, sig, part, &mut ids)?;
    may_be_one(store, sig, given, op, patterns, &ids)
}

/// Whether it may be one of some terms, where it has no identity and is not the successor.
#[cycle(may)]
fn may_be_one(
    store: &mut Store,
    sig: &Signature,
    given: &Given,
    op: OpId,
    patterns: &[Bare],
    ids: &[TermId],
) -> Result<bool, NoMemory>
    requires operator { IsOperator sig.now op.0 }
    requires plain { (theory_at sig.now op.0).assoc ≡ false }
    requires not_successor { (theory_at sig.now op.0).succ ≡ false }
    requires no_identity { (theory_at sig.now op.0).id ≡ None }
    requires bare { All (λ p. IsBare (terms_over sig.now) (tree_of p)) patterns.now }
    requires values { AreGivenWithin sig.now store.old given.now }
    requires terms { StandWithin (theory_at sig.now) store.old (numbers ids.now) }
    ensures refused { IfOk result (λ b. b ≡ false → (v : Tree) → IsIn v (trees_at store.old (numbers ids.now)) →
        IsNever sig.now store.old given.now (apply op.0 (trees_of (map tree_of patterns.now))) (just v)) }
    ensures extends { Extends store.old store.new }
{
    for id in ids {
        if may_be_at(store, sig, given, op, patterns, *id)? {
            return Ok(true);
        }
    }
    Ok(false)
}

/// Whether it may be a term.
#[cycle(may)]
fn may_be_at(
    store: &mut Store,
    sig: &Signature,
    given: &Given,
    op: OpId,
    patterns: &[Bare],
    id: TermId,
) -> Result<bool, NoMemory>
    requires operator { IsOperator sig.now op.0 }
    requires plain { (theory_at sig.now op.0).assoc ≡ false }
    requires not_successor { (theory_at sig.now op.0).succ ≡ false }
    requires no_identity { (theory_at sig.now op.0).id ≡ None }
    requires bare { All (λ p. IsBare (terms_over sig.now) (tree_of p)) patterns.now }
    requires values { AreGivenWithin sig.now store.old given.now }
    requires term { StandsWithin (theory_at sig.now) store.old id.0 }
    ensures refused { IfOk result (λ b. b ≡ false → IsNever sig.now store.old given.now (apply op.0 (trees_of (map tree_of patterns.now))) (just (tree_at store.old id.0))) }
    ensures extends { Extends store.old store.new }
{
    is_lawful(sig);
    may_be_placed(store, sig, given, op, patterns, id)
}

/// Whether it may be a term with the arguments at its places.
#[cycle(may)]
fn may_be_placed(
    store: &mut Store,
    sig: &Signature,
    given: &Given,
    op: OpId,
    patterns: &[Bare],
    id: TermId,
) -> Result<bool, NoMemory>
    requires operator { IsOperator sig.now op.0 }
    requires bare { All (λ p. IsBare (terms_over sig.now) (tree_of p)) patterns.now }
    requires values { AreGivenWithin sig.now store.old given.now }
    requires term { StandsWithin (theory_at sig.now) store.old id.0 }
    ensures refused { IfOk result (λ b. b ≡ false → IsNeverPlaced sig.now store.old given.now op.0 (trees_of (map tree_of patterns.now)) (tree_at store.old id.0)) }
    ensures extends { Extends store.old store.new }
{
    match arguments_of(store, sig, op, id)? {
        Some(ids) => {
            if sig.theory(op).comm {
                may_pair(store, sig, given, patterns, &ids)
            } else {
                may_stand(store, sig, given, patterns, &ids)
            }
        }
        None => Ok(false),
    }
}

/// Whether an operator with an identity may be of a part; of lists nothing is said.
#[cycle(may)]
fn may_be_united(
    store: &mut Store,
    sig: &Signature,
    given: &Given,
    op: OpId,
    patterns: &[Bare],
    part: &Part,
) -> Result<bool, NoMemory>
    requires operator { IsOperator sig.now op.0 }
    requires plain { (theory_at sig.now op.0).assoc ≡ false }
    requires not_successor { (theory_at sig.now op.0).succ ≡ false }
    requires bare { All (λ p. IsBare (terms_over sig.now) (tree_of p)) patterns.now }
    requires values { AreGivenWithin sig.now store.old given.now }
    requires part { IsPartWithin sig.now store.old part.now }
    ensures refused { IfOk result (λ b. b ≡ false → IsNever sig.now store.old given.now (apply op.0 (trees_of (map tree_of patterns.now))) (part_in store.old part.now)) }
    ensures extends { Extends store.old store.new }
{
    match part {
        Part::One(id) => may_unite(store, sig, given, op, patterns, *id),
        Part::ListOf(_, _, _) => Ok(true),
    }
}

/// Whether an operator with an identity may be a term: with the arguments at its places, or with one of them the identity and the other the term.
#[cycle(may)]
fn may_unite(
    store: &mut Store,
    sig: &Signature,
    given: &Given,
    op: OpId,
    patterns: &[Bare],
    id: TermId,
) -> Result<bool, NoMemory>
    requires operator { IsOperator sig.now op.0 }
    requires plain { (theory_at sig.now op.0).assoc ≡ false }
    requires not_successor { (theory_at sig.now op.0).succ ≡ false }
    requires bare { All (λ p. IsBare (terms_over sig.now) (tree_of p)) patterns.now }
    requires values { AreGivenWithin sig.now store.old given.now }
    requires term { StandsWithin (theory_at sig.now) store.old id.0 }
    ensures refused { IfOk result (λ b. b ≡ false → IsNever sig.now store.old given.now (apply op.0 (trees_of (map tree_of patterns.now))) (just (tree_at store.old id.0))) }
    ensures extends { Extends store.old store.new }
{
    is_lawful(sig);
    if may_be_placed(store, sig, given, op, patterns, id)? {
        return Ok(true);
    }
    match unit_of(store, sig, op)? {
        Some(unit) => may_fold_pair(store, sig, given, patterns, unit, id),
        None => Ok(true),
    }
}

/// Whether two arguments may be two terms, in one order or the other.
#[cycle(may)]
fn may_fold_pair(
    store: &mut Store,
    sig: &Signature,
    given: &Given,
    patterns: &[Bare],
    unit: TermId,
    id: TermId,
) -> Result<bool, NoMemory>
    requires bare { All (λ p. IsBare (terms_over sig.now) (tree_of p)) patterns.now }
    requires values { AreGivenWithin sig.now store.old given.now }
    requires unit { StandsWithin (theory_at sig.now) store.old unit.0 }
    requires term { StandsWithin (theory_at sig.now) store.old id.0 }
    ensures refused { IfOk result (λ b. b ≡ false → AreNever sig.now store.old given.now (trees_of (map tree_of patterns.now)) (tree_at store.old unit.0 ∷ tree_at store.old id.0 ∷ [])
        × AreNever sig.now store.old given.now (trees_of (map tree_of patterns.now)) (tree_at store.old id.0 ∷ tree_at store.old unit.0 ∷ [])) }
    ensures extends { Extends store.old store.new }
{
    let ids = swapped(store.allocator(), id, unit)?;
    if may_stand(store, sig, given, patterns, &ids)? {
        return Ok(true);
    }
    let others = swapped(store.allocator(), unit, id)?;
    may_stand(store, sig, given, patterns, &others)
}

/// The arguments of a term, where an operator is its top.
fn arguments_of(
    store: &Store,
    sig: &Signature,
    op: OpId,
    id: TermId,
) -> Result<Option<Vec<TermId>>, NoMemory>
    requires term { StandsWithin (theory_at sig.now) store.now id.0 }
    ensures some { IfOk result (λ o. IfSome o (λ ids. tree_at store.now id.0 ≡ node op.0 (trees_at store.now (numbers ids.items)))) }
    ensures within { IfOk result (λ o. IfSome o (λ ids. StandWithin (theory_at sig.now) store.now (numbers ids.items))) }
    ensures none { IfOk result (λ o. IfNone o (headed op.0 (tree_at store.now id.0) ≡ false)) }
{
    is_lawful(sig);
    match store.view(id) {
        NodeView::App(top, args) => {
            if op == top {
                let ids = copy_of(store.allocator(), args)?;
                Ok(Some(ids))
            } else {
                Ok(None)
            }
        }
        _ => Ok(None),
    }
}

/// Two terms in the other order.
fn swapped(alloc: Global, one: TermId, other: TermId) -> Result<Vec<TermId>, NoMemory>
    ensures { IfOk result (λ ids. ids.items ≡ other ∷ one ∷ []) }
{
    let mut ids = Vec::new(alloc);
    ids.push(other)?;
    ids.push(one)?;
    Ok(ids)
}

/// Whether two arguments of a commutative operator may be two terms, in one order or the other.
#[cycle(may)]
fn may_pair(
    store: &mut Store,
    sig: &Signature,
    given: &Given,
    patterns: &[Bare],
    ids: &[TermId],
) -> Result<bool, NoMemory>
    requires bare { All (λ p. IsBare (terms_over sig.now) (tree_of p)) patterns.now }
    requires values { AreGivenWithin sig.now store.old given.now }
    requires terms { StandWithin (theory_at sig.now) store.old (numbers ids.now) }
    ensures refused { IfOk result (λ b. b ≡ false → AreNeverSorted sig.now store.old given.now (trees_of (map tree_of patterns.now)) (trees_at store.old (numbers ids.now))) }
    ensures extends { Extends store.old store.new }
{
    if patterns.len() != 2 || ids.len() != 2 {
        return Ok(true);
    }
    if may_stand(store, sig, given, patterns, ids)? {
        return Ok(true);
    }
    let others = swapped(store.allocator(), ids[0], ids[1])?;
    may_stand(store, sig, given, patterns, &others)
}

/// Whether each argument may be at its place.
#[cycle(may)]
fn may_stand(
    store: &mut Store,
    sig: &Signature,
    given: &Given,
    patterns: &[Bare],
    ids: &[TermId],
) -> Result<bool, NoMemory>
    requires bare { All (λ p. IsBare (terms_over sig.now) (tree_of p)) patterns.now }
    requires values { AreGivenWithin sig.now store.old given.now }
    requires terms { StandWithin (theory_at sig.now) store.old (numbers ids.now) }
    ensures refused { IfOk result (λ b. b ≡ false → AreNever sig.now store.old given.now (trees_of (map tree_of patterns.now)) (trees_at store.old (numbers ids.now))) }
    ensures extends { Extends store.old store.new }
{
    match patterns {
        [] => Ok(true),
        [first, rest @ ..] => match ids {
            [] => Ok(false),
            [id, others @ ..] => {
                if may_match(store, sig, given, first, &Part::One(*id))? {
                    may_stand(store, sig, given, rest, others)
                } else {
                    Ok(false)
                }
            }
        },
    }
}

// ---- associative operators

/// Whether an associative operator, over some patterns, may be of a part.
#[cycle(may)]
fn may_list(
    store: &mut Store,
    sig: &Signature,
    given: &Given,
    op: OpId,
    patterns: &[Bare],
    part: &Part,
) -> Result<bool, NoMemory>
    requires operator { IsOperator sig.now op.0 }
    requires assoc { (theory_at sig.now op.0).assoc ≡ true }
    requires bare { All (λ p. IsBare (terms_over sig.now) (tree_of p)) patterns.now }
    requires values { AreGivenWithin sig.now store.old given.now }
    requires part { IsPartWithin sig.now store.old part.now }
    ensures refused { IfOk result (λ b. b ≡ false → IsNever sig.now store.old given.now (apply op.0 (trees_of (map tree_of patterns.now))) (part_in store.old part.now)) }
    ensures extends { Extends store.old store.new }
{
    is_lawful(sig);
    if may_fold(sig, op, part) {
        return Ok(true);
    }
    let spans = spans_in(store, sig, op, part)?;
    may_be_some(store, sig, given, op, patterns, &spans)
}

/// Whether an operator over two arguments may be of a part since one of them is the identity.
fn may_fold(sig: &Signature, op: OpId, part: &Part) -> bool
    requires operator { IsOperator sig.now op.0 }
    ensures { result ≡ false → (nodes : List Node) (q : PartOf) (i : Identity) → IsIn q (apart_from (theory_at sig.now) op.0 (part_in nodes part.now)) → (theory_at sig.now op.0).id ≡ Some i → ⊥ }
{
    match part {
        Part::One(_) => false,
        Part::ListOf(_, top, _) => {
            if op == *top {
                return false;
            }
            sig.theory(op).id.is_some()
        }
    }
}

/// Whether the lists of some patterns, joined, may be so much of the items of one of some lists.
#[cycle(may)]
fn may_be_some(
    store: &mut Store,
    sig: &Signature,
    given: &Given,
    op: OpId,
    patterns: &[Bare],
    spans: &[Span],
) -> Result<bool, NoMemory>
    requires operator { IsOperator sig.now op.0 }
    requires assoc { (theory_at sig.now op.0).assoc ≡ true }
    requires bare { All (λ p. IsBare (terms_over sig.now) (tree_of p)) patterns.now }
    requires values { AreGivenWithin sig.now store.old given.now }
    requires items { All (IsSpanWithin sig.now store.old) spans.now }
    ensures refused { IfOk result (λ b. b ≡ false → (l : _) → IsIn l (map (span_in store.old) spans.now) → AreNeverJoined sig.now store.old given.now op.0 (trees_of (map tree_of patterns.now)) l) }
    ensures extends { Extends store.old store.new }
{
    for span in spans {
        if may_be_within(store, sig, given, op, patterns, span)? {
            return Ok(true);
        }
    }
    Ok(false)
}

/// Whether the lists of some patterns, joined, may be so much of some items.
#[cycle(may)]
fn may_be_within(
    store: &mut Store,
    sig: &Signature,
    given: &Given,
    op: OpId,
    patterns: &[Bare],
    span: &Span,
) -> Result<bool, NoMemory>
    requires operator { IsOperator sig.now op.0 }
    requires assoc { (theory_at sig.now op.0).assoc ≡ true }
    requires bare { All (λ p. IsBare (terms_over sig.now) (tree_of p)) patterns.now }
    requires values { AreGivenWithin sig.now store.old given.now }
    requires items { IsSpanWithin sig.now store.old span.now }
    ensures refused { IfOk result (λ b. b ≡ false → AreNeverJoined sig.now store.old given.now op.0 (trees_of (map tree_of patterns.now)) (span_in store.old span.now)) }
    ensures extends { Extends store.old store.new }
{
    let theory = sig.theory(op);
    if are_too_few(theory, op, patterns, span.items.len()) {
        return Ok(false);
    }
    match without_known(store, sig, given, op, patterns, &span.items) {
        Ok(Some(items)) => may_cover(store, sig, given, op, patterns, span.reach, &items),
        Ok(None) => Ok(false),
        Err(BuildFault::NoMemory) => Err(NoMemory),
        Err(BuildFault::TooDeep) => Ok(true),
        Err(BuildFault::Overflow) => Ok(true),
    }
}

/// How many of so many elements are left, at most, where what is not known of a pattern's list takes some, if there are enough.
#[cycle(left)]
fn left_beside(
    sig: &Signature,
    given: &Given,
    op: OpId,
    pattern: &Bare,
    count: usize,
) -> Option<usize>
    requires bare { IsBare (terms_over sig.now) (tree_of pattern.now) }
    ensures some { IfSome result (λ left. (gg : Variable → Tree) → AreLimited (theory_at sig.now) given.now.limits gg → IsFair (theory_at sig.now) gg (tree_of pattern.now) → count ≤ left + length (free (theory_at sig.now) (bound_of given.now) gg op.0 (tree_of pattern.now))) }
    ensures none { IfNone result ((gg : Variable → Tree) → AreLimited (theory_at sig.now) given.now.limits gg → IsFair (theory_at sig.now) gg (tree_of pattern.now) → count < length (free (theory_at sig.now) (bound_of given.now) gg op.0 (tree_of pattern.now))) }
{
    if is_bound(given.variables.items(), pattern) {
        return Some(count);
    }
    match pattern {
        Bare::App(top, args) => {
            if *top == op {
                return left_beside_all(sig, given, op, args.items(), count);
            }
            is_lawful(sig);
            if !is_plain(sig.theory(*top)) {
                return Some(count);
            }
            if count == 0 {
                return None;
            }
            Some(count - 1)
        }
        Bare::Var(variable) => count.checked_sub(least_of(given.limits.items(), op, *variable)),
        Bare::Num(_) => Some(count),
    }
}

/// The same of several patterns.
#[cycle(left)]
fn left_beside_all(
    sig: &Signature,
    given: &Given,
    op: OpId,
    patterns: &[Bare],
    count: usize,
) -> Option<usize>
    requires bare { All (λ p. IsBare (terms_over sig.now) (tree_of p)) patterns.now }
    ensures some { IfSome result (λ left. (gg : Variable → Tree) → AreLimited (theory_at sig.now) given.now.limits gg → AreFair (theory_at sig.now) gg (trees_of (map tree_of patterns.now)) → count ≤ left + length (frees (theory_at sig.now) (bound_of given.now) gg op.0 (trees_of (map tree_of patterns.now)))) }
    ensures none { IfNone result ((gg : Variable → Tree) → AreLimited (theory_at sig.now) given.now.limits gg → AreFair (theory_at sig.now) gg (trees_of (map tree_of patterns.now)) → count < length (frees (theory_at sig.now) (bound_of given.now) gg op.0 (trees_of (map tree_of patterns.now)))) }
{
    match patterns {
        [] => Some(count),
        [first, rest @ ..] => {
            let left = left_beside(sig, given, op, first, count)?;
            left_beside_all(sig, given, op, rest, left)
        }
    }
}

/// So many elements, and as many as what is not known of a pattern's list has at most, if there is a limit.
#[cycle(most)]
fn most_beside(
    sig: &Signature,
    given: &Given,
    op: OpId,
    pattern: &Bare,
    count: usize,
) -> Option<usize>
    requires bare { IsBare (terms_over sig.now) (tree_of pattern.now) }
    ensures { IfSome result (λ most. (gg : Variable → Tree) → AreLimited (theory_at sig.now) given.now.limits gg → IsFair (theory_at sig.now) gg (tree_of pattern.now) →
        count + length (free (theory_at sig.now) (bound_of given.now) gg op.0 (tree_of pattern.now)) ≤ most) }
{
    if is_bound(given.variables.items(), pattern) {
        return Some(count);
    }
    match pattern {
        Bare::App(top, args) => {
            if *top == op {
                return most_beside_all(sig, given, op, args.items(), count);
            }
            is_lawful(sig);
            if !is_plain(sig.theory(*top)) {
                return None;
            }
            count.checked_add(1)
        }
        Bare::Var(variable) => {
            let most = most_of(given.limits.items(), op, *variable)?;
            count.checked_add(most)
        }
        Bare::Num(_) => Some(count),
    }
}

/// The same of several patterns.
#[cycle(most)]
fn most_beside_all(
    sig: &Signature,
    given: &Given,
    op: OpId,
    patterns: &[Bare],
    count: usize,
) -> Option<usize>
    requires bare { All (λ p. IsBare (terms_over sig.now) (tree_of p)) patterns.now }
    ensures { IfSome result (λ most. (gg : Variable → Tree) → AreLimited (theory_at sig.now) given.now.limits gg → AreFair (theory_at sig.now) gg (trees_of (map tree_of patterns.now)) →
        count + length (frees (theory_at sig.now) (bound_of given.now) gg op.0 (trees_of (map tree_of patterns.now))) ≤ most) }
{
    match patterns {
        [] => Some(count),
        [first, rest @ ..] => {
            let more = most_beside(sig, given, op, first, count)?;
            most_beside_all(sig, given, op, rest, more)
        }
    }
}

/// Whether so much of so many elements is more than what is not known of the lists of some patterns has at most.
fn are_too_many(
    sig: &Signature,
    given: &Given,
    op: OpId,
    patterns: &[Bare],
    reach: Reach,
    count: usize,
) -> bool
    requires bare { All (λ p. IsBare (terms_over sig.now) (tree_of p)) patterns.now }
    ensures whole { result ≡ true → reach_of reach ≡ whole }
    ensures many { result ≡ true → (gg : Variable → Tree) → AreLimited (theory_at sig.now) given.now.limits gg → AreFair (theory_at sig.now) gg (trees_of (map tree_of patterns.now)) →
        length (frees (theory_at sig.now) (bound_of given.now) gg op.0 (trees_of (map tree_of patterns.now))) < count }
{
    match reach {
        Reach::Whole => match most_beside_all(sig, given, op, patterns, 0) {
            Some(most) => most < count,
            None => false,
        },
        Reach::Front => false,
        Reach::Inside => false,
    }
}

/// Whether what is not known of the lists of some patterns, all together, may be so much of some items.
#[cycle(may)]
fn may_cover(
    store: &mut Store,
    sig: &Signature,
    given: &Given,
    op: OpId,
    patterns: &[Bare],
    reach: Reach,
    items: &[TermId],
) -> Result<bool, NoMemory>
    requires operator { IsOperator sig.now op.0 }
    requires assoc { (theory_at sig.now op.0).assoc ≡ true }
    requires bare { All (λ p. IsBare (terms_over sig.now) (tree_of p)) patterns.now }
    requires values { AreGivenWithin sig.now store.old given.now }
    requires items { StandWithin (theory_at sig.now) store.old (numbers items.now) }
    ensures refused { IfOk result (λ b. b ≡ false → AreNeverLeft sig.now store.old given.now op.0 (trees_of (map tree_of patterns.now)) (reach_of reach) (trees_at store.old (numbers items.now))) }
    ensures extends { Extends store.old store.new }
{
    if are_too_many(sig, given, op, patterns, reach, items.len()) {
        return Ok(false);
    }
    if are_uneven(store, sig, given, op, patterns, reach, items)? {
        return Ok(false);
    }
    may_fill(store, sig, given, op, patterns, items)
}

/// Whether what is not known of the lists of some patterns, all together, may be among some items.
#[cycle(may)]
fn may_fill(
    store: &mut Store,
    sig: &Signature,
    given: &Given,
    op: OpId,
    patterns: &[Bare],
    items: &[TermId],
) -> Result<bool, NoMemory>
    requires operator { IsOperator sig.now op.0 }
    requires assoc { (theory_at sig.now op.0).assoc ≡ true }
    requires bare { All (λ p. IsBare (terms_over sig.now) (tree_of p)) patterns.now }
    requires values { AreGivenWithin sig.now store.old given.now }
    requires items { StandWithin (theory_at sig.now) store.old (numbers items.now) }
    ensures refused { IfOk result (λ b. b ≡ false → AreNeverAmong sig.now store.old given.now op.0 (trees_of (map tree_of patterns.now)) (trees_at store.old (numbers items.now))) }
    ensures extends { Extends store.old store.new }
{
    if left_beside_all(sig, given, op, patterns, items.len()).is_none() {
        return Ok(false);
    }
    may_each(store, sig, given, op, patterns, items)
}

/// Whether what is not known of the list of each of some patterns may be among some items.
#[cycle(may)]
fn may_each(
    store: &mut Store,
    sig: &Signature,
    given: &Given,
    op: OpId,
    patterns: &[Bare],
    items: &[TermId],
) -> Result<bool, NoMemory>
    requires operator { IsOperator sig.now op.0 }
    requires assoc { (theory_at sig.now op.0).assoc ≡ true }
    requires bare { All (λ p. IsBare (terms_over sig.now) (tree_of p)) patterns.now }
    requires values { AreGivenWithin sig.now store.old given.now }
    requires items { StandWithin (theory_at sig.now) store.old (numbers items.now) }
    ensures refused { IfOk result (λ b. b ≡ false → AreNeverAmong sig.now store.old given.now op.0 (trees_of (map tree_of patterns.now)) (trees_at store.old (numbers items.now))) }
    ensures extends { Extends store.old store.new }
{
    match patterns {
        [] => Ok(true),
        [first, rest @ ..] => {
            if may_take(store, sig, given, op, first, items)? {
                may_each(store, sig, given, op, rest, items)
            } else {
                Ok(false)
            }
        }
    }
}

/// The same of one pattern.
#[cycle(may)]
fn may_take(
    store: &mut Store,
    sig: &Signature,
    given: &Given,
    op: OpId,
    pattern: &Bare,
    items: &[TermId],
) -> Result<bool, NoMemory>
    requires operator { IsOperator sig.now op.0 }
    requires assoc { (theory_at sig.now op.0).assoc ≡ true }
    requires bare { IsBare (terms_over sig.now) (tree_of pattern.now) }
    requires values { AreGivenWithin sig.now store.old given.now }
    requires items { StandWithin (theory_at sig.now) store.old (numbers items.now) }
    ensures refused { IfOk result (λ b. b ≡ false → IsNeverAmong sig.now store.old given.now op.0 (tree_of pattern.now) (trees_at store.old (numbers items.now))) }
    ensures extends { Extends store.old store.new }
{
    if is_bound(given.variables.items(), pattern) {
        return Ok(true);
    }
    match pattern {
        Bare::App(top, args) => {
            if *top == op {
                return may_each(store, sig, given, op, args.items(), items);
            }
            if !sig.theory(op).comm {
                return Ok(true);
            }
            let copy = copy_of(store.allocator(), items)?;
            let part = Part::ListOf(Reach::Inside, op, Seq::new(copy));
            may_match(store, sig, given, pattern, &part)
        }
        _ => Ok(true),
    }
}
