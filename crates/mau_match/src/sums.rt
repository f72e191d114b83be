//! Elements whose number is no sum of the numbers of times that variables are arguments, so that something else takes some of them.
ghost use Rattle.std.specs.Prelude.{◌≡◌, ℕ, ◌+◌, ◌≤◌, ◌++◌, [], ◌∷◌, List, All, Contains, length, map, true, false, not, ◌&&◌, IfOk, IfSome, OnOk};
ghost use Rattle.mau_terms.specs.Tree.{Tree, trees_of};
ghost use Rattle.mau_terms.specs.Bare.{IsBare};
ghost use Rattle.mau_terms.specs.Subst.{Variable, same_variable, has_variable};
ghost use Rattle.mau_terms.specs.View.{tree_of, variable_of};
ghost use Rattle.mau_terms.specs.declared.theory.Theory.{Theory};
ghost use Rattle.mau_signature.specs.Signature.{theory_at, terms_over};
ghost use Rattle.mau_store.specs.Trees.{tree_at, trees_at};
ghost use Rattle.mau_store.specs.View.{numbers};
ghost use Rattle.mau_domains.specs.Parts.{whole};
ghost use Rattle.mau_domains.specs.Stored.{reach_of};
ghost use Rattle.mau_match.specs.Parts.{how_many, copies, copies_in, IsFair, AreFair};
ghost use Rattle.mau_match.specs.Limited.{AreLimited};
ghost use Rattle.mau_match.specs.Possible.{frees};
ghost use Rattle.mau_match.specs.Sums.{IsSum, AreBeside, AreAsMany, apart, besides_of, besides, AreShared};
ghost use Rattle.mau_match.specs.Walked.{bound_of};

use crate::Given;
use crate::limits::{is_plain, most_of};
use crate::lists::copy_of;
use crate::steps::count_of;
use crate::variables::{has_variable, is_bound};
use mau_domains::Reach;
use mau_listing::is_lawful;
use mau_signature::Signature;
use mau_store::Store;
use mau_terms::{Bare, NoMemory, OpId, TermId, VarId};

// ---- sums

/// Whether a number is a sum of some numbers, each as often as one likes.
#[cycle(sum)]
fn is_sum(counts: &[usize], n: usize) -> bool
    ensures { result ≡ false → IsSum counts.now n → ⊥ }
{
    match counts {
        [] => n == 0,
        [first, rest @ ..] => is_sum_with(*first, rest, n),
    }
}

/// The same with a first one.
#[cycle(sum)]
fn is_sum_with(first: usize, rest: &[usize], n: usize) -> bool
    ensures { result ≡ false → IsSum (first ∷ rest.now) n → ⊥ }
{
    if first == 0 {
        return true;
    }
    let mut left = n;
    while left >= first {
        if is_sum(rest, left) {
            return true;
        }
        left -= first;
    }
    is_sum(rest, left)
}

// ---- elements

/// Adds a term, unless it is another one.
fn push_other(
    store: &Store,
    term: TermId,
    item: TermId,
    out: &mut Vec<TermId>,
) -> Result<(), NoMemory>
    ensures { OnOk result (trees_at store.now (numbers out.new.items) ≡ trees_at store.now (numbers out.old.items) ++ apart (tree_at store.now term.0) (tree_at store.now item.0 ∷ [])) }
{
    if store.compare(term, item).is_eq() {
        return Ok(());
    }
    out.push(item)?;
    Ok(())
}

/// Some terms without those that are one term.
fn others(store: &Store, items: &[TermId], term: TermId) -> Result<Vec<TermId>, NoMemory>
    ensures { IfOk result (λ out. trees_at store.now (numbers out.items) ≡ apart (tree_at store.now term.0) (trees_at store.now (numbers items.now))) }
{
    let mut out = Vec::new(store.allocator());
    for item in items {
        push_other(store, term, *item, &mut out)?;
    }
    Ok(out)
}

/// One, if the number of a term among some items is no sum of some numbers.
fn lack_of(store: &Store, counts: &[usize], items: &[TermId], term: TermId) -> usize
    ensures { (beside : List Tree) → AreBeside counts.now (trees_at store.now (numbers items.now)) beside → result ≤ how_many (tree_at store.now term.0) beside }
{
    if is_sum(counts, count_of(store, items, term)) {
        0
    } else {
        1
    }
}

/// How many elements stand at least beside those whose numbers are sums of some numbers, counted until there are more than enough.
fn least_beside(
    store: &Store,
    counts: &[usize],
    items: &[TermId],
    enough: usize,
) -> Result<usize, NoMemory>
    ensures { IfOk result (λ n. (beside : List Tree) → AreBeside counts.now (trees_at store.now (numbers items.now)) beside → n ≤ length beside) }
{
    let mut rest = copy_of(store.allocator(), items)?;
    let mut lacking: usize = 0;
    for _ in 0..items.len() {
        if rest.is_empty() {
            return Ok(lacking);
        }
        if lacking > enough {
            return Ok(lacking);
        }
        let term = rest[0];
        lacking = lacking.saturating_add(lack_of(store, counts, &rest, term));
        rest = others(store, &rest, term)?;
    }
    Ok(lacking)
}

// ---- variables

/// Whether a variable at a place of a pattern is this one, and has no value.
fn is_place_of(given: &Given, variable: VarId, place: VarId) -> bool
    ensures { result ≡ (same_variable (variable_of place) (variable_of variable) && not (has_variable (bound_of given.now) (variable_of place))) }
{
    place == variable && !has_variable(given.variables.items(), place)
}

/// A number, and how often a variable without a value is an argument, through nested uses of the operator.
#[cycle(times)]
fn times_of(given: &Given, op: OpId, variable: VarId, pattern: &Bare, count: usize) -> Option<usize>
    ensures { IfSome result (λ n. n ≡ count + copies (bound_of given.now) (variable_of variable) op.0 (tree_of pattern.now)) }
{
    match pattern {
        Bare::Var(place) => {
            if is_place_of(given, variable, *place) {
                return count.checked_add(1);
            }
            Some(count)
        }
        Bare::Num(_) => Some(count),
        Bare::App(top, args) => {
            if *top == op {
                return times_in(given, op, variable, args.items(), count);
            }
            Some(count)
        }
    }
}

/// The same in several patterns.
#[cycle(times)]
fn times_in(
    given: &Given,
    op: OpId,
    variable: VarId,
    patterns: &[Bare],
    count: usize,
) -> Option<usize>
    ensures { IfSome result (λ n. n ≡ count + copies_in (bound_of given.now) (variable_of variable) op.0 (trees_of (map tree_of patterns.now))) }
{
    match patterns {
        [] => Some(count),
        [first, rest @ ..] => {
            let more = times_of(given, op, variable, first, count)?;
            times_in(given, op, variable, rest, more)
        }
    }
}

/// Adds a variable that is an argument twice or more often, and how often.
fn push_share(
    given: &Given,
    op: OpId,
    patterns: &[Bare],
    variable: VarId,
    hidden: &mut Vec<VarId>,
    counts: &mut Vec<usize>,
) -> Result<(), NoMemory>
    ensures { (th : ℕ → Theory) (gg : Variable → Tree) → AreShared th (bound_of given.now) (map variable_of hidden.old.items) gg op.0 (trees_of (map tree_of patterns.now)) counts.old.items →
        OnOk result (AreShared th (bound_of given.now) (map variable_of hidden.new.items) gg op.0 (trees_of (map tree_of patterns.now)) counts.new.items) }
{
    if has_variable(hidden, variable) {
        return Ok(());
    }
    let Some(times) = times_in(given, op, variable, patterns, 0) else {
        return Ok(());
    };
    if times < 2 {
        return Ok(());
    }
    hidden.push(variable)?;
    counts.push(times)?;
    Ok(())
}

/// Adds all such variables that limits name.
fn push_shares(
    given: &Given,
    op: OpId,
    patterns: &[Bare],
    hidden: &mut Vec<VarId>,
    counts: &mut Vec<usize>,
) -> Result<(), NoMemory>
    ensures { (th : ℕ → Theory) (gg : Variable → Tree) → AreShared th (bound_of given.now) (map variable_of hidden.old.items) gg op.0 (trees_of (map tree_of patterns.now)) counts.old.items →
        OnOk result (AreShared th (bound_of given.now) (map variable_of hidden.new.items) gg op.0 (trees_of (map tree_of patterns.now)) counts.new.items) }
{
    let limits = given.limits.items();
    for limit in limits {
        push_share(given, op, patterns, limit.variable, hidden, counts)?;
    }
    Ok(())
}

// ---- what stands beside

/// So many elements, and as many as what is not known of a pattern's list has at most beside some variables, if there is a limit.
#[cycle(slack)]
fn most_apart(
    sig: &Signature,
    given: &Given,
    op: OpId,
    hidden: &[VarId],
    pattern: &Bare,
    count: usize,
) -> Option<usize>
    requires bare { IsBare (terms_over sig.now) (tree_of pattern.now) }
    ensures { IfSome result (λ most. (gg : Variable → Tree) → AreLimited (theory_at sig.now) given.now.limits gg → IsFair (theory_at sig.now) gg (tree_of pattern.now) →
        count + length (besides_of (theory_at sig.now) (bound_of given.now) (map variable_of hidden.now) gg op.0 (tree_of pattern.now)) ≤ most) }
{
    if is_bound(given.variables.items(), pattern) {
        return Some(count);
    }
    match pattern {
        Bare::App(top, args) => {
            if *top == op {
                return all_most_apart(sig, given, op, hidden, args.items(), count);
            }
            is_lawful(sig);
            if !is_plain(sig.theory(*top)) {
                return None;
            }
            count.checked_add(1)
        }
        Bare::Var(variable) => {
            if has_variable(hidden, *variable) {
                return Some(count);
            }
            let most = most_of(given.limits.items(), op, *variable)?;
            count.checked_add(most)
        }
        Bare::Num(_) => Some(count),
    }
}

/// The same of several patterns.
#[cycle(slack)]
fn all_most_apart(
    sig: &Signature,
    given: &Given,
    op: OpId,
    hidden: &[VarId],
    patterns: &[Bare],
    count: usize,
) -> Option<usize>
    requires bare { All (λ p. IsBare (terms_over sig.now) (tree_of p)) patterns.now }
    ensures { IfSome result (λ most. (gg : Variable → Tree) → AreLimited (theory_at sig.now) given.now.limits gg → AreFair (theory_at sig.now) gg (trees_of (map tree_of patterns.now)) →
        count + length (besides (theory_at sig.now) (bound_of given.now) (map variable_of hidden.now) gg op.0 (trees_of (map tree_of patterns.now))) ≤ most) }
{
    match patterns {
        [] => Some(count),
        [first, rest @ ..] => {
            let more = most_apart(sig, given, op, hidden, first, count)?;
            all_most_apart(sig, given, op, hidden, rest, more)
        }
    }
}

/// Whether more elements stand beside those of variables that are arguments twice or more often than there is room for.
fn are_uneven_whole(
    store: &Store,
    sig: &Signature,
    given: &Given,
    op: OpId,
    patterns: &[Bare],
    items: &[TermId],
) -> Result<bool, NoMemory>
    requires bare { All (λ p. IsBare (terms_over sig.now) (tree_of p)) patterns.now }
    ensures { IfOk result (λ b. b ≡ true → (gg : Variable → Tree) → AreLimited (theory_at sig.now) given.now.limits gg → AreFair (theory_at sig.now) gg (trees_of (map tree_of patterns.now)) →
        AreAsMany (frees (theory_at sig.now) (bound_of given.now) gg op.0 (trees_of (map tree_of patterns.now))) (trees_at store.now (numbers items.now)) → ⊥) }
{
    let mut hidden = Vec::new(store.allocator());
    let mut counts = Vec::new(store.allocator());
    push_shares(given, op, patterns, &mut hidden, &mut counts)?;
    if counts.is_empty() {
        return Ok(false);
    }
    let Some(most) = all_most_apart(sig, given, op, &hidden, patterns, 0) else {
        return Ok(false);
    };
    let least = least_beside(store, &counts, items, most)?;
    Ok(most < least)
}

/// Whether what is not known of the lists of some patterns can be so much of some items in no case, since variables that are arguments twice
/// or more often take a number of each element that is a sum of these numbers.
pub fn are_uneven(
    store: &Store,
    sig: &Signature,
    given: &Given,
    op: OpId,
    patterns: &[Bare],
    reach: Reach,
    items: &[TermId],
) -> Result<bool, NoMemory>
    requires bare { All (λ p. IsBare (terms_over sig.now) (tree_of p)) patterns.now }
    ensures whole { IfOk result (λ b. b ≡ true → reach_of reach ≡ whole) }
    ensures uneven { IfOk result (λ b. b ≡ true → (gg : Variable → Tree) → AreLimited (theory_at sig.now) given.now.limits gg → AreFair (theory_at sig.now) gg (trees_of (map tree_of patterns.now)) →
        AreAsMany (frees (theory_at sig.now) (bound_of given.now) gg op.0 (trees_of (map tree_of patterns.now))) (trees_at store.now (numbers items.now)) → ⊥) }
{
    match reach {
        Reach::Whole => are_uneven_whole(store, sig, given, op, patterns, items),
        Reach::Front => Ok(false),
        Reach::Inside => Ok(false),
    }
}
