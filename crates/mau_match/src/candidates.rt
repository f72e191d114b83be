//! What the value of the next variable may be: the parts of the subject that it is of, and the values of these in order.
ghost use Rattle.std.specs.Prelude.{◌≡◌, ◌⊎◌, true, false, Some, None, ◌++◌, ◌∷◌, ◌+◌, ◌<◌, ◌≤◌, List, All, Contains, length, map, take, IfOk, IfSome, IfNone, OnOk};
ghost use Rattle.mau_terms.specs.Tree.{Tree};
ghost use Rattle.mau_terms.specs.View.{tree_of};
ghost use Rattle.mau_terms.specs.declared.ids.VarId.{VarId};
ghost use Rattle.mau_terms.specs.declared.ids.TermId.{TermId as Id};
ghost use Rattle.mau_signature.specs.Signature.{theory_at};
ghost use Rattle.mau_store.specs.Node.{Extends};
ghost use Rattle.mau_store.specs.Trees.{tree_at, trees_at};
ghost use Rattle.mau_store.specs.View.{numbers};
ghost use Rattle.mau_canon.specs.Standing.{StandsWithin, StandWithin};
ghost use Rattle.mau_sorts.specs.HasSort.{Known};
ghost use Rattle.mau_listing.specs.Asked.{IsAskable};
ghost use Rattle.mau_listing.specs.Places.{operator_number, under_all, variables_in};
ghost use Rattle.mau_trial.specs.Tried.{ArePlacesOf, asked_in};
ghost use Rattle.mau_domains.specs.Search.{IsLeastOrNone, IsValueBehind, first_of};
ghost use Rattle.mau_match.specs.Walked.{parts_in};
ghost use Rattle.mau_domains.specs.Values.{by_key};
ghost use Rattle.mau_match.specs.Values.{IsValueOfAny};
ghost use Rattle.mau_domains.specs.Stored.{tree_in, IsListOperator, IsPartOver};
ghost use Rattle.mau_match.specs.Limited.{IsLimitOf};
ghost use Rattle.mau_match.specs.Listing.{place_at};
ghost use Rattle.mau_match.specs.Searched.{AnswerIn, order_of};
ghost use Rattle.mau_match.specs.Skipped.{IsAsLong};
ghost use Rattle.mau_match.specs.Fronts.{NoneGoesOn, IsPassedFront};

use crate::choices::push;
use crate::front::{greatest_item, is_blank, other_limits, term_over, with_front};
use crate::hide::{fresh, hide};
use crate::lead::{Choice, may_lead_with};
use crate::lists::copy_of;
use crate::may_match::may_match;
use crate::single::by_sort;
use crate::skip::{joined, only_items, passed, value_over};
use crate::variables::{has_variable, occurs};
use crate::walk::parts_for;
use crate::{Given, Limit};
use mau_canon::{BuildFault, list_of};
use mau_domains::{Part, Reach, next_value};
use mau_listing::{Place, compare_lists, is_lawful, value_key_of};
use mau_signature::Signature;
use mau_store::{NodeView, Store};
use mau_terms::{NoMemory, OpId, Seq, TermId, VarId};
use mau_trial::Trial;
use std::alloc::Global;
use std::cmp::Ordering;
use std::slice;

/// The value that a variable has beforehand, if it has one.
fn bound_value(bound: &[(VarId, TermId)], variable: VarId) -> Option<TermId>
    ensures { IfSome result (λ id. Contains bound.now (variable, id)) }
{
    for pair in bound {
        if pair.0 == variable {
            return Some(pair.1);
        }
    }
    None
}

/// Variables that have values beforehand, and then those of some places.
fn given_variables(
    alloc: Global,
    bound: &[(VarId, TermId)],
    places: &[Place],
) -> Result<Vec<VarId>, NoMemory>
    ensures { IfOk result (λ xs. xs.items ≡ map {B = VarId} (λ b. b.0) bound.now ++ variables_in places.now) }
{
    let mut variables = Vec::new(alloc);
    for pair in bound {
        variables.push(pair.0)?;
    }
    push_variables(&mut variables, places)?;
    Ok(variables)
}

/// Adds the variables of some places.
fn push_variables(out: &mut Vec<VarId>, places: &[Place]) -> Result<(), NoMemory>
    ensures { OnOk result (out.new.items ≡ out.old.items ++ variables_in places.now) }
{
    for place in places {
        out.push(place.variable)?;
    }
    Ok(())
}

/// Values beforehand, and then some others.
fn given_values(
    alloc: Global,
    bound: &[(VarId, TermId)],
    chosen: &[TermId],
) -> Result<Vec<TermId>, NoMemory>
    ensures { IfOk result (λ ids. ids.items ≡ map {B = Id} (λ b. b.1) bound.now ++ chosen.now) }
{
    let mut values = Vec::new(alloc);
    for pair in bound {
        values.push(pair.1)?;
    }
    values.extend_from_slice(chosen)?;
    Ok(values)
}

/// What is given while a variable is to have a value: what is bound beforehand, and the chosen values of the variables at some places.
fn given_for(
    alloc: Global,
    bound: &[(VarId, TermId)],
    places: &[Place],
    chosen: &[TermId],
    target: VarId,
    limits: Vec<Limit>,
) -> Result<Given, NoMemory>
    ensures variables { IfOk result (λ g. g.variables ≡ map {B = VarId} (λ b. b.0) bound.now ++ variables_in places.now) }
    ensures values { IfOk result (λ g. g.values ≡ map {B = Id} (λ b. b.1) bound.now ++ chosen.now) }
    ensures target { IfOk result (λ g. g.target ≡ target) }
    ensures limits { IfOk result (λ g. g.limits ≡ limits.items) }
{
    let variables = given_variables(alloc, bound, places)?;
    let values = given_values(alloc, bound, chosen)?;
    Ok(Given {
        variables: Seq::new(variables),
        values: Seq::new(values),
        target,
        limits: Seq::new(limits),
    })
}

/// The same limits once more.
fn copied(alloc: Global, limits: &[Limit]) -> Result<Vec<Limit>, NoMemory>
    ensures { IfOk result (λ own. own.items ≡ limits.now) }
{
    Ok(Vec::from_slice(alloc, limits)?)
}

/// The parts that the value of the next variable may be of by the walk to its first place, and none where no answer begins with the
/// chosen values.
fn walked_candidates(
    trial: &Trial,
    places: &[Place],
    store: &mut Store,
    sig: &Signature,
    chosen: &[TermId],
) -> Result<Option<Vec<Part>>, NoMemory>
    requires askable { IsAskable sig.now store.old (asked_in trial.now) }
    requires places { ArePlacesOf sig.now (tree_of trial.now.pattern) places.now }
    requires chosen { StandWithin (theory_at sig.now) store.old (numbers chosen.now) }
    requires room { length chosen.now < length places.now }
    ensures within { IfOk result (λ o. IfSome o (λ parts. All (IsPartOver sig.now store.new) parts.items)) }
    ensures some { (known : Known) (u : Tree) (us : List Tree) → AnswerIn sig.now known store.old trial.now (trees_at store.old (numbers chosen.now) ++ u ∷ us) →
        IfOk result (λ o. IfSome o (λ parts. IsValueOfAny (theory_at sig.now) (parts_in store.new parts.items) u)) }
    ensures none { (known : Known) (u : Tree) (us : List Tree) → AnswerIn sig.now known store.old trial.now (trees_at store.old (numbers chosen.now) ++ u ∷ us) →
        IfOk result (λ o. IfNone o ⊥) }
    ensures extends { Extends store.old store.new }
{
    is_lawful(sig);
    let target = places[chosen.len()].variable;
    if let Some(value) = bound_value(&trial.bound, target) {
        let mut parts = Vec::new(store.allocator());
        push(&mut parts, Part::One(value))?;
        return Ok(Some(parts));
    }
    let front = &places[..chosen.len()];
    let none = Vec::new(store.allocator());
    let given = given_for(store.allocator(), &trial.bound, front, chosen, target, none)?;
    match parts_for(store, sig, &given, &trial.pattern, trial.subject) {
        Ok(parts) => Ok(Some(parts)),
        Err(BuildFault::NoMemory) => Err(NoMemory),
        Err(BuildFault::TooDeep) => Ok(None),
        Err(BuildFault::Overflow) => Ok(None),
    }
}

/// Whether an answer may begin with the chosen values.
fn may_answer(
    trial: &Trial,
    places: &[Place],
    store: &mut Store,
    sig: &Signature,
    limits: &[Limit],
    chosen: &[TermId],
) -> Result<bool, NoMemory>
    requires askable { IsAskable sig.now store.old (asked_in trial.now) }
    requires places { ArePlacesOf sig.now (tree_of trial.now.pattern) places.now }
    requires chosen { StandWithin (theory_at sig.now) store.old (numbers chosen.now) }
    requires room { length chosen.now < length places.now }
    ensures refused { (known : Known) (u : Tree) (us : List Tree) → All (IsLimitOf sig.now known (variables_in places.now)) limits.now →
        AnswerIn sig.now known store.old trial.now (trees_at store.old (numbers chosen.now) ++ u ∷ us) →
        IfOk result (λ b. b ≡ true) }
    ensures extends { Extends store.old store.new }
{
    is_lawful(sig);
    let target = places[chosen.len()].variable;
    let front = &places[..chosen.len()];
    let own = copied(store.allocator(), limits)?;
    let given = given_for(store.allocator(), &trial.bound, front, chosen, target, own)?;
    may_match(
        store,
        sig,
        &given,
        &trial.pattern,
        &Part::One(trial.subject),
    )
}

/// Whether an answer may begin with the chosen values and one more within a limit.
fn may_be_short(
    trial: &Trial,
    places: &[Place],
    store: &mut Store,
    sig: &Signature,
    limits: &[Limit],
    chosen: &[TermId],
    op: OpId,
    most: usize,
) -> Result<bool, NoMemory>
    requires askable { IsAskable sig.now store.old (asked_in trial.now) }
    requires places { ArePlacesOf sig.now (tree_of trial.now.pattern) places.now }
    requires chosen { StandWithin (theory_at sig.now) store.old (numbers chosen.now) }
    requires room { length chosen.now < length places.now }
    ensures refused { (known : Known) (u : Tree) (us : List Tree) → All (IsLimitOf sig.now known (variables_in places.now)) limits.now →
        AnswerIn sig.now known store.old trial.now (trees_at store.old (numbers chosen.now) ++ u ∷ us) →
        IfOk result (λ b. b ≡ false → IsAsLong (theory_at sig.now) (Some op.0) (most + 1) u) }
    ensures extends { Extends store.old store.new }
{
    is_lawful(sig);
    let target = places[chosen.len()].variable;
    let front = &places[..chosen.len()];
    let mut own = copied(store.allocator(), limits)?;
    own.push(Limit {
        op,
        variable: target,
        least: 0,
        most: Some(most),
    })?;
    let given = given_for(store.allocator(), &trial.bound, front, chosen, target, own)?;
    may_match(
        store,
        sig,
        &given,
        &trial.pattern,
        &Part::One(trial.subject),
    )
}

/// The next step of a search for a number: twice as far, until one was too far.
fn further(step: usize, growing: bool) -> usize {
    if growing {
        step.saturating_mul(2)
    } else {
        step
    }
}

/// A guess, where the next value has so many elements in each answer that begins with the chosen values, and else nothing.
fn guessed_length(
    trial: &Trial,
    places: &[Place],
    store: &mut Store,
    sig: &Signature,
    limits: &[Limit],
    chosen: &[TermId],
    op: OpId,
    guess: usize,
) -> Result<usize, NoMemory>
    requires askable { IsAskable sig.now store.old (asked_in trial.now) }
    requires places { ArePlacesOf sig.now (tree_of trial.now.pattern) places.now }
    requires chosen { StandWithin (theory_at sig.now) store.old (numbers chosen.now) }
    requires room { length chosen.now < length places.now }
    ensures least { (known : Known) (u : Tree) (us : List Tree) → All (IsLimitOf sig.now known (variables_in places.now)) limits.now →
        AnswerIn sig.now known store.old trial.now (trees_at store.old (numbers chosen.now) ++ u ∷ us) → IfOk result (λ n. IsAsLong (theory_at sig.now) (Some op.0) n u) }
    ensures extends { Extends store.old store.new }
{
    if guess == 0 {
        return Ok(0);
    }
    let most = guess - 1;
    if may_be_short(trial, places, store, sig, limits, chosen, op, most)? {
        return Ok(0);
    }
    Ok(most + 1)
}

/// So many elements as the next value has in each answer that begins with the chosen values; a guess is tried first.
fn least_length(
    trial: &Trial,
    places: &[Place],
    store: &mut Store,
    sig: &Signature,
    limits: &[Limit],
    chosen: &[TermId],
    op: OpId,
    guess: usize,
) -> Result<usize, NoMemory>
    requires askable { IsAskable sig.now store.old (asked_in trial.now) }
    requires places { ArePlacesOf sig.now (tree_of trial.now.pattern) places.now }
    requires chosen { StandWithin (theory_at sig.now) store.old (numbers chosen.now) }
    requires room { length chosen.now < length places.now }
    ensures least { (known : Known) (u : Tree) (us : List Tree) → All (IsLimitOf sig.now known (variables_in places.now)) limits.now →
        AnswerIn sig.now known store.old trial.now (trees_at store.old (numbers chosen.now) ++ u ∷ us) → IfOk result (λ n. IsAsLong (theory_at sig.now) (Some op.0) n u) }
    ensures extends { Extends store.old store.new }
{
    let mut low = guessed_length(trial, places, store, sig, limits, chosen, op, guess)?;
    let mut step: usize = 1;
    let mut growing = true;
    for _ in 0..128 {
        let most = low.saturating_add(step.saturating_sub(1));
        if step == 0 || most == usize::MAX {
            return Ok(low);
        }
        if may_be_short(trial, places, store, sig, limits, chosen, op, most)? {
            step /= 2;
            growing = false;
            continue;
        }
        low = most + 1;
        step = further(step, growing);
    }
    Ok(low)
}

/// How many values are tried one after the other: where there are no more, no other place is looked for, and no length.
const FEW: usize = 64;

/// About how many values some parts have.
fn weight_of(parts: &[Part]) -> usize {
    let mut weight: usize = 0;
    for part in parts {
        match part {
            Part::ListOf(reach, _, items) => {
                let count = items.items().len();
                if *reach == Reach::Whole {
                    weight = weight.saturating_add(1);
                } else {
                    weight = weight.saturating_add(
                        count.saturating_mul(count).saturating_mul(count),
                    );
                }
            }
            Part::One(_) => {
                weight = weight.saturating_add(1);
            }
        }
    }
    weight
}

/// So many elements as the next value has in each answer that begins with the chosen values, where many values of these parts may be passed
/// over; a guess is tried first.
fn shortest(
    trial: &Trial,
    places: &[Place],
    store: &mut Store,
    sig: &Signature,
    limits: &[Limit],
    chosen: &[TermId],
    parts: &[Part],
    guess: usize,
) -> Result<usize, NoMemory>
    requires askable { IsAskable sig.now store.old (asked_in trial.now) }
    requires places { ArePlacesOf sig.now (tree_of trial.now.pattern) places.now }
    requires chosen { StandWithin (theory_at sig.now) store.old (numbers chosen.now) }
    requires room { length chosen.now < length places.now }
    ensures least { (known : Known) (u : Tree) (us : List Tree) → All (IsLimitOf sig.now known (variables_in places.now)) limits.now →
        AnswerIn sig.now known store.old trial.now (trees_at store.old (numbers chosen.now) ++ u ∷ us) →
        IfOk result (λ n. IsAsLong (theory_at sig.now) (place_at (under_all places.now) (length chosen.now)) n u) }
    ensures extends { Extends store.old store.new }
{
    if weight_of(parts) <= FEW {
        return Ok(0);
    }
    let under = places[chosen.len()].under;
    let Some(op) = under else {
        return Ok(0);
    };
    if only_items(sig, op, parts).is_none() {
        return Ok(0);
    }
    least_length(trial, places, store, sig, limits, chosen, op, guess)
}

// ---- values that begin alike

/// How many values are tried, all together, before a front may lead to an answer: so many, and so many more for each item of the parts.
const TRIES: usize = 256;

const TRIES_PER_ITEM: usize = 16;

/// How many values are tried for some parts.
fn tries_for(parts: &[Part]) -> usize {
    let mut tries = TRIES;
    for part in parts {
        if let Part::ListOf(_, _, items) = part {
            let more = items.items().len().saturating_mul(TRIES_PER_ITEM);
            tries = tries.saturating_add(more);
        }
    }
    tries
}

/// Whether an answer may begin with the chosen values and one that has these elements first under an operator, and goes on.
fn may_go_on(
    trial: &Trial,
    places: &[Place],
    store: &mut Store,
    sig: &Signature,
    limits: &[Limit],
    chosen: &[TermId],
    op: OpId,
    list: &[TermId],
    tries: usize,
) -> Result<bool, NoMemory>
    requires askable { IsAskable sig.now store.old (asked_in trial.now) }
    requires places { ArePlacesOf sig.now (tree_of trial.now.pattern) places.now }
    requires chosen { StandWithin (theory_at sig.now) store.old (numbers chosen.now) }
    requires room { length chosen.now < length places.now }
    requires operator { IsListOperator sig.now op.0 }
    requires list { StandWithin (theory_at sig.now) store.old (numbers list.now) }
    requires some { (theory_at sig.now op.0).id ≡ None → 1 ≤ length list.now }
    ensures refused { IfOk result (λ b. b ≡ false → NoneGoesOn sig.now limits.now store.old trial.now places.now chosen.now op.0 (trees_at store.old (numbers list.now))) }
    ensures extends { Extends store.old store.new }
{
    is_lawful(sig);
    let target = places[chosen.len()].variable;
    let own = other_limits(store.allocator(), limits, op, target)?;
    let depth = own.len();
    let front = &places[..chosen.len()];
    let given = given_for(store.allocator(), &trial.bound, front, chosen, target, own)?;
    if has_variable(given.variables.items(), target) {
        return Ok(true);
    }
    if sig.poset().kind_of(target.sort) != sig.result_kind(op) {
        return Ok(true);
    }
    let Some(other) = fresh(&trial.pattern, given.variables.items(), target.sort) else {
        return Ok(true);
    };
    let Some(value) = term_over(store, sig, op, list)? else {
        return Ok(true);
    };
    let pattern = with_front(store.allocator(), &trial.pattern, op, target, other)?;
    let choice = Choice {
        variable: other,
        values: copy_of(store.allocator(), slice::from_ref(&value))?,
    };
    let mut left = tries;
    may_lead_with(
        store,
        sig,
        &given,
        op,
        &pattern,
        trial.subject,
        depth,
        &mut left,
        &choice,
    )
}

/// How many of the first elements of a list are those that no answer goes on with: as few as can be told, if that can be told of all.
fn dead_front(
    trial: &Trial,
    places: &[Place],
    store: &mut Store,
    sig: &Signature,
    limits: &[Limit],
    chosen: &[TermId],
    op: OpId,
    list: &[TermId],
    tries: usize,
) -> Result<Option<usize>, NoMemory>
    requires askable { IsAskable sig.now store.old (asked_in trial.now) }
    requires places { ArePlacesOf sig.now (tree_of trial.now.pattern) places.now }
    requires chosen { StandWithin (theory_at sig.now) store.old (numbers chosen.now) }
    requires room { length chosen.now < length places.now }
    requires operator { IsListOperator sig.now op.0 }
    requires list { StandWithin (theory_at sig.now) store.old (numbers list.now) }
    ensures dead { IfOk result (λ o. IfSome o (λ n. NoneGoesOn sig.now limits.now store.old trial.now places.now chosen.now op.0 (trees_at store.old (numbers (take n list.now))))) }
    ensures room { IfOk result (λ o. IfSome o (λ n. n ≤ length list.now)) }
    ensures extends { Extends store.old store.new }
{
    if is_blank(sig, op, list) {
        return Ok(None);
    }
    if may_go_on(trial, places, store, sig, limits, chosen, op, list, tries)? {
        return Ok(None);
    }
    let mut low: usize = 0;
    let mut high = list.len();
    if high == 0 {
        return Ok(Some(high));
    }
    for _ in 0..64 {
        let middle = low + (high - low) / 2;
        if middle == low {
            return Ok(Some(high));
        }
        if may_go_on(
            trial,
            places,
            store,
            sig,
            limits,
            chosen,
            op,
            &list[..middle],
            tries,
        )? {
            low = middle;
            continue;
        }
        high = middle;
    }
    Ok(Some(high))
}

/// How far a value may be passed over under a commutative operator, where no answer's value goes on with its first elements.
fn passed_front(
    trial: &Trial,
    places: &[Place],
    store: &mut Store,
    sig: &Signature,
    limits: &[Limit],
    chosen: &[TermId],
    op: OpId,
    parts: &[Part],
    value: TermId,
) -> Result<TermId, NoMemory>
    requires askable { IsAskable sig.now store.old (asked_in trial.now) }
    requires places { ArePlacesOf sig.now (tree_of trial.now.pattern) places.now }
    requires chosen { StandWithin (theory_at sig.now) store.old (numbers chosen.now) }
    requires room { length chosen.now < length places.now }
    requires operator { IsListOperator sig.now op.0 }
    requires parts { All (IsPartOver sig.now store.old) parts.now }
    requires value { StandsWithin (theory_at sig.now) store.old value.0 }
    ensures passed { IfOk result (λ id. IsPassedFront sig.now limits.now store.old trial.now places.now chosen.now op.0 (tree_at store.old value.0) (tree_at store.new id.0)) }
    ensures within { IfOk result (λ id. StandsWithin (theory_at sig.now) store.new id.0) }
    ensures extends { Extends store.old store.new }
{
    let Some(last) = greatest_item(store, sig, op, parts) else {
        return Ok(value);
    };
    let list = copy_of(store.allocator(), list_of(store, sig, op, &value))?;
    match dead_front(
        trial,
        places,
        store,
        sig,
        limits,
        chosen,
        op,
        &list,
        tries_for(parts),
    )? {
        Some(count) => {
            let far = joined(store.allocator(), &list[..count], slice::from_ref(&last))?;
            value_over(store, sig, op, &far, value)
        }
        None => Ok(value),
    }
}

/// The same of a value under any operator or none, behind so many others that led to no answer: the first one is looked at, and then
/// ever fewer of them.
fn passed_on(
    trial: &Trial,
    places: &[Place],
    store: &mut Store,
    sig: &Signature,
    limits: &[Limit],
    chosen: &[TermId],
    parts: &[Part],
    value: TermId,
    count: usize,
) -> Result<TermId, NoMemory>
    requires askable { IsAskable sig.now store.old (asked_in trial.now) }
    requires places { ArePlacesOf sig.now (tree_of trial.now.pattern) places.now }
    requires chosen { StandWithin (theory_at sig.now) store.old (numbers chosen.now) }
    requires room { length chosen.now < length places.now }
    requires parts { All (IsPartOver sig.now store.old) parts.now }
    requires value { StandsWithin (theory_at sig.now) store.old value.0 }
    ensures onward { (known : Known) (u : Tree) (us : List Tree) → All (IsLimitOf sig.now known (variables_in places.now)) limits.now →
        AnswerIn sig.now known store.old trial.now (trees_at store.old (numbers chosen.now) ++ u ∷ us) →
        IsValueBehind (order_of sig.now places.now) (length chosen.now) (Some (tree_at store.old value.0)) u →
        IfOk result (λ id. IsValueBehind (order_of sig.now places.now) (length chosen.now) (Some (tree_at store.new id.0)) u) }
    ensures back { (u : Tree) → IfOk result (λ id. IsValueBehind (order_of sig.now places.now) (length chosen.now) (Some (tree_at store.new id.0)) u →
        IsValueBehind (order_of sig.now places.now) (length chosen.now) (Some (tree_at store.old value.0)) u) }
    ensures within { IfOk result (λ id. StandsWithin (theory_at sig.now) store.new id.0) }
    ensures extends { Extends store.old store.new }
{
    let under = places[chosen.len()].under;
    let Some(op) = under else {
        return Ok(value);
    };
    if !count.is_power_of_two() || !sig.theory(op).comm {
        return Ok(value);
    }
    passed_front(trial, places, store, sig, limits, chosen, op, parts, value)
}

/// How far a value that leads to no answer may be passed over, where the next value has so many elements in each answer, and so many
/// values led to none since one was passed over.
pub fn skipped(
    trial: &Trial,
    places: &[Place],
    store: &mut Store,
    sig: &Signature,
    limits: &[Limit],
    chosen: &[TermId],
    parts: &[Part],
    least: usize,
    value: TermId,
    count: usize,
) -> Result<TermId, NoMemory>
    requires askable { IsAskable sig.now store.old (asked_in trial.now) }
    requires places { ArePlacesOf sig.now (tree_of trial.now.pattern) places.now }
    requires chosen { StandWithin (theory_at sig.now) store.old (numbers chosen.now) }
    requires room { length chosen.now < length places.now }
    requires parts { All (IsPartOver sig.now store.old) parts.now }
    requires value { StandsWithin (theory_at sig.now) store.old value.0 }
    ensures onward { (known : Known) (u : Tree) (us : List Tree) → All (IsLimitOf sig.now known (variables_in places.now)) limits.now →
        AnswerIn sig.now known store.old trial.now (trees_at store.old (numbers chosen.now) ++ u ∷ us) →
        IsAsLong (theory_at sig.now) (place_at (under_all places.now) (length chosen.now)) least u → IsValueOfAny (theory_at sig.now) (parts_in store.old parts.now) u →
        IsValueBehind (order_of sig.now places.now) (length chosen.now) (Some (tree_at store.old value.0)) u →
        IfOk result (λ id. IsValueBehind (order_of sig.now places.now) (length chosen.now) (Some (tree_at store.new id.0)) u) }
    ensures back { (u : Tree) → IfOk result (λ id. IsValueBehind (order_of sig.now places.now) (length chosen.now) (Some (tree_at store.new id.0)) u →
        IsValueBehind (order_of sig.now places.now) (length chosen.now) (Some (tree_at store.old value.0)) u) }
    ensures within { IfOk result (λ id. StandsWithin (theory_at sig.now) store.new id.0) }
    ensures extends { Extends store.old store.new }
{
    let far = passed(store, sig, places[chosen.len()].under, parts, least, value)?;
    let left = only_if(count, far == value);
    passed_on(trial, places, store, sig, limits, chosen, parts, far, left)
}

/// A number where that is so, and else none.
fn only_if(count: usize, same: bool) -> usize {
    if same { count } else { 0 }
}

/// How many values led to no answer before the first one: that one counts, unless it stands behind a value that led to an answer.
pub fn first_missed(after: Option<TermId>) -> usize {
    if after.is_some() { 0 } else { 1 }
}

/// How many elements a value has at least, as a guess: as many as the value before it has arguments.
pub fn guess_behind(store: &Store, sig: &Signature, after: Option<TermId>) -> usize
    requires after { IfSome after (λ id. StandsWithin (theory_at sig.now) store.now id.0) }
{
    let Some(id) = after else {
        return 0;
    };
    match store.view(id) {
        NodeView::App(_, args) => args.len(),
        _ => 0,
    }
}

/// How many values led to no answer since one was passed over, behind one more.
pub fn missed(count: usize, passed: bool) -> usize {
    if passed { 1 } else { count.saturating_add(1) }
}

/// The parts that the value of the next variable may be of by the walk to a later place, with so many before it, if the variable has one.
fn later_candidates(
    trial: &Trial,
    places: &[Place],
    store: &mut Store,
    sig: &Signature,
    chosen: &[TermId],
    before: usize,
) -> Result<Option<Vec<Part>>, NoMemory>
    requires askable { IsAskable sig.now store.old (asked_in trial.now) }
    requires places { ArePlacesOf sig.now (tree_of trial.now.pattern) places.now }
    requires chosen { StandWithin (theory_at sig.now) store.old (numbers chosen.now) }
    requires room { length chosen.now < length places.now }
    ensures within { IfOk result (λ o. IfSome o (λ parts. All (IsPartOver sig.now store.new) parts.items)) }
    ensures some { (known : Known) (u : Tree) (us : List Tree) → AnswerIn sig.now known store.old trial.now (trees_at store.old (numbers chosen.now) ++ u ∷ us) →
        IfOk result (λ o. IfSome o (λ parts. IsValueOfAny (theory_at sig.now) (parts_in store.new parts.items) u)) }
    ensures extends { Extends store.old store.new }
{
    is_lawful(sig);
    let target = places[chosen.len()].variable;
    let front = &places[..chosen.len()];
    let none = Vec::new(store.allocator());
    let given = given_for(store.allocator(), &trial.bound, front, chosen, target, none)?;
    let Some(other) = fresh(&trial.pattern, given.variables.items(), target.sort) else {
        return Ok(None);
    };
    let mut hidden = before;
    let pattern = hide(
        store.allocator(),
        &trial.pattern,
        target,
        other,
        &mut hidden,
    )?;
    if !occurs(target, &pattern) {
        return Ok(None);
    }
    match parts_for(store, sig, &given, &pattern, trial.subject) {
        Ok(parts) => Ok(Some(parts)),
        Err(BuildFault::NoMemory) => Err(NoMemory),
        Err(BuildFault::TooDeep) => Ok(None),
        Err(BuildFault::Overflow) => Ok(None),
    }
}

/// Of some parts and those by a later place of the variable the ones that have fewer values.
fn fewer(
    trial: &Trial,
    places: &[Place],
    store: &mut Store,
    sig: &Signature,
    limits: &[Limit],
    chosen: &[TermId],
    before: usize,
    best: Vec<Part>,
) -> Result<Vec<Part>, NoMemory>
    requires askable { IsAskable sig.now store.old (asked_in trial.now) }
    requires places { ArePlacesOf sig.now (tree_of trial.now.pattern) places.now }
    requires chosen { StandWithin (theory_at sig.now) store.old (numbers chosen.now) }
    requires room { length chosen.now < length places.now }
    requires best { All (IsPartOver sig.now store.old) best.items }
    ensures within { IfOk result (λ parts. All (IsPartOver sig.now store.new) parts.items) }
    ensures some { (known : Known) (u : Tree) (us : List Tree) → All (IsLimitOf sig.now known (variables_in places.now)) limits.now →
        AnswerIn sig.now known store.old trial.now (trees_at store.old (numbers chosen.now) ++ u ∷ us) → IsValueOfAny (theory_at sig.now) (parts_in store.old best.items) u →
        IfOk result (λ parts. IsValueOfAny (theory_at sig.now) (parts_in store.new parts.items) u) }
    ensures extends { Extends store.old store.new }
{
    is_lawful(sig);
    match later_candidates(trial, places, store, sig, chosen, before)? {
        Some(parts) => {
            let sort = places[chosen.len()].variable.sort;
            let found = by_sort(store, sig, limits, sort, parts)?;
            if weight_of(&found) < weight_of(&best) {
                return Ok(found);
            }
            Ok(best)
        }
        None => Ok(best),
    }
}

/// How many places of a variable are looked at.
const PLACES: usize = 4;

/// Of some parts and those by later places of the variable the ones that have the fewest values.
fn fewest(
    trial: &Trial,
    places: &[Place],
    store: &mut Store,
    sig: &Signature,
    limits: &[Limit],
    chosen: &[TermId],
    parts: Vec<Part>,
) -> Result<Vec<Part>, NoMemory>
    requires askable { IsAskable sig.now store.old (asked_in trial.now) }
    requires places { ArePlacesOf sig.now (tree_of trial.now.pattern) places.now }
    requires chosen { StandWithin (theory_at sig.now) store.old (numbers chosen.now) }
    requires room { length chosen.now < length places.now }
    requires parts { All (IsPartOver sig.now store.old) parts.items }
    ensures within { IfOk result (λ best. All (IsPartOver sig.now store.new) best.items) }
    ensures some { (known : Known) (u : Tree) (us : List Tree) → All (IsLimitOf sig.now known (variables_in places.now)) limits.now →
        AnswerIn sig.now known store.old trial.now (trees_at store.old (numbers chosen.now) ++ u ∷ us) → IsValueOfAny (theory_at sig.now) (parts_in store.old parts.items) u →
        IfOk result (λ best. IsValueOfAny (theory_at sig.now) (parts_in store.new best.items) u) }
    ensures extends { Extends store.old store.new }
{
    let mut best = parts;
    for before in 1..PLACES {
        if weight_of(&best) <= FEW {
            return Ok(best);
        }
        best = fewer(trial, places, store, sig, limits, chosen, before, best)?;
    }
    Ok(best)
}

/// What the value of the next variable may be: the parts that it is of, and how many elements it has at least.
#[derive(Drop)]
pub struct Domain {
    pub parts: Vec<Part>,
    pub least: usize,
}

/// What the value of the next variable may be, and nothing where no answer begins with the chosen values. How many elements it has at least is
/// guessed first.
pub fn candidates(
    trial: &Trial,
    places: &[Place],
    store: &mut Store,
    sig: &Signature,
    limits: &[Limit],
    chosen: &[TermId],
    guess: usize,
) -> Result<Option<Domain>, NoMemory>
    requires askable { IsAskable sig.now store.old (asked_in trial.now) }
    requires places { ArePlacesOf sig.now (tree_of trial.now.pattern) places.now }
    requires chosen { StandWithin (theory_at sig.now) store.old (numbers chosen.now) }
    requires room { length chosen.now < length places.now }
    ensures within { IfOk result (λ o. IfSome o (λ d. All (IsPartOver sig.now store.new) d.parts.items)) }
    ensures some { (known : Known) (u : Tree) (us : List Tree) → All (IsLimitOf sig.now known (variables_in places.now)) limits.now →
        AnswerIn sig.now known store.old trial.now (trees_at store.old (numbers chosen.now) ++ u ∷ us) →
        IfOk result (λ o. IfSome o (λ d. IsValueOfAny (theory_at sig.now) (parts_in store.new d.parts.items) u)) }
    ensures least { (known : Known) (u : Tree) (us : List Tree) → All (IsLimitOf sig.now known (variables_in places.now)) limits.now →
        AnswerIn sig.now known store.old trial.now (trees_at store.old (numbers chosen.now) ++ u ∷ us) →
        IfOk result (λ o. IfSome o (λ d. IsAsLong (theory_at sig.now) (place_at (under_all places.now) (length chosen.now)) d.least u)) }
    ensures none { (known : Known) (u : Tree) (us : List Tree) → All (IsLimitOf sig.now known (variables_in places.now)) limits.now →
        AnswerIn sig.now known store.old trial.now (trees_at store.old (numbers chosen.now) ++ u ∷ us) →
        IfOk result (λ o. IfNone o ⊥) }
    ensures extends { Extends store.old store.new }
{
    is_lawful(sig);
    if !may_answer(trial, places, store, sig, limits, chosen)? {
        return Ok(None);
    }
    match walked_candidates(trial, places, store, sig, chosen)? {
        Some(parts) => {
            let sort = places[chosen.len()].variable.sort;
            let found = by_sort(store, sig, limits, sort, parts)?;
            let best = fewest(trial, places, store, sig, limits, chosen, found)?;
            let least = shortest(trial, places, store, sig, limits, chosen, &best, guess)?;
            Ok(Some(Domain { parts: best, least }))
        }
        None => Ok(None),
    }
}

/// The lesser of two values, as far as there are two, in the order of values under an operator.
fn lesser(
    store: &Store,
    sig: &Signature,
    under: Option<OpId>,
    first: Option<TermId>,
    second: Option<TermId>,
) -> Option<TermId>
    requires under { IfSome under (λ op. IsListOperator sig.now op.0) }
    requires first { IfSome first (λ id. StandsWithin (theory_at sig.now) store.now id.0) }
    requires second { IfSome second (λ id. StandsWithin (theory_at sig.now) store.now id.0) }
    ensures value { tree_in store.now result ≡ first_of (by_key (theory_at sig.now) (operator_number under)) 0 (tree_in store.now first) (tree_in store.now second) }
    ensures one { (result ≡ first) ⊎ (result ≡ second) }
{
    let Some(left) = first else {
        return second;
    };
    let Some(right) = second else {
        return first;
    };
    let left_key = value_key_of(store, sig, under, &left);
    let right_key = value_key_of(store, sig, under, &right);
    match compare_lists(store, left_key, right_key) {
        Ordering::Greater => second,
        _ => first,
    }
}

/// The least value of all parts behind another value, or of all their values, in the order of values under an operator.
pub fn least_value(
    store: &mut Store,
    sig: &Signature,
    under: Option<OpId>,
    parts: &[Part],
    after: Option<TermId>,
) -> Result<Option<TermId>, NoMemory>
    requires under { IfSome under (λ op. IsListOperator sig.now op.0) }
    requires parts { All (IsPartOver sig.now store.old) parts.now }
    requires after { IfSome after (λ id. StandsWithin (theory_at sig.now) store.old id.0) }
    ensures next { IfOk result (λ value. IsLeastOrNone (by_key (theory_at sig.now) (operator_number under)) (IsValueOfAny (theory_at sig.now) (parts_in store.old parts.now)) 0
        (tree_in store.old after) (tree_in store.new value)) }
    ensures value { IfOk result (λ value. IfSome value (λ id. IsValueOfAny (theory_at sig.now) (parts_in store.old parts.now) (tree_at store.new id.0))) }
    ensures within { IfOk result (λ value. IfSome value (λ id. StandsWithin (theory_at sig.now) store.new id.0)) }
    ensures extends { Extends store.old store.new }
{
    is_lawful(sig);
    let mut least = None;
    for part in parts {
        let value = next_value(store, sig, under, part, after)?;
        least = lesser(store, sig, under, least, value);
    }
    Ok(least)
}
