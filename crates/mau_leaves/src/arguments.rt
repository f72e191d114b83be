//! The solutions of the argument patterns of a definition on the values of the arguments, one after another: each pattern is gone through under the
//! values that those before it led to.
ghost use Rattle.std.specs.Prelude.{◌≡◌, ◌<◌, ◌++◌, ◌∷◌, [], ℕ, List, length, map, All, true, false, IsSome, None, Ok, IfOk, OnOk, OnErr, IfSome, vec_len, vec_capacity};
ghost use Rattle.std.specs.Option.{option_map};
ghost use Rattle.mau_terms.specs.Tree.{Tree};
ghost use Rattle.mau_terms.specs.Bare.{IsBare};
ghost use Rattle.mau_terms.specs.Subst.{Variable};
ghost use Rattle.mau_terms.specs.View.{tree_of};
ghost use Rattle.mau_terms.specs.declared.ids.TermId as Ids;
ghost use Rattle.mau_signature.specs.Signature.{terms_over};
ghost use Rattle.mau_store.specs.Node.{Extends};
ghost use Rattle.mau_store.specs.Trees.{trees_at};
ghost use Rattle.mau_store.specs.View.{numbers};
ghost use Rattle.mau_sorts.specs.Table.{KeepsEntries};
ghost use Rattle.mau_api.specs.Programs.{program_over};
ghost use Rattle.mau_api.specs.Answers.{binding_in};
ghost use Rattle.mau_rules.specs.Runnable.{IsRunnable, GoesBy};
ghost use Rattle.mau_leaves.specs.InTurn.{just, IsEvaluated};
ghost use Rattle.mau_leaves.specs.Searches.{variables_in, last_in, IsTurn, IsNextOne};
ghost use Rattle.mau_leaves.specs.Arguments.{last_found, matched_left, left_of_arguments, AreBound, IsPatternRule, IsPatternSearch, IsArgumentSearch, IsDeeper};
ghost use Rattle.mau_leaves.specs.declared.uses.Standing.TheVariants.{Behind};
ghost use Rattle.mau_leaves.specs.declared.turn.Turn.TheVariants.{Found};

use crate::turn::Turn;
use crate::uses::{RuleUses, last_of, next_use, start_uses};
use mau_api::{EvalEnd, Evaluator, Lister, Program};
use mau_program::Rule;
use mau_store::Store;
use mau_terms::{Bare, NoMemory, Seq, TermId, VarId, Vars};
use std::alloc::Global;

/// A search for the solutions of a pattern: the rule with the pattern on both sides and no condition, and the search for its uses.
#[derive(Drop)]
pub struct PatternSearch<L> {
    pub rule: Rule,
    pub uses: RuleUses<L>,
}

/// A search for the solutions of argument patterns: searches for the first of them, each under the values that those before it led to; and whether
/// the solutions of the patterns behind these are due under the values that the last one found.
#[derive(Drop)]
pub struct ArgumentSearch<L> {
    pub searches: Vec<PatternSearch<L>>,
    pub due: bool,
}

/// The rule with a pattern on both sides and no condition.
fn pattern_rule(alloc: Global, pattern: &Bare) -> Result<Rule, NoMemory>
    ensures { IfOk result (IsPatternRule (tree_of pattern.now)) }
{
    Ok(Rule {
        label: None,
        left: pattern.copy(alloc)?,
        right: pattern.copy(alloc)?,
        cond: Seq::new(Vec::new(alloc)),
        exec: true,
        vars: Vars::new(alloc),
    })
}

/// The search for the solutions of a pattern on a value, which stands before all.
fn start_pattern<E: Evaluator, L: Lister + Drop>(
    program: &Program,
    pattern: &Bare,
    store: &Store,
    evaluator: &E,
    bound: Vec<(VarId, TermId)>,
    value: TermId,
) -> Result<PatternSearch<L>, NoMemory>
    requires goes_by { GoesBy program.now (E.meanings evaluator.now) }
    requires fits { E.fits evaluator.now store.now }
    requires pattern { IsBare (terms_over program.now.sig) (tree_of pattern.now) }
    requires bound { AreBound program.now.sig store.now (E.table evaluator.now) bound.items }
    requires value { IsEvaluated program.now.sig store.now (E.table evaluator.now) value }
    ensures search { IfOk result (IsPatternSearch L.asked L.given L.is_for L.with_context program.now (E.meanings evaluator.now)
        store.now (E.table evaluator.now) (variables_in bound.items) (tree_of pattern.now) value) }
    ensures begun { IfOk result (λ w. (L.given w.uses.listing ≡ None) × (w.uses.standing ≡ Behind)) }
    ensures under { IfOk result (λ w. w.uses.bound.items ≡ bound.items) }
{
    let rule = pattern_rule(store.allocator(), pattern)?;
    let uses = start_uses(program, &rule, store, evaluator, bound, true, value)?;
    Ok(PatternSearch { rule, uses })
}

/// The next solution of a pattern: where there is one, the search stands at it.
fn next_match<E: Evaluator, L: Lister + Drop>(
    program: &Program,
    store: &mut Store,
    evaluator: &mut E,
    search: &mut PatternSearch<L>,
    limit: u64,
) -> Result<bool, EvalEnd>
    requires contexts { L.with_context ≡ true }
    requires runnable { IsRunnable program.now }
    requires goes_by { GoesBy program.now (E.meanings evaluator.old) }
    requires fits { E.fits evaluator.old store.old }
    requires limit { limit ≡ (E.meanings evaluator.old).limit }
    requires search { (xs : List Variable) × (q : Tree) × (v : Ids.TermId) × IsPatternSearch L.asked L.given L.is_for L.with_context program.now
        (E.meanings evaluator.old) store.old (E.table evaluator.old) xs q v search.old }
    ensures next { IsNextOne (program_over program.now (E.meanings evaluator.old).hooks) limit
        (just (matched_left L.asked L.given program.now (E.meanings evaluator.old).hooks store.old search.old))
        (just (matched_left L.asked L.given program.now (E.meanings evaluator.old).hooks store.new search.new))
        (last_in store.new search.new.uses.standing) result }
    ensures search { (xs : List Variable) (q : Tree) (v : Ids.TermId) → IsPatternSearch L.asked L.given L.is_for L.with_context program.now
        (E.meanings evaluator.old) store.old (E.table evaluator.old) xs q v search.old → IsPatternSearch L.asked L.given L.is_for L.with_context
        program.now (E.meanings evaluator.old) store.new (E.table evaluator.new) xs q v search.new }
    ensures extends { Extends store.old store.new }
    ensures fits { E.fits evaluator.new store.new }
    ensures kept { KeepsEntries (E.table evaluator.old) (E.table evaluator.new) }
    ensures meanings { E.meanings evaluator.new ≡ E.meanings evaluator.old }
{
    next_use(
        program,
        &search.rule,
        store,
        evaluator,
        &mut search.uses,
        limit,
    )
}

/// The values that the last one of some searches found; where there is none, nothing is bound.
pub(crate) fn values_found<L: Lister + Drop>(
    searches: &[PatternSearch<L>],
) -> Option<&[(VarId, TermId)]>
    ensures { option_map (λ x. x.now) result ≡ last_found searches.now }
{
    match searches.last() {
        Some(last) => last_of(&last.uses.standing),
        None => Some(&[]),
    }
}

/// Values in a list of their own.
fn copied(alloc: Global, bound: &[(VarId, TermId)]) -> Result<Vec<(VarId, TermId)>, NoMemory>
    ensures { IfOk result (λ copy. copy.items ≡ bound.now) }
{
    let mut copy = Vec::new(alloc);
    for (variable, value) in bound {
        copy.push((*variable, *value))?;
    }
    Ok(copy)
}

/// Begins the search for the solutions of the next pattern, under the values that were found last.
fn go_deeper<E: Evaluator, L: Lister + Drop>(
    program: &Program,
    pattern: &Bare,
    value: TermId,
    store: &Store,
    evaluator: &E,
    search: &mut ArgumentSearch<L>,
) -> Result<(), NoMemory>
    requires goes_by { GoesBy program.now (E.meanings evaluator.now) }
    requires fits { E.fits evaluator.now store.now }
    requires pattern { IsBare (terms_over program.now.sig) (tree_of pattern.now) }
    requires value { IsEvaluated program.now.sig store.now (E.table evaluator.now) value }
    requires stands { IsSome (last_found search.old.searches.items) }
    requires found { IfSome (last_found search.old.searches.items) (AreBound program.now.sig store.now (E.table evaluator.now)) }
    ensures deeper { OnOk result (IsDeeper L.asked L.given L.is_for L.with_context program.now (E.meanings evaluator.now) store.now
        (E.table evaluator.now) (tree_of pattern.now) value search.old search.new) }
    ensures unchanged { OnErr result ((search.new.searches.items ≡ search.old.searches.items) × (search.new.due ≡ search.old.due)) }
{
    let found = match values_found(&search.searches) {
        Some(found) => found,
        None => unreachable!(),
    };
    let bound = copied(store.allocator(), found)?;
    let next = start_pattern(program, pattern, store, evaluator, bound, value)?;
    search.searches.push(next)?;
    search.due = false;
    Ok(())
}

/// Where solutions are due: one was found where all patterns were gone through; else the next pattern is begun.
fn go_into<E: Evaluator, L: Lister + Drop>(
    program: &Program,
    patterns: &[Bare],
    values: &[TermId],
    store: &Store,
    evaluator: &E,
    search: &mut ArgumentSearch<L>,
) -> Result<Turn, EvalEnd>
    requires goes_by { GoesBy program.now (E.meanings evaluator.now) }
    requires fits { E.fits evaluator.now store.now }
    requires patterns { All (IsBare (terms_over program.now.sig)) (map tree_of patterns.now) }
    requires values { All (IsEvaluated program.now.sig store.now (E.table evaluator.now)) values.now }
    requires search { IsArgumentSearch L.asked L.given L.is_for L.with_context program.now (E.meanings evaluator.now) store.now
        (E.table evaluator.now) (map tree_of patterns.now) values.now search.old }
    requires due { search.old.due ≡ true }
    ensures turn { (b : ℕ) → IsTurn (program_over program.now (E.meanings evaluator.now).hooks) b
        (just (left_of_arguments L.asked L.given program.now (E.meanings evaluator.now).hooks store.now (map tree_of patterns.now)
        (trees_at store.now (numbers values.now)) search.old))
        (just (left_of_arguments L.asked L.given program.now (E.meanings evaluator.now).hooks store.now (map tree_of patterns.now)
        (trees_at store.now (numbers values.now)) search.new))
        (option_map (binding_in store.now) (last_found search.new.searches.items)) result }
    ensures search { IsArgumentSearch L.asked L.given L.is_for L.with_context program.now (E.meanings evaluator.now) store.now
        (E.table evaluator.now) (map tree_of patterns.now) values.now search.new }
    ensures all { result ≡ Ok Found → length search.new.searches.items ≡ length patterns.now }
{
    let depth = search.searches.len();
    if depth < patterns.len() {
        if depth < values.len() {
            return match go_deeper(
                program,
                &patterns[depth],
                values[depth],
                store,
                evaluator,
                search,
            ) {
                Ok(()) => Ok(Turn::Passed),
                Err(_) => Err(EvalEnd::NoMemory),
            };
        }
        search.due = false;
        return Ok(Turn::Passed);
    }
    search.due = false;
    if depth < values.len() {
        return Ok(Turn::Passed);
    }
    Ok(Turn::Found)
}

/// Puts a search behind the others again.
fn put_back<L: Lister + Drop>(search: &mut ArgumentSearch<L>, last: PatternSearch<L>, due: bool)
    requires room { vec_len search.old.searches < vec_capacity search.old.searches }
    ensures searches { search.new.searches.items ≡ search.old.searches.items ++ last ∷ [] }
    ensures due { search.new.due ≡ due }
{
    match search.searches.push(last) {
        Ok(()) => (),
        Err(_) => unreachable!(),
    }
    search.due = due;
}

/// Where none is due: the next solution of the pattern that was begun last; behind its last one the pattern before it is gone on with.
fn go_on<E: Evaluator, L: Lister + Drop>(
    program: &Program,
    store: &mut Store,
    evaluator: &mut E,
    search: &mut ArgumentSearch<L>,
    limit: u64,
) -> Result<Turn, EvalEnd>
    requires contexts { L.with_context ≡ true }
    requires runnable { IsRunnable program.now }
    requires goes_by { GoesBy program.now (E.meanings evaluator.old) }
    requires fits { E.fits evaluator.old store.old }
    requires limit { limit ≡ (E.meanings evaluator.old).limit }
    requires search { (ps : List Tree) × (vs : List Ids.TermId) × IsArgumentSearch L.asked L.given L.is_for L.with_context program.now
        (E.meanings evaluator.old) store.old (E.table evaluator.old) ps vs search.old }
    requires idle { search.old.due ≡ false }
    ensures turn { (ps : List Tree) (vs : List Ids.TermId) → IsArgumentSearch L.asked L.given L.is_for L.with_context program.now
        (E.meanings evaluator.old) store.old (E.table evaluator.old) ps vs search.old →
        IsTurn (program_over program.now (E.meanings evaluator.old).hooks) limit
        (just (left_of_arguments L.asked L.given program.now (E.meanings evaluator.old).hooks store.old ps (trees_at store.old (numbers vs)) search.old))
        (just (left_of_arguments L.asked L.given program.now (E.meanings evaluator.old).hooks store.new ps (trees_at store.old (numbers vs)) search.new))
        (option_map (binding_in store.new) (last_found search.new.searches.items)) result }
    ensures search { (ps : List Tree) (vs : List Ids.TermId) → IsArgumentSearch L.asked L.given L.is_for L.with_context program.now
        (E.meanings evaluator.old) store.old (E.table evaluator.old) ps vs search.old →
        IsArgumentSearch L.asked L.given L.is_for L.with_context program.now (E.meanings evaluator.old) store.new (E.table evaluator.new) ps vs search.new }
    ensures passes { result ≡ Ok Found → ⊥ }
    ensures extends { Extends store.old store.new }
    ensures fits { E.fits evaluator.new store.new }
    ensures kept { KeepsEntries (E.table evaluator.old) (E.table evaluator.new) }
    ensures meanings { E.meanings evaluator.new ≡ E.meanings evaluator.old }
{
    let mut last = match search.searches.pop() {
        Some(last) => last,
        None => return Ok(Turn::Over),
    };
    match next_match(program, store, evaluator, &mut last, limit) {
        Ok(true) => {
            put_back(search, last, true);
            Ok(Turn::Passed)
        }
        Ok(false) => Ok(Turn::Passed),
        Err(end) => {
            put_back(search, last, false);
            Err(end)
        }
    }
}

/// One turn of a search for the solutions of argument patterns.
pub(crate) fn turn_in<E: Evaluator, L: Lister + Drop>(
    program: &Program,
    patterns: &[Bare],
    values: &[TermId],
    store: &mut Store,
    evaluator: &mut E,
    search: &mut ArgumentSearch<L>,
    limit: u64,
) -> Result<Turn, EvalEnd>
    requires contexts { L.with_context ≡ true }
    requires runnable { IsRunnable program.now }
    requires goes_by { GoesBy program.now (E.meanings evaluator.old) }
    requires fits { E.fits evaluator.old store.old }
    requires limit { limit ≡ (E.meanings evaluator.old).limit }
    requires patterns { All (IsBare (terms_over program.now.sig)) (map tree_of patterns.now) }
    requires values { All (IsEvaluated program.now.sig store.old (E.table evaluator.old)) values.now }
    requires search { IsArgumentSearch L.asked L.given L.is_for L.with_context program.now (E.meanings evaluator.old) store.old
        (E.table evaluator.old) (map tree_of patterns.now) values.now search.old }
    ensures turn { IsTurn (program_over program.now (E.meanings evaluator.old).hooks) limit
        (just (left_of_arguments L.asked L.given program.now (E.meanings evaluator.old).hooks store.old (map tree_of patterns.now)
        (trees_at store.old (numbers values.now)) search.old))
        (just (left_of_arguments L.asked L.given program.now (E.meanings evaluator.old).hooks store.new (map tree_of patterns.now)
        (trees_at store.old (numbers values.now)) search.new))
        (option_map (binding_in store.new) (last_found search.new.searches.items)) result }
    ensures search { IsArgumentSearch L.asked L.given L.is_for L.with_context program.now (E.meanings evaluator.old) store.new
        (E.table evaluator.new) (map tree_of patterns.now) values.now search.new }
    ensures all { result ≡ Ok Found → length search.new.searches.items ≡ length patterns.now }
    ensures extends { Extends store.old store.new }
    ensures fits { E.fits evaluator.new store.new }
    ensures kept { KeepsEntries (E.table evaluator.old) (E.table evaluator.new) }
    ensures meanings { E.meanings evaluator.new ≡ E.meanings evaluator.old }
{
    if search.due {
        let _ = store.len();
        return go_into(program, patterns, values, store, evaluator, search);
    }
    go_on(program, store, evaluator, search, limit)
}
