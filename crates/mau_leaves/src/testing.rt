//! The result of a test: the term itself, where a solution of the pattern is found for which the condition holds, at the root or at any subterm.
//! The search is that for the first use of a rule with the pattern for its left side and this condition.
ghost use Rattle.std.specs.Prelude.{◌≡◌, map, true, Bool, All, IfOk, IfSome};
ghost use Rattle.mau_terms.specs.View.{tree_of, variable_of};
ghost use Rattle.mau_store.specs.Node.{Extends};
ghost use Rattle.mau_sorts.specs.Table.{Table, KeepsEntries};
ghost use Rattle.mau_api.specs.Programs.{program_over};
ghost use Rattle.mau_api.specs.Meanings.{Meanings};
ghost use Rattle.mau_api.specs.Answers.{IsFragment, IsValueOf};
ghost use Rattle.mau_rules.specs.Runnable.{IsRunnable, GoesBy};
ghost use Rattle.mau_strat.specs.declared.configs.Bound.{Bound as GivenValue};
ghost use Rattle.mau_leaves.specs.Given.{pair_by};
ghost use Rattle.mau_leaves.specs.Searches.{variables_in};
ghost use Rattle.mau_leaves.specs.Subterms.{IsSubject};
ghost use Rattle.mau_leaves.specs.Top.{IsNextResult};
ghost use Rattle.mau_leaves.specs.Tests.{looks_below, looks_whole, left_of_test, IsTest, IsTestOf, IsBegunTest, MayAsk};

use crate::given::{are_apart, pairs_of};
use crate::subterms::{SubtermUses, next_in_subterms, start_subterms};
use mau_api::{EvalEnd, Evaluator, Fragment, Lister, Program, TestKind};
use mau_program::Rule;
use mau_signature::{Signature, is_bare};
use mau_statement::{add_variables, are_bound};
use mau_store::Store;
use mau_strat::Bound;
use mau_terms::{Bare, Duplicate, NoMemory, Seq, TermId, VarId, Vars};
use std::alloc::Global;

/// A test on a term: the rule whose first use is searched for, the search, and whether it is over.
#[derive(Drop)]
pub struct TestCursor<L> {
    pub term: TermId,
    pub rule: Rule,
    pub uses: SubtermUses<L>,
    pub over: bool,
}

/// Whether a test of this kind looks at what is below the root, in frozen arguments too.
fn is_deep(kind: TestKind) -> bool
    ensures { result ≡ looks_below kind }
{
    match kind {
        TestKind::Amatch => true,
        TestKind::Match | TestKind::Xmatch => false,
    }
}

/// Whether a test of this kind looks at the solutions without contexts alone.
fn is_whole(kind: TestKind) -> bool
    ensures { result ≡ looks_whole kind }
{
    match kind {
        TestKind::Match => true,
        TestKind::Xmatch | TestKind::Amatch => false,
    }
}

/// Whether a fragment is over a signature, and does not rewrite.
fn is_fragment(sig: &Signature, fragment: &Fragment) -> bool
    ensures { result ≡ true → IsFragment sig.now fragment.now }
{
    match fragment {
        Fragment::Equal(term, other) => is_bare(sig, term) && is_bare(sig, other),
        Fragment::Match(pattern, subject) => is_bare(sig, pattern) && is_bare(sig, subject),
        Fragment::Sort(term, sort) => is_bare(sig, term) && *sort < sig.poset().sorts(),
        Fragment::Reach(_, _) => false,
    }
}

/// Whether all fragments are.
fn are_fragments(sig: &Signature, cond: &[Fragment]) -> bool
    ensures { result ≡ true → All (IsFragment sig.now) cond.now }
{
    match cond {
        [] => true,
        [first, rest @ ..] => is_fragment(sig, first) && are_fragments(sig, rest),
    }
}

/// The variables that have values.
fn variables_of(alloc: Global, bound: &[(VarId, TermId)]) -> Result<Vec<VarId>, NoMemory>
    ensures { IfOk result (λ variables. map variable_of variables.items ≡ variables_in bound.now) }
{
    let mut variables = Vec::new(alloc);
    for (variable, _) in bound {
        variables.push(*variable)?;
    }
    Ok(variables)
}

/// Whether a condition may be asked where the variables of a pattern, and others before, have values.
fn is_askable(
    alloc: Global,
    sig: &Signature,
    bound: &[(VarId, TermId)],
    pattern: &Bare,
    cond: &[Fragment],
) -> Result<bool, NoMemory>
    ensures { IfOk result (λ b. b ≡ true → MayAsk sig.now (variables_in bound.now) (tree_of pattern.now) cond.now) }
{
    if !is_bare(sig, pattern) {
        return Ok(false);
    }
    if !are_fragments(sig, cond) {
        return Ok(false);
    }
    if !are_apart(bound) {
        return Ok(false);
    }
    let mut variables = variables_of(alloc, bound)?;
    add_variables(&mut variables, pattern)?;
    are_bound(&mut variables, cond)
}

/// The rule with a pattern on both sides, and a condition.
fn rule_for(alloc: Global, pattern: &Bare, cond: &Seq<Fragment>) -> Result<Rule, NoMemory>
    ensures { IfOk result (IsTestOf (tree_of pattern.now) cond.now) }
{
    Ok(Rule {
        label: None,
        left: pattern.copy(alloc)?,
        right: pattern.copy(alloc)?,
        cond: cond.copy(alloc)?,
        exec: true,
        vars: Vars::new(alloc),
    })
}

/// The search for the result of a test on a term, under the values that variables have before, or none where tests of this form are not
/// searched for.
pub(crate) fn start_test<L: Lister + Drop>(
    program: &Program,
    store: &Store,
    values: &[Bound],
    kind: TestKind,
    pattern: &Bare,
    cond: &Seq<Fragment>,
    term: TermId,
) -> Result<Option<TestCursor<L>>, NoMemory>
    ensures begun { (c : Bool) (m : Meanings) (table : Table) → IsSubject program.now.sig store.now table term.0 →
        All (λ (b : GivenValue). IsValueOf program.now.sig store.now table (b.variable, b.value)) values.now →
        IfOk result (λ o. IfSome o (IsBegunTest L.asked L.given L.is_for c program.now m store.now table
        (map pair_by values.now) kind (tree_of pattern.now) cond.now term)) }
{
    let alloc = store.allocator();
    let bound = pairs_of(alloc, values)?;
    if !is_askable(alloc, &program.sig, &bound, pattern, cond.items())? {
        return Ok(None);
    }
    let rule = rule_for(alloc, pattern, cond)?;
    Ok(Some(TestCursor {
        term,
        rule,
        uses: start_subterms(alloc, bound, is_whole(kind), is_deep(kind), term),
        over: false,
    }))
}

/// The result of a test, once.
pub(crate) fn next_test<E: Evaluator, L: Lister + Drop>(
    program: &Program,
    store: &mut Store,
    evaluator: &mut E,
    test: &mut TestCursor<L>,
    limit: u64,
) -> Result<Option<TermId>, EvalEnd>
    requires contexts { L.with_context ≡ true }
    requires runnable { IsRunnable program.now }
    requires goes_by { GoesBy program.now (E.meanings evaluator.old) }
    requires fits { E.fits evaluator.old store.old }
    requires limit { limit ≡ (E.meanings evaluator.old).limit }
    requires test { IsTest L.asked L.given L.is_for L.with_context program.now (E.meanings evaluator.old)
        store.old (E.table evaluator.old) test.old }
    ensures next { IsNextResult (program_over program.now (E.meanings evaluator.old).hooks) limit
        (left_of_test L.asked L.given program.now (E.meanings evaluator.old).hooks store.old test.old)
        (left_of_test L.asked L.given program.now (E.meanings evaluator.old).hooks store.new test.new) store.new result }
    ensures test { IsTest L.asked L.given L.is_for L.with_context program.now (E.meanings evaluator.old)
        store.new (E.table evaluator.new) test.new }
    ensures itself { IfOk result (λ o. IfSome o (λ id. id ≡ test.new.term)) }
    ensures extends { Extends store.old store.new }
    ensures fits { E.fits evaluator.new store.new }
    ensures kept { KeepsEntries (E.table evaluator.old) (E.table evaluator.new) }
    ensures meanings { E.meanings evaluator.new ≡ E.meanings evaluator.old }
{
    if test.over {
        return Ok(None);
    }
    match next_in_subterms(program, &test.rule, store, evaluator, &mut test.uses, limit) {
        Ok(true) => {
            test.over = true;
            Ok(Some(test.term))
        }
        Ok(false) => Ok(None),
        Err(end) => Err(end),
    }
}
