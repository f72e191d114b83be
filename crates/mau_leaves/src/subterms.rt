//! The uses of one rule at a term, or at all its subterms in pre-order, in frozen arguments too, one after another.
ghost use Rattle.std.specs.Prelude.{◌≡◌, ◌++◌, [], ℕ, List, Bool, true, IfSome, IfNone};
ghost use Rattle.mau_terms.specs.Bare.{IsLawful};
ghost use Rattle.mau_signature.specs.Signature.{terms_over};
ghost use Rattle.mau_formula.specs.Operator.{Operator};
ghost use Rattle.mau_store.specs.Node.{AreNodes, IsOf, Extends};
ghost use Rattle.mau_store.specs.Trees.{tree_at};
ghost use Rattle.mau_sorts.specs.Table.{Table, KeepsEntries};
ghost use Rattle.mau_program.specs.declared.program.Program as Typed;
ghost use Rattle.mau_program.specs.declared.statements.Rule as Written;
ghost use Rattle.mau_api.specs.Programs.{program_over};
ghost use Rattle.mau_api.specs.Meanings.{Meanings};
ghost use Rattle.mau_rules.specs.Runnable.{IsRunnable, GoesBy};
ghost use Rattle.mau_rules.specs.Walk.{IsStep};
ghost use Rattle.mau_leaves.specs.Searches.{IsTurn, IsNextOne};
ghost use Rattle.mau_leaves.specs.Subterms.{subterms, subterms_from, left_of_subterms, use_at_spot, place_at, IsAtOne, IsSubtermSearch};
ghost use Rattle.mau_leaves.specs.declared.subterms.Spot.TheVariants as Spots;

use crate::turn::Turn;
use crate::uses::{RuleUses, next_use, start_uses};
use mau_api::{EvalEnd, Evaluator, Lister, Program};
use mau_program::Rule;
use mau_rules::Open;
use mau_store::{NodeView, Store};
use mau_terms::{TermId, VarId};
use std::alloc::Global;

/// Where a search at the subterms of a term stands.
#[derive(Drop)]
pub enum Spot<L> {
    /// At a subterm, before all uses at it.
    Before(TermId),
    /// At a subterm, with the search for the uses at it.
    At(TermId, RuleUses<L>),
    /// Behind the uses at a subterm, and behind so many of its arguments.
    Behind(Open),
}

/// A search for the uses of a rule at a term, and at all that is below it, where this is looked at, under the values that some variables have
/// before: the open terms on the way to where it stands. Where it is `whole`, the solutions alone are gone through whose contexts are empty.
#[derive(Drop)]
pub struct SubtermUses<L> {
    pub bound: Vec<(VarId, TermId)>,
    pub whole: bool,
    pub below: bool,
    pub way: Vec<Open>,
    pub spot: Spot<L>,
}

/// The next argument of a term, behind those that are behind the walk, and how many are then.
fn next_argument(store: &Store, at: Open) -> Option<(usize, TermId)>
    requires { IsOf store.now at.term.0 }
    ensures some { IfSome result (λ x. subterms_from (tree_at store.now at.term.0) at.next
        ≡ subterms (tree_at store.now x.1.0) ++ subterms_from (tree_at store.now at.term.0) x.0) }
    ensures step { IfSome result (λ x. IsStep store.now (record { term = at.term; next = x.0 }) x.1.0) }
    ensures none { IfNone result (subterms_from (tree_at store.now at.term.0) at.next ≡ []) }
    ensures nodes { AreNodes store.now }
{
    match store.view(at.term) {
        NodeView::App(_, args) => {
            if at.next < args.len() {
                return Some((at.next + 1, args[at.next]));
            }
            None
        }
        NodeView::Num(_) | NodeView::Var(_) => None,
    }
}

/// The search for the uses of a rule at a term, or at all its subterms, which stands before all.
pub(crate) fn start_subterms<L: Lister + Drop>(
    alloc: Global,
    bound: Vec<(VarId, TermId)>,
    whole: bool,
    below: bool,
    term: TermId,
) -> SubtermUses<L>
    ensures bound { result.bound ≡ bound }
    ensures whole { result.whole ≡ whole }
    ensures below { result.below ≡ below }
    ensures way { result.way.items ≡ [] }
    ensures spot { result.spot ≡ Spots.Before term }
{
    SubtermUses {
        bound,
        whole,
        below,
        way: Vec::new(alloc),
        spot: Spot::Before(term),
    }
}

/// Begins the search for the uses at a subterm.
fn begin_spot<E: Evaluator, L: Lister + Drop>(
    program: &Program,
    rule: &Rule,
    store: &Store,
    evaluator: &E,
    term: TermId,
    search: &mut SubtermUses<L>,
) -> Result<Turn, EvalEnd>
    requires goes_by { GoesBy program.now (E.meanings evaluator.now) }
    requires fits { E.fits evaluator.now store.now }
    requires subterms { IsSubtermSearch L.asked L.given L.is_for L.with_context program.now (E.meanings evaluator.now) rule.now
        store.now (E.table evaluator.now) search.old }
    requires at { search.old.spot ≡ Spots.Before term }
    ensures turn { (b : ℕ) → IsTurn (program_over program.now (E.meanings evaluator.now).hooks) b
        (left_of_subterms L.asked L.given program.now (E.meanings evaluator.now).hooks rule.now store.now search.old)
        (left_of_subterms L.asked L.given program.now (E.meanings evaluator.now).hooks rule.now store.now search.new)
        (use_at_spot L.asked L.given rule.now store.now search.new.spot) result }
    ensures subterms { IsSubtermSearch L.asked L.given L.is_for L.with_context program.now (E.meanings evaluator.now) rule.now
        store.now (E.table evaluator.now) search.new }
{
    let bound = match Vec::from_slice(store.allocator(), &search.bound) {
        Ok(bound) => bound,
        Err(_) => return Err(EvalEnd::NoMemory),
    };
    match start_uses(program, rule, store, evaluator, bound, search.whole, term) {
        Ok(uses) => {
            search.spot = Spot::At(term, uses);
            Ok(Turn::Passed)
        }
        Err(_) => Err(EvalEnd::NoMemory),
    }
}

/// The subterm at which a search stands, or of whose arguments some are behind it.
fn place_of<L>(spot: &Spot<L>) -> TermId
    ensures { result ≡ place_at spot.now }
{
    match spot {
        Spot::Before(term) => *term,
        Spot::At(term, _) => *term,
        Spot::Behind(open) => open.term,
    }
}

/// The next use at a subterm.
fn go_through_spot<E: Evaluator, L: Lister + Drop>(
    program: &Program,
    rule: &Rule,
    store: &mut Store,
    evaluator: &mut E,
    search: &mut SubtermUses<L>,
    limit: u64,
) -> Result<Turn, EvalEnd>
    requires contexts { L.with_context ≡ true }
    requires runnable { IsRunnable program.now }
    requires goes_by { GoesBy program.now (E.meanings evaluator.old) }
    requires fits { E.fits evaluator.old store.old }
    requires limit { limit ≡ (E.meanings evaluator.old).limit }
    requires subterms { IsSubtermSearch L.asked L.given L.is_for L.with_context program.now (E.meanings evaluator.old) rule.now
        store.old (E.table evaluator.old) search.old }
    requires at { IsAtOne search.old.spot }
    ensures turn { IsTurn (program_over program.now (E.meanings evaluator.old).hooks) limit
        (left_of_subterms L.asked L.given program.now (E.meanings evaluator.old).hooks rule.now store.old search.old)
        (left_of_subterms L.asked L.given program.now (E.meanings evaluator.old).hooks rule.now store.new search.new)
        (use_at_spot L.asked L.given rule.now store.new search.new.spot) result }
    ensures subterms { IsSubtermSearch L.asked L.given L.is_for L.with_context program.now (E.meanings evaluator.old) rule.now
        store.new (E.table evaluator.new) search.new }
    ensures extends { Extends store.old store.new }
    ensures fits { E.fits evaluator.new store.new }
    ensures kept { KeepsEntries (E.table evaluator.old) (E.table evaluator.new) }
    ensures meanings { E.meanings evaluator.new ≡ E.meanings evaluator.old }
{
    let term = place_of(&search.spot);
    let uses = match &mut search.spot {
        Spot::At(_, uses) => uses,
        _ => unreachable!(),
    };
    match next_use(program, rule, store, evaluator, uses, limit) {
        Ok(true) => Ok(Turn::Found),
        Ok(false) => {
            search.spot = Spot::Behind(Open { term, next: 0 });
            Ok(Turn::Passed)
        }
        Err(end) => Err(end),
    }
}

/// Goes on to the next argument of an open term, or back to the term around it.
fn go_on<L: Lister + Drop>(
    store: &Store,
    from: Open,
    search: &mut SubtermUses<L>,
) -> Result<Turn, EvalEnd>
    requires there { IsOf store.now from.term.0 }
    requires at { search.old.spot ≡ Spots.Behind from }
    ensures turn { (p : Typed.Program) (hooks : List Operator) (rule : Written.Rule) (b : ℕ) → IsTurn (program_over p hooks) b
        (left_of_subterms L.asked L.given p hooks rule store.now search.old)
        (left_of_subterms L.asked L.given p hooks rule store.now search.new)
        (use_at_spot L.asked L.given rule store.now search.new.spot) result }
    ensures subterms { (c : Bool) (p : Typed.Program) (m : Meanings) (rule : Written.Rule) (table : Table) → IsLawful (terms_over p.sig) →
        IsSubtermSearch L.asked L.given L.is_for c p m rule store.now table search.old →
        IsSubtermSearch L.asked L.given L.is_for c p m rule store.now table search.new }
{
    if !search.below {
        return Ok(Turn::Over);
    }
    match next_argument(store, from) {
        Some((next, child)) => match search.way.push(Open {
            term: from.term,
            next,
        }) {
            Ok(_) => {
                search.spot = Spot::Before(child);
                Ok(Turn::Passed)
            }
            Err(_) => Err(EvalEnd::NoMemory),
        },
        None => match search.way.pop() {
            Some(around) => {
                search.spot = Spot::Behind(around);
                Ok(Turn::Passed)
            }
            None => Ok(Turn::Over),
        },
    }
}

/// One turn of a search at the subterms of a term.
fn turn_below<E: Evaluator, L: Lister + Drop>(
    program: &Program,
    rule: &Rule,
    store: &mut Store,
    evaluator: &mut E,
    search: &mut SubtermUses<L>,
    limit: u64,
) -> Result<Turn, EvalEnd>
    requires contexts { L.with_context ≡ true }
    requires runnable { IsRunnable program.now }
    requires goes_by { GoesBy program.now (E.meanings evaluator.old) }
    requires fits { E.fits evaluator.old store.old }
    requires limit { limit ≡ (E.meanings evaluator.old).limit }
    requires subterms { IsSubtermSearch L.asked L.given L.is_for L.with_context program.now (E.meanings evaluator.old) rule.now
        store.old (E.table evaluator.old) search.old }
    ensures turn { IsTurn (program_over program.now (E.meanings evaluator.old).hooks) limit
        (left_of_subterms L.asked L.given program.now (E.meanings evaluator.old).hooks rule.now store.old search.old)
        (left_of_subterms L.asked L.given program.now (E.meanings evaluator.old).hooks rule.now store.new search.new)
        (use_at_spot L.asked L.given rule.now store.new search.new.spot) result }
    ensures subterms { IsSubtermSearch L.asked L.given L.is_for L.with_context program.now (E.meanings evaluator.old) rule.now
        store.new (E.table evaluator.new) search.new }
    ensures extends { Extends store.old store.new }
    ensures fits { E.fits evaluator.new store.new }
    ensures kept { KeepsEntries (E.table evaluator.old) (E.table evaluator.new) }
    ensures meanings { E.meanings evaluator.new ≡ E.meanings evaluator.old }
{
    match &search.spot {
        Spot::Before(term) => {
            let term = *term;
            begin_spot(program, rule, store, evaluator, term, search)
        }
        Spot::At(_, _) => go_through_spot(program, rule, store, evaluator, search, limit),
        Spot::Behind(from) => {
            let from = *from;
            go_on(store, from, search)
        }
    }
}

/// The next use of a rule at a term, or at all its subterms: where there is one, the search stands at it.
pub(crate) fn next_in_subterms<E: Evaluator, L: Lister + Drop>(
    program: &Program,
    rule: &Rule,
    store: &mut Store,
    evaluator: &mut E,
    search: &mut SubtermUses<L>,
    limit: u64,
) -> Result<bool, EvalEnd>
    requires contexts { L.with_context ≡ true }
    requires runnable { IsRunnable program.now }
    requires goes_by { GoesBy program.now (E.meanings evaluator.old) }
    requires fits { E.fits evaluator.old store.old }
    requires limit { limit ≡ (E.meanings evaluator.old).limit }
    requires subterms { IsSubtermSearch L.asked L.given L.is_for L.with_context program.now (E.meanings evaluator.old) rule.now
        store.old (E.table evaluator.old) search.old }
    ensures next { IsNextOne (program_over program.now (E.meanings evaluator.old).hooks) limit
        (left_of_subterms L.asked L.given program.now (E.meanings evaluator.old).hooks rule.now store.old search.old)
        (left_of_subterms L.asked L.given program.now (E.meanings evaluator.old).hooks rule.now store.new search.new)
        (use_at_spot L.asked L.given rule.now store.new search.new.spot) result }
    ensures subterms { IsSubtermSearch L.asked L.given L.is_for L.with_context program.now (E.meanings evaluator.old) rule.now
        store.new (E.table evaluator.new) search.new }
    ensures extends { Extends store.old store.new }
    ensures fits { E.fits evaluator.new store.new }
    ensures kept { KeepsEntries (E.table evaluator.old) (E.table evaluator.new) }
    ensures meanings { E.meanings evaluator.new ≡ E.meanings evaluator.old }
{
    for _ in 0..u64::MAX {
        match turn_below(program, rule, store, evaluator, search, limit) {
            Ok(Turn::Found) => return Ok(true),
            Ok(Turn::Over) => return Ok(false),
            Ok(Turn::Passed) => (),
            Err(end) => return Err(end),
        }
    }
    Err(EvalEnd::NoMemory)
}
