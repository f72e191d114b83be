//! The next solution of a listing under which a condition holds.
ghost use Rattle.std.specs.Prelude.{◌≡◌, Some, All, IfOk, IfSome, OnOk};
ghost use Rattle.std.specs.Option.{option_map};
ghost use Rattle.mau_terms.specs.View.{tree_of};
ghost use Rattle.mau_listing.specs.Asked.{question_in, matcher_in, IsGiven};
ghost use Rattle.mau_conditional.specs.Meant.{Asks};
ghost use Rattle.mau_conditional.specs.NextWhere.{NextFor, IfCame, IsAsked, IsTurnOf, IfHolds, CanBeAsked, IsReadyFor, HaveGrown};

use mau_api::{EvalEnd, Evaluator, Unwatched};
use mau_holding::bound_by;
use mau_listing::{Lister, Solution};
use mau_program::Fragment;
use mau_signature::Signature;
use mau_store::Store;
use mau_terms::Bare;

/// What comes of the next solution.
#[derive(Drop)]
enum Turn {
    /// There is none.
    NoneLeft,
    /// The condition doesn't hold under it.
    Passed,
    /// It holds.
    Holds(Solution),
}

/// Whether a condition has a solution where the variables of a pattern have the values of a solution that a listing of the evaluator
/// gave, with what is left of the budget of an item.
fn holds_under<L: Lister, E: Evaluator>(
    store: &mut Store,
    listing: &L,
    evaluator: &mut E,
    sig: &Signature,
    pattern: &Bare,
    cond: &[Fragment],
    solution: &Solution,
    budget: &mut u64,
) -> Result<bool, EvalEnd>
    requires pattern { (L.asked listing.now).pattern ≡ tree_of pattern.now }
    requires given { IsGiven L.with_context sig.now store.old (E.table evaluator.old) (L.asked listing.now) solution.now }
    requires fits { E.fits evaluator.old store.old }
    requires can { CanBeAsked sig.now (E.meanings evaluator.old) (tree_of pattern.now) cond.now }
    ensures asked { IsAsked (Asks (E.meanings evaluator.old) (tree_of pattern.now) cond.now (matcher_in store.old solution.now) budget.old) result budget.new }
    ensures grown { HaveGrown store.old store.new (E.table evaluator.old) (E.table evaluator.new) }
    ensures fits { E.fits evaluator.new store.new }
    ensures meanings { E.meanings evaluator.new ≡ E.meanings evaluator.old }
{
    let bound = match bound_by(store.allocator(), sig, pattern, &solution.values) {
        Ok(bound) => bound,
        Err(_) => return Err(EvalEnd::NoMemory),
    };
    match evaluator.solve(store, cond, &bound, None, budget, &mut Unwatched) {
        Ok(Some(_)) => Ok(true),
        Ok(None) => Ok(false),
        Err(end) => Err(end),
    }
}

/// Asks a condition for the next solution of a listing, with what is left of the budget of an item.
fn ask_next<L: Lister, E: Evaluator>(
    store: &mut Store,
    listing: &mut L,
    evaluator: &mut E,
    sig: &Signature,
    pattern: &Bare,
    cond: &[Fragment],
    budget: &mut u64,
) -> Result<Turn, EvalEnd>
    requires signature { L.is_for listing.old sig.now }
    requires pattern { (L.asked listing.old).pattern ≡ tree_of pattern.now }
    requires ready { IsReadyFor L.with_context sig.now store.old (E.table evaluator.old) (L.asked listing.old) (L.given listing.old) }
    requires fits { E.fits evaluator.old store.old }
    requires can { CanBeAsked sig.now (E.meanings evaluator.old) (tree_of pattern.now) cond.now }
    ensures turn { IsTurnOf L.with_context sig.now (E.meanings evaluator.old) cond.now (question_in store.old (L.asked listing.old)) store.new
        (option_map (matcher_in store.old) (L.given listing.old)) budget.old result (option_map (matcher_in store.new) (L.given listing.new)) budget.new }
    ensures holds { IfOk result (IfHolds L.with_context sig.now store.new (E.table evaluator.new) (L.asked listing.old) (L.given listing.new)) }
    ensures ready { OnOk result (IsReadyFor L.with_context sig.now store.new (E.table evaluator.new) (L.asked listing.old) (L.given listing.new)) }
    ensures grown { HaveGrown store.old store.new (E.table evaluator.old) (E.table evaluator.new) }
    ensures list_asked { L.asked listing.new ≡ L.asked listing.old }
    ensures signature { L.is_for listing.new sig.now }
    ensures fits { E.fits evaluator.new store.new }
    ensures meanings { E.meanings evaluator.new ≡ E.meanings evaluator.old }
{
    let solution = match evaluator.list(store, listing) {
        Ok(Some(solution)) => solution,
        Ok(None) => return Ok(Turn::NoneLeft),
        Err(_) => return Err(EvalEnd::NoMemory),
    };
    match holds_under(
        store, listing, evaluator, sig, pattern, cond, &solution, budget,
    ) {
        Ok(true) => Ok(Turn::Holds(solution)),
        Ok(false) => Ok(Turn::Passed),
        Err(end) => Err(end),
    }
}

/// The next solution of a listing under which a condition holds, with what is left of the budget of an item. The solutions are listed by
/// the sorts that the evaluator has settled, those of the subject among them.
pub fn next_where<L: Lister, E: Evaluator>(
    store: &mut Store,
    listing: &mut L,
    evaluator: &mut E,
    sig: &Signature,
    pattern: &Bare,
    cond: &[Fragment],
    budget: &mut u64,
) -> Result<Option<Solution>, EvalEnd>
    requires signature { L.is_for listing.old sig.now }
    requires pattern { (L.asked listing.old).pattern ≡ tree_of pattern.now }
    requires ready { IsReadyFor L.with_context sig.now store.old (E.table evaluator.old) (L.asked listing.old) (L.given listing.old) }
    requires fits { E.fits evaluator.old store.old }
    requires can { CanBeAsked sig.now (E.meanings evaluator.old) (tree_of pattern.now) cond.now }
    ensures next { IfCame store.new result (λ o. NextFor L.with_context sig.now (E.meanings evaluator.old) cond.now (question_in store.old (L.asked listing.old))
        (option_map (matcher_in store.old) (L.given listing.old)) budget.old o budget.new) }
    ensures solves { IfOk result (λ o. IfSome o (IsGiven L.with_context sig.now store.new (E.table evaluator.new) (L.asked listing.old))) }
    ensures given { IfOk result (λ o. IfSome o (λ x. L.given listing.new ≡ Some x)) }
    ensures ready { OnOk result (IsReadyFor L.with_context sig.now store.new (E.table evaluator.new) (L.asked listing.old) (L.given listing.new)) }
    ensures grown { HaveGrown store.old store.new (E.table evaluator.old) (E.table evaluator.new) }
    ensures list_asked { L.asked listing.new ≡ L.asked listing.old }
    ensures signature { L.is_for listing.new sig.now }
    ensures fits { E.fits evaluator.new store.new }
    ensures meanings { E.meanings evaluator.new ≡ E.meanings evaluator.old }
{
    for _ in 0..u64::MAX {
        match ask_next(store, listing, evaluator, sig, pattern, cond, budget) {
            Ok(Turn::Holds(solution)) => return Ok(Some(solution)),
            Ok(Turn::NoneLeft) => return Ok(None),
            Ok(Turn::Passed) => (),
            Err(end) => return Err(end),
        }
    }
    Err(EvalEnd::NoMemory)
}
