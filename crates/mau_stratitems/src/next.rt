//! The next solution of a kept run.
ghost use Rattle.std.specs.Prelude.{◌≡◌, IfOk};
ghost use Rattle.mau_store.specs.Node.{Extends};
ghost use Rattle.mau_store.specs.Trees.{tree_at};
ghost use Rattle.mau_api.specs.Meanings.{Meanings};
ghost use Rattle.mau_evaluation.specs.Configs.{Config};
ghost use Rattle.mau_solutions.specs.Listings.{ReachedOf};
ghost use Rattle.mau_solutions.specs.Standing.{Came, CameOf};
ghost use Rattle.mau_stratitems.specs.Kept.{reached_at, reached_by, store_of, CanRun, CanRunAt};
ghost use Rattle.mau_stratitems.specs.Shown.{definitions_of, ComesTo};
ghost use Rattle.mau_stratitems.specs.Asked.{IsValue};

use crate::ask::ask_watched;
use crate::kept::{KeptRun, RestingRun, keep};
use mau_api::{Evaluator, Lister, Program};
use mau_results::shown_sort;
use mau_solutions::Next;
use mau_store::Store;
use mau_terms::{NoMemory, TermId};
use std::marker::Brand;

/// What comes of asking a kept run for a solution.
#[derive(Clone, Copy, Drop, Debug)]
pub enum NextShown {
    /// The next one, with the sort that is shown for it.
    Solution(TermId, u32),
    /// There is no further one.
    NoMore,
    Stopped,
    TooDeep,
    Overflow,
    /// More calls are nested than may be.
    CallDepth,
}

/// What came of asking, and the run and the evaluator as they are then.
#[derive(Drop)]
pub struct Shown<E, L: Drop> {
    pub next: NextShown,
    pub run: KeptRun<L>,
    pub evaluator: E,
}

/// A run that rests goes on by an evaluator, and rests again.
fn ask<E: Evaluator + Drop, L: Lister + Drop>(
    program: &Program,
    evaluator: E,
    run: RestingRun<L>,
) -> (RestingRun<L>, E, Result<Next, NoMemory>)
    requires run { CanRunAt L.asked L.given L.is_for L.with_context program.now (E.meanings evaluator) (E.table evaluator) run }
    requires fits { E.fits evaluator run.store }
    ensures came { Came (E.meanings evaluator) (definitions_of program.now) (reached_at run) (reached_at result.0) (tree_at result.0.store) result.2 }
    ensures term { IfOk result.2 (IsValue program.now result.0.store (E.table result.1)) }
    ensures run { CanRunAt L.asked L.given L.is_for L.with_context program.now (E.meanings result.1) (E.table result.1) result.0 }
    ensures fits { E.fits result.1 result.0.store }
    ensures meanings { E.meanings result.1 ≡ E.meanings evaluator }
    ensures extends { Extends run.store result.0.store }
{
    ask_watched::<E, L, Brand>(program, evaluator, run)
}

/// What came of asking, with the sort that is shown for a solution.
fn with_sort<E: Evaluator>(program: &Program, store: &Store, evaluator: &E, next: Next) -> NextShown
    requires program { (E.meanings evaluator.now).program ≡ program.now }
    requires fits { E.fits evaluator.now store.now }
    requires term { IsValue program.now store.now (E.table evaluator.now) next }
    ensures { (m : Meanings) (old new : ReachedOf) → E.meanings evaluator.now ≡ m → CameOf m (definitions_of program.now) old new (tree_at store.now) next →
        ComesTo program.now m old new store.now result }
{
    match next {
        Next::Solution(term) => {
            let sort = shown_sort(&program.sig, store, evaluator.sorts(), term);
            NextShown::Solution(term, sort)
        }
        Next::NoMore => NextShown::NoMore,
        Next::Stopped => NextShown::Stopped,
        Next::TooDeep => NextShown::TooDeep,
        Next::Overflow => NextShown::Overflow,
        Next::CallDepth => NextShown::CallDepth,
    }
}

/// The next solution of a kept run, or how it ends. Whatever is answered, the run can go on from there, with this evaluator or with one that has
/// the same meanings and table of sorts.
pub fn next_shown<E: Evaluator + Drop, L: Lister + Drop>(
    program: &Program,
    evaluator: E,
    run: KeptRun<L>,
) -> Result<Shown<E, L>, NoMemory>
    requires run { CanRun L.asked L.given L.is_for L.with_context program.now (E.meanings evaluator) (E.table evaluator) run }
    requires fits { E.fits evaluator (store_of run) }
    ensures came { IfOk result (λ s. ComesTo program.now (E.meanings evaluator) (reached_by run) (reached_by s.run) (store_of s.run) s.next) }
    ensures run { IfOk result (λ s. CanRun L.asked L.given L.is_for L.with_context program.now (E.meanings s.evaluator) (E.table s.evaluator) s.run) }
    ensures fits { IfOk result (λ s. E.fits s.evaluator (store_of s.run)) }
    ensures meanings { IfOk result (λ s. E.meanings s.evaluator ≡ E.meanings evaluator) }
    ensures extends { IfOk result (λ s. Extends (store_of run) (store_of s.run)) }
{
    let rest = Box::into_inner(run.rest);
    let (rest, evaluator, next) = ask(program, evaluator, rest);
    match next {
        Ok(next) => {
            let next = with_sort(program, &rest.store, &evaluator, next);
            let run = keep(rest)?;
            Ok(Shown {
                next,
                run,
                evaluator,
            })
        }
        Err(e) => Err(e),
    }
}
