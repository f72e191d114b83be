//! The start of a run.
ghost use Rattle.std.specs.Prelude.{◌≡◌, true, All, IfOk};
ghost use Rattle.mau_store.specs.Trees.{tree_at};
ghost use Rattle.mau_program.specs.LawfulStrategies.{IsLawfulDefinition};
ghost use Rattle.mau_api.specs.Terms.{IsTerm};
ghost use Rattle.mau_api.specs.Answers.{AreSettled};
ghost use Rattle.mau_rules.specs.Runnable.{IsRunnable, GoesBy};
ghost use Rattle.mau_stratforms.specs.Meanings.{meaning_of};
ghost use Rattle.mau_solutions.specs.Listings.{reached_first};
ghost use Rattle.mau_stratitems.specs.Kept.{reached_by, store_of, CanRun};

use crate::kept::{KeptRun, RestingRun, keep};
use crate::rest::AtRest;
use mau_api::{Evaluator, Lister, Program, Strategy};
use mau_leaves::RunLeaves;
use mau_solutions::begin as begin_solutions;
use mau_store::Store;
use mau_stratforms::laws::tables_tell_apart;
use mau_stratforms::{ProgramForms, forms_of};
use mau_stratrun::{Course, StratRun};
use mau_terms::{NoMemory, TermId};
use std::alloc::Global;
use std::marker::PhantomData;

/// A run of a strategy from a term that is settled, with the budget of an item, which has reached its start; and the evaluator as it was.
pub fn begin<E: Evaluator + Drop, L: Lister + Drop>(
    alloc: Global,
    program: &Program,
    strategy: &Strategy,
    store: Store,
    term: TermId,
    evaluator: E,
    limit: u64,
) -> Result<(KeptRun<L>, E), NoMemory>
    requires contexts { L.with_context ≡ true }
    requires runnable { IsRunnable program.now }
    requires definitions { All (IsLawfulDefinition program.now.sig) program.now.strategies }
    requires goes_by { GoesBy program.now (E.meanings evaluator) }
    requires fits { E.fits evaluator store }
    requires limit { limit ≡ (E.meanings evaluator).limit }
    requires term { IsTerm program.now.sig store term.0 }
    requires settled { AreSettled program.now.sig store (E.table evaluator) (tree_at store term.0) }
    ensures reached { IfOk result (λ r. reached_by r.0 ≡ reached_first (meaning_of strategy.now) (tree_at store term.0)) }
    ensures run { IfOk result (λ r. CanRun L.asked L.given L.is_for L.with_context program.now (E.meanings r.1) (E.table r.1) r.0) }
    ensures store { IfOk result (λ r. store_of r.0 ≡ store) }
    ensures evaluator { IfOk result (λ r. r.1 ≡ evaluator) }
{
    let made = forms_of(alloc, program, strategy)?;
    let ProgramForms {
        forms,
        leaves,
        bodies,
        strategy,
    } = made;
    tables_tell_apart();
    let giver: RunLeaves<E, L> = RunLeaves::new(program, leaves.items(), store, evaluator, limit);
    // With the budget 0 the start is listed all the same, and nothing behind it.
    let entries = limit as usize;
    let room = if entries == 0 { 1 } else { entries };
    match begin_solutions(alloc, giver, forms, bodies, strategy, term, room) {
        Ok(begun) => {
            let StratRun {
                walk,
                course,
                limit: _,
            } = begun;
            let Course {
                alloc,
                leaves: giver,
                forms,
                bodies,
                interner,
                kept,
            } = course;
            let RunLeaves {
                program: _,
                leaves: _,
                store,
                evaluator,
                limit: _,
                listing: _,
            } = giver;
            let run = StratRun {
                walk,
                course: Course {
                    alloc,
                    leaves: AtRest {
                        listing: PhantomData,
                    },
                    forms,
                    bodies,
                    interner,
                    kept,
                },
                limit: entries,
            };
            let run = keep(RestingRun { run, leaves, store })?;
            Ok((run, evaluator))
        }
        Err(_) => Err(NoMemory),
    }
}
