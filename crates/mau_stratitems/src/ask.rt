//! A run that rests is asked.
ghost use Rattle.std.specs.Prelude.{◌≡◌};
ghost use Rattle.mau_stratitems.specs.Kept.{CanRunAt};
ghost use Rattle.mau_stratitems.specs.Asked.{IsAsked};

use crate::kept::RestingRun;
use crate::rest::AtRest;
use crate::watch::Watch;
use crate::watched::Watched;
use mau_api::{Evaluator, Lister, Program};
use mau_leaves::RunLeaves;
use mau_solutions::{Next, next_solution};
use mau_stratrun::{Course, StratRun};
use mau_terms::NoMemory;
use std::marker::PhantomData;

/// A run that rests goes on by an evaluator, and rests again; and what stays stays.
pub fn ask_watched<E: Evaluator + Drop, L: Lister + Drop, B: Watch>(
    program: &Program,
    evaluator: E,
    run: RestingRun<L>,
) -> (RestingRun<L>, E, Result<Next, NoMemory>)
    requires run { CanRunAt L.asked L.given L.is_for L.with_context program.now (E.meanings evaluator) (E.table evaluator) run }
    requires fits { E.fits evaluator run.store }
    requires stays { B.stays program.now (E.meanings evaluator) run.leaves run.store }
    ensures asked { IsAsked B.stays L.asked L.given L.is_for L.with_context program.now (E.meanings evaluator) run
        (E.meanings result.1) (E.table result.1) result.0 result.2 }
    ensures fits { E.fits result.1 result.0.store }
    ensures leaves { result.0.leaves ≡ run.leaves }
{
    let RestingRun { run, leaves, store } = run;
    let StratRun {
        walk,
        course,
        limit,
    } = run;
    let Course {
        alloc,
        leaves: _,
        forms,
        bodies,
        interner,
        kept,
    } = course;
    let watched: Watched<E, L, B> = Watched {
        leaves: RunLeaves {
            program,
            leaves: leaves.items(),
            store,
            evaluator,
            limit: limit as u64,
            listing: PhantomData,
        },
        watch: PhantomData,
    };
    let mut going = StratRun {
        walk,
        course: Course {
            alloc,
            leaves: watched,
            forms,
            bodies,
            interner,
            kept,
        },
        limit,
    };
    let next = next_solution(&mut going);
    let StratRun {
        walk,
        course,
        limit,
    } = going;
    let Course {
        alloc,
        leaves: watched,
        forms,
        bodies,
        interner,
        kept,
    } = course;
    let RunLeaves {
        program: _,
        leaves: _,
        store,
        evaluator,
        limit: _,
        listing: _,
    } = watched.leaves;
    let run = StratRun {
        walk,
        course: Course {
            alloc,
            leaves: AtRest {
                listing: PhantomData,
            },
            forms,
            bodies,
            interner,
            kept,
        },
        limit,
    };
    (RestingRun { run, leaves, store }, evaluator, next)
}
