//! The start of a run.
ghost use Rattle.std.specs.Prelude.{◌≡◌, ◌<◌, length, All, IfOk, IfErr};
ghost use Rattle.mau_strat.specs.Forms.{LeafIn, strategy_at};
ghost use Rattle.mau_strat.specs.Interned.{nothing};
ghost use Rattle.mau_strat.specs.Steps.{IfOverLimit};
ghost use Rattle.mau_stratrun.specs.Courses.{state_in, HasBodies};
ghost use Rattle.mau_stratrun.specs.Runs.{IsRunning};
ghost use Rattle.mau_solutions.specs.Listings.{reached_first};
ghost use Rattle.mau_solutions.specs.Standing.{reached_of};

use mau_strat::{Forms, StartError, StrategyId};
use mau_stratrun::{Leaves, StratRun};
use mau_terms::TermId;
use std::alloc::Global;

/// How many calls of strategies may be nested.
pub const MOST_CALLS: usize = 200;

/// A run of the strategy with this number from a term, outside all calls; it has reached its start. The bodies of all definitions have
/// numbers. An item has its budget for the limit.
pub fn begin<X: Leaves + Drop>(
    alloc: Global,
    leaves: X,
    forms: Forms,
    bodies: Vec<StrategyId>,
    strategy: StrategyId,
    term: TermId,
    limit: usize,
) -> Result<StratRun<X>, StartError>
    requires ready { X.is_ready leaves }
    requires term { (X.world leaves).is_term term.0 }
    requires forms { All (LeafIn (X.world leaves).setting.fixed.leaves) forms }
    requires strategy { strategy.0 < length forms }
    requires bodies { HasBodies bodies.items (state_in (X.world leaves) forms nothing) }
    ensures ready { IfOk result (λ run. X.is_ready run.course.leaves) }
    ensures run { IfOk result (λ run. IsRunning (X.world run.course.leaves) run.course.forms run.course.bodies.items
        run.course.interner run.course.kept.items run.walk.listed run.walk.trace.parents run.walk.stack.items) }
    ensures reached { IfOk result (λ run.
        reached_of (state_in (X.world run.course.leaves) run.course.forms run.course.interner) run.walk.listed ≡
        reached_first (strategy_at (X.world leaves).setting.fixed.leaf forms strategy.0) ((X.world leaves).setting.tree term.0)) }
    ensures leaves { IfOk result (λ run. run.course.leaves ≡ leaves) }
    ensures limit { IfOk result (λ run. run.limit ≡ limit) }
    ensures over_limit { IfErr result (λ e. IfOverLimit e (limit ≡ 0)) }
{
    match StratRun::start(
        alloc, leaves, forms, bodies, strategy, MOST_CALLS, term, limit,
    ) {
        Ok(begun) => Ok(begun),
        Err(e) => Err(e),
    }
}
