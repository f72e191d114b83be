//! What is kept of a run.
ghost use Rattle.std.specs.Prelude.{◌≡◌, IfOk};

use crate::rest::AtRest;
use mau_store::Store;
use mau_stratforms::LeafTable;
use mau_stratrun::StratRun;
use mau_terms::NoMemory;

/// A strategy run while there is no evaluator: all that it goes on with, its leaves and its terms among it.
#[derive(Drop)]
pub struct RestingRun<L: Drop> {
    pub run: StratRun<AtRest<L>>,
    pub leaves: LeafTable,
    pub store: Store,
}

/// A strategy run that is kept between the items of a session, behind a pointer, so that it is cheap to hand on.
#[derive(Drop)]
pub struct KeptRun<L: Drop> {
    pub rest: Box<RestingRun<L>>,
}

/// A run that rests is kept.
pub fn keep<L: Drop>(rest: RestingRun<L>) -> Result<KeptRun<L>, NoMemory>
    ensures { IfOk result (λ k. k.rest.value ≡ rest) }
{
    let alloc = rest.run.course.alloc;
    let rest = Box::new(alloc, rest)?;
    Ok(KeptRun { rest })
}
