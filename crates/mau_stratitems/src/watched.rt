//! Who gives results, with what is to stay.
ghost use Rattle.mau_api.specs.Meanings.{Meanings};

use crate::watch::Watch;
use mau_api::{Evaluator, Lister};
use mau_leaves::{LeafCursor, RunLeaves};
use mau_strat::Bound;
use mau_stratrun::{Lead, LeafEnd, Leaves, Yielded};
use mau_terms::{NoMemory, TermId};
use std::marker::PhantomData;

/// Gives what another one gives, and is known to be over what stays.
#[derive(Drop)]
pub struct Watched<'a, E, L, B> {
    pub leaves: RunLeaves<'a, E, L>,
    pub watch: PhantomData<B>,
}

impl<'a, E: Evaluator + Drop, L: Lister + Drop, B: Watch> Leaves for Watched<'a, E, L, B> {
    ghost use Rattle.mau_leaves.specs.Cursors.{IsReady, world_of};
    ghost use Rattle.mau_leaves.specs.CursorLaws.{is_world};

    type Cursor = LeafCursor<L>;

    ghost world = { λ r. world_of L.asked L.given L.is_for L.with_context r.leaves.program.now (E.meanings r.leaves.evaluator) r.leaves.leaves.now r.leaves.store (E.table r.leaves.evaluator) };

    ghost is_ready = { λ r. (IsReady L.with_context r.leaves.program.now (E.meanings r.leaves.evaluator) r.leaves.leaves.now r.leaves.limit r.leaves.store ×
        E.fits r.leaves.evaluator r.leaves.store) × B.stays r.leaves.program.now (E.meanings r.leaves.evaluator) r.leaves.leaves.now r.leaves.store };

    fn start(
        &mut self,
        lead: Lead,
        calls: usize,
        values: &[Bound],
        term: TermId,
    ) -> Result<LeafCursor<L>, NoMemory> {
        self.leaves.start(lead, calls, values, term)
    }

    fn next(&mut self, cursor: &mut LeafCursor<L>) -> Result<Option<Yielded>, LeafEnd> {
        self.leaves.next(cursor)
    }

    ghost laws = { λ r ready. is_world L.asked L.given L.is_for L.with_context r.leaves.program.now (E.meanings r.leaves.evaluator) r.leaves.leaves.now r.leaves.limit r.leaves.store (E.table r.leaves.evaluator) ready.0.0 };
}
