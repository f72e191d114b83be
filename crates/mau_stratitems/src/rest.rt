//! Who gives no results.
use mau_leaves::LeafCursor;
use mau_strat::Bound;
use mau_stratrun::{Lead, LeafEnd, Leaves, Yielded};
use mau_terms::{NoMemory, TermId};
use std::marker::PhantomData;

/// Stands in a run that rests in the place of who gives its results: whoever asks is told that memory is wanting.
#[derive(Drop)]
pub struct AtRest<L> {
    pub listing: PhantomData<L>,
}

impl<L: Drop> Leaves for AtRest<L> {
    ghost use Rattle.mau_stratitems.specs.Rest.{rest};
    ghost use Rattle.mau_stratitems.specs.RestLaws.{rest_is_world};

    type Cursor = LeafCursor<L>;

    ghost world = { λ r. rest };

    ghost is_ready = { λ r. Unit {0} };

    fn start(
        &mut self,
        _: Lead,
        _: usize,
        _: &[Bound],
        _: TermId,
    ) -> Result<LeafCursor<L>, NoMemory> {
        Err(NoMemory)
    }

    fn next(&mut self, _: &mut LeafCursor<L>) -> Result<Option<Yielded>, LeafEnd> {
        Err(LeafEnd::NoMemory)
    }

    ghost laws = { λ r ready. rest_is_world };
}
