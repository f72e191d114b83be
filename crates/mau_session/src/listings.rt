//! Which listing answers a query.
ghost use Rattle.std.specs.Prelude.{◌≡◌, OnOk, IfOk};
ghost use Rattle.mau_session.specs.KeptQuery.{query_of, IsReady, GoesIn};
ghost use Rattle.mau_session.specs.Next.{GainsShown};

use crate::listing::show;
use crate::query::Query;
use mau_api::Evaluator;
use mau_extend::ExtListing;
use mau_match::Listing;
use mau_module::Module;
use mau_terms::NoMemory;
use std::alloc::Global;

/// Shows the solutions of a query behind the last one that was shown, at most so many, and the last line, by the listing of its
/// solutions with their contexts or without. Says whether it has ended.
pub fn show_query<E: Evaluator>(
    out: &mut Vec<u8>,
    alloc: Global,
    module: &Module,
    query: &mut Query,
    evaluator: &mut E,
    most: Option<u64>,
) -> Result<bool, NoMemory>
    requires ready { IsReady module.now.signature (E.table evaluator.old) query.old }
    requires fits { E.fits evaluator.old query.old.store }
    requires goes { GoesIn module.now (E.meanings evaluator.old) }
    ensures shown { IfOk result (GainsShown module.now (E.meanings evaluator.old) (query_of query.old) (query_of query.new) most out.old.items out.new.items) }
    ensures ready { OnOk result (IsReady module.now.signature (E.table evaluator.new) query.new) }
    ensures fits { OnOk result (E.fits evaluator.new query.new.store) }
    ensures meanings { E.meanings evaluator.new ≡ E.meanings evaluator.old }
{
    if query.with_context {
        show::<ExtListing<Listing>, E>(out, alloc, module, query, evaluator, most)
    } else {
        show::<Listing, E>(out, alloc, module, query, evaluator, most)
    }
}
