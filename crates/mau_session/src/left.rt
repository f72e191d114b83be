//! What queries leave behind their listings.
ghost use Rattle.std.specs.Prelude.{◌≡◌};
ghost use Rattle.mau_module.specs.Modules.{ModuleOf};
ghost use Rattle.mau_session.specs.Environment.{Environment};
ghost use Rattle.mau_session.specs.State;
ghost use Rattle.mau_session.specs.Where;
ghost use Rattle.mau_session.specs.KeptQuery.{query_of, IsReadyKept};
ghost use Rattle.mau_session.specs.KeptWhere.{ending_of, IsReadyWhere};
ghost use Rattle.mau_session.specs.KeptState.{outcome_of, IsReadyOutcome};
ghost use Rattle.mau_session.specs.declared.conditional.Ending.TheVariants.{BoundReached};

use crate::conditional::{ConditionalQuery, Ending};
use crate::query::Query;
use crate::state::{Continued, Outcome};
use mau_sorts::SortTable;

/// What a query leaves behind its listing.
pub fn left_by(query: Query, sorts: SortTable, has_ended: bool) -> Outcome
    ensures left { outcome_of result ≡ State.left_by has_ended (query_of query) }
    ensures ready { (e : Environment) (m : ModuleOf) → IsReadyKept e m sorts query → IsReadyOutcome e m result }
{
    if has_ended {
        Outcome::Ended
    } else {
        Outcome::GoesOn(Continued::Listing(query, sorts))
    }
}

/// What a query with a condition leaves behind its listing.
pub fn left_where(kept: ConditionalQuery, sorts: SortTable, ending: Ending) -> Outcome
    ensures left { outcome_of result ≡ Where.left_where (ending_of ending) (query_of kept.query) kept.cond }
    ensures ready { (e : Environment) (m : ModuleOf) → (ending ≡ BoundReached → IsReadyWhere e m sorts kept) → IsReadyOutcome e m result }
{
    match ending {
        Ending::BoundReached => Outcome::GoesOn(Continued::ListingWhere(kept, sorts)),
        Ending::NoMore | Ending::Stopped | Ending::TooDeep | Ending::Overflow => Outcome::Ended,
    }
}
