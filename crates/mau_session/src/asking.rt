//! The evaluator by which a query's solutions are listed, and its condition is asked.
ghost use Rattle.std.specs.Prelude.{◌≡◌, All, IfOk, None};
ghost use Rattle.mau_terms.specs.Norm.{norm};
ghost use Rattle.mau_terms.specs.Subst.{variables};
ghost use Rattle.mau_terms.specs.View.{tree_of};
ghost use Rattle.mau_canon.specs.Within.{IsWithin};
ghost use Rattle.mau_formula.specs.Operators.{operators};
ghost use Rattle.mau_built_ins.specs.NativeNumerals.{GivesNumerals};
ghost use Rattle.mau_program.specs.LawfulPrograms.{IsLawfulProgram};
ghost use Rattle.mau_api.specs.Answers.{IsAskable};
ghost use Rattle.mau_module.specs.Lawful.{program_of};
ghost use Rattle.mau_session.specs.Environment.{environment_of, meanings_in};
ghost use Rattle.mau_session.specs.Terms.{terms_in};
ghost use Rattle.mau_session.specs.KeptQuery.{query_of, IsQueryOver, IsReadyKept};
ghost use Rattle.mau_session.specs.KeptWhere.{IsReadyWhere};
ghost use Rattle.mau_session.specs.KeptState.{outcome_of, IsReadyOutcome};
ghost use Rattle.mau_session.specs.Gains.{GainsListing, GainsListed, GainsListingWhere, GainsListedWhere};

use crate::conditional::ConditionalQuery;
use crate::left::{left_by, left_where};
use crate::listing_where::show_kept;
use crate::listings::show_query;
use crate::query::Query;
use crate::results::write_item_end;
use crate::session::Session;
use crate::settled::settle_subject;
use crate::state::Outcome;
use mau_extend::ExtListing;
use mau_match::Listing;
use mau_module::Module;
use mau_reduce::Hooks;
use mau_reducer::Flagged;
use mau_sorts::SortTable;
use mau_terms::NoMemory;

/// Shows the first solutions of a query, at most so many, and the last line, or the end that its subject's sorts have. Gives what it leaves.
pub fn list_first(
    out: &mut Vec<u8>,
    session: &Session,
    module: &Module,
    query: Query,
    most: Option<u64>,
) -> Result<Outcome, NoMemory>
    requires lawful { IsLawfulProgram (program_of module.now) }
    requires numerals { All GivesNumerals (operators session.now.hooks.now) }
    requires query { IsQueryOver module.now.signature query }
    requires first { query.last ≡ None }
    requires within { IsWithin (terms_in module.now).theory (norm (terms_in module.now).theory (tree_of query.subject)) }
    ensures gained { IfOk result (λ left. GainsListed module.now (meanings_in (environment_of (operators session.now.hooks.now) session.now.limit) module.now)
        (query_of query) most (outcome_of left) out.old.items out.new.items) }
    ensures ready { IfOk result (IsReadyOutcome (environment_of (operators session.now.hooks.now) session.now.limit) module.now) }
{
    let mut query = query;
    let program = module.program();
    let natives = Hooks::new(session.hooks);
    let mut evaluator = Flagged::<ExtListing<Listing>, Listing, Hooks>::new(
        session.alloc,
        program,
        natives,
        session.limit,
        false,
    )?;
    match settle_subject(&mut query, &mut evaluator) {
        Ok(()) => {
            let has_ended = show_query(
                out,
                session.alloc,
                module,
                &mut query,
                &mut evaluator,
                most,
            )?;
            Ok(left_by(query, evaluator.into_sorts(), has_ended))
        }
        Err(end) => {
            write_item_end(out, session.limit, end)?;
            Ok(Outcome::Ended)
        }
    }
}

/// Shows the solutions of a query behind the last one that was shown, at most so many, and the last line, by the sorts that were settled. Gives
/// what it leaves.
pub fn list_further(
    out: &mut Vec<u8>,
    session: &Session,
    module: &Module,
    query: Query,
    sorts: SortTable,
    most: Option<u64>,
) -> Result<Outcome, NoMemory>
    requires lawful { IsLawfulProgram (program_of module.now) }
    requires numerals { All GivesNumerals (operators session.now.hooks.now) }
    requires ready { IsReadyKept (environment_of (operators session.now.hooks.now) session.now.limit) module.now sorts query }
    ensures gained { IfOk result (λ left. GainsListing module.now (meanings_in (environment_of (operators session.now.hooks.now) session.now.limit) module.now)
        (query_of query) most (outcome_of left) out.old.items out.new.items) }
    ensures ready { IfOk result (IsReadyOutcome (environment_of (operators session.now.hooks.now) session.now.limit) module.now) }
{
    let mut query = query;
    let program = module.program();
    let natives = Hooks::new(session.hooks);
    let mut evaluator = Flagged::<ExtListing<Listing>, Listing, Hooks>::with_sorts(
        session.alloc,
        program,
        natives,
        session.limit,
        false,
        sorts,
    )?;
    let has_ended = show_query(out, session.alloc, module, &mut query, &mut evaluator, most)?;
    Ok(left_by(query, evaluator.into_sorts(), has_ended))
}

/// Shows the first solutions of a query under which its condition holds, at most so many, and the last line, or the end that its subject's
/// sorts have. The condition is asked with the budget of an item. Gives what it leaves.
pub fn list_first_where(
    out: &mut Vec<u8>,
    session: &Session,
    module: &Module,
    kept: ConditionalQuery,
    most: Option<u64>,
) -> Result<Outcome, NoMemory>
    requires lawful { IsLawfulProgram (program_of module.now) }
    requires numerals { All GivesNumerals (operators session.now.hooks.now) }
    requires query { IsQueryOver module.now.signature kept.query }
    requires first { kept.query.last ≡ None }
    requires within { IsWithin (terms_in module.now).theory (norm (terms_in module.now).theory (tree_of kept.query.subject)) }
    requires condition { IsAskable module.now.signature (variables (tree_of kept.query.pattern)) kept.cond }
    ensures gained { IfOk result (λ left. GainsListedWhere module.now (meanings_in (environment_of (operators session.now.hooks.now) session.now.limit) module.now) kept.cond
        (query_of kept.query) most (outcome_of left) out.old.items out.new.items) }
    ensures ready { IfOk result (IsReadyOutcome (environment_of (operators session.now.hooks.now) session.now.limit) module.now) }
{
    let mut kept = kept;
    let program = module.program();
    let natives = Hooks::new(session.hooks);
    let mut evaluator = Flagged::<ExtListing<Listing>, Listing, Hooks>::new(
        session.alloc,
        program,
        natives,
        session.limit,
        false,
    )?;
    match settle_subject(&mut kept.query, &mut evaluator) {
        Ok(()) => {
            let ending = show_kept(
                out,
                session.alloc,
                module,
                &mut kept,
                &mut evaluator,
                session.limit,
                most,
            )?;
            Ok(left_where(kept, evaluator.into_sorts(), ending))
        }
        Err(end) => {
            write_item_end(out, session.limit, end)?;
            Ok(Outcome::Ended)
        }
    }
}

/// Shows the solutions of a query behind the last one that was shown, under which its condition holds, at most so many, and the last line, by
/// the sorts that were settled. The condition is asked with the budget of an item. Gives what it leaves.
pub fn list_further_where(
    out: &mut Vec<u8>,
    session: &Session,
    module: &Module,
    kept: ConditionalQuery,
    sorts: SortTable,
    most: Option<u64>,
) -> Result<Outcome, NoMemory>
    requires lawful { IsLawfulProgram (program_of module.now) }
    requires numerals { All GivesNumerals (operators session.now.hooks.now) }
    requires ready { IsReadyWhere (environment_of (operators session.now.hooks.now) session.now.limit) module.now sorts kept }
    ensures gained { IfOk result (λ left. GainsListingWhere module.now (meanings_in (environment_of (operators session.now.hooks.now) session.now.limit) module.now) kept.cond
        (query_of kept.query) most (outcome_of left) out.old.items out.new.items) }
    ensures ready { IfOk result (IsReadyOutcome (environment_of (operators session.now.hooks.now) session.now.limit) module.now) }
{
    let mut kept = kept;
    let program = module.program();
    let natives = Hooks::new(session.hooks);
    let mut evaluator = Flagged::<ExtListing<Listing>, Listing, Hooks>::with_sorts(
        session.alloc,
        program,
        natives,
        session.limit,
        false,
        sorts,
    )?;
    let ending = show_kept(
        out,
        session.alloc,
        module,
        &mut kept,
        &mut evaluator,
        session.limit,
        most,
    )?;
    Ok(left_where(kept, evaluator.into_sorts(), ending))
}
