//! Writing the solutions of a match under which a condition holds.
ghost use Rattle.std.specs.Prelude.{◌≡◌, ◌++◌, true, IfOk, OnOk};
ghost use Rattle.mau_terms.specs.View.{tree_of};
ghost use Rattle.mau_conditional.specs.NextWhere.{CanBeAsked};
ghost use Rattle.mau_session.specs.KeptQuery.{query_of, asked_for, IsReady};
ghost use Rattle.mau_session.specs.KeptWhere.{ending_of, ShowsNextWhere, GainsMatchersWhere, GainsShownWhere};
ghost use Rattle.mau_session.specs.Where.{last_where};
ghost use Rattle.mau_session.specs.Shown.{printer_in};
ghost use Rattle.mau_session.specs.declared.conditional.Ending.TheVariants.{BoundReached};

use crate::conditional::{ConditionalQuery, Ending};
use crate::listing::{listing_of, show_solution, write_end};
use crate::results::write_stopped;
use crate::show::printer_of;
use mau_api::{EvalEnd, Evaluator};
use mau_conditional::next_where;
use mau_declare::write_text;
use mau_extend::ExtListing;
use mau_listing::Lister;
use mau_match::Listing;
use mau_module::Module;
use mau_print::Printer;
use mau_terms::NoMemory;
use std::alloc::Global;

/// Shows the next solution of a query under which its condition holds, with what is left of the budget of an item, and says whether there
/// is one.
fn show_next_where<L: Lister, E: Evaluator>(
    out: &mut Vec<u8>,
    alloc: Global,
    module: &Module,
    printer: &Printer,
    kept: &mut ConditionalQuery,
    listing: &mut L,
    evaluator: &mut E,
    budget: &mut u64,
) -> Result<bool, EvalEnd>
    requires contexts { L.with_context ≡ kept.old.query.with_context }
    requires printer { printer.now ≡ printer_in module.now }
    requires ready { IsReady module.now.signature (E.table evaluator.old) kept.old.query }
    requires signature { L.is_for listing.old module.now.signature }
    requires asked { L.asked listing.old ≡ asked_for kept.old.query }
    requires given { L.given listing.old ≡ kept.old.query.last }
    requires fits { E.fits evaluator.old kept.old.query.store }
    requires can { CanBeAsked module.now.signature (E.meanings evaluator.old) (tree_of kept.old.query.pattern) kept.old.cond }
    ensures shown { ShowsNextWhere module.now (E.meanings evaluator.old) kept.old.cond (query_of kept.old.query) budget.old out.old.items result
        (query_of kept.new.query) out.new.items budget.new }
    ensures ready { OnOk result (IsReady module.now.signature (E.table evaluator.new) kept.new.query) }
    ensures signature { OnOk result (L.is_for listing.new module.now.signature) }
    ensures asked { OnOk result (L.asked listing.new ≡ asked_for kept.new.query) }
    ensures given { IfOk result (λ more. more ≡ true → L.given listing.new ≡ kept.new.query.last) }
    ensures fits { OnOk result (E.fits evaluator.new kept.new.query.store) }
    ensures meanings { E.meanings evaluator.new ≡ E.meanings evaluator.old }
    ensures condition { kept.new.cond ≡ kept.old.cond }
    ensures pattern { OnOk result (kept.new.query.pattern ≡ kept.old.query.pattern) }
    ensures contexts { OnOk result (kept.new.query.with_context ≡ kept.old.query.with_context) }
{
    let next = next_where(
        &mut kept.query.store,
        listing,
        evaluator,
        module.signature(),
        &kept.query.pattern,
        kept.cond.items(),
        budget,
    );
    match next {
        Err(end) => Err(end),
        Ok(None) => Ok(false),
        Ok(Some(solution)) => {
            match show_solution(out, alloc, module, printer, &mut kept.query, solution) {
                Ok(()) => Ok(true),
                Err(_) => Err(EvalEnd::NoMemory),
            }
        }
    }
}

/// Shows the next solutions of a query under which its condition holds, at most so many, or all, with the budget of an item. Says how the
/// listing is left.
fn show_solutions_where<L: Lister, E: Evaluator>(
    out: &mut Vec<u8>,
    alloc: Global,
    module: &Module,
    kept: &mut ConditionalQuery,
    listing: &mut L,
    evaluator: &mut E,
    limit: u64,
    most: Option<u64>,
) -> Result<Ending, NoMemory>
    requires contexts { L.with_context ≡ kept.old.query.with_context }
    requires ready { IsReady module.now.signature (E.table evaluator.old) kept.old.query }
    requires signature { L.is_for listing.old module.now.signature }
    requires asked { L.asked listing.old ≡ asked_for kept.old.query }
    requires given { L.given listing.old ≡ kept.old.query.last }
    requires fits { E.fits evaluator.old kept.old.query.store }
    requires can { CanBeAsked module.now.signature (E.meanings evaluator.old) (tree_of kept.old.query.pattern) kept.old.cond }
    requires limit { limit ≡ (E.meanings evaluator.old).limit }
    ensures shown { IfOk result (λ e. GainsMatchersWhere module.now (E.meanings evaluator.old) kept.old.cond (query_of kept.old.query) (query_of kept.new.query)
        most out.old.items out.new.items (ending_of e)) }
    ensures ready { IfOk result (λ e. e ≡ BoundReached → IsReady module.now.signature (E.table evaluator.new) kept.new.query) }
    ensures fits { IfOk result (λ e. e ≡ BoundReached → E.fits evaluator.new kept.new.query.store) }
    ensures meanings { E.meanings evaluator.new ≡ E.meanings evaluator.old }
    ensures condition { kept.new.cond ≡ kept.old.cond }
    ensures pattern { IfOk result (λ e. e ≡ BoundReached → kept.new.query.pattern ≡ kept.old.query.pattern) }
{
    let printer = printer_of(alloc, module)?;
    let mut budget = limit;
    for _ in 0..most.unwrap_or(u64::MAX) {
        match show_next_where(
            out,
            alloc,
            module,
            &printer,
            kept,
            listing,
            evaluator,
            &mut budget,
        ) {
            Ok(true) => (),
            Ok(false) => return Ok(Ending::NoMore),
            Err(end) => return Ending::by(end),
        }
    }
    match most {
        Some(_) => Ok(Ending::BoundReached),
        // The lines of so many solutions don't fit into memory.
        None => Err(NoMemory),
    }
}

/// Writes the last line of a listing with a condition that has shown so many solutions in all, for an item with this budget.
fn write_ending(out: &mut Vec<u8>, limit: u64, ending: Ending, shown: u64) -> Result<(), NoMemory>
    ensures { OnOk result (out.new.items ≡ out.old.items ++ last_where limit (ending_of ending) shown) }
{
    match ending {
        Ending::NoMore => write_end(out, true, shown),
        Ending::BoundReached => write_end(out, false, shown),
        Ending::Stopped => write_stopped(out, limit),
        Ending::TooDeep => write_text(out, "Too deep.\n"),
        Ending::Overflow => write_text(out, "Overflow.\n"),
    }
}

/// Shows the solutions of a query behind the last one that was shown, under which its condition holds, at most so many, and the last line.
/// Says how the listing is left.
fn show_where<L: Lister + Drop, E: Evaluator>(
    out: &mut Vec<u8>,
    alloc: Global,
    module: &Module,
    kept: &mut ConditionalQuery,
    evaluator: &mut E,
    limit: u64,
    most: Option<u64>,
) -> Result<Ending, NoMemory>
    requires contexts { L.with_context ≡ kept.old.query.with_context }
    requires ready { IsReady module.now.signature (E.table evaluator.old) kept.old.query }
    requires fits { E.fits evaluator.old kept.old.query.store }
    requires can { CanBeAsked module.now.signature (E.meanings evaluator.old) (tree_of kept.old.query.pattern) kept.old.cond }
    requires limit { limit ≡ (E.meanings evaluator.old).limit }
    ensures shown { IfOk result (λ e. GainsShownWhere module.now (E.meanings evaluator.old) kept.old.cond (query_of kept.old.query) (query_of kept.new.query)
        most out.old.items out.new.items (ending_of e)) }
    ensures ready { IfOk result (λ e. e ≡ BoundReached → IsReady module.now.signature (E.table evaluator.new) kept.new.query) }
    ensures fits { IfOk result (λ e. e ≡ BoundReached → E.fits evaluator.new kept.new.query.store) }
    ensures meanings { E.meanings evaluator.new ≡ E.meanings evaluator.old }
    ensures condition { kept.new.cond ≡ kept.old.cond }
    ensures pattern { IfOk result (λ e. e ≡ BoundReached → kept.new.query.pattern ≡ kept.old.query.pattern) }
{
    let mut listing: L = listing_of(alloc, module, &kept.query)?;
    let ending = show_solutions_where(
        out,
        alloc,
        module,
        kept,
        &mut listing,
        evaluator,
        limit,
        most,
    )?;
    write_ending(out, limit, ending, kept.query.shown)?;
    Ok(ending)
}

/// The same by the listing of the query's solutions with their contexts or without.
pub fn show_kept<E: Evaluator>(
    out: &mut Vec<u8>,
    alloc: Global,
    module: &Module,
    kept: &mut ConditionalQuery,
    evaluator: &mut E,
    limit: u64,
    most: Option<u64>,
) -> Result<Ending, NoMemory>
    requires ready { IsReady module.now.signature (E.table evaluator.old) kept.old.query }
    requires fits { E.fits evaluator.old kept.old.query.store }
    requires can { CanBeAsked module.now.signature (E.meanings evaluator.old) (tree_of kept.old.query.pattern) kept.old.cond }
    requires limit { limit ≡ (E.meanings evaluator.old).limit }
    ensures shown { IfOk result (λ e. GainsShownWhere module.now (E.meanings evaluator.old) kept.old.cond (query_of kept.old.query) (query_of kept.new.query)
        most out.old.items out.new.items (ending_of e)) }
    ensures ready { IfOk result (λ e. e ≡ BoundReached → IsReady module.now.signature (E.table evaluator.new) kept.new.query) }
    ensures fits { IfOk result (λ e. e ≡ BoundReached → E.fits evaluator.new kept.new.query.store) }
    ensures meanings { E.meanings evaluator.new ≡ E.meanings evaluator.old }
    ensures condition { kept.new.cond ≡ kept.old.cond }
    ensures pattern { IfOk result (λ e. e ≡ BoundReached → kept.new.query.pattern ≡ kept.old.query.pattern) }
{
    if kept.query.with_context {
        show_where::<ExtListing<Listing>, E>(out, alloc, module, kept, evaluator, limit, most)
    } else {
        show_where::<Listing, E>(out, alloc, module, kept, evaluator, limit, most)
    }
}
