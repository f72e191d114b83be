//! Solutions of strategies, one after another.
ghost use Rattle.std.specs.Prelude.{◌≡◌, List, All, true, Some, None, IfOk};
ghost use Rattle.mau_store.specs.Node.{Node};
ghost use Rattle.mau_store.specs.Trees.{tree_at};
ghost use Rattle.mau_formula.specs.Operators.{operators};
ghost use Rattle.mau_built_ins.specs.NativeNumerals.{GivesNumerals};
ghost use Rattle.mau_program.specs.declared.program.Program.{Program as ProgramOf};
ghost use Rattle.mau_program.specs.LawfulPrograms.{IsLawfulProgram};
ghost use Rattle.mau_program.specs.LawfulStrategies.{IsLawfulDefinition};
ghost use Rattle.mau_api.specs.Meanings.{Meanings};
ghost use Rattle.mau_api.specs.Terms.{IsTerm};
ghost use Rattle.mau_api.specs.Answers.{AreSettled};
ghost use Rattle.mau_rules.specs.Runnable.{IsRunnable, GoesBy};
ghost use Rattle.mau_solutions.specs.Listings.{ReachedOf};
ghost use Rattle.mau_stratitems.specs.Kept.{reached_by, store_of, CanRun};
ghost use Rattle.mau_stratitems.specs.Shown.{ComesTo};
ghost use Rattle.mau_module.specs.Lawful.{program_of};
ghost use Rattle.mau_module.specs.Modules.{ModuleOf};
ghost use Rattle.mau_session.specs.Environment.{Environment, environment_of, meanings_in};
ghost use Rattle.mau_session.specs.Shown.{printer_in};
ghost use Rattle.mau_session.specs.StrategyRun.{begun_strategy};
ghost use Rattle.mau_session.specs.StrategyLines.{left_by_strategy};
ghost use Rattle.mau_session.specs.StrategyGains.{GainsSolutions};
ghost use Rattle.mau_session.specs.KeptStrategy.{ending_of, run_of, search_of, CanGoOn, IsReadySearch, CameTo, ShowsNextSolution, GainsFound, GainsEnded};
ghost use Rattle.mau_session.specs.KeptState.{outcome_of, IsReadyOutcome};

use crate::session::Session;
use crate::show::printer_of;
use crate::state::{Continued, Outcome};
use crate::strategy_lines::{write_search_end, write_solution};
use mau_api::{Evaluator, Lister};
use mau_extend::ExtListing;
use mau_match::Listing;
use mau_module::Module;
use mau_print::Printer;
use mau_program::Strategy;
use mau_reduce::Hooks;
use mau_reducer::Flagged;
use mau_sorts::SortTable;
use mau_store::Store;
use mau_stratitems::{KeptRun, NextShown, begin, next_shown};
use mau_terms::{NoMemory, TermId, Vars};
use std::alloc::Global;

/// A strategy run that may go on, with the sorts that were settled for it, the variables of the command that began it, and how many
/// solutions were shown.
#[derive(Drop)]
pub struct Searching {
    pub run: KeptRun<ExtListing<Listing>>,
    pub sorts: SortTable,
    pub vars: Vars,
    pub shown: u64,
}

/// A strategy run with its evaluator, and how many solutions were shown.
#[derive(Drop)]
pub struct Search<E, L: Drop> {
    pub run: KeptRun<L>,
    pub evaluator: E,
    pub shown: u64,
}

/// How a listing of solutions ends: none is left, or as many are shown as were asked for, or it was ended so.
#[derive(Clone, Copy, Debug, PartialEq, Eq)]
pub enum SearchEnd {
    NoMore,
    BoundReached,
    Stopped,
    TooDeep,
    Overflow,
    CallDepth,
}

/// The solution that came, with its sort, or the end.
fn came_of(next: NextShown) -> Result<(TermId, u32), SearchEnd>
    ensures { (p : ProgramOf) (m : Meanings) (old new : ReachedOf) (nodes : List Node) → ComesTo p m old new nodes next → CameTo p m old new nodes result }
{
    match next {
        NextShown::Solution(term, sort) => Ok((term, sort)),
        NextShown::NoMore => Err(SearchEnd::NoMore),
        NextShown::Stopped => Err(SearchEnd::Stopped),
        NextShown::TooDeep => Err(SearchEnd::TooDeep),
        NextShown::Overflow => Err(SearchEnd::Overflow),
        NextShown::CallDepth => Err(SearchEnd::CallDepth),
    }
}

/// Shows the next solution of a run, or says how the listing ends.
fn show_next<E: Evaluator + Drop, L: Lister + Drop>(
    out: &mut Vec<u8>,
    alloc: Global,
    module: &Module,
    printer: &Printer,
    vars: &Vars,
    search: Search<E, L>,
) -> Result<(Search<E, L>, Option<SearchEnd>), NoMemory>
    requires printer { printer.now ≡ printer_in module.now }
    requires run { CanRun L.asked L.given L.is_for L.with_context (program_of module.now) (E.meanings search.evaluator) (E.table search.evaluator) search.run }
    requires fits { E.fits search.evaluator (store_of search.run) }
    ensures shown { IfOk result (λ r. ShowsNextSolution module.now (E.meanings search.evaluator) vars.now search.shown (reached_by search.run)
        (reached_by r.0.run) out.old.items out.new.items r.0.shown r.1) }
    ensures run { IfOk result (λ r. CanRun L.asked L.given L.is_for L.with_context (program_of module.now) (E.meanings r.0.evaluator) (E.table r.0.evaluator) r.0.run) }
    ensures fits { IfOk result (λ r. E.fits r.0.evaluator (store_of r.0.run)) }
    ensures meanings { IfOk result (λ r. E.meanings r.0.evaluator ≡ E.meanings search.evaluator) }
{
    let before = search.shown;
    let shown = next_shown(module.program(), search.evaluator, search.run)?;
    match came_of(shown.next) {
        Ok((term, sort)) => {
            let number = before.checked_add(1).ok_or(NoMemory)?;
            write_solution(
                out,
                alloc,
                module,
                printer,
                vars,
                number,
                sort,
                &shown.run.rest.store,
                term,
            )?;
            let search = Search {
                run: shown.run,
                evaluator: shown.evaluator,
                shown: number,
            };
            Ok((search, None))
        }
        Err(end) => {
            let search = Search {
                run: shown.run,
                evaluator: shown.evaluator,
                shown: before,
            };
            Ok((search, Some(end)))
        }
    }
}

/// Shows the next solutions of a run, at most so many, or all. Says how the listing ends.
fn show_solutions<E: Evaluator + Drop, L: Lister + Drop>(
    out: &mut Vec<u8>,
    alloc: Global,
    module: &Module,
    vars: &Vars,
    search: Search<E, L>,
    most: Option<u64>,
) -> Result<(Search<E, L>, SearchEnd), NoMemory>
    requires run { CanRun L.asked L.given L.is_for L.with_context (program_of module.now) (E.meanings search.evaluator) (E.table search.evaluator) search.run }
    requires fits { E.fits search.evaluator (store_of search.run) }
    ensures shown { IfOk result (λ r. GainsFound module.now (E.meanings search.evaluator) (run_of search.run search.shown vars.now) most
        out.old.items out.new.items (reached_by r.0.run) r.0.shown (ending_of r.1)) }
    ensures run { IfOk result (λ r. CanRun L.asked L.given L.is_for L.with_context (program_of module.now) (E.meanings r.0.evaluator) (E.table r.0.evaluator) r.0.run) }
    ensures fits { IfOk result (λ r. E.fits r.0.evaluator (store_of r.0.run)) }
    ensures meanings { IfOk result (λ r. E.meanings r.0.evaluator ≡ E.meanings search.evaluator) }
{
    let printer = printer_of(alloc, module)?;
    let mut search = search;
    for _ in 0..most.unwrap_or(u64::MAX) {
        let (next, end) = show_next(out, alloc, module, &printer, vars, search)?;
        search = next;
        match end {
            None => (),
            Some(end) => return Ok((search, end)),
        }
    }
    match most {
        Some(_) => Ok((search, SearchEnd::BoundReached)),
        // The lines of so many solutions don't fit into memory.
        None => Err(NoMemory),
    }
}

/// Shows the next solutions of a run, at most so many, or all, and the last line, for an item with this budget. Says how the listing ends.
pub fn list_solutions<E: Evaluator + Drop, L: Lister + Drop>(
    out: &mut Vec<u8>,
    alloc: Global,
    module: &Module,
    limit: u64,
    vars: &Vars,
    search: Search<E, L>,
    most: Option<u64>,
) -> Result<(Search<E, L>, SearchEnd), NoMemory>
    requires run { CanRun L.asked L.given L.is_for L.with_context (program_of module.now) (E.meanings search.evaluator) (E.table search.evaluator) search.run }
    requires fits { E.fits search.evaluator (store_of search.run) }
    requires limit { limit ≡ (E.meanings search.evaluator).limit }
    ensures ended { IfOk result (λ r. GainsEnded module.now (E.meanings search.evaluator) (run_of search.run search.shown vars.now) most
        out.old.items out.new.items (reached_by r.0.run) r.0.shown (ending_of r.1)) }
    ensures run { IfOk result (λ r. CanRun L.asked L.given L.is_for L.with_context (program_of module.now) (E.meanings r.0.evaluator) (E.table r.0.evaluator) r.0.run) }
    ensures fits { IfOk result (λ r. E.fits r.0.evaluator (store_of r.0.run)) }
    ensures meanings { IfOk result (λ r. E.meanings r.0.evaluator ≡ E.meanings search.evaluator) }
{
    let (search, end) = show_solutions(out, alloc, module, vars, search, most)?;
    write_search_end(out, limit, end, search.shown)?;
    Ok((search, end))
}

/// Lists the solutions of a strategy from a term that is settled, at most so many, or all, with the last line. Says how the listing ends.
pub fn list_from<E: Evaluator + Drop, L: Lister + Drop>(
    out: &mut Vec<u8>,
    session: &Session,
    module: &Module,
    vars: &Vars,
    strategy: &Strategy,
    store: Store,
    term: TermId,
    evaluator: E,
    most: Option<u64>,
) -> Result<(Search<E, L>, SearchEnd), NoMemory>
    requires contexts { L.with_context ≡ true }
    requires runnable { IsRunnable (program_of module.now) }
    requires definitions { All (IsLawfulDefinition module.now.signature) module.now.statements.strategies }
    requires goes_by { GoesBy (program_of module.now) (E.meanings evaluator) }
    requires fits { E.fits evaluator store }
    requires limit { session.now.limit ≡ (E.meanings evaluator).limit }
    requires term { IsTerm module.now.signature store term.0 }
    requires settled { AreSettled module.now.signature store (E.table evaluator) (tree_at store term.0) }
    ensures ended { IfOk result (λ r. GainsEnded module.now (E.meanings evaluator) (begun_strategy strategy.now (tree_at store term.0) vars.now) most
        out.old.items out.new.items (reached_by r.0.run) r.0.shown (ending_of r.1)) }
    ensures run { IfOk result (λ r. CanRun L.asked L.given L.is_for L.with_context (program_of module.now) (E.meanings r.0.evaluator) (E.table r.0.evaluator) r.0.run) }
    ensures fits { IfOk result (λ r. E.fits r.0.evaluator (store_of r.0.run)) }
    ensures meanings { IfOk result (λ r. E.meanings r.0.evaluator ≡ E.meanings evaluator) }
{
    let alloc = session.alloc;
    let limit = session.limit;
    let (run, evaluator) = begin(
        alloc,
        module.program(),
        strategy,
        store,
        term,
        evaluator,
        limit,
    )?;
    let search = Search {
        run,
        evaluator,
        shown: 0,
    };
    list_solutions(out, alloc, module, limit, vars, search, most)
}

/// What a strategy run leaves behind its listing.
pub fn left_by_search(
    run: KeptRun<ExtListing<Listing>>,
    sorts: SortTable,
    vars: Vars,
    shown: u64,
    end: SearchEnd,
) -> Outcome
    ensures left { outcome_of result ≡ left_by_strategy (ending_of end) (run_of run shown vars) }
    ensures ready { (e : Environment) (m : ModuleOf) → CanGoOn e m run sorts → IsReadyOutcome e m result }
{
    match end {
        SearchEnd::BoundReached => Outcome::GoesOn(Continued::Strategies(Searching {
            run,
            sorts,
            vars,
            shown,
        })),
        SearchEnd::NoMore
        | SearchEnd::Stopped
        | SearchEnd::TooDeep
        | SearchEnd::Overflow
        | SearchEnd::CallDepth => Outcome::Ended,
    }
}

/// Shows further solutions of a strategy run, at most so many, and the last line. Gives what it leaves.
pub fn search_further(
    out: &mut Vec<u8>,
    session: &Session,
    module: &Module,
    searching: Searching,
    most: Option<u64>,
) -> Result<Outcome, NoMemory>
    requires numerals { All GivesNumerals (operators session.now.hooks.now) }
    requires lawful { IsLawfulProgram (program_of module.now) }
    requires ready { IsReadySearch (environment_of (operators session.now.hooks.now) session.now.limit) module.now searching }
    ensures gained { IfOk result (λ left. GainsSolutions module.now
        (meanings_in (environment_of (operators session.now.hooks.now) session.now.limit) module.now) most
        (search_of searching) out.old.items out.new.items (outcome_of left)) }
    ensures ready { IfOk result (IsReadyOutcome (environment_of (operators session.now.hooks.now) session.now.limit) module.now) }
{
    let natives = Hooks::new(session.hooks);
    let evaluator = Flagged::<ExtListing<Listing>, Listing, Hooks>::with_sorts(
        session.alloc,
        module.program(),
        natives,
        session.limit,
        false,
        searching.sorts,
    )?;
    let vars = searching.vars;
    let search = Search {
        run: searching.run,
        evaluator,
        shown: searching.shown,
    };
    let (search, end) = list_solutions(
        out,
        session.alloc,
        module,
        session.limit,
        &vars,
        search,
        most,
    )?;
    let sorts = search.evaluator.into_sorts();
    Ok(left_by_search(search.run, sorts, vars, search.shown, end))
}
