//! Runs of a strategy from a term, begun, kept, and gone on with.
ghost use Rattle.std.specs.Prelude.{◌≡◌, List, [], true, IfOk};
ghost use Rattle.mau_terms.specs.Bare.{IsBare};
ghost use Rattle.mau_terms.specs.View.{tree_of};
ghost use Rattle.mau_signature.specs.Signature.{terms_over};
ghost use Rattle.mau_formula.specs.Operators.{operators};
ghost use Rattle.mau_store.specs.Node.{Node};
ghost use Rattle.mau_store.specs.Trees.{tree_at};
ghost use Rattle.mau_program.specs.LawfulPrograms.{IsLawfulProgram};
ghost use Rattle.mau_api.specs.Terms.{IsTerm};
ghost use Rattle.mau_api.specs.Answers.{AreSettled};
ghost use Rattle.mau_rules.specs.Runnable.{IsRunnable, GoesBy};
ghost use Rattle.mau_stratitems.specs.Kept.{store_of, CanRun};
ghost use Rattle.mau_strategy_tests.specs.Rests.{CanGoOn};

use crate::showing::{Search, Shower, show_all, show_some};
use mau_api::{Evaluator, Lister, Unwatched};
use mau_canon::build_bare;
use mau_extend::ExtListing;
use mau_formula::HookTable;
use mau_listing::is_lawful;
use mau_match::Listing;
use mau_program::{Program, Strategy};
use mau_reduce::Hooks;
use mau_reducer::Flagged;
use mau_sorts::SortTable;
use mau_store::Store;
use mau_stratitems::{KeptRun, begin};
use mau_terms::{Bare, TermId};
use std::alloc::Global;
use std::test::Fail;

/// A run that rests while there is no evaluator, with the sorts that are settled for it, and whether it is to be asked for more.
#[derive(Drop)]
struct Resting {
    run: KeptRun<ExtListing<Listing>>,
    sorts: SortTable,
    more: bool,
}

/// The value of a term.
fn value_of<E: Evaluator>(
    program: &Program,
    evaluator: &mut E,
    store: &mut Store,
    term: &Bare,
    limit: u64,
) -> Result<TermId, Fail>
    requires program { (E.meanings evaluator.old).program ≡ program.now }
    requires fits { E.fits evaluator.old store.old }
    requires bare { IsBare (terms_over program.now.sig) (tree_of term.now) }
    ensures term { IfOk result (λ v. IsTerm program.now.sig store.new v.0) }
    ensures settled { IfOk result (λ v. AreSettled program.now.sig store.new (E.table evaluator.new) (tree_at store.new v.0)) }
    ensures fits { IfOk result (λ v. E.fits evaluator.new store.new) }
    ensures meanings { IfOk result (λ v. E.meanings evaluator.new ≡ E.meanings evaluator.old) }
{
    is_lawful(&program.sig);
    match build_bare(store, &program.sig, term) {
        Ok(id) => {
            let mut budget = limit;
            match evaluator.evaluate(store, id, &mut budget, &mut Unwatched) {
                Ok(value) => Ok(value.term),
                Err(_) => Err("it has no value".into()),
            }
        }
        Err(_) => Err("it is beyond the limits".into()),
    }
}

/// A run of a strategy from the value of a term.
fn begun<E: Evaluator + Drop, L: Lister + Drop>(
    alloc: Global,
    program: &Program,
    term: &Bare,
    strategy: &Strategy,
    evaluator: E,
    limit: u64,
) -> Result<Search<E, L>, Fail>
    requires contexts { L.with_context ≡ true }
    requires lawful { IsLawfulProgram program.now }
    requires runnable { IsRunnable program.now }
    requires bare { IsBare (terms_over program.now.sig) (tree_of term.now) }
    requires goes_by { GoesBy program.now (E.meanings evaluator) }
    requires limit { limit ≡ (E.meanings evaluator).limit }
    requires fits { (nodes : List Node) → E.fits evaluator nodes }
    ensures run { IfOk result (λ s. CanRun L.asked L.given L.is_for L.with_context program.now (E.meanings s.evaluator) (E.table s.evaluator) s.run) }
    ensures fits { IfOk result (λ s. E.fits s.evaluator (store_of s.run)) }
    ensures meanings { IfOk result (λ s. E.meanings s.evaluator ≡ E.meanings evaluator) }
{
    let mut evaluator = evaluator;
    let mut store = Store::new(alloc);
    let start = value_of(program, &mut evaluator, &mut store, term, limit)?;
    let (run, evaluator) = begin(alloc, program, strategy, store, start, evaluator, limit)?;
    Ok(Search {
        run,
        evaluator,
        more: true,
    })
}

/// Appends the first solutions of a strategy from a term, at most so many, and how they end where they do. Behind them the run rests.
fn show_first(
    alloc: Global,
    shower: &Shower,
    hooks: &HookTable,
    term: &Bare,
    strategy: &Strategy,
    limit: u64,
    first: u64,
    shown: &mut String,
) -> Result<Resting, Fail>
    requires hooks { operators hooks.now ≡ [] }
    requires lawful { IsLawfulProgram shower.now.program.now }
    requires runnable { IsRunnable shower.now.program.now }
    requires bare { IsBare (terms_over shower.now.program.now.sig) (tree_of term.now) }
    ensures { IfOk result (λ r. CanGoOn shower.now.program.now limit r.run r.sorts) }
{
    let natives = Hooks::new(hooks);
    let evaluator = Flagged::<ExtListing<Listing>, Listing, Hooks>::new(
        alloc,
        shower.program,
        natives,
        limit,
        false,
    )?;
    let started: Search<Flagged<ExtListing<Listing>, Listing, Hooks>, ExtListing<Listing>> = begun(
        alloc,
        shower.program,
        term,
        strategy,
        evaluator,
        limit,
    )?;
    let rested = show_some(alloc, shower, started, first, shown)?;
    let sorts = rested.evaluator.into_sorts();
    Ok(Resting {
        run: rested.run,
        sorts,
        more: rested.more,
    })
}

/// Appends the other solutions of a run that rests, and how they end. The run goes on with another evaluator, which has the sorts that the
/// one before settled.
fn show_others(
    alloc: Global,
    shower: &Shower,
    hooks: &HookTable,
    limit: u64,
    resting: Resting,
    shown: &mut String,
) -> Result<(), Fail>
    requires hooks { operators hooks.now ≡ [] }
    requires lawful { IsLawfulProgram shower.now.program.now }
    requires ready { CanGoOn shower.now.program.now limit resting.run resting.sorts }
{
    let natives = Hooks::new(hooks);
    let evaluator = Flagged::<ExtListing<Listing>, Listing, Hooks>::with_sorts(
        alloc,
        shower.program,
        natives,
        limit,
        false,
        resting.sorts,
    )?;
    let search = Search {
        run: resting.run,
        evaluator,
        more: resting.more,
    };
    show_all(alloc, shower, search, shown)
}

/// The solutions of a strategy from a term, and how they end. Behind so many solutions the run rests, and goes on with another evaluator.
pub fn shown_of(
    alloc: Global,
    shower: &Shower,
    term: &Bare,
    strategy: &Strategy,
    limit: u64,
    first: u64,
) -> Result<String, Fail>
    requires lawful { IsLawfulProgram shower.now.program.now }
    requires runnable { IsRunnable shower.now.program.now }
    requires bare { IsBare (terms_over shower.now.program.now.sig) (tree_of term.now) }
{
    let hooks = HookTable::new(alloc);
    let mut shown = String::new(alloc);
    let resting = show_first(
        alloc, shower, &hooks, term, strategy, limit, first, &mut shown,
    )?;
    show_others(alloc, shower, &hooks, limit, resting, &mut shown)?;
    Ok(shown)
}
