//! The answers of dsrewrite commands.
ghost use Rattle.std.specs.Prelude.{◌≡◌, ◌<◌, ◌≤◌, [], length, false, All, Some, None, OnOk, IfOk, slice_get};
ghost use Rattle.mau_terms.specs.Bare.{IsBare};
ghost use Rattle.mau_terms.specs.View.{tree_of};
ghost use Rattle.mau_formula.specs.Operators.{operators};
ghost use Rattle.mau_built_ins.specs.NativeNumerals.{GivesNumerals};
ghost use Rattle.mau_program.specs.LawfulPrograms.{IsLawfulProgram};
ghost use Rattle.mau_statement.specs.Parts;
ghost use Rattle.mau_modtext.specs.declared.raw.RawCommand.{RawCommand as CommandOf};
ghost use Rattle.mau_module.specs.Lawful.{program_of};
ghost use Rattle.mau_module.specs.Modules.{ModuleOf};
ghost use Rattle.mau_parse.specs.declared.goals.Goal.TheVariants as Goal;
ghost use Rattle.mau_session.specs.Terms.{terms_in};
ghost use Rattle.mau_session.specs.Environment.{environment_of, meanings_in};
ghost use Rattle.mau_session.specs.Commands;
ghost use Rattle.mau_session.specs.RuleRun as Conditions;
ghost use Rattle.mau_session.specs.KeptState.{state_of, outcome_of, IsReadyState, IsReadyOutcome};
ghost use Rattle.mau_session.specs.KeptStrategy.{search_of, IsReadySearch};
ghost use Rattle.mau_session.specs.State.{IsChosen};
ghost use Rattle.mau_session.specs.StrategyAnswer.{StrategyIsRead};
ghost use Rattle.mau_session.specs.StrategyGains.{GainsBegun, GainsStrategyTerm, GainsStrategy, GainsStrategyOn};

use crate::bounds::bound_of;
use crate::command::unbuilt;
use crate::heads::write_continue_head;
use crate::reading::read_term;
use crate::refusal::{Refusal, refuse, refuse_term};
use crate::results::write_item_end;
use crate::rewriting::rewriting_condition;
use crate::searching::{Searching, left_by_search, list_from, search_further};
use crate::session::Session;
use crate::starting::evaluate_start;
use crate::state::{Outcome, State};
use crate::strategy_lines::{refuse_strategy, write_strategy_head};
use crate::strategy_reading::read_uses;
use mau_api::Unwatched;
use mau_extend::ExtListing;
use mau_match::Listing;
use mau_modtext::RawCommand;
use mau_module::Module;
use mau_parse::Goal;
use mau_program::Strategy;
use mau_reduce::Hooks;
use mau_reducer::Flagged;
use mau_searched::is_searched;
use mau_store::Store;
use mau_terms::{Bare, NoMemory, Vars};

/// Where an item stands: its number, and the number of the word that it begins with.
#[derive(Clone, Copy, Debug)]
struct Place {
    number: usize,
    item: usize,
}

/// Evaluates a term, lists the solutions of a strategy from its value, at most so many, and writes the lines of the answer. Gives what it
/// leaves.
fn begin(
    out: &mut Vec<u8>,
    session: &Session,
    module: &Module,
    vars: Vars,
    term: &Bare,
    strategy: &Strategy,
    most: Option<u64>,
) -> Result<Outcome, NoMemory>
    requires numerals { All GivesNumerals (operators session.now.hooks.now) }
    requires lawful { IsLawfulProgram (program_of module.now) }
    requires conditions { Conditions.rewriting_condition module.now ≡ None }
    requires bare { IsBare (terms_in module.now) (tree_of term.now) }
    ensures gained { IfOk result (λ left. GainsBegun module.now
        (meanings_in (environment_of (operators session.now.hooks.now) session.now.limit) module.now) false
        (tree_of term.now) strategy.now vars most (outcome_of left) out.old.items out.new.items) }
    ensures ready { IfOk result (IsReadyOutcome (environment_of (operators session.now.hooks.now) session.now.limit) module.now) }
{
    let program = module.program();
    let natives = Hooks::new(session.hooks);
    let mut evaluator = Flagged::<ExtListing<Listing>, Listing, Hooks>::new(
        session.alloc,
        program,
        natives,
        session.limit,
        false,
    )?;
    let sig = module.signature();
    let _ = sig.operators();
    let mut store = Store::new(session.alloc);
    match evaluate_start(
        &mut evaluator,
        sig,
        &mut store,
        term,
        session.limit,
        &mut Unwatched,
    ) {
        Ok(value) => {
            let term = value.term;
            let (search, end) = list_from::<
                Flagged<ExtListing<Listing>, Listing, Hooks>,
                ExtListing<Listing>,
            >(
                out, session, module, &vars, strategy, store, term, evaluator, most,
            )?;
            let sorts = search.evaluator.into_sorts();
            Ok(left_by_search(search.run, sorts, vars, search.shown, end))
        }
        Err(end) => {
            write_item_end(out, session.limit, end)?;
            Ok(Outcome::Ended)
        }
    }
}

/// Answers a dsrewrite command over a module, whose term and strategy were read, with these variables. A strategy that isn't searched for yet
/// is refused. Gives what it leaves.
fn answer_run(
    out: &mut Vec<u8>,
    session: &Session,
    module: &Module,
    place: Place,
    vars: Vars,
    term: &Bare,
    strategy: &Strategy,
    most: Option<u64>,
) -> Result<Outcome, NoMemory>
    requires numerals { All GivesNumerals (operators session.now.hooks.now) }
    requires lawful { IsLawfulProgram (program_of module.now) }
    requires conditions { Conditions.rewriting_condition module.now ≡ None }
    requires bare { IsBare (terms_in module.now) (tree_of term.now) }
    ensures gained { (c : CommandOf) → StrategyIsRead session.now.words.now module.now c term.now strategy.now vars → IfOk result (λ left.
        GainsStrategyTerm (environment_of (operators session.now.hooks.now) session.now.limit)
        session.now.words.now module.now place.number place.item c most out.old.items out.new.items (outcome_of left)) }
    ensures ready { IfOk result (IsReadyOutcome (environment_of (operators session.now.hooks.now) session.now.limit) module.now) }
{
    let rules = module.rules();
    let definitions = module.strategies();
    let searched = is_searched(session.alloc, rules, definitions, strategy)?;
    if !searched {
        refuse(
            out,
            session.words,
            place.number,
            Refusal::NotBuilt(place.item),
        )?;
        return Ok(Outcome::Refused);
    }
    write_strategy_head(out, place.number, module)?;
    begin(out, session, module, vars, term, strategy, most)
}

/// Answers a dsrewrite command over a module, whose term was read. Gives what it leaves.
fn answer_uses(
    out: &mut Vec<u8>,
    session: &Session,
    module: &Module,
    place: Place,
    command: &RawCommand,
    most: Option<u64>,
    vars: Vars,
    term: &Bare,
) -> Result<Outcome, NoMemory>
    requires numerals { All GivesNumerals (operators session.now.hooks.now) }
    requires lawful { IsLawfulProgram (program_of module.now) }
    requires conditions { Conditions.rewriting_condition module.now ≡ None }
    requires uses { Parts.is_empty session.now.words.now command.now.second ≡ false }
    requires read { Parts.TermReads session.now.words.now module.now.grammar command.now.first Goal.AnyKind [] vars term.now }
    requires bare { IsBare (terms_in module.now) (tree_of term.now) }
    ensures gained { IfOk result (λ left. GainsStrategyTerm (environment_of (operators session.now.hooks.now) session.now.limit)
        session.now.words.now module.now place.number place.item command.now most out.old.items out.new.items (outcome_of left)) }
    ensures ready { IfOk result (IsReadyOutcome (environment_of (operators session.now.hooks.now) session.now.limit) module.now) }
{
    let mut vars = vars;
    match read_uses(
        session.alloc,
        session.words,
        module,
        &mut vars,
        command.second.items(),
    ) {
        Err(fault) => refuse_strategy(out, place.number, &fault),
        Ok(strategy) => answer_run(out, session, module, place, vars, term, &strategy, most),
    }
}

/// Answers a dsrewrite command over a module. Gives what it leaves.
fn answer_term(
    out: &mut Vec<u8>,
    session: &Session,
    module: &Module,
    place: Place,
    command: &RawCommand,
    most: Option<u64>,
) -> Result<Outcome, NoMemory>
    requires numerals { All GivesNumerals (operators session.now.hooks.now) }
    requires lawful { IsLawfulProgram (program_of module.now) }
    requires conditions { Conditions.rewriting_condition module.now ≡ None }
    requires term { Parts.is_empty session.now.words.now command.now.first ≡ false }
    requires uses { Parts.is_empty session.now.words.now command.now.second ≡ false }
    ensures gained { IfOk result (λ left. GainsStrategyTerm (environment_of (operators session.now.hooks.now) session.now.limit)
        session.now.words.now module.now place.number place.item command.now most out.old.items out.new.items (outcome_of left)) }
    ensures ready { IfOk result (IsReadyOutcome (environment_of (operators session.now.hooks.now) session.now.limit) module.now) }
{
    let mut vars = Vars::new(session.alloc);
    match read_term(
        session.alloc,
        session.words,
        module,
        &mut vars,
        Goal::AnyKind,
        command.first.items(),
    ) {
        Err(fault) => refuse_term(out, place.number, &fault),
        Ok(term) => answer_uses(out, session, module, place, command, most, vars, &term),
    }
}

/// Answers a dsrewrite command, which begins at the word `item`, over the module with the number `chosen`. Says whether it was refused.
fn answer_chosen(
    out: &mut Vec<u8>,
    session: &Session,
    state: &mut State,
    number: usize,
    item: usize,
    command: &RawCommand,
    chosen: usize,
) -> Result<bool, NoMemory>
    requires few { length session.now.words.now ≤ 16777216 }
    requires numerals { All GivesNumerals (operators session.now.hooks.now) }
    requires ready { IsReadyState (environment_of (operators session.now.hooks.now) session.now.limit) state.old }
    requires chosen { IsChosen session.now.words.now (state_of state.old) command.now chosen }
    requires within { chosen < length state.old.library }
    requires built { Commands.unbuilt session.now.words.now command.now ≡ None }
    requires term { Parts.is_empty session.now.words.now command.now.first ≡ false }
    requires uses { Parts.is_empty session.now.words.now command.now.second ≡ false }
    ensures gained { IfOk result (GainsStrategy (environment_of (operators session.now.hooks.now) session.now.limit) session.now.words.now
        (state_of state.old) number item command.now (state_of state.new) out.old.items out.new.items) }
    ensures ready { OnOk result (IsReadyState (environment_of (operators session.now.hooks.now) session.now.limit) state.new) }
{
    let words = session.words;
    let module = state.library.module(chosen);
    match rewriting_condition(module) {
        Some(_) => refuse(out, words, number, Refusal::NotBuilt(item)),
        None => match bound_of(words, command.bound) {
            Err(refusal) => refuse(out, words, number, refusal),
            Ok(most) => {
                let place = Place { number, item };
                let left = answer_term(out, session, module, place, command, most)?;
                Ok(state.conclude(chosen, left))
            }
        },
    }
}

/// Answers a dsrewrite command, which begins at the word `item`. Says whether it was refused.
pub fn answer_strategy(
    out: &mut Vec<u8>,
    session: &Session,
    state: &mut State,
    number: usize,
    item: usize,
    command: &RawCommand,
) -> Result<bool, NoMemory>
    requires few { length session.now.words.now ≤ 16777216 }
    requires numerals { All GivesNumerals (operators session.now.hooks.now) }
    requires ready { IsReadyState (environment_of (operators session.now.hooks.now) session.now.limit) state.old }
    ensures gained { IfOk result (GainsStrategy (environment_of (operators session.now.hooks.now) session.now.limit) session.now.words.now
        (state_of state.old) number item command.now (state_of state.new) out.old.items out.new.items) }
    ensures ready { OnOk result (IsReadyState (environment_of (operators session.now.hooks.now) session.now.limit) state.new) }
{
    let words = session.words;
    match unbuilt(words, command) {
        Some(word) => refuse(out, words, number, Refusal::NotBuilt(word)),
        None => match state.choose(words, command) {
            Err(refusal) => refuse(out, words, number, refusal),
            Ok(chosen) => answer_chosen(out, session, state, number, item, command, chosen),
        },
    }
}

/// Lists further solutions of a strategy run over the module with the number `chosen`, at most so many. Says that the item was not refused.
pub fn search_on(
    out: &mut Vec<u8>,
    session: &Session,
    state: &mut State,
    number: usize,
    chosen: usize,
    searching: Searching,
    most: Option<u64>,
) -> Result<bool, NoMemory>
    requires numerals { All GivesNumerals (operators session.now.hooks.now) }
    requires ready { IsReadyState (environment_of (operators session.now.hooks.now) session.now.limit) state.old }
    requires there { (m : ModuleOf) × (slice_get state.old.library chosen ≡ Some m)
        × IsReadySearch (environment_of (operators session.now.hooks.now) session.now.limit) m searching }
    ensures gained { IfOk result (GainsStrategyOn (environment_of (operators session.now.hooks.now) session.now.limit) (state_of state.old) number chosen
        (search_of searching) most (state_of state.new) out.old.items out.new.items) }
    ensures ready { OnOk result (IsReadyState (environment_of (operators session.now.hooks.now) session.now.limit) state.new) }
{
    let module = state.library.module(chosen);
    write_continue_head(out, number, module)?;
    let left = search_further(out, session, module, searching, most)?;
    Ok(state.conclude(chosen, left))
}
