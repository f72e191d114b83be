//! The answers of reduce commands.
ghost use Rattle.std.specs.Prelude.{◌≡◌, ◌<◌, ◌≤◌, ◌++◌, length, false, All, OnOk, IfOk};
ghost use Rattle.mau_terms.specs.Bare.{IsBare};
ghost use Rattle.mau_terms.specs.View.{tree_of};
ghost use Rattle.mau_formula.specs.Operators.{operators};
ghost use Rattle.mau_built_ins.specs.NativeNumerals.{GivesNumerals};
ghost use Rattle.mau_program.specs.LawfulPrograms.{IsLawfulProgram};
ghost use Rattle.mau_statement.specs.Parts;
ghost use Rattle.mau_session.specs.Terms.{terms_in};
ghost use Rattle.mau_module.specs.Lawful.{program_of};
ghost use Rattle.mau_session.specs.Environment.{environment_of, meanings_in};
ghost use Rattle.mau_session.specs.Answers.{reduce_head};
ghost use Rattle.mau_session.specs.KeptState.{state_of, outcome_of, IsReadyState, IsReadyOutcome};
ghost use Rattle.mau_session.specs.State.{IsChosen};
ghost use Rattle.mau_session.specs.Gains.{GainsAnswer, GainsTerm, GainsReduce};

use crate::reading::{is_empty, read_term};
use crate::refusal::{Refusal, refuse, refuse_term, write_head};
use crate::results::write_reduced;
use crate::session::Session;
use crate::state::{Outcome, State};
use mau_api::Unwatched;
use mau_declare::write_text;
use mau_extend::ExtListing;
use mau_match::Listing;
use mau_modtext::RawCommand;
use mau_module::Module;
use mau_parse::Goal;
use mau_reduce::Hooks;
use mau_reducer::Flagged;
use mau_terms::{Bare, NoMemory, Vars};

/// Writes what the answer of a reduce command begins with.
fn write_reduce_head(out: &mut Vec<u8>, number: usize, module: &Module) -> Result<(), NoMemory>
    ensures { OnOk result (out.new.items ≡ out.old.items ++ reduce_head number module.now) }
{
    write_head(out, number)?;
    write_text(out, "reduce in ")?;
    write_text(out, module.name())?;
    write_text(out, "\n")
}

/// Evaluates a term in a module, and writes the lines of the answer.
fn reduce(
    out: &mut Vec<u8>,
    session: &Session,
    module: &Module,
    vars: &Vars,
    term: &Bare,
) -> Result<(), NoMemory>
    requires lawful { IsLawfulProgram (program_of module.now) }
    requires numerals { All GivesNumerals (operators session.now.hooks.now) }
    requires bare { IsBare (terms_in module.now) (tree_of term.now) }
    ensures { OnOk result (GainsAnswer module.now
        (meanings_in (environment_of (operators session.now.hooks.now) session.now.limit) module.now) false
        vars.now (tree_of term.now) out.old.items out.new.items) }
{
    let program = module.program();
    let natives = Hooks::new(session.hooks);
    let mut reducer = Flagged::<ExtListing<Listing>, Listing, Hooks>::new(
        session.alloc,
        program,
        natives,
        session.limit,
        false,
    )?;
    write_reduced(
        out,
        session.alloc,
        module,
        &mut reducer,
        session.limit,
        vars,
        term,
        &mut Unwatched,
    )
}

/// Answers a reduce command over a module. Gives what it leaves.
fn answer_term(
    out: &mut Vec<u8>,
    session: &Session,
    module: &Module,
    number: usize,
    command: &RawCommand,
) -> Result<Outcome, NoMemory>
    requires few { length session.now.words.now ≤ 16777216 }
    requires numerals { All GivesNumerals (operators session.now.hooks.now) }
    requires term { Parts.is_empty session.now.words.now command.now.first ≡ false }
    requires lawful { IsLawfulProgram (program_of module.now) }
    ensures gained { IfOk result (λ left. GainsTerm (environment_of (operators session.now.hooks.now) session.now.limit)
        session.now.words.now module.now number command.now out.old.items out.new.items (outcome_of left)) }
    ensures ready { IfOk result (IsReadyOutcome (environment_of (operators session.now.hooks.now) session.now.limit) module.now) }
{
    let mut vars = Vars::new(session.alloc);
    match read_term(
        session.alloc,
        session.words,
        module,
        &mut vars,
        Goal::AnyKind,
        command.first.items(),
    ) {
        Err(fault) => refuse_term(out, number, &fault),
        Ok(term) => {
            write_reduce_head(out, number, module)?;
            reduce(out, session, module, &vars, &term)?;
            Ok(Outcome::Ended)
        }
    }
}

/// Answers a reduce command over the module with the number `chosen`. Says whether it was refused.
fn reduce_chosen(
    out: &mut Vec<u8>,
    session: &Session,
    state: &mut State,
    number: usize,
    command: &RawCommand,
    chosen: usize,
) -> Result<bool, NoMemory>
    requires few { length session.now.words.now ≤ 16777216 }
    requires numerals { All GivesNumerals (operators session.now.hooks.now) }
    requires ready { IsReadyState (environment_of (operators session.now.hooks.now) session.now.limit) state.old }
    requires chosen { IsChosen session.now.words.now (state_of state.old) command.now chosen }
    requires within { chosen < length state.old.library }
    requires term { Parts.is_empty session.now.words.now command.now.first ≡ false }
    ensures gained { IfOk result (GainsReduce (environment_of (operators session.now.hooks.now) session.now.limit) session.now.words.now
        (state_of state.old) number command.now (state_of state.new) out.old.items out.new.items) }
    ensures ready { OnOk result (IsReadyState (environment_of (operators session.now.hooks.now) session.now.limit) state.new) }
{
    let module = state.library.module(chosen);
    let left = answer_term(out, session, module, number, command)?;
    Ok(state.conclude(chosen, left))
}

/// Answers a reduce command. Says whether it was refused.
pub fn answer_reduce(
    out: &mut Vec<u8>,
    session: &Session,
    state: &mut State,
    number: usize,
    command: &RawCommand,
) -> Result<bool, NoMemory>
    requires few { length session.now.words.now ≤ 16777216 }
    requires numerals { All GivesNumerals (operators session.now.hooks.now) }
    requires ready { IsReadyState (environment_of (operators session.now.hooks.now) session.now.limit) state.old }
    ensures gained { IfOk result (GainsReduce (environment_of (operators session.now.hooks.now) session.now.limit) session.now.words.now
        (state_of state.old) number command.now (state_of state.new) out.old.items out.new.items) }
    ensures ready { OnOk result (IsReadyState (environment_of (operators session.now.hooks.now) session.now.limit) state.new) }
{
    let words = session.words;
    let term = command.first.items();
    if is_empty(words, term) {
        return refuse(
            out,
            words,
            number,
            Refusal::NotBuilt(words.first_index(term)),
        );
    }
    match state.choose(words, command) {
        Err(refusal) => refuse(out, words, number, refusal),
        Ok(chosen) => reduce_chosen(out, session, state, number, command, chosen),
    }
}
