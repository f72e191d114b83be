//! The answers of match commands with a condition.
ghost use Rattle.std.specs.Prelude.{◌≡◌, false, All, OnOk, IfOk, Some, slice_get};
ghost use Rattle.mau_terms.specs.Subst.{variables};
ghost use Rattle.mau_terms.specs.View.{tree_of};
ghost use Rattle.mau_formula.specs.Operators.{operators};
ghost use Rattle.mau_built_ins.specs.NativeNumerals.{GivesNumerals};
ghost use Rattle.mau_program.specs.LawfulPrograms.{IsLawfulProgram};
ghost use Rattle.mau_api.specs.Answers.{IsAskable};
ghost use Rattle.mau_module.specs.Lawful.{program_of};
ghost use Rattle.mau_module.specs.Modules.{ModuleOf};
ghost use Rattle.mau_session.specs.Environment.{environment_of, meanings_in};
ghost use Rattle.mau_session.specs.Commands.{has_rewriting};
ghost use Rattle.mau_session.specs.Query.{asked_first};
ghost use Rattle.mau_session.specs.KeptQuery.{query_of};
ghost use Rattle.mau_session.specs.KeptWhere.{IsReadyWhere};
ghost use Rattle.mau_session.specs.KeptTerms.{AreUsable};
ghost use Rattle.mau_session.specs.KeptState.{state_of, outcome_of, IsReadyState, IsReadyOutcome};
ghost use Rattle.mau_session.specs.Gains.{GainsWhere, GainsListedWhere, GainsOnWhere};

use crate::asking::{list_first_where, list_further_where};
use crate::built::has_context;
use crate::conditional::ConditionalQuery;
use crate::conditions::read_asked;
use crate::heads::{write_continue_head, write_match_head};
use crate::query::Query;
use crate::refusal::refuse_condition;
use crate::session::Session;
use crate::state::{Outcome, State};
use crate::terms::Terms;
use mau_canon::BuildFault;
use mau_declare::write_text;
use mau_modtext::RawCommand;
use mau_module::Module;
use mau_program::Fragment;
use mau_sorts::SortTable;
use mau_terms::{NoMemory, Seq};

/// Writes what stands behind the head of a listing with a condition: the first solutions under which it holds, at most so many, or the end
/// where the subject's normal form is beyond the limits.
fn list_where(
    out: &mut Vec<u8>,
    session: &Session,
    module: &Module,
    with_context: bool,
    terms: Terms,
    cond: Seq<Fragment>,
    most: Option<u64>,
) -> Result<Outcome, NoMemory>
    requires lawful { IsLawfulProgram (program_of module.now) }
    requires numerals { All GivesNumerals (operators session.now.hooks.now) }
    requires usable { AreUsable module.now terms }
    requires askable { IsAskable module.now.signature (variables (tree_of terms.pattern)) cond }
    ensures gained { IfOk result (λ left. GainsListedWhere module.now (meanings_in (environment_of (operators session.now.hooks.now) session.now.limit) module.now) cond
        (asked_first with_context (tree_of terms.pattern) (tree_of terms.subject) terms.vars) most (outcome_of left) out.old.items out.new.items) }
    ensures ready { IfOk result (IsReadyOutcome (environment_of (operators session.now.hooks.now) session.now.limit) module.now) }
{
    match Query::new(
        session.alloc,
        module.signature(),
        with_context,
        terms.pattern,
        terms.subject,
        terms.vars,
    ) {
        Ok(query) => {
            let kept = ConditionalQuery { query, cond };
            list_first_where(out, session, module, kept, most)
        }
        Err(BuildFault::TooDeep) => {
            write_text(out, "Too deep.\n")?;
            Ok(Outcome::Ended)
        }
        Err(BuildFault::Overflow) => {
            write_text(out, "Overflow.\n")?;
            Ok(Outcome::Ended)
        }
        Err(BuildFault::NoMemory) => Err(NoMemory),
    }
}

/// Answers a match command with a condition over a module, whose terms were read. Gives what it leaves.
pub fn answer_where(
    out: &mut Vec<u8>,
    session: &Session,
    module: &Module,
    number: usize,
    command: &RawCommand,
    most: Option<u64>,
    terms: Terms,
) -> Result<Outcome, NoMemory>
    requires lawful { IsLawfulProgram (program_of module.now) }
    requires numerals { All GivesNumerals (operators session.now.hooks.now) }
    requires no_rewriting { has_rewriting command.now.cond ≡ false }
    requires usable { AreUsable module.now terms }
    ensures gained { IfOk result (λ left. GainsWhere (environment_of (operators session.now.hooks.now) session.now.limit) session.now.words.now module.now number command.now most
        (tree_of terms.pattern) (tree_of terms.subject) terms.vars out.old.items out.new.items (outcome_of left)) }
    ensures ready { IfOk result (IsReadyOutcome (environment_of (operators session.now.hooks.now) session.now.limit) module.now) }
{
    let pattern = terms.pattern;
    let subject = terms.subject;
    let mut vars = terms.vars;
    match read_asked(
        session.alloc,
        session.words,
        module,
        &mut vars,
        &pattern,
        command.cond.items(),
    ) {
        Err(fault) => refuse_condition(out, number, module, &vars, &fault),
        Ok(cond) => {
            let with_context = has_context(command.kind);
            write_match_head(out, number, with_context, module)?;
            let terms = Terms {
                pattern,
                subject,
                vars,
            };
            list_where(out, session, module, with_context, terms, cond, most)
        }
    }
}

/// Shows the solutions of a query behind the last one shown, under which its condition holds, at most so many. Says that the item was not
/// refused.
pub fn list_where_on(
    out: &mut Vec<u8>,
    session: &Session,
    state: &mut State,
    number: usize,
    chosen: usize,
    kept: ConditionalQuery,
    sorts: SortTable,
    most: Option<u64>,
) -> Result<bool, NoMemory>
    requires numerals { All GivesNumerals (operators session.now.hooks.now) }
    requires ready { IsReadyState (environment_of (operators session.now.hooks.now) session.now.limit) state.old }
    requires there { (m : ModuleOf) × (slice_get state.old.library chosen ≡ Some m)
        × IsReadyWhere (environment_of (operators session.now.hooks.now) session.now.limit) m sorts kept }
    ensures gained { IfOk result (GainsOnWhere (environment_of (operators session.now.hooks.now) session.now.limit) (state_of state.old) number chosen (query_of kept.query) kept.cond most
        (state_of state.new) out.old.items out.new.items) }
    ensures ready { OnOk result (IsReadyState (environment_of (operators session.now.hooks.now) session.now.limit) state.new) }
{
    let module = state.library.module(chosen);
    write_continue_head(out, number, module)?;
    let left = list_further_where(out, session, module, kept, sorts, most)?;
    Ok(state.conclude(chosen, left))
}
