//! The terms of a strategy.
ghost use Rattle.std.specs.Prelude.{◌≡◌, ◌≤◌, IfOk, IfErr, MatchOption, false};
ghost use Rattle.mau_terms.specs.declared.bare.Bare.TheVariants as Term;
ghost use Rattle.mau_parse.specs.Goal.{highest};
ghost use Rattle.mau_parse.specs.declared.goals.Goal.TheVariants.{AnyKind};
ghost use Rattle.mau_statement.specs.Parts.{IsBareOf, TermReads, PartUnread};
ghost use Rattle.mau_statement.specs.declared.fault.StatementFault.TheVariants.{Parse as NoTerm};
ghost use Rattle.mau_strattext.specs.Reads.{IsTerm};
ghost use Rattle.mau_strattext.specs.Strategies.{IfTold};
ghost use Rattle.mau_strattext.specs.Terms.{IfUnread, IsTermFault, IsVariableFault, fault_of, variable_fault_of};
ghost use Rattle.mau_strattext.specs.Faults.{is_variable};

use crate::fault::StratFault;
use crate::setting::Setting;
use mau_declare::Words;
use mau_parse::{Goal, ParseFault};
use mau_shapes::Part;
use mau_statement::{Context, is_empty, read_term};
use mau_terms::{Bare, VarId, Vars};
use mau_tokens::Token;
use std::alloc::Global;

/// The greatest number of variables before a term; more might be more than can be numbered, which is want of memory.
const MOST_VARIABLES: usize = 3_999_999_000;

/// The term that tokens are.
fn read_tokens(
    alloc: Global,
    words: &Words,
    context: &Context,
    vars: &mut Vars,
    goal: Goal,
    tokens: &[Token],
) -> Result<Bare, ParseFault>
    ensures term { IfOk result (TermReads words.now context.now.grammar tokens.now goal vars.old vars.new) }
    ensures bare { IfOk result (λ b. highest context.now.grammar goal ≤ context.now.grammar.last_kind → IsBareOf context.now goal b) }
    ensures fault { IfErr result (IfUnread (λ f. PartUnread words.now context.now.grammar tokens.now goal vars.old (NoTerm f))) }
{
    if vars.len() > MOST_VARIABLES {
        return Err(ParseFault::NoMemory);
    }
    if is_empty(words, tokens) {
        return Err(ParseFault::NoParse(words.place(words.first_index(tokens))));
    }
    read_term(alloc, words, context, vars, goal, tokens)
}

/// The fault of a part that begins at a place of the text.
fn fault_at(place: u32, fault: ParseFault) -> StratFault
    ensures { result ≡ fault_of place fault }
{
    match fault {
        ParseFault::NoMemory => StratFault::NoMemory,
        other => StratFault::Parse(place, other),
    }
}

/// The term that a part is, in the kinds that are asked for. Its variables are added to the others.
pub fn read_part(
    alloc: Global,
    setting: &Setting,
    vars: &mut Vars,
    goal: Goal,
    part: Part,
) -> Result<Bare, StratFault>
    ensures term { IfOk result (IsTerm setting.now part goal vars.old vars.new) }
    ensures bare { IfOk result (λ b. highest setting.now.context.grammar goal ≤ setting.now.context.grammar.last_kind → IsBareOf setting.now.context goal b) }
    ensures fault { IfErr result (IfTold (IsTermFault setting.now part goal vars.old)) }
{
    match read_tokens(
        alloc,
        setting.words(),
        setting.context(),
        vars,
        goal,
        setting.tokens(part),
    ) {
        Ok(term) => Ok(term),
        Err(fault) => Err(fault_at(setting.start(part.start), fault)),
    }
}

/// A term that is a variable.
fn variable_of(term: Bare) -> Option<VarId>
    ensures { MatchOption result (is_variable term ≡ false) (λ v. term ≡ Term.Var v) }
{
    match term {
        Bare::Var(variable) => Some(variable),
        Bare::Num(_) => None,
        Bare::App(_, _) => None,
    }
}

/// The fault of a part that is no variable, whose fault as a term is known.
fn variable_fault(place: u32, fault: StratFault) -> StratFault
    ensures { result ≡ variable_fault_of place fault }
{
    match fault {
        StratFault::NoMemory => StratFault::NoMemory,
        _ => StratFault::Unexpected(place),
    }
}

/// The variable that a part is.
pub fn read_variable(
    alloc: Global,
    setting: &Setting,
    vars: &mut Vars,
    part: Part,
) -> Result<VarId, StratFault>
    ensures variable { IfOk result (λ v. IsTerm setting.now part AnyKind vars.old vars.new (Term.Var v)) }
    ensures bare { IfOk result (λ v. IsBareOf setting.now.context AnyKind (Term.Var v)) }
    ensures fault { IfErr result (IfTold (IsVariableFault setting.now part vars.old)) }
{
    match read_part(alloc, setting, vars, Goal::AnyKind, part) {
        Ok(term) => match variable_of(term) {
            Some(variable) => Ok(variable),
            None => Err(StratFault::Unexpected(setting.start(part.start))),
        },
        Err(fault) => Err(variable_fault(setting.start(part.start), fault)),
    }
}
