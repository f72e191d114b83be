//! Why an item is refused.
ghost use Rattle.std.specs.Prelude.{◌≡◌, ◌≢◌, ◌++◌, true, codes, decimal, OnOk, IfOk};
ghost use Rattle.mau_declare.specs.Words.{place_at};
ghost use Rattle.mau_session.specs.declared.state.Outcome.TheVariants as Outcome;
ghost use Rattle.mau_session.specs.Answers.{item_head, refusal_line, faulty_line, shown_text_fault, text_fault_line, fault_line, shown_parse_fault, parse_fault_line, limit_name, statement_limit_name, shown_statement_fault, shown_strategy_fault, shown_definition_fault, shown_module_fault, module_fault_line};
ghost use Rattle.mau_session.specs.Shown.{shown_variable};
ghost use Rattle.mau_session.specs.Where.{shown_condition_fault};
ghost use Rattle.mau_session.specs.KeptWhere.{shown_unasked, IsNamed};

use crate::conditions::ConditionFault;
use crate::show::write_variable;
use crate::state::Outcome;
use mau_declare::{Words, write_number, write_text};
use mau_modtext::TextFault;
use mau_module::{Limit, Module, ModuleFault};
use mau_parse::ParseFault;
use mau_statement::StatementFault;
use mau_strattext::StratFault;
use mau_terms::{NoMemory, VarId, Vars};
use mau_tokens::TokenFault;

/// Why an item is refused, with the number of the word that it is about, where there is one.
#[derive(Clone, Copy, Debug, PartialEq, Eq)]
pub enum Refusal {
    /// What is built so far ends before the word.
    NotBuilt(usize),
    /// No module has the name that the word is.
    UnknownModule(usize),
    /// A bound, or the number of `continue`, is not from 1 to 1,000,000,000,000.
    BadBound,
    /// There is nothing to continue.
    NothingToContinue,
    /// The condition of the rule with this number, counted from 0, rewrites.
    RewritingCondition(usize),
}

impl Refusal {
    ghost use Rattle.std.specs.Prelude.{◌≡◌, ◌++◌, OnOk};
    ghost use Rattle.mau_session.specs.Answers.{shown_refusal};

    /// Writes the name of the refusal, the word where it has one, and its place.
    fn write(self, out: &mut Vec<u8>, words: &Words) -> Result<(), NoMemory>
        ensures { OnOk result (out.new.items ≡ out.old.items ++ shown_refusal words.now self) }
    {
        match self {
            Refusal::NotBuilt(word) => {
                write_text(out, "NotBuilt ")?;
                write_text(out, words.text(word))?;
                write_place(out, " ", words, word)
            }
            Refusal::UnknownModule(word) => {
                write_text(out, "UnknownModule ")?;
                write_text(out, words.text(word))
            }
            Refusal::BadBound => write_text(out, "BadBound"),
            Refusal::NothingToContinue => write_text(out, "NothingToContinue"),
            Refusal::RewritingCondition(rule) => {
                write_text(out, "RewritingCondition ")?;
                write_number(out, rule as u128 + 1)
            }
        }
    }
}

/// Writes a text and the place of a word.
fn write_place(out: &mut Vec<u8>, text: &str, words: &Words, word: usize) -> Result<(), NoMemory>
    ensures { OnOk result (out.new.items ≡ out.old.items ++ text.now ++ decimal (place_at words.now word)) }
{
    write_text(out, text)?;
    write_number(out, u128::from(words.place(word)))
}

/// Writes what the answer of the item with this number begins with.
pub fn write_head(out: &mut Vec<u8>, number: usize) -> Result<(), NoMemory>
    ensures { OnOk result (out.new.items ≡ out.old.items ++ item_head number) }
{
    write_text(out, "[")?;
    write_number(out, number as u128)?;
    write_text(out, "] ")
}

/// Writes the answer of a refused item.
pub fn write_refusal(
    out: &mut Vec<u8>,
    words: &Words,
    number: usize,
    refusal: Refusal,
) -> Result<(), NoMemory>
    ensures { OnOk result (out.new.items ≡ out.old.items ++ refusal_line number words.now refusal) }
{
    write_head(out, number)?;
    write_text(out, "refused: ")?;
    refusal.write(out, words)?;
    write_text(out, "\n")
}

/// Writes the answer of a module that is at fault, with the text of the refusal.
pub fn write_faulty(out: &mut Vec<u8>, number: usize, text: &[u8]) -> Result<(), NoMemory>
    ensures { OnOk result (out.new.items ≡ out.old.items ++ faulty_line number text.now) }
{
    write_head(out, number)?;
    write_text(out, "refused: ")?;
    out.extend_from_slice(text)?;
    write_text(out, "\n")
}

/// What is too much of a statement.
fn statement_limit_name(limit: mau_statement::Limit) -> &'static str
    ensures { result.now ≡ statement_limit_name limit }
{
    match limit {
        mau_statement::Limit::Variables => "variables",
        mau_statement::Limit::Fragments => "fragments",
    }
}

/// What a module has too many of.
fn limit_name(limit: Limit) -> &'static str
    ensures { result.now ≡ limit_name limit }
{
    match limit {
        Limit::Sorts => "sorts",
        Limit::Declarations => "declarations",
        Limit::Statements => "statements",
    }
}

/// Writes why a statement of a module is refused, which has this number.
fn write_statement_fault(
    out: &mut Vec<u8>,
    statement: usize,
    fault: &StatementFault,
) -> Result<(), NoMemory>
    ensures { OnOk result (out.new.items ≡ out.old.items ++ shown_statement_fault statement fault.now) }
{
    match fault {
        StatementFault::LimitExceeded(limit) => {
            write_count(out, "LimitExceeded ", statement)?;
            write_text(out, " ")?;
            write_text(out, statement_limit_name(*limit))
        }
        StatementFault::Parse(fault) => {
            write_number(out, statement as u128)?;
            write_text(out, " ")?;
            write_parse_fault(out, fault)
        }
        StatementFault::UnknownSort(at) => write_at(out, "UnknownSort ", *at),
        StatementFault::LhsVariable => write_count(out, "LhsVariable ", statement),
        StatementFault::MembershipHead => write_count(out, "MembershipHead ", statement),
        StatementFault::UnboundVariable => write_count(out, "UnboundVariable ", statement),
        StatementFault::NoMemory => Err(NoMemory),
    }
}

/// Writes why a strategy, or the call of a definition, is refused.
pub fn write_strategy_fault(out: &mut Vec<u8>, fault: &StratFault) -> Result<(), NoMemory>
    ensures ok { OnOk result (out.new.items ≡ out.old.items ++ shown_strategy_fault fault.now) }
    ensures named { OnOk result (fault.now ≢ StratFault.NoMemory) }
{
    match fault {
        StratFault::TooManyTokens(count) => write_count(out, "TooManyTokens ", *count),
        StratFault::Unexpected(at) => write_at(out, "Unexpected ", *at),
        StratFault::UnknownName(at) => write_at(out, "UnknownName ", *at),
        StratFault::Parse(_, fault) => write_parse_fault(out, fault),
        StratFault::Arity(at) => write_at(out, "Arity ", *at),
        StratFault::NoMemory => Err(NoMemory),
    }
}

/// Writes why the call or the strategy of a definition is refused, in the statement with this number.
fn write_definition_fault(
    out: &mut Vec<u8>,
    statement: usize,
    fault: &StratFault,
) -> Result<(), NoMemory>
    ensures { OnOk result (out.new.items ≡ out.old.items ++ shown_definition_fault statement fault.now) }
{
    write_number(out, statement as u128)?;
    write_text(out, " ")?;
    write_strategy_fault(out, fault)
}

/// Writes why a module is refused.
fn write_shown_module(out: &mut Vec<u8>, fault: &ModuleFault) -> Result<(), NoMemory>
    ensures ok { OnOk result (out.new.items ≡ out.old.items ++ shown_module_fault fault.now) }
    ensures named { OnOk result (fault.now ≢ ModuleFault.NoMemory) }
{
    match fault {
        ModuleFault::UnknownModule(name) => {
            write_text(out, "UnknownModule ")?;
            write_text(out, name.as_str())
        }
        ModuleFault::ImportTooDeep => write_text(out, "ImportTooDeep"),
        ModuleFault::TooLarge(limit) => {
            write_text(out, "TooLarge ")?;
            write_text(out, limit_name(*limit))
        }
        ModuleFault::UnknownSort(at) => write_at(out, "UnknownSort ", *at),
        ModuleFault::Signed(text) => {
            out.extend_from_slice(text.items())?;
            Ok(())
        }
        ModuleFault::Statement(number, fault) => write_statement_fault(out, *number, fault),
        ModuleFault::Strategy(number, fault) => write_definition_fault(out, *number, fault),
        ModuleFault::NoMemory => Err(NoMemory),
    }
}

/// Writes the answer of a module that is refused.
pub fn write_module_fault(
    out: &mut Vec<u8>,
    number: usize,
    fault: &ModuleFault,
) -> Result<(), NoMemory>
    ensures ok { OnOk result (out.new.items ≡ out.old.items ++ module_fault_line number fault.now) }
    ensures named { OnOk result (fault.now ≢ ModuleFault.NoMemory) }
{
    write_head(out, number)?;
    write_text(out, "refused: ")?;
    write_shown_module(out, fault)?;
    write_text(out, "\n")
}

/// Writes why tokens are no term.
fn write_parse_fault(out: &mut Vec<u8>, fault: &ParseFault) -> Result<(), NoMemory>
    ensures ok { OnOk result (out.new.items ≡ out.old.items ++ shown_parse_fault fault.now) }
    ensures named { OnOk result (fault.now ≢ ParseFault.NoMemory) }
{
    match fault {
        ParseFault::NoParse(at) => write_at(out, "NoParse ", *at),
        ParseFault::Ambiguous(at, _, _) => write_at(out, "Ambiguous ", *at),
        ParseFault::TooManyTokens(count) => write_count(out, "TooManyTokens ", *count),
        ParseFault::NumberTooLarge(at) => write_at(out, "NumberTooLarge ", *at),
        ParseFault::SuccessorTooLarge(at) => write_at(out, "SuccessorTooLarge ", *at),
        ParseFault::NoMemory => Err(NoMemory),
    }
}

/// Writes the answer of a command of which a term's tokens are none.
pub fn write_unread(out: &mut Vec<u8>, number: usize, fault: &ParseFault) -> Result<(), NoMemory>
    ensures ok { OnOk result (out.new.items ≡ out.old.items ++ parse_fault_line number fault.now) }
    ensures named { OnOk result (fault.now ≢ ParseFault.NoMemory) }
{
    write_head(out, number)?;
    write_text(out, "refused: ")?;
    write_parse_fault(out, fault)?;
    write_text(out, "\n")
}

/// Writes the fault of an item.
fn write_shown(out: &mut Vec<u8>, fault: &TextFault) -> Result<(), NoMemory>
    ensures { OnOk result (out.new.items ≡ out.old.items ++ shown_text_fault fault.now) }
{
    match fault {
        TextFault::Unended(at) => write_at(out, "Unended ", *at),
        TextFault::Unexpected(at) => write_at(out, "Unexpected ", *at),
        TextFault::Unsupported(name, at) => {
            write_text(out, "Unsupported ")?;
            write_text(out, name.as_str())?;
            write_at(out, " ", *at)
        }
    }
}

/// Writes the answer of an item with a fault.
pub fn write_text_fault(out: &mut Vec<u8>, number: usize, fault: &TextFault) -> Result<(), NoMemory>
    ensures { OnOk result (out.new.items ≡ out.old.items ++ text_fault_line number fault.now) }
{
    write_head(out, number)?;
    write_text(out, "refused: ")?;
    write_shown(out, fault)?;
    write_text(out, "\n")
}

/// Writes the answer of a text that has a token fault.
pub fn write_fault(out: &mut Vec<u8>, fault: TokenFault) -> Result<(), NoMemory>
    ensures { OnOk result (out.new.items ≡ out.old.items ++ fault_line fault) }
{
    write_text(out, "refused: ")?;
    match fault {
        TokenFault::NotUtf8(at) => write_at(out, "NotUtf8 ", at)?,
        TokenFault::OpenComment(at) => write_at(out, "OpenComment ", at)?,
        TokenFault::OpenString(at) => write_at(out, "OpenString ", at)?,
        TokenFault::TokenTooLong(at) => write_at(out, "TokenTooLong ", at)?,
        TokenFault::NoMemory => (),
    }
    write_text(out, "\n")
}

/// Writes a text and a place.
fn write_at(out: &mut Vec<u8>, text: &str, at: u32) -> Result<(), NoMemory>
    ensures { OnOk result (out.new.items ≡ out.old.items ++ text.now ++ decimal at) }
{
    write_text(out, text)?;
    write_number(out, u128::from(at))
}

/// Writes a text and a count.
fn write_count(out: &mut Vec<u8>, text: &str, count: usize) -> Result<(), NoMemory>
    ensures { OnOk result (out.new.items ≡ out.old.items ++ text.now ++ decimal count) }
{
    write_text(out, text)?;
    write_number(out, count as u128)
}

/// Writes a refusal, and says that the item was refused.
pub fn refuse(
    out: &mut Vec<u8>,
    words: &Words,
    number: usize,
    refusal: Refusal,
) -> Result<bool, NoMemory>
    ensures bytes { OnOk result (out.new.items ≡ out.old.items ++ refusal_line number words.now refusal) }
    ensures refused { IfOk result (λ refused. refused ≡ true) }
{
    write_refusal(out, words, number, refusal)?;
    Ok(true)
}

/// Writes why tokens are no term, so that the item is refused.
pub fn refuse_term(
    out: &mut Vec<u8>,
    number: usize,
    fault: &ParseFault,
) -> Result<Outcome, NoMemory>
    ensures bytes { OnOk result (out.new.items ≡ out.old.items ++ parse_fault_line number fault.now) }
    ensures refused { IfOk result (λ left. left ≡ Outcome.Refused) }
    ensures named { OnOk result (fault.now ≢ ParseFault.NoMemory) }
{
    write_unread(out, number, fault)?;
    Ok(Outcome::Refused)
}

/// Writes why the condition of a command can't be read.
fn write_condition_fault(out: &mut Vec<u8>, fault: &StatementFault) -> Result<(), NoMemory>
    ensures ok { OnOk result (out.new.items ≡ out.old.items ++ shown_condition_fault fault.now) }
    ensures named { OnOk result (fault.now ≢ StatementFault.NoMemory) }
{
    match fault {
        StatementFault::Parse(fault) => write_parse_fault(out, fault),
        StatementFault::UnknownSort(at) => write_at(out, "UnknownSort ", *at),
        StatementFault::NoMemory => Err(NoMemory),
        StatementFault::LimitExceeded(_)
        | StatementFault::LhsVariable
        | StatementFault::MembershipHead
        | StatementFault::UnboundVariable => write_text(out, ""),
    }
}

/// Writes that a condition uses a variable that isn't bound by then.
fn write_unbound(
    out: &mut Vec<u8>,
    module: &Module,
    vars: &Vars,
    variable: VarId,
) -> Result<(), NoMemory>
    ensures { OnOk result (out.new.items ≡ out.old.items ++ codes "UnboundVariable " ++ shown_variable module.now vars.now variable.index variable.sort) }
{
    write_text(out, "UnboundVariable ")?;
    write_variable(out, module, vars, variable)
}

/// Writes why a condition isn't asked.
fn write_unasked(
    out: &mut Vec<u8>,
    module: &Module,
    vars: &Vars,
    fault: &ConditionFault,
) -> Result<(), NoMemory>
    ensures ok { OnOk result (out.new.items ≡ out.old.items ++ shown_unasked module.now vars.now fault.now) }
    ensures named { OnOk result (IsNamed fault.now) }
{
    match fault {
        ConditionFault::Unread(fault) => write_condition_fault(out, fault),
        ConditionFault::Unbound(variable) => write_unbound(out, module, vars, *variable),
    }
}

/// Writes why a condition isn't asked, so that the item is refused.
pub fn refuse_condition(
    out: &mut Vec<u8>,
    number: usize,
    module: &Module,
    vars: &Vars,
    fault: &ConditionFault,
) -> Result<Outcome, NoMemory>
    ensures bytes { OnOk result (out.new.items ≡ out.old.items ++ faulty_line number (shown_unasked module.now vars.now fault.now)) }
    ensures refused { IfOk result (λ left. left ≡ Outcome.Refused) }
    ensures named { OnOk result (IsNamed fault.now) }
{
    write_head(out, number)?;
    write_text(out, "refused: ")?;
    write_unasked(out, module, vars, fault)?;
    write_text(out, "\n")?;
    Ok(Outcome::Refused)
}
