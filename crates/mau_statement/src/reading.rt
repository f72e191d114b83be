//! Reading a statement.
ghost use Rattle.std.specs.Prelude.{◌≡◌, ◌≢◌, ◌<◌, ◌≤◌, length, Some, Ok, Err, IfOk, IfErr};
ghost use Rattle.mau_modtext.specs.declared.raw.StatementKind.TheVariants as Kind;
ghost use Rattle.mau_statement.specs.Faults.{IfFault};
ghost use Rattle.mau_program.specs.LawfulStatements.{HasLawfulSides, HasLawfulHead};
ghost use Rattle.mau_statement.specs.Lawful.{HasLawfulParts, HasOwnVariables, IsLawfulStatement};
ghost use Rattle.mau_statement.specs.Parts;
ghost use Rattle.mau_statement.specs.Statements;
ghost use Rattle.mau_statement.specs.Statements.{EquationReads, RuleReads, MembershipReads, PartsRead, SidesUnread, MembershipUnread, PartsUnread, StatementRead};

use crate::MAX_FRAGMENTS;
use crate::condition::read_fragments;
use crate::context::Context;
use crate::fault::StatementFault;
use crate::judged::judge;
use crate::long::long_fault;
use crate::part::{read_pair, read_part, sort_named, unknown_sort};
use crate::statement::Statement;
use mau_declare::Words;
use mau_modtext::{RawAttr, RawStatement, StatementKind};
use mau_parse::Goal;
use mau_program::{Equation, Membership, Rule};
use mau_terms::{NoMemory, Text, Vars};
use mau_tokens::Token;
use std::alloc::Global;

/// Whether some tokens are this one word.
fn is_named(words: &Words, word: &str, tokens: &[Token]) -> bool
    ensures { result ≡ Statements.is_named words.now word.now tokens.now }
{
    match tokens {
        [token] => words.is(words.token_index(*token), word),
        _ => false,
    }
}

/// Whether an attribute has this name.
fn has_attribute(words: &Words, word: &str, attrs: &[RawAttr]) -> bool
    ensures { result ≡ Statements.has_attribute words.now word.now attrs.now }
{
    match attrs {
        [] => false,
        [first, rest @ ..] => {
            is_named(words, word, first.name.items()) || has_attribute(words, word, rest)
        }
    }
}

/// Whether an equation is used only where no other is.
fn is_owise(words: &Words, attrs: &[RawAttr]) -> bool
    ensures { result ≡ Statements.is_owise words.now attrs.now }
{
    has_attribute(words, "owise", attrs) || has_attribute(words, "otherwise", attrs)
}

/// Whether a statement may be used to evaluate.
fn is_exec(words: &Words, attrs: &[RawAttr]) -> bool
    ensures { result ≡ Statements.is_exec words.now attrs.now }
{
    !has_attribute(words, "nonexec", attrs)
}

/// The text of a label.
fn label_of(alloc: Global, words: &Words, label: Option<Token>) -> Result<Option<Text>, NoMemory>
    ensures { IfOk result (λ text. text ≡ Statements.label_of words.now label) }
{
    match label {
        Some(token) => Ok(Some(Text::new(alloc, words.token_text(token))?)),
        None => Ok(None),
    }
}

/// An equation.
fn read_equation(
    alloc: Global,
    words: &Words,
    context: &Context,
    raw: &RawStatement,
) -> Result<Equation, StatementFault>
    requires few { length raw.now.cond ≤ MAX_FRAGMENTS }
    ensures reads { IfOk result (EquationReads words.now context.now raw.now) }
    ensures lawful { IfOk result (λ e. HasLawfulSides context.now.signature e.left e.right e.cond) }
    ensures fault { IfErr result (IfFault (SidesUnread words.now context.now raw.now)) }
{
    let mut vars = Vars::new(alloc);
    let (left, right) = read_pair(
        alloc,
        words,
        context,
        &mut vars,
        raw.left.items(),
        raw.right.items(),
    )?;
    let cond = read_fragments(alloc, words, context, &mut vars, raw.cond.items())?;
    Ok(Equation {
        left,
        right,
        cond,
        owise: is_owise(words, raw.attrs.items()),
        exec: is_exec(words, raw.attrs.items()),
        vars,
    })
}

/// A membership of a sort.
fn read_head(
    alloc: Global,
    words: &Words,
    context: &Context,
    raw: &RawStatement,
    sort: u32,
) -> Result<Membership, StatementFault>
    requires named { Parts.sort_named words.now context.now.sorts raw.now.right ≡ Some sort }
    requires within { sort < context.now.signature.hierarchy.sorts }
    requires few { length raw.now.cond ≤ MAX_FRAGMENTS }
    ensures reads { IfOk result (MembershipReads words.now context.now raw.now) }
    ensures lawful { IfOk result (HasLawfulHead context.now.signature) }
    ensures fault { IfErr result (IfFault (MembershipUnread words.now context.now raw.now)) }
{
    let mut vars = Vars::new(alloc);
    let goal = Goal::Kind(context.signature().poset().kind_of(sort));
    let left = read_part(alloc, words, context, &mut vars, goal, raw.left.items())?;
    let cond = read_fragments(alloc, words, context, &mut vars, raw.cond.items())?;
    Ok(Membership {
        left,
        sort,
        cond,
        exec: is_exec(words, raw.attrs.items()),
        vars,
    })
}

/// A membership.
fn read_membership(
    alloc: Global,
    words: &Words,
    context: &Context,
    raw: &RawStatement,
) -> Result<Membership, StatementFault>
    requires few { length raw.now.cond ≤ MAX_FRAGMENTS }
    ensures reads { IfOk result (MembershipReads words.now context.now raw.now) }
    ensures lawful { IfOk result (HasLawfulHead context.now.signature) }
    ensures fault { IfErr result (IfFault (MembershipUnread words.now context.now raw.now)) }
{
    match sort_named(words, context, raw.right.items()) {
        Some(sort) => read_head(alloc, words, context, raw, sort),
        None => Err(unknown_sort(words, raw.right.items())),
    }
}

/// A rule.
fn read_rule(
    alloc: Global,
    words: &Words,
    context: &Context,
    raw: &RawStatement,
) -> Result<Rule, StatementFault>
    requires few { length raw.now.cond ≤ MAX_FRAGMENTS }
    ensures reads { IfOk result (RuleReads words.now context.now raw.now) }
    ensures lawful { IfOk result (λ r. HasLawfulSides context.now.signature r.left r.right r.cond) }
    ensures fault { IfErr result (IfFault (SidesUnread words.now context.now raw.now)) }
{
    let mut vars = Vars::new(alloc);
    let (left, right) = read_pair(
        alloc,
        words,
        context,
        &mut vars,
        raw.left.items(),
        raw.right.items(),
    )?;
    let cond = read_fragments(alloc, words, context, &mut vars, raw.cond.items())?;
    Ok(Rule {
        label: label_of(alloc, words, raw.label)?,
        left,
        right,
        cond,
        exec: is_exec(words, raw.attrs.items()),
        vars,
    })
}

/// What the parts of a statement are, before anything is judged of them.
fn read_parts(
    alloc: Global,
    words: &Words,
    context: &Context,
    raw: &RawStatement,
) -> Result<Statement, StatementFault>
    requires kind { raw.now.kind ≢ Kind.Definition }
    requires few { length raw.now.cond ≤ MAX_FRAGMENTS }
    ensures reads { IfOk result (PartsRead words.now context.now raw.now) }
    ensures lawful { IfOk result (HasLawfulParts context.now.signature) }
    ensures own { IfOk result HasOwnVariables }
    ensures fault { IfErr result (IfFault (PartsUnread words.now context.now raw.now)) }
{
    match raw.kind {
        StatementKind::Equation => {
            let equation = read_equation(alloc, words, context, raw)?;
            Ok(Statement::Equation(equation))
        }
        StatementKind::Membership => {
            let membership = read_membership(alloc, words, context, raw)?;
            Ok(Statement::Membership(membership))
        }
        StatementKind::Rule => {
            let rule = read_rule(alloc, words, context, raw)?;
            Ok(Statement::Rule(rule))
        }
        StatementKind::Definition => unreachable!(),
    }
}

/// The equation, the membership or the rule that a statement of a text is, or why it is none. Where several reasons hold, the first
/// of these is given. Where all parts are terms and sorts: more than 64 variables, and then more than 32 fragments. Where one
/// isn't: more than 32 fragments, and then the first such part. A left side that is a variable by its axioms, or a head that may
/// not be one. Except in a statement that is never used to evaluate, a variable that nothing before it binds.
pub fn read_statement(
    alloc: Global,
    words: &Words,
    context: &Context,
    raw: &RawStatement,
) -> Result<Statement, StatementFault>
    requires { raw.now.kind ≢ Kind.Definition }
    ensures read { IfOk result (λ s. StatementRead words.now context.now raw.now (Ok s)) }
    ensures lawful { IfOk result (IsLawfulStatement context.now.signature) }
    ensures fault { IfErr result (IfFault (λ f. StatementRead words.now context.now raw.now (Err f))) }
{
    let fragments = raw.cond.items().len();
    if fragments > MAX_FRAGMENTS {
        return Err(long_fault(alloc, words, context, raw));
    }
    match read_parts(alloc, words, context, raw) {
        Ok(statement) => {
            judge(alloc, context.signature(), fragments, &statement)?;
            Ok(statement)
        }
        Err(fault) => Err(fault),
    }
}
