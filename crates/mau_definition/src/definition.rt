//! Reading a definition of a strategy.
ghost use Rattle.std.specs.Prelude.{◌≡◌, ◌≤◌, ◌&&◌, [], length, true, All, Ok, Err, IfOk, IfErr, OnOk};
ghost use Rattle.mau_terms.specs.Bare.{IsBare};
ghost use Rattle.mau_signature.specs.Signature.{terms_over};
ghost use Rattle.mau_modtext.specs.declared.raw.RawStatement.{RawStatement as RawStatementOf};
ghost use Rattle.mau_program.specs.LawfulStrategies.{IsLawfulDefinition};
ghost use Rattle.mau_statement.specs.declared.TheConstants.{MAX_VARIABLES};
ghost use Rattle.mau_strattext.specs.Lawful.{IsTyped};
ghost use Rattle.mau_strattext.specs.Setting.{HasSorts};
ghost use Rattle.mau_strattext.specs.Strategies.{IfTold};
ghost use Rattle.mau_definition.specs.Bound.{binds_condition, binds_body};
ghost use Rattle.mau_definition.specs.Definitions.{Around, around, CallOf, BodyRead, DefinitionReads, DefinitionUnread, DefinitionJudged, DefinitionRead};
ghost use Rattle.mau_definition.specs.Faults.{IfFault};
ghost use Rattle.mau_definition.specs.Inner.{HasTypedParts, IsBodyFault};

use crate::bound::{binds, binds_condition};
use crate::call::{Call, read_call};
use crate::fault::{DefinitionFault, is_memory, is_memory_of_strategy, of_statement, of_strategy};
use mau_declare::Words;
use mau_modtext::RawStatement;
use mau_program::{Fragment, StratDecl, StratDef, Strategy};
use mau_statement::{
    Context, Limit, MAX_FRAGMENTS, MAX_VARIABLES, StatementFault, is_empty, read_condition,
};
use mau_strattext::{StratFault, read_strategy};
use mau_terms::{Args, NoMemory, Text, Vars};
use mau_tokens::Token;
use std::alloc::Global;

/// The strategy of a definition.
fn read_body(
    alloc: Global,
    words: &Words,
    context: &Context,
    labels: &[Text],
    names: &[StratDecl],
    vars: &mut Vars,
    tokens: &[Token],
) -> Result<Strategy, StratFault>
    requires sorts { All (HasSorts context.now.signature.hierarchy) names.now }
    ensures read { IfOk result (λ x. BodyRead (around words.now context.now labels.now names.now) tokens.now vars.old vars.new (Ok x)) }
    ensures typed { IfOk result (IsTyped context.now.signature) }
    ensures fault { IfErr result (IfTold (λ f. BodyRead (around words.now context.now labels.now names.now) tokens.now vars.old vars.old (Err f))) }
{
    if is_empty(words, tokens) {
        return Err(StratFault::Unexpected(words.place(words.first_index(tokens))));
    }
    read_strategy(alloc, words, context, labels, names, vars, tokens)
}

/// The first fault of a definition whose call has one: that of its condition comes first.
fn call_fault(
    alloc: Global,
    words: &Words,
    context: &Context,
    raw: &RawStatement,
    fault: StratFault,
) -> DefinitionFault
    ensures { (a : Around) → a.words ≡ words.now → a.context ≡ context.now → IfTold (λ g. CallOf a raw.now [] [] (Err g)) fault → IfFault (DefinitionUnread a raw.now) result }
{
    if is_memory_of_strategy(&fault) {
        return DefinitionFault::NoMemory;
    }
    let mut vars = Vars::new(alloc);
    match read_condition(alloc, words, context, &mut vars, raw.cond.items()) {
        Ok(_) => of_strategy(fault),
        Err(first) => of_statement(first),
    }
}

/// The first fault of a definition whose strategy has one: a variable of its condition that isn't bound comes first.
fn body_fault(alloc: Global, args: &Args, cond: &[Fragment], fault: StratFault) -> DefinitionFault
    ensures first { IfTold (λ g. IfFault (IsBodyFault args.now cond.now g) result) fault }
    ensures memory { fault ≡ StratFault.NoMemory → result ≡ DefinitionFault.NoMemory }
{
    if matches!(fault, StratFault::NoMemory) {
        return DefinitionFault::NoMemory;
    }
    match binds_condition(alloc, args, cond) {
        Ok(true) => of_strategy(fault),
        Ok(false) => DefinitionFault::Statement(StatementFault::UnboundVariable),
        Err(NoMemory) => DefinitionFault::NoMemory,
    }
}

/// The condition and the strategy of a definition, behind its call.
fn read_behind(
    alloc: Global,
    words: &Words,
    context: &Context,
    labels: &[Text],
    names: &[StratDecl],
    raw: &RawStatement,
    call: Call,
    mut vars: Vars,
) -> Result<StratDef, DefinitionFault>
    requires sorts { All (HasSorts context.now.signature.hierarchy) names.now }
    requires call { CallOf (around words.now context.now labels.now names.now) raw.now [] vars (Ok call) }
    requires bare { All (IsBare (terms_over context.now.signature)) call.args }
    ensures reads { IfOk result (DefinitionReads (around words.now context.now labels.now names.now) raw.now) }
    ensures typed { IfOk result (HasTypedParts context.now.signature) }
    ensures fault { IfErr result (IfFault (DefinitionUnread (around words.now context.now labels.now names.now) raw.now)) }
{
    let cond = match read_condition(alloc, words, context, &mut vars, raw.cond.items()) {
        Ok(cond) => cond,
        Err(fault) => return Err(of_statement(fault)),
    };
    match read_body(
        alloc,
        words,
        context,
        labels,
        names,
        &mut vars,
        raw.right.items(),
    ) {
        Ok(body) => Ok(StratDef {
            name: call.name,
            args: call.args,
            body,
            cond,
            vars,
        }),
        Err(fault) => Err(body_fault(alloc, &call.args, cond.items(), fault)),
    }
}

/// What the parts of a definition are, before limits and variables are judged.
fn read_parts(
    alloc: Global,
    words: &Words,
    context: &Context,
    labels: &[Text],
    names: &[StratDecl],
    raw: &RawStatement,
) -> Result<StratDef, DefinitionFault>
    requires sorts { All (HasSorts context.now.signature.hierarchy) names.now }
    ensures reads { IfOk result (DefinitionReads (around words.now context.now labels.now names.now) raw.now) }
    ensures typed { IfOk result (HasTypedParts context.now.signature) }
    ensures fault { IfErr result (IfFault (DefinitionUnread (around words.now context.now labels.now names.now) raw.now)) }
{
    let mut vars = Vars::new(alloc);
    match read_call(alloc, words, context, names, &mut vars, raw.left.items()) {
        Ok(call) => read_behind(alloc, words, context, labels, names, raw, call, vars),
        Err(fault) => Err(call_fault(alloc, words, context, raw, fault)),
    }
}

/// The fault of a definition with so many fragments whose parts are read, if it has one.
fn judge(alloc: Global, fragments: usize, definition: &StratDef) -> Result<(), DefinitionFault>
    ensures accepted { OnOk result (DefinitionJudged fragments definition.now (Ok definition.now)) }
    ensures bound { OnOk result (binds_condition definition.now && binds_body definition.now ≡ true) }
    ensures few { OnOk result (length definition.now.vars ≤ MAX_VARIABLES) }
    ensures fault { IfErr result (IfFault (λ f. DefinitionJudged fragments definition.now (Err f))) }
{
    if definition.vars.len() > MAX_VARIABLES {
        return Err(DefinitionFault::Statement(StatementFault::LimitExceeded(Limit::Variables)));
    }
    if fragments > MAX_FRAGMENTS {
        return Err(DefinitionFault::Statement(StatementFault::LimitExceeded(Limit::Fragments)));
    }
    match binds(alloc, definition) {
        Ok(true) => Ok(()),
        Ok(false) => Err(DefinitionFault::Statement(StatementFault::UnboundVariable)),
        Err(NoMemory) => Err(DefinitionFault::NoMemory),
    }
}

/// The fault of a definition with so many fragments whose parts are not read: too many fragments come before others.
fn unread_fault(fragments: usize, fault: DefinitionFault) -> DefinitionFault
    ensures { (a : Around) (raw : RawStatementOf) → length raw.cond ≡ fragments → IfFault (DefinitionUnread a raw) fault → IfFault (λ f. DefinitionRead a raw (Err f)) result }
{
    if fragments <= MAX_FRAGMENTS {
        return fault;
    }
    if is_memory(&fault) {
        return fault;
    }
    DefinitionFault::Statement(StatementFault::LimitExceeded(Limit::Fragments))
}

/// The definition that a statement of a text is, over a signature with its grammar, the labels of rules, and the strategies that are
/// declared; or why it is none. Where several reasons hold, the first of these is given. Where all parts are read: more than 64
/// variables, more than 32 fragments, a variable that nothing before it binds. Where one isn't: more than 32 fragments; the condition
/// is none; the call is none; a variable of the condition that nothing before it binds; the strategy is none.
pub fn read_definition(
    alloc: Global,
    words: &Words,
    context: &Context,
    labels: &[Text],
    names: &[StratDecl],
    raw: &RawStatement,
) -> Result<StratDef, DefinitionFault>
    requires sorts { All (HasSorts context.now.signature.hierarchy) names.now }
    ensures read { IfOk result (λ d. DefinitionRead (around words.now context.now labels.now names.now) raw.now (Ok d)) }
    ensures lawful { IfOk result (IsLawfulDefinition context.now.signature) }
    ensures few { IfOk result (λ d. length d.vars ≤ MAX_VARIABLES) }
    ensures fault { IfErr result (IfFault (λ f. DefinitionRead (around words.now context.now labels.now names.now) raw.now (Err f))) }
{
    let fragments = raw.cond.items().len();
    match read_parts(alloc, words, context, labels, names, raw) {
        Ok(definition) => match judge(alloc, fragments, &definition) {
            Ok(()) => Ok(definition),
            Err(fault) => Err(fault),
        },
        Err(fault) => Err(unread_fault(fragments, fault)),
    }
}
