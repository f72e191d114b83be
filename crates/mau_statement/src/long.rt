//! Statements with too many fragments. They are refused, and all their parts are passed over first: where these are read and there are too
//! many variables as well, that is told.
ghost use Rattle.std.specs.Prelude.{◌≡◌, ◌≢◌, ◌<◌, ◌≤◌, ◌++◌, ◌∷◌, [], List, length, Err, IfOk, IfErr, OnOk};
ghost use Rattle.mau_modtext.specs.declared.raw.RawFragment.{RawFragment as FragmentOf};
ghost use Rattle.mau_modtext.specs.declared.raw.StatementKind.TheVariants as Kind;
ghost use Rattle.mau_statement.specs.declared.TheConstants.{MAX_FRAGMENTS};
ghost use Rattle.mau_statement.specs.Faults.{IfFault};
ghost use Rattle.mau_statement.specs.Parts.{Pairs};
ghost use Rattle.mau_statement.specs.Conditions.{ConditionUnread};
ghost use Rattle.mau_statement.specs.declared.fault.StatementFault.{StatementFault as FaultOf};
ghost use Rattle.mau_statement.specs.Statements.{PartsUnread, StatementRead};
ghost use Rattle.mau_statement.specs.Long.{FrontReads, ArePassed, IsNeverRead, IsPassed, IsUnreadSomewhere, told_of};

use crate::MAX_VARIABLES;
use crate::condition::read_fragment;
use crate::context::Context;
use crate::fault::{Limit, StatementFault};
use crate::part::{read_pair, read_part, sort_named, unknown_sort};
use mau_declare::Words;
use mau_modtext::{RawFragment, RawStatement, StatementKind};
use mau_parse::Goal;
use mau_terms::Vars;
use std::alloc::Global;

/// Passes over the head and the sort of a membership.
fn pass_head(
    alloc: Global,
    words: &Words,
    context: &Context,
    vars: &mut Vars,
    raw: &RawStatement,
) -> Result<(), StatementFault>
    requires kind { raw.now.kind ≡ Kind.Membership }
    requires none { vars.old ≡ [] }
    ensures front { OnOk result (FrontReads words.now context.now raw.now vars.new) }
    ensures small { OnOk result (length vars.new ≤ 2000) }
    ensures fault { IfErr result (IfFault (PartsUnread words.now context.now raw.now)) }
{
    match sort_named(words, context, raw.right.items()) {
        Some(sort) => {
            let goal = Goal::Kind(context.signature().poset().kind_of(sort));
            match read_part(alloc, words, context, vars, goal, raw.left.items()) {
                Ok(_) => Ok(()),
                Err(fault) => Err(fault),
            }
        }
        None => Err(unknown_sort(words, raw.right.items())),
    }
}

/// Passes over the sides of an equation or a rule.
fn pass_sides(
    alloc: Global,
    words: &Words,
    context: &Context,
    vars: &mut Vars,
    raw: &RawStatement,
) -> Result<(), StatementFault>
    requires no_head { raw.now.kind ≢ Kind.Membership }
    requires read { raw.now.kind ≢ Kind.Definition }
    requires none { vars.old ≡ [] }
    ensures front { OnOk result (FrontReads words.now context.now raw.now vars.new) }
    ensures small { OnOk result (length vars.new ≤ 2000) }
    ensures fault { IfErr result (IfFault (PartsUnread words.now context.now raw.now)) }
{
    match read_pair(
        alloc,
        words,
        context,
        vars,
        raw.left.items(),
        raw.right.items(),
    ) {
        Ok(_) => Ok(()),
        Err(fault) => Err(fault),
    }
}

/// Passes over what stands before the condition.
fn pass_front(
    alloc: Global,
    words: &Words,
    context: &Context,
    vars: &mut Vars,
    raw: &RawStatement,
) -> Result<(), StatementFault>
    requires kind { raw.now.kind ≢ Kind.Definition }
    requires none { vars.old ≡ [] }
    ensures front { OnOk result (FrontReads words.now context.now raw.now vars.new) }
    ensures small { OnOk result (length vars.new ≤ 2000) }
    ensures fault { IfErr result (IfFault (PartsUnread words.now context.now raw.now)) }
{
    match raw.kind {
        StatementKind::Membership => pass_head(alloc, words, context, vars, raw),
        StatementKind::Equation => pass_sides(alloc, words, context, vars, raw),
        StatementKind::Rule => pass_sides(alloc, words, context, vars, raw),
        StatementKind::Definition => unreachable!(),
    }
}

/// Passes over a fragment, where there may be too many variables already. Once there are, they are not needed any more: what follows is
/// read behind other ones.
fn pass_fragment(
    alloc: Global,
    words: &Words,
    context: &Context,
    vars: &mut Vars,
    many: bool,
    raw: &RawFragment,
) -> Result<bool, StatementFault>
    requires few { length vars.old ≤ 2000 }
    ensures passed { IfOk result (λ more. (ns : Pairs) (raws : List FragmentOf) → ArePassed words.now context.now ns raws many vars.old
        → ArePassed words.now context.now ns (raws ++ raw.now ∷ []) more vars.new) }
    ensures few { OnOk result (length vars.new ≤ MAX_VARIABLES) }
    ensures fault { IfErr result (IfFault (λ f. IsNeverRead words.now context.now raw.now)) }
{
    match read_fragment(alloc, words, context, vars, raw) {
        Ok(_) => (),
        Err(fault) => return Err(fault),
    }
    if vars.len() > MAX_VARIABLES {
        *vars = Vars::new(alloc);
        return Ok(true);
    }
    Ok(many)
}

/// Whether a condition all of whose fragments are read behind these variables makes them too many.
fn has_many_behind(
    alloc: Global,
    words: &Words,
    context: &Context,
    vars: Vars,
    raws: &[RawFragment],
) -> Result<bool, StatementFault>
    requires few { length vars ≤ 2000 }
    ensures passed { IfOk result (λ many. (kept : Pairs) × ArePassed words.now context.now vars raws.now many kept) }
    ensures fault { IfErr result (IfFault (λ f. (e : FaultOf) × ConditionUnread words.now context.now vars raws.now e)) }
{
    let mut kept = vars;
    let mut many = kept.len() > MAX_VARIABLES;
    for raw in raws {
        many = match pass_fragment(alloc, words, context, &mut kept, many, raw) {
            Ok(more) => more,
            Err(fault) => return Err(fault),
        };
    }
    Ok(many)
}

/// Whether a statement all of whose parts are read has too many variables.
fn has_many_variables(
    alloc: Global,
    words: &Words,
    context: &Context,
    raw: &RawStatement,
) -> Result<bool, StatementFault>
    requires { raw.now.kind ≢ Kind.Definition }
    ensures passed { IfOk result (IsPassed words.now context.now raw.now) }
    ensures fault { IfErr result (IfFault (λ f. IsUnreadSomewhere words.now context.now raw.now)) }
{
    let mut vars = Vars::new(alloc);
    match pass_front(alloc, words, context, &mut vars, raw) {
        Ok(()) => (),
        Err(fault) => return Err(fault),
    }
    match has_many_behind(alloc, words, context, vars, raw.cond.items()) {
        Ok(many) => Ok(many),
        Err(fault) => Err(fault),
    }
}

/// What is told of the fault of a part: that there are too many fragments, but of want of memory itself.
fn told_of(fault: StatementFault) -> StatementFault
    ensures { result ≡ told_of fault }
{
    if matches!(fault, StatementFault::NoMemory) {
        fault
    } else {
        StatementFault::LimitExceeded(Limit::Fragments)
    }
}

/// Why a statement with too many fragments is refused.
pub fn long_fault(
    alloc: Global,
    words: &Words,
    context: &Context,
    raw: &RawStatement,
) -> StatementFault
    requires kind { raw.now.kind ≢ Kind.Definition }
    requires long { MAX_FRAGMENTS < length raw.now.cond }
    ensures { IfFault (λ f. StatementRead words.now context.now raw.now (Err f)) result }
{
    match has_many_variables(alloc, words, context, raw) {
        Ok(many) => {
            if many {
                StatementFault::LimitExceeded(Limit::Variables)
            } else {
                StatementFault::LimitExceeded(Limit::Fragments)
            }
        }
        Err(fault) => told_of(fault),
    }
}
