//! Reading the fragments of a condition.
ghost use Rattle.std.specs.Prelude.{◌≡◌, ◌<◌, ◌≤◌, ◌+◌, ◌*◌, length, All, IfOk, IfErr, OnOk};
ghost use Rattle.mau_terms.specs.Bare.{IsBare, IsBareIn};
ghost use Rattle.mau_statement.specs.Context.{constant, terms_in};
ghost use Rattle.mau_statement.specs.Conditions.{FragmentReads, FragmentUnread, ConditionReads, ConditionUnread};
ghost use Rattle.mau_statement.specs.Faults.{IfFault};
ghost use Rattle.mau_program.specs.LawfulStatements.{IsLawfulFragment};
ghost use Rattle.mau_modtext.specs.declared.raw.FragmentKind.TheVariants as Sign;

use crate::context::Context;
use crate::fault::StatementFault;
use crate::part::{no_term, read_pair, read_part, sort_named, unknown_sort};
use mau_declare::Words;
use mau_modtext::{FragmentKind, RawFragment};
use mau_parse::Goal;
use mau_program::Fragment;
use mau_terms::{Args, Bare, OpId, Seq, Vars};
use std::alloc::Global;

/// The kind of the truth values.
fn kind_of_truth(context: &Context, truth: OpId) -> u32
    requires { IsBare (terms_in context.now) (constant truth) }
    ensures bare { IsBareIn (terms_in context.now) (constant truth) result }
    ensures below { result < context.now.grammar.last_kind }
{
    context.signature().result_kind(truth)
}

/// A fragment that says that a term has a sort.
fn read_sort_test(
    alloc: Global,
    words: &Words,
    context: &Context,
    vars: &mut Vars,
    raw: &RawFragment,
) -> Result<Fragment, StatementFault>
    requires sign { raw.now.kind ≡ Sign.Sort }
    requires room { length vars.old < 3999990000 }
    ensures fragment { IfOk result (FragmentReads words.now context.now raw.now vars.old vars.new) }
    ensures lawful { IfOk result (IsLawfulFragment context.now.signature) }
    ensures small { OnOk result (length vars.new ≤ length vars.old + 2000) }
    ensures fault { IfErr result (IfFault (FragmentUnread words.now context.now raw.now vars.old)) }
{
    let term = read_part(alloc, words, context, vars, Goal::AnyKind, raw.left.items())?;
    match sort_named(words, context, raw.right.items()) {
        Some(sort) => Ok(Fragment::Sort(term, sort)),
        None => Err(unknown_sort(words, raw.right.items())),
    }
}

/// A fragment that says that a term is true.
fn read_truth(
    alloc: Global,
    words: &Words,
    context: &Context,
    vars: &mut Vars,
    raw: &RawFragment,
) -> Result<Fragment, StatementFault>
    requires sign { raw.now.kind ≡ Sign.Bool }
    requires room { length vars.old < 3999990000 }
    ensures fragment { IfOk result (FragmentReads words.now context.now raw.now vars.old vars.new) }
    ensures lawful { IfOk result (IsLawfulFragment context.now.signature) }
    ensures small { OnOk result (length vars.new ≤ length vars.old + 2000) }
    ensures fault { IfErr result (IfFault (FragmentUnread words.now context.now raw.now vars.old)) }
{
    match context.truth() {
        Some(truth) => {
            let kind = Goal::Kind(kind_of_truth(context, truth));
            let term = read_part(alloc, words, context, vars, kind, raw.left.items())?;
            let truth = Bare::App(truth, Args::new(Vec::new(alloc)));
            Ok(Fragment::Equal(term, truth))
        }
        None => Err(no_term(words, raw.left.items())),
    }
}

/// What a fragment reads as. Its variables are added to the others.
pub fn read_fragment(
    alloc: Global,
    words: &Words,
    context: &Context,
    vars: &mut Vars,
    raw: &RawFragment,
) -> Result<Fragment, StatementFault>
    requires room { length vars.old < 3999990000 }
    ensures fragment { IfOk result (FragmentReads words.now context.now raw.now vars.old vars.new) }
    ensures lawful { IfOk result (IsLawfulFragment context.now.signature) }
    ensures small { OnOk result (length vars.new ≤ length vars.old + 2000) }
    ensures fault { IfErr result (IfFault (FragmentUnread words.now context.now raw.now vars.old)) }
{
    let left = raw.left.items();
    let right = raw.right.items();
    match raw.kind {
        FragmentKind::Equal => {
            let (term, other) = read_pair(alloc, words, context, vars, left, right)?;
            Ok(Fragment::Equal(term, other))
        }
        FragmentKind::Match => {
            let (subject, pattern) = read_pair(alloc, words, context, vars, right, left)?;
            Ok(Fragment::Match(pattern, subject))
        }
        FragmentKind::Reach => {
            let (start, end) = read_pair(alloc, words, context, vars, left, right)?;
            Ok(Fragment::Reach(start, end))
        }
        FragmentKind::Sort => read_sort_test(alloc, words, context, vars, raw),
        FragmentKind::Bool => read_truth(alloc, words, context, vars, raw),
    }
}

/// What fragments read as, whose variables can all be numbered.
pub fn read_fragments(
    alloc: Global,
    words: &Words,
    context: &Context,
    vars: &mut Vars,
    raws: &[RawFragment],
) -> Result<Seq<Fragment>, StatementFault>
    requires room { length vars.old + 2000 * length raws.now < 3999990000 }
    ensures condition { IfOk result (ConditionReads words.now context.now vars.old raws.now vars.new) }
    ensures lawful { IfOk result (All (IsLawfulFragment context.now.signature)) }
    ensures fault { IfErr result (IfFault (ConditionUnread words.now context.now vars.old raws.now)) }
{
    let mut fragments = Vec::new(alloc);
    for raw in raws {
        let fragment = read_fragment(alloc, words, context, vars, raw)?;
        fragments.push(fragment)?;
    }
    Ok(Seq::new(fragments))
}

/// The greatest number of fragments of a condition by itself, and of variables before it. No text of the greatest length has so many.
const MOST_FRAGMENTS: usize = 1_000_000;

const MOST_VARIABLES: usize = 1_000_000_000;

/// What a condition by itself reads as, however long it is. Where its variables might be more than can be numbered, that is want of memory.
pub fn read_condition(
    alloc: Global,
    words: &Words,
    context: &Context,
    vars: &mut Vars,
    raws: &[RawFragment],
) -> Result<Seq<Fragment>, StatementFault>
    ensures condition { IfOk result (ConditionReads words.now context.now vars.old raws.now vars.new) }
    ensures lawful { IfOk result (All (IsLawfulFragment context.now.signature)) }
    ensures fault { IfErr result (IfFault (ConditionUnread words.now context.now vars.old raws.now)) }
{
    if raws.len() > MOST_FRAGMENTS || vars.len() > MOST_VARIABLES {
        return Err(StatementFault::NoMemory);
    }
    read_fragments(alloc, words, context, vars, raws)
}
