//! Strategies without strategies in them.
ghost use Rattle.std.specs.Prelude.{◌≡◌, ℕ, ◌+◌, ◌-◌, List, [], false, true, All, IfOk, IfErr, IfSome, length};
ghost use Rattle.mau_signature.specs.Faults.{IsSort};
ghost use Rattle.mau_program.specs.declared.definitions.StratDecl.{StratDecl as Decl};
ghost use Rattle.mau_shapes.specs.declared.pieces.Piece.{Piece as One};
ghost use Rattle.mau_shapes.specs.declared.pieces.Piece.TheVariants as Pieces;
ghost use Rattle.mau_statement.specs.Parts.{Pairs};
ghost use Rattle.mau_strattext.specs.Setting.{word_at, is_form, HasSorts};
ghost use Rattle.mau_program.specs.Trees.{label, call};
ghost use Rattle.mau_strattext.specs.Reads;
ghost use Rattle.mau_strattext.specs.Reads.{LeafReads};
ghost use Rattle.mau_strattext.specs.Faults.{LeafFault};
ghost use Rattle.mau_strattext.specs.Setting as Over;
ghost use Rattle.mau_strattext.specs.Faults as Wrong;
ghost use Rattle.mau_strattext.specs.Lawful.{IsTyped};
ghost use Rattle.mau_strattext.specs.Strategies.{IfTold};
ghost use Rattle.mau_strattext.specs.Building.{LeafAnswer, TestReads, TestFault};

use crate::arguments::{are_closed, read_arguments};
use crate::fault::StratFault;
use crate::fragments::read_fragments;
use crate::setting::{Setting, unexpected_behind};
use crate::term::read_part;
use crate::uses::read_uses;
use mau_parse::Goal;
use mau_program::{Assign, Strategy, StrategyForm, TestKind};
use mau_shapes::{Part, Piece};
use mau_terms::{Args, NoMemory, Seq, Text, Vars};
use std::alloc::Global;

/// A label with values of variables, as a strategy.
fn label_of(alloc: Global, name: &str, uses: Seq<Assign>) -> Result<Strategy, NoMemory>
    ensures { IfOk result (λ x. x ≡ label name.now uses) }
{
    match Text::new(alloc, name) {
        Ok(name) => Ok(Strategy::new(StrategyForm::Label(name, uses))),
        Err(fault) => Err(fault),
    }
}

/// A label by itself.
fn plain_label(alloc: Global, name: &str) -> Result<Strategy, NoMemory>
    ensures { IfOk result (λ x. x ≡ label name.now []) }
{
    label_of(alloc, name, Seq::new(Vec::new(alloc)))
}

/// A call, as a strategy.
fn call_of(alloc: Global, name: &str, args: Args) -> Result<Strategy, NoMemory>
    ensures { IfOk result (λ x. x ≡ call name.now args) }
{
    match Text::new(alloc, name) {
        Ok(name) => Ok(Strategy::new(StrategyForm::Call(name, args))),
        Err(fault) => Err(fault),
    }
}

/// A call without arguments.
fn plain_call(alloc: Global, name: &str) -> Result<Strategy, NoMemory>
    ensures { IfOk result (λ x. x ≡ call name.now []) }
{
    call_of(alloc, name, Args::new(Vec::new(alloc)))
}

/// The name of a declared strategy by itself.
fn read_declared(
    alloc: Global,
    setting: &Setting,
    under_top: bool,
    place: usize,
) -> Result<Strategy, StratFault>
    requires form { is_form (word_at setting.now place) ≡ false }
    requires declared { Over.is_declared setting.now (word_at setting.now place) ≡ true }
    ensures reads { IfOk result (λ x. (ns : Pairs) → LeafReads setting.now under_top (Pieces.Plain place) [] ns ns x) }
    ensures typed { IfOk result (IsTyped setting.now.context.signature) }
    ensures fault { IfErr result (IfTold (λ f. (ps : List One) (ns : Pairs) → LeafFault setting.now under_top (Pieces.Plain place) ps ns f)) }
{
    let name = setting.word(place);
    if under_top {
        return Err(StratFault::Unexpected(setting.start(place)));
    }
    match setting.declared(name, 0) {
        Some(_) => match plain_call(alloc, name) {
            Ok(strategy) => Ok(strategy),
            Err(_) => Err(StratFault::NoMemory),
        },
        None => Err(StratFault::Arity(setting.start(place))),
    }
}

/// A name by itself, which is no form.
fn read_name(
    alloc: Global,
    setting: &Setting,
    under_top: bool,
    place: usize,
) -> Result<Strategy, StratFault>
    requires { is_form (word_at setting.now place) ≡ false }
    ensures reads { IfOk result (λ x. (ns : Pairs) → LeafReads setting.now under_top (Pieces.Plain place) [] ns ns x) }
    ensures typed { IfOk result (IsTyped setting.now.context.signature) }
    ensures fault { IfErr result (IfTold (λ f. (ps : List One) (ns : Pairs) → LeafFault setting.now under_top (Pieces.Plain place) ps ns f)) }
{
    let name = setting.word(place);
    if setting.is_declared(name) {
        return read_declared(alloc, setting, under_top, place);
    }
    if setting.is_label(name) {
        return match plain_label(alloc, name) {
            Ok(strategy) => Ok(strategy),
            Err(_) => Err(StratFault::NoMemory),
        };
    }
    Err(StratFault::UnknownName(setting.start(place)))
}

/// A word by itself.
fn read_plain(
    alloc: Global,
    setting: &Setting,
    under_top: bool,
    place: usize,
) -> Result<Strategy, StratFault>
    ensures reads { IfOk result (λ x. (ns : Pairs) → LeafReads setting.now under_top (Pieces.Plain place) [] ns ns x) }
    ensures typed { IfOk result (IsTyped setting.now.context.signature) }
    ensures fault { IfErr result (IfTold (λ f. (ps : List One) (ns : Pairs) → LeafFault setting.now under_top (Pieces.Plain place) ps ns f)) }
{
    match setting.word(place) {
        "idle" => Ok(Strategy::new(StrategyForm::Idle)),
        "fail" => Ok(Strategy::new(StrategyForm::Fail)),
        "all" => Ok(Strategy::new(StrategyForm::All)),
        _ => read_name(alloc, setting, under_top, place),
    }
}

/// A label of rules with values of variables; nothing, where the last value is missing.
fn read_values(
    alloc: Global,
    setting: &Setting,
    vars: &mut Vars,
    under_top: bool,
    place: usize,
    pieces: &[Piece],
) -> Result<Option<Strategy>, StratFault>
    requires { Over.is_label setting.now (word_at setting.now place) ≡ true }
    ensures answer { LeafAnswer setting.now under_top (Pieces.Label place) pieces.now vars.old vars.new result }
    ensures typed { IfOk result (λ o. IfSome o (IsTyped setting.now.context.signature)) }
{
    match read_uses(alloc, setting, vars, pieces) {
        Ok(Some(uses)) => match label_of(alloc, setting.word(place), uses) {
            Ok(strategy) => Ok(Some(strategy)),
            Err(_) => Err(StratFault::NoMemory),
        },
        Ok(None) => Ok(None),
        Err(fault) => Err(fault),
    }
}

/// A label with values of variables; nothing, where the last value is missing.
fn read_label(
    alloc: Global,
    setting: &Setting,
    vars: &mut Vars,
    under_top: bool,
    place: usize,
    pieces: &[Piece],
) -> Result<Option<Strategy>, StratFault>
    ensures answer { LeafAnswer setting.now under_top (Pieces.Label place) pieces.now vars.old vars.new result }
    ensures typed { IfOk result (λ o. IfSome o (IsTyped setting.now.context.signature)) }
{
    let name = setting.word(place);
    if setting.is_declared(name) {
        return Err(unexpected_behind(setting, place));
    }
    if setting.is_label(name) {
        return read_values(alloc, setting, vars, under_top, place, pieces);
    }
    Err(StratFault::UnknownName(setting.start(place)))
}

/// A call of a declared strategy with its closing bracket.
fn read_closed(
    alloc: Global,
    setting: &Setting,
    vars: &mut Vars,
    under_top: bool,
    place: usize,
    pieces: &[Piece],
) -> Result<Option<Strategy>, StratFault>
    requires declared { Over.is_declared setting.now (word_at setting.now place) ≡ true }
    requires closed { Wrong.are_closed pieces.now ≡ true }
    requires sorts { All (HasSorts setting.now.context.signature.hierarchy) setting.now.names }
    ensures answer { LeafAnswer setting.now under_top (Pieces.Call place) pieces.now vars.old vars.new result }
    ensures typed { IfOk result (λ o. IfSome o (IsTyped setting.now.context.signature)) }
{
    let name = setting.word(place);
    match setting.declared(name, pieces.len().saturating_sub(1)) {
        Some(decl) => {
            match read_arguments(alloc, setting, vars, decl.args.items(), pieces) {
                Ok(args) => match call_of(alloc, name, args) {
                    Ok(strategy) => Ok(Some(strategy)),
                    Err(_) => Err(StratFault::NoMemory),
                },
                Err(fault) => Err(fault),
            }
        }
        None => Err(StratFault::Arity(setting.start(place))),
    }
}

/// A call; nothing, where its closing bracket is missing.
fn read_call(
    alloc: Global,
    setting: &Setting,
    vars: &mut Vars,
    under_top: bool,
    place: usize,
    pieces: &[Piece],
) -> Result<Option<Strategy>, StratFault>
    requires sorts { All (HasSorts setting.now.context.signature.hierarchy) setting.now.names }
    ensures answer { LeafAnswer setting.now under_top (Pieces.Call place) pieces.now vars.old vars.new result }
    ensures typed { IfOk result (λ o. IfSome o (IsTyped setting.now.context.signature)) }
{
    let name = setting.word(place);
    if setting.is_declared(name) {
        if are_closed(pieces) {
            return read_closed(alloc, setting, vars, under_top, place, pieces);
        }
        return Ok(None);
    }
    if setting.is_label(name) {
        return Err(unexpected_behind(setting, place));
    }
    Err(StratFault::UnknownName(setting.start(place)))
}

/// The word of a test.
fn test_kind(word: &str) -> Option<TestKind>
    ensures { result ≡ Reads.test_kind word.now }
{
    match word {
        "match" => Some(TestKind::Match),
        "xmatch" => Some(TestKind::Xmatch),
        "amatch" => Some(TestKind::Amatch),
        _ => None,
    }
}

/// The part of a pattern.
fn pattern(piece: Piece) -> Option<Part>
    ensures { IfSome result (λ p. piece ≡ Pieces.Pattern p) }
{
    match piece {
        Piece::Pattern(part) => Some(part),
        _ => None,
    }
}

/// A test of this kind with a pattern and a condition.
fn read_condition_of(
    alloc: Global,
    setting: &Setting,
    vars: &mut Vars,
    kind: TestKind,
    part: Part,
    fragments: &[Piece],
) -> Result<Strategy, StratFault>
    ensures reads { IfOk result (TestReads setting.now kind part fragments.now vars.old vars.new) }
    ensures typed { IfOk result (IsTyped setting.now.context.signature) }
    ensures fault { IfErr result (IfTold (TestFault setting.now part fragments.now vars.old)) }
{
    match read_part(alloc, setting, vars, Goal::AnyKind, part) {
        Ok(pattern) => match read_fragments(alloc, setting, vars, fragments) {
            Ok(cond) => Ok(Strategy::new(StrategyForm::Test(kind, pattern, cond))),
            Err(fault) => Err(fault),
        },
        Err(fault) => Err(fault),
    }
}

/// A test; nothing, where its pattern is missing.
fn read_test(
    alloc: Global,
    setting: &Setting,
    vars: &mut Vars,
    under_top: bool,
    place: usize,
    pieces: &[Piece],
) -> Result<Option<Strategy>, StratFault>
    ensures answer { LeafAnswer setting.now under_top (Pieces.Test place) pieces.now vars.old vars.new result }
    ensures typed { IfOk result (λ o. IfSome o (IsTyped setting.now.context.signature)) }
{
    match (test_kind(setting.word(place)), pieces.split_first()) {
        (Some(kind), Some((first, more))) => match pattern(*first) {
            Some(part) => match read_condition_of(alloc, setting, vars, kind, part, more) {
                Ok(test) => Ok(Some(test)),
                Err(fault) => Err(fault),
            },
            None => Err(StratFault::NoMemory),
        },
        (Some(_), None) => Ok(None),
        (None, _) => Err(StratFault::NoMemory),
    }
}

/// A word by itself, which nothing may stand behind.
fn read_alone(
    alloc: Global,
    setting: &Setting,
    under_top: bool,
    place: usize,
    inner: &[Piece],
) -> Result<Option<Strategy>, StratFault>
    ensures answer { (ns : Pairs) → LeafAnswer setting.now under_top (Pieces.Plain place) inner.now ns ns result }
    ensures typed { IfOk result (λ o. IfSome o (IsTyped setting.now.context.signature)) }
{
    match read_plain(alloc, setting, under_top, place) {
        Ok(strategy) => {
            if inner.is_empty() {
                Ok(Some(strategy))
            } else {
                Err(StratFault::NoMemory)
            }
        }
        Err(fault) => Err(fault),
    }
}

/// A word and what stands behind it; nothing, where something is missing there.
pub fn read_leaf(
    alloc: Global,
    setting: &Setting,
    vars: &mut Vars,
    under_top: bool,
    piece: Piece,
    inner: &[Piece],
) -> Result<Option<Strategy>, StratFault>
    requires sorts { All (HasSorts setting.now.context.signature.hierarchy) setting.now.names }
    ensures answer { LeafAnswer setting.now under_top piece inner.now vars.old vars.new result }
    ensures typed { IfOk result (λ o. IfSome o (IsTyped setting.now.context.signature)) }
{
    match piece {
        Piece::Plain(place) => read_alone(alloc, setting, under_top, place, inner),
        Piece::Label(place) => read_label(alloc, setting, vars, under_top, place, inner),
        Piece::Call(place) => read_call(alloc, setting, vars, under_top, place, inner),
        Piece::Test(place) => read_test(alloc, setting, vars, under_top, place, inner),
        _ => Err(StratFault::NoMemory),
    }
}
