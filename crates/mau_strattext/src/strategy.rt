//! Reading a strategy.
ghost use Rattle.std.specs.Prelude.{◌≡◌, ◌⊎◌, ◌<◌, ◌≤◌, ◌+◌, false, true, length, take, All, IfOk, IfErr, OnOk, OnErr, Ok, Err};
ghost use Rattle.mau_shapes.specs.Shape.{Shape, IsTextOf};
ghost use Rattle.mau_shapes.specs.Front.{IsUnexpected};
ghost use Rattle.mau_shapes.specs.Pieces;
ghost use Rattle.mau_shapes.specs.Reading.{ArePiecesOf, words_of};
ghost use Rattle.mau_tokens.specs.Spans.{AreSpans};
ghost use Rattle.mau_statement.specs.Parts.{Pairs, is_empty as has_no_words};
ghost use Rattle.mau_strattext.specs.Setting as Over;
ghost use Rattle.mau_strattext.specs.Setting.{texts, HasSorts, setting_of};
ghost use Rattle.mau_strattext.specs.Reads.{ShapeReads};
ghost use Rattle.mau_strattext.specs.Faults.{FirstFault};
ghost use Rattle.mau_strattext.specs.Lawful.{IsTyped};
ghost use Rattle.mau_strattext.specs.Strategies;
ghost use Rattle.mau_strattext.specs.Strategies.{IfTold, StrategyRead, IsFirstUnexpected, IsBeforeUnexpected};

use crate::build::build;
use crate::fault::StratFault;
use crate::setting::Setting;
use crate::stack::pop;
use mau_declare::Words;
use mau_program::{StratDecl, Strategy};
use mau_shapes::{Piece, ShapeFault, pieces_before, read_shape};
use mau_statement::Context;
use mau_terms::{NoMemory, Text, Vars};
use mau_tokens::Token;
use std::alloc::Global;

/// The greatest number of words of a strategy.
const MOST_WORDS: usize = 1000;

/// The greatest number of variables that are numbered.
const MAX_VARIABLES: usize = 4_294_967_295;

/// Variables with the same names and sorts. More than can be numbered don't fit into memory.
fn copy_variables(alloc: Global, vars: &Vars) -> Result<Vars, NoMemory>
    ensures { IfOk result (λ copy. copy ≡ vars.now) }
{
    let mut copy = Vars::new(alloc);
    if vars.len() >= MAX_VARIABLES {
        return Err(NoMemory);
    }
    for index in 0..vars.len() as u32 {
        copy_variable(vars, index, &mut copy)?;
    }
    Ok(copy)
}

/// Adds the variable with a number, of which those before it are there.
fn copy_variable(vars: &Vars, index: u32, copy: &mut Vars) -> Result<(), NoMemory>
    requires there { index < length vars.now }
    requires room { length copy.old < 4294967295 }
    requires before { copy.old ≡ take index vars.now }
    ensures more { OnOk result (copy.new ≡ take (index + 1) vars.now) }
{
    match vars.variable(index) {
        Some(variable) => match vars.get(variable) {
            Some((name, sort)) => {
                copy.add(name, sort)?;
                Ok(())
            }
            None => unreachable!(),
        },
        None => unreachable!(),
    }
}

/// Where the fault of names and terms stands.
fn fault_place(fault: &StratFault) -> u32
    ensures { result ≡ Strategies.fault_place fault.now }
{
    match fault {
        StratFault::TooManyTokens(_) => 0,
        StratFault::Unexpected(at) => *at,
        StratFault::UnknownName(at) => *at,
        StratFault::Parse(at, _) => *at,
        StratFault::Arity(at) => *at,
        StratFault::NoMemory => 0,
    }
}

/// The strategy that the pieces of a shape are.
fn read_whole(
    alloc: Global,
    setting: &Setting,
    vars: &mut Vars,
    pieces: &[Piece],
) -> Result<Strategy, StratFault>
    requires sorts { All (HasSorts setting.now.context.signature.hierarchy) setting.now.names }
    requires whole { ArePiecesOf (texts setting.now) pieces.now }
    ensures reads { IfOk result (λ x. (e : Shape) × IsTextOf (texts setting.now) e × ShapeReads setting.now false 0 e vars.old vars.new x) }
    ensures typed { IfOk result (IsTyped setting.now.context.signature) }
    ensures fault { IfErr result (IfTold (λ f. (e : Shape) × IsTextOf (texts setting.now) e × FirstFault setting.now false (Pieces.pieces 0 e) vars.old f)) }
{
    match build(alloc, setting, vars, pieces) {
        Ok(Some(mut stack)) => pop(&mut stack),
        Ok(None) => Err(StratFault::NoMemory),
        Err(fault) => Err(fault),
    }
}

/// The first fault of a strategy with an unexpected word, where a name or a term is at fault.
fn earlier_fault(setting: &Setting, place: usize, fault: StratFault) -> StratFault
    ensures { result ≡ Strategies.earlier (Over.start_at setting.now place) fault }
{
    if matches!(fault, StratFault::NoMemory) || fault_place(&fault) < setting.start(place) {
        fault
    } else {
        StratFault::Unexpected(setting.start(place))
    }
}

/// The first fault of words one of which is unexpected.
fn first_fault(
    alloc: Global,
    setting: &Setting,
    vars: &mut Vars,
    text: &str,
    tokens: &[Token],
    place: usize,
) -> StratFault
    requires sorts { All (HasSorts setting.now.context.signature.hierarchy) setting.now.names }
    requires spans { AreSpans text.now tokens.now }
    requires words { words_of text.now tokens.now ≡ texts setting.now }
    requires unexpected { IsUnexpected (texts setting.now) place }
    ensures { IfTold (λ f. IsBeforeUnexpected setting.now vars.old f ⊎ (IsFirstUnexpected setting.now vars.old place × (f ≡ StratFault.Unexpected (Over.start_at setting.now place)))) result }
{
    match pieces_before(alloc, text, tokens) {
        Ok(pieces) => match build(alloc, setting, vars, pieces.items()) {
            Ok(Some(_)) => StratFault::Unexpected(setting.start(place)),
            Ok(None) => StratFault::Unexpected(setting.start(place)),
            Err(fault) => earlier_fault(setting, place, fault),
        },
        Err(_) => StratFault::NoMemory,
    }
}

/// The strategy that the words are, not too many and one at least.
fn read_few(
    alloc: Global,
    setting: &Setting,
    vars: &mut Vars,
    text: &str,
    tokens: &[Token],
) -> Result<Strategy, StratFault>
    requires sorts { All (HasSorts setting.now.context.signature.hierarchy) setting.now.names }
    requires spans { AreSpans text.now tokens.now }
    requires words { words_of text.now tokens.now ≡ texts setting.now }
    requires some { 0 < length tokens.now }
    requires few { length setting.now.words ≤ 1000 }
    ensures read { IfOk result (λ x. StrategyRead setting.now vars.old vars.new (Ok x)) }
    ensures typed { IfOk result (IsTyped setting.now.context.signature) }
    ensures fault { IfErr result (IfTold (λ f. (os : Pairs) → StrategyRead setting.now vars.old os (Err f))) }
{
    match read_shape(alloc, text, tokens) {
        Ok(pieces) => read_whole(alloc, setting, vars, pieces.items()),
        Err(ShapeFault::Unexpected(place)) => Err(first_fault(
            alloc, setting, vars, text, tokens, place,
        )),
        Err(ShapeFault::NoMemory) => Err(StratFault::NoMemory),
    }
}

/// The strategy that the words are, one at least.
fn read_words(
    alloc: Global,
    setting: &Setting,
    vars: &mut Vars,
    text: &str,
    tokens: &[Token],
) -> Result<Strategy, StratFault>
    requires sorts { All (HasSorts setting.now.context.signature.hierarchy) setting.now.names }
    requires spans { AreSpans text.now tokens.now }
    requires words { words_of text.now tokens.now ≡ texts setting.now }
    requires count { length tokens.now ≡ length setting.now.words }
    requires some { 0 < length tokens.now }
    ensures read { IfOk result (λ x. StrategyRead setting.now vars.old vars.new (Ok x)) }
    ensures typed { IfOk result (IsTyped setting.now.context.signature) }
    ensures fault { IfErr result (IfTold (λ f. (os : Pairs) → StrategyRead setting.now vars.old os (Err f))) }
{
    if tokens.len() > MOST_WORDS {
        Err(StratFault::TooManyTokens(tokens.len()))
    } else {
        read_few(alloc, setting, vars, text, tokens)
    }
}

/// The strategy that tokens of a text are, over a signature with its grammar, the labels of rules, and the strategies that are declared;
/// or why they are none. The variables of its terms are added to the others; after a fault these are as before.
pub fn read_strategy(
    alloc: Global,
    words: &Words,
    context: &Context,
    labels: &[Text],
    names: &[StratDecl],
    vars: &mut Vars,
    tokens: &[Token],
) -> Result<Strategy, StratFault>
    requires some { has_no_words words.now tokens.now ≡ false }
    requires sorts { All (HasSorts context.now.signature.hierarchy) names.now }
    ensures read { IfOk result (λ x. StrategyRead (setting_of words.now tokens.now context.now labels.now names.now) vars.old vars.new (Ok x)) }
    ensures typed { IfOk result (IsTyped context.now.signature) }
    ensures fault { IfErr result (IfTold (λ f. StrategyRead (setting_of words.now tokens.now context.now labels.now names.now) vars.old vars.old (Err f))) }
    ensures unchanged { OnErr result (vars.new ≡ vars.old) }
{
    let (text, tokens) = words.part(words.first_index(tokens), tokens.len());
    let words = Words::new(text, tokens);
    let setting = Setting {
        words: &words,
        context,
        labels,
        names,
    };
    let mut own = copy_variables(alloc, vars)?;
    match read_words(alloc, &setting, &mut own, text, tokens) {
        Ok(strategy) => {
            *vars = own;
            Ok(strategy)
        }
        Err(fault) => Err(fault),
    }
}
