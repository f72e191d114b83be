//! The call that a definition defines.
ghost use Rattle.std.specs.Prelude.{◌≡◌, ◌<◌, ◌≤◌, [], length, false, All, Ok, Err, None, IfOk, IfErr, IfSome, MatchOption};
ghost use Rattle.mau_tokens.specs.Spans.{AreSpans};
ghost use Rattle.mau_modtext.specs.Words.{words_of};
ghost use Rattle.mau_terms.specs.Bare.{IsBare};
ghost use Rattle.mau_signature.specs.Signature.{terms_over};
ghost use Rattle.mau_shapes.specs.Words.{beginning};
ghost use Rattle.mau_program.specs.Trees;
ghost use Rattle.mau_declare.specs.Words.{place_at};
ghost use Rattle.mau_statement.specs.Parts.{Pairs, part_words, begin_of, is_empty};
ghost use Rattle.mau_strattext.specs.Lawful.{IsTyped};
ghost use Rattle.mau_strattext.specs.Setting.{HasSorts, setting_of};
ghost use Rattle.mau_strattext.specs.Strategies.{IfTold, StrategyRead};
ghost use Rattle.mau_definition.specs.Calls;
ghost use Rattle.mau_definition.specs.Calls.{CallRead};

use mau_declare::Words;
use mau_program::{StratDecl, Strategy, StrategyForm};
use mau_shapes::{Beginning, beginning_of};
use mau_statement::{Context, is_empty};
use mau_strattext::{StratFault, closing, read_strategy};
use mau_terms::{Args, NoMemory, Text, Vars};
use mau_tokens::Token;
use std::alloc::Global;

/// A call: the name of a strategy, and its arguments.
#[derive(Drop)]
pub struct Call {
    pub name: Text,
    pub args: Args,
}

/// Whether a word names a strategy where `(` stands behind it.
fn is_name(word: &str) -> bool
    ensures { result ≡ Calls.is_name (beginning word.now) }
{
    matches!(beginning_of(word), Beginning::Name)
}

/// How many words the parentheses have with which the words begin; all, where they are not closed.
fn pair_size(text: &str, tokens: &[Token]) -> usize
    requires { AreSpans text.now tokens.now }
    ensures value { result ≡ Calls.pair_size (words_of text.now tokens.now) }
    ensures within { result ≤ length tokens.now }
{
    match closing(&Words::new(text, tokens), tokens.len()) {
        Some(end) => end + 1,
        None => tokens.len(),
    }
}

/// How many words the call has with which the words begin.
fn call_size(text: &str, tokens: &[Token]) -> usize
    requires { AreSpans text.now tokens.now }
    ensures { result ≡ Calls.call_size (words_of text.now tokens.now) }
{
    let words = Words::new(text, tokens);
    if tokens.len() > 1 && is_name(words.text(0)) && words.is(1, "(") {
        pair_size(text, &tokens[1..]) + 1
    } else {
        1
    }
}

/// The tokens of the call with which some tokens begin, and how many words it has.
fn call_tokens<'a>(words: &Words, tokens: &'a [Token]) -> (&'a [Token], usize)
    ensures tokens { result.0.now ≡ Calls.call_tokens words.now tokens.now }
    ensures size { result.1 ≡ Calls.call_size (part_words words.now tokens.now) }
{
    let (text, part) = words.part(words.first_index(tokens), tokens.len());
    let size = call_size(text, part);
    if size < tokens.len() {
        (&tokens[..size], size)
    } else {
        (tokens, size)
    }
}

/// The place of the word behind a call of so many words, where one stands behind it.
fn word_behind(words: &Words, tokens: &[Token], size: usize) -> Option<u32>
    ensures some { IfSome result (λ at. (size < length (part_words words.now tokens.now)) × (at ≡ place_at (part_words words.now tokens.now) size)) }
    ensures none { result ≡ None → length (part_words words.now tokens.now) ≤ size }
{
    let (text, part) = words.part(words.first_index(tokens), tokens.len());
    if size < part.len() {
        Some(Words::new(text, part).place(size))
    } else {
        None
    }
}

/// A call, where a strategy is one.
fn as_call(alloc: Global, strategy: &Strategy) -> Result<Option<Call>, NoMemory>
    ensures call { IfOk result (λ o. MatchOption o (Calls.is_call strategy.now ≡ false) (λ x. strategy.now ≡ Trees.call x.name x.args)) }
{
    match strategy.form() {
        StrategyForm::Call(name, args) => Ok(Some(Call {
            name: name.copy(alloc)?,
            args: args.copy(alloc)?,
        })),
        _ => Ok(None),
    }
}

/// The fault of the first word.
fn first_word(words: &Words, tokens: &[Token]) -> StratFault
    ensures { result ≡ StratFault.Unexpected (begin_of words.now tokens.now) }
{
    StratFault::Unexpected(words.place(words.first_index(tokens)))
}

/// The strategy that the words of a call are, over no labels.
fn read_front(
    alloc: Global,
    words: &Words,
    context: &Context,
    names: &[StratDecl],
    vars: &mut Vars,
    tokens: &[Token],
) -> Result<Strategy, StratFault>
    requires some { is_empty words.now tokens.now ≡ false }
    requires sorts { All (HasSorts context.now.signature.hierarchy) names.now }
    ensures read { IfOk result (λ x. StrategyRead (setting_of words.now tokens.now context.now [] names.now) vars.old vars.new (Ok x)) }
    ensures typed { IfOk result (IsTyped context.now.signature) }
    ensures fault { IfErr result (IfTold (λ f. (os : Pairs) → StrategyRead (setting_of words.now tokens.now context.now [] names.now) vars.old os (Err f))) }
{
    let labels = Vec::new(alloc);
    read_strategy(alloc, words, context, &labels, names, vars, tokens)
}

/// The call that tokens are, over a signature with its grammar and the strategies that are declared; or why they are none.
pub fn read_call(
    alloc: Global,
    words: &Words,
    context: &Context,
    names: &[StratDecl],
    vars: &mut Vars,
    tokens: &[Token],
) -> Result<Call, StratFault>
    requires sorts { All (HasSorts context.now.signature.hierarchy) names.now }
    ensures read { IfOk result (λ x. CallRead words.now context.now names.now tokens.now vars.old vars.new (Ok x)) }
    ensures bare { IfOk result (λ x. All (IsBare (terms_over context.now.signature)) x.args) }
    ensures fault { IfErr result (IfTold (λ f. (os : Pairs) → CallRead words.now context.now names.now tokens.now vars.old os (Err f))) }
{
    let (front, size) = call_tokens(words, tokens);
    if is_empty(words, front) {
        return Err(first_word(words, tokens));
    }
    let strategy = match read_front(alloc, words, context, names, vars, front) {
        Ok(strategy) => strategy,
        Err(fault) => return Err(fault),
    };
    match as_call(alloc, &strategy) {
        Ok(Some(call)) => match word_behind(words, tokens, size) {
            Some(at) => Err(StratFault::Unexpected(at)),
            None => Ok(call),
        },
        Ok(None) => Err(first_word(words, tokens)),
        Err(NoMemory) => Err(StratFault::NoMemory),
    }
}
