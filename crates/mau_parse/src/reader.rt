//! The reader of terms.
ghost use Rattle.std.specs.Prelude.{◌≡◌, ◌<◌, ◌≤◌, ◌+◌, length, IsSome, IfSome, IfNone, IfOk, IfErr, OnErr};
ghost use Rattle.mau_tokens.specs.Spans.{AreSpans};
ghost use Rattle.mau_parse.specs.Laws.{IsBareFor};
ghost use Rattle.mau_parse.specs.Parsed.{IsReadable, IsParsed, IsTreeFault, IsFault};
ghost use Rattle.mau_parse.specs.TooLarge.{IsFirstTooLarge, AllSmall};
ghost use Rattle.mau_parse.specs.Words.{texts_of};

use crate::fault::ParseFault;
use crate::goals::Goal;
use crate::numerals::first_too_large;
use crate::results::{one_term, two_terms};
use crate::trees::{Parses, find};
use crate::words::Words;
use mau_grammar::Grammar;
use mau_terms::{Bare, Vars};
use mau_tokens::Token;
use std::alloc::Global;

/// The greatest number of words of a term.
const MAX_WORDS: usize = 1000;

/// Where there are numerals, the place of the first that is too large.
fn first_large(grammar: &Grammar, words: &Words) -> Option<usize>
    ensures numerals { IfSome result (λ _. IsSome grammar.now.numerals) }
    ensures first { IfSome result (IsFirstTooLarge words.now) }
    ensures none { IfNone result (AllSmall grammar.now.numerals words.now) }
{
    match grammar.numerals() {
        None => None,
        Some(_) => first_too_large(words),
    }
}

/// The term that the words are, which are few and have no numeral that is too large.
fn read_words(
    alloc: Global,
    grammar: &Grammar,
    vars: &mut Vars,
    goal: Goal,
    words: &Words,
    at: u32,
) -> Result<Bare, ParseFault>
    requires readable { IsReadable grammar.now words.now }
    requires room { length vars.old < 4000000000 }
    ensures term { IfOk result (IsParsed grammar.now words.now goal vars.old vars.new) }
    ensures few { length vars.new ≤ length vars.old + length words.now }
    ensures fault { IfErr result (IsTreeFault grammar.now words.now goal vars.old at) }
    ensures unchanged { OnErr result (vars.new ≡ vars.old) }
{
    let (trees, pairs, found) = find(alloc, grammar, words, goal)?;
    match found {
        Parses::Nothing => Err(ParseFault::NoParse(at)),
        Parses::One(id) => one_term(alloc, grammar, &trees, id, &pairs, vars, at),
        Parses::Two(first, second) => {
            let (one, other) = two_terms(alloc, &trees, first, second, &pairs, vars)?;
            Err(ParseFault::Ambiguous(at, one, other))
        }
    }
}

/// The term that the tokens of a text are in the kinds that are asked for, by the forms of the grammar: the term of their one tree. Its
/// variables are added to those of the item by their first occurrence in the tokens.
///
/// The answer is a fault where the tokens are more than 1,000; or else where there are numerals and one is 2^128 or more; or else
/// where they have no tree, or two different trees; or else where the one tree has the successor directly over the greatest
/// numeral. After a fault the variables of the item are as they were.
pub fn parse(
    alloc: Global,
    grammar: &Grammar,
    vars: &mut Vars,
    goal: Goal,
    text: &str,
    tokens: &[Token],
) -> Result<Bare, ParseFault>
    requires spans { AreSpans text.now tokens.now }
    requires some { 0 < length tokens.now }
    requires room { length vars.old < 4000000000 }
    ensures term { IfOk result (IsParsed grammar.now (texts_of text.now tokens.now) goal vars.old vars.new) }
    ensures bare { IfOk result (IsBareFor grammar.now goal) }
    ensures few { length vars.new ≤ length vars.old + length tokens.now }
    ensures fault { IfErr result (IsFault grammar.now tokens.now (texts_of text.now tokens.now) goal vars.old) }
    ensures unchanged { OnErr result (vars.new ≡ vars.old) }
{
    let words = Words::new(text, tokens);
    let count = words.len();
    if count > MAX_WORDS {
        return Err(ParseFault::TooManyTokens(count));
    }
    if let Some(i) = first_large(grammar, &words) {
        return Err(ParseFault::NumberTooLarge(tokens[i].start));
    }
    read_words(alloc, grammar, vars, goal, &words, tokens[0].start)
}
