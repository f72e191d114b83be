//! The terms and sorts that the tokens of a part are.
ghost use Rattle.std.specs.Prelude.{◌≡◌, ◌≤◌, ◌<◌, ◌+◌, map, length, false, IfOk, IfErr, OnOk, OnErr, IfSome};
ghost use Rattle.mau_tokens.specs.Laws.{text_of};
ghost use Rattle.mau_tokens.specs.Spans.{AreSpans};
ghost use Rattle.mau_parse.specs.Goal.{highest};
ghost use Rattle.mau_terms.specs.Bare.{IsBareIn};
ghost use Rattle.mau_terms.specs.View.{tree_of};
ghost use Rattle.mau_declare.specs.Names;
ghost use Rattle.mau_statement.specs.Context.{terms_in};
ghost use Rattle.mau_statement.specs.Faults.{IfFault};
ghost use Rattle.mau_program.specs.LawfulStatements.{AreOfOneKind};
ghost use Rattle.mau_statement.specs.Parts;
ghost use Rattle.mau_statement.specs.Parts.{part_tokens, part_texts, begin_of, TermReads, IsUnread, IsBareOf, PartUnread, LiesIn, PairReads, PairUnread};

use crate::context::Context;
use crate::fault::StatementFault;
use mau_declare::Words;
use mau_parse::{Goal, ParseFault, parse};
use mau_terms::{Bare, Vars};
use mau_tokens::Token;
use std::alloc::Global;

/// The text of the words, and those of its tokens that these are.
fn part<'a>(words: &Words<'a>, tokens: &[Token]) -> (&'a str, &'a [Token])
    ensures spans { AreSpans result.0.now result.1.now }
    ensures tokens { result.1.now ≡ part_tokens words.now tokens.now }
    ensures texts { map (text_of result.0.now) result.1.now ≡ part_texts words.now tokens.now }
{
    words.part(words.first_index(tokens), tokens.len())
}

/// Whether there is no token.
pub fn is_empty(words: &Words, tokens: &[Token]) -> bool
    ensures { result ≡ Parts.is_empty words.now tokens.now }
{
    let (_, tokens) = part(words, tokens);
    tokens.is_empty()
}

/// The place of the first token.
fn begin(words: &Words, tokens: &[Token]) -> u32
    ensures { result ≡ begin_of words.now tokens.now }
{
    words.place(words.first_index(tokens))
}

/// The term that tokens of the text are, in the kinds that are asked for. Its variables are added to the others.
pub fn read_term(
    alloc: Global,
    words: &Words,
    context: &Context,
    vars: &mut Vars,
    goal: Goal,
    tokens: &[Token],
) -> Result<Bare, ParseFault>
    requires some { Parts.is_empty words.now tokens.now ≡ false }
    requires room { length vars.old < 4000000000 }
    ensures term { IfOk result (TermReads words.now context.now.grammar tokens.now goal vars.old vars.new) }
    ensures bare { IfOk result (λ b. highest context.now.grammar goal ≤ context.now.grammar.last_kind → IsBareOf context.now goal b) }
    ensures few { length vars.new ≤ length vars.old + length words.now }
    ensures small { OnOk result (length vars.new ≤ length vars.old + 1000) }
    ensures fault { IfErr result (IsUnread words.now context.now.grammar tokens.now goal vars.old) }
    ensures unchanged { OnErr result (vars.new ≡ vars.old) }
{
    let (text, tokens) = part(words, tokens);
    parse(alloc, context.grammar(), vars, goal, text, tokens)
}

/// The term that the tokens of a part of a statement are.
pub fn read_part(
    alloc: Global,
    words: &Words,
    context: &Context,
    vars: &mut Vars,
    goal: Goal,
    tokens: &[Token],
) -> Result<Bare, StatementFault>
    requires room { length vars.old < 4000000000 }
    ensures term { IfOk result (TermReads words.now context.now.grammar tokens.now goal vars.old vars.new) }
    ensures bare { IfOk result (λ b. highest context.now.grammar goal ≤ context.now.grammar.last_kind → IsBareOf context.now goal b) }
    ensures small { OnOk result (length vars.new ≤ length vars.old + 1000) }
    ensures fault { IfErr result (IfFault (PartUnread words.now context.now.grammar tokens.now goal vars.old)) }
{
    if is_empty(words, tokens) {
        return Err(no_term(words, tokens));
    }
    match read_term(alloc, words, context, vars, goal, tokens) {
        Ok(term) => Ok(term),
        Err(fault) => Err(fault.into()),
    }
}

/// The kind of a term that was read in some kinds of the signature, which is one of these.
fn kind_of(context: &Context, goal: Goal, term: &Bare) -> u32
    requires { IsBareOf context.now goal term.now }
    ensures bare { IsBareIn (terms_in context.now) (tree_of term.now) result }
    ensures lies { LiesIn (terms_in context.now) (tree_of term.now) result }
    ensures below { result < highest context.now.grammar goal }
{
    context.signature().kind(term)
}

/// The terms that two parts are: the first is of any kind, and the second of the kind of the first.
pub fn read_pair(
    alloc: Global,
    words: &Words,
    context: &Context,
    vars: &mut Vars,
    first: &[Token],
    second: &[Token],
) -> Result<(Bare, Bare), StatementFault>
    requires room { length vars.old < 3999990000 }
    ensures pair { IfOk result (λ p. PairReads words.now context.now first.now second.now vars.old vars.new p.0 p.1) }
    ensures alike { IfOk result (λ p. AreOfOneKind (terms_in context.now) p.0 p.1) }
    ensures small { OnOk result (length vars.new ≤ length vars.old + 2000) }
    ensures fault { IfErr result (IfFault (PairUnread words.now context.now first.now second.now vars.old)) }
{
    let one = read_part(alloc, words, context, vars, Goal::AnyKind, first)?;
    let kind = Goal::Kind(kind_of(context, Goal::AnyKind, &one));
    let other = read_part(alloc, words, context, vars, kind, second)?;
    Ok((one, other))
}

/// The number of a sort, by its name.
fn number_of(context: &Context, name: &str) -> Option<u32>
    ensures value { result ≡ Names.number_of context.now.sorts name.now }
    ensures within { IfSome result (λ sort. sort < context.now.signature.hierarchy.sorts) }
{
    // it is below 2^32, and so is the number of each sort
    let _count = context.signature().poset().sorts();
    match context.sorts().number(name) {
        Some(number) => Some(number as u32),
        None => None,
    }
}

/// The number of the sort that the tokens name.
pub fn sort_named(words: &Words, context: &Context, tokens: &[Token]) -> Option<u32>
    ensures value { result ≡ Parts.sort_named words.now context.now.sorts tokens.now }
    ensures within { IfSome result (λ sort. sort < context.now.signature.hierarchy.sorts) }
{
    match tokens {
        [token] => number_of(context, words.token_text(*token)),
        _ => None,
    }
}

/// The fault of tokens that should name a sort.
pub fn unknown_sort(words: &Words, tokens: &[Token]) -> StatementFault
    ensures { result ≡ StatementFault.UnknownSort (begin_of words.now tokens.now) }
{
    StatementFault::UnknownSort(begin(words, tokens))
}

/// The fault of tokens that have no tree.
pub fn no_term(words: &Words, tokens: &[Token]) -> StatementFault
    ensures { result ≡ StatementFault.Parse (ParseFault.NoParse (begin_of words.now tokens.now)) }
{
    StatementFault::Parse(ParseFault::NoParse(begin(words, tokens)))
}
