//! Reading the terms of a command, by the grammar of a module.
ghost use Rattle.std.specs.Prelude.{◌≡◌, ◌≤◌, ◌<◌, ◌+◌, map, length, false, IfOk, IfErr};
ghost use Rattle.mau_terms.specs.Bare.{IsBare};
ghost use Rattle.mau_terms.specs.View.{tree_of};
ghost use Rattle.mau_tokens.specs.Laws.{text_of};
ghost use Rattle.mau_tokens.specs.Spans.{AreSpans};
ghost use Rattle.mau_parse.specs.Goal.{highest};
ghost use Rattle.mau_statement.specs.Parts;
ghost use Rattle.mau_statement.specs.Parts.{part_tokens, part_texts, TermReads, IsUnread};
ghost use Rattle.mau_session.specs.Reading.{IsBareOf};
ghost use Rattle.mau_session.specs.Terms.{terms_in};

use mau_declare::Words;
use mau_module::Module;
use mau_parse::{Goal, ParseFault, parse};
use mau_terms::{Bare, Vars};
use mau_tokens::Token;
use std::alloc::Global;

/// The text of the words, and those of its tokens that these are.
fn part<'a>(words: &Words<'a>, tokens: &[Token]) -> (&'a str, &'a [Token])
    ensures spans { AreSpans result.0.now result.1.now }
    ensures tokens { result.1.now ≡ part_tokens words.now tokens.now }
    ensures texts { map (text_of result.0.now) result.1.now ≡ part_texts words.now tokens.now }
{
    words.part(words.first_index(tokens), tokens.len())
}

/// Whether there is no token.
pub fn is_empty(words: &Words, tokens: &[Token]) -> bool
    ensures { result ≡ Parts.is_empty words.now tokens.now }
{
    let (_, tokens) = part(words, tokens);
    tokens.is_empty()
}

/// The term that tokens of the text are, in the kinds that are asked for. Its variables are added to the others.
pub fn read_term(
    alloc: Global,
    words: &Words,
    module: &Module,
    vars: &mut Vars,
    goal: Goal,
    tokens: &[Token],
) -> Result<Bare, ParseFault>
    requires some { Parts.is_empty words.now tokens.now ≡ false }
    requires room { length vars.old < 4000000000 }
    ensures term { IfOk result (TermReads words.now module.now.grammar tokens.now goal vars.old vars.new) }
    ensures bare { IfOk result (λ b. highest module.now.grammar goal ≤ module.now.grammar.last_kind → IsBareOf module.now goal b) }
    ensures few { length vars.new ≤ length vars.old + length words.now }
    ensures fault { IfErr result (IsUnread words.now module.now.grammar tokens.now goal vars.old) }
{
    let (text, tokens) = part(words, tokens);
    parse(alloc, module.grammar(), vars, goal, text, tokens)
}

/// The kind in which a term lies.
pub fn kind_of_term(module: &Module, term: &Bare) -> u32
    requires { IsBare (terms_in module.now) (tree_of term.now) }
    ensures { result ≡ Rattle.mau_session.specs.Terms.kind_of_term module.now (tree_of term.now) }
{
    module.signature().kind(term)
}
