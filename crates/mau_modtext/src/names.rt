//! Names that are declared, and places where names end.
ghost use Rattle.std.specs.Prelude.{◌≡◌, ◌≤◌, length};
ghost use Rattle.mau_modtext.specs.Faults.{Reads};
ghost use Rattle.mau_modtext.specs.Names;

use crate::fault::ReadFault;
use crate::forms::is_form_word;
use crate::parts::{PartReader, read_parts};
use crate::sides::unexpected;
use crate::word::{TokenList, Word};
use mau_numerals::is_up_to;
use mau_tokens::Token;
use std::alloc::Global;

/// What is named: a sort or a variable that is declared, a strategy, or a word of a form.
#[derive(Clone, Copy, Debug, PartialEq, Eq)]
pub enum NameKind {
    Sort,
    Variable,
    Strategy,
    Form,
}

/// What ends a row of words: `<`, `:`, an arrow, what stands behind names of strategies, `@`, what is no value of an
/// attribute, and the words that end modules.
#[derive(Clone, Copy, Debug, PartialEq, Eq)]
pub enum End {
    Less,
    Colon,
    Arrow,
    StrategyNames,
    At,
    NoGather,
    NoEntry,
    EndFmod,
    EndMod,
    EndSmod,
}

/// Whether a word is one of the seven characters that are tokens of their own.
fn is_special(word: &Word) -> bool
    ensures { result ≡ Names.is_special word.now }
{
    matches!(word.text(), "(" | "[" | "{" | ")" | "]" | "}" | ",")
}

/// Whether a word may name a module, and is no string and no special character.
pub fn is_name(word: &Word) -> bool
    ensures { result ≡ Names.is_name word.now }
{
    !word.is_string() && !is_special(word)
}

fn ends_with_backquote(text: &str) -> bool
    ensures { result ≡ Names.ends_with_backquote text.now }
{
    match text.as_bytes().last() {
        Some(byte) => *byte == b'`',
        None => false,
    }
}

fn holds_colon(text: &str) -> bool
    ensures { result ≡ Names.holds_colon text.now }
{
    text.as_bytes().iter().any(|byte| *byte == b':')
}

/// Whether a word may be such a name.
fn is_of(kind: NameKind, word: &Word) -> bool
    ensures { result ≡ Names.is_of kind word.now }
{
    match kind {
        NameKind::Sort => {
            is_name(word) && !ends_with_backquote(word.text()) && !holds_colon(word.text())
        }
        NameKind::Variable => is_name(word) && !word.is("HOLE"),
        NameKind::Strategy => true,
        NameKind::Form => is_form_word(word.text()),
    }
}

/// Reads names of one word each.
#[derive(Drop)]
struct NameReader {
    kind: NameKind,
}

impl PartReader<Token> for NameReader {
    ghost use Rattle.std.specs.Prelude.{◌<◌, ◌≤◌, length};
    ghost use Rattle.mau_modtext.specs.Faults.{Reads};
    ghost use Rattle.mau_modtext.specs.Names.{one_name};

    ghost part = { λ r. one_name r.kind };

    fn read(&self, _alloc: Global, words: &[Word]) -> Result<(Token, usize), ReadFault> {
        let word = &words[0];
        if is_of(self.kind, word) {
            Ok((word.token(), 1))
        } else {
            unexpected(word.place())
        }
    }
}

/// Reads names, one at least.
pub fn read_names(
    alloc: Global,
    kind: NameKind,
    words: &[Word],
    behind: u32,
) -> Result<TokenList, ReadFault>
    ensures { Reads result (Names.names kind behind words.now) }
{
    if words.is_empty() {
        return unexpected(behind);
    }
    read_parts(alloc, &NameReader { kind }, words)
}

fn is_gather(word: &Word) -> bool
    ensures { result ≡ Names.is_gather word.now }
{
    matches!(word.text(), "E" | "e" | "&")
}

/// Whether a word is such an end.
fn ends(end: End, word: &Word) -> bool
    ensures { result ≡ Names.ends end word.now }
{
    match end {
        End::Less => word.is("<"),
        End::Colon => word.is(":"),
        End::Arrow => word.is("->") || word.is("~>"),
        End::StrategyNames => word.is(":") || word.is("@"),
        End::At => word.is("@"),
        End::NoGather => !is_gather(word),
        End::NoEntry => !is_up_to(word.text().as_bytes(), 255),
        End::EndFmod => word.is("endfm"),
        End::EndMod => word.is("endm"),
        End::EndSmod => word.is("endsm"),
    }
}

/// How many words stand before the first such end, or all.
pub fn words_before(words: &[Word], end: End) -> usize
    ensures count { result ≡ Names.words_before end words.now }
    ensures within { result ≤ length words.now }
{
    for i in 0..words.len() {
        if ends(end, &words[i]) {
            return i;
        }
    }
    words.len()
}
