//! The items of a text.
ghost use Rattle.std.specs.Prelude.{◌≡◌, ◌<◌, ◌≤◌, ◌+◌, suc, length, option_map, IfOk, IfSome};
ghost use Rattle.std.specs.Str.{IsUtf8};
ghost use Rattle.mau_tokens.specs.Spans.{AreSpans};
ghost use Rattle.mau_modtext.specs.Words.{words_of as all_words};
ghost use Rattle.mau_modtext.specs.Brackets;
ghost use Rattle.mau_modtext.specs.Names;
ghost use Rattle.mau_modtext.specs.Signs.{stands};
ghost use Rattle.mau_modtext.specs.Faults.{Reads, OrFault};
ghost use Rattle.mau_modtext.specs.Items;
ghost use Rattle.mau_modtext.specs.Items.{AreItems};

use crate::brackets::{Sign, behind, first_outside, front};
use crate::commands::{read_command, read_continue, read_select, read_setting};
use crate::elements::read_module;
use crate::fault::{Fault, Feature, ReadFault};
use crate::names::{End, words_before};
use crate::parts::{PartReader, collect_parts};
use crate::raw::{CommandKind, ModuleKind, RawBody, RawItem, TextFault};
use crate::sides::{place_or, unexpected};
use crate::statements::{last_place, without_last};
use crate::word::{Word, words_of};
use mau_terms::{NoMemory, Text};
use mau_tokens::Token;
use std::alloc::Global;

/// What an item begins with.
#[derive(Clone, Copy, Debug, PartialEq, Eq)]
enum Keyword {
    Module(ModuleKind),
    Quit,
    Command(CommandKind),
    Continue,
    Select,
    Set,
    /// A word that is known by its name alone.
    Named(Feature),
    Other,
}

/// A word that is known by its name alone, or no keyword.
fn named_of(word: &Word) -> Keyword
    ensures { result ≡ Items.named_of word.now }
{
    match word.text() {
        "load" => Keyword::Named(Feature::Load),
        "in" => Keyword::Named(Feature::In),
        "view" => Keyword::Named(Feature::View),
        "fth" => Keyword::Named(Feature::Fth),
        "th" => Keyword::Named(Feature::Th),
        "sth" => Keyword::Named(Feature::Sth),
        "search" => Keyword::Named(Feature::Search),
        "srewrite" => Keyword::Named(Feature::Srewrite),
        "srew" => Keyword::Named(Feature::Srew),
        "unify" => Keyword::Named(Feature::Unify),
        "narrow" => Keyword::Named(Feature::Narrow),
        "omod" => Keyword::Named(Feature::Omod),
        "show" => Keyword::Named(Feature::Show),
        _ => Keyword::Other,
    }
}

/// What modules, commands and settings begin with, and what quits.
fn main_of(word: &Word) -> Keyword
    ensures { result ≡ Items.main_of word.now }
{
    match word.text() {
        "fmod" => Keyword::Module(ModuleKind::Functional),
        "mod" => Keyword::Module(ModuleKind::System),
        "smod" => Keyword::Module(ModuleKind::StrategyModule),
        "quit" | "q" | "eof" => Keyword::Quit,
        "match" => Keyword::Command(CommandKind::Match),
        "xmatch" => Keyword::Command(CommandKind::Xmatch),
        "reduce" | "red" => Keyword::Command(CommandKind::Reduce),
        "rewrite" | "rew" => Keyword::Command(CommandKind::Rewrite),
        "frewrite" | "frew" => Keyword::Command(CommandKind::Frewrite),
        "dsrewrite" | "dsrew" => Keyword::Command(CommandKind::Dsrewrite),
        "continue" | "cont" => Keyword::Continue,
        "select" => Keyword::Select,
        "set" => Keyword::Set,
        _ => Keyword::Other,
    }
}

/// What an item begins with.
fn keyword_of(word: &Word) -> Keyword
    ensures { result ≡ Items.keyword_of word.now }
{
    match main_of(word) {
        Keyword::Other => named_of(word),
        keyword => keyword,
    }
}

fn end_word(kind: ModuleKind) -> End
    ensures { result ≡ Items.end_word kind }
{
    match kind {
        ModuleKind::Functional => End::EndFmod,
        ModuleKind::System => End::EndMod,
        ModuleKind::StrategyModule => End::EndSmod,
    }
}

/// Of how many words the module is whose words behind the keyword are these, if it ends.
fn module_length(words: &[Word], kind: ModuleKind) -> Option<usize>
    ensures length { result ≡ Items.module_length words.now (Names.words_before (Items.end_word kind) words.now) }
    ensures within { IfSome result (λ n. (0 < n) × (n ≤ length words.now + 1)) }
{
    let count = words_before(words, end_word(kind));
    if count < words.len() {
        Some(count + 2)
    } else {
        None
    }
}

/// Of how many words the item is that ends with a full stop, if it ends.
fn stop_length(words: &[Word]) -> Option<usize>
    ensures length { result ≡ option_map suc (Brackets.first_outside (stands Sign.Stop) words.now) }
    ensures within { IfSome result (λ n. (0 < n) × (n ≤ length words.now)) }
{
    match first_outside(words, Sign::Stop) {
        Some(end) => Some(end + 1),
        None => None,
    }
}

/// Of how many words the item is that begins with this keyword, if it ends.
fn item_length(keyword: Keyword, words: &[Word]) -> Option<usize>
    requires { 0 < length words.now }
    ensures length { result ≡ Items.item_length keyword words.now }
    ensures within { IfSome result (λ n. (0 < n) × (n ≤ length words.now)) }
{
    match keyword {
        Keyword::Module(kind) => module_length(behind(words, 1), kind),
        Keyword::Quit => Some(words.len()),
        _ => stop_length(words),
    }
}

/// Reads the item whose keyword stands at `at` and its last word at `last`; the words are those between.
fn read_body_by(
    alloc: Global,
    keyword: Keyword,
    at: u32,
    words: &[Word],
    last: u32,
) -> Result<RawBody, ReadFault>
    ensures { Reads result (Items.body_by keyword at last words.now) }
{
    match keyword {
        Keyword::Module(kind) => { Ok(RawBody::Module(read_module(alloc, kind, at, words, last)?)) }
        Keyword::Quit => Ok(RawBody::Quit),
        Keyword::Command(kind) => {
            Ok(RawBody::Command(read_command(alloc, kind, at, words, last)?))
        }
        Keyword::Continue => Ok(RawBody::Command(read_continue(alloc, at, words)?)),
        Keyword::Select => Ok(RawBody::Setting(read_select(alloc, words, last)?)),
        Keyword::Set => Ok(RawBody::Setting(read_setting(at, words, last)?)),
        Keyword::Named(feature) => Err(ReadFault::Fault(Fault::Unsupported(feature, at))),
        Keyword::Other => unexpected(at),
    }
}

/// Reads the item of all these words.
fn read_body(alloc: Global, keyword: Keyword, words: &[Word]) -> Result<RawBody, ReadFault>
    ensures { Reads result (Items.body_of keyword words.now) }
{
    let inside = without_last(behind(words, 1));
    read_body_by(
        alloc,
        keyword,
        place_or(words, 0),
        inside,
        last_place(words, 0),
    )
}

/// The fault of a text, with the name of what is known by it alone.
fn text_fault(alloc: Global, fault: Fault) -> Result<TextFault, NoMemory>
    ensures { IfOk result (λ f. f ≡ Items.text_fault fault) }
{
    match fault {
        Fault::Unexpected(at) => Ok(TextFault::Unexpected(at)),
        Fault::Unsupported(feature, at) => {
            Ok(TextFault::Unsupported(Text::new(alloc, feature.name())?, at))
        }
    }
}

/// What an item says, or its first fault.
fn said(
    alloc: Global,
    body: Result<RawBody, ReadFault>,
) -> Result<Result<RawBody, TextFault>, NoMemory>
    ensures { (r : OrFault RawBody) → Reads body r → IfOk result (λ b. b ≡ Items.said r) }
{
    match body {
        Ok(body) => Ok(Ok(body)),
        Err(ReadFault::Fault(fault)) => Ok(Err(text_fault(alloc, fault)?)),
        Err(ReadFault::NoMemory) => Err(NoMemory),
    }
}

/// The item of `count` words, or one without an end, which runs to the end of the text.
fn read_item_at(
    alloc: Global,
    keyword: Keyword,
    words: &[Word],
    count: Option<usize>,
) -> Result<(RawItem, usize), NoMemory>
    requires { IfSome count (λ n. (0 < n) × (n ≤ length words.now)) }
    ensures { IfOk result (λ p. p ≡ Items.item_at keyword words.now count) }
{
    let at = place_or(words, 0);
    match count {
        Some(count) => {
            let body = read_body(alloc, keyword, front(words, count));
            let body = said(alloc, body)?;
            Ok((RawItem { at, body }, count))
        }
        None => {
            let body = Err(TextFault::Unended(at));
            Ok((RawItem { at, body }, words.len()))
        }
    }
}

/// The item that begins with this keyword.
fn read_item_by(
    alloc: Global,
    keyword: Keyword,
    words: &[Word],
) -> Result<(RawItem, usize), NoMemory>
    requires { 0 < length words.now }
    ensures item { IfOk result (λ p. p ≡ Items.item_by keyword words.now) }
    ensures count { IfOk result (λ p. (0 < p.1) × (p.1 ≤ length words.now)) }
{
    read_item_at(alloc, keyword, words, item_length(keyword, words))
}

/// Reads items.
#[derive(Drop)]
struct ItemReader;

impl PartReader<RawItem> for ItemReader {
    ghost use Rattle.std.specs.Prelude.{◌<◌, ◌≤◌, length, IfOk};
    ghost use Rattle.mau_modtext.specs.Faults.{Reads};
    ghost use Rattle.mau_modtext.specs.Items.{item_part};

    ghost part = { λ _. item_part };

    fn read(&self, alloc: Global, words: &[Word]) -> Result<(RawItem, usize), ReadFault> {
        match words.split_first() {
            Some((word, _)) => Ok(read_item_by(alloc, keyword_of(word), words)?),
            None => unreachable!(),
        }
    }
}

/// The items of a text, in order, up to one that quits; the tokens are those of the text. An item that doesn't read has its
/// first fault.
pub fn items(alloc: Global, text: &[u8], tokens: &[Token]) -> Result<Vec<RawItem>, NoMemory>
    requires utf8 { IsUtf8 text.now }
    requires spans { AreSpans text.now tokens.now }
    ensures { IfOk result (λ items. AreItems (all_words text.now tokens.now) items.items) }
{
    let text = match std::str::from_utf8(text) {
        Ok(text) => text,
        Err(_) => unreachable!(),
    };
    let words = words_of(alloc, text, tokens)?;
    match collect_parts(alloc, &ItemReader, &words) {
        Ok(items) => Ok(items),
        Err(_) => Err(NoMemory),
    }
}
