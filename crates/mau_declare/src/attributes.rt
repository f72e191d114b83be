//! Reading the attributes of an operator declaration.
ghost use Rattle.std.specs.Prelude.{◌≡◌, IfOk, None};
ghost use Rattle.mau_signature.specs.Attributes.{numbers_to};
ghost use Rattle.mau_declare.specs.Attributes;

use crate::forms::read_form;
use crate::words::Words;
use mau_modtext::RawAttr;
use mau_numerals::small_number;
use mau_signature::{Attrs, Gather, IdSpec};
use mau_terms::{NoMemory, Seq};
use mau_tokens::Token;
use std::alloc::Global;

/// The precedence that the first token is: a numeral of at most 127.
fn read_precedence(words: &Words, value: &[Token]) -> Option<u8>
    ensures { result ≡ Attributes.precedence_in words.now value.now }
{
    match value.split_first() {
        Some((token, _)) => small_number(words.token_text(*token).as_bytes(), 127),
        None => None,
    }
}

/// What a word says of an argument's precedence.
fn gather_of(word: &str) -> Option<Gather>
    ensures { result ≡ Attributes.gather_of word.now }
{
    match word {
        "E" => Some(Gather::Upto),
        "e" => Some(Gather::Below),
        "&" => Some(Gather::Any),
        _ => None,
    }
}

/// What the tokens say of the arguments' precedences; those that say nothing, as parentheses, are passed over.
fn read_gathers(alloc: Global, words: &Words, value: &[Token]) -> Result<Seq<Gather>, NoMemory>
    ensures { IfOk result (λ gathers. gathers ≡ Attributes.gathers words.now value.now) }
{
    let mut gathers = Vec::new(alloc);
    for token in value {
        match gather_of(words.token_text(*token)) {
            Some(gather) => gathers.push(gather)?,
            None => (),
        }
    }
    Ok(Seq::new(gathers))
}

/// The numerals of at most 255 among the tokens; others, as parentheses, are passed over.
fn read_numbers(alloc: Global, words: &Words, value: &[Token]) -> Result<Seq<u8>, NoMemory>
    ensures { IfOk result (λ numbers. numbers ≡ Attributes.numbers words.now value.now) }
{
    let mut numbers = Vec::new(alloc);
    for token in value {
        match small_number(words.token_text(*token).as_bytes(), 255) {
            Some(number) => numbers.push(number)?,
            None => (),
        }
    }
    Ok(Seq::new(numbers))
}

/// The numbers from 1 to `count`.
fn all_to(alloc: Global, count: u8) -> Result<Seq<u8>, NoMemory>
    ensures { IfOk result (λ numbers. numbers ≡ numbers_to count) }
{
    let mut numbers = Vec::with_capacity(alloc, count as usize)?;
    for i in 0..count {
        numbers.push(i + 1)?;
    }
    Ok(Seq::new(numbers))
}

/// The frozen ones of so many arguments: with no value all, or the first 255 of more.
fn read_frozen(
    alloc: Global,
    words: &Words,
    arguments: usize,
    value: &[Token],
) -> Result<Seq<u8>, NoMemory>
    ensures { IfOk result (λ frozen. frozen ≡ Attributes.frozen_arguments words.now arguments value.now) }
{
    if value.is_empty() {
        all_to(alloc, arguments.min(255) as u8)
    } else {
        read_numbers(alloc, words, value)
    }
}

/// What an attribute with this name and value gives to an operator with so many arguments.
fn read_given_by(
    alloc: Global,
    words: &Words,
    arguments: usize,
    name: &str,
    value: &[Token],
) -> Result<Attrs, NoMemory>
    ensures given { IfOk result (λ a. a ≡ Attributes.given_by words.now arguments name.now value.now) }
    ensures builtin { IfOk result (λ a. a.builtin ≡ None) }
{
    let mut attrs = Attrs::none();
    match name {
        "assoc" => attrs.assoc = true,
        "comm" => attrs.comm = true,
        "id:" => attrs.id = Some(IdSpec::Const(read_form(alloc, words, value)?)),
        "prec" => attrs.prec = read_precedence(words, value),
        "gather" => attrs.gather = Some(read_gathers(alloc, words, value)?),
        "strat" => attrs.strat = Some(read_numbers(alloc, words, value)?),
        "frozen" => attrs.frozen = Some(read_frozen(alloc, words, arguments, value)?),
        _ => (),
    }
    Ok(attrs)
}

/// What an attribute of a list gives.
fn read_given(
    alloc: Global,
    words: &Words,
    arguments: usize,
    raw: &RawAttr,
) -> Result<Attrs, NoMemory>
    ensures given { IfOk result (λ a. a ≡ Attributes.given words.now arguments raw.now) }
    ensures builtin { IfOk result (λ a. a.builtin ≡ None) }
{
    match raw.name.items().split_first() {
        Some((name, _)) => read_given_by(
            alloc,
            words,
            arguments,
            words.token_text(*name),
            raw.value.items(),
        ),
        None => Ok(Attrs::none()),
    }
}

/// What the attributes of a list give together, and whether some attribute stands there twice with different values.
pub fn read_attributes(
    alloc: Global,
    words: &Words,
    arguments: usize,
    list: &[RawAttr],
) -> Result<(Attrs, bool), NoMemory>
    ensures attributes { IfOk result (λ read. read.0 ≡ Attributes.attributes words.now arguments list.now) }
    ensures conflict { IfOk result (λ read. read.1 ≡ Attributes.has_conflict words.now arguments list.now) }
    ensures builtin { IfOk result (λ read. read.0.builtin ≡ None) }
{
    let mut attrs = Attrs::none();
    let mut conflict = false;
    for raw in list {
        let given = read_given(alloc, words, arguments, raw)?;
        conflict = conflict || attrs.has_two_values(&given);
        attrs = attrs.unite(alloc, &given)?;
    }
    Ok((attrs, conflict))
}
