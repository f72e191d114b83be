//! Words that are variables.
ghost use Rattle.std.specs.Prelude.{◌≡◌, ◌<◌, ◌≤◌, ◌+◌, ◌++◌, length, drop, OnOk, IfOk};
ghost use Rattle.mau_grammar.specs.Leaves;
ghost use Rattle.mau_parse.specs.Words.{text_at};
ghost use Rattle.mau_parse.specs.Readings.{all_seen};

use crate::words::Words;
use mau_grammar::Grammar;
use mau_terms::NoMemory;
use std::alloc::Global;

/// Words that are a variable, up to before `end`: its name, the number of its sort or kind, and the number of its kind.
#[derive(Clone, Copy)]
pub struct VariableReading<'a> {
    pub name: &'a str,
    pub sort: u32,
    pub kind: u32,
    pub end: usize,
}

/// The number of the sort with this name, and the number of its kind.
fn sort_named(grammar: &Grammar, name: &str) -> Option<(u32, u32)>
    ensures { result ≡ Leaves.sort_named grammar.now.sorts name.now }
{
    let sorts = grammar.sorts();
    for i in 0..sorts.len() {
        let sort = &sorts[i];
        if sort.name.as_str() == name {
            return Some((i as u32, sort.kind));
        }
    }
    None
}

/// Whether a word may be cut at a place: a colon stands there, and what is before it may be the name of a variable.
fn is_cut(word: &str, colon: usize) -> bool
    requires { colon < length word.now }
    ensures { result ≡ Leaves.is_cut word.now colon }
{
    if word.as_bytes()[colon] != b':' {
        return false;
    }
    0 < colon && word.as_bytes()[0] != b'"' && &word[..colon] != "HOLE"
}

/// Puts the declared variables with this name behind other readings, for the word at the place `i`.
fn push_aliases<'a>(
    out: &mut Vec<VariableReading<'a>>,
    grammar: &'a Grammar,
    word: &str,
    i: usize,
) -> Result<(), NoMemory>
    requires { i < 1000 }
    ensures ok { OnOk result (all_seen out.new.items ≡ all_seen out.old.items ++ Leaves.aliases_at grammar.now.aliases word.now i) }
{
    for alias in grammar.aliases() {
        if alias.name.as_str() == word {
            out.push(VariableReading {
                name: alias.name.as_str(),
                sort: alias.sort,
                kind: alias.kind,
                end: i + 1,
            })?;
        }
    }
    Ok(())
}

/// Puts `X:S`, cut at this place, behind other readings.
fn push_cut<'a>(
    out: &mut Vec<VariableReading<'a>>,
    grammar: &Grammar,
    word: &'a str,
    i: usize,
    colon: usize,
) -> Result<(), NoMemory>
    requires within { colon < length word.now }
    requires few { i < 1000 }
    ensures ok { OnOk result (all_seen out.new.items ≡ all_seen out.old.items ++ Leaves.cut_at grammar.now.sorts word.now i colon) }
{
    if is_cut(word, colon) {
        if let Some((sort, kind)) = sort_named(grammar, &word[colon + 1..]) {
            out.push(VariableReading {
                name: &word[..colon],
                sort,
                kind,
                end: i + 1,
            })?;
        }
    }
    Ok(())
}

/// Puts `X:S`, cut at each colon, behind other readings.
fn push_cuts<'a>(
    out: &mut Vec<VariableReading<'a>>,
    grammar: &Grammar,
    word: &'a str,
    i: usize,
) -> Result<(), NoMemory>
    requires { i < 1000 }
    ensures ok { OnOk result (all_seen out.new.items ≡ all_seen out.old.items ++ Leaves.cuts_to grammar.now.sorts word.now i (length word.now)) }
{
    for colon in 0..word.len() {
        push_cut(out, grammar, word, i, colon)?;
    }
    Ok(())
}

/// The rest of a list, if it is of this kind.
fn if_kind(kind: u32, rest: Option<(u32, usize)>) -> Option<(u32, usize)>
    ensures { result ≡ Leaves.if_kind kind rest }
{
    match rest {
        None => None,
        Some((other, end)) => {
            if other == kind {
                Some((other, end))
            } else {
                None
            }
        }
    }
}

/// From a place on, one or more sorts of one kind, parted by `,`, and then `]`: their kind, and the place behind.
#[cycle(kinds)]
fn kind_list(grammar: &Grammar, words: &Words, from: usize) -> Option<(u32, usize)>
    requires { length words.now ≤ 1000 }
    ensures { result ≡ Leaves.kind_list grammar.now.sorts (drop from words.now) from }
{
    if from >= words.len() || from + 1 >= words.len() {
        return None;
    }
    match sort_named(grammar, words.text(from)) {
        None => None,
        Some((_, kind)) => {
            let mark = words.text(from + 1);
            if mark == "]" {
                Some((kind, from + 2))
            } else if mark == "," {
                if_kind(kind, kind_list(grammar, words, from + 2))
            } else {
                None
            }
        }
    }
}

/// Whether `X:` and `[` stand at a place, where X may be the name of a variable.
fn begins_kind(words: &Words, i: usize) -> bool
    requires within { i < length words.now }
    requires few { length words.now ≤ 1000 }
    ensures { result ≡ Rattle.mau_parse.specs.Readings.begins_kind words.now i }
{
    if i + 1 >= words.len() {
        return false;
    }
    let word = words.text(i);
    if word.is_empty() {
        return false;
    }
    is_cut(word, word.len() - 1) && words.text(i + 1) == "["
}

/// Puts `X:` `[` .. `]`, where the words at a place begin it, behind other readings.
fn push_kind_variable<'a>(
    out: &mut Vec<VariableReading<'a>>,
    grammar: &Grammar,
    words: &Words<'a>,
    i: usize,
) -> Result<(), NoMemory>
    requires within { i < length words.now }
    requires few { length words.now ≤ 1000 }
    ensures ok { OnOk result (all_seen out.new.items ≡ all_seen out.old.items ++ Leaves.kind_variable grammar.now.sorts (text_at words.now i) i (drop (i + 1) words.now)) }
{
    if !begins_kind(words, i) {
        return Ok(());
    }
    let word = words.text(i);
    if let Some((kind, end)) = kind_list(grammar, words, i + 2) {
        out.push(VariableReading {
            name: &word[..word.len() - 1],
            sort: kind,
            kind,
            end,
        })?;
    }
    Ok(())
}

/// Puts the variables that begin at a place behind other readings.
fn push_readings<'a>(
    out: &mut Vec<VariableReading<'a>>,
    grammar: &'a Grammar,
    words: &Words<'a>,
    i: usize,
) -> Result<(), NoMemory>
    requires within { i < length words.now }
    requires few { length words.now ≤ 1000 }
    ensures ok { OnOk result (all_seen out.new.items ≡ all_seen out.old.items ++ Leaves.readings_at grammar.now words.now i) }
{
    let word = words.text(i);
    push_aliases(out, grammar, word, i)?;
    push_cuts(out, grammar, word, i)?;
    push_kind_variable(out, grammar, words, i)
}

/// The variables that begin at the word at a place.
pub fn readings_at<'a>(
    alloc: Global,
    grammar: &'a Grammar,
    words: &Words<'a>,
    i: usize,
) -> Result<Vec<VariableReading<'a>>, NoMemory>
    requires within { i < length words.now }
    requires few { length words.now ≤ 1000 }
    ensures ok { IfOk result (λ found. all_seen found.items ≡ Leaves.readings_at grammar.now words.now i) }
{
    let mut out = Vec::new(alloc);
    push_readings(&mut out, grammar, words, i)?;
    Ok(out)
}

/// The variables that begin at the words of a text, from the first word to the last: declared names, `X:S` cut at each colon, and
/// `X:` `[` sorts of one kind `]`.
pub fn readings_of<'a>(
    alloc: Global,
    grammar: &'a Grammar,
    words: &Words<'a>,
) -> Result<Vec<VariableReading<'a>>, NoMemory>
    requires { length words.now ≤ 1000 }
    ensures ok { IfOk result (λ found. all_seen found.items ≡ Leaves.readings_to grammar.now words.now (length words.now)) }
{
    let mut out = Vec::new(alloc);
    for i in 0..words.len() {
        push_readings(&mut out, grammar, words, i)?;
    }
    Ok(out)
}
