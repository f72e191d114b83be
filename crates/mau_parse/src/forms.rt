//! The productions of a grammar, for a chart of some words.
ghost use Rattle.std.specs.Prelude.{◌≡◌, ◌≤◌, All, IfOk, OnOk, IsTrue, length};
ghost use Rattle.mau_grammar.specs.Production.{IsShaped};
ghost use Rattle.mau_parse.specs.Charted;
ghost use Rattle.mau_parse.specs.Charted.{IsPieceOf, IsFormOf, AreThere, AreFormsOf};
ghost use Rattle.mau_parse.specs.Forms.{PutsForm, PutsForms};

use crate::words::Words;
use mau_chart::{Piece, Production};
use mau_grammar::{Grammar, Part};
use mau_terms::NoMemory;
use std::alloc::Global;

/// The number of a word: the place of the first word that reads it, or the number of words.
pub fn word_number(words: &Words, word: &str) -> usize
    ensures { result ≡ Rattle.mau_parse.specs.Charted.word_number words.now word.now }
{
    for i in 0..words.len() {
        if words.text(i) == word {
            return i;
        }
    }
    words.len()
}

/// A part of a production.
fn piece_of(words: &Words, part: &Part) -> Piece
    requires { length words.now ≤ 1000 }
    ensures { IsPieceOf words.now part.now result }
{
    match part {
        Part::Word(word) => Piece {
            kind: word_number(words, word.as_str()),
            upto: 0,
        },
        Part::Hole(hole) => Piece {
            kind: words.len() + 1 + hole.kind as usize,
            upto: hole.upto,
        },
    }
}

/// A production.
fn form_of(
    alloc: Global,
    words: &Words,
    production: &mau_grammar::Production,
) -> Result<Production, NoMemory>
    requires { length words.now ≤ 1000 }
    ensures { IfOk result (IsFormOf words.now production.now) }
{
    let parts = production.parts.items();
    let mut pieces = Vec::with_capacity(alloc, parts.len())?;
    for part in parts {
        pieces.push(piece_of(words, part))?;
    }
    Ok(Production {
        kind: words.len() + 1 + production.kind as usize,
        level: production.level,
        op: production.op,
        pieces,
    })
}

/// Whether the words of a production all stand among these.
fn are_there(words: &Words, parts: &[Part]) -> bool
    ensures { AreThere words.now parts.now → IsTrue result }
{
    for part in parts {
        if let Part::Word(word) = part {
            if word_number(words, word.as_str()) == words.len() {
                return false;
            }
        }
    }
    true
}

/// Puts the form of one production behind others, where the text may be read by it.
fn push_form(
    alloc: Global,
    words: &Words,
    productions: &[mau_grammar::Production],
    number: usize,
    forms: &mut Vec<Production>,
) -> Result<(), NoMemory>
    requires { length words.now ≤ 1000 }
    ensures { OnOk result (PutsForm words.now productions.now number forms.old.items forms.new.items) }
{
    match productions.get(number) {
        None => Ok(()),
        Some(production) => {
            if are_there(words, production.parts.items()) {
                forms.push(form_of(alloc, words, production)?)?;
            }
            Ok(())
        }
    }
}

/// Puts the forms of some productions behind others, where the text may be read by them.
fn push_forms(
    alloc: Global,
    words: &Words,
    productions: &[mau_grammar::Production],
    numbers: &[usize],
    forms: &mut Vec<Production>,
) -> Result<(), NoMemory>
    requires { length words.now ≤ 1000 }
    ensures { OnOk result (PutsForms words.now productions.now numbers.now forms.old.items forms.new.items) }
{
    for number in numbers {
        push_form(alloc, words, productions, *number, forms)?;
    }
    Ok(())
}

/// The productions for a chart of these words: those by which these may be read. They are looked up by the words, so those whose
/// words aren't there cost nothing.
pub fn forms_of(
    alloc: Global,
    words: &Words,
    grammar: &Grammar,
) -> Result<Vec<Production>, NoMemory>
    requires { length words.now ≤ 1000 }
    ensures shaped { IfOk result (λ _. All IsShaped grammar.now.productions) }
    ensures forms { IfOk result (λ forms. AreFormsOf words.now grammar.now.productions forms.items) }
{
    let productions = grammar.productions();
    let mut forms = Vec::new(alloc);
    push_forms(alloc, words, productions, grammar.wordless(), &mut forms)?;
    for i in 0..words.len() {
        let word = words.text(i);
        if word_number(words, word) == i {
            push_forms(alloc, words, productions, grammar.keyed(word), &mut forms)?;
        }
    }
    Ok(forms)
}
