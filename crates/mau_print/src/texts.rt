//! The texts of constants and declared variables, and which of them several things have.
ghost use Rattle.std.specs.Prelude.{◌≡◌, ◌++◌, [], ℕ, List, map, filter, fold, count_by, unwrap_or, bytes_eq, string_bytes, OnOk, IfOk};
ghost use Rattle.std.specs.HashMap.{get_by_text};
ghost use Rattle.mau_print.specs.Layouts;
ghost use Rattle.mau_print.specs.Written.{joined};
ghost use Rattle.mau_print.specs.Layouts.{form_words, constant_texts, all_constant_texts, is_numeral_in, with_text};

use indexmap::IndexSet;
use mau_grammar::{Grammar, Variable};
use mau_numerals::is_numeral;
use mau_signature::{Decl, Form, Piece, Signature};
use mau_terms::{NoMemory, OpId};
use std::alloc::Global;
use std::collections::HashMap;

/// How many constants and declared variables have a text.
pub type Counts = HashMap<String, u64>;

/// The words of a form, joined by one space.
pub fn head_text(alloc: Global, form: &Form) -> Result<String, NoMemory>
    ensures { IfOk result (λ text. string_bytes text ≡ joined (form_words form.now)) }
{
    let mut text = String::new(alloc);
    let mut is_first = true;
    let pieces = form.pieces();
    for piece in pieces {
        if let Piece::Word(word) = piece {
            if !is_first {
                text.push_str(" ")?;
            }
            text.push_str(word.as_str())?;
            is_first = false;
        }
    }
    Ok(text)
}

/// Puts the text of an operator with these declarations behind others, where it is a constant.
fn push_constant(alloc: Global, texts: &mut Vec<String>, decls: &[Decl]) -> Result<(), NoMemory>
    ensures { OnOk result (map string_bytes texts.new.items ≡ map string_bytes texts.old.items ++ constant_texts decls.now) }
{
    match decls.first() {
        None => Ok(()),
        Some(decl) => {
            if decl.args.items().is_empty() {
                texts.push(head_text(alloc, &decl.form)?)?;
                return Ok(());
            }
            Ok(())
        }
    }
}

/// Puts the texts of all constants behind others.
fn push_constants(alloc: Global, texts: &mut Vec<String>, sig: &Signature) -> Result<(), NoMemory>
    ensures { OnOk result (map string_bytes texts.new.items ≡ map string_bytes texts.old.items ++ all_constant_texts sig.now.declarations) }
{
    for i in 0..sig.operators() {
        push_constant(alloc, texts, sig.declarations(OpId(i + 1)))?;
    }
    Ok(())
}

/// Puts the names of declared variables behind others.
fn push_aliases(
    alloc: Global,
    texts: &mut Vec<String>,
    aliases: &[Variable],
) -> Result<(), NoMemory>
    ensures { OnOk result (map string_bytes texts.new.items ≡ map string_bytes texts.old.items ++ map (λ a. a.name) aliases.now) }
{
    for alias in aliases {
        texts.push(String::from_str(alloc, alias.name.as_str())?)?;
    }
    Ok(())
}

/// The texts of all constants, and the names of all declared variables.
pub fn owned_texts(
    alloc: Global,
    sig: &Signature,
    grammar: &Grammar,
) -> Result<Vec<String>, NoMemory>
    ensures { IfOk result (λ texts. map string_bytes texts.items ≡ Layouts.owned_texts sig.now grammar.now) }
{
    let mut texts = Vec::new(alloc);
    push_constants(alloc, &mut texts, sig)?;
    push_aliases(alloc, &mut texts, grammar.aliases())?;
    Ok(texts)
}

/// How often each of some texts is there.
pub fn count_texts(alloc: Global, texts: &[String]) -> Result<Counts, NoMemory>
    ensures { IfOk result (λ counts. (q : List ℕ) → unwrap_or (get_by_text counts q) 0 ≡ count_by (λ w. bytes_eq q (string_bytes w)) texts.now) }
{
    let mut counts = HashMap::new(alloc);
    for text in texts {
        *counts.entry(text.clone()?)?.or_insert(0) += 1;
    }
    Ok(counts)
}

/// Whether there are numerals, and the text is one.
pub fn is_numeral_in(grammar: &Grammar, text: &str) -> bool
    ensures { result ≡ Layouts.is_numeral_in grammar.now text.now }
{
    grammar.numerals().is_some() && is_numeral(text.as_bytes())
}

/// Adds a text at the end, unless it is there.
fn add_clash(clashes: &mut IndexSet<String>, text: String) -> Result<(), NoMemory>
    ensures { OnOk result (map string_bytes clashes.new.keys ≡ with_text (map string_bytes clashes.old.keys) (string_bytes text)) }
{
    clashes.insert_full(text)?;
    Ok(())
}

/// Those of the texts that are numerals, each once.
pub fn clashes(
    alloc: Global,
    grammar: &Grammar,
    texts: &[String],
) -> Result<IndexSet<String>, NoMemory>
    ensures { IfOk result (λ clashes. map string_bytes clashes.keys ≡ fold with_text [] (filter (is_numeral_in grammar.now) (map string_bytes texts.now))) }
{
    let mut clashes = IndexSet::new(alloc);
    for text in texts {
        if is_numeral_in(grammar, text.as_str()) {
            add_clash(&mut clashes, text.clone()?)?;
        }
    }
    Ok(clashes)
}
