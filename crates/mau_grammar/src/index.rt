//! Productions by their words, so that a text is read by those alone that may read it.
ghost use Rattle.std.specs.Prelude.{◌≡◌, [], ℕ, List, length, IfOk};
ghost use Rattle.std.specs.Option.{option_map, option_map_or};
ghost use Rattle.std.specs.HashMap.{get_by_text};
ghost use Rattle.mau_grammar.specs.Index.{first_plain, first_word, key_of, key_at, keys_to, numbers_with, keyed, wordless, IsIndexOf};

use crate::prefix::is_special;
use crate::production::{Part, Production};
use mau_terms::{NoMemory, Text};
use std::alloc::Global;
use std::collections::HashMap;

/// The numbers of the productions of a grammar, by their keys. The key of a production is one of its words.
#[derive(Drop)]
pub struct Index {
    pub(crate) by_key: HashMap<String, Vec<usize>>,
    pub(crate) wordless: Vec<usize>,
}

/// The first word that is none of the characters that are tokens of their own.
fn first_plain(parts: &[Part]) -> Option<&Text>
    ensures { option_map (λ w. w.now) result ≡ first_plain parts.now }
{
    for part in parts {
        if let Part::Word(word) = part {
            if !is_special(word.as_str()) {
                return Some(word);
            }
        }
    }
    None
}

/// The first word.
fn first_word(parts: &[Part]) -> Option<&Text>
    ensures { option_map (λ w. w.now) result ≡ first_word parts.now }
{
    for part in parts {
        if let Part::Word(word) = part {
            return Some(word);
        }
    }
    None
}

/// The key of a production with these parts: its first word that is none of the characters that are tokens of their own, or else its
/// first word. None where it has no word.
fn key_of(parts: &[Part]) -> Option<&Text>
    ensures { option_map (λ w. w.now) result ≡ key_of parts.now }
{
    match first_plain(parts) {
        Some(word) => Some(word),
        None => first_word(parts),
    }
}

/// The key of the production with a number.
fn key_at(productions: &[Production], number: usize) -> Option<&Text>
    ensures { option_map (λ w. w.now) result ≡ key_at productions.now number }
{
    match productions.get(number) {
        Some(production) => key_of(production.parts.items()),
        None => None,
    }
}

/// The keys of the productions that have one, with their numbers.
fn keys(alloc: Global, productions: &[Production]) -> Result<Vec<(Text, usize)>, NoMemory>
    ensures { IfOk result (λ keys. keys.items ≡ keys_to productions.now (length productions.now)) }
{
    let mut keys = Vec::new(alloc);
    for i in 0..productions.len() {
        if let Some(word) = key_at(productions, i) {
            keys.push((word.copy(alloc)?, i))?;
        }
    }
    Ok(keys)
}

/// The numbers of the productions that have no word.
fn wordless(alloc: Global, productions: &[Production]) -> Result<Vec<usize>, NoMemory>
    ensures { IfOk result (λ numbers. numbers.items ≡ wordless productions.now) }
{
    let mut numbers = Vec::new(alloc);
    for i in 0..productions.len() {
        if key_at(productions, i).is_none() {
            numbers.push(i)?;
        }
    }
    Ok(numbers)
}

/// Numbers by the words that they stand with.
fn grouped(alloc: Global, keys: &[(Text, usize)]) -> Result<HashMap<String, Vec<usize>>, NoMemory>
    ensures { IfOk result (λ groups. (w : List ℕ) → option_map_or (λ ns. ns.items) (get_by_text groups w) [] ≡ numbers_with w keys.now) }
{
    let mut groups: HashMap<String, Vec<usize>> = HashMap::new(alloc);
    for key in keys {
        let word = String::from_str(alloc, key.0.as_str())?;
        groups.entry(word)?.or_default().push(key.1)?;
    }
    Ok(groups)
}

impl Index {
    /// The index of some productions.
    pub fn of(alloc: Global, productions: &[Production]) -> Result<Index, NoMemory>
        ensures { IfOk result (IsIndexOf productions.now) }
    {
        let keys = keys(alloc, productions)?;
        Ok(Index {
            by_key: grouped(alloc, &keys)?,
            wordless: wordless(alloc, productions)?,
        })
    }

    /// The numbers that stand with a key.
    pub fn keyed(&self, word: &str) -> &[usize]
        ensures { result.now ≡ option_map_or (λ ns. ns.items) (get_by_text self.now.by_key word.now) [] }
    {
        match self.by_key.get(word) {
            Some(numbers) => numbers,
            None => &[],
        }
    }
}
