//! What the words of the command line mean.
ghost use Rattle.std.specs.Prelude.{◌≡◌};
ghost use Rattle.mau_session.specs.Meanings;

use crate::bounds::bound_in;
use mau_terms::Text;

/// The budget of rewrites of each item where none is given.
const DEFAULT_BUDGET: u64 = 1_000_000;

/// What the words of the command line ask for.
#[derive(Clone, Copy, Debug, PartialEq, Eq)]
pub enum Meaning {
    /// The answers to the items of a text, with this budget of rewrites for each item.
    Run(u64),
    /// The derivations of the results of a text, with this budget for each item.
    Prove(u64),
    /// Whether the facts of a document are justified.
    Check,
    /// The session with this number, from 1 to 16, and what it answers.
    Make(u32),
}

/// A budget that is given: decimal digits without a leading 0, a number from 1 to 1,000,000,000,000.
fn budget_in(word: &str) -> Option<u64>
    ensures { result ≡ Meanings.budget_in word.now }
{
    let bytes = word.as_bytes();
    if !bytes.is_empty() && bytes[0] == b'0' {
        return None;
    }
    bound_in(word)
}

/// The number of a session that is to be made: decimal digits without a leading 0, a number from 1 to 16.
fn session_in(word: &str) -> Option<u32>
    ensures { result ≡ Meanings.session_in word.now }
{
    match budget_in(word) {
        Some(number) => {
            if number <= 16 {
                Some(number as u32)
            } else {
                None
            }
        }
        None => None,
    }
}

/// The budget of each item, by the words behind `run` or `prove`: there are none, or `--limit` and a budget.
fn budget_of(words: &[Text]) -> Option<u64>
    ensures { result ≡ Meanings.budget_of words.now }
{
    if words.is_empty() {
        return Some(DEFAULT_BUDGET);
    }
    if words.len() == 2 && words[0].as_str() == "--limit" {
        return budget_in(words[1].as_str());
    }
    None
}

/// The number of the session that is to be made, by the words behind `make`.
fn session_of(words: &[Text]) -> Option<u32>
    ensures { result ≡ Meanings.session_of words.now }
{
    if words.len() == 1 {
        return session_in(words[0].as_str());
    }
    None
}

/// What a word asks for, with the words behind it.
fn asked_for(word: &str, words: &[Text]) -> Option<Meaning>
    ensures { result ≡ Meanings.asked_for word.now words.now }
{
    if word == "run" {
        return match budget_of(words) {
            Some(budget) => Some(Meaning::Run(budget)),
            None => None,
        };
    }
    if word == "prove" {
        return match budget_of(words) {
            Some(budget) => Some(Meaning::Prove(budget)),
            None => None,
        };
    }
    if word == "make" {
        return match session_of(words) {
            Some(number) => Some(Meaning::Make(number)),
            None => None,
        };
    }
    if word == "check" && words.is_empty() {
        return Some(Meaning::Check);
    }
    None
}

impl Meaning {
    /// What the words of the command line, without the program's name, ask for. None where they have no meaning.
    pub fn of(words: &[Text]) -> Option<Meaning>
        ensures { result ≡ Meanings.meaning_of words.now }
    {
        if words.is_empty() {
            return None;
        }
        asked_for(words[0].as_str(), &words[1..])
    }
}
