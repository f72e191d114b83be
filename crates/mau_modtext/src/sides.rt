//! Reading terms, the two sides of a sign, and conditions.
ghost use Rattle.std.specs.Prelude.{◌≡◌, ◌<◌, ◌≤◌, ◌+◌, length, IfSome, Ok, Some};
ghost use Rattle.mau_modtext.specs.Faults.{Reads};
ghost use Rattle.mau_modtext.specs.Sides.{sides, sides_at, condition, fragment, fragment_part};

use crate::brackets::{Sign, first_outside};
use crate::fault::{Fault, ReadFault};
use crate::parts::{PartReader, read_parts};
use crate::raw::{FragmentKind, RawFragment};
use crate::word::{TokenList, Word, tokens_of};
use mau_terms::Seq;
use std::alloc::Global;

/// The place of the first word, or the place behind where there is none.
pub fn place_or(words: &[Word], behind: u32) -> u32
    ensures { result ≡ Rattle.mau_modtext.specs.Sides.place_or behind words.now }
{
    match words.split_first() {
        Some((word, _)) => word.place(),
        None => behind,
    }
}

/// The token at this place leaves the grammar.
pub fn unexpected<T>(place: u32) -> Result<T, ReadFault>
    ensures { Reads result (Rattle.mau_modtext.specs.Sides.unexpected place) }
{
    Err(ReadFault::Fault(Fault::Unexpected(place)))
}

/// The tokens of words that stand in a place which can't be empty.
pub fn some_tokens(alloc: Global, words: &[Word], behind: u32) -> Result<TokenList, ReadFault>
    ensures { Reads result (Rattle.mau_modtext.specs.Sides.some_tokens behind words.now) }
{
    if words.is_empty() {
        return unexpected(behind);
    }
    Ok(tokens_of(alloc, words)?)
}

/// What stands before the word at `i` and behind it.
pub fn read_sides_at(
    alloc: Global,
    words: &[Word],
    i: usize,
    behind: u32,
) -> Result<(TokenList, TokenList), ReadFault>
    requires { i < length words.now }
    ensures { Reads result (sides_at behind words.now i) }
{
    let left = some_tokens(alloc, &words[..i], place_or(&words[i..], behind))?;
    let right = some_tokens(alloc, &words[i + 1..], behind)?;
    Ok((left, right))
}

/// The two sides of the first such sign outside brackets. Where there is none, the token at `missing` is at fault.
pub fn read_sides(
    alloc: Global,
    words: &[Word],
    sign: Sign,
    missing: u32,
    behind: u32,
) -> Result<(TokenList, TokenList), ReadFault>
    ensures { Reads result (sides missing behind sign words.now) }
{
    match first_outside(words, sign) {
        Some(i) => read_sides_at(alloc, words, i, behind),
        None => unexpected(missing),
    }
}

/// The sign of a fragment, and its place.
fn fragment_sign(words: &[Word]) -> Option<(FragmentKind, usize)>
    ensures sign { result ≡ Rattle.mau_modtext.specs.Sides.fragment_sign words.now }
    ensures within { IfSome result (λ s. s.1 < length words.now) }
{
    if let Some(i) = first_outside(words, Sign::Assigns) {
        return Some((FragmentKind::Match, i));
    }
    if let Some(i) = first_outside(words, Sign::Arrow) {
        return Some((FragmentKind::Reach, i));
    }
    if let Some(i) = first_outside(words, Sign::Equals) {
        return Some((FragmentKind::Equal, i));
    }
    match first_outside(words, Sign::Colon) {
        Some(i) => Some((FragmentKind::Sort, i)),
        None => None,
    }
}

/// Whether a fragment of this kind is allowed.
fn is_allowed(rules: bool, kind: FragmentKind) -> bool
    ensures { result ≡ Rattle.mau_modtext.specs.Sides.is_allowed rules kind }
{
    match kind {
        FragmentKind::Reach => rules,
        _ => true,
    }
}

/// Reads a fragment.
fn read_fragment(
    alloc: Global,
    words: &[Word],
    rules: bool,
    behind: u32,
) -> Result<RawFragment, ReadFault>
    ensures { Reads result (fragment rules behind words.now) }
{
    match fragment_sign(words) {
        Some((kind, i)) => {
            if !is_allowed(rules, kind) {
                return unexpected(place_or(&words[i..], behind));
            }
            let (left, right) = read_sides_at(alloc, words, i, behind)?;
            Ok(RawFragment { kind, left, right })
        }
        None => {
            let left = some_tokens(alloc, words, behind)?;
            Ok(RawFragment {
                kind: FragmentKind::Bool,
                left,
                right: Seq::new(Vec::new(alloc)),
            })
        }
    }
}

/// Reads the fragments of a condition. Only rules may have fragments with `=>`.
#[derive(Drop)]
struct Fragments {
    rules: bool,
    behind: u32,
}

impl PartReader<RawFragment> for Fragments {
    ghost use Rattle.std.specs.Prelude.{◌<◌, ◌≤◌, length};
    ghost use Rattle.mau_modtext.specs.Faults.{Reads};
    ghost use Rattle.mau_modtext.specs.Sides.{fragment_part};

    ghost part = { λ r. fragment_part r.rules r.behind };

    fn read(&self, alloc: Global, words: &[Word]) -> Result<(RawFragment, usize), ReadFault> {
        match first_outside(words, Sign::And) {
            Some(i) => {
                let place = place_or(&words[i..], self.behind);
                let fragment = read_fragment(alloc, &words[..i], self.rules, place)?;
                if i + 1 == words.len() {
                    return unexpected(self.behind);
                }
                Ok((fragment, i + 1))
            }
            None => {
                let fragment = read_fragment(alloc, words, self.rules, self.behind)?;
                Ok((fragment, words.len()))
            }
        }
    }
}

/// Reads a condition: fragments, one at least.
pub fn read_condition(
    alloc: Global,
    words: &[Word],
    rules: bool,
    behind: u32,
) -> Result<Seq<RawFragment>, ReadFault>
    ensures { Reads result (condition rules behind words.now) }
{
    if words.is_empty() {
        return unexpected(behind);
    }
    read_parts(alloc, &Fragments { rules, behind }, words)
}
