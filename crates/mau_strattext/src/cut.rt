//! How the fragments of a condition in a strategy are cut.
ghost use Rattle.std.specs.Prelude.{◌≡◌, ◌<◌, ◌+◌, ◌-◌, length, take, drop, false, true, Some, IfSome};
ghost use Rattle.mau_modtext.specs.Brackets.{begins};
ghost use Rattle.mau_modtext.specs.Sides;
ghost use Rattle.mau_modtext.specs.Sides.{some_tokens, fragment_by, fragment};
ghost use Rattle.mau_strattext.specs.Fragments;
ghost use Rattle.mau_strattext.specs.Building.{CutAnswer};

use crate::brackets::{closing, first_outside};
use crate::fault::StratFault;
use crate::setting::Setting;
use mau_declare::Words;
use mau_modtext::{FragmentKind, RawFragment, TokenList};
use mau_shapes::Part;
use mau_terms::Seq;
use std::alloc::Global;

/// The sign of a fragment, and its place.
fn fragment_sign(words: &Words, count: usize) -> Option<(FragmentKind, usize)>
    requires { count ≡ length words.now }
    ensures sign { result ≡ Sides.fragment_sign words.now }
    ensures within { IfSome result (λ s. s.1 < length words.now) }
{
    if let Some(place) = first_outside(words, count, ":=") {
        return Some((FragmentKind::Match, place));
    }
    if let Some(place) = first_outside(words, count, "=>") {
        return Some((FragmentKind::Reach, place));
    }
    if let Some(place) = first_outside(words, count, "=") {
        return Some((FragmentKind::Equal, place));
    }
    match first_outside(words, count, ":") {
        Some(place) => Some((FragmentKind::Sort, place)),
        None => None,
    }
}

/// The tokens of a side of a fragment, one at least; or the word behind is at fault.
fn side(
    alloc: Global,
    words: &Words,
    from: usize,
    count: usize,
    behind: u32,
) -> Result<TokenList, StratFault>
    ensures { CutAnswer result (some_tokens behind (take count (drop from words.now))) }
{
    let (_, tokens) = words.part(from, count);
    if tokens.is_empty() {
        return Err(StratFault::Unexpected(behind));
    }
    match tokens.to_vec(alloc) {
        Ok(side) => Ok(Seq::new(side)),
        Err(_) => Err(StratFault::NoMemory),
    }
}

/// Whether a fragment of this kind may stand in a strategy.
fn is_allowed(kind: FragmentKind) -> bool
    ensures { result ≡ Sides.is_allowed false kind }
{
    match kind {
        FragmentKind::Reach => false,
        _ => true,
    }
}

/// A fragment with a sign at a place; `behind` is the place of the word behind it.
fn cut_at(
    alloc: Global,
    words: &Words,
    count: usize,
    behind: u32,
    kind: FragmentKind,
    place: usize,
) -> Result<RawFragment, StratFault>
    requires count { count ≡ length words.now }
    requires within { place < length words.now }
    ensures { CutAnswer result (fragment_by false behind words.now (Some (kind, place))) }
{
    if !is_allowed(kind) {
        return Err(StratFault::Unexpected(words.place(place)));
    }
    match side(alloc, words, 0, place, words.place(place)) {
        Ok(left) => match side(alloc, words, place + 1, count, behind) {
            Ok(right) => Ok(RawFragment { kind, left, right }),
            Err(fault) => Err(fault),
        },
        Err(fault) => Err(fault),
    }
}

/// A fragment of these words, so many; `behind` is the place of the word behind them.
fn cut_words(
    alloc: Global,
    words: &Words,
    count: usize,
    behind: u32,
) -> Result<RawFragment, StratFault>
    requires { count ≡ length words.now }
    ensures { CutAnswer result (fragment false behind words.now) }
{
    match fragment_sign(words, count) {
        Some((kind, place)) => cut_at(alloc, words, count, behind, kind, place),
        None => match side(alloc, words, 0, count, behind) {
            Ok(left) => Ok(RawFragment {
                kind: FragmentKind::Bool,
                left,
                right: Seq::new(Vec::new(alloc)),
            }),
            Err(fault) => Err(fault),
        },
    }
}

/// Whether the word at a place is there and reads so.
fn is_at(words: &Words, count: usize, place: usize, sign: &str) -> bool
    requires { count ≡ length words.now }
    ensures { result ≡ begins sign.now (drop place words.now) }
{
    if place < count {
        words.is(place, sign)
    } else {
        false
    }
}

/// Whether the bracket that is closed at a place is the last word, a `)`.
fn ends_pair(words: &Words, count: usize, end: Option<usize>) -> bool
    requires count { count ≡ length words.now }
    requires within { IfSome end (λ i. i < length words.now) }
    ensures { result ≡ Fragments.ends_pair words.now end }
{
    match end {
        Some(end) => end + 1 == count && is_at(words, count, end, ")"),
        None => false,
    }
}

/// Whether the words are one pair of parentheses.
fn is_pair(words: &Words, count: usize) -> bool
    requires { count ≡ length words.now }
    ensures { result ≡ Fragments.is_pair words.now }
{
    is_at(words, count, 0, "(") && ends_pair(words, count, closing(words, count))
}

/// Whether a sign is `:`.
fn is_sort(sign: Option<(FragmentKind, usize)>) -> bool
    ensures { result ≡ Fragments.is_sort sign }
{
    match sign {
        Some((FragmentKind::Sort, _)) => true,
        _ => false,
    }
}

/// The place of the word behind a part; of the last one, where the strategy ends with the part.
fn place_behind(setting: &Setting, part: Part) -> u32
    ensures { result ≡ Fragments.behind setting.now part }
{
    if setting.has_word(part.end) {
        setting.start(part.end)
    } else {
        setting.start(part.end.saturating_sub(1))
    }
}

/// How the words in a pair of parentheses are cut.
fn cut_pair(
    alloc: Global,
    words: &Words,
    count: usize,
    last: u32,
    behind: u32,
) -> Result<RawFragment, StratFault>
    requires count { count ≡ length words.now }
    requires pair { Fragments.is_pair words.now ≡ true }
    ensures { CutAnswer result (Fragments.cut_words last behind words.now) }
{
    let (text, inside) = words.part(1, count.saturating_sub(2));
    let inner = Words::new(text, inside);
    if is_sort(fragment_sign(&inner, inside.len())) {
        return cut_words(alloc, &inner, inside.len(), last);
    }
    cut_words(alloc, words, count, behind)
}

/// How the words of a part are cut as a fragment; `last` is the place of the last one, and `behind` that of the word behind them.
fn cut_part(
    alloc: Global,
    words: &Words,
    count: usize,
    last: u32,
    behind: u32,
) -> Result<RawFragment, StratFault>
    requires { count ≡ length words.now }
    ensures { CutAnswer result (Fragments.cut_words last behind words.now) }
{
    if is_pair(words, count) {
        return cut_pair(alloc, words, count, last, behind);
    }
    cut_words(alloc, words, count, behind)
}

/// How a fragment is cut.
pub fn cut(alloc: Global, setting: &Setting, part: Part) -> Result<RawFragment, StratFault>
    ensures { CutAnswer result (Fragments.cut setting.now part) }
{
    let count = part.end.saturating_sub(part.start);
    let (text, tokens) = setting.words().part(part.start, count);
    let words = Words::new(text, tokens);
    let last = setting.start(part.end.saturating_sub(1));
    cut_part(
        alloc,
        &words,
        tokens.len(),
        last,
        place_behind(setting, part),
    )
}
