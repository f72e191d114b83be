//! Reading attributes of operators.
ghost use Rattle.std.specs.Prelude.{◌≡◌, ◌≤◌, ◌<◌, ◌+◌, ◌∷◌, length, drop, IfSome, IfOk, Ok};
ghost use Rattle.mau_modtext.specs.Attributes;
ghost use Rattle.mau_modtext.specs.Faults.{Reads};
ghost use Rattle.mau_numerals.specs.Numerals.{is_up_to as numeral_up_to};
ghost use Rattle.mau_modtext.specs.Statements;

use crate::brackets::{
    Sign, begins, begins_operator_attribute, behind, closing, first_outside, front,
};
use crate::fault::{Fault, Feature, ReadFault};
use crate::names::{End, words_before};
use crate::parts::{PartReader, read_parts};
use crate::raw::RawAttr;
use crate::sides::{place_or, unexpected};
use crate::statements::{attribute, metadata_attribute};
use crate::word::Word;
use mau_numerals::is_up_to;
use mau_terms::Seq;
use std::alloc::Global;

/// What an attribute of an operator begins with.
#[derive(Clone, Copy, Debug, PartialEq, Eq)]
enum Keyword {
    Flag,
    Identity,
    Prec,
    Gather,
    Strat,
    Frozen,
    Format,
    Metadata,
    Left,
    Right,
    /// One that is known by its name alone.
    Named(Feature),
    Other,
}

fn keyword_of(word: &Word) -> Keyword
    ensures { result ≡ Attributes.keyword_of word.now }
{
    match word.text() {
        "assoc" | "comm" | "ctor" | "memo" | "ditto" => Keyword::Flag,
        "id:" => Keyword::Identity,
        "prec" => Keyword::Prec,
        "gather" => Keyword::Gather,
        "strat" => Keyword::Strat,
        "frozen" => Keyword::Frozen,
        "format" => Keyword::Format,
        "metadata" => Keyword::Metadata,
        "left" => Keyword::Left,
        "right" => Keyword::Right,
        "idem" => Keyword::Named(Feature::Idem),
        "iter" => Keyword::Named(Feature::Iter),
        "poly" => Keyword::Named(Feature::Poly),
        "special" => Keyword::Named(Feature::Special),
        "config" => Keyword::Named(Feature::Config),
        "object" => Keyword::Named(Feature::Object),
        "msg" => Keyword::Named(Feature::Msg),
        "portal" => Keyword::Named(Feature::Portal),
        "pconst" => Keyword::Named(Feature::Pconst),
        _ => Keyword::Other,
    }
}

/// The end of `count` words in parentheses: `)`.
fn end_parentheses(
    alloc: Global,
    words: &[Word],
    count: usize,
    rest: &[Word],
    behind: u32,
) -> Result<(RawAttr, usize), ReadFault>
    requires { 0 < length rest.now → count + 3 ≤ length words.now }
    ensures reads { Reads result (Attributes.in_parentheses_end behind words.now count rest.now) }
    ensures count { IfOk result (λ p. (0 < p.1) × (p.1 ≤ length words.now)) }
{
    match rest.split_first() {
        Some((close, _)) => {
            if close.is(")") {
                attribute(alloc, words, count + 3)
            } else {
                unexpected(close.place())
            }
        }
        None => unexpected(behind),
    }
}

/// Values in parentheses behind the name of an attribute.
fn in_parentheses(
    alloc: Global,
    words: &[Word],
    end: End,
    place: u32,
) -> Result<(RawAttr, usize), ReadFault>
    requires { 0 < length words.now }
    ensures reads { Reads result (Attributes.in_parentheses end place words.now (drop 1 words.now)) }
    ensures count { IfOk result (λ p. (0 < p.1) × (p.1 ≤ length words.now)) }
{
    match behind(words, 1).split_first() {
        Some((open, rest)) => {
            if !open.is("(") {
                return unexpected(open.place());
            }
            let count = words_before(rest, end);
            end_parentheses(alloc, words, count, behind(rest, count), place)
        }
        None => unexpected(place),
    }
}

/// Any words in parentheses, which are closed at `end`.
fn closed_at(
    alloc: Global,
    words: &[Word],
    end: Option<usize>,
    place: u32,
) -> Result<(RawAttr, usize), ReadFault>
    requires { IfSome end (λ e. e + 1 < length words.now) }
    ensures reads { Reads result (Attributes.closed_at place words.now (drop 1 words.now) end) }
    ensures count { IfOk result (λ p. (0 < p.1) × (p.1 ≤ length words.now)) }
{
    match end {
        Some(end) => {
            let rest = behind(behind(words, 1), end);
            if begins(rest, ")") {
                attribute(alloc, words, end + 2)
            } else {
                unexpected(place_or(rest, place))
            }
        }
        None => unexpected(place),
    }
}

/// Any words in parentheses behind the name of an attribute.
fn any_in_parentheses(
    alloc: Global,
    words: &[Word],
    place: u32,
) -> Result<(RawAttr, usize), ReadFault>
    requires { 0 < length words.now }
    ensures reads { Reads result (Attributes.any_in_parentheses place words.now (drop 1 words.now)) }
    ensures count { IfOk result (λ p. (0 < p.1) × (p.1 ≤ length words.now)) }
{
    let rest = behind(words, 1);
    if begins(rest, "(") {
        closed_at(alloc, words, closing(rest), place)
    } else {
        unexpected(place_or(rest, place))
    }
}

/// The number found, or that of all words.
pub fn or_all(words: &[Word], found: Option<usize>) -> usize
    requires { IfSome found (λ n. n < length words.now) }
    ensures count { result ≡ Attributes.or_all words.now found }
    ensures within { result ≤ length words.now }
{
    match found {
        Some(n) => n,
        None => words.len(),
    }
}

/// How many words stand before the next attribute outside brackets.
fn to_attribute(words: &[Word]) -> usize
    ensures count { result ≡ Attributes.to_attribute words.now }
    ensures within { result ≤ length words.now }
{
    or_all(words, first_outside(words, Sign::OperatorAttribute))
}

/// An identity: the words of its term behind `id:`, of which the first may be any.
fn identity(alloc: Global, words: &[Word], place: u32) -> Result<(RawAttr, usize), ReadFault>
    requires { 0 < length words.now }
    ensures reads { Reads result (Attributes.identity_at place words.now (drop 1 words.now)) }
    ensures count { IfOk result (λ p. (0 < p.1) × (p.1 ≤ length words.now)) }
{
    let rest = behind(words, 1);
    match rest.split_first() {
        Some((_, others)) => {
            if begins_operator_attribute(rest) {
                attribute(alloc, words, to_attribute(others) + 2)
            } else {
                attribute(alloc, words, to_attribute(rest) + 1)
            }
        }
        None => unexpected(place),
    }
}

/// `left id:` or `right id:`, which is known by its name alone.
fn side_identity(
    side: Feature,
    at: u32,
    rest: &[Word],
    place: u32,
) -> Result<(RawAttr, usize), ReadFault>
    ensures { Reads result (Attributes.side_identity side at place rest.now) }
{
    if begins(rest, "id:") {
        return Err(ReadFault::Fault(Fault::Unsupported(side, at)));
    }
    unexpected(place_or(rest, place))
}

/// `prec` with a number behind it.
fn precedence(alloc: Global, words: &[Word], place: u32) -> Result<(RawAttr, usize), ReadFault>
    requires { 0 < length words.now }
    ensures reads { Reads result (Statements.with_word (λ v. numeral_up_to 127 v.text) place words.now (drop 1 words.now)) }
    ensures count { IfOk result (λ p. (0 < p.1) × (p.1 ≤ length words.now)) }
{
    match behind(words, 1).split_first() {
        Some((value, _)) => {
            if is_up_to(value.text().as_bytes(), 127) {
                attribute(alloc, words, 2)
            } else {
                unexpected(value.place())
            }
        }
        None => unexpected(place),
    }
}

/// Reads the attributes of an operator.
#[derive(Drop)]
struct OperatorAttributes {
    behind: u32,
}

impl PartReader<RawAttr> for OperatorAttributes {
    ghost use Rattle.std.specs.Prelude.{◌<◌, ◌≤◌, length, IfOk};
    ghost use Rattle.mau_modtext.specs.Faults.{Reads};
    ghost use Rattle.mau_modtext.specs.Attributes.{operator_attribute};

    ghost part = { λ r. operator_attribute r.behind };

    fn read(&self, alloc: Global, words: &[Word]) -> Result<(RawAttr, usize), ReadFault> {
        let place = self.behind;
        let at = place_or(words, place);
        let rest = behind(words, 1);
        match keyword_of(&words[0]) {
            Keyword::Flag => attribute(alloc, words, 1),
            Keyword::Identity => identity(alloc, words, place),
            Keyword::Prec => precedence(alloc, words, place),
            Keyword::Gather => in_parentheses(alloc, words, End::NoGather, place),
            Keyword::Strat => in_parentheses(alloc, words, End::NoEntry, place),
            Keyword::Frozen => {
                if begins(rest, "(") {
                    in_parentheses(alloc, words, End::NoEntry, place)
                } else {
                    attribute(alloc, words, 1)
                }
            }
            Keyword::Format => any_in_parentheses(alloc, words, place),
            Keyword::Metadata => metadata_attribute(alloc, words, place),
            Keyword::Left => side_identity(Feature::LeftId, at, rest, place),
            Keyword::Right => side_identity(Feature::RightId, at, rest, place),
            Keyword::Named(feature) => Err(ReadFault::Fault(Fault::Unsupported(feature, at))),
            Keyword::Other => unexpected(at),
        }
    }
}

/// What stands behind the attributes, whose bracket is closed at `end`.
fn end_list(
    words: &[Word],
    end: usize,
    attrs: Seq<RawAttr>,
    stop: u32,
) -> Result<Seq<RawAttr>, ReadFault>
    requires { end < length words.now }
    ensures { Reads result (Attributes.list_end stop words.now end attrs) }
{
    let rest = behind(words, end);
    if !begins(rest, "]") {
        return unexpected(place_or(rest, stop));
    }
    if end + 1 == words.len() {
        Ok(attrs)
    } else {
        unexpected(place_or(behind(words, end + 1), stop))
    }
}

/// Reads the attributes between brackets; the closing one is at `end`, and its place is `close`.
fn read_inside(
    alloc: Global,
    words: &[Word],
    inside: &[Word],
    end: usize,
    close: u32,
    stop: u32,
) -> Result<Seq<RawAttr>, ReadFault>
    requires { end < length words.now }
    ensures { Reads result (Attributes.list_inside stop words.now end close inside.now) }
{
    let attrs = read_parts(alloc, &OperatorAttributes { behind: close }, inside)?;
    end_list(words, end, attrs, stop)
}

/// Reads a list of attributes whose bracket is never closed.
fn read_unclosed(alloc: Global, inside: &[Word], stop: u32) -> Result<Seq<RawAttr>, ReadFault>
    ensures { Reads result (Attributes.list_unclosed stop inside.now) }
{
    let _attrs = read_parts(alloc, &OperatorAttributes { behind: stop }, inside)?;
    unexpected(stop)
}

/// Reads a list of attributes whose bracket is closed at `end`.
fn attribute_list(
    alloc: Global,
    words: &[Word],
    end: Option<usize>,
    stop: u32,
) -> Result<Seq<RawAttr>, ReadFault>
    requires some { 0 < length words.now }
    requires within { IfSome end (λ e. e < length words.now) }
    ensures { Reads result (Attributes.attribute_list stop words.now end) }
{
    match end {
        Some(end) => {
            let inside = front(behind(words, 1), end.saturating_sub(1));
            let close = place_or(behind(words, end), stop);
            read_inside(alloc, words, inside, end, close, stop)
        }
        None => read_unclosed(alloc, behind(words, 1), stop),
    }
}

/// Reads the attributes behind the sort of a declaration: none, or a list in brackets.
pub fn read_operator_attributes(
    alloc: Global,
    words: &[Word],
    stop: u32,
) -> Result<Seq<RawAttr>, ReadFault>
    ensures { Reads result (Attributes.operator_attributes stop words.now) }
{
    match words.split_first() {
        Some((word, _)) => {
            if word.is("[") {
                attribute_list(alloc, words, closing(words), stop)
            } else {
                unexpected(word.place())
            }
        }
        None => Ok(Seq::new(Vec::new(alloc))),
    }
}
