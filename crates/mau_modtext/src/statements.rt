//! Reading statements: a label, two sides, a condition and attributes.
ghost use Rattle.std.specs.Prelude.{◌≡◌, ◌<◌, ◌≤◌, ◌+◌, ◌++◌, ◌∷◌, [], length, drop, true, All, IfSome, IfOk, OnOk, Ok};
ghost use Rattle.mau_modtext.specs.Faults.{Reads};
ghost use Rattle.mau_modtext.specs.Words.{is_string};
ghost use Rattle.mau_modtext.specs.Statements;
ghost use Rattle.mau_modtext.specs.Statements.{statement_attribute};

use crate::brackets::{Sign, begins, behind, depth_behind, first_outside, front};
use crate::fault::{Fault, Feature, ReadFault, both};
use crate::parts::{PartReader, read_parts};
use crate::raw::{RawAttr, RawFragment, RawStatement, StatementKind};
use crate::sides::{place_or, read_condition, read_sides, unexpected};
use crate::word::{TokenList, Word, tokens_of};
use mau_terms::{NoMemory, Seq};
use mau_tokens::Token;
use std::alloc::Global;

/// A statement's kind, whether its keyword asks for a condition, and the places of its keyword and of its full stop.
#[derive(Clone, Copy, Debug)]
pub struct Head {
    pub kind: StatementKind,
    pub has_if: bool,
    pub at: u32,
    pub stop: u32,
}

/// An attribute of so many words, the first of which is its name.
pub fn attribute(alloc: Global, words: &[Word], count: usize) -> Result<(RawAttr, usize), ReadFault>
    requires some { 0 < count }
    requires within { count ≤ length words.now }
    ensures reads { Reads result (Ok (Statements.attribute words.now count)) }
    ensures count { IfOk result (λ p. (0 < p.1) × (p.1 ≤ length words.now)) }
{
    let (attribute, _) = words.split_at(count);
    let (name, value) = attribute.split_at(1);
    let name = tokens_of(alloc, name)?;
    let value = tokens_of(alloc, value)?;
    Ok((RawAttr { name, value }, count))
}

fn is_equation(kind: StatementKind) -> bool
    ensures { result ≡ Statements.is_equation kind }
{
    match kind {
        StatementKind::Equation => true,
        _ => false,
    }
}

fn is_definition(kind: StatementKind) -> bool
    ensures { result ≡ Statements.is_definition kind }
{
    match kind {
        StatementKind::Definition => true,
        _ => false,
    }
}

fn is_rule(kind: StatementKind) -> bool
    ensures { result ≡ Statements.is_rule kind }
{
    match kind {
        StatementKind::Rule => true,
        _ => false,
    }
}

fn sign_of(kind: StatementKind) -> Sign
    ensures { result ≡ Statements.sign_of kind }
{
    match kind {
        StatementKind::Equation => Sign::Equals,
        StatementKind::Membership => Sign::Colon,
        StatementKind::Rule => Sign::Arrow,
        StatementKind::Definition => Sign::Assigns,
    }
}

/// `label` with any word behind it.
fn label_attribute(
    alloc: Global,
    words: &[Word],
    behind: u32,
) -> Result<(RawAttr, usize), ReadFault>
    requires { 0 < length words.now }
    ensures reads { Reads result (Statements.with_word (λ _. true) behind words.now (drop 1 words.now)) }
    ensures count { IfOk result (λ p. (0 < p.1) × (p.1 ≤ length words.now)) }
{
    if words.len() < 2 {
        return unexpected(behind);
    }
    attribute(alloc, words, 2)
}

/// `metadata` with a string behind it.
pub fn metadata_attribute(
    alloc: Global,
    words: &[Word],
    behind: u32,
) -> Result<(RawAttr, usize), ReadFault>
    requires { 0 < length words.now }
    ensures reads { Reads result (Statements.with_word is_string behind words.now (drop 1 words.now)) }
    ensures count { IfOk result (λ p. (0 < p.1) × (p.1 ≤ length words.now)) }
{
    match crate::brackets::behind(words, 1).split_first() {
        Some((value, _)) => {
            if value.is_string() {
                attribute(alloc, words, 2)
            } else {
                unexpected(value.place())
            }
        }
        None => unexpected(behind),
    }
}

/// Reads the attributes of a statement.
#[derive(Drop)]
struct StatementAttributes {
    kind: StatementKind,
    behind: u32,
}

impl PartReader<RawAttr> for StatementAttributes {
    ghost use Rattle.std.specs.Prelude.{◌<◌, ◌≤◌, length, IfOk};
    ghost use Rattle.mau_modtext.specs.Faults.{Reads};
    ghost use Rattle.mau_modtext.specs.Statements.{statement_attribute};

    ghost part = { λ r. statement_attribute r.kind r.behind };

    fn read(&self, alloc: Global, words: &[Word]) -> Result<(RawAttr, usize), ReadFault> {
        let place = place_or(words, self.behind);
        match words[0].text() {
            "label" => label_attribute(alloc, words, self.behind),
            "metadata" => metadata_attribute(alloc, words, self.behind),
            "owise" | "otherwise" => {
                if is_equation(self.kind) {
                    attribute(alloc, words, 1)
                } else {
                    unexpected(place)
                }
            }
            "nonexec" => {
                if is_definition(self.kind) {
                    unexpected(place)
                } else {
                    attribute(alloc, words, 1)
                }
            }
            "print" => Err(ReadFault::Fault(Fault::Unsupported(Feature::Print, place))),
            "variant" => Err(ReadFault::Fault(Fault::Unsupported(Feature::Variant, place))),
            _ => unexpected(place),
        }
    }
}

/// The name that the first `label` gives among the words of attributes.
fn label_given(words: &[Word]) -> Option<Token>
    ensures { result ≡ Statements.label_given words.now }
{
    let mut from = 0;
    while from + 1 < words.len() {
        let word = &words[from];
        if word.is("label") {
            return Some(words[from + 1].token());
        }
        from += if word.is("metadata") { 2 } else { 1 };
    }
    None
}

/// The token of the first word.
pub fn first_token(words: &[Word]) -> Option<Token>
    ensures { result ≡ Statements.first_token words.now }
{
    match words.split_first() {
        Some((word, _)) => Some(word.token()),
        None => None,
    }
}

/// The label with which the words behind a keyword begin.
fn label_before(words: &[Word]) -> Option<Token>
    ensures { result ≡ Statements.label_before words.now }
{
    if begins(words, "[") && begins(behind(words, 2), "]") && begins(behind(words, 3), ":") {
        first_token(behind(words, 1))
    } else {
        None
    }
}

/// The words behind the label.
fn behind_label<'a, 'b>(words: &'a [Word<'b>], label: Option<Token>) -> &'a [Word<'b>]
    ensures { result.now ≡ Statements.behind_label words.now label }
{
    match label {
        Some(_) => behind(words, 4),
        None => words,
    }
}

/// The words before the attributes.
fn before_attributes<'a, 'b>(words: &'a [Word<'b>], attributes: Option<usize>) -> &'a [Word<'b>]
    requires { IfSome attributes (λ a. a < length words.now) }
    ensures { result.now ≡ Statements.before_attributes words.now attributes }
{
    match attributes {
        Some(a) => front(words, a),
        None => words,
    }
}

/// The place behind the words before the attributes.
fn behind_core(words: &[Word], attributes: Option<usize>, stop: u32) -> u32
    ensures { result ≡ Statements.behind_core stop words.now attributes }
{
    match attributes {
        Some(a) => place_or(behind(words, a), stop),
        None => stop,
    }
}

/// The place of the last word.
pub fn last_place(words: &[Word], stop: u32) -> u32
    ensures { result ≡ Statements.last_place stop words.now }
{
    place_or(behind(words, words.len().saturating_sub(1)), stop)
}

/// The places of the `if`s that are open behind a word at `i`.
fn add_if(open: &mut Vec<usize>, word: &Word, i: usize) -> Result<(), NoMemory>
    ensures { OnOk result (open.new.items ≡ Statements.with_if i open.old.items word.now) }
{
    match word.text() {
        "if" => open.push(i)?,
        "fi" => {
            open.pop();
        }
        _ => (),
    }
    Ok(())
}

/// The places of the `if`s outside brackets that stay open.
fn open_ifs(alloc: Global, words: &[Word]) -> Result<Vec<usize>, NoMemory>
    ensures open { IfOk result (λ open_ones. open_ones.items ≡ Statements.open_ifs 0 0 [] words.now) }
    ensures within { IfOk result (λ open_ones. All (λ i. i < length words.now) open_ones.items) }
{
    let mut open = Vec::new(alloc);
    let mut depth = 0;
    for i in 0..words.len() {
        if depth == 0 {
            add_if(&mut open, &words[i], i)?;
        }
        depth = depth_behind(depth, &words[i]);
    }
    Ok(open)
}

/// The place of the `if` with which the condition begins, where one alone stays open.
fn condition_place(alloc: Global, words: &[Word]) -> Result<Option<usize>, NoMemory>
    ensures place { IfOk result (λ i. i ≡ Statements.condition_place words.now) }
    ensures within { IfOk result (λ r. IfSome r (λ i. i < length words.now)) }
{
    let open = open_ifs(alloc, words)?;
    match open.as_slice() {
        [i] => Ok(Some(*i)),
        _ => Ok(None),
    }
}

/// What stands before the attributes of a statement: its sides and its condition.
type Core = ((TokenList, TokenList), Seq<RawFragment>);

/// Reads the sides and the condition that begins behind the word at `place`.
fn read_conditional(
    alloc: Global,
    head: Head,
    words: &[Word],
    place: Option<usize>,
    behind_core: u32,
) -> Result<Core, ReadFault>
    requires { IfSome place (λ i. i < length words.now) }
    ensures { Reads result (Statements.conditional head behind_core words.now place) }
{
    match place {
        Some(i) => {
            let end = place_or(behind(words, i), behind_core);
            let sides = read_sides(alloc, front(words, i), sign_of(head.kind), head.stop, end);
            let condition = read_condition(
                alloc,
                behind(words, i + 1),
                is_rule(head.kind),
                behind_core,
            );
            both(sides, condition)
        }
        None => unexpected(head.at),
    }
}

/// Reads what stands before the attributes.
fn read_core(alloc: Global, head: Head, words: &[Word], behind_core: u32) -> Result<Core, ReadFault>
    ensures { Reads result (Statements.core head behind_core words.now) }
{
    if head.has_if {
        let place = condition_place(alloc, words)?;
        read_conditional(alloc, head, words, place, behind_core)
    } else {
        let sides = read_sides(alloc, words, sign_of(head.kind), head.stop, behind_core)?;
        Ok((sides, Seq::new(Vec::new(alloc))))
    }
}

/// The words before the last one.
pub fn without_last<'a, 'b>(words: &'a [Word<'b>]) -> &'a [Word<'b>]
    ensures { result.now ≡ Statements.without_last words.now }
{
    front(words, words.len().saturating_sub(1))
}

/// The words between the brackets of the attributes.
fn in_attributes<'a, 'b>(words: &'a [Word<'b>], attributes: Option<usize>) -> &'a [Word<'b>]
    requires { IfSome attributes (λ a. a < length words.now) }
    ensures { result.now ≡ Statements.in_attributes words.now attributes }
{
    match attributes {
        Some(a) => without_last(behind(words, a + 1)),
        None => &[],
    }
}

/// The statement of these parts; `given` are the words of its attributes.
fn raw_statement(
    head: Head,
    label: Option<Token>,
    given: &[Word],
    core: Core,
    attrs: Seq<RawAttr>,
) -> RawStatement
    ensures { result ≡ Statements.raw_statement head label given.now (core, attrs) }
{
    let ((left, right), cond) = core;
    let label = match label {
        Some(label) => Some(label),
        None => label_given(given),
    };
    RawStatement {
        at: head.at,
        kind: head.kind,
        label,
        left,
        right,
        cond,
        attrs,
    }
}

/// Reads the statement whose words behind keyword and label are these; its attributes begin at `attributes`.
fn read_statement_at(
    alloc: Global,
    head: Head,
    label: Option<Token>,
    words: &[Word],
    attributes: Option<usize>,
) -> Result<RawStatement, ReadFault>
    requires { IfSome attributes (λ a. a < length words.now) }
    ensures { Reads result (Statements.statement_at head label words.now attributes) }
{
    let end = behind_core(words, attributes, head.stop);
    let core = read_core(alloc, head, before_attributes(words, attributes), end);
    let reader = StatementAttributes {
        kind: head.kind,
        behind: last_place(words, head.stop),
    };
    let given = in_attributes(words, attributes);
    let attrs = read_parts(alloc, &reader, given);
    match both(core, attrs) {
        Ok((core, attrs)) => Ok(raw_statement(head, label, given, core, attrs)),
        Err(fault) => Err(fault),
    }
}

/// Reads the statement of the words between its keyword and its full stop.
pub fn read_statement(alloc: Global, head: Head, words: &[Word]) -> Result<RawStatement, ReadFault>
    ensures { Reads result (Statements.statement head words.now) }
{
    let label = label_before(words);
    let rest = behind_label(words, label);
    let attributes = first_outside(rest, Sign::Attributes);
    read_statement_at(alloc, head, label, rest, attributes)
}
