//! Reading the elements of a module, and the module.
ghost use Rattle.std.specs.Prelude.{◌≡◌, ◌<◌, ◌≤◌, length, IfOk, Ok, Some};
ghost use Rattle.mau_modtext.specs.Faults.{Reads};
ghost use Rattle.mau_modtext.specs.Modules;

use crate::brackets::{Sign, first_outside};
use crate::fault::ReadFault;
use crate::names::is_name;
use crate::operators::{read_op, read_ops};
use crate::parts::{PartReader, read_parts};
use crate::raw::{ModuleKind, RawElement, RawModule, StatementKind};
use crate::sides::{place_or, unexpected};
use crate::sorts::{read_import, read_sorts, read_strats, read_subsorts, read_vars};
use crate::statements::{Head, read_statement};
use crate::word::Word;
use mau_tokens::Token;
use std::alloc::Global;

/// What an element begins with. A statement has its kind, and whether it has a condition.
#[derive(Clone, Copy, Debug, PartialEq, Eq)]
enum Keyword {
    Import,
    Sorts,
    Subsorts,
    Op,
    Ops,
    Vars,
    Statement(StatementKind, bool),
    Strats,
    Other,
}

fn has_rules(kind: ModuleKind) -> bool
    ensures { result ≡ Modules.has_rules kind }
{
    match kind {
        ModuleKind::Functional => false,
        _ => true,
    }
}

fn has_strategies(kind: ModuleKind) -> bool
    ensures { result ≡ Modules.has_strategies kind }
{
    match kind {
        ModuleKind::StrategyModule => true,
        _ => false,
    }
}

/// What an element of such a module begins with.
fn keyword_of(kind: ModuleKind, word: &Word) -> Keyword
    ensures { result ≡ Modules.keyword_of kind word.now }
{
    match word.text() {
        "protecting" | "pr" | "extending" | "ex" | "including" | "inc" => Keyword::Import,
        "sort" | "sorts" => Keyword::Sorts,
        "subsort" | "subsorts" => Keyword::Subsorts,
        "op" => Keyword::Op,
        "ops" => Keyword::Ops,
        "var" | "vars" => Keyword::Vars,
        "eq" => Keyword::Statement(StatementKind::Equation, false),
        "ceq" | "cq" => Keyword::Statement(StatementKind::Equation, true),
        "mb" => Keyword::Statement(StatementKind::Membership, false),
        "cmb" => Keyword::Statement(StatementKind::Membership, true),
        "rl" if has_rules(kind) => Keyword::Statement(StatementKind::Rule, false),
        "crl" if has_rules(kind) => Keyword::Statement(StatementKind::Rule, true),
        "sd" if has_strategies(kind) => Keyword::Statement(StatementKind::Definition, false),
        "csd" if has_strategies(kind) => Keyword::Statement(StatementKind::Definition, true),
        "strat" | "strats" if has_strategies(kind) => Keyword::Strats,
        _ => Keyword::Other,
    }
}

/// Reads the element whose keyword stands at `at`; the words are those between it and the full stop.
fn read_element_by(
    alloc: Global,
    keyword: Keyword,
    at: u32,
    words: &[Word],
    stop: u32,
) -> Result<RawElement, ReadFault>
    ensures { Reads result (Modules.element_by keyword at stop words.now) }
{
    match keyword {
        Keyword::Import => Ok(RawElement::Import(read_import(alloc, words, stop)?)),
        Keyword::Sorts => Ok(RawElement::Sorts(read_sorts(alloc, words, stop)?)),
        Keyword::Subsorts => Ok(RawElement::Subsorts(read_subsorts(alloc, words, stop)?)),
        Keyword::Op => Ok(RawElement::Ops(read_op(alloc, at, words, stop)?)),
        Keyword::Ops => Ok(RawElement::Ops(read_ops(alloc, at, words, stop)?)),
        Keyword::Vars => Ok(RawElement::Vars(read_vars(alloc, at, words, stop)?)),
        Keyword::Statement(kind, has_if) => {
            let head = Head {
                kind,
                has_if,
                at,
                stop,
            };
            Ok(RawElement::Statement(read_statement(alloc, head, words)?))
        }
        Keyword::Strats => Ok(RawElement::Strats(read_strats(alloc, at, words, stop)?)),
        Keyword::Other => unexpected(at),
    }
}

/// Reads the element of the words before its full stop.
fn read_element(
    alloc: Global,
    kind: ModuleKind,
    words: &[Word],
    stop: u32,
) -> Result<RawElement, ReadFault>
    ensures { Reads result (Modules.element kind stop words.now) }
{
    match words.split_first() {
        Some((word, rest)) => {
            read_element_by(alloc, keyword_of(kind, word), word.place(), rest, stop)
        }
        None => unexpected(stop),
    }
}

/// Reads the element before the full stop at `end`.
fn read_element_at(
    alloc: Global,
    kind: ModuleKind,
    words: &[Word],
    end: usize,
    last: u32,
) -> Result<(RawElement, usize), ReadFault>
    requires { end < length words.now }
    ensures reads { Reads result (Modules.element_part_at kind last words.now (Some end)) }
    ensures count { IfOk result (λ p. (0 < p.1) × (p.1 ≤ length words.now)) }
{
    let (front, rest) = words.split_at(end);
    let element = read_element(alloc, kind, front, place_or(rest, last))?;
    Ok((element, end + 1))
}

/// Reads the elements of a module, whose end word stands at `last`.
#[derive(Drop)]
struct Elements {
    kind: ModuleKind,
    last: u32,
}

impl PartReader<RawElement> for Elements {
    ghost use Rattle.std.specs.Prelude.{◌<◌, ◌≤◌, length, IfOk};
    ghost use Rattle.mau_modtext.specs.Faults.{Reads};
    ghost use Rattle.mau_modtext.specs.Modules.{element_part};

    ghost part = { λ r. element_part r.kind r.last };

    fn read(&self, alloc: Global, words: &[Word]) -> Result<(RawElement, usize), ReadFault> {
        match first_outside(words, Sign::Stop) {
            Some(end) => read_element_at(alloc, self.kind, words, end, self.last),
            None => unexpected(self.last),
        }
    }
}

/// Reads what stands behind the name of a module: `is`, and elements.
fn read_behind_name(
    alloc: Global,
    kind: ModuleKind,
    at: u32,
    name: Token,
    words: &[Word],
    last: u32,
) -> Result<RawModule, ReadFault>
    ensures { Reads result (Modules.module_behind kind at last name words.now) }
{
    match words.split_first() {
        Some((word, rest)) => {
            if !word.is("is") {
                return unexpected(word.place());
            }
            let elements = read_parts(alloc, &Elements { kind, last }, rest)?;
            Ok(RawModule {
                at,
                kind,
                name,
                elements,
            })
        }
        None => unexpected(last),
    }
}

/// Reads the module whose keyword stands at `at` and its end word at `last`; the words are those between.
pub fn read_module(
    alloc: Global,
    kind: ModuleKind,
    at: u32,
    words: &[Word],
    last: u32,
) -> Result<RawModule, ReadFault>
    ensures { Reads result (Modules.module_inside kind at last words.now) }
{
    match words.split_first() {
        Some((word, rest)) => {
            if is_name(word) {
                read_behind_name(alloc, kind, at, word.token(), rest, last)
            } else {
                unexpected(word.place())
            }
        }
        None => unexpected(last),
    }
}
