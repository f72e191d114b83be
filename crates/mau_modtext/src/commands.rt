//! Reading commands and settings.
ghost use Rattle.std.specs.Prelude.{◌≡◌, ◌<◌, ◌≤◌, ◌+◌, length, IfSome, Ok};
ghost use Rattle.mau_modtext.specs.Commands;
ghost use Rattle.mau_modtext.specs.Faults.{Reads};

use crate::brackets::{Sign, begins, behind, first_outside};
use crate::fault::{Fault, Feature, ReadFault};
use crate::raw::{CommandKind, RawCommand, RawFragment, Setting};
use crate::sides::{place_or, read_condition, read_sides, some_tokens, unexpected};
use crate::statements::first_token;
use crate::word::{TokenList, Word};
use mau_numerals::is_numeral;
use mau_terms::{Seq, Text};
use mau_tokens::Token;
use std::alloc::Global;

fn begins_numeral(words: &[Word]) -> bool
    ensures { result ≡ Commands.begins_numeral words.now }
{
    match words.split_first() {
        Some((word, _)) => is_numeral(word.text().as_bytes()),
        None => false,
    }
}

fn begins_bound(words: &[Word]) -> bool
    ensures { result ≡ Commands.begins_bound words.now }
{
    begins(words, "[") && begins_numeral(behind(words, 1)) && begins(behind(words, 2), "]")
}

fn begins_two_bounds(words: &[Word]) -> bool
    ensures { result ≡ Commands.begins_two_bounds words.now }
{
    begins(words, "[")
        && begins_numeral(behind(words, 1))
        && begins(behind(words, 2), ",")
        && begins_numeral(behind(words, 3))
        && begins(behind(words, 4), "]")
}

fn has_bound(kind: CommandKind) -> bool
    ensures { result ≡ Commands.has_bound kind }
{
    match kind {
        CommandKind::Reduce => false,
        _ => true,
    }
}

fn has_two_bounds(kind: CommandKind) -> bool
    ensures { result ≡ Commands.has_two_bounds kind }
{
    match kind {
        CommandKind::Frewrite => true,
        _ => false,
    }
}

/// Of how many words the bound is with which the words begin.
fn bound_length(kind: CommandKind, words: &[Word]) -> usize
    ensures { result ≡ Commands.bound_length kind words.now }
{
    if has_bound(kind) && begins_bound(words) {
        return 3;
    }
    if has_two_bounds(kind) && begins_two_bounds(words) {
        5
    } else {
        0
    }
}

fn bound_of(count: usize, words: &[Word]) -> Option<Token>
    ensures { result ≡ Commands.bound_of count words.now }
{
    if count == 0 {
        None
    } else {
        first_token(behind(words, 1))
    }
}

fn gas_of(count: usize, words: &[Word]) -> Option<Token>
    ensures { result ≡ Commands.gas_of count words.now }
{
    if count == 5 {
        first_token(behind(words, 3))
    } else {
        None
    }
}

fn begins_module(words: &[Word]) -> bool
    ensures { result ≡ Commands.begins_module words.now }
{
    begins(words, "in") && begins(behind(words, 2), ":")
}

fn module_of(words: &[Word]) -> Option<Token>
    ensures { result ≡ Commands.module_of words.now }
{
    if begins_module(words) {
        first_token(behind(words, 1))
    } else {
        None
    }
}

/// The words behind `in M :`, or all.
fn behind_module<'a, 'b>(words: &'a [Word<'b>]) -> &'a [Word<'b>]
    ensures { result.now ≡ Commands.behind_module words.now }
{
    if begins_module(words) {
        behind(words, 3)
    } else {
        words
    }
}

/// What a command works on: the first and the second list of tokens, and a condition.
type Body = (TokenList, TokenList, Seq<RawFragment>);

/// Of how many words the sign of a condition is.
fn condition_length(words: &[Word]) -> usize
    ensures { result ≡ Commands.condition_length words.now }
{
    if begins(words, "s.t.") { 1 } else { 2 }
}

/// Reads a subject, and the condition whose sign stands at `sign`.
fn read_subject_at(
    alloc: Global,
    words: &[Word],
    sign: Option<usize>,
    stop: u32,
) -> Result<(TokenList, Seq<RawFragment>), ReadFault>
    requires { IfSome sign (λ i. i < length words.now) }
    ensures { Reads result (Commands.subject_at stop words.now sign) }
{
    match sign {
        Some(i) => {
            let (front, rest) = words.split_at(i);
            let subject = some_tokens(alloc, front, place_or(rest, stop))?;
            let cond = behind(rest, condition_length(rest));
            let cond = read_condition(alloc, cond, false, stop)?;
            Ok((subject, cond))
        }
        None => {
            let subject = some_tokens(alloc, words, stop)?;
            Ok((subject, Seq::new(Vec::new(alloc))))
        }
    }
}

/// Reads a subject and a condition.
fn read_subject(
    alloc: Global,
    words: &[Word],
    stop: u32,
) -> Result<(TokenList, Seq<RawFragment>), ReadFault>
    ensures { Reads result (Commands.subject stop words.now) }
{
    read_subject_at(alloc, words, first_outside(words, Sign::Condition), stop)
}

/// Reads pattern and subject, which `<=?` at `sign` parts.
fn read_match_at(
    alloc: Global,
    words: &[Word],
    sign: Option<usize>,
    stop: u32,
) -> Result<Body, ReadFault>
    requires { IfSome sign (λ i. i < length words.now) }
    ensures { Reads result (Commands.match_at stop words.now sign) }
{
    match sign {
        Some(i) => {
            let (front, rest) = words.split_at(i);
            let pattern = some_tokens(alloc, front, place_or(rest, stop))?;
            let (subject, cond) = read_subject(alloc, behind(words, i + 1), stop)?;
            Ok((pattern, subject, cond))
        }
        None => unexpected(stop),
    }
}

/// Reads what a command of this kind works on.
fn read_body(alloc: Global, kind: CommandKind, words: &[Word], stop: u32) -> Result<Body, ReadFault>
    ensures { Reads result (Commands.body kind stop words.now) }
{
    match kind {
        CommandKind::Match | CommandKind::Xmatch => {
            read_match_at(alloc, words, first_outside(words, Sign::Subject), stop)
        }
        CommandKind::Dsrewrite => {
            let (term, strategy) = read_sides(alloc, words, Sign::Using, stop, stop)?;
            Ok((term, strategy, Seq::new(Vec::new(alloc))))
        }
        _ => {
            let term = some_tokens(alloc, words, stop)?;
            Ok((term, Seq::new(Vec::new(alloc)), Seq::new(Vec::new(alloc))))
        }
    }
}

/// Reads a command whose bound is of `count` words.
fn read_command_behind(
    alloc: Global,
    kind: CommandKind,
    at: u32,
    words: &[Word],
    count: usize,
    stop: u32,
) -> Result<RawCommand, ReadFault>
    ensures { Reads result (Commands.command_behind kind at stop words.now count) }
{
    let rest = behind(words, count);
    let (first, second, cond) = read_body(alloc, kind, behind_module(rest), stop)?;
    Ok(RawCommand {
        at,
        kind,
        bound: bound_of(count, words),
        gas: gas_of(count, words),
        module: module_of(rest),
        first,
        second,
        cond,
    })
}

/// Reads a command, but for `continue`; the words are those between keyword and full stop.
pub fn read_command(
    alloc: Global,
    kind: CommandKind,
    at: u32,
    words: &[Word],
    stop: u32,
) -> Result<RawCommand, ReadFault>
    ensures { Reads result (Commands.command kind at stop words.now) }
{
    read_command_behind(alloc, kind, at, words, bound_length(kind, words), stop)
}

/// `continue` with this number.
fn raw_continue(alloc: Global, at: u32, bound: Option<Token>) -> RawCommand
    ensures { result ≡ Commands.raw_continue at bound }
{
    RawCommand {
        at,
        kind: CommandKind::Continue,
        bound,
        gas: None,
        module: None,
        first: Seq::new(Vec::new(alloc)),
        second: Seq::new(Vec::new(alloc)),
        cond: Seq::new(Vec::new(alloc)),
    }
}

/// A value behind which no word may stand.
fn only<T: Drop>(value: T, rest: &[Word]) -> Result<T, ReadFault>
    ensures { Reads result (Commands.only value rest.now) }
{
    match rest.split_first() {
        Some((word, _)) => unexpected(word.place()),
        None => Ok(value),
    }
}

/// Reads `continue` with an optional number.
pub fn read_continue(alloc: Global, at: u32, words: &[Word]) -> Result<RawCommand, ReadFault>
    ensures { Reads result (Commands.continue at words.now) }
{
    match words.split_first() {
        Some((word, rest)) => {
            if is_numeral(word.text().as_bytes()) {
                only(raw_continue(alloc, at, Some(word.token())), rest)
            } else {
                unexpected(word.place())
            }
        }
        None => Ok(raw_continue(alloc, at, None)),
    }
}

/// Reads `select`.
pub fn read_select(alloc: Global, words: &[Word], stop: u32) -> Result<Setting, ReadFault>
    ensures { Reads result (Commands.select stop words.now) }
{
    match words.split_first() {
        Some((word, rest)) => {
            let name = Text::new(alloc, word.text())?;
            only(Setting::Select(name), rest)
        }
        None => unexpected(stop),
    }
}

/// Reads `set trace`.
fn read_trace(words: &[Word], stop: u32) -> Result<Setting, ReadFault>
    ensures { Reads result (Commands.trace stop words.now) }
{
    match words.split_first() {
        Some((word, rest)) => match word.text() {
            "on" => only(Setting::Trace(true), rest),
            "off" => only(Setting::Trace(false), rest),
            _ => unexpected(word.place()),
        },
        None => unexpected(stop),
    }
}

/// Reads `set`, which stands at `at`.
pub fn read_setting(at: u32, words: &[Word], stop: u32) -> Result<Setting, ReadFault>
    ensures { Reads result (Commands.setting at stop words.now) }
{
    match words.split_first() {
        Some((word, rest)) => match word.text() {
            "trace" => read_trace(rest, stop),
            "show" | "print" => Ok(Setting::Ignored),
            "include" => Err(ReadFault::Fault(Fault::Unsupported(Feature::SetInclude, at))),
            "protect" => Err(ReadFault::Fault(Fault::Unsupported(Feature::SetProtect, at))),
            "extend" => Err(ReadFault::Fault(Fault::Unsupported(Feature::SetExtend, at))),
            _ => unexpected(word.place()),
        },
        None => unexpected(stop),
    }
}
