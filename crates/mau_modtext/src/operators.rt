//! Reading declarations of operators.
ghost use Rattle.std.specs.Prelude.{◌≡◌, ◌≤◌, ◌<◌, ◌+◌, ◌∷◌, [], length, IfSome, IfOk, Ok};
ghost use Rattle.mau_modtext.specs.Elements;
ghost use Rattle.mau_modtext.specs.Faults.{Reads};

use crate::attributes::{or_all, read_operator_attributes};
use crate::brackets::{Sign, begins, behind, closing, first_outside, front};
use crate::fault::ReadFault;
use crate::names::{End, NameKind, read_names, words_before};
use crate::parts::{PartReader, read_parts};
use crate::raw::RawOps;
use crate::sides::{place_or, unexpected};
use crate::sorts::{SortUses, read_sort_use};
use crate::word::{TokenList, Word};
use mau_terms::{NoMemory, Seq};
use std::alloc::Global;

/// A form in parentheses, which are closed at `end`; `inside` are the words between them, and `place` is that of the closing
/// one.
fn read_form_inside(
    alloc: Global,
    words: &[Word],
    inside: &[Word],
    end: usize,
    place: u32,
) -> Result<(TokenList, usize), ReadFault>
    requires { end < length words.now }
    ensures reads { Reads result (Elements.form_inside place words.now inside.now end) }
    ensures count { IfOk result (λ p. (0 < p.1) × (p.1 ≤ length words.now)) }
{
    let form = read_names(alloc, NameKind::Form, inside, place)?;
    if begins(behind(words, end), ")") {
        Ok((form, end + 1))
    } else {
        unexpected(place)
    }
}

/// A form in parentheses, which are closed at `end`.
fn read_form_closed(
    alloc: Global,
    words: &[Word],
    end: Option<usize>,
    place: u32,
) -> Result<(TokenList, usize), ReadFault>
    requires { IfSome end (λ e. e < length words.now) }
    ensures reads { Reads result (Elements.form_closed place words.now end) }
    ensures count { IfOk result (λ p. (0 < p.1) × (p.1 ≤ length words.now)) }
{
    match end {
        Some(end) => {
            let inside = front(behind(words, 1), end.saturating_sub(1));
            let close = place_or(behind(words, end), place);
            read_form_inside(alloc, words, inside, end, close)
        }
        None => unexpected(place),
    }
}

/// Reads the forms of `ops`.
#[derive(Drop)]
struct Forms {
    behind: u32,
}

impl PartReader<TokenList> for Forms {
    ghost use Rattle.std.specs.Prelude.{◌<◌, ◌≤◌, length, IfOk};
    ghost use Rattle.mau_modtext.specs.Faults.{Reads};
    ghost use Rattle.mau_modtext.specs.Elements.{form_part};

    ghost part = { λ r. form_part r.behind };

    fn read(&self, alloc: Global, words: &[Word]) -> Result<(TokenList, usize), ReadFault> {
        if begins(words, "(") {
            return read_form_closed(alloc, words, closing(words), self.behind);
        }
        let form = read_names(alloc, NameKind::Form, front(words, 1), self.behind)?;
        Ok((form, 1))
    }
}

/// Reads forms, one at least.
fn read_forms(alloc: Global, words: &[Word], place: u32) -> Result<Seq<TokenList>, ReadFault>
    ensures { Reads result (Elements.forms place words.now) }
{
    if words.is_empty() {
        return unexpected(place);
    }
    read_parts(alloc, &Forms { behind: place }, words)
}

/// Behind the arguments of a declaration: an arrow, a sort and attributes.
fn read_ops_result(
    alloc: Global,
    at: u32,
    forms: Seq<TokenList>,
    args: Seq<TokenList>,
    words: &[Word],
    stop: u32,
) -> Result<RawOps, ReadFault>
    ensures { Reads result (Elements.ops_result at stop forms args words.now) }
{
    match words.split_first() {
        Some((arrow, rest)) => {
            let (result, count) = read_sort_use(alloc, rest, true, stop)?;
            let attrs = read_operator_attributes(alloc, behind(rest, count), stop)?;
            Ok(RawOps {
                at,
                forms,
                args,
                result,
                partial: arrow.is("~>"),
                attrs,
            })
        }
        None => unexpected(stop),
    }
}

/// Behind the colon of a declaration: the sorts of the first `count` words.
fn read_ops_args(
    alloc: Global,
    at: u32,
    forms: Seq<TokenList>,
    words: &[Word],
    count: usize,
    stop: u32,
) -> Result<RawOps, ReadFault>
    requires { count ≤ length words.now }
    ensures { Reads result (Elements.ops_args at stop forms words.now count) }
{
    let (list, rest) = words.split_at(count);
    let reader = SortUses {
        kinds: true,
        behind: place_or(rest, stop),
    };
    let args = read_parts(alloc, &reader, list)?;
    read_ops_result(alloc, at, forms, args, rest, stop)
}

/// Behind the colon of a declaration: sorts up to the first arrow, and what follows.
fn read_ops_sorts(
    alloc: Global,
    at: u32,
    forms: Seq<TokenList>,
    words: &[Word],
    stop: u32,
) -> Result<RawOps, ReadFault>
    ensures { Reads result (Elements.ops_sorts at stop forms words.now) }
{
    read_ops_args(
        alloc,
        at,
        forms,
        words,
        words_before(words, End::Arrow),
        stop,
    )
}

/// Behind the forms of a declaration: a colon.
fn read_ops_colon(
    alloc: Global,
    at: u32,
    forms: Seq<TokenList>,
    words: &[Word],
    stop: u32,
) -> Result<RawOps, ReadFault>
    ensures { Reads result (Elements.ops_colon at stop words.now forms) }
{
    match words.split_first() {
        Some((_, rest)) => read_ops_sorts(alloc, at, forms, rest, stop),
        None => unexpected(stop),
    }
}

/// The list of one form.
fn one_form(alloc: Global, form: TokenList) -> Result<Seq<TokenList>, NoMemory>
    ensures { IfOk result (λ forms. forms ≡ form ∷ []) }
{
    let mut forms = Vec::new(alloc);
    forms.push(form)?;
    Ok(Seq::new(forms))
}

/// Reads `op`, its form being the first `count` words.
fn read_op_at(
    alloc: Global,
    at: u32,
    words: &[Word],
    count: usize,
    stop: u32,
) -> Result<RawOps, ReadFault>
    requires { count ≤ length words.now }
    ensures { Reads result (Elements.op_at at stop words.now count) }
{
    let (list, rest) = words.split_at(count);
    let form = read_names(alloc, NameKind::Form, list, place_or(rest, stop))?;
    let forms = one_form(alloc, form)?;
    read_ops_colon(alloc, at, forms, rest, stop)
}

/// Reads `op`: one form, of all words up to the first colon.
pub fn read_op(alloc: Global, at: u32, words: &[Word], stop: u32) -> Result<RawOps, ReadFault>
    ensures { Reads result (Elements.op at stop words.now) }
{
    read_op_at(alloc, at, words, words_before(words, End::Colon), stop)
}

/// Reads `ops`, its forms being the first `count` words.
fn read_ops_at(
    alloc: Global,
    at: u32,
    words: &[Word],
    count: usize,
    stop: u32,
) -> Result<RawOps, ReadFault>
    requires { count ≤ length words.now }
    ensures { Reads result (Elements.ops_at at stop words.now count) }
{
    let (list, rest) = words.split_at(count);
    let forms = read_forms(alloc, list, place_or(rest, stop))?;
    read_ops_colon(alloc, at, forms, rest, stop)
}

/// Reads `ops`: several forms, up to the first colon outside brackets.
pub fn read_ops(alloc: Global, at: u32, words: &[Word], stop: u32) -> Result<RawOps, ReadFault>
    ensures { Reads result (Elements.ops at stop words.now) }
{
    let count = or_all(words, first_outside(words, Sign::Colon));
    read_ops_at(alloc, at, words, count, stop)
}
