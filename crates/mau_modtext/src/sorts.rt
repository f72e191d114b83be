//! Reading imports, sorts, variables and names of strategies.
ghost use Rattle.std.specs.Prelude.{◌≡◌, ◌≤◌, ◌<◌, ◌+◌, length, drop, false, true, [], IfOk, Ok};
ghost use Rattle.mau_modtext.specs.Elements;
ghost use Rattle.mau_modtext.specs.Faults.{Reads};

use crate::brackets::{behind, front};
use crate::fault::ReadFault;
use crate::names::{End, NameKind, read_names, words_before};
use crate::parts::{PartReader, read_parts};
use crate::raw::{RawStrats, RawVars};
use crate::sides::{place_or, unexpected};
use crate::word::{TokenList, Word, tokens_of};
use mau_terms::Seq;
use std::alloc::Global;

/// A sort's tokens, and their count.
type SortUse = (TokenList, usize);

/// Behind `[` and a sort: `]`.
fn kind_end(alloc: Global, words: &[Word], rest: &[Word], place: u32) -> Result<SortUse, ReadFault>
    requires { 0 < length rest.now → 3 ≤ length words.now }
    ensures reads { Reads result (Elements.kind_end place words.now rest.now) }
    ensures count { IfOk result (λ p. (0 < p.1) × (p.1 ≤ length words.now)) }
{
    match rest.split_first() {
        Some((close, _)) => {
            if close.is("]") {
                Ok((tokens_of(alloc, front(words, 3))?, 3))
            } else {
                unexpected(close.place())
            }
        }
        None => unexpected(place),
    }
}

/// The kind of a sort: `[`, the sort and `]`.
fn kind_use(alloc: Global, words: &[Word], place: u32) -> Result<SortUse, ReadFault>
    requires { 0 < length words.now }
    ensures reads { Reads result (Elements.kind_use place words.now (drop 1 words.now)) }
    ensures count { IfOk result (λ p. (0 < p.1) × (p.1 ≤ length words.now)) }
{
    match behind(words, 1).split_first() {
        Some((sort, rest)) => {
            if sort.is("[") || sort.is("]") {
                unexpected(sort.place())
            } else {
                kind_end(alloc, words, rest, place)
            }
        }
        None => unexpected(place),
    }
}

/// Reads a sort, or where kinds are allowed a kind.
pub fn read_sort_use(
    alloc: Global,
    words: &[Word],
    kinds: bool,
    place: u32,
) -> Result<SortUse, ReadFault>
    ensures reads { Reads result (Elements.sort_use kinds place words.now) }
    ensures count { IfOk result (λ p. (0 < p.1) × (p.1 ≤ length words.now)) }
{
    match words.split_first() {
        Some((word, _)) => {
            if !word.is("[") {
                return Ok((tokens_of(alloc, front(words, 1))?, 1));
            }
            if kinds {
                kind_use(alloc, words, place)
            } else {
                unexpected(word.place())
            }
        }
        None => unexpected(place),
    }
}

/// Reads sorts that are named.
#[derive(Drop)]
pub struct SortUses {
    pub kinds: bool,
    pub behind: u32,
}

impl PartReader<TokenList> for SortUses {
    ghost use Rattle.std.specs.Prelude.{◌<◌, ◌≤◌, length, IfOk};
    ghost use Rattle.mau_modtext.specs.Faults.{Reads};
    ghost use Rattle.mau_modtext.specs.Elements.{sort_use};

    ghost part = { λ r. sort_use r.kinds r.behind };

    fn read(&self, alloc: Global, words: &[Word]) -> Result<SortUse, ReadFault> {
        read_sort_use(alloc, words, self.kinds, self.behind)
    }
}

/// A sort and nothing else.
fn read_last_sort(
    alloc: Global,
    words: &[Word],
    kinds: bool,
    stop: u32,
) -> Result<TokenList, ReadFault>
    ensures { Reads result (Elements.last_sort kinds stop words.now) }
{
    let (sort, count) = read_sort_use(alloc, words, kinds, stop)?;
    if count == words.len() {
        Ok(sort)
    } else {
        unexpected(place_or(behind(words, count), stop))
    }
}

/// Reads the name of a module.
pub fn read_import(alloc: Global, words: &[Word], stop: u32) -> Result<TokenList, ReadFault>
    ensures { Reads result (Elements.import_name stop words.now) }
{
    match words.split_first() {
        Some((_, rest)) => match rest.split_first() {
            Some((second, _)) => unexpected(second.place()),
            None => Ok(tokens_of(alloc, words)?),
        },
        None => unexpected(stop),
    }
}

/// Reads sorts that are declared.
#[derive(Drop)]
struct SortNames {
    behind: u32,
}

impl PartReader<TokenList> for SortNames {
    ghost use Rattle.std.specs.Prelude.{◌<◌, ◌≤◌, length, IfOk};
    ghost use Rattle.mau_modtext.specs.Faults.{Reads};
    ghost use Rattle.mau_modtext.specs.Elements.{declared_sort};

    ghost part = { λ r. declared_sort r.behind };

    fn read(&self, alloc: Global, words: &[Word]) -> Result<SortUse, ReadFault> {
        let sort = read_names(alloc, NameKind::Sort, front(words, 1), self.behind)?;
        Ok((sort, 1))
    }
}

/// Reads sorts that are declared, one at least.
pub fn read_sorts(alloc: Global, words: &[Word], stop: u32) -> Result<Seq<TokenList>, ReadFault>
    ensures { Reads result (Elements.declared_sorts stop words.now) }
{
    if words.is_empty() {
        return unexpected(stop);
    }
    read_parts(alloc, &SortNames { behind: stop }, words)
}

/// Reads sorts that are named, one at least.
fn read_sort_list(alloc: Global, words: &[Word], place: u32) -> Result<Seq<TokenList>, ReadFault>
    ensures { Reads result (Elements.sort_list place words.now) }
{
    if words.is_empty() {
        return unexpected(place);
    }
    let reader = SortUses {
        kinds: false,
        behind: place,
    };
    read_parts(alloc, &reader, words)
}

/// Reads a list of `count` words, which `<` and another list may follow.
fn read_subsort_at(
    alloc: Global,
    words: &[Word],
    count: usize,
    stop: u32,
) -> Result<(Seq<TokenList>, usize), ReadFault>
    requires { count ≤ length words.now }
    ensures reads { Reads result (Elements.subsort_at stop words.now count) }
    ensures count { IfOk result (λ p. (0 < p.1) × (p.1 ≤ length words.now)) }
{
    let (list, rest) = words.split_at(count);
    let sorts = read_sort_list(alloc, list, place_or(rest, stop))?;
    if count == words.len() {
        return Ok((sorts, count));
    }
    if count + 1 == words.len() {
        unexpected(stop)
    } else {
        Ok((sorts, count + 1))
    }
}

/// Reads the lists of a subsort declaration.
#[derive(Drop)]
struct SubsortLists {
    stop: u32,
}

impl PartReader<Seq<TokenList>> for SubsortLists {
    ghost use Rattle.std.specs.Prelude.{◌<◌, ◌≤◌, length, IfOk};
    ghost use Rattle.mau_modtext.specs.Faults.{Reads};
    ghost use Rattle.mau_modtext.specs.Elements.{subsort_part};

    ghost part = { λ r. subsort_part r.stop };

    fn read(&self, alloc: Global, words: &[Word]) -> Result<(Seq<TokenList>, usize), ReadFault> {
        read_subsort_at(alloc, words, words_before(words, End::Less), self.stop)
    }
}

/// Reads a subsort declaration: two lists at least.
pub fn read_subsorts(
    alloc: Global,
    words: &[Word],
    stop: u32,
) -> Result<Seq<Seq<TokenList>>, ReadFault>
    ensures { Reads result (Elements.subsorts stop words.now) }
{
    let lists = read_parts(alloc, &SubsortLists { stop }, words)?;
    if lists.items().len() > 1 {
        Ok(lists)
    } else {
        unexpected(stop)
    }
}

/// Behind the names of variables: a colon and a sort.
fn read_vars_sort(
    alloc: Global,
    at: u32,
    names: TokenList,
    words: &[Word],
    stop: u32,
) -> Result<RawVars, ReadFault>
    ensures { Reads result (Elements.vars_sort at stop names words.now) }
{
    match words.split_first() {
        Some((_, rest)) => {
            let sort = read_last_sort(alloc, rest, true, stop)?;
            Ok(RawVars { at, names, sort })
        }
        None => unexpected(stop),
    }
}

/// Reads variables, the first `count` words being their names.
fn read_vars_at(
    alloc: Global,
    at: u32,
    words: &[Word],
    count: usize,
    stop: u32,
) -> Result<RawVars, ReadFault>
    requires { count ≤ length words.now }
    ensures { Reads result (Elements.vars_at at stop words.now count) }
{
    let (list, rest) = words.split_at(count);
    let names = read_names(alloc, NameKind::Variable, list, place_or(rest, stop))?;
    read_vars_sort(alloc, at, names, rest, stop)
}

/// Reads variables.
pub fn read_vars(alloc: Global, at: u32, words: &[Word], stop: u32) -> Result<RawVars, ReadFault>
    ensures { Reads result (Elements.vars at stop words.now) }
{
    read_vars_at(alloc, at, words, words_before(words, End::Colon), stop)
}

/// Behind names and arguments of strategies: `@` and a sort.
fn read_strats_sort(
    alloc: Global,
    at: u32,
    names: TokenList,
    args: Seq<TokenList>,
    words: &[Word],
    stop: u32,
) -> Result<RawStrats, ReadFault>
    ensures { Reads result (Elements.strats_sort at stop names args words.now) }
{
    match words.split_first() {
        Some((_, rest)) => {
            let sort = read_last_sort(alloc, rest, false, stop)?;
            Ok(RawStrats {
                at,
                names,
                args,
                sort,
            })
        }
        None => unexpected(stop),
    }
}

/// Behind the colon of strategies: the sorts of the first `count` words.
fn read_strats_args(
    alloc: Global,
    at: u32,
    names: TokenList,
    words: &[Word],
    count: usize,
    stop: u32,
) -> Result<RawStrats, ReadFault>
    requires { count ≤ length words.now }
    ensures { Reads result (Elements.strats_args at stop names words.now count) }
{
    let (list, rest) = words.split_at(count);
    let reader = SortUses {
        kinds: false,
        behind: place_or(rest, stop),
    };
    let args = read_parts(alloc, &reader, list)?;
    read_strats_sort(alloc, at, names, args, rest, stop)
}

/// Behind the names of strategies.
fn read_strats_behind(
    alloc: Global,
    at: u32,
    names: TokenList,
    words: &[Word],
    stop: u32,
) -> Result<RawStrats, ReadFault>
    ensures { Reads result (Elements.strats_behind at stop names words.now) }
{
    match words.split_first() {
        Some((sign, rest)) => {
            if sign.is(":") {
                let count = words_before(rest, End::At);
                read_strats_args(alloc, at, names, rest, count, stop)
            } else {
                read_strats_sort(alloc, at, names, Seq::new(Vec::new(alloc)), words, stop)
            }
        }
        None => unexpected(stop),
    }
}

/// Reads names of strategies, the first `count` words being the names.
fn read_strats_at(
    alloc: Global,
    at: u32,
    words: &[Word],
    count: usize,
    stop: u32,
) -> Result<RawStrats, ReadFault>
    requires { count ≤ length words.now }
    ensures { Reads result (Elements.strats_at at stop words.now count) }
{
    let (list, rest) = words.split_at(count);
    let names = read_names(alloc, NameKind::Strategy, list, place_or(rest, stop))?;
    read_strats_behind(alloc, at, names, rest, stop)
}

/// Reads names of strategies.
pub fn read_strats(
    alloc: Global,
    at: u32,
    words: &[Word],
    stop: u32,
) -> Result<RawStrats, ReadFault>
    ensures { Reads result (Elements.strats at stop words.now) }
{
    read_strats_at(
        alloc,
        at,
        words,
        words_before(words, End::StrategyNames),
        stop,
    )
}
