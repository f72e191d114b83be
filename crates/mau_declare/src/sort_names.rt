//! The names of sorts and kinds.
ghost use Rattle.std.specs.Prelude.{◌≡◌, ◌<◌, ◌++◌, [], map, codes, if◌then◌else◌, replicate, false, string_bytes, IfOk, OnOk};
ghost use Rattle.mau_poset.specs.Order.{IsWithin};
ghost use Rattle.mau_declare.specs.Flattened.{name_at, comma_names, maximal_sorts, kind_name, kind_names, sort_name, AreLower};

use crate::names::Names;
use crate::text::write_text;
use mau_poset::Poset;
use mau_terms::{NoMemory, Text};
use std::alloc::Global;

/// `n` times no.
fn all_no(alloc: Global, n: usize) -> Result<Vec<bool>, NoMemory>
    ensures { IfOk result (λ flags. flags.items ≡ replicate n false) }
{
    let mut flags = Vec::with_capacity(alloc, n)?;
    for _done in 0..n {
        flags.push(false)?;
    }
    Ok(flags)
}

/// For each of `n` sorts, whether one of the pairs makes it a subsort.
pub fn lower_sorts(alloc: Global, n: u32, pairs: &[(u32, u32)]) -> Result<Vec<bool>, NoMemory>
    requires { IsWithin pairs.now n }
    ensures { IfOk result (λ lower. AreLower n pairs.now lower.items) }
{
    let mut lower = all_no(alloc, n as usize)?;
    for pair in pairs {
        lower[pair.0 as usize] = true;
    }
    Ok(lower)
}

/// Whether a sort is a maximal one of a kind.
fn is_maximal_in(poset: &Poset, lower: &[bool], kind: u32, sort: u32) -> bool
    requires lower { AreLower poset.now.sorts poset.now.pairs lower.now }
    requires sort { sort < poset.now.sorts }
    ensures { result ≡ Rattle.mau_declare.specs.Flattened.is_maximal_in poset.now kind sort }
{
    poset.kind_of(sort) == kind && !lower[sort as usize]
}

/// The name of the sort with a number; empty where there is none.
fn name_of(sorts: &Names, sort: u32) -> &str
    ensures { result.now ≡ name_at sorts.now sort }
{
    match sorts.get(sort as usize) {
        Some(name) => name,
        None => "",
    }
}

/// Writes the name of the sort with a number; nothing where there is none.
pub fn write_name(out: &mut Vec<u8>, sorts: &Names, sort: u32) -> Result<(), NoMemory>
    ensures { OnOk result (out.new.items ≡ out.old.items ++ name_at sorts.now sort) }
{
    write_text(out, name_of(sorts, sort))
}

/// Puts the name of a sort behind a text, and before it a comma if it is not the first.
fn push_next(text: &mut String, sorts: &Names, is_first: bool, sort: u32) -> Result<(), NoMemory>
    ensures { OnOk result (string_bytes text.new ≡ string_bytes text.old ++ (if is_first then [] else codes ",") ++ name_at sorts.now sort) }
{
    if !is_first {
        text.push_str(",")?;
    }
    text.push_str(name_of(sorts, sort))?;
    Ok(())
}

/// Puts the names of the maximal sorts of a kind behind a text, parted by commas.
fn push_maximal_sorts(
    text: &mut String,
    sorts: &Names,
    poset: &Poset,
    lower: &[bool],
    kind: u32,
) -> Result<(), NoMemory>
    requires { AreLower poset.now.sorts poset.now.pairs lower.now }
    ensures { OnOk result (string_bytes text.new ≡ string_bytes text.old ++ comma_names (map (name_at sorts.now) (maximal_sorts poset.now kind))) }
{
    let mut is_first = true;
    for sort in 0..poset.sorts() {
        if is_maximal_in(poset, lower, kind, sort) {
            push_next(text, sorts, is_first, sort)?;
            is_first = false;
        }
    }
    Ok(())
}

/// The name of a kind: its maximal sorts in brackets.
fn kind_text(
    alloc: Global,
    sorts: &Names,
    poset: &Poset,
    lower: &[bool],
    kind: u32,
) -> Result<String, NoMemory>
    requires { AreLower poset.now.sorts poset.now.pairs lower.now }
    ensures { IfOk result (λ text. string_bytes text ≡ kind_name sorts.now poset.now kind) }
{
    let mut text = String::from_str(alloc, "[")?;
    push_maximal_sorts(&mut text, sorts, poset, lower, kind)?;
    text.push_str("]")?;
    Ok(text)
}

/// The names of all kinds, in the order of their numbers.
pub fn kind_names(
    alloc: Global,
    sorts: &Names,
    poset: &Poset,
    lower: &[bool],
) -> Result<Vec<Text>, NoMemory>
    requires { AreLower poset.now.sorts poset.now.pairs lower.now }
    ensures { IfOk result (λ names. names.items ≡ kind_names sorts.now poset.now) }
{
    let mut names = Vec::with_capacity(alloc, poset.kinds() as usize)?;
    for i in 0..poset.kinds() {
        let name = kind_text(alloc, sorts, poset, lower, poset.sorts() + i)?;
        names.push(Text::new(alloc, name.as_str())?)?;
    }
    Ok(names)
}

/// Writes the name of a sort or of a kind.
pub fn write_sort(
    out: &mut Vec<u8>,
    sorts: &Names,
    poset: &Poset,
    lower: &[bool],
    sort: u32,
) -> Result<(), NoMemory>
    requires { AreLower poset.now.sorts poset.now.pairs lower.now }
    ensures { OnOk result (out.new.items ≡ out.old.items ++ sort_name sorts.now poset.now sort) }
{
    if sort < poset.sorts() {
        return write_name(out, sorts, sort);
    }
    let name = kind_text(sorts.allocator(), sorts, poset, lower, sort)?;
    write_text(out, name.as_str())
}
