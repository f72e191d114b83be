//! The text of a term.
ghost use Rattle.std.specs.Prelude.{◌≡◌, ◌++◌, ◌≤◌, ◌<◌, [], ℕ, true, false, length, nat_lt, string_bytes, OnOk, IfOk, IfSome, IfNone};
ghost use Rattle.mau_store.specs.Node.{IsOf, AreOf};
ghost use Rattle.mau_store.specs.View.{numbers};
ghost use Rattle.mau_store.specs.Trees.{tree_at};
ghost use Rattle.mau_grammar.specs.Production.{places};
ghost use Rattle.mau_print.specs.Written.{in_parentheses, guarded, gap, pieces, spaced, nested, comma_texts};
ghost use Rattle.mau_print.specs.LeftToRight.{opening, closing, times, IsSecondPlace};
ghost use Rattle.mau_print.specs.Readable.{IsTextOf};
ghost use Rattle.mau_print.specs.Printed.{Pairs, shown, variable_name, variable_text, numeral_printed};
ghost use Rattle.mau_print.specs.PrintedIds.{printed_at, printed_all};

use crate::layout::Layout;
use crate::printer::Printer;
use itoa::Buffer;
use mau_grammar::Part;
use mau_store::{NodeView, Store};
use mau_terms::{NoMemory, TermId, VarId, Vars};
use std::alloc::Global;

/// Writes the name of a variable.
fn write_variable_name(out: &mut String, vars: &Vars, variable: VarId) -> Result<(), NoMemory>
    ensures { OnOk result (string_bytes out.new ≡ string_bytes out.old ++ variable_name vars.now variable.index variable.sort) }
{
    match vars.get(variable) {
        Some((name, _)) => {
            out.push_str(name)?;
            Ok(())
        }
        None => Ok(()),
    }
}

/// Writes a variable with its sort, or the name of its kind.
fn write_variable(
    out: &mut String,
    printer: &Printer,
    vars: &Vars,
    variable: VarId,
) -> Result<(), NoMemory>
    ensures { OnOk result (string_bytes out.new ≡ string_bytes out.old ++ variable_text printer.now vars.now variable.index variable.sort) }
{
    write_variable_name(out, vars, variable)?;
    out.push_str(":")?;
    out.push_str(printer.name(variable.sort))?;
    Ok(())
}

/// Writes a numeral, with its sort where its text is also that of a constant or a declared variable.
fn write_numeral(out: &mut String, printer: &Printer, number: u128) -> Result<(), NoMemory>
    ensures { OnOk result (string_bytes out.new ≡ string_bytes out.old ++ (numeral_printed printer.now number).text) }
{
    let mut buffer = Buffer::new();
    let text = buffer.format(number);
    if !printer.is_clash(text) {
        out.push_str(text)?;
        return Ok(());
    }
    out.push_str("(")?;
    out.push_str(text)?;
    out.push_str(").")?;
    out.push_str(printer.numeral_sort())?;
    Ok(())
}

/// The level of a term as it is printed.
fn level_of(printer: &Printer, store: &Store, id: TermId) -> u32
    requires { IsOf store.now id.0 }
    ensures { (vars : Pairs) → result ≡ (printed_at printer.now vars store.now id).level }
{
    match store.view(id) {
        NodeView::Var(_) => 1,
        NodeView::Num(number) => {
            if printer.is_clash(Buffer::new().format(number)) {
                0
            } else {
                1
            }
        }
        NodeView::App(op, _) => match printer.layout(op) {
            Some(layout) => layout.level(),
            None => 1,
        },
    }
}

/// Writes a term.
#[cycle(write)]
fn write_term(
    out: &mut String,
    printer: &Printer,
    vars: &Vars,
    store: &Store,
    id: TermId,
) -> Result<(), NoMemory>
    requires { IsOf store.now id.0 }
    ensures { OnOk result (string_bytes out.new ≡ string_bytes out.old ++ (printed_at printer.now vars.now store.now id).text) }
{
    match store.view(id) {
        NodeView::Var(variable) => write_variable(out, printer, vars, variable),
        NodeView::Num(number) => write_numeral(out, printer, number),
        NodeView::App(op, args) => match printer.layout(op) {
            None => Ok(()),
            Some(Layout::Constant(_, text)) => {
                out.push_str(text.as_str())?;
                Ok(())
            }
            Some(Layout::Prefix(text)) => {
                out.push_str(text.as_str())?;
                write_arguments(out, printer, vars, store, args)
            }
            Some(Layout::Form(_, parts)) => {
                write_parts(out, printer, vars, store, true, parts.items(), args)
            }
            Some(Layout::Chain(level, parts)) => {
                write_chain(out, printer, vars, store, *level, parts.items(), args)
            }
        },
    }
}

/// Writes an argument at a place that admits levels up to `upto`.
#[cycle(write)]
fn write_argument(
    out: &mut String,
    printer: &Printer,
    vars: &Vars,
    store: &Store,
    id: TermId,
    upto: u32,
) -> Result<(), NoMemory>
    requires { IsOf store.now id.0 }
    ensures { OnOk result (string_bytes out.new ≡ string_bytes out.old ++ guarded upto (printed_at printer.now vars.now store.now id)) }
{
    if level_of(printer, store, id) <= upto {
        return write_term(out, printer, vars, store, id);
    }
    out.push_str("(")?;
    write_term(out, printer, vars, store, id)?;
    out.push_str(")")?;
    Ok(())
}

/// Writes arguments in parentheses, parted by commas.
#[cycle(write)]
fn write_arguments(
    out: &mut String,
    printer: &Printer,
    vars: &Vars,
    store: &Store,
    args: &[TermId],
) -> Result<(), NoMemory>
    requires { AreOf store.now (numbers args.now) }
    ensures { OnOk result (string_bytes out.new ≡ string_bytes out.old ++ in_parentheses (comma_texts (printed_all printer.now vars.now store.now args.now))) }
{
    out.push_str("(")?;
    let mut is_first = true;
    for id in args {
        if !is_first {
            out.push_str(", ")?;
        }
        is_first = false;
        write_term(out, printer, vars, store, *id)?;
    }
    out.push_str(")")?;
    Ok(())
}

/// Writes what stands before a piece.
fn write_gap(out: &mut String, is_first: bool) -> Result<(), NoMemory>
    ensures { OnOk result (string_bytes out.new ≡ string_bytes out.old ++ gap is_first) }
{
    if !is_first {
        out.push_str(" ")?;
    }
    Ok(())
}

/// Writes a form with arguments at its places; its first piece is the first of all, or not.
#[cycle(write)]
fn write_parts(
    out: &mut String,
    printer: &Printer,
    vars: &Vars,
    store: &Store,
    is_first: bool,
    parts: &[Part],
    args: &[TermId],
) -> Result<(), NoMemory>
    requires { AreOf store.now (numbers args.now) }
    ensures { OnOk result (string_bytes out.new ≡ string_bytes out.old ++ spaced is_first (pieces parts.now (printed_all printer.now vars.now store.now args.now))) }
{
    let mut is_next_first = is_first;
    let mut next: usize = 0;
    for part in parts {
        match part {
            Part::Word(word) => {
                write_gap(out, is_next_first)?;
                out.push_str(word.as_str())?;
                is_next_first = false;
            }
            Part::Hole(hole) => {
                if next < args.len() {
                    write_gap(out, is_next_first)?;
                    write_argument(out, printer, vars, store, args[next], hole.upto)?;
                    is_next_first = false;
                    next += 1;
                }
            }
        }
    }
    Ok(())
}

/// The number of parts before the second place for an argument, and the levels that this place admits.
fn second_place(parts: &[Part]) -> Option<(usize, u32)>
    ensures some { IfSome result (λ p. IsSecondPlace parts.now p.0 p.1) }
    ensures none { IfNone result (places parts.now ≤ 1) }
{
    let mut seen: usize = 0;
    for (i, part) in parts.iter().enumerate() {
        if let Part::Hole(hole) = part {
            if seen == 1 {
                return Some((i, hole.upto));
            }
            seen = 1;
        }
    }
    None
}

/// Writes the words of some parts, each behind a space.
fn write_words(out: &mut String, parts: &[Part]) -> Result<(), NoMemory>
    ensures { OnOk result (string_bytes out.new ≡ string_bytes out.old ++ spaced false (pieces parts.now [])) }
{
    for part in parts {
        match part {
            Part::Word(word) => {
                out.push_str(" ")?;
                out.push_str(word.as_str())?;
            }
            Part::Hole(_) => {}
        }
    }
    Ok(())
}

/// Writes what stands behind the list of the others, where these parts follow it.
fn write_closing(out: &mut String, in_parentheses: bool, after: &[Part]) -> Result<(), NoMemory>
    ensures { OnOk result (string_bytes out.new ≡ string_bytes out.old ++ closing in_parentheses after.now) }
{
    if in_parentheses {
        out.push_str(")")?;
        return write_words(out, after);
    }
    write_words(out, after)
}

/// Writes what stands behind `count` lists of others.
fn write_closings(
    out: &mut String,
    count: usize,
    in_parentheses: bool,
    after: &[Part],
) -> Result<(), NoMemory>
    ensures { OnOk result (string_bytes out.new ≡ string_bytes out.old ++ times count (closing in_parentheses after.now)) }
{
    for _written in 0..count {
        write_closing(out, in_parentheses, after)?;
    }
    Ok(())
}

/// Writes the first element of a list, and what else stands before the list of the others.
#[cycle(write)]
fn write_opening(
    out: &mut String,
    printer: &Printer,
    vars: &Vars,
    store: &Store,
    in_parentheses: bool,
    before: &[Part],
    id: TermId,
) -> Result<(), NoMemory>
    requires { IsOf store.now id.0 }
    ensures { OnOk result (string_bytes out.new ≡ string_bytes out.old ++ opening in_parentheses before.now (printed_at printer.now vars.now store.now id)) }
{
    write_parts(out, printer, vars, store, true, before, &[id])?;
    out.push_str(" ")?;
    if in_parentheses {
        out.push_str("(")?;
        return Ok(());
    }
    Ok(())
}

/// Writes a list of three elements or more under an associative form, which has its second place behind `at` parts.
#[cycle(write)]
fn write_long_chain(
    out: &mut String,
    printer: &Printer,
    vars: &Vars,
    store: &Store,
    in_parentheses: bool,
    parts: &[Part],
    at: usize,
    args: &[TermId],
) -> Result<(), NoMemory>
    requires there { AreOf store.now (numbers args.now) }
    requires place { (upto : ℕ) × IsSecondPlace parts.now at upto }
    requires long { 2 < length args.now }
    ensures { OnOk result ((q upto : ℕ) → IsSecondPlace parts.now at upto → in_parentheses ≡ nat_lt upto q → string_bytes out.new ≡ string_bytes out.old ++ nested q parts.now (printed_all printer.now vars.now store.now args.now)) }
{
    let others = args.len() - 2;
    for i in 0..others {
        write_opening(
            out,
            printer,
            vars,
            store,
            in_parentheses,
            &parts[..at],
            args[i],
        )?;
    }
    write_parts(out, printer, vars, store, true, parts, &args[others..])?;
    write_closings(out, others, in_parentheses, &parts[at + 1..])
}

/// Writes a list under an associative form.
#[cycle(write)]
fn write_chain(
    out: &mut String,
    printer: &Printer,
    vars: &Vars,
    store: &Store,
    level: u32,
    parts: &[Part],
    args: &[TermId],
) -> Result<(), NoMemory>
    requires { AreOf store.now (numbers args.now) }
    ensures { OnOk result (string_bytes out.new ≡ string_bytes out.old ++ nested level parts.now (printed_all printer.now vars.now store.now args.now)) }
{
    if args.len() < 3 {
        return write_parts(out, printer, vars, store, true, parts, args);
    }
    match second_place(parts) {
        None => write_parts(out, printer, vars, store, true, parts, args),
        Some((at, upto)) => {
            write_long_chain(out, printer, vars, store, upto < level, parts, at, args)
        }
    }
}

/// The text of a term, by its normal form, which is `id` of the store. Where the module's names are such that a text can write
/// them, the text reads as the term.
pub fn show(
    alloc: Global,
    printer: &Printer,
    vars: &Vars,
    store: &Store,
    id: TermId,
) -> Result<String, NoMemory>
    requires { IsOf store.now id.0 }
    ensures text { IfOk result (λ text. string_bytes text ≡ shown printer.now vars.now (tree_at store.now id.0)) }
    ensures reads { IfOk result (λ text. IsTextOf printer.now vars.now (tree_at store.now id.0) (string_bytes text)) }
{
    let mut out = String::new(alloc);
    write_term(&mut out, printer, vars, store, id)?;
    Ok(out)
}
