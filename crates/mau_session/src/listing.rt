//! Writing the solutions of a match, with their contexts or without.
ghost use Rattle.std.specs.Prelude.{◌≡◌, ◌+◌, ◌++◌, ◌<◌, ◌≤◌, length, take, codes, decimal, Some, OnOk, IfOk};
ghost use Rattle.mau_terms.specs.View.{tree_of};
ghost use Rattle.mau_store.specs.Node.{Extends, IsOf, AreOf};
ghost use Rattle.mau_store.specs.View.{numbers};
ghost use Rattle.mau_sorts.specs.Table.{Table};
ghost use Rattle.mau_listing.specs.Asked.{matcher_in, IsGiven};
ghost use Rattle.mau_session.specs.Matching.{numbered_from};
ghost use Rattle.mau_session.specs.KeptQuery.{id_tree, id_trees, query_of, asked_for, IsQueryOver, IsReady, GoesIn};
ghost use Rattle.mau_session.specs.Answers.{value_line, value_lines, substitution_lines, matcher_lines, last_line};
ghost use Rattle.mau_session.specs.Next.{ShowsNext, GainsMatchers, GainsShown};
ghost use Rattle.mau_session.specs.Shown.{printer_in};

use crate::part::write_part;
use crate::query::Query;
use crate::show::{printer_of, write_term, write_variable};
use mau_api::Evaluator;
use mau_declare::{write_number, write_text};
use mau_listing::{Lister, Solution};
use mau_module::Module;
use mau_print::Printer;
use mau_store::Store;
use mau_terms::{NoMemory, TermId, VarId, Vars};
use std::alloc::Global;

/// Writes the line of a variable and its value.
fn write_value(
    out: &mut Vec<u8>,
    alloc: Global,
    module: &Module,
    printer: &Printer,
    vars: &Vars,
    variable: VarId,
    store: &Store,
    value: TermId,
) -> Result<(), NoMemory>
    requires printer { printer.now ≡ printer_in module.now }
    requires there { IsOf store.now value.0 }
    ensures { OnOk result (out.new.items ≡ out.old.items ++ value_line module.now vars.now (variable.index, variable.sort) (id_tree store.now value)) }
{
    write_variable(out, module, vars, variable)?;
    write_text(out, " --> ")?;
    write_term(out, alloc, printer, vars, store, value)?;
    write_text(out, "\n")?;
    Ok(())
}

/// Writes a line for each of these values, which are those of the first variables.
fn write_values(
    out: &mut Vec<u8>,
    alloc: Global,
    module: &Module,
    printer: &Printer,
    vars: &Vars,
    store: &Store,
    values: &[TermId],
) -> Result<(), NoMemory>
    requires printer { printer.now ≡ printer_in module.now }
    requires few { length values.now ≤ length vars.now }
    requires there { AreOf store.now (numbers values.now) }
    requires small { length vars.now < 4294967296 }
    ensures { OnOk result (out.new.items ≡ out.old.items ++ value_lines module.now vars.now (numbered_from 0 (take (length values.now) vars.now)) (id_trees store.now values.now)) }
{
    for i in 0..values.len() {
        match vars.variable(i as u32) {
            Some(variable) => {
                write_value(
                    out, alloc, module, printer, vars, variable, store, values[i],
                )?
            }
            None => unreachable!(),
        }
    }
    Ok(())
}

/// Writes a substitution, which gives these values to the first variables.
fn write_substitution(
    out: &mut Vec<u8>,
    alloc: Global,
    module: &Module,
    printer: &Printer,
    vars: &Vars,
    store: &Store,
    values: &[TermId],
) -> Result<(), NoMemory>
    requires printer { printer.now ≡ printer_in module.now }
    requires few { length values.now ≤ length vars.now }
    requires there { AreOf store.now (numbers values.now) }
    requires small { length vars.now < 4294967296 }
    ensures { OnOk result (out.new.items ≡ out.old.items ++ substitution_lines module.now vars.now (numbered_from 0 (take (length values.now) vars.now)) (id_trees store.now values.now)) }
{
    if values.is_empty() {
        return write_text(out, "empty substitution\n");
    }
    write_values(out, alloc, module, printer, vars, store, values)
}

/// Writes the line above a solution.
fn write_matcher(out: &mut Vec<u8>, number: u64) -> Result<(), NoMemory>
    ensures { OnOk result (out.new.items ≡ out.old.items ++ codes "Matcher " ++ decimal number ++ codes "\n") }
{
    write_text(out, "Matcher ")?;
    write_number(out, u128::from(number))?;
    write_text(out, "\n")
}

/// Writes the solution that a query shows next, which is its last one then.
pub fn show_solution(
    out: &mut Vec<u8>,
    alloc: Global,
    module: &Module,
    printer: &Printer,
    query: &mut Query,
    solution: Solution,
) -> Result<(), NoMemory>
    requires printer { printer.now ≡ printer_in module.now }
    requires query { IsQueryOver module.now.signature query.old }
    requires given { (table : Table) × IsGiven query.old.with_context module.now.signature query.old.store table (asked_for query.old) solution }
    ensures shown { OnOk result (query.new ≡ record query.old { store = query.new.store; last = Some solution; shown = query.old.shown + 1 }) }
    ensures extends { Extends query.old.store query.new.store }
    ensures gained { OnOk result (out.new.items ≡ out.old.items ++ matcher_lines module.now query.old.vars query.old.with_context (tree_of query.old.pattern) (query.old.shown + 1) (matcher_in query.old.store solution)) }
    ensures query { OnOk result (IsQueryOver module.now.signature query.new) }
{
    let number = query.shown.checked_add(1).ok_or(NoMemory)?;
    write_matcher(out, number)?;
    write_part(out, alloc, module, printer, query, &solution)?;
    write_substitution(
        out,
        alloc,
        module,
        printer,
        &query.vars,
        &query.store,
        solution.values.items(),
    )?;
    query.shown = number;
    query.last = Some(solution);
    Ok(())
}

/// Shows the next solution of a query, and says whether there is one.
fn show_next<L: Lister, E: Evaluator>(
    out: &mut Vec<u8>,
    alloc: Global,
    module: &Module,
    printer: &Printer,
    query: &mut Query,
    listing: &mut L,
    evaluator: &mut E,
) -> Result<bool, NoMemory>
    requires contexts { L.with_context ≡ query.old.with_context }
    requires printer { printer.now ≡ printer_in module.now }
    requires ready { IsReady module.now.signature (E.table evaluator.old) query.old }
    requires fits { E.fits evaluator.old query.old.store }
    requires goes { GoesIn module.now (E.meanings evaluator.old) }
    requires signature { L.is_for listing.old module.now.signature }
    requires asked { L.asked listing.old ≡ asked_for query.old }
    requires given { L.given listing.old ≡ query.old.last }
    ensures shown { IfOk result (ShowsNext module.now (E.meanings evaluator.old) (query_of query.old) out.old.items (query_of query.new) out.new.items) }
    ensures ready { OnOk result (IsReady module.now.signature (E.table evaluator.new) query.new) }
    ensures fits { OnOk result (E.fits evaluator.new query.new.store) }
    ensures meanings { E.meanings evaluator.new ≡ E.meanings evaluator.old }
    ensures signature { OnOk result (L.is_for listing.new module.now.signature) }
    ensures asked { OnOk result (L.asked listing.new ≡ asked_for query.new) }
    ensures given { OnOk result (L.given listing.new ≡ query.new.last) }
    ensures contexts { OnOk result (query.new.with_context ≡ query.old.with_context) }
{
    match evaluator.list(&mut query.store, listing)? {
        None => Ok(false),
        Some(solution) => {
            show_solution(out, alloc, module, printer, query, solution)?;
            Ok(true)
        }
    }
}

/// Shows the next solutions of a query, at most so many, or all. Says whether it has ended: whether there were fewer.
fn show_solutions<L: Lister, E: Evaluator>(
    out: &mut Vec<u8>,
    alloc: Global,
    module: &Module,
    query: &mut Query,
    listing: &mut L,
    evaluator: &mut E,
    most: Option<u64>,
) -> Result<bool, NoMemory>
    requires contexts { L.with_context ≡ query.old.with_context }
    requires ready { IsReady module.now.signature (E.table evaluator.old) query.old }
    requires fits { E.fits evaluator.old query.old.store }
    requires goes { GoesIn module.now (E.meanings evaluator.old) }
    requires signature { L.is_for listing.old module.now.signature }
    requires asked { L.asked listing.old ≡ asked_for query.old }
    requires given { L.given listing.old ≡ query.old.last }
    ensures shown { IfOk result (GainsMatchers module.now (E.meanings evaluator.old) (query_of query.old) (query_of query.new) most out.old.items out.new.items) }
    ensures ready { OnOk result (IsReady module.now.signature (E.table evaluator.new) query.new) }
    ensures fits { OnOk result (E.fits evaluator.new query.new.store) }
    ensures meanings { E.meanings evaluator.new ≡ E.meanings evaluator.old }
{
    let printer = printer_of(alloc, module)?;
    for _ in 0..most.unwrap_or(u64::MAX) {
        if !show_next(out, alloc, module, &printer, query, listing, evaluator)? {
            return Ok(true);
        }
    }
    match most {
        Some(_) => Ok(false),
        // The lines of so many solutions don't fit into memory.
        None => Err(NoMemory),
    }
}

/// A listing of a query's solutions behind the last one that was shown.
pub fn listing_of<L: Lister>(alloc: Global, module: &Module, query: &Query) -> Result<L, NoMemory>
    ensures signature { IfOk result (λ listing. L.is_for listing module.now.signature) }
    ensures asked { IfOk result (λ listing. L.asked listing ≡ asked_for query.now) }
    ensures given { IfOk result (λ listing. L.given listing ≡ query.now.last) }
{
    let signature = module.signature();
    match &query.last {
        None => L::start(alloc, signature, &query.pattern, &[], query.number),
        Some(last) => L::resume(alloc, signature, &query.pattern, &[], query.number, last),
    }
}

/// Writes the last line of a listing that has shown so many solutions in all.
pub fn write_end(out: &mut Vec<u8>, has_ended: bool, shown: u64) -> Result<(), NoMemory>
    ensures { OnOk result (out.new.items ≡ out.old.items ++ last_line has_ended shown) }
{
    if !has_ended {
        write_text(out, "Bound reached.\n")
    } else if shown == 0 {
        write_text(out, "No match.\n")
    } else {
        write_text(out, "No more matches.\n")
    }
}

/// Shows the solutions of a query behind the last one that was shown, at most so many, and the last line. Says whether it has ended.
pub fn show<L: Lister + Drop, E: Evaluator>(
    out: &mut Vec<u8>,
    alloc: Global,
    module: &Module,
    query: &mut Query,
    evaluator: &mut E,
    most: Option<u64>,
) -> Result<bool, NoMemory>
    requires contexts { L.with_context ≡ query.old.with_context }
    requires ready { IsReady module.now.signature (E.table evaluator.old) query.old }
    requires fits { E.fits evaluator.old query.old.store }
    requires goes { GoesIn module.now (E.meanings evaluator.old) }
    ensures shown { IfOk result (GainsShown module.now (E.meanings evaluator.old) (query_of query.old) (query_of query.new) most out.old.items out.new.items) }
    ensures ready { OnOk result (IsReady module.now.signature (E.table evaluator.new) query.new) }
    ensures fits { OnOk result (E.fits evaluator.new query.new.store) }
    ensures meanings { E.meanings evaluator.new ≡ E.meanings evaluator.old }
{
    let mut listing: L = listing_of(alloc, module, query)?;
    let has_ended = show_solutions(out, alloc, module, query, &mut listing, evaluator, most)?;
    write_end(out, has_ended, query.shown)?;
    Ok(has_ended)
}
