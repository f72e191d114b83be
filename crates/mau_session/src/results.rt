//! The lines of the answer of an evaluation.
ghost use Rattle.std.specs.Prelude.{◌≡◌, ◌++◌, [], OnOk};
ghost use Rattle.mau_terms.specs.Bare.{IsBare};
ghost use Rattle.mau_terms.specs.View.{tree_of};
ghost use Rattle.mau_store.specs.Node.{IsOf};
ghost use Rattle.mau_store.specs.Trees.{tree_at};
ghost use Rattle.mau_api.specs.Answers.{uses_results};
ghost use Rattle.mau_api.specs.Meanings.{meanings_by};
ghost use Rattle.mau_results.specs.Kept.{answer_in, IsThere};
ghost use Rattle.mau_session.specs.Shown.{printer_in};
ghost use Rattle.mau_session.specs.Terms.{terms_in};
ghost use Rattle.mau_module.specs.Lawful.{program_of};
ghost use Rattle.mau_evaluation.specs.Run.{End};
ghost use Rattle.mau_session.specs.Lines.{count_line, result_line, stopped_line, end_line, answer_lines};
ghost use Rattle.mau_session.specs.Gains.{IsEnd};
ghost use Rattle.mau_session.specs.Gains.{GainsAnswer};

use crate::show::{printer_of, write_term};
use mau_api::{EvalEnd, Evaluator, StepWatcher};
use mau_declare::{write_number, write_text};
use mau_module::Module;
use mau_print::Printer;
use mau_results::{Answer, evaluate_bare};
use mau_store::Store;
use mau_terms::{Bare, NoMemory, TermId, Vars};
use std::alloc::Global;

/// Writes a count.
pub fn write_count(out: &mut Vec<u8>, rewrites: u64) -> Result<(), NoMemory>
    ensures { OnOk result (out.new.items ≡ out.old.items ++ count_line rewrites) }
{
    write_text(out, "rewrites: ")?;
    write_number(out, u128::from(rewrites))?;
    write_text(out, "\n")
}

/// Writes a value with the sort that is shown for it.
pub fn write_result(
    out: &mut Vec<u8>,
    alloc: Global,
    module: &Module,
    vars: &Vars,
    sort: u32,
    store: &Store,
    value: TermId,
) -> Result<(), NoMemory>
    requires { IsOf store.now value.0 }
    ensures { OnOk result (out.new.items ≡ out.old.items ++ result_line module.now vars.now sort (tree_at store.now value.0)) }
{
    let printer = printer_of(alloc, module)?;
    write_result_by(out, alloc, module, &printer, vars, sort, store, value)
}

/// Writes a value with the sort that is shown for it, by what prints the terms of the module.
pub fn write_result_by(
    out: &mut Vec<u8>,
    alloc: Global,
    module: &Module,
    printer: &Printer,
    vars: &Vars,
    sort: u32,
    store: &Store,
    value: TermId,
) -> Result<(), NoMemory>
    requires printer { printer.now ≡ printer_in module.now }
    requires there { IsOf store.now value.0 }
    ensures { OnOk result (out.new.items ≡ out.old.items ++ result_line module.now vars.now sort (tree_at store.now value.0)) }
{
    write_text(out, "result ")?;
    module.write_sort(out, sort)?;
    write_text(out, ": ")?;
    write_term(out, alloc, printer, vars, store, value)?;
    write_text(out, "\n")
}

/// Writes that the budget of an item was used up.
pub fn write_stopped(out: &mut Vec<u8>, limit: u64) -> Result<(), NoMemory>
    ensures { OnOk result (out.new.items ≡ out.old.items ++ stopped_line limit) }
{
    write_text(out, "Stopped: ")?;
    write_number(out, u128::from(limit))?;
    write_text(out, ".\n")
}

/// Writes the end of an item with this budget, but for want of memory.
pub fn write_item_end(out: &mut Vec<u8>, limit: u64, end: EvalEnd) -> Result<(), NoMemory>
    ensures { OnOk result ((x : End) × IsEnd end x × (out.new.items ≡ out.old.items ++ end_line limit x)) }
{
    match end {
        EvalEnd::Stopped => write_stopped(out, limit),
        EvalEnd::TooDeep => write_text(out, "Too deep.\n"),
        EvalEnd::Overflow => write_text(out, "Overflow.\n"),
        EvalEnd::NoMemory => Err(NoMemory),
    }
}

/// Writes the lines of an answer of an item with this budget.
fn write_answer(
    out: &mut Vec<u8>,
    alloc: Global,
    module: &Module,
    vars: &Vars,
    store: &Store,
    limit: u64,
    answer: &Answer,
) -> Result<(), NoMemory>
    requires there { IsThere store.now answer.now }
    ensures { OnOk result (out.new.items ≡ out.old.items ++ answer_lines module.now vars.now limit (answer_in store.now answer.now)) }
{
    match answer {
        Answer::Value(value) => {
            write_count(out, value.rewrites)?;
            write_result(out, alloc, module, vars, value.sort, store, value.term)
        }
        Answer::Stopped => write_stopped(out, limit),
        Answer::TooDeep => write_text(out, "Too deep.\n"),
        Answer::Overflow => write_text(out, "Overflow.\n"),
    }
}

/// Evaluates a term of a module, with the budget of an item, and writes the lines of the answer.
pub fn write_reduced<E: Evaluator, W: StepWatcher>(
    out: &mut Vec<u8>,
    alloc: Global,
    module: &Module,
    evaluator: &mut E,
    limit: u64,
    vars: &Vars,
    term: &Bare,
    watcher: &mut W,
) -> Result<(), NoMemory>
    requires bare { IsBare (terms_in module.now) (tree_of term.now) }
    requires meanings { E.meanings evaluator.old ≡ meanings_by (program_of module.now)
        (E.meanings evaluator.old).hooks limit (E.meanings evaluator.old).remembers }
    requires fits { E.fits evaluator.old [] }
    ensures { OnOk result (GainsAnswer module.now (E.meanings evaluator.old)
        (uses_results (E.meanings evaluator.old) (W.wanted watcher.old))
        vars.now (tree_of term.now) out.old.items out.new.items) }
{
    let mut store = Store::new(alloc);
    let answer = evaluate_bare(
        evaluator,
        module.signature(),
        &mut store,
        term,
        limit,
        watcher,
    )?;
    write_answer(out, alloc, module, vars, &store, limit, &answer)
}
