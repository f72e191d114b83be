//! The lines of the answers of dsrewrite commands.
ghost use Rattle.std.specs.Prelude.{◌≡◌, ◌≢◌, ◌++◌, OnOk, IfOk};
ghost use Rattle.mau_store.specs.Node.{IsOf};
ghost use Rattle.mau_store.specs.Trees.{tree_at};
ghost use Rattle.mau_session.specs.Shown.{printer_in};
ghost use Rattle.mau_session.specs.StrategyLines.{strategy_fault_line, strategy_head, solution_lines, no_more_line, strategy_end_line};
ghost use Rattle.mau_session.specs.KeptStrategy.{ending_of};
ghost use Rattle.mau_session.specs.declared.state.Outcome.TheVariants as Outcome;

use crate::refusal::{write_head, write_strategy_fault};
use crate::results::{write_result_by, write_stopped};
use crate::searching::SearchEnd;
use crate::state::Outcome;
use mau_declare::{write_number, write_text};
use mau_module::Module;
use mau_print::Printer;
use mau_store::Store;
use mau_strattext::StratFault;
use mau_terms::{NoMemory, TermId, Vars};
use std::alloc::Global;

/// Writes why the strategy of a command is none, so that the item is refused.
pub fn refuse_strategy(
    out: &mut Vec<u8>,
    number: usize,
    fault: &StratFault,
) -> Result<Outcome, NoMemory>
    ensures bytes { OnOk result (out.new.items ≡ out.old.items ++ strategy_fault_line number fault.now) }
    ensures refused { IfOk result (λ left. left ≡ Outcome.Refused) }
    ensures named { OnOk result (fault.now ≢ StratFault.NoMemory) }
{
    write_head(out, number)?;
    write_text(out, "refused: ")?;
    write_strategy_fault(out, fault)?;
    write_text(out, "\n")?;
    Ok(Outcome::Refused)
}

/// Writes what the answer of a dsrewrite command begins with.
pub fn write_strategy_head(
    out: &mut Vec<u8>,
    number: usize,
    module: &Module,
) -> Result<(), NoMemory>
    ensures { OnOk result (out.new.items ≡ out.old.items ++ strategy_head number module.now) }
{
    write_head(out, number)?;
    write_text(out, "dsrewrite in ")?;
    write_text(out, module.name())?;
    write_text(out, "\n")
}

/// Writes the solution with a number, and the sort that is shown for it.
pub fn write_solution(
    out: &mut Vec<u8>,
    alloc: Global,
    module: &Module,
    printer: &Printer,
    vars: &Vars,
    number: u64,
    sort: u32,
    store: &Store,
    term: TermId,
) -> Result<(), NoMemory>
    requires printer { printer.now ≡ printer_in module.now }
    requires there { IsOf store.now term.0 }
    ensures { OnOk result (out.new.items ≡ out.old.items ++ solution_lines module.now vars.now number (tree_at store.now term.0, sort)) }
{
    write_text(out, "Solution ")?;
    write_number(out, u128::from(number))?;
    write_text(out, "\n")?;
    write_result_by(out, alloc, module, printer, vars, sort, store, term)
}

/// Writes that there is no further solution behind so many.
fn write_no_more(out: &mut Vec<u8>, shown: u64) -> Result<(), NoMemory>
    ensures { OnOk result (out.new.items ≡ out.old.items ++ no_more_line shown) }
{
    if shown == 0 {
        write_text(out, "No solution.\n")
    } else {
        write_text(out, "No more solutions.\n")
    }
}

/// Writes the last line of a listing that has shown so many solutions in all, for an item with this budget.
pub fn write_search_end(
    out: &mut Vec<u8>,
    limit: u64,
    end: SearchEnd,
    shown: u64,
) -> Result<(), NoMemory>
    ensures { OnOk result (out.new.items ≡ out.old.items ++ strategy_end_line limit (ending_of end) shown) }
{
    match end {
        SearchEnd::NoMore => write_no_more(out, shown),
        SearchEnd::BoundReached => write_text(out, "Bound reached.\n"),
        SearchEnd::Stopped => write_stopped(out, limit),
        SearchEnd::TooDeep => write_text(out, "Too deep.\n"),
        SearchEnd::Overflow => write_text(out, "Overflow.\n"),
        SearchEnd::CallDepth => write_text(out, "Call depth: 200.\n"),
    }
}
