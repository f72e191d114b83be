//! What a section concludes, as text.
ghost use Rattle.std.specs.Prelude.{◌≡◌, ◌<◌, ◌++◌, IfOk, OnOk, length};
ghost use Rattle.mau_terms.specs.Tree.{Tree};
ghost use Rattle.mau_store.specs.Node.{IsOf};
ghost use Rattle.mau_store.specs.Trees.{tree_at};
ghost use Rattle.mau_print.specs.Printed.{shown};
ghost use Rattle.mau_facts.specs.declared.document.Section.{Section};
ghost use Rattle.mau_check.specs.Judged.{Concludes, IsConclusion, said_last};
ghost use Rattle.mau_module.specs.Lawful.{program_of};
ghost use Rattle.mau_docheck.specs.Concluded.{printer_in, all_variables, ends_line, leads_line, conclusion_of};

use crate::holes::{HOLE, add_holes};
use crate::naming::name_holes;
use mau_check::Conclusion;
use mau_declare::write_text;
use mau_module::Module;
use mau_print::{Printer, show};
use mau_store::Store;
use mau_terms::{NoMemory, TermId, Vars};
use std::alloc::Global;

/// What prints the terms of a module.
fn printer_of(alloc: Global, module: &Module) -> Result<Printer, NoMemory>
    ensures { IfOk result (λ printer. printer ≡ printer_in «module».now) }
{
    let kinds = module.kind_names(alloc)?;
    let printer = Printer::of(alloc, module.signature(), module.grammar(), &kinds)?;
    Ok(printer)
}

/// Writes a term.
fn write_term(
    out: &mut Vec<u8>,
    alloc: Global,
    printer: &Printer,
    vars: &Vars,
    store: &Store,
    id: TermId,
) -> Result<(), NoMemory>
    requires { IsOf store.now id.0 }
    ensures { OnOk result (out.new.items ≡ out.old.items ++ shown printer.now vars.now (tree_at store.now id.0)) }
{
    let text = show(alloc, printer, vars, store, id)?;
    write_text(out, text.as_str())
}

/// Writes that one term leads to another, where both have numbers in a store.
fn write_ends(
    out: &mut Vec<u8>,
    alloc: Global,
    module: &Module,
    vars: &Vars,
    store: &Store,
    from: TermId,
    to: TermId,
) -> Result<(), NoMemory>
    requires from { IsOf store.now from.0 }
    requires to { IsOf store.now to.0 }
    ensures { OnOk result (out.new.items ≡ out.old.items ++ ends_line «module».now vars.now (tree_at store.now from.0) (tree_at store.now to.0)) }
{
    let printer = printer_of(alloc, module)?;
    write_text(out, "conclusion: ")?;
    write_term(out, alloc, &printer, vars, store, from)?;
    write_text(out, " ---> ")?;
    write_term(out, alloc, &printer, vars, store, to)?;
    write_text(out, "\n")
}

/// Writes that one term leads to another.
fn write_leads(
    out: &mut Vec<u8>,
    alloc: Global,
    module: &Module,
    conclusion: Conclusion,
) -> Result<(), NoMemory>
    requires from { IsOf conclusion.store conclusion.from.0 }
    requires to { IsOf conclusion.store conclusion.to.0 }
    ensures { (x : Section) (t u : Tree) → Concludes (program_of «module».now) x conclusion t u
        → OnOk result (out.new.items ≡ out.old.items ++ leads_line «module».now (all_variables «module».now x) t u) }
{
    let mut vars = conclusion.variables;
    add_holes(&mut vars, module.signature().poset())?;
    if vars.len() > HOLE as usize {
        return Err(NoMemory);
    }
    let (store, numbers) = name_holes(&conclusion.store, &vars)?;
    let from = numbers[conclusion.from.0];
    let to = numbers[conclusion.to.0];
    write_ends(out, alloc, module, &vars, &store, from, to)
}

/// Writes what a section concludes, if it concludes something.
pub fn write_conclusion(
    out: &mut Vec<u8>,
    alloc: Global,
    module: &Module,
    conclusion: Option<Conclusion>,
) -> Result<(), NoMemory>
    requires { (x : Section) × IsConclusion (program_of «module».now) x conclusion (said_last (program_of «module».now) x) }
    ensures { (x : Section) → IsConclusion (program_of «module».now) x conclusion (said_last (program_of «module».now) x)
        → OnOk result (out.new.items ≡ out.old.items ++ conclusion_of «module».now x) }
{
    match conclusion {
        Some(conclusion) => write_leads(out, alloc, module, conclusion),
        None => Ok(()),
    }
}
