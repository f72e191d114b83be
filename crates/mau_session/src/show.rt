//! Printing variables and terms.
ghost use Rattle.std.specs.Prelude.{◌≡◌, ◌++◌, IfOk, OnOk};
ghost use Rattle.mau_store.specs.Node.{IsOf};
ghost use Rattle.mau_store.specs.Trees.{tree_at};
ghost use Rattle.mau_print.specs.Printed.{shown};
ghost use Rattle.mau_session.specs.Shown.{variable_name, shown_variable, printer_in};

use mau_declare::write_text;
use mau_module::Module;
use mau_print::{Printer, show};
use mau_store::Store;
use mau_terms::{NoMemory, TermId, VarId, Vars};
use std::alloc::Global;

/// Writes the name of a variable.
fn write_variable_name(out: &mut Vec<u8>, vars: &Vars, variable: VarId) -> Result<(), NoMemory>
    ensures { OnOk result (out.new.items ≡ out.old.items ++ variable_name vars.now variable.index variable.sort) }
{
    match vars.get(variable) {
        Some((name, _)) => write_text(out, name),
        None => Ok(()),
    }
}

/// Writes a variable with its sort, or its kind.
pub fn write_variable(
    out: &mut Vec<u8>,
    module: &Module,
    vars: &Vars,
    variable: VarId,
) -> Result<(), NoMemory>
    ensures { OnOk result (out.new.items ≡ out.old.items ++ shown_variable module.now vars.now variable.index variable.sort) }
{
    write_variable_name(out, vars, variable)?;
    write_text(out, ":")?;
    module.write_sort(out, variable.sort)
}

/// What prints the terms of a module.
pub fn printer_of(alloc: Global, module: &Module) -> Result<Printer, NoMemory>
    ensures { IfOk result (λ printer. printer ≡ printer_in module.now) }
{
    let kinds = module.kind_names(alloc)?;
    let printer = Printer::of(alloc, module.signature(), module.grammar(), &kinds)?;
    Ok(printer)
}

/// Writes a term, which is a normal form of the store.
pub fn write_term(
    out: &mut Vec<u8>,
    alloc: Global,
    printer: &Printer,
    vars: &Vars,
    store: &Store,
    id: TermId,
) -> Result<(), NoMemory>
    requires { IsOf store.now id.0 }
    ensures { OnOk result (out.new.items ≡ out.old.items ++ shown printer.now vars.now (tree_at store.now id.0)) }
{
    let text = show(alloc, printer, vars, store, id)?;
    write_text(out, text.as_str())
}
