//! The steps of a run, as they are shown while trace is on.
ghost use Rattle.std.specs.Prelude.{◌≡◌, ◌++◌, OnOk};
ghost use Rattle.mau_terms.specs.Subst.{Variable};
ghost use Rattle.mau_store.specs.Node.{IsOf, AreOf};
ghost use Rattle.mau_store.specs.Trees.{tree_at, trees_at};
ghost use Rattle.mau_store.specs.View.{numbers};
ghost use Rattle.mau_print.specs.Printed.{shown};
ghost use Rattle.mau_program.specs.LawfulPrograms.{IsLawfulProgram};
ghost use Rattle.mau_program.specs.LawfulStatements.{IsLawfulEquation, IsLawfulRule};
ghost use Rattle.mau_api.specs.Events.{made};
ghost use Rattle.mau_api.specs.Told.{StandsIn};
ghost use Rattle.mau_module.specs.Lawful.{program_of};
ghost use Rattle.mau_making.specs.Variables.{variables_in};
ghost use Rattle.mau_making.specs.Trace.{printer_in, variable_name, shown_variable, value_line, value_lines, substitution_lines, statement_lines, step_lines};
ghost use Rattle.mau_making.specs.Trace as Trace;

use crate::variables::statement_variables;
use mau_api::{Equation, Rule, Statement, Step};
use mau_declare::{write_number, write_text};
use mau_module::Module;
use mau_print::{Printer, show};
use mau_signing::write_operator;
use mau_store::Store;
use mau_terms::{NoMemory, TermId, VarId, Vars};

/// Writes a term.
fn write_term(
    out: &mut Vec<u8>,
    printer: &Printer,
    vars: &Vars,
    store: &Store,
    id: TermId,
) -> Result<(), NoMemory>
    requires { IsOf store.now id.0 }
    ensures { OnOk result (out.new.items ≡ out.old.items ++ shown printer.now vars.now (tree_at store.now id.0)) }
{
    let text = show(store.allocator(), printer, vars, store, id)?;
    write_text(out, text.as_str())
}

/// Writes the name of a variable.
fn write_variable_name(out: &mut Vec<u8>, vars: &Vars, variable: VarId) -> Result<(), NoMemory>
    ensures { OnOk result (out.new.items ≡ out.old.items ++ variable_name vars.now variable.index variable.sort) }
{
    match vars.get(variable) {
        Some((name, _)) => write_text(out, name),
        None => Ok(()),
    }
}

/// Writes a variable with its sort, or its kind.
fn write_variable(
    out: &mut Vec<u8>,
    module: &Module,
    own: &Vars,
    variable: VarId,
) -> Result<(), NoMemory>
    ensures { OnOk result (out.new.items ≡ out.old.items ++ shown_variable «module».now own.now (variable.index, variable.sort)) }
{
    write_variable_name(out, own, variable)?;
    write_text(out, ":")?;
    module.write_sort(out, variable.sort)
}

/// Writes a variable of a statement with its value.
fn write_value(
    out: &mut Vec<u8>,
    module: &Module,
    printer: &Printer,
    own: &Vars,
    vars: &Vars,
    store: &Store,
    variable: VarId,
    value: TermId,
) -> Result<(), NoMemory>
    requires printer { printer.now ≡ printer_in «module».now }
    requires value { IsOf store.now value.0 }
    ensures { OnOk result (out.new.items ≡ out.old.items ++ value_line «module».now own.now vars.now (variable.index, variable.sort) (tree_at store.now value.0)) }
{
    write_variable(out, module, own, variable)?;
    write_text(out, " --> ")?;
    write_term(out, printer, vars, store, value)?;
    write_text(out, "\n")
}

/// Writes variables of a statement with their values.
fn write_values(
    out: &mut Vec<u8>,
    module: &Module,
    printer: &Printer,
    own: &Vars,
    vars: &Vars,
    store: &Store,
    variables: &[VarId],
    values: &[TermId],
) -> Result<(), NoMemory>
    requires printer { printer.now ≡ printer_in «module».now }
    requires values { AreOf store.now (numbers values.now) }
    ensures { OnOk result (out.new.items ≡ out.old.items ++ value_lines «module».now own.now vars.now (variables_in variables.now) (trees_at store.now (numbers values.now))) }
{
    let count = variables.len().min(values.len());
    for i in 0..count {
        write_value(
            out,
            module,
            printer,
            own,
            vars,
            store,
            variables[i],
            values[i],
        )?;
    }
    Ok(())
}

/// Writes the substitution of a use of a statement.
fn write_substitution(
    out: &mut Vec<u8>,
    module: &Module,
    printer: &Printer,
    own: &Vars,
    vars: &Vars,
    store: &Store,
    variables: &[VarId],
    values: &[TermId],
) -> Result<(), NoMemory>
    requires printer { printer.now ≡ printer_in «module».now }
    requires values { AreOf store.now (numbers values.now) }
    ensures { OnOk result (out.new.items ≡ out.old.items
        ++ substitution_lines «module».now own.now vars.now (variables_in variables.now) (trees_at store.now (numbers values.now))) }
{
    if variables.is_empty() {
        return write_text(out, "empty substitution\n");
    }
    write_values(out, module, printer, own, vars, store, variables, values)
}

/// Writes a word and the number of a statement.
fn write_number_of(out: &mut Vec<u8>, word: &str, number: u32) -> Result<(), NoMemory>
    ensures { OnOk result (out.new.items ≡ out.old.items ++ Trace.number_line word.now number) }
{
    write_text(out, word)?;
    write_number(out, u128::from(number))?;
    write_text(out, "\n")
}

/// Writes the use of an equation.
fn write_equation(
    out: &mut Vec<u8>,
    module: &Module,
    printer: &Printer,
    vars: &Vars,
    store: &Store,
    number: u32,
    equation: &Equation,
    values: &[TermId],
) -> Result<(), NoMemory>
    requires lawful { IsLawfulEquation «module».now.signature equation.now }
    requires printer { printer.now ≡ printer_in «module».now }
    requires values { AreOf store.now (numbers values.now) }
    ensures { OnOk result (out.new.items ≡ out.old.items
        ++ Trace.equation_lines «module».now vars.now number equation.now (trees_at store.now (numbers values.now))) }
{
    let variables = statement_variables(
        store.allocator(),
        module.signature(),
        &equation.left,
        equation.cond.items(),
        &equation.right,
    )?;
    write_number_of(out, "equation ", number)?;
    write_substitution(
        out,
        module,
        printer,
        &equation.vars,
        vars,
        store,
        &variables,
        values,
    )
}

/// Writes the use of a rule.
fn write_rule(
    out: &mut Vec<u8>,
    module: &Module,
    printer: &Printer,
    vars: &Vars,
    store: &Store,
    number: u32,
    rule: &Rule,
    values: &[TermId],
) -> Result<(), NoMemory>
    requires lawful { IsLawfulRule «module».now.signature rule.now }
    requires printer { printer.now ≡ printer_in «module».now }
    requires values { AreOf store.now (numbers values.now) }
    ensures { OnOk result (out.new.items ≡ out.old.items
        ++ Trace.rule_lines «module».now vars.now number rule.now (trees_at store.now (numbers values.now))) }
{
    let variables = statement_variables(
        store.allocator(),
        module.signature(),
        &rule.left,
        rule.cond.items(),
        &rule.right,
    )?;
    write_number_of(out, "rule ", number)?;
    write_substitution(
        out, module, printer, &rule.vars, vars, store, &variables, values,
    )
}

/// Writes the use of the equation with a number.
fn write_equation_at(
    out: &mut Vec<u8>,
    module: &Module,
    printer: &Printer,
    vars: &Vars,
    store: &Store,
    number: u32,
    values: &[TermId],
) -> Result<(), NoMemory>
    requires lawful { IsLawfulProgram (program_of «module».now) }
    requires printer { printer.now ≡ printer_in «module».now }
    requires values { AreOf store.now (numbers values.now) }
    ensures { OnOk result (out.new.items ≡ out.old.items
        ++ Trace.numbered_equation «module».now vars.now number (trees_at store.now (numbers values.now))) }
{
    if number == 0 {
        return Ok(());
    }
    let equations = module.program().equations.items();
    match equations.get(number as usize - 1) {
        Some(equation) => write_equation(
            out, module, printer, vars, store, number, equation, values,
        ),
        None => Ok(()),
    }
}

/// Writes the use of the rule with a number.
fn write_rule_at(
    out: &mut Vec<u8>,
    module: &Module,
    printer: &Printer,
    vars: &Vars,
    store: &Store,
    number: u32,
    values: &[TermId],
) -> Result<(), NoMemory>
    requires lawful { IsLawfulProgram (program_of «module».now) }
    requires printer { printer.now ≡ printer_in «module».now }
    requires values { AreOf store.now (numbers values.now) }
    ensures { OnOk result (out.new.items ≡ out.old.items
        ++ Trace.numbered_rule «module».now vars.now number (trees_at store.now (numbers values.now))) }
{
    if number == 0 {
        return Ok(());
    }
    let rules = module.program().rules.items();
    match rules.get(number as usize - 1) {
        Some(rule) => write_rule(out, module, printer, vars, store, number, rule, values),
        None => Ok(()),
    }
}

/// Writes what was used in a step.
fn write_statement(
    out: &mut Vec<u8>,
    module: &Module,
    printer: &Printer,
    vars: &Vars,
    store: &Store,
    statement: &Statement,
    values: &[TermId],
) -> Result<(), NoMemory>
    requires lawful { IsLawfulProgram (program_of «module».now) }
    requires printer { printer.now ≡ printer_in «module».now }
    requires values { AreOf store.now (numbers values.now) }
    ensures { OnOk result (out.new.items ≡ out.old.items
        ++ statement_lines «module».now vars.now statement.now (trees_at store.now (numbers values.now))) }
{
    match statement {
        Statement::Equation(number) => {
            write_equation_at(out, module, printer, vars, store, *number, values)
        }
        Statement::Rule(number) => {
            write_rule_at(out, module, printer, vars, store, *number, values)
        }
        Statement::BuiltIn(op) => {
            write_text(out, "built-in ")?;
            write_operator(out, module.signature(), *op)?;
            write_text(out, "\n")
        }
        Statement::Parts(_, _) => Ok(()),
    }
}

/// Writes the lines of a step of a run over the terms of a store. The variables of the terms have the names of `vars`.
pub fn write_step(
    out: &mut Vec<u8>,
    module: &Module,
    printer: &Printer,
    vars: &Vars,
    store: &Store,
    step: &Step,
) -> Result<(), NoMemory>
    requires lawful { IsLawfulProgram (program_of «module».now) }
    requires printer { printer.now ≡ printer_in «module».now }
    requires there { StandsIn store.now (made step.now) }
    ensures { OnOk result (out.new.items ≡ out.old.items ++ step_lines «module».now vars.now store.now step.now) }
{
    write_statement(
        out,
        module,
        printer,
        vars,
        store,
        &step.statement,
        step.values.items(),
    )?;
    write_term(out, printer, vars, store, step.before)?;
    write_text(out, " ---> ")?;
    write_term(out, printer, vars, store, step.after)?;
    write_text(out, "\n")
}
