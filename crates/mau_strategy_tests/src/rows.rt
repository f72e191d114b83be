//! What rows are: a module, a term, a strategy, and what is shown.
ghost use Rattle.mau_terms.specs.Bare.{IsBare};
ghost use Rattle.mau_terms.specs.View.{tree_of};
ghost use Rattle.mau_signature.specs.Signature.{terms_over};
ghost use Rattle.mau_program.specs.LawfulPrograms.{IsLawfulProgram};
ghost use Rattle.mau_module.specs.Lawful.{program_of};

use crate::reading::{bare_of, module_of};
use crate::runnable::may_be_run;
use crate::running::shown_of;
use crate::showing::{Shower, printer_of};
use crate::strategies::strategy_of;
use mau_module::Module;
use mau_program::Strategy;
use mau_terms::{Bare, Vars};
use std::alloc::Global;
use std::process::Abort;
use std::test::Fail;

/// The module, the budget, the term, the strategy, behind how many solutions the run rests, and what is shown.
pub type Row = (
    &'static str,
    u64,
    &'static str,
    &'static str,
    u64,
    &'static str,
);

/// What is shown of a strategy and a term over a module.
fn shown_by(
    rt: &impl Abort,
    alloc: Global,
    of: &Module,
    vars: &Vars,
    term: &Bare,
    strategy: &Strategy,
    row: &Row,
) -> Result<String, Fail>
    requires lawful { IsLawfulProgram (program_of of.now) }
    requires bare { IsBare (terms_over (program_of of.now).sig) (tree_of term.now) }
{
    let program = of.program();
    assert!(rt; may_be_run(program));
    let printer = printer_of(alloc, of)?;
    let shower = Shower {
        program,
        printer: &printer,
        vars,
    };
    shown_of(alloc, &shower, term, strategy, row.1, row.4)
}

/// What is shown of a row over its module.
fn shown_over(rt: &impl Abort, alloc: Global, of: &Module, row: &Row) -> Result<String, Fail>
    requires lawful { IsLawfulProgram (program_of of.now) }
{
    let mut vars = Vars::new(alloc);
    let term = bare_of(rt, alloc, of, &mut vars, row.2)?;
    let strategy = strategy_of(rt, alloc, of, &mut vars, row.3)?;
    shown_by(rt, alloc, of, &vars, &term, &strategy, row)
}

/// What is shown of a row.
fn shown_row(rt: &impl Abort, alloc: Global, row: &Row) -> Result<String, Fail> {
    let of = module_of(rt, alloc, row.0)?;
    shown_over(rt, alloc, &of, row)
}

/// Appends what is shown of a row, where it is not what the row says.
fn push_difference(row: &Row, shown: &str, differences: &mut String) -> Result<(), Fail> {
    if shown != row.5 {
        differences.push_str(row.2)?;
        differences.push_str(" using ")?;
        differences.push_str(row.3)?;
        differences.push_str(": ")?;
        differences.push_str(shown)?;
        differences.push('\n')?;
    }
    Ok(())
}

/// Each row is shown so.
pub fn assert_rows(rt: &impl Abort, alloc: Global, rows: &[Row]) -> Result<(), Fail> {
    let mut differences = String::new(alloc);
    for row in rows {
        let shown = shown_row(rt, alloc, row)?;
        push_difference(row, shown.as_str(), &mut differences)?;
    }
    assert!(rt; differences.is_empty());
    Ok(())
}
