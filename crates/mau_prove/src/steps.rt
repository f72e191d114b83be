//! Steps as facts.
ghost use Rattle.std.specs.Prelude.{◌≡◌, OnOk};
ghost use Rattle.mau_program.specs.LawfulPrograms.{IsLawfulProgram};
ghost use Rattle.mau_prove.specs.Making.{Stand};

use crate::contexts::add_context;
use crate::frames::{Frame, Making, add_fact};
use crate::terms::{line_of, lines_of};
use crate::told_sorts::add_sort_facts;
use mau_api::{Statement, Step};
use mau_facts::{BuiltFact, Fact, StepFact};
use mau_program::Program;
use mau_store::{NodeView, Store};
use mau_terms::{NoMemory, OpId, Seq, TermId};

/// The lines of the arguments of a term.
fn arguments(
    making: &Making,
    store: &Store,
    memo: &[u64],
    id: TermId,
) -> Result<Vec<u64>, NoMemory> {
    if id.0 >= store.len() {
        return Err(NoMemory);
    }
    match store.view(id) {
        NodeView::App(_, args) => lines_of(&making.lines, memo, args),
        NodeView::Num(_) | NodeView::Var(_) => Err(NoMemory),
    }
}

/// The fact of a use of a statement, with the lines of its context and of what it leads to. It uses what shows the condition, and the sorts of
/// its values.
fn use_of(
    making: &Making,
    frame: &Frame,
    memo: &[u64],
    step: &Step,
    rule: bool,
    number: u32,
    context: u64,
    to: u64,
) -> Result<Fact, NoMemory> {
    let bind = lines_of(&making.lines, memo, step.values.items())?;
    let mut uses: Vec<u64> = frame.uses.iter().copied().collect(making.alloc)?;
    add_sort_facts(&making.sorted, step.values.items(), &mut uses)?;
    Ok(Fact::Step(StepFact {
        rule,
        number,
        context,
        from: frame.at,
        to,
        bind: Seq::new(bind),
        uses: Seq::new(uses),
    }))
}

/// The fact of a use of what is built in.
fn built_of(
    making: &Making,
    frame: &Frame,
    op: OpId,
    args: Vec<u64>,
    context: u64,
    to: u64,
) -> Fact {
    Fact::Built(BuiltFact {
        op: op.0,
        context,
        from: frame.at,
        to,
        args: Seq::new(args),
    })
}

/// The fact of a step.
fn fact_of(
    making: &Making,
    store: &Store,
    memo: &[u64],
    frame: &Frame,
    step: &Step,
    context: u64,
    to: u64,
) -> Result<Fact, NoMemory> {
    match &step.statement {
        Statement::Equation(number) => {
            use_of(making, frame, memo, step, false, *number, context, to)
        }
        Statement::Rule(number) => use_of(making, frame, memo, step, true, *number, context, to),
        Statement::BuiltIn(op) => {
            let args = arguments(making, store, memo, step.before)?;
            Ok(built_of(making, frame, *op, args, context, to))
        }
        Statement::Parts(_, _) => Err(NoMemory),
    }
}

/// Adds a step at the term at hand.
pub fn add_step(
    making: &mut Making,
    program: &Program,
    store: &Store,
    memo: &[u64],
    frame: &mut Frame,
    step: &Step,
) -> Result<(), NoMemory>
    requires lawful { IsLawfulProgram program.now }
    requires stand { Stand program.now.sig making.old.lines }
    ensures { OnOk result (Stand program.now.sig making.new.lines) }
{
    let after = line_of(memo, step.after);
    if after == 0 {
        return Err(NoMemory);
    }
    let context = add_context(&mut making.lines, program, &step.context, 0)?;
    let to = add_context(&mut making.lines, program, &step.context, after)?;
    let fact = fact_of(making, store, memo, frame, step, context, to)?;
    let number = add_fact(making, fact)?;
    frame.facts.push(number)?;
    frame.uses.clear();
    frame.at = to;
    Ok(())
}
