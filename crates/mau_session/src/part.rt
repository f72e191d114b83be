//! Writing what a solution with contexts shows of them: the part of the subject that is matched, and what stands around it.
ghost use Rattle.std.specs.Prelude.{◌≡◌, ◌++◌, ◌<◌, ℕ, List, length, codes, OnOk, IfOk};
ghost use Rattle.mau_terms.specs.Tree.{Tree, node};
ghost use Rattle.mau_terms.specs.Bare.{IsBare};
ghost use Rattle.mau_terms.specs.Norm.{norm};
ghost use Rattle.mau_terms.specs.Subst.{with_values};
ghost use Rattle.mau_terms.specs.Solution.{over_list};
ghost use Rattle.mau_terms.specs.View.{tree_of};
ghost use Rattle.mau_signature.specs.Signature.{IsOperator, terms_over, theory_at};
ghost use Rattle.mau_store.specs.Node.{Extends, IsOf, Node};
ghost use Rattle.mau_store.specs.Trees.{tree_at, trees_at};
ghost use Rattle.mau_store.specs.View.{numbers};
ghost use Rattle.mau_canon.specs.Standing.{IsNumberOf, StandWithin};
ghost use Rattle.mau_canon.specs.Within.{IsWithin};
ghost use Rattle.mau_sorts.specs.Table.{Table};
ghost use Rattle.mau_listing.specs.Asked.{matcher_in, IsGiven};
ghost use Rattle.mau_session.specs.Answers.{term_line, context_line, part_lines, right_label};
ghost use Rattle.mau_session.specs.Parts.{IsContext};
ghost use Rattle.mau_session.specs.KeptQuery.{asked_for, IsQueryOver};
ghost use Rattle.mau_session.specs.Shown.{printer_in};

use crate::query::Query;
use crate::show::write_term;
use mau_canon::{BuildFault, build_instance, from_list};
use mau_declare::write_text;
use mau_listing::{Solution, places_of};
use mau_module::Module;
use mau_print::Printer;
use mau_signature::Signature;
use mau_store::{NodeView, Store};
use mau_terms::{Bare, NoMemory, OpId, TermId, Vars};
use mau_trial::variables_of;
use std::alloc::Global;

/// Writes a term behind its label.
fn write_labelled(
    out: &mut Vec<u8>,
    alloc: Global,
    printer: &Printer,
    vars: &Vars,
    store: &Store,
    label: &str,
    id: TermId,
) -> Result<(), NoMemory>
    requires there { IsOf store.now id.0 }
    ensures { OnOk result (out.new.items ≡ out.old.items ++ term_line printer.now vars.now label.now (tree_at store.now id.0)) }
{
    write_text(out, label)?;
    write_text(out, " = ")?;
    write_term(out, alloc, printer, vars, store, id)?;
    write_text(out, "\n")
}

/// The instance of a pattern by the values of its variables, where that is within the limits.
fn instance_of(
    alloc: Global,
    sig: &Signature,
    store: &mut Store,
    pattern: &Bare,
    values: &[TermId],
) -> Result<TermId, NoMemory>
    requires pattern { IsBare (terms_over sig.now) (tree_of pattern.now) }
    requires values { StandWithin (theory_at sig.now) store.old (numbers values.now) }
    requires within { IsWithin (theory_at sig.now) (norm (theory_at sig.now) (with_values (tree_of pattern.now) (trees_at store.old (numbers values.now)))) }
    ensures instance { IfOk result (λ id. IsNumberOf store.new id.0 (norm (theory_at sig.now) (with_values (tree_of pattern.now) (trees_at store.old (numbers values.now))))) }
    ensures extends { Extends store.old store.new }
{
    let places = places_of(alloc, sig, pattern)?;
    let variables = variables_of(alloc, &places)?;
    match build_instance(store, sig, pattern, &variables, values) {
        Ok(id) => Ok(id),
        Err(BuildFault::NoMemory) => Err(NoMemory),
        Err(BuildFault::TooDeep) => unreachable!(),
        Err(BuildFault::Overflow) => unreachable!(),
    }
}

/// An associative operator over the list of a context, which has an element.
fn over_context(
    sig: &Signature,
    store: &mut Store,
    op: OpId,
    items: &[TermId],
) -> Result<TermId, NoMemory>
    requires operator { IsOperator sig.now op.0 }
    requires items { StandWithin (theory_at sig.now) store.old (numbers items.now) }
    requires context { IsContext sig.now op.0 (trees_at store.old (numbers items.now)) }
    requires some { 0 < length items.now }
    ensures list { IfOk result (λ id. IsNumberOf store.new id.0 (over_list (theory_at sig.now op.0) op.0 (trees_at store.old (numbers items.now)))) }
    ensures extends { Extends store.old store.new }
{
    match from_list(store, sig, op, items) {
        Ok(id) => Ok(id),
        Err(BuildFault::NoMemory) => Err(NoMemory),
        Err(BuildFault::TooDeep) => unreachable!(),
        Err(BuildFault::Overflow) => unreachable!(),
    }
}

/// Writes the line of a context under an associative operator, unless it is empty.
fn write_context(
    out: &mut Vec<u8>,
    alloc: Global,
    module: &Module,
    printer: &Printer,
    vars: &Vars,
    store: &mut Store,
    op: OpId,
    label: &str,
    items: &[TermId],
) -> Result<(), NoMemory>
    requires printer { printer.now ≡ printer_in module.now }
    requires operator { IsOperator module.now.signature op.0 }
    requires items { StandWithin (theory_at module.now.signature) store.old (numbers items.now) }
    requires context { IsContext module.now.signature op.0 (trees_at store.old (numbers items.now)) }
    ensures gained { OnOk result (out.new.items ≡ out.old.items ++ context_line module.now vars.now op.0 label.now (trees_at store.old (numbers items.now))) }
    ensures extends { Extends store.old store.new }
{
    if items.is_empty() {
        return Ok(());
    }
    let id = over_context(module.signature(), store, op, items)?;
    write_labelled(out, alloc, printer, vars, store, label, id)
}

/// What the context behind the part is called.
fn right_label_of(is_comm: bool) -> &'static str
    ensures { result.now ≡ right_label is_comm }
{
    if is_comm { "Rest" } else { "Right context" }
}

/// Writes the part of the subject that is matched, which is an instance of the pattern.
fn write_portion(
    out: &mut Vec<u8>,
    alloc: Global,
    module: &Module,
    printer: &Printer,
    vars: &Vars,
    pattern: &Bare,
    store: &mut Store,
    values: &[TermId],
) -> Result<(), NoMemory>
    requires printer { printer.now ≡ printer_in module.now }
    requires pattern { IsBare (terms_over module.now.signature) (tree_of pattern.now) }
    requires values { StandWithin (theory_at module.now.signature) store.old (numbers values.now) }
    requires within { IsWithin (theory_at module.now.signature) (norm (theory_at module.now.signature) (with_values (tree_of pattern.now) (trees_at store.old (numbers values.now)))) }
    ensures gained { OnOk result (out.new.items ≡ out.old.items ++ term_line (printer_in module.now) vars.now (codes "Matched portion")
        (norm (theory_at module.now.signature) (with_values (tree_of pattern.now) (trees_at store.old (numbers values.now))))) }
    ensures extends { Extends store.old store.new }
{
    let id = instance_of(alloc, module.signature(), store, pattern, values)?;
    write_labelled(out, alloc, printer, vars, store, "Matched portion", id)
}

/// Writes the lines of the contexts under an associative operator.
fn write_contexts(
    out: &mut Vec<u8>,
    alloc: Global,
    module: &Module,
    printer: &Printer,
    vars: &Vars,
    store: &mut Store,
    op: OpId,
    left: &[TermId],
    right: &[TermId],
) -> Result<(), NoMemory>
    requires printer { printer.now ≡ printer_in module.now }
    requires operator { IsOperator module.now.signature op.0 }
    requires left { StandWithin (theory_at module.now.signature) store.old (numbers left.now) }
    requires right { StandWithin (theory_at module.now.signature) store.old (numbers right.now) }
    requires left_context { IsContext module.now.signature op.0 (trees_at store.old (numbers left.now)) }
    requires right_context { IsContext module.now.signature op.0 (trees_at store.old (numbers right.now)) }
    ensures gained { OnOk result (out.new.items ≡ out.old.items ++ (context_line module.now vars.now op.0 (codes "Left context") (trees_at store.old (numbers left.now))
        ++ context_line module.now vars.now op.0 (right_label (theory_at module.now.signature op.0).comm) (trees_at store.old (numbers right.now)))) }
    ensures extends { Extends store.old store.new }
{
    let label = right_label_of(module.signature().theory(op).comm);
    write_context(
        out,
        alloc,
        module,
        printer,
        vars,
        store,
        op,
        "Left context",
        left,
    )?;
    write_context(out, alloc, module, printer, vars, store, op, label, right)
}

/// The operator at the top of a term that has one.
fn operator_of(store: &Store, id: TermId) -> OpId
    requires there { IsOf store.now id.0 }
    requires top { (f : ℕ) × (ts : List Tree) × (tree_at store.now id.0 ≡ node f ts) }
    ensures { (f : ℕ) (ts : List Tree) → tree_at store.now id.0 ≡ node f ts → result.0 ≡ f }
{
    match store.view(id) {
        NodeView::App(op, _) => op,
        NodeView::Num(_) => unreachable!(),
        NodeView::Var(_) => unreachable!(),
    }
}

/// Whether a solution matches the whole subject.
fn is_whole(solution: &Solution) -> bool
    ensures { (nodes : List Node) → result ≡ Rattle.mau_session.specs.Answers.is_whole (matcher_in nodes solution.now) }
{
    solution.left.items().is_empty() && solution.right.items().is_empty()
}

/// Writes the part that a solution matches, and its contexts, where the query asks for them. The store may gain the terms that are
/// written.
pub fn write_part(
    out: &mut Vec<u8>,
    alloc: Global,
    module: &Module,
    printer: &Printer,
    query: &mut Query,
    solution: &Solution,
) -> Result<(), NoMemory>
    requires printer { printer.now ≡ printer_in module.now }
    requires query { IsQueryOver module.now.signature query.old }
    requires given { (table : Table) × IsGiven query.old.with_context module.now.signature query.old.store table (asked_for query.old) solution.now }
    ensures gained { OnOk result (out.new.items ≡ out.old.items ++ part_lines module.now query.old.vars query.old.with_context (tree_of query.old.pattern) (matcher_in query.old.store solution.now)) }
    ensures query { query.new ≡ record query.old { store = query.new.store } }
    ensures extends { Extends query.old.store query.new.store }
{
    if !query.with_context {
        return Ok(());
    }
    if is_whole(solution) {
        return write_text(out, "Matched portion = (whole)\n");
    }
    write_portion(
        out,
        alloc,
        module,
        printer,
        &query.vars,
        &query.pattern,
        &mut query.store,
        solution.values.items(),
    )?;
    let op = operator_of(&query.store, query.number);
    write_contexts(
        out,
        alloc,
        module,
        printer,
        &query.vars,
        &mut query.store,
        op,
        solution.left.items(),
        solution.right.items(),
    )
}
