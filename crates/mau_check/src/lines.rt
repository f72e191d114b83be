//! The terms of a section's lines.
ghost use Rattle.std.specs.Prelude.{◌≡◌, List, Option, Some, false, IfOk, OnOk};
ghost use Rattle.mau_terms.specs.Tree.{Tree, variable, numeral};
ghost use Rattle.mau_signature.specs.Faults.{IsSort};
ghost use Rattle.mau_signature.specs.Signature.{terms_over};
ghost use Rattle.mau_store.specs.Node.{Extends};
ghost use Rattle.mau_program.specs.LawfulPrograms.{IsLawfulProgram};
ghost use Rattle.mau_api.specs.Terms.{holes};
ghost use Rattle.mau_logic.specs.Lines.{lines_of, pair_of, is_hole};
ghost use Rattle.mau_check.specs.Kept.{AreHoles, IsKeptFor, IsKept, AreKept};
ghost use Rattle.mau_check.specs.LineTerms.{variable_by, pairs_by, line_term, line_pairs};

use crate::filling::HOLE;
use crate::kept::{Holes, Kept, kept_all};
use crate::over::build_over;
use crate::written::read_variable;
use mau_facts::TermLine;
use mau_program::Program;
use mau_signature::Signature;
use mau_store::{NodeView, Store};
use mau_terms::{NoMemory, TermId, VarId, Vars};

/// The kind of the numerals, if there are any.
fn kind_of_numerals(sig: &Signature) -> Option<u32>
    ensures { result ≡ (terms_over sig.now).numerals }
{
    match sig.numerals() {
        Some((zero, _)) => Some(sig.poset().kind_of(zero)),
        None => None,
    }
}

/// A numeral, if there are any.
pub fn numeral(store: &mut Store, sig: &Signature, value: u128) -> Result<Option<Kept>, NoMemory>
    ensures kept { IfOk result (λ k. IsKept sig.now store.new k (Some (numeral value))) }
    ensures extends { Extends store.old store.new }
{
    let kind = match kind_of_numerals(sig) {
        Some(kind) => kind,
        None => return Ok(None),
    };
    let id = store.intern(NodeView::Num(value))?;
    Ok(Some(Kept {
        id,
        kind,
        holes: Holes::Absent,
    }))
}

/// A variable, or a hole.
fn variable(
    store: &mut Store,
    sig: &Signature,
    index: u32,
    sort: u32,
    hole: Holes,
) -> Result<Kept, NoMemory>
    requires sort { IsSort sig.now.hierarchy sort }
    requires holes { AreHoles hole (holes (variable index sort)) }
    ensures kept { IfOk result (λ k. IsKeptFor sig.now store.new k (variable index sort)) }
    ensures extends { Extends store.old store.new }
{
    let id = store.intern(NodeView::Var(VarId { index, sort }))?;
    Ok(Kept {
        id,
        kind: sig.poset().kind_of(sort),
        holes: hole,
    })
}

/// A variable that is no hole. A new one is added to the others.
fn add_named(
    store: &mut Store,
    sig: &Signature,
    variables: &mut Vars,
    name: &str,
    sort: u32,
) -> Result<Kept, NoMemory>
    requires sort { IsSort sig.now.hierarchy sort }
    ensures kept { IfOk result (λ k. IsKept sig.now store.new (Some k) (variable_by variables.old false (Some (name.now, sort)))) }
    ensures pairs { OnOk result (variables.new ≡ pairs_by variables.old false (Some (name.now, sort))) }
    ensures extends { Extends store.old store.new }
{
    if variables.len() >= HOLE as usize {
        return Err(NoMemory);
    }
    let added = variables.add(name, sort)?;
    variable(store, sig, added.index, sort, Holes::Absent)
}

/// The term of a line that is a variable, or a hole.
pub fn add_variable(
    store: &mut Store,
    program: &Program,
    variables: &mut Vars,
    text: &str,
) -> Result<Option<Kept>, NoMemory>
    requires lawful { IsLawfulProgram program.now }
    ensures kept { IfOk result (λ k. IsKept program.now.sig store.new k (variable_by variables.old (is_hole text.now) (pair_of program.now.sig program.now.sorts text.now))) }
    ensures pairs { OnOk result (variables.new ≡ pairs_by variables.old (is_hole text.now) (pair_of program.now.sig program.now.sorts text.now)) }
    ensures extends { Extends store.old store.new }
{
    let written = match read_variable(&program.sig, program.sorts.items(), text) {
        Some(written) => written,
        None => return Ok(None),
    };
    let is_hole = written.hole;
    if is_hole {
        let hole = variable(
            store,
            &program.sig,
            HOLE,
            written.sort,
            Holes::Single(written.sort),
        )?;
        return Ok(Some(hole));
    }
    let named = add_named(store, &program.sig, variables, written.name, written.sort)?;
    Ok(Some(named))
}

/// The term of a line, over those before it.
fn add_line(
    store: &mut Store,
    program: &Program,
    kept: &[Option<Kept>],
    variables: &mut Vars,
    line: &TermLine,
) -> Result<Option<Kept>, NoMemory>
    requires lawful { IsLawfulProgram program.now }
    requires kept { (terms : List (Option Tree)) × AreKept program.now.sig store.old kept.now terms }
    ensures kept { (terms : List (Option Tree)) → AreKept program.now.sig store.old kept.now terms →
        IfOk result (λ k. IsKept program.now.sig store.new k (line_term program.now.sig program.now.sorts variables.old terms line.now)) }
    ensures pairs { OnOk result (variables.new ≡ line_pairs program.now.sig program.now.sorts variables.old line.now) }
    ensures extends { Extends store.old store.new }
{
    let _ = program.sig.operators();
    match line {
        TermLine::Num(value) => numeral(store, &program.sig, *value),
        TermLine::Var(text) => add_variable(store, program, variables, text.as_str()),
        TermLine::App(op, numbers) => {
            let args = match kept_all(store.allocator(), kept, numbers.items()) {
                Ok(Some(args)) => args,
                Ok(None) => return Ok(None),
                Err(fault) => return Err(fault),
            };
            build_over(store, &program.sig, *op, &args)
        }
    }
}

/// The terms of some lines: the number of each normal form, where a fact may name the term; and the variables.
pub fn terms_of(
    store: &mut Store,
    program: &Program,
    lines: &[TermLine],
) -> Result<(Vec<Option<Kept>>, Vars), NoMemory>
    requires lawful { IsLawfulProgram program.now }
    ensures kept { IfOk result (λ r. AreKept program.now.sig store.new r.0.items (lines_of program.now.sig program.now.sorts lines.now).terms) }
    ensures variables { IfOk result (λ r. r.1 ≡ (lines_of program.now.sig program.now.sorts lines.now).pairs) }
    ensures extends { Extends store.old store.new }
{
    let alloc = store.allocator();
    let _ = store.len();
    let mut variables = Vars::new(alloc);
    let mut kept = Vec::new(alloc);
    for line in lines {
        let term = add_line(store, program, &kept, &mut variables, line)?;
        kept.push(term)?;
    }
    Ok((kept, variables))
}
