//! Sections that are judged before they are given away.
ghost use Rattle.std.specs.Prelude.{◌≡◌, ◌↔◌, List, All, IsTrue, IfOk, slice_get, length, true};
ghost use Rattle.mau_store.specs.Node.{IsOf};
ghost use Rattle.mau_store.specs.Trees.{tree_at};
ghost use Rattle.mau_formula.specs.Operators.{operators};
ghost use Rattle.mau_program.specs.LawfulPrograms.{IsLawfulProgram};
ghost use Rattle.mau_built_ins.specs.NativeNumerals.{GivesNumerals};
ghost use Rattle.mau_check.specs.Judged.{IsJudgement, IsEnd};
ghost use Rattle.mau_prove.specs.Copies.{AreCopies};
ghost use Rattle.mau_prove.specs.Proved.{Proves};

use crate::copies::copy_terms;
use mau_check::{Conclusion, Judgement, judge};
use mau_facts::Section;
use mau_formula::HookTable;
use mau_program::Program;
use mau_store::Store;
use mau_terms::{NoMemory, TermId, VarId, Vars};
use std::alloc::Global;

/// Whether the variables at a place are one.
fn is_same_at(first: &Vars, second: &Vars, index: usize) -> bool
    ensures { IsTrue result → slice_get first.now index ≡ slice_get second.now index }
{
    if index >= 4_294_967_295 {
        return false;
    }
    match (first.variable(index as u32), second.variable(index as u32)) {
        (Some(v), Some(w)) => match (first.get(v), second.get(w)) {
            (Some((name, sort)), Some((other, found))) => name == other && sort == found,
            _ => false,
        },
        _ => false,
    }
}

/// Whether the variables are the same, in the same order.
fn are_same(first: &Vars, second: &Vars) -> bool
    ensures { IsTrue result → first.now ≡ second.now }
{
    if first.len() != second.len() {
        return false;
    }
    for i in 0..first.len() {
        if !is_same_at(first, second, i) {
            return false;
        }
    }
    true
}

/// Whether a term is the copy of one of another store, where `ids` are the numbers of that store's terms.
fn is_copy(copies: &Store, other: &Store, ids: &[TermId], id: TermId, of: TermId) -> bool
    requires copies { AreCopies other.now copies.now ids.now }
    requires all { length ids.now ≡ length other.now }
    requires there { IsOf other.now of.0 }
    ensures { IsTrue result → tree_at copies.now id.0 ≡ tree_at other.now of.0 }
{
    let _ = (copies.len(), other.len());
    ids[of.0].0 == id.0
}

/// Whether a conclusion leads from one term of a store to another.
fn leads(
    conclusion: Conclusion,
    vars: &Vars,
    store: &Store,
    start: TermId,
    end: TermId,
) -> Result<bool, NoMemory>
    requires start { IsOf store.now start.0 }
    requires end { IsOf store.now end.0 }
    requires from { IsOf conclusion.store conclusion.from.0 }
    requires to { IsOf conclusion.store conclusion.to.0 }
    ensures variables { IfOk result (λ b. IsTrue b → conclusion.variables ≡ vars.now) }
    ensures from { IfOk result (λ b. IsTrue b → tree_at conclusion.store conclusion.from.0 ≡ tree_at store.now start.0) }
    ensures to { IfOk result (λ b. IsTrue b → tree_at conclusion.store conclusion.to.0 ≡ tree_at store.now end.0) }
{
    let (from, to) = (conclusion.from, conclusion.to);
    if !are_same(&conclusion.variables, vars) {
        return Ok(false);
    }
    let mut judged = conclusion.store;
    let ids = match copy_terms(&mut judged, store) {
        Ok(ids) => ids,
        Err(fault) => return Err(fault),
    };
    if !is_copy(&judged, store, &ids, from, start) {
        return Ok(false);
    }
    Ok(is_copy(&judged, store, &ids, to, end))
}

/// Whether a section proves that one term of a store leads to another.
pub fn is_proof(
    alloc: Global,
    program: &Program,
    hooks: &HookTable,
    store: &Store,
    vars: &Vars,
    section: &Section,
    start: TermId,
    end: TermId,
) -> Result<bool, NoMemory>
    requires lawful { IsLawfulProgram program.now }
    requires numerals { All GivesNumerals (operators hooks.now) }
    requires start { IsOf store.now start.0 }
    requires end { IsOf store.now end.0 }
    ensures { IfOk result (λ b. IsTrue b → Proves program.now (operators hooks.now) vars.now (tree_at store.now start.0) (tree_at store.now end.0) section.now) }
{
    match judge(alloc, program, hooks, section) {
        Ok(Judgement::Accepted(_, Some(conclusion))) => leads(conclusion, vars, store, start, end),
        Ok(Judgement::Accepted(_, None)) => Ok(false),
        Ok(Judgement::Rejected(_)) => Ok(false),
        Err(fault) => Err(fault),
    }
}
