//! The whole term around a place, with what a rule makes in that place.
ghost use Rattle.std.specs.Prelude.{◌≡◌, ◌⊎◌, ℕ, List, map, true, false, All, IfOk, IfErr};
ghost use Rattle.mau_terms.specs.Tree.{Tree};
ghost use Rattle.mau_terms.specs.Bare.{IsBareIn, IsLawful};
ghost use Rattle.mau_terms.specs.Subst.{instance};
ghost use Rattle.mau_terms.specs.View.{tree_of, variable_of};
ghost use Rattle.mau_signature.specs.Signature.{SignatureOf, theory_at, terms_over};
ghost use Rattle.mau_store.specs.Node.{Node, Extends};
ghost use Rattle.mau_store.specs.Trees.{tree_at, StandsFor};
ghost use Rattle.mau_store.specs.View.{numbers};
ghost use Rattle.mau_sorts.specs.Table.{Table};
ghost use Rattle.mau_evaluation.specs.Evaluation.{look_up, admit};
ghost use Rattle.mau_api.specs.Terms.{IsTerm};
ghost use Rattle.mau_api.specs.Answers.{binding_in, IsValueOf};
ghost use Rattle.mau_api.specs.declared.results.EvalEnd.{EvalEnd};
ghost use Rattle.mau_reduce.specs.Bindings.{bound_in, AreValues};
ghost use Rattle.mau_reduce.specs.Contexts.{AreContexts};
ghost use Rattle.mau_reduce.specs.Ends.{IsEnd};
ghost use Rattle.mau_reduce.specs.Kinds.{IsTermIn};
ghost use Rattle.mau_rules.specs.Runnable.{IsRunnable};
ghost use Rattle.mau_rules.specs.Found.{IsFound, between, found_tree};
ghost use Rattle.mau_rules.specs.Walk.{opened, around_last, around_all, IsStep, IsWalk, MayReplace};

use crate::attempt::Found;
use crate::walk::Open;
use mau_api::{EvalEnd, Program};
use mau_canon::build;
use mau_reduce::{Binding, replace};
use mau_signature::Signature;
use mau_store::{NodeView, Store};
use mau_terms::{Bare, NoMemory, TermId, VarId};
use std::alloc::Global;

/// An open term with a term in the place of the argument that was entered last.
fn put_one(store: &mut Store, sig: &Signature, last: Open, term: TermId) -> Result<TermId, EvalEnd>
    requires lawful { IsLawful (terms_over sig.now) }
    requires last { IsTerm sig.now store.old last.term.0 }
    requires stands { (child : ℕ) × IsStep store.old last child × MayReplace sig.now store.old child term.0 }
    ensures value { IfOk result (λ id. StandsFor (theory_at sig.now) store.new id.0 (around_last (λ v. v) (tree_at store.old last.term.0) last.next (tree_at store.old term.0))) }
    ensures kind { IfOk result (λ id. MayReplace sig.now store.new last.term.0 id.0) }
    ensures ends { (b : ℕ) → IfErr result (IsEnd (admit (theory_at sig.now) (around_last (λ v. v) (tree_at store.old last.term.0) last.next (tree_at store.old term.0)) b)) }
    ensures extends { Extends store.old store.new }
{
    match store.view(last.term) {
        NodeView::App(op, ids) => {
            let mut args = match Vec::from_slice(store.allocator(), ids) {
                Ok(args) => args,
                Err(_) => return Err(EvalEnd::NoMemory),
            };
            args[last.next - 1] = term;
            match build(store, sig, op, &args) {
                Ok(id) => Ok(id),
                Err(fault) => Err(EvalEnd::from(fault)),
            }
        }
        NodeView::Num(_) | NodeView::Var(_) => unreachable!(),
    }
}

/// How a whole term ends of which a part does, or which is this part. One that is too deep makes the whole too deep. Where a part holds
/// the successor of the greatest numeral, the whole may be too deep besides; it is given up.
pub fn end_around(whole: bool, end: EvalEnd) -> EvalEnd
    ensures whole { whole ≡ true → result ≡ end }
    ensures part { whole ≡ false → ((result ≡ EvalEnd.TooDeep) × (end ≡ EvalEnd.TooDeep)) ⊎ (result ≡ EvalEnd.NoMemory) }
{
    if whole {
        return end;
    }
    match end {
        EvalEnd::TooDeep => EvalEnd::TooDeep,
        _ => EvalEnd::NoMemory,
    }
}

/// The whole term through whose open terms a place was reached, with a term in that place.
pub fn put_back(
    store: &mut Store,
    sig: &Signature,
    way: &[Open],
    term: TermId,
) -> Result<TermId, EvalEnd>
    requires lawful { IsLawful (terms_over sig.now) }
    requires stands { (root child : ℕ) × IsWalk sig.now store.old root way.now child × MayReplace sig.now store.old child term.0 }
    ensures value { IfOk result (λ id. StandsFor (theory_at sig.now) store.new id.0 (around_all (λ v. v) (map (opened store.old) way.now) (tree_at store.old term.0))) }
    ensures term { IfOk result (λ id. IsTerm sig.now store.new id.0) }
    ensures ends { (b : ℕ) → IfErr result (IsEnd (admit (theory_at sig.now) (around_all (λ v. v) (map (opened store.old) way.now) (tree_at store.old term.0)) b)) }
    ensures extends { Extends store.old store.new }
{
    let mut whole = term;
    let mut count = way.len();
    while count > 0 {
        count -= 1;
        let _ = store.len();
        match put_one(store, sig, way[count], whole) {
            Ok(id) => whole = id,
            Err(end) => return Err(end_around(count == 0, end)),
        }
    }
    Ok(whole)
}

/// Variables with their values, in two lists.
pub(crate) fn parted(alloc: Global, bound: &[(VarId, TermId)]) -> Result<Binding, NoMemory>
    ensures bound { (nodes : List Node) → IfOk result (λ kept. bound_in nodes kept ≡ binding_in nodes bound.now) }
    ensures values { (s : SignatureOf) (nodes : List Node) (table : Table) → All (IsValueOf s nodes table) bound.now → IfOk result (AreValues s nodes) }
    ensures named { IfOk result (λ kept. map variable_of kept.variables.items ≡ map (λ b. variable_of b.0) bound.now) }
    ensures items { IfOk result (λ kept. kept.values.items ≡ map (λ b. b.1) bound.now) }
{
    let mut variables = Vec::new(alloc);
    let mut values = Vec::new(alloc);
    for (variable, value) in bound {
        variables.push(*variable)?;
        values.push(*value)?;
    }
    Ok(Binding { variables, values })
}

/// The whole term with an instance of a bare term in the place that was reached through the open terms, between the contexts of a use of
/// a rule.
pub(crate) fn placed(
    store: &mut Store,
    sig: &Signature,
    way: &[Open],
    found: &Found,
    term: &Bare,
    binding: &Binding,
) -> Result<TermId, EvalEnd>
    requires lawful { IsLawful (terms_over sig.now) }
    requires walk { (root : ℕ) × IsWalk sig.now store.old root way.now found.now.term.0 }
    requires contexts { AreContexts sig.now store.old (tree_at store.old found.now.term.0) (numbers found.now.solution.left) (numbers found.now.solution.right) }
    requires kind { (k : ℕ) × IsTermIn sig.now store.old k found.now.term.0 × IsBareIn (terms_over sig.now) (tree_of term.now) k }
    requires values { AreValues sig.now store.old binding.now }
    ensures value { IfOk result (λ id. StandsFor (theory_at sig.now) store.new id.0 (around_all (λ v. v) (map (opened store.old) way.now)
        (between sig.now store.old found.now (instance (look_up (bound_in store.old binding.now)) (tree_of term.now))))) }
    ensures term { IfOk result (λ id. IsTerm sig.now store.new id.0) }
    ensures ends { (b : ℕ) → IfErr result (IsEnd (admit (theory_at sig.now) (around_all (λ v. v) (map (opened store.old) way.now)
        (between sig.now store.old found.now (instance (look_up (bound_in store.old binding.now)) (tree_of term.now)))) b)) }
    ensures extends { Extends store.old store.new }
{
    match replace(store, sig, found.term, &found.solution, term, binding) {
        Ok(part) => put_back(store, sig, way, part),
        Err(end) => Err(end_around(way.is_empty(), end)),
    }
}

/// The whole term that a use of a rule leads to: in its place the instance of the rule's right side.
pub(crate) fn rewritten(
    store: &mut Store,
    program: &Program,
    way: &[Open],
    found: &Found,
) -> Result<TermId, EvalEnd>
    requires runnable { IsRunnable program.now }
    requires walk { (root : ℕ) × IsWalk program.now.sig store.old root way.now found.now.term.0 }
    requires found { (table : Table) × IsFound program.now store.old table (tree_at store.old found.now.term.0) found.now }
    ensures value { IfOk result (λ id. StandsFor (theory_at program.now.sig) store.new id.0 (around_all (λ v. v) (map (opened store.old) way.now) (found_tree program.now store.old found.now))) }
    ensures term { IfOk result (λ id. IsTerm program.now.sig store.new id.0) }
    ensures ends { (b : ℕ) → IfErr result (IsEnd (admit (theory_at program.now.sig) (around_all (λ v. v) (map (opened store.old) way.now) (found_tree program.now store.old found.now)) b)) }
    ensures extends { Extends store.old store.new }
{
    let _ = store.len();
    let rule = &program.rules.items()[found.number];
    let binding = match parted(store.allocator(), &found.bound) {
        Ok(binding) => binding,
        Err(_) => return Err(EvalEnd::NoMemory),
    };
    placed(store, &program.sig, way, found, &rule.right, &binding)
}
