//! What an equation makes of a term.
ghost use Rattle.std.specs.Prelude.{◌≡◌, ◌++◌, ◌∷◌, ℕ, true, false, IfOk, IfErr, IfSome, IfNone, length};
ghost use Rattle.mau_terms.specs.Tree.{Tree, Trees, apply, node};
ghost use Rattle.mau_terms.specs.Norm.{norm};
ghost use Rattle.mau_terms.specs.Bare.{IsBare, IsBareIn, IsLawful};
ghost use Rattle.mau_terms.specs.Subst.{instance};
ghost use Rattle.mau_terms.specs.View.{tree_of};
ghost use Rattle.mau_signature.specs.Signature.{IsOperator, theory_at, terms_over};
ghost use Rattle.mau_store.specs.Node.{Extends};
ghost use Rattle.mau_store.specs.Trees.{tree_at, trees_at, StandsFor};
ghost use Rattle.mau_store.specs.View.{numbers};
ghost use Rattle.mau_canon.specs.Standing.{StandsWithin};
ghost use Rattle.mau_evaluation.specs.Evaluation.{look_up, admit, in_context};
ghost use Rattle.mau_api.specs.Terms.{IsTerm};
ghost use Rattle.mau_reduce.specs.Kinds.{IsTermIn};
ghost use Rattle.mau_reduce.specs.Bindings.{bound_in, AreValues};
ghost use Rattle.mau_reduce.specs.Contexts.{AreNone, AreContexts};
ghost use Rattle.mau_reduce.specs.Ends.{IsEnd};

use crate::Binding;
use mau_api::{EvalEnd, Solution};
use mau_canon::{build_around, build_instance};
use mau_signature::Signature;
use mau_store::{NodeView, Store};
use mau_syntactic::Template;
use mau_terms::{Bare, OpId, TermId, VarId};

/// The operator on top of a term, if it has one.
pub(crate) fn top_of(store: &Store, sig: &Signature, term: TermId) -> Option<OpId>
    requires lawful { IsLawful (terms_over sig.now) }
    requires term { IsTerm sig.now store.now term.0 }
    ensures some { IfSome result (λ op. (ts : Trees) × (tree_at store.now term.0 ≡ apply op.0 ts)) }
    ensures operator { IfSome result (λ op. IsOperator sig.now op.0) }
    ensures none { IfNone result ((f : ℕ) (ts : Trees) → tree_at store.now term.0 ≡ apply f ts → ⊥) }
{
    match store.view(term) {
        NodeView::App(op, _) => Some(op),
        NodeView::Num(_) | NodeView::Var(_) => None,
    }
}

/// Whether a solution has no contexts.
fn stands_alone(solution: &Solution) -> bool
    ensures alone { result ≡ true → AreNone solution.now.left solution.now.right }
    ensures around { result ≡ false → AreNone solution.now.left solution.now.right → ⊥ }
{
    solution.left.items().is_empty() && solution.right.items().is_empty()
}

/// The normal form of an instance of a bare term.
pub fn instance(
    store: &mut Store,
    sig: &Signature,
    term: &Bare,
    binding: &Binding,
) -> Result<TermId, EvalEnd>
    requires lawful { IsLawful (terms_over sig.now) }
    requires bare { IsBare (terms_over sig.now) (tree_of term.now) }
    requires values { AreValues sig.now store.old binding.now }
    ensures value { IfOk result (λ id. StandsFor (theory_at sig.now) store.new id.0 (instance (look_up (bound_in store.old binding.now)) (tree_of term.now))) }
    ensures ends { (b : ℕ) → IfErr result (IsEnd (admit (theory_at sig.now) (instance (look_up (bound_in store.old binding.now)) (tree_of term.now)) b)) }
    ensures kind { (k : ℕ) → IsBareIn (terms_over sig.now) (tree_of term.now) k → IfOk result (λ id. IsTermIn sig.now store.new k id.0) }
    ensures extends { Extends store.old store.new }
{
    match build_instance(store, sig, term, &binding.variables, &binding.values) {
        Ok(id) => Ok(id),
        Err(fault) => Err(EvalEnd::from(fault)),
    }
}

/// Whether two lists of variables are the same.
fn are_same(first: &[VarId], second: &[VarId]) -> bool
    ensures { result ≡ true → first.now ≡ second.now }
{
    first == second
}

/// The same by the compiled term, where the binding has just its variables.
fn instance_by(
    store: &mut Store,
    sig: &Signature,
    term: &Bare,
    template: &Template,
    binding: &Binding,
) -> Result<TermId, EvalEnd>
    requires lawful { IsLawful (terms_over sig.now) }
    requires bare { IsBare (terms_over sig.now) (tree_of term.now) }
    requires template { template.now.0 ≡ tree_of term.now }
    requires values { AreValues sig.now store.old binding.now }
    ensures value { IfOk result (λ id. StandsFor (theory_at sig.now) store.new id.0 (instance (look_up (bound_in store.old binding.now)) (tree_of term.now))) }
    ensures ends { (b : ℕ) → IfErr result (IsEnd (admit (theory_at sig.now) (instance (look_up (bound_in store.old binding.now)) (tree_of term.now)) b)) }
    ensures kind { (k : ℕ) → IsBareIn (terms_over sig.now) (tree_of term.now) k → IfOk result (λ id. IsTermIn sig.now store.new k id.0) }
    ensures extends { Extends store.old store.new }
{
    if !are_same(template.variables(), binding.variables.as_slice()) {
        return instance(store, sig, term, binding);
    }
    let mut stack = Vec::new(store.allocator());
    match template.build(store, sig, &binding.values, &mut stack) {
        Ok(id) => Ok(id),
        Err(fault) => Err(EvalEnd::from(fault)),
    }
}

/// A term with the instance of a right side in the place of the part that a solution matched.
pub fn replace(
    store: &mut Store,
    sig: &Signature,
    term: TermId,
    solution: &Solution,
    right: &Bare,
    binding: &Binding,
) -> Result<TermId, EvalEnd>
    requires lawful { IsLawful (terms_over sig.now) }
    requires term { IsTerm sig.now store.old term.0 }
    requires contexts { AreContexts sig.now store.old (tree_at store.old term.0) (numbers solution.now.left) (numbers solution.now.right) }
    requires bare { IsBare (terms_over sig.now) (tree_of right.now) }
    requires values { AreValues sig.now store.old binding.now }
    ensures value { IfOk result (λ id. StandsFor (theory_at sig.now) store.new id.0 (in_context (theory_at sig.now) (tree_at store.old term.0)
        (trees_at store.old (numbers solution.now.left)) (trees_at store.old (numbers solution.now.right)) (instance (look_up (bound_in store.old binding.now)) (tree_of right.now)))) }
    ensures ends { (b : ℕ) → IfErr result (IsEnd (admit (theory_at sig.now) (in_context (theory_at sig.now) (tree_at store.old term.0)
        (trees_at store.old (numbers solution.now.left)) (trees_at store.old (numbers solution.now.right)) (instance (look_up (bound_in store.old binding.now)) (tree_of right.now))) b)) }
    ensures kind { (k : ℕ) → IsTermIn sig.now store.old k term.0 → IsBareIn (terms_over sig.now) (tree_of right.now) k → IfOk result (λ id. IsTermIn sig.now store.new k id.0) }
    ensures extends { Extends store.old store.new }
{
    if stands_alone(solution) {
        return instance(store, sig, right, binding);
    }
    match top_of(store, sig, term) {
        Some(op) => match build_around(
            store,
            sig,
            op,
            solution.left.items(),
            right,
            &binding.variables,
            &binding.values,
            solution.right.items(),
        ) {
            Ok(id) => Ok(id),
            Err(fault) => Err(EvalEnd::from(fault)),
        },
        None => instance(store, sig, right, binding),
    }
}

/// The same by the compiled right side.
pub(crate) fn replace_by(
    store: &mut Store,
    sig: &Signature,
    term: TermId,
    solution: &Solution,
    right: &Bare,
    template: &Template,
    binding: &Binding,
) -> Result<TermId, EvalEnd>
    requires lawful { IsLawful (terms_over sig.now) }
    requires term { IsTerm sig.now store.old term.0 }
    requires contexts { AreContexts sig.now store.old (tree_at store.old term.0) (numbers solution.now.left) (numbers solution.now.right) }
    requires bare { IsBare (terms_over sig.now) (tree_of right.now) }
    requires template { template.now.0 ≡ tree_of right.now }
    requires values { AreValues sig.now store.old binding.now }
    ensures value { IfOk result (λ id. StandsFor (theory_at sig.now) store.new id.0 (in_context (theory_at sig.now) (tree_at store.old term.0)
        (trees_at store.old (numbers solution.now.left)) (trees_at store.old (numbers solution.now.right)) (instance (look_up (bound_in store.old binding.now)) (tree_of right.now)))) }
    ensures ends { (b : ℕ) → IfErr result (IsEnd (admit (theory_at sig.now) (in_context (theory_at sig.now) (tree_at store.old term.0)
        (trees_at store.old (numbers solution.now.left)) (trees_at store.old (numbers solution.now.right)) (instance (look_up (bound_in store.old binding.now)) (tree_of right.now))) b)) }
    ensures kind { (k : ℕ) → IsTermIn sig.now store.old k term.0 → IsBareIn (terms_over sig.now) (tree_of right.now) k → IfOk result (λ id. IsTermIn sig.now store.new k id.0) }
    ensures extends { Extends store.old store.new }
{
    if stands_alone(solution) {
        return instance_by(store, sig, right, template, binding);
    }
    replace(store, sig, term, solution, right, binding)
}
