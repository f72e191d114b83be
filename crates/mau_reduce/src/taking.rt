//! The term that stands for what a built-in gives.
ghost use Rattle.std.specs.Prelude.{◌≡◌, ◌∷◌, ℕ, List, drop, IfOk, IfErr, IfSome, IfNone};
ghost use Rattle.mau_terms.specs.Tree.{Tree, node};
ghost use Rattle.mau_terms.specs.Bare.{IsLawful};
ghost use Rattle.mau_signature.specs.Signature.{IsOperator, theory_at, terms_over};
ghost use Rattle.mau_formula.specs.Operator.{Operator};
ghost use Rattle.mau_store.specs.Node.{Extends, IsOf};
ghost use Rattle.mau_store.specs.Trees.{tree_at, trees_at, StandsFor};
ghost use Rattle.mau_store.specs.View.{numbers};
ghost use Rattle.mau_canon.specs.Standing.{StandsWithin, StandWithin};
ghost use Rattle.mau_evaluation.specs.Evaluation.{admit};
ghost use Rattle.mau_api.specs.Terms.{IsTerm};
ghost use Rattle.mau_reduce.specs.Kinds.{IsTermIn};
ghost use Rattle.mau_reduce.specs.Orders.{IsLeaf};
ghost use Rattle.mau_reduce.specs.Ends.{IsEnd};
ghost use Rattle.mau_reduce.specs.BuiltOperators.{leaf_tree};
ghost use Rattle.mau_reduce.specs.Giving.{GivesInKind, GivesValue, CanBeTaken, IsGivenAt, given_value};

use crate::{Given, Leaf};
use mau_api::EvalEnd;
use mau_canon::build;
use mau_signature::Signature;
use mau_store::{NodeView, Store};
use mau_terms::{NoMemory, OpId, TermId};

/// A term without arguments. The operator 0, which is none, stands for a constant that is not there.
fn leaf_term(store: &mut Store, leaf: Leaf) -> Result<TermId, NoMemory>
    ensures tree { IfOk result (λ id. tree_at store.new id.0 ≡ leaf_tree leaf) }
    ensures there { IfOk result (λ id. IsOf store.new id.0) }
    ensures extends { Extends store.old store.new }
{
    match leaf {
        Leaf::Number(number) => {
            let id = store.intern(NodeView::Num(number))?;
            Ok(id)
        }
        Leaf::Constant(Some(constant)) => {
            let id = store.intern(NodeView::App(constant, &[]))?;
            Ok(id)
        }
        Leaf::Constant(None) => {
            let id = store.intern(NodeView::App(OpId(0), &[]))?;
            Ok(id)
        }
    }
}

/// The top of a term, and its arguments with a term in the place of the first two. None where it has no arguments.
fn with_first(
    store: &Store,
    sig: &Signature,
    term: TermId,
    first: TermId,
) -> Result<Option<(OpId, Vec<TermId>)>, NoMemory>
    requires lawful { IsLawful (terms_over sig.now) }
    requires term { IsTerm sig.now store.now term.0 }
    requires first { StandsWithin (theory_at sig.now) store.now first.0 }
    ensures leaf { IfOk result (λ o. IfNone o (IsLeaf (tree_at store.now term.0))) }
    ensures operator { IfOk result (λ o. IfSome o (λ x. IsOperator sig.now x.0.0)) }
    ensures within { IfOk result (λ o. IfSome o (λ x. StandWithin (theory_at sig.now) store.now (numbers x.1.items))) }
    ensures list { IfOk result (λ o. IfSome o (λ x. (ts : List Tree) × (tree_at store.now term.0 ≡ node x.0.0 ts)
        × (trees_at store.now (numbers x.1.items) ≡ tree_at store.now first.0 ∷ drop 2 ts))) }
{
    match store.view(term) {
        NodeView::App(op, ids) => {
            let mut args = Vec::new(store.allocator());
            args.push(first)?;
            if ids.len() <= 2 {
                return Ok(Some((op, args)));
            }
            args.extend_from_slice(&ids[2..])?;
            Ok(Some((op, args)))
        }
        NodeView::Num(_) | NodeView::Var(_) => Ok(None),
    }
}

/// A leaf in the place of the first two of a list.
fn before_others(
    store: &mut Store,
    sig: &Signature,
    term: TermId,
    leaf: Leaf,
) -> Result<TermId, EvalEnd>
    requires lawful { IsLawful (terms_over sig.now) }
    requires term { IsTerm sig.now store.old term.0 }
    requires taken { CanBeTaken sig.now store.old (Given.Before leaf) }
    ensures value { IfOk result (λ id. StandsFor (theory_at sig.now) store.new id.0 (given_value store.old (theory_at sig.now) (tree_at store.old term.0) (Given.Before leaf))) }
    ensures within { IfOk result (λ id. StandsWithin (theory_at sig.now) store.new id.0) }
    ensures ends { (b : ℕ) → IfErr result (IsEnd (admit (theory_at sig.now) (given_value store.old (theory_at sig.now) (tree_at store.old term.0) (Given.Before leaf)) b)) }
    ensures extends { Extends store.old store.new }
{
    let first = match leaf_term(store, leaf) {
        Ok(first) => first,
        Err(NoMemory) => return Err(EvalEnd::NoMemory),
    };
    match with_first(store, sig, term, first) {
        Ok(Some((op, args))) => match build(store, sig, op, &args) {
            Ok(id) => Ok(id),
            Err(fault) => Err(EvalEnd::from(fault)),
        },
        Ok(None) => Ok(first),
        Err(NoMemory) => Err(EvalEnd::NoMemory),
    }
}

/// The value that a built-in gives for a term.
pub fn take_given(
    store: &mut Store,
    sig: &Signature,
    term: TermId,
    given: Given,
) -> Result<TermId, EvalEnd>
    requires lawful { IsLawful (terms_over sig.now) }
    requires term { IsTerm sig.now store.old term.0 }
    requires gives { GivesValue given }
    requires taken { CanBeTaken sig.now store.old given }
    ensures value { IfOk result (λ id. StandsFor (theory_at sig.now) store.new id.0 (given_value store.old (theory_at sig.now) (tree_at store.old term.0) given)) }
    ensures ends { (b : ℕ) → IfErr result (IsEnd (admit (theory_at sig.now) (given_value store.old (theory_at sig.now) (tree_at store.old term.0) given) b)) }
    ensures kind { (hooks : List Operator) (k : ℕ) → GivesInKind sig.now hooks → IsGivenAt sig.now hooks store.old (tree_at store.old term.0) given
        → IsTermIn sig.now store.old k term.0 → IfOk result (λ id. IsTermIn sig.now store.new k id.0) }
    ensures extends { Extends store.old store.new }
{
    match given {
        Given::Argument(id) => Ok(id),
        Given::Whole(leaf) => match leaf_term(store, leaf) {
            Ok(id) => Ok(id),
            Err(NoMemory) => Err(EvalEnd::NoMemory),
        },
        Given::Before(leaf) => before_others(store, sig, term, leaf),
        Given::Nothing => unreachable!(),
        Given::TooLarge => unreachable!(),
    }
}
