//! The arguments of a term, and the order in which they are evaluated.
ghost use Rattle.std.specs.Prelude.{◌≡◌, ℕ, List, length, IfOk, IfSome, IfNone};
ghost use Rattle.mau_terms.specs.Tree.{Tree, node};
ghost use Rattle.mau_terms.specs.Bare.{IsLawful};
ghost use Rattle.mau_signature.specs.Signature.{IsOperator, declarations_at, strategy_of, terms_over};
ghost use Rattle.mau_store.specs.Trees.{tree_at, trees_at};
ghost use Rattle.mau_store.specs.View.{numbers};
ghost use Rattle.mau_evaluation.specs.Evaluation.{count_up};
ghost use Rattle.mau_api.specs.Terms.{IsTerm};
ghost use Rattle.mau_api.specs.Programs.{places_of};
ghost use Rattle.mau_reduce.specs.Kinds.{IsTermIn, AreUnder};
ghost use Rattle.mau_reduce.specs.Orders.{order_in, IsLeaf};

use mau_signature::Signature;
use mau_store::{NodeView, Store};
use mau_terms::{NoMemory, OpId, TermId};
use std::alloc::Global;

/// An operator over arguments, and the places of those that are evaluated, counted from 0, in order.
#[derive(Drop, Debug)]
pub struct Opened {
    pub op: OpId,
    pub args: Vec<TermId>,
    pub order: Vec<usize>,
}

/// All places of a list.
fn all_places(alloc: Global, count: usize) -> Result<Vec<usize>, NoMemory>
    ensures { IfOk result (λ v. (ts : List Tree) → length ts ≡ count → v.items ≡ count_up 0 ts) }
{
    let mut places = Vec::new(alloc);
    for place in 0..count {
        places.push(place)?;
    }
    Ok(places)
}

/// The places that a strategy names. It ends with 0.
fn named_places(alloc: Global, strategy: &[u8]) -> Result<Vec<usize>, NoMemory>
    ensures { IfOk result (λ v. v.items ≡ places_of strategy.now) }
{
    let mut places = Vec::new(alloc);
    for number in strategy {
        if *number == 0 {
            return Ok(places);
        }
        places.push(usize::from(*number) - 1)?;
    }
    Ok(places)
}

/// The places of the arguments that are evaluated, of so many arguments: those that the strategy names, and of an associative operator
/// all or none.
pub fn order_of(
    alloc: Global,
    sig: &Signature,
    op: OpId,
    count: usize,
) -> Result<Vec<usize>, NoMemory>
    requires { IsOperator sig.now op.0 }
    ensures { IfOk result (λ v. (ts : List Tree) → length ts ≡ count → v.items ≡ order_in sig.now op.0 ts) }
{
    let named = named_places(alloc, sig.strat(op))?;
    if !sig.theory(op).assoc {
        return Ok(named);
    }
    if named.is_empty() {
        return Ok(named);
    }
    all_places(alloc, count)
}

/// The operator and the arguments of a term, and which of these are evaluated. None where it has no arguments.
pub fn open(
    alloc: Global,
    store: &Store,
    sig: &Signature,
    term: TermId,
) -> Result<Option<Opened>, NoMemory>
    requires lawful { IsLawful (terms_over sig.now) }
    requires term { IsTerm sig.now store.now term.0 }
    ensures leaf { IfOk result (λ o. IfNone o (IsLeaf (tree_at store.now term.0))) }
    ensures node { IfOk result (λ o. IfSome o (λ x. tree_at store.now term.0 ≡ node x.op.0 (trees_at store.now (numbers x.args.items)))) }
    ensures order { IfOk result (λ o. IfSome o (λ x. x.order.items ≡ order_in sig.now x.op.0 (trees_at store.now (numbers x.args.items)))) }
    ensures under { IfOk result (λ o. IfSome o (λ x. AreUnder sig.now store.now x.op.0 (numbers x.args.items))) }
    ensures kind { (k : ℕ) → IsTermIn sig.now store.now k term.0 → IfOk result (λ o. IfSome o (λ x. (terms_over sig.now).result x.op.0 ≡ k)) }
{
    match store.view(term) {
        NodeView::App(op, ids) => {
            let args = Vec::from_slice(alloc, ids)?;
            let order = order_of(alloc, sig, op, ids.len())?;
            Ok(Some(Opened { op, args, order }))
        }
        NodeView::Num(_) | NodeView::Var(_) => Ok(None),
    }
}
