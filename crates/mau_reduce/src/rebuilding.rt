//! A term that is built again over the values of its arguments.
ghost use Rattle.std.specs.Prelude.{◌≡◌, ℕ, List, [], true, false, length, IfOk, IfErr};
ghost use Rattle.mau_terms.specs.Tree.{Tree, node};
ghost use Rattle.mau_terms.specs.Norm.{norm, build};
ghost use Rattle.mau_terms.specs.Bare.{IsLawful};
ghost use Rattle.mau_signature.specs.Signature.{IsOperator, theory_at, terms_over};
ghost use Rattle.mau_store.specs.Node.{Extends};
ghost use Rattle.mau_store.specs.Trees.{tree_at, trees_at};
ghost use Rattle.mau_store.specs.View.{numbers};
ghost use Rattle.mau_canon.specs.Standing.{StandsWithin, StandWithin};
ghost use Rattle.mau_evaluation.specs.Run.{done};
ghost use Rattle.mau_evaluation.specs.Evaluation.{count_up, names_all, within_limits, top_changed};
ghost use Rattle.mau_reduce.specs.Kinds.{IsTermIn, AreUnder};
ghost use Rattle.mau_reduce.specs.Ends.{IsEnd};
ghost use Rattle.mau_reduce.specs.Exchanged.{AreExchanged};

use mau_api::EvalEnd;
use mau_canon::build;
use mau_signature::Signature;
use mau_store::{NodeView, Store};
use mau_terms::{OpId, TermId};

/// A term that was built again, and whether its top has changed.
#[derive(Clone, Copy, Debug, PartialEq, Eq)]
pub struct Rebuilt {
    pub term: TermId,
    pub changed: bool,
}

/// Whether all places of a list are among some.
fn names_all(order: &[usize], count: usize) -> bool
    ensures { (ts : List Tree) → length ts ≡ count → result ≡ names_all (count_up 0 ts) order.now }
{
    for place in 0..count {
        if !order.contains(&place) {
            return false;
        }
    }
    true
}

/// Whether two arguments stand in each other's places.
fn are_exchanged(ids: &[TermId], args: &[TermId]) -> bool
    ensures exchanged { result ≡ true → AreExchanged ids.now args.now }
    ensures not_exchanged { result ≡ false → AreExchanged ids.now args.now → ⊥ }
{
    ids.len() == 2 && args.len() == 2 && ids[0] == args[1] && ids[1] == args[0]
}

/// Whether an operator over arguments, of which the strategy names those at some places, has another top in normal form.
fn top_changed(
    store: &Store,
    sig: &Signature,
    op: OpId,
    order: &[usize],
    args: &[TermId],
    built: TermId,
) -> bool
    requires lawful { IsLawful (terms_over sig.now) }
    requires under { AreUnder sig.now store.now op.0 (numbers args.now) }
    requires built { StandsWithin (theory_at sig.now) store.now built.0 }
    requires is { tree_at store.now built.0 ≡ norm (theory_at sig.now) (node op.0 (trees_at store.now (numbers args.now))) }
    ensures { result ≡ top_changed (theory_at sig.now op.0) order.now op.0 (trees_at store.now (numbers args.now)) (tree_at store.now built.0) }
{
    let ids = match store.view(built) {
        NodeView::App(top, ids) => if top == op {
            ids
        } else {
            return true;
        },
        NodeView::Num(_) | NodeView::Var(_) => return true,
    };
    if sig.theory(op).assoc {
        return ids.len() < 2;
    }
    if ids == args {
        return false;
    }
    if !sig.theory(op).comm {
        return true;
    }
    if !are_exchanged(ids, args) {
        return true;
    }
    !order.is_empty() && !names_all(order, args.len())
}

/// The normal form of an operator over the values of its arguments, of which those at some places were evaluated.
pub fn rebuild(
    store: &mut Store,
    sig: &Signature,
    op: OpId,
    args: &[TermId],
    order: &[usize],
) -> Result<Rebuilt, EvalEnd>
    requires lawful { IsLawful (terms_over sig.now) }
    requires under { AreUnder sig.now store.old op.0 (numbers args.now) }
    ensures value { (b : ℕ) → IfOk result (λ x.
        within_limits (theory_at sig.now) (build (theory_at sig.now op.0) op.0 (trees_at store.old (numbers args.now))) b ≡ done (tree_at store.new x.term.0) 0 b) }
    ensures changed { IfOk result (λ x. x.changed ≡ top_changed (theory_at sig.now op.0) order.now op.0 (trees_at store.old (numbers args.now)) (tree_at store.new x.term.0)) }
    ensures ends { (b : ℕ) → IfErr result (IsEnd (within_limits (theory_at sig.now) (build (theory_at sig.now op.0) op.0 (trees_at store.old (numbers args.now))) b)) }
    ensures term { IfOk result (λ x. IsTermIn sig.now store.new ((terms_over sig.now).result op.0) x.term.0) }
    ensures extends { Extends store.old store.new }
{
    let term = match build(store, sig, op, args) {
        Ok(term) => term,
        Err(fault) => return Err(EvalEnd::from(fault)),
    };
    let changed = top_changed(store, sig, op, order, args, term);
    Ok(Rebuilt { term, changed })
}
