//! Patterns that are widened by variables for their contexts.
ghost use Rattle.std.specs.Prelude.{◌≡◌, List, Some, true, false, IfOk, OnErr};
ghost use Rattle.mau_terms.specs.Axioms.{binary};
ghost use Rattle.mau_terms.specs.Norm.{norm};
ghost use Rattle.mau_terms.specs.Bare.{IsBare};
ghost use Rattle.mau_terms.specs.Solution.{assoc_top};
ghost use Rattle.mau_terms.specs.View.{tree_of};
ghost use Rattle.mau_signature.specs.Signature.{IsOperator, terms_over, theory_at};
ghost use Rattle.mau_store.specs.Node.{Node};
ghost use Rattle.mau_listing.specs.Asked.{question_in};
ghost use Rattle.mau_trial.specs.Tried.{ArePlacesOf, asked_in};
ghost use Rattle.mau_extend.specs.Extended.{AreUsedUp, IsShapeOf, shaped};

use crate::fresh::free_variables;
use mau_listing::Place;
use mau_signature::Signature;
use mau_terms::{Args, Bare, NoMemory, OpId, VarId};
use mau_trial::Trial;
use std::alloc::Global;

/// How a pattern is widened: under which operator, whether by a left and by a right context, and the variables for them.
#[derive(Clone, Copy)]
pub struct Shape {
    pub op: OpId,
    pub left: bool,
    pub right: bool,
    pub first: VarId,
    pub last: VarId,
}

/// A shape for a pattern, with variables that it does not have. Out of memory stands for a pattern that has nearly all variables:
/// of the indexes below 2^32 - 1 one at most is unused.
pub fn shape_of(
    sig: &Signature,
    trial: &Trial,
    places: &[Place],
    op: OpId,
    left: bool,
    right: bool,
) -> Result<Shape, NoMemory>
    requires operator { IsOperator sig.now op.0 }
    requires pattern { IsBare (terms_over sig.now) (tree_of trial.now.pattern) }
    requires top { assoc_top (theory_at sig.now) (norm (theory_at sig.now) (tree_of trial.now.pattern)) ≡ Some op.0 }
    requires places { ArePlacesOf sig.now (tree_of trial.now.pattern) places.now }
    requires alone { (theory_at sig.now op.0).comm ≡ true → left ≡ false }
    ensures used_up { OnErr result (AreUsedUp places.now trial.now.bound.items) }
    ensures same { IfOk result (λ w. (w.op ≡ op) × (w.left ≡ left) × (w.right ≡ right)) }
    ensures shape { IfOk result (λ w. (nodes : List Node) → IsShapeOf sig.now (question_in nodes (asked_in trial.now)) w) }
{
    let kind = sig.result_kind(op);
    let Some((first, last)) = free_variables(places, &trial.bound, kind) else {
        return Err(NoMemory);
    };
    Ok(Shape {
        op,
        left,
        right,
        first,
        last,
    })
}

/// An operator over two terms.
fn pair(alloc: Global, op: OpId, one: Bare, other: Bare) -> Result<Bare, NoMemory>
    ensures { IfOk result (λ t. tree_of t ≡ binary op.0 (tree_of one) (tree_of other)) }
{
    Ok(Bare::App(op, Args::new(Vec::from_array(alloc, [one, other])?)))
}

/// A pattern with the variables of a shape beside it.
pub fn shaped(alloc: Global, shape: Shape, pattern: &Bare) -> Result<Bare, NoMemory>
    ensures { IfOk result (λ t. tree_of t ≡ shaped shape (tree_of pattern.now)) }
{
    let mut term = pattern.copy(alloc)?;
    if shape.right {
        term = pair(alloc, shape.op, term, Bare::Var(shape.last))?;
    }
    if shape.left {
        term = pair(alloc, shape.op, Bare::Var(shape.first), term)?;
    }
    Ok(term)
}
