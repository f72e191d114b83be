//! Solutions of a widened pattern as solutions with contexts.
ghost use Rattle.std.specs.Prelude.{◌≡◌, ◌+◌, ◌≤◌, List, All, Contains, length, IfOk, if◌then◌else◌};
ghost use Rattle.mau_terms.specs.declared.ids.TermId.{TermId};
ghost use Rattle.mau_signature.specs.Signature.{IsOperator, theory_at};
ghost use Rattle.mau_store.specs.Trees.{tree_at, trees_at};
ghost use Rattle.mau_store.specs.View.{numbers};
ghost use Rattle.mau_canon.specs.Standing.{StandsWithin, StandWithin};
ghost use Rattle.mau_listing.specs.Asked.{matcher_in};
ghost use Rattle.mau_extend.specs.Widened.{around, context_list, IsNarrowed};

use crate::shape::Shape;
use mau_canon::list_of;
use mau_listing::Solution;
use mau_signature::Signature;
use mau_store::Store;
use mau_terms::{NoMemory, OpId, Seq, TermId};
use std::alloc::Global;

/// The list of an argument, if it stands for a context, and else no element.
fn context_of<'a>(
    store: &'a Store,
    sig: &Signature,
    op: OpId,
    there: bool,
    id: &'a TermId,
) -> &'a [TermId]
    requires operator { IsOperator sig.now op.0 }
    requires within { StandsWithin (theory_at sig.now) store.now id.now.0 }
    ensures list { trees_at store.now (numbers result.now) ≡ context_list there (theory_at sig.now op.0) op.0 (tree_at store.now id.entry.now.0) }
    ensures within { StandWithin (theory_at sig.now) store.now (numbers result.now) }
{
    if there {
        list_of(store, sig, op, id)
    } else {
        &[]
    }
}

/// A copy of a list.
fn copied(alloc: Global, ids: &[TermId]) -> Result<Seq<TermId>, NoMemory>
    ensures { IfOk result (λ l. l ≡ ids.now) }
{
    let mut copy = Vec::with_capacity(alloc, ids.len())?;
    copy.extend_from_slice(ids)?;
    Ok(Seq::new(copy))
}

/// The values between the arguments for the contexts.
fn middle(left: bool, right: bool, values: &[TermId]) -> &[TermId]
    requires { (if left then 1 else 0) + (if right then 1 else 0) ≤ length values.now }
    ensures middle { (l r : TermId) (vs : List TermId) → values.now ≡ around left right l vs r → result.now ≡ vs }
    ensures among { All (Contains values.now) result.now }
{
    let count = values.len();
    let from = left as usize;
    let to = count - right as usize;
    &values[from..to]
}

/// The solution with contexts that a solution of the widened pattern is.
pub fn narrowed(
    store: &Store,
    sig: &Signature,
    shape: Shape,
    found: &Solution,
) -> Result<Solution, NoMemory>
    requires operator { IsOperator sig.now shape.op.0 }
    requires within { StandWithin (theory_at sig.now) store.now (numbers found.now.values) }
    requires around { (l r : TermId) × (vs : List TermId) × (found.now.values ≡ around shape.left shape.right l vs r) }
    ensures narrowed { IfOk result (λ x. IsNarrowed shape.left shape.right (theory_at sig.now shape.op.0) shape.op.0 (matcher_in store.now found.now) (matcher_in store.now x)) }
    ensures left { IfOk result (λ x. StandWithin (theory_at sig.now) store.now (numbers x.left)) }
    ensures right { IfOk result (λ x. StandWithin (theory_at sig.now) store.now (numbers x.right)) }
    ensures among { IfOk result (λ x. All (Contains found.now.values) x.values) }
{
    let alloc = store.allocator();
    let values = found.values.items();
    let middle = middle(shape.left, shape.right, values);
    if values.is_empty() {
        return Ok(Solution {
            left: Seq::new(Vec::new(alloc)),
            right: Seq::new(Vec::new(alloc)),
            values: copied(alloc, middle)?,
        });
    }
    let left = context_of(store, sig, shape.op, shape.left, &values[0]);
    let right = context_of(store, sig, shape.op, shape.right, &values[values.len() - 1]);
    Ok(Solution {
        left: copied(alloc, left)?,
        right: copied(alloc, right)?,
        values: copied(alloc, middle)?,
    })
}
