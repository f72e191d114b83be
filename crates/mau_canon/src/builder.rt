//! Terms in normal form, from terms in normal form.
ghost use Rattle.std.specs.Prelude.{◌≡◌, ◌≤◌, false, IfOk, IfErr};
ghost use Rattle.mau_terms.specs.Depth.{depth};
ghost use Rattle.mau_terms.specs.Tree.{node};
ghost use Rattle.mau_terms.specs.Norm.{norm};
ghost use Rattle.mau_signature.specs.Signature.{IsOperator, theory_at};
ghost use Rattle.mau_store.specs.Node.{Extends, IsOf};
ghost use Rattle.mau_store.specs.Trees.{StandsFor, tree_at, trees_at};
ghost use Rattle.mau_store.specs.View.{numbers};
ghost use Rattle.mau_canon.specs.Standing.{StandsWithin, StandWithin};
ghost use Rattle.mau_canon.specs.Within.{IsCause};
ghost use Rattle.mau_canon.specs.Judging.{IsJudged};

use crate::normal::{is_overflow, joined, normal_form};
use crate::{BuildFault, MAX_DEPTH};
use mau_signature::Signature;
use mau_store::Store;
use mau_terms::{OpId, TermId};

/// The normal form of an operator over normal forms. Under an associative operator there may be any number of them, and the
/// term is the operator over their list.
///
/// The store may have gained nodes where the term is refused.
pub fn build(
    store: &mut Store,
    sig: &Signature,
    op: OpId,
    args: &[TermId],
) -> Result<TermId, BuildFault>
    requires operator { IsOperator sig.now op.0 }
    requires args { StandWithin (theory_at sig.now) store.old (numbers args.now) }
    ensures ok { IfOk result (λ id. StandsFor (theory_at sig.now) store.new id.0 (node op.0 (trees_at store.old (numbers args.now)))) }
    ensures within { IfOk result (λ id. StandsWithin (theory_at sig.now) store.new id.0) }
    ensures refused { IfErr result (IsCause (theory_at sig.now) (norm (theory_at sig.now) (node op.0 (trees_at store.old (numbers args.now))))) }
    ensures extends { Extends store.old store.new }
{
    let theory = sig.theory(op);
    let items = joined(store, theory, op, args)?;
    let id = normal_form(store, theory, op, items)?;
    let overflows = is_overflow(store, theory, op, id);
    judge(store, id, overflows)
}

/// The normal form of an associative operator over a list of normal forms. One element is that element, and no element is the
/// identity.
///
/// The store may have gained nodes where the term is refused.
pub fn from_list(
    store: &mut Store,
    sig: &Signature,
    op: OpId,
    items: &[TermId],
) -> Result<TermId, BuildFault>
    requires operator { IsOperator sig.now op.0 }
    requires items { StandWithin (theory_at sig.now) store.old (numbers items.now) }
    ensures ok { IfOk result (λ id. StandsFor (theory_at sig.now) store.new id.0 (node op.0 (trees_at store.old (numbers items.now)))) }
    ensures within { IfOk result (λ id. StandsWithin (theory_at sig.now) store.new id.0) }
    ensures refused { IfErr result (IsCause (theory_at sig.now) (norm (theory_at sig.now) (node op.0 (trees_at store.old (numbers items.now))))) }
    ensures extends { Extends store.old store.new }
{
    build(store, sig, op, items)
}

/// A normal form, unless it is too deep or, as `overflows` tells, holds the successor of the greatest numeral.
pub(crate) fn judge(store: &Store, id: TermId, overflows: bool) -> Result<TermId, BuildFault>
    requires { IsOf store.now id.0 }
    ensures same { IfOk result (λ kept. kept ≡ id) }
    ensures ok { IfOk result (λ _. (depth (tree_at store.now id.0) ≤ MAX_DEPTH) × (overflows ≡ false)) }
    ensures refused { IfErr result (IsJudged (depth (tree_at store.now id.0)) overflows) }
{
    if store.depth(id) > MAX_DEPTH {
        Err(BuildFault::TooDeep)
    } else if overflows {
        Err(BuildFault::Overflow)
    } else {
        Ok(id)
    }
}
