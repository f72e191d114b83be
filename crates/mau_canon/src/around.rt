//! Instances in their contexts, in normal form.
ghost use Rattle.std.specs.Prelude.{◌++◌, ◌∷◌, IfOk, IfErr};
ghost use Rattle.mau_terms.specs.Tree.{node};
ghost use Rattle.mau_terms.specs.Norm.{norm};
ghost use Rattle.mau_terms.specs.Bare.{IsBare};
ghost use Rattle.mau_terms.specs.View.{tree_of};
ghost use Rattle.mau_terms.specs.Subst.{instance};
ghost use Rattle.mau_signature.specs.Signature.{IsOperator, terms_over, theory_at};
ghost use Rattle.mau_store.specs.Node.{Extends};
ghost use Rattle.mau_store.specs.Trees.{StandsFor, trees_at};
ghost use Rattle.mau_store.specs.View.{numbers};
ghost use Rattle.mau_canon.specs.Standing.{StandsWithin, StandWithin};
ghost use Rattle.mau_canon.specs.Within.{IsCause};
ghost use Rattle.mau_canon.specs.Values.{values_in};

use crate::BuildFault;
use crate::bare::collect;
use crate::builder::judge;
use crate::normal::{is_overflow, joined, normal_form};
use mau_signature::Signature;
use mau_store::Store;
use mau_terms::{Bare, OpId, TermId, VarId};

/// The normal form of an instance of a bare term in its context: an associative operator over the list `left`, the list of the instance
/// and the list `right`. The whole is judged against the limits, and the instance alone is not.
///
/// The store may have gained nodes where the term is refused.
pub fn build_around(
    store: &mut Store,
    sig: &Signature,
    op: OpId,
    left: &[TermId],
    term: &Bare,
    variables: &[VarId],
    values: &[TermId],
    right: &[TermId],
) -> Result<TermId, BuildFault>
    requires operator { IsOperator sig.now op.0 }
    requires left { StandWithin (theory_at sig.now) store.old (numbers left.now) }
    requires bare { IsBare (terms_over sig.now) (tree_of term.now) }
    requires values { StandWithin (theory_at sig.now) store.old (numbers values.now) }
    requires right { StandWithin (theory_at sig.now) store.old (numbers right.now) }
    ensures ok { IfOk result (λ id. StandsFor (theory_at sig.now) store.new id.0
        (node op.0 (trees_at store.old (numbers left.now) ++ instance (values_in store.old variables.now values.now) (tree_of term.now) ∷ trees_at store.old (numbers right.now)))) }
    ensures within { IfOk result (λ id. StandsWithin (theory_at sig.now) store.new id.0) }
    ensures refused { IfErr result (IsCause (theory_at sig.now) (norm (theory_at sig.now)
        (node op.0 (trees_at store.old (numbers left.now) ++ instance (values_in store.old variables.now values.now) (tree_of term.now) ∷ trees_at store.old (numbers right.now))))) }
    ensures extends { Extends store.old store.new }
{
    let theory = sig.theory(op);
    let mut items = joined(store, theory, op, left)?;
    let below = collect(store, sig, op, term, variables, values, &mut items)?;
    let behind = joined(store, theory, op, right)?;
    items.extend_from_slice(&behind)?;
    let id = normal_form(store, theory, op, items)?;
    let here = is_overflow(store, theory, op, id);
    judge(store, id, below | here)
}
