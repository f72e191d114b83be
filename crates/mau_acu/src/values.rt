//! The next of what a term can take as an argument.
ghost use Rattle.std.specs.Prelude.{◌≡◌, true, Some, IfOk, IfSome};
ghost use Rattle.mau_terms.specs.Bare.{IsBareIn};
ghost use Rattle.mau_terms.specs.Reading.{reading};
ghost use Rattle.mau_terms.specs.CanTake.{CanTakeNormal};
ghost use Rattle.mau_signature.specs.Signature.{terms_over, theory_at};
ghost use Rattle.mau_store.specs.Node.{Extends};
ghost use Rattle.mau_store.specs.Trees.{tree_at};
ghost use Rattle.mau_canon.specs.Standing.{StandsWithin};
ghost use Rattle.mau_domains.specs.Search.{IsLeastOrNone};
ghost use Rattle.mau_domains.specs.Values.{by_key};
ghost use Rattle.mau_domains.specs.Stored.{tree_in, IsListOperator};

use mau_domains::next_taken;
use mau_signature::Signature;
use mau_store::Store;
use mau_terms::{Bare, NoMemory, OpId, TermId};

/// The least of what a term can take as an argument of an operator that is behind another value, or the least of all, in the order of
/// the operator's lists. The term is of the kind of the operator's results. All instances of the argument that the term can take are
/// among these values, whatever the argument is.
pub fn acu_values(
    store: &mut Store,
    sig: &Signature,
    op: OpId,
    _argument: &Bare,
    subject: TermId,
    after: Option<TermId>,
) -> Result<Option<TermId>, NoMemory>
    requires operator { IsListOperator sig.now op.0 }
    requires commutative { (theory_at sig.now op.0).comm ≡ true }
    requires subject { StandsWithin (theory_at sig.now) store.old subject.0 }
    requires kind { IsBareIn (terms_over sig.now) (reading (theory_at sig.now) (tree_at store.old subject.0)) ((terms_over sig.now).result op.0) }
    requires after { IfSome after (λ id. StandsWithin (theory_at sig.now) store.old id.0) }
    ensures next { IfOk result (λ value. IsLeastOrNone (by_key (theory_at sig.now) (Some op.0)) (CanTakeNormal (terms_over sig.now) op.0 (tree_at store.old subject.0)) 0
        (tree_in store.old after) (tree_in store.new value)) }
    ensures value { IfOk result (λ value. IfSome value (λ id. CanTakeNormal (terms_over sig.now) op.0 (tree_at store.old subject.0) (tree_at store.new id.0))) }
    ensures within { IfOk result (λ value. IfSome value (λ id. StandsWithin (theory_at sig.now) store.new id.0)) }
    ensures extends { Extends store.old store.new }
{
    next_taken(store, sig, op, subject, after)
}
