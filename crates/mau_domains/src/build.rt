//! Normal forms of an operator over lists of items.
ghost use Rattle.std.specs.Prelude.{◌≡◌, IfOk};
ghost use Rattle.mau_terms.specs.Solution.{over_list};
ghost use Rattle.mau_signature.specs.Signature.{theory_at};
ghost use Rattle.mau_store.specs.Node.{Extends};
ghost use Rattle.mau_store.specs.Trees.{tree_at, trees_at};
ghost use Rattle.mau_store.specs.View.{numbers};
ghost use Rattle.mau_canon.specs.Standing.{StandsWithin};
ghost use Rattle.mau_domains.specs.Stored.{IsListOperator, AreItems};

use mau_canon::{BuildFault, from_list};
use mau_signature::Signature;
use mau_store::Store;
use mau_terms::{NoMemory, OpId, TermId};

/// An operator over items that are within the limits together.
pub fn build_list(
    store: &mut Store,
    sig: &Signature,
    op: OpId,
    items: &[TermId],
) -> Result<TermId, NoMemory>
    requires operator { IsListOperator sig.now op.0 }
    requires items { AreItems sig.now store.old op.0 items.now }
    ensures ok { IfOk result (λ id. tree_at store.new id.0 ≡ over_list (theory_at sig.now op.0) op.0 (trees_at store.old (numbers items.now))) }
    ensures within { IfOk result (λ id. StandsWithin (theory_at sig.now) store.new id.0) }
    ensures extends { Extends store.old store.new }
{
    match from_list(store, sig, op, items) {
        Ok(id) => Ok(id),
        Err(fault) => match fault {
            BuildFault::NoMemory => Err(NoMemory),
            BuildFault::TooDeep => unreachable!(),
            BuildFault::Overflow => unreachable!(),
        },
    }
}
