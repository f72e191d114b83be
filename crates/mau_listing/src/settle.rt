//! Settling the sorts of values.
ghost use Rattle.std.specs.Prelude.{◌≡◌, ◌≢◌, ◌↔◌, ℕ, true, false, IfOk, OnOk, OnErr, IsTrue};
ghost use Rattle.mau_signature.specs.Signature.{theory_at};
ghost use Rattle.mau_store.specs.Node.{AreNodes, IsOf};
ghost use Rattle.mau_store.specs.Trees.{tree_at};
ghost use Rattle.mau_sorts.specs.HasSort.{Known};
ghost use Rattle.mau_sorts.specs.Table.{entry_at, IsSettled, IsReady, AreOver, AreSame, KeepsEntries};
ghost use Rattle.mau_listing.specs.Asked.{IsNumeralOrList, IsSettleable, IsTableOf, IsClosedTable, MaySettle};

use mau_signature::Signature;
use mau_sorts::SortTable;
use mau_store::{NodeView, Store};
use mau_terms::{NoMemory, TermId};

/// Whether a term is a numeral or a list of an associative operator.
fn is_numeral_or_list(store: &Store, sig: &Signature, sorts: &SortTable, id: TermId) -> bool
    requires { IsReady sig.now store.now sorts.now id.0 }
    ensures value { IsTrue result ↔ IsNumeralOrList (theory_at sig.now) (tree_at store.now id.0) }
    ensures nodes { AreNodes store.now }
{
    match store.view(id) {
        NodeView::Num(_) => true,
        NodeView::Var(_) => false,
        NodeView::App(op, _) => sig.theory(op).assoc,
    }
}

/// Settles the sorts of a term by declarations alone, if they are not settled.
pub fn settle_ready(
    store: &Store,
    sig: &Signature,
    sorts: &mut SortTable,
    id: TermId,
) -> Result<(), NoMemory>
    requires nodes { AreNodes store.now }
    requires ready { IsReady sig.now store.now sorts.old id.0 }
    requires over { AreOver sig.now.hierarchy sorts.old }
    ensures settled { OnOk result (IsSettled sorts.new id.0) }
    ensures others { (j : ℕ) → j ≢ id.0 → entry_at sorts.new j ≡ entry_at sorts.old j }
    ensures same { OnErr result (AreSame sorts.old sorts.new) }
    ensures kept { KeepsEntries sorts.old sorts.new }
    ensures over { AreOver sig.now.hierarchy sorts.new }
    ensures table { (known : Known) → IsTableOf sig.now known store.now sorts.old → IsTableOf sig.now known store.now sorts.new }
    ensures closed { IsClosedTable store.now sorts.old → IsClosedTable store.now sorts.new }
{
    if sorts.is_settled(id) {
        return Ok(());
    }
    sorts.settle_declared(sig, store, id, &[])?;
    Ok(())
}

/// Whether the sorts of a term that may be a value are settled, after they were settled if a listing may do so: those of a numeral, or
/// of a list of an associative operator over settled terms, by declarations alone, and never those of the subject.
pub fn settle_value(
    store: &Store,
    sig: &Signature,
    sorts: &mut SortTable,
    id: TermId,
    subject: TermId,
) -> Result<bool, NoMemory>
    requires over { AreOver sig.now.hierarchy sorts.old }
    requires subject { IsOf store.now subject.0 }
    ensures settled { IfOk result (λ b. b ≡ true → IsSettled sorts.new id.0) }
    ensures complete { IfOk result (λ b. IsSettleable sig.now store.now sorts.old subject.0 id.0 → b ≡ true) }
    ensures entries { (i : ℕ) → IsSettled sorts.new i → MaySettle sig.now store.now sorts.old (tree_at store.now subject.0) i }
    ensures kept { KeepsEntries sorts.old sorts.new }
    ensures over { AreOver sig.now.hierarchy sorts.new }
    ensures table { (known : Known) → IsTableOf sig.now known store.now sorts.old → IsTableOf sig.now known store.now sorts.new }
    ensures closed { IsClosedTable store.now sorts.old → IsClosedTable store.now sorts.new }
{
    if sorts.is_settled(id) {
        return Ok(true);
    }
    if id == subject || !sorts.is_ready(sig, store, id) {
        return Ok(false);
    }
    if !is_numeral_or_list(store, sig, sorts, id) {
        return Ok(false);
    }
    settle_ready(store, sig, sorts, id)?;
    Ok(true)
}
