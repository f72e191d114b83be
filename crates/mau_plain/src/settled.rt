//! The terms among some whose sorts are settled, or can be.
ghost use Rattle.std.specs.Prelude.{◌≡◌, ℕ, All, Contains, IfOk, OnOk};
ghost use Rattle.mau_terms.specs.declared.ids.TermId.{TermId};
ghost use Rattle.mau_store.specs.Node.{IsOf};
ghost use Rattle.mau_store.specs.Trees.{tree_at};
ghost use Rattle.mau_store.specs.View.{numbers};
ghost use Rattle.mau_sorts.specs.HasSort.{Known};
ghost use Rattle.mau_sorts.specs.Table.{IsSettled, AreOver, KeepsEntries};
ghost use Rattle.mau_listing.specs.Asked.{IsSettleable, IsTableOf, IsClosedTable, MaySettle};
ghost use Rattle.mau_plain.specs.Settled.{AddsSettled};

use mau_listing::settle_value;
use mau_signature::Signature;
use mau_sorts::SortTable;
use mau_store::Store;
use mau_terms::{NoMemory, TermId};

/// Adds a term that is not there, if its sorts are settled, after they were settled if a listing may do so.
fn push_settled(
    store: &Store,
    sig: &Signature,
    sorts: &mut SortTable,
    subject: TermId,
    id: TermId,
    out: &mut Vec<TermId>,
) -> Result<(), NoMemory>
    requires over { AreOver sig.now.hierarchy sorts.old }
    requires subject { IsOf store.now subject.0 }
    ensures added { OnOk result (AddsSettled sig.now store.now sorts.old sorts.new subject.0 id out.old.items out.new.items) }
    ensures entries { (i : ℕ) → IsSettled sorts.new i → MaySettle sig.now store.now sorts.old (tree_at store.now subject.0) i }
    ensures kept { KeepsEntries sorts.old sorts.new }
    ensures over { AreOver sig.now.hierarchy sorts.new }
    ensures table { (known : Known) → IsTableOf sig.now known store.now sorts.old → IsTableOf sig.now known store.now sorts.new }
    ensures closed { IsClosedTable store.now sorts.old → IsClosedTable store.now sorts.new }
{
    if out.contains(&id) {
        return Ok(());
    }
    if !settle_value(store, sig, sorts, id, subject)? {
        return Ok(());
    }
    out.push(id)?;
    Ok(())
}

/// Those of some terms whose sorts are settled, each once, after those were settled that a listing may settle.
pub fn settled_among(
    store: &Store,
    sig: &Signature,
    sorts: &mut SortTable,
    subject: TermId,
    ids: &[TermId],
) -> Result<Vec<TermId>, NoMemory>
    requires over { AreOver sig.now.hierarchy sorts.old }
    requires subject { IsOf store.now subject.0 }
    ensures settled { IfOk result (λ out. All (IsSettled sorts.new) (numbers out.items)) }
    ensures among { IfOk result (λ out. All (Contains ids.now) out.items) }
    ensures complete { IfOk result (λ out. (id : TermId) → Contains ids.now id → IsSettleable sig.now store.now sorts.old subject.0 id.0 → Contains out.items id) }
    ensures entries { (i : ℕ) → IsSettled sorts.new i → MaySettle sig.now store.now sorts.old (tree_at store.now subject.0) i }
    ensures kept { KeepsEntries sorts.old sorts.new }
    ensures over { AreOver sig.now.hierarchy sorts.new }
    ensures table { (known : Known) → IsTableOf sig.now known store.now sorts.old → IsTableOf sig.now known store.now sorts.new }
    ensures closed { IsClosedTable store.now sorts.old → IsClosedTable store.now sorts.new }
{
    let mut out = Vec::new(store.allocator());
    for id in ids {
        push_settled(store, sig, sorts, subject, *id, &mut out)?;
    }
    Ok(out)
}
