//! A test of what listings of sub-multisets ask of their items.
ghost use Rattle.std.specs.Prelude.{◌↔◌, IsTrue};
ghost use Rattle.mau_store.specs.View.{numbers};
ghost use Rattle.mau_lists.specs.Terms.{AreSorted};

use mau_store::Store;
use mau_terms::TermId;

/// Whether these numbers stand for terms in ascending order, where equal terms stand side by side.
pub fn are_sorted(store: &Store, items: &[TermId]) -> bool
    ensures sorted { IsTrue result ↔ AreSorted store.now (numbers items.now) }
{
    for i in 1..items.len() {
        if store.compare(items[i - 1], items[i]).is_gt() {
            return false;
        }
    }
    true
}
