//! All solutions of a pattern in a term, as they are bound.
ghost use Rattle.std.specs.Prelude.{◌≡◌, ◌++◌, ℕ, List, [], true, None, map, All, IfOk, IfSome, OnOk};
ghost use Rattle.std.specs.Option.{option_map};
ghost use Rattle.mau_terms.specs.Bare.{IsBare, IsLawful};
ghost use Rattle.mau_terms.specs.View.{tree_of};
ghost use Rattle.mau_signature.specs.Signature.{theory_at, terms_over};
ghost use Rattle.mau_sorts.specs.HasSort.{Known};
ghost use Rattle.mau_listing.specs.Asked.{asks, question_in, matcher_in, IsTableOf, CanGoOn};
ghost use Rattle.mau_listing.specs.Matcher.{Matcher};
ghost use Rattle.mau_api.specs.Answers.{binding_in};
ghost use Rattle.mau_api.specs.Remaining.{AreLeftOf};
ghost use Rattle.mau_deriving.specs.Listing.{IsListing, HasGrown, IsSorted, bound_by, GivesNext};

use crate::binding::told;
use mau_listing::WholeLister;
use mau_signature::Signature;
use mau_sorts::SortTable;
use mau_store::Store;
use mau_terms::{Bare, NoMemory, Seq, TermId, VarId};

/// The binding by the next solution of a listing.
fn next_binding<L: WholeLister>(
    store: &mut Store,
    sig: &Signature,
    table: &mut SortTable,
    pattern: &Bare,
    term: TermId,
    listing: &mut L,
) -> Result<Option<Seq<(VarId, TermId)>>, NoMemory>
    requires pattern { IsBare (terms_over sig.now) (tree_of pattern.now) }
    requires listing { IsListing L.with_context sig.now store.old table.old (tree_of pattern.now) term
        (L.asked listing.old) (L.given listing.old) (L.is_for listing.old sig.now) }
    ensures next { (known : Known) (xs : List Matcher) → IsTableOf sig.now known store.old table.old
        → AreLeftOf L.with_context sig.now known (question_in store.old (asks (tree_of pattern.now) [] term)) (option_map (matcher_in store.old) (L.given listing.old)) xs
        → IfOk result (λ o. GivesNext L.with_context sig.now known (question_in store.old (asks (tree_of pattern.now) [] term)) (option_map (binding_in store.new) o)
        (option_map (matcher_in store.new) (L.given listing.new)) xs) }
    ensures sorted { IfOk result (λ o. IfSome o (IsSorted sig.now store.new table.new (tree_of pattern.now))) }
    ensures listing { OnOk result (IsListing L.with_context sig.now store.new table.new (tree_of pattern.now) term
        (L.asked listing.new) (L.given listing.new) (L.is_for listing.new sig.now)) }
    ensures grown { HasGrown sig.now store.old store.new table.old table.new term.0 }
{
    match listing.next(store, sig, table)? {
        Some(solution) => {
            let told = told(store.allocator(), sig, pattern, solution.values.items())?;
            Ok(Some(Seq::new(told)))
        }
        None => Ok(None),
    }
}

/// The bindings by all solutions of a pattern in a term, in order.
pub(crate) fn all_bindings<L: WholeLister + Drop>(
    store: &mut Store,
    sig: &Signature,
    table: &mut SortTable,
    pattern: &Bare,
    term: TermId,
) -> Result<Vec<Seq<(VarId, TermId)>>, NoMemory>
    requires pattern { IsBare (terms_over sig.now) (tree_of pattern.now) }
    requires ready { CanGoOn L.with_context sig.now store.old table.old (asks (tree_of pattern.now) [] term) None }
    ensures all { (known : Known) (xs : List Matcher) → IsTableOf sig.now known store.old table.old
        → AreLeftOf L.with_context sig.now known (question_in store.old (asks (tree_of pattern.now) [] term)) None xs
        → IfOk result (λ found. map (binding_in store.new) found.items ≡ map (bound_by (tree_of pattern.now)) xs) }
    ensures sorted { IfOk result (λ found. All (IsSorted sig.now store.new table.new (tree_of pattern.now)) found.items) }
    ensures grown { HasGrown sig.now store.old store.new table.old table.new term.0 }
{
    let alloc = store.allocator();
    let mut found = Vec::new(alloc);
    let mut listing = L::start(alloc, sig, pattern, &[], term)?;
    for _ in 0..u64::MAX {
        match next_binding(store, sig, table, pattern, term, &mut listing)? {
            Some(binding) => found.push(binding)?,
            None => return Ok(found),
        }
    }
    Err(NoMemory)
}
