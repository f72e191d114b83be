//! The first solutions of a listing.
ghost use Rattle.std.specs.Prelude.{◌≡◌, ◌≤◌, true, false, length, map, Some, None, IfOk};
ghost use Rattle.std.specs.Option.{option_map};
ghost use Rattle.mau_signature.specs.Signature.{theory_at};
ghost use Rattle.mau_store.specs.Node.{Extends};
ghost use Rattle.mau_sorts.specs.HasSort.{Known};
ghost use Rattle.mau_sorts.specs.Table.{KeepsEntries};
ghost use Rattle.mau_listing.specs.Question.{IsSolution};
ghost use Rattle.mau_listing.specs.Next.{matcher_cmp, AreFirst};
ghost use Rattle.mau_listing.specs.Asked.{question_in, matcher_in, IsTableOf, BySort, CanGoOn};

use crate::{Lister, Solution};
use mau_signature::Signature;
use mau_sorts::SortTable;
use mau_store::Store;
use mau_terms::NoMemory;
use std::alloc::Global;

/// The first solutions of a listing, and whether there are more.
#[derive(Drop, Debug)]
pub struct FirstSolutions {
    pub solutions: Vec<Solution>,
    pub more: bool,
}

/// The next `count` solutions of a listing, in order, or all that are left where there are fewer, and whether there are more behind
/// them. The listing goes on behind what it was last asked for.
pub fn first_solutions<L: Lister + Drop>(
    alloc: Global,
    listing: &mut L,
    store: &mut Store,
    sig: &Signature,
    sorts: &mut SortTable,
    count: usize,
) -> Result<FirstSolutions, NoMemory>
    requires signature { L.is_for listing.old sig.now }
    requires ready { CanGoOn L.with_context sig.now store.old sorts.old (L.asked listing.old) (L.given listing.old) }
    ensures first { (known : Known) → IsTableOf sig.now known store.old sorts.old → IfOk result (λ first.
        AreFirst (IsSolution L.with_context sig.now (BySort sig.now known) (question_in store.old (L.asked listing.old)))
        (matcher_cmp (theory_at sig.now) (L.asked listing.old).pattern)
        (option_map (matcher_in store.old) (L.given listing.old)) (map (matcher_in store.new) first.solutions.items) first.more) }
    ensures count { IfOk result (λ first. length first.solutions.items ≤ count) }
    ensures all { IfOk result (λ first. first.more ≡ true → length first.solutions.items ≡ count) }
    ensures extends { Extends store.old store.new }
    ensures kept { KeepsEntries sorts.old sorts.new }
{
    let mut solutions = Vec::new(alloc);
    for _ in 0..count {
        match listing.next(store, sig, sorts)? {
            Some(solution) => solutions.push(solution)?,
            None => return Ok(FirstSolutions {
                solutions,
                more: false,
            }),
        }
    }
    let more = listing.next(store, sig, sorts)?.is_some();
    Ok(FirstSolutions { solutions, more })
}
