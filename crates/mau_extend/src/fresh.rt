//! Variables that neither a pattern nor the values beforehand have.
ghost use Rattle.std.specs.Prelude.{◌≡◌, ◌<◌, ◌≤◌, ◌+◌, ◌^◌, ℕ, false, true, IfSome, None};
ghost use Rattle.mau_extend.specs.Extended.{IsUnused, AreUsedUp};

use mau_listing::Place;
use mau_terms::{TermId, VarId};

/// Whether a variable with this index is among those of the places, or has a value beforehand.
fn is_used(places: &[Place], bound: &[(VarId, TermId)], index: u32) -> bool
    ensures unused { result ≡ false → IsUnused places.now bound.now index }
    ensures used { result ≡ true → IsUnused places.now bound.now index → ⊥ }
{
    if places.iter().any(|place| place.variable.index == index) {
        return true;
    }
    bound.iter().any(|pair| pair.0.index == index)
}

/// The first index from one on that is not used, if there is one.
fn free_index(places: &[Place], bound: &[(VarId, TermId)], from: u32) -> Option<u32>
    ensures unused { IfSome result (λ i. IsUnused places.now bound.now i) }
    ensures from { IfSome result (λ i. from ≤ i) }
    ensures first { IfSome result (λ i. (k : ℕ) → from ≤ k → k < i → IsUnused places.now bound.now k → ⊥) }
    ensures small { IfSome result (λ i. i + 1 < 2 ^ 32) }
    ensures none { result ≡ None → (i : ℕ) → from ≤ i → i + 1 < 2 ^ 32 → IsUnused places.now bound.now i → ⊥ }
{
    for index in from..u32::MAX {
        if !is_used(places, bound, index) {
            return Some(index);
        }
    }
    None
}

/// Two variables of a sort that are not used, the second with the greater index. There are none only where all indexes below
/// 2^32 - 1 but one are used.
pub fn free_variables(
    places: &[Place],
    bound: &[(VarId, TermId)],
    sort: u32,
) -> Option<(VarId, VarId)>
    ensures sorts { IfSome result (λ p. (p.0.sort ≡ sort) × (p.1.sort ≡ sort)) }
    ensures first { IfSome result (λ p. IsUnused places.now bound.now p.0.index) }
    ensures last { IfSome result (λ p. IsUnused places.now bound.now p.1.index) }
    ensures apart { IfSome result (λ p. p.0.index < p.1.index) }
    ensures small { IfSome result (λ p. p.1.index < 2 ^ 32) }
    ensures none { result ≡ None → AreUsedUp places.now bound.now }
{
    let first = free_index(places, bound, 0)?;
    let last = free_index(places, bound, first + 1)?;
    let first = VarId { index: first, sort };
    let last = VarId { index: last, sort };
    Some((first, last))
}
