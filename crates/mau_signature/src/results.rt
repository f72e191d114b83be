//! The results of declarations that apply to sorts.
ghost use Rattle.std.specs.Prelude.{◌≡◌, ◌≤◌, ◌↔◌, All, IfSome, IsTrue};
ghost use Rattle.mau_poset.specs.Order.{IsPoset, IsAtOrBelow};
ghost use Rattle.mau_signature.specs.Faults.{HasSorts, IsSort};
ghost use Rattle.mau_signature.specs.Signature.{AreAtOrBelow, Applies, swapped};
ghost use Rattle.mau_signature.specs.Lowest.{IsBelowResults, IsLowestResult, IsLower};

use crate::Decl;
use mau_poset::Poset;

// Whether the sorts are at or below the others, place by place.
fn are_at_or_below(poset: &Poset, sorts: &[u32], others: &[u32]) -> bool
    requires sorts { All (IsSort poset.now) sorts.now }
    requires others { All (IsSort poset.now) others.now }
    ensures { IsTrue result ↔ AreAtOrBelow poset.now sorts.now others.now }
{
    if sorts.len() != others.len() {
        return false;
    }
    for i in 0..sorts.len() {
        if !poset.leq(sorts[i], others[i]) {
            return false;
        }
    }
    true
}

// Whether the declaration applies to the sorts.
fn applies(poset: &Poset, decl: &Decl, sorts: &[u32]) -> bool
    requires decl { HasSorts poset.now decl.now }
    requires sorts { All (IsSort poset.now) sorts.now }
    ensures { IsTrue result ↔ Applies poset.now sorts.now decl.now }
{
    let args = decl.args.items();
    if are_at_or_below(poset, sorts, args) {
        return true;
    }
    decl.attrs.comm && are_below_swapped(poset, sorts, args)
}

// Whether the sorts are at or below two arguments in the other order.
fn are_below_swapped(poset: &Poset, sorts: &[u32], args: &[u32]) -> bool
    requires sorts { All (IsSort poset.now) sorts.now }
    requires args { All (IsSort poset.now) args.now }
    ensures { IsTrue result ↔ AreAtOrBelow poset.now sorts.now (swapped args.now) }
{
    match args {
        [a, b] => are_at_or_below(poset, sorts, &[*b, *a]),
        _ => are_at_or_below(poset, sorts, args),
    }
}

/// A result of a declaration that applies, and the least one if there is one.
pub fn lowest_result(poset: &Poset, decls: &[Decl], sorts: &[u32]) -> Option<u32>
    requires decls { All (HasSorts poset.now) decls.now }
    requires sorts { All (IsSort poset.now) sorts.now }
    ensures lowest { IsLowestResult poset.now decls.now sorts.now result }
    ensures sort { IfSome result (IsSort poset.now) }
    ensures poset { IsPoset poset.now }
{
    let _ = poset.sorts();
    let mut lowest = None;
    for decl in decls {
        if applies(poset, decl, sorts) {
            lowest = Some(lower(poset, lowest, decl.result));
        }
    }
    lowest
}

// The sort, unless the one that is there is not above it.
fn lower(poset: &Poset, lowest: Option<u32>, sort: u32) -> u32
    requires sort { IsSort poset.now sort }
    requires lowest { (low : _) → lowest ≡ Some low → IsSort poset.now low }
    ensures { IsLower poset.now lowest sort result }
{
    match lowest {
        Some(low) => { if poset.leq(sort, low) { sort } else { low } }
        None => sort,
    }
}

// Whether the sort is at or below the result of the declaration, if that applies.
fn is_below_result(poset: &Poset, decl: &Decl, sorts: &[u32], low: u32) -> bool
    requires decl { HasSorts poset.now decl.now }
    requires sorts { All (IsSort poset.now) sorts.now }
    requires low { IsSort poset.now low }
    ensures { IsTrue result ↔ (Applies poset.now sorts.now decl.now → IsAtOrBelow poset.now low decl.now.result) }
{
    !applies(poset, decl, sorts) || poset.leq(low, decl.result)
}

/// Whether a sort is at or below each result of the declarations that apply.
pub fn is_below_results(poset: &Poset, decls: &[Decl], sorts: &[u32], low: u32) -> bool
    requires decls { All (HasSorts poset.now) decls.now }
    requires sorts { All (IsSort poset.now) sorts.now }
    requires low { IsSort poset.now low }
    ensures { IsTrue result ↔ IsBelowResults poset.now decls.now sorts.now low }
{
    for decl in decls {
        if !is_below_result(poset, decl, sorts, low) {
            return false;
        }
    }
    true
}
