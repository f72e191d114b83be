//! All lists over some terms, up to a length.
ghost use Rattle.std.specs.Prelude.{◌≡◌, ◌∷◌, ◌++◌, [], All, Contains, map, IfOk, OnOk};
ghost use Rattle.mau_plain.specs.Words.{HasWords, each_longer};

use mau_terms::{NoMemory, Seq, TermId};
use std::alloc::Global;

/// A list with one more element in front.
fn with_front(alloc: Global, first: TermId, rest: &[TermId]) -> Result<Seq<TermId>, NoMemory>
    ensures { IfOk result (λ list. list ≡ first ∷ rest.now) }
{
    let mut items = Vec::with_capacity(alloc, 1)?;
    items.push(first)?;
    items.extend_from_slice(rest)?;
    Ok(Seq::new(items))
}

/// Adds the lists that are an element in front of a list.
fn push_longer(
    alloc: Global,
    items: &[TermId],
    rest: &[TermId],
    out: &mut Vec<Seq<TermId>>,
) -> Result<(), NoMemory>
    ensures { OnOk result (out.new.items ≡ out.old.items ++ map (λ x. x ∷ rest.now) items.now) }
{
    for item in items {
        out.push(with_front(alloc, *item, rest)?)?;
    }
    Ok(())
}

/// The empty list, and the lists that are an element in front of one of these lists.
fn longer(
    alloc: Global,
    items: &[TermId],
    lists: &[Seq<TermId>],
) -> Result<Vec<Seq<TermId>>, NoMemory>
    ensures { IfOk result (λ out. out.items ≡ [] ∷ each_longer items.now lists.now) }
{
    let mut out = Vec::new(alloc);
    out.push(Seq::new(Vec::new(alloc)))?;
    for list in lists {
        push_longer(alloc, items, list.items(), &mut out)?;
    }
    Ok(out)
}

/// All lists of at most so many of these terms, each as often as it likes.
pub fn all_words(
    alloc: Global,
    items: &[TermId],
    count: usize,
) -> Result<Vec<Seq<TermId>>, NoMemory>
    ensures all { IfOk result (λ lists. HasWords items.now count lists.items) }
    ensures among { IfOk result (λ lists. All (All (Contains items.now)) lists.items) }
{
    let mut lists = longer(alloc, items, &[])?;
    for _ in 0..count {
        lists = longer(alloc, items, &lists)?;
    }
    Ok(lists)
}
