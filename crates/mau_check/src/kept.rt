//! The terms of a section, as numbers of a store.
ghost use Rattle.std.specs.Prelude.{◌≡◌, ◌++◌, ℕ, List, Option, All, map, IfOk, IfSome, IfNone};
ghost use Rattle.mau_terms.specs.Tree.{Tree};
ghost use Rattle.mau_signature.specs.Signature.{SignatureOf};
ghost use Rattle.mau_store.specs.Node.{Node};
ghost use Rattle.mau_api.specs.Terms.{IsBareWithin};
ghost use Rattle.mau_logic.specs.Lines.{term_at, terms_at};
ghost use Rattle.mau_logic.specs.Justified.{With};
ghost use Rattle.mau_check.specs.Kept.{AreHoles, IsKeptFor, AreKeptFor, AreKept};

use mau_terms::{NoMemory, TermId};
use std::alloc::Global;

/// The holes of a context: none, one of a kind, or more.
#[derive(Clone, Copy, PartialEq, Eq, Debug)]
pub enum Holes {
    Absent,
    Single(u32),
    Several,
}

/// A bare term within the limits: the number of its normal form, the kind in which it lies, and its holes.
#[derive(Clone, Copy, PartialEq, Eq, Debug)]
pub struct Kept {
    pub id: TermId,
    pub kind: u32,
    pub holes: Holes,
}

/// The holes of two terms, one after the other.
pub fn join(first: Holes, second: Holes) -> Holes
    ensures { (ks ls : List ℕ) → AreHoles first ks → AreHoles second ls → AreHoles result (ks ++ ls) }
{
    match first {
        Holes::Absent => second,
        Holes::Single(_) => match second {
            Holes::Absent => first,
            Holes::Single(_) | Holes::Several => Holes::Several,
        },
        Holes::Several => Holes::Several,
    }
}

/// The term with a number, counted from 1, if a fact may name it.
pub fn kept_at(kept: &[Option<Kept>], number: u64) -> Option<Kept>
    ensures some { (s : SignatureOf) (nodes : List Node) (terms : List (Option Tree)) → AreKept s nodes kept.now terms →
        IfSome result (λ k. With (term_at terms number) (IsKeptFor s nodes k)) }
    ensures none { (s : SignatureOf) (nodes : List Node) (terms : List (Option Tree)) → AreKept s nodes kept.now terms →
        IfNone result (With (term_at terms number) (IsBareWithin s) → ⊥) }
{
    if number == 0 || number > kept.len() as u64 {
        return None;
    }
    kept[number as usize - 1]
}

/// Those with these numbers, if facts may name them all.
pub fn kept_all(
    alloc: Global,
    kept: &[Option<Kept>],
    numbers: &[u64],
) -> Result<Option<Vec<Kept>>, NoMemory>
    ensures some { (s : SignatureOf) (nodes : List Node) (terms : List (Option Tree)) → AreKept s nodes kept.now terms →
        IfOk result (λ o. IfSome o (λ v. With (terms_at terms numbers.now) (AreKeptFor s nodes v.items))) }
    ensures none { (s : SignatureOf) (nodes : List Node) (terms : List (Option Tree)) → AreKept s nodes kept.now terms →
        IfOk result (λ o. IfNone o (With (terms_at terms numbers.now) (All (IsBareWithin s)) → ⊥)) }
{
    let mut all = Vec::new(alloc);
    for number in numbers {
        let one = match kept_at(kept, *number) {
            Some(one) => one,
            None => return Ok(None),
        };
        all.push(one)?;
    }
    Ok(Some(all))
}

/// The numbers of terms.
pub fn ids_of(alloc: Global, values: &[Kept]) -> Result<Vec<TermId>, NoMemory>
    ensures { IfOk result (λ ids. ids.items ≡ map (λ k. k.id) values.now) }
{
    let ids = values.iter().map(|value| value.id).collect(alloc)?;
    Ok(ids)
}
