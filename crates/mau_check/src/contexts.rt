//! Terms in contexts.
ghost use Rattle.std.specs.Prelude.{◌≡◌, ◌↔◌, IfOk, IsTrue};
ghost use Rattle.mau_terms.specs.Tree.{Tree};
ghost use Rattle.mau_terms.specs.Bare.{TermSignature, IsBareIn, EqualModulo};
ghost use Rattle.mau_signature.specs.Signature.{theory_at, terms_over};
ghost use Rattle.mau_store.specs.Node.{Extends};
ghost use Rattle.mau_store.specs.Trees.{StandsFor};
ghost use Rattle.mau_canon.specs.Standing.{StandsWithin};
ghost use Rattle.mau_api.specs.Terms.{fill, holes, IsContextFor};
ghost use Rattle.mau_check.specs.Kept.{AreHoles, IsKeptFor};
ghost use Rattle.mau_check.specs.Marks.{AreMarks};

use crate::filling::fill;
use crate::kept::{Holes, Kept};
use mau_signature::Signature;
use mau_store::Store;
use mau_terms::{NoMemory, TermId};

/// Whether a context has just one hole, and it is of the kind of a term.
pub fn is_context(kind: u32, context: Kept) -> bool
    ensures { (s : TermSignature) (t c : Tree) → IsBareIn s t kind → AreHoles context.holes (holes c) → IsTrue result ↔ IsContextFor s t c }
{
    match context.holes {
        Holes::Single(hole) => hole == kind,
        Holes::Absent => false,
        Holes::Several => false,
    }
}

/// Whether a term in a context is equal to another, where the context is one for it.
pub fn fits(
    store: &mut Store,
    sig: &Signature,
    marks: &[bool],
    context: Kept,
    part: TermId,
    whole: Kept,
) -> Result<bool, NoMemory>
    requires marks { AreMarks store.old marks.now }
    requires context { (c : Tree) × IsKeptFor sig.now store.old context c }
    requires part { StandsWithin (theory_at sig.now) store.old part.0 }
    ensures fits { (c u w : Tree) → IsKeptFor sig.now store.old context c → IsContextFor (terms_over sig.now) u c → StandsFor (theory_at sig.now) store.old part.0 u →
        IsKeptFor sig.now store.old whole w → IfOk result (λ yes. IsTrue yes ↔ EqualModulo (terms_over sig.now) w (fill c u)) }
    ensures extends { Extends store.old store.new }
{
    let _ = sig.operators();
    let filled = match fill(store, sig, marks, context.id, part) {
        Ok(Some(filled)) => filled,
        Ok(None) => return Ok(false),
        Err(fault) => return Err(fault),
    };
    let _ = store.len();
    Ok(filled.0 == whole.id.0)
}
