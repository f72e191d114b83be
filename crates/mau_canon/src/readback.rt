//! Normal forms of a store as bare terms.
ghost use Rattle.std.specs.Prelude.{◌≡◌, ◌++◌, ◌∷◌, [], All, true, map, IfOk};
ghost use Rattle.mau_terms.specs.Reading.{reading, nest};
ghost use Rattle.mau_terms.specs.View.{tree_of};
ghost use Rattle.mau_signature.specs.Signature.{theory_at};
ghost use Rattle.mau_signature.specs.OverSignature.{IsTreeOver};
ghost use Rattle.mau_store.specs.Node.{AreOf, IsOf};
ghost use Rattle.mau_store.specs.Trees.{tree_at, trees_at};
ghost use Rattle.mau_store.specs.View.{numbers};

use mau_signature::Signature;
use mau_store::{NodeView, Store};
use mau_terms::{Args, Bare, NoMemory, OpId, TermId};
use std::alloc::Global;

/// A normal form of a store, read as a bare term: a list under an associative operator is nested to the right. Of a shared term each
/// use is a copy. It takes a stack as deep as the term.
#[cycle(readback)]
pub fn read(alloc: Global, store: &Store, sig: &Signature, id: TermId) -> Result<Bare, NoMemory>
    requires there { IsOf store.now id.0 }
    requires over { IsTreeOver sig.now (tree_at store.now id.0) }
    ensures { IfOk result (λ term. tree_of term ≡ reading (theory_at sig.now) (tree_at store.now id.0)) }
{
    match store.view(id) {
        NodeView::Var(v) => Ok(Bare::Var(v)),
        NodeView::Num(n) => Ok(Bare::Num(n)),
        NodeView::App(op, args) => {
            let items = read_all(alloc, store, sig, args)?;
            over(alloc, sig.theory(op).assoc, op, items)
        }
    }
}

/// Some normal forms, in order.
#[cycle(readback)]
fn read_all(
    alloc: Global,
    store: &Store,
    sig: &Signature,
    ids: &[TermId],
) -> Result<Vec<Bare>, NoMemory>
    requires there { AreOf store.now (numbers ids.now) }
    requires over { All (IsTreeOver sig.now) (trees_at store.now (numbers ids.now)) }
    ensures { IfOk result (λ terms. map tree_of terms.items ≡ map (reading (theory_at sig.now)) (trees_at store.now (numbers ids.now))) }
{
    let mut terms = Vec::with_capacity(alloc, ids.len())?;
    for id in ids {
        terms.push(read(alloc, store, sig, *id)?)?;
    }
    Ok(terms)
}

/// An operator over some terms, which are nested to the right where it is associative.
fn over(alloc: Global, assoc: bool, op: OpId, mut terms: Vec<Bare>) -> Result<Bare, NoMemory>
    ensures { IfOk result (λ term. tree_of term ≡ nest assoc op.0 (map tree_of terms.items)) }
{
    if !assoc {
        return Ok(Bare::App(op, Args::new(terms)));
    }
    match terms.pop() {
        None => Ok(Bare::App(op, Args::new(terms))),
        Some(last) => nested(alloc, op, terms, last),
    }
}

/// An associative operator over some terms and a last one, nested to the right.
fn nested(alloc: Global, op: OpId, mut terms: Vec<Bare>, last: Bare) -> Result<Bare, NoMemory>
    ensures { IfOk result (λ term. tree_of term ≡ nest true op.0 (map tree_of terms.items ++ tree_of last ∷ [])) }
{
    let mut whole = last;
    while let Some(term) = terms.pop() {
        whole = Bare::App(op, Args::new(Vec::from_array(alloc, [term, whole])?));
    }
    Ok(whole)
}
