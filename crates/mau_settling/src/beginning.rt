//! The identities as terms of a store.
ghost use Rattle.std.specs.Prelude.{◌≡◌, ◌++◌, All, IfOk, OnOk};
ghost use Rattle.mau_terms.specs.Bare.{IsLawful};
ghost use Rattle.mau_terms.specs.Finite.{units_of};
ghost use Rattle.mau_signature.specs.Signature.{IsOperator, terms_over, theory_at};
ghost use Rattle.mau_store.specs.Node.{Extends};
ghost use Rattle.mau_store.specs.Trees.{trees_at};
ghost use Rattle.mau_store.specs.View.{numbers};
ghost use Rattle.mau_api.specs.Programs.{identities_of};
ghost use Rattle.mau_api.specs.Terms.{IsTerm};
ghost use Rattle.mau_settling.specs.Beginning.{IdentityIs};

use mau_signature::Signature;
use mau_store::{NodeView, Store};
use mau_terms::{Identity, NoMemory, OpId, TermId};

/// The identity of an operator as a term of a store, if it has one.
fn identity(store: &mut Store, sig: &Signature, op: OpId) -> Result<Option<TermId>, NoMemory>
    requires lawful { IsLawful (terms_over sig.now) }
    requires operator { IsOperator sig.now op.0 }
    ensures is { IfOk result (λ o. IdentityIs sig.now store.new op.0 o) }
    ensures extends { Extends store.old store.new }
{
    match sig.theory(op).id {
        None => Ok(None),
        Some(Identity::Const(constant)) => {
            let id = store.intern(NodeView::App(constant, &[]))?;
            Ok(Some(id))
        }
        Some(Identity::Num(number)) => {
            let id = store.intern(NodeView::Num(number))?;
            Ok(Some(id))
        }
    }
}

/// Adds the identity of an operator.
fn add_identity(
    store: &mut Store,
    sig: &Signature,
    op: OpId,
    ids: &mut Vec<TermId>,
) -> Result<(), NoMemory>
    requires lawful { IsLawful (terms_over sig.now) }
    requires operator { IsOperator sig.now op.0 }
    requires terms { All (IsTerm sig.now store.old) (numbers ids.old.items) }
    ensures trees { OnOk result (trees_at store.new (numbers ids.new.items) ≡ trees_at store.old
        (numbers ids.old.items) ++ units_of (theory_at sig.now op.0).id) }
    ensures terms { OnOk result (All (IsTerm sig.now store.new) (numbers ids.new.items)) }
    ensures extends { Extends store.old store.new }
{
    match identity(store, sig, op)? {
        Some(id) => {
            ids.push(id)?;
            Ok(())
        }
        None => Ok(()),
    }
}

/// The identities of all operators, in order, as terms of a store.
pub(crate) fn identities(store: &mut Store, sig: &Signature) -> Result<Vec<TermId>, NoMemory>
    requires lawful { IsLawful (terms_over sig.now) }
    ensures trees { IfOk result (λ ids. trees_at store.new (numbers ids.items) ≡ identities_of sig.now) }
    ensures terms { IfOk result (λ ids. All (IsTerm sig.now store.new) (numbers ids.items)) }
    ensures extends { Extends store.old store.new }
{
    let mut ids = Vec::new(store.allocator());
    for number in 0..sig.operators() {
        add_identity(store, sig, OpId(number + 1), &mut ids)?;
    }
    Ok(ids)
}
