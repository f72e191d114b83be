//! Instances by the values of variables.
ghost use Rattle.std.specs.Prelude.{◌≡◌, List, IfOk, IfSome, IfNone};
ghost use Rattle.mau_terms.specs.Tree.{Tree};
ghost use Rattle.mau_terms.specs.Norm.{norm};
ghost use Rattle.mau_terms.specs.Bare.{IsBare};
ghost use Rattle.mau_terms.specs.Subst.{instance, value_at};
ghost use Rattle.mau_terms.specs.View.{tree_of};
ghost use Rattle.mau_signature.specs.Signature.{theory_at, terms_over};
ghost use Rattle.mau_store.specs.Node.{Extends};
ghost use Rattle.mau_store.specs.Trees.{StandsFor};
ghost use Rattle.mau_store.specs.View.{numbers};
ghost use Rattle.mau_canon.specs.Standing.{StandsWithin, StandWithin};
ghost use Rattle.mau_canon.specs.Within.{IsWithin};
ghost use Rattle.mau_check.specs.Instances.{AreValuesOf};
ghost use Rattle.mau_check.specs.Variables.{variables_in};

use crate::building::instance_within;
use mau_signature::Signature;
use mau_store::Store;
use mau_terms::{Bare, NoMemory, TermId, VarId};

/// Variables with the numbers of their values.
#[derive(Drop, Debug)]
pub struct Values {
    pub variables: Vec<VarId>,
    pub ids: Vec<TermId>,
}

/// The normal form of an instance, if it is within the limits.
pub fn instance_of(
    store: &mut Store,
    sig: &Signature,
    term: &Bare,
    values: &Values,
) -> Result<Option<TermId>, NoMemory>
    requires bare { IsBare (terms_over sig.now) (tree_of term.now) }
    requires values { StandWithin (theory_at sig.now) store.old (numbers values.now.ids.items) }
    ensures some { (vs : List Tree) → AreValuesOf sig.now store.old values.now vs → IfOk result (λ o. IfSome o (λ id.
        StandsFor (theory_at sig.now) store.new id.0 (instance (value_at (variables_in values.now.variables.items) vs) (tree_of term.now)))) }
    ensures within { IfOk result (λ o. IfSome o (λ id. StandsWithin (theory_at sig.now) store.new id.0)) }
    ensures none { (vs : List Tree) → AreValuesOf sig.now store.old values.now vs → IfOk result (λ o. IfNone o
        (IsWithin (theory_at sig.now) (norm (theory_at sig.now) (instance (value_at (variables_in values.now.variables.items) vs) (tree_of term.now))) → ⊥)) }
    ensures extends { Extends store.old store.new }
{
    let _ = sig.operators();
    instance_within(store, sig, term, &values.variables, &values.ids)
}
