//! Terms that are built, where they are within the limits.
ghost use Rattle.std.specs.Prelude.{◌≡◌, ℕ, Option, None, IfOk, IfSome, IfNone};
ghost use Rattle.mau_terms.specs.Tree.{Tree, node};
ghost use Rattle.mau_terms.specs.Norm.{norm};
ghost use Rattle.mau_terms.specs.Bare.{IsBare};
ghost use Rattle.mau_terms.specs.Subst.{instance};
ghost use Rattle.mau_terms.specs.View.{tree_of};
ghost use Rattle.mau_terms.specs.declared.theory.Theory.{Theory};
ghost use Rattle.mau_signature.specs.Signature.{IsOperator, theory_at, terms_over};
ghost use Rattle.mau_store.specs.Node.{Extends};
ghost use Rattle.mau_store.specs.Trees.{StandsFor, trees_at};
ghost use Rattle.mau_store.specs.View.{numbers};
ghost use Rattle.mau_canon.specs.Standing.{StandsWithin, StandWithin};
ghost use Rattle.mau_canon.specs.Values.{values_in};
ghost use Rattle.mau_canon.specs.Within.{IsWithin, IsCause};

use mau_canon::{BuildFault, build, build_instance};
use mau_signature::Signature;
use mau_store::Store;
use mau_terms::{Bare, NoMemory, OpId, TermId, VarId};

/// Nothing, where a term is not within the limits.
fn refused(fault: BuildFault) -> Result<Option<TermId>, NoMemory>
    ensures none { IfOk result (λ o. o ≡ None) }
    ensures beyond { (th : ℕ → Theory) (t : Tree) → IsCause th t fault → IfOk result (λ o. IsWithin th t → ⊥) }
{
    match fault {
        BuildFault::NoMemory => Err(NoMemory),
        BuildFault::TooDeep => Ok(None),
        BuildFault::Overflow => Ok(None),
    }
}

/// The normal form of an operator over normal forms, if it is within the limits.
pub fn build_within(
    store: &mut Store,
    sig: &Signature,
    op: OpId,
    args: &[TermId],
) -> Result<Option<TermId>, NoMemory>
    requires operator { IsOperator sig.now op.0 }
    requires args { StandWithin (theory_at sig.now) store.old (numbers args.now) }
    ensures some { IfOk result (λ o. IfSome o (λ id. StandsFor (theory_at sig.now) store.new id.0 (node op.0 (trees_at store.old (numbers args.now))))) }
    ensures within { IfOk result (λ o. IfSome o (λ id. StandsWithin (theory_at sig.now) store.new id.0)) }
    ensures none { IfOk result (λ o. IfNone o (IsWithin (theory_at sig.now) (norm (theory_at sig.now) (node op.0 (trees_at store.old (numbers args.now)))) → ⊥)) }
    ensures extends { Extends store.old store.new }
{
    match build(store, sig, op, args) {
        Ok(id) => Ok(Some(id)),
        Err(fault) => refused(fault),
    }
}

/// The normal form of a bare term with values in the places of some variables, if it is within the limits.
pub fn instance_within(
    store: &mut Store,
    sig: &Signature,
    term: &Bare,
    variables: &[VarId],
    values: &[TermId],
) -> Result<Option<TermId>, NoMemory>
    requires bare { IsBare (terms_over sig.now) (tree_of term.now) }
    requires values { StandWithin (theory_at sig.now) store.old (numbers values.now) }
    ensures some { IfOk result (λ o. IfSome o (λ id. StandsFor (theory_at sig.now) store.new id.0 (instance (values_in store.old variables.now values.now) (tree_of term.now)))) }
    ensures within { IfOk result (λ o. IfSome o (λ id. StandsWithin (theory_at sig.now) store.new id.0)) }
    ensures none { IfOk result (λ o. IfNone o (IsWithin (theory_at sig.now) (norm (theory_at sig.now) (instance (values_in store.old variables.now values.now) (tree_of term.now))) → ⊥)) }
    ensures extends { Extends store.old store.new }
{
    match build_instance(store, sig, term, variables, values) {
        Ok(id) => Ok(Some(id)),
        Err(fault) => refused(fault),
    }
}
