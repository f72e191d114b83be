//! Bare terms, and instances of patterns, in normal form. The terms below nested uses of an associative operator are collected into one list, which is sorted
//! once.
ghost use Rattle.std.specs.Prelude.{◌≡◌, ◌++◌, All, map, IfOk, OnOk, IfErr, IfSome, Some, None, if◌then◌else◌};
ghost use Rattle.std.specs.Option.{option_map};
ghost use Rattle.mau_terms.specs.Tree.{trees_of};
ghost use Rattle.mau_terms.specs.Norm.{all_pieces, arrange, norm, holds_overflow, hold_overflow};
ghost use Rattle.mau_terms.specs.Solution.{list_under, assoc_top};
ghost use Rattle.mau_terms.specs.Bare.{IsBare};
ghost use Rattle.mau_terms.specs.View.{tree_of};
ghost use Rattle.mau_terms.specs.Subst.{instance};
ghost use Rattle.mau_signature.specs.Signature.{IsOperator, terms_over, theory_at};
ghost use Rattle.mau_store.specs.Node.{AreOf, Extends};
ghost use Rattle.mau_store.specs.Trees.{StandsFor, StandsForNorm, trees_at};
ghost use Rattle.mau_store.specs.View.{numbers};
ghost use Rattle.mau_canon.specs.Standing.{IsNumberOf, StandsWithin, StandWithin};
ghost use Rattle.mau_canon.specs.Within.{IsCause};
ghost use Rattle.mau_canon.specs.Values.{values_in};

use crate::BuildFault;
use crate::builder::judge;
use crate::list::pieces;
use crate::normal::{is_overflow, normal_form};
use crate::value::value_of;
use mau_signature::Signature;
use mau_store::{NodeView, Store};
use mau_terms::{Bare, NoMemory, OpId, TermId, VarId};
use std::alloc::Global;

/// The normal form of a bare term.
///
/// The store may have gained nodes where the term is refused.
pub fn build_bare(store: &mut Store, sig: &Signature, term: &Bare) -> Result<TermId, BuildFault>
    requires { IsBare (terms_over sig.now) (tree_of term.now) }
    ensures ok { IfOk result (λ id. StandsFor (theory_at sig.now) store.new id.0 (tree_of term.now)) }
    ensures within { IfOk result (λ id. StandsWithin (theory_at sig.now) store.new id.0) }
    ensures refused { IfErr result (IsCause (theory_at sig.now) (norm (theory_at sig.now) (tree_of term.now))) }
    ensures extends { Extends store.old store.new }
{
    build_instance(store, sig, term, &[], &[])
}

/// The normal form of a bare term with the values of some variables in their places. The values are normal forms of this store, each
/// at the place of its variable; a variable without a value stays.
///
/// The store may have gained nodes where the instance is refused.
pub fn build_instance(
    store: &mut Store,
    sig: &Signature,
    term: &Bare,
    variables: &[VarId],
    values: &[TermId],
) -> Result<TermId, BuildFault>
    requires bare { IsBare (terms_over sig.now) (tree_of term.now) }
    requires values { StandWithin (theory_at sig.now) store.old (numbers values.now) }
    ensures ok { IfOk result (λ id. StandsFor (theory_at sig.now) store.new id.0 (instance (values_in store.old variables.now values.now) (tree_of term.now))) }
    ensures within { IfOk result (λ id. StandsWithin (theory_at sig.now) store.new id.0) }
    ensures refused { IfErr result (IsCause (theory_at sig.now) (norm (theory_at sig.now) (instance (values_in store.old variables.now values.now) (tree_of term.now)))) }
    ensures extends { Extends store.old store.new }
{
    let (id, overflows) = normalize(store, sig, term, variables, values)?;
    judge(store, id, overflows)
}

/// The operator at the top of the normal form of a bare term, if it is associative. The normal form may be of any depth.
pub fn assoc_top(alloc: Global, sig: &Signature, term: &Bare) -> Result<Option<OpId>, NoMemory>
    requires { IsBare (terms_over sig.now) (tree_of term.now) }
    ensures top { IfOk result (λ top. option_map (λ op. op.0) top ≡ assoc_top (theory_at sig.now) (norm (theory_at sig.now) (tree_of term.now))) }
    ensures operator { IfOk result (λ top. IfSome top (λ op. IsOperator sig.now op.0)) }
{
    let mut store = Store::new(alloc);
    let (id, _) = normalize(&mut store, sig, term, &[], &[])?;
    let _ = sig.operators();
    match store.view(id) {
        NodeView::App(op, _) => Ok(if_assoc(sig, op)),
        NodeView::Var(_) => Ok(None),
        NodeView::Num(_) => Ok(None),
    }
}

/// An operator, if it is associative.
fn if_assoc(sig: &Signature, op: OpId) -> Option<OpId>
    requires { IsOperator sig.now op.0 }
    ensures top { option_map (λ o. o.0) result ≡ (if (theory_at sig.now op.0).assoc then Some op.0 else None) }
    ensures operator { IfSome result (λ o. IsOperator sig.now o.0) }
{
    if sig.theory(op).assoc { Some(op) } else { None }
}

/// The normal form of an instance, however deep it is, and whether it holds the successor of the greatest numeral.
#[cycle(bare)]
fn normalize(
    store: &mut Store,
    sig: &Signature,
    term: &Bare,
    variables: &[VarId],
    values: &[TermId],
) -> Result<(TermId, bool), NoMemory>
    requires bare { IsBare (terms_over sig.now) (tree_of term.now) }
    requires values { StandWithin (theory_at sig.now) store.old (numbers values.now) }
    ensures ok { IfOk result (λ p. IsNumberOf store.new p.0.0 (norm (theory_at sig.now) (instance (values_in store.old variables.now values.now) (tree_of term.now)))) }
    ensures normal { IfOk result (λ p. StandsForNorm (theory_at sig.now) store.new p.0.0) }
    ensures overflows { IfOk result (λ p. p.1 ≡ holds_overflow (theory_at sig.now) (norm (theory_at sig.now) (instance (values_in store.old variables.now values.now) (tree_of term.now)))) }
    ensures extends { Extends store.old store.new }
{
    match term {
        Bare::Var(v) => Ok((value_of(store, sig, variables, values, *v)?, false)),
        Bare::Num(n) => Ok((store.intern(NodeView::Num(*n))?, false)),
        Bare::App(op, args) => {
            let mut items = Vec::new(store.allocator());
            let below = collect_all(store, sig, *op, args.items(), variables, values, &mut items)?;
            let theory = sig.theory(*op);
            let id = normal_form(store, theory, *op, items)?;
            let here = is_overflow(store, theory, *op, id);
            Ok((id, below | here))
        }
    }
}

/// Adds the lists of the normal forms of some instances under an operator, and says whether one of these normal forms holds the
/// successor of the greatest numeral.
#[cycle(bare)]
fn collect_all(
    store: &mut Store,
    sig: &Signature,
    op: OpId,
    terms: &[Bare],
    variables: &[VarId],
    values: &[TermId],
    items: &mut Vec<TermId>,
) -> Result<bool, NoMemory>
    requires operator { IsOperator sig.now op.0 }
    requires bare { All (λ t. IsBare (terms_over sig.now) (tree_of t)) terms.now }
    requires values { StandWithin (theory_at sig.now) store.old (numbers values.now) }
    requires there { AreOf store.old (numbers items.old.items) }
    ensures list { OnOk result (arrange (theory_at sig.now op.0).comm (trees_at store.new (numbers items.new.items))
        ≡ arrange (theory_at sig.now op.0).comm (trees_at store.old (numbers items.old.items)
        ++ all_pieces (theory_at sig.now op.0).assoc (theory_at sig.now op.0).id op.0 (map (norm (theory_at sig.now)) (map (instance (values_in store.old variables.now values.now)) (map tree_of terms.now))))) }
    ensures overflows { IfOk result (λ o. o ≡ hold_overflow (theory_at sig.now) (trees_of (map (norm (theory_at sig.now)) (map (instance (values_in store.old variables.now values.now)) (map tree_of terms.now))))) }
    ensures there { OnOk result (AreOf store.new (numbers items.new.items)) }
    ensures extends { Extends store.old store.new }
{
    let mut overflows = false;
    for term in terms {
        overflows |= collect(store, sig, op, term, variables, values, items)?;
    }
    Ok(overflows)
}

/// The same of one term. Below an associative operator the terms are collected one by one.
#[cycle(bare)]
pub(crate) fn collect(
    store: &mut Store,
    sig: &Signature,
    op: OpId,
    term: &Bare,
    variables: &[VarId],
    values: &[TermId],
    items: &mut Vec<TermId>,
) -> Result<bool, NoMemory>
    requires operator { IsOperator sig.now op.0 }
    requires bare { IsBare (terms_over sig.now) (tree_of term.now) }
    requires values { StandWithin (theory_at sig.now) store.old (numbers values.now) }
    requires there { AreOf store.old (numbers items.old.items) }
    ensures list { OnOk result (arrange (theory_at sig.now op.0).comm (trees_at store.new (numbers items.new.items))
        ≡ arrange (theory_at sig.now op.0).comm (trees_at store.old (numbers items.old.items)
        ++ list_under (theory_at sig.now op.0) op.0 (norm (theory_at sig.now) (instance (values_in store.old variables.now values.now) (tree_of term.now))))) }
    ensures overflows { IfOk result (λ o. o ≡ holds_overflow (theory_at sig.now) (norm (theory_at sig.now) (instance (values_in store.old variables.now values.now) (tree_of term.now)))) }
    ensures there { OnOk result (AreOf store.new (numbers items.new.items)) }
    ensures extends { Extends store.old store.new }
{
    let theory = sig.theory(op);
    if let Bare::App(top, args) = term {
        if theory.assoc && *top == op {
            return collect_all(store, sig, op, args.items(), variables, values, items);
        }
    }
    let (id, overflows) = normalize(store, sig, term, variables, values)?;
    items.extend_from_slice(pieces(store, theory, op, &id))?;
    Ok(overflows)
}
