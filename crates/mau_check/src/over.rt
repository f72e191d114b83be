//! An operator over terms that are kept.
ghost use Rattle.std.specs.Prelude.{◌≡◌, ◌↔◌, List, All, map, IfOk, IfSome, IfNone, IsTrue};
ghost use Rattle.mau_poset.specs.Order.{kind_of};
ghost use Rattle.mau_terms.specs.Tree.{Tree, trees_of};
ghost use Rattle.mau_signature.specs.Faults.{IsSort};
ghost use Rattle.mau_signature.specs.Signature.{SignatureOf, IsOperator, arguments_of, declarations_at};
ghost use Rattle.mau_store.specs.Node.{Node, Extends};
ghost use Rattle.mau_api.specs.Terms.{IsBareWithin, holes_in};
ghost use Rattle.mau_logic.specs.Lines.{over};
ghost use Rattle.mau_logic.specs.Justified.{With};
ghost use Rattle.mau_check.specs.Kept.{AreHoles, IsKeptFor, AreKeptFor, kinds_of, SuitsKinds};

use crate::building::build_within;
use crate::kept::{Holes, Kept, ids_of, join};
use mau_signature::Signature;
use mau_store::Store;
use mau_terms::{NoMemory, OpId};

/// The sorts of an operator's arguments.
fn arguments(sig: &Signature, op: OpId) -> &[u32]
    requires { IsOperator sig.now op.0 }
    ensures value { result.now ≡ arguments_of (declarations_at sig.now op.0) }
    ensures sorts { All (IsSort sig.now.hierarchy) result.now }
{
    match sig.declarations(op).first() {
        Some(decl) => decl.args.items(),
        None => unreachable!(),
    }
}

/// Whether terms lie in the kinds of some sorts, one each.
fn have_kinds(sig: &Signature, sorts: &[u32], args: &[Kept]) -> bool
    requires { All (IsSort sig.now.hierarchy) sorts.now }
    ensures { IsTrue result ↔ (kinds_of args.now ≡ map (kind_of sig.now.hierarchy) sorts.now) }
{
    if args.len() != sorts.len() {
        return false;
    }
    for i in 0..args.len() {
        if args[i].kind != sig.poset().kind_of(sorts[i]) {
            return false;
        }
    }
    true
}

/// Whether terms lie in one kind.
fn are_of_kind(args: &[Kept], kind: u32) -> bool
    ensures { IsTrue result ↔ All (λ k. k ≡ kind) (kinds_of args.now) }
{
    for arg in args {
        if arg.kind != kind {
            return false;
        }
    }
    true
}

/// Whether an operator may stand over terms of these kinds.
fn suits(sig: &Signature, op: OpId, args: &[Kept]) -> bool
    requires { IsOperator sig.now op.0 }
    ensures { IsTrue result ↔ SuitsKinds sig.now op.0 (kinds_of args.now) }
{
    if !sig.theory(op).assoc {
        return have_kinds(sig, arguments(sig, op), args);
    }
    let kind = sig.result_kind(op);
    args.len() >= 2 && are_of_kind(args, kind)
}

/// The holes of some terms, from left to right.
fn join_all(args: &[Kept]) -> Holes
    ensures { (s : SignatureOf) (nodes : List Node) (ts : List Tree) → AreKeptFor s nodes args.now ts → AreHoles result (holes_in (trees_of ts)) }
{
    let mut holes = Holes::Absent;
    for arg in args {
        holes = join(holes, arg.holes);
    }
    holes
}

/// The same of an operator that may stand over them.
fn build_suited(
    store: &mut Store,
    sig: &Signature,
    op: OpId,
    args: &[Kept],
) -> Result<Option<Kept>, NoMemory>
    requires operator { IsOperator sig.now op.0 }
    requires terms { (ts : List Tree) × AreKeptFor sig.now store.old args.now ts }
    requires suited { SuitsKinds sig.now op.0 (kinds_of args.now) }
    ensures some { (ts : List Tree) → AreKeptFor sig.now store.old args.now ts → IfOk result (λ o. IfSome o (λ k. With (over sig.now op.0 ts) (IsKeptFor sig.now store.new k))) }
    ensures none { (ts : List Tree) → AreKeptFor sig.now store.old args.now ts → IfOk result (λ o. IfNone o (With (over sig.now op.0 ts) (IsBareWithin sig.now) → ⊥)) }
    ensures extends { Extends store.old store.new }
{
    let _ = sig.operators();
    let ids = ids_of(store.allocator(), args)?;
    let id = match build_within(store, sig, op, &ids) {
        Ok(Some(id)) => id,
        Ok(None) => return Ok(None),
        Err(fault) => return Err(fault),
    };
    Ok(Some(Kept {
        id,
        kind: sig.result_kind(op),
        holes: join_all(args),
    }))
}

/// The operator with a number over some terms, if that is a bare term within the limits.
pub fn build_over(
    store: &mut Store,
    sig: &Signature,
    op: u32,
    args: &[Kept],
) -> Result<Option<Kept>, NoMemory>
    requires { (ts : List Tree) × AreKeptFor sig.now store.old args.now ts }
    ensures some { (ts : List Tree) → AreKeptFor sig.now store.old args.now ts → IfOk result (λ o. IfSome o (λ k. With (over sig.now op ts) (IsKeptFor sig.now store.new k))) }
    ensures none { (ts : List Tree) → AreKeptFor sig.now store.old args.now ts → IfOk result (λ o. IfNone o (With (over sig.now op ts) (IsBareWithin sig.now) → ⊥)) }
    ensures extends { Extends store.old store.new }
{
    let count = sig.operators();
    if op == 0 || op > count {
        return Ok(None);
    }
    if !suits(sig, OpId(op), args) {
        return Ok(None);
    }
    build_suited(store, sig, OpId(op), args)
}
