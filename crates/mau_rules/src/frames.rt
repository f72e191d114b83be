//! The terms that are open in a pass of frewrite, on the heap.
ghost use Rattle.std.specs.Prelude.{◌≡◌, ◌≤◌, ◌<◌, ◌-◌, ℕ, List, map, length, slice_set, true, IfOk, IfErr, IfSome, IfNone};
ghost use Rattle.mau_terms.specs.Tree.{Tree};
ghost use Rattle.mau_terms.specs.Bare.{IsLawful};
ghost use Rattle.mau_signature.specs.Signature.{SignatureOf, theory_at, terms_over};
ghost use Rattle.mau_formula.specs.Operator.{Operator};
ghost use Rattle.mau_store.specs.Node.{Extends};
ghost use Rattle.mau_store.specs.Trees.{tree_at, StandsFor};
ghost use Rattle.mau_sorts.specs.Table.{Table};
ghost use Rattle.mau_evaluation.specs.Evaluation.{admit};
ghost use Rattle.mau_api.specs.Terms.{IsTerm};
ghost use Rattle.mau_api.specs.Events.{Event};
ghost use Rattle.mau_reduce.specs.Ends.{IsEnd};
ghost use Rattle.mau_rules.specs.Walk.{around_all, MayReplace};
ghost use Rattle.mau_rules.specs.Passes.{frame_in, IsFrame, IsChain, IsNext, HasNoNext};
ghost use Rattle.mau_rules.specs.Telling.{TellsBehind, first_term, TellsReached, TellsWithin, TellsPass};

use crate::telling::tell_exit;
use crate::walk::is_frozen;
use crate::whole::end_around;
use mau_api::{EvalEnd, Program, StepWatcher};
use mau_canon::build;
use mau_signature::Signature;
use mau_store::{NodeView, Store};
use mau_terms::{NoMemory, TermId};

/// A term that is open in a pass, its arguments as they stand now, and how many of them are behind the pass.
#[derive(Drop)]
pub(crate) struct Frame {
    pub(crate) term: TermId,
    pub(crate) args: Vec<TermId>,
    pub(crate) next: usize,
}

/// A term is opened: none of its arguments is behind the pass.
pub(crate) fn open_term(store: &Store, sig: &Signature, term: TermId) -> Result<Frame, NoMemory>
    requires lawful { IsLawful (terms_over sig.now) }
    requires term { IsTerm sig.now store.now term.0 }
    ensures stands { IfOk result (λ x. frame_in store.now x ≡ (tree_at store.now term.0, 0)) }
    ensures frame { IfOk result (IsFrame sig.now store.now) }
    ensures term { IfOk result (λ x. x.term ≡ term) }
{
    let _ = sig.operators();
    match store.view(term) {
        NodeView::App(_, ids) => {
            let args = Vec::from_slice(store.allocator(), ids)?;
            Ok(Frame {
                term,
                args,
                next: 0,
            })
        }
        NodeView::Num(_) | NodeView::Var(_) => Ok(Frame {
            term,
            args: Vec::new(store.allocator()),
            next: 0,
        }),
    }
}

/// The first argument of an open term that is not behind the pass and not frozen, and how many are behind it once it is entered.
pub(crate) fn next_argument(store: &Store, sig: &Signature, at: &Frame) -> Option<(usize, TermId)>
    requires lawful { IsLawful (terms_over sig.now) }
    requires frame { IsFrame sig.now store.now at.now }
    ensures some { IfSome result (λ x. IsNext sig.now store.now at.now x.0 x.1.0) }
    ensures none { IfNone result (HasNoNext sig.now store.now at.now) }
{
    match store.view(at.term) {
        NodeView::App(op, _) => {
            for place in at.next..at.args.len() {
                if !is_frozen(sig, op, place + 1) {
                    return Some((place + 1, at.args[place]));
                }
            }
            None
        }
        NodeView::Num(_) | NodeView::Var(_) => None,
    }
}

/// An open term, built again over its arguments as they stand now.
pub(crate) fn rebuilt(store: &mut Store, sig: &Signature, at: &Frame) -> Result<TermId, EvalEnd>
    requires lawful { IsLawful (terms_over sig.now) }
    requires frame { IsFrame sig.now store.old at.now }
    ensures value { IfOk result (λ id. StandsFor (theory_at sig.now) store.new id.0 (frame_in store.old at.now).0) }
    ensures kind { IfOk result (λ id. MayReplace sig.now store.new at.now.term.0 id.0) }
    ensures ends { (b : ℕ) → IfErr result (IsEnd (admit (theory_at sig.now) (frame_in store.old at.now).0 b)) }
    ensures extends { Extends store.old store.new }
{
    match store.view(at.term) {
        NodeView::App(op, _) => match build(store, sig, op, &at.args) {
            Ok(id) => Ok(id),
            Err(fault) => Err(EvalEnd::from(fault)),
        },
        NodeView::Num(_) | NodeView::Var(_) => Ok(at.term),
    }
}

/// A term in the place of the argument that was entered last.
pub(crate) fn put_in(outer: Frame, term: TermId) -> Frame
    requires next { 0 < outer.next }
    requires within { outer.next ≤ length outer.args.items }
    ensures term { result.term ≡ outer.term }
    ensures next { result.next ≡ outer.next }
    ensures args { result.args.items ≡ slice_set outer.args.items (outer.next - 1) term }
{
    let mut outer = outer;
    let place = outer.next - 1;
    outer.args[place] = term;
    outer
}

/// The whole term through whose open terms a term was reached, all arguments as they stand now. Each of these terms is left as it stands.
pub(crate) fn close_all<W: StepWatcher>(
    store: &mut Store,
    program: &Program,
    frames: &mut Vec<Frame>,
    term: TermId,
    watcher: &mut W,
) -> Result<TermId, EvalEnd>
    requires lawful { IsLawful (terms_over program.now.sig) }
    requires stands { (root child : ℕ) × IsChain program.now.sig store.old root frames.old.items child × MayReplace program.now.sig store.old child term.0 }
    ensures value { IfOk result (λ id. StandsFor (theory_at program.now.sig) store.new id.0 (around_all (λ v. v) (map (frame_in store.old) frames.old.items) (tree_at store.old term.0))) }
    ensures term { IfOk result (λ id. IsTerm program.now.sig store.new id.0) }
    ensures ends { (b : ℕ) → IfErr result (IsEnd (admit (theory_at program.now.sig) (around_all (λ v. v) (map (frame_in store.old) frames.old.items) (tree_at store.old term.0)) b)) }
    ensures told { W.wanted watcher.old ≡ true → IfOk result (λ id. (hooks : List Operator) (table : Table) (front : List Event) (root inner : TermId) (n : ℕ) →
        first_term frames.old.items inner ≡ root → IsChain program.now.sig store.old root.0 frames.old.items inner.0 → MayReplace program.now.sig store.old inner.0 term.0 →
        TellsWithin program.now hooks store.old table (TellsReached program.now hooks store.old table inner term) inner frames.old.items front (W.told watcher.old) n →
        TellsPass program.now hooks store.new table root id front (W.told watcher.new) n) }
    ensures behind { TellsBehind (W.wanted watcher.old) (W.told watcher.old) (W.told watcher.new) }
    ensures extends { Extends store.old store.new }
    ensures wanted { W.wanted watcher.new ≡ W.wanted watcher.old }
{
    let mut whole = term;
    while let Some(outer) = frames.pop() {
        let _ = store.len();
        match tell_exit(watcher, whole) {
            Ok(()) => (),
            Err(_) => return Err(EvalEnd::NoMemory),
        }
        let at = put_in(outer, whole);
        match rebuilt(store, &program.sig, &at) {
            Ok(id) => whole = id,
            Err(end) => return Err(end_around(frames.is_empty(), end)),
        }
    }
    match tell_exit(watcher, whole) {
        Ok(()) => Ok(whole),
        Err(_) => Err(EvalEnd::NoMemory),
    }
}
