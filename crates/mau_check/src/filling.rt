//! A term in the hole of a context.
ghost use Rattle.std.specs.Prelude.{◌≡◌, List, All, map, length, false, IfOk, IfSome, IfNone};
ghost use Rattle.mau_terms.specs.Norm.{norm};
ghost use Rattle.mau_terms.specs.Lawful.{AreLawful};
ghost use Rattle.mau_signature.specs.Signature.{theory_at};
ghost use Rattle.mau_signature.specs.OverSignature.{IsTreeOver};
ghost use Rattle.mau_store.specs.Node.{Node, arguments, AreBelow, Extends};
ghost use Rattle.mau_store.specs.Trees.{StandsFor, tree_over, tree_at, trees_at};
ghost use Rattle.mau_store.specs.View.{node_of, numbers};
ghost use Rattle.mau_canon.specs.Standing.{StandsWithin, StandWithin};
ghost use Rattle.mau_canon.specs.Within.{IsWithin};
ghost use Rattle.mau_api.specs.Terms.{fill};
ghost use Rattle.mau_check.specs.Marks.{HasNoHole, AreMarks};

use crate::building::build_within;
use mau_signature::Signature;
use mau_store::{NodeView, Store};
use mau_terms::{NoMemory, TermId};

/// The index of the variables that are holes.
pub const HOLE: u32 = 4_294_967_295;

/// Whether one of some terms is marked.
fn some_marked(args: &[TermId], marks: &[bool]) -> bool
    requires { AreBelow (length marks.now) (numbers args.now) }
    ensures { (nodes : List Node) → AreMarks nodes marks.now → result ≡ false → All HasNoHole (trees_at nodes (numbers args.now)) }
{
    for arg in args {
        if marks[arg.0] {
            return true;
        }
    }
    false
}

/// Whether a node may hold a hole, by the marks of older ones.
fn is_marked(node: NodeView<'_>, marks: &[bool]) -> bool
    requires { AreBelow (length marks.now) (arguments (node_of node)) }
    ensures { (nodes : List Node) → AreMarks nodes marks.now → result ≡ false → HasNoHole (tree_over (tree_at nodes) (node_of node.entry)) }
{
    match node {
        NodeView::Num(_) => false,
        NodeView::Var(v) => v.index == HOLE,
        NodeView::App(_, args) => some_marked(args, marks),
    }
}

/// Marks the terms of a store that may hold a hole.
pub fn mark(store: &Store) -> Result<Vec<bool>, NoMemory>
    ensures { IfOk result (λ marks. AreMarks store.now marks.items) }
{
    let mut marks = Vec::new(store.allocator());
    for i in 0..store.len() {
        let marked = is_marked(store.view(TermId(i)), &marks);
        marks.push(marked)?;
    }
    Ok(marks)
}

/// Whether a term may hold a hole, as far as it is marked.
fn may_have_hole(marks: &[bool], term: TermId) -> bool
    ensures { (nodes : List Node) → AreMarks nodes marks.now → result ≡ false → HasNoHole (tree_at nodes term.0) }
{
    if term.0 >= marks.len() {
        return true;
    }
    marks[term.0]
}

/// The normal form of a context with a term in its holes, if it is within the limits. It takes a stack as deep as the context.
#[cycle(filling)]
pub fn fill(
    store: &mut Store,
    sig: &Signature,
    marks: &[bool],
    context: TermId,
    term: TermId,
) -> Result<Option<TermId>, NoMemory>
    requires lawful { AreLawful (theory_at sig.now) }
    requires marks { AreMarks store.old marks.now }
    requires over { IsTreeOver sig.now (tree_at store.old context.0) }
    requires context { StandsWithin (theory_at sig.now) store.old context.0 }
    requires term { StandsWithin (theory_at sig.now) store.old term.0 }
    ensures some { IfOk result (λ o. IfSome o (λ id. StandsFor (theory_at sig.now) store.new id.0 (fill (tree_at store.old context.0) (tree_at store.old term.0)))) }
    ensures within { IfOk result (λ o. IfSome o (λ id. StandsWithin (theory_at sig.now) store.new id.0)) }
    ensures none { IfOk result (λ o. IfNone o (IsWithin (theory_at sig.now) (norm (theory_at sig.now) (fill (tree_at store.old context.0) (tree_at store.old term.0))) → ⊥)) }
    ensures extends { Extends store.old store.new }
{
    if !may_have_hole(marks, context) {
        return Ok(Some(context));
    }
    match store.view(context) {
        NodeView::Num(_) => Ok(Some(context)),
        NodeView::Var(v) => {
            if v.index == HOLE {
                return Ok(Some(term));
            }
            Ok(Some(context))
        }
        NodeView::App(op, args) => {
            let args = Vec::from_slice(store.allocator(), args)?;
            let filled = match fill_all(store, sig, marks, &args, context.0, term) {
                Ok(Some(filled)) => filled,
                Ok(None) => return Ok(None),
                Err(fault) => return Err(fault),
            };
            build_within(store, sig, op, &filled)
        }
    }
}

/// The same of some contexts, all of which have numbers below this one.
#[cycle(filling)]
fn fill_all(
    store: &mut Store,
    sig: &Signature,
    marks: &[bool],
    contexts: &[TermId],
    below: usize,
    term: TermId,
) -> Result<Option<Vec<TermId>>, NoMemory>
    requires lawful { AreLawful (theory_at sig.now) }
    requires marks { AreMarks store.old marks.now }
    requires below { AreBelow below (numbers contexts.now) }
    requires over { All (IsTreeOver sig.now) (trees_at store.old (numbers contexts.now)) }
    requires contexts { StandWithin (theory_at sig.now) store.old (numbers contexts.now) }
    requires term { StandsWithin (theory_at sig.now) store.old term.0 }
    ensures some { IfOk result (λ o. IfSome o (λ v. trees_at store.new (numbers v.items)
        ≡ map (λ c. norm (theory_at sig.now) (fill c (tree_at store.old term.0))) (trees_at store.old (numbers contexts.now)))) }
    ensures within { IfOk result (λ o. IfSome o (λ v. StandWithin (theory_at sig.now) store.new (numbers v.items))) }
    ensures none { IfOk result (λ o. IfNone o (All (λ c. IsWithin (theory_at sig.now) (norm (theory_at sig.now) (fill c (tree_at store.old term.0)))) (trees_at store.old (numbers contexts.now)) → ⊥)) }
    ensures extends { Extends store.old store.new }
{
    let mut all = Vec::new(store.allocator());
    for context in contexts {
        let filled = match fill(store, sig, marks, *context, term) {
            Ok(Some(filled)) => filled,
            Ok(None) => return Ok(None),
            Err(fault) => return Err(fault),
        };
        all.push(filled)?;
    }
    Ok(Some(all))
}
