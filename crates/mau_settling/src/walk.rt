//! The first term below another one whose sorts are not settled.
ghost use Rattle.std.specs.Prelude.{◌≡◌, ◌<◌, ℕ, List, [], All, IfOk, IfSome, IfNone, OnOk};
ghost use Rattle.mau_store.specs.Node.{Node, IsOf, arguments};
ghost use Rattle.mau_store.specs.View.{node_of, numbers};
ghost use Rattle.mau_sorts.specs.Table.{IsSettled};
ghost use Rattle.mau_settling.specs.Due.{IsFirstUnsettled, IsPlaceIn, IsArgumentAt};

use mau_sorts::SortTable;
use mau_store::{NodeView, Store};
use mau_terms::{NoMemory, TermId};

/// A term on the way down, and how many of its arguments are known to be settled.
#[derive(Clone, Copy, Debug)]
pub struct Place {
    pub term: TermId,
    pub next: usize,
}

/// The arguments of a node.
fn arguments_of<'a>(node: NodeView<'a>) -> &'a [TermId]
    ensures { numbers result.now ≡ arguments (node_of node.entry) }
{
    match node {
        NodeView::App(_, args) => args,
        NodeView::Num(_) | NodeView::Var(_) => &[],
    }
}

/// Goes on at an argument of a term: past it where it is settled, and else down to it.
fn step_down(
    table: &SortTable,
    path: &mut Vec<Place>,
    place: Place,
    argument: TermId,
) -> Result<(), NoMemory>
    requires next { place.next < 18446744073709551615 }
    ensures path { (nodes : List Node) (root : ℕ) → All (IsPlaceIn nodes table.now root) path.old.items
        → IsPlaceIn nodes table.now root place
        → IsArgumentAt nodes place argument.0 → OnOk result (All (IsPlaceIn nodes table.now root) path.new.items) }
{
    if table.is_settled(argument) {
        path.push(Place {
            term: place.term,
            next: place.next + 1,
        })?;
        return Ok(());
    }
    path.push(place)?;
    path.push(Place {
        term: argument,
        next: 0,
    })?;
    Ok(())
}

/// Goes on at a place: past it where its term is settled, and else past its next argument or down to it. Its term, where it is the first
/// that is not settled.
fn visit(
    store: &Store,
    table: &SortTable,
    path: &mut Vec<Place>,
    place: Place,
) -> Result<Option<TermId>, NoMemory>
    requires there { IsOf store.now place.term.0 }
    ensures first { (root : ℕ) → IsPlaceIn store.now table.now root place
        → IfOk result (λ o. IfSome o (λ id. IsFirstUnsettled store.now table.now root id.0)) }
    ensures path { (root : ℕ) → All (IsPlaceIn store.now table.now root) path.old.items → IsPlaceIn store.now table.now root place
        → OnOk result (All (IsPlaceIn store.now table.now root) path.new.items) }
{
    if table.is_settled(place.term) {
        return Ok(None);
    }
    let args = arguments_of(store.view(place.term));
    if place.next < args.len() {
        step_down(table, path, place, args[place.next])?;
        return Ok(None);
    }
    Ok(Some(place.term))
}

/// The first term of a root and what is below it whose sorts are not settled: arguments come before their operator, and from left to
/// right. The path goes on where an earlier call left it. None where the root is settled.
pub fn first_unsettled(
    store: &Store,
    table: &SortTable,
    root: TermId,
    path: &mut Vec<Place>,
) -> Result<Option<TermId>, NoMemory>
    requires root { IsOf store.now root.0 }
    requires path { All (IsPlaceIn store.now table.now root.0) path.old.items }
    ensures first { IfOk result (λ o. IfSome o (λ id. IsFirstUnsettled store.now table.now root.0 id.0)) }
    ensures none { IfOk result (λ o. IfNone o (IsSettled table.now root.0)) }
    ensures end { IfOk result (λ o. IfNone o (path.new.items ≡ [])) }
    ensures path { OnOk result (All (IsPlaceIn store.now table.now root.0) path.new.items) }
{
    for _ in 0..u64::MAX {
        match path.pop() {
            None => {
                if table.is_settled(root) {
                    return Ok(None);
                }
                path.push(Place {
                    term: root,
                    next: 0,
                })?;
            }
            Some(place) => {
                if let Some(found) = visit(store, table, path, place)? {
                    return Ok(Some(found));
                }
            }
        }
    }
    Err(NoMemory)
}
