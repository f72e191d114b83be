//! The settling of the sorts of a term: at once where nothing has to be asked, and else step by step.
ghost use Rattle.std.specs.Prelude.{◌≡◌, ◌↔◌, ℕ, List, [], true, false, IfOk, IsTrue};
ghost use Rattle.mau_terms.specs.Bare.{IsLawful};
ghost use Rattle.mau_signature.specs.Signature.{terms_over};
ghost use Rattle.mau_formula.specs.Operator.{Operator};
ghost use Rattle.mau_store.specs.Node.{IsOf};
ghost use Rattle.mau_store.specs.Trees.{tree_at};
ghost use Rattle.mau_sorts.specs.Table.{IsSettled, IsReady, AreOver};
ghost use Rattle.mau_listing.specs.Asked.{IsClosedTable};
ghost use Rattle.mau_program.specs.LawfulPrograms.{IsLawfulProgram};
ghost use Rattle.mau_api.specs.Terms.{IsTerm};
ghost use Rattle.mau_api.specs.Meanings.{meanings_by};
ghost use Rattle.mau_api.specs.Answers.{IsDerivedTable};
ghost use Rattle.mau_deriving.specs.Asking.{IsApplied};
ghost use Rattle.mau_settling.specs.Beginning.{AreIdentitiesSettled, IsLater};

use mau_api::Program;
use mau_deriving::begin_deriving;
use mau_listing::{WholeLister, has_nodes};
use mau_settling::Settling;
use mau_sorts::SortTable;
use mau_store::{NodeView, Store};
use mau_terms::{NoMemory, TermId};

/// How the sorts of a term are settled: they are settled where there is nothing, and else it goes on so. It is boxed, so that the frames of the
/// loop are small.
#[derive(Drop)]
pub struct Sorting {
    pub(crate) way: Option<Box<Settling>>,
}

/// Whether a term is an operator over arguments, or a constant.
fn is_applied(store: &Store, term: TermId) -> bool
    requires { IsOf store.now term.0 }
    ensures { IsTrue result ↔ IsApplied (tree_at store.now term.0) }
{
    match store.view(term) {
        NodeView::App(_, _) => true,
        NodeView::Num(_) | NodeView::Var(_) => false,
    }
}

/// Whether the sorts of a term are those that its declarations give, by arguments that are settled: it is an operator over such arguments, and there are
/// no memberships.
fn is_due(store: &Store, program: &Program, table: &SortTable, term: TermId) -> bool
    requires { IsOf store.now term.0 }
    ensures plain { result ≡ true → program.now.memberships ≡ [] }
    ensures applied { result ≡ true → IsApplied (tree_at store.now term.0) }
    ensures ready { result ≡ true → IsReady program.now.sig store.now table.now term.0 }
{
    program.memberships.items().is_empty()
        && is_applied(store, term)
        && table.is_ready(&program.sig, store, term)
}

/// Settles a term at once where its arguments and the identities are settled, and there are no memberships. Whether it is settled then.
pub(crate) fn settle_at_once<M: WholeLister + Drop>(
    store: &mut Store,
    program: &Program,
    table: &mut SortTable,
    term: TermId,
) -> Result<bool, NoMemory>
    requires lawful { IsLawfulProgram program.now }
    requires signature { IsLawful (terms_over program.now.sig) }
    requires term { IsTerm program.now.sig store.old term.0 }
    requires over { AreOver program.now.sig.hierarchy table.old }
    requires closed { IsClosedTable store.old table.old }
    requires identities { AreIdentitiesSettled program.now.sig store.old table.old }
    ensures settled { IfOk result (λ b. b ≡ true → IsSettled table.new term.0) }
    ensures derived { (hooks : List Operator) (limit : ℕ) → IsDerivedTable (meanings_by program.now hooks limit false) store.old table.old
        → IsDerivedTable (meanings_by program.now hooks limit false) store.new table.new }
    ensures later { IsLater program.now store.old store.new table.old table.new }
{
    has_nodes(store);
    if table.is_settled(term) {
        return Ok(true);
    }
    if is_due(store, program, table, term) {
        let begun = begin_deriving::<M>(store, program, table, term);
        has_nodes(store);
        let derivation = begun?;
        derivation.enter(store, program, table)?;
        return Ok(true);
    }
    Ok(false)
}
