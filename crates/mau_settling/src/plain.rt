//! Terms to which memberships give no sorts, and how the derivation of a term begins.
ghost use Rattle.std.specs.Prelude.{◌≡◌, ◌↔◌, ℕ, List, true, false, IfOk, IfSome, IfNone, OnOk, IsTrue};
ghost use Rattle.mau_terms.specs.Bare.{IsLawful};
ghost use Rattle.mau_signature.specs.Signature.{terms_over};
ghost use Rattle.mau_formula.specs.Operator.{Operator};
ghost use Rattle.mau_store.specs.Node.{IsOf};
ghost use Rattle.mau_store.specs.Trees.{tree_at};
ghost use Rattle.mau_sorts.specs.Table.{IsSettled};
ghost use Rattle.mau_program.specs.LawfulPrograms.{IsLawfulProgram};
ghost use Rattle.mau_api.specs.Meanings.{meanings_by};
ghost use Rattle.mau_api.specs.Answers.{IsDerivedTable};
ghost use Rattle.mau_deriving.specs.Asking.{IsApplied, Stands, Derives};
ghost use Rattle.mau_settling.specs.Beginning.{IsLater, CanBegin};

use mau_deriving::{Deriving, begin_deriving};
use mau_listing::{WholeLister, has_nodes};
use mau_program::Program;
use mau_sorts::SortTable;
use mau_store::{NodeView, Store};
use mau_terms::{NoMemory, TermId};

/// Whether a term is an operator over arguments, or a constant.
fn is_applied(store: &Store, term: TermId) -> bool
    requires { IsOf store.now term.0 }
    ensures { IsTrue result ↔ IsApplied (tree_at store.now term.0) }
{
    match store.view(term) {
        NodeView::App(_, _) => true,
        NodeView::Num(_) | NodeView::Var(_) => false,
    }
}

/// Enters the sorts of a variable or a numeral.
fn settle_leaf(
    store: &Store,
    program: &Program,
    table: &mut SortTable,
    term: TermId,
) -> Result<(), NoMemory>
    requires lawful { IsLawfulProgram program.now }
    requires signature { IsLawful (terms_over program.now.sig) }
    requires begins { CanBegin program.now.sig store.now table.old term.0 }
    requires leaf { IsApplied (tree_at store.now term.0) → ⊥ }
    ensures derived { (hooks : List Operator) (limit : ℕ) → IsDerivedTable (meanings_by program.now hooks limit false) store.now table.old
        → IsDerivedTable (meanings_by program.now hooks limit false) store.now table.new }
    ensures later { IsLater program.now store.now store.now table.old table.new }
{
    has_nodes(store);
    table.settle_declared(&program.sig, store, term, &[])?;
    Ok(())
}

/// Begins to derive the sorts of a term that is due. A variable or a numeral is settled at once.
pub(crate) fn begin_one<L: WholeLister + Drop>(
    store: &mut Store,
    program: &Program,
    table: &mut SortTable,
    term: TermId,
) -> Result<Option<Deriving>, NoMemory>
    requires lawful { IsLawfulProgram program.now }
    requires signature { IsLawful (terms_over program.now.sig) }
    requires begins { CanBegin program.now.sig store.old table.old term.0 }
    ensures derives { (hooks : List Operator) (limit : ℕ) → IsDerivedTable (meanings_by program.now hooks limit false) store.old table.old
        → IfOk result (λ o. IfSome o (Derives program.now hooks limit store.new)) }
    ensures stands { IfOk result (λ o. IfSome o (Stands program.now store.new table.new)) }
    ensures term { IfOk result (λ o. IfSome o (λ d. d.term ≡ term)) }
    ensures derived { (hooks : List Operator) (limit : ℕ) → IsDerivedTable (meanings_by program.now hooks limit false) store.old table.old
        → IsDerivedTable (meanings_by program.now hooks limit false) store.new table.new }
    ensures later { IsLater program.now store.old store.new table.old table.new }
{
    has_nodes(store);
    if is_applied(store, term) {
        let begun = begin_deriving::<L>(store, program, table, term);
        has_nodes(store);
        let derivation = begun?;
        return Ok(Some(derivation));
    }
    settle_leaf(store, program, table, term)?;
    Ok(None)
}
