//! Settling a term by who solves conditions.
ghost use Rattle.std.specs.Prelude.{◌≡◌, ℕ, List, false, Some, IfOk, IfErr, OnOk, slice_get};
ghost use Rattle.mau_terms.specs.Bare.{IsLawful};
ghost use Rattle.mau_terms.specs.View.{tree_of};
ghost use Rattle.mau_signature.specs.Signature.{terms_over};
ghost use Rattle.mau_formula.specs.Operator.{Operator};
ghost use Rattle.mau_store.specs.Trees.{tree_at};
ghost use Rattle.mau_sorts.specs.Table.{AreOver};
ghost use Rattle.mau_listing.specs.Asked.{IsClosedTable};
ghost use Rattle.mau_program.specs.declared.program.Program as Typed;
ghost use Rattle.mau_program.specs.declared.statements.Membership as Statement;
ghost use Rattle.mau_program.specs.LawfulPrograms.{IsLawfulProgram};
ghost use Rattle.mau_api.specs.Terms.{IsTerm};
ghost use Rattle.mau_api.specs.Meanings.{meanings_by};
ghost use Rattle.mau_api.specs.Answers.{IsDerivedTable, AreSettled, MayEnd};
ghost use Rattle.mau_deriving.specs.Listing.{IsSorted};
ghost use Rattle.mau_settling.specs.Beginning.{IsLater};
ghost use Rattle.mau_settling.specs.Settlings.{IsSettling, DerivesCurrent, IsAskingOf};
ghost use Rattle.mau_settling.specs.Solving.{IsAnsweredBy, IsEndedBy};

use crate::settling::{Settling, begin_settling};
use mau_api::EvalEnd;
use mau_listing::{WholeLister, has_nodes};
use mau_program::Program;
use mau_sorts::SortTable;
use mau_store::Store;
use mau_terms::{NoMemory, TermId, VarId};

/// Who solves conditions of memberships. Each has a budget of its own.
pub trait ConditionSolver {
    /// It answers as the definitions do, for this program with these native operators, by a budget of this size for each condition.
    ghost right: { Self → Typed.Program → List Operator → ℕ → Type 0 };

    /// Whether the condition of a membership holds under a binding of the variables of its head.
    fn holds(
        &mut self,
        store: &mut Store,
        program: &Program,
        table: &mut SortTable,
        membership: usize,
        bound: &[(VarId, TermId)],
    ) -> Result<bool, EvalEnd>
        requires lawful { IsLawfulProgram program.now }
        requires signature { IsLawful (terms_over program.now.sig) }
        requires over { AreOver program.now.sig.hierarchy table.old }
        requires closed { IsClosedTable store.old table.old }
        requires bound { (m : Statement.Membership) → slice_get program.now.memberships membership ≡ Some m
            → IsSorted program.now.sig store.old table.old (tree_of m.left) bound.now }
        ensures answered { (hooks : List Operator) (limit : ℕ) → right self.old program.now hooks limit
            → IsDerivedTable (meanings_by program.now hooks limit false) store.old table.old
            → IfOk result (IsAnsweredBy program.now hooks limit store.old membership bound.now) }
        ensures ends { (hooks : List Operator) (limit : ℕ) → right self.old program.now hooks limit
            → IsDerivedTable (meanings_by program.now hooks limit false) store.old table.old
            → IfErr result (IsEndedBy program.now hooks limit store.old membership bound.now) }
        ensures derived { (hooks : List Operator) (limit : ℕ) → right self.old program.now hooks limit
            → IsDerivedTable (meanings_by program.now hooks limit false) store.old table.old
            → IsDerivedTable (meanings_by program.now hooks limit false) store.new table.new }
        ensures right { (p : Typed.Program) (hooks : List Operator) (limit : ℕ) → right self.old p hooks limit
            → right self.new p hooks limit }
        ensures later { IsLater program.now store.old store.new table.old table.new };
}

/// Solves the condition that is asked for.
fn solve_next<S: ConditionSolver>(
    solver: &mut S,
    store: &mut Store,
    program: &Program,
    table: &mut SortTable,
    settling: &mut Settling,
) -> Result<(), EvalEnd>
    requires lawful { IsLawfulProgram program.now }
    requires signature { IsLawful (terms_over program.now.sig) }
    requires settling { IsSettling program.now store.old table.old settling.old }
    requires asking { IsAskingOf program.now settling.old }
    ensures settling { OnOk result (IsSettling program.now store.new table.new settling.new) }
    ensures derives { (hooks : List Operator) (limit : ℕ) → S.right solver.old program.now hooks limit
        → IsDerivedTable (meanings_by program.now hooks limit false) store.old table.old
        → DerivesCurrent program.now hooks limit store.old settling.old
        → OnOk result (DerivesCurrent program.now hooks limit store.new settling.new) }
    ensures ends { (hooks : List Operator) (limit : ℕ) → S.right solver.old program.now hooks limit
        → IsDerivedTable (meanings_by program.now hooks limit false) store.old table.old
        → DerivesCurrent program.now hooks limit store.old settling.old
        → IfErr result (MayEnd (meanings_by program.now hooks limit false) (tree_at store.old settling.old.term.0)) }
    ensures derived { (hooks : List Operator) (limit : ℕ) → S.right solver.old program.now hooks limit
        → IsDerivedTable (meanings_by program.now hooks limit false) store.old table.old
        → IsDerivedTable (meanings_by program.now hooks limit false) store.new table.new }
    ensures right { (p : Typed.Program) (hooks : List Operator) (limit : ℕ) → S.right solver.old p hooks limit
        → S.right solver.new p hooks limit }
    ensures term { settling.new.term ≡ settling.old.term }
    ensures later { IsLater program.now store.old store.new table.old table.new }
{
    has_nodes(store);
    match settling.question() {
        Some((membership, bound)) => {
            match solver.holds(store, program, table, membership, bound.items()) {
                Ok(holds) => {
                    settling.told(holds);
                    Ok(())
                }
                Err(end) => Err(end),
            }
        }
        None => unreachable!(),
    }
}

/// Settles a term, all below it and the identities, where each condition of a membership is solved by `solver`. The first end is the end; what was settled
/// before it stays settled.
pub fn settle_by<L: WholeLister + Drop, S: ConditionSolver>(
    solver: &mut S,
    store: &mut Store,
    program: &Program,
    table: &mut SortTable,
    term: TermId,
) -> Result<(), EvalEnd>
    requires lawful { IsLawfulProgram program.now }
    requires signature { IsLawful (terms_over program.now.sig) }
    requires term { IsTerm program.now.sig store.old term.0 }
    requires over { AreOver program.now.sig.hierarchy table.old }
    requires closed { IsClosedTable store.old table.old }
    ensures settled { OnOk result (AreSettled program.now.sig store.new table.new (tree_at store.old term.0)) }
    ensures derived { (hooks : List Operator) (limit : ℕ) → S.right solver.old program.now hooks limit
        → IsDerivedTable (meanings_by program.now hooks limit false) store.old table.old
        → IsDerivedTable (meanings_by program.now hooks limit false) store.new table.new }
    ensures ends { (hooks : List Operator) (limit : ℕ) → S.right solver.old program.now hooks limit
        → IsDerivedTable (meanings_by program.now hooks limit false) store.old table.old
        → IfErr result (MayEnd (meanings_by program.now hooks limit false) (tree_at store.old term.0)) }
    ensures right { (p : Typed.Program) (hooks : List Operator) (limit : ℕ) → S.right solver.old p hooks limit
        → S.right solver.new p hooks limit }
    ensures later { IsLater program.now store.old store.new table.old table.new }
{
    let begun = begin_settling(store, program, term);
    has_nodes(store);
    let mut settling = match begun {
        Ok(settling) => settling,
        Err(NoMemory) => return Err(EvalEnd::NoMemory),
    };
    for _ in 0..u64::MAX {
        match settling.advance::<L>(store, program, table) {
            Ok(true) => match solve_next(solver, store, program, table, &mut settling) {
                Ok(()) => {}
                Err(end) => return Err(end),
            },
            Ok(false) => return Ok(()),
            Err(NoMemory) => return Err(EvalEnd::NoMemory),
        }
    }
    Err(EvalEnd::NoMemory)
}
