//! The settling of a term, as it goes on from condition to condition.
ghost use Rattle.std.specs.Prelude.{◌≡◌, ℕ, List, true, false, None, Some, IfOk, IfSome, IfNone, OnOk, slice_get};
ghost use Rattle.mau_terms.specs.Bare.{IsLawful};
ghost use Rattle.mau_terms.specs.declared.ids.VarId.{VarId};
ghost use Rattle.mau_terms.specs.declared.ids.TermId.{TermId};
ghost use Rattle.mau_signature.specs.Signature.{terms_over};
ghost use Rattle.mau_formula.specs.Operator.{Operator};
ghost use Rattle.mau_store.specs.Node.{Node, Extends};
ghost use Rattle.mau_store.specs.Trees.{tree_at};
ghost use Rattle.mau_sorts.specs.Table.{Table, AreOver};
ghost use Rattle.mau_listing.specs.Asked.{IsClosedTable};
ghost use Rattle.mau_program.specs.declared.program.Program as Typed;
ghost use Rattle.mau_program.specs.LawfulPrograms.{IsLawfulProgram};
ghost use Rattle.mau_evaluation.specs.Program.{Membership};
ghost use Rattle.mau_api.specs.Terms.{IsTerm};
ghost use Rattle.mau_api.specs.Programs.{program_over};
ghost use Rattle.mau_api.specs.Meanings.{meanings_by};
ghost use Rattle.mau_api.specs.Answers.{IsDerivedTable, AreSettled, binding_in};
ghost use Rattle.mau_deriving.specs.Answered.{WasAnswered};
ghost use Rattle.mau_deriving.specs.Asking.{Derives};
ghost use Rattle.mau_settling.specs.Beginning.{IsLater, AreIdentitiesSettled};
ghost use Rattle.mau_settling.specs.Settlings.{IsSettling, IsDerivingIn, DerivesCurrent, Asks, IsAsking, IsAskingOf, EndsSettling, CanEnd, StageOf, left_of};

use crate::beginning::identities;
use crate::plain::begin_one;
use crate::walk::{Place, first_unsettled};
use mau_deriving::Deriving;
use mau_listing::{WholeLister, has_nodes};
use mau_program::Program;
use mau_sorts::SortTable;
use mau_store::Store;
use mau_terms::{NoMemory, Seq, TermId, VarId};

/// The settling of a term: of the identities, in order, and then of the term with all that is below it. Those roots before `at` are
/// settled; the path leads down in the one at this place to the term whose sorts are derived at the moment.
#[derive(Drop)]
pub struct Settling {
    pub term: TermId,
    pub roots: Vec<TermId>,
    pub at: usize,
    pub path: Vec<Place>,
    pub current: Option<Deriving>,
}

/// What comes of a step.
#[derive(Clone, Copy, PartialEq, Eq, Debug)]
pub enum Stage {
    /// A condition has to be solved.
    Asks,
    /// There is more to do.
    GoesOn,
    /// All is settled.
    Settled,
}

/// Begins to settle a term, behind the identities.
pub fn begin_settling(
    store: &mut Store,
    program: &Program,
    term: TermId,
) -> Result<Settling, NoMemory>
    requires lawful { IsLawful (terms_over program.now.sig) }
    requires term { IsTerm program.now.sig store.old term.0 }
    ensures settling { (table : Table) → AreOver program.now.sig.hierarchy table → IsClosedTable store.old table
        → IfOk result (IsSettling program.now store.new table) }
    ensures none { IfOk result (λ s. s.current ≡ None) }
    ensures term { IfOk result (λ s. s.term ≡ term) }
    ensures extends { Extends store.old store.new }
{
    let mut roots = identities(store, &program.sig)?;
    roots.push(term)?;
    Ok(Settling {
        term,
        roots,
        at: 0,
        path: Vec::new(store.allocator()),
        current: None,
    })
}

/// Begins to settle a term where the identities are settled.
pub fn settle_term(store: &Store, program: &Program, term: TermId) -> Result<Settling, NoMemory>
    requires term { IsTerm program.now.sig store.now term.0 }
    ensures settling { (table : Table) → AreOver program.now.sig.hierarchy table → IsClosedTable store.now table
        → AreIdentitiesSettled program.now.sig store.now table → IfOk result (IsSettling program.now store.now table) }
    ensures none { IfOk result (λ s. s.current ≡ None) }
    ensures term { IfOk result (λ s. s.term ≡ term) }
{
    let alloc = store.allocator();
    let mut roots = Vec::new(alloc);
    roots.push(term)?;
    Ok(Settling {
        term,
        roots,
        at: 0,
        path: Vec::new(alloc),
        current: None,
    })
}

impl Settling {
    /// The condition that is to be solved next: that of the membership with this number, under this binding.
    pub fn question(&self) -> Option<(usize, &Seq<(VarId, TermId)>)>
        ensures asks { IfSome result (λ q. Asks self.now q.0 q.1.now) }
        ensures none { IfNone result (¬ IsAsking self.now) }
        ensures ends { (p : Typed.Program) (hooks : List Operator) (limit : ℕ) (nodes : List Node) (table : Table)
            → CanEnd p hooks limit nodes table self.now
            → IfSome result (λ q. EndsSettling p hooks limit nodes self.now.term.0 q.0 q.1.now) }
    {
        match &self.current {
            Some(derivation) => match derivation.question() {
                Some(binding) => Some((derivation.at, binding)),
                None => None,
            },
            None => None,
        }
    }

    /// The answer to that condition.
    pub fn told(&mut self, holds: bool)
        requires asked { IsAsking self.old }
        ensures derives { (p : Typed.Program) (hooks : List Operator) (limit : ℕ) (nodes : List Node) (m : Membership) (at : ℕ)
            (b : List (VarId × TermId))
            → Asks self.old at b → slice_get (program_over p hooks).memberships at ≡ Some m
            → WasAnswered (program_over p hooks) limit m.cond (binding_in nodes b) holds
            → DerivesCurrent p hooks limit nodes self.old → DerivesCurrent p hooks limit nodes self.new }
        ensures settling { (p : Typed.Program) (nodes : List Node) (table : Table) → IsSettling p nodes table self.old
            → IsSettling p nodes table self.new }
        ensures term { self.new.term ≡ self.old.term }
    {
        if let Some(derivation) = &mut self.current {
            derivation.told(holds);
        }
    }

    /// Goes on until a condition has to be solved, or until all is settled. Whether a condition has to be solved.
    pub fn advance<L: WholeLister + Drop>(
        &mut self,
        store: &mut Store,
        program: &Program,
        table: &mut SortTable,
    ) -> Result<bool, NoMemory>
        requires lawful { IsLawfulProgram program.now }
        requires signature { IsLawful (terms_over program.now.sig) }
        requires settling { IsSettling program.now store.old table.old self.old }
        ensures settling { OnOk result (IsSettling program.now store.new table.new self.new) }
        ensures derives { (hooks : List Operator) (limit : ℕ)
            → IsDerivedTable (meanings_by program.now hooks limit false) store.old table.old
            → DerivesCurrent program.now hooks limit store.old self.old
            → OnOk result (DerivesCurrent program.now hooks limit store.new self.new) }
        ensures derived { (hooks : List Operator) (limit : ℕ) → DerivesCurrent program.now hooks limit store.old self.old
            → IsDerivedTable (meanings_by program.now hooks limit false) store.old table.old
            → IsDerivedTable (meanings_by program.now hooks limit false) store.new table.new }
        ensures asks { IfOk result (λ asks. asks ≡ true → IsAskingOf program.now self.new) }
        ensures settled { IfOk result (λ asks. asks ≡ false
            → AreSettled program.now.sig store.new table.new (tree_at store.new self.new.term.0)) }
        ensures term { self.new.term ≡ self.old.term }
        ensures later { IsLater program.now store.old store.new table.old table.new }
    {
        for _ in 0..u64::MAX {
            match self.step::<L>(store, program, table)? {
                Stage::Asks => return Ok(true),
                Stage::Settled => return Ok(false),
                Stage::GoesOn => {}
            }
        }
        Err(NoMemory)
    }

    /// One step.
    fn step<L: WholeLister + Drop>(
        &mut self,
        store: &mut Store,
        program: &Program,
        table: &mut SortTable,
    ) -> Result<Stage, NoMemory>
        requires lawful { IsLawfulProgram program.now }
        requires signature { IsLawful (terms_over program.now.sig) }
        requires settling { IsSettling program.now store.old table.old self.old }
        ensures settling { OnOk result (IsSettling program.now store.new table.new self.new) }
        ensures derives { (hooks : List Operator) (limit : ℕ)
            → IsDerivedTable (meanings_by program.now hooks limit false) store.old table.old
            → DerivesCurrent program.now hooks limit store.old self.old
            → OnOk result (DerivesCurrent program.now hooks limit store.new self.new) }
        ensures derived { (hooks : List Operator) (limit : ℕ) → DerivesCurrent program.now hooks limit store.old self.old
            → IsDerivedTable (meanings_by program.now hooks limit false) store.old table.old
            → IsDerivedTable (meanings_by program.now hooks limit false) store.new table.new }
        ensures stage { IfOk result (StageOf program.now store.new table.new self.new) }
        ensures term { self.new.term ≡ self.old.term }
        ensures later { IsLater program.now store.old store.new table.old table.new }
    {
        match self.current.take() {
            Some(derivation) => self.go_on::<L>(store, program, table, derivation),
            None => self.begin_next::<L>(store, program, table),
        }
    }

    /// A step in the derivation of a term.
    fn go_on<L: WholeLister + Drop>(
        &mut self,
        store: &mut Store,
        program: &Program,
        table: &mut SortTable,
        mut derivation: Deriving,
    ) -> Result<Stage, NoMemory>
        requires lawful { IsLawfulProgram program.now }
        requires signature { IsLawful (terms_over program.now.sig) }
        requires settling { IsSettling program.now store.old table.old self.old }
        requires derivation { IsDerivingIn program.now store.old table.old (left_of self.old) derivation }
        ensures settling { OnOk result (IsSettling program.now store.new table.new self.new) }
        ensures derives { (hooks : List Operator) (limit : ℕ)
            → IsDerivedTable (meanings_by program.now hooks limit false) store.old table.old
            → Derives program.now hooks limit store.old derivation
            → OnOk result (DerivesCurrent program.now hooks limit store.new self.new) }
        ensures derived { (hooks : List Operator) (limit : ℕ) → Derives program.now hooks limit store.old derivation
            → IsDerivedTable (meanings_by program.now hooks limit false) store.old table.old
            → IsDerivedTable (meanings_by program.now hooks limit false) store.new table.new }
        ensures stage { IfOk result (StageOf program.now store.new table.new self.new) }
        ensures term { self.new.term ≡ self.old.term }
        ensures later { IsLater program.now store.old store.new table.old table.new }
    {
        if derivation.at < program.memberships.items().len() {
            if derivation.asked < derivation.questions.len() {
                self.current = Some(derivation);
                return Ok(Stage::Asks);
            }
            let gone = derivation.advance::<L>(store, program, table);
            has_nodes(store);
            gone?;
            self.current = Some(derivation);
            return Ok(Stage::GoesOn);
        }
        derivation.enter(store, program, table)?;
        self.current = None;
        Ok(Stage::GoesOn)
    }

    /// Goes on with the first term that is not settled. Nothing is derived at the moment.
    fn begin_next<L: WholeLister + Drop>(
        &mut self,
        store: &mut Store,
        program: &Program,
        table: &mut SortTable,
    ) -> Result<Stage, NoMemory>
        requires lawful { IsLawfulProgram program.now }
        requires signature { IsLawful (terms_over program.now.sig) }
        requires settling { IsSettling program.now store.old table.old self.old }
        requires none { self.old.current ≡ None }
        ensures settling { OnOk result (IsSettling program.now store.new table.new self.new) }
        ensures derives { (hooks : List Operator) (limit : ℕ)
            → IsDerivedTable (meanings_by program.now hooks limit false) store.old table.old
            → OnOk result (DerivesCurrent program.now hooks limit store.new self.new) }
        ensures derived { (hooks : List Operator) (limit : ℕ)
            → IsDerivedTable (meanings_by program.now hooks limit false) store.old table.old
            → IsDerivedTable (meanings_by program.now hooks limit false) store.new table.new }
        ensures stage { IfOk result (StageOf program.now store.new table.new self.new) }
        ensures term { self.new.term ≡ self.old.term }
        ensures later { IsLater program.now store.old store.new table.old table.new }
    {
        has_nodes(store);
        if self.at < self.roots.len() {
            let root = self.roots[self.at];
            match first_unsettled(store, table, root, &mut self.path)? {
                Some(id) => self.current = begin_one::<L>(store, program, table, id)?,
                None => self.at += 1,
            }
            return Ok(Stage::GoesOn);
        }
        Ok(Stage::Settled)
    }
}
