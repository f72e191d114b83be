//! The derivation of the sorts of a term.
ghost use Rattle.std.specs.Prelude.{◌≡◌, false, ◌<◌, ◌≤◌, ℕ, List, true, map, length, slice_get, None, Some, IsTrue, IfOk, IfSome, OnOk};
ghost use Rattle.std.specs.Option.{option_copied};
ghost use Rattle.mau_terms.specs.Bare.{IsLawful};
ghost use Rattle.mau_terms.specs.declared.ids.VarId.{VarId};
ghost use Rattle.mau_terms.specs.declared.ids.TermId.{TermId};
ghost use Rattle.mau_signature.specs.Signature.{terms_over};
ghost use Rattle.mau_formula.specs.Operator.{Operator};
ghost use Rattle.mau_store.specs.Node.{Node};
ghost use Rattle.mau_store.specs.Trees.{tree_at};
ghost use Rattle.mau_sorts.specs.Table.{Table, IsSettled, AreOver, KeepsEntries};
ghost use Rattle.mau_listing.specs.Asked.{IsClosedTable};
ghost use Rattle.mau_program.specs.declared.program.Program as Typed;
ghost use Rattle.mau_program.specs.declared.statements.Membership as Statement;
ghost use Rattle.mau_program.specs.LawfulPrograms.{IsLawfulProgram};
ghost use Rattle.mau_evaluation.specs.Program.{Membership};
ghost use Rattle.mau_api.specs.Programs.{program_over};
ghost use Rattle.mau_api.specs.Meanings.{meanings_by};
ghost use Rattle.mau_api.specs.Answers.{IsDerivedTable, binding_in};
ghost use Rattle.mau_deriving.specs.Known.{EndsWith};
ghost use Rattle.mau_deriving.specs.Answered.{WasAnswered};
ghost use Rattle.mau_deriving.specs.Given.{asks_by, sorts_on};
ghost use Rattle.mau_deriving.specs.Derivations.{found_after};
ghost use Rattle.mau_deriving.specs.Listing.{HasGrown};
ghost use Rattle.mau_deriving.specs.Asking.{CanBeAsked, Stands, Derives, CanEnd};

use crate::questions::open;
use mau_listing::{WholeLister, has_nodes};
use mau_program::Program;
use mau_sorts::SortTable;
use mau_store::Store;
use mau_terms::{NoMemory, Seq, TermId, VarId};

/// The derivation of the sorts of a term of which all that is below it is settled: the memberships in order, and for each the solutions
/// of its head in order. Those before `at` are done with, and gave the sorts that are found. Of what the one at this place asks so
/// much was answered, and `holds` says whether it holds for one of its solutions.
#[derive(Drop)]
pub struct Deriving {
    pub term: TermId,
    pub at: usize,
    pub questions: Vec<Seq<(VarId, TermId)>>,
    pub asked: usize,
    pub holds: bool,
    pub found: Vec<u32>,
}

/// Begins to derive the sorts of a term.
pub fn begin_deriving<L: WholeLister + Drop>(
    store: &mut Store,
    program: &Program,
    table: &mut SortTable,
    term: TermId,
) -> Result<Deriving, NoMemory>
    requires lawful { IsLawfulProgram program.now }
    requires signature { IsLawful (terms_over program.now.sig) }
    requires asked { CanBeAsked program.now.sig store.old table.old term.0 }
    ensures derives { (hooks : List Operator) (limit : ℕ) → IsDerivedTable (meanings_by program.now hooks limit false) store.old table.old
        → IfOk result (Derives program.now hooks limit store.new) }
    ensures stands { IfOk result (Stands program.now store.new table.new) }
    ensures term { IfOk result (λ d. d.term ≡ term) }
    ensures grown { HasGrown program.now.sig store.old store.new table.old table.new term.0 }
{
    let alloc = store.allocator();
    let questions = open::<L>(store, program, table, term, 0)?;
    Ok(Deriving {
        term,
        at: 0,
        questions,
        asked: 0,
        holds: false,
        found: Vec::new(alloc),
    })
}

/// The sort of the membership at a place.
fn sort_at(program: &Program, at: usize) -> u32
    requires { at < length program.now.memberships }
    ensures value { (m : Statement.Membership) → slice_get program.now.memberships at ≡ Some m → result ≡ m.sort }
    ensures fits { at < 18446744073709551615 }
{
    match program.memberships.items().get(at) {
        Some(membership) => membership.sort,
        None => unreachable!(),
    }
}

/// Adds the sort of a membership that holds.
fn add_found(found: &mut Vec<u32>, holds: bool, sort: u32) -> Result<(), NoMemory>
    ensures { OnOk result (found.new.items ≡ found_after holds found.old.items sort) }
{
    if holds {
        found.push(sort)?;
        return Ok(());
    }
    Ok(())
}

impl Deriving {
    /// The condition that is to be solved next, of the membership at its place: the binding under which. `None` where all that this
    /// membership asks was answered.
    pub fn question(&self) -> Option<&Seq<(VarId, TermId)>>
        ensures value { option_copied result ≡ slice_get self.now.questions.items self.now.asked }
        ensures ends { (p : Typed.Program) (hooks : List Operator) (limit : ℕ) (nodes : List Node) (table : Table) → CanEnd p hooks limit nodes table self.now
            → (m : Membership) → slice_get (program_over p hooks).memberships self.now.at ≡ Some m
            → (b : List (VarId × TermId)) → slice_get self.now.questions.items self.now.asked ≡ Some b
            → EndsWith (λ j. sorts_on (program_over p hooks) limit j (tree_at nodes self.now.term.0))
            (λ j. asks_by (program_over p hooks) limit j m.cond (binding_in nodes b) limit) }
    {
        self.questions.get(self.asked)
    }

    /// The answer to that condition.
    pub fn told(&mut self, holds: bool)
        requires asked { self.old.asked < length self.old.questions.items }
        ensures derives { (p : Typed.Program) (hooks : List Operator) (limit : ℕ) (nodes : List Node) (m : Membership) (b : List (VarId × TermId))
            → slice_get (program_over p hooks).memberships self.old.at ≡ Some m → slice_get self.old.questions.items self.old.asked ≡ Some b
            → WasAnswered (program_over p hooks) limit m.cond (binding_in nodes b) holds
            → Derives p hooks limit nodes self.old → Derives p hooks limit nodes self.new }
        ensures stands { (p : Typed.Program) (nodes : List Node) (table : Table) → Stands p nodes table self.old → Stands p nodes table self.new }
        ensures term { self.new.term ≡ self.old.term }
    {
        self.asked += 1;
        self.holds = self.holds || holds;
    }

    /// Goes on with the next membership, where all that the one at its place asks was answered. Out of memory the derivation is not
    /// spoken of.
    pub fn advance<L: WholeLister + Drop>(
        &mut self,
        store: &mut Store,
        program: &Program,
        table: &mut SortTable,
    ) -> Result<(), NoMemory>
        requires lawful { IsLawfulProgram program.now }
        requires signature { IsLawful (terms_over program.now.sig) }
        requires stands { Stands program.now store.old table.old self.old }
        requires answered { length self.old.questions.items ≤ self.old.asked }
        requires there { self.old.at < length program.now.memberships }
        ensures derives { (hooks : List Operator) (limit : ℕ) → IsDerivedTable (meanings_by program.now hooks limit false) store.old table.old
            → Derives program.now hooks limit store.old self.old → OnOk result (Derives program.now hooks limit store.new self.new) }
        ensures stands { OnOk result (Stands program.now store.new table.new self.new) }
        ensures term { self.new.term ≡ self.old.term }
        ensures grown { HasGrown program.now.sig store.old store.new table.old table.new self.old.term.0 }
    {
        has_nodes(store);
        let sort = sort_at(program, self.at);
        add_found(&mut self.found, self.holds, sort)?;
        self.questions = open::<L>(store, program, table, self.term, self.at + 1)?;
        self.at += 1;
        self.asked = 0;
        self.holds = false;
        Ok(())
    }

    /// Enters the sorts of the term, where all memberships are done with.
    pub fn enter(
        &self,
        store: &Store,
        program: &Program,
        table: &mut SortTable,
    ) -> Result<(), NoMemory>
        requires lawful { IsLawfulProgram program.now }
        requires signature { IsLawful (terms_over program.now.sig) }
        requires stands { Stands program.now store.now table.old self.now }
        requires done { length program.now.memberships ≤ self.now.at }
        ensures settled { OnOk result (IsSettled table.new self.now.term.0) }
        ensures derived { (hooks : List Operator) (limit : ℕ) → Derives program.now hooks limit store.now self.now
            → IsDerivedTable (meanings_by program.now hooks limit false) store.now table.old
            → IsDerivedTable (meanings_by program.now hooks limit false) store.now table.new }
        ensures closed { IsClosedTable store.now table.old → IsClosedTable store.now table.new }
        ensures kept { KeepsEntries table.old table.new }
        ensures over { AreOver program.now.sig.hierarchy table.new }
    {
        has_nodes(store);
        if table.is_settled(self.term) {
            return Ok(());
        }
        table.settle_declared(&program.sig, store, self.term, &self.found)?;
        Ok(())
    }
}
