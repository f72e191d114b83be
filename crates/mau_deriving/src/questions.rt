//! What a membership asks of a term.
ghost use Rattle.std.specs.Prelude.{◌≡◌, false, ◌↔◌, ◌∷◌, ℕ, List, [], map, slice_get, Some, All, IsTrue, IfOk};
ghost use Rattle.mau_terms.specs.Tree.{Trees, apply};
ghost use Rattle.mau_terms.specs.Norm.{norm};
ghost use Rattle.mau_terms.specs.Bare.{IsBare, IsLawful};
ghost use Rattle.mau_terms.specs.View.{tree_of};
ghost use Rattle.mau_signature.specs.Signature.{theory_at, terms_over};
ghost use Rattle.mau_formula.specs.Operator.{Operator};
ghost use Rattle.mau_store.specs.Node.{IsOf, Extends};
ghost use Rattle.mau_store.specs.Trees.{tree_at};
ghost use Rattle.mau_canon.specs.Standing.{StandsWithin};
ghost use Rattle.mau_program.specs.LawfulPrograms.{IsLawfulProgram};
ghost use Rattle.mau_evaluation.specs.Program as Meaning;
ghost use Rattle.mau_api.specs.Programs.{program_over, membership_of};
ghost use Rattle.mau_api.specs.Meanings.{meanings_by};
ghost use Rattle.mau_api.specs.Answers.{IsDerivedTable, binding_in};
ghost use Rattle.mau_deriving.specs.Derivations.{AreQuestions, AreOpen};
ghost use Rattle.mau_deriving.specs.Listing.{HasGrown, IsSorted};
ghost use Rattle.mau_deriving.specs.Asking.{IsConstant, CanBeAsked, AreSortedAt};

use crate::listing::all_bindings;
use mau_canon::{BuildFault, build_bare};
use mau_listing::{WholeLister, has_nodes};
use mau_program::{Membership, Program};
use mau_signature::Signature;
use mau_sorts::SortTable;
use mau_store::{NodeView, Store};
use mau_terms::{Bare, NoMemory, Seq, TermId, VarId};

/// Whether a term is an operator without arguments.
fn is_constant(store: &Store, term: TermId) -> bool
    requires { IsOf store.now term.0 }
    ensures { IsTrue result ↔ IsConstant (tree_at store.now term.0) }
{
    match store.view(term) {
        NodeView::App(_, args) => args.is_empty(),
        NodeView::Num(_) | NodeView::Var(_) => false,
    }
}

/// Whether a term is the normal form of a bare term.
fn is_normal_form(
    store: &mut Store,
    sig: &Signature,
    bare: &Bare,
    term: TermId,
) -> Result<bool, NoMemory>
    requires bare { IsBare (terms_over sig.now) (tree_of bare.now) }
    requires term { StandsWithin (theory_at sig.now) store.old term.0 }
    ensures value { IfOk result (λ is. IsTrue is ↔ (norm (theory_at sig.now) (tree_of bare.now) ≡ tree_at store.old term.0)) }
    ensures extends { Extends store.old store.new }
{
    match build_bare(store, sig, bare) {
        Ok(id) => {
            let _node = store.view(id);
            Ok(id.0 == term.0)
        }
        Err(BuildFault::NoMemory) => Err(NoMemory),
        Err(BuildFault::TooDeep) => Ok(false),
        Err(BuildFault::Overflow) => Ok(false),
    }
}

/// What a membership asks of a constant: its condition, where the normal form of its head is the constant.
fn of_constant(
    store: &mut Store,
    sig: &Signature,
    head: &Bare,
    term: TermId,
) -> Result<Vec<Seq<(VarId, TermId)>>, NoMemory>
    requires head { IsBare (terms_over sig.now) (tree_of head.now) }
    requires term { StandsWithin (theory_at sig.now) store.old term.0 }
    ensures same { IfOk result (λ found. norm (theory_at sig.now) (tree_of head.now) ≡ tree_at store.old term.0 → found.items ≡ [] ∷ []) }
    ensures other { IfOk result (λ found. (norm (theory_at sig.now) (tree_of head.now) ≡ tree_at store.old term.0 → ⊥) → found.items ≡ []) }
    ensures extends { Extends store.old store.new }
{
    let alloc = store.allocator();
    let mut found = Vec::new(alloc);
    if is_normal_form(store, sig, head, term)? {
        found.push(Seq::new(Vec::new(alloc)))?;
        return Ok(found);
    }
    Ok(found)
}

/// What an executable membership asks of a term: its condition, once for each solution of its head.
fn questions<L: WholeLister + Drop>(
    store: &mut Store,
    program: &Program,
    table: &mut SortTable,
    term: TermId,
    at: usize,
    membership: &Membership,
) -> Result<Vec<Seq<(VarId, TermId)>>, NoMemory>
    requires lawful { IsLawfulProgram program.now }
    requires signature { IsLawful (terms_over program.now.sig) }
    requires asked { CanBeAsked program.now.sig store.old table.old term.0 }
    requires there { slice_get program.now.memberships at ≡ Some membership.now }
    ensures asks { (hooks : List Operator) (limit f : ℕ) (ts : Trees) → IsDerivedTable (meanings_by program.now hooks limit false) store.old table.old
        → tree_at store.old term.0 ≡ apply f ts → IfOk result (λ found.
        AreQuestions (program_over program.now hooks) limit f ts (membership_of membership.now) (map (binding_in store.new) found.items)) }
    ensures sorted { IfOk result (λ found. All (IsSorted program.now.sig store.new table.new (tree_of membership.now.left)) found.items) }
    ensures grown { HasGrown program.now.sig store.old store.new table.old table.new term.0 }
{
    has_nodes(store);
    if is_constant(store, term) {
        return of_constant(store, &program.sig, &membership.left, term);
    }
    all_bindings::<L>(store, &program.sig, table, &membership.left, term)
}

/// What the membership at a place asks of a term; none does where it isn't executable, or where there is none.
pub(crate) fn open<L: WholeLister + Drop>(
    store: &mut Store,
    program: &Program,
    table: &mut SortTable,
    term: TermId,
    at: usize,
) -> Result<Vec<Seq<(VarId, TermId)>>, NoMemory>
    requires lawful { IsLawfulProgram program.now }
    requires signature { IsLawful (terms_over program.now.sig) }
    requires asked { CanBeAsked program.now.sig store.old table.old term.0 }
    ensures open { (hooks : List Operator) (limit f : ℕ) (ts : Trees) → IsDerivedTable (meanings_by program.now hooks limit false) store.old table.old
        → tree_at store.old term.0 ≡ apply f ts → IfOk result (λ found. (m : Meaning.Membership) → slice_get (program_over program.now hooks).memberships at ≡ Some m
        → AreOpen (program_over program.now hooks) limit f ts m (map (binding_in store.new) found.items)) }
    ensures sorted { IfOk result (λ found. AreSortedAt program.now store.new table.new at found.items) }
    ensures grown { HasGrown program.now.sig store.old store.new table.old table.new term.0 }
{
    match program.memberships.items().get(at) {
        Some(membership) => {
            if membership.exec {
                return questions::<L>(store, program, table, term, at, membership);
            }
            Ok(Vec::new(store.allocator()))
        }
        None => Ok(Vec::new(store.allocator())),
    }
}
