//! The solutions of a matching fragment, one after another.
ghost use Rattle.std.specs.Prelude.{◌≡◌, ℕ, List, false, true, None, Some, All, map, IfOk, IfSome, IfNone, OnOk};
ghost use Rattle.std.specs.Option.{option_map};
ghost use Rattle.mau_terms.specs.Tree.{Tree};
ghost use Rattle.mau_terms.specs.Norm.{norm};
ghost use Rattle.mau_terms.specs.Bare.{IsBare, IsLawful};
ghost use Rattle.mau_terms.specs.Subst.{Variable, variables, add_variables, has_variable, instance};
ghost use Rattle.mau_terms.specs.View.{tree_of, variable_of};
ghost use Rattle.mau_signature.specs.Signature.{theory_at, terms_over};
ghost use Rattle.mau_formula.specs.Operator.{Operator};
ghost use Rattle.mau_store.specs.Node.{Extends};
ghost use Rattle.mau_store.specs.Trees.{tree_at};
ghost use Rattle.mau_sorts.specs.Table.{AreOver, KeepsEntries};
ghost use Rattle.mau_evaluation.specs.Run.{gives, or_else};
ghost use Rattle.mau_evaluation.specs.Program.{Fragment};
ghost use Rattle.mau_evaluation.specs.Evaluation.{Binding, binds, levels, look_up, solve};
ghost use Rattle.mau_api.specs.Terms.{IsTerm};
ghost use Rattle.mau_api.specs.Programs.{program_over};
ghost use Rattle.mau_api.specs.Meanings.{meanings_by};
ghost use Rattle.mau_api.specs.Answers.{IsDerivedTable, AreSettled, IsValueOf, binding_in, AreApart};
ghost use Rattle.mau_machine.specs.Words.{IsExtension};
ghost use Rattle.mau_reduce.specs.Reducible.{IsReducible};
ghost use Rattle.mau_reduce.specs.Tables.{IsSortTable};
ghost use Rattle.mau_reduce.specs.Comes.{ComesTo};
ghost use Rattle.mau_reduce.specs.Trying.{solution_in};
ghost use Rattle.mau_choices.specs.Choosing.{left_of_choices, IsChoosing};

use crate::told::told;
use mau_api::{Lister, Program};
use mau_cond::Bound;
use mau_listing::{WholeLister, has_nodes};
use mau_signature::Signature;
use mau_sorts::SortTable;
use mau_store::Store;
use mau_terms::{Bare, NoMemory, TermId};
use std::alloc::Global;

/// The solutions that are not yet tried of a pattern in a value, those that agree with a binding.
#[derive(Drop)]
pub struct Choices<L> {
    pub listing: L,
    pub binding: Bound,
    pub value: TermId,
}

/// Begins with all solutions of a pattern in a value that agree with a binding.
pub fn begin_choices<L: WholeLister>(
    store: &Store,
    sig: &Signature,
    table: &SortTable,
    pattern: &Bare,
    binding: Bound,
    value: TermId,
) -> Result<Choices<L>, NoMemory>
    requires lawful { IsLawful (terms_over sig.now) }
    requires pattern { IsBare (terms_over sig.now) (tree_of pattern.now) }
    requires values { All (IsValueOf sig.now store.now table.now) binding }
    requires apart { AreApart (map (λ b. variable_of b.0) binding) }
    requires value { IsTerm sig.now store.now value.0 }
    requires settled { AreSettled sig.now store.now table.now (tree_at store.now value.0) }
    requires over { AreOver sig.now.hierarchy table.now }
    ensures choosing { IfOk result (λ c. IsChoosing sig.now store.now table.now (tree_of pattern.now) c.binding c.value
        (L.asked c.listing) (L.given c.listing) (L.is_for c.listing sig.now)) }
    ensures given { IfOk result (λ c. L.given c.listing ≡ None) }
    ensures binding { IfOk result (λ c. c.binding ≡ binding) }
    ensures value { IfOk result (λ c. c.value ≡ value) }
{
    let alloc = store.allocator();
    let bound = binding.pairs(alloc)?;
    let listing = L::start(alloc, sig, pattern, &bound, value)?;
    Ok(Choices {
        listing,
        binding,
        value,
    })
}

/// The binding by the next solution, for the fragments behind.
pub fn next_choice<L: WholeLister>(
    store: &mut Store,
    program: &Program,
    table: &mut SortTable,
    pattern: &Bare,
    choices: &mut Choices<L>,
) -> Result<Option<Bound>, NoMemory>
    requires reducible { IsReducible program.now }
    requires pattern { IsBare (terms_over program.now.sig) (tree_of pattern.now) }
    requires sort_table { IsSortTable program.now.sig store.old table.old }
    requires choosing { IsChoosing program.now.sig store.old table.old (tree_of pattern.now)
        choices.old.binding choices.old.value
        (L.asked choices.old.listing) (L.given choices.old.listing) (L.is_for choices.old.listing program.now.sig) }
    ensures none { (hooks : List Operator) (B : ℕ) → IsDerivedTable (meanings_by program.now hooks B false) store.old table.old → (c : List Fragment)
        → IfOk result (λ o. IfNone o (ComesTo (program_over program.now hooks)
        (λ k. left_of_choices (program_over program.now hooks) (levels (program_over program.now hooks) B k) (tree_of pattern.now) c
        (binding_in store.old choices.old.binding) (tree_at store.old choices.old.value.0)
        (option_map (solution_in store.old) (L.given choices.old.listing))) (λ k. gives None))) }
    ensures some { (hooks : List Operator) (B : ℕ) → IsDerivedTable (meanings_by program.now hooks B false) store.old table.old → (c : List Fragment)
        → IfOk result (λ o. IfSome o (λ τ. ComesTo (program_over program.now hooks)
        (λ k. left_of_choices (program_over program.now hooks) (levels (program_over program.now hooks) B k) (tree_of pattern.now) c
        (binding_in store.old choices.old.binding) (tree_at store.old choices.old.value.0)
        (option_map (solution_in store.old) (L.given choices.old.listing)))
        (λ k. or_else (solve (program_over program.now hooks) (levels (program_over program.now hooks) B k) c (binding_in store.new τ))
        (left_of_choices (program_over program.now hooks) (levels (program_over program.now hooks) B k) (tree_of pattern.now) c
        (binding_in store.old choices.old.binding) (tree_at store.old choices.old.value.0)
        (option_map (solution_in store.new) (L.given choices.new.listing)))))) }
    ensures values { IfOk result (λ o. IfSome o (All (IsValueOf program.now.sig store.new table.new))) }
    ensures apart { IfOk result (λ o. IfSome o (λ τ. AreApart (map (λ b. variable_of b.0) τ))) }
    ensures variables { IfOk result (λ o. IfSome o (λ τ. map (λ b. variable_of b.0) τ
        ≡ add_variables (map (λ b. variable_of b.0) choices.old.binding) (tree_of pattern.now))) }
    ensures extension { IfOk result (λ o. IfSome o (λ τ.
        IsExtension (binding_in store.old choices.old.binding) (binding_in store.new τ))) }
    ensures binds { IfOk result (λ o. IfSome o (λ τ. (x : Variable) → has_variable (variables (tree_of pattern.now)) x ≡ true
        → binds (binding_in store.new τ) x ≡ true)) }
    ensures solves { IfOk result (λ o. IfSome o (λ τ. (υ : Binding) → IsExtension (binding_in store.new τ) υ
        → norm (theory_at program.now.sig) (instance (look_up υ) (tree_of pattern.now)) ≡ tree_at store.old choices.old.value.0)) }
    ensures choosing { OnOk result (IsChoosing program.now.sig store.new table.new (tree_of pattern.now)
        choices.old.binding choices.old.value
        (L.asked choices.new.listing) (L.given choices.new.listing) (L.is_for choices.new.listing program.now.sig)) }
    ensures binding { choices.new.binding ≡ choices.old.binding }
    ensures value { choices.new.value ≡ choices.old.value }
    ensures sort_table { IsSortTable program.now.sig store.new table.new }
    ensures derived { (hooks : List Operator) (limit : ℕ) → IsDerivedTable (meanings_by program.now hooks limit false) store.old table.old
        → IsDerivedTable (meanings_by program.now hooks limit false) store.new table.new }
    ensures kept { KeepsEntries table.old table.new }
    ensures extends { Extends store.old store.new }
{
    let found = choices.listing.next(store, &program.sig, table);
    has_nodes(store);
    match found? {
        Some(solution) => {
            let alloc = store.allocator();
            let told = told(alloc, &program.sig, pattern, solution.values.items())?;
            let mut binding = choices.binding.copy(alloc)?;
            binding.extend(&told)?;
            Ok(Some(binding))
        }
        None => Ok(None),
    }
}
