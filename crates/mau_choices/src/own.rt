//! The solution that another binding has of a pattern, and what comes behind it.
ghost use Rattle.std.specs.Prelude.{◌≡◌, ℕ, List, None, true, false, All, Contains, map, IfOk, IfSome};
ghost use Rattle.std.specs.Option.{option_map};
ghost use Rattle.mau_terms.specs.Norm.{norm};
ghost use Rattle.mau_terms.specs.Bare.{IsBare, IsLawful};
ghost use Rattle.mau_terms.specs.Subst.{Variable, variables, add_variables, has_variable, instance};
ghost use Rattle.mau_terms.specs.View.{tree_of, variable_of};
ghost use Rattle.mau_signature.specs.Signature.{theory_at, terms_over};
ghost use Rattle.mau_formula.specs.Operator.{Operator};
ghost use Rattle.mau_store.specs.Node.{Node, Extends};
ghost use Rattle.mau_store.specs.Trees.{tree_at, trees_at};
ghost use Rattle.mau_store.specs.View.{numbers};
ghost use Rattle.mau_canon.specs.Standing.{StandWithin};
ghost use Rattle.mau_listing.specs.Asked.{asks, IsGiven, CanGoOn};
ghost use Rattle.mau_evaluation.specs.Run.{or_else};
ghost use Rattle.mau_evaluation.specs.Program.{Fragment};
ghost use Rattle.mau_evaluation.specs.Evaluation.{Binding as Bindings, binds, levels, look_up, solve_after};
ghost use Rattle.mau_api.specs.Programs.{program_over};
ghost use Rattle.mau_api.specs.Meanings.{meanings_by};
ghost use Rattle.mau_api.specs.Answers.{IsDerivedTable, IsValueOf, binding_in, AreApart};
ghost use Rattle.mau_machine.specs.Words.{IsExtension};
ghost use Rattle.mau_reduce.specs.Bindings.{paired, bound_in};
ghost use Rattle.mau_reduce.specs.Reducible.{IsReducible};
ghost use Rattle.mau_reduce.specs.Tables.{IsSortTable};
ghost use Rattle.mau_reduce.specs.Comes.{ComesTo};
ghost use Rattle.mau_reduce.specs.Trying.{solution_in};
ghost use Rattle.mau_choices.specs.Choosing.{left_of_choices, behind_own, AreValuesIn, IsChoosing};

use crate::choices::Choices;
use crate::told::told;
use mau_api::Program;
use mau_cond::Bound;
use mau_listing::{Solution, WholeLister, has_nodes, places_of};
use mau_reduce::Binding;
use mau_signature::Signature;
use mau_sorts::SortTable;
use mau_store::Store;
use mau_terms::{Bare, NoMemory, Seq, TermId, VarId};
use mau_trial::{Trial, solution_of, solves, variables_of};
use std::alloc::Global;

/// The value at the place of a variable, if it has one.
fn value_in(variables: &[VarId], values: &[TermId], variable: VarId) -> Option<TermId>
    ensures value { IfSome result (λ v. (nodes : List Node) →
        (binds (paired (map variable_of variables.now) (trees_at nodes (numbers values.now))) (variable_of variable) ≡ true)
        × (look_up (paired (map variable_of variables.now) (trees_at nodes (numbers values.now))) (variable_of variable) ≡ tree_at nodes v.0)) }
    ensures among { IfSome result (Contains values.now) }
{
    let count = variables.len().min(values.len());
    for i in 0..count {
        if variables[i] == variable {
            return Some(values[i]);
        }
    }
    None
}

/// The values that a binding gives to variables, of which each has one.
fn values_in(alloc: Global, bound: &Binding, variables: &[VarId]) -> Result<Vec<TermId>, NoMemory>
    ensures values { (nodes : List Node) → IfOk result (λ vs. AreValuesIn (bound_in nodes bound.now) (map variable_of variables.now)
        (trees_at nodes (numbers vs.items))) }
    ensures among { IfOk result (λ vs. All (Contains bound.now.values.items) vs.items) }
{
    let mut values = Vec::with_capacity(alloc, variables.len())?;
    for i in 0..variables.len() {
        match value_in(&bound.variables, &bound.values, variables[i]) {
            Some(value) => values.push(value)?,
            // Never: a solution of a condition has a value of each variable that is matched.
            None => return Err(NoMemory),
        }
    }
    Ok(values)
}

/// The solution of a pattern in a value whose values are those of a binding.
fn own_solution(
    store: &mut Store,
    sig: &Signature,
    table: &SortTable,
    pattern: &Bare,
    binding: &Bound,
    value: TermId,
    last: &Binding,
) -> Result<Solution, NoMemory>
    requires lawful { IsLawful (terms_over sig.now) }
    requires pattern { IsBare (terms_over sig.now) (tree_of pattern.now) }
    requires ready { CanGoOn false sig.now store.old table.now (asks (tree_of pattern.now) binding.now value) None }
    requires last { StandWithin (theory_at sig.now) store.old (numbers last.now.values.items) }
    ensures given { IfOk result (IsGiven false sig.now store.old table.now (asks (tree_of pattern.now) binding.now value)) }
    ensures values { IfOk result (λ x. AreValuesIn (bound_in store.old last.now) (variables (tree_of pattern.now))
        (trees_at store.old (numbers x.values))) }
    ensures extends { Extends store.old store.new }
{
    let alloc = store.allocator();
    let places = places_of(alloc, sig, pattern)?;
    let variables = variables_of(alloc, &places)?;
    let values = values_in(alloc, last, &variables)?;
    let bound = binding.pairs(alloc)?;
    let pattern = pattern.copy(alloc)?;
    let trial = Trial {
        pattern,
        bound,
        subject: value,
        last: None,
    };
    has_nodes(store);
    if !solves(store, sig, table, &trial, &places, &variables, &values)? {
        // Never: a solution of a condition solves its matching fragments.
        return Err(NoMemory);
    }
    solution_of(alloc, &Seq::new(values))
}

/// Goes on behind the solution whose values are those of a binding, and gives the binding by that one, for the fragments behind.
pub fn own_choice<L: WholeLister + Drop>(
    store: &mut Store,
    program: &Program,
    table: &SortTable,
    pattern: &Bare,
    choices: &mut Choices<L>,
    last: &Binding,
) -> Result<Bound, NoMemory>
    requires reducible { IsReducible program.now }
    requires pattern { IsBare (terms_over program.now.sig) (tree_of pattern.now) }
    requires sort_table { IsSortTable program.now.sig store.old table.now }
    requires choosing { IsChoosing program.now.sig store.old table.now (tree_of pattern.now)
        choices.old.binding choices.old.value
        (L.asked choices.old.listing) (L.given choices.old.listing) (L.is_for choices.old.listing program.now.sig) }
    requires last { StandWithin (theory_at program.now.sig) store.old (numbers last.now.values.items) }
    ensures own { (hooks : List Operator) (B : ℕ) → IsDerivedTable (meanings_by program.now hooks B false) store.old table.now → (c : List Fragment)
        → IfOk result (λ τ. ComesTo (program_over program.now hooks)
        (λ k. behind_own (program_over program.now hooks) (levels (program_over program.now hooks) B k) (tree_of pattern.now) c
        (bound_in store.old last.now) (binding_in store.old choices.old.binding) (tree_at store.old choices.old.value.0))
        (λ k. or_else (solve_after (program_over program.now hooks) (levels (program_over program.now hooks) B k)
        (bound_in store.old last.now) c (binding_in store.new τ))
        (left_of_choices (program_over program.now hooks) (levels (program_over program.now hooks) B k) (tree_of pattern.now) c
        (binding_in store.old choices.old.binding) (tree_at store.old choices.old.value.0)
        (option_map (solution_in store.new) (L.given choices.new.listing))))) }
    ensures values { IfOk result (All (IsValueOf program.now.sig store.new table.now)) }
    ensures apart { IfOk result (λ τ. AreApart (map (λ b. variable_of b.0) τ)) }
    ensures variables { IfOk result (λ τ. map (λ b. variable_of b.0) τ
        ≡ add_variables (map (λ b. variable_of b.0) choices.old.binding) (tree_of pattern.now)) }
    ensures extension { IfOk result (λ τ. IsExtension (binding_in store.old choices.old.binding) (binding_in store.new τ)) }
    ensures binds { IfOk result (λ τ. (x : Variable) → has_variable (variables (tree_of pattern.now)) x ≡ true
        → binds (binding_in store.new τ) x ≡ true) }
    ensures solves { IfOk result (λ τ. (υ : Bindings) → IsExtension (binding_in store.new τ) υ
        → norm (theory_at program.now.sig) (instance (look_up υ) (tree_of pattern.now)) ≡ tree_at store.old choices.old.value.0) }
    ensures choosing { IfOk result (λ τ. IsChoosing program.now.sig store.new table.now (tree_of pattern.now)
        choices.old.binding choices.old.value
        (L.asked choices.new.listing) (L.given choices.new.listing) (L.is_for choices.new.listing program.now.sig)) }
    ensures binding { choices.new.binding ≡ choices.old.binding }
    ensures value { choices.new.value ≡ choices.old.value }
    ensures extends { Extends store.old store.new }
{
    let solution = own_solution(
        store,
        &program.sig,
        table,
        pattern,
        &choices.binding,
        choices.value,
        last,
    )?;
    let alloc = store.allocator();
    let told = told(alloc, &program.sig, pattern, solution.values.items())?;
    let mut binding = choices.binding.copy(alloc)?;
    binding.extend(&told)?;
    let bound = choices.binding.pairs(alloc)?;
    choices.listing = L::resume(
        alloc,
        &program.sig,
        pattern,
        &bound,
        choices.value,
        &solution,
    )?;
    Ok(binding)
}
