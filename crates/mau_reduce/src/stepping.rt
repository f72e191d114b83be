//! Steps that are told of candidates.
ghost use Rattle.std.specs.Prelude.{◌≡◌, ◌∷◌, ◌++◌, ◌<◌, ◌^◌, ℕ, suc, List, [], true, map, IfOk, OnOk, All};
ghost use Rattle.mau_terms.specs.Tree.{Tree, variable, trees_of};
ghost use Rattle.mau_terms.specs.Norm.{norm};
ghost use Rattle.mau_terms.specs.Bare.{IsBare, IsBareIn, IsLawful};
ghost use Rattle.mau_terms.specs.Reading.{reading};
ghost use Rattle.mau_terms.specs.Subst.{value_at, instance};
ghost use Rattle.mau_terms.specs.Solution.{HaveSorts};
ghost use Rattle.mau_terms.specs.View.{tree_of, variable_of};
ghost use Rattle.mau_signature.specs.Signature.{theory_at, terms_over};
ghost use Rattle.mau_formula.specs.Operator.{Operator};
ghost use Rattle.mau_store.specs.Node.{IsOf, Extends};
ghost use Rattle.mau_store.specs.Trees.{tree_at, trees_at, StandsFor};
ghost use Rattle.mau_store.specs.View.{numbers};
ghost use Rattle.mau_sorts.specs.Table.{Table};
ghost use Rattle.mau_listing.specs.Asked.{HasEntry};
ghost use Rattle.mau_canon.specs.Standing.{StandsWithin};
ghost use Rattle.mau_api.specs.Terms.{IsTerm, IsBareWithin, hole_index, fill, holes, holes_in};
ghost use Rattle.mau_api.specs.Told.{step_in, StandsIn};
ghost use Rattle.mau_api.specs.Events.{made};
ghost use Rattle.mau_reduce.specs.declared.given.Given.{Given};
ghost use Rattle.mau_reduce.specs.Reducible.{IsReducible};
ghost use Rattle.mau_reduce.specs.Kinds.{IsTermIn};
ghost use Rattle.mau_reduce.specs.Bindings.{AreValues};
ghost use Rattle.mau_reduce.specs.Contexts.{AreContexts};
ghost use Rattle.mau_reduce.specs.Trying.{IsFound};
ghost use Rattle.mau_reduce.specs.Giving.{GivesValue, IsGivenAt, given_value};
ghost use Rattle.mau_reduce.specs.Lasts.{IsLast};
ghost use Rattle.mau_reduce.specs.Steps.{equation_variables, IsEquationStep, IsBuiltInStep};

use crate::making::gives_value;
use crate::replacing::top_of;
use crate::{Attempts, Binding, replace};
use mau_api::{Program, Solution, Statement, Step};
use mau_canon::{build_instance, read};
use mau_signature::Signature;
use mau_store::{NodeView, Store};
use mau_terms::{Bare, NoMemory, Seq, TermId, VarId};
use std::alloc::Global;

/// The index of a hole.
const HOLE: u32 = 4294967295;

/// The kind of a term, by its top.
fn kind_at(store: &Store, sig: &Signature, term: TermId) -> u32
    requires lawful { IsLawful (terms_over sig.now) }
    requires term { IsTerm sig.now store.now term.0 }
    ensures own { (i : ℕ) → i < 2 ^ 32 → IsBareIn (terms_over sig.now) (variable i result) result }
    ensures term { IsTermIn sig.now store.now result term.0 }
{
    match store.view(term) {
        NodeView::App(op, _) => sig.result_kind(op),
        NodeView::Num(_) => match sig.numerals() {
            Some((zero, _)) => sig.poset().kind_of(zero),
            None => unreachable!(),
        },
        NodeView::Var(variable) => sig.poset().kind_of(variable.sort),
    }
}

/// The hole of the kind of a term.
pub fn hole_for(store: &Store, sig: &Signature, term: TermId) -> VarId
    requires lawful { IsLawful (terms_over sig.now) }
    requires term { IsTerm sig.now store.now term.0 }
    ensures index { result.index ≡ hole_index }
    ensures hole { IsBareIn (terms_over sig.now) (variable result.index result.sort) result.sort }
    ensures term { IsTermIn sig.now store.now result.sort term.0 }
{
    let sort = kind_at(store, sig, term);
    VarId { index: HOLE, sort }
}

/// Adds the sort of a variable that is a hole.
fn add_hole(found: &mut Vec<u32>, added: VarId) -> Result<(), NoMemory>
    ensures { OnOk result (found.new.items ≡ found.old.items ++ holes (variable added.index added.sort)) }
{
    if added.index == HOLE {
        found.push(added.sort)?;
    }
    Ok(())
}

/// Adds the sorts of all holes of a term, from left to right.
#[cycle(holes)]
fn add_holes(found: &mut Vec<u32>, term: &Bare) -> Result<(), NoMemory>
    ensures { OnOk result (found.new.items ≡ found.old.items ++ holes (tree_of term.now)) }
{
    match term {
        Bare::Var(variable) => add_hole(found, *variable),
        Bare::Num(_) => Ok(()),
        Bare::App(_, args) => add_all_holes(found, args.items()),
    }
}

/// Adds those of some terms.
#[cycle(holes)]
fn add_all_holes(found: &mut Vec<u32>, terms: &[Bare]) -> Result<(), NoMemory>
    ensures { OnOk result (found.new.items ≡ found.old.items ++ holes_in (trees_of (map tree_of terms.now))) }
{
    match terms {
        [] => Ok(()),
        [first, rest @ ..] => {
            add_holes(found, first)?;
            add_all_holes(found, rest)
        }
    }
}

/// Whether a term has just one hole, of this kind.
pub fn has_one_hole(alloc: Global, term: &Bare, kind: u32) -> Result<bool, NoMemory>
    ensures { IfOk result (λ one. one ≡ true → holes (tree_of term.now) ≡ kind ∷ []) }
{
    let mut found = Vec::new(alloc);
    add_holes(&mut found, term)?;
    if found.len() != 1 {
        return Ok(false);
    }
    Ok(found[0] == kind)
}

/// The context in which a solution stands, where the hole is in the place of the part that it matched.
fn context_around(
    store: &mut Store,
    sig: &Signature,
    term: TermId,
    solution: &Solution,
    hole: VarId,
) -> Result<Bare, NoMemory>
    requires lawful { IsLawful (terms_over sig.now) }
    requires term { IsTermIn sig.now store.old hole.sort term.0 }
    requires contexts { AreContexts sig.now store.old (tree_at store.old term.0) (numbers solution.now.left) (numbers solution.now.right) }
    requires hole { IsBareIn (terms_over sig.now) (variable hole.index hole.sort) hole.sort }
    ensures within { IfOk result (λ context. IsBareWithin sig.now (tree_of context)) }
    ensures extends { Extends store.old store.new }
{
    let alloc = store.allocator();
    let none = Binding {
        variables: Vec::new(alloc),
        values: Vec::new(alloc),
    };
    match replace(store, sig, term, solution, &Bare::Var(hole), &none) {
        Ok(id) => read(alloc, store, sig, id),
        Err(_) => Err(NoMemory),
    }
}

/// Whether a context with a term in its hole has this normal form.
pub fn fills(
    store: &mut Store,
    sig: &Signature,
    context: &Bare,
    hole: VarId,
    inner: TermId,
    whole: TermId,
) -> Result<bool, NoMemory>
    requires index { hole.index ≡ hole_index }
    requires bare { IsBare (terms_over sig.now) (tree_of context.now) }
    requires one { holes (tree_of context.now) ≡ hole.sort ∷ [] }
    requires inner { StandsWithin (theory_at sig.now) store.old inner.0 }
    requires whole { IsOf store.old whole.0 }
    ensures fills { IfOk result (λ does. does ≡ true → norm (theory_at sig.now) (fill (tree_of context.now) (tree_at store.old inner.0)) ≡ tree_at store.old whole.0) }
    ensures extends { Extends store.old store.new }
{
    match build_instance(store, sig, context, &[hole], &[inner]) {
        Ok(id) => Ok(id == whole),
        Err(_) => Err(NoMemory),
    }
}

/// The normal form of an instance of a bare term.
fn instance_term(
    store: &mut Store,
    sig: &Signature,
    term: &Bare,
    binding: &Binding,
) -> Result<TermId, NoMemory>
    requires lawful { IsLawful (terms_over sig.now) }
    requires bare { IsBare (terms_over sig.now) (tree_of term.now) }
    requires values { AreValues sig.now store.old binding.now }
    ensures value { IfOk result (λ id. norm (theory_at sig.now) (instance (value_at (map variable_of binding.now.variables.items) (trees_at store.old (numbers binding.now.values.items))) (tree_of term.now)) ≡ tree_at store.new id.0) }
    ensures within { IfOk result (λ id. StandsWithin (theory_at sig.now) store.new id.0) }
    ensures extends { Extends store.old store.new }
{
    match build_instance(store, sig, term, &binding.variables, &binding.values) {
        Ok(id) => Ok(id),
        Err(_) => Err(NoMemory),
    }
}

/// The context in which a solution stands, by which one term leads to another: with `before` in its hole it is the first term, and with
/// `reached` the other. A term that holds a hole already has no context, and is told by none.
fn context_of(
    store: &mut Store,
    sig: &Signature,
    term: TermId,
    solution: &Solution,
    before: TermId,
    reached: TermId,
    after: TermId,
) -> Result<Bare, NoMemory>
    requires lawful { IsLawful (terms_over sig.now) }
    requires term { IsTerm sig.now store.old term.0 }
    requires contexts { AreContexts sig.now store.old (tree_at store.old term.0) (numbers solution.now.left) (numbers solution.now.right) }
    requires before { StandsWithin (theory_at sig.now) store.old before.0 }
    requires reached { StandsWithin (theory_at sig.now) store.old reached.0 }
    requires after { IsOf store.old after.0 }
    ensures one { IfOk result (λ context. (k : ℕ) × IsTermIn sig.now store.old k term.0 × (holes (tree_of context) ≡ k ∷ [])) }
    ensures within { IfOk result (λ context. IsBareWithin sig.now (tree_of context)) }
    ensures from { IfOk result (λ context. norm (theory_at sig.now) (fill (tree_of context) (tree_at store.old before.0)) ≡ tree_at store.old term.0) }
    ensures to { IfOk result (λ context. norm (theory_at sig.now) (fill (tree_of context) (tree_at store.old reached.0)) ≡ tree_at store.old after.0) }
    ensures extends { Extends store.old store.new }
{
    let hole = hole_for(store, sig, term);
    let context = context_around(store, sig, term, solution, hole)?;
    if !has_one_hole(store.allocator(), &context, hole.sort)? {
        return Err(NoMemory);
    }
    if !fills(store, sig, &context, hole, before, term)? {
        return Err(NoMemory);
    }
    if !fills(store, sig, &context, hole, reached, after)? {
        return Err(NoMemory);
    }
    Ok(context)
}

/// The number of a statement as it is shown, counted from 1. One that has no place in 32 bits doesn't fit into memory.
pub fn shown_number(number: usize) -> Result<u32, NoMemory>
    ensures { IfOk result (λ n. n ≡ suc number) }
{
    if number >= 4294967295 {
        return Err(NoMemory);
    }
    Ok(number as u32 + 1)
}

/// The use of an equation, by a solution of its left side and the values of its variables.
fn equation_step(
    store: &mut Store,
    program: &Program,
    term: TermId,
    number: usize,
    solution: &Solution,
    binding: &Binding,
    after: TermId,
) -> Result<Step, NoMemory>
    requires reducible { IsReducible program.now }
    requires term { IsTerm program.now.sig store.old term.0 }
    requires after { IsTerm program.now.sig store.old after.0 }
    requires found { IsFound program.now store.old (tree_at store.old term.0) number solution.now }
    requires variables { map variable_of binding.now.variables.items ≡ equation_variables program.now number }
    requires values { AreValues program.now.sig store.old binding.now }
    ensures step { (table : Table) → HaveSorts (HasEntry program.now.sig store.old table) (map variable_of binding.now.variables.items) (trees_at store.old (numbers binding.now.values.items))
        → IfOk result (λ x. IsEquationStep program.now (HasEntry program.now.sig store.new table) number (trees_at store.new (numbers binding.now.values.items))
        (tree_at store.new term.0) (tree_at store.new after.0) (step_in store.new x)) }
    ensures stands { IfOk result (λ x. StandsIn store.new (made x)) }
    ensures extends { Extends store.old store.new }
{
    let alloc = store.allocator();
    let equation = &program.equations.items()[number];
    let shown = shown_number(number)?;
    let values = Vec::from_slice(alloc, &binding.values)?;
    let before = instance_term(store, &program.sig, &equation.left, binding)?;
    let reached = instance_term(store, &program.sig, &equation.right, binding)?;
    let context = context_of(store, &program.sig, term, solution, before, reached, after)?;
    Ok(Step {
        statement: Statement::Equation(shown),
        context,
        values: Seq::new(values),
        before,
        after: reached,
        inner: Seq::new(Vec::new(alloc)),
    })
}

/// The use of a built-in at the top of a term.
fn built_in_step(
    store: &Store,
    program: &Program,
    term: TermId,
    after: TermId,
) -> Result<Step, NoMemory>
    requires reducible { IsReducible program.now }
    requires term { IsTerm program.now.sig store.now term.0 }
    requires after { IsTerm program.now.sig store.now after.0 }
    ensures step { (hooks : List Operator) (given : Given) → GivesValue given → IsGivenAt program.now.sig hooks store.now (tree_at store.now term.0) given
        → tree_at store.now after.0 ≡ norm (theory_at program.now.sig) (given_value store.now (theory_at program.now.sig) (tree_at store.now term.0) given)
        → IfOk result (λ x. IsBuiltInStep program.now hooks (tree_at store.now term.0) (tree_at store.now after.0) (step_in store.now x)) }
    ensures stands { IfOk result (λ x. StandsIn store.now (made x)) }
{
    let alloc = store.allocator();
    let hole = hole_for(store, &program.sig, term);
    match top_of(store, &program.sig, term) {
        Some(op) => Ok(Step {
            statement: Statement::BuiltIn(op),
            context: Bare::Var(hole),
            values: Seq::new(Vec::new(alloc)),
            before: term,
            after,
            inner: Seq::new(Vec::new(alloc)),
        }),
        None => Err(NoMemory),
    }
}

/// The step by which the last candidate leads from a term to what it makes of it, where its condition gave a binding. An equation is
/// named by its number, counted from 1.
pub fn step<L>(
    store: &mut Store,
    program: &Program,
    term: TermId,
    number: usize,
    attempts: &Attempts<L>,
    binding: &Binding,
    after: TermId,
) -> Result<Step, NoMemory>
    requires reducible { IsReducible program.now }
    requires term { IsTerm program.now.sig store.old term.0 }
    requires after { IsTerm program.now.sig store.old after.0 }
    requires last { IsLast program.now store.old (tree_at store.old term.0) number attempts.now.given attempts.now.last }
    requires variables { map variable_of binding.now.variables.items ≡ equation_variables program.now number }
    requires values { AreValues program.now.sig store.old binding.now }
    ensures equation { (table : Table) → HaveSorts (HasEntry program.now.sig store.old table) (map variable_of binding.now.variables.items) (trees_at store.old (numbers binding.now.values.items))
        → (GivesValue attempts.now.given → ⊥)
        → IfOk result (λ x. IsEquationStep program.now (HasEntry program.now.sig store.new table) number (trees_at store.new (numbers binding.now.values.items))
        (tree_at store.new term.0) (tree_at store.new after.0) (step_in store.new x)) }
    ensures built_in { (hooks : List Operator) → GivesValue attempts.now.given → IsGivenAt program.now.sig hooks store.old (tree_at store.old term.0) attempts.now.given
        → tree_at store.old after.0 ≡ norm (theory_at program.now.sig) (given_value store.old (theory_at program.now.sig) (tree_at store.old term.0) attempts.now.given)
        → IfOk result (λ x. IsBuiltInStep program.now hooks (tree_at store.new term.0) (tree_at store.new after.0) (step_in store.new x)) }
    ensures stands { IfOk result (λ x. StandsIn store.new (made x)) }
    ensures extends { Extends store.old store.new }
{
    if gives_value(attempts.given) {
        return built_in_step(store, program, term, after);
    }
    match &attempts.last {
        Some(found) => equation_step(
            store,
            program,
            term,
            number,
            &found.solution,
            binding,
            after,
        ),
        None => unreachable!(),
    }
}
