//! What is told: of a use of a rule the step, with the whole term around it for its context; and where passes begin and end.
ghost use Rattle.std.specs.Prelude.{◌≡◌, ◌<◌, ◌-◌, ◌++◌, ◌∷◌, ◌+◌, [], ℕ, List, map, true, false, All, IfOk, OnOk};
ghost use Rattle.mau_terms.specs.Tree.{variable};
ghost use Rattle.mau_terms.specs.Norm.{norm};
ghost use Rattle.mau_terms.specs.Bare.{IsBare, IsBareIn, IsLawful};
ghost use Rattle.mau_terms.specs.Subst.{value_at, instance};
ghost use Rattle.mau_terms.specs.View.{tree_of, variable_of};
ghost use Rattle.mau_signature.specs.Signature.{theory_at, terms_over};
ghost use Rattle.mau_formula.specs.Operator.{Operator};
ghost use Rattle.mau_store.specs.Node.{Node, IsOf, Extends};
ghost use Rattle.mau_store.specs.Trees.{tree_at, trees_at};
ghost use Rattle.mau_store.specs.View.{numbers};
ghost use Rattle.mau_canon.specs.Standing.{StandsWithin};
ghost use Rattle.mau_sorts.specs.Table.{Table};
ghost use Rattle.mau_listing.specs.Asked.{HasEntry};
ghost use Rattle.mau_api.specs.Terms.{IsTerm, IsBareWithin, fill, holes};
ghost use Rattle.mau_api.specs.Events.{Event, entered, left, made};
ghost use Rattle.mau_api.specs.Told.{step_in, StandsIn, shown_count};
ghost use Rattle.mau_api.specs.Answers.{IsValueOf};
ghost use Rattle.mau_reduce.specs.Kinds.{IsTermIn};
ghost use Rattle.mau_reduce.specs.Bindings.{AreValues};
ghost use Rattle.mau_reduce.specs.Contexts.{AreContexts};
ghost use Rattle.mau_rules.specs.Runnable.{IsRunnable};
ghost use Rattle.mau_rules.specs.Found.{IsFound};
ghost use Rattle.mau_rules.specs.Walk.{IsPath, IsWalk};
ghost use Rattle.mau_rules.specs.Telling.{TellsBehind, TellsFound, IsRuleStep, TellsRules};

use crate::attempt::Found;
use crate::walk::Open;
use crate::whole::{parted, placed};
use mau_api::{Place, Program, Statement, Step, StepWatcher};
use mau_canon::{build_instance, read};
use mau_reduce::{Binding, fills, has_one_hole, hole_for, shown_number};
use mau_signature::Signature;
use mau_store::Store;
use mau_terms::{Bare, NoMemory, Seq, TermId, VarId};

/// The whole term from which a place was reached through the open terms.
fn root_of(way: &[Open], term: TermId) -> TermId
    ensures { (nodes : List Node) (root : ℕ) → IsPath nodes root way.now term.0 → result.0 ≡ root }
{
    match way {
        [] => term,
        [first, ..] => first.term,
    }
}

/// The whole term with a hole in the place of the part that a rule matched.
fn context_around(
    store: &mut Store,
    sig: &Signature,
    way: &[Open],
    found: &Found,
    hole: VarId,
) -> Result<Bare, NoMemory>
    requires lawful { IsLawful (terms_over sig.now) }
    requires walk { (root : ℕ) × IsWalk sig.now store.old root way.now found.now.term.0 }
    requires contexts { AreContexts sig.now store.old (tree_at store.old found.now.term.0) (numbers found.now.solution.left) (numbers found.now.solution.right) }
    requires term { IsTermIn sig.now store.old hole.sort found.now.term.0 }
    requires hole { IsBareIn (terms_over sig.now) (variable hole.index hole.sort) hole.sort }
    ensures within { IfOk result (λ context. IsBareWithin sig.now (tree_of context)) }
    ensures extends { Extends store.old store.new }
{
    let alloc = store.allocator();
    let none = Binding {
        variables: Vec::new(alloc),
        values: Vec::new(alloc),
    };
    match placed(store, sig, way, found, &Bare::Var(hole), &none) {
        Ok(id) => read(alloc, store, sig, id),
        Err(_) => Err(NoMemory),
    }
}

/// The context of a use of a rule, by which the whole term leads to another: with `before` in its hole it is that term, and with
/// `reached` the other. A term that holds a hole already has no context, and is told by none.
fn context_of(
    store: &mut Store,
    sig: &Signature,
    way: &[Open],
    found: &Found,
    before: TermId,
    reached: TermId,
    after: TermId,
) -> Result<Bare, NoMemory>
    requires lawful { IsLawful (terms_over sig.now) }
    requires walk { (root : ℕ) × IsWalk sig.now store.old root way.now found.now.term.0 }
    requires contexts { AreContexts sig.now store.old (tree_at store.old found.now.term.0) (numbers found.now.solution.left) (numbers found.now.solution.right) }
    requires before { StandsWithin (theory_at sig.now) store.old before.0 }
    requires reached { StandsWithin (theory_at sig.now) store.old reached.0 }
    requires after { IsOf store.old after.0 }
    ensures one { IfOk result (λ context. (k : ℕ) × IsTermIn sig.now store.old k found.now.term.0 × (holes (tree_of context) ≡ k ∷ [])) }
    ensures within { IfOk result (λ context. IsBareWithin sig.now (tree_of context)) }
    ensures from { (root : ℕ) → IsPath store.old root way.now found.now.term.0 →
        IfOk result (λ context. norm (theory_at sig.now) (fill (tree_of context) (tree_at store.old before.0)) ≡ tree_at store.old root) }
    ensures to { IfOk result (λ context. norm (theory_at sig.now) (fill (tree_of context) (tree_at store.old reached.0)) ≡ tree_at store.old after.0) }
    ensures extends { Extends store.old store.new }
{
    let _ = store.len();
    let root = root_of(way, found.term);
    let hole = hole_for(store, sig, found.term);
    let context = context_around(store, sig, way, found, hole)?;
    if !has_one_hole(store.allocator(), &context, hole.sort)? {
        return Err(NoMemory);
    }
    if !fills(store, sig, &context, hole, before, root)? {
        return Err(NoMemory);
    }
    if !fills(store, sig, &context, hole, reached, after)? {
        return Err(NoMemory);
    }
    Ok(context)
}

/// The normal form of an instance of a side of a rule.
fn side_term(
    store: &mut Store,
    sig: &Signature,
    side: &Bare,
    binding: &Binding,
) -> Result<TermId, NoMemory>
    requires bare { IsBare (terms_over sig.now) (tree_of side.now) }
    requires values { AreValues sig.now store.old binding.now }
    ensures value { IfOk result (λ id. norm (theory_at sig.now)
        (instance (value_at (map variable_of binding.now.variables.items) (trees_at store.old (numbers binding.now.values.items))) (tree_of side.now)) ≡ tree_at store.new id.0) }
    ensures within { IfOk result (λ id. StandsWithin (theory_at sig.now) store.new id.0) }
    ensures extends { Extends store.old store.new }
{
    match build_instance(store, sig, side, &binding.variables, &binding.values) {
        Ok(id) => Ok(id),
        Err(_) => Err(NoMemory),
    }
}

/// The use of a rule, by which the whole term leads to another.
fn rule_step(
    store: &mut Store,
    program: &Program,
    way: &[Open],
    found: &Found,
    after: TermId,
) -> Result<Step, NoMemory>
    requires runnable { IsRunnable program.now }
    requires walk { (root : ℕ) × IsWalk program.now.sig store.old root way.now found.now.term.0 }
    requires found { (table : Table) × IsFound program.now store.old table (tree_at store.old found.now.term.0) found.now }
    requires after { IsTerm program.now.sig store.old after.0 }
    ensures step { (table : Table) (root : ℕ) → IsPath store.old root way.now found.now.term.0 → All (IsValueOf program.now.sig store.old table) found.now.bound.items →
        IfOk result (λ x. IsRuleStep program.now (HasEntry program.now.sig store.new table) found.now.number
        (trees_at store.new (numbers (map (λ b. b.1) found.now.bound.items))) (tree_at store.new root) (tree_at store.new after.0) (step_in store.new x)) }
    ensures stands { IfOk result (λ x. StandsIn store.new (made x)) }
    ensures extends { Extends store.old store.new }
{
    let _ = store.len();
    let alloc = store.allocator();
    let rule = &program.rules.items()[found.number];
    let shown = shown_number(found.number)?;
    let binding = parted(alloc, &found.bound)?;
    let values = Vec::from_slice(alloc, &binding.values)?;
    let before = side_term(store, &program.sig, &rule.left, &binding)?;
    let reached = side_term(store, &program.sig, &rule.right, &binding)?;
    let context = context_of(store, &program.sig, way, found, before, reached, after)?;
    Ok(Step {
        statement: Statement::Rule(shown),
        context,
        values: Seq::new(values),
        before,
        after: reached,
        inner: Seq::new(Vec::new(alloc)),
    })
}

/// A use of a rule, which leads the whole term to `after`, is told if steps are wanted. Its condition was told before.
pub(crate) fn tell_use<W: StepWatcher>(
    store: &mut Store,
    program: &Program,
    way: &[Open],
    found: &Found,
    after: TermId,
    watcher: &mut W,
) -> Result<(), NoMemory>
    requires runnable { IsRunnable program.now }
    requires walk { (root : ℕ) × IsWalk program.now.sig store.old root way.now found.now.term.0 }
    requires found { (table : Table) × IsFound program.now store.old table (tree_at store.old found.now.term.0) found.now }
    requires after { IsTerm program.now.sig store.old after.0 }
    ensures told { W.wanted watcher.old ≡ true → OnOk result ((hooks : List Operator) (table : Table) (front : List Event) (root : ℕ) → IsPath store.old root way.now found.now.term.0 →
        All (IsValueOf program.now.sig store.old table) found.now.bound.items → TellsFound program.now hooks store.old table front (W.told watcher.old) found.now →
        TellsRules program.now hooks store.new table front (W.told watcher.new) (tree_at store.new root) (tree_at store.new after.0) (shown_count (found.now.rewrites + 1))) }
    ensures behind { TellsBehind (W.wanted watcher.old) (W.told watcher.old) (W.told watcher.new) }
    ensures extends { Extends store.old store.new }
    ensures wanted { W.wanted watcher.new ≡ W.wanted watcher.old }
{
    if !watcher.wants() {
        return Ok(());
    }
    let step = rule_step(store, program, way, found, after)?;
    watcher.step(step)
}

/// A pass begins with a term, if steps are wanted.
pub(crate) fn tell_entry<W: StepWatcher>(watcher: &mut W, term: TermId) -> Result<(), NoMemory>
    ensures told { OnOk result (W.wanted watcher.old ≡ true → W.told watcher.new ≡ W.told watcher.old ++ entered term Place.Whole ∷ []) }
    ensures behind { TellsBehind (W.wanted watcher.old) (W.told watcher.old) (W.told watcher.new) }
    ensures wanted { W.wanted watcher.new ≡ W.wanted watcher.old }
{
    if !watcher.wants() {
        return Ok(());
    }
    watcher.enter(term, Place::Whole)
}

/// A pass over an argument begins, if steps are wanted; so many arguments are behind the pass once it is entered. One that has no place
/// in 32 bits doesn't fit into memory.
pub(crate) fn tell_argument<W: StepWatcher>(
    watcher: &mut W,
    term: TermId,
    next: usize,
) -> Result<(), NoMemory>
    requires { 0 < next }
    ensures told { OnOk result (W.wanted watcher.old ≡ true → W.told watcher.new ≡ W.told watcher.old ++ entered term (Place.Argument (next - 1)) ∷ []) }
    ensures behind { TellsBehind (W.wanted watcher.old) (W.told watcher.old) (W.told watcher.new) }
    ensures wanted { W.wanted watcher.new ≡ W.wanted watcher.old }
{
    if !watcher.wants() {
        return Ok(());
    }
    let place = next - 1;
    if place > 4294967295 {
        return Err(NoMemory);
    }
    watcher.enter(term, Place::Argument(place as u32))
}

/// The pass that began last ends with a value, if steps are wanted.
pub(crate) fn tell_exit<W: StepWatcher>(watcher: &mut W, value: TermId) -> Result<(), NoMemory>
    ensures told { OnOk result (W.wanted watcher.old ≡ true → W.told watcher.new ≡ W.told watcher.old ++ left value ∷ []) }
    ensures behind { TellsBehind (W.wanted watcher.old) (W.told watcher.old) (W.told watcher.new) }
    ensures wanted { W.wanted watcher.new ≡ W.wanted watcher.old }
{
    if !watcher.wants() {
        return Ok(());
    }
    watcher.leave(value)
}
