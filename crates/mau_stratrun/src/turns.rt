//! Strategies that have a fixed list of successors, and what each of them does first.
ghost use Rattle.std.specs.Prelude.{◌≡◌, ◌<◌, ◌≤◌, ℕ, List, [], ◌∷◌, map, length, slice_get, All, Some, IfOk};
ghost use Rattle.mau_evaluation.specs.Strategy.{Strategy, idle, fail, star, in_turn, branch, negation};
ghost use Rattle.mau_strat.specs.Sharing.{Extends};
ghost use Rattle.mau_strat.specs.Forms.{parts, AreBelow, AreForms, LeafIn, IsLeaf, strategy_at, strategy_over};
ghost use Rattle.mau_stratrun.specs.Turns.{KindIs, HasTurns, IsDerived, turns, ids_of, IsTurnAt};

use crate::ahead::First;
use crate::leaves::Lead;
use mau_strat::{Form, Forms, StrategyId};
use mau_terms::NoMemory;

/// In which way the successors of a strategy come.
#[derive(Clone, Copy)]
pub enum Kind {
    /// One for each that is yielded.
    ByCursor(Lead),
    /// `E ? F : G`
    ByBranch(StrategyId, StrategyId, StrategyId),
    /// By a fixed list.
    ByTurns(Form),
}

/// In which way the successors of a strategy come.
pub(crate) fn kind_of(forms: &Forms, id: StrategyId) -> Kind
    requires { id.0 < length forms.now }
    ensures kind { (leaf : ℕ → Strategy) (leaves : ℕ) → All (LeafIn leaves) forms.now → ((l : ℕ) → l < leaves → IsLeaf (leaf l)) →
        KindIs leaf leaves forms.now id.0 result }
{
    match forms.form(id) {
        Form::Leaf(leaf) => Kind::ByCursor(Lead::Leaf(leaf)),
        Form::All => Kind::ByCursor(Lead::All),
        Form::If(test, then, other) => Kind::ByBranch(test, then, other),
        Form::Top(inner) => match forms.form(inner) {
            Form::Leaf(leaf) => Kind::ByCursor(Lead::TopOf(leaf)),
            Form::All => Kind::ByCursor(Lead::TopOfAll),
            _ => Kind::ByTurns(Form::Top(inner)),
        },
        form => Kind::ByTurns(form),
    }
}

/// The number of the strategy with this form, which is no leaf.
fn add(forms: &mut Forms, form: Form) -> Result<StrategyId, NoMemory>
    requires parts { AreBelow (length forms.old) (parts form) }
    requires inner { LeafIn 0 form }
    ensures id { IfOk result (λ id. id.0 < length forms.new) }
    ensures strategy { (leaf : ℕ → Strategy) → IfOk result (λ id. strategy_at leaf forms.new id.0 ≡ strategy_over leaf (strategy_at
        leaf forms.old) form) }
    ensures kept { (leaf : ℕ → Strategy) (n : ℕ) → n < length forms.old → strategy_at leaf forms.new n ≡ strategy_at leaf forms.old n }
    ensures longer { length forms.old ≤ length forms.new }
    ensures extends { Extends forms.old forms.new }
    ensures leaves { (leaves : ℕ) → All (LeafIn leaves) forms.old → All (LeafIn leaves) forms.new }
    ensures forms { AreForms forms.new }
{
    forms.add(form)
}

/// `E ? idle : F`
fn with_idle(forms: &mut Forms, test: StrategyId, other: StrategyId) -> Result<StrategyId, NoMemory>
    requires test { test.0 < length forms.old }
    requires other { other.0 < length forms.old }
    ensures id { IfOk result (λ id. id.0 < length forms.new) }
    ensures strategy { (leaf : ℕ → Strategy) → IfOk result (λ id. strategy_at leaf forms.new id.0 ≡ branch (strategy_at leaf forms.old
        test.0) idle (strategy_at leaf forms.old other.0)) }
    ensures extends { Extends forms.old forms.new }
    ensures leaves { (leaves : ℕ) → All (LeafIn leaves) forms.old → All (LeafIn leaves) forms.new }
    ensures forms { AreForms forms.new }
    ensures longer { length forms.old ≤ length forms.new }
    ensures kept { (leaf : ℕ → Strategy) (n : ℕ) → n < length forms.old → strategy_at leaf forms.new n ≡ strategy_at leaf forms.old n }
{
    let idle = match add(forms, Form::Idle) {
        Ok(idle) => idle,
        Err(_) => return Err(NoMemory),
    };
    add(forms, Form::If(test, idle, other))
}

/// `E ? fail : idle`
fn with_fail(forms: &mut Forms, test: StrategyId) -> Result<StrategyId, NoMemory>
    requires test { test.0 < length forms.old }
    ensures id { IfOk result (λ id. id.0 < length forms.new) }
    ensures strategy { (leaf : ℕ → Strategy) → IfOk result (λ id. strategy_at leaf forms.new id.0 ≡ branch (strategy_at leaf forms.old
        test.0) fail idle) }
    ensures extends { Extends forms.old forms.new }
    ensures leaves { (leaves : ℕ) → All (LeafIn leaves) forms.old → All (LeafIn leaves) forms.new }
    ensures forms { AreForms forms.new }
    ensures longer { length forms.old ≤ length forms.new }
    ensures kept { (leaf : ℕ → Strategy) (n : ℕ) → n < length forms.old → strategy_at leaf forms.new n ≡ strategy_at leaf forms.old n }
{
    let idle = match add(forms, Form::Idle) {
        Ok(idle) => idle,
        Err(_) => return Err(NoMemory),
    };
    let fail = match add(forms, Form::Fail) {
        Ok(fail) => fail,
        Err(_) => return Err(NoMemory),
    };
    add(forms, Form::If(test, fail, idle))
}

/// `E ? idle : idle`
fn with_idles(forms: &mut Forms, test: StrategyId) -> Result<StrategyId, NoMemory>
    requires test { test.0 < length forms.old }
    ensures id { IfOk result (λ id. id.0 < length forms.new) }
    ensures strategy { (leaf : ℕ → Strategy) → IfOk result (λ id. strategy_at leaf forms.new id.0 ≡ branch (strategy_at leaf forms.old
        test.0) idle idle) }
    ensures extends { Extends forms.old forms.new }
    ensures leaves { (leaves : ℕ) → All (LeafIn leaves) forms.old → All (LeafIn leaves) forms.new }
    ensures forms { AreForms forms.new }
    ensures longer { length forms.old ≤ length forms.new }
    ensures kept { (leaf : ℕ → Strategy) (n : ℕ) → n < length forms.old → strategy_at leaf forms.new n ≡ strategy_at leaf forms.old n }
{
    let idle = match add(forms, Form::Idle) {
        Ok(idle) => idle,
        Err(_) => return Err(NoMemory),
    };
    with_idle(forms, test, idle)
}

/// `not(E) ? fail : idle`
fn with_not(forms: &mut Forms, test: StrategyId) -> Result<StrategyId, NoMemory>
    requires test { test.0 < length forms.old }
    ensures id { IfOk result (λ id. id.0 < length forms.new) }
    ensures strategy { (leaf : ℕ → Strategy) → IfOk result (λ id. strategy_at leaf forms.new id.0 ≡ branch (negation (strategy_at leaf
        forms.old test.0)) fail idle) }
    ensures extends { Extends forms.old forms.new }
    ensures leaves { (leaves : ℕ) → All (LeafIn leaves) forms.old → All (LeafIn leaves) forms.new }
    ensures forms { AreForms forms.new }
    ensures longer { length forms.old ≤ length forms.new }
    ensures kept { (leaf : ℕ → Strategy) (n : ℕ) → n < length forms.old → strategy_at leaf forms.new n ≡ strategy_at leaf forms.old n }
{
    let not = match add(forms, Form::Not(test)) {
        Ok(not) => not,
        Err(_) => return Err(NoMemory),
    };
    with_fail(forms, not)
}

/// `E ; E *`
fn with_star(forms: &mut Forms, test: StrategyId) -> Result<StrategyId, NoMemory>
    requires test { test.0 < length forms.old }
    ensures id { IfOk result (λ id. id.0 < length forms.new) }
    ensures strategy { (leaf : ℕ → Strategy) → IfOk result (λ id. strategy_at leaf forms.new id.0 ≡ in_turn (strategy_at leaf forms.old
        test.0) (star (strategy_at leaf forms.old test.0))) }
    ensures extends { Extends forms.old forms.new }
    ensures leaves { (leaves : ℕ) → All (LeafIn leaves) forms.old → All (LeafIn leaves) forms.new }
    ensures forms { AreForms forms.new }
    ensures longer { length forms.old ≤ length forms.new }
    ensures kept { (leaf : ℕ → Strategy) (n : ℕ) → n < length forms.old → strategy_at leaf forms.new n ≡ strategy_at leaf forms.old n }
{
    let star = match add(forms, Form::Star(test)) {
        Ok(star) => star,
        Err(_) => return Err(NoMemory),
    };
    add(forms, Form::Then(test, star))
}

/// `E * ; not(E)`
fn star_and_not(forms: &mut Forms, test: StrategyId) -> Result<StrategyId, NoMemory>
    requires test { test.0 < length forms.old }
    ensures id { IfOk result (λ id. id.0 < length forms.new) }
    ensures strategy { (leaf : ℕ → Strategy) → IfOk result (λ id. strategy_at leaf forms.new id.0 ≡ in_turn (star (strategy_at leaf
        forms.old test.0)) (negation (strategy_at leaf forms.old test.0))) }
    ensures extends { Extends forms.old forms.new }
    ensures leaves { (leaves : ℕ) → All (LeafIn leaves) forms.old → All (LeafIn leaves) forms.new }
    ensures forms { AreForms forms.new }
    ensures longer { length forms.old ≤ length forms.new }
    ensures kept { (leaf : ℕ → Strategy) (n : ℕ) → n < length forms.old → strategy_at leaf forms.new n ≡ strategy_at leaf forms.old n }
{
    let star = match add(forms, Form::Star(test)) {
        Ok(star) => star,
        Err(_) => return Err(NoMemory),
    };
    let not = match add(forms, Form::Not(test)) {
        Ok(not) => not,
        Err(_) => return Err(NoMemory),
    };
    add(forms, Form::Then(star, not))
}

/// The one that is done first, or none behind it.
fn only(at: usize, first: First) -> Option<First>
    ensures { (strategy : ℕ → Strategy) (many : ℕ) → All (λ e. e < many) (ids_of first) →
        IsTurnAt strategy many (map strategy (ids_of first) ∷ []) at result }
{
    if at == 0 { Some(first) } else { None }
}

/// The one that is done first, or the one behind it.
fn one_of(at: usize, first: First, second: First) -> Option<First>
    ensures { (strategy : ℕ → Strategy) (many : ℕ) → All (λ e. e < many) (ids_of first) → All (λ e. e < many) (ids_of second) →
        IsTurnAt strategy many (map strategy (ids_of first) ∷ map strategy (ids_of second) ∷ []) at result }
{
    if at == 0 {
        return Some(first);
    }
    if at == 1 { Some(second) } else { None }
}

/// What a strategy does first whose form is written in others.
fn derived(forms: &mut Forms, form: Form) -> Result<StrategyId, NoMemory>
    requires parts { AreBelow (length forms.old) (parts form) }
    ensures id { IfOk result (λ id. id.0 < length forms.new) }
    ensures strategy { (leaf : ℕ → Strategy) → IsDerived form →
        IfOk result (λ id. turns (strategy_over leaf (strategy_at leaf forms.old) form) ≡ (strategy_at leaf forms.new id.0 ∷ []) ∷ []) }
    ensures extends { Extends forms.old forms.new }
    ensures leaves { (leaves : ℕ) → All (LeafIn leaves) forms.old → All (LeafIn leaves) forms.new }
    ensures forms { AreForms forms.new }
{
    let _ = forms.len();
    match form {
        Form::Plus(e) => with_star(forms, e),
        Form::Normal(e) => star_and_not(forms, e),
        Form::OrElse(e, f) => with_idle(forms, e, f),
        Form::Not(e) => with_fail(forms, e),
        Form::Try(e) => with_idles(forms, e),
        Form::TestOf(e) => with_not(forms, e),
        _ => Err(NoMemory),
    }
}

/// What a strategy with a fixed list of successors does first at the successor at a place.
pub(crate) fn turn_at(
    forms: &mut Forms,
    form: Form,
    own: StrategyId,
    at: usize,
) -> Result<Option<First>, NoMemory>
    requires form { slice_get forms.old own.0 ≡ Some form }
    requires inner { LeafIn 0 form }
    ensures turn { (leaf : ℕ → Strategy) → HasTurns (strategy_at leaf forms.old own.0) →
        IfOk result (IsTurnAt (strategy_at leaf forms.new) (length forms.new) (turns (strategy_at leaf forms.old own.0)) at) }
    ensures extends { Extends forms.old forms.new }
    ensures leaves { (leaves : ℕ) → All (LeafIn leaves) forms.old → All (LeafIn leaves) forms.new }
    ensures forms { AreForms forms.new }
{
    let _ = forms.len();
    match form {
        Form::Idle => Ok(only(at, First::Nothing)),
        Form::Star(e) => Ok(one_of(at, First::Nothing, First::Two(e, own))),
        Form::Then(e, f) => Ok(only(at, First::Two(e, f))),
        Form::Or(e, f) => Ok(one_of(at, First::One(e), First::One(f))),
        Form::Fail => Ok(None),
        Form::Top(_) => Ok(None),
        _ => match derived(forms, form) {
            Ok(id) => Ok(only(at, First::One(id))),
            Err(_) => Err(NoMemory),
        },
    }
}
