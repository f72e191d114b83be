//! Whether two strategies are one.
ghost use Rattle.std.specs.Prelude.{◌≡◌, ◌↔◌, map, IsTrue};
ghost use Rattle.mau_terms.specs.View.{tree_of, variable_of};
ghost use Rattle.mau_program.specs.Strategies.{strategy_of};
ghost use Rattle.mau_api.specs.Programs.{fragment_of};
ghost use Rattle.mau_stratforms.specs.Meanings.{kind_of, assign_of, meaning_of};
ghost use Rattle.mau_stratforms.specs.Parts.{part_of};

use mau_program::{Assign, Fragment, PartUse, Strategy, StrategyForm, TestKind};
use mau_terms::{Bare, Seq, Text, VarId};

/// Whether two kinds of tests are one.
fn same_kind(a: TestKind, b: TestKind) -> bool
    ensures { IsTrue result ↔ kind_of a ≡ kind_of b }
{
    match (a, b) {
        (TestKind::Match, TestKind::Match) => true,
        (TestKind::Xmatch, TestKind::Xmatch) => true,
        (TestKind::Amatch, TestKind::Amatch) => true,
        _ => false,
    }
}

/// Whether two variables are one.
fn same_variable(a: VarId, b: VarId) -> bool
    ensures { IsTrue result ↔ variable_of a ≡ variable_of b }
{
    a.index == b.index && a.sort == b.sort
}

/// Whether two assignments are one.
fn same_assign(a: &Assign, b: &Assign) -> bool
    ensures { IsTrue result ↔ assign_of a.now ≡ assign_of b.now }
{
    a.sort == b.sort && a.name.as_str() == b.name.as_str() && a.value.same(&b.value)
}

/// Whether two lists of assignments are one.
fn same_assigns(a: &Seq<Assign>, b: &Seq<Assign>) -> bool
    ensures { IsTrue result ↔ map assign_of a.now ≡ map assign_of b.now }
{
    let a = a.items();
    let b = b.items();
    if a.len() != b.len() {
        return false;
    }
    for i in 0..a.len() {
        if !same_assign(&a[i], &b[i]) {
            return false;
        }
    }
    true
}

/// Whether two fragments are one.
fn same_fragment(a: &Fragment, b: &Fragment) -> bool
    ensures { IsTrue result ↔ fragment_of a.now ≡ fragment_of b.now }
{
    match (a, b) {
        (Fragment::Equal(t, u), Fragment::Equal(v, w)) => t.same(v) && u.same(w),
        (Fragment::Match(t, u), Fragment::Match(v, w)) => t.same(v) && u.same(w),
        (Fragment::Sort(t, m), Fragment::Sort(u, n)) => t.same(u) && m == n,
        (Fragment::Reach(t, u), Fragment::Reach(v, w)) => t.same(v) && u.same(w),
        _ => false,
    }
}

/// Whether two conditions are one.
fn same_condition(a: &Seq<Fragment>, b: &Seq<Fragment>) -> bool
    ensures { IsTrue result ↔ map fragment_of a.now ≡ map fragment_of b.now }
{
    let a = a.items();
    let b = b.items();
    if a.len() != b.len() {
        return false;
    }
    for i in 0..a.len() {
        if !same_fragment(&a[i], &b[i]) {
            return false;
        }
    }
    true
}

/// Whether two labels with their assignments are one.
fn same_label(
    label: &Text,
    assigns: &Seq<Assign>,
    other_label: &Text,
    other_assigns: &Seq<Assign>,
) -> bool
    ensures { IsTrue result ↔ (label.now ≡ other_label.now) × (map assign_of assigns.now ≡ map assign_of other_assigns.now) }
{
    label.as_str() == other_label.as_str() && same_assigns(assigns, other_assigns)
}

/// Whether two patterns are looked for in the same way, under the same condition.
fn same_test(
    kind: TestKind,
    pattern: &Bare,
    cond: &Seq<Fragment>,
    other_kind: TestKind,
    other_pattern: &Bare,
    other_cond: &Seq<Fragment>,
) -> bool
    ensures { IsTrue result ↔ (kind_of kind ≡ kind_of other_kind) × (tree_of pattern.now ≡ tree_of other_pattern.now) ×
        (map fragment_of cond.now ≡ map fragment_of other_cond.now) }
{
    same_kind(kind, other_kind) && pattern.same(other_pattern) && same_condition(cond, other_cond)
}

/// Whether two strategies are one.
#[cycle(same)]
pub(crate) fn same(a: &Strategy, b: &Strategy) -> bool
    ensures { IsTrue result ↔ meaning_of a.now ≡ meaning_of b.now }
{
    same_form(a.form(), b.form())
}

/// Whether two lists of strategies are one.
#[cycle(same)]
fn same_all(a: &[Strategy], b: &[Strategy]) -> bool
    ensures { IsTrue result ↔ map meaning_of a.now ≡ map meaning_of b.now }
{
    if a.len() != b.len() {
        return false;
    }
    for i in 0..a.len() {
        if !same(&a[i], &b[i]) {
            return false;
        }
    }
    true
}

/// Whether two uses of parts are one.
#[cycle(same)]
fn same_use(a: &PartUse, b: &PartUse) -> bool
    ensures { IsTrue result ↔ part_of a.now ≡ part_of b.now }
{
    same_variable(a.var, b.var) && same(&a.strategy, &b.strategy)
}

/// Whether two lists of uses of parts are one.
#[cycle(same)]
fn same_uses(a: &[PartUse], b: &[PartUse]) -> bool
    ensures { IsTrue result ↔ map part_of a.now ≡ map part_of b.now }
{
    if a.len() != b.len() {
        return false;
    }
    for i in 0..a.len() {
        if !same_use(&a[i], &b[i]) {
            return false;
        }
    }
    true
}

/// Whether two forms are those of one strategy.
#[cycle(same)]
fn same_form(a: &StrategyForm, b: &StrategyForm) -> bool
    ensures { IsTrue result ↔ meaning_of (strategy_of a.now) ≡ meaning_of (strategy_of b.now) }
{
    match (a, b) {
        (StrategyForm::Idle, StrategyForm::Idle) => true,
        (StrategyForm::Fail, StrategyForm::Fail) => true,
        (StrategyForm::All, StrategyForm::All) => true,
        (StrategyForm::Label(l, xs), StrategyForm::Label(m, ys)) => { same_label(l, xs, m, ys) }
        (StrategyForm::Top(s), StrategyForm::Top(t)) => same(s, t),
        (StrategyForm::Call(f, ts), StrategyForm::Call(g, us)) => {
            f.as_str() == g.as_str() && ts.same(us)
        }
        (StrategyForm::Test(k, p, c), StrategyForm::Test(l, q, d)) => {
            same_test(*k, p, c, *l, q, d)
        }
        (StrategyForm::Star(s), StrategyForm::Star(t)) => same(s, t),
        (StrategyForm::Plus(s), StrategyForm::Plus(t)) => same(s, t),
        (StrategyForm::Normal(s), StrategyForm::Normal(t)) => same(s, t),
        (StrategyForm::Then(s, t), StrategyForm::Then(u, v)) => same(s, u) && same(t, v),
        (StrategyForm::Or(s, t), StrategyForm::Or(u, v)) => same(s, u) && same(t, v),
        (StrategyForm::OrElse(s, t), StrategyForm::OrElse(u, v)) => same(s, u) && same(t, v),
        (StrategyForm::If(s, t, u), StrategyForm::If(v, w, x)) => {
            same(s, v) && same(t, w) && same(u, x)
        }
        (StrategyForm::Not(s), StrategyForm::Not(t)) => same(s, t),
        (StrategyForm::Try(s), StrategyForm::Try(t)) => same(s, t),
        (StrategyForm::TestOf(s), StrategyForm::TestOf(t)) => same(s, t),
        (StrategyForm::PartRewrite(k, p, c, us), StrategyForm::PartRewrite(l, q, d, vs)) => {
            same_test(*k, p, c, *l, q, d) && same_uses(us, vs)
        }
        (StrategyForm::LabelBy(l, xs, ss), StrategyForm::LabelBy(m, ys, ts)) => {
            same_label(l, xs, m, ys) && same_all(ss, ts)
        }
        _ => false,
    }
}
