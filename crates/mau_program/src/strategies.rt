//! Strategies: ways to apply the rules of a module to a term.
ghost use Rattle.std.specs.Prelude.{◌≡◌, IfOk};
ghost use Rattle.mau_program.specs.Strategies.{strategy_of};

use crate::Fragment;
use mau_terms::{Args, Bare, Duplicate, NoMemory, Seq, Text, VarId};
use std::alloc::Global;
use std::marker::Model;

/// Where a test, or a rewriting of parts, looks for its pattern.
#[derive(Clone, Copy, PartialEq, Eq, Debug)]
pub enum TestKind {
    /// At the root, without extension.
    Match,
    /// At the root, with extension.
    Xmatch,
    /// At any place, frozen arguments too, with extension.
    Amatch,
}

/// `X <- t`: the variable of a rule that has this name and sort has the value of `t`.
#[derive(Drop)]
pub struct Assign {
    pub name: Text,
    pub sort: u32,
    pub value: Bare,
}

/// `X using E`: the value of a variable of the pattern is replaced by a result of the strategy on it.
#[cycle(strategy)]
#[derive(Drop)]
pub struct PartUse {
    pub var: VarId,
    pub strategy: Strategy,
}

/// A strategy, seen as its tree.
#[cycle(strategy)]
#[derive(Drop)]
pub struct Strategy {
    form: StrategyForm,
}

/// A strategy by the form in which it is written; parentheses leave none.
#[cycle(strategy)]
#[derive(Drop)]
pub enum StrategyForm {
    /// `idle`: the term itself.
    Idle,
    /// `fail`: no result.
    Fail,
    /// `all`: one use of any rule, at any place outside frozen arguments.
    All,
    /// `l` or `l[X <- t, ..]`: one use of a rule with this label, some of whose variables have these values.
    Label(Text, Seq<Assign>),
    /// `top(A)`: the same at the root alone. The strategy is a Label, a LabelBy or All.
    Top(Box<Strategy>),
    /// `f` or `f(t, ..)`: what the definitions of this name give for these arguments.
    Call(Text, Args),
    /// `match P s.t. C`: the term itself, where the pattern matches it in the way of this kind and the condition holds.
    Test(TestKind, Bare, Seq<Fragment>),
    /// `E *`: E any number of times, none among them.
    Star(Box<Strategy>),
    /// `E +`: E once or more.
    Plus(Box<Strategy>),
    /// `E !`: E as often as it has a result, so the results of `E *` on which E has none.
    Normal(Box<Strategy>),
    /// `E ; F`: E, and then F on each of its results.
    Then(Box<Strategy>, Box<Strategy>),
    /// `E | F`: the results of E, and then those of F.
    Or(Box<Strategy>, Box<Strategy>),
    /// `E or-else F`: E, or F where E has no result.
    OrElse(Box<Strategy>, Box<Strategy>),
    /// `E ? F : G`: F on each result of E, or G where E has no result.
    If(Box<Strategy>, Box<Strategy>, Box<Strategy>),
    /// `not(E)`: the term itself, where E has no result.
    Not(Box<Strategy>),
    /// `try(E)`: E, or the term itself where E has no result.
    Try(Box<Strategy>),
    /// `test(E)`: the term itself, where E has a result.
    TestOf(Box<Strategy>),
    /// `matchrew P s.t. C by X using E, ..`: where the pattern matches in the way of this kind and the condition holds, results of
    /// strategies on the values of variables stand in place of these.
    PartRewrite(TestKind, Bare, Seq<Fragment>, Vec<PartUse>),
    /// `l{E, ..}` or `l[X <- t, ..]{E, ..}`: one use of a rule with this label and as many rewriting fragments as strategies, which are
    /// solved by these in their order.
    LabelBy(Text, Seq<Assign>, Vec<Strategy>),
}

impl Model for Strategy {
    ghost use Rattle.std.specs.Coded.{codes};
    ghost use Rattle.mau_program.specs.Trees.{StrategyOf};
    ghost use Rattle.mau_program.specs.Depth.{depth};

    ghost Value = { StrategyOf };

    ghost use Rattle.mau_terms.specs.Code.{tree_code};
    ghost use Rattle.mau_program.specs.Code.{strategy_code};

    ghost coded = { strategy_code (Prim.hlevel (codes, tree_code)) };

    ghost use Rattle.mau_program.specs.Strategies.{strategy_of};

    ghost view = { λ s. strategy_of s.form };

    ghost size = { depth };

    ghost use Rattle.mau_program.specs.Falls.{deep_le-depth};

    ghost size_decreases = { λ s h. deep_le-depth s.form };
}

impl Assign {
    /// An equal assignment.
    pub fn copy(&self, alloc: Global) -> Result<Assign, NoMemory>
        ensures { IfOk result (λ copy. copy ≡ self.now) }
    {
        Ok(Assign {
            name: self.name.copy(alloc)?,
            sort: self.sort,
            value: self.value.copy(alloc)?,
        })
    }
}

impl Duplicate for Assign {
    fn copy(&self, alloc: Global) -> Result<Assign, NoMemory> {
        self.copy(alloc)
    }
}

impl Strategy {
    /// The strategy of this form.
    pub fn new(form: StrategyForm) -> Strategy
        ensures { result ≡ strategy_of form }
    {
        Strategy { form }
    }

    /// Its form.
    pub fn form(&self) -> &StrategyForm
        ensures { strategy_of result.now ≡ self.now }
    {
        &self.form
    }

    /// An equal strategy.
    #[cycle(copy)]
    pub fn copy(&self, alloc: Global) -> Result<Strategy, NoMemory>
        ensures { IfOk result (λ copy. copy ≡ self.now) }
    {
        let form = copy_form(alloc, &self.form)?;
        Ok(Strategy { form })
    }
}

/// An equal strategy in a box.
#[cycle(copy)]
fn copy_boxed(alloc: Global, strategy: &Box<Strategy>) -> Result<Box<Strategy>, NoMemory>
    ensures { IfOk result (λ copy. copy.value ≡ strategy.now.value) }
{
    let copy = strategy.copy(alloc)?;
    Ok(Box::new(alloc, copy)?)
}

/// Equal strategies.
#[cycle(copy)]
fn copy_all(alloc: Global, strategies: &[Strategy]) -> Result<Vec<Strategy>, NoMemory>
    ensures { IfOk result (λ copies. copies.items ≡ strategies.now) }
{
    let mut copies = Vec::with_capacity(alloc, strategies.len())?;
    for strategy in strategies {
        copies.push(strategy.copy(alloc)?)?;
    }
    Ok(copies)
}

/// Equal uses of parts.
#[cycle(copy)]
fn copy_uses(alloc: Global, uses: &[PartUse]) -> Result<Vec<PartUse>, NoMemory>
    ensures { IfOk result (λ copies. copies.items ≡ uses.now) }
{
    let mut copies = Vec::with_capacity(alloc, uses.len())?;
    for part in uses {
        let strategy = part.strategy.copy(alloc)?;
        copies.push(PartUse {
            var: part.var,
            strategy,
        })?;
    }
    Ok(copies)
}

/// A form of an equal strategy.
#[cycle(copy)]
fn copy_form(alloc: Global, form: &StrategyForm) -> Result<StrategyForm, NoMemory>
    ensures { IfOk result (λ copy. strategy_of copy ≡ strategy_of form.now) }
{
    match form {
        StrategyForm::Idle => Ok(StrategyForm::Idle),
        StrategyForm::Fail => Ok(StrategyForm::Fail),
        StrategyForm::All => Ok(StrategyForm::All),
        StrategyForm::Label(label, assigns) => Ok(StrategyForm::Label(
            label.copy(alloc)?,
            assigns.copy(alloc)?,
        )),
        StrategyForm::Top(s) => Ok(StrategyForm::Top(copy_boxed(alloc, s)?)),
        StrategyForm::Call(name, args) => Ok(StrategyForm::Call(
            name.copy(alloc)?,
            args.copy(alloc)?,
        )),
        StrategyForm::Test(kind, pattern, cond) => Ok(StrategyForm::Test(
            *kind,
            pattern.copy(alloc)?,
            cond.copy(alloc)?,
        )),
        StrategyForm::Star(s) => Ok(StrategyForm::Star(copy_boxed(alloc, s)?)),
        StrategyForm::Plus(s) => Ok(StrategyForm::Plus(copy_boxed(alloc, s)?)),
        StrategyForm::Normal(s) => Ok(StrategyForm::Normal(copy_boxed(alloc, s)?)),
        StrategyForm::Then(s, t) => Ok(StrategyForm::Then(
            copy_boxed(alloc, s)?,
            copy_boxed(alloc, t)?,
        )),
        StrategyForm::Or(s, t) => Ok(StrategyForm::Or(
            copy_boxed(alloc, s)?,
            copy_boxed(alloc, t)?,
        )),
        StrategyForm::OrElse(s, t) => Ok(StrategyForm::OrElse(
            copy_boxed(alloc, s)?,
            copy_boxed(alloc, t)?,
        )),
        StrategyForm::If(s, t, u) => Ok(StrategyForm::If(
            copy_boxed(alloc, s)?,
            copy_boxed(alloc, t)?,
            copy_boxed(alloc, u)?,
        )),
        StrategyForm::Not(s) => Ok(StrategyForm::Not(copy_boxed(alloc, s)?)),
        StrategyForm::Try(s) => Ok(StrategyForm::Try(copy_boxed(alloc, s)?)),
        StrategyForm::TestOf(s) => Ok(StrategyForm::TestOf(copy_boxed(alloc, s)?)),
        StrategyForm::PartRewrite(kind, pattern, cond, uses) => Ok(StrategyForm::PartRewrite(
            *kind,
            pattern.copy(alloc)?,
            cond.copy(alloc)?,
            copy_uses(alloc, uses)?,
        )),
        StrategyForm::LabelBy(label, assigns, strategies) => Ok(StrategyForm::LabelBy(
            label.copy(alloc)?,
            assigns.copy(alloc)?,
            copy_all(alloc, strategies)?,
        )),
    }
}
