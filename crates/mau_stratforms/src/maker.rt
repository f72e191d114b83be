//! Strategies by numbers, part after part.
ghost use Rattle.std.specs.Prelude.{◌≡◌, ℕ, ◌<◌, length, All, IfOk};
ghost use Rattle.mau_evaluation.specs.Strategy.{Strategy as Meant, branch};
ghost use Rattle.mau_strat.specs.Forms.{AreBelow, LeafIn, IsLeaf, parts, strategy_at, strategy_over};
ghost use Rattle.mau_stratforms.specs.Meanings.{meaning_of, meant};
ghost use Rattle.mau_stratforms.specs.Made.{AreFormsOf, Goes, IsMade};
ghost use Rattle.mau_stratforms.specs.Parts.{AreMade, form_one, form_two, over_one, over_two};

use crate::table::LeafTable;
use mau_program::{Program, StratDef, Strategy, StrategyForm};
use mau_strat::{Form, Forms, StrategyId};
use mau_terms::NoMemory;
use std::alloc::Global;

/// A form with one strategy in it.
#[derive(Clone, Copy)]
enum One {
    Top,
    Star,
    Plus,
    Normal,
    Not,
    Try,
    TestOf,
}

/// A form with two strategies in it.
#[derive(Clone, Copy)]
enum Two {
    Then,
    Or,
    OrElse,
}

/// Strategies by numbers, with their leaves.
#[derive(Drop)]
pub struct StratForms {
    pub forms: Forms,
    pub leaves: LeafTable,
}

/// The strategies of a program, and one more, by numbers: their forms, the leaves of these, the numbers of the bodies of the program's
/// definitions, in order, and that of the strategy.
#[derive(Drop)]
pub struct ProgramForms {
    pub forms: Forms,
    pub leaves: LeafTable,
    pub bodies: Vec<StrategyId>,
    pub strategy: StrategyId,
}

/// The form with this one in it.
fn with_one(one: One, e: StrategyId) -> Form
    ensures { result ≡ form_one one e }
{
    match one {
        One::Top => Form::Top(e),
        One::Star => Form::Star(e),
        One::Plus => Form::Plus(e),
        One::Normal => Form::Normal(e),
        One::Not => Form::Not(e),
        One::Try => Form::Try(e),
        One::TestOf => Form::TestOf(e),
    }
}

/// The form with these two in it.
fn with_two(two: Two, e: StrategyId, f: StrategyId) -> Form
    ensures { result ≡ form_two two e f }
{
    match two {
        Two::Then => Form::Then(e, f),
        Two::Or => Form::Or(e, f),
        Two::OrElse => Form::OrElse(e, f),
    }
}

impl StratForms {
    /// None.
    pub fn new(alloc: Global) -> StratForms
        ensures { All (LeafIn (length (meant result.leaves))) result.forms }
    {
        StratForms {
            forms: Forms::new(alloc),
            leaves: LeafTable::new(alloc),
        }
    }

    /// The number of the strategy with this form, whose parts and leaf have numbers.
    fn put(&mut self, form: Form) -> Result<StrategyId, NoMemory>
        requires parts { AreBelow (length self.old.forms) (parts form) }
        requires leaf { LeafIn (length (meant self.old.leaves)) form }
        requires leaves { All (LeafIn (length (meant self.old.leaves))) self.old.forms }
        ensures id { IfOk result (λ id. id.0 < length self.new.forms) }
        ensures strategy { (leaf : ℕ → Meant) → IfOk result (λ id. strategy_at leaf self.new.forms id.0 ≡
            strategy_over leaf (strategy_at leaf self.old.forms) form) }
        ensures goes { Goes self.old.forms (meant self.old.leaves) self.new.forms (meant self.new.leaves) }
        ensures same { self.new.leaves ≡ self.old.leaves }
    {
        self.forms.add(form)
    }

    /// The number of a leaf as a strategy.
    fn put_leaf(&mut self, alloc: Global, leaf: &Strategy) -> Result<StrategyId, NoMemory>
        requires leaf { IsLeaf (meaning_of leaf.now) }
        requires leaves { All (LeafIn (length (meant self.old.leaves))) self.old.forms }
        ensures made { IfOk result (λ id. IsMade self.new.forms (meant self.new.leaves) (meaning_of leaf.now) id.0) }
        ensures goes { Goes self.old.forms (meant self.old.leaves) self.new.forms (meant self.new.leaves) }
    {
        let _ = self.forms.len();
        let id = match self.leaves.add(alloc, leaf) {
            Ok(id) => id,
            Err(_) => return Err(NoMemory),
        };
        self.put(Form::Leaf(id))
    }

    /// The number of a strategy, whose parts are added first. It recurses as deep as the strategy is.
    #[cycle(add)]
    pub fn add(&mut self, alloc: Global, strategy: &Strategy) -> Result<StrategyId, NoMemory>
        requires { All (LeafIn (length (meant self.old.leaves))) self.old.forms }
        ensures made { IfOk result (λ id. IsMade self.new.forms (meant self.new.leaves) (meaning_of strategy.now) id.0) }
        ensures goes { Goes self.old.forms (meant self.old.leaves) self.new.forms (meant self.new.leaves) }
    {
        match strategy.form() {
            StrategyForm::Idle => self.put(Form::Idle),
            StrategyForm::Fail => self.put(Form::Fail),
            StrategyForm::All => self.put(Form::All),
            StrategyForm::Label(_, _) => self.put_leaf(alloc, strategy),
            StrategyForm::Top(e) => self.add_one(alloc, One::Top, e),
            StrategyForm::Call(_, _) => self.put_leaf(alloc, strategy),
            StrategyForm::Test(_, _, _) => self.put_leaf(alloc, strategy),
            StrategyForm::Star(e) => self.add_one(alloc, One::Star, e),
            StrategyForm::Plus(e) => self.add_one(alloc, One::Plus, e),
            StrategyForm::Normal(e) => self.add_one(alloc, One::Normal, e),
            StrategyForm::Then(e, f) => self.add_two(alloc, Two::Then, e, f),
            StrategyForm::Or(e, f) => self.add_two(alloc, Two::Or, e, f),
            StrategyForm::OrElse(e, f) => self.add_two(alloc, Two::OrElse, e, f),
            StrategyForm::If(e, f, g) => self.add_branch(alloc, e, f, g),
            StrategyForm::Not(e) => self.add_one(alloc, One::Not, e),
            StrategyForm::Try(e) => self.add_one(alloc, One::Try, e),
            StrategyForm::TestOf(e) => self.add_one(alloc, One::TestOf, e),
            StrategyForm::PartRewrite(_, _, _, _) => self.put_leaf(alloc, strategy),
            StrategyForm::LabelBy(_, _, _) => self.put_leaf(alloc, strategy),
        }
    }

    /// The number of a strategy with one in it.
    #[cycle(add)]
    fn add_one(&mut self, alloc: Global, one: One, e: &Strategy) -> Result<StrategyId, NoMemory>
        requires { All (LeafIn (length (meant self.old.leaves))) self.old.forms }
        ensures made { IfOk result (λ id. IsMade self.new.forms (meant self.new.leaves) (over_one one (meaning_of e.now)) id.0) }
        ensures goes { Goes self.old.forms (meant self.old.leaves) self.new.forms (meant self.new.leaves) }
    {
        let first = match self.add(alloc, e) {
            Ok(first) => first,
            Err(_) => return Err(NoMemory),
        };
        self.put(with_one(one, first))
    }

    /// The number of a strategy with two in it.
    #[cycle(add)]
    fn add_two(
        &mut self,
        alloc: Global,
        two: Two,
        e: &Strategy,
        f: &Strategy,
    ) -> Result<StrategyId, NoMemory>
        requires { All (LeafIn (length (meant self.old.leaves))) self.old.forms }
        ensures made { IfOk result (λ id. IsMade self.new.forms (meant self.new.leaves) (over_two two (meaning_of e.now) (meaning_of f.now)) id.0) }
        ensures goes { Goes self.old.forms (meant self.old.leaves) self.new.forms (meant self.new.leaves) }
    {
        let first = match self.add(alloc, e) {
            Ok(first) => first,
            Err(_) => return Err(NoMemory),
        };
        let second = match self.add(alloc, f) {
            Ok(second) => second,
            Err(_) => return Err(NoMemory),
        };
        self.put(with_two(two, first, second))
    }

    /// The number of `E ? F : G`.
    #[cycle(add)]
    fn add_branch(
        &mut self,
        alloc: Global,
        e: &Strategy,
        f: &Strategy,
        g: &Strategy,
    ) -> Result<StrategyId, NoMemory>
        requires { All (LeafIn (length (meant self.old.leaves))) self.old.forms }
        ensures made { IfOk result (λ id. IsMade self.new.forms (meant self.new.leaves)
            (branch (meaning_of e.now) (meaning_of f.now) (meaning_of g.now)) id.0) }
        ensures goes { Goes self.old.forms (meant self.old.leaves) self.new.forms (meant self.new.leaves) }
    {
        let first = match self.add(alloc, e) {
            Ok(first) => first,
            Err(_) => return Err(NoMemory),
        };
        let second = match self.add(alloc, f) {
            Ok(second) => second,
            Err(_) => return Err(NoMemory),
        };
        let third = match self.add(alloc, g) {
            Ok(third) => third,
            Err(_) => return Err(NoMemory),
        };
        self.put(Form::If(first, second, third))
    }

    /// The numbers of the bodies of definitions, in order.
    fn add_bodies(
        &mut self,
        alloc: Global,
        definitions: &[StratDef],
    ) -> Result<Vec<StrategyId>, NoMemory>
        requires { All (LeafIn (length (meant self.old.leaves))) self.old.forms }
        ensures count { IfOk result (λ ids. length ids.items ≡ length definitions.now) }
        ensures made { IfOk result (λ ids. AreMade self.new.forms (meant self.new.leaves) definitions.now ids.items) }
        ensures goes { Goes self.old.forms (meant self.old.leaves) self.new.forms (meant self.new.leaves) }
    {
        let _ = self.forms.len();
        let mut bodies = Vec::new(alloc);
        for definition in definitions {
            let body = match self.add(alloc, &definition.body) {
                Ok(body) => body,
                Err(_) => return Err(NoMemory),
            };
            if bodies.push(body).is_err() {
                return Err(NoMemory);
            }
        }
        Ok(bodies)
    }
}

/// A strategy and the bodies of a program's definitions by numbers, with one number for equal leaves.
pub fn forms_of(
    alloc: Global,
    program: &Program,
    strategy: &Strategy,
) -> Result<ProgramForms, NoMemory>
    ensures { IfOk result (λ p. AreFormsOf program.now.strategies strategy.now p.forms (meant p.leaves) p.bodies.items p.strategy.0) }
{
    let mut made = StratForms::new(alloc);
    let bodies = made.add_bodies(alloc, program.strategies.items())?;
    let strategy = made.add(alloc, strategy)?;
    let _ = made.leaves.len();
    Ok(ProgramForms {
        forms: made.forms,
        leaves: made.leaves,
        bodies,
        strategy,
    })
}
