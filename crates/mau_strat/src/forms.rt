//! Strategies as numbers.
ghost use Rattle.std.specs.Prelude.{◌≡◌, ◌⊎◌, ◌∷◌, ◌++◌, ◌<◌, ◌↔◌, [], length, slice_get, Some, IsTrue, IfOk, OnErr};
ghost use Rattle.mau_strat.specs.Forms.{AreBelow, AreForms, parts};

use crate::configs::StrategyId;
use crate::numbered::Numbered;
use mau_terms::NoMemory;
use std::alloc::Global;
use std::marker::Model;

/// The number of a label, a call, a test, or a form with strategies inside parts or fragments.
#[derive(Clone, Copy, PartialEq, Eq, Hash, Debug)]
pub struct LeafId(pub usize);

/// A strategy by the numbers of its parts.
#[derive(Clone, Copy, PartialEq, Eq, Hash, Debug)]
pub enum Form {
    /// One that has no parts here.
    Leaf(LeafId),
    /// `idle`
    Idle,
    /// `fail`
    Fail,
    /// `all`
    All,
    /// `top(A)`
    Top(StrategyId),
    /// `E *`
    Star(StrategyId),
    /// `E +`
    Plus(StrategyId),
    /// `E !`
    Normal(StrategyId),
    /// `E ; F`
    Then(StrategyId, StrategyId),
    /// `E | F`
    Or(StrategyId, StrategyId),
    /// `E or-else F`
    OrElse(StrategyId, StrategyId),
    /// `E ? F : G`
    If(StrategyId, StrategyId, StrategyId),
    /// `not(E)`
    Not(StrategyId),
    /// `try(E)`
    Try(StrategyId),
    /// `test(E)`
    TestOf(StrategyId),
}

/// Strategies by their numbers, seen as the list of their forms. None is taken out.
#[derive(Drop)]
pub struct Forms {
    forms: Numbered<Form>,
}

impl Model for Forms {
    ghost use Rattle.std.specs.Prelude.{List};
    ghost use Rattle.mau_strat.specs.declared.forms.Form.{Form};

    ghost Value = { List Form };

    ghost use Rattle.mau_strat.specs.Forms.{AreForms};

    ghost view = { λ f. f.forms };

    ghost invariant = { λ f. AreForms f.forms };
}

impl Forms {
    /// None.
    pub fn new(alloc: Global) -> Forms
        ensures { result ≡ [] }
    {
        Forms {
            forms: Numbered::new(alloc),
        }
    }

    /// How many there are.
    pub fn len(&self) -> usize
        ensures len { result ≡ length self.now }
        ensures forms { AreForms self.now }
    {
        self.forms.len()
    }

    /// Whether there is none.
    pub fn is_empty(&self) -> bool
        ensures { IsTrue result ↔ (length self.now ≡ 0) }
    {
        self.forms.len() == 0
    }

    /// The number of the strategy with this form, whose parts have numbers. One that is there keeps its number; another goes last. Out of
    /// memory, all stay as they were.
    pub fn add(&mut self, form: Form) -> Result<StrategyId, NoMemory>
        requires { AreBelow (length self.old) (parts form) }
        ensures ok { IfOk result (λ id. slice_get self.new id.0 ≡ Some form) }
        ensures added { (self.new ≡ self.old) ⊎ (self.new ≡ self.old ++ form ∷ []) }
        ensures unchanged { OnErr result (self.new ≡ self.old) }
        ensures forms { AreForms self.new }
    {
        Ok(StrategyId(self.forms.add(form)?))
    }

    /// The form of a strategy.
    pub fn form(&self, id: StrategyId) -> Form
        requires { id.0 < length self.now }
        ensures form { slice_get self.now id.0 ≡ Some result }
        ensures older { AreBelow id.0 (parts result) }
        ensures forms { AreForms self.now }
    {
        self.forms.at(id.0)
    }
}
