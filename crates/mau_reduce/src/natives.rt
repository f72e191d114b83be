//! Native operators by name.
ghost use Rattle.std.specs.Prelude.{◌≡◌, List};
ghost use Rattle.std.specs.Option.{option_map};
ghost use Rattle.mau_formula.specs.Operator.{Operator, operator_named};
ghost use Rattle.mau_formula.specs.Operators.{operators};
ghost use Rattle.mau_reduce.specs.Answered.{answered_by};

use mau_formula::{Gives, HookAnswer, HookTable};

/// What a native operator answers, and what its answers stand for.
#[derive(Clone, Copy, Debug, PartialEq, Eq)]
pub struct Answered {
    pub gives: Gives,
    pub answer: HookAnswer,
}

/// Native operators by their names. A type that holds a table of stored closures has no model and stands in no cycle of functions;
/// what evaluates knows native operators by this trait alone.
pub trait Natives {
    ghost operators: { Self → List Operator };

    /// What the operator of this name answers for two numbers. None exactly where there is none.
    fn answer(&self, name: &str, a: u128, b: u128) -> Option<Answered>
        ensures { result ≡ option_map (answered_by a b) (operator_named (operators self.now) name.now) };
}

/// The native operators of a table.
#[derive(Clone, Copy)]
pub struct Hooks<'a> {
    table: &'a HookTable,
}

impl<'a> Hooks<'a> {
    pub fn new(table: &'a HookTable) -> Hooks<'a>
        ensures { operators result.table.now ≡ operators table.now }
    {
        Hooks { table }
    }
}

impl<'a> Natives for Hooks<'a> {
    ghost use Rattle.mau_formula.specs.Operators.{operators};

    ghost operators = { λ h. operators h.table.now };

    fn answer(&self, name: &str, a: u128, b: u128) -> Option<Answered> {
        match self.table.find(name) {
            Some(hook) => Some(Answered {
                gives: hook.gives(),
                answer: hook.call(a, b),
            }),
            None => None,
        }
    }
}
