//! Native operators by name.
ghost use Rattle.std.specs.Prelude.{◌≡◌, ◌⊎◌, ◌++◌, ◌∷◌, [], IsNone, IsSome, IfErr, OnOk, OnErr, option_map};

use crate::Hook;
use std::alloc::Global;

/// Native operators, no two of one name.
#[derive(Drop)]
pub struct HookTable {
    hooks: Vec<Hook>,
}

/// Why a hook was not added. It is handed back.
#[derive(Drop)]
pub enum HookFault {
    /// A hook of its name is there.
    Duplicate(Hook),
    NoMemory(Hook),
}

impl HookTable {
    ghost use Rattle.mau_formula.specs.Operator.{operator_named};
    ghost use Rattle.mau_formula.specs.Operators.{operators, operator_of};

    /// No native operators.
    pub fn new(alloc: Global) -> HookTable
        ensures { operators result ≡ [] }
    {
        HookTable {
            hooks: Vec::new(alloc),
        }
    }

    /// Adds a native operator. `Duplicate` exactly where its name is there; the table then stays as it was, also out of
    /// memory, and the hook is handed back.
    pub fn add(&mut self, hook: Hook) -> Result<(), HookFault>
        ensures ok { OnOk result (operators self.new ≡ operators self.old ++ operator_of hook ∷ []) }
        ensures not_there { OnOk result (IsNone (operator_named (operators self.old) (operator_of hook).name)) }
        ensures duplicate { IfErr result (λ fault. (fault ≡ HookFault.Duplicate hook) × IsSome (operator_named (operators self.old) (operator_of hook).name)
            ⊎ (fault ≡ HookFault.NoMemory hook) × IsNone (operator_named (operators self.old) (operator_of hook).name)) }
        ensures unchanged { OnErr result (operators self.new ≡ operators self.old) }
    {
        if let Some(_) = self.find(hook.name()) {
            return Err(HookFault::Duplicate(hook));
        }
        match self.hooks.push(hook) {
            Ok(()) => Ok(()),
            Err(failed) => Err(HookFault::NoMemory(failed.value)),
        }
    }

    /// The native operator of a name. None exactly where there is none.
    pub fn find(&self, name: &str) -> Option<&Hook>
        ensures { option_map (λ hook. operator_of hook.now) result ≡ operator_named (operators self.now) name.now }
    {
        for hook in &self.hooks {
            if hook.name() == name {
                return Some(hook);
            }
        }
        None
    }
}
