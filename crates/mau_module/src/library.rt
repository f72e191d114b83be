//! The library of a session: the modules that were accepted.
ghost use Rattle.std.specs.Prelude.{◌≡◌, ◌<◌, length, bytes_eq, IfSome};
ghost use Rattle.mau_module.specs.Library.{last_named};

use crate::module::Module;
use mau_terms::NoMemory;
use std::alloc::Global;
use std::marker::Model;

/// The number of the prelude's module of the sort of truth values.
pub const TRUTH_VALUE: usize = 0;

/// The number of the prelude's module of the operators on truth values.
pub const TRUTH: usize = 1;

/// The number of the prelude's module of truth values, which each module of a text includes.
pub const BOOL: usize = 2;

/// The number of the prelude's module of numbers.
pub const NAT: usize = 3;

/// All modules that were accepted, in order and counted from 0. The first four are those of the prelude. A module keeps its number, also
/// where its name is given to another one.
#[derive(Drop)]
pub struct Library {
    modules: Vec<Module>,
}

impl Model for Library {
    ghost use Rattle.std.specs.Prelude.{List};
    ghost use Rattle.std.specs.Coded.{codes};
    ghost use Rattle.mau_program.specs.contracts.statements.Equation as equation;
    ghost use Rattle.mau_program.specs.contracts.statements.Membership as membership;
    ghost use Rattle.mau_program.specs.contracts.statements.Rule as rule;
    ghost use Rattle.mau_program.specs.contracts.definitions.StratDef as definition;
    ghost use Rattle.mau_program.specs.contracts.definitions.StratDecl as strat;
    ghost use Rattle.mau_module.specs.Modules.{ModuleOf};
    ghost use Rattle.mau_module.specs.Libraries.{IsLibrary};

    ghost Value = { List ModuleOf };

    ghost coded = { Prim.hlevel (codes, equation.the_row.coded, membership.the_row.coded, rule.the_row.coded, definition.the_row.coded, strat.the_row.coded) };

    ghost view = { λ l. l.modules.items };

    ghost invariant = { λ l. IsLibrary l.modules.items };
}

/// Whether the module has this name.
fn has_name(module: &Module, name: &str) -> bool
    ensures { result ≡ bytes_eq «module».now.name name.now }
{
    module.name() == name
}

/// The number of the last module of a name, if there is one.
fn last_named(modules: &[Module], name: &str) -> Option<usize>
    ensures number { result ≡ last_named modules.now name.now }
    ensures within { IfSome result (λ i. i < length modules.now) }
{
    let mut last = None;
    for i in 0..modules.len() {
        if has_name(&modules[i], name) {
            last = Some(i);
        }
    }
    last
}

impl Library {
    ghost use Rattle.std.specs.Prelude.{◌≡◌, ◌<◌, ◌∷◌, ◌++◌, [], length, All, Some, IfSome, OnOk, OnErr, slice_get};
    ghost use Rattle.mau_module.specs.Library.{last_named};
    ghost use Rattle.mau_module.specs.Libraries.{IsLibrary, IsNext, IsLawfulAt, AreLawfulModules};
    ghost use Rattle.mau_program.specs.LawfulPrograms.{IsLawfulProgram};
    ghost use Rattle.mau_module.specs.Lawful.{program_of};

    /// No modules, not even those of the prelude.
    pub(crate) fn new(alloc: Global) -> Library
        ensures { result ≡ [] }
    {
        Library {
            modules: Vec::new(alloc),
        }
    }

    /// How many modules there are.
    pub fn len(&self) -> usize
        ensures count { result ≡ length self.now }
        ensures library { IsLibrary self.now }
    {
        self.modules.len()
    }

    /// The number of the last module of a name, if there is one.
    pub fn find(&self, name: &str) -> Option<usize>
        ensures number { result ≡ last_named self.now name.now }
        ensures within { IfSome result (λ i. i < length self.now) }
        ensures lawful { IfSome result (IsLawfulAt self.now) }
    {
        last_named(&self.modules, name)
    }

    /// The module with a number.
    pub fn module(&self, number: usize) -> &Module
        requires { number < length self.now }
        ensures there { slice_get self.now number ≡ Some result.now }
        ensures parts { All (λ p. p < length self.now) result.now.parts }
        ensures lawful { IsLawfulProgram (program_of result.now) }
    {
        &self.modules[number]
    }

    /// Adds a module, which then has the next number. Out of memory, the library stays as it was.
    pub fn enter(&mut self, module: Module) -> Result<(), NoMemory>
        requires { IsNext self.old «module» }
        ensures ok { OnOk result (self.new ≡ self.old ++ «module» ∷ []) }
        ensures lawful { OnOk result (AreLawfulModules self.new) }
        ensures err { OnErr result (self.new ≡ self.old) }
    {
        self.modules.push(module)?;
        Ok(())
    }
}
