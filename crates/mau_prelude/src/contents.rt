//! The tables.
ghost use Rattle.std.specs.Prelude.{◌≡◌, IfOk};
ghost use Rattle.mau_prelude.specs.Tables.{table_of};

use crate::booleans::{boolean_variables, connectives, constants};
use crate::equations::boolean_equations;
use crate::numbers::number_declarations;
use crate::rows::{NAT, NZ_NAT, ZERO};
use crate::{PreludeModule, Table};
use mau_grammar::Alias;
use mau_program::Equation;
use mau_signature::Decl;
use mau_terms::{NoMemory, Text};
use std::alloc::Global;

fn name(module: PreludeModule) -> &'static str
    ensures { result.now ≡ (table_of «module»).name }
{
    match module {
        PreludeModule::TruthValue => "TRUTH-VALUE",
        PreludeModule::Truth => "TRUTH",
        PreludeModule::Bool => "BOOL",
        PreludeModule::Nat => "NAT",
    }
}

fn sorts(alloc: Global, module: PreludeModule) -> Result<Vec<Text>, NoMemory>
    ensures { IfOk result (λ sorts. sorts.items ≡ (table_of «module»).sorts) }
{
    match module {
        PreludeModule::TruthValue => Ok(vec![in alloc; Text::new(alloc, "Bool")?]?),
        PreludeModule::Nat => {
            let zero = Text::new(alloc, "Zero")?;
            let positive = Text::new(alloc, "NzNat")?;
            let natural = Text::new(alloc, "Nat")?;
            Ok(vec![in alloc; zero, positive, natural]?)
        }
        _ => Ok(Vec::new(alloc)),
    }
}

fn pairs(alloc: Global, module: PreludeModule) -> Result<Vec<(u32, u32)>, NoMemory>
    ensures { IfOk result (λ pairs. pairs.items ≡ (table_of «module»).pairs) }
{
    match module {
        PreludeModule::Nat => Ok(vec![in alloc; (ZERO, NAT), (NZ_NAT, NAT)]?),
        _ => Ok(Vec::new(alloc)),
    }
}

fn declarations(alloc: Global, module: PreludeModule) -> Result<Vec<Decl>, NoMemory>
    ensures { IfOk result (λ rows. rows.items ≡ (table_of «module»).declarations) }
{
    match module {
        PreludeModule::TruthValue => constants(alloc),
        PreludeModule::Truth => Ok(Vec::new(alloc)),
        PreludeModule::Bool => connectives(alloc),
        PreludeModule::Nat => number_declarations(alloc),
    }
}

fn variables(alloc: Global, module: PreludeModule) -> Result<Vec<Alias>, NoMemory>
    ensures { IfOk result (λ rows. rows.items ≡ (table_of «module»).variables) }
{
    match module {
        PreludeModule::Bool => boolean_variables(alloc),
        _ => Ok(Vec::new(alloc)),
    }
}

fn equations(alloc: Global, module: PreludeModule) -> Result<Vec<Equation>, NoMemory>
    ensures { IfOk result (λ rows. rows.items ≡ (table_of «module»).equations) }
{
    match module {
        PreludeModule::Bool => boolean_equations(alloc),
        _ => Ok(Vec::new(alloc)),
    }
}

/// The table of a module of the prelude.
pub fn table(alloc: Global, module: PreludeModule) -> Result<Table, NoMemory>
    ensures name { IfOk result (λ t. t.name ≡ (table_of «module»).name) }
    ensures sorts { IfOk result (λ t. t.sorts.items ≡ (table_of «module»).sorts) }
    ensures pairs { IfOk result (λ t. t.pairs.items ≡ (table_of «module»).pairs) }
    ensures declarations { IfOk result (λ t. t.declarations.items ≡ (table_of «module»).declarations) }
    ensures variables { IfOk result (λ t. t.variables.items ≡ (table_of «module»).variables) }
    ensures equations { IfOk result (λ t. t.equations.items ≡ (table_of «module»).equations) }
{
    Ok(Table {
        name: Text::new(alloc, name(module))?,
        sorts: sorts(alloc, module)?,
        pairs: pairs(alloc, module)?,
        declarations: declarations(alloc, module)?,
        variables: variables(alloc, module)?,
        equations: equations(alloc, module)?,
    })
}
