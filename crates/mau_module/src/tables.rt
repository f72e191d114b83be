//! The numbers that operators have in another module, and the statements and declared strategies of all parts in the numbers of a module.
ghost use Rattle.std.specs.Prelude.{◌≡◌, ◌<◌, ◌≤◌, ◌++◌, length, map, true, All, IfOk, OnOk};
ghost use Rattle.mau_poset.specs.declared.TheConstants.{MAX_SORTS};
ghost use Rattle.mau_declare.specs.Names.{has_name};
ghost use Rattle.mau_module.specs.Known.{AreKnown};
ghost use Rattle.mau_module.specs.Modules.{no_statements, and_more};
ghost use Rattle.mau_renumber.specs.Tables.{numbers_in};
ghost use Rattle.mau_renumber.specs.Carried.{equation_to, membership_to, rule_to};
ghost use Rattle.mau_renumber.specs.Strategies.{definition_to, strategy_declaration_to};
ghost use Rattle.mau_program.specs.declared.statements.Equation.{Equation as EquationOf};
ghost use Rattle.mau_program.specs.declared.statements.Membership.{Membership as MembershipOf};
ghost use Rattle.mau_program.specs.declared.statements.Rule.{Rule as RuleOf};
ghost use Rattle.mau_program.specs.declared.definitions.StratDef.{StratDef as StratDefOf};
ghost use Rattle.mau_statement.specs.declared.TheConstants.{MAX_VARIABLES};
ghost use Rattle.mau_module.specs.Made.{HaveFewVariables};
ghost use Rattle.mau_module.specs.Carried.{numbers_from, carried, carried_from};

use crate::library::Library;
use crate::module::Module;
use crate::numbering::number_table;
use crate::statements::Statements;
use mau_declare::Names;
use mau_program::{Equation, Membership, Rule, StratDecl, StratDef};
use mau_renumber::{Tables, operator_table};
use mau_signature::Signature;
use mau_terms::NoMemory;
use std::alloc::Global;

/// The numbers that the sorts, kinds and operators of a module have over a signature whose sorts have these names.
fn tables_from(
    alloc: Global,
    module: &Module,
    names: &Names,
    signature: &Signature,
) -> Result<Tables, NoMemory>
    requires few { length names.now ≤ MAX_SORTS }
    requires known { All (λ x. has_name names.now x ≡ true) «module».now.sorts }
    requires named { length names.now ≡ signature.now.hierarchy.sorts }
    ensures { IfOk result (λ tables. numbers_in tables ≡ numbers_from «module».now names.now signature.now) }
{
    let sorts = number_table(alloc, module, names, signature.poset())?;
    let operators = operator_table(alloc, &sorts, module.signature(), signature)?;
    Ok(Tables { sorts, operators })
}

/// Adds equations in these numbers.
fn add_equations(
    alloc: Global,
    tables: &Tables,
    equations: &[Equation],
    out: &mut Vec<Equation>,
) -> Result<(), NoMemory>
    requires { All (λ (e : EquationOf). length e.vars ≤ MAX_VARIABLES) equations.now }
    ensures { OnOk result (out.new.items ≡ out.old.items ++ map (equation_to (numbers_in tables.now)) equations.now) }
{
    for equation in equations {
        out.push(tables.equation(alloc, equation)?)?;
    }
    Ok(())
}

/// Adds memberships in these numbers.
fn add_memberships(
    alloc: Global,
    tables: &Tables,
    memberships: &[Membership],
    out: &mut Vec<Membership>,
) -> Result<(), NoMemory>
    requires { All (λ (m : MembershipOf). length m.vars ≤ MAX_VARIABLES) memberships.now }
    ensures { OnOk result (out.new.items ≡ out.old.items ++ map (membership_to (numbers_in tables.now)) memberships.now) }
{
    for membership in memberships {
        out.push(tables.membership(alloc, membership)?)?;
    }
    Ok(())
}

/// Adds rules in these numbers.
fn add_rules(
    alloc: Global,
    tables: &Tables,
    rules: &[Rule],
    out: &mut Vec<Rule>,
) -> Result<(), NoMemory>
    requires { All (λ (r : RuleOf). length r.vars ≤ MAX_VARIABLES) rules.now }
    ensures { OnOk result (out.new.items ≡ out.old.items ++ map (rule_to (numbers_in tables.now)) rules.now) }
{
    for rule in rules {
        out.push(tables.rule(alloc, rule)?)?;
    }
    Ok(())
}

/// Adds definitions of strategies in these numbers.
fn add_strategies(
    alloc: Global,
    tables: &Tables,
    strategies: &[StratDef],
    out: &mut Vec<StratDef>,
) -> Result<(), NoMemory>
    requires { All (λ (d : StratDefOf). length d.vars ≤ MAX_VARIABLES) strategies.now }
    ensures { OnOk result (out.new.items ≡ out.old.items ++ map (definition_to (numbers_in tables.now)) strategies.now) }
{
    for strategy in strategies {
        out.push(tables.definition(alloc, strategy)?)?;
    }
    Ok(())
}

/// Adds declared strategies in these numbers.
fn add_strats(
    alloc: Global,
    tables: &Tables,
    strats: &[StratDecl],
    out: &mut Vec<StratDecl>,
) -> Result<(), NoMemory>
    ensures { OnOk result (out.new.items ≡ out.old.items ++ map (strategy_declaration_to (numbers_in tables.now)) strats.now) }
{
    for strat in strats {
        out.push(tables.strategy_declaration(alloc, strat)?)?;
    }
    Ok(())
}

/// Adds the statements and declared strategies that a module itself has, in these numbers.
fn add_carried(
    alloc: Global,
    module: &Module,
    tables: &Tables,
    statements: &mut Statements,
) -> Result<(), NoMemory>
    requires { HaveFewVariables «module».now.own.statements }
    ensures { OnOk result (statements.new ≡ and_more statements.old (carried_from (numbers_in tables.now) «module».now.own.statements)) }
{
    add_equations(
        alloc,
        tables,
        module.own_equations(),
        &mut statements.equations,
    )?;
    add_memberships(
        alloc,
        tables,
        module.own_memberships(),
        &mut statements.memberships,
    )?;
    add_rules(alloc, tables, module.own_rules(), &mut statements.rules)?;
    add_strategies(
        alloc,
        tables,
        module.own_strategies(),
        &mut statements.strategies,
    )?;
    add_strats(alloc, tables, module.own_strats(), &mut statements.strats)?;
    Ok(())
}

/// Whether a module itself has no statement and declares no strategy.
fn has_none(module: &Module) -> bool
    ensures { result ≡ true → «module».now.own.statements ≡ no_statements }
{
    module.own_equations().is_empty()
        && module.own_memberships().is_empty()
        && module.own_rules().is_empty()
        && module.own_strategies().is_empty()
        && module.own_strats().is_empty()
}

/// The statements of some modules over a signature whose sorts have these names.
pub fn carried(
    alloc: Global,
    library: &Library,
    names: &Names,
    signature: &Signature,
    parts: &[usize],
) -> Result<Statements, NoMemory>
    requires few { length names.now ≤ MAX_SORTS }
    requires parts { All (λ p. p < length library.now) parts.now }
    requires known { AreKnown library.now names.now parts.now }
    requires named { length names.now ≡ signature.now.hierarchy.sorts }
    ensures { IfOk result (λ statements. statements ≡ carried library.now names.now signature.now parts.now) }
{
    // What is known of every library is needed below, and this call tells it.
    let _modules = library.len();
    let mut statements = Statements::new(alloc);
    for part in parts {
        let module = library.module(*part);
        if !has_none(module) {
            let tables = tables_from(alloc, module, names, signature)?;
            add_carried(alloc, module, &tables, &mut statements)?;
        }
    }
    Ok(statements)
}
