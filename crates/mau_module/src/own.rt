//! The statements of a module: those of its parts, judged by its own operators and axioms, and those that it states itself.
ghost use Rattle.std.specs.Prelude.{◌≡◌, ◌≢◌, ◌<◌, ◌≤◌, length, All, true, false, Ok, Err, IfOk, IfErr, OnOk, IsTrue, ◌↔◌};
ghost use Rattle.std.specs.Option.{option_copied};
ghost use Rattle.mau_modtext.specs.Statements.{is_definition};
ghost use Rattle.mau_modtext.specs.declared.raw.StatementKind.TheVariants as Kind;
ghost use Rattle.mau_strattext.specs.Setting.{HasSorts as AreSorts};
ghost use Rattle.mau_definition.specs.Definitions.{around};
ghost use Rattle.mau_definition.specs.Faults.{IfFault};
ghost use Rattle.mau_module.specs.Stated.{IsLeftSide, IsHead, AreLawful, HasCarriedFault, StatedRead, OwnRead, statement_in, only_strats};
ghost use Rattle.mau_module.specs.Faults.{IfOwn, IfStated};
ghost use Rattle.mau_poset.specs.declared.TheConstants.{MAX_SORTS};
ghost use Rattle.mau_module.specs.Known.{AreKnown};
ghost use Rattle.mau_module.specs.Carried.{carried};
ghost use Rattle.mau_module.specs.Made.{AreLawfulOver, IsLawfulStated};

use crate::fault::ModuleFault;
use crate::library::Library;
use crate::statements::{Stated, Statements};
use crate::tables::carried;
use mau_declare::{Names, Words};
use mau_definition::{DefinitionFault, of_statement, read_definition};
use mau_modtext::{RawElement, RawStatement, StatementKind};
use mau_program::{Equation, Membership, StratDecl};
use mau_signature::{Signature, is_bare};
use mau_statement::{Context, StatementFault, is_head, is_left_side, read_statement};
use mau_terms::Text;
use std::alloc::Global;

/// Whether the left side of an equation is one.
fn has_left_side(signature: &Signature, equation: &Equation) -> bool
    ensures { IsTrue result ↔ IsLeftSide signature.now equation.now }
{
    is_bare(signature, &equation.left) && is_left_side(signature, &equation.left)
}

/// Whether the head of a membership is one.
fn has_head(signature: &Signature, membership: &Membership) -> bool
    ensures { IsTrue result ↔ IsHead signature.now membership.now }
{
    is_bare(signature, &membership.left) && is_head(signature, &membership.left)
}

/// Whether the left sides of all equations are such.
fn have_left_sides(signature: &Signature, equations: &[Equation]) -> bool
    ensures yes { result ≡ true → All (IsLeftSide signature.now) equations.now }
    ensures no { result ≡ false → ¬ All (IsLeftSide signature.now) equations.now }
{
    for equation in equations {
        if !has_left_side(signature, equation) {
            return false;
        }
    }
    true
}

/// Whether the heads of all memberships are such.
fn have_heads(signature: &Signature, memberships: &[Membership]) -> bool
    ensures yes { result ≡ true → All (IsHead signature.now) memberships.now }
    ensures no { result ≡ false → ¬ All (IsHead signature.now) memberships.now }
{
    for membership in memberships {
        if !has_head(signature, membership) {
            return false;
        }
    }
    true
}

/// Judges the statements of a module's parts.
pub fn judge_carried(signature: &Signature, statements: &Statements) -> Result<(), StatementFault>
    ensures lawful { OnOk result (AreLawful signature.now statements.now) }
    ensures at_fault { IfErr result (HasCarriedFault signature.now statements.now) }
{
    if !have_left_sides(signature, &statements.equations) {
        return Err(StatementFault::LhsVariable);
    }
    if !have_heads(signature, &statements.memberships) {
        return Err(StatementFault::MembershipHead);
    }
    Ok(())
}

/// The statements of a module's parts, over a signature whose sorts have these names. A fault has the number 0.
pub fn read_carried(
    alloc: Global,
    library: &Library,
    names: &Names,
    signature: &Signature,
    parts: &[usize],
) -> Result<Statements, ModuleFault>
    requires few { length names.now ≤ MAX_SORTS }
    requires parts { All (λ p. p < length library.now) parts.now }
    requires known { AreKnown library.now names.now parts.now }
    requires named { length names.now ≡ signature.now.hierarchy.sorts }
    ensures ok { IfOk result (λ a. a ≡ carried library.now names.now signature.now parts.now) }
    ensures lawful { IfOk result (AreLawful signature.now) }
    ensures at_fault { IfErr result (IfOwn (λ i f. (i ≡ 0) × HasCarriedFault signature.now (carried library.now names.now signature.now parts.now) f)) }
{
    let statements = carried(alloc, library, names, signature, parts)?;
    match judge_carried(signature, &statements) {
        Ok(()) => Ok(statements),
        Err(fault) => Err(ModuleFault::of_statement(0, fault)),
    }
}

/// The statement that an element is.
fn statement_in(element: &RawElement) -> Option<&RawStatement>
    ensures { option_copied result ≡ statement_in element.now }
{
    match element {
        RawElement::Statement(raw) => Some(raw),
        _ => None,
    }
}

/// Whether a statement defines a strategy.
fn is_definition(raw: &RawStatement) -> bool
    ensures value { result ≡ is_definition raw.now.kind }
    ensures no { result ≡ false → raw.now.kind ≢ Kind.Definition }
{
    match raw.kind {
        StatementKind::Definition => true,
        _ => false,
    }
}

/// What a statement of a module says, where rules have these labels and these strategies are declared.
fn read_stated(
    alloc: Global,
    words: &Words,
    context: &Context,
    labels: &[Text],
    names: &[StratDecl],
    raw: &RawStatement,
) -> Result<Stated, DefinitionFault>
    requires sorts { All (AreSorts context.now.signature.hierarchy) names.now }
    ensures read { IfOk result (λ x. StatedRead (around words.now context.now labels.now names.now) raw.now (Ok x)) }
    ensures lawful { IfOk result (IsLawfulStated context.now.signature) }
    ensures fault { IfErr result (IfFault (λ f. StatedRead (around words.now context.now labels.now names.now) raw.now (Err f))) }
{
    if is_definition(raw) {
        return match read_definition(alloc, words, context, labels, names, raw) {
            Ok(definition) => Ok(Stated::Definition(definition)),
            Err(fault) => Err(fault),
        };
    }
    match read_statement(alloc, words, context, raw) {
        Ok(statement) => Ok(Stated::Statement(statement)),
        Err(fault) => Err(of_statement(fault)),
    }
}

/// Reads the statements of a module itself, which declares these strategies. A fault has the number of the statement, counted from 1.
pub fn read_own(
    alloc: Global,
    words: &Words,
    context: &Context,
    labels: &[Text],
    names: &[StratDecl],
    strats: Vec<StratDecl>,
    elements: &[RawElement],
) -> Result<Statements, ModuleFault>
    requires sorts { All (AreSorts context.now.signature.hierarchy) names.now }
    ensures ok { IfOk result (λ own. OwnRead (around words.now context.now labels.now names.now) (only_strats strats.items) 1 elements.now (Ok own)) }
    ensures lawful { IfOk result (AreLawfulOver context.now.signature) }
    ensures at_fault { IfErr result (IfStated (λ i f. OwnRead (around words.now context.now labels.now names.now) (only_strats strats.items) 1 elements.now (Err (i, f)))) }
{
    let mut own = Statements::of_strats(alloc, strats);
    let _count = elements.len();
    let mut before = 0;
    for element in elements {
        match statement_in(element) {
            Some(raw) => match read_stated(alloc, words, context, labels, names, raw) {
                Ok(statement) => {
                    own.add(statement)?;
                    before += 1;
                }
                Err(fault) => return Err(ModuleFault::of_stated(before + 1, fault)),
            },
            None => (),
        }
    }
    Ok(own)
}
