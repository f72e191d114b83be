//! Values of a rule's variables: `X <- t, ..`.
ghost use Rattle.std.specs.Prelude.{◌≡◌, ℕ, List, All, IfOk, IfErr, IfSome, Some, slice_get};
ghost use Rattle.mau_terms.specs.declared.bare.Bare.TheVariants as Term;
ghost use Rattle.mau_parse.specs.declared.goals.Goal.TheVariants.{AnyKind, Kind};
ghost use Rattle.mau_statement.specs.Parts.{IsBareOf};
ghost use Rattle.mau_shapes.specs.declared.pieces.Piece.TheVariants as Pieces;
ghost use Rattle.mau_strattext.specs.Reads.{IsTerm, IsUse, kind_in};
ghost use Rattle.mau_strattext.specs.Lawful.{IsTypedAssign};
ghost use Rattle.mau_strattext.specs.Strategies.{IfTold};
ghost use Rattle.mau_strattext.specs.Terms.{IsTermFault, UseFault};
ghost use Rattle.mau_strattext.specs.Building.{FirstUse, UsesAnswer};

use crate::fault::StratFault;
use crate::setting::Setting;
use crate::term::{read_part, read_variable};
use mau_parse::Goal;
use mau_program::Assign;
use mau_shapes::{Part, Piece};
use mau_terms::{NoMemory, Seq, Text, VarId, Vars};
use std::alloc::Global;

/// The name and the sort of a variable.
fn name_of(alloc: Global, vars: &Vars, variable: VarId) -> Result<(Text, u32), NoMemory>
    ensures named { IfOk result (λ p. slice_get vars.now variable.index ≡ Some p) }
    ensures sort { IfOk result (λ p. p.1 ≡ variable.sort) }
{
    match vars.get(variable) {
        Some((name, sort)) => Ok((Text::new(alloc, name)?, sort)),
        None => Err(NoMemory),
    }
}

/// X <- t, where X is a variable that was read.
fn read_value(
    alloc: Global,
    setting: &Setting,
    vars: &mut Vars,
    variable: VarId,
    part: Part,
) -> Result<Assign, StratFault>
    requires { IsBareOf setting.now.context AnyKind (Term.Var variable) }
    ensures named { IfOk result (λ a. slice_get vars.old variable.index ≡ Some (a.name, a.sort)) }
    ensures value { IfOk result (λ a. IsTerm setting.now part (Kind (kind_in setting.now a.sort)) vars.old vars.new a.value) }
    ensures typed { IfOk result (IsTypedAssign setting.now.context.signature) }
    ensures fault { IfErr result (IfTold (λ f. (x : List ℕ × ℕ) × (slice_get vars.old variable.index ≡ Some x) × IsTermFault setting.now part (Kind (kind_in setting.now x.1)) vars.old f)) }
{
    let (name, sort) = name_of(alloc, vars, variable)?;
    let kind = Goal::Kind(setting.kind_of(sort));
    match read_part(alloc, setting, vars, kind, part) {
        Ok(value) => Ok(Assign { name, sort, value }),
        Err(fault) => Err(fault),
    }
}

/// X <- t.
fn read_use(
    alloc: Global,
    setting: &Setting,
    vars: &mut Vars,
    name: Part,
    value: Part,
) -> Result<Assign, StratFault>
    ensures reads { IfOk result (IsUse setting.now name value vars.old vars.new) }
    ensures typed { IfOk result (IsTypedAssign setting.now.context.signature) }
    ensures fault { IfErr result (IfTold (UseFault setting.now name value vars.old)) }
{
    match read_variable(alloc, setting, vars, name) {
        Ok(variable) => read_value(alloc, setting, vars, variable, value),
        Err(fault) => Err(fault),
    }
}

/// The part of a variable.
fn variable(piece: Piece) -> Option<Part>
    ensures { IfSome result (λ p. piece ≡ Pieces.Variable p) }
{
    match piece {
        Piece::Variable(part) => Some(part),
        _ => None,
    }
}

/// The part of its value.
fn value(piece: Piece) -> Option<Part>
    ensures { IfSome result (λ p. piece ≡ Pieces.Value p) }
{
    match piece {
        Piece::Value(part) => Some(part),
        _ => None,
    }
}

/// The value of the variable of a part, where these pieces stand behind it; nothing, where it is missing.
fn read_behind(
    alloc: Global,
    setting: &Setting,
    vars: &mut Vars,
    name: Part,
    behind: &[Piece],
) -> Result<Option<Assign>, StratFault>
    ensures answer { FirstUse setting.now (Pieces.Variable name) behind.now vars.old vars.new result }
    ensures typed { IfOk result (λ o. IfSome o (IsTypedAssign setting.now.context.signature)) }
{
    match behind.split_first() {
        Some((second, _)) => match value(*second) {
            Some(part) => match read_use(alloc, setting, vars, name, part) {
                Ok(read) => Ok(Some(read)),
                Err(fault) => Err(fault),
            },
            None => Err(StratFault::NoMemory),
        },
        None => match read_variable(alloc, setting, vars, name) {
            Ok(_) => Ok(None),
            Err(fault) => Err(fault),
        },
    }
}

/// The first of some values, which begins with this piece; nothing, where the value is missing.
fn read_first(
    alloc: Global,
    setting: &Setting,
    vars: &mut Vars,
    first: Piece,
    behind: &[Piece],
) -> Result<Option<Assign>, StratFault>
    ensures answer { FirstUse setting.now first behind.now vars.old vars.new result }
    ensures typed { IfOk result (λ o. IfSome o (IsTypedAssign setting.now.context.signature)) }
{
    match variable(first) {
        Some(name) => read_behind(alloc, setting, vars, name, behind),
        None => Err(StratFault::NoMemory),
    }
}

/// `X <- t, ..`; nothing, where the last value is missing.
pub fn read_uses(
    alloc: Global,
    setting: &Setting,
    vars: &mut Vars,
    pieces: &[Piece],
) -> Result<Option<Seq<Assign>>, StratFault>
    ensures answer { UsesAnswer setting.now pieces.now vars.old vars.new result }
    ensures typed { IfOk result (λ o. IfSome o (All (IsTypedAssign setting.now.context.signature))) }
{
    let mut uses = Vec::new(alloc);
    let mut rest = pieces;
    while let Some((first, behind)) = rest.split_first() {
        match read_first(alloc, setting, vars, *first, behind) {
            Ok(Some(read)) => {
                uses.push(read)?;
                rest = &behind[1..];
            }
            Ok(None) => return Ok(None),
            Err(fault) => return Err(fault),
        }
    }
    Ok(Some(Seq::new(uses)))
}
