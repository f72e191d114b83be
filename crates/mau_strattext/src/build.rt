//! Strategies piece by piece.
ghost use Rattle.std.specs.Prelude.{◌≡◌, ◌≤◌, [], false, take, drop, length, reverse, All, OnOk, IfOk, IfErr, IfSome, MatchOption};
ghost use Rattle.mau_strattext.specs.Setting.{HasSorts};
ghost use Rattle.mau_strattext.specs.Lawful.{AreTyped};
ghost use Rattle.mau_strattext.specs.Building.{NextAnswer, Builds};
ghost use Rattle.mau_strattext.specs.Strategies.{IfTold};
ghost use Rattle.mau_strattext.specs.Faults;
ghost use Rattle.mau_strattext.specs.Faults.{inner, behind_inner, FirstFault, HasNoFault};

use crate::fault::StratFault;
use crate::leaf::read_leaf;
use crate::setting::Setting;
use crate::stack::{make, push};
use mau_program::Strategy;
use mau_shapes::Piece;
use mau_terms::Vars;
use std::alloc::Global;

/// Whether a piece is the word of a strategy without strategies in it.
fn is_leaf(piece: Piece) -> bool
    ensures { result ≡ Faults.is_leaf piece }
{
    matches!(
        piece,
        Piece::Plain(_) | Piece::Label(_) | Piece::Call(_) | Piece::Test(_)
    )
}

/// Whether a piece stands behind such a word, as a part of its strategy.
fn is_inner(piece: Piece) -> bool
    ensures { result ≡ Faults.is_inner piece }
{
    matches!(
        piece,
        Piece::Variable(_)
            | Piece::Value(_)
            | Piece::Argument(_)
            | Piece::Called
            | Piece::Pattern(_)
            | Piece::Fragment(_)
    )
}

/// How many pieces stand behind a word as parts of its strategy.
fn inner_count(pieces: &[Piece]) -> usize
    ensures within { result ≤ length pieces.now }
    ensures inner { inner pieces.now ≡ take result pieces.now }
    ensures behind { behind_inner pieces.now ≡ drop result pieces.now }
{
    for i in 0..pieces.len() {
        if !is_inner(pieces[i]) {
            return i;
        }
    }
    pieces.len()
}

/// Whether a piece is the word `top` of a form.
fn opens_top(setting: &Setting, piece: Piece) -> bool
    ensures { result ≡ Faults.opens_top setting.now piece }
{
    match piece {
        Piece::Wrapper(place) => setting.word(place) == "top",
        _ => false,
    }
}

/// One word more with what stands behind it, and how many pieces these are; nothing, where something is missing there.
fn build_leaf(
    alloc: Global,
    setting: &Setting,
    vars: &mut Vars,
    under_top: bool,
    stack: &mut Vec<Strategy>,
    first: Piece,
    behind: &[Piece],
) -> Result<Option<(usize, bool)>, StratFault>
    requires { All (HasSorts setting.now.context.signature.hierarchy) setting.now.names }
    ensures answer { NextAnswer setting.now under_top first behind.now (reverse stack.old.items) vars.old (reverse stack.new.items) vars.new result }
    ensures typed { OnOk result (AreTyped setting.now.context.signature (reverse stack.old.items) → AreTyped setting.now.context.signature (reverse stack.new.items)) }
{
    let count = inner_count(behind);
    match read_leaf(alloc, setting, vars, under_top, first, &behind[..count]) {
        Ok(Some(strategy)) => match push(stack, strategy) {
            Ok(()) => Ok(Some((count, false))),
            Err(fault) => Err(fault),
        },
        Ok(None) => {
            if count == behind.len() {
                Ok(None)
            } else {
                Err(StratFault::NoMemory)
            }
        }
        Err(fault) => Err(fault),
    }
}

/// One piece more, and how many behind it are parts of it.
fn build_next(
    alloc: Global,
    setting: &Setting,
    vars: &mut Vars,
    under_top: bool,
    stack: &mut Vec<Strategy>,
    first: Piece,
    behind: &[Piece],
) -> Result<Option<(usize, bool)>, StratFault>
    requires { All (HasSorts setting.now.context.signature.hierarchy) setting.now.names }
    ensures answer { NextAnswer setting.now under_top first behind.now (reverse stack.old.items) vars.old (reverse stack.new.items) vars.new result }
    ensures typed { OnOk result (AreTyped setting.now.context.signature (reverse stack.old.items) → AreTyped setting.now.context.signature (reverse stack.new.items)) }
{
    if is_leaf(first) {
        return build_leaf(alloc, setting, vars, under_top, stack, first, behind);
    }
    match make(alloc, setting, stack, first) {
        Ok(()) => Ok(Some((0, opens_top(setting, first)))),
        Err(fault) => Err(fault),
    }
}

/// The strategies that pieces are; nothing, where something is missing behind the last word.
pub fn build(
    alloc: Global,
    setting: &Setting,
    vars: &mut Vars,
    pieces: &[Piece],
) -> Result<Option<Vec<Strategy>>, StratFault>
    requires { All (HasSorts setting.now.context.signature.hierarchy) setting.now.names }
    ensures built { IfOk result (λ o. MatchOption o (HasNoFault setting.now false pieces.now vars.old) (λ v. Builds setting.now false pieces.now [] vars.old (reverse v.items) vars.new)) }
    ensures fault { IfErr result (IfTold (FirstFault setting.now false pieces.now vars.old)) }
    ensures typed { IfOk result (λ o. IfSome o (λ v. AreTyped setting.now.context.signature (reverse v.items))) }
{
    let mut stack = Vec::new(alloc);
    let mut rest = pieces;
    let mut under_top = false;
    while let Some((first, behind)) = rest.split_first() {
        match build_next(alloc, setting, vars, under_top, &mut stack, *first, behind) {
            Ok(Some((count, top))) => {
                rest = &behind[count..];
                under_top = top;
            }
            Ok(None) => return Ok(None),
            Err(fault) => return Err(fault),
        }
    }
    Ok(Some(stack))
}
