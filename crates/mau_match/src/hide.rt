//! Patterns in which a variable has another name at its first places, so that the walk to its first place goes to a later one.
ghost use Rattle.std.specs.Prelude.{◌≡◌, ◌++◌, ◌<◌, ◌^◌, false, List, map, IfOk, IfSome, OnOk};
ghost use Rattle.mau_terms.specs.Tree.{trees_of};
ghost use Rattle.mau_terms.specs.Subst.{has_variable};
ghost use Rattle.mau_terms.specs.View.{tree_of, variable_of};
ghost use Rattle.mau_terms.specs.declared.bare.Bare.{Bare as BareOf};
ghost use Rattle.mau_match.specs.Parts.{occurs};
ghost use Rattle.mau_match.specs.Hidden.{IsHidden, AreHidden};

use crate::variables::{has_variable, occurs};
use mau_terms::{Args, Bare, NoMemory, VarId};
use std::alloc::Global;

/// A pattern with another variable at the first so many places of a variable; they are counted down.
#[cycle(hide)]
pub fn hide(
    alloc: Global,
    pattern: &Bare,
    variable: VarId,
    other: VarId,
    places: &mut usize,
) -> Result<Bare, NoMemory>
    ensures { IfOk result (λ copy. IsHidden (variable_of variable) (variable_of other) (tree_of pattern.now) (tree_of copy)) }
{
    match pattern {
        Bare::Var(v) => {
            if *v == variable && 0 < *places {
                *places -= 1;
                return Ok(Bare::Var(other));
            }
            Ok(Bare::Var(*v))
        }
        Bare::Num(n) => Ok(Bare::Num(*n)),
        Bare::App(op, args) => {
            let mut out = Vec::new(alloc);
            hide_all(alloc, args.items(), variable, other, places, &mut out)?;
            Ok(Bare::App(*op, Args::new(out)))
        }
    }
}

/// Adds such a copy of each of some patterns.
#[cycle(hide)]
fn hide_all(
    alloc: Global,
    patterns: &[Bare],
    variable: VarId,
    other: VarId,
    places: &mut usize,
    out: &mut Vec<Bare>,
) -> Result<(), NoMemory>
    ensures { OnOk result ((more : List BareOf) × (out.new.items ≡ out.old.items ++ more) × AreHidden (variable_of variable) (variable_of other) (trees_of (map tree_of patterns.now)) (trees_of (map tree_of more))) }
{
    match patterns {
        [] => Ok(()),
        [first, rest @ ..] => {
            let copy = hide(alloc, first, variable, other, places)?;
            out.push(copy)?;
            hide_all(alloc, rest, variable, other, places, out)
        }
    }
}

/// A variable of a sort that is neither in a pattern nor among some others, if one of the last indexes is free.
pub fn fresh(pattern: &Bare, variables: &[VarId], sort: u32) -> Option<VarId>
    ensures pattern { IfSome result (λ v. occurs (variable_of v) (tree_of pattern.now) ≡ false) }
    ensures others { IfSome result (λ v. has_variable (map variable_of variables.now) (variable_of v) ≡ false) }
    ensures sort { IfSome result (λ v. v.sort ≡ sort) }
    ensures small { IfSome result (λ v. v.index < 2 ^ 32) }
{
    for index in 4_294_960_000..4_294_967_000 {
        let variable = VarId { index, sort };
        if !occurs(variable, pattern) && !has_variable(variables, variable) {
            return Some(variable);
        }
    }
    None
}
