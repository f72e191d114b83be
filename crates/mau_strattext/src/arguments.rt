//! Arguments of a call.
ghost use Rattle.std.specs.Prelude.{◌≡◌, ℕ, List, ◌∷◌, All, IfOk, IfErr, IfSome};
ghost use Rattle.mau_terms.specs.Bare.{IsBare};
ghost use Rattle.mau_terms.specs.View.{tree_of};
ghost use Rattle.mau_signature.specs.Faults.{IsSort};
ghost use Rattle.mau_signature.specs.Signature.{terms_over};
ghost use Rattle.mau_parse.specs.declared.goals.Goal.TheVariants.{Kind};
ghost use Rattle.mau_shapes.specs.declared.pieces.Part.{Part as SomePart};
ghost use Rattle.mau_shapes.specs.declared.pieces.Piece.{Piece as One};
ghost use Rattle.mau_shapes.specs.declared.pieces.Piece.TheVariants as Pieces;
ghost use Rattle.mau_strattext.specs.Reads.{IsTerm, kind_in};
ghost use Rattle.mau_strattext.specs.Faults;
ghost use Rattle.mau_strattext.specs.Faults.{ArgumentsFault};
ghost use Rattle.mau_strattext.specs.Strategies.{IfTold};
ghost use Rattle.mau_strattext.specs.Building.{ArgumentsAnswer, IsEnd};

use crate::fault::StratFault;
use crate::setting::Setting;
use crate::term::read_part;
use mau_parse::Goal;
use mau_shapes::{Part, Piece};
use mau_terms::{Args, Bare, Vars};
use std::alloc::Global;

/// Whether a piece is the closing bracket of a call.
fn is_closing(piece: Piece) -> bool
    ensures { result ≡ Faults.is_closing piece }
{
    matches!(piece, Piece::Called)
}

/// Whether the closing bracket of a call is among its pieces.
pub fn are_closed(pieces: &[Piece]) -> bool
    ensures { result ≡ Faults.are_closed pieces.now }
{
    pieces.iter().any(|piece| is_closing(*piece))
}

/// The part of an argument.
fn argument(piece: Piece) -> Option<Part>
    ensures { IfSome result (λ p. piece ≡ Pieces.Argument p) }
{
    match piece {
        Piece::Argument(part) => Some(part),
        _ => None,
    }
}

/// A term of the kind of a sort.
fn read_argument(
    alloc: Global,
    setting: &Setting,
    vars: &mut Vars,
    sort: u32,
    piece: Piece,
) -> Result<Bare, StratFault>
    requires { IsSort setting.now.context.signature.hierarchy sort }
    ensures reads { IfOk result (λ b. (p : SomePart) × (piece ≡ Pieces.Argument p) × IsTerm setting.now p (Kind (kind_in setting.now sort)) vars.old vars.new b) }
    ensures bare { IfOk result (λ b. IsBare (terms_over setting.now.context.signature) (tree_of b)) }
    ensures fault { IfErr result (IfTold (λ f. (sorts : List ℕ) (ps : List One) → ArgumentsFault setting.now (sort ∷ sorts) (piece ∷ ps) vars.old f)) }
{
    match argument(piece) {
        Some(part) => {
            let kind = Goal::Kind(setting.kind_of(sort));
            read_part(alloc, setting, vars, kind, part)
        }
        None => Err(StratFault::NoMemory),
    }
}

/// Whether only the closing bracket is left.
fn is_end(pieces: &[Piece]) -> bool
    ensures { IsEnd result pieces.now }
{
    match pieces.split_first() {
        Some((Piece::Called, rest)) => rest.is_empty(),
        _ => false,
    }
}

/// Terms of the kinds of these sorts, and then the closing bracket.
pub fn read_arguments(
    alloc: Global,
    setting: &Setting,
    vars: &mut Vars,
    sorts: &[u32],
    pieces: &[Piece],
) -> Result<Args, StratFault>
    requires { All (IsSort setting.now.context.signature.hierarchy) sorts.now }
    ensures answer { ArgumentsAnswer setting.now sorts.now pieces.now vars.old vars.new result }
    ensures bare { IfOk result (All (IsBare (terms_over setting.now.context.signature))) }
{
    let mut args = Vec::new(alloc);
    let mut left = sorts;
    let mut rest = pieces;
    while let Some((sort, others)) = left.split_first() {
        match rest.split_first() {
            Some((piece, more)) => match read_argument(alloc, setting, vars, *sort, *piece) {
                Ok(arg) => {
                    args.push(arg)?;
                    rest = more;
                    left = others;
                }
                Err(fault) => return Err(fault),
            },
            None => return Err(StratFault::NoMemory),
        }
    }
    if is_end(rest) {
        Ok(Args::new(args))
    } else {
        Err(StratFault::NoMemory)
    }
}
