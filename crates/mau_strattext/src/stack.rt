//! Strategies that are made of those before them. These wait on a stack.
ghost use Rattle.std.specs.Prelude.{◌≡◌, ◌∷◌, IfOk, IfErr, OnOk, Some, reverse};
ghost use Rattle.mau_shapes.specs.declared.pieces.Piece.TheVariants as Pieces;
ghost use Rattle.mau_program.specs.Trees.{branch};
ghost use Rattle.mau_strattext.specs.Reads.{wrapped_by, marked_by, joined_by};
ghost use Rattle.mau_strattext.specs.Building.{Makes};

use crate::fault::StratFault;
use crate::setting::Setting;
use mau_program::{Strategy, StrategyForm};
use mau_shapes::Piece;
use std::alloc::Global;

/// `w(x)`
fn wrapped(alloc: Global, word: &str, inner: Strategy) -> Result<Strategy, StratFault>
    ensures made { IfOk result (λ o. wrapped_by word.now inner ≡ Some o) }
    ensures fault { IfErr result (λ f. f ≡ StratFault.NoMemory) }
{
    let inner = Box::new(alloc, inner)?;
    match word {
        "top" => Ok(Strategy::new(StrategyForm::Top(inner))),
        "not" => Ok(Strategy::new(StrategyForm::Not(inner))),
        "try" => Ok(Strategy::new(StrategyForm::Try(inner))),
        "test" => Ok(Strategy::new(StrategyForm::TestOf(inner))),
        _ => Err(StratFault::NoMemory),
    }
}

/// `x w`
fn marked(alloc: Global, word: &str, inner: Strategy) -> Result<Strategy, StratFault>
    ensures made { IfOk result (λ o. marked_by word.now inner ≡ Some o) }
    ensures fault { IfErr result (λ f. f ≡ StratFault.NoMemory) }
{
    let inner = Box::new(alloc, inner)?;
    match word {
        "*" => Ok(Strategy::new(StrategyForm::Star(inner))),
        "+" => Ok(Strategy::new(StrategyForm::Plus(inner))),
        "!" => Ok(Strategy::new(StrategyForm::Normal(inner))),
        _ => Err(StratFault::NoMemory),
    }
}

/// `x w y`
fn joined(
    alloc: Global,
    word: &str,
    left: Strategy,
    right: Strategy,
) -> Result<Strategy, StratFault>
    ensures made { IfOk result (λ o. joined_by word.now left right ≡ Some o) }
    ensures fault { IfErr result (λ f. f ≡ StratFault.NoMemory) }
{
    let left = Box::new(alloc, left)?;
    let right = Box::new(alloc, right)?;
    match word {
        ";" => Ok(Strategy::new(StrategyForm::Then(left, right))),
        "|" => Ok(Strategy::new(StrategyForm::Or(left, right))),
        "or-else" => Ok(Strategy::new(StrategyForm::OrElse(left, right))),
        _ => Err(StratFault::NoMemory),
    }
}

/// `a ? b : c`
fn chosen(
    alloc: Global,
    test: Strategy,
    then: Strategy,
    other: Strategy,
) -> Result<Strategy, StratFault>
    ensures made { IfOk result (λ x. x ≡ branch test then other) }
    ensures fault { IfErr result (λ f. f ≡ StratFault.NoMemory) }
{
    let test = Box::new(alloc, test)?;
    let then = Box::new(alloc, then)?;
    let other = Box::new(alloc, other)?;
    Ok(Strategy::new(StrategyForm::If(test, then, other)))
}

/// The latest strategy, which waits no more.
pub fn pop(stack: &mut Vec<Strategy>) -> Result<Strategy, StratFault>
    ensures latest { IfOk result (λ x. reverse stack.old.items ≡ x ∷ reverse stack.new.items) }
    ensures fault { IfErr result (λ f. f ≡ StratFault.NoMemory) }
{
    match stack.pop() {
        Some(strategy) => Ok(strategy),
        None => Err(StratFault::NoMemory),
    }
}

/// One more strategy waits.
pub fn push(stack: &mut Vec<Strategy>, strategy: Strategy) -> Result<(), StratFault>
    ensures latest { OnOk result (reverse stack.new.items ≡ strategy ∷ reverse stack.old.items) }
    ensures fault { IfErr result (λ f. f ≡ StratFault.NoMemory) }
{
    match stack.push(strategy) {
        Ok(()) => Ok(()),
        Err(_) => Err(StratFault::NoMemory),
    }
}

/// `w(x)` of the latest strategy.
fn wrap(
    alloc: Global,
    setting: &Setting,
    stack: &mut Vec<Strategy>,
    place: usize,
) -> Result<(), StratFault>
    ensures made { OnOk result (Makes setting.now (Pieces.Wrapped place) (reverse stack.old.items) (reverse stack.new.items)) }
    ensures fault { IfErr result (λ f. f ≡ StratFault.NoMemory) }
{
    let inner = match pop(stack) {
        Ok(inner) => inner,
        Err(fault) => return Err(fault),
    };
    match wrapped(alloc, setting.word(place), inner) {
        Ok(made) => push(stack, made),
        Err(fault) => Err(fault),
    }
}

/// `x w` of the latest strategy.
fn mark(
    alloc: Global,
    setting: &Setting,
    stack: &mut Vec<Strategy>,
    place: usize,
) -> Result<(), StratFault>
    ensures made { OnOk result (Makes setting.now (Pieces.Marked place) (reverse stack.old.items) (reverse stack.new.items)) }
    ensures fault { IfErr result (λ f. f ≡ StratFault.NoMemory) }
{
    let inner = match pop(stack) {
        Ok(inner) => inner,
        Err(fault) => return Err(fault),
    };
    match marked(alloc, setting.word(place), inner) {
        Ok(made) => push(stack, made),
        Err(fault) => Err(fault),
    }
}

/// `x w y` of the latest two.
fn join(
    alloc: Global,
    setting: &Setting,
    stack: &mut Vec<Strategy>,
    place: usize,
) -> Result<(), StratFault>
    ensures made { OnOk result (Makes setting.now (Pieces.Joined place) (reverse stack.old.items) (reverse stack.new.items)) }
    ensures fault { IfErr result (λ f. f ≡ StratFault.NoMemory) }
{
    let right = match pop(stack) {
        Ok(right) => right,
        Err(fault) => return Err(fault),
    };
    let left = match pop(stack) {
        Ok(left) => left,
        Err(fault) => return Err(fault),
    };
    match joined(alloc, setting.word(place), left, right) {
        Ok(made) => push(stack, made),
        Err(fault) => Err(fault),
    }
}

/// `a ? b : c` of the latest three.
fn choose(alloc: Global, setting: &Setting, stack: &mut Vec<Strategy>) -> Result<(), StratFault>
    ensures made { OnOk result (Makes setting.now Pieces.Chosen (reverse stack.old.items) (reverse stack.new.items)) }
    ensures fault { IfErr result (λ f. f ≡ StratFault.NoMemory) }
{
    let other = match pop(stack) {
        Ok(other) => other,
        Err(fault) => return Err(fault),
    };
    let then = match pop(stack) {
        Ok(then) => then,
        Err(fault) => return Err(fault),
    };
    let test = match pop(stack) {
        Ok(test) => test,
        Err(fault) => return Err(fault),
    };
    match chosen(alloc, test, then, other) {
        Ok(made) => push(stack, made),
        Err(fault) => Err(fault),
    }
}

/// One piece more, which is a form of the latest strategies.
pub fn make(
    alloc: Global,
    setting: &Setting,
    stack: &mut Vec<Strategy>,
    piece: Piece,
) -> Result<(), StratFault>
    ensures made { OnOk result (Makes setting.now piece (reverse stack.old.items) (reverse stack.new.items)) }
    ensures fault { IfErr result (λ f. f ≡ StratFault.NoMemory) }
{
    match piece {
        Piece::Wrapper(_) => Ok(()),
        Piece::Wrapped(place) => wrap(alloc, setting, stack, place),
        Piece::Marked(place) => mark(alloc, setting, stack, place),
        Piece::Joined(place) => join(alloc, setting, stack, place),
        Piece::Chosen => choose(alloc, setting, stack),
        _ => Err(StratFault::NoMemory),
    }
}
