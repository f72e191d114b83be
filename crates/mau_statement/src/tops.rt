//! The top of a term's normal form.
ghost use Rattle.std.specs.Prelude.{◌≡◌};
ghost use Rattle.mau_terms.specs.Bare.{IsBare};
ghost use Rattle.mau_terms.specs.Norm.{norm};
ghost use Rattle.mau_terms.specs.View.{tree_of};
ghost use Rattle.mau_signature.specs.Signature.{terms_over, theory_at};
ghost use Rattle.mau_program.specs.Tops as ProgramTops;
ghost use Rattle.mau_statement.specs.Tops;
ghost use Rattle.mau_statement.specs.Tops.{top_of, IsTopOver, is_unit_top};

use mau_signature::Signature;
use mau_terms::{Bare, Identity, OpId, Theory};

/// The top of a normal form: a variable, a numeral, a constant, or an operator over arguments.
#[derive(Clone, Copy)]
enum Top {
    Variable,
    Numeral(u128),
    Constant(OpId),
    Operator(OpId),
}

/// Whether this is the identity.
fn is_unit(id: Option<Identity>, top: Top) -> bool
    ensures { result ≡ is_unit_top id top }
{
    match (id, top) {
        (Some(Identity::Const(unit)), Top::Constant(op)) => unit.0 == op.0,
        (Some(Identity::Num(unit)), Top::Numeral(number)) => unit == number,
        _ => false,
    }
}

/// The top of an operator over one term: the successor of a numeral is the next one, but for the greatest.
fn over_one(succ: bool, op: OpId, top: Top) -> Top
    ensures { result ≡ Tops.over_one_top succ op top }
{
    match top {
        Top::Numeral(number) if succ && number < u128::MAX => Top::Numeral(number + 1),
        _ => Top::Operator(op),
    }
}

/// The top of an operator over two terms: an identity gives way to the other one.
fn over_two(id: Option<Identity>, op: OpId, left: Top, right: Top) -> Top
    ensures { result ≡ Tops.over_two_top id op left right }
{
    if is_unit(id, left) {
        right
    } else if is_unit(id, right) {
        left
    } else {
        Top::Operator(op)
    }
}

/// The top of the normal form of a term.
fn normal_top(signature: &Signature, term: &Bare) -> Top
    requires { IsBare (terms_over signature.now) (tree_of term.now) }
    ensures value { result ≡ top_of (norm (theory_at signature.now) (tree_of term.now)) }
    ensures over { IsTopOver signature.now result }
{
    match term {
        Bare::Var(_) => Top::Variable,
        Bare::Num(number) => Top::Numeral(*number),
        Bare::App(op, args) => {
            let theory = signature.theory(*op);
            match args.items() {
                [] => Top::Constant(*op),
                [only] => over_one(theory.succ, *op, normal_top(signature, only)),
                [left, right] => over_two(
                    theory.id,
                    *op,
                    normal_top(signature, left),
                    normal_top(signature, right),
                ),
                _ => Top::Operator(*op),
            }
        }
    }
}

/// Whether a term may be the left side of an equation: its normal form is no variable.
pub fn is_left_side(signature: &Signature, left: &Bare) -> bool
    requires { IsBare (terms_over signature.now) (tree_of left.now) }
    ensures { result ≡ ProgramTops.is_left_side (theory_at signature.now) (tree_of left.now) }
{
    match normal_top(signature, left) {
        Top::Variable => false,
        _ => true,
    }
}

/// Whether an operator may be the top of a head.
fn is_head_operator(theory: &Theory) -> bool
    ensures { result ≡ ProgramTops.is_head_operator theory.now }
{
    !(theory.assoc || theory.id.is_some() || theory.succ)
}

/// Whether a term may be the head of a membership: its normal form is neither a variable nor a numeral, and its top is neither
/// associative nor the successor, and has no identity.
pub fn is_head(signature: &Signature, head: &Bare) -> bool
    requires { IsBare (terms_over signature.now) (tree_of head.now) }
    ensures { result ≡ ProgramTops.is_head (theory_at signature.now) (tree_of head.now) }
{
    match normal_top(signature, head) {
        Top::Variable => false,
        Top::Numeral(_) => false,
        Top::Constant(op) => is_head_operator(signature.theory(op)),
        Top::Operator(op) => is_head_operator(signature.theory(op)),
    }
}
