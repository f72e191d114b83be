//! Whether terms are bare terms over a signature.
ghost use Rattle.std.specs.Prelude.{◌≡◌, ◌↔◌, All, IsTrue, map};
ghost use Rattle.mau_poset.specs.Order.{kind_of};
ghost use Rattle.mau_terms.specs.Tree.{variable, numeral, trees_of};
ghost use Rattle.mau_terms.specs.Bare.{IsBare, AreBareIn};
ghost use Rattle.mau_terms.specs.View.{tree_of};
ghost use Rattle.mau_signature.specs.Faults.{IsSort};
ghost use Rattle.mau_signature.specs.Signature.{IsOperator, arguments_of, declarations_at, terms_over};

use crate::Signature;
use mau_terms::{Bare, OpId};

/// Whether a variable of a sort or a kind is a bare term.
fn is_variable(sig: &Signature, index: u32, sort: u32) -> bool
    ensures { IsTrue result ↔ IsBare (terms_over sig.now) (variable index sort) }
{
    sort < sig.poset().sorts() + sig.poset().kinds()
}

/// Whether a numeral is a bare term.
fn is_numeral(sig: &Signature, number: u128) -> bool
    ensures { IsTrue result ↔ IsBare (terms_over sig.now) (numeral number) }
{
    sig.numerals().is_some()
}

/// Whether a term is a bare term over a signature, of whatever kind: each operator, sort and kind is there, and each argument is of the
/// kind of its place.
#[cycle(bare_terms)]
pub fn is_bare(sig: &Signature, term: &Bare) -> bool
    ensures { IsTrue result ↔ IsBare (terms_over sig.now) (tree_of term.now) }
{
    match term {
        Bare::Var(v) => is_variable(sig, v.index, v.sort),
        Bare::Num(n) => is_numeral(sig, *n),
        Bare::App(op, args) => {
            if op.0 == 0 || op.0 > sig.operators() {
                return false;
            }
            are_bare(sig, args.items(), arguments(sig, *op))
        }
    }
}

/// The sorts of an operator's arguments.
fn arguments(sig: &Signature, op: OpId) -> &[u32]
    requires { IsOperator sig.now op.0 }
    ensures value { result.now ≡ arguments_of (declarations_at sig.now op.0) }
    ensures sorts { All (IsSort sig.now.hierarchy) result.now }
{
    match sig.declarations(op).first() {
        Some(decl) => decl.args.items(),
        None => unreachable!(),
    }
}

/// Whether there are as many terms as sorts, each a bare term of the kind of its place.
#[cycle(bare_terms)]
fn are_bare(sig: &Signature, terms: &[Bare], sorts: &[u32]) -> bool
    requires { All (IsSort sig.now.hierarchy) sorts.now }
    ensures { IsTrue result ↔ AreBareIn (terms_over sig.now) (trees_of (map tree_of terms.now)) (map (kind_of sig.now.hierarchy) sorts.now) }
{
    if terms.len() != sorts.len() {
        return false;
    }
    for i in 0..terms.len() {
        if !is_bare(sig, &terms[i]) {
            return false;
        }
        if sig.kind(&terms[i]) != sig.poset().kind_of(sorts[i]) {
            return false;
        }
    }
    true
}
