//! Terms whose operators have no axioms.
ghost use Rattle.std.specs.Prelude.{◌≡◌, All, map};
ghost use Rattle.mau_terms.specs.Tree.{trees_of};
ghost use Rattle.mau_terms.specs.Bare.{IsBare};
ghost use Rattle.mau_terms.specs.View.{tree_of};
ghost use Rattle.mau_signature.specs.Signature.{terms_over, theory_at};
ghost use Rattle.mau_syntactic.specs.Free.{is_free, has_free_operators, have_free_operators};

use mau_signature::Signature;
use mau_terms::{Bare, Theory};

/// Whether an operator with these axioms has none.
pub(crate) fn is_free(theory: &Theory) -> bool
    ensures { result ≡ is_free theory.now }
{
    !theory.assoc && !theory.comm && theory.id.is_none() && !theory.succ
}

/// Whether no operator of a term has axioms.
#[cycle(free)]
pub(crate) fn has_free_operators(sig: &Signature, term: &Bare) -> bool
    requires { IsBare (terms_over sig.now) (tree_of term.now) }
    ensures { result ≡ has_free_operators (theory_at sig.now) (tree_of term.now) }
{
    match term {
        Bare::Var(_) | Bare::Num(_) => true,
        Bare::App(op, args) => {
            is_free(sig.theory(*op)) && have_free_operators(sig, args.items())
        }
    }
}

/// The same of several terms.
#[cycle(free)]
fn have_free_operators(sig: &Signature, terms: &[Bare]) -> bool
    requires { All (λ t. IsBare (terms_over sig.now) (tree_of t)) terms.now }
    ensures { result ≡ have_free_operators (theory_at sig.now) (trees_of (map tree_of terms.now)) }
{
    for term in terms {
        if !has_free_operators(sig, term) {
            return false;
        }
    }
    true
}
