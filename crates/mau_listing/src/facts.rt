//! What holds of every signature and of every store.
ghost use Rattle.std.specs.Prelude.{◌≡◌, ℕ, Some};
ghost use Rattle.mau_poset.specs.Order.{kind_of};
ghost use Rattle.mau_terms.specs.Bare.{IsLawful};
ghost use Rattle.mau_signature.specs.Signature.{terms_over};
ghost use Rattle.mau_store.specs.Node.{AreNodes};

use mau_signature::Signature;
use mau_store::Store;

/// The axioms of a signature are lawful, and its numerals are of one kind.
pub fn is_lawful(sig: &Signature)
    ensures lawful { IsLawful (terms_over sig.now) }
    ensures one_kind { (p : ℕ × ℕ) → sig.now.numerals ≡ Some p → kind_of sig.now.hierarchy p.0 ≡ kind_of sig.now.hierarchy p.1 }
{
    let _ = sig.operators();
    let _ = sig.numerals();
}

/// No two numbers of a store stand for one node, and the arguments of each node are older than it.
pub fn has_nodes(store: &Store)
    ensures { AreNodes store.now }
{
    let _ = store.len();
}
