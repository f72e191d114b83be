//! What a term can take as an argument, by the call for the axioms of the operator.
ghost use Rattle.std.specs.Prelude.{◌≡◌, true, IfOk, IfSome};
ghost use Rattle.mau_terms.specs.Bare.{IsBare, IsBareIn};
ghost use Rattle.mau_terms.specs.Reading.{reading};
ghost use Rattle.mau_terms.specs.View.{tree_of};
ghost use Rattle.mau_signature.specs.Signature.{IsOperator, terms_over, theory_at};
ghost use Rattle.mau_store.specs.Node.{Extends};
ghost use Rattle.mau_store.specs.Trees.{tree_at};
ghost use Rattle.mau_canon.specs.Standing.{StandsWithin};

use mau_acu::acu_values;
use mau_assoc::assoc_values;
use mau_free::free_values;
use mau_signature::Signature;
use mau_store::Store;
use mau_terms::{Bare, NoMemory, OpId, TermId};

/// Whether a term is of the kind of the results of an operator.
pub fn is_of_kind(sig: &Signature, op: OpId, term: &Bare) -> bool
    requires operator { IsOperator sig.now op.0 }
    requires bare { IsBare (terms_over sig.now) (tree_of term.now) }
    ensures { result ≡ true → IsBareIn (terms_over sig.now) (tree_of term.now) ((terms_over sig.now).result op.0) }
{
    sig.kind(term) == sig.result_kind(op)
}

/// The next of what a term can take, by the call for the axioms of the operator.
pub fn next_taken(
    store: &mut Store,
    sig: &Signature,
    op: OpId,
    argument: &Bare,
    subject: TermId,
    after: Option<TermId>,
) -> Result<Option<TermId>, NoMemory>
    requires operator { IsOperator sig.now op.0 }
    requires subject { StandsWithin (theory_at sig.now) store.old subject.0 }
    requires kind { IsBareIn (terms_over sig.now) (reading (theory_at sig.now) (tree_at store.old subject.0)) ((terms_over sig.now).result op.0) }
    requires after { IfSome after (λ id. StandsWithin (theory_at sig.now) store.old id.0) }
    ensures within { IfOk result (λ value. IfSome value (λ id. StandsWithin (theory_at sig.now) store.new id.0)) }
    ensures extends { Extends store.old store.new }
{
    let theory = sig.theory(op);
    if !theory.assoc {
        free_values(store, sig, op, argument, subject, after)
    } else if theory.comm {
        acu_values(store, sig, op, argument, subject, after)
    } else {
        assoc_values(store, sig, op, argument, subject, after)
    }
}
