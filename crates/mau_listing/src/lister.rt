//! The trait of all listings.
ghost use Rattle.std.specs.Prelude.{◌≡◌, ◌<◌, ℕ, Bool, false, Option, None, Some, IfOk, OnErr, IfSome, OnSome};
ghost use Rattle.std.specs.Option.{option_map, option_copied};
ghost use Rattle.mau_terms.specs.View.{tree_of};
ghost use Rattle.mau_signature.specs.Signature.{SignatureOf, theory_at};
ghost use Rattle.mau_store.specs.Node.{Extends};
ghost use Rattle.mau_store.specs.Trees.{tree_at};
ghost use Rattle.mau_sorts.specs.HasSort.{Known};
ghost use Rattle.mau_sorts.specs.Table.{IsSettled, AreOver, KeepsEntries};
ghost use Rattle.mau_listing.specs.declared.solution.Solution.{Solution};
ghost use Rattle.mau_listing.specs.Question.{IsSolution};
ghost use Rattle.mau_listing.specs.Next.{matcher_cmp, IsNext};
ghost use Rattle.mau_listing.specs.Asked.{Asked, asks, question_in, matcher_in, last_after, IsTableOf, IsClosedTable, BySort, MaySettle, IsGiven, CanGoOn};
ghost use Rattle.mau_listing.specs.Finite.{count_left};

use crate::Solution;
use mau_signature::Signature;
use mau_sorts::SortTable;
use mau_store::Store;
use mau_terms::{Bare, NoMemory, TermId, VarId};
use std::alloc::Global;

/// A listing of the solutions of a pattern and a subject, in the order of solutions and each once. Of the variables that have a value
/// beforehand only those solutions are listed that agree with it.
///
/// What goes on from call to call is the last solution alone, so a listing goes on in a store and a table of sorts that have grown, and
/// a new one can be made from any solution.
pub trait Lister: Sized {
    /// Whether it lists solutions with their contexts, or those without.
    ghost with_context: { Bool };

    /// What it was asked.
    ghost asked: { Self → Asked };

    /// The last solution that it gave, or was made with.
    ghost given: { Self → Option Solution };

    /// Whether it was made with this signature.
    ghost is_for: { Self → SignatureOf → Type 0 };

    /// The listing of all solutions of a pattern and a subject that agree with the values in `bound`. A pair of a variable that the
    /// pattern does not have says nothing.
    fn start(
        alloc: Global,
        sig: &Signature,
        pattern: &Bare,
        bound: &[(VarId, TermId)],
        subject: TermId,
    ) -> Result<Self, NoMemory>
        ensures asked { IfOk result (λ listing. asked listing ≡ asks (tree_of pattern.now) bound.now subject) }
        ensures signature { IfOk result (λ listing. is_for listing sig.now) }
        ensures given { IfOk result (λ listing. given listing ≡ None) };

    /// The listing whose last solution is the one given, made without a look at those before it.
    fn resume(
        alloc: Global,
        sig: &Signature,
        pattern: &Bare,
        bound: &[(VarId, TermId)],
        subject: TermId,
        last: &Solution,
    ) -> Result<Self, NoMemory>
        ensures asked { IfOk result (λ listing. asked listing ≡ asks (tree_of pattern.now) bound.now subject) }
        ensures signature { IfOk result (λ listing. is_for listing sig.now) }
        ensures given { IfOk result (λ listing. given listing ≡ Some last.now) };

    /// The last solution, and none where `next` has given none and the listing was not made from one.
    fn last(&self) -> Option<&Solution>
        ensures { option_copied result ≡ given self.now };

    /// The least solution behind the last one, and `None` exactly where there is none. The sorts of its values are settled.
    ///
    /// The signature is the one that the listing was made with. The pattern is a bare term over it, and the bound values and the subject
    /// are terms of the store. The identities and the subject's proper subterms are settled, and so is the subject, unless the top of
    /// the pattern's normal form is an operator that is neither associative nor the successor and has no identity. What a listing with
    /// contexts goes on behind is a solution over this store and by these sorts. A listing without contexts goes on behind any settled
    /// normal forms, one for each variable of the pattern, whether they are a solution or not.
    ///
    /// Only the sorts of numerals and of lists of associative operators are settled, by declarations alone, and never those of the
    /// subject; where settled terms had settled arguments they have them after. Out of memory, the listing is as it was.
    ///
    /// With each solution a number falls, `count_left`, so a loop over all solutions ends.
    fn next(
        &mut self,
        store: &mut Store,
        sig: &Signature,
        sorts: &mut SortTable,
    ) -> Result<Option<Solution>, NoMemory>
        requires signature { is_for self.old sig.now }
        requires ready { CanGoOn with_context sig.now store.old sorts.old (asked self.old) (given self.old) }
        ensures next { (known : Known) → IsTableOf sig.now known store.old sorts.old → IfOk result (λ answer.
            IsNext (IsSolution with_context sig.now (BySort sig.now known) (question_in store.old (asked self.old)))
            (matcher_cmp (theory_at sig.now) (asked self.old).pattern)
            (option_map (matcher_in store.old) (given self.old)) (option_map (matcher_in store.new) answer)) }
        ensures solves { IfOk result (λ answer. IfSome answer (IsGiven with_context sig.now store.new sorts.new (asked self.old))) }
        ensures given { IfOk result (λ answer. given self.new ≡ last_after (given self.old) answer) }
        ensures falls { IfOk result (λ answer. OnSome answer (count_left sig.now store.new (asked self.new) (given self.new) < count_left sig.now store.old (asked self.old) (given self.old))) }
        ensures unchanged { OnErr result (given self.new ≡ given self.old) }
        ensures asked { asked self.new ≡ asked self.old }
        ensures signature { is_for self.new sig.now }
        ensures extends { Extends store.old store.new }
        ensures entries { (i : ℕ) → IsSettled sorts.new i → MaySettle sig.now store.new sorts.old (tree_at store.old (asked self.old).subject.0) i }
        ensures kept { KeepsEntries sorts.old sorts.new }
        ensures over { AreOver sig.now.hierarchy sorts.new }
        ensures table { (known : Known) → IsTableOf sig.now known store.old sorts.old → IsTableOf sig.now known store.new sorts.new }
        ensures closed { IsClosedTable store.old sorts.old → IsClosedTable store.new sorts.new };
}

/// A listing of solutions without contexts.
pub trait WholeLister: Lister {
    ghost whole: { Self.with_context ≡ false };
}
