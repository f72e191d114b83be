//! Queries: a pattern and a subject over a module, with what their listing goes on with.
ghost use Rattle.std.specs.Prelude.{◌≡◌, ◌<◌, ◌≤◌, length, take, None, IfOk, IfErr};
ghost use Rattle.mau_terms.specs.Bare.{IsBare};
ghost use Rattle.mau_terms.specs.Norm.{norm};
ghost use Rattle.mau_terms.specs.Subst.{variables};
ghost use Rattle.mau_terms.specs.View.{tree_of};
ghost use Rattle.mau_signature.specs.Signature.{terms_over, theory_at};
ghost use Rattle.mau_canon.specs.Within.{IsWithin, IsCause};
ghost use Rattle.mau_session.specs.Matching.{numbered_from};
ghost use Rattle.mau_session.specs.KeptQuery.{query_of, IsQueryOver};

use mau_canon::{BuildFault, build_bare};
use mau_listing::Solution;
use mau_signature::Signature;
use mau_store::Store;
use mau_terms::{Bare, TermId, Vars};
use std::alloc::Global;

/// Whether solutions have contexts, a pattern and a subject, their variables, the subject's normal form in a store of its own, the last solution that was shown,
/// and how many were.
#[derive(Drop)]
pub struct Query {
    pub with_context: bool,
    pub pattern: Bare,
    pub subject: Bare,
    pub vars: Vars,
    pub store: Store,
    pub number: TermId,
    pub last: Option<Solution>,
    pub shown: u64,
}

/// The axioms of a signature are lawful.
fn is_lawful(sig: &Signature)
    ensures { Rattle.mau_terms.specs.Bare.IsLawful (terms_over sig.now) }
{
    let _ = sig.operators();
}

impl Query {
    /// The query of a pattern and a subject, of which nothing was shown, or why the subject has no normal form. The pattern's variables
    /// are the first ones.
    pub fn new(
        alloc: Global,
        sig: &Signature,
        with_context: bool,
        pattern: Bare,
        subject: Bare,
        vars: Vars,
    ) -> Result<Query, BuildFault>
        requires pattern { IsBare (terms_over sig.now) (tree_of pattern) }
        requires subject { IsBare (terms_over sig.now) (tree_of subject) }
        requires numbered { variables (tree_of pattern) ≡ numbered_from 0 (take (length (variables (tree_of pattern))) vars) }
        requires few { length (variables (tree_of pattern)) ≤ length vars }
        requires small { length vars < 4294967296 }
        ensures query { IfOk result (IsQueryOver sig.now) }
        ensures first { IfOk result (λ q. q.last ≡ None) }
        ensures asked { IfOk result (λ q. query_of q ≡ record { with_context = with_context; pattern = tree_of pattern; subject = tree_of subject; variables = vars; last = None; shown = 0 }) }
        ensures within { IfOk result (λ q. IsWithin (theory_at sig.now) (norm (theory_at sig.now) (tree_of subject))) }
        ensures refused { IfErr result (IsCause (theory_at sig.now) (norm (theory_at sig.now) (tree_of subject))) }
    {
        is_lawful(sig);
        let mut store = Store::new(alloc);
        let number = build_bare(&mut store, sig, &subject)?;
        Ok(Query {
            with_context,
            pattern,
            subject,
            vars,
            store,
            number,
            last: None,
            shown: 0,
        })
    }
}
