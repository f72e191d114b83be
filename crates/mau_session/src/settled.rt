//! Taking the sorts of a subject.
ghost use Rattle.std.specs.Prelude.{◌≡◌, None, OnOk, IfErr};
ghost use Rattle.mau_terms.specs.Norm.{norm};
ghost use Rattle.mau_terms.specs.View.{tree_of};
ghost use Rattle.mau_signature.specs.Signature.{theory_at};
ghost use Rattle.mau_api.specs.Answers.{MayEnd};
ghost use Rattle.mau_session.specs.Settled.{AreSortsKnown};
ghost use Rattle.mau_session.specs.KeptQuery.{query_of, IsQueryOver, IsReady};

use crate::query::Query;
use mau_api::{EvalEnd, Evaluator};

/// Takes the sorts of a query's subject, of which nothing was shown.
pub fn settle_subject<E: Evaluator>(query: &mut Query, evaluator: &mut E) -> Result<(), EvalEnd>
    requires query { IsQueryOver (E.meanings evaluator.old).program.sig query.old }
    requires first { query.old.last ≡ None }
    requires fits { E.fits evaluator.old query.old.store }
    ensures ready { OnOk result (IsReady (E.meanings evaluator.old).program.sig (E.table evaluator.new) query.new) }
    ensures known { OnOk result (AreSortsKnown (E.meanings evaluator.old) (norm (theory_at (E.meanings evaluator.old).program.sig) (tree_of query.old.subject))) }
    ensures ends { IfErr result (MayEnd (E.meanings evaluator.old) (norm (theory_at (E.meanings evaluator.old).program.sig) (tree_of query.old.subject))) }
    ensures same { query_of query.new ≡ query_of query.old }
    ensures fits { E.fits evaluator.new query.new.store }
    ensures meanings { E.meanings evaluator.new ≡ E.meanings evaluator.old }
{
    evaluator.settle(&mut query.store, query.number)
}
