//! Terms of a store by their texts, and asking listings.
ghost use Rattle.std.specs.Prelude.{◌≡◌, All, Option, Bool, None, IfOk, OnOk};
ghost use Rattle.mau_terms.specs.View.{tree_of};
ghost use Rattle.mau_terms.specs.declared.ids.TermId.{TermId};
ghost use Rattle.mau_terms.specs.declared.ids.VarId.{VarId};
ghost use Rattle.mau_signature.specs.Signature.{theory_at};
ghost use Rattle.mau_store.specs.Node.{Extends};
ghost use Rattle.mau_canon.specs.Standing.{StandsWithin};
ghost use Rattle.mau_listing.specs.Asked.{Asked, asks, CanGoOn};
ghost use Rattle.mau_listing.specs.declared.solution.Solution.{Solution as SolutionOf};

use crate::notation::{term, variable};
use mau_canon::build_bare;
use mau_listing::{
    FirstSolutions, Lister, Solution, first_solutions, is_lawful, put_identities, settle_store,
};
use mau_signature::{Signature, is_bare};
use mau_sorts::{SortTable, are_terms};
use mau_store::Store;
use mau_terms::{Bare, NoMemory, TermId, VarId};
use std::alloc::Global;
use std::process::Abort;
use std::test::Fail;

/// The number of a term.
pub fn number(
    rt: &impl Abort,
    sig: &Signature,
    store: &mut Store,
    term: &Bare,
) -> Result<TermId, Fail>
    ensures within { IfOk result (λ id. StandsWithin (theory_at sig.now) store.new id.0) }
    ensures extends { Extends store.old store.new }
{
    assert!(rt; is_bare(sig, term));
    Ok(build_bare(store, sig, term)?)
}

/// The numbers of terms that are written with spaces between them.
pub fn numbers(
    rt: &impl Abort,
    sig: &Signature,
    store: &mut Store,
    texts: &str,
) -> Result<Vec<TermId>, Fail>
    ensures { OnOk result (Extends store.old store.new) }
{
    let mut ids = Vec::new(store.allocator());
    for text in texts.split_whitespace() {
        let term = term(store.allocator(), text)?;
        ids.push(number(rt, sig, store, &term)?)?;
    }
    Ok(ids)
}

/// A pattern, values that its variables have beforehand, and a subject.
#[derive(Drop)]
pub struct Question {
    pub pattern: Bare,
    pub bound: Vec<(VarId, TermId)>,
    pub subject: Bare,
}

/// A value beforehand as a text: the letter of a variable and the value.
fn bound_value(
    rt: &impl Abort,
    sig: &Signature,
    store: &mut Store,
    text: &str,
) -> Result<(VarId, TermId), Fail>
    ensures { IfOk result (λ b. StandsWithin (theory_at sig.now) store.new b.1.0) }
{
    let letter = text.bytes().next().ok_or("no variable")?;
    let variable = variable(letter).ok_or("no letter of a variable")?;
    let value = term(store.allocator(), text.get(1..).ok_or("no value")?)?;
    let id = number(rt, sig, store, &value)?;
    Ok((variable, id))
}

/// The question that a text asks: a pattern, a subject, and a value beforehand, if there is one.
pub fn question_of(
    rt: &impl Abort,
    sig: &Signature,
    store: &mut Store,
    text: &str,
) -> Result<Question, Fail>
    ensures { IfOk result (λ q. All (λ b. StandsWithin (theory_at sig.now) store.new b.1.0) q.bound.items) }
{
    let alloc = store.allocator();
    let mut words = text.split_whitespace();
    let pattern = term(alloc, words.next().ok_or("no pattern")?)?;
    let subject = term(alloc, words.next().ok_or("no subject")?)?;
    let mut bound = Vec::new(alloc);
    if let Some(value) = words.next() {
        bound.push(bound_value(rt, sig, store, value)?)?;
    }
    Ok(Question {
        pattern,
        bound,
        subject,
    })
}

/// The number of a subject, and the sorts of all terms of the store, so that a listing can be asked for it.
pub fn settled(
    rt: &impl Abort,
    sig: &Signature,
    store: &mut Store,
    question: &Question,
) -> Result<(TermId, SortTable), Fail>
    requires { All (λ b. StandsWithin (theory_at sig.now) store.old b.1.0) question.now.bound.items }
    ensures ready { IfOk result (λ r. (c : Bool) → CanGoOn c sig.now store.new r.1 (asks (tree_of question.now.pattern) question.now.bound.items r.0) None) }
    ensures extends { Extends store.old store.new }
{
    is_lawful(sig);
    assert!(rt; is_bare(sig, &question.pattern));
    assert!(rt; is_bare(sig, &question.subject));
    let id = build_bare(store, sig, &question.subject)?;
    put_identities(store, sig)?;
    assert!(rt; are_terms(sig, store));
    let mut sorts = SortTable::new(store.allocator());
    settle_store(store, sig, &mut sorts)?;
    Ok((id, sorts))
}

/// A listing that begins at the start, or behind a solution.
pub fn listing_behind<L: Lister>(
    alloc: Global,
    sig: &Signature,
    question: &Question,
    id: TermId,
    last: &Option<Solution>,
) -> Result<L, NoMemory>
    ensures signature { IfOk result (λ listing. L.is_for listing sig.now) }
    ensures asked { IfOk result (λ listing. L.asked listing ≡ asks (tree_of question.now.pattern) question.now.bound.items id) }
    ensures given { IfOk result (λ listing. L.given listing ≡ last.now) }
{
    match last {
        None => L::start(alloc, sig, &question.pattern, &question.bound, id),
        Some(solution) => {
            L::resume(alloc, sig, &question.pattern, &question.bound, id, solution)
        }
    }
}

/// The first solutions of a pattern and a subject, and whether there are more.
pub fn first<L: Lister + Drop>(
    rt: &impl Abort,
    sig: &Signature,
    store: &mut Store,
    question: &Question,
    count: usize,
) -> Result<FirstSolutions, Fail>
    requires { All (λ b. StandsWithin (theory_at sig.now) store.old b.1.0) question.now.bound.items }
{
    let alloc = store.allocator();
    let (id, mut sorts) = settled(rt, sig, store, question)?;
    let mut listing: L = listing_behind(alloc, sig, question, id, &None)?;
    Ok(first_solutions(alloc, &mut listing, store, sig, &mut sorts, count)?)
}

/// The next solution of a listing.
pub fn next_of<L: Lister>(
    sig: &Signature,
    store: &mut Store,
    sorts: &mut SortTable,
    listing: &mut L,
) -> Result<Option<Solution>, NoMemory>
    requires signature { L.is_for listing.old sig.now }
    requires ready { CanGoOn L.with_context sig.now store.old sorts.old (L.asked listing.old) (L.given listing.old) }
    ensures signature { L.is_for listing.new sig.now }
    ensures asked { L.asked listing.new ≡ L.asked listing.old }
    ensures ready { OnOk result (CanGoOn L.with_context sig.now store.new sorts.new (L.asked listing.old) (L.given listing.new)) }
    ensures given { IfOk result (λ next. CanGoOn L.with_context sig.now store.new sorts.new (L.asked listing.old) next) }
    ensures kept { OnOk result ((a : Asked) (o : Option SolutionOf) → CanGoOn L.with_context sig.now store.old sorts.old a o → CanGoOn L.with_context sig.now store.new sorts.new a o) }
{
    let found = listing.next(store, sig, sorts)?;
    Ok(found)
}

/// The next solution behind another one, by a listing that is made for that.
pub fn next_behind<L: Lister + Drop>(
    sig: &Signature,
    store: &mut Store,
    sorts: &mut SortTable,
    question: &Question,
    id: TermId,
    last: &Option<Solution>,
) -> Result<Option<Solution>, NoMemory>
    requires { CanGoOn L.with_context sig.now store.old sorts.old (asks (tree_of question.now.pattern) question.now.bound.items id) last.now }
    ensures given { IfOk result (λ next. CanGoOn L.with_context sig.now store.new sorts.new (asks (tree_of question.now.pattern) question.now.bound.items id) next) }
    ensures kept { OnOk result ((a : Asked) (o : Option SolutionOf) → CanGoOn L.with_context sig.now store.old sorts.old a o → CanGoOn L.with_context sig.now store.new sorts.new a o) }
{
    let mut listing: L = listing_behind(store.allocator(), sig, question, id, last)?;
    let found = next_of(sig, store, sorts, &mut listing)?;
    Ok(found)
}
