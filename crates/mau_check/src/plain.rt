//! Facts that lead from one term to another without a statement: equal terms, chains, an operator over facts.
ghost use Rattle.std.specs.Prelude.{◌≡◌, ◌↔◌, ◌&&◌, List, Bool, true, Option, IfOk, IfSome, IfNone, IsTrue};
ghost use Rattle.mau_terms.specs.Tree.{Tree};
ghost use Rattle.mau_terms.specs.Bare.{EqualModulo};
ghost use Rattle.mau_signature.specs.Signature.{IsOperator, terms_over};
ghost use Rattle.mau_store.specs.Node.{Extends};
ghost use Rattle.mau_logic.specs.Lines.{all_numbered, over, term_at};
ghost use Rattle.mau_logic.specs.Says.{Says, leads, all_equational, start_of, end_of, facts_at, leads_if};
ghost use Rattle.mau_logic.specs.Justified.{With, WithTerm, LeadOn, IsUnder};
ghost use Rattle.mau_check.specs.Kept.{IsKeptFor, AreKeptFor, AreKept};
ghost use Rattle.mau_check.specs.Said.{AreSaid, Decides, onward, onward_all, AreEnds};

use crate::kept::{Kept, kept_at};
use crate::over::build_over;
use crate::said::{Said, said_all};
use mau_facts::UnderFact;
use mau_signature::Signature;
use mau_store::Store;
use mau_terms::NoMemory;
use std::alloc::Global;

/// Whether two terms are equal modulo the axioms.
pub fn same(
    sig: &Signature,
    store: &Store,
    kept: &[Option<Kept>],
    first: u64,
    second: u64,
) -> Option<Said>
    ensures { (terms : List (Option Tree)) → AreKept sig.now store.now kept.now terms → Decides sig.now store.now result
        (WithTerm sig.now terms first λ t. WithTerm sig.now terms second λ u. EqualModulo (terms_over sig.now) t u) (leads_if true (term_at terms first) (term_at terms second)) }
{
    let _ = sig.operators();
    let _ = store.len();
    let a = match kept_at(kept, first) {
        Some(a) => a,
        None => return None,
    };
    let b = match kept_at(kept, second) {
        Some(b) => b,
        None => return None,
    };
    if a.id.0 != b.id.0 {
        return None;
    }
    Some(Said::Leads(true, a, b))
}

/// From where the first leads to where the second does, if the second goes on from the first.
fn onward(first: Said, second: Said) -> Option<Said>
    ensures { result ≡ onward first second }
{
    match first {
        Said::Leads(e, a, b) => match second {
            Said::Leads(d, c, f) => {
                if b.id.0 == c.id.0 {
                    return Some(Said::Leads(e && d, a, f));
                }
                None
            }
            Said::Sorted(_, _) => None,
        },
        Said::Sorted(_, _) => None,
    }
}

/// From where the first leads to where the last does, if each goes on from the one before it.
fn onward_all(first: Said, rest: &[Said]) -> Option<Said>
    ensures { result ≡ onward_all first rest.now }
{
    let mut whole = first;
    for said in rest {
        whole = match onward(whole, *said) {
            Some(joined) => joined,
            None => return None,
        };
    }
    Some(whole)
}

/// The same of facts, of which there is one at least.
fn chained(sig: &Signature, store: &Store, uses: &[Said]) -> Option<Said>
    ensures { (xs : List Says) → AreSaid sig.now store.now uses.now xs → Decides sig.now store.now result (LeadOn sig.now xs) (leads_if (all_equational xs) (start_of xs) (end_of xs)) }
{
    let _ = sig.operators();
    let _ = store.len();
    let (first, rest) = match uses.split_first() {
        Some((first, rest)) => (first, rest),
        None => return None,
    };
    match first {
        Said::Leads(_, _, _) => onward_all(*first, rest),
        Said::Sorted(_, _) => None,
    }
}

/// Whether facts lead on from one to the next.
pub fn chain(
    alloc: Global,
    sig: &Signature,
    store: &Store,
    said: &[Said],
    numbers: &[u64],
) -> Result<Option<Said>, NoMemory>
    ensures { (before : List Says) → AreSaid sig.now store.now said.now before → IfOk result (λ o. Decides sig.now store.now o
        (With (all_numbered before numbers.now) (LeadOn sig.now))
        (leads_if (all_equational (facts_at before numbers.now)) (start_of (facts_at before numbers.now)) (end_of (facts_at before numbers.now)))) }
{
    let uses = match said_all(alloc, said, numbers) {
        Ok(Some(uses)) => uses,
        Ok(None) => return Ok(None),
        Err(fault) => return Err(fault),
    };
    Ok(chained(sig, store, &uses))
}

/// What facts lead from and to, and whether all do so by equations.
#[derive(Drop, Debug)]
struct Ends {
    equations: bool,
    starts: Vec<Kept>,
    ends: Vec<Kept>,
}

/// Whether both hold.
fn both(first: bool, second: bool) -> bool
    ensures { result ≡ (first && second) }
{
    first && second
}

/// What facts lead from and to, if each leads from a term to a term.
fn ends_of(alloc: Global, uses: &[Said]) -> Result<Option<Ends>, NoMemory>
    ensures some { IfOk result (λ o. IfSome o (λ e. AreEnds uses.now e.equations e.starts.items e.ends.items)) }
    ensures none { IfOk result (λ o. IfNone o ((equations : Bool) (starts ends : List Kept) → AreEnds uses.now equations starts ends → ⊥)) }
{
    let mut equations = true;
    let mut starts = Vec::new(alloc);
    let mut ends = Vec::new(alloc);
    for said in uses {
        let (e, a, b) = match *said {
            Said::Leads(e, a, b) => (e, a, b),
            Said::Sorted(_, _) => return Ok(None),
        };
        equations = both(equations, e);
        starts.push(a)?;
        ends.push(b)?;
    }
    Ok(Some(Ends {
        equations,
        starts,
        ends,
    }))
}

/// Whether an operator over some terms is equal to a term.
fn is_over(
    store: &mut Store,
    sig: &Signature,
    op: u32,
    args: &[Kept],
    whole: Kept,
) -> Result<bool, NoMemory>
    requires { (ts : List Tree) × AreKeptFor sig.now store.old args.now ts }
    ensures over { (ts : List Tree) (t : Tree) → AreKeptFor sig.now store.old args.now ts → IsKeptFor sig.now store.old whole t →
        IfOk result (λ yes. IsTrue yes ↔ (IsOperator sig.now op × With (over sig.now op ts) (EqualModulo (terms_over sig.now) t))) }
    ensures extends { Extends store.old store.new }
{
    let _ = sig.operators();
    let built = build_over(store, sig, op, args)?;
    let _ = store.len();
    match built {
        Some(built) => Ok(built.id.0 == whole.id.0),
        None => Ok(false),
    }
}

/// Whether an operator leads from a term to another, over what facts lead from and to.
fn leads_under(
    alloc: Global,
    store: &mut Store,
    sig: &Signature,
    op: u32,
    uses: &[Said],
    from: Kept,
    to: Kept,
) -> Result<Option<Said>, NoMemory>
    requires { (xs : List Says) × AreSaid sig.now store.old uses.now xs }
    ensures decided { (xs : List Says) (t u : Tree) → AreSaid sig.now store.old uses.now xs → IsKeptFor sig.now store.old from t → IsKeptFor sig.now store.old to u →
        IfOk result (λ o. Decides sig.now store.new o (IsUnder sig.now op xs t u) (leads (all_equational xs) t u)) }
    ensures extends { Extends store.old store.new }
{
    let _ = sig.operators();
    let _ = store.len();
    let ends = match ends_of(alloc, uses) {
        Ok(Some(ends)) => ends,
        Ok(None) => return Ok(None),
        Err(fault) => return Err(fault),
    };
    if uses.is_empty() {
        return Ok(None);
    }
    let begins = is_over(store, sig, op, &ends.starts, from)?;
    if !begins {
        return Ok(None);
    }
    let finishes = is_over(store, sig, op, &ends.ends, to)?;
    if !finishes {
        return Ok(None);
    }
    Ok(Some(Said::Leads(ends.equations, from, to)))
}

/// Whether a fact `under` is justified.
pub fn under(
    alloc: Global,
    store: &mut Store,
    sig: &Signature,
    kept: &[Option<Kept>],
    said: &[Said],
    fact: &UnderFact,
) -> Result<Option<Said>, NoMemory>
    requires kept { (terms : List (Option Tree)) × AreKept sig.now store.old kept.now terms }
    requires said { (before : List Says) × AreSaid sig.now store.old said.now before }
    ensures decided { (terms : List (Option Tree)) (before : List Says) → AreKept sig.now store.old kept.now terms → AreSaid sig.now store.old said.now before →
        IfOk result (λ o. Decides sig.now store.new o
        (WithTerm sig.now terms fact.now.from λ t. WithTerm sig.now terms fact.now.to λ u. With (all_numbered before fact.now.facts) λ xs. IsUnder sig.now fact.now.op xs t u)
        (leads_if (all_equational (facts_at before fact.now.facts)) (term_at terms fact.now.from) (term_at terms fact.now.to))) }
    ensures extends { Extends store.old store.new }
{
    let from = match kept_at(kept, fact.from) {
        Some(from) => from,
        None => return Ok(None),
    };
    let to = match kept_at(kept, fact.to) {
        Some(to) => to,
        None => return Ok(None),
    };
    let uses = match said_all(alloc, said, fact.facts.items()) {
        Ok(Some(uses)) => uses,
        Ok(None) => return Ok(None),
        Err(fault) => return Err(fault),
    };
    leads_under(alloc, store, sig, fact.op, &uses, from, to)
}
