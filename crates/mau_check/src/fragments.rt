//! Whether facts show the fragments of a condition.
ghost use Rattle.std.specs.Prelude.{◌≡◌, ◌↔◌, ◌<◌, List, All, IfOk, IsTrue, true};
ghost use Rattle.std.specs.List.{list_any};
ghost use Rattle.mau_terms.specs.Tree.{Tree};
ghost use Rattle.mau_terms.specs.Bare.{IsBare, IsLawful};
ghost use Rattle.mau_terms.specs.Subst.{instance, value_at};
ghost use Rattle.mau_terms.specs.View.{tree_of};
ghost use Rattle.mau_signature.specs.Signature.{theory_at, terms_over};
ghost use Rattle.mau_store.specs.Node.{Extends};
ghost use Rattle.mau_store.specs.View.{numbers};
ghost use Rattle.mau_canon.specs.Standing.{StandWithin};
ghost use Rattle.mau_program.specs.LawfulStatements.{IsLawfulFragment};
ghost use Rattle.mau_logic.specs.Says.{Says};
ghost use Rattle.mau_logic.specs.Shown.{LeadsTo, Shows, ShowsAll};
ghost use Rattle.mau_check.specs.Said.{AreSaid, is_lead, is_meeting};
ghost use Rattle.mau_check.specs.Told.{IsPlainTable};
ghost use Rattle.mau_check.specs.Instances.{AreValuesOf, AreBound, ShowsEqual, ShowsSort};
ghost use Rattle.mau_check.specs.Variables.{variables_in};

use crate::instances::{Values, instance_of};
use crate::said::Said;
use crate::sorts::end_in_sort;
use mau_program::Fragment;
use mau_signature::Signature;
use mau_sorts::SortTable;
use mau_store::Store;
use mau_terms::{Bare, NoMemory, TermId};

/// Whether a fact leads from a term to another, where `equations` by equations alone.
fn is_lead(said: Said, equations: bool, from: TermId, to: TermId) -> bool
    ensures { result ≡ is_lead equations from.0 to.0 said }
{
    match said {
        Said::Leads(e, a, b) => (e || !equations) && (a.id.0 == from.0 && b.id.0 == to.0),
        Said::Sorted(_, _) => false,
    }
}

/// Whether one of some facts does.
fn some_lead(uses: &[Said], equations: bool, from: TermId, to: TermId) -> bool
    ensures { result ≡ list_any (is_lead equations from.0 to.0) uses.now }
{
    uses.iter().any(|said| is_lead(*said, equations, from, to))
}

/// Whether a fact leads by equations from the first of two terms to where another leads from the second.
fn is_meeting(uses: &[Said], said: Said, first: TermId, second: TermId) -> bool
    ensures { result ≡ is_meeting uses.now first.0 second.0 said }
{
    match said {
        Said::Leads(e, a, b) => e && a.id.0 == first.0 && some_lead(uses, true, second, b.id),
        Said::Sorted(_, _) => false,
    }
}

/// Whether facts lead by equations from both of two terms to one.
fn some_meeting(uses: &[Said], first: TermId, second: TermId) -> bool
    ensures { result ≡ list_any (is_meeting uses.now first.0 second.0) uses.now }
{
    uses.iter()
        .any(|said| is_meeting(uses, *said, first, second))
}

/// Whether facts lead from the instance of a term to that of another, where `equations` by equations alone.
fn shows_lead(
    store: &mut Store,
    sig: &Signature,
    uses: &[Said],
    values: &Values,
    equations: bool,
    from: &Bare,
    to: &Bare,
) -> Result<bool, NoMemory>
    requires from { IsBare (terms_over sig.now) (tree_of from.now) }
    requires to { IsBare (terms_over sig.now) (tree_of to.now) }
    requires values { StandWithin (theory_at sig.now) store.old (numbers values.now.ids.items) }
    ensures shows { (us : List Says) (vs : List Tree) → AreSaid sig.now store.old uses.now us → AreBound sig.now store.old values.now vs → IfOk result (λ yes. IsTrue yes ↔
        LeadsTo sig.now us equations (instance (value_at (variables_in values.now.variables.items) vs) (tree_of from.now)) (instance (value_at (variables_in values.now.variables.items) vs) (tree_of to.now))) }
    ensures extends { Extends store.old store.new }
{
    let _ = sig.operators();
    let start = match instance_of(store, sig, from, values) {
        Ok(Some(start)) => start,
        Ok(None) => return Ok(false),
        Err(fault) => return Err(fault),
    };
    let end = match instance_of(store, sig, to, values) {
        Ok(Some(end)) => end,
        Ok(None) => return Ok(false),
        Err(fault) => return Err(fault),
    };
    let _ = store.len();
    Ok(some_lead(uses, equations, start, end))
}

/// Whether facts lead by equations from the instances of two terms to one term.
fn shows_equal(
    store: &mut Store,
    sig: &Signature,
    uses: &[Said],
    values: &Values,
    left: &Bare,
    right: &Bare,
) -> Result<bool, NoMemory>
    requires left { IsBare (terms_over sig.now) (tree_of left.now) }
    requires right { IsBare (terms_over sig.now) (tree_of right.now) }
    requires values { StandWithin (theory_at sig.now) store.old (numbers values.now.ids.items) }
    ensures shows { (us : List Says) (vs : List Tree) → AreSaid sig.now store.old uses.now us → AreBound sig.now store.old values.now vs → IfOk result (λ yes. IsTrue yes ↔
        ShowsEqual sig.now us (instance (value_at (variables_in values.now.variables.items) vs) (tree_of left.now)) (instance (value_at (variables_in values.now.variables.items) vs) (tree_of right.now))) }
    ensures extends { Extends store.old store.new }
{
    let _ = sig.operators();
    let first = match instance_of(store, sig, left, values) {
        Ok(Some(first)) => first,
        Ok(None) => return Ok(false),
        Err(fault) => return Err(fault),
    };
    let second = match instance_of(store, sig, right, values) {
        Ok(Some(second)) => second,
        Ok(None) => return Ok(false),
        Err(fault) => return Err(fault),
    };
    let _ = store.len();
    Ok(some_meeting(uses, first, second))
}

/// Whether facts lead by equations from the instance of a term to a term of a sort.
fn shows_sort(
    store: &mut Store,
    sig: &Signature,
    plain: &mut SortTable,
    uses: &[Said],
    values: &Values,
    term: &Bare,
    sort: u32,
) -> Result<bool, NoMemory>
    requires term { IsBare (terms_over sig.now) (tree_of term.now) }
    requires sort { sort < sig.now.hierarchy.sorts }
    requires values { StandWithin (theory_at sig.now) store.old (numbers values.now.ids.items) }
    requires uses { (us : List Says) × AreSaid sig.now store.old uses.now us }
    requires plain { IsPlainTable sig.now store.old plain.old }
    ensures plain { IsPlainTable sig.now store.new plain.new }
    ensures shows { (us : List Says) (vs : List Tree) → AreSaid sig.now store.old uses.now us → AreBound sig.now store.old values.now vs → IfOk result (λ yes. IsTrue yes ↔
        ShowsSort sig.now us sort (instance (value_at (variables_in values.now.variables.items) vs) (tree_of term.now))) }
    ensures extends { Extends store.old store.new }
{
    let _ = sig.operators();
    let from = match instance_of(store, sig, term, values) {
        Ok(Some(from)) => from,
        Ok(None) => return Ok(false),
        Err(fault) => return Err(fault),
    };
    let _ = store.len();
    end_in_sort(sig, store, plain, uses, from, sort)
}

/// Whether facts show a fragment, for these values of its variables.
fn shows(
    store: &mut Store,
    sig: &Signature,
    plain: &mut SortTable,
    uses: &[Said],
    values: &Values,
    fragment: &Fragment,
) -> Result<bool, NoMemory>
    requires fragment { IsLawfulFragment sig.now fragment.now }
    requires values { StandWithin (theory_at sig.now) store.old (numbers values.now.ids.items) }
    requires uses { (us : List Says) × AreSaid sig.now store.old uses.now us }
    requires plain { IsPlainTable sig.now store.old plain.old }
    ensures plain { IsPlainTable sig.now store.new plain.new }
    ensures shows { (us : List Says) (vs : List Tree) → AreSaid sig.now store.old uses.now us → AreBound sig.now store.old values.now vs → IfOk result (λ yes. IsTrue yes ↔
        Shows sig.now us (value_at (variables_in values.now.variables.items) vs) fragment.now) }
    ensures extends { Extends store.old store.new }
{
    match fragment {
        Fragment::Equal(left, right) => shows_equal(store, sig, uses, values, left, right),
        Fragment::Match(pattern, term) => shows_lead(store, sig, uses, values, true, term, pattern),
        Fragment::Sort(term, sort) => shows_sort(store, sig, plain, uses, values, term, *sort),
        Fragment::Reach(from, to) => shows_lead(store, sig, uses, values, false, from, to),
    }
}

/// Whether facts show all fragments of a condition.
pub fn shows_all(
    store: &mut Store,
    sig: &Signature,
    plain: &mut SortTable,
    uses: &[Said],
    values: &Values,
    cond: &[Fragment],
) -> Result<bool, NoMemory>
    requires cond { All (IsLawfulFragment sig.now) cond.now }
    requires values { StandWithin (theory_at sig.now) store.old (numbers values.now.ids.items) }
    requires uses { (us : List Says) × AreSaid sig.now store.old uses.now us }
    requires plain { IsPlainTable sig.now store.old plain.old }
    ensures plain { IsPlainTable sig.now store.new plain.new }
    ensures shows { (us : List Says) (vs : List Tree) → AreSaid sig.now store.old uses.now us → AreBound sig.now store.old values.now vs → IfOk result (λ yes. IsTrue yes ↔
        ShowsAll sig.now us (value_at (variables_in values.now.variables.items) vs) cond.now) }
    ensures extends { Extends store.old store.new }
{
    let _ = store.len();
    for fragment in cond {
        let shown = shows(store, sig, plain, uses, values, fragment)?;
        if !shown {
            return Ok(false);
        }
    }
    Ok(true)
}
