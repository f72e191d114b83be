//! Questions as a listing holds them, and the last test of values.
ghost use Rattle.std.specs.Prelude.{◌≡◌, ◌↔◌, length, map, IfOk, IsTrue};
ghost use Rattle.mau_terms.specs.Norm.{norm};
ghost use Rattle.mau_terms.specs.Bare.{IsBare};
ghost use Rattle.mau_terms.specs.Reading.{reading};
ghost use Rattle.mau_terms.specs.Subst.{variables, with_values};
ghost use Rattle.mau_terms.specs.View.{tree_of, variable_of};
ghost use Rattle.mau_signature.specs.Signature.{terms_over, theory_at};
ghost use Rattle.mau_store.specs.Node.{Extends};
ghost use Rattle.mau_store.specs.Trees.{tree_at, trees_at};
ghost use Rattle.mau_store.specs.View.{numbers};
ghost use Rattle.mau_canon.specs.Standing.{StandsWithin, StandWithin};
ghost use Rattle.mau_listing.specs.Places.{variables_in};
ghost use Rattle.mau_trial.specs.Tried.{ArePlacesOf, IsReadyToTry, IsTried, asked_in, without_context};

use crate::fits::{are_for, are_of_kinds_at};
use crate::kinds::kind_of;
use mau_canon::{BuildFault, build_instance};
use mau_listing::{Place, Solution};
use mau_signature::Signature;
use mau_sorts::SortTable;
use mau_store::Store;
use mau_terms::{Bare, Duplicate, NoMemory, Seq, TermId, VarId};
use std::alloc::Global;
use std::cmp::Ordering;

/// A pattern, values that some variables have beforehand, a subject, and the last solution, if there is one.
#[derive(Drop)]
pub struct Trial {
    pub pattern: Bare,
    pub bound: Vec<(VarId, TermId)>,
    pub subject: TermId,
    pub last: Option<Solution>,
}

/// The variables of places.
pub fn variables_of(alloc: Global, places: &[Place]) -> Result<Vec<VarId>, NoMemory>
    ensures { IfOk result (λ variables. variables.items ≡ variables_in places.now) }
{
    let mut variables = Vec::with_capacity(alloc, places.len())?;
    for place in places {
        variables.push(place.variable)?;
    }
    Ok(variables)
}

/// The pairs of a variable and its value.
pub fn copy_bound(
    alloc: Global,
    bound: &[(VarId, TermId)],
) -> Result<Vec<(VarId, TermId)>, NoMemory>
    ensures { IfOk result (λ copy. copy.items ≡ bound.now) }
{
    let mut copy = Vec::with_capacity(alloc, bound.len())?;
    copy.extend_from_slice(bound)?;
    Ok(copy)
}

/// The solution with these values and no context.
pub fn solution_of(alloc: Global, values: &Seq<TermId>) -> Result<Solution, NoMemory>
    ensures { IfOk result (λ x. x ≡ without_context values.now) }
{
    Ok(Solution {
        left: Seq::new(Vec::new(alloc)),
        right: Seq::new(Vec::new(alloc)),
        values: values.copy(alloc)?,
    })
}

/// Whether the instance of a pattern by values, read as bare terms, is a bare term.
fn is_bare_instance(
    store: &Store,
    sig: &Signature,
    pattern: &Bare,
    places: &[Place],
    values: &[TermId],
) -> bool
    requires pattern { IsBare (terms_over sig.now) (tree_of pattern.now) }
    requires places { ArePlacesOf sig.now (tree_of pattern.now) places.now }
    requires values { StandWithin (theory_at sig.now) store.now (numbers values.now) }
    requires each { length values.now ≡ length places.now }
    ensures { IsTrue result ↔ IsBare (terms_over sig.now) (with_values (tree_of pattern.now) (map (reading (theory_at sig.now)) (trees_at store.now (numbers values.now)))) }
{
    match pattern {
        Bare::Var(_) => kind_of(store, sig, values[0]).is_some(),
        Bare::Num(_) => true,
        Bare::App(_, _) => are_of_kinds_at(store, sig, places, values),
    }
}

/// Whether the normal form of the instance of a pattern by values is the subject.
fn is_whole(
    store: &mut Store,
    sig: &Signature,
    pattern: &Bare,
    variables: &[VarId],
    values: &[TermId],
    subject: TermId,
) -> Result<bool, NoMemory>
    requires pattern { IsBare (terms_over sig.now) (tree_of pattern.now) }
    requires variables { map variable_of variables.now ≡ Rattle.mau_terms.specs.Subst.variables (tree_of pattern.now) }
    requires values { StandWithin (theory_at sig.now) store.old (numbers values.now) }
    requires subject { StandsWithin (theory_at sig.now) store.old subject.0 }
    ensures whole { IfOk result (λ b. IsTrue b ↔ (norm (theory_at sig.now) (with_values (tree_of pattern.now) (trees_at store.old (numbers values.now))) ≡ tree_at store.old subject.0)) }
    ensures extends { Extends store.old store.new }
{
    match build_instance(store, sig, pattern, variables, values) {
        Ok(id) => Ok(store.compare(id, subject) == Ordering::Equal),
        Err(BuildFault::NoMemory) => Err(NoMemory),
        Err(BuildFault::TooDeep) => Ok(false),
        Err(BuildFault::Overflow) => Ok(false),
    }
}

/// Whether values are those of a solution without context: they are for the places of the pattern, and make a bare instance whose normal
/// form is the subject.
pub fn solves(
    store: &mut Store,
    sig: &Signature,
    sorts: &SortTable,
    trial: &Trial,
    places: &[Place],
    variables: &[VarId],
    values: &[TermId],
) -> Result<bool, NoMemory>
    requires ready { IsReadyToTry sig.now store.old sorts.now trial.now places.now }
    requires variables { variables.now ≡ variables_in places.now }
    requires values { StandWithin (theory_at sig.now) store.old (numbers values.now) }
    ensures solves { IfOk result (λ b. IsTrue b ↔ IsTried sig.now store.old sorts.now (asked_in trial.now) places.now values.now) }
    ensures extends { Extends store.old store.new }
{
    if values.len() != places.len() {
        return Ok(false);
    }
    if !are_for(sig, sorts, &trial.bound, places, values) {
        return Ok(false);
    }
    if !is_bare_instance(store, sig, &trial.pattern, places, values) {
        return Ok(false);
    }
    is_whole(store, sig, &trial.pattern, variables, values, trial.subject)
}
