//! Lists of values that are tried.
ghost use Rattle.std.specs.Prelude.{◌≡◌, ◌↔◌, List, All, Contains, IfOk, OnOk, IsTrue};
ghost use Rattle.mau_terms.specs.declared.ids.TermId.{TermId};
ghost use Rattle.mau_signature.specs.Signature.{theory_at};
ghost use Rattle.mau_store.specs.Node.{Extends};
ghost use Rattle.mau_store.specs.View.{numbers};
ghost use Rattle.mau_canon.specs.Standing.{StandWithin};
ghost use Rattle.mau_listing.specs.Places.{variables_in};
ghost use Rattle.mau_trial.specs.Tried.{IsReadyToTry};
ghost use Rattle.mau_plain.specs.Behind.{AddsTried, IsTriedBehind};

use crate::least::is_behind;
use mau_listing::Place;
use mau_signature::Signature;
use mau_sorts::SortTable;
use mau_store::Store;
use mau_terms::{Duplicate, NoMemory, Seq, TermId, VarId};
use mau_trial::{Trial, solves};

/// Whether values are the next that are tried with success: they solve, and come behind the last solution's.
fn is_tried(
    store: &mut Store,
    sig: &Signature,
    sorts: &SortTable,
    trial: &Trial,
    places: &[Place],
    variables: &[VarId],
    values: &[TermId],
) -> Result<bool, NoMemory>
    requires ready { IsReadyToTry sig.now store.old sorts.now trial.now places.now }
    requires variables { variables.now ≡ variables_in places.now }
    requires values { StandWithin (theory_at sig.now) store.old (numbers values.now) }
    ensures tried { IfOk result (λ b. IsTrue b ↔ IsTriedBehind sig.now store.old sorts.now trial.now places.now values.now) }
    ensures extends { Extends store.old store.new }
{
    if values.len() != places.len() {
        return Ok(false);
    }
    if !is_behind(store, sig, places, &trial.last, values) {
        return Ok(false);
    }
    solves(store, sig, sorts, trial, places, variables, values)
}

/// Adds a list of values if it is tried with success.
fn push_tried(
    store: &mut Store,
    sig: &Signature,
    sorts: &SortTable,
    trial: &Trial,
    places: &[Place],
    variables: &[VarId],
    values: &Seq<TermId>,
    out: &mut Vec<Seq<TermId>>,
) -> Result<(), NoMemory>
    requires ready { IsReadyToTry sig.now store.old sorts.now trial.now places.now }
    requires variables { variables.now ≡ variables_in places.now }
    requires values { StandWithin (theory_at sig.now) store.old (numbers values.now) }
    ensures added { OnOk result (AddsTried sig.now store.old sorts.now trial.now places.now values.now out.old.items out.new.items) }
    ensures extends { Extends store.old store.new }
{
    let is_one = is_tried(store, sig, sorts, trial, places, variables, values.items())?;
    if !is_one {
        return Ok(());
    }
    out.push(values.copy(store.allocator())?)?;
    Ok(())
}

/// Those of some lists of values that are tried with success.
pub fn tried_among(
    store: &mut Store,
    sig: &Signature,
    sorts: &SortTable,
    trial: &Trial,
    places: &[Place],
    variables: &[VarId],
    lists: &[Seq<TermId>],
) -> Result<Vec<Seq<TermId>>, NoMemory>
    requires ready { IsReadyToTry sig.now store.old sorts.now trial.now places.now }
    requires variables { variables.now ≡ variables_in places.now }
    requires values { All (λ l. StandWithin (theory_at sig.now) store.old (numbers l)) lists.now }
    ensures among { IfOk result (λ out. All (Contains lists.now) out.items) }
    ensures tried { IfOk result (λ out. All (IsTriedBehind sig.now store.old sorts.now trial.now places.now) out.items) }
    ensures all { IfOk result (λ out. (l : List TermId) → Contains lists.now l → IsTriedBehind sig.now store.old sorts.now trial.now places.now l → Contains out.items l) }
    ensures extends { Extends store.old store.new }
{
    let mut out = Vec::new(store.allocator());
    for list in lists {
        push_tried(store, sig, sorts, trial, places, variables, list, &mut out)?;
    }
    Ok(out)
}
