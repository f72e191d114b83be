//! What a fact names.
ghost use Rattle.std.specs.Prelude.{◌≡◌, List, Option, IfOk, IfSome, IfNone};
ghost use Rattle.mau_terms.specs.Tree.{Tree};
ghost use Rattle.mau_signature.specs.Signature.{SignatureOf};
ghost use Rattle.mau_store.specs.Node.{Node};
ghost use Rattle.mau_logic.specs.Says.{Says};
ghost use Rattle.mau_check.specs.Kept.{AreKept};
ghost use Rattle.mau_check.specs.Said.{AreSaid};
ghost use Rattle.mau_check.specs.Named.{IsNamedBy, NameAll, IsBoundBy, BindsAll};

use crate::kept::{Kept, kept_all, kept_at};
use crate::said::{Said, said_all};
use mau_terms::NoMemory;
use std::alloc::Global;

/// What a fact in a context names: the context, where it leads from and to, the values of a statement's variables or the arguments of an
/// operator, and what the facts in use say.
#[derive(Drop, Debug)]
pub struct Named {
    pub context: Kept,
    pub from: Kept,
    pub to: Kept,
    pub values: Vec<Kept>,
    pub uses: Vec<Said>,
}

/// What a fact about the sort of a term names: the term, the values of a membership's variables, and what the facts in use say.
#[derive(Drop, Debug)]
pub struct Bound {
    pub term: Kept,
    pub values: Vec<Kept>,
    pub uses: Vec<Said>,
}

/// What a fact in a context names by these numbers, if it is all there.
pub fn named_by(
    alloc: Global,
    kept: &[Option<Kept>],
    said: &[Said],
    context: u64,
    from: u64,
    to: u64,
    values: &[u64],
    uses: &[u64],
) -> Result<Option<Named>, NoMemory>
    ensures some { (s : SignatureOf) (nodes : List Node) (terms : List (Option Tree)) (before : List Says) → AreKept s nodes kept.now terms → AreSaid s nodes said.now before →
        IfOk result (λ o. IfSome o (IsNamedBy s nodes terms before (record { context = context; from = from; to = to; values = values.now; uses = uses.now }))) }
    ensures none { (s : SignatureOf) (nodes : List Node) (terms : List (Option Tree)) (before : List Says) → AreKept s nodes kept.now terms → AreSaid s nodes said.now before →
        IfOk result (λ o. IfNone o (NameAll s terms before (record { context = context; from = from; to = to; values = values.now; uses = uses.now }) → ⊥)) }
{
    let context = match kept_at(kept, context) {
        Some(context) => context,
        None => return Ok(None),
    };
    let from = match kept_at(kept, from) {
        Some(from) => from,
        None => return Ok(None),
    };
    let to = match kept_at(kept, to) {
        Some(to) => to,
        None => return Ok(None),
    };
    let values = match kept_all(alloc, kept, values) {
        Ok(Some(values)) => values,
        Ok(None) => return Ok(None),
        Err(fault) => return Err(fault),
    };
    let uses = match said_all(alloc, said, uses) {
        Ok(Some(uses)) => uses,
        Ok(None) => return Ok(None),
        Err(fault) => return Err(fault),
    };
    Ok(Some(Named {
        context,
        from,
        to,
        values,
        uses,
    }))
}

/// What a fact about the sort of a term names by these numbers, if it is all there.
pub fn bound_by(
    alloc: Global,
    kept: &[Option<Kept>],
    said: &[Said],
    term: u64,
    values: &[u64],
    uses: &[u64],
) -> Result<Option<Bound>, NoMemory>
    ensures some { (s : SignatureOf) (nodes : List Node) (terms : List (Option Tree)) (before : List Says) → AreKept s nodes kept.now terms → AreSaid s nodes said.now before →
        IfOk result (λ o. IfSome o (IsBoundBy s nodes terms before term values.now uses.now)) }
    ensures none { (s : SignatureOf) (nodes : List Node) (terms : List (Option Tree)) (before : List Says) → AreKept s nodes kept.now terms → AreSaid s nodes said.now before →
        IfOk result (λ o. IfNone o (BindsAll s terms before term values.now uses.now → ⊥)) }
{
    let term = match kept_at(kept, term) {
        Some(term) => term,
        None => return Ok(None),
    };
    let values = match kept_all(alloc, kept, values) {
        Ok(Some(values)) => values,
        Ok(None) => return Ok(None),
        Err(fault) => return Err(fault),
    };
    let uses = match said_all(alloc, said, uses) {
        Ok(Some(uses)) => uses,
        Ok(None) => return Ok(None),
        Err(fault) => return Err(fault),
    };
    Ok(Some(Bound { term, values, uses }))
}
