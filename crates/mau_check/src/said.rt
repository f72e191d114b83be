//! What the facts before a fact say.
ghost use Rattle.std.specs.Prelude.{◌≡◌, List, Option, None, IfOk, IfSome, IfNone};
ghost use Rattle.mau_signature.specs.Signature.{SignatureOf};
ghost use Rattle.mau_store.specs.Node.{Node};
ghost use Rattle.mau_api.specs.Variables.{numbered};
ghost use Rattle.mau_logic.specs.Says.{Says};
ghost use Rattle.mau_logic.specs.Lines.{all_numbered};
ghost use Rattle.mau_logic.specs.Justified.{With};
ghost use Rattle.mau_check.specs.Said.{IsSaid, AreSaid};

use crate::kept::Kept;
use mau_terms::NoMemory;
use std::alloc::Global;

/// What a justified fact says: one term leads to another, by equations alone or not, or a term has a sort, by its number from 0.
#[derive(Clone, Copy, PartialEq, Eq, Debug)]
pub enum Said {
    Leads(bool, Kept, Kept),
    Sorted(Kept, u32),
}

/// What the fact with a number says, counted from 1.
pub fn said_at(said: &[Said], number: u64) -> Option<Said>
    ensures some { (s : SignatureOf) (nodes : List Node) (before : List Says) → AreSaid s nodes said.now before →
        IfSome result (λ x. With (numbered before number) (IsSaid s nodes x)) }
    ensures none { (s : SignatureOf) (nodes : List Node) (before : List Says) → AreSaid s nodes said.now before →
        IfNone result (numbered before number ≡ None) }
{
    if number == 0 || number > said.len() as u64 {
        return None;
    }
    Some(said[number as usize - 1])
}

/// What the facts with these numbers say, if they are all there.
pub fn said_all(
    alloc: Global,
    said: &[Said],
    numbers: &[u64],
) -> Result<Option<Vec<Said>>, NoMemory>
    ensures some { (s : SignatureOf) (nodes : List Node) (before : List Says) → AreSaid s nodes said.now before →
        IfOk result (λ o. IfSome o (λ v. With (all_numbered before numbers.now) (AreSaid s nodes v.items))) }
    ensures none { (s : SignatureOf) (nodes : List Node) (before : List Says) → AreSaid s nodes said.now before →
        IfOk result (λ o. IfNone o (all_numbered before numbers.now ≡ None)) }
{
    let mut all = Vec::new(alloc);
    for number in numbers {
        let one = match said_at(said, *number) {
            Some(one) => one,
            None => return Ok(None),
        };
        all.push(one)?;
    }
    Ok(Some(all))
}
