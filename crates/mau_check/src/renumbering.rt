//! Arguments by the numbers of another store.
ghost use Rattle.std.specs.Prelude.{◌≡◌, length, map, slice_index, IfOk};
ghost use Rattle.mau_store.specs.Node.{AreBelow};
ghost use Rattle.mau_store.specs.View.{numbers as numbers_of};

use mau_terms::{NoMemory, TermId};
use std::alloc::Global;

/// The numbers of arguments, by those of all older nodes.
pub fn renumbered(
    alloc: Global,
    numbers: &[TermId],
    args: &[TermId],
) -> Result<Vec<TermId>, NoMemory>
    requires { AreBelow (length numbers.now) (numbers_of args.now) }
    ensures { IfOk result (λ ids. numbers_of ids.items ≡ map (slice_index (numbers_of numbers.now)) (numbers_of args.now)) }
{
    let mut ids = Vec::with_capacity(alloc, args.len())?;
    for arg in args {
        ids.push(numbers[arg.0])?;
    }
    Ok(ids)
}
