//! Holes as variables that can be shown.
ghost use Rattle.std.specs.Prelude.{◌≡◌, ◌<◌, ◌≤◌, ℕ, List, slice_get, length, OnOk};
ghost use Rattle.mau_terms.specs.Tree.{variable};
ghost use Rattle.mau_terms.specs.Vars.{place_of, same_pair};
ghost use Rattle.mau_docheck.specs.Holes.{with_holes, namer};

use mau_poset::Poset;
use mau_terms::{NoMemory, VarId, Vars};

/// The index of the variables that are holes.
pub const HOLE: u32 = 4_294_967_295;

/// The name with which holes are shown.
const HOLE_NAME: &str = "HOLE";

/// Adds a variable for the hole of each kind.
pub fn add_holes(vars: &mut Vars, poset: &Poset) -> Result<(), NoMemory>
    ensures { OnOk result (vars.new ≡ with_holes poset.now vars.old) }
{
    for i in 0..poset.kinds() {
        if vars.len() >= HOLE as usize {
            return Err(NoMemory);
        }
        vars.add(HOLE_NAME, poset.sorts() + i)?;
    }
    Ok(())
}

/// Whether the variable at a place has this name and sort.
fn is_at(vars: &Vars, index: u32, name: &str, sort: u32) -> bool
    ensures { (p : List ℕ × ℕ) → slice_get vars.now index ≡ Some p → result ≡ same_pair (name.now, sort) p }
{
    match vars.get(VarId { index, sort }) {
        Some((found, _)) => found == name,
        None => false,
    }
}

/// The place of the variable with this name and sort; the number of all variables where there is none.
fn place_of(vars: &Vars, name: &str, sort: u32) -> u32
    requires { length vars.now < 4294967296 }
    ensures { result ≡ place_of vars.now (name.now, sort) }
{
    let count = vars.len() as u32;
    for i in 0..count {
        if is_at(vars, i, name, sort) {
            return i;
        }
    }
    count
}

/// The variable as which a hole is shown; any other variable as it is.
pub fn named_variable(vars: &Vars, v: VarId) -> VarId
    requires { length vars.now < 4294967296 }
    ensures { variable result.index result.sort ≡ namer vars.now (v.index, v.sort) }
{
    if v.index != HOLE {
        return v;
    }
    VarId {
        index: place_of(vars, HOLE_NAME, v.sort),
        sort: v.sort,
    }
}
