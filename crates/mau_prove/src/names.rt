//! Variables and holes as text.
ghost use Rattle.std.specs.Prelude.{◌≡◌, ◌<◌, length};
ghost use Rattle.mau_program.specs.LawfulPrograms.{IsLawfulProgram};

use mau_program::Program;
use mau_terms::{NoMemory, Text};
use std::alloc::Global;

/// The first sort of a kind; the number of all sorts where there is none.
fn first_sort(program: &Program, kind: u32) -> u32 {
    let poset = program.sig.poset();
    for sort in 0..poset.sorts() {
        if poset.kind_of(sort) == kind {
            return sort;
        }
    }
    poset.sorts()
}

/// The name of a sort.
fn name_of(program: &Program, sort: u32) -> Option<&str> {
    match program.sorts.items().get(sort as usize) {
        Some(name) => Some(name.as_str()),
        None => None,
    }
}

/// A variable with its sort, or with the first sort of its kind in brackets.
pub fn variable_text(
    alloc: Global,
    program: &Program,
    name: &str,
    sort: u32,
) -> Result<Text, NoMemory> {
    if sort < program.sig.poset().sorts() {
        let sort = name_of(program, sort).ok_or(NoMemory)?;
        let text = format!(in alloc; "{name}:{sort}")?;
        return Text::new(alloc, text.as_str());
    }
    let sort = name_of(program, first_sort(program, sort)).ok_or(NoMemory)?;
    let text = format!(in alloc; "{name}:[{sort}]")?;
    Text::new(alloc, text.as_str())
}
