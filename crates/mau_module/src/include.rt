//! What a module includes: the modules that it imports, with all that they include.
ghost use Rattle.std.specs.Prelude.{◌≡◌, ◌<◌, ◌≤◌, ◌+◌, ℕ, List, length, fold, All, None, Some, IfOk, OnOk, IfErr};
ghost use Rattle.mau_declare.specs.Imports.{imports};
ghost use Rattle.mau_declare.specs.Names.{with_name};
ghost use Rattle.mau_module.specs.Faults.{IfFault};
ghost use Rattle.mau_module.specs.Included.{first_unknown, numbers_of, depth_over, parts_of, with_part, sorts_of};
ghost use Rattle.mau_module.specs.declared.TheConstants.{MAX_DEPTH};

use crate::fault::ModuleFault;
use crate::library::Library;
use mau_declare::{Names, Words, import_name};
use mau_modtext::RawElement;
use mau_terms::{NoMemory, Text};
use std::alloc::Global;

/// The fault of a name that no module has.
fn unknown_module(alloc: Global, name: &str) -> ModuleFault
    ensures { IfFault (λ f. f ≡ ModuleFault.UnknownModule name.now) result }
{
    match Text::new(alloc, name) {
        Ok(name) => ModuleFault::UnknownModule(name),
        Err(NoMemory) => ModuleFault::NoMemory,
    }
}

/// The numbers of the modules that elements import.
pub fn import_numbers(
    alloc: Global,
    library: &Library,
    words: &Words,
    elements: &[RawElement],
) -> Result<Vec<usize>, ModuleFault>
    ensures ok { IfOk result (λ numbers. numbers.items ≡ numbers_of library.now (imports words.now elements.now)) }
    ensures known { OnOk result (first_unknown library.now (imports words.now elements.now) ≡ None) }
    ensures within { IfOk result (λ numbers. All (λ i. i < length library.now) numbers.items) }
    ensures unknown { IfErr result (IfFault (λ f. (name : List ℕ) × (f ≡ ModuleFault.UnknownModule name) × (first_unknown library.now (imports words.now elements.now) ≡ Some name))) }
{
    let mut numbers = Vec::new(alloc);
    for element in elements {
        match import_name(words, element) {
            Some(name) => match library.find(name) {
                Some(number) => numbers.push(number)?,
                None => return Err(unknown_module(alloc, name)),
            },
            None => (),
        }
    }
    Ok(numbers)
}

/// The depth of a module with these imports.
pub fn depth_over(library: &Library, imports: &[usize]) -> u32
    requires { All (λ i. i < length library.now) imports.now }
    ensures depth { result ≡ depth_over library.now imports.now }
    ensures limit { result ≤ MAX_DEPTH + 1 }
{
    let mut deepest = 0;
    for number in imports {
        deepest = u32::max(deepest, library.module(*number).depth());
    }
    deepest + 1
}

/// Adds a part, unless it is there.
fn add_part(parts: &mut Vec<usize>, part: usize) -> Result<(), NoMemory>
    ensures { OnOk result (parts.new.items ≡ with_part parts.old.items part) }
{
    if !parts.contains(&part) {
        parts.push(part)?;
    }
    Ok(())
}

/// Adds parts that are not there.
fn add_parts(parts: &mut Vec<usize>, more: &[usize]) -> Result<(), NoMemory>
    ensures { OnOk result (parts.new.items ≡ fold with_part parts.old.items more.now) }
{
    for part in more {
        add_part(parts, *part)?;
    }
    Ok(())
}

/// The parts of some modules, in order, each once.
pub fn parts_of(alloc: Global, library: &Library, imports: &[usize]) -> Result<Vec<usize>, NoMemory>
    requires { All (λ i. i < length library.now) imports.now }
    ensures value { IfOk result (λ parts. parts.items ≡ parts_of library.now imports.now) }
    ensures within { IfOk result (λ parts. All (λ p. p < length library.now) parts.items) }
{
    let mut parts = Vec::new(alloc);
    for number in imports {
        add_parts(&mut parts, library.module(*number).parts())?;
    }
    Ok(parts)
}

/// Adds names that are not there.
fn add_names(names: &mut Names, more: &Names) -> Result<(), NoMemory>
    ensures names { OnOk result (names.new ≡ fold with_name names.old more.now) }
{
    for number in 0..more.len() {
        match more.get(number) {
            Some(name) => {
                names.add(name)?;
            }
            None => unreachable!(),
        }
    }
    Ok(())
}

/// The names of the sorts of some modules, each once.
pub fn sorts_of(alloc: Global, library: &Library, parts: &[usize]) -> Result<Names, NoMemory>
    requires { All (λ p. p < length library.now) parts.now }
    ensures value { IfOk result (λ names. names ≡ sorts_of library.now parts.now) }
{
    let mut names = Names::new(alloc);
    for part in parts {
        add_names(&mut names, library.module(*part).sorts())?;
    }
    Ok(names)
}
