//! What a module includes, and the names of its sorts.
ghost use Rattle.std.specs.Prelude.{◌≡◌, ◌<◌, ◌≤◌, ◌+◌, ℕ, List, length, All, None, Some, IfOk, OnOk, IfErr};
ghost use Rattle.mau_declare.specs.Imports.{imports};
ghost use Rattle.mau_module.specs.Faults.{IfFault};
ghost use Rattle.mau_module.specs.Included.{first_unknown};
ghost use Rattle.mau_module.specs.Library.{HasPrelude};
ghost use Rattle.mau_module.specs.Known.{AreKnown};
ghost use Rattle.mau_module.specs.Framed.{frame_of};
ghost use Rattle.mau_module.specs.declared.TheConstants.{MAX_DEPTH};

use crate::fault::ModuleFault;
use crate::include::{depth_over, import_numbers, parts_of, sorts_of};
use crate::library::{BOOL, Library};
use mau_declare::{Names, Words, add_declared_sorts};
use mau_modtext::{RawElement, RawModule};
use mau_terms::NoMemory;
use std::alloc::Global;
use std::marker::Model;

/// The modules that a module includes, its depth, and the names of its sorts.
#[derive(Drop)]
pub struct Frame {
    pub depth: u32,
    pub parts: Vec<usize>,
    pub names: Names,
}

impl Model for Frame {
    ghost use Rattle.mau_module.specs.Framed.{Frame};

    ghost Value = { Frame };

    ghost view = { λ f. record { depth = f.depth; parts = f.parts.items; names = f.names } };
}

/// The modules that a module includes, where it imports these.
fn parts_over(alloc: Global, library: &Library, imports: &[usize]) -> Result<Vec<usize>, NoMemory>
    requires prelude { HasPrelude library.now }
    requires imports { All (λ i. i < length library.now) imports.now }
    ensures parts { IfOk result (λ parts. parts.items ≡ Rattle.mau_module.specs.Framed.parts_over library.now imports.now) }
    ensures within { IfOk result (λ parts. All (λ p. p < length library.now) parts.items) }
{
    let _library = library.len();
    let mut all = Vec::new(alloc);
    all.push(BOOL)?;
    all.extend_from_slice(imports)?;
    parts_of(alloc, library, &all)
}

/// The frame of a module that imports these.
fn frame_over(
    alloc: Global,
    library: &Library,
    words: &Words,
    elements: &[RawElement],
    imports: &[usize],
) -> Result<Frame, NoMemory>
    requires prelude { HasPrelude library.now }
    requires imports { All (λ i. i < length library.now) imports.now }
    ensures frame { IfOk result (λ f. f ≡ Rattle.mau_module.specs.Framed.frame_over library.now words.now elements.now imports.now) }
    ensures within { IfOk result (λ f. All (λ p. p < length library.now) f.parts) }
    ensures known { IfOk result (λ f. AreKnown library.now f.names f.parts) }
    ensures limit { IfOk result (λ f. f.depth ≤ MAX_DEPTH + 1) }
{
    let depth = depth_over(library, imports);
    let parts = parts_over(alloc, library, imports)?;
    let mut names = sorts_of(alloc, library, &parts)?;
    add_declared_sorts(&mut names, words, elements)?;
    Ok(Frame {
        depth,
        parts,
        names,
    })
}

/// The frame of a module of a text.
pub fn frame_of(
    alloc: Global,
    library: &Library,
    words: &Words,
    raw: &RawModule,
) -> Result<Frame, ModuleFault>
    requires { HasPrelude library.now }
    ensures ok { IfOk result (λ f. f ≡ frame_of library.now words.now raw.now) }
    ensures imported { OnOk result (first_unknown library.now (imports words.now raw.now.elements) ≡ None) }
    ensures within { IfOk result (λ f. All (λ p. p < length library.now) f.parts) }
    ensures known { IfOk result (λ f. AreKnown library.now f.names f.parts) }
    ensures limit { IfOk result (λ f. f.depth ≤ MAX_DEPTH + 1) }
    ensures unknown { IfErr result (IfFault (λ f. (name : List ℕ) × (f ≡ ModuleFault.UnknownModule name) × (first_unknown library.now (imports words.now raw.now.elements) ≡ Some name))) }
{
    let elements = raw.elements.items();
    let imports = match import_numbers(alloc, library, words, elements) {
        Ok(imports) => imports,
        Err(fault) => return Err(fault),
    };
    match frame_over(alloc, library, words, elements, &imports) {
        Ok(frame) => Ok(frame),
        Err(NoMemory) => Err(ModuleFault::NoMemory),
    }
}
