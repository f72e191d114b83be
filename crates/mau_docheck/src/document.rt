//! The check of a document.
ghost use Rattle.std.specs.Prelude.{◌≡◌, ◌≤◌, ℕ, List, length, true, All, IfOk};
ghost use Rattle.mau_formula.specs.Operators.{operators};
ghost use Rattle.mau_built_ins.specs.NativeNumerals.{GivesNumerals};
ghost use Rattle.mau_docheck.specs.Kept.{AreModulesOf};
ghost use Rattle.mau_docheck.specs.Answers.{fault_line};
ghost use Rattle.mau_docheck.specs.DocumentTranscript.{SectionsAnswer, DocumentTranscript};

use crate::known::Known;
use crate::lines::write_fault;
use crate::section::answer_section;
use mau_facts::{Document, FactFault, Section, read_facts};
use mau_formula::HookTable;
use mau_terms::NoMemory;
use std::alloc::Global;

/// The answers of sections, and whether one of them was refused or rejected.
fn answer_sections(
    alloc: Global,
    hooks: &HookTable,
    known: &Known,
    sections: &[Section],
) -> Result<(Vec<u8>, bool), NoMemory>
    requires numerals { All GivesNumerals (operators hooks.now) }
    requires known { (text : List ℕ) × AreModulesOf text known.now.library known.now.counts.items }
    ensures { (text : List ℕ) → AreModulesOf text known.now.library known.now.counts.items
        → IfOk result (λ r. SectionsAnswer (operators hooks.now) text sections.now r.0.items r.1) }
{
    let mut out = Vec::new(alloc);
    let mut refused = false;
    for section in sections {
        let is_refused = answer_section(&mut out, alloc, hooks, known, section)?;
        refused = refused || is_refused;
    }
    Ok((out, refused))
}

/// The answers of the sections of a document, and whether one of them was refused or rejected.
fn answer_document(
    alloc: Global,
    hooks: &HookTable,
    document: &Document,
) -> Result<(Vec<u8>, bool), NoMemory>
    requires few { length document.now.text ≤ 16777216 }
    requires numerals { All GivesNumerals (operators hooks.now) }
    ensures { IfOk result (λ r. SectionsAnswer (operators hooks.now) document.now.text document.now.sections r.0.items r.1) }
{
    let known = Known::of(alloc, document.text.items())?;
    answer_sections(alloc, hooks, &known, document.sections.items())
}

/// The answer to bytes that are no document: which line is at fault, and that the document is refused.
fn refuse(alloc: Global, name: &str, line: u64) -> Result<(Vec<u8>, bool), NoMemory>
    ensures { IfOk result (λ r. (r.0.items ≡ fault_line name.now line) × (r.1 ≡ true)) }
{
    let mut out = Vec::new(alloc);
    write_fault(&mut out, name, line)?;
    Ok((out, true))
}

/// Checks a document, with native operators: what is written of it, and whether it or one of its sections was refused or rejected. Each
/// section is judged in the module that the document's text has before the section's item. Nothing is evaluated.
pub fn check(alloc: Global, hooks: &HookTable, bytes: &[u8]) -> Result<(Vec<u8>, bool), NoMemory>
    requires few { length bytes.now ≤ 16777216 }
    requires numerals { All GivesNumerals (operators hooks.now) }
    ensures { IfOk result (λ r. DocumentTranscript (operators hooks.now) bytes.now r.0.items r.1) }
{
    match read_facts(alloc, bytes) {
        Ok(document) => answer_document(alloc, hooks, &document),
        Err(FactFault::Unexpected(line)) => refuse(alloc, "Unexpected", line),
        Err(FactFault::BadNumber(line)) => refuse(alloc, "BadNumber", line),
        Err(FactFault::NoMemory) => Err(NoMemory),
    }
}
