//! Documents written.
ghost use Rattle.std.specs.Prelude.{◌≡◌, ◌++◌, ◌∷◌, ◌<◌, ◌^◌, [], length, codes, IfOk, OnOk};
ghost use Rattle.mau_facts.specs.declared.entry.Entry.{Entry};
ghost use Rattle.mau_facts.specs.Lines.{line, entry_fields, term_lines, fact_lines, section_lines};
ghost use Rattle.mau_facts.specs.Documents.{head, IsDocument, IsWritable};
ghost use Rattle.mau_facts.specs.Fronts.{opening};
ghost use Rattle.mau_facts.specs.Spelling.{line_text, lines_text, sections_text};

use crate::document::{Document, Fact, Section, TermLine};
use crate::write::{write_fact, write_number, write_term, write_word};
use itoa::Buffer;
use mau_terms::NoMemory;
use std::alloc::Global;

/// The end of a line.
fn end_line(out: &mut Vec<u8>) -> Result<(), NoMemory>
    ensures { OnOk result (out.new.items ≡ out.old.items ++ 10 ∷ []) }
{
    out.push(b'\n')?;
    Ok(())
}

/// Bytes.
fn write_bytes(out: &mut Vec<u8>, bytes: &[u8]) -> Result<(), NoMemory>
    ensures { OnOk result (out.new.items ≡ out.old.items ++ bytes.now) }
{
    out.extend_from_slice(bytes)?;
    Ok(())
}

/// The line of a term.
#[tactic(auto, using(crate::proofs::Spelled::spelled))]
fn write_term_line(out: &mut Vec<u8>, index: u64, term: &TermLine) -> Result<(), NoMemory>
    ensures { OnOk result (out.new.items ≡ out.old.items ++ line_text (line 0 0 (entry_fields index (Entry.Term term.now)))) }
{
    write_bytes(out, b"term")?;
    write_number(out, index)?;
    write_term(out, term)?;
    end_line(out)
}

/// The line of a fact.
#[tactic(auto, using(crate::proofs::Spelled::spelled))]
fn write_fact_line(out: &mut Vec<u8>, index: u64, fact: &Fact) -> Result<(), NoMemory>
    ensures { OnOk result (out.new.items ≡ out.old.items ++ line_text (line 0 0 (entry_fields index (Entry.Fact fact.now)))) }
{
    write_bytes(out, b"fact")?;
    write_number(out, index)?;
    write_fact(out, fact)?;
    end_line(out)
}

/// The first line of a section.
#[tactic(auto, using(crate::proofs::Spelled::spelled))]
fn write_begin_line(out: &mut Vec<u8>, item: u32, name: &str) -> Result<(), NoMemory>
    ensures { OnOk result (out.new.items ≡ out.old.items ++ line_text (line 0 0 (entry_fields 0 (Entry.Begin item name.now)))) }
{
    write_bytes(out, b"section")?;
    write_number(out, item as u64)?;
    write_word(out, name.as_bytes())?;
    end_line(out)
}

/// The lines of terms.
fn write_terms(out: &mut Vec<u8>, terms: &[TermLine]) -> Result<(), NoMemory>
    ensures { OnOk result (out.new.items ≡ out.old.items ++ lines_text (term_lines 0 terms.now)) }
{
    for i in 0..terms.len() {
        write_term_line(out, i as u64 + 1, &terms[i])?;
    }
    Ok(())
}

/// The lines of facts.
fn write_facts(out: &mut Vec<u8>, facts: &[Fact]) -> Result<(), NoMemory>
    ensures { OnOk result (out.new.items ≡ out.old.items ++ lines_text (fact_lines 0 0 facts.now)) }
{
    for i in 0..facts.len() {
        write_fact_line(out, i as u64 + 1, &facts[i])?;
    }
    Ok(())
}

/// The lines of a section.
#[tactic(auto, using(crate::proofs::Written::section_written))]
fn write_section(out: &mut Vec<u8>, section: &Section) -> Result<(), NoMemory>
    ensures { OnOk result (out.new.items ≡ out.old.items ++ lines_text (section_lines section.now)) }
{
    write_begin_line(out, section.item, section.module.as_str())?;
    write_terms(out, section.terms.items())?;
    write_facts(out, section.facts.items())?;
    write_bytes(out, b"end\n")?;
    Ok(())
}

/// The lines of sections.
fn write_sections(out: &mut Vec<u8>, sections: &[Section]) -> Result<(), NoMemory>
    ensures { OnOk result (out.new.items ≡ out.old.items ++ sections_text sections.now) }
{
    for i in 0..sections.len() {
        write_section(out, &sections[i])?;
    }
    Ok(())
}

/// The first two lines.
fn write_opening(out: &mut Vec<u8>, size: usize) -> Result<(), NoMemory>
    ensures { OnOk result (out.new.items ≡ out.old.items ++ opening size []) }
{
    write_bytes(out, b"mrew-facts 1\ntext ")?;
    write_bytes(out, Buffer::new().format(size).as_bytes())?;
    end_line(out)?;
    Ok(())
}

/// The first lines, and the text.
#[tactic(auto, using(crate::proofs::Written::heads))]
fn write_head(out: &mut Vec<u8>, text: &[u8]) -> Result<(), NoMemory>
    ensures { OnOk result (out.new.items ≡ out.old.items ++ head text.now) }
{
    write_opening(out, text.len())?;
    write_bytes(out, text)?;
    end_line(out)
}

/// The bytes of a document: the one spelling that reads as it.
pub fn show_document(alloc: Global, document: &Document) -> Result<Vec<u8>, NoMemory>
    requires { IsWritable document.now }
    ensures { IfOk result (λ bytes. IsDocument bytes.items document.now) }
{
    let mut out = Vec::new(alloc);
    write_head(&mut out, document.text.items())?;
    write_sections(&mut out, document.sections.items())?;
    Ok(out)
}
