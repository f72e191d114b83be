//! Documents of sections.
ghost use Rattle.std.specs.Prelude.{◌≡◌, ◌<◌, All, IfOk, length};
ghost use Rattle.mau_facts.specs.Documents.{IsDocument};
ghost use Rattle.mau_prove.specs.Proved.{CanBeWritten, document_of};

use mau_facts::{Document, Section, show_document};
use mau_terms::{NoMemory, Seq};
use std::alloc::Global;

/// The bytes of a document that has the text of a session, and these sections.
pub fn show_sections(
    alloc: Global,
    text: Vec<u8>,
    sections: Vec<Section>,
) -> Result<Vec<u8>, NoMemory>
    requires text { length text.items < 4294967296 }
    requires sections { All CanBeWritten sections.items }
    ensures { IfOk result (λ bytes. IsDocument bytes.items (document_of text.items sections.items)) }
{
    let document = Document {
        version: 1,
        text: Seq::new(text),
        sections: Seq::new(sections),
    };
    show_document(alloc, &document)
}
