//! What is proved of documents. Each function does nothing and has a law for its contract; the laws are stated in `specs/Laws.antt`.
ghost use Rattle.mau_facts.specs.Laws.{DocumentsAreOne, SpellingsAreOne, DocumentsAreWritable, WritableHaveBytes, DocumentsHaveNoFault, FaultsAreOne};

/// Bytes are one document at most.
pub fn documents_are_one()
    ensures { DocumentsAreOne }
{}

/// A document has one spelling at most.
pub fn spellings_are_one()
    ensures { SpellingsAreOne }
{}

/// What was read can be written.
pub fn documents_are_writable()
    ensures { DocumentsAreWritable }
{}

/// What can be written has a spelling.
pub fn writable_have_bytes()
    ensures { WritableHaveBytes }
{}

/// A document has no first fault.
pub fn documents_have_no_fault()
    ensures { DocumentsHaveNoFault }
{}

/// Bytes have one first fault at most.
pub fn faults_are_one()
    ensures { FaultsAreOne }
{}
