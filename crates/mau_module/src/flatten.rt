//! Modules from their text: what is read of one, in the order in which its faults are told.
ghost use Rattle.std.specs.Prelude.{◌≡◌, ◌<◌, ◌≤◌, ◌+◌, length, All, Ok, Err, IfOk, IfErr, OnOk};
ghost use Rattle.mau_signature.specs.Faults.{HasSorts};
ghost use Rattle.mau_statement.specs.Context.{IsItsGrammar};
ghost use Rattle.mau_poset.specs.declared.TheConstants.{MAX_SORTS};
ghost use Rattle.mau_declare.specs.Elements.{elements_of, AreOver};
ghost use Rattle.mau_declare.specs.Flattened.{AreLower, declared_forms};
ghost use Rattle.mau_module.specs.Library.{HasPrelude};
ghost use Rattle.mau_module.specs.Libraries.{IsNext};
ghost use Rattle.mau_program.specs.BuiltIns.{HasTruth};
ghost use Rattle.mau_module.specs.Made.{AreLawfulOver, IsClosed};
ghost use Rattle.mau_module.specs.Known.{AreKnown};
ghost use Rattle.mau_module.specs.Faults.{IfFault};
ghost use Rattle.mau_module.specs.Framed.{all_parts, frame_of, included_declarations};
ghost use Rattle.mau_declare.specs.Words.{token_text};
ghost use Rattle.mau_strattext.specs.Setting.{HasSorts as AreSorts};
ghost use Rattle.mau_definition.specs.Definitions.{around};
ghost use Rattle.mau_module.specs.Behind.{behind};
ghost use Rattle.mau_module.specs.Kept.{AreKept, IsOver};
ghost use Rattle.mau_module.specs.Faults.{IfStated};
ghost use Rattle.mau_module.specs.Stated.{OwnRead, only_strats};
ghost use Rattle.mau_module.specs.Flattened.{FlattenedAs, IsFramed, IsSigned, context_over, grammar_in, hierarchy_in, own_in};
ghost use Rattle.mau_module.specs.Gathered.{AreStatements};

use crate::MAX_DEPTH;
use crate::context::{grammar_in, truth_in};
use crate::fault::ModuleFault;
use crate::frame::{Frame, frame_of};
use crate::library::Library;
use crate::limits::limit_passed;
use crate::module::Module;
use crate::naming::{Named, named_in};
use crate::own::{read_carried, read_own};
use crate::signing::{Signed, sign_over};
use crate::statements::{Counts, Statements};
use mau_declare::{ElementFault, Elements, Words, read_elements};
use mau_grammar::Grammar;
use mau_modtext::RawModule;
use mau_signature::Signature;
use mau_statement::Context;
use mau_terms::{NoMemory, Text};
use std::alloc::Global;

/// What a module includes, and the names of its sorts, where imports and sizes are right.
pub fn framed(
    alloc: Global,
    library: &Library,
    words: &Words,
    raw: &RawModule,
) -> Result<Frame, ModuleFault>
    requires { HasPrelude library.now }
    ensures ok { IfOk result (λ f. f ≡ frame_of library.now words.now raw.now) }
    ensures framed { OnOk result (IsFramed library.now words.now raw.now) }
    ensures within { IfOk result (λ f. All (λ p. p < length library.now) f.parts) }
    ensures known { IfOk result (λ f. AreKnown library.now f.names f.parts) }
    ensures closed { IfOk result (λ f. IsClosed library.now f.names f.parts) }
    ensures few { IfOk result (λ f. length f.names ≤ MAX_SORTS) }
    ensures fault { IfErr result (IfFault (λ f. FlattenedAs library.now words.now raw.now (Err f))) }
{
    // What is known of every library is needed below, and this call tells it.
    let _modules = library.len();
    let frame = match frame_of(alloc, library, words, raw) {
        Ok(frame) => frame,
        Err(fault) => return Err(fault),
    };
    if frame.depth > MAX_DEPTH {
        return Err(ModuleFault::ImportTooDeep);
    }
    match limit_passed(library, &frame, raw) {
        Some(limit) => Err(ModuleFault::TooLarge(limit)),
        None => Ok(frame),
    }
}

/// What the elements of a module declare, over the names of its sorts.
pub fn declared(
    alloc: Global,
    library: &Library,
    words: &Words,
    raw: &RawModule,
    frame: &Frame,
) -> Result<Elements, ModuleFault>
    requires framed { IsFramed library.now words.now raw.now }
    requires frame { frame.now ≡ frame_of library.now words.now raw.now }
    requires few { length frame.now.names ≤ MAX_SORTS }
    ensures ok { IfOk result (λ e. elements_of words.now frame.now.names raw.now.elements ≡ Ok e) }
    ensures over { IfOk result (AreOver (length frame.now.names)) }
    ensures count { IfOk result (λ e. included_declarations library.now frame.now.parts + length (declared_forms e.operators) ≤ 1000000) }
    ensures fault { IfErr result (IfFault (λ f. FlattenedAs library.now words.now raw.now (Err f))) }
{
    let _library = library.len();
    match read_elements(alloc, words, &frame.names, raw.elements.items()) {
        Ok(elements) => Ok(elements),
        Err(ElementFault::UnknownSort(at)) => Err(ModuleFault::UnknownSort(at)),
        Err(ElementFault::NoMemory) => Err(ModuleFault::NoMemory),
    }
}

/// The statements of a module itself, read over its signature and grammar. A fault has the number of the statement, counted from 1.
fn own_statements(
    alloc: Global,
    library: &Library,
    words: &Words,
    raw: &RawModule,
    frame: &Frame,
    signature: &Signature,
    grammar: &Grammar,
    named: Named,
) -> Result<Statements, ModuleFault>
    requires few { length frame.now.names ≤ MAX_SORTS }
    requires count { length frame.now.names ≡ signature.now.hierarchy.sorts }
    requires its { IsItsGrammar frame.now.names signature.now grammar.now }
    requires truth { HasTruth frame.now.names signature.now }
    requires sorts { All (AreSorts signature.now.hierarchy) named.names.items }
    ensures ok { IfOk result (λ own. OwnRead (around words.now (context_over library.now frame.now signature.now grammar.now) named.labels.items named.names.items) (only_strats named.strats.items) 1 raw.now.elements (Ok own)) }
    ensures lawful { IfOk result (AreLawfulOver signature.now) }
    ensures at_fault { IfErr result (IfStated (λ i f. OwnRead (around words.now (context_over library.now frame.now signature.now grammar.now) named.labels.items named.names.items) (only_strats named.strats.items) 1 raw.now.elements (Err (i, f)))) }
{
    let truth = truth_in(alloc, library, frame, signature)?;
    let context = Context::new(signature, grammar, &frame.names, truth);
    let Named {
        labels,
        names,
        strats,
    } = named;
    read_own(
        alloc,
        words,
        &context,
        &labels,
        &names,
        strats,
        raw.elements.items(),
    )
}

/// All statements of a module whose signature is known, and how many of them are those of its parts.
fn read_statements(
    alloc: Global,
    library: &Library,
    words: &Words,
    raw: &RawModule,
    frame: &Frame,
    elements: &Elements,
    signature: &Signature,
    grammar: &Grammar,
) -> Result<(Counts, Statements), ModuleFault>
    requires frame { frame.now ≡ frame_of library.now words.now raw.now }
    requires signed { IsSigned library.now words.now raw.now elements.now signature.now }
    requires within { All (λ p. p < length library.now) frame.now.parts }
    requires known { AreKnown library.now frame.now.names frame.now.parts }
    requires few { length frame.now.names ≤ MAX_SORTS }
    requires named { length frame.now.names ≡ signature.now.hierarchy.sorts }
    requires its { IsItsGrammar frame.now.names signature.now grammar.now }
    requires truth { HasTruth frame.now.names signature.now }
    requires grammar { grammar.now ≡ grammar_in words.now frame.now elements.now signature.now }
    ensures ok { IfOk result (λ r. AreStatements library.now words.now raw.now frame.now elements.now signature.now r.0 r.1) }
    ensures fault { IfErr result (IfFault (λ f. FlattenedAs library.now words.now raw.now (Err f))) }
{
    let mut statements = match read_carried(alloc, library, &frame.names, signature, &frame.parts) {
        Ok(statements) => statements,
        Err(fault) => return Err(fault),
    };
    let named = match named_in(
        alloc,
        words,
        &frame.names,
        raw.elements.items(),
        &statements,
    ) {
        Ok(named) => named,
        Err(NoMemory) => return Err(ModuleFault::NoMemory),
    };
    let own = match own_statements(alloc, library, words, raw, frame, signature, grammar, named) {
        Ok(own) => own,
        Err(fault) => return Err(fault),
    };
    let included = statements.counts();
    match statements.append(own) {
        Ok(()) => Ok((included, statements)),
        Err(NoMemory) => Err(ModuleFault::NoMemory),
    }
}

/// The module of a text with this frame, of which all is read.
fn make_module(
    alloc: Global,
    library: &Library,
    words: &Words,
    raw: &RawModule,
    frame: Frame,
    elements: Elements,
    signed: Signed,
    grammar: Grammar,
    included: Counts,
    statements: Statements,
) -> Result<Module, NoMemory>
    requires depth { frame.depth ≤ MAX_DEPTH }
    requires kept { AreKept frame.names signed.lower.items signed.signature }
    requires its { IsItsGrammar frame.names signed.signature grammar }
    requires over { IsOver signed.signature elements.pairs signed.own.items }
    requires truth { HasTruth frame.names signed.signature }
    ensures { IfOk result (λ m. m ≡ record {
      name = token_text words.now raw.now.name;
      depth = frame.depth;
      parts = all_parts library.now frame.parts;
      sorts = frame.names;
      signature = signed.signature;
      grammar = grammar;
      statements = statements;
      own = record { pairs = elements.pairs; declarations = signed.own.items; statements = behind included statements };
    }) }
{
    let name = Text::new(alloc, words.token_text(raw.name))?;
    Module::new(
        alloc,
        library.len(),
        name,
        frame,
        signed,
        grammar,
        elements.pairs,
        included,
        statements,
    )
}

/// The module of a text whose signature is known.
fn module_in(
    alloc: Global,
    library: &Library,
    words: &Words,
    raw: &RawModule,
    frame: Frame,
    elements: Elements,
    signed: Signed,
) -> Result<Module, ModuleFault>
    requires frame { frame ≡ frame_of library.now words.now raw.now }
    requires signed { IsSigned library.now words.now raw.now elements signed.signature }
    requires within { All (λ p. p < length library.now) frame.parts }
    requires known { AreKnown library.now frame.names frame.parts }
    requires few { length frame.names ≤ MAX_SORTS }
    requires over { AreOver (length frame.names) elements }
    requires hierarchy { signed.signature.hierarchy ≡ hierarchy_in library.now frame elements }
    requires prelude { HasPrelude library.now }
    requires lower { AreLower (length frame.names) (hierarchy_in library.now frame elements).pairs signed.lower.items }
    requires own { signed.own.items ≡ own_in library.now frame elements }
    requires sorts { All (HasSorts (hierarchy_in library.now frame elements)) signed.own.items }
    ensures ok { IfOk result (λ m. FlattenedAs library.now words.now raw.now (Ok m)) }
    ensures next { IfOk result (IsNext library.now) }
    ensures fault { IfErr result (IfFault (λ f. FlattenedAs library.now words.now raw.now (Err f))) }
{
    // What is known of every library and of every signature is needed below, and these calls tell it.
    let _modules = library.len();
    let _operators = signed.signature.operators();
    let grammar = match grammar_in(alloc, words, &frame.names, &signed.signature, &elements) {
        Ok(grammar) => grammar,
        Err(NoMemory) => return Err(ModuleFault::NoMemory),
    };
    let (included, statements) = match read_statements(
        alloc,
        library,
        words,
        raw,
        &frame,
        &elements,
        &signed.signature,
        &grammar,
    ) {
        Ok(read) => read,
        Err(fault) => return Err(fault),
    };
    match make_module(
        alloc, library, words, raw, frame, elements, signed, grammar, included, statements,
    ) {
        Ok(module) => Ok(module),
        Err(NoMemory) => Err(ModuleFault::NoMemory),
    }
}

impl Library {
    ghost use Rattle.std.specs.Prelude.{Ok, Err, IfOk, IfErr};
    ghost use Rattle.mau_module.specs.Faults.{IfFault};
    ghost use Rattle.mau_module.specs.Library.{HasPrelude};
    ghost use Rattle.mau_module.specs.Libraries.{IsNext};
    ghost use Rattle.mau_program.specs.LawfulPrograms.{IsLawfulProgram};
    ghost use Rattle.mau_module.specs.Lawful.{program_of};
    ghost use Rattle.mau_module.specs.Flattened.{FlattenedAs};

    /// The module of a text over the modules of the library, with all that it includes, or the first fault. It is not entered.
    pub fn flatten(
        &self,
        alloc: Global,
        words: &Words,
        raw: &RawModule,
    ) -> Result<Module, ModuleFault>
        requires { HasPrelude self.now }
        ensures ok { IfOk result (λ m. FlattenedAs self.now words.now raw.now (Ok m)) }
        ensures next { IfOk result (IsNext self.now) }
        ensures lawful { IfOk result (λ m. IsLawfulProgram (program_of m)) }
        ensures fault { IfErr result (IfFault (λ f. FlattenedAs self.now words.now raw.now (Err f))) }
    {
        let frame = match framed(alloc, self, words, raw) {
            Ok(frame) => frame,
            Err(fault) => return Err(fault),
        };
        let elements = match declared(alloc, self, words, raw, &frame) {
            Ok(elements) => elements,
            Err(fault) => return Err(fault),
        };
        let signed = match sign_over(alloc, self, &frame, &elements) {
            Ok(signed) => signed,
            Err(fault) => return Err(fault),
        };
        module_in(alloc, self, words, raw, frame, elements, signed)
    }
}
