//! What the statements of a module are read over: how its terms are written, and the constant `true`.
ghost use Rattle.std.specs.Prelude.{◌≡◌, ◌≤◌, ◌∷◌, [], codes, length, map, All, IfOk};
ghost use Rattle.std.specs.Option.{ForSome};
ghost use Rattle.mau_poset.specs.declared.TheConstants.{MAX_SORTS};
ghost use Rattle.mau_terms.specs.Bare.{IsBare};
ghost use Rattle.mau_signature.specs.Faults.{IsSort};
ghost use Rattle.mau_signature.specs.Signature.{terms_over};
ghost use Rattle.mau_signature.specs.Attributes.{no_attributes};
ghost use Rattle.mau_grammar.specs.Grammar.{grammar_of};
ghost use Rattle.mau_declare.specs.Elements.{AreOver};
ghost use Rattle.mau_declare.specs.Flattened.{variable_at};
ghost use Rattle.mau_statement.specs.Context.{IsItsGrammar, constant};
ghost use Rattle.mau_program.specs.BuiltIns.{HasTruth};
ghost use Rattle.mau_module.specs.Conditions.{true_among, context_of};
ghost use Rattle.mau_module.specs.Flattened.{truth_in};

use crate::declarations::has_part;
use crate::frame::Frame;
use crate::library::{Library, TRUTH};
use crate::module::Module;
use crate::numbering::number_in;
use mau_declare::{Elements, Names, Words, variables};
use mau_grammar::{Alias, Grammar};
use mau_signature::{Attrs, Decl, Form, Piece, Signature};
use mau_terms::{NoMemory, OpId, Seq, Text};
use std::alloc::Global;

/// The names as texts.
pub fn texts_of(alloc: Global, names: &Names) -> Result<Vec<Text>, NoMemory>
    ensures { IfOk result (λ texts. texts.items ≡ names.now) }
{
    let mut texts = Vec::with_capacity(alloc, names.len())?;
    for number in 0..names.len() {
        match names.get(number) {
            Some(name) => texts.push(Text::new(alloc, name)?)?,
            None => unreachable!(),
        }
    }
    Ok(texts)
}

/// The grammar of a signature, whose sorts have these names, with these variables.
pub fn grammar_over(
    alloc: Global,
    sorts: &Names,
    signature: &Signature,
    variables: &[Alias],
) -> Result<Grammar, NoMemory>
    requires named { length sorts.now ≡ signature.now.hierarchy.sorts }
    requires over { All (λ alias. IsSort signature.now.hierarchy alias.sort) variables.now }
    ensures value { IfOk result (λ g. g ≡ grammar_of signature.now sorts.now variables.now) }
    ensures kept { IfOk result (IsItsGrammar sorts.now signature.now) }
{
    let names = texts_of(alloc, sorts)?;
    let _sorts = sorts.len();
    let _operators = signature.operators();
    let grammar = Grammar::of(alloc, signature, &names, variables)?;
    Ok(grammar)
}

/// The grammar of a signature, whose sorts have these names, with the variables that the elements declare.
pub fn grammar_in(
    alloc: Global,
    words: &Words,
    sorts: &Names,
    signature: &Signature,
    elements: &Elements,
) -> Result<Grammar, NoMemory>
    requires named { length sorts.now ≡ signature.now.hierarchy.sorts }
    requires over { AreOver (length sorts.now) elements.now }
    ensures value { IfOk result (λ g. g ≡ grammar_of signature.now sorts.now (map (variable_at words.now signature.now.hierarchy) elements.now.variables)) }
    ensures kept { IfOk result (IsItsGrammar sorts.now signature.now) }
{
    let variables = variables(alloc, words, signature.poset(), elements)?;
    grammar_over(alloc, sorts, signature, &variables)
}

/// The declaration of the constant `true` of a sort.
fn true_declaration(alloc: Global, bool: u32) -> Result<Decl, NoMemory>
    ensures { IfOk result (λ d. d ≡ record { form = Piece.Word (codes "true") ∷ []; args = []; result = bool; attrs = no_attributes }) }
{
    let word = Piece::Word(Text::new(alloc, "true")?);
    Ok(Decl {
        form: Form::new(vec![in alloc; word]?),
        args: Seq::new(Vec::new(alloc)),
        result: bool,
        attrs: Attrs::none(),
    })
}

/// The constant `true` of the kind of `Bool`.
fn true_among(alloc: Global, sorts: &Names, signature: &Signature) -> Result<Option<OpId>, NoMemory>
    requires few { length sorts.now ≤ MAX_SORTS }
    requires named { length sorts.now ≡ signature.now.hierarchy.sorts }
    requires truth { HasTruth sorts.now signature.now }
    ensures value { IfOk result (λ truth. truth ≡ true_among sorts.now signature.now) }
    ensures bare { IfOk result (λ truth. ForSome truth (λ f. IsBare (terms_over signature.now) (constant f))) }
{
    let decl = true_declaration(alloc, number_in(sorts, "Bool"))?;
    match signature.operator(alloc, &decl) {
        Ok(op) => Ok(op),
        Err(fault) => Err(fault),
    }
}

/// The constant `true`, where the operators on truth values are among the parts.
pub fn truth_in(
    alloc: Global,
    library: &Library,
    frame: &Frame,
    signature: &Signature,
) -> Result<Option<OpId>, NoMemory>
    requires few { length frame.now.names ≤ MAX_SORTS }
    requires named { length frame.now.names ≡ signature.now.hierarchy.sorts }
    requires truth { HasTruth frame.now.names signature.now }
    ensures value { IfOk result (λ truth. truth ≡ truth_in library.now frame.now signature.now) }
    ensures bare { IfOk result (λ truth. ForSome truth (λ f. IsBare (terms_over signature.now) (constant f))) }
{
    if !has_part(library, &frame.parts, TRUTH) {
        return Ok(None);
    }
    true_among(alloc, &frame.names, signature)
}

/// The constant `true` of a module, for the conditions of commands.
pub fn truth_of(alloc: Global, module: &Module) -> Result<Option<OpId>, NoMemory>
    ensures value { IfOk result (λ truth. truth ≡ (context_of module.now).truth) }
    ensures bare { IfOk result (λ truth. ForSome truth (λ f. IsBare (terms_over module.now.signature) (constant f))) }
{
    true_among(alloc, module.sorts(), module.signature())
}
