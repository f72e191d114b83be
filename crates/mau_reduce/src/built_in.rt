//! What is built in of the operators of a signature.
ghost use Rattle.std.specs.Prelude.{◌≡◌, Some, ◌<◌, ◌≤◌, ◌+◌, List, [], ◌∷◌, map, IfOk, IfSome};
ghost use Rattle.std.specs.Option.{option_map};
ghost use Rattle.mau_poset.specs.Order.{kinds};
ghost use Rattle.mau_signature.specs.Attributes.{no_attributes};
ghost use Rattle.mau_signature.specs.Signature.{IsOperator};
ghost use Rattle.mau_formula.specs.Operator.{Operator, operator_named};
ghost use Rattle.mau_formula.specs.Native.{natives, native_operator};
ghost use Rattle.mau_api.specs.BuiltIns.{constant_in, true_in, false_in, first_kind, result_kind, name_at, built_in_at, built_in_named};
ghost use Rattle.mau_reduce.specs.BuiltOperators.{constant_tree, meaning_of};

use mau_formula::{Gives, Native};
use mau_signature::{Attrs, Decl, Form, Piece, Signature};
use mau_terms::{NoMemory, OpId, Seq, Text};
use std::alloc::Global;

/// The constants that stand for true and for false, as far as they are there.
#[derive(Clone, Copy, Debug, PartialEq, Eq)]
pub struct Truths {
    pub yes: Option<OpId>,
    pub no: Option<OpId>,
}

/// What is built in of an operator.
#[derive(Clone, Copy, Debug, PartialEq, Eq)]
pub enum BuiltIn {
    Nothing,
    /// The second of three arguments where the first is true, and the third where it is false.
    Branch(Truths),
    /// Whether two arguments are the same, by these constants.
    Same(Truths),
    /// The native operator of its name, if it gives this.
    Native(Gives, Truths),
}

/// The declaration of the constant of one word in a kind.
fn constant_declaration(alloc: Global, word: &str, kind: u32) -> Result<Decl, NoMemory>
    ensures { IfOk result (λ d. d ≡ record { form = Piece.Word word.now ∷ []; args = []; result = kind; attrs = no_attributes }) }
{
    let word = Piece::Word(Text::new(alloc, word)?);
    Ok(Decl {
        form: Form::new(vec![in alloc; word]?),
        args: Seq::new(Vec::new(alloc)),
        result: kind,
        attrs: Attrs::none(),
    })
}

/// The constant of one word in a kind, if it is there.
fn constant(alloc: Global, sig: &Signature, word: &str, kind: u32) -> Result<Option<OpId>, NoMemory>
    requires low { sig.now.hierarchy.sorts ≤ kind }
    requires high { kind < sig.now.hierarchy.sorts + kinds sig.now.hierarchy }
    ensures { IfOk result (λ op. constant_in sig.now kind word.now ≡ constant_tree op) }
{
    let decl = constant_declaration(alloc, word, kind)?;
    Ok(sig.operator(alloc, &decl)?)
}

/// The constants for true and for false in a kind.
fn truths_in(alloc: Global, sig: &Signature, kind: u32) -> Result<Truths, NoMemory>
    requires low { sig.now.hierarchy.sorts ≤ kind }
    requires high { kind < sig.now.hierarchy.sorts + kinds sig.now.hierarchy }
    ensures yes { IfOk result (λ t. true_in sig.now kind ≡ constant_tree t.yes) }
    ensures no { IfOk result (λ t. false_in sig.now kind ≡ constant_tree t.no) }
{
    let yes = constant(alloc, sig, "true", kind)?;
    let no = constant(alloc, sig, "false", kind)?;
    Ok(Truths { yes, no })
}

/// The native operator of a name, if there is one.
fn native_named(name: &str) -> Option<Native>
    ensures { option_map native_operator result ≡ operator_named (map native_operator natives) name.now }
{
    for native in &Native::ALL {
        if native.name() == name {
            return Some(*native);
        }
    }
    None
}

/// The kind of the first argument of an operator, or that of the first sort where it has none.
fn kind_of_first(sig: &Signature, op: OpId) -> u32
    requires { IsOperator sig.now op.0 }
    ensures kind { result ≡ first_kind sig.now op.0 }
    ensures low { sig.now.hierarchy.sorts ≤ result }
    ensures high { result < sig.now.hierarchy.sorts + kinds sig.now.hierarchy }
{
    match sig.declarations(op).first() {
        Some(decl) => match decl.args.items().first() {
            Some(sort) => sig.poset().kind_of(*sort),
            None => sig.poset().kind_of(0),
        },
        None => unreachable!(),
    }
}

/// The kind of the result of an operator.
fn kind_of_result(sig: &Signature, op: OpId) -> u32
    requires { IsOperator sig.now op.0 }
    ensures kind { result ≡ result_kind sig.now op.0 }
    ensures low { sig.now.hierarchy.sorts ≤ result }
    ensures high { result < sig.now.hierarchy.sorts + kinds sig.now.hierarchy }
{
    match sig.declarations(op).first() {
        Some(decl) => sig.poset().kind_of(decl.result),
        None => unreachable!(),
    }
}

/// What an operator has built in under a name.
fn built_in_named(alloc: Global, sig: &Signature, op: OpId, name: &str) -> Result<BuiltIn, NoMemory>
    requires { IsOperator sig.now op.0 }
    ensures { (hooks : List Operator) → IfOk result (λ b. built_in_named sig.now hooks op.0 name.now ≡ meaning_of hooks (Some name.now) b) }
{
    if name == "branch" {
        let truths = truths_in(alloc, sig, kind_of_first(sig, op))?;
        return Ok(BuiltIn::Branch(truths));
    }
    let truths = truths_in(alloc, sig, kind_of_result(sig, op))?;
    if name == "same" {
        return Ok(BuiltIn::Same(truths));
    }
    if name == "differ" {
        return Ok(BuiltIn::Same(Truths {
            yes: truths.no,
            no: truths.yes,
        }));
    }
    match native_named(name) {
        Some(native) => Ok(BuiltIn::Native(native.gives(), truths)),
        None => Ok(BuiltIn::Nothing),
    }
}

/// What is built in of an operator.
pub fn built_in_of(alloc: Global, sig: &Signature, op: OpId) -> Result<BuiltIn, NoMemory>
    requires { IsOperator sig.now op.0 }
    ensures { (hooks : List Operator) → IfOk result (λ b. built_in_at sig.now hooks op.0 ≡ meaning_of hooks (name_at sig.now op.0) b) }
{
    match sig.declarations(op).first() {
        Some(decl) => match &decl.attrs.builtin {
            Some(name) => built_in_named(alloc, sig, op, name.as_str()),
            None => Ok(BuiltIn::Nothing),
        },
        None => unreachable!(),
    }
}
