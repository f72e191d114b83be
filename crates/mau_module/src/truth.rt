//! The operators of truth values over each kind.
ghost use Rattle.std.specs.Prelude.{◌≡◌, ◌<◌, ◌++◌, ◌∷◌, [], All, IfOk, OnOk};
ghost use Rattle.mau_signature.specs.Faults.{HasSorts, IsSort};
ghost use Rattle.mau_module.specs.Truth.{if_form, between, if_declaration, comparison, truth_over, truth_declarations};

use mau_poset::Poset;
use mau_signature::{Attrs, Decl, Form, Piece};
use mau_terms::{NoMemory, Seq, Text};
use std::alloc::Global;

/// Puts a word, and then a hole, behind other pieces.
fn push_word_and_hole(alloc: Global, pieces: &mut Vec<Piece>, word: &str) -> Result<(), NoMemory>
    ensures { OnOk result (pieces.new.items ≡ pieces.old.items ++ Piece.Word word.now ∷ Piece.Hole ∷ []) }
{
    pieces.push(Piece::Word(Text::new(alloc, word)?))?;
    pieces.push(Piece::Hole)?;
    Ok(())
}

/// `if_then_else_fi`.
fn if_form(alloc: Global) -> Result<Form, NoMemory>
    ensures { IfOk result (λ form. form ≡ if_form) }
{
    let mut pieces = Vec::new(alloc);
    push_word_and_hole(alloc, &mut pieces, "if")?;
    push_word_and_hole(alloc, &mut pieces, "then")?;
    push_word_and_hole(alloc, &mut pieces, "else")?;
    pieces.push(Piece::Word(Text::new(alloc, "fi")?))?;
    Ok(Form::new(pieces))
}

/// A sign between two holes.
fn between(alloc: Global, sign: &str) -> Result<Form, NoMemory>
    ensures { IfOk result (λ form. form ≡ between sign.now) }
{
    let mut pieces = Vec::new(alloc);
    pieces.push(Piece::Hole)?;
    push_word_and_hole(alloc, &mut pieces, sign)?;
    Ok(Form::new(pieces))
}

/// The choice between two terms of a kind.
fn if_declaration(alloc: Global, bool: u32, kind: u32) -> Result<Decl, NoMemory>
    ensures { IfOk result (λ decl. decl ≡ if_declaration bool kind) }
{
    Ok(Decl {
        form: if_form(alloc)?,
        args: Seq::new(Vec::from_array(alloc, [bool, kind, kind])?),
        result: kind,
        attrs: Attrs {
            strat: Some(Seq::new(Vec::from_array(alloc, [1, 0])?)),
            builtin: Some(Text::new(alloc, "branch")?),
            ..Attrs::none()
        },
    })
}

/// A comparison of two terms of a kind.
fn comparison(alloc: Global, bool: u32, kind: u32, sign: &str, name: &str) -> Result<Decl, NoMemory>
    ensures { IfOk result (λ decl. decl ≡ comparison bool kind sign.now name.now) }
{
    Ok(Decl {
        form: between(alloc, sign)?,
        args: Seq::new(Vec::from_array(alloc, [kind, kind])?),
        result: bool,
        attrs: Attrs {
            prec: Some(51),
            builtin: Some(Text::new(alloc, name)?),
            ..Attrs::none()
        },
    })
}

/// Adds the operators over one kind.
fn add_truth_over(
    alloc: Global,
    poset: &Poset,
    bool: u32,
    kind: u32,
    decls: &mut Vec<Decl>,
) -> Result<(), NoMemory>
    requires bool { IsSort poset.now bool }
    requires kind { IsSort poset.now kind }
    ensures decls { OnOk result (decls.new.items ≡ decls.old.items ++ truth_over bool kind) }
    ensures sorts { OnOk result (All (HasSorts poset.now) decls.old.items → All (HasSorts poset.now) decls.new.items) }
{
    decls.push(if_declaration(alloc, bool, kind)?)?;
    decls.push(comparison(alloc, bool, kind, "==", "same")?)?;
    decls.push(comparison(alloc, bool, kind, "=/=", "differ")?)?;
    Ok(())
}

/// Adds the operators over all kinds, where `bool` is the sort of truth values.
pub fn add_truth(
    alloc: Global,
    poset: &Poset,
    bool: u32,
    decls: &mut Vec<Decl>,
) -> Result<(), NoMemory>
    requires { 0 < poset.now.sorts → bool < poset.now.sorts }
    ensures decls { OnOk result (decls.new.items ≡ decls.old.items ++ truth_declarations poset.now bool) }
    ensures sorts { OnOk result (All (HasSorts poset.now) decls.old.items → All (HasSorts poset.now) decls.new.items) }
{
    for i in 0..poset.kinds() {
        add_truth_over(alloc, poset, bool, poset.sorts() + i, decls)?;
    }
    Ok(())
}
