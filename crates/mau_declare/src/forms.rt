//! Forms of operators: each token is cut at its underscores, and at special characters behind a backquote.
ghost use Rattle.std.specs.Prelude.{◌≡◌, ◌<◌, ◌++◌, IfOk, OnOk, length};
ghost use Rattle.mau_modtext.specs.Forms;
ghost use Rattle.mau_declare.specs.Forms.{ended, pieces_of, form_of, form_text};

use crate::text::write_text;
use crate::words::Words;
use mau_signature::{Form, Piece};
use mau_terms::{NoMemory, Text};
use mau_tokens::Token;
use std::alloc::Global;

fn is_special(byte: u8) -> bool
    ensures { result ≡ Forms.is_special_byte byte }
{
    matches!(byte, b'(' | b')' | b'[' | b']' | b'{' | b'}' | b',')
}

/// Whether a special character begins the bytes.
fn begins_special(bytes: &[u8]) -> bool
    ensures { result ≡ Forms.begins_special bytes.now }
{
    match bytes.split_first() {
        Some((byte, _)) => is_special(*byte),
        None => false,
    }
}

/// Whether a backquote at a place makes the character behind it a word.
fn is_quote(bytes: &[u8], place: usize) -> bool
    requires { place < length bytes.now }
    ensures { result ≡ Rattle.mau_declare.specs.Forms.is_quote bytes.now place }
{
    bytes[place] == b'`' && begins_special(&bytes[place + 1..])
}

/// Puts a word behind other pieces, unless it is empty.
fn push_word(alloc: Global, out: &mut Vec<Piece>, word: &str) -> Result<(), NoMemory>
    ensures { OnOk result (out.new.items ≡ out.old.items ++ ended word.now) }
{
    if !word.is_empty() {
        out.push(Piece::Word(Text::new(alloc, word)?))?;
    }
    Ok(())
}

/// Puts the pieces of a token behind others.
fn push_pieces(alloc: Global, out: &mut Vec<Piece>, text: &str) -> Result<(), NoMemory>
    ensures { OnOk result (out.new.items ≡ out.old.items ++ pieces_of text.now) }
{
    let bytes = text.as_bytes();
    let mut begin = 0;
    let mut is_quoted = false;
    for i in 0..bytes.len() {
        if is_quoted {
            push_word(alloc, out, &text[begin..i + 1])?;
            begin = i + 1;
            is_quoted = false;
        } else if bytes[i] == b'_' {
            push_word(alloc, out, &text[begin..i])?;
            out.push(Piece::Hole)?;
            begin = i + 1;
        } else if is_quote(bytes, i) {
            push_word(alloc, out, &text[begin..i])?;
            begin = i + 1;
            is_quoted = true;
        }
    }
    push_word(alloc, out, &text[begin..])
}

/// The form that tokens are.
pub fn read_form(alloc: Global, words: &Words, tokens: &[Token]) -> Result<Form, NoMemory>
    ensures { IfOk result (λ form. form ≡ form_of words.now tokens.now) }
{
    let mut pieces = Vec::new(alloc);
    for token in tokens {
        push_pieces(alloc, &mut pieces, words.token_text(*token))?;
    }
    Ok(Form::new(pieces))
}

/// Writes a form: its pieces with `_` for a hole, joined by nothing.
pub fn write_form(out: &mut Vec<u8>, form: &Form) -> Result<(), NoMemory>
    ensures { OnOk result (out.new.items ≡ out.old.items ++ form_text form.now) }
{
    for piece in form.pieces() {
        match piece {
            Piece::Hole => write_text(out, "_")?,
            Piece::Word(word) => write_text(out, word.as_str())?,
        }
    }
    Ok(())
}
