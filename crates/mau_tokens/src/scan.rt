//! The scan: one pass over the text, piece by piece.
ghost use Rattle.std.specs.Prelude.{◌≡◌, ◌≢◌, ◌+◌, ◌-◌, ◌<◌, ◌≤◌, ℕ, Ok, Err, IfErr, IfOk, OnOk, IfSome, IfNone, length, All};
ghost use Rattle.std.specs.Str.{IsUtf8, IsValidUpTo};
ghost use Rattle.mau_tokens.specs.Lexeme.{lexeme_of, lexeme_at, line_comment, block_comment, string, word};
ghost use Rattle.mau_tokens.specs.Ending.{IsPiece, IsOpen, IsTooLong, parts_word};
ghost use Rattle.mau_tokens.specs.TokensOf.{TokensFrom, TokensOf};
ghost use Rattle.mau_tokens.specs.Spans.{AreSpans};
ghost use Rattle.mau_tokens.specs.Code.{lexeme, EndsPiece};

use crate::{Token, TokenFault};
use std::alloc::Global;

/// A token has at most this many bytes.
const LONGEST: usize = 1024;

/// What begins at a place that no earlier piece covers.
#[derive(Clone, Copy)]
enum Begins {
    Separator,
    LineComment,
    BlockComment,
    String,
    Special,
    Word,
}

/// The end of a piece.
#[derive(Clone, Copy)]
enum Piece {
    /// A separator or a comment.
    Passed(usize),
    /// A token.
    Token(usize),
}

/// The tokens of a text of at most 16,777,216 bytes, in order, or its first fault.
///
/// The text has to be UTF-8. Space, tab, carriage return, line feed and form feed separate tokens;
/// each of `( ) [ ] { } ,` is a token of its own, unless a backquote stands directly before it inside
/// a word. A comment or a string begins only where a token would begin: `***` and `---` begin a
/// comment to the end of the line, with a `(` directly behind one to the matching `)`, and a `"`
/// begins a string to the next `"` that has no backslash directly before it.
pub fn tokens(alloc: Global, bytes: &[u8]) -> Result<Vec<Token>, TokenFault>
    requires { length bytes.now ≤ 16777216 }

    ensures ok { IfOk result (λ found. TokensOf bytes.now (Ok found.items)) }
    ensures utf8 { OnOk result (IsUtf8 bytes.now) }
    ensures spans { IfOk result (λ found. AreSpans bytes.now found.items) }
    ensures short { IfOk result (λ found. All (λ t. t.end ≤ t.start + 1024) found.items) }

    // Each fault but want of memory is the first in the text; below is what stands at its place.
    ensures fault { IfErr result (λ fault. fault ≢ TokenFault.NoMemory
        → TokensOf bytes.now (Err fault)) }
    ensures not_utf8 { (at : ℕ) → result ≡ Err (TokenFault.NotUtf8 at)
        → IsValidUpTo bytes.now at }
    ensures open_comment { (at : ℕ) → result ≡ Err (TokenFault.OpenComment at)
        → IsOpen bytes.now block_comment at }
    ensures open_string { (at : ℕ) → result ≡ Err (TokenFault.OpenString at)
        → IsOpen bytes.now string at }
    ensures too_long { (at : ℕ) → result ≡ Err (TokenFault.TokenTooLong at)
        → IsTooLong bytes.now at }
{
    match std::str::from_utf8(bytes) {
        Err(fault) => Err(TokenFault::NotUtf8(fault.valid_up_to() as u32)),
        Ok(_) => scan(alloc, bytes),
    }
}

/// The tokens of a text in UTF-8.
fn scan(alloc: Global, bytes: &[u8]) -> Result<Vec<Token>, TokenFault>
    requires size { length bytes.now ≤ 16777216 }
    ensures ok { IfOk result (λ found. TokensFrom 1024 bytes.now 0 (Ok found.items)) }
    ensures fault { IfErr result (λ fault. fault ≢ TokenFault.NoMemory
        → TokensFrom 1024 bytes.now 0 (Err fault)) }
{
    let mut tokens = Vec::new(alloc);
    let mut start = 0;
    while start < bytes.len() {
        match piece_at(bytes, start) {
            Err(fault) => return Err(fault),
            Ok(Piece::Passed(end)) => start = end,
            Ok(Piece::Token(end)) => {
                if end > start + LONGEST {
                    return Err(TokenFault::TokenTooLong(start as u32));
                }
                tokens.push(Token {
                    start: start as u32,
                    end: end as u32,
                })?;
                start = end;
            }
        }
    }
    Ok(tokens)
}

/// The end of what begins at a place, or the fault that it has none.
fn piece_at(bytes: &[u8], start: usize) -> Result<Piece, TokenFault>
    requires size { length bytes.now ≤ 16777216 }
    requires there { start < length bytes.now }
    ensures ok { IfOk result (EndsPiece bytes.now start) }
    ensures fault { IfErr result (λ fault. TokensFrom 1024 bytes.now start (Err fault)) }
{
    match begins_at(bytes, start) {
        Begins::Separator => Ok(Piece::Passed(start + 1)),
        Begins::LineComment => Ok(Piece::Passed(line_end(bytes, start))),
        Begins::BlockComment => match comment_end(bytes, start) {
            Some(end) => Ok(Piece::Passed(end)),
            None => Err(TokenFault::OpenComment(start as u32)),
        },
        Begins::String => match string_end(bytes, start) {
            Some(end) => Ok(Piece::Token(end)),
            None => Err(TokenFault::OpenString(start as u32)),
        },
        Begins::Special => Ok(Piece::Token(start + 1)),
        Begins::Word => Ok(Piece::Token(word_end(bytes, start))),
    }
}

/// What begins at a place.
fn begins_at(bytes: &[u8], start: usize) -> Begins
    requires size { length bytes.now ≤ 16777216 }
    requires there { start < length bytes.now }
    ensures { lexeme result ≡ lexeme_at bytes.now start }
{
    begins_with(
        byte_at(bytes, start),
        byte_at(bytes, start + 1),
        byte_at(bytes, start + 2),
        byte_at(bytes, start + 3),
    )
}

/// What begins with these bytes.
fn begins_with(a: u8, b: u8, c: u8, d: u8) -> Begins
    ensures { lexeme result ≡ lexeme_of a b c d }
{
    if is_separator(a) {
        return Begins::Separator;
    }
    if (a == b'*' && b == b'*' && c == b'*') || (a == b'-' && b == b'-' && c == b'-') {
        return if d == b'(' {
            Begins::BlockComment
        } else {
            Begins::LineComment
        };
    }
    if a == b'"' {
        return Begins::String;
    }
    if is_special(a) {
        Begins::Special
    } else {
        Begins::Word
    }
}

/// The byte at a place, or 0 behind the end.
fn byte_at(bytes: &[u8], at: usize) -> u8
    ensures { result ≡ Rattle.mau_tokens.specs.Lexeme.byte_at bytes.now at }
{
    if at < bytes.len() { bytes[at] } else { 0 }
}

fn is_separator(b: u8) -> bool
    ensures { result ≡ Rattle.mau_tokens.specs.Lexeme.is_separator b }
{
    b == b' ' || b == b'\t' || b == b'\r' || b == b'\n' || b == 12
}

fn is_special(b: u8) -> bool
    ensures { result ≡ Rattle.mau_tokens.specs.Lexeme.is_special b }
{
    b == b'(' || b == b')' || b == b'[' || b == b']' || b == b'{' || b == b'}' || b == b','
}

/// The end of the line comment that begins at `start`.
fn line_end(bytes: &[u8], start: usize) -> usize
    requires size { length bytes.now ≤ 16777216 }
    requires there { start < length bytes.now }
    requires begins { lexeme_at bytes.now start ≡ line_comment }
    ensures { IsPiece bytes.now line_comment start result }
{
    for end in start + 3..bytes.len() {
        if bytes[end] == b'\n' {
            return end;
        }
    }
    bytes.len()
}

/// The end of the block comment that begins at `start`: behind the parenthesis that closes its
/// first one.
fn comment_end(bytes: &[u8], start: usize) -> Option<usize>
    requires size { length bytes.now ≤ 16777216 }
    requires there { start < length bytes.now }
    requires begins { lexeme_at bytes.now start ≡ block_comment }
    ensures some { IfSome result (IsPiece bytes.now block_comment start) }
    ensures none { IfNone result (IsOpen bytes.now block_comment start) }
{
    let mut depth = 1usize;
    for last in start + 4..bytes.len() {
        if bytes[last] == b'(' {
            depth += 1;
        } else if bytes[last] == b')' {
            if depth == 1 {
                return Some(last + 1);
            }
            depth -= 1;
        }
    }
    None
}

/// The end of the string that begins at `start`.
fn string_end(bytes: &[u8], start: usize) -> Option<usize>
    requires size { length bytes.now ≤ 16777216 }
    requires there { start < length bytes.now }
    requires begins { lexeme_at bytes.now start ≡ string }
    ensures some { IfSome result (IsPiece bytes.now string start) }
    ensures none { IfNone result (IsOpen bytes.now string start) }
{
    for last in start + 1..bytes.len() {
        if bytes[last] == b'"' && bytes[last - 1] != b'\\' {
            return Some(last + 1);
        }
    }
    None
}

/// The end of the word that begins at `start`.
fn word_end(bytes: &[u8], start: usize) -> usize
    requires size { length bytes.now ≤ 16777216 }
    requires there { start < length bytes.now }
    requires begins { lexeme_at bytes.now start ≡ word }
    ensures { IsPiece bytes.now word start result }
{
    for end in start + 1..bytes.len() {
        if ends_word(bytes[end - 1], bytes[end]) {
            return end;
        }
    }
    bytes.len()
}

/// Whether a word ends between these two bytes.
fn ends_word(last: u8, next: u8) -> bool
    ensures { result ≡ parts_word last next }
{
    is_separator(next) || (is_special(next) && last != b'`')
}
