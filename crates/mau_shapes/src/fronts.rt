//! What stands in a text before its first fault.
ghost use Rattle.std.specs.Prelude.{◌≡◌, ◌≤◌, length, take, IfOk};
ghost use Rattle.mau_tokens.specs.Spans.{AreSpans};
ghost use Rattle.mau_shapes.specs.Front.{IsFront};
ghost use Rattle.mau_shapes.specs.Before.{IsLongestFront, ArePiecesBefore, AreFirstPieces};
ghost use Rattle.mau_shapes.specs.Machine.{pieces_found};
ghost use Rattle.mau_shapes.specs.Reading.{words_of};

use crate::pieces::Pieces;
use crate::reader::Reader;
use crate::text::word_at;
use mau_terms::NoMemory;
use mau_tokens::Token;
use std::alloc::Global;

/// How many words stand before the first with which no strategy goes on.
fn front_length(alloc: Global, text: &str, tokens: &[Token]) -> Result<usize, NoMemory>
    requires { AreSpans text.now tokens.now }
    ensures within { IfOk result (λ count. count ≤ length tokens.now) }
    ensures front { IfOk result (λ count. IsLongestFront (words_of text.now tokens.now) (take count (words_of text.now tokens.now))) }
    ensures found { IfOk result (λ count. pieces_found (words_of text.now tokens.now) ≡ pieces_found (take count (words_of text.now tokens.now))) }
{
    let mut reader = Reader::new(alloc);
    for place in 0..tokens.len() {
        match reader.step(word_at(text, tokens, place), place) {
            Ok(true) => {}
            Ok(false) => return Ok(place),
            Err(fault) => return Err(fault),
        }
    }
    Ok(tokens.len())
}

/// The whole pieces of the first words, with which a strategy may begin.
fn front_pieces(
    alloc: Global,
    text: &str,
    tokens: &[Token],
    count: usize,
) -> Result<Pieces, NoMemory>
    requires spans { AreSpans text.now tokens.now }
    requires within { count ≤ length tokens.now }
    requires front { IsFront (take count (words_of text.now tokens.now)) }
    ensures before { IfOk result (ArePiecesBefore (take count (words_of text.now tokens.now))) }
    ensures found { IfOk result (λ pieces. pieces ≡ pieces_found (take count (words_of text.now tokens.now))) }
{
    let mut reader = Reader::new(alloc);
    for place in 0..count {
        match reader.step(word_at(text, tokens, place), place) {
            Ok(true) => {}
            Ok(false) => unreachable!(),
            Err(fault) => return Err(fault),
        }
    }
    match reader.flush(count) {
        Ok(pieces) => Ok(pieces),
        Err(fault) => Err(fault),
    }
}

/// The pieces that are whole before the first word with which no strategy goes on; all, where there is no such word.
pub fn pieces_before(alloc: Global, text: &str, tokens: &[Token]) -> Result<Pieces, NoMemory>
    requires { AreSpans text.now tokens.now }
    ensures { IfOk result (AreFirstPieces (words_of text.now tokens.now)) }
{
    match front_length(alloc, text, tokens) {
        Ok(count) => front_pieces(alloc, text, tokens, count),
        Err(fault) => Err(fault),
    }
}
