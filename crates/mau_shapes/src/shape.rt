//! Reading the text of a strategy.
ghost use Rattle.std.specs.Prelude.{◌<◌, length, IfOk, IfErr};
ghost use Rattle.mau_tokens.specs.Spans.{AreSpans};
ghost use Rattle.mau_shapes.specs.Front.{IsUnexpected};
ghost use Rattle.mau_shapes.specs.Reading.{words_of, ArePiecesOf, IfUnexpected};

use crate::fault::ShapeFault;
use crate::pieces::Pieces;
use crate::reader::Reader;
use crate::text::word_at;
use mau_tokens::Token;
use std::alloc::Global;

/// The pieces of the shape whose text these tokens are, or the place of the first one with which no strategy goes on; where the text
/// ends too early, that of the last.
pub fn read_shape(alloc: Global, text: &str, tokens: &[Token]) -> Result<Pieces, ShapeFault>
    requires spans { AreSpans text.now tokens.now }
    requires some { 0 < length tokens.now }
    ensures shape { IfOk result (ArePiecesOf (words_of text.now tokens.now)) }
    ensures fault { IfErr result (IfUnexpected (IsUnexpected (words_of text.now tokens.now))) }
{
    let mut reader = Reader::new(alloc);
    for place in 0..tokens.len() {
        match reader.step(word_at(text, tokens, place), place) {
            Ok(true) => {}
            Ok(false) => return Err(ShapeFault::Unexpected(place)),
            Err(_) => return Err(ShapeFault::NoMemory),
        }
    }
    match reader.finish(tokens.len()) {
        Ok(Some(pieces)) => Ok(pieces),
        Ok(None) => Err(ShapeFault::Unexpected(tokens.len() - 1)),
        Err(_) => Err(ShapeFault::NoMemory),
    }
}
