//! The words of a text.
ghost use Rattle.std.specs.Prelude.{◌≡◌, ◌<◌, length, map, get_or, []};
ghost use Rattle.mau_tokens.specs.Laws.{text_of};
ghost use Rattle.mau_tokens.specs.Spans.{AreSpans};
ghost use Rattle.mau_shapes.specs.Reading.{words_of};

use mau_tokens::Token;

/// The word at a place.
pub fn word_at<'a>(text: &'a str, tokens: &[Token], place: usize) -> &'a str
    requires spans { AreSpans text.now tokens.now }
    requires there { place < length tokens.now }
    ensures { result.now ≡ get_or (words_of text.now tokens.now) place [] }
{
    let token = tokens[place];
    &text[token.start as usize..token.end as usize]
}
