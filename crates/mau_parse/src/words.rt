//! The words of a text: what its tokens read.
ghost use Rattle.std.specs.Prelude.{◌≡◌, ◌<◌, length};
ghost use Rattle.mau_tokens.specs.Spans.{AreSpans};
ghost use Rattle.mau_parse.specs.Words.{texts_of, text_at};

use mau_tokens::Token;
use std::marker::Model;

/// The words of some tokens of a text, in order, seen as their bytes.
#[derive(Drop)]
pub struct Words<'a> {
    text: &'a str,
    tokens: &'a [Token],
}

impl<'a> Model for Words<'a> {
    ghost use Rattle.std.specs.Prelude.{List, ℕ};
    ghost use Rattle.mau_tokens.specs.Spans.{AreSpans};
    ghost use Rattle.mau_parse.specs.Words.{texts_of};

    ghost Value = { List (List ℕ) };

    ghost view = { λ w. texts_of w.text.now w.tokens.now };

    ghost invariant = { λ w. AreSpans w.text.now w.tokens.now };
}

impl<'a> Words<'a> {
    /// The words of these tokens of a text.
    pub fn new(text: &'a str, tokens: &'a [Token]) -> Words<'a>
        requires { AreSpans text.now tokens.now }
        ensures { result ≡ texts_of text.now tokens.now }
    {
        Words { text, tokens }
    }

    /// How many words there are.
    pub fn len(&self) -> usize
        ensures { result ≡ length self.now }
    {
        self.tokens.len()
    }

    /// The word at a place.
    pub fn text(&self, i: usize) -> &'a str
        requires { i < length self.now }
        ensures { result.now ≡ text_at self.now i }
    {
        let tokens = self.tokens;
        let token = tokens[i];
        &self.text[token.start as usize..token.end as usize]
    }
}
