//! The words of a text: its tokens with what they read.
ghost use Rattle.std.specs.Prelude.{◌≡◌, ◌≤◌, length, nat_lt, map, take, drop};
ghost use Rattle.std.specs.List.{count_by};
ghost use Rattle.mau_tokens.specs.Spans.{AreSpans};
ghost use Rattle.mau_tokens.specs.Laws.{text_of};
ghost use Rattle.mau_modtext.specs.Words.{words_of};
ghost use Rattle.mau_declare.specs.Words.{text_at, place_at, is_word, index_at, token_index, token_text, first_index, first_text};

use mau_tokens::Token;
use std::marker::Model;

/// The words of a text, in order.
#[derive(Drop)]
pub struct Words<'a> {
    text: &'a str,
    tokens: &'a [Token],
}

impl<'a> Model for Words<'a> {
    ghost use Rattle.std.specs.Prelude.{List};
    ghost use Rattle.mau_tokens.specs.Spans.{AreSpans};
    ghost use Rattle.mau_modtext.specs.Word.{Word};
    ghost use Rattle.mau_modtext.specs.Words.{words_of};

    ghost Value = { List Word };

    ghost view = { λ w. words_of w.text.now w.tokens.now };

    ghost invariant = { λ w. AreSpans w.text.now w.tokens.now };
}

/// How many tokens begin before a place of their text.
fn begin_before(text: &str, tokens: &[Token], place: u32) -> usize
    requires { AreSpans text.now tokens.now }
    ensures count { result ≡ count_by (λ t. nat_lt t.start place) tokens.now }
    ensures within { result ≤ length tokens.now }
{
    tokens.partition_point(|token| token.start < place)
}

/// The tokens from the one with this number on.
fn behind(tokens: &[Token], from: usize) -> &[Token]
    ensures { result.now ≡ drop from tokens.now }
{
    if from < tokens.len() {
        &tokens[from..]
    } else {
        &[]
    }
}

/// The first tokens, so many, or all that there are.
fn front(tokens: &[Token], count: usize) -> &[Token]
    ensures { result.now ≡ take count tokens.now }
{
    if count < tokens.len() {
        &tokens[..count]
    } else {
        tokens
    }
}

impl<'a> Words<'a> {
    /// The words of these tokens of a text.
    pub fn new(text: &'a str, tokens: &'a [Token]) -> Words<'a>
        requires { AreSpans text.now tokens.now }
        ensures { result ≡ words_of text.now tokens.now }
    {
        Words { text, tokens }
    }

    /// What the word at `i` reads; nothing behind the last word.
    pub fn text(&self, i: usize) -> &'a str
        ensures { result.now ≡ text_at self.now i }
    {
        let tokens = self.tokens;
        if i < tokens.len() {
            let token = tokens[i];
            &self.text[token.start as usize..token.end as usize]
        } else {
            ""
        }
    }

    /// Whether the word at `i` is this one.
    pub fn is(&self, i: usize, word: &str) -> bool
        ensures { result ≡ is_word self.now word.now i }
    {
        self.text(i) == word
    }

    /// The place of the first byte of the word at `i`; 0 behind the last word.
    pub fn place(&self, i: usize) -> u32
        ensures { result ≡ place_at self.now i }
    {
        let tokens = self.tokens;
        if i < tokens.len() { tokens[i].start } else { 0 }
    }

    /// The number of the word that stands at a place: so many begin before it.
    pub fn index_at(&self, place: u32) -> usize
        ensures index { result ≡ index_at self.now place }
        ensures within { result ≤ length self.now }
    {
        begin_before(self.text, self.tokens, place)
    }

    /// The number of the word that a token is.
    pub fn token_index(&self, token: Token) -> usize
        ensures index { result ≡ token_index self.now token }
        ensures within { result ≤ length self.now }
    {
        self.index_at(token.start)
    }

    /// What a token reads.
    pub fn token_text(&self, token: Token) -> &'a str
        ensures { result.now ≡ token_text self.now token }
    {
        self.text(self.token_index(token))
    }

    /// The number of the first word of some tokens; 0 where there is none.
    pub fn first_index(&self, tokens: &[Token]) -> usize
        ensures index { result ≡ first_index self.now tokens.now }
        ensures within { result ≤ length self.now }
    {
        match tokens.split_first() {
            Some((first, _)) => self.token_index(*first),
            None => 0,
        }
    }

    /// What the first of some tokens reads; nothing, where there is none.
    pub fn first_text(&self, tokens: &[Token]) -> &'a str
        ensures { result.now ≡ first_text self.now tokens.now }
    {
        match tokens.split_first() {
            Some((first, _)) => self.token_text(*first),
            None => "",
        }
    }

    /// The text, and so many of its tokens from the one with this number on, or all that there are.
    pub fn part(&self, from: usize, count: usize) -> (&'a str, &'a [Token])
        ensures spans { AreSpans result.0.now result.1.now }
        ensures tokens { result.1.now ≡ map (λ w. w.token) (take count (drop from self.now)) }
        ensures texts { map (text_of result.0.now) result.1.now ≡ map (λ w. w.text) (take count (drop from self.now)) }
    {
        (self.text, front(behind(self.tokens, from), count))
    }
}
