//! The words of a text: its tokens with what they read.
ghost use Rattle.std.specs.Prelude.{◌≡◌, ◌++◌, map, IfOk};
ghost use Rattle.mau_tokens.specs.Spans.{AreSpans};
ghost use Rattle.mau_modtext.specs.Words.{words_of, is_word, is_string};

use mau_terms::{NoMemory, Seq};
use mau_tokens::Token;
use std::alloc::Global;
use std::marker::Model;

/// Tokens in order.
pub type TokenList = Seq<Token>;

/// A token, and what it reads.
#[derive(Drop)]
pub struct Word<'a> {
    text: &'a str,
    token: Token,
}

impl<'a> Model for Word<'a> {
    ghost use Rattle.mau_modtext.specs.Word.{Word};

    ghost Value = { Word };

    ghost view = { λ w. record { text = w.text.now; token = w.token } };
}

impl<'a> Word<'a> {
    /// What it reads.
    pub fn text(&self) -> &'a str
        ensures { result.now ≡ self.now.text }
    {
        self.text
    }

    /// Its token.
    pub fn token(&self) -> Token
        ensures { result ≡ self.now.token }
    {
        self.token
    }

    /// The place of its first byte.
    pub fn place(&self) -> u32
        ensures { result ≡ self.now.token.start }
    {
        self.token.start
    }

    /// Whether it is a string token.
    pub fn is_string(&self) -> bool
        ensures { result ≡ is_string self.now }
    {
        match self.text.as_bytes().split_first() {
            Some((first, _)) => *first == b'"',
            None => false,
        }
    }

    /// Whether it reads so.
    pub fn is(&self, text: &str) -> bool
        ensures { result ≡ is_word text.now self.now }
    {
        self.text == text
    }
}

/// The words of these tokens of a text.
pub fn words_of<'a>(
    alloc: Global,
    text: &'a str,
    tokens: &[Token],
) -> Result<Vec<Word<'a>>, NoMemory>
    requires { AreSpans text.now tokens.now }
    ensures { IfOk result (λ words. words.items ≡ words_of text.now tokens.now) }
{
    let mut words = Vec::with_capacity(alloc, tokens.len())?;
    for token in tokens {
        words.push(Word {
            text: &text[token.start as usize..token.end as usize],
            token: *token,
        })?;
    }
    Ok(words)
}

/// The tokens of words.
pub fn tokens_of(alloc: Global, words: &[Word]) -> Result<TokenList, NoMemory>
    ensures { IfOk result (λ tokens. tokens ≡ map (λ w. w.token) words.now) }
{
    let mut tokens = Vec::with_capacity(alloc, words.len())?;
    for word in words {
        tokens.push(word.token())?;
    }
    Ok(Seq::new(tokens))
}
