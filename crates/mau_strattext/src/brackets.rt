//! Places outside brackets in a part of a strategy.
ghost use Rattle.std.specs.Prelude.{◌≡◌, ◌<◌, ◌+◌, ◌^◌, ◌==◌, ◌&&◌, length, IfSome, bytes_eq};
ghost use Rattle.mau_tokens.specs.declared.token.Token.{Token};
ghost use Rattle.mau_modtext.specs.Brackets;
ghost use Rattle.mau_modtext.specs.Brackets.{begins};

use mau_declare::Words;

/// How many brackets are open behind a word, where `depth` are open before it.
fn depth_behind(depth: usize, word: &str) -> usize
    requires { depth + 1 < 2 ^ 64 }
    ensures { (t : Token) → result ≡ Brackets.depth_behind depth (record { text = word.now; token = t }) }
{
    match word {
        "(" | "[" | "{" => depth + 1,
        ")" | "]" | "}" => depth.saturating_sub(1),
        _ => depth,
    }
}

/// Whether a word is the sign, outside brackets.
fn stands(depth: usize, word: &str, sign: &str) -> bool
    ensures { result ≡ (depth == 0 && bytes_eq word.now sign.now) }
{
    depth == 0 && word == sign
}

/// Whether no bracket is open.
fn is_outside(depth: usize) -> bool
    ensures { result ≡ (depth == 0) }
{
    depth == 0
}

/// The first place of a sign outside brackets, in the first `count` words.
pub fn first_outside(words: &Words, count: usize, sign: &str) -> Option<usize>
    requires { count ≡ length words.now }
    ensures first { result ≡ Brackets.first_outside (begins sign.now) words.now }
    ensures within { IfSome result (λ i. i < length words.now) }
{
    let mut depth = 0;
    for i in 0..count {
        let word = words.text(i);
        if stands(depth, word, sign) {
            return Some(i);
        }
        depth = depth_behind(depth, word);
    }
    None
}

/// The place of the closing bracket of the one with which the words begin.
pub fn closing(words: &Words, count: usize) -> Option<usize>
    requires { count ≡ length words.now }
    ensures closing { result ≡ Brackets.closing words.now }
    ensures within { IfSome result (λ i. i < length words.now) }
{
    let mut depth = 0;
    for i in 0..count {
        depth = depth_behind(depth, words.text(i));
        if is_outside(depth) {
            return Some(i);
        }
    }
    None
}
