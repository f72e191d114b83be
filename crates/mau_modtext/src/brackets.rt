//! Places outside brackets.
ghost use Rattle.std.specs.Prelude.{◌≡◌, ◌<◌, ◌≤◌, ◌+◌, ◌==◌, ◌&&◌, length, take, drop, IfSome};
ghost use Rattle.mau_modtext.specs.Brackets;
ghost use Rattle.mau_modtext.specs.Signs.{stands};

use crate::word::Word;

/// What is looked for outside brackets.
#[derive(Clone, Copy, Debug, PartialEq, Eq)]
pub enum Sign {
    /// A full stop.
    Stop,
    /// `<=?`, which stands before the subject.
    Subject,
    /// `such that` or `s.t.`.
    Condition,
    Using,
    /// `/\`, which parts the fragments of a condition.
    And,
    Equals,
    Colon,
    /// `=>`.
    Arrow,
    /// `:=`.
    Assigns,
    /// A list of a statement's attributes, with which the words end.
    Attributes,
    /// What an attribute of an operator begins with.
    OperatorAttribute,
}

/// Whether the first word reads so.
pub fn begins(words: &[Word], text: &str) -> bool
    ensures { result ≡ Brackets.begins text.now words.now }
{
    match words.split_first() {
        Some((word, _)) => word.is(text),
        None => false,
    }
}

/// Whether the words begin with `s.t.` or `such that`.
fn begins_condition(words: &[Word]) -> bool
    ensures { result ≡ Rattle.mau_modtext.specs.Signs.begins_condition words.now }
{
    match words.split_first() {
        Some((word, rest)) => word.is("s.t.") || (word.is("such") && begins(rest, "that")),
        None => false,
    }
}

/// The words behind the first `count`, or none.
pub fn behind<'a, 'b>(words: &'a [Word<'b>], count: usize) -> &'a [Word<'b>]
    ensures { result.now ≡ drop count words.now }
{
    if count < words.len() {
        &words[count..]
    } else {
        &[]
    }
}

/// The first `count` words.
pub fn front<'a, 'b>(words: &'a [Word<'b>], count: usize) -> &'a [Word<'b>]
    requires { count ≤ length words.now }
    ensures { result.now ≡ take count words.now }
{
    &words[..count]
}

/// Whether an attribute of a statement begins here.
fn begins_attribute(words: &[Word]) -> bool
    ensures { result ≡ Rattle.mau_modtext.specs.Signs.begins_attribute words.now }
{
    match words.split_first() {
        Some((word, _)) => matches!(
            word.text(),
            "label" | "owise" | "otherwise" | "nonexec" | "metadata" | "print" | "variant"
        ),
        None => false,
    }
}

/// Whether an attribute of an operator begins here.
pub fn begins_operator_attribute(words: &[Word]) -> bool
    ensures { result ≡ Rattle.mau_modtext.specs.Signs.begins_operator_attribute words.now }
{
    match words.split_first() {
        Some((word, _)) => matches!(
            word.text(),
            "assoc"
                | "comm"
                | "id:"
                | "prec"
                | "gather"
                | "strat"
                | "frozen"
                | "ctor"
                | "memo"
                | "ditto"
                | "format"
                | "metadata"
                | "idem"
                | "iter"
                | "poly"
                | "special"
                | "config"
                | "object"
                | "msg"
                | "portal"
                | "pconst"
                | "left"
                | "right"
        ),
        None => false,
    }
}

/// Whether the bracket that is closed at `end` is a group of all the words.
fn is_group(words: &[Word], end: Option<usize>) -> bool
    requires { IfSome end (λ i. i < length words.now) }
    ensures { result ≡ Rattle.mau_modtext.specs.Signs.is_group words.now end }
{
    match end {
        Some(end) => end + 1 == words.len() && begins(behind(words, end), "]"),
        None => false,
    }
}

/// Whether the words are a list of a statement's attributes.
fn begins_attributes(words: &[Word]) -> bool
    ensures { result ≡ Rattle.mau_modtext.specs.Signs.begins_attributes words.now }
{
    begins(words, "[") && begins_attribute(behind(words, 1)) && is_group(words, closing(words))
}

impl Sign {
    ghost use Rattle.std.specs.Prelude.{◌≡◌};
    ghost use Rattle.mau_modtext.specs.Signs.{stands};

    /// Whether the words begin with the sign.
    fn stands(self, words: &[Word]) -> bool
        ensures { result ≡ stands self words.now }
    {
        match self {
            Sign::Stop => begins(words, "."),
            Sign::Subject => begins(words, "<=?"),
            Sign::Condition => begins_condition(words),
            Sign::Using => begins(words, "using"),
            Sign::And => begins(words, "/\\"),
            Sign::Equals => begins(words, "="),
            Sign::Colon => begins(words, ":"),
            Sign::Arrow => begins(words, "=>"),
            Sign::Assigns => begins(words, ":="),
            Sign::Attributes => begins_attributes(words),
            Sign::OperatorAttribute => begins_operator_attribute(words),
        }
    }
}

/// How many brackets are open behind a word, where `depth` are open before it.
pub fn depth_behind(depth: usize, word: &Word) -> usize
    requires { depth + 1 < 18446744073709551616 }
    ensures { result ≡ Brackets.depth_behind depth word.now }
{
    match word.text() {
        "(" | "[" | "{" => depth + 1,
        ")" | "]" | "}" => depth.saturating_sub(1),
        _ => depth,
    }
}

/// The place of the closing bracket of the one with which the words begin.
pub fn closing(words: &[Word]) -> Option<usize>
    ensures closing { result ≡ Brackets.closing words.now }
    ensures within { IfSome result (λ i. i < length words.now) }
{
    let mut depth = 0;
    for i in 0..words.len() {
        depth = depth_behind(depth, &words[i]);
        if depth == 0 {
            return Some(i);
        }
    }
    None
}

/// Whether the words begin with the sign, outside brackets.
fn stands_outside(depth: usize, words: &[Word], sign: Sign) -> bool
    ensures { result ≡ (depth == 0 && stands sign words.now) }
{
    depth == 0 && sign.stands(words)
}

/// The first place of a sign outside brackets.
pub fn first_outside(words: &[Word], sign: Sign) -> Option<usize>
    ensures first { result ≡ Brackets.first_outside (stands sign) words.now }
    ensures within { IfSome result (λ i. i < length words.now) }
{
    let mut depth = 0;
    for i in 0..words.len() {
        if stands_outside(depth, &words[i..], sign) {
            return Some(i);
        }
        depth = depth_behind(depth, &words[i]);
    }
    None
}
