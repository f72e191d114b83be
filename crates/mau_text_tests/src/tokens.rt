//! Texts and their tokens, by hand.
ghost use Rattle.mau_tokens.specs.Spans.{AreSpans};

use mau_tokens::{Token, TokenFault, tokens};
use std::alloc::Global;
use std::process::Abort;
use std::test::Fail;

/// A text and its tokens.
type Row = (&'static str, &'static [&'static str]);

const TOKENS: [Row; 52] = [
    // nothing, and separators: space, tab, carriage return, line feed, form feed
    ("", &[]),
    (" \t\r\n\x0c ", &[]),
    ("a b\tc\rd\ne\x0cf", &["a", "b", "c", "d", "e", "f"]),
    // no other character separates: a vertical tab, a zero byte, a no-break space
    ("a\x0bb", &["a\x0bb"]),
    ("a\x00b", &["a\x00b"]),
    ("a\u{a0}b", &["a\u{a0}b"]),
    // the seven special characters
    ("()[]{},", &["(", ")", "[", "]", "{", "}", ","]),
    ("f(a,b)", &["f", "(", "a", ",", "b", ")"]),
    // characters of several bytes beside special ones
    ("é(→)", &["é", "(", "→", ")"]),
    ("x→y", &["x→y"]),
    // a backquote directly before each special character, and elsewhere
    ("`(`)`[`]`{`}`,", &["`(`)`[`]`{`}`,"]),
    ("a`(b (", &["a`(b", "("]),
    ("`a b`", &["`a", "b`"]),
    ("` (", &["`", "("]),
    ("``(", &["``("]),
    ("(`", &["(", "`"]),
    // comments to the end of the line
    ("*** all of it\nb", &["b"]),
    ("a --- b", &["a"]),
    ("***a\rb\x0cc\nd", &["d"]),
    ("***\n---\n", &[]),
    ("****(\nb", &["b"]),
    ("*** (a\nb", &["b"]),
    // where a token goes on no comment begins, and directly behind a token's end one does
    ("a***b", &["a***b"]),
    ("a--- b", &["a---", "b"]),
    ("`***", &["`***"]),
    (")***x", &[")"]),
    ("a(---x", &["a", "("]),
    ("\"a\"***x", &["\"a\""]),
    // two signs, or three that differ, begin no comment
    ("** b", &["**", "b"]),
    ("--", &["--"]),
    ("**-", &["**-"]),
    ("*", &["*"]),
    // comments in parentheses, over lines and nested
    ("***(a)b", &["b"]),
    ("---(a\nb)c", &["c"]),
    ("***((a)(b))c", &["c"]),
    ("***()b", &["b"]),
    ("a***(b)", &["a***", "(", "b", ")"]),
    // all parentheses in it are counted, behind a backquote and in a string too
    ("***(`))a", &[")", "a"]),
    ("***(\"(\")a)b", &["b"]),
    // strings
    ("\"a b\" c", &["\"a b\"", "c"]),
    ("\"\"", &["\"\""]),
    ("\"a\"\"b\"", &["\"a\"", "\"b\""]),
    ("\"(,***\"", &["\"(,***\""]),
    ("\"a\nb\"", &["\"a\nb\""]),
    ("\"a\"b", &["\"a\"", "b"]),
    // a quote with a backslash directly before it ends no string
    ("\"p\\\"q\"r", &["\"p\\\"q\"", "r"]),
    ("\"a\\\\\" \"", &["\"a\\\\\" \""]),
    // where a token goes on no string begins
    ("a\"b c\"", &["a\"b", "c\""]),
    ("(\"a\")", &["(", "\"a\"", ")"]),
    // several of these
    (
        "op a`(b : S ---c (\n ***((x)y) \"p q\\\" r\"[z]***",
        &["op", "a`(b", ":", "S", "\"p q\\\" r\"", "[", "z", "]"],
    ),
    (
        "eq N:Nat + 0 = N:Nat .",
        &["eq", "N:Nat", "+", "0", "=", "N:Nat", "."],
    ),
    (
        "[X <- f(a)] ; b",
        &["[", "X", "<-", "f", "(", "a", ")", "]", ";", "b"],
    ),
];

/// Each text and its first fault.
const FAULTS: [(&[u8], TokenFault); 14] = [
    // a text that is not UTF-8, before all other faults
    (b"twelve bytes\xff", TokenFault::NotUtf8(12)),
    (b"a\xc3", TokenFault::NotUtf8(1)),
    (b"\x80", TokenFault::NotUtf8(0)),
    (b"***(\xff", TokenFault::NotUtf8(4)),
    (b"\"\xed\xa0\x80\"", TokenFault::NotUtf8(1)),
    // a comment whose parenthesis is not closed
    (b"***(", TokenFault::OpenComment(0)),
    (b"a ---((b) ***", TokenFault::OpenComment(2)),
    (b")***(\"", TokenFault::OpenComment(1)),
    // a string that is not closed
    (b"\"", TokenFault::OpenString(0)),
    (b"a \"b", TokenFault::OpenString(2)),
    (b"\"a\\\"", TokenFault::OpenString(0)),
    (b"\"a\\\\\"", TokenFault::OpenString(0)),
    // the first in the text
    (b"\"a ***(", TokenFault::OpenString(0)),
    (b"***(a \"", TokenFault::OpenComment(0)),
];

/// Whether these are the bytes of the tokens.
fn are_words(bytes: &[u8], found: &[Token], words: &[&str]) -> bool
    requires { AreSpans bytes.now found.now }
{
    if found.len() != words.len() {
        return false;
    }
    for (i, token) in found.iter().enumerate() {
        let slice = &bytes[token.start as usize..token.end as usize];
        if slice != words[i].as_bytes() {
            return false;
        }
    }
    true
}

#[test]
fn cuts_each_text_into_its_tokens(rt: HostRuntime) -> Result<(), Fail> {
    for (text, words) in TOKENS {
        assert!(rt; text.len() < 100);
        let found = tokens(rt.alloc(), text.as_bytes())?;
        assert!(rt;
            are_words(text.as_bytes(), &found, words),
            "{text:?}: {found:?}"
        );
    }
    Ok(())
}

#[test]
fn finds_the_first_fault_of_each_text(rt: HostRuntime) {
    for (text, fault) in FAULTS {
        assert!(rt; text.len() < 100);
        assert_eq!(rt; tokens(rt.alloc(), text).err(), Some(fault), "{text:?}");
    }
}

/// What stands before a byte, how often that comes, the byte, and what stands behind; and the place of a token that is too long, or of a
/// string or a comment that is open, if there is one. A token has at most 1,024 bytes; separators, special characters and comments may be
/// many or long, and so may a string that is not closed.
type Long = (&'static str, usize, u8, &'static str, Option<TokenFault>);

const LONG: [Long; 10] = [
    ("", 1024, b'a', "", None),
    ("", 1025, b'a', "", Some(TokenFault::TokenTooLong(0))),
    ("b ", 1025, b'a', " \"", Some(TokenFault::TokenTooLong(2))),
    ("\"", 1022, b' ', "\"", None),
    ("\"", 1023, b' ', "\"", Some(TokenFault::TokenTooLong(0))),
    ("a", 2000, b' ', "b", None),
    ("", 2000, b'(', "", None),
    ("***", 2000, b'a', "", None),
    ("\"", 2000, b'a', "", Some(TokenFault::OpenString(0))),
    ("***( ", 2000, b'a', "", Some(TokenFault::OpenComment(0))),
];

fn has_fault(rt: &impl Abort, alloc: Global, row: &Long) -> Result<(), Fail> {
    let (before, count, byte, after, fault) = row;
    let mut text = before.as_bytes().to_vec(alloc)?;
    for _ in 0..*count {
        text.push(*byte)?;
    }
    text.extend_from_slice(after.as_bytes())?;
    assert!(rt; text.len() < 9000);
    assert_eq!(rt;
        tokens(alloc, &text).err(),
        *fault,
        "{before} {count} {after}"
    );
    Ok(())
}

#[test]
fn a_token_has_at_most_1024_bytes(rt: HostRuntime) -> Result<(), Fail> {
    for row in &LONG {
        has_fault(&rt, rt.alloc(), row)?;
    }
    Ok(())
}

#[test]
fn a_token_is_its_span(rt: HostRuntime) -> Result<(), Fail> {
    let found = tokens(rt.alloc(), b" ab \"c\",")?;
    let spans = [
        Token { start: 1, end: 3 },
        Token { start: 4, end: 7 },
        Token { start: 7, end: 8 },
    ];
    assert_eq!(rt; found.as_slice(), spans.as_slice());
    Ok(())
}
