//! Texts of strategies, their pieces, and the first word at fault.
use mau_shapes::{Part, Piece, Pieces, ShapeFault, pieces_before, read_shape};
use mau_tokens::tokens;
use std::alloc::Global;
use std::process::Abort;
use std::test::Fail;

/// A text and the pieces of its strategy.
type Row = (&'static str, &'static [Piece]);

const LEVELS: [Row; 14] = [
    ("idle", &[Piece::Plain(0)]),
    ("not", &[Piece::Plain(0)]),
    (
        "a ; b ; c",
        &[
            Piece::Plain(0),
            Piece::Plain(2),
            Piece::Plain(4),
            Piece::Joined(3),
            Piece::Joined(1),
        ],
    ),
    (
        "a ; b | c",
        &[
            Piece::Plain(0),
            Piece::Plain(2),
            Piece::Joined(1),
            Piece::Plain(4),
            Piece::Joined(3),
        ],
    ),
    (
        "a | b ; c",
        &[
            Piece::Plain(0),
            Piece::Plain(2),
            Piece::Plain(4),
            Piece::Joined(3),
            Piece::Joined(1),
        ],
    ),
    (
        "a or-else b | c",
        &[
            Piece::Plain(0),
            Piece::Plain(2),
            Piece::Plain(4),
            Piece::Joined(3),
            Piece::Joined(1),
        ],
    ),
    (
        "a | b or-else c",
        &[
            Piece::Plain(0),
            Piece::Plain(2),
            Piece::Joined(1),
            Piece::Plain(4),
            Piece::Joined(3),
        ],
    ),
    (
        "a ; b * !",
        &[
            Piece::Plain(0),
            Piece::Plain(2),
            Piece::Marked(3),
            Piece::Marked(4),
            Piece::Joined(1),
        ],
    ),
    (
        "( a ; b ) +",
        &[
            Piece::Plain(1),
            Piece::Plain(3),
            Piece::Joined(2),
            Piece::Marked(5),
        ],
    ),
    (
        "a or-else b ? c : d",
        &[
            Piece::Plain(0),
            Piece::Plain(2),
            Piece::Joined(1),
            Piece::Plain(4),
            Piece::Plain(6),
            Piece::Chosen,
        ],
    ),
    (
        "a ? b ? c : d : e",
        &[
            Piece::Plain(0),
            Piece::Plain(2),
            Piece::Plain(4),
            Piece::Plain(6),
            Piece::Chosen,
            Piece::Plain(8),
            Piece::Chosen,
        ],
    ),
    (
        "a ? b : c ? d : e",
        &[
            Piece::Plain(0),
            Piece::Plain(2),
            Piece::Plain(4),
            Piece::Plain(6),
            Piece::Plain(8),
            Piece::Chosen,
            Piece::Chosen,
        ],
    ),
    (
        "not ( a | b ) ; c",
        &[
            Piece::Wrapper(0),
            Piece::Plain(2),
            Piece::Plain(4),
            Piece::Joined(3),
            Piece::Wrapped(0),
            Piece::Plain(7),
            Piece::Joined(6),
        ],
    ),
    (
        "top ( all ) !",
        &[
            Piece::Wrapper(0),
            Piece::Plain(2),
            Piece::Wrapped(0),
            Piece::Marked(4),
        ],
    ),
];

const TERMS: [Row; 7] = [
    (
        "f ( a b , g ( c , d ) )",
        &[
            Piece::Call(0),
            Piece::Argument(Part { start: 2, end: 4 }),
            Piece::Argument(Part { start: 5, end: 11 }),
            Piece::Called,
        ],
    ),
    (
        "top ( l [ X <- a , Y : [ S ] <- b ] )",
        &[
            Piece::Wrapper(0),
            Piece::Label(2),
            Piece::Variable(Part { start: 4, end: 5 }),
            Piece::Value(Part { start: 6, end: 7 }),
            Piece::Variable(Part { start: 8, end: 13 }),
            Piece::Value(Part { start: 14, end: 15 }),
            Piece::Wrapped(0),
        ],
    ),
    // the marks belong to the term
    (
        "match a * , b ; c",
        &[
            Piece::Test(0),
            Piece::Pattern(Part { start: 1, end: 5 }),
            Piece::Plain(6),
            Piece::Joined(5),
        ],
    ),
    (
        "( match a ) *",
        &[
            Piece::Test(1),
            Piece::Pattern(Part { start: 2, end: 3 }),
            Piece::Marked(4),
        ],
    ),
    (
        "match ( a ; b ] ? c : d",
        &[
            Piece::Test(0),
            Piece::Pattern(Part { start: 1, end: 6 }),
            Piece::Plain(7),
            Piece::Plain(9),
            Piece::Chosen,
        ],
    ),
    (
        "xmatch a /\\ b s.t. c = d /\\ ( e : S ) | f",
        &[
            Piece::Test(0),
            Piece::Pattern(Part { start: 1, end: 4 }),
            Piece::Fragment(Part { start: 5, end: 8 }),
            Piece::Fragment(Part { start: 9, end: 14 }),
            Piece::Plain(15),
            Piece::Joined(14),
        ],
    ),
    (
        "amatch a such that b",
        &[
            Piece::Test(0),
            Piece::Pattern(Part { start: 1, end: 2 }),
            Piece::Fragment(Part { start: 4, end: 5 }),
        ],
    ),
];

/// Each text and its unexpected word.
const FAULTS: [(&str, usize); 26] = [
    (")", 0),
    ("a b", 1),
    ("a ; )", 2),
    ("a ;", 1),
    ("( )", 1),
    ("( a", 1),
    ("( a ]", 2),
    ("a )", 1),
    ("a : b", 1),
    ("a ? b", 2),
    ("a ? b : c : d", 5),
    ("idle ( a )", 1),
    ("f ( )", 2),
    ("f ( a , )", 4),
    ("f ( a ]", 3),
    ("l [ ]", 2),
    ("l [ a ]", 3),
    ("l [ X <- a , ]", 6),
    ("l { a }", 1),
    ("top ( ( a ) )", 2),
    ("top ( a ; b )", 3),
    ("match", 0),
    ("match ; a", 1),
    ("match a such b", 3),
    ("match a s.t. b s.t. c", 4),
    ("matchrew a by X using b", 0),
];

/// Each text with a fault, and the pieces before it.
const BEFORE: [Row; 7] = [
    ("foo )", &[Piece::Plain(0)]),
    ("( foo [ ]", &[Piece::Label(1)]),
    (
        "f ( a b ]",
        &[Piece::Call(0), Piece::Argument(Part { start: 2, end: 4 })],
    ),
    (
        "f ( a , b",
        &[
            Piece::Call(0),
            Piece::Argument(Part { start: 2, end: 3 }),
            Piece::Argument(Part { start: 4, end: 5 }),
        ],
    ),
    ("top ( a ; b )", &[Piece::Wrapper(0), Piece::Plain(2)]),
    ("match ( a", &[Piece::Test(0)]),
    (
        "a ? match b c",
        &[
            Piece::Plain(0),
            Piece::Test(2),
            Piece::Pattern(Part { start: 3, end: 5 }),
        ],
    ),
];

/// What the text is read as.
fn read(rt: &impl Abort, alloc: Global, text: &str) -> Result<Result<Pieces, ShapeFault>, Fail> {
    assert!(rt; text.len() <= 16777216);
    let found = tokens(alloc, text.as_bytes())?;
    assert!(rt; found.len() > 0);
    Ok(read_shape(alloc, text, &found))
}

/// Each text has these pieces.
fn assert_rows(rt: &impl Abort, alloc: Global, rows: &[Row]) -> Result<(), Fail> {
    for (text, wanted) in rows {
        match read(rt, alloc, text)? {
            Ok(found) => assert!(rt; found.items() == *wanted, "{text}"),
            Err(_) => assert!(rt; false, "{text}"),
        }
    }
    Ok(())
}

#[test]
fn forms_have_their_levels(rt: HostRuntime) -> Result<(), Fail> {
    assert_rows(&rt, rt.alloc(), &LEVELS)
}

#[test]
fn terms_are_left_as_words(rt: HostRuntime) -> Result<(), Fail> {
    assert_rows(&rt, rt.alloc(), &TERMS)
}

#[test]
fn the_first_word_at_fault_is_named(rt: HostRuntime) -> Result<(), Fail> {
    for (text, place) in FAULTS {
        match read(&rt, rt.alloc(), text)? {
            Ok(_) => assert!(rt; false, "{text}"),
            Err(fault) => assert!(rt; fault == ShapeFault::Unexpected(place), "{text}"),
        }
    }
    Ok(())
}

#[test]
fn pieces_stand_before_a_fault(rt: HostRuntime) -> Result<(), Fail> {
    for (text, wanted) in BEFORE {
        assert!(rt; text.len() <= 16777216);
        let found = tokens(rt.alloc(), text.as_bytes())?;
        match pieces_before(rt.alloc(), text, &found) {
            Ok(pieces) => assert!(rt; pieces.items() == wanted, "{text}"),
            Err(_) => assert!(rt; false, "{text}"),
        }
    }
    Ok(())
}

#[test]
fn a_thousand_parentheses_are_read(rt: HostRuntime) -> Result<(), Fail> {
    let alloc = rt.alloc();
    let mut text = String::new(alloc);
    for _ in 0..1000 {
        text.push_str("( ")?;
    }
    match read(&rt, alloc, text.as_str())? {
        Ok(_) => assert!(rt; false),
        Err(fault) => assert!(rt; fault == ShapeFault::Unexpected(999)),
    }
    text.push_str("a")?;
    for _ in 0..1000 {
        text.push_str(" )")?;
    }
    assert!(rt; read(&rt, alloc, text.as_str())?.is_ok());
    Ok(())
}
