//! Rows of the grammar of items: a text with its first fault, and what the parts of an item are.
use mau_modtext::{
    CommandKind, FragmentKind, ModuleKind, RawBody, RawElement, RawItem, StatementKind, TextFault,
    items,
};
use mau_tokens::{Token, tokens};
use std::alloc::Global;
use std::process::Abort;
use std::test::Fail;

/// What a text of one item answers.
#[derive(Clone, Copy)]
enum Answer {
    Reads,
    Unended,
    Unexpected,
    Unsupported(&'static str),
}

/// A text in two parts, and its answer: a fault stands at the first byte of the second part.
type Row = (&'static str, &'static str, Answer);

fn found(alloc: Global, text: &str, rt: &impl Abort) -> Result<Vec<RawItem>, Fail> {
    assert!(rt; text.len() < 9000);
    let found = tokens(alloc, text.as_bytes())?;
    Ok(items(alloc, text.as_bytes(), &found)?)
}

fn check(rt: &impl Abort, alloc: Global, row: Row) -> Result<(), Fail> {
    let (before, after, answer) = row;
    let mut text = String::from_str(alloc, before)?;
    text.push_str(after)?;
    assert!(rt; before.len() < 9000);
    let at = before.len() as u32;
    let items = found(alloc, text.as_str(), rt)?;
    assert_eq!(rt; items.len(), 1, "{before}{after}");
    match &items[0].body {
        Ok(_) => assert!(rt; matches!(answer, Answer::Reads), "{before}{after}"),
        Err(TextFault::Unended(place)) => {
            assert!(rt; matches!(answer, Answer::Unended), "{before}{after}");
            assert_eq!(rt; *place, at, "{before}{after}");
        }
        Err(TextFault::Unexpected(place)) => {
            assert!(rt; matches!(answer, Answer::Unexpected), "{before}{after}");
            assert_eq!(rt; *place, at, "{before}{after}");
        }
        Err(TextFault::Unsupported(name, place)) => {
            match answer {
                Answer::Unsupported(wanted) => assert_eq!(rt; name.as_str(), wanted),
                _ => assert!(rt; false, "{before}{after}"),
            }
            assert_eq!(rt; *place, at, "{before}{after}");
        }
    }
    Ok(())
}

const ITEMS: [Row; 41] = [
    ("", "foo .", Answer::Unexpected),
    ("", "foo", Answer::Unended),
    ("", ".", Answer::Unexpected),
    ("", "load x .", Answer::Unsupported("load")),
    ("", "load x", Answer::Unended),
    ("", "in x .", Answer::Unsupported("in")),
    ("", "view V .", Answer::Unsupported("view")),
    ("", "fth T .", Answer::Unsupported("fth")),
    ("", "th T .", Answer::Unsupported("th")),
    ("", "sth T .", Answer::Unsupported("sth")),
    ("", "search a .", Answer::Unsupported("search")),
    ("", "srewrite a .", Answer::Unsupported("srewrite")),
    ("", "srew a .", Answer::Unsupported("srew")),
    ("", "unify a .", Answer::Unsupported("unify")),
    ("", "narrow a .", Answer::Unsupported("narrow")),
    ("", "omod M .", Answer::Unsupported("omod")),
    ("", "show x .", Answer::Unsupported("show")),
    (
        "",
        "set include BOOL off .",
        Answer::Unsupported("set include"),
    ),
    ("", "set protect X on .", Answer::Unsupported("set protect")),
    ("", "set extend X on .", Answer::Unsupported("set extend")),
    ("set trace ", ".", Answer::Unexpected),
    ("set trace on ", "x .", Answer::Unexpected),
    ("set trace ", "maybe .", Answer::Unexpected),
    ("set ", "foo .", Answer::Unexpected),
    ("set ", ".", Answer::Unexpected),
    ("set show .", "", Answer::Reads),
    ("set show timing off .", "", Answer::Reads),
    ("set print mixfix off .", "", Answer::Reads),
    ("set trace off .", "", Answer::Reads),
    ("select M .", "", Answer::Reads),
    ("select ", ".", Answer::Unexpected),
    ("select A ", "B .", Answer::Unexpected),
    ("continue .", "", Answer::Reads),
    ("cont 0 .", "", Answer::Reads),
    ("continue ", "x .", Answer::Unexpected),
    ("continue ", "05 .", Answer::Unexpected),
    ("continue 3 ", "4 .", Answer::Unexpected),
    ("quit fmod", "", Answer::Reads),
    ("q", "", Answer::Reads),
    ("eof . .", "", Answer::Reads),
    ("", "match a <=? ( b .", Answer::Unended),
];

const COMMANDS: [Row; 35] = [
    ("match X <=? a .", "", Answer::Reads),
    ("match a ", ".", Answer::Unexpected),
    ("match ", "<=? a .", Answer::Unexpected),
    ("match a <=? ", ".", Answer::Unexpected),
    ("match a <=? ", "s.t. b .", Answer::Unexpected),
    ("match a <=? b s.t. ", ".", Answer::Unexpected),
    ("match a <=? b such that ", ".", Answer::Unexpected),
    ("match a <=? b such c .", "", Answer::Reads),
    ("match a <=? b s.t. c ", "=> d .", Answer::Unexpected),
    ("match a <=? b s.t. c /\\ ", ".", Answer::Unexpected),
    ("match a <=? b s.t. ", "/\\ c .", Answer::Unexpected),
    ("match a <=? b s.t. ", "= c .", Answer::Unexpected),
    ("match a <=? b s.t. c = ", ".", Answer::Unexpected),
    ("match a <=? b s.t. c = ", "/\\ d .", Answer::Unexpected),
    (
        "match a <=? b s.t. p := t /\\ t : S /\\ c = d /\\ e .",
        "",
        Answer::Reads,
    ),
    ("match ( a <=? b ) ", ".", Answer::Unexpected),
    ("match f ( a ] <=? a .", "", Answer::Reads),
    ("xmatch [3] in M : a <=? b .", "", Answer::Reads),
    ("match [3] ", ".", Answer::Unexpected),
    ("reduce ", ".", Answer::Unexpected),
    ("reduce [5] .", "", Answer::Reads),
    ("red in M : a .", "", Answer::Reads),
    ("red in M : ", ".", Answer::Unexpected),
    ("red in M .", "", Answer::Reads),
    ("rewrite [2] a .", "", Answer::Reads),
    ("rewrite [2, 3] a .", "", Answer::Reads),
    ("rew [2] ", ".", Answer::Unexpected),
    ("rewrite [007] .", "", Answer::Reads),
    ("frewrite [2, 3] in M : a .", "", Answer::Reads),
    ("frew [2] ", ".", Answer::Unexpected),
    ("dsrewrite a ", ".", Answer::Unexpected),
    ("dsrew ", "using E .", Answer::Unexpected),
    ("dsrewrite a using ", ".", Answer::Unexpected),
    ("dsrew [1] in M : a using E ; F .", "", Answer::Reads),
    ("dsrewrite ( a using b ) ", ".", Answer::Unexpected),
];

const MODULES: [Row; 47] = [
    ("fmod ", "endfm", Answer::Unexpected),
    ("fmod ", "\"M\" is endfm", Answer::Unexpected),
    ("fmod ", "( is endfm", Answer::Unexpected),
    ("fmod M ", "endfm", Answer::Unexpected),
    ("fmod M ", "sort S . endfm", Answer::Unexpected),
    ("fmod M is endfm", "", Answer::Reads),
    ("fmod is is endfm", "", Answer::Reads),
    ("mod M is endm", "", Answer::Reads),
    ("smod M is endsm", "", Answer::Reads),
    ("", "fmod M is endm", Answer::Unended),
    ("fmod M is sort S ", "endfm", Answer::Unexpected),
    ("fmod M is ( . ", "endfm", Answer::Unexpected),
    ("fmod M is ", ".  endfm", Answer::Unexpected),
    ("fmod M is ", "foo . endfm", Answer::Unexpected),
    ("fmod M is pr ", ". endfm", Answer::Unexpected),
    ("fmod M is pr A ", "B . endfm", Answer::Unexpected),
    (
        "fmod M is protecting A . extending A . ex A . including A . inc A . endfm",
        "",
        Answer::Reads,
    ),
    ("fmod M is sort ", ". endfm", Answer::Unexpected),
    ("fmod M is sorts A ", "\"B\" . endfm", Answer::Unexpected),
    ("fmod M is sort ", "A` . endfm", Answer::Unexpected),
    ("fmod M is sort ", "A:B . endfm", Answer::Unexpected),
    ("fmod M is sort ", ") . endfm", Answer::Unexpected),
    ("fmod M is sort A A . endfm", "", Answer::Reads),
    ("fmod M is subsort A ", ". endfm", Answer::Unexpected),
    ("fmod M is subsort ", "< A . endfm", Answer::Unexpected),
    ("fmod M is subsorts A < ", ". endfm", Answer::Unexpected),
    ("fmod M is subsort A < ", "< B . endfm", Answer::Unexpected),
    ("fmod M is subsort A < ", "[B] . endfm", Answer::Unexpected),
    ("fmod M is subsorts A B < C < D . endfm", "", Answer::Reads),
    ("fmod M is var ", ": S . endfm", Answer::Unexpected),
    ("fmod M is var X ", ". endfm", Answer::Unexpected),
    ("fmod M is var ", "HOLE : S . endfm", Answer::Unexpected),
    ("fmod M is var X : ", ". endfm", Answer::Unexpected),
    ("fmod M is var X : [S] . endfm", "", Answer::Reads),
    ("fmod M is var X : S ", "T . endfm", Answer::Unexpected),
    ("fmod M is vars X ", "\"Y\" : S . endfm", Answer::Unexpected),
    ("fmod M is var X` : S . endfm", "", Answer::Reads),
    ("smod M is strat ", "@ S . endsm", Answer::Unexpected),
    ("smod M is strat f : @ S . endsm", "", Answer::Reads),
    ("smod M is strats f g : A B @ S . endsm", "", Answer::Reads),
    ("smod M is strat f : A ", ". endsm", Answer::Unexpected),
    ("smod M is strat f @ ", ". endsm", Answer::Unexpected),
    (
        "smod M is strat f : ",
        "[A] @ S . endsm",
        Answer::Unexpected,
    ),
    ("smod M is strat f @ S ", "T . endsm", Answer::Unexpected),
    ("mod M is ", "strat f @ S . endm", Answer::Unexpected),
    ("fmod M is ", "rl a => b . endfm", Answer::Unexpected),
    ("mod M is ", "sd a := b . endm", Answer::Unexpected),
];

const OPERATORS: [Row; 22] = [
    ("fmod M is op a ", ". endfm", Answer::Unexpected),
    ("fmod M is op ", ": -> S . endfm", Answer::Unexpected),
    ("fmod M is op a : S ", ". endfm", Answer::Unexpected),
    ("fmod M is op a : -> ", ". endfm", Answer::Unexpected),
    ("fmod M is op a : -> S ", "T . endfm", Answer::Unexpected),
    (
        "fmod M is op a : [S",
        ",T] -> S . endfm",
        Answer::Unexpected,
    ),
    ("fmod M is op a : [", "] -> S . endfm", Answer::Unexpected),
    ("fmod M is op a : [S] T ~> [S] . endfm", "", Answer::Reads),
    ("fmod M is op f : \"S\" -> S . endfm", "", Answer::Reads),
    ("fmod M is op ", "\"a\" : -> S . endfm", Answer::Unexpected),
    ("fmod M is op ", "a` : -> S . endfm", Answer::Unexpected),
    (
        "fmod M is op ",
        "_---_ : S S -> S . endfm",
        Answer::Unexpected,
    ),
    ("fmod M is op ", "``( : -> S . endfm", Answer::Unexpected),
    ("fmod M is op ", "`_ : S -> S . endfm", Answer::Unexpected),
    ("fmod M is op `(_`) : S -> S . endfm", "", Answer::Reads),
    ("fmod M is op ( f g ) : -> S . endfm", "", Answer::Reads),
    ("fmod M is op ", "a` b . endfm", Answer::Unexpected),
    (
        "fmod M is ops (a b) (",
        ") : -> S . endfm",
        Answer::Unexpected,
    ),
    ("fmod M is ops a ) : -> S . endfm", "", Answer::Reads),
    ("fmod M is ops ", ": -> S . endfm", Answer::Unexpected),
    (
        "fmod M is ops (_ +) _- : S S -> S . endfm",
        "",
        Answer::Reads,
    ),
    ("fmod M is ops a ", ". endfm", Answer::Unexpected),
];

const ATTRIBUTES: [Row; 44] = [
    (
        "fmod M is op f : S S -> S [",
        "idem] . endfm",
        Answer::Unsupported("idem"),
    ),
    (
        "fmod M is op f : S S -> S [",
        "iter] . endfm",
        Answer::Unsupported("iter"),
    ),
    (
        "fmod M is op f : S S -> S [",
        "poly] . endfm",
        Answer::Unsupported("poly"),
    ),
    (
        "fmod M is op f : S S -> S [",
        "special] . endfm",
        Answer::Unsupported("special"),
    ),
    (
        "fmod M is op f : S S -> S [",
        "config] . endfm",
        Answer::Unsupported("config"),
    ),
    (
        "fmod M is op f : S S -> S [",
        "object] . endfm",
        Answer::Unsupported("object"),
    ),
    (
        "fmod M is op f : S S -> S [",
        "msg] . endfm",
        Answer::Unsupported("msg"),
    ),
    (
        "fmod M is op f : S S -> S [",
        "portal] . endfm",
        Answer::Unsupported("portal"),
    ),
    (
        "fmod M is op f : S S -> S [",
        "pconst] . endfm",
        Answer::Unsupported("pconst"),
    ),
    (
        "fmod M is op f : S S -> S [",
        "left id: a] . endfm",
        Answer::Unsupported("left id:"),
    ),
    (
        "fmod M is op f : S S -> S [assoc ",
        "right id: a] . endfm",
        Answer::Unsupported("right id:"),
    ),
    (
        "fmod M is op f : S S -> S [left ",
        "a] . endfm",
        Answer::Unexpected,
    ),
    (
        "fmod M is op f : S S -> S [right ",
        "] . endfm",
        Answer::Unexpected,
    ),
    (
        "fmod M is op f : S S -> S [id: ",
        "] . endfm",
        Answer::Unexpected,
    ),
    (
        "fmod M is op f : S S -> S [id: assoc] . endfm",
        "",
        Answer::Reads,
    ),
    (
        "fmod M is op f : S S -> S [id: none foo] . endfm",
        "",
        Answer::Reads,
    ),
    (
        "fmod M is op f : S S -> S [id: (none) comm] . endfm",
        "",
        Answer::Reads,
    ),
    ("fmod M is op f : S S -> S [] . endfm", "", Answer::Reads),
    (
        "fmod M is op f : S S -> S [prec ",
        "007] . endfm",
        Answer::Unexpected,
    ),
    (
        "fmod M is op f : S S -> S [prec ",
        "128] . endfm",
        Answer::Unexpected,
    ),
    (
        "fmod M is op f : S S -> S [prec ",
        "assoc] . endfm",
        Answer::Unexpected,
    ),
    (
        "fmod M is op f : S S -> S [prec ",
        "] . endfm",
        Answer::Unexpected,
    ),
    (
        "fmod M is op f : S S -> S [prec 127] . endfm",
        "",
        Answer::Reads,
    ),
    (
        "fmod M is op f : S S -> S [prec 0] . endfm",
        "",
        Answer::Reads,
    ),
    (
        "fmod M is op f : S S -> S [gather (E ",
        "x)] . endfm",
        Answer::Unexpected,
    ),
    (
        "fmod M is op f : S S -> S [gather ",
        "E] . endfm",
        Answer::Unexpected,
    ),
    (
        "fmod M is op f : S S -> S [gather (E e &)] . endfm",
        "",
        Answer::Reads,
    ),
    (
        "fmod M is op f : S S -> S [strat (",
        "01 0)] . endfm",
        Answer::Unexpected,
    ),
    (
        "fmod M is op f : S S -> S [strat (1 ",
        "256)] . endfm",
        Answer::Unexpected,
    ),
    (
        "fmod M is op f : S S -> S [strat (1 0)] . endfm",
        "",
        Answer::Reads,
    ),
    (
        "fmod M is op f : S S -> S [strat ()] . endfm",
        "",
        Answer::Reads,
    ),
    (
        "fmod M is op f : S S -> S [strat ",
        "] . endfm",
        Answer::Unexpected,
    ),
    (
        "fmod M is op f : S S -> S [frozen] . endfm",
        "",
        Answer::Reads,
    ),
    (
        "fmod M is op f : S S -> S [frozen ()] . endfm",
        "",
        Answer::Reads,
    ),
    (
        "fmod M is op f : S S -> S [frozen (1 2) assoc] . endfm",
        "",
        Answer::Reads,
    ),
    (
        "fmod M is op f : S S -> S [frozen (1 ",
        "x)] . endfm",
        Answer::Unexpected,
    ),
    (
        "fmod M is op f : S S -> S [format (d (a) d)] . endfm",
        "",
        Answer::Reads,
    ),
    (
        "fmod M is op f : S S -> S [format ",
        "d] . endfm",
        Answer::Unexpected,
    ),
    (
        "fmod M is op f : S S -> S [metadata \"x\"] . endfm",
        "",
        Answer::Reads,
    ),
    (
        "fmod M is op f : S S -> S [metadata ",
        "x] . endfm",
        Answer::Unexpected,
    ),
    (
        "fmod M is op f : S S -> S [assoc comm ctor memo ditto] . endfm",
        "",
        Answer::Reads,
    ),
    (
        "fmod M is op f : S S -> S [",
        "foo] . endfm",
        Answer::Unexpected,
    ),
    (
        "fmod M is op f : S S -> S [assoc ",
        ") . endfm",
        Answer::Unexpected,
    ),
    (
        "fmod M is op f : S S -> S [assoc] ",
        "x . endfm",
        Answer::Unexpected,
    ),
];

const STATEMENTS: [Row; 34] = [
    ("fmod M is eq a ", ". endfm", Answer::Unexpected),
    ("fmod M is eq ", "= a . endfm", Answer::Unexpected),
    ("fmod M is eq a = ", ". endfm", Answer::Unexpected),
    ("fmod M is eq a = ", "[owise] . endfm", Answer::Unexpected),
    ("fmod M is ", "ceq a = b . endfm", Answer::Unexpected),
    (
        "fmod M is ",
        "ceq a = b if c if d . endfm",
        Answer::Unexpected,
    ),
    (
        "fmod M is ceq a = if b then c else d fi if e . endfm",
        "",
        Answer::Reads,
    ),
    ("fmod M is ceq a = b if ", ". endfm", Answer::Unexpected),
    ("fmod M is ceq a if b = c ", ". endfm", Answer::Unexpected),
    ("fmod M is ceq a if b ", ". endfm", Answer::Unexpected),
    (
        "fmod M is cq a = b if c /\\ ",
        ". endfm",
        Answer::Unexpected,
    ),
    ("fmod M is mb [a] : S ", ". endfm", Answer::Unexpected),
    ("fmod M is mb a : S . endfm", "", Answer::Reads),
    ("fmod M is cmb a : S if b . endfm", "", Answer::Reads),
    (
        "fmod M is ceq a = b if c ",
        "=> d . endfm",
        Answer::Unexpected,
    ),
    ("mod M is crl a => b if c => d . endm", "", Answer::Reads),
    ("mod M is rl a [label x] ", ". endm", Answer::Unexpected),
    ("mod M is rl [x] : a => b . endm", "", Answer::Reads),
    (
        "fmod M is eq a = b [",
        "print \"x\"] . endfm",
        Answer::Unsupported("print"),
    ),
    (
        "fmod M is eq a = b [",
        "variant] . endfm",
        Answer::Unsupported("variant"),
    ),
    ("fmod M is eq a = b [label", "] . endfm", Answer::Unexpected),
    (
        "fmod M is eq a = b [metadata ",
        "x] . endfm",
        Answer::Unexpected,
    ),
    ("fmod M is mb a : S [", "owise] . endfm", Answer::Unexpected),
    (
        "fmod M is mb a : S [",
        "otherwise] . endfm",
        Answer::Unexpected,
    ),
    (
        "fmod M is eq a = b [owise ",
        "foo] . endfm",
        Answer::Unexpected,
    ),
    ("fmod M is eq a = b [c] . endfm", "", Answer::Reads),
    (
        "fmod M is eq [x] : a = b [label y nonexec metadata \"m\" otherwise] . endfm",
        "",
        Answer::Reads,
    ),
    ("fmod M is eq f ( = ) ", ". endfm", Answer::Unexpected),
    ("fmod M is eq f ( = ) = b . endfm", "", Answer::Reads),
    (
        "smod M is sd a := b [",
        "nonexec] . endsm",
        Answer::Unexpected,
    ),
    (
        "smod M is sd a := b ; c . csd a := b if c = d . endsm",
        "",
        Answer::Reads,
    ),
    ("smod M is sd a ", ". endsm", Answer::Unexpected),
    (
        "fmod M is ceq a = b if ",
        "/\\ c [print] . endfm",
        Answer::Unexpected,
    ),
    (
        "fmod M is ceq ",
        "= b if c = [foo] . endfm",
        Answer::Unexpected,
    ),
];

#[test]
fn items_read_up_to_their_first_fault(rt: HostRuntime) -> Result<(), Fail> {
    for row in ITEMS {
        check(&rt, rt.alloc(), row)?;
    }
    Ok(())
}

#[test]
fn commands_read_up_to_their_first_fault(rt: HostRuntime) -> Result<(), Fail> {
    for row in COMMANDS {
        check(&rt, rt.alloc(), row)?;
    }
    Ok(())
}

#[test]
fn modules_read_up_to_their_first_fault(rt: HostRuntime) -> Result<(), Fail> {
    for row in MODULES {
        check(&rt, rt.alloc(), row)?;
    }
    Ok(())
}

#[test]
fn operators_read_up_to_their_first_fault(rt: HostRuntime) -> Result<(), Fail> {
    for row in OPERATORS {
        check(&rt, rt.alloc(), row)?;
    }
    Ok(())
}

#[test]
fn attributes_read_up_to_their_first_fault(rt: HostRuntime) -> Result<(), Fail> {
    for row in ATTRIBUTES {
        check(&rt, rt.alloc(), row)?;
    }
    Ok(())
}

#[test]
fn statements_read_up_to_their_first_fault(rt: HostRuntime) -> Result<(), Fail> {
    for row in STATEMENTS {
        check(&rt, rt.alloc(), row)?;
    }
    Ok(())
}

/// The text of a token.
fn text_of<'a>(text: &'a str, token: &Token) -> &'a [u8] {
    text.as_bytes()
        .get(token.start as usize..token.end as usize)
        .unwrap_or(&[])
}

#[test]
fn a_name_alone_is_unsupported_at_its_place(rt: HostRuntime) -> Result<(), Fail> {
    let text = "fmod I is sort S . op f : S S -> S [idem] . endfm";
    let items = found(rt.alloc(), text, &rt)?;
    assert_eq!(rt; items.len(), 1);
    match &items[0].body {
        Err(TextFault::Unsupported(name, at)) => {
            assert_eq!(rt; name.as_str(), "idem");
            assert_eq!(rt; *at, 36);
        }
        _ => assert!(rt; false),
    }
    Ok(())
}

#[test]
fn items_follow_one_another_up_to_quit(rt: HostRuntime) -> Result<(), Fail> {
    let items = found(rt.alloc(), "foo . red a . . quit fmod red b .", &rt)?;
    assert_eq!(rt; items.len(), 4);
    assert_eq!(rt; items[0].at, 0);
    assert_eq!(rt; items[1].at, 6);
    assert_eq!(rt; items[2].at, 14);
    assert_eq!(rt; items[3].at, 16);
    assert!(rt; matches!(&items[1].body, Ok(RawBody::Command(_))));
    assert!(rt; matches!(&items[3].body, Ok(RawBody::Quit)));
    Ok(())
}

#[test]
fn a_command_has_its_parts(rt: HostRuntime) -> Result<(), Fail> {
    let text = "frew [12, 7] in M : f(a) . xmatch x y <=? b s.t. p := u /\\ t .";
    let items = found(rt.alloc(), text, &rt)?;
    assert_eq!(rt; items.len(), 2);
    match &items[0].body {
        Ok(RawBody::Command(command)) => {
            assert_eq!(rt; command.kind, CommandKind::Frewrite);
            assert_eq!(rt; command.bound.map(|t| t.start), Some(6));
            assert_eq!(rt; command.gas.map(|t| t.start), Some(10));
            assert_eq!(rt; command.module.map(|t| t.start), Some(16));
            assert_eq!(rt; command.first.items().len(), 4);
            assert_eq!(rt; command.second.items().len(), 0);
        }
        _ => assert!(rt; false),
    }
    match &items[1].body {
        Ok(RawBody::Command(command)) => {
            assert_eq!(rt; command.kind, CommandKind::Xmatch);
            assert!(rt; command.bound.is_none());
            assert_eq!(rt; command.first.items().len(), 2);
            assert_eq!(rt; command.second.items().len(), 1);
            assert_eq!(rt; command.cond.items().len(), 2);
            assert_eq!(rt; command.cond.items()[0].kind, FragmentKind::Match);
            assert_eq!(rt; command.cond.items()[1].kind, FragmentKind::Bool);
        }
        _ => assert!(rt; false),
    }
    Ok(())
}

#[test]
fn a_statement_has_its_parts(rt: HostRuntime) -> Result<(), Fail> {
    let text =
        "mod M is crl [z] : a => b c if d : S [label y nonexec] . eq a = b [metadata \"label\" label w] . endm";
    let items = found(rt.alloc(), text, &rt)?;
    assert_eq!(rt; items.len(), 1);
    match &items[0].body {
        Ok(RawBody::Module(module)) => {
            assert_eq!(rt; module.kind, ModuleKind::System);
            assert_eq!(rt; module.elements.items().len(), 2);
            match &module.elements.items()[0] {
                RawElement::Statement(statement) => {
                    assert_eq!(rt; statement.kind, StatementKind::Rule);
                    match &statement.label {
                        Some(label) => assert_eq!(rt; text_of(text, label), b"z".as_slice()),
                        None => assert!(rt; false),
                    }
                    assert_eq!(rt; statement.left.items().len(), 1);
                    assert_eq!(rt; statement.right.items().len(), 2);
                    assert_eq!(rt; statement.cond.items().len(), 1);
                    assert_eq!(rt; statement.attrs.items().len(), 2);
                }
                _ => assert!(rt; false),
            }
            match &module.elements.items()[1] {
                RawElement::Statement(statement) => match &statement.label {
                    Some(label) => assert_eq!(rt; text_of(text, label), b"w".as_slice()),
                    None => assert!(rt; false),
                },
                _ => assert!(rt; false),
            }
        }
        _ => assert!(rt; false),
    }
    Ok(())
}
