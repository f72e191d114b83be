//! Texts of strategies over a module: which form they read as, and which word is at fault.
ghost use Rattle.std.specs.Prelude.{All, IfOk, OnOk};
ghost use Rattle.mau_signature.specs.Faults.{IsSort};
ghost use Rattle.mau_strattext.specs.Setting.{HasSorts};

use mau_declare::Words;
use mau_modtext::{RawBody, items};
use mau_module::{Library, Module};
use mau_program::{StratDecl, Strategy, StrategyForm};
use mau_statement::{Context, is_empty, sort_named};
use mau_strattext::{StratFault, read_strategy};
use mau_terms::{Seq, Text, Vars};
use mau_tokens::tokens;
use std::alloc::Global;
use std::process::Abort;
use std::test::Fail;

const MODULE: &str =
    "mod M is sort S . ops a b c : -> S . op f : S S -> S . rl [go] : a => b . rl [hid] : b => c . endm";

/// A text, the name of what it is, and the place of its fault.
type Row<'a> = (&'a str, &'static str, u32);

const FORMS: [Row<'static>; 22] = [
    ("idle", "idle", 0),
    ("fail", "fail", 0),
    ("all", "all", 0),
    ("go", "label", 0),
    ("go [ X:S <- a ]", "label", 0),
    ("go [ X:S <- a , Y:S <- f ( a , b ) ]", "label", 0),
    ("top ( go )", "top", 0),
    ("top ( all ) *", "star", 0),
    ("run", "call", 0),
    ("two ( a , f ( a , b ) )", "call", 0),
    ("hid", "call", 0),
    ("match a", "test", 0),
    (
        "xmatch f ( X:S , b ) s.t. X:S = a /\\ ( X:S : S )",
        "test",
        0,
    ),
    ("amatch X:S such that a := X:S", "test", 0),
    ("go ; run", "then", 0),
    ("go | run", "or", 0),
    ("go or-else run", "or-else", 0),
    ("go ? run : idle", "if", 0),
    ("not ( go )", "not", 0),
    ("try ( go ) +", "plus", 0),
    ("test ( go ) !", "normal", 0),
    ("( ( go ) )", "label", 0),
];

const FAULTS: [Row<'static>; 26] = [
    ("nope", "unknown", 0),
    ("go ; nope", "unknown", 5),
    ("nope )", "unknown", 0),
    ("nope [ X:S <- a ]", "unknown", 0),
    ("nope ( a )", "unknown", 0),
    ("two", "arity", 0),
    ("two ( a )", "arity", 0),
    ("two ( a , d d )", "parse", 10),
    ("two ( d , d , d )", "arity", 0),
    ("run ( a )", "arity", 0),
    ("two ( a ; b ]", "unexpected", 12),
    ("top ( run )", "unexpected", 6),
    ("go ( a )", "unexpected", 3),
    ("run [ X:S <- a ]", "unexpected", 4),
    ("hid [ X:S <- a ]", "unexpected", 4),
    ("go [ a <- a ]", "unexpected", 5),
    ("go [ X:S <- d ]", "parse", 12),
    ("match d", "parse", 6),
    ("match a s.t. d = a", "parse", 13),
    ("match a s.t. a => b", "unexpected", 15),
    ("match a s.t. ( a : T )", "unknown", 19),
    ("match a s.t. a = ; go", "unexpected", 17),
    ("match a s.t. a =", "unexpected", 15),
    ("match d d )", "parse", 6),
    ("go ; )", "unexpected", 5),
    ("matchrew a by X:S using go", "unexpected", 0),
];

/// What stands before and behind a word, how often, and then as in a row.
type Long = (&'static str, &'static str, usize, &'static str, u32);

const LONG: [Long; 4] = [
    ("( ", " )", 499, "label", 0),
    ("", " *", 999, "star", 0),
    ("", " *", 1000, "many", 0),
    ("( ", "", 999, "unexpected", 1998),
];

/// The name of the form of a strategy.
fn form_of(strategy: &Strategy) -> &'static str {
    match strategy.form() {
        StrategyForm::Idle => "idle",
        StrategyForm::Fail => "fail",
        StrategyForm::All => "all",
        StrategyForm::Label(_, _) => "label",
        StrategyForm::Top(_) => "top",
        StrategyForm::Call(_, _) => "call",
        StrategyForm::Test(_, _, _) => "test",
        StrategyForm::Star(_) => "star",
        StrategyForm::Plus(_) => "plus",
        StrategyForm::Normal(_) => "normal",
        StrategyForm::Then(_, _) => "then",
        StrategyForm::Or(_, _) => "or",
        StrategyForm::OrElse(_, _) => "or-else",
        StrategyForm::If(_, _, _) => "if",
        StrategyForm::Not(_) => "not",
        StrategyForm::Try(_) => "try",
        StrategyForm::TestOf(_) => "test-of",
        _ => "later",
    }
}

/// The name of a fault, and its place.
fn fault_of(fault: &StratFault) -> (&'static str, u32) {
    match fault {
        StratFault::TooManyTokens(_) => ("many", 0),
        StratFault::Unexpected(at) => ("unexpected", *at),
        StratFault::UnknownName(at) => ("unknown", *at),
        StratFault::Parse(at, _) => ("parse", *at),
        StratFault::Arity(at) => ("arity", *at),
        StratFault::NoMemory => ("memory", 0),
    }
}

/// The module of the text.
fn module(rt: &impl Abort, alloc: Global, library: &Library) -> Result<Module, Fail> {
    assert!(rt; library.len() >= 4);
    let found = tokens(alloc, MODULE.as_bytes())?;
    let items = items(alloc, MODULE.as_bytes(), &found)?;
    assert_eq!(rt; items.len(), 1);
    let words = Words::new(MODULE, &found);
    match &items[0].body {
        Ok(RawBody::Module(raw)) => match library.flatten(alloc, &words, raw) {
            Ok(module) => Ok(module),
            Err(_) => panic!(rt; "refused"),
        },
        _ => panic!(rt; "no module"),
    }
}

/// Adds a declared strategy, the sorts of whose arguments are there.
fn add(
    alloc: Global,
    context: &Context,
    names: &mut Vec<StratDecl>,
    name: &str,
    args: Vec<u32>,
) -> Result<(), Fail>
    requires before { All (HasSorts context.now.signature.hierarchy) names.old.items }
    requires sorts { All (IsSort context.now.signature.hierarchy) args.items }
    ensures { OnOk result (All (HasSorts context.now.signature.hierarchy) names.new.items) }
{
    let name = Text::new(alloc, name)?;
    let args = Seq::new(args);
    names.push(StratDecl {
        name,
        args,
        sort: 0,
    })?;
    Ok(())
}

/// One sort, twice.
fn twice(alloc: Global, context: &Context, sort: u32) -> Result<Vec<u32>, Fail>
    requires { IsSort context.now.signature.hierarchy sort }
    ensures { IfOk result (λ v. All (IsSort context.now.signature.hierarchy) v.items) }
{
    let mut sorts = Vec::new(alloc);
    sorts.push(sort)?;
    sorts.push(sort)?;
    Ok(sorts)
}

/// The declared strategies `run` and `hid` without arguments, and `two` with two of a sort.
fn names_of(alloc: Global, context: &Context, sort: u32) -> Result<Vec<StratDecl>, Fail>
    requires { IsSort context.now.signature.hierarchy sort }
    ensures { IfOk result (λ v. All (HasSorts context.now.signature.hierarchy) v.items) }
{
    let mut names = Vec::new(alloc);
    add(alloc, context, &mut names, "run", Vec::new(alloc))?;
    add(alloc, context, &mut names, "hid", Vec::new(alloc))?;
    let args = twice(alloc, context, sort)?;
    add(alloc, context, &mut names, "two", args)?;
    Ok(names)
}

/// The number of the sort `S`.
fn sort_of(rt: &impl Abort, alloc: Global, context: &Context) -> Result<u32, Fail>
    ensures { IfOk result (IsSort context.now.signature.hierarchy) }
{
    let found = tokens(alloc, b"S")?;
    let words = Words::new("S", &found);
    match sort_named(&words, context, &found) {
        Some(sort) => Ok(sort),
        None => panic!(rt; "no sort"),
    }
}

/// What the text reads as.
fn read(
    rt: &impl Abort,
    alloc: Global,
    context: &Context,
    names: &[StratDecl],
    text: &str,
) -> Result<(&'static str, u32), Fail>
    requires { All (HasSorts context.now.signature.hierarchy) names.now }
{
    assert!(rt; text.len() <= 16777216);
    let found = tokens(alloc, text.as_bytes())?;
    let words = Words::new(text, &found);
    assert!(rt; !is_empty(&words, &found));
    let mut labels = Vec::new(alloc);
    labels.push(Text::new(alloc, "go")?)?;
    labels.push(Text::new(alloc, "hid")?)?;
    let mut vars = Vars::new(alloc);
    match read_strategy(alloc, &words, context, &labels, names, &mut vars, &found) {
        Ok(strategy) => Ok((form_of(&strategy), 0)),
        Err(fault) => Ok(fault_of(&fault)),
    }
}

/// Each text is what its row says.
fn assert_rows(
    rt: &impl Abort,
    alloc: Global,
    context: &Context,
    names: &[StratDecl],
    rows: &[Row],
) -> Result<(), Fail>
    requires { All (HasSorts context.now.signature.hierarchy) names.now }
{
    for (text, name, at) in rows {
        let answer = read(rt, alloc, context, names, text)?;
        assert!(rt; answer.0 == *name, "{text}: {} {}", answer.0, answer.1);
        assert!(rt; answer.1 == *at, "{text}: {}", answer.1);
    }
    Ok(())
}

/// A text of a word behind so many brackets, or with so many marks behind it.
fn long_text(alloc: Global, before: &str, behind: &str, count: usize) -> Result<String, Fail> {
    let mut text = String::new(alloc);
    for _ in 0..count {
        text.push_str(before)?;
    }
    text.push_str("go")?;
    for _ in 0..count {
        text.push_str(behind)?;
    }
    Ok(text)
}

/// Many brackets, and many marks.
fn assert_long(
    rt: &impl Abort,
    alloc: Global,
    context: &Context,
    names: &[StratDecl],
) -> Result<(), Fail>
    requires { All (HasSorts context.now.signature.hierarchy) names.now }
{
    for (before, behind, count, name, at) in LONG {
        let text = long_text(alloc, before, behind, count)?;
        assert_rows(rt, alloc, context, names, &[(text.as_str(), name, at)])?;
    }
    Ok(())
}

/// All rows, over what strategies are read over.
fn assert_all(rt: &impl Abort, alloc: Global, context: &Context) -> Result<(), Fail> {
    let sort = sort_of(rt, alloc, context)?;
    let names = names_of(alloc, context, sort)?;
    assert_rows(rt, alloc, context, &names, &FORMS)?;
    assert_rows(rt, alloc, context, &names, &FAULTS)?;
    assert_long(rt, alloc, context, &names)
}

#[test]
fn strategies_are_read(rt: HostRuntime) -> Result<(), Fail> {
    let library = Library::prelude(rt.alloc())?;
    let module = module(&rt, rt.alloc(), &library)?;
    let context = Context::new(module.signature(), module.grammar(), module.sorts(), None);
    assert_all(&rt, rt.alloc(), &context)
}
