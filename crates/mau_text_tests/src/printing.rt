//! Texts of terms. Each row has a text that is read as a term, and the text as which the term is printed.
ghost use Rattle.std.specs.Prelude.{List, ℕ, IfOk};
ghost use Rattle.mau_grammar.specs.declared.aliases.Alias.{Alias};
ghost use Rattle.mau_grammar.specs.Grammar.{IsGrammarOf};
ghost use Rattle.mau_store.specs.Node.{IsOf};

use crate::modules::{Module, module_of};
use mau_canon::build_bare;
use mau_parse::{Goal, parse};
use mau_print::show;
use mau_store::{NodeView, Store};
use mau_terms::{OpId, TermId, Vars};
use mau_tokens::tokens;
use std::alloc::Global;
use std::process::Abort;
use std::test::Fail;

/// The term that the text is, in the store.
fn read(
    rt: &impl Abort,
    alloc: Global,
    within: &Module,
    vars: &mut Vars,
    store: &mut Store,
    text: &str,
) -> Result<TermId, Fail>
    requires { (names : List (List ℕ)) × (aliases : List Alias) × IsGrammarOf within.now.sig names aliases within.now.grammar }
    ensures { IfOk result (λ id. IsOf store.new id.0) }
{
    assert!(rt; text.len() <= 16777216);
    let found = tokens(alloc, text.as_bytes())?;
    assert!(rt; found.len() > 0);
    assert!(rt; vars.len() < 4000000000);
    let term = match parse(alloc, &within.grammar, vars, Goal::AnyKind, text, &found) {
        Ok(term) => term,
        Err(_) => return Err("no term".into()),
    };
    match build_bare(store, &within.sig, &term) {
        Ok(id) => Ok(id),
        Err(_) => Err("no normal form".into()),
    }
}

/// The text is read as a term that is printed as `wanted`, which is read as the same term where it has to be.
fn assert_row(
    rt: &impl Abort,
    alloc: Global,
    within: &Module,
    text: &str,
    wanted: &str,
    reads: bool,
) -> Result<(), Fail>
    requires { (names : List (List ℕ)) × (aliases : List Alias) × IsGrammarOf within.now.sig names aliases within.now.grammar }
{
    let mut vars = Vars::new(alloc);
    let mut store = Store::new(alloc);
    let id = read(rt, alloc, within, &mut vars, &mut store, text)?;
    let shown = show(alloc, &within.printer, &vars, &store, id)?;
    assert_eq!(rt; shown.as_str(), wanted, "{text}");
    if reads {
        let again = read(rt, alloc, within, &mut vars, &mut store, shown.as_str())?;
        assert!(rt; again == id, "{text}");
    }
    Ok(())
}

/// In the module of these operators each text is read as a term that is printed as the one beside it, which is read as the same term.
fn assert_rows(
    rt: &impl Abort,
    alloc: Global,
    operators: &str,
    rows: &[(&str, &str)],
) -> Result<(), Fail> {
    let module = module_of(rt, alloc, operators)?;
    for (text, wanted) in rows {
        assert_row(rt, alloc, &module, text, wanted, true)?;
    }
    Ok(())
}

/// The same of rows that are printed so, and read as something else or as nothing.
fn assert_printed(
    rt: &impl Abort,
    alloc: Global,
    operators: &str,
    rows: &[(&str, &str)],
) -> Result<(), Fail> {
    let module = module_of(rt, alloc, operators)?;
    for (text, wanted) in rows {
        assert_row(rt, alloc, &module, text, wanted, false)?;
    }
    Ok(())
}

/// Sums to the left.
const LEFT: &str = "_+_(_+_(a, b), c)";
/// And to the right.
const RIGHT: &str = "_+_(a, _+_(b, c))";

/// The sums with what their holes gather, and these two terms.
const SUMS: [(&str, &str, &str); 3] = [
    (
        "_ + _ : 0 0 > 0 prec:41 gather:Ee",
        "a + b + c",
        "a + (b + c)",
    ),
    (
        "_ + _ : 0 0 > 0 prec:41 gather:eE",
        "(a + b) + c",
        "a + b + c",
    ),
    (
        "_ + _ : 0 0 > 0 prec:41 gather:ee",
        "(a + b) + c",
        "a + (b + c)",
    ),
];

#[test]
fn parentheses_stand_where_a_precedence_is_not_admitted(rt: HostRuntime) -> Result<(), Fail> {
    for (operators, left, right) in SUMS {
        assert_rows(&rt, rt.alloc(), operators, &[(LEFT, left), (RIGHT, right)])?;
    }
    let both = [(LEFT, "a + b + c"), (RIGHT, "a + b + c")];
    assert_printed(&rt, rt.alloc(), "_ + _ : 0 0 > 0 prec:41 gather:&E", &both)
}

#[test]
fn lists_are_their_first_element_and_the_others(rt: HostRuntime) -> Result<(), Fail> {
    assert_rows(
        &rt,
        rt.alloc(),
        "_ + _ : 0 0 > 0 assoc prec:33
_ * _ : 0 0 > 0 assoc prec:31
begin _ ; _ end : 0 0 > 0 assoc prec:0
_ ? _ ! : 0 0 > 0 assoc prec:5 gather:&e
list : 0 0 > 0 assoc prec:0",
        &[
            ("a + b", "a + b"),
            ("(a + b) + c", "a + b + c"),
            ("(a + (b + c)) + a + b", "a + b + c + a + b"),
            ("s (a + b + c)", "s (a + b + c)"),
            ("s a + b", "s a + b"),
            ("a * b * c + a * b", "a * b * c + a * b"),
            ("(a + b + c) * a * (b + c)", "(a + b + c) * a * (b + c)"),
            (
                "begin a ; begin b ; c end end",
                "begin a ; begin b ; c end end",
            ),
            (
                "begin begin a ; b end ; begin c ; a end end",
                "begin a ; begin b ; begin c ; a end end end",
            ),
            ("_?_!(a, b, c)", "a ? (b ? c !) !"),
            ("_?_!(a, b, c, a)", "a ? (b ? (c ? a !) !) !"),
            ("list(a, list(b, c + a), s b)", "list(a, b, c + a, s b)"),
        ],
    )
}

#[test]
fn texts_that_several_things_have_are_told_apart(rt: HostRuntime) -> Result<(), Fail> {
    let alloc = rt.alloc();
    let names = "k : > 0
k : > 3
2 : > 1
1 : > 0
Z : > 2
f : 0 1 > 0
close _ : 0 > 0 prec:0 gather:e";
    assert_rows(
        &rt,
        alloc,
        names,
        &[
            ("f(k, k)", "f((k).T, (k).U)"),
            ("(k) .V", "(k).U"),
            ("(2).U", "(2).U"),
            ("f(2, 2)", "f((2).T, (2).U)"),
            ("(Z).W", "(Z).U"),
            ("f(Z, Z)", "f(Z:T, (Z).U)"),
            ("f(3, X:W)", "f(3, X:W)"),
            ("close (a)", "close (a)"),
            ("close ((k).T)", "close (k).T"),
            ("close (2)", "close (2).T"),
            ("close (close (7))", "close (close (7))"),
        ],
    )?;
    assert_printed(&rt, alloc, names, &[("s 0", "(1).T")])
}

#[test]
fn variables_have_sorts_or_kinds(rt: HostRuntime) -> Result<(), Fail> {
    assert_rows(
        &rt,
        rt.alloc(),
        "f : 0 1 > 0",
        &[
            ("Z", "Z:T"),
            ("X:[T]", "X:[T]"),
            ("Y:[W]", "Y:[U,V]"),
            ("f(X:T, X:[V, W])", "f(X:T, X:[U,V])"),
            ("s X:T", "s X:T"),
            ("Y:Z:T", "Y:Z:T"),
        ],
    )
}

#[test]
fn forms_are_their_words_and_arguments(rt: HostRuntime) -> Result<(), Fail> {
    assert_rows(
        &rt,
        rt.alloc(),
        "if _ then _ else _ fi : 0 0 0 > 0
[ _ ] : 0 > 0
set { _ , _ } : 0 0 > 0
two words : > 0
open [ ] : > 0
g h : 0 0 > 0
not _ : 0 > 0
_ == _ : 0 0 > 0",
        &[
            (
                "if a == b then [b] else not c fi",
                "if a == b then [ b ] else not c fi",
            ),
            (
                "if_then_else_fi(a, [b], [[c]])",
                "if a then [ b ] else [ [ c ] ] fi",
            ),
            ("`[_`](a == b)", "[ a == b ]"),
            ("set`{_`,_`}(a, b == c)", "set { a , b == c }"),
            ("not (a == b)", "not (a == b)"),
            ("not a == b", "not a == b"),
            ("g h(two words, open [ ])", "g h(two words, open [ ])"),
            ("not g h(a, not b)", "not g h(a, not b)"),
            ("s s s X:T", "s s s X:T"),
        ],
    )
}

#[test]
fn numerals_have_values(rt: HostRuntime) -> Result<(), Fail> {
    assert_rows(
        &rt,
        rt.alloc(),
        "",
        &[
            ("0", "0"),
            ("s 9", "10"),
            ("s 119", "120"),
            (
                "s s 340282366920938463463374607431768211453",
                "340282366920938463463374607431768211455",
            ),
        ],
    )
}

/// Each of these words so many times.
fn repeated(alloc: Global, parts: &[(&str, u32)]) -> Result<String, Fail> {
    let mut text = String::new(alloc);
    for (word, count) in parts {
        for _ in 0..*count {
            text.push_str(word)?;
        }
    }
    Ok(text)
}

#[test]
fn long_lists_are_printed(rt: HostRuntime) -> Result<(), Fail> {
    let alloc = rt.alloc();
    let text = repeated(alloc, &[("_?_!(a", 1), (", b", 150), (", c)", 1)])?;
    let wanted = repeated(
        alloc,
        &[
            ("a", 1),
            (" ? (b", 150),
            (" ? c", 1),
            (" !)", 150),
            (" !", 1),
        ],
    )?;
    assert_rows(
        &rt,
        alloc,
        "_ ? _ ! : 0 0 > 0 assoc prec:5 gather:&e",
        &[(text.as_str(), wanted.as_str())],
    )
}

/// `f` over a term of the store. It is the operator behind the constants.
fn over(rt: &impl Abort, store: &mut Store, id: TermId) -> Result<TermId, Fail> {
    assert!(rt; id.0 < store.len());
    Ok(store.intern(NodeView::App(OpId(5), &[id]))?)
}

/// The numeral 0 under so many `f`.
fn nested(rt: &impl Abort, store: &mut Store, count: u32) -> Result<TermId, Fail> {
    let mut id = store.intern(NodeView::Num(0))?;
    for _ in 0..count {
        id = over(rt, store, id)?;
    }
    Ok(id)
}

/// The text of a term without variables, in the module of these operators.
fn shown(
    rt: &impl Abort,
    alloc: Global,
    operators: &str,
    store: &Store,
    id: TermId,
) -> Result<String, Fail> {
    let module = module_of(rt, alloc, operators)?;
    assert!(rt; id.0 < store.len());
    Ok(show(alloc, &module.printer, &Vars::new(alloc), store, id)?)
}

#[test]
fn terms_of_the_greatest_depth_are_printed(rt: HostRuntime) -> Result<(), Fail> {
    let alloc = rt.alloc();
    let mut store = Store::new(alloc);
    let id = nested(&rt, &mut store, 999)?;
    let text = shown(&rt, alloc, "f : 0 > 0", &store, id)?;
    let wanted = repeated(alloc, &[("f(", 999), ("0", 1), (")", 999)])?;
    assert_eq!(rt; text.as_str(), wanted.as_str());
    Ok(())
}
