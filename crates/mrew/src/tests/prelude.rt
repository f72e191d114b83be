//! Modules over the prelude: the prelude's own beside their texts, and what is found to be at fault.
use mau_declare::Words;
use mau_modtext::{RawBody, items};
use mau_module::{Library, Module, ModuleFault};
use mau_program::Equation;
use mau_tokens::tokens;
use std::alloc::Global;
use std::process::Abort;
use std::test::Fail;

/// The module that a text of one item says over a library.
fn flatten(
    alloc: Global,
    library: &Library,
    text: &str,
    rt: &impl Abort,
) -> Result<Result<Module, ModuleFault>, Fail> {
    assert!(rt; text.len() < 9000);
    assert!(rt; library.len() >= 4);
    let found = tokens(alloc, text.as_bytes())?;
    let items = items(alloc, text.as_bytes(), &found)?;
    assert_eq!(rt; items.len(), 1);
    let words = Words::new(text, &found);
    match &items[0].body {
        Ok(RawBody::Module(raw)) => Ok(library.flatten(alloc, &words, raw)),
        _ => panic!(rt; "{text} is no module"),
    }
}

/// Enters the module that a text of one item says.
fn enter(alloc: Global, library: &mut Library, text: &str, rt: &impl Abort) -> Result<(), Fail> {
    assert!(rt; text.len() < 9000);
    assert!(rt; library.len() >= 4);
    let found = tokens(alloc, text.as_bytes())?;
    let items = items(alloc, text.as_bytes(), &found)?;
    assert_eq!(rt; items.len(), 1);
    let words = Words::new(text, &found);
    match &items[0].body {
        Ok(RawBody::Module(raw)) => match library.flatten(alloc, &words, raw) {
            Ok(module) => Ok(library.enter(module)?),
            Err(_) => panic!(rt; "{text} is refused"),
        },
        _ => panic!(rt; "{text} is no module"),
    }
}

/// `BOOL` as it is written, under another name: its operators are those of `BOOL` then, which each module includes.
const BOOL_TEXT: &str = "fmod WRITTEN is \
    protecting TRUTH . \
    op _and_ : Bool Bool -> Bool [assoc comm prec 55] . \
    op _or_ : Bool Bool -> Bool [assoc comm prec 59] . \
    op _xor_ : Bool Bool -> Bool [assoc comm prec 57] . \
    op not_ : Bool -> Bool [prec 53] . \
    op _implies_ : Bool Bool -> Bool [prec 61 gather (e E)] . \
    vars A B C : Bool . \
    eq true and A = A . \
    eq false and A = false . \
    eq A and A = A . \
    eq false xor A = A . \
    eq A xor A = false . \
    eq A and (B xor C) = A and B xor A and C . \
    eq not A = A xor true . \
    eq A or B = A and B xor A xor B . \
    eq A implies B = not (A xor A and B) . \
    endfm";

/// `NAT` as it is written, under another name and with sorts of its own.
const NAT_TEXT: &str = "fmod WRITTEN is \
    protecting BOOL . \
    sorts Zero NzNat Nat . \
    subsorts Zero NzNat < Nat . \
    op s_ : Nat -> NzNat [ctor] . \
    op _+_ : NzNat Nat -> NzNat [assoc comm prec 33] . \
    op _+_ : Nat Nat -> Nat . \
    op sd : Nat Nat -> Nat [comm] . \
    op _*_ : NzNat NzNat -> NzNat [assoc comm prec 31] . \
    op _*_ : Nat Nat -> Nat . \
    op _quo_ : Nat NzNat -> Nat [prec 31 gather (E e)] . \
    op _rem_ : Nat NzNat -> Nat [prec 31 gather (E e)] . \
    op _^_ : NzNat Nat -> NzNat [prec 29 gather (E e)] . \
    op _^_ : Nat Nat -> Nat . \
    op gcd : NzNat Nat -> NzNat [assoc comm] . \
    op gcd : Nat Nat -> Nat . \
    op min : NzNat NzNat -> NzNat [assoc comm] . \
    op min : Nat Nat -> Nat . \
    op max : NzNat Nat -> NzNat [assoc comm] . \
    op max : Nat Nat -> Nat . \
    ops _<_ _<=_ _>_ _>=_ : Nat Nat -> Bool [prec 37] . \
    endfm";

/// The variables of an equation, each behind a space.
fn names_of(alloc: Global, equation: &Equation) -> Result<String, Fail> {
    let mut text = String::new(alloc);
    let count = u32::try_from(equation.vars.len())?;
    for index in 0..count {
        if let Some(variable) = equation.vars.variable(index) {
            if let Some((name, sort)) = equation.vars.get(variable) {
                text.push_str(&format!(in alloc; " {name}:{sort}")?)?;
            }
        }
    }
    Ok(text)
}

/// An equation with its variables.
fn shown(alloc: Global, equation: &Equation) -> Result<String, Fail> {
    let Equation {
        left,
        right,
        cond,
        owise,
        exec,
        ..
    } = equation;
    let names = names_of(alloc, equation)?;
    Ok(format!(in alloc; "{left:?} {right:?} {cond:?} {owise} {exec}{names}")?)
}

/// The declarations of a module, without the hooks of the prelude's.
fn declared(alloc: Global, module: &Module) -> Result<String, Fail> {
    let mut text = String::new(alloc);
    for decl in module.own_declarations() {
        let (form, args, result, attrs) = (&decl.form, &decl.args, decl.result, &decl.attrs);
        let (assoc, comm, id) = (attrs.assoc, attrs.comm, &attrs.id);
        let (prec, gather, strat) = (attrs.prec, &attrs.gather, &attrs.strat);
        text.push_str(&format!(in alloc;
            "{form:?} {args:?} {result} {assoc} {comm} {id:?} {prec:?} {gather:?} {strat:?}\n"
        )?)?;
    }
    Ok(text)
}

/// The variables that a module declares.
fn variables(alloc: Global, module: &Module) -> Result<String, Fail> {
    let aliases = module.grammar().aliases();
    Ok(format!(in alloc; "{aliases:?}")?)
}

#[test]
fn the_prelude_has_four_modules(rt: HostRuntime) -> Result<(), Fail> {
    let library = Library::prelude(rt.alloc())?;
    assert_eq!(rt; library.len(), 4);
    let names = ["TRUTH-VALUE", "TRUTH", "BOOL", "NAT"];
    for number in 0..4 {
        assert_eq!(rt; library.module(number).name(), names[number]);
        assert_eq!(rt; library.find(names[number]), Some(number));
        assert_eq!(rt; library.module(number).depth(), number as u32 + 1);
    }
    Ok(())
}

#[test]
fn the_prelude_is_as_it_is_written(rt: HostRuntime) -> Result<(), Fail> {
    let alloc = rt.alloc();
    let library = Library::prelude(alloc)?;
    let written = match flatten(alloc, &library, BOOL_TEXT, &rt)? {
        Ok(module) => module,
        Err(fault) => panic!(rt; "{fault:?}"),
    };
    assert!(rt; library.len() >= 4);
    let made = library.module(2);
    assert_eq!(rt; declared(alloc, &written)?, declared(alloc, made)?);
    assert_eq!(rt; variables(alloc, &written)?, variables(alloc, made)?);
    assert_eq!(rt; made.grammar().aliases().len(), 3);
    assert_eq!(rt; written.own_equations().len(), 9);
    assert_eq!(rt; made.own_equations().len(), 9);
    for number in 0..9 {
        let left = shown(alloc, &written.own_equations()[number])?;
        let right = shown(alloc, &made.own_equations()[number])?;
        assert_eq!(rt; left, right);
    }
    let written = match flatten(alloc, &library, NAT_TEXT, &rt)? {
        Ok(module) => module,
        Err(fault) => panic!(rt; "{fault:?}"),
    };
    let made = library.module(3);
    assert_eq!(rt; declared(alloc, &written)?, declared(alloc, made)?);
    assert_eq!(rt; variables(alloc, &written)?, variables(alloc, made)?);
    assert_eq!(rt; written.own_pairs(), made.own_pairs());
    assert_eq!(rt; made.own_equations().len(), 0);
    Ok(())
}

#[test]
fn modules_are_included_once(rt: HostRuntime) -> Result<(), Fail> {
    let alloc = rt.alloc();
    let mut library = Library::prelude(alloc)?;
    let texts = [
        "fmod A is sort S . op a : -> S . eq a = a . endfm",
        "fmod B is protecting A . sort T . op b : -> T . endfm",
        "fmod C is including A . extending B . protecting A . sort S . op c : -> S . eq c = a . endfm",
    ];
    for text in texts {
        enter(alloc, &mut library, text, &rt)?;
    }
    assert_eq!(rt; library.len(), 7);
    let module = library.module(6);
    assert_eq!(rt; module.parts(), [0, 1, 2, 4, 5, 6].as_slice());
    assert_eq!(rt; module.sorts().len(), 3);
    assert_eq!(rt; module.depth(), 3);
    assert_eq!(rt; module.equations().len(), 11);
    assert_eq!(rt; module.own_equations().len(), 1);
    Ok(())
}

#[test]
fn variables_of_kinds_that_become_one_stay_two(rt: HostRuntime) -> Result<(), Fail> {
    let alloc = rt.alloc();
    let mut library = Library::prelude(alloc)?;
    let texts = [
        "fmod A is sorts S T U . op s : -> S . op t : -> T . op u : -> U . op f : S T -> U . eq f(X:[S], X:[T]) = u . endfm",
        "fmod B is pr A . sort W . subsorts S T < W . endfm",
    ];
    for text in texts {
        enter(alloc, &mut library, text, &rt)?;
    }
    assert_eq!(rt; library.len(), 6);
    // Bool, S, T, U, W have the numbers 0 to 4; the kinds of Bool, S, U are 5 to 7.
    let module = library.module(5);
    assert_eq!(rt; module.equations().len(), 10);
    let names = names_of(alloc, &module.equations()[9])?;
    assert_eq!(rt; names.as_str(), " X:6 X':6");
    Ok(())
}
