//! A table of hooks takes one hook of a name.
ghost use Rattle.std.specs.Prelude.{◌≡◌, IfOk};
ghost use Rattle.mau_formula.specs.Expr.{value};
ghost use Rattle.mau_formula.specs.Native.{formula_of};

use mau_formula::{Hook, HookAnswer, HookFault, HookTable, Native};
use mau_terms::{NoMemory, Text};
use std::alloc::Global;
use std::process::Abort;
use std::test::Fail;

/// The hook of a native operator, by another name.
fn hook(alloc: Global, native: Native, name: &str) -> Result<Hook, NoMemory> {
    let name = Text::new(alloc, name)?;
    let formula = native.formula(alloc)?;
    let call = move |a: u128, b: u128| -> HookAnswer
        ensures { result ≡ value (formula_of native) a b }
    { native.call(a, b) };
    Ok(Hook::new(name, formula, native.gives(), Box::new(alloc, call)?))
}

/// Adds a hook. It is refused exactly where it has to be, and then it is given back.
fn add(rt: &impl Abort, table: &mut HookTable, hook: Hook, name: &str, is_refused: bool) {
    match table.add(hook) {
        Ok(()) => assert!(rt; !is_refused, "{name}"),
        Err(HookFault::Duplicate(hook)) => {
            assert!(rt; is_refused, "{name}");
            assert_eq!(rt; hook.name(), name);
        }
        Err(HookFault::NoMemory(_)) => panic!(rt; "no memory"),
    }
}

/// The hook of a name, if there is one, gives this of 2 and 3.
fn gives(rt: &impl Abort, table: &HookTable, name: &str, wanted: Option<HookAnswer>) {
    let found = match table.find(name) {
        Some(hook) => Some(hook.call(2, 3)),
        None => None,
    };
    assert_eq!(rt; found, wanted, "{name}");
}

#[test]
fn a_table_has_one_hook_of_a_name(rt: HostRuntime) -> Result<(), Fail> {
    let mut table = HookTable::new(rt.alloc());
    gives(&rt, &table, "nat-pow", None);
    for (native, name, is_refused) in [
        (Native::Power, "nat-pow", false),
        (Native::Less, "nat-lt", false),
        (Native::Sum, "nat-pow", true),
    ] {
        let hook = hook(rt.alloc(), native, name)?;
        add(&rt, &mut table, hook, name, is_refused);
    }
    gives(&rt, &table, "nat-pow", Some(HookAnswer::Value(8)));
    gives(&rt, &table, "nat-lt", Some(HookAnswer::Value(1)));
    gives(&rt, &table, "nat-le", None);
    Ok(())
}
