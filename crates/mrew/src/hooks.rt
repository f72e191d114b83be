//! A run with the native operators of the program.
ghost use Rattle.std.specs.Prelude.{◌≡◌, map, IfOk, OnErr};
ghost use Rattle.mau_formula.specs.Expr.{value};
ghost use Rattle.mau_formula.specs.Native.{formula_of, native_operator, natives};
ghost use Rattle.mrew.specs.Ran.{IsRan};

use crate::asked::answer;
use mau_bytes::{Sink, Source};
use mau_formula::{Hook, HookAnswer, HookTable, Native};
use mau_session::Status;
use mau_terms::{NoMemory, Text};
use std::alloc::Global;

/// Does what the words ask for, with all native operators on numbers, each a closure beside the formula that it computes. The status tells all that that of `run`
/// does. Where memory is wanting for the operators, the source and the sink stay as they are.
pub fn run_with_hooks<S: Source, K: Sink>(
    alloc: Global,
    words: &[Text],
    source: &mut S,
    sink: &mut K,
) -> Result<Status, NoMemory>
    ensures run { IfOk result (IsRan (map native_operator natives) words.now (S.faults source.old) (S.faults source.new) (K.faults sink.old) (K.faults sink.new)
        (S.left source.old) (S.left source.new) (K.written sink.old) (K.written sink.new)) }
    ensures untouched { OnErr result ((source.new ≡ source.old) × (sink.new ≡ sink.old)) }
{
    let mut hooks = HookTable::new(alloc);
    for native in Native::ALL {
        let name = Text::new(alloc, native.name())?;
        let formula = native.formula(alloc)?;
        let call = move |a: u128, b: u128| -> HookAnswer
            ensures { result ≡ value (formula_of native) a b }
        { native.call(a, b) };
        let hook = Hook::new(name, formula, native.gives(), Box::new(alloc, call)?);
        if hooks.add(hook).is_err() {
            return Err(NoMemory);
        }
    }
    Ok(answer(alloc, &hooks, words, source, sink))
}
