//! Reading operator declarations.
ghost use Rattle.std.specs.Prelude.{◌≡◌, ◌≤◌, map, length, IfOk};
ghost use Rattle.mau_poset.specs.declared.TheConstants.{MAX_SORTS};
ghost use Rattle.mau_declare.specs.Forms.{form_of};
ghost use Rattle.mau_declare.specs.Elements.{operators, IsOver};
ghost use Rattle.mau_declare.specs.Faults.{Reads};

use crate::attributes::read_attributes;
use crate::element::Operators;
use crate::fault::ElementFault;
use crate::forms::read_form;
use crate::names::Names;
use crate::uses::{read_arguments, read_sort_use};
use crate::words::Words;
use mau_modtext::{RawOps, TokenList};
use mau_signature::Form;
use mau_terms::{NoMemory, Seq};
use std::alloc::Global;

/// The forms of operators.
fn read_forms(alloc: Global, words: &Words, forms: &[TokenList]) -> Result<Seq<Form>, NoMemory>
    ensures { IfOk result (λ read. read ≡ map (form_of words.now) forms.now) }
{
    let mut read = Vec::with_capacity(alloc, forms.len())?;
    for form in forms {
        read.push(read_form(alloc, words, form.items())?)?;
    }
    Ok(Seq::new(read))
}

/// The fault of a part that takes no memory.
fn at_place<X: Drop>(part: Result<X, u32>) -> Result<X, ElementFault>
    ensures { Reads result part }
{
    match part {
        Ok(x) => Ok(x),
        Err(at) => Err(ElementFault::UnknownSort(at)),
    }
}

/// What a declaration of operators says.
pub fn read_operators(
    alloc: Global,
    words: &Words,
    sorts: &Names,
    ops: &RawOps,
) -> Result<Operators, ElementFault>
    requires { length sorts.now ≤ MAX_SORTS }
    ensures reads { Reads result (operators words.now sorts.now ops.now) }
    ensures over { IfOk result (IsOver (length sorts.now)) }
{
    let forms = read_forms(alloc, words, ops.forms.items())?;
    let args = read_arguments(alloc, words, sorts, ops.args.items())?;
    let result = at_place(read_sort_use(words, sorts, ops.result.items()))?;
    let (attrs, conflict) = read_attributes(
        alloc,
        words,
        ops.args.items().len(),
        ops.attrs.items(),
    )?;
    Ok(Operators {
        forms,
        args,
        partial: ops.partial,
        result,
        attrs,
        conflict,
    })
}
