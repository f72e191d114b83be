//! The sorts that elements declare.
ghost use Rattle.std.specs.Prelude.{◌≡◌, OnOk};
ghost use Rattle.mau_declare.specs.Sorts.{with_names, with_sorts, declared_sorts};

use crate::names::Names;
use crate::words::Words;
use mau_modtext::{RawElement, TokenList};
use mau_terms::NoMemory;

/// Adds the names of declared sorts, each of one token.
fn add_names(names: &mut Names, words: &Words, sorts: &[TokenList]) -> Result<(), NoMemory>
    ensures { OnOk result (names.new ≡ with_names words.now names.old sorts.now) }
{
    for sort in sorts {
        names.add(words.first_text(sort.items()))?;
    }
    Ok(())
}

/// Adds the names of the sorts that an element declares.
fn add_sorts(names: &mut Names, words: &Words, element: &RawElement) -> Result<(), NoMemory>
    ensures { OnOk result (names.new ≡ with_sorts words.now names.old element.now) }
{
    match element {
        RawElement::Sorts(sorts) => add_names(names, words, sorts.items()),
        _ => Ok(()),
    }
}

/// Adds the names of the sorts that elements declare, each unless it is there.
pub fn add_declared_sorts(
    names: &mut Names,
    words: &Words,
    elements: &[RawElement],
) -> Result<(), NoMemory>
    ensures { OnOk result (names.new ≡ declared_sorts words.now names.old elements.now) }
{
    for element in elements {
        add_sorts(names, words, element)?;
    }
    Ok(())
}
