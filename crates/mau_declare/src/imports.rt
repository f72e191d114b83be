//! The modules that elements import.
ghost use Rattle.std.specs.Prelude.{◌≡◌};
ghost use Rattle.std.specs.Option.{option_copied};
ghost use Rattle.mau_declare.specs.Imports.{import_of};

use crate::words::Words;
use mau_modtext::RawElement;

/// The name of the module that an element imports, if it is an import.
pub fn import_name<'a>(words: &Words<'a>, element: &RawElement) -> Option<&'a str>
    ensures { option_copied result ≡ import_of words.now element.now }
{
    match element {
        RawElement::Import(name) => Some(words.first_text(name.items())),
        _ => None,
    }
}
