//! What printing has to know of a module.
ghost use Rattle.std.specs.Prelude.{◌≡◌, map, bytes_eq, string_bytes};
ghost use Rattle.std.specs.List.{list_any};
ghost use Rattle.std.specs.Option.{option_map};
ghost use Rattle.mau_print.specs.Printed.{layout_at, name_of};

use crate::layout::Layout;
use indexmap::IndexSet;
use mau_terms::{OpId, Text};
use std::marker::Model;

/// How the operators of a module are written, and the names that a text needs.
#[derive(Drop)]
pub struct Printer {
    layouts: Vec<Layout>,
    names: Vec<Text>,
    clashes: IndexSet<String>,
    numeral_sort: Text,
}

impl Model for Printer {
    ghost use Rattle.std.specs.Prelude.{map, string_bytes};
    ghost use Rattle.mau_print.specs.Printed.{PrinterOf};

    ghost Value = { PrinterOf };

    ghost view = { λ p. record {
      layouts = p.layouts.items;
      names = p.names.items;
      clashes = map string_bytes p.clashes.keys;
      numeral_sort = p.numeral_sort;
    } };
}

impl Printer {
    /// A printer of these parts.
    pub(crate) fn from_parts(
        layouts: Vec<Layout>,
        names: Vec<Text>,
        clashes: IndexSet<String>,
        numeral_sort: Text,
    ) -> Printer
        ensures { result ≡ record { layouts = layouts.items; names = names.items; clashes = map string_bytes clashes.keys; numeral_sort = numeral_sort } }
    {
        Printer {
            layouts,
            names,
            clashes,
            numeral_sort,
        }
    }

    /// How an operator is written.
    pub(crate) fn layout(&self, op: OpId) -> Option<&Layout>
        ensures { option_map (λ l. l.now) result ≡ layout_at self.now op.0 }
    {
        self.layouts.get((op.0 as usize).saturating_sub(1))
    }

    /// The name of a sort or a kind, by its number.
    pub(crate) fn name(&self, sort: u32) -> &str
        ensures { result.now ≡ name_of self.now sort }
    {
        match self.names.get(sort as usize) {
            Some(name) => name.as_str(),
            None => "",
        }
    }

    /// Whether a numeral has the text of a constant or a declared variable; `text` is its text.
    pub(crate) fn is_clash(&self, text: &str) -> bool
        ensures { result ≡ list_any (bytes_eq text.now) self.now.clashes }
    {
        self.clashes.contains(text)
    }

    /// The name of the first sort of the numerals' kind.
    pub(crate) fn numeral_sort(&self) -> &str
        ensures { result.now ≡ self.now.numeral_sort }
    {
        self.numeral_sort.as_str()
    }
}
