//! How an operator is written.

ghost use Rattle.std.specs.Prelude.{◌≡◌};
ghost use Rattle.mau_print.specs.Printed.{level_by};

use mau_grammar::Part;
use mau_terms::{Seq, Text};

/// How an operator is written. A level is 0 in parentheses, and otherwise one more than the precedence.
#[derive(Drop, Debug)]
pub enum Layout {
    /// A constant: its whole text.
    Constant(u32, Text),
    /// A form without holes, and behind it the arguments in parentheses.
    Prefix(Text),
    /// A form with holes: words, and places for the arguments.
    Form(u32, Seq<Part>),
    /// The form of an associative operator, under which a list nests to the right.
    Chain(u32, Seq<Part>),
}

impl Layout {
    /// The level of a term that is written so.
    pub(crate) fn level(&self) -> u32
        ensures { result ≡ level_by self.now }
    {
        match self {
            Layout::Constant(level, _) | Layout::Form(level, _) | Layout::Chain(level, _) => *level,
            Layout::Prefix(_) => 1,
        }
    }
}
