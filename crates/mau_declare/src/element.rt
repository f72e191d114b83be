//! What the elements of a module declare: sorts that they name stand there by their numbers.
use mau_signature::{Attrs, Form};
use mau_terms::Seq;
use std::marker::Model;

/// A sort in a declaration: the sort itself, or its whole kind.
#[derive(Clone, Copy, Drop, Debug)]
pub struct SortUse {
    pub sort: u32,
    pub whole_kind: bool,
}

/// A declaration of operators, one for each form. It is partial where all its sorts stand for their kinds, and conflicts where some
/// attribute stands in it twice with different values; the first is kept.
#[derive(Drop, Debug)]
pub struct Operators {
    pub forms: Seq<Form>,
    pub args: Seq<SortUse>,
    pub partial: bool,
    pub result: SortUse,
    pub attrs: Attrs,
    pub conflict: bool,
}

/// A declared variable, whose name is the word with this number.
#[derive(Clone, Copy, Drop, Debug)]
pub struct Declared {
    pub name: usize,
    pub sort: SortUse,
}

/// What the elements of a module declare beside its sorts: subsort pairs, operators and variables.
#[derive(Drop)]
pub struct Elements {
    pub pairs: Vec<(u32, u32)>,
    pub operators: Vec<Operators>,
    pub variables: Vec<Declared>,
}

impl Model for Elements {
    ghost use Rattle.mau_declare.specs.Elements.{Elements};

    ghost Value = { Elements };

    ghost view = { λ e. record { pairs = e.pairs.items; operators = e.operators.items; variables = e.variables.items } };
}
