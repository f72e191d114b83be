//! Declarations of operators.

use crate::{Attrs, Form};
use mau_terms::Seq;

/// A declaration of an operator: its form, the sorts or kinds of its arguments and of its result, and its attributes.
#[derive(Drop, Debug)]
pub struct Decl {
    pub form: Form,
    pub args: Seq<u32>,
    pub result: u32,
    pub attrs: Attrs,
}
