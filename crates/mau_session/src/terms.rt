//! The terms of a match command.

use mau_terms::{Bare, Vars};

/// A pattern and a subject, and their variables, of which those of the pattern are the first ones.
#[derive(Drop)]
pub struct Terms {
    pub pattern: Bare,
    pub subject: Bare,
    pub vars: Vars,
}
