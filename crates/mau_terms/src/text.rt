//! Names, seen as their bytes.
ghost use Rattle.std.specs.Prelude.{◌≡◌, IfOk};

use crate::{Duplicate, NoMemory};
use std::alloc::Global;
use std::marker::Model;

/// A name.
#[derive(Drop, Debug)]
pub struct Text {
    text: String,
}

impl Model for Text {
    ghost use Rattle.std.specs.Prelude.{List, ℕ, string_bytes};

    ghost Value = { List ℕ };

    ghost view = { λ t. string_bytes t.text };
}

impl Text {
    /// The name with these bytes.
    pub fn new(alloc: Global, name: &str) -> Result<Text, NoMemory>
        ensures { IfOk result (λ t. t ≡ name.now) }
    {
        Ok(Text {
            text: String::from_str(alloc, name)?,
        })
    }

    /// The bytes of the name.
    pub fn as_str(&self) -> &str
        ensures { result.now ≡ self.now }
    {
        self.text.as_str()
    }

    /// An equal name.
    pub fn copy(&self, alloc: Global) -> Result<Text, NoMemory>
        ensures { IfOk result (λ t. t ≡ self.now) }
    {
        Text::new(alloc, self.as_str())
    }
}

impl Duplicate for Text {
    fn copy(&self, alloc: Global) -> Result<Text, NoMemory> {
        self.copy(alloc)
    }
}
