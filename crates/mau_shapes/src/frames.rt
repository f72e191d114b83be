//! What waits for a strategy.
ghost use Rattle.std.specs.Prelude.{◌≡◌, ◌≤◌, ◌∷◌, [], OnOk, MatchOption};
ghost use Rattle.mau_shapes.specs.Machine.{top_of, rest_of};

use mau_terms::NoMemory;
use std::alloc::Global;
use std::marker::Model;

/// What waits for a strategy, with the place of its word.
#[derive(Clone, Copy)]
pub enum Frame {
    /// `(`
    Bracket,
    /// `not(`
    Wrapper(usize),
    /// `top(`
    Top(usize),
    /// `E ;`, with the level of the form.
    Left(u32, usize),
    /// `E ?`
    Asked,
    /// `E ? F :`
    Answered,
}

/// What waits, the latest one first.
#[derive(Drop)]
pub struct Frames {
    items: Vec<Frame>,
}

impl Model for Frames {
    ghost use Rattle.std.specs.Prelude.{List, reverse};
    ghost use Rattle.mau_shapes.specs.declared.frames.Frame.{Frame as One};

    ghost Value = { List One };

    ghost view = { λ f. reverse f.items.items };
}

impl Frames {
    /// Nothing waits.
    pub fn new(alloc: Global) -> Frames
        ensures { result ≡ [] }
    {
        Frames {
            items: Vec::new(alloc),
        }
    }

    /// The latest one.
    pub fn top(&self) -> Option<Frame>
        ensures { result ≡ top_of self.now }
    {
        let count = self.items.len();
        if count == 0 {
            None
        } else {
            Some(self.items[count - 1])
        }
    }

    /// One more waits.
    pub fn push(&mut self, frame: Frame) -> Result<(), NoMemory>
        ensures { OnOk result (self.new ≡ frame ∷ self.old) }
    {
        self.items.push(frame)?;
        Ok(())
    }

    /// The latest one waits no more.
    pub fn pop(&mut self)
        ensures { self.new ≡ rest_of self.old }
    {
        let _ = self.items.pop();
    }
}
