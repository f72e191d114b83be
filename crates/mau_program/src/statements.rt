//! Statements of a module.
ghost use Rattle.std.specs.Prelude.{◌≡◌, IfOk};

use mau_terms::{Bare, Duplicate, NoMemory, Seq, Text, Vars};
use std::alloc::Global;

/// A part of a condition.
#[derive(Drop, Debug)]
pub enum Fragment {
    /// `t = u`: both are evaluated, and their values are equal. A term `t` of truth values stands for `t = true`.
    Equal(Bare, Bare),
    /// `p := u`: the value of `u` matches `p`, which may have new variables.
    Match(Bare, Bare),
    /// `t : s`: the value of `t` has the sort with this number.
    Sort(Bare, u32),
    /// `t => u`: what `t` is rewritten to matches `u`, which may have new variables.
    Reach(Bare, Bare),
}

impl Fragment {
    /// An equal fragment.
    pub fn copy(&self, alloc: Global) -> Result<Fragment, NoMemory>
        ensures { IfOk result (λ copy. copy ≡ self.now) }
    {
        match self {
            Fragment::Equal(t, u) => Ok(Fragment::Equal(t.copy(alloc)?, u.copy(alloc)?)),
            Fragment::Match(p, u) => Ok(Fragment::Match(p.copy(alloc)?, u.copy(alloc)?)),
            Fragment::Sort(t, sort) => Ok(Fragment::Sort(t.copy(alloc)?, *sort)),
            Fragment::Reach(t, u) => Ok(Fragment::Reach(t.copy(alloc)?, u.copy(alloc)?)),
        }
    }
}

impl Duplicate for Fragment {
    fn copy(&self, alloc: Global) -> Result<Fragment, NoMemory> {
        self.copy(alloc)
    }
}

/// An equation. `owise` is true where it is only used when no other equation is, and `exec` is false where it is never used to
/// evaluate. The variables are those of its terms, in the order in which they are read.
#[derive(Drop)]
pub struct Equation {
    pub left: Bare,
    pub right: Bare,
    pub cond: Seq<Fragment>,
    pub owise: bool,
    pub exec: bool,
    pub vars: Vars,
}

/// A membership: what its left side, the head, matches has the sort with this number.
#[derive(Drop)]
pub struct Membership {
    pub left: Bare,
    pub sort: u32,
    pub cond: Seq<Fragment>,
    pub exec: bool,
    pub vars: Vars,
}

/// A rule.
#[derive(Drop)]
pub struct Rule {
    pub label: Option<Text>,
    pub left: Bare,
    pub right: Bare,
    pub cond: Seq<Fragment>,
    pub exec: bool,
    pub vars: Vars,
}
