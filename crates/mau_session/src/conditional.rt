//! Queries with a condition, and how their listings are left.

use crate::query::Query;
use mau_api::EvalEnd;
use mau_program::Fragment;
use mau_terms::{NoMemory, Seq};

/// A query whose solutions are shown where a condition holds under them.
#[derive(Drop)]
pub struct ConditionalQuery {
    pub query: Query,
    pub cond: Seq<Fragment>,
}

/// How a listing is left: no solution is left, or as many are shown as were asked for, or the asking of the condition ended so.
#[derive(Clone, Copy, Debug, PartialEq, Eq)]
pub enum Ending {
    NoMore,
    BoundReached,
    Stopped,
    TooDeep,
    Overflow,
}

impl Ending {
    ghost use Rattle.std.specs.Prelude.{◌≡◌, IfOk, IfErr, Ok};
    ghost use Rattle.mau_session.specs.KeptWhere.{ending_of, IsEndingBy};

    /// An end of the asking, but for want of memory.
    pub fn by(end: EvalEnd) -> Result<Ending, NoMemory>
        ensures { IfOk result (IsEndingBy end) }
    {
        match end {
            EvalEnd::Stopped => Ok(Ending::Stopped),
            EvalEnd::TooDeep => Ok(Ending::TooDeep),
            EvalEnd::Overflow => Ok(Ending::Overflow),
            EvalEnd::NoMemory => Err(NoMemory),
        }
    }
}
