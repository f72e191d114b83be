//! Which terms are asked for.
ghost use Rattle.std.specs.Prelude.{◌≡◌, ◌≤◌};
ghost use Rattle.mau_parse.specs.Goal.{lowest, highest};

use mau_grammar::Grammar;

/// The kinds whose terms are asked for: every kind, or the one with this number.
#[derive(Clone, Copy, PartialEq, Eq, Debug)]
pub enum Goal {
    AnyKind,
    Kind(u32),
}

/// The least kind that is asked for.
pub fn lowest_kind(grammar: &Grammar, goal: Goal) -> usize
    ensures value { result ≡ lowest grammar.now goal }
    ensures small { result ≤ 4294967295 }
{
    match goal {
        Goal::AnyKind => grammar.first_kind() as usize,
        Goal::Kind(kind) => kind as usize,
    }
}

/// One more than the greatest kind that is asked for.
pub fn highest_kind(grammar: &Grammar, goal: Goal) -> usize
    ensures value { result ≡ highest grammar.now goal }
    ensures small { result ≤ 4294967296 }
{
    match goal {
        Goal::AnyKind => grammar.last_kind() as usize,
        Goal::Kind(kind) => kind as usize + 1,
    }
}
