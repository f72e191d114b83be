//! Where a match command isn't built.
ghost use Rattle.std.specs.Prelude.{◌≡◌, ◌≤◌, length, false, IfNone};
ghost use Rattle.mau_session.specs.Commands;
ghost use Rattle.mau_statement.specs.Parts;

use crate::reading::is_empty;
use mau_declare::Words;
use mau_modtext::{FragmentKind, RawCommand, RawFragment};

/// Whether a command has a condition.
pub fn has_condition(command: &RawCommand) -> bool
    ensures { result ≡ Commands.has_condition command.now }
{
    !command.cond.items().is_empty()
}

/// Whether a fragment is t => u.
fn is_rewriting(raw: &RawFragment) -> bool
    ensures { result ≡ Commands.is_rewriting raw.now.kind }
{
    match raw.kind {
        FragmentKind::Reach => true,
        _ => false,
    }
}

/// Whether a condition has a fragment t => u.
fn has_rewriting(raws: &[RawFragment]) -> bool
    ensures { result ≡ Commands.has_rewriting raws.now }
{
    raws.iter().any(is_rewriting)
}

/// The number of the word from which on a match command isn't built, if there is one. Where there is none, its terms have tokens, and its
/// condition has no fragment t => u.
pub fn unbuilt(words: &Words, command: &RawCommand) -> Option<usize>
    requires short { length words.now ≤ 16777216 }
    ensures unbuilt { result ≡ Commands.unbuilt words.now command.now }
    ensures pattern { IfNone result (Parts.is_empty words.now command.now.first ≡ false) }
    ensures subject { IfNone result (Parts.is_empty words.now command.now.second ≡ false) }
    ensures no_rewriting { IfNone result (Commands.has_rewriting command.now.cond ≡ false) }
{
    let pattern = command.first.items();
    let subject = command.second.items();
    if is_empty(words, pattern) {
        return Some(words.first_index(pattern));
    }
    if is_empty(words, subject) {
        return Some(words.first_index(subject));
    }
    if has_rewriting(command.cond.items()) {
        return Some(words.first_index(subject) + subject.len());
    }
    None
}
