//! Commands by their kinds.
ghost use Rattle.std.specs.Prelude.{◌≡◌, ◌↔◌, true, Ok};
ghost use Rattle.mau_modtext.specs.declared.raw.RawBody.TheVariants as RawBody;
ghost use Rattle.mau_session.specs.Built;

use mau_modtext::{CommandKind, RawBody, RawItem};

/// Whether a command is a match, with contexts or without.
pub fn is_match(kind: CommandKind) -> bool
    ensures { result ≡ Built.is_match kind }
{
    match kind {
        CommandKind::Match | CommandKind::Xmatch => true,
        _ => false,
    }
}

/// Whether the solutions of a match have contexts.
pub fn has_context(kind: CommandKind) -> bool
    ensures { result ≡ Built.has_context kind }
{
    match kind {
        CommandKind::Xmatch => true,
        _ => false,
    }
}

/// Whether a command is a reduce.
pub fn is_reduce(kind: CommandKind) -> bool
    ensures { result ≡ Built.is_reduce kind }
{
    match kind {
        CommandKind::Reduce => true,
        _ => false,
    }
}

/// Whether a command rewrites by rules, in either way.
pub fn is_rewrite(kind: CommandKind) -> bool
    ensures { result ≡ Built.is_rewrite kind }
{
    match kind {
        CommandKind::Rewrite | CommandKind::Frewrite => true,
        _ => false,
    }
}

/// Whether a command applies rules fairly.
pub fn is_fair(kind: CommandKind) -> bool
    ensures { result ≡ Built.is_fair kind }
{
    match kind {
        CommandKind::Frewrite => true,
        _ => false,
    }
}

/// Whether a command is `continue`.
pub fn is_continue(kind: CommandKind) -> bool
    ensures { result ≡ Built.is_continue kind }
{
    match kind {
        CommandKind::Continue => true,
        _ => false,
    }
}

/// Whether an item ends the session.
pub fn quits(item: &RawItem) -> bool
    ensures { result ≡ true ↔ (item.now.body ≡ Ok RawBody.Quit) }
{
    match &item.body {
        Ok(RawBody::Quit) => true,
        _ => false,
    }
}
