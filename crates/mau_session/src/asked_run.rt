//! Which run a rewrite command asks for.
ghost use Rattle.std.specs.Prelude.{◌≡◌};
ghost use Rattle.mau_session.specs.Bounds;

use crate::bounds::bound_of;
use crate::built::is_fair;
use crate::refusal::Refusal;
use mau_declare::Words;
use mau_modtext::RawCommand;
use mau_results::RunKind;

/// The run that a rewrite command asks for: of which kind, and with how many rewrites at most.
#[derive(Clone, Copy, Debug, PartialEq, Eq)]
pub struct AskedRun {
    pub kind: RunKind,
    pub most: Option<u64>,
}

/// Which kind of run a rewrite command asks for: a fair one makes one rewrite at each top, where no number of them is given.
fn kind_of(words: &Words, command: &RawCommand) -> Result<RunKind, Refusal>
    ensures { result ≡ Bounds.kind_of words.now command.now }
{
    if !is_fair(command.kind) {
        return Ok(RunKind::Rewriting);
    }
    match bound_of(words, command.gas) {
        Ok(None) => Ok(RunKind::Fair(1)),
        Ok(Some(gas)) => Ok(RunKind::Fair(gas)),
        Err(refusal) => Err(refusal),
    }
}

/// Which run a rewrite command asks for.
pub fn asked_run(words: &Words, command: &RawCommand) -> Result<AskedRun, Refusal>
    ensures { result ≡ Bounds.asked_run words.now command.now }
{
    match bound_of(words, command.bound) {
        Err(refusal) => Err(refusal),
        Ok(most) => match kind_of(words, command) {
            Err(refusal) => Err(refusal),
            Ok(kind) => Ok(AskedRun { kind, most }),
        },
    }
}
