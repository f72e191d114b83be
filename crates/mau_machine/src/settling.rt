//! Settling the sorts of a term, without its evaluation.
ghost use Rattle.std.specs.Prelude.{◌≡◌, ◌+◌, ℕ, true, false, IfOk, IfErr, OnOk};
ghost use Rattle.mau_evaluation.specs.Run.{Outcome};
ghost use Rattle.mau_machine.specs.Words.{ComesToEnd, settle_on};

use crate::World;
use crate::machine::solve;
use mau_api::{EvalEnd, Unwatched};
use mau_store::Store;
use mau_terms::TermId;

/// Settles the sorts of a term, of all below it and of the identities. The conditions of memberships are solved by `level` levels, or by
/// more where sorts were derived before, each by a budget of its own.
pub fn settle<W: World>(
    world: &mut W,
    store: &mut Store,
    term: TermId,
    level: u32,
) -> Result<(), EvalEnd>
    requires ready { W.ready world.old store.old }
    requires term { (W.words world.old store.old).knows_term term.0 }
    ensures settled { OnOk result ((W.words world.new store.new).knows_value term.0) }
    ensures ends { (b : ℕ) → IfErr result (ComesToEnd (W.words world.old store.old).rules.program
        (λ n. settle_on (W.words world.old store.old).rules (level + n) ((W.words world.old store.old).tree term.0) b)) }
    ensures grows { W.grows world.old store.old world.new store.new }
{
    let mut settling = match world.settling(store, term) {
        Ok(settling) => settling,
        Err(_) => return Err(EvalEnd::NoMemory),
    };
    for _ in 0..u64::MAX {
        match settle_further::<W>(world, store, term, level, &mut settling) {
            Ok(true) => return Ok(()),
            Ok(false) => {}
            Err(end) => return Err(end),
        }
    }
    Err(EvalEnd::NoMemory)
}

/// Solves the next condition, if there is one. Whether all is settled.
fn settle_further<W: World>(
    world: &mut W,
    store: &mut Store,
    term: TermId,
    level: u32,
    settling: &mut W::Settling,
) -> Result<bool, EvalEnd>
    requires ready { W.ready world.old store.old }
    requires term { (W.words world.old store.old).knows_term term.0 }
    requires settling { (W.words world.old store.old).knows_settling term.0 settling.old }
    ensures settled { IfOk result (λ done. done ≡ true → (W.words world.new store.new).knows_value term.0) }
    ensures settling { IfOk result (λ done. done ≡ false → (W.words world.new store.new).knows_settling term.0 settling.new) }
    ensures ends { (b : ℕ) → IfErr result (ComesToEnd (W.words world.old store.old).rules.program
        (λ n. settle_on (W.words world.old store.old).rules (level + n) ((W.words world.old store.old).tree term.0) b)) }
    ensures grows { W.grows world.old store.old world.new store.new }
{
    match world.settle(store, term, settling) {
        Ok(None) => Ok(true),
        Ok(Some((condition, binding))) => {
            let alloc = store.allocator();
            let mut budget = world.limit();
            let mut unwatched = Unwatched;
            match solve::<W, Unwatched>(
                alloc,
                world,
                store,
                condition,
                binding,
                None,
                level,
                &mut budget,
                &mut unwatched,
            ) {
                Ok(Some(_)) => {
                    world.told(store, term, condition, true, settling);
                    Ok(false)
                }
                Ok(None) => {
                    world.told(store, term, condition, false, settling);
                    Ok(false)
                }
                Err(end) => Err(end),
            }
        }
        Err(_) => Err(EvalEnd::NoMemory),
    }
}
