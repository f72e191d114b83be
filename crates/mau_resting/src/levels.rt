//! How many levels it takes to find that a term is its own value.
ghost use Rattle.std.specs.Prelude.{◌≡◌, ◌⊎◌, ◌≤◌, ◌<◌, ℕ, suc, List, All, None, IfSome, slice_get, slice_index_or};
ghost use Rattle.mau_machine.specs.Words.{IsSettled, IsKnownBy, applied_on};
ghost use Rattle.mau_resting.specs.Rests.{AreResting, RestsBy, AreKnownBy};

use mau_machine::World;
use mau_store::Store;
use mau_terms::TermId;

/// The most levels that are known of some terms; `None` where nothing is known of one.
fn most(levels: &[u32], terms: &[TermId]) -> Option<u32>
    ensures { IfSome result (λ n. AreKnownBy levels.now n terms.now) }
{
    let mut most = 0;
    for i in 0..terms.len() {
        let known = match levels.get(terms[i].0) {
            Some(known) => *known,
            None => return None,
        };
        if known == 0 {
            return None;
        }
        if known > most {
            most = known;
        }
    }
    Some(most)
}

/// By how many levels a term is its own value, at whose top nothing applies.
fn levels_of<W: World>(
    world: &mut W,
    store: &mut Store,
    levels: &[u32],
    term: TermId,
) -> Option<u32>
    requires ready { W.ready world.old store.old }
    requires value { (W.words world.old store.old).knows_value term.0 }
    requires resting { AreResting (W.words world.old store.old) levels.now }
    requires settles { IsSettled (W.words world.old store.old).rules ((W.words world.old store.old).tree term.0) }
    requires none { IsKnownBy (W.words world.old store.old).rules.program
        (λ k. applied_on (W.words world.old store.old).rules k ((W.words world.old store.old).tree term.0)) None }
    ensures rests { IfSome result (λ n. RestsBy (W.words world.old store.old) n term.0) }
    ensures some { IfSome result (λ n. 0 < n) }
    ensures grows { W.grows world.old store.old world.new store.new }
{
    match world.arguments(store, term) {
        Ok(Some((op, args, order))) => match most(levels, &args) {
            Some(most) => match world.build(store, op, &args, &order) {
                Ok((same, changed)) => {
                    if same == term && !changed {
                        return most.checked_add(1);
                    }
                    None
                }
                Err(_) => None,
            },
            None => None,
        },
        Ok(None) => Some(1),
        Err(_) => None,
    }
}

/// Puts a number at a place, behind as many zeros as are wanted; where there is no memory for them nothing is put.
fn put(levels: &mut Vec<u32>, place: usize, value: u32)
    ensures { (i n : ℕ) → slice_get levels.new.items i ≡ Some (suc n)
        → (slice_get levels.old.items i ≡ Some (suc n)) ⊎ ((i ≡ place) × (suc n ≡ value)) }
{
    while levels.len() <= place {
        match levels.push(0) {
            Ok(()) => (),
            Err(_) => return,
        }
    }
    levels[place] = value;
}

/// Notes that a term is its own value, where that is known of its arguments and nothing applies at its top.
pub(crate) fn mark<W: World>(world: &mut W, store: &mut Store, levels: &mut Vec<u32>, term: TermId)
    requires ready { W.ready world.old store.old }
    requires value { (W.words world.old store.old).knows_value term.0 }
    requires resting { AreResting (W.words world.old store.old) levels.old.items }
    requires settles { IsSettled (W.words world.old store.old).rules ((W.words world.old store.old).tree term.0) }
    requires none { IsKnownBy (W.words world.old store.old).rules.program
        (λ k. applied_on (W.words world.old store.old).rules k ((W.words world.old store.old).tree term.0)) None }
    ensures resting { AreResting (W.words world.new store.new) levels.new.items }
    ensures grows { W.grows world.old store.old world.new store.new }
{
    match levels_of(world, store, levels, term) {
        Some(needed) => put(levels, term.0, needed),
        None => (),
    }
}
