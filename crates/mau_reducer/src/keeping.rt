//! The sorts that an evaluator has settled, kept while there is no evaluator.
ghost use Rattle.std.specs.Prelude.{◌≡◌, List, All, true, false, IfOk};
ghost use Rattle.mau_store.specs.Node.{Node};
ghost use Rattle.mau_program.specs.LawfulPrograms.{IsLawfulProgram};
ghost use Rattle.mau_api.specs.Meanings.{meanings_by};
ghost use Rattle.mau_built_ins.specs.NativeNumerals.{GivesNumerals};
ghost use Rattle.mau_reducer.specs.KeptTables.{IsKept};

use crate::flagged::Flagged;
use crate::reducer::Reducer;
use mau_api::{Evaluator, Lister, Program};
use mau_listing::WholeLister;
use mau_reduce::Natives;
use mau_resting::Resting;
use mau_sorts::SortTable;
use mau_terms::NoMemory;
use std::alloc::Global;

impl<'a, L: Lister + Drop, M: WholeLister + Drop, N: Natives + Drop> Flagged<'a, L, M, N> {
    /// An evaluator as `new` gives, with sorts that one by the same program, native operators and budget has settled.
    pub fn with_sorts(
        alloc: Global,
        program: &'a Program,
        natives: N,
        limit: u64,
        remember: bool,
        sorts: SortTable,
    ) -> Result<Flagged<'a, L, M, N>, NoMemory>
        requires lawful { IsLawfulProgram program.now }
        requires numerals { All GivesNumerals (N.operators natives) }
        requires contexts { L.with_context ≡ true }
        ensures meanings { IfOk result (λ e. ⟦<Flagged<'a, L, M, N> as Evaluator>⟧.meanings e
            ≡ meanings_by program.now (N.operators natives) limit false) }
        ensures table { IfOk result (λ e. ⟦<Flagged<'a, L, M, N> as Evaluator>⟧.table e ≡ sorts) }
        ensures fits { (nodes : List Node) → IsKept program.now (N.operators natives) limit nodes sorts →
            IfOk result (λ e. ⟦<Flagged<'a, L, M, N> as Evaluator>⟧.fits e nodes) }
    {
        let mut reducer = Reducer::new(alloc, program, natives, limit, remember)?;
        reducer.table = sorts;
        reducer.begun = false;
        Ok(Flagged {
            world: Resting::new(alloc, reducer),
        })
    }

    /// The sorts that it has settled.
    pub fn into_sorts(self) -> SortTable
        ensures table { result ≡ ⟦<Flagged<'a, L, M, N> as Evaluator>⟧.table self.entry }
        ensures kept { (nodes : List Node) → ⟦<Flagged<'a, L, M, N> as Evaluator>⟧.fits self.entry nodes →
            IsKept (⟦<Flagged<'a, L, M, N> as Evaluator>⟧.meanings self.entry).program (⟦<Flagged<'a, L, M, N> as Evaluator>⟧.meanings self.entry).hooks
            (⟦<Flagged<'a, L, M, N> as Evaluator>⟧.meanings self.entry).limit nodes result }
    {
        self.world.world.table
    }
}
