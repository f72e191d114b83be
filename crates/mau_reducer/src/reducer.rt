//! The evaluator: a program with its native operators, and the sorts that are settled.
ghost use Rattle.std.specs.Prelude.{◌≡◌, List, All, true, false, IfOk};
ghost use Rattle.mau_terms.specs.Bare.{IsLawful};
ghost use Rattle.mau_signature.specs.Signature.{terms_over};
ghost use Rattle.mau_formula.specs.Operator.{Operator};
ghost use Rattle.mau_store.specs.Trees.{tree_at};
ghost use Rattle.mau_program.specs.LawfulPrograms.{IsLawfulProgram};
ghost use Rattle.mau_api.specs.Terms.{IsTerm};
ghost use Rattle.mau_api.specs.Meanings.{meanings_by};
ghost use Rattle.mau_reduce.specs.BuiltOperators.{IsBuiltAt};
ghost use Rattle.mau_built_ins.specs.NativeNumerals.{GivesNumerals};
ghost use Rattle.mau_reducer.specs.Basis.{AreBuiltIns};

use mau_api::{Evaluator, Fragment, Lister, Program};
use mau_listing::WholeLister;
use mau_reduce::{Attempts, BuiltIn, Compiled, Natives, built_in_of};
use mau_sorts::SortTable;
use mau_store::{NodeView, Store};
use mau_terms::{NoMemory, OpId, TermId, VarId};
use std::alloc::Global;
use std::marker::PhantomData;

/// All that may be applied at the top of a term and is not yet tried. It is boxed, so that the frames of the loop are small.
#[derive(Drop)]
pub struct Candidates<L> {
    pub(crate) term: TermId,
    pub(crate) attempts: Box<Attempts<L>>,
}

/// Evaluates by a program and its native operators, with listings of the type `L` for equations and of the type `M` for conditions. It
/// keeps the compiled equations, what is built in of the operators, and the sorts that are settled.
#[derive(Drop)]
pub struct Reducer<'a, L, M, N> {
    pub(crate) program: &'a Program,
    pub(crate) natives: N,
    pub(crate) limit: u64,
    pub(crate) compiled: Compiled,
    pub(crate) built_ins: Vec<BuiltIn>,
    /// The condition that is asked, and the variables that have values before it.
    pub(crate) asked: Vec<Fragment>,
    pub(crate) asked_under: Vec<VarId>,
    pub(crate) table: SortTable,
    /// Whether it is known that the identities are settled.
    pub(crate) begun: bool,
    of: PhantomData<L>,
    of_conditions: PhantomData<M>,
}

/// What is built in of the operators of a program, in their order.
fn built_ins_of(alloc: Global, program: &Program) -> Result<Vec<BuiltIn>, NoMemory>
    ensures found { (hooks : List Operator) → IfOk result (λ found. AreBuiltIns program.now.sig hooks found.items) }
    ensures lawful { IsLawful (terms_over program.now.sig) }
{
    let mut found = Vec::new(alloc);
    for number in 0..program.sig.operators() {
        found.push(built_in_of(alloc, &program.sig, OpId(number + 1))?)?;
    }
    Ok(found)
}

impl<'a, L: Lister + Drop, M: WholeLister + Drop, N: Natives + Drop> Reducer<'a, L, M, N> {
    ghost use Rattle.mau_reducer.specs.Worlds.{basis_of};
    ghost use Rattle.mau_reducer.specs.States.{IsFit};
    ghost use Rattle.mau_store.specs.Node.{Node};

    /// An evaluator by a program and its native operators, before anything is settled. `limit` is the budget of an item. It remembers no
    /// results yet, whatever `_remember` says.
    pub fn new(
        alloc: Global,
        program: &'a Program,
        natives: N,
        limit: u64,
        _remember: bool,
    ) -> Result<Reducer<'a, L, M, N>, NoMemory>
        requires lawful { IsLawfulProgram program.now }
        requires numerals { All GivesNumerals (N.operators natives) }
        requires contexts { L.with_context ≡ true }
        ensures meanings { IfOk result (λ e. ⟦<Reducer<'a, L, M, N> as Evaluator>⟧.meanings e
            ≡ meanings_by program.now (N.operators natives) limit false) }
        ensures fits { (nodes : List Node) → IfOk result (λ e. ⟦<Reducer<'a, L, M, N> as Evaluator>⟧.fits e nodes) }
    {
        let built_ins = built_ins_of(alloc, program)?;
        let compiled = Compiled::new(alloc, program)?;
        let asked = Vec::new(alloc);
        let asked_under = Vec::new(alloc);
        Ok(Reducer {
            program,
            natives,
            limit,
            compiled,
            built_ins,
            asked,
            asked_under,
            table: SortTable::new(alloc),
            begun: false,
            of: PhantomData,
            of_conditions: PhantomData,
        })
    }

    /// What is built in of the operator on top of a term.
    pub(crate) fn built_in_at(&self, store: &Store, term: TermId) -> BuiltIn
        requires lawful { IsLawful (terms_over self.now.program.now.sig) }
        requires term { IsTerm self.now.program.now.sig store.now term.0 }
        requires built_ins { AreBuiltIns self.now.program.now.sig (N.operators self.now.natives) self.now.built_ins.items }
        ensures { IsBuiltAt self.now.program.now.sig (N.operators self.now.natives) (tree_at store.now term.0) result }
    {
        match store.view(term) {
            NodeView::App(op, _) => self.built_ins[op.0 as usize - 1],
            NodeView::Num(_) | NodeView::Var(_) => BuiltIn::Nothing,
        }
    }
}
