//! What the loop knows of terms and programs.
ghost use Rattle.std.specs.Prelude.{
  ◌≡◌,
  ◌+◌,
  ℕ,
  suc,
  List,
  map,
  All,
  Bool,
  true,
  false,
  Option,
  Some,
  None,
  IfOk,
  IfErr,
  IfSome,
  IfNone,
  OnOk,
  slice_get,
};
ghost use Rattle.std.specs.List.{slice_set};
ghost use Rattle.std.specs.Option.{option_map};
ghost use Rattle.mau_terms.specs.declared.ids.TermId.{TermId};
ghost use Rattle.mau_terms.specs.Tree.{node};
ghost use Rattle.mau_terms.specs.Norm.{norm, build};
ghost use Rattle.mau_store.specs.Node.{Node, IsOf, Extends};
ghost use Rattle.mau_store.specs.Trees.{tree_at};
ghost use Rattle.mau_sorts.specs.Table.{Table, KeepsEntries};
ghost use Rattle.mau_listing.specs.Asked.{HasEntry};
ghost use Rattle.mau_canon.specs.Within.{IsWithin};
ghost use Rattle.mau_evaluation.specs.Run.{done, or_go_on, try_on, gives};
ghost use Rattle.mau_evaluation.specs.Listing.{same_tree};
ghost use Rattle.mau_evaluation.specs.Evaluation.{Binding, order_of, within_limits, top_changed};
ghost use Rattle.mau_api.specs.Terms.{IsNormalTerm};
ghost use Rattle.mau_api.specs.Events.{made};
ghost use Rattle.mau_api.specs.Told.{step_in, StandsIn};
ghost use Rattle.mau_machine.specs.Uses.{IsUse};
ghost use Rattle.mau_machine.specs.declared.goal.Goal.{Goal};
ghost use Rattle.mau_machine.specs.Words.{
  Words,
  Keeps,
  IsEnd,
  trees,
  kind_of,
  IsKnownBy,
  LeadsTo,
  EndsBy,
  EndsWhere,
  eval_on,
  solve_on,
  solve_from,
  choose_after,
  settle_on,
  Asks,
  HasSide,
  PassesOn,
  side_of,
  IsLeaf,
  IsAnswered,
  IsUntried,
  IsSolution,
  IsSorted,
  IsUnchosen,
  IsExtension,
  IsChoiceOf,
  rest_of,
  sort_in,
};

use crate::Goal;
use mau_api::{EvalEnd, Step};
use mau_store::Store;
use mau_terms::{NoMemory, OpId, TermId};

/// Terms of a store, and the equations of a program.
///
/// A state is a world and the nodes of a store. Each call asks for handles that are known in the state, and gives handles that are known in
/// the next one. Its clauses speak of the state after the call: there the handles that it was given are still known and stand for the
/// same (`keeps`).
pub trait World {
    /// Candidates for an application at the top of a term that are not yet tried, and the one that was tried last. A frame is as large as
    /// the largest of what frames hold, so what is large here is boxed.
    type Attempts: Drop;
    /// Solutions of a fragment `p := u` that are not yet tried.
    type Choices: Drop;
    /// The values of the variables of a candidate.
    type Binding: Drop;
    /// The settling of the sorts of a term, as it goes on from one condition of a membership to the next.
    type Settling: Drop;

    /// What the handles stand for in a state.
    ghost words: { Self → List Node → Words Self.Attempts Self.Choices Self.Binding Self.Settling };

    /// The sorts that are settled.
    ghost table: { Self → Table };

    /// Calls may begin in this state.
    ghost ready: { Self → List Node → Type 0 };

    /// The second state comes of the first one by calls.
    ghost grows: { Self → List Node → Self → List Node → Type 0 };

    /// Whether it is known that a term is its own value by so many levels, and that no application and no condition leads to it. `false`
    /// says nothing.
    fn rests(&self, store: &Store, term: TermId, level: u32) -> bool
        requires ready { ready self.now store.now }
        requires term { (words self.now store.now).knows_term term.0 }
        ensures value { result ≡ true → IsKnownBy (words self.now store.now).rules.program
            (λ n. eval_on (words self.now store.now).rules (level + n) ((words self.now store.now).tree term.0))
            ((words self.now store.now).tree term.0) }
        ensures known { result ≡ true → (words self.now store.now).knows_value term.0 };

    /// The operator, the arguments, and the places of those that are evaluated; `None` for a numeral or a variable.
    fn arguments(
        &self,
        store: &Store,
        term: TermId,
    ) -> Result<Option<(OpId, Vec<TermId>, Vec<usize>)>, NoMemory>
        requires ready { ready self.now store.now }
        requires term { (words self.now store.now).knows_term term.0 }
        ensures leaf { IfOk result (λ o. IfNone o (IsLeaf ((words self.now store.now).tree term.0))) }
        ensures node { IfOk result (λ o. IfSome o (λ x. (words self.now store.now).tree term.0 ≡ node x.0.0
            (trees (words self.now store.now) x.1.items))) }
        ensures order { IfOk result (λ o. IfSome o (λ x. x.2.items ≡ order_of (words self.now store.now).rules.program x.0.0
            (trees (words self.now store.now) x.1.items))) }
        ensures known { IfOk result (λ o. IfSome o (λ x. (words self.now store.now).knows_operands x.0.0 x.1.items)) };

    /// The operator over arguments, and whether the top has changed.
    fn build(
        &mut self,
        store: &mut Store,
        op: OpId,
        args: &[TermId],
        order: &[usize],
    ) -> Result<(TermId, bool), EvalEnd>
        requires ready { ready self.old store.old }
        requires operands { (words self.old store.old).knows_operands op.0 args.now }
        ensures value { (b : ℕ) → IfOk result (λ x. within_limits (words self.new store.new).rules.program.sign.theory
            (build ((words self.new store.new).rules.program.sign.theory op.0) op.0 (trees (words self.new store.new) args.now)) b
            ≡ done ((words self.new store.new).tree x.0.0) 0 b) }
        ensures changed { IfOk result (λ x. x.1 ≡ top_changed ((words self.new store.new).rules.program.sign.theory op.0) order.now op.0
            (trees (words self.new store.new) args.now) ((words self.new store.new).tree x.0.0)) }
        ensures ends { (b : ℕ) → IfErr result (IsEnd (within_limits (words self.new store.new).rules.program.sign.theory
            (build ((words self.new store.new).rules.program.sign.theory op.0) op.0 (trees (words self.new store.new) args.now)) b)) }
        ensures known { IfOk result (λ x. (words self.new store.new).knows_term x.0.0) }
        ensures kind { IfOk result (λ x. kind_of (words self.new store.new) x.0.0 ≡ Some
            ((words self.new store.new).rules.program.sign.result op.0)) }
        ensures grows { grows self.old store.old self.new store.new };

    /// The budget of each condition of a membership.
    fn limit(&self) -> u64
        ensures { (nodes : List Node) → result ≡ (words self.now nodes).rules.limit };

    /// Begins to settle the sorts of a term.
    fn settling(&mut self, store: &mut Store, term: TermId) -> Result<Self::Settling, NoMemory>
        requires ready { ready self.old store.old }
        requires term { (words self.old store.old).knows_term term.0 }
        ensures known { IfOk result ((words self.new store.new).knows_settling term.0) }
        ensures grows { grows self.old store.old self.new store.new };

    /// Settles further, up to the next condition that has to be solved: its number, and the values of its variables. `None` where all is
    /// settled. Where the condition ends by its own budget, settling ends so.
    fn settle(
        &mut self,
        store: &mut Store,
        term: TermId,
        settling: &mut Self::Settling,
    ) -> Result<Option<(usize, Self::Binding)>, NoMemory>
        requires ready { ready self.old store.old }
        requires term { (words self.old store.old).knows_term term.0 }
        requires settling { (words self.old store.old).knows_settling term.0 settling.old }
        ensures none { IfOk result (λ o. IfNone o ((words self.new store.new).knows_value term.0)) }
        ensures binding { IfOk result (λ o. IfSome o (λ x. (words self.new store.new).knows_binding x.0 0 x.1)) }
        ensures asking { IfOk result (λ o. IfSome o (λ x. (words self.new store.new).knows_asking term.0 x.0
            ((words self.new store.new).bound x.1) settling.new)) }
        ensures ends { IfOk result (λ o. IfSome o (λ x. EndsWhere (words self.new store.new).rules.program
            (λ k. settle_on (words self.new store.new).rules k ((words self.new store.new).tree term.0))
            (λ k. solve_on (words self.new store.new).rules k x.0 0 ((words self.new store.new).bound x.1)
            (words self.new store.new).rules.limit))) }
        ensures grows { grows self.old store.old self.new store.new };

    /// Whether that condition holds.
    fn told(
        &self,
        store: &Store,
        term: TermId,
        condition: usize,
        holds: bool,
        settling: &mut Self::Settling,
    )
        requires ready { ready self.now store.now }
        requires answered { (σ : Binding) × (words self.now store.now).knows_asking term.0 condition σ settling.old
            × IsAnswered (words self.now store.now).rules condition σ holds }
        ensures known { (words self.now store.now).knows_settling term.0 settling.new };

    /// Begins with all that may be applied at the top of a term whose sorts are settled.
    fn attempts(&mut self, store: &mut Store, term: TermId) -> Result<Self::Attempts, NoMemory>
        requires ready { ready self.old store.old }
        requires term { (words self.old store.old).knows_value term.0 }
        ensures value { IfOk result (IsUntried (words self.new store.new) ((words self.new store.new).tree term.0)) }
        ensures known { IfOk result ((words self.new store.new).knows_attempts term.0) }
        ensures grows { grows self.old store.old self.new store.new };

    /// The next candidate: the number of its condition, and the values of its variables.
    fn attempt(
        &mut self,
        store: &mut Store,
        term: TermId,
        attempts: &mut Self::Attempts,
    ) -> Result<Option<(usize, Self::Binding)>, EvalEnd>
        requires ready { ready self.old store.old }
        requires term { (words self.old store.old).knows_value term.0 }
        requires attempts { (words self.old store.old).knows_attempts term.0 attempts.old }
        ensures none { IfOk result (λ o. IfNone o (IsKnownBy (words self.new store.new).rules.program
            ((words self.new store.new).untried attempts.old) None)) }
        ensures some { IfOk result (λ o. IfSome o (λ x. LeadsTo (words self.new store.new).rules.program
            ((words self.new store.new).untried attempts.old)
            (λ k b. or_go_on ((words self.new store.new).untried attempts.new k)
            (try_on (λ σ. gives (option_map ((words self.new store.new).makes attempts.new) σ))
            (solve_on (words self.new store.new).rules k x.0 0 ((words self.new store.new).bound x.1) b))))) }
        ensures ends { IfErr result (EndsBy (words self.new store.new).rules.program ((words self.new store.new).untried attempts.old)) }
        ensures known { IfOk result (λ o. IfSome o (λ x. (words self.new store.new).knows_attempts term.0 attempts.new
            × (words self.new store.new).knows_candidate term.0 x.0 attempts.new × (words self.new store.new).knows_binding x.0 0 x.1)) }
        ensures grows { grows self.old store.old self.new store.new };

    /// What the last candidate makes of the term, where its condition holds.
    fn replace(
        &mut self,
        store: &mut Store,
        term: TermId,
        condition: usize,
        attempts: &Self::Attempts,
        binding: &Self::Binding,
    ) -> Result<TermId, EvalEnd>
        requires ready { ready self.old store.old }
        requires term { (words self.old store.old).knows_value term.0 }
        requires candidate { (words self.old store.old).knows_candidate term.0 condition attempts.now }
        requires solution { IsSolution (words self.old store.old) condition binding.now }
        ensures value { (k b : ℕ) → IfOk result (λ t.
            eval_on (words self.new store.new).rules (suc k) ((words self.new store.new).makes attempts.now
            ((words self.new store.new).bound binding.now)) b
            ≡ eval_on (words self.new store.new).rules (suc k) ((words self.new store.new).tree t.0) b) }
        ensures ends { (k b : ℕ) → IfErr result (IsEnd (eval_on (words self.new store.new).rules (suc k)
            ((words self.new store.new).makes attempts.now ((words self.new store.new).bound binding.now)) b)) }
        ensures is { IfOk result (λ t. (words self.new store.new).tree t.0
            ≡ norm (words self.new store.new).rules.program.sign.theory
            ((words self.new store.new).makes attempts.now ((words self.new store.new).bound binding.now))) }
        ensures known { IfOk result (λ t. (words self.new store.new).knows_term t.0) }
        ensures kind { IfOk result (λ t. kind_of (words self.new store.new) t.0 ≡ kind_of (words self.new store.new) term.0) }
        ensures grows { grows self.old store.old self.new store.new };

    /// The step by which the last candidate leads from the term to what it makes of it.
    fn step(
        &mut self,
        store: &mut Store,
        term: TermId,
        condition: usize,
        attempts: &Self::Attempts,
        binding: &Self::Binding,
        after: TermId,
    ) -> Result<Step, NoMemory>
        requires ready { ready self.old store.old }
        requires term { (words self.old store.old).knows_value term.0 }
        requires candidate { (words self.old store.old).knows_candidate term.0 condition attempts.now }
        requires solution { IsSolution (words self.old store.old) condition binding.now }
        requires after { (words self.old store.old).knows_term after.0 }
        requires is { (words self.old store.old).tree after.0
            ≡ norm (words self.old store.old).rules.program.sign.theory
            ((words self.old store.old).makes attempts.now ((words self.old store.old).bound binding.now)) }
        ensures used { IfOk result (λ x. IsUse (words self.new store.new).rules.written (words self.new store.new).rules.hooks
            (HasEntry (words self.new store.new).rules.written.sig store.new (table self.new))
            ((words self.new store.new).rules.fragments condition) ((words self.new store.new).bound binding.now)
            ((words self.new store.new).tree term.0) ((words self.new store.new).tree after.0) (step_in store.new x)) }
        ensures stands { IfOk result (λ x. StandsIn store.new (made x)) }
        ensures grows { grows self.old store.old self.new store.new };

    /// What the fragment at a place of a condition asks.
    fn goal(&self, condition: usize, at: usize) -> Goal
        ensures { (nodes : List Node) → Asks (words self.now nodes).rules condition at result };

    /// The left or the right side of a fragment under a binding.
    fn side(
        &mut self,
        store: &mut Store,
        condition: usize,
        at: usize,
        right: bool,
        binding: &Self::Binding,
    ) -> Result<TermId, EvalEnd>
        requires ready { ready self.old store.old }
        requires side { HasSide (words self.old store.old).rules condition at right }
        requires binding { (words self.old store.old).knows_binding condition at binding.now }
        ensures value { (k b : ℕ) → IfOk result (λ t.
            eval_on (words self.new store.new).rules (suc k) (side_of (words self.new store.new).rules condition at right
            ((words self.new store.new).bound binding.now)) b
            ≡ eval_on (words self.new store.new).rules (suc k) ((words self.new store.new).tree t.0) b) }
        ensures ends { (k b : ℕ) → IfErr result (IsEnd (eval_on (words self.new store.new).rules (suc k)
            (side_of (words self.new store.new).rules condition at right ((words self.new store.new).bound binding.now)) b)) }
        ensures is { IfOk result (λ t. (words self.new store.new).tree t.0
            ≡ norm (words self.new store.new).rules.program.sign.theory
            (side_of (words self.new store.new).rules condition at right ((words self.new store.new).bound binding.now))) }
        ensures known { IfOk result (λ t. (words self.new store.new).knows_term t.0) }
        ensures grows { grows self.old store.old self.new store.new };

    /// Whether two values are the same.
    fn same(&self, store: &Store, left: TermId, right: TermId) -> bool
        requires ready { ready self.now store.now }
        requires left { (words self.now store.now).knows_term left.0 }
        requires right { (words self.now store.now).knows_term right.0 }
        ensures { result ≡ same_tree ((words self.now store.now).tree left.0) ((words self.now store.now).tree right.0) };

    /// Whether a value has the sort that a fragment asks.
    fn sorted(
        &mut self,
        store: &mut Store,
        condition: usize,
        at: usize,
        value: TermId,
    ) -> Result<bool, NoMemory>
        requires ready { ready self.old store.old }
        requires asks { Asks (words self.old store.old).rules condition at Goal.Sort }
        requires value { (words self.old store.old).knows_value value.0 }
        ensures value { IfOk result (IsSorted (words self.new store.new).rules condition at ((words self.new store.new).tree value.0)) }
        ensures entry { IfOk result (λ has. has ≡ true → HasEntry (words self.new store.new).rules.written.sig store.new (table self.new)
            (sort_in (rest_of (words self.new store.new).rules condition at)) ((words self.new store.new).tree value.0)) }
        ensures grows { grows self.old store.old self.new store.new };

    /// The solutions of a fragment `p := u` under a binding, where `u` has the value given.
    fn choices(
        &mut self,
        store: &mut Store,
        condition: usize,
        at: usize,
        binding: Self::Binding,
        value: TermId,
    ) -> Result<Self::Choices, NoMemory>
        requires ready { ready self.old store.old }
        requires asks { Asks (words self.old store.old).rules condition at Goal.Matching }
        requires binding { (words self.old store.old).knows_binding condition at binding }
        requires value { (words self.old store.old).knows_value value.0 }
        ensures value { IfOk result (IsUnchosen (words self.new store.new) condition at ((words self.new store.new).bound binding)
            ((words self.new store.new).tree value.0)) }
        ensures known { IfOk result ((words self.new store.new).knows_choices condition at) }
        ensures begun { IfOk result (λ c. ((words self.new store.new).chosen_from c ≡ (words self.new store.new).bound binding)
            × ((words self.new store.new).chosen_value c ≡ (words self.new store.new).tree value.0)) }
        ensures grows { grows self.old store.old self.new store.new };

    /// The binding by the next one, for the fragments behind.
    fn choose(
        &mut self,
        store: &mut Store,
        condition: usize,
        at: usize,
        choices: &mut Self::Choices,
    ) -> Result<Option<Self::Binding>, NoMemory>
        requires ready { ready self.old store.old }
        requires choices { (words self.old store.old).knows_choices condition at choices.old }
        ensures none { IfOk result (λ o. IfNone o (IsKnownBy (words self.new store.new).rules.program
            (λ k. (words self.new store.new).unchosen choices.old k condition at) None)) }
        ensures some { IfOk result (λ o. IfSome o (λ σ. LeadsTo (words self.new store.new).rules.program
            (λ k. (words self.new store.new).unchosen choices.old k condition at)
            (λ k b. or_go_on ((words self.new store.new).unchosen choices.new k condition at)
            (solve_on (words self.new store.new).rules k condition (suc at) ((words self.new store.new).bound σ) b)))) }
        ensures known { IfOk result (λ o. IfSome o (λ σ. (words self.new store.new).knows_choices condition at choices.new
            × (words self.new store.new).knows_binding condition (suc at) σ)) }
        ensures begun { IfOk result (λ o. IfSome o (λ σ. ((words self.new store.new).chosen_from choices.new
            ≡ (words self.new store.new).chosen_from choices.old)
            × ((words self.new store.new).chosen_value choices.new ≡ (words self.new store.new).chosen_value choices.old))) }
        ensures solves { IfOk result (λ o. IfSome o (λ σ. IsChoiceOf (words self.new store.new) condition at choices.old
            ((words self.new store.new).bound σ))) }
        ensures grows { grows self.old store.old self.new store.new };

    /// Goes on behind the solution that `last` has of the fragment, and gives the binding by that one, for the fragments behind.
    fn own(
        &mut self,
        store: &mut Store,
        condition: usize,
        at: usize,
        choices: &mut Self::Choices,
        last: &Self::Binding,
    ) -> Result<Self::Binding, NoMemory>
        requires ready { ready self.old store.old }
        requires choices { (words self.old store.old).knows_choices condition at choices.old }
        requires last { (words self.old store.old).knows_last last.now }
        ensures own { IfOk result (λ σ. LeadsTo (words self.new store.new).rules.program
            (λ k. choose_after (words self.new store.new).rules ((words self.new store.new).bound last.now) k condition at
            ((words self.new store.new).chosen_from choices.old) ((words self.new store.new).chosen_value choices.old))
            (λ k b. or_go_on ((words self.new store.new).unchosen choices.new k condition at)
            (solve_from (words self.new store.new).rules (Some ((words self.new store.new).bound last.now)) k condition (suc at)
            ((words self.new store.new).bound σ) b))) }
        ensures known { IfOk result (λ σ. (words self.new store.new).knows_choices condition at choices.new
            × (words self.new store.new).knows_binding condition (suc at) σ) }
        ensures begun { IfOk result (λ σ. ((words self.new store.new).chosen_from choices.new
            ≡ (words self.new store.new).chosen_from choices.old)
            × ((words self.new store.new).chosen_value choices.new ≡ (words self.new store.new).chosen_value choices.old)) }
        ensures solves { IfOk result (λ σ. IsChoiceOf (words self.new store.new) condition at choices.old
            ((words self.new store.new).bound σ)) }
        ensures grows { grows self.old store.old self.new store.new };

    // ---- laws

    /// A known term is a normal form within the limits.
    ghost normal: { (s : Self) (nodes : List Node) (t : ℕ) → (words s nodes).knows_term t
        → norm (words s nodes).rules.program.sign.theory ((words s nodes).tree t) ≡ (words s nodes).tree t };

    ghost within: { (s : Self) (nodes : List Node) (t : ℕ) → (words s nodes).knows_term t
        → IsWithin (words s nodes).rules.program.sign.theory ((words s nodes).tree t) };

    /// A value is a term.
    ghost settled: { (s : Self) (nodes : List Node) (t : ℕ) → (words s nodes).knows_value t → (words s nodes).knows_term t };

    /// An operator may be built over terms of which one was replaced by a term of its kind.
    ghost puts: { (s : Self) (nodes : List Node) (f : ℕ) (ts : List TermId) (i : ℕ) (t v : TermId) → (words s nodes).knows_operands f ts
        → slice_get ts i ≡ Some t
        → (words s nodes).knows_term v.0 → kind_of (words s nodes) v.0 ≡ kind_of (words s nodes) t.0 → (words s nodes).knows_operands f
        (slice_set ts i v) };

    /// The terms over which an operator may be built are known.
    ghost holds: { (s : Self) (nodes : List Node) (f : ℕ) (ts : List TermId) (i : ℕ) (t : TermId) → (words s nodes).knows_operands f ts
        → slice_get ts i ≡ Some t
        → (words s nodes).knows_term t.0 };

    /// A binding for an equality or a test of sorts is one for the fragments behind it.
    ghost passes: { (s : Self) (nodes : List Node) (e i : ℕ) (σ : Self.Binding) → (words s nodes).knows_binding e i σ
        → PassesOn (words s nodes).rules e i → (words s nodes).knows_binding e (suc i) σ };

    /// A side that is evaluated has the values of its variables: it stays the same whatever else is bound.
    ghost has_values: { (s : Self) (nodes : List Node) (e i : ℕ) (right : Bool) (σ : Self.Binding) (τ : Binding)
        → (words s nodes).knows_binding e i σ
        → HasSide (words s nodes).rules e i right → IsExtension ((words s nodes).bound σ) τ
        → side_of (words s nodes).rules e i right τ ≡ side_of (words s nodes).rules e i right ((words s nodes).bound σ) };

    /// A known term is a number of the store, and stands for a term that may be told.
    ghost stands: { (s : Self) (nodes : List Node) (t : ℕ) → (words s nodes).knows_term t → IsOf nodes t
        × ((words s nodes).tree t ≡ tree_at nodes t) × IsNormalTerm (words s nodes).rules.written.sig ((words s nodes).tree t) };

    /// The store and the table of sorts grow.
    ghost extends: { (s t : Self) (nodes more : List Node) → grows s nodes t more → Extends nodes more × KeepsEntries (table s) (table t) };

    /// States that come of one another.
    ghost stays: { (s : Self) (nodes : List Node) → ready s nodes → grows s nodes s nodes };

    ghost goes_on: { (s t u : Self) (nodes more most : List Node) → grows s nodes t more → grows t more u most → grows s nodes u most };

    ghost begins: { (s t : Self) (nodes more : List Node) → ready s nodes → grows s nodes t more → ready t more };

    ghost keeps: { (s t : Self) (nodes more : List Node) → grows s nodes t more → Keeps (words s nodes) (words t more) };
}
