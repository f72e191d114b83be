//! What a run depth first goes over.
ghost use Rattle.std.specs.Prelude.{◌≡◌, ℕ, ◌<◌, List, [], ◌∷◌, ◌++◌, length, slice_index, All, Contains, Bool, IfOk, IfErr, MatchOption};
ghost use Rattle.mau_evaluation.specs.Reach.{ClosedBehind, Reached};

use crate::listed::Listed;

/// Configurations by numbers, and their successors one after another.
pub trait Successors {
    /// Why a successor can't be had.
    type Cause: Drop;

    /// The first successors of a configuration are these.
    ghost begins: { Self → ℕ → List ℕ → Type 0 };

    /// All successors of a configuration are these.
    ghost next: { Self → ℕ → List ℕ → Type 0 };

    /// Behind these the next successor of a configuration can't be had, for this cause.
    ghost due: { Self → ℕ → List ℕ → Self.Cause → Type 0 };

    /// A configuration is a solution.
    ghost solves: { Self → ℕ → Bool };

    /// What is kept of the listed configurations is so.
    ghost ready: { Self → List ℕ → Type 0 };

    /// All is as it was, and there may be more.
    ghost grows: { Self → Self → Type 0 };

    /// Whether a listed configuration is a solution.
    fn is_solution(&self, config: usize) -> bool
        requires { (listed : List ℕ) × ready self.now listed × Contains listed config }
        ensures { result ≡ solves self.now config };

    /// The successor at place `at` of the entry at place `entry`, and none where it has no more. Those before it are listed, and so are
    /// all successors of the entries behind it.
    fn successor(
        &mut self,
        listed: &Listed,
        entry: usize,
        at: usize,
    ) -> Result<Option<usize>, Self::Cause>
        requires entry { entry < length listed.now }
        requires ready { ready self.old listed.now }
        requires reached { Reached (begins self.old) (next self.old) (slice_index listed.now 0) listed.now }
        requires behind { ClosedBehind (begins self.old) (next self.old) listed.now entry }
        requires given { (given : List ℕ) × begins self.old (slice_index listed.now entry) given × (length given ≡ at) × All (Contains listed.now) given }
        ensures more { (given : List ℕ) → begins self.old (slice_index listed.now entry) given → length given ≡ at →
            IfOk result (λ o. MatchOption o (next self.new (slice_index listed.now entry) given) (λ c. begins self.new (slice_index listed.now entry) (given ++ c ∷ []))) }
        ensures due { (given : List ℕ) → begins self.old (slice_index listed.now entry) given → length given ≡ at →
            IfErr result (λ cause. due self.new (slice_index listed.now entry) given cause) }
        ensures ready { ready self.new listed.now }
        ensures kept_begins { (e : ℕ) (cs : List ℕ) → begins self.old e cs → begins self.new e cs }
        ensures kept_next { (e : ℕ) (cs : List ℕ) → next self.old e cs → next self.new e cs }
        ensures kept_solves { (c : ℕ) → Contains listed.now c → solves self.new c ≡ solves self.old c }
        ensures grows { grows self.old self.new };

    /// It is so where nothing has changed.
    ghost grows_none: { (s : Self) → grows s s };

    /// And step after step.
    ghost grows_on: { (s t u : Self) → grows s t → grows t u → grows s u };

    /// No successors are the first ones of any listed configuration.
    ghost none_given: { (s : Self) (listed : List ℕ) (e : ℕ) → ready s listed → Contains listed e → begins s e [] };

    /// It stays so where a successor is listed.
    ghost stays_ready: { (s : Self) (listed : List ℕ) (e c : ℕ) (given : List ℕ) → ready s listed → Contains listed e → begins s e (given ++ c ∷ []) → ready s (listed ++ c ∷ []) };
}
