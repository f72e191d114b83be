//! What the last candidate makes of a term.
ghost use Rattle.std.specs.Prelude.{◌≡◌, ℕ, suc, true, false, List, Some, IfOk, IfErr};
ghost use Rattle.mau_terms.specs.Norm.{norm};
ghost use Rattle.mau_terms.specs.Bare.{IsBare};
ghost use Rattle.mau_terms.specs.View.{tree_of};
ghost use Rattle.mau_signature.specs.Signature.{theory_at, terms_over};
ghost use Rattle.mau_formula.specs.Operator.{Operator};
ghost use Rattle.mau_store.specs.Node.{Extends};
ghost use Rattle.mau_store.specs.Trees.{tree_at, StandsFor};
ghost use Rattle.mau_evaluation.specs.Evaluation.{admit, eval};
ghost use Rattle.mau_api.specs.Terms.{IsTerm};
ghost use Rattle.mau_api.specs.Programs.{program_over};
ghost use Rattle.mau_reduce.specs.Reducible.{IsReducible};
ghost use Rattle.mau_reduce.specs.Bindings.{bound_in, AreValues};
ghost use Rattle.mau_reduce.specs.Ends.{IsEnd};
ghost use Rattle.mau_reduce.specs.Trying.{IsFound};
ghost use Rattle.mau_reduce.specs.Kinds.{IsTermIn};
ghost use Rattle.mau_reduce.specs.Giving.{GivesInKind, GivesValue, CanBeTaken, IsGivenAt};
ghost use Rattle.mau_reduce.specs.Attempting.{made_by, makes_of};
ghost use Rattle.mau_reduce.specs.Lasts.{IsLast};
ghost use Rattle.mau_reduce.specs.Compiled.{IsCompiled};

use crate::replacing::replace_by;
use crate::trying::Found;
use crate::{Attempts, Binding, Compiled, Given, take_given};
use mau_api::{EvalEnd, Program};
use mau_store::Store;
use mau_terms::TermId;

/// What the equation of a candidate makes of a term, where its condition gave a binding.
pub fn made(
    store: &mut Store,
    program: &Program,
    compiled: &Compiled,
    term: TermId,
    found: &Found,
    binding: &Binding,
) -> Result<TermId, EvalEnd>
    requires reducible { IsReducible program.now }
    requires compiled { IsCompiled program.now compiled.now }
    requires term { IsTerm program.now.sig store.old term.0 }
    requires found { IsFound program.now store.old (tree_at store.old term.0) found.now.number found.now.solution }
    requires values { AreValues program.now.sig store.old binding.now }
    ensures value { (hooks : List Operator) → IfOk result (λ id. StandsFor (theory_at program.now.sig) store.new id.0 (made_by (program_over program.now hooks) store.old (tree_at store.old term.0) (Some found.now) (bound_in store.old binding.now))) }
    ensures ends { (hooks : List Operator) (b : ℕ) → IfErr result (IsEnd (admit (theory_at program.now.sig) (made_by (program_over program.now hooks) store.old (tree_at store.old term.0) (Some found.now) (bound_in store.old binding.now)) b)) }
    ensures kind { (k : ℕ) → IsTermIn program.now.sig store.old k term.0 → IfOk result (λ id. IsTermIn program.now.sig store.new k id.0) }
    ensures extends { Extends store.old store.new }
{
    let equation = &program.equations.items()[found.number];
    replace_by(
        store,
        &program.sig,
        term,
        &found.solution,
        &equation.right,
        &compiled.equations[found.number].right,
        binding,
    )
}

/// Whether a built-in gives a value.
pub(crate) fn gives_value(given: Given) -> bool
    ensures yes { result ≡ true → GivesValue given }
    ensures no { result ≡ false → GivesValue given → ⊥ }
{
    match given {
        Given::Nothing => false,
        Given::TooLarge => false,
        Given::Argument(_) => true,
        Given::Whole(_) => true,
        Given::Before(_) => true,
    }
}

/// The term that the last candidate makes of a term, where its condition gave a binding.
fn make_term(
    store: &mut Store,
    program: &Program,
    compiled: &Compiled,
    term: TermId,
    given: Given,
    last: &Option<Found>,
    binding: &Binding,
) -> Result<TermId, EvalEnd>
    requires reducible { IsReducible program.now }
    requires compiled { IsCompiled program.now compiled.now }
    requires term { IsTerm program.now.sig store.old term.0 }
    requires last { (i : ℕ) × IsLast program.now store.old (tree_at store.old term.0) i given last.now }
    requires taken { CanBeTaken program.now.sig store.old given }
    requires values { AreValues program.now.sig store.old binding.now }
    ensures value { (hooks : List Operator) → IfOk result (λ id. StandsFor (theory_at program.now.sig) store.new id.0
        (makes_of (program_over program.now hooks) store.old (tree_at store.old term.0) given last.now (bound_in store.old binding.now))) }
    ensures ends { (hooks : List Operator) (b : ℕ) → IfErr result (IsEnd (admit (theory_at program.now.sig)
        (makes_of (program_over program.now hooks) store.old (tree_at store.old term.0) given last.now (bound_in store.old binding.now)) b)) }
    ensures kind { (hooks : List Operator) (k : ℕ) → GivesInKind program.now.sig hooks → IsGivenAt program.now.sig hooks store.old (tree_at store.old term.0) given
        → IsTermIn program.now.sig store.old k term.0 → IfOk result (λ id. IsTermIn program.now.sig store.new k id.0) }
    ensures extends { Extends store.old store.new }
{
    if gives_value(given) {
        return take_given(store, &program.sig, term, given);
    }
    match last {
        Some(found) => made(store, program, compiled, term, found, binding),
        None => unreachable!(),
    }
}

/// What the last candidate makes of a term, where its condition gave a binding: the value of the built-in, or what the equation makes.
pub fn make<L>(
    store: &mut Store,
    program: &Program,
    compiled: &Compiled,
    term: TermId,
    attempts: &Attempts<L>,
    binding: &Binding,
) -> Result<TermId, EvalEnd>
    requires reducible { IsReducible program.now }
    requires compiled { IsCompiled program.now compiled.now }
    requires term { IsTerm program.now.sig store.old term.0 }
    requires last { (i : ℕ) × IsLast program.now store.old (tree_at store.old term.0) i attempts.now.given attempts.now.last }
    requires taken { CanBeTaken program.now.sig store.old attempts.now.given }
    requires values { AreValues program.now.sig store.old binding.now }
    ensures value { (hooks : List Operator) (B k b : ℕ) → IfOk result (λ id.
        eval (program_over program.now hooks) (suc k) B (makes_of (program_over program.now hooks) store.new (tree_at store.new term.0) attempts.now.given attempts.now.last (bound_in store.new binding.now)) b
        ≡ eval (program_over program.now hooks) (suc k) B (tree_at store.new id.0) b) }
    ensures ends { (hooks : List Operator) (B k b : ℕ) → IfErr result (IsEnd
        (eval (program_over program.now hooks) (suc k) B (makes_of (program_over program.now hooks) store.new (tree_at store.new term.0) attempts.now.given attempts.now.last (bound_in store.new binding.now)) b)) }
    ensures is { (hooks : List Operator) → IfOk result (λ id. tree_at store.new id.0
        ≡ norm (theory_at program.now.sig) (makes_of (program_over program.now hooks) store.new (tree_at store.new term.0) attempts.now.given attempts.now.last (bound_in store.new binding.now))) }
    ensures kind { (hooks : List Operator) (k : ℕ) → GivesInKind program.now.sig hooks → IsGivenAt program.now.sig hooks store.old (tree_at store.old term.0) attempts.now.given
        → IsTermIn program.now.sig store.old k term.0 → IfOk result (λ id. IsTermIn program.now.sig store.new k id.0) }
    ensures extends { Extends store.old store.new }
{
    make_term(
        store,
        program,
        compiled,
        term,
        attempts.given,
        &attempts.last,
        binding,
    )
}
