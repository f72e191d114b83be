//! What the built-in of an operator gives for a term.
ghost use Rattle.std.specs.Prelude.{◌≡◌, ℕ, ◌==◌, ◌<◌, List, [], drop, length, slice_index_or, true, false, if◌then◌else◌, Option, Some, None, IfSome, IfNone};
ghost use Rattle.mau_terms.specs.Tree.{Tree, Trees, apply, no_trees, numeral, node, list_of};
ghost use Rattle.mau_terms.specs.Bare.{IsLawful};
ghost use Rattle.mau_terms.specs.declared.theory.Theory.{Theory};
ghost use Rattle.mau_signature.specs.Signature.{SignatureOf, IsOperator, terms_over, theory_at};
ghost use Rattle.mau_formula.specs.Operator.{operator_named};
ghost use Rattle.mau_store.specs.Node.{Node, AreNodes, AreOf, IsOf};
ghost use Rattle.mau_store.specs.Trees.{tree_at, trees_at};
ghost use Rattle.mau_store.specs.View.{numbers};
ghost use Rattle.mau_canon.specs.Standing.{StandWithin};
ghost use Rattle.mau_evaluation.specs.Program.{Answer, BuiltIn as Built, choice, equality, on_numerals};
ghost use Rattle.mau_evaluation.specs.Listing.{same_tree};
ghost use Rattle.mau_evaluation.specs.Evaluation.{native_on, native_by, before_rest};
ghost use Rattle.mau_api.specs.Terms.{IsTerm};
ghost use Rattle.mau_api.specs.BuiltIns.{answer_in, name_at};
ghost use Rattle.mau_reduce.specs.Giving.{GivesNormal, GivesNormalIfAny, GivesInKind, CanBeTaken};
ghost use Rattle.mau_reduce.specs.BuiltOperators.{constant_tree, answer_of, number_answer, meaning_of, built_gives, HasNoArgument, IsThere, IsBuiltAt};

use crate::{BuiltIn, Natives, Truths};
use mau_formula::{Gives, HookAnswer};
use mau_signature::Signature;
use mau_store::{NodeView, Store};
use mau_terms::{OpId, TermId};

/// A numeral, or a constant if it is there.
#[derive(Clone, Copy, Debug, PartialEq, Eq)]
pub enum Leaf {
    Number(u128),
    Constant(Option<OpId>),
}

/// What a built-in gives for a term.
#[derive(Clone, Copy, Debug, PartialEq, Eq)]
pub enum Given {
    /// It does not apply.
    Nothing,
    /// The value would be a numeral greater than the greatest.
    TooLarge,
    /// This argument of the term.
    Argument(TermId),
    Whole(Leaf),
    /// This, in the place of the first two of a list.
    Before(Leaf),
}

/// Whether a term is a constant.
fn is_constant(store: &Store, id: TermId, constant: Option<OpId>) -> bool
    requires there { IsOf store.now id.0 }
    requires some { tree_at store.now id.0 ≡ apply 0 no_trees → ⊥ }
    ensures { result ≡ same_tree (tree_at store.now id.0) (constant_tree constant) }
{
    match constant {
        Some(constant) => match store.view(id) {
            NodeView::App(op, args) => op == constant && args.is_empty(),
            NodeView::Num(_) | NodeView::Var(_) => false,
        },
        None => false,
    }
}

/// The second of three arguments where the first is true, and the third where it is false.
fn branch(store: &Store, truths: Truths, ids: &[TermId]) -> Given
    requires there { AreOf store.now (numbers ids.now) }
    requires some { (k : ℕ) (d : TermId) → k < length ids.now → tree_at store.now (slice_index_or ids.now k d).0 ≡ apply 0 no_trees → ⊥ }
    ensures there { IsThere store.now result }
    ensures taken { (s : SignatureOf) → StandWithin (theory_at s) store.now (numbers ids.now) → CanBeTaken s store.now result }
    ensures value { (h : Theory) (f : ℕ) (th : ℕ → Theory) (t : Tree) → native_on (choice (constant_tree truths.yes) (constant_tree truths.no)) h f (trees_at store.now (numbers ids.now)) ≡ answer_of store.now th t result }
{
    if ids.len() != 3 {
        return Given::Nothing;
    }
    if is_constant(store, ids[0], truths.yes) {
        return Given::Argument(ids[1]);
    }
    if is_constant(store, ids[0], truths.no) {
        return Given::Argument(ids[2]);
    }
    Given::Nothing
}

/// Whether two arguments are the same.
fn same(store: &Store, truths: Truths, ids: &[TermId]) -> Given
    requires nodes { AreNodes store.now }
    requires there { AreOf store.now (numbers ids.now) }
    ensures there { IsThere store.now result }
    ensures taken { (s : SignatureOf) → GivesNormal s (equality (constant_tree truths.yes) (constant_tree truths.no)) → CanBeTaken s store.now result }
    ensures value { (h : Theory) (f : ℕ) (th : ℕ → Theory) (t : Tree) → native_on (equality (constant_tree truths.yes) (constant_tree truths.no)) h f (trees_at store.now (numbers ids.now)) ≡ answer_of store.now th t result }
{
    if ids.len() != 2 {
        return Given::Nothing;
    }
    if ids[0] == ids[1] {
        return Given::Whole(Leaf::Constant(truths.yes));
    }
    Given::Whole(Leaf::Constant(truths.no))
}

/// The number that a term is, if it is a numeral.
fn number_of(store: &Store, id: TermId) -> Option<u128>
    requires { IsOf store.now id.0 }
    ensures some { IfSome result (λ n. tree_at store.now id.0 ≡ numeral n) }
    ensures none { IfNone result ((n : ℕ) → tree_at store.now id.0 ≡ numeral n → ⊥) }
{
    match store.view(id) {
        NodeView::Num(n) => Some(n),
        NodeView::Var(_) | NodeView::App(_, _) => None,
    }
}

/// What the answer of a native operator stands for.
fn answer_as(gives: Gives, truths: Truths, answer: HookAnswer) -> Given
    ensures value { (nodes : List Node) (th : ℕ → Theory) (t : Tree) → answer_of nodes th t result ≡ answer_in gives (constant_tree truths.yes) (constant_tree truths.no) answer }
    ensures whole { HasNoArgument result }
{
    match answer {
        HookAnswer::NoValue => Given::Nothing,
        HookAnswer::Overflow => Given::TooLarge,
        HookAnswer::Value(n) => match gives {
            Gives::Nat => Given::Whole(Leaf::Number(n)),
            Gives::Bool => {
                if n == 1 {
                    return Given::Whole(Leaf::Constant(truths.yes));
                }
                Given::Whole(Leaf::Constant(truths.no))
            }
        },
    }
}

/// The same before the others of a list, of which it took the first two.
fn before_rest(given: Given) -> Given
    ensures there { (nodes : List Node) → HasNoArgument given → IsThere nodes result }
    ensures taken { (s : SignatureOf) (nodes : List Node) → CanBeTaken s nodes given → CanBeTaken s nodes result }
    ensures value { (nodes : List Node) (h : Theory) (f : ℕ) (th : ℕ → Theory) (ts : Trees) → th f ≡ h → HasNoArgument given →
        answer_of nodes th (apply f ts) result ≡ before_rest h f (drop 2 (list_of ts)) (answer_of nodes th (apply f ts) given) }
{
    match given {
        Given::Whole(leaf) => Given::Before(leaf),
        Given::Nothing => Given::Nothing,
        Given::TooLarge => Given::TooLarge,
        Given::Argument(_) => given,
        Given::Before(_) => given,
    }
}

/// What the native operator of an operator's name gives for two numbers, if it gives what is wanted.
fn native_answer<N: Natives>(
    sig: &Signature,
    natives: &N,
    op: OpId,
    wanted: Gives,
    truths: Truths,
    m: u128,
    n: u128,
) -> Given
    requires { IsOperator sig.now op.0 }
    ensures value { (nodes : List Node) (th : ℕ → Theory) (t : Tree) → answer_of nodes th t result ≡ number_answer (meaning_of (N.operators natives.now) (name_at sig.now op.0) (BuiltIn.Native wanted truths)) m n }
    ensures whole { HasNoArgument result }
{
    match sig.declarations(op).first() {
        Some(decl) => match &decl.attrs.builtin {
            Some(name) => match natives.answer(name.as_str(), m, n) {
                Some(answered) => {
                    if answered.gives == wanted {
                        return answer_as(answered.gives, truths, answered.answer);
                    }
                    Given::Nothing
                }
                None => Given::Nothing,
            },
            None => Given::Nothing,
        },
        None => unreachable!(),
    }
}

/// What the native operator of an operator's name gives for its arguments.
fn native_given<N: Natives>(
    store: &Store,
    sig: &Signature,
    natives: &N,
    op: OpId,
    wanted: Gives,
    truths: Truths,
    ids: &[TermId],
) -> Given
    requires operator { IsOperator sig.now op.0 }
    requires there { AreOf store.now (numbers ids.now) }
    ensures there { IsThere store.now result }
    ensures taken { GivesNormalIfAny sig.now (meaning_of (N.operators natives.now) (name_at sig.now op.0) (BuiltIn.Native wanted truths)) → CanBeTaken sig.now store.now result }
    ensures value { native_by (meaning_of (N.operators natives.now) (name_at sig.now op.0) (BuiltIn.Native wanted truths)) (theory_at sig.now op.0) op.0 (trees_at store.now (numbers ids.now))
        ≡ answer_of store.now (theory_at sig.now) (node op.0 (trees_at store.now (numbers ids.now))) result }
{
    if ids.len() < 2 {
        return Given::Nothing;
    }
    let m = match number_of(store, ids[0]) {
        Some(m) => m,
        None => return Given::Nothing,
    };
    let n = match number_of(store, ids[1]) {
        Some(n) => n,
        None => return Given::Nothing,
    };
    let given = native_answer(sig, natives, op, wanted, truths, m, n);
    if ids.len() == 2 {
        return given;
    }
    if sig.theory(op).comm {
        return before_rest(given);
    }
    Given::Nothing
}

/// What the built-in of the top of a term gives for it.
pub fn given_at<N: Natives>(
    store: &Store,
    sig: &Signature,
    natives: &N,
    built_in: BuiltIn,
    term: TermId,
) -> Given
    requires lawful { IsLawful (terms_over sig.now) }
    requires term { IsTerm sig.now store.now term.0 }
    requires built_in { IsBuiltAt sig.now (N.operators natives.now) (tree_at store.now term.0) built_in }
    ensures there { IsThere store.now result }
    ensures taken { GivesInKind sig.now (N.operators natives.now) → CanBeTaken sig.now store.now result }
    ensures value { built_gives sig.now (N.operators natives.now) (tree_at store.now term.0) ≡ answer_of store.now (theory_at sig.now) (tree_at store.now term.0) result }
{
    let (op, ids) = match store.view(term) {
        NodeView::App(op, ids) => (op, ids),
        NodeView::Num(_) | NodeView::Var(_) => return Given::Nothing,
    };
    match built_in {
        BuiltIn::Nothing => Given::Nothing,
        BuiltIn::Branch(truths) => branch(store, truths, ids),
        BuiltIn::Same(truths) => same(store, truths, ids),
        BuiltIn::Native(wanted, truths) => {
            native_given(store, sig, natives, op, wanted, truths, ids)
        }
    }
}
