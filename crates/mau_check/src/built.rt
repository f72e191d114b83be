//! Facts by what is built in.
ghost use Rattle.std.specs.Prelude.{◌≡◌, ◌↔◌, ℕ, ◌+◌, ◌<◌, ◌≤◌, true, false, if◌then◌else◌, List, [], Option, All, length, map, IfOk, IfSome, IfNone, IsTrue};
ghost use Rattle.mau_terms.specs.Tree.{Tree, apply, no_trees};
ghost use Rattle.mau_terms.specs.Norm.{norm, all_pieces};
ghost use Rattle.mau_terms.specs.Bare.{IsBareIn};
ghost use Rattle.mau_terms.specs.declared.theory.Theory.{Theory};
ghost use Rattle.mau_signature.specs.Signature.{SignatureOf, IsOperator, theory_at, terms_over};
ghost use Rattle.mau_store.specs.Node.{Node, Extends, IsOf};
ghost use Rattle.mau_store.specs.Trees.{tree_at};
ghost use Rattle.mau_evaluation.specs.Program.{choice, equality};
ghost use Rattle.mau_evaluation.specs.Evaluation.{native_on};
ghost use Rattle.mau_evaluation.specs.Listing.{same_tree};
ghost use Rattle.mau_program.specs.LawfulPrograms.{IsLawfulProgram};
ghost use Rattle.mau_api.specs.BuiltIns.{built_answer};
ghost use Rattle.mau_api.specs.Terms.{IsBareWithin};
ghost use Rattle.mau_built_ins.specs.NativeNumerals.{GivesNumerals};
ghost use Rattle.mau_reduce.specs.BuiltOperators.{constant_tree, built_gives, IsBuiltAt};
ghost use Rattle.mau_reduce.specs.Giving.{GivesValue};
ghost use Rattle.mau_facts.specs.declared.document.Fact.TheVariants.{Built};
ghost use Rattle.mau_logic.specs.Lines.{over};
ghost use Rattle.mau_logic.specs.Says.{Says, said as said_by};
ghost use Rattle.mau_logic.specs.Justified.{With, UsesBuilt, IsJustified};
ghost use Rattle.mau_check.specs.Answer.{IsGiven, ChosenLieIn, TruthsLieIn};
ghost use Rattle.mau_check.specs.Kept.{IsKeptFor, AreKeptFor, AreKept};
ghost use Rattle.mau_check.specs.Marks.{AreMarks};
ghost use Rattle.mau_check.specs.FactNumbers.{numbers_of_built};
ghost use Rattle.mau_check.specs.Named.{AreNamed, IsNamed, IsNamedBy, NameAll};
ghost use Rattle.mau_check.specs.Said.{Decides};

use crate::contexts::{fits, is_context};
use crate::kept::Kept;
use crate::named::{Named, named_by};
use crate::over::build_over;
use crate::said::Said;
use mau_api::EvalEnd;
use mau_canon::list_of;
use mau_facts::BuiltFact;
use mau_program::Program;
use mau_reduce::{BuiltIn, Given, Natives, Truths, built_in_of, given_at, take_given};
use mau_signature::Signature;
use mau_store::{NodeView, Store};
use mau_terms::{NoMemory, OpId, TermId};
use std::alloc::Global;

/// Whether a term is a constant.
fn is_constant(store: &Store, id: TermId, constant: Option<OpId>) -> bool
    requires there { IsOf store.now id.0 }
    requires some { tree_at store.now id.0 ≡ apply 0 no_trees → ⊥ }
    ensures { result ≡ same_tree (tree_at store.now id.0) (constant_tree constant) }
{
    match constant {
        Some(constant) => match store.view(id) {
            NodeView::App(op, args) => op == constant && args.is_empty(),
            NodeView::Num(_) | NodeView::Var(_) => false,
        },
        None => false,
    }
}

/// The second of three arguments where the first is true, and the third where it is false.
fn branch(store: &Store, sig: &Signature, truths: Truths, values: &[Kept]) -> Option<TermId>
    requires { (ts : List Tree) × AreKeptFor sig.now store.now values.now ts }
    ensures { (h : Theory) (f k : ℕ) (ts : List Tree) → AreKeptFor sig.now store.now values.now ts → ChosenLieIn k values.now →
        IsGiven sig.now store.now k (native_on (choice (constant_tree truths.yes) (constant_tree truths.no)) h f (map (norm (theory_at sig.now)) ts)) result }
{
    let _ = sig.operators();
    if values.len() != 3 {
        return None;
    }
    if is_constant(store, values[0].id, truths.yes) {
        return Some(values[1].id);
    }
    if is_constant(store, values[0].id, truths.no) {
        return Some(values[2].id);
    }
    None
}

/// A constant, if it is there.
fn constant(
    store: &mut Store,
    sig: &Signature,
    constant: Option<OpId>,
) -> Result<Option<Kept>, NoMemory>
    ensures some { IfOk result (λ o. IfSome o (λ k. IsKeptFor sig.now store.new k (constant_tree constant))) }
    ensures none { IfOk result (λ o. IfNone o (IsBareWithin sig.now (constant_tree constant) → ⊥)) }
    ensures extends { Extends store.old store.new }
{
    let _ = sig.operators();
    match constant {
        Some(op) => build_over(store, sig, op.0, &[]),
        None => Ok(None),
    }
}

/// The first constant where a test holds, and else the second.
fn chosen(truths: Truths, holds: bool) -> Option<OpId>
    ensures { constant_tree result ≡ (if holds then constant_tree truths.yes else constant_tree truths.no) }
{
    if holds { truths.yes } else { truths.no }
}

/// The first constant where two arguments are the same, and the second where they are not.
fn compared(
    store: &mut Store,
    sig: &Signature,
    truths: Truths,
    values: &[Kept],
) -> Result<Option<TermId>, NoMemory>
    requires { (ts : List Tree) × AreKeptFor sig.now store.old values.now ts }
    ensures given { (h : Theory) (f k : ℕ) (ts : List Tree) → AreKeptFor sig.now store.old values.now ts → TruthsLieIn sig.now k truths →
        IfOk result (IsGiven sig.now store.new k (native_on (equality (constant_tree truths.yes) (constant_tree truths.no)) h f (map (norm (theory_at sig.now)) ts))) }
    ensures extends { Extends store.old store.new }
{
    let _ = store.len();
    let _ = sig.operators();
    if values.len() != 2 {
        return Ok(None);
    }
    let same = values[0].id == values[1].id;
    let given = chosen(truths, same);
    match constant(store, sig, given) {
        Ok(Some(kept)) => Ok(Some(kept.id)),
        Ok(None) => Ok(None),
        Err(fault) => Err(fault),
    }
}

/// Whether so many and some more are two or more.
fn enough(count: usize, more: usize) -> bool
    requires { count < 2 }
    ensures yes { result ≡ true → 2 ≤ count + more }
    ensures no { result ≡ false → count + more < 2 }
{
    more >= 2 - count
}

/// Whether the list of an operator over some terms has two elements or more.
fn is_list(store: &Store, sig: &Signature, op: OpId, values: &[Kept]) -> bool
    requires operator { IsOperator sig.now op.0 }
    requires values { (ts : List Tree) × AreKeptFor sig.now store.now values.now ts }
    ensures { (ts : List Tree) → AreKeptFor sig.now store.now values.now ts →
        IsTrue result ↔ (2 ≤ length (all_pieces (theory_at sig.now op.0).assoc (theory_at sig.now op.0).id op.0 (map (norm (theory_at sig.now)) ts))) }
{
    let mut count = 0;
    for value in values {
        let more = list_of(store, sig, op, &value.id).len();
        if enough(count, more) {
            return true;
        }
        count += more;
    }
    false
}

/// Whether there is a value.
fn has_value(given: Given) -> bool
    ensures yes { result ≡ true → GivesValue given }
    ensures no { result ≡ false → GivesValue given → ⊥ }
{
    match given {
        Given::Nothing => false,
        Given::TooLarge => false,
        Given::Argument(_) => true,
        Given::Whole(_) => true,
        Given::Before(_) => true,
    }
}

/// What a native operator gives for the normal form of an operator over some terms.
fn native<N: Natives>(
    store: &mut Store,
    program: &Program,
    natives: &N,
    built_in: BuiltIn,
    whole: Kept,
) -> Result<Option<TermId>, NoMemory>
    requires lawful { IsLawfulProgram program.now }
    requires numerals { All GivesNumerals (N.operators natives.now) }
    requires built_in { IsBuiltAt program.now.sig (N.operators natives.now) (tree_at store.old whole.id.0) built_in }
    requires whole { (t : Tree) × IsKeptFor program.now.sig store.old whole t }
    ensures given { (t : Tree) (k : ℕ) → IsKeptFor program.now.sig store.old whole t → IsBareIn (terms_over program.now.sig) t k →
        IfOk result (IsGiven program.now.sig store.new k (built_gives program.now.sig (N.operators natives.now) (norm (theory_at program.now.sig) t))) }
    ensures extends { Extends store.old store.new }
{
    let _ = program.sig.operators();
    let given = given_at(store, &program.sig, natives, built_in, whole.id);
    if !has_value(given) {
        return Ok(None);
    }
    match take_given(store, &program.sig, whole.id, given) {
        Ok(id) => Ok(Some(id)),
        Err(EvalEnd::NoMemory) => Err(NoMemory),
        Err(EvalEnd::Stopped) => Ok(None),
        Err(EvalEnd::TooDeep) => Ok(None),
        Err(EvalEnd::Overflow) => Ok(None),
    }
}

/// What is built in of an operator gives over some terms.
fn answer<N: Natives>(
    store: &mut Store,
    program: &Program,
    natives: &N,
    op: OpId,
    values: &[Kept],
    whole: Kept,
) -> Result<Option<TermId>, NoMemory>
    requires lawful { IsLawfulProgram program.now }
    requires numerals { All GivesNumerals (N.operators natives.now) }
    requires operator { IsOperator program.now.sig op.0 }
    requires values { (ts : List Tree) × AreKeptFor program.now.sig store.old values.now ts × With (over program.now.sig op.0 ts) (IsKeptFor program.now.sig store.old whole) }
    ensures given { (ts : List Tree) → AreKeptFor program.now.sig store.old values.now ts → With (over program.now.sig op.0 ts) (IsKeptFor program.now.sig store.old whole) →
        IfOk result (IsGiven program.now.sig store.new whole.kind (built_answer program.now.sig (N.operators natives.now) op.0 ts)) }
    ensures extends { Extends store.old store.new }
{
    let _ = store.len();
    let _ = program.sig.operators();
    let built_in = built_in_of(store.allocator(), &program.sig, op)?;
    match built_in {
        BuiltIn::Nothing => Ok(None),
        BuiltIn::Branch(truths) => Ok(branch(store, &program.sig, truths, values)),
        BuiltIn::Same(truths) => compared(store, &program.sig, truths, values),
        BuiltIn::Native(_, _) => {
            if !is_list(store, &program.sig, op, values) {
                return Ok(None);
            }
            native(store, program, natives, built_in, whole)
        }
    }
}

/// Whether a fact is one use of what is built in of an operator.
fn uses_built<N: Natives>(
    store: &mut Store,
    program: &Program,
    natives: &N,
    marks: &[bool],
    op: OpId,
    named: &Named,
) -> Result<bool, NoMemory>
    requires lawful { IsLawfulProgram program.now }
    requires numerals { All GivesNumerals (N.operators natives.now) }
    requires operator { IsOperator program.now.sig op.0 }
    requires marks { AreMarks store.old marks.now }
    requires named { IsNamed program.now.sig store.old named.now }
    ensures uses { (c t u : Tree) (ts : List Tree) (us : List Says) → AreNamed program.now.sig store.old named.now c t u ts us →
        IfOk result (λ yes. IsTrue yes ↔ UsesBuilt program.now.sig (N.operators natives.now) op.0 c t u ts) }
    ensures extends { Extends store.old store.new }
{
    let _ = store.len();
    let _ = program.sig.operators();
    let whole = match build_over(store, &program.sig, op.0, &named.values) {
        Ok(Some(whole)) => whole,
        Ok(None) => return Ok(false),
        Err(fault) => return Err(fault),
    };
    if !is_context(whole.kind, named.context) {
        return Ok(false);
    }
    let given = match answer(store, program, natives, op, &named.values, whole) {
        Ok(Some(given)) => given,
        Ok(None) => return Ok(false),
        Err(fault) => return Err(fault),
    };
    let from = fits(
        store,
        &program.sig,
        marks,
        named.context,
        whole.id,
        named.from,
    )?;
    if !from {
        return Ok(false);
    }
    fits(store, &program.sig, marks, named.context, given, named.to)
}

/// Whether a number is that of an operator.
fn is_operator(sig: &Signature, number: u32) -> bool
    ensures { IsTrue result ↔ IsOperator sig.now number }
{
    if number == 0 {
        return false;
    }
    number <= sig.operators()
}

/// What a fact by a built-in names, if it is all there.
fn named_built(
    alloc: Global,
    kept: &[Option<Kept>],
    fact: &BuiltFact,
) -> Result<Option<Named>, NoMemory>
    ensures some { (s : SignatureOf) (nodes : List Node) (terms : List (Option Tree)) → AreKept s nodes kept.now terms →
        IfOk result (λ o. IfSome o (IsNamedBy s nodes terms [] (numbers_of_built fact.now))) }
    ensures none { (s : SignatureOf) (nodes : List Node) (terms : List (Option Tree)) → AreKept s nodes kept.now terms →
        IfOk result (λ o. IfNone o (NameAll s terms [] (numbers_of_built fact.now) → ⊥)) }
{
    named_by(
        alloc,
        kept,
        &[],
        fact.context,
        fact.from,
        fact.to,
        fact.args.items(),
        &[],
    )
}

/// What a fact by a built-in says, if it is justified.
pub fn built<N: Natives>(
    store: &mut Store,
    program: &Program,
    natives: &N,
    marks: &[bool],
    kept: &[Option<Kept>],
    fact: &BuiltFact,
) -> Result<Option<Said>, NoMemory>
    requires lawful { IsLawfulProgram program.now }
    requires numerals { All GivesNumerals (N.operators natives.now) }
    requires kept { (terms : List (Option Tree)) × AreKept program.now.sig store.old kept.now terms }
    requires marks { AreMarks store.old marks.now }
    ensures decided { (terms : List (Option Tree)) (before : List Says) → AreKept program.now.sig store.old kept.now terms →
        IfOk result (λ o. Decides program.now.sig store.new o
        (IsJustified program.now (N.operators natives.now) terms before (Built fact.now)) (said_by terms before (Built fact.now))) }
    ensures extends { Extends store.old store.new }
{
    let _ = store.len();
    if !is_operator(&program.sig, fact.op) {
        return Ok(None);
    }
    let named = match named_built(store.allocator(), kept, fact) {
        Ok(Some(named)) => named,
        Ok(None) => return Ok(None),
        Err(fault) => return Err(fault),
    };
    let used = uses_built(store, program, natives, marks, OpId(fact.op), &named)?;
    if !used {
        return Ok(None);
    }
    Ok(Some(Said::Leads(true, named.from, named.to)))
}
