//! Whether a fact is one use of a statement.
ghost use Rattle.std.specs.Prelude.{◌≡◌, ◌↔◌, ◌<◌, List, All, length, IfOk, IfSome, IfNone, IsTrue};
ghost use Rattle.mau_terms.specs.Tree.{Tree};
ghost use Rattle.mau_terms.specs.Bare.{IsBare, EqualModulo};
ghost use Rattle.mau_terms.specs.Subst.{instance, value_at};
ghost use Rattle.mau_terms.specs.Solution.{HaveSorts};
ghost use Rattle.mau_terms.specs.View.{tree_of};
ghost use Rattle.mau_signature.specs.Signature.{theory_at, terms_over};
ghost use Rattle.mau_sigcheck.specs.Built.{IsBuiltAndAccepted};
ghost use Rattle.mau_store.specs.Node.{Extends};
ghost use Rattle.mau_store.specs.View.{numbers};
ghost use Rattle.mau_canon.specs.Standing.{StandWithin};
ghost use Rattle.mau_program.specs.LawfulStatements.{AreOfOneKind, HasLawfulSides, HasLawfulHead};
ghost use Rattle.mau_api.specs.Terms.{fill, IsContextFor};
ghost use Rattle.mau_api.specs.Variables.{statement_variables};
ghost use Rattle.mau_logic.specs.Says.{Says};
ghost use Rattle.mau_logic.specs.Shown.{HasSortBy};
ghost use Rattle.mau_logic.specs.Justified.{Uses, IsMember};
ghost use Rattle.mau_check.specs.Kept.{IsKeptFor, AreKeptFor};
ghost use Rattle.mau_check.specs.Said.{AreSaid};
ghost use Rattle.mau_check.specs.Marks.{AreMarks};
ghost use Rattle.mau_check.specs.Told.{IsPlainTable};
ghost use Rattle.mau_check.specs.Instances.{AreBound, IsBinding};
ghost use Rattle.mau_check.specs.Named.{AreNamed, IsNamed};
ghost use Rattle.mau_check.specs.Variables.{AreOfSorts, variables_in};

use crate::contexts::{fits, is_context};
use crate::fragments::shows_all;
use crate::instances::{Values, instance_of};
use crate::kept::{Kept, ids_of};
use crate::named::Named;
use crate::said::Said;
use crate::sorts::have_sorts;
use crate::variables::{add_term, variables_of};
use mau_program::{Fragment, Membership};
use mau_signature::Signature;
use mau_sorts::SortTable;
use mau_store::Store;
use mau_terms::{Bare, NoMemory, VarId};

/// The values of variables, if there are as many, and each has its variable's sort by declarations and by what the facts in use tell.
fn bind(
    store: &Store,
    sig: &Signature,
    plain: &mut SortTable,
    uses: &[Said],
    variables: Vec<VarId>,
    values: &[Kept],
) -> Result<Option<Values>, NoMemory>
    requires accepted { IsBuiltAndAccepted sig.now }
    requires sorts { AreOfSorts sig.now variables.items }
    requires values { (vs : List Tree) × AreKeptFor sig.now store.now values.now vs }
    requires uses { (us : List Says) × AreSaid sig.now store.now uses.now us }
    requires plain { IsPlainTable sig.now store.now plain.old }
    ensures plain { IsPlainTable sig.now store.now plain.new }
    ensures same { IfOk result (λ o. IfSome o (λ x. x.variables.items ≡ variables.items)) }
    ensures within { IfOk result (λ o. IfSome o (λ x. StandWithin (theory_at sig.now) store.now (numbers x.ids.items))) }
    ensures some { (us : List Says) (vs : List Tree) → AreSaid sig.now store.now uses.now us → AreKeptFor sig.now store.now values.now vs →
        IfOk result (λ o. IfSome o (IsBinding sig.now store.now us vs)) }
    ensures none { (us : List Says) (vs : List Tree) → AreSaid sig.now store.now uses.now us → AreKeptFor sig.now store.now values.now vs →
        IfOk result (λ o. IfNone o (length vs ≡ length (variables_in variables.items) → HaveSorts (HasSortBy sig.now us) (variables_in variables.items) vs → ⊥)) }
{
    let _ = sig.operators();
    if variables.len() != values.len() {
        return Ok(None);
    }
    let sorted = have_sorts(sig, store, plain, uses, &variables, values)?;
    if !sorted {
        return Ok(None);
    }
    let ids = ids_of(store.allocator(), values)?;
    Ok(Some(Values { variables, ids }))
}

/// Whether the instance of a term in a context is equal to a term, where the context is one for it.
fn fits_instance(
    store: &mut Store,
    sig: &Signature,
    marks: &[bool],
    context: Kept,
    term: &Bare,
    values: &Values,
    whole: Kept,
) -> Result<bool, NoMemory>
    requires bare { IsBare (terms_over sig.now) (tree_of term.now) }
    requires marks { AreMarks store.old marks.now }
    requires context { (c : Tree) × IsKeptFor sig.now store.old context c }
    requires values { StandWithin (theory_at sig.now) store.old (numbers values.now.ids.items) }
    ensures fits { (c w : Tree) (vs : List Tree) → IsKeptFor sig.now store.old context c → IsContextFor (terms_over sig.now) (tree_of term.now) c → IsKeptFor sig.now store.old whole w →
        AreBound sig.now store.old values.now vs → IfOk result (λ yes. IsTrue yes ↔
        EqualModulo (terms_over sig.now) w (fill c (instance (value_at (variables_in values.now.variables.items) vs) (tree_of term.now)))) }
    ensures extends { Extends store.old store.new }
{
    let _ = sig.operators();
    let part = match instance_of(store, sig, term, values) {
        Ok(Some(part)) => part,
        Ok(None) => return Ok(false),
        Err(fault) => return Err(fault),
    };
    fits(store, sig, marks, context, part, whole)
}

/// Whether a term is equal to the instance of one side in a context, and that of the other side there to another term, where the context is one
/// for the first side.
fn leads(
    store: &mut Store,
    sig: &Signature,
    marks: &[bool],
    left: &Bare,
    right: &Bare,
    values: &Values,
    named: &Named,
) -> Result<bool, NoMemory>
    requires sides { AreOfOneKind (terms_over sig.now) left.now right.now }
    requires marks { AreMarks store.old marks.now }
    requires named { IsNamed sig.now store.old named.now }
    requires values { StandWithin (theory_at sig.now) store.old (numbers values.now.ids.items) }
    ensures leads { (c t u : Tree) (vs ws : List Tree) (us : List Says) → AreNamed sig.now store.old named.now c t u ws us → IsContextFor (terms_over sig.now) (tree_of left.now) c →
        AreBound sig.now store.old values.now vs → IfOk result (λ yes. IsTrue yes ↔
        EqualModulo (terms_over sig.now) t (fill c (instance (value_at (variables_in values.now.variables.items) vs) (tree_of left.now)))
        × EqualModulo (terms_over sig.now) (fill c (instance (value_at (variables_in values.now.variables.items) vs) (tree_of right.now))) u) }
    ensures extends { Extends store.old store.new }
{
    let first = fits_instance(store, sig, marks, named.context, left, values, named.from)?;
    if !first {
        return Ok(false);
    }
    fits_instance(store, sig, marks, named.context, right, values, named.to)
}

/// Whether a fact is one use of a statement with these sides and this condition.
pub fn is_use(
    store: &mut Store,
    sig: &Signature,
    marks: &[bool],
    plain: &mut SortTable,
    left: &Bare,
    right: &Bare,
    cond: &[Fragment],
    named: &Named,
) -> Result<bool, NoMemory>
    requires accepted { IsBuiltAndAccepted sig.now }
    requires sides { HasLawfulSides sig.now left.now right.now cond.now }
    requires marks { AreMarks store.old marks.now }
    requires plain { IsPlainTable sig.now store.old plain.old }
    requires named { IsNamed sig.now store.old named.now }
    ensures plain { IsPlainTable sig.now store.new plain.new }
    ensures uses { (c t u : Tree) (vs : List Tree) (us : List Says) → AreNamed sig.now store.old named.now c t u vs us → IfOk result (λ yes. IsTrue yes ↔
        Uses sig.now (statement_variables (tree_of left.now) cond.now (tree_of right.now)) (tree_of left.now) (tree_of right.now) cond.now c t u vs us) }
    ensures extends { Extends store.old store.new }
{
    let alloc = store.allocator();
    let _ = store.len();
    if !is_context(sig.kind(left), named.context) {
        return Ok(false);
    }
    let mut variables = variables_of(alloc, sig, left, cond)?;
    add_term(sig, &mut variables, right)?;
    let values = match bind(store, sig, plain, &named.uses, variables, &named.values) {
        Ok(Some(values)) => values,
        Ok(None) => return Ok(false),
        Err(fault) => return Err(fault),
    };
    let ends = leads(store, sig, marks, left, right, &values, named)?;
    if !ends {
        return Ok(false);
    }
    shows_all(store, sig, plain, &named.uses, &values, cond)
}

/// Whether a membership gives a term a sort.
pub fn is_member(
    store: &mut Store,
    sig: &Signature,
    plain: &mut SortTable,
    membership: &Membership,
    sort: u32,
    term: Kept,
    values: &[Kept],
    uses: &[Said],
) -> Result<bool, NoMemory>
    requires accepted { IsBuiltAndAccepted sig.now }
    requires head { HasLawfulHead sig.now membership.now }
    requires sort { sort < sig.now.hierarchy.sorts }
    requires plain { IsPlainTable sig.now store.old plain.old }
    requires values { (vs : List Tree) × AreKeptFor sig.now store.old values.now vs }
    requires uses { (us : List Says) × AreSaid sig.now store.old uses.now us }
    ensures plain { IsPlainTable sig.now store.new plain.new }
    ensures member { (t : Tree) (vs : List Tree) (us : List Says) → IsKeptFor sig.now store.old term t → AreKeptFor sig.now store.old values.now vs →
        AreSaid sig.now store.old uses.now us → IfOk result (λ yes. IsTrue yes ↔ IsMember sig.now membership.now sort t vs us) }
    ensures extends { Extends store.old store.new }
{
    let _ = sig.operators();
    let _ = store.len();
    let alloc = store.allocator();
    if !sig.poset().leq(membership.sort, sort) {
        return Ok(false);
    }
    let variables = variables_of(alloc, sig, &membership.left, membership.cond.items())?;
    let values = match bind(store, sig, plain, uses, variables, values) {
        Ok(Some(values)) => values,
        Ok(None) => return Ok(false),
        Err(fault) => return Err(fault),
    };
    let head = match instance_of(store, sig, &membership.left, &values) {
        Ok(Some(head)) => head,
        Ok(None) => return Ok(false),
        Err(fault) => return Err(fault),
    };
    let _ = store.len();
    if head.0 != term.id.0 {
        return Ok(false);
    }
    shows_all(store, sig, plain, uses, &values, membership.cond.items())
}
