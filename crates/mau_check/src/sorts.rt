//! Sorts by declarations, given the sorts that facts tell.
ghost use Rattle.std.specs.Prelude.{◌≡◌, ◌↔◌, true, ℕ, List, [], length, IfOk, IfSome, OnOk, IsTrue};
ghost use Rattle.std.specs.List.{filter_map, list_any};
ghost use Rattle.mau_terms.specs.Tree.{Tree};
ghost use Rattle.mau_terms.specs.Solution.{HaveSorts};
ghost use Rattle.mau_signature.specs.Faults.{IsSort};
ghost use Rattle.mau_signature.specs.Signature.{SignatureOf};
ghost use Rattle.mau_signature.specs.OverSignature.{IsTreeOver};
ghost use Rattle.mau_store.specs.Node.{Node, IsOf};
ghost use Rattle.mau_store.specs.Trees.{tree_at};
ghost use Rattle.mau_sorts.specs.HasSort.{Known, HasSort};
ghost use Rattle.mau_sorts.specs.Table.{IsSettled, IsReady, AreEntries, AreOver, KeepsEntries};
ghost use Rattle.mau_logic.specs.Says.{Says};
ghost use Rattle.mau_logic.specs.Shown.{known_by, HasSortBy};
ghost use Rattle.mau_check.specs.Kept.{IsKeptFor, AreKeptFor};
ghost use Rattle.mau_check.specs.Said.{IsSaid, AreSaid, SomeSaid};
ghost use Rattle.mau_check.specs.Told.{told_of, tells_sort, AreToldSorts, IsToldBy, IsWholeTable, IsPlainTable, EndsInSort};
ghost use Rattle.mau_check.specs.Variables.{AreOfSorts, variables_in};

use crate::kept::Kept;
use crate::said::Said;
use mau_signature::Signature;
use mau_sorts::SortTable;
use mau_store::Store;
use mau_terms::{NoMemory, TermId, VarId};
use std::alloc::Global;

/// The sort that a fact tells of a term.
fn sort_told(said: Said, id: TermId) -> Option<u32>
    ensures { result ≡ told_of id.0 said }
{
    match said {
        Said::Leads(_, _, _) => None,
        Said::Sorted(term, sort) => {
            if term.id.0 == id.0 {
                return Some(sort);
            }
            None
        }
    }
}

/// The sorts that facts tell of a term.
fn sorts_told(alloc: Global, uses: &[Said], id: TermId) -> Result<Vec<u32>, NoMemory>
    ensures { IfOk result (λ sorts. sorts.items ≡ filter_map (told_of id.0) uses.now) }
{
    let sorts = uses
        .iter()
        .filter_map(|said| sort_told(*said, id))
        .collect(alloc)?;
    Ok(sorts)
}

/// Settles the sorts of a term, if its arguments are settled.
fn settle_one(
    alloc: Global,
    sig: &Signature,
    store: &Store,
    uses: &[Said],
    table: &mut SortTable,
    id: TermId,
) -> Result<(), NoMemory>
    requires told { AreToldSorts sig.now uses.now }
    requires over { AreOver sig.now.hierarchy table.old }
    ensures settled { OnOk result (IsReady sig.now store.now table.old id.0 → IsSettled table.new id.0) }
    ensures kept { OnOk result (KeepsEntries table.old table.new) }
    ensures over { AreOver sig.now.hierarchy table.new }
    ensures entries { OnOk result ((us : List Says) → AreSaid sig.now store.now uses.now us → AreEntries sig.now (known_by sig.now us) store.now table.old
        → AreEntries sig.now (known_by sig.now us) store.now table.new) }
{
    let _ = store.len();
    if table.is_settled(id) {
        return Ok(());
    }
    if !table.is_ready(sig, store, id) {
        return Ok(());
    }
    let told = sorts_told(alloc, uses, id)?;
    table.settle_declared(sig, store, id, &told)?;
    Ok(())
}

/// The sorts of all terms of a store, where facts tell sorts besides.
fn sorts_by(
    alloc: Global,
    sig: &Signature,
    store: &Store,
    uses: &[Said],
) -> Result<SortTable, NoMemory>
    requires told { AreToldSorts sig.now uses.now }
    ensures entries { IfOk result (λ table. (us : List Says) → AreSaid sig.now store.now uses.now us → AreEntries sig.now (known_by sig.now us) store.now table) }
    ensures settled { IfOk result (λ table. (i : ℕ) → IsOf store.now i → IsTreeOver sig.now (tree_at store.now i) → IsSettled table i) }
    ensures over { IfOk result (AreOver sig.now.hierarchy) }
{
    let mut table = SortTable::new(alloc);
    for i in 0..store.len() {
        settle_one(alloc, sig, store, uses, &mut table, TermId(i))?;
    }
    Ok(table)
}

/// The sorts of all terms of a store by declarations and by what facts tell, if they tell any.
fn told_by(
    alloc: Global,
    sig: &Signature,
    store: &Store,
    uses: &[Said],
) -> Result<Option<SortTable>, NoMemory>
    requires told { AreToldSorts sig.now uses.now }
    ensures told { IfOk result (λ told. (us : List Says) → AreSaid sig.now store.now uses.now us → IsToldBy sig.now (known_by sig.now us) store.now told) }
    ensures settled { IfOk result (λ told. IfSome told (IsWholeTable sig.now store.now)) }
{
    if !tell_sorts(uses) {
        return Ok(None);
    }
    let table = sorts_by(alloc, sig, store, uses)?;
    Ok(Some(table))
}

/// Whether a fact tells a sort.
fn tells_sort(said: Said) -> bool
    ensures { result ≡ tells_sort said }
{
    match said {
        Said::Leads(_, _, _) => false,
        Said::Sorted(_, _) => true,
    }
}

/// Whether one of some facts does.
fn tell_sorts(uses: &[Said]) -> bool
    ensures { result ≡ list_any tells_sort uses.now }
{
    uses.iter().any(|said| tells_sort(*said))
}

/// What a table says of a settled term.
fn has_entry(sig: &Signature, table: &SortTable, id: TermId, sort: u32) -> bool
    requires over { AreOver sig.now.hierarchy table.now }
    requires settled { IsSettled table.now id.0 }
    requires sort { IsSort sig.now.hierarchy sort }
    ensures { (known : Known) (nodes : List Node) → AreEntries sig.now known nodes table.now → IsTrue result ↔ HasSort sig.now known (tree_at nodes id.0) sort }
{
    match table.has(sig, id, sort) {
        Some(has) => has,
        None => unreachable!(),
    }
}

/// Whether a term has a sort by declarations and by what facts tell. Where these tell no sort, it is entered into the table of sorts by
/// declarations alone.
fn has_sort(
    sig: &Signature,
    store: &Store,
    plain: &mut SortTable,
    told: &Option<SortTable>,
    id: TermId,
    sort: u32,
) -> Result<bool, NoMemory>
    requires term { IsOf store.now id.0 }
    requires tree { IsTreeOver sig.now (tree_at store.now id.0) }
    requires sort { IsSort sig.now.hierarchy sort }
    requires plain { IsPlainTable sig.now store.now plain.old }
    requires told { IfSome told.now (IsWholeTable sig.now store.now) }
    ensures plain { IsPlainTable sig.now store.now plain.new }
    ensures has { IfOk result (λ yes. (known : Known) → IsToldBy sig.now known store.now told.now → IsTrue yes ↔ HasSort sig.now known (tree_at store.now id.0) sort) }
{
    match told {
        Some(table) => Ok(has_entry(sig, table, id, sort)),
        None => {
            plain.settle_term(sig, store, id)?;
            Ok(has_entry(sig, plain, id, sort))
        }
    }
}

/// Whether facts tell that a term has a sort, or one below it.
fn is_told(
    sig: &Signature,
    store: &Store,
    uses: &[Said],
    id: TermId,
    sort: u32,
) -> Result<bool, NoMemory>
    requires term { IsOf store.now id.0 }
    requires sort { IsSort sig.now.hierarchy sort }
    ensures { IfOk result (λ yes. IsTrue yes → (us : List Says) → AreSaid sig.now store.now uses.now us → HasSort sig.now (known_by sig.now us) (tree_at store.now id.0) sort) }
{
    let _ = store.len();
    let poset = sig.poset();
    let told = sorts_told(store.allocator(), uses, id)?;
    for lower in &told {
        if *lower < poset.sorts() && poset.leq(*lower, sort) {
            return Ok(true);
        }
    }
    Ok(false)
}

/// Whether a term has a sort by declarations alone, or by just what facts tell of it.
fn is_shown(
    sig: &Signature,
    store: &Store,
    plain: &mut SortTable,
    uses: &[Said],
    id: TermId,
    sort: u32,
) -> Result<bool, NoMemory>
    requires term { IsOf store.now id.0 }
    requires tree { IsTreeOver sig.now (tree_at store.now id.0) }
    requires sort { IsSort sig.now.hierarchy sort }
    requires plain { IsPlainTable sig.now store.now plain.old }
    ensures plain { IsPlainTable sig.now store.now plain.new }
    ensures shown { IfOk result (λ yes. IsTrue yes → (us : List Says) → AreSaid sig.now store.now uses.now us → HasSort sig.now (known_by sig.now us) (tree_at store.now id.0) sort) }
{
    let nothing = None;
    let plainly = has_sort(sig, store, plain, &nothing, id, sort)?;
    if plainly {
        return Ok(true);
    }
    is_told(sig, store, uses, id, sort)
}

/// Whether each value has its variable's sort by declarations alone, or by just what facts tell of it.
fn all_shown(
    sig: &Signature,
    store: &Store,
    plain: &mut SortTable,
    uses: &[Said],
    variables: &[VarId],
    values: &[Kept],
) -> Result<bool, NoMemory>
    requires sorts { AreOfSorts sig.now variables.now }
    requires many { length values.now ≡ length variables.now }
    requires values { (vs : List Tree) × AreKeptFor sig.now store.now values.now vs }
    requires plain { IsPlainTable sig.now store.now plain.old }
    ensures plain { IsPlainTable sig.now store.now plain.new }
    ensures have { IfOk result (λ yes. IsTrue yes → (us : List Says) (vs : List Tree) → AreSaid sig.now store.now uses.now us → AreKeptFor sig.now store.now values.now vs →
        HaveSorts (HasSortBy sig.now us) (variables_in variables.now) vs) }
{
    let _ = sig.operators();
    for i in 0..variables.len() {
        let shown = is_shown(sig, store, plain, uses, values[i].id, variables[i].sort)?;
        if !shown {
            return Ok(false);
        }
    }
    Ok(true)
}

/// Whether each value has its variable's sort, where facts tell the sorts of a table.
fn all_sorted(
    sig: &Signature,
    store: &Store,
    plain: &mut SortTable,
    told: &Option<SortTable>,
    variables: &[VarId],
    values: &[Kept],
) -> Result<bool, NoMemory>
    requires sorts { AreOfSorts sig.now variables.now }
    requires many { length values.now ≡ length variables.now }
    requires values { (vs : List Tree) × AreKeptFor sig.now store.now values.now vs }
    requires plain { IsPlainTable sig.now store.now plain.old }
    requires told { IfSome told.now (IsWholeTable sig.now store.now) }
    ensures plain { IsPlainTable sig.now store.now plain.new }
    ensures have { IfOk result (λ yes. (us : List Says) (vs : List Tree) → IsToldBy sig.now (known_by sig.now us) store.now told.now → AreKeptFor sig.now store.now values.now vs →
        IsTrue yes ↔ HaveSorts (HasSortBy sig.now us) (variables_in variables.now) vs) }
{
    let _ = sig.operators();
    for i in 0..variables.len() {
        let has = has_sort(sig, store, plain, told, values[i].id, variables[i].sort)?;
        if !has {
            return Ok(false);
        }
    }
    Ok(true)
}

/// Whether each value has its variable's sort by declarations and by what facts tell.
pub fn have_sorts(
    sig: &Signature,
    store: &Store,
    plain: &mut SortTable,
    uses: &[Said],
    variables: &[VarId],
    values: &[Kept],
) -> Result<bool, NoMemory>
    requires sorts { AreOfSorts sig.now variables.now }
    requires many { length values.now ≡ length variables.now }
    requires values { (vs : List Tree) × AreKeptFor sig.now store.now values.now vs }
    requires uses { (us : List Says) × AreSaid sig.now store.now uses.now us }
    requires plain { IsPlainTable sig.now store.now plain.old }
    ensures plain { IsPlainTable sig.now store.now plain.new }
    ensures have { IfOk result (λ yes. (us : List Says) (vs : List Tree) → AreSaid sig.now store.now uses.now us → AreKeptFor sig.now store.now values.now vs →
        IsTrue yes ↔ HaveSorts (HasSortBy sig.now us) (variables_in variables.now) vs) }
{
    let shown = all_shown(sig, store, plain, uses, variables, values)?;
    if shown {
        return Ok(true);
    }
    let told = told_by(store.allocator(), sig, store, uses)?;
    all_sorted(sig, store, plain, &told, variables, values)
}

/// Whether a fact leads by equations from a term to one of a sort.
fn ends_in_sort(
    sig: &Signature,
    store: &Store,
    plain: &mut SortTable,
    told: &Option<SortTable>,
    said: Said,
    from: TermId,
    sort: u32,
) -> Result<bool, NoMemory>
    requires said { (y : Says) × IsSaid sig.now store.now said y }
    requires sort { IsSort sig.now.hierarchy sort }
    requires plain { IsPlainTable sig.now store.now plain.old }
    requires told { IfSome told.now (IsWholeTable sig.now store.now) }
    ensures plain { IsPlainTable sig.now store.now plain.new }
    ensures has { IfOk result (λ yes. (known : Known) → IsToldBy sig.now known store.now told.now → IsTrue yes ↔ EndsInSort sig.now store.now known from.0 sort said) }
{
    let _ = sig.operators();
    match said {
        Said::Leads(equations, start, end) => {
            if !equations || start.id.0 != from.0 {
                return Ok(false);
            }
            has_sort(sig, store, plain, told, end.id, sort)
        }
        Said::Sorted(_, _) => Ok(false),
    }
}

/// Whether one of some facts does.
fn some_ends_in_sort(
    sig: &Signature,
    store: &Store,
    plain: &mut SortTable,
    told: &Option<SortTable>,
    uses: &[Said],
    from: TermId,
    sort: u32,
) -> Result<bool, NoMemory>
    requires uses { (us : List Says) × AreSaid sig.now store.now uses.now us }
    requires sort { IsSort sig.now.hierarchy sort }
    requires plain { IsPlainTable sig.now store.now plain.old }
    requires told { IfSome told.now (IsWholeTable sig.now store.now) }
    ensures plain { IsPlainTable sig.now store.now plain.new }
    ensures end { IfOk result (λ yes. (known : Known) → IsToldBy sig.now known store.now told.now →
        IsTrue yes ↔ SomeSaid (EndsInSort sig.now store.now known from.0 sort) uses.now) }
{
    for said in uses {
        let ends = ends_in_sort(sig, store, plain, told, *said, from, sort)?;
        if ends {
            return Ok(true);
        }
    }
    Ok(false)
}

/// Whether a fact leads by equations from a term to one of a sort, by declarations alone or by just what facts tell of it.
fn ends_shown(
    sig: &Signature,
    store: &Store,
    plain: &mut SortTable,
    uses: &[Said],
    said: Said,
    from: TermId,
    sort: u32,
) -> Result<bool, NoMemory>
    requires said { (y : Says) × IsSaid sig.now store.now said y }
    requires sort { IsSort sig.now.hierarchy sort }
    requires plain { IsPlainTable sig.now store.now plain.old }
    ensures plain { IsPlainTable sig.now store.now plain.new }
    ensures shown { IfOk result (λ yes. IsTrue yes → (us : List Says) → AreSaid sig.now store.now uses.now us → EndsInSort sig.now store.now (known_by sig.now us) from.0 sort said) }
{
    let _ = sig.operators();
    match said {
        Said::Leads(equations, start, end) => {
            if !equations || start.id.0 != from.0 {
                return Ok(false);
            }
            is_shown(sig, store, plain, uses, end.id, sort)
        }
        Said::Sorted(_, _) => Ok(false),
    }
}

/// Whether one of some facts does.
fn some_ends_shown(
    sig: &Signature,
    store: &Store,
    plain: &mut SortTable,
    uses: &[Said],
    from: TermId,
    sort: u32,
) -> Result<bool, NoMemory>
    requires uses { (us : List Says) × AreSaid sig.now store.now uses.now us }
    requires sort { IsSort sig.now.hierarchy sort }
    requires plain { IsPlainTable sig.now store.now plain.old }
    ensures plain { IsPlainTable sig.now store.now plain.new }
    ensures end { IfOk result (λ yes. IsTrue yes → (us : List Says) → AreSaid sig.now store.now uses.now us →
        SomeSaid (EndsInSort sig.now store.now (known_by sig.now us) from.0 sort) uses.now) }
{
    for said in uses {
        let ends = ends_shown(sig, store, plain, uses, *said, from, sort)?;
        if ends {
            return Ok(true);
        }
    }
    Ok(false)
}

/// The same by declarations and by what facts tell.
pub fn end_in_sort(
    sig: &Signature,
    store: &Store,
    plain: &mut SortTable,
    uses: &[Said],
    from: TermId,
    sort: u32,
) -> Result<bool, NoMemory>
    requires uses { (us : List Says) × AreSaid sig.now store.now uses.now us }
    requires sort { IsSort sig.now.hierarchy sort }
    requires plain { IsPlainTable sig.now store.now plain.old }
    ensures plain { IsPlainTable sig.now store.now plain.new }
    ensures end { IfOk result (λ yes. (us : List Says) → AreSaid sig.now store.now uses.now us →
        IsTrue yes ↔ SomeSaid (EndsInSort sig.now store.now (known_by sig.now us) from.0 sort) uses.now) }
{
    let shown = some_ends_shown(sig, store, plain, uses, from, sort)?;
    if shown {
        return Ok(true);
    }
    let told = told_by(store.allocator(), sig, store, uses)?;
    some_ends_in_sort(sig, store, plain, &told, uses, from, sort)
}

/// Whether a term has a sort by declarations and by what facts tell.
pub fn term_has_sort(
    sig: &Signature,
    store: &Store,
    plain: &mut SortTable,
    uses: &[Said],
    term: Kept,
    sort: u32,
) -> Result<bool, NoMemory>
    requires term { (t : Tree) × IsKeptFor sig.now store.now term t }
    requires sort { IsSort sig.now.hierarchy sort }
    requires uses { (us : List Says) × AreSaid sig.now store.now uses.now us }
    requires plain { IsPlainTable sig.now store.now plain.old }
    ensures plain { IsPlainTable sig.now store.now plain.new }
    ensures has { IfOk result (λ yes. (us : List Says) (t : Tree) → AreSaid sig.now store.now uses.now us → IsKeptFor sig.now store.now term t →
        IsTrue yes ↔ HasSortBy sig.now us sort t) }
{
    let _ = sig.operators();
    let nothing = None;
    let plainly = has_sort(sig, store, plain, &nothing, term.id, sort)?;
    if plainly {
        return Ok(true);
    }
    let told = told_by(store.allocator(), sig, store, uses)?;
    has_sort(sig, store, plain, &told, term.id, sort)
}
