//! A signature from declarations.
ghost use Rattle.std.specs.Prelude.{◌≡◌, ◌≢◌, ◌++◌, ◌∷◌, ◌<◌, ◌≤◌, ◌⊎◌, [], length, map, replicate, All, IfOk, OnOk, IfErr};
ghost use Rattle.mau_signature.specs.Names.{operators_of, declarations_of};
ghost use Rattle.mau_signature.specs.Attributes.{with_united};
ghost use Rattle.mau_signature.specs.Faults.{HasSorts, given, IsFaultless};
ghost use Rattle.mau_signature.specs.Judged.{IsFirstFault};
ghost use Rattle.mau_signature.specs.Built.{HasZero, IsEntry, declarations_in};

use crate::group::Group;
use crate::judge::judge;
use crate::names::{Key, Names};
use crate::operator::{Entry, strategy_of, theory_of};
use crate::{Decl, MAX_DECLARATIONS, SigFault};
use mau_poset::Poset;
use mau_terms::NoMemory;
use std::alloc::Global;

/// The operators of some declarations, in the order of their first declarations.
pub fn name_all(alloc: Global, poset: &Poset, decls: &[Decl]) -> Result<Names, NoMemory>
    requires { All (HasSorts poset.now) decls.now }
    ensures names { IfOk result (λ names. names ≡ operators_of poset.now decls.now) }
    ensures few { IfOk result (λ names. length names ≤ length decls.now) }
{
    let mut names = Names::new(alloc);
    for decl in decls {
        names.add(Key::of(alloc, poset, decl)?)?;
    }
    Ok(names)
}

// As many groups without declarations.
fn empty_groups(alloc: Global, n: usize) -> Result<Vec<Group>, NoMemory>
    ensures { IfOk result (λ groups. groups.items ≡ replicate n []) }
{
    let mut groups = Vec::with_capacity(alloc, n)?;
    for _ in 0..n {
        groups.push(Group::new(alloc))?;
    }
    Ok(groups)
}

/// The declarations of each operator, or the first fault of the first declaration at fault.
pub fn group_all(
    alloc: Global,
    poset: &Poset,
    names: &Names,
    numerals: Option<(u32, u32)>,
    decls: Vec<Decl>,
) -> Result<Vec<Group>, SigFault>
    requires few { length decls.items ≤ MAX_DECLARATIONS }
    requires sorts { All (HasSorts poset.now) decls.items }
    requires names { names.now ≡ operators_of poset.now decls.items }
    requires zero { HasZero poset.now numerals }
    ensures ok { IfOk result (λ groups. groups.items ≡ map (declarations_of poset.now decls.items) names.now) }
    ensures faultless { OnOk result (IsFaultless (given poset.now decls.items numerals) decls.items) }
    ensures fault { IfErr result (λ fault. (fault ≡ SigFault.NoMemory) ⊎ IsFirstFault (given poset.now decls.items numerals) fault) }
{
    let mut groups = empty_groups(alloc, names.len())?;
    let mut number = 0;
    for decl in decls {
        let key = Key::of(alloc, poset, &decl)?;
        let place = match names.place(&key) {
            Some(place) => place,
            None => unreachable!(),
        };
        let attrs = match judge(alloc, poset, names, numerals, &groups[place], &decl, number) {
            Ok(attrs) => attrs,
            Err(fault) => return Err(fault),
        };
        groups[place].add(decl, attrs)?;
        number += 1;
    }
    Ok(groups)
}

// The operator with these declarations.
fn enter(alloc: Global, poset: &Poset, names: &Names, group: Group) -> Result<Entry, NoMemory>
    requires few { length names.now ≤ MAX_DECLARATIONS }
    requires sorts { All (HasSorts poset.now) group }
    requires some { group ≢ [] }
    requires arity { All (λ d. length d.args ≤ 16) group }
    ensures declarations { IfOk result (λ entry. entry.decls.items ≡ with_united group) }
    ensures entry { IfOk result (λ entry. IsEntry poset.now names.now entry) }
{
    let decls = group.finish(alloc)?;
    let theory = theory_of(alloc, poset, names, &decls)?;
    let strategy = strategy_of(alloc, &decls)?;
    Ok(Entry {
        decls,
        theory,
        strategy,
    })
}

/// The operators of these groups.
pub fn enter_all(
    alloc: Global,
    poset: &Poset,
    names: &Names,
    groups: Vec<Group>,
) -> Result<Vec<Entry>, NoMemory>
    requires few { length names.now ≤ MAX_DECLARATIONS }
    requires sorts { All (All (HasSorts poset.now)) groups.items }
    requires some { All (λ group. group ≢ []) groups.items }
    requires arity { All (All (λ d. length d.args ≤ 16)) groups.items }
    ensures declarations { IfOk result (λ entries. map declarations_in entries.items ≡ map with_united groups.items) }
    ensures entries { IfOk result (λ entries. All (IsEntry poset.now names.now) entries.items) }
{
    let mut entries = Vec::with_capacity(alloc, groups.len())?;
    for group in groups {
        entries.push(enter(alloc, poset, names, group)?)?;
    }
    Ok(entries)
}
