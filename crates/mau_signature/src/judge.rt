//! The faults of a declaration.
ghost use Rattle.std.specs.Prelude.{◌≡◌, ◌⊎◌, OnOk, IfErr, ◌+◌, ◌<◌, ◌≤◌, map, All, IfOk};
ghost use Rattle.std.specs.List.{list_all};
ghost use Rattle.mau_poset.specs.Order.{kind_of};
ghost use Rattle.mau_signature.specs.Attributes.{unite, united, names_argument, is_strategy, names_both_or_none};
ghost use Rattle.mau_signature.specs.Faults.{HasSorts, IsSort, has_wrong_arity, has_other_kind, is_pair_of_one, is_in_one_kind, kinds_suit, frozen_suits, gather_suits, attributes_suit, strategy_suits, is_kind_of_numerals, is_identity_in};
ghost use Rattle.mau_signature.specs.Judged.{fault_among};
ghost use Rattle.mau_signature.specs.Kinds.{HaveOneKind};

use crate::group::Group;
use crate::names::{Key, Names};
use crate::{Attrs, Decl, Gather, IdSpec, MAX_ARITY, SigFault};
use mau_poset::Poset;
use mau_terms::{NoMemory, Seq};
use std::alloc::Global;

// Over 16 arguments, or holes that are neither 0 nor the arguments.
fn has_wrong_arity(decl: &Decl) -> bool
    ensures { result ≡ has_wrong_arity decl.now }
{
    let arity = decl.args.items().len();
    let holes = decl.form.holes();
    arity > MAX_ARITY || (holes != 0 && holes != arity)
}

// Whether one of these declarations has its result in another kind. They have one kind, so the first tells.
fn has_other_kind(poset: &Poset, decls: &[Decl], kind: u32) -> bool
    requires sorts { All (HasSorts poset.now) decls.now }
    requires one_kind { HaveOneKind poset.now decls.now }
    ensures { result ≡ has_other_kind poset.now decls.now kind }
{
    match decls.first() {
        Some(first) => poset.kind_of(first.result) != kind,
        None => false,
    }
}

// Whether there are two arguments, and they and the result are in one kind.
fn is_in_one_kind(poset: &Poset, decl: &Decl) -> bool
    requires { HasSorts poset.now decl.now }
    ensures { result ≡ is_in_one_kind poset.now decl.now }
{
    let kind = poset.kind_of(decl.result);
    match decl.args.items() {
        [a, b] => poset.kind_of(*a) == kind && poset.kind_of(*b) == kind,
        _ => false,
    }
}

// Whether there are two sorts, and they are in one kind.
fn is_pair_of_one(poset: &Poset, sorts: &[u32]) -> bool
    requires { All (IsSort poset.now) sorts.now }
    ensures { result ≡ is_pair_of_one (map (kind_of poset.now) sorts.now) }
{
    match sorts {
        [a, b] => poset.kind_of(*a) == poset.kind_of(*b),
        _ => false,
    }
}

// Whether the kinds of the arguments and the result suit the axioms.
fn kinds_suit(poset: &Poset, attrs: &Attrs, decl: &Decl) -> bool
    requires { HasSorts poset.now decl.now }
    ensures { result ≡ kinds_suit poset.now attrs.now decl.now }
{
    let in_one_kind = is_in_one_kind(poset, decl);
    (!attrs.assoc || in_one_kind)
        && (!attrs.comm || is_pair_of_one(poset, decl.args.items()))
        && (attrs.id.is_none() || in_one_kind)
}

// Whether x is one of n arguments.
fn names_argument(n: usize, x: u8) -> bool
    ensures { result ≡ names_argument n x }
{
    0 < x && x as usize <= n
}

// Whether both of the first two arguments are named, or neither.
fn names_both_or_none(numbers: &[u8]) -> bool
    ensures { result ≡ names_both_or_none numbers.now }
{
    numbers.contains(&1) == numbers.contains(&2)
}

// Whether the numbers name arguments alone.
fn name_arguments(n: usize, numbers: &[u8]) -> bool
    ensures { result ≡ list_all (names_argument n) numbers.now }
{
    numbers.iter().all(|x| names_argument(n, *x))
}

fn frozen_suits(assoc: bool, n: usize, frozen: &Option<Seq<u8>>) -> bool
    ensures { result ≡ frozen_suits assoc n frozen.now }
{
    match frozen {
        Some(numbers) => {
            let numbers = numbers.items();
            name_arguments(n, numbers) && (!assoc || names_both_or_none(numbers))
        }
        None => true,
    }
}

fn gather_suits(n: usize, gather: &Option<Seq<Gather>>) -> bool
    ensures { result ≡ gather_suits n gather.now }
{
    match gather {
        Some(gather) => gather.items().len() == n,
        None => true,
    }
}

// Whether the united attributes suit the declaration.
fn attributes_suit(poset: &Poset, attrs: &Attrs, decl: &Decl) -> bool
    requires { HasSorts poset.now decl.now }
    ensures { result ≡ attributes_suit poset.now attrs.now decl.now }
{
    let arity = decl.args.items().len();
    kinds_suit(poset, attrs, decl)
        && gather_suits(arity, &attrs.gather)
        && frozen_suits(attrs.assoc, arity, &attrs.frozen)
}

// Whether the numbers are distinct ones of n arguments, and then 0.
fn is_strategy(n: usize, numbers: &[u8]) -> bool
    ensures { result ≡ is_strategy n numbers.now }
{
    match numbers {
        [] => false,
        [0, rest @ ..] => rest.is_empty(),
        [first, rest @ ..] => {
            names_argument(n, *first) && !rest.contains(first) && is_strategy(n, rest)
        }
    }
}

fn strategy_suits(assoc: bool, n: usize, strat: &Option<Seq<u8>>) -> bool
    ensures { result ≡ strategy_suits assoc n strat.now }
{
    match strat {
        Some(numbers) => {
            let numbers = numbers.items();
            is_strategy(n, numbers) && (!assoc || names_both_or_none(numbers))
        }
        None => true,
    }
}

// Whether `kind` is the kind of the numerals.
fn is_kind_of_numerals(poset: &Poset, numerals: Option<(u32, u32)>, kind: u32) -> bool
    requires { (p : _) → numerals ≡ Some p → IsSort poset.now p.0 }
    ensures { result ≡ is_kind_of_numerals poset.now numerals kind }
{
    match numerals {
        Some((zero, _)) => poset.kind_of(zero) == kind,
        None => false,
    }
}

// Whether the identity is there.
fn is_identity_in(
    alloc: Global,
    poset: &Poset,
    names: &Names,
    numerals: Option<(u32, u32)>,
    kind: u32,
    id: &Option<IdSpec>,
) -> Result<bool, NoMemory>
    requires { (p : _) → numerals ≡ Some p → IsSort poset.now p.0 }
    ensures { IfOk result (λ b. b ≡ is_identity_in poset.now names.now numerals kind id.now) }
{
    match id {
        Some(IdSpec::Const(form)) => {
            let key = Key::constant(alloc, form, kind)?;
            Ok(names.place(&key).is_some())
        }
        Some(IdSpec::Num(_)) => Ok(is_kind_of_numerals(poset, numerals, kind)),
        None => Ok(true),
    }
}

// The first fault of a declaration that stands after those of `group`, where `attrs` are the attributes united up to it.
fn first_fault(
    poset: &Poset,
    group: &Group,
    attrs: &Attrs,
    decl: &Decl,
    number: u32,
    has_identity: bool,
) -> Option<SigFault>
    requires sorts { HasSorts poset.now decl.now }
    requires earlier { All (HasSorts poset.now) group.now }
    requires one_kind { HaveOneKind poset.now group.now }
    requires united { attrs.now ≡ unite (united group.now) decl.now.attrs }
    ensures { (fs : _) (numerals : _) → has_identity ≡ is_identity_in poset.now fs numerals (kind_of poset.now decl.now.result) attrs.now.id → result ≡ fault_among poset.now fs numerals group.now decl.now number }
{
    let arity = decl.args.items().len();
    if has_wrong_arity(decl) {
        return Some(SigFault::Arity(number));
    }
    if has_other_kind(poset, group.decls(), poset.kind_of(decl.result)) {
        return Some(SigFault::KindMismatch(number));
    }
    if group.attrs().has_two_values(&decl.attrs) || !attributes_suit(poset, attrs, decl) {
        return Some(SigFault::AttrConflict(number));
    }
    if !strategy_suits(attrs.assoc, arity, &attrs.strat) {
        return Some(SigFault::BadStrat(number));
    }
    if !has_identity {
        return Some(SigFault::IdNotConstant(number));
    }
    None
}

/// The attributes united up to a declaration that stands after those of `group`, or its first fault.
pub fn judge(
    alloc: Global,
    poset: &Poset,
    names: &Names,
    numerals: Option<(u32, u32)>,
    group: &Group,
    decl: &Decl,
    number: u32,
) -> Result<Attrs, SigFault>
    requires sorts { HasSorts poset.now decl.now }
    requires earlier { All (HasSorts poset.now) group.now }
    requires one_kind { HaveOneKind poset.now group.now }
    requires numerals { (p : _) → numerals ≡ Some p → IsSort poset.now p.0 }
    ensures ok { IfOk result (λ attrs. attrs ≡ unite (united group.now) decl.now.attrs) }
    ensures faultless { OnOk result (fault_among poset.now names.now numerals group.now decl.now number ≡ None) }
    ensures fault { IfErr result (λ fault. (fault ≡ SigFault.NoMemory) ⊎ (fault_among poset.now names.now numerals group.now decl.now number ≡ Some fault)) }
{
    let earlier = group.attrs().copy(alloc)?;
    let attrs = earlier.unite(alloc, &decl.attrs)?;
    let kind = poset.kind_of(decl.result);
    let has_identity = is_identity_in(alloc, poset, names, numerals, kind, &attrs.id)?;
    match first_fault(poset, group, &attrs, decl, number, has_identity) {
        Some(fault) => Err(fault),
        None => Ok(attrs),
    }
}
