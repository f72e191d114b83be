//! The attributes of an operator.
ghost use Rattle.std.specs.Prelude.{◌≡◌, ◌||◌, IfOk, nat_eq, bytes_eq};
ghost use Rattle.std.specs.Cmp.Lexicographic.{pointwise};
ghost use Rattle.mau_signature.specs.Attributes.{no_attributes, first_given, unite, differ, same_identity, same_gather, has_two_values};

use crate::Form;
use mau_terms::{Duplicate, NoMemory, Seq, Text};
use std::alloc::Global;

/// Which precedence an argument may have at most: that of the operator, one less, or any.
#[derive(Clone, Copy, PartialEq, Eq, Hash, Debug)]
pub enum Gather {
    Upto,
    Below,
    Any,
}

/// An identity as it is declared: the form of a constant, or a numeral.
#[derive(Drop, Debug)]
pub enum IdSpec {
    Const(Form),
    Num(u128),
}

/// The attributes of a declaration. In `strat` and `frozen` the arguments are counted from 1.
#[derive(Drop, Debug)]
pub struct Attrs {
    pub assoc: bool,
    pub comm: bool,
    pub id: Option<IdSpec>,
    pub prec: Option<u8>,
    pub gather: Option<Seq<Gather>>,
    pub strat: Option<Seq<u8>>,
    pub frozen: Option<Seq<u8>>,
    pub builtin: Option<Text>,
}

impl Duplicate for Gather {
    fn copy(&self, _: Global) -> Result<Gather, NoMemory> {
        Ok(*self)
    }
}

impl Duplicate for IdSpec {
    fn copy(&self, alloc: Global) -> Result<IdSpec, NoMemory> {
        match self {
            IdSpec::Const(form) => Ok(IdSpec::Const(form.copy(alloc)?)),
            IdSpec::Num(n) => Ok(IdSpec::Num(*n)),
        }
    }
}

impl IdSpec {
    // Whether the two are one identity.
    fn same(&self, other: &IdSpec) -> bool
        ensures { result ≡ same_identity self.now other.now }
    {
        match (self, other) {
            (IdSpec::Const(f), IdSpec::Const(g)) => f.same(g),
            (IdSpec::Num(m), IdSpec::Num(n)) => m == n,
            _ => false,
        }
    }
}

// An equal value, or none.
fn copy_given<T: Duplicate + Drop>(alloc: Global, given: &Option<T>) -> Result<Option<T>, NoMemory>
    ensures { IfOk result (λ copy. copy ≡ given.now) }
{
    match given {
        Some(value) => Ok(Some(value.copy(alloc)?)),
        None => Ok(None),
    }
}

// `first`, or a copy of `second` if it is none.
fn first_or_copy<T: Duplicate + Drop>(
    alloc: Global,
    first: Option<T>,
    second: &Option<T>,
) -> Result<Option<T>, NoMemory>
    ensures { IfOk result (λ value. value ≡ first_given first second.now) }
{
    match first {
        Some(value) => Ok(Some(value)),
        None => copy_given(alloc, second),
    }
}

// Equal numbers, or none.
fn copy_numbers(alloc: Global, given: &Option<Seq<u8>>) -> Result<Option<Seq<u8>>, NoMemory>
    ensures { IfOk result (λ copy. copy ≡ given.now) }
{
    match given {
        Some(numbers) => Ok(Some(Seq::new(Vec::from_slice(alloc, numbers.items())?))),
        None => Ok(None),
    }
}

// `first`, or a copy of `second` if it is none.
fn first_or_copy_numbers(
    alloc: Global,
    first: Option<Seq<u8>>,
    second: &Option<Seq<u8>>,
) -> Result<Option<Seq<u8>>, NoMemory>
    ensures { IfOk result (λ value. value ≡ first_given first second.now) }
{
    match first {
        Some(numbers) => Ok(Some(numbers)),
        None => copy_numbers(alloc, second),
    }
}

// Whether one of two declarations gives an attribute.
fn is_given(first: bool, second: bool) -> bool
    ensures { result ≡ (first || second) }
{
    first || second
}

fn first_precedence(first: Option<u8>, second: Option<u8>) -> Option<u8>
    ensures { result ≡ first_given first second }
{
    match first {
        Some(precedence) => Some(precedence),
        None => second,
    }
}

fn differ_identities(a: &Option<IdSpec>, b: &Option<IdSpec>) -> bool
    ensures { result ≡ differ same_identity a.now b.now }
{
    match (a, b) {
        (Some(x), Some(y)) => !x.same(y),
        _ => false,
    }
}

fn differ_precedences(a: Option<u8>, b: Option<u8>) -> bool
    ensures { result ≡ differ nat_eq a b }
{
    match (a, b) {
        (Some(x), Some(y)) => x != y,
        _ => false,
    }
}

fn differ_gathers(a: &Option<Seq<Gather>>, b: &Option<Seq<Gather>>) -> bool
    ensures { result ≡ differ (pointwise same_gather) a.now b.now }
{
    match (a, b) {
        (Some(x), Some(y)) => x.items() != y.items(),
        _ => false,
    }
}

fn differ_numbers(a: &Option<Seq<u8>>, b: &Option<Seq<u8>>) -> bool
    ensures { result ≡ differ (pointwise nat_eq) a.now b.now }
{
    match (a, b) {
        (Some(x), Some(y)) => x.items() != y.items(),
        _ => false,
    }
}

fn differ_texts(a: &Option<Text>, b: &Option<Text>) -> bool
    ensures { result ≡ differ bytes_eq a.now b.now }
{
    match (a, b) {
        (Some(x), Some(y)) => x.as_str() != y.as_str(),
        _ => false,
    }
}

impl Attrs {
    /// No attributes.
    pub fn none() -> Attrs
        ensures { result ≡ no_attributes }
    {
        Attrs {
            assoc: false,
            comm: false,
            id: None,
            prec: None,
            gather: None,
            strat: None,
            frozen: None,
            builtin: None,
        }
    }

    /// Equal attributes.
    pub fn copy(&self, alloc: Global) -> Result<Attrs, NoMemory>
        ensures { IfOk result (λ a. a ≡ self.now) }
    {
        Ok(Attrs {
            assoc: self.assoc,
            comm: self.comm,
            id: copy_given(alloc, &self.id)?,
            prec: self.prec,
            gather: copy_given(alloc, &self.gather)?,
            strat: copy_numbers(alloc, &self.strat)?,
            frozen: copy_numbers(alloc, &self.frozen)?,
            builtin: copy_given(alloc, &self.builtin)?,
        })
    }

    /// What is given by these attributes or by `other`, the values of these before those of `other`.
    pub fn unite(self, alloc: Global, other: &Attrs) -> Result<Attrs, NoMemory>
        ensures { IfOk result (λ a. a ≡ unite self other.now) }
    {
        Ok(Attrs {
            assoc: is_given(self.assoc, other.assoc),
            comm: is_given(self.comm, other.comm),
            id: first_or_copy(alloc, self.id, &other.id)?,
            prec: first_precedence(self.prec, other.prec),
            gather: first_or_copy(alloc, self.gather, &other.gather)?,
            strat: first_or_copy_numbers(alloc, self.strat, &other.strat)?,
            frozen: first_or_copy_numbers(alloc, self.frozen, &other.frozen)?,
            builtin: first_or_copy(alloc, self.builtin, &other.builtin)?,
        })
    }

    /// Whether some attribute has one value here and another in `other`.
    pub fn has_two_values(&self, other: &Attrs) -> bool
        ensures { result ≡ has_two_values self.now other.now }
    {
        differ_identities(&self.id, &other.id)
            || differ_precedences(self.prec, other.prec)
            || differ_gathers(&self.gather, &other.gather)
            || differ_numbers(&self.strat, &other.strat)
            || differ_numbers(&self.frozen, &other.frozen)
            || differ_texts(&self.builtin, &other.builtin)
    }
}
