//! A signature that is checked, with the members of its kinds.
ghost use Rattle.std.specs.Prelude.{◌≡◌, ◌+◌, map, ◌↔◌, All, IfOk, IfSome, IsTrue};
ghost use Rattle.mau_poset.specs.Order.{kinds, kind_of, IsPoset};
ghost use Rattle.mau_terms.specs.Bare.{IsLawful};
ghost use Rattle.mau_signature.specs.Faults.{IsSort};
ghost use Rattle.mau_signature.specs.Signature.{IsOperator, terms_over};
ghost use Rattle.mau_sigcheck.specs.Tuples.{IsKind};
ghost use Rattle.mau_sigcheck.specs.Accepted.{argument_kinds, result_kind, Gives, IsStrictlyBelow};
ghost use Rattle.mau_sigcheck.specs.Checking.{HasMembersBelow, members_of};

use mau_poset::Poset;
use mau_signature::Signature;
use mau_terms::{NoMemory, OpId};
use std::alloc::Global;
use std::marker::Model;

/// A signature, with the members of each kind: its sorts in their order, and then the kind itself.
#[derive(Drop)]
pub struct Checker<'a> {
    sig: &'a Signature,
    members: Vec<Vec<u32>>,
}

impl<'a> Model for Checker<'a> {
    ghost use Rattle.mau_signature.specs.Signature.{SignatureOf};

    ghost Value = { SignatureOf };

    ghost use Rattle.mau_sigcheck.specs.Checking.{IsChecker};

    ghost view = { λ c. c.sig.now };

    ghost invariant = { λ c. IsChecker c.sig.now c.members.items };
}

// An empty list for each kind.
fn empty_lists(alloc: Global, poset: &Poset) -> Result<Vec<Vec<u32>>, NoMemory>
    ensures { IfOk result (λ lists. HasMembersBelow poset.now 0 lists.items) }
{
    let n = poset.kinds() as usize;
    let mut lists = Vec::with_capacity(alloc, n)?;
    for _ in 0..n {
        lists.push(Vec::new(alloc))?;
    }
    Ok(lists)
}

// The members of each kind, in ascending order.
fn members_of_kinds(alloc: Global, poset: &Poset) -> Result<Vec<Vec<u32>>, NoMemory>
    ensures { IfOk result (λ lists. HasMembersBelow poset.now (poset.now.sorts + kinds poset.now) lists.items) }
{
    let first = poset.sorts();
    let mut lists = empty_lists(alloc, poset)?;
    for sort in 0..first + poset.kinds() {
        lists[(poset.kind_of(sort) - first) as usize].push(sort)?;
    }
    Ok(lists)
}

impl<'a> Checker<'a> {
    /// What is needed to check a signature.
    pub fn new(alloc: Global, sig: &'a Signature) -> Result<Checker<'a>, NoMemory>
        ensures { IfOk result (λ checker. checker ≡ sig.now) }
    {
        // What is known of a signature and of its sorts is needed below, and these calls tell it.
        let _ = sig.operators();
        let _ = sig.poset().sorts();
        let members = members_of_kinds(alloc, sig.poset())?;
        Ok(Checker { sig, members })
    }

    /// The signature.
    pub fn signature(&self) -> &'a Signature
        ensures value { result.now ≡ self.now }
        ensures lawful { IsLawful (terms_over self.now) }
        ensures poset { IsPoset self.now.hierarchy }
    {
        self.sig
    }

    /// The sorts of a kind in ascending order, and then the kind itself.
    pub fn members(&self, kind: u32) -> &[u32]
        requires { IsKind self.now.hierarchy kind }
        ensures { result.now ≡ members_of self.now.hierarchy kind }
    {
        &self.members[(kind - self.sig.poset().sorts()) as usize]
    }

    /// The kinds of the arguments of an operator.
    pub fn argument_kinds(&self, alloc: Global, op: OpId) -> Result<Vec<u32>, NoMemory>
        requires { IsOperator self.now op.0 }
        ensures value { IfOk result (λ kinds. kinds.items ≡ argument_kinds self.now op.0) }
        ensures kinds { IfOk result (λ kinds. All (IsKind self.now.hierarchy) kinds.items) }
    {
        match self.sig.declarations(op).first() {
            Some(decl) => kinds_of(alloc, self.sig.poset(), decl.args.items()),
            None => unreachable!(),
        }
    }

    /// The kind of the result of an operator.
    pub fn result_kind(&self, op: OpId) -> u32
        requires { IsOperator self.now op.0 }
        ensures value { result ≡ result_kind self.now op.0 }
        ensures kind { IsKind self.now.hierarchy result }
    {
        self.sig.result_kind(op)
    }

    /// The sort of an operator for arguments of these sorts, if there is one.
    pub fn result_of(&self, op: OpId, sorts: &[u32]) -> Option<u32>
        requires operator { IsOperator self.now op.0 }
        requires sorts { All (IsSort self.now.hierarchy) sorts.now }
        ensures value { IfSome result (Gives self.now op.0 sorts.now) }
        ensures sort { IfSome result (IsSort self.now.hierarchy) }
        ensures one { (r : _) → Gives self.now op.0 sorts.now r → result ≡ Some r }
    {
        self.sig.least_result(op, sorts)
    }

    /// Whether `a` is below `b`, and is not `b`.
    pub fn is_strictly_below(&self, a: u32, b: u32) -> bool
        requires a { IsSort self.now.hierarchy a }
        requires b { IsSort self.now.hierarchy b }
        ensures { IsTrue result ↔ IsStrictlyBelow self.now.hierarchy a b }
    {
        a != b && self.sig.poset().leq(a, b)
    }
}

// The kinds of some sorts.
fn kinds_of(alloc: Global, poset: &Poset, sorts: &[u32]) -> Result<Vec<u32>, NoMemory>
    requires { All (IsSort poset.now) sorts.now }
    ensures value { IfOk result (λ kinds. kinds.items ≡ map (kind_of poset.now) sorts.now) }
    ensures kinds { IfOk result (λ kinds. All (IsKind poset.now) kinds.items) }
{
    let mut kinds = Vec::with_capacity(alloc, sorts.len())?;
    for sort in sorts {
        kinds.push(poset.kind_of(*sort))?;
    }
    Ok(kinds)
}
