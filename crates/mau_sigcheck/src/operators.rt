//! The check of a signature.
ghost use Rattle.std.specs.Prelude.{◌≡◌, All, OnOk, IfOk, IfErr, IfSome, IfNone};
ghost use Rattle.mau_signature.specs.Signature.{IsOperator};
ghost use Rattle.mau_sigcheck.specs.Tuples.{IsKind, IsFirstWithout};
ghost use Rattle.mau_sigcheck.specs.Accepted.{argument_kinds, IsPreregularAt, IsPreregular, BracketsAgree, IsAcceptedOperator, IsAccepted, HasFewTuples, IsWithinLimit};
ghost use Rattle.mau_sigcheck.specs.Faults.{IsReached, IsFaultOf, IsFirstDisagreeing, HasTooManyTuples, IsNotPreregular, HasNotAssociativeSorts, HasLoweringIdentity, IfTooManyTuples, IfNotPreregular, IfNotAssociativeSorts, IfIdentityLowersSort};

use crate::checker::Checker;
use crate::demand::Demand;
use crate::{CheckFault, MAX_TUPLES};
use mau_signature::Signature;
use mau_terms::{NoMemory, OpId, Seq};
use std::alloc::Global;

/// Judges the operators of a signature at all tuples of their argument sorts, one operator after another.
///
/// A fault names the first operator that is not accepted, with its first fault in the order of `CheckFault` and the first
/// tuple, triple or sort that shows it. The check takes one step for each declaration at each tuple, but memory for each
/// sort alone.
pub fn check(alloc: Global, sig: &Signature) -> Result<(), CheckFault>
    ensures ok { OnOk result (IsAccepted sig.now) }
    ensures few { OnOk result (IsWithinLimit sig.now) }
    ensures too_many_tuples { IfErr result (IfTooManyTuples (λ op n. IsReached sig.now op × HasTooManyTuples sig.now op n)) }
    ensures not_preregular { IfErr result (IfNotPreregular (λ op tuple. IsReached sig.now op × IsNotPreregular sig.now op tuple)) }
    ensures not_associative_sorts { IfErr result (IfNotAssociativeSorts (λ op triple. IsReached sig.now op × HasNotAssociativeSorts sig.now op triple)) }
    ensures identity_lowers_sort { IfErr result (IfIdentityLowersSort (λ op sort. IsReached sig.now op × HasLoweringIdentity sig.now op sort)) }
{
    let checker = Checker::new(alloc, sig)?;
    for i in 0..sig.operators() {
        match checker.check_operator(alloc, OpId(i + 1)) {
            Ok(()) => {}
            Err(fault) => return Err(fault),
        }
    }
    Ok(())
}

impl<'a> Checker<'a> {
    // Judges one operator.
    fn check_operator(&self, alloc: Global, op: OpId) -> Result<(), CheckFault>
        requires { IsOperator self.now op.0 }
        ensures ok { OnOk result (IsAcceptedOperator self.now op.0) }
        ensures few { OnOk result (HasFewTuples self.now op.0) }
        ensures fault { IfErr result (IsFaultOf self.now op) }
    {
        let kinds = self.argument_kinds(alloc, op)?;
        let count = self.count(op, &kinds);
        if count > MAX_TUPLES {
            return Err(CheckFault::TooManyTuples(op, count));
        }
        match self.first_without_least(alloc, op, &kinds)? {
            Some(tuple) => Err(CheckFault::NotPreregular(op, tuple)),
            None => self.check_axioms(op),
        }
    }

    // Judges what the axioms of a preregular operator ask of its sorts.
    fn check_axioms(&self, op: OpId) -> Result<(), CheckFault>
        requires operator { IsOperator self.now op.0 }
        requires few { HasFewTuples self.now op.0 }
        requires preregular { IsPreregular self.now op.0 }
        ensures ok { OnOk result (IsAcceptedOperator self.now op.0) }
        ensures fault { IfErr result (IsFaultOf self.now op) }
    {
        match self.first_disagreeing(op) {
            Some(triple) => Err(CheckFault::NotAssociativeSorts(op, triple)),
            None => match self.first_lowered(op) {
                Some(sort) => Err(CheckFault::IdentityLowersSort(op, sort)),
                None => Ok(()),
            },
        }
    }

    // The first tuple of these kinds at which the declarations of an operator have no least result.
    fn first_without_least(
        &self,
        alloc: Global,
        op: OpId,
        kinds: &[u32],
    ) -> Result<Option<Seq<u32>>, NoMemory>
        requires operator { IsOperator self.now op.0 }
        requires kinds { kinds.now ≡ argument_kinds self.now op.0 }
        requires there { All (IsKind self.now.hierarchy) kinds.now }
        ensures some { IfOk result (λ found. IfSome found (IsFirstWithout self.now.hierarchy (argument_kinds self.now op.0) (IsPreregularAt self.now op.0))) }
        ensures none { IfOk result (λ found. IfNone found (IsPreregular self.now op.0)) }
    {
        let mut tuple = vec![in alloc; 0u32; kinds.len()]?;
        if self.find_unmet(op, Demand::LeastResult, kinds, &mut tuple) {
            Ok(Some(Seq::new(tuple)))
        } else {
            Ok(None)
        }
    }

    // The first triple whose two bracketings have not one sort, if the operator is associative.
    fn first_disagreeing(&self, op: OpId) -> Option<[u32; 3]>
        requires { IsOperator self.now op.0 }
        ensures some { IfSome result (IsFirstDisagreeing self.now op.0) }
        ensures none { IfNone result (BracketsAgree self.now op.0) }
    {
        if !self.signature().theory(op).assoc {
            return None;
        }
        let kind = self.result_kind(op);
        let mut triple = [0u32; 3];
        if self.find_unmet(op, Demand::OneBracketing, &[kind, kind, kind], &mut triple) {
            Some(triple)
        } else {
            None
        }
    }
}
