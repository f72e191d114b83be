//! The tuples of some kinds, in ascending order.
ghost use Rattle.std.specs.Prelude.{◌≡◌, ◌+◌, ◌++◌, All, length, take, drop};
ghost use Rattle.std.specs.Bool.{OnTrue, OnFalse};
ghost use Rattle.mau_signature.specs.Faults.{IsSort};
ghost use Rattle.mau_signature.specs.Signature.{IsOperator};
ghost use Rattle.mau_sigcheck.specs.Tuples.{IsKind, HoldsAtAll, IsFirstWithout};
ghost use Rattle.mau_sigcheck.specs.Checking.{Meets};

use crate::checker::Checker;
use crate::demand::Demand;
use mau_terms::OpId;

impl<'a> Checker<'a> {
    /// Whether some tuple of these kinds does not meet the demand. The first one is then put into `tuple`.
    pub fn find_unmet(&self, op: OpId, demand: Demand, kinds: &[u32], tuple: &mut [u32]) -> bool
        requires operator { IsOperator self.now op.0 }
        requires kinds { All (IsKind self.now.hierarchy) kinds.now }
        requires room { length tuple.old ≡ length kinds.now }
        ensures found { OnTrue result (IsFirstWithout self.now.hierarchy kinds.now (Meets self.now op.0 demand) tuple.new) }
        ensures none { OnFalse result (HoldsAtAll self.now.hierarchy kinds.now (Meets self.now op.0 demand)) }
    {
        self.find_from(op, demand, kinds, tuple, 0)
    }

    // The same for the tuples that begin with the first `place` sorts of `tuple` and go on with sorts of these kinds.
    fn find_from(
        &self,
        op: OpId,
        demand: Demand,
        kinds: &[u32],
        tuple: &mut [u32],
        place: usize,
    ) -> bool
        requires operator { IsOperator self.now op.0 }
        requires kinds { All (IsKind self.now.hierarchy) kinds.now }
        requires room { place + length kinds.now ≡ length tuple.old }
        requires sorts { All (IsSort self.now.hierarchy) (take place tuple.old) }
        ensures kept { take place tuple.new ≡ take place tuple.old }
        ensures found { OnTrue result (IsFirstWithout self.now.hierarchy kinds.now (λ rest. Meets self.now op.0 demand (take place tuple.old ++ rest)) (drop place tuple.new)) }
        ensures none { OnFalse result (HoldsAtAll self.now.hierarchy kinds.now (λ rest. Meets self.now op.0 demand (take place tuple.old ++ rest))) }
    {
        match kinds.split_first() {
            Some((kind, others)) => {
                for member in self.members(*kind) {
                    tuple[place] = *member;
                    if self.find_from(op, demand, others, tuple, place + 1) {
                        return true;
                    }
                }
                false
            }
            None => !self.meets(op, demand, tuple),
        }
    }
}
