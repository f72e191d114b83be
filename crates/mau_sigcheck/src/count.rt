//! How many tuples there are.
ghost use Rattle.std.specs.Prelude.{◌≡◌, All, min};
ghost use Rattle.mau_signature.specs.Signature.{IsOperator};
ghost use Rattle.mau_sigcheck.specs.Tuples.{IsKind, tuples_of};
ghost use Rattle.mau_sigcheck.specs.Accepted.{argument_kinds, triples_of, tuples_at};

use crate::checker::Checker;
use mau_terms::OpId;

impl<'a> Checker<'a> {
    // How many tuples of these kinds there are, or the greatest number.
    fn count_tuples(&self, kinds: &[u32]) -> u64
        requires { All (IsKind self.now.hierarchy) kinds.now }
        ensures { result ≡ min (tuples_of self.now.hierarchy kinds.now) u64.MAX }
    {
        let mut count: u64 = 1;
        for kind in kinds {
            count = count.saturating_mul(self.members(*kind).len() as u64);
        }
        count
    }

    // How many triples there are for an associative operator, or the greatest number; for any other operator none.
    fn count_triples(&self, op: OpId) -> u64
        requires { IsOperator self.now op.0 }
        ensures { result ≡ min (triples_of self.now op.0) u64.MAX }
    {
        if !self.signature().theory(op).assoc {
            return 0;
        }
        let kind = self.result_kind(op);
        self.count_tuples(&[kind, kind, kind])
    }

    /// How many tuples and triples there are for an operator with arguments of these kinds, or the greatest number.
    pub fn count(&self, op: OpId, kinds: &[u32]) -> u64
        requires operator { IsOperator self.now op.0 }
        requires kinds { kinds.now ≡ argument_kinds self.now op.0 }
        requires there { All (IsKind self.now.hierarchy) kinds.now }
        ensures { result ≡ min (tuples_at self.now op.0) u64.MAX }
    {
        self.count_tuples(kinds)
            .saturating_add(self.count_triples(op))
    }
}
