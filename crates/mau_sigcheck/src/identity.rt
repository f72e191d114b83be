//! Sorts under an operator with an identity.
ghost use Rattle.std.specs.Prelude.{◌≡◌, ◌<◌, ◌↔◌, [], ◌∷◌, All, IfSome, IfNone, IsTrue};
ghost use Rattle.mau_signature.specs.Faults.{IsSort};
ghost use Rattle.mau_signature.specs.Signature.{IsOperator};
ghost use Rattle.mau_sigcheck.specs.Tuples.{IsInKind};
ghost use Rattle.mau_sigcheck.specs.Accepted.{result_kind, IsSortOfIdentity, HasIdentityOfSort, GivesBelow, Lowers, KeepsSorts};
ghost use Rattle.mau_sigcheck.specs.Checking.{IsIdentityOver, IsFirstLoweredBy};
ghost use Rattle.mau_sigcheck.specs.Faults.{IsFirstLowered};

use crate::checker::Checker;
use mau_terms::{Identity, OpId};

impl<'a> Checker<'a> {
    // The sort of the identity of an operator, if it has both.
    fn identity_sort(&self, op: OpId) -> Option<u32>
        requires { IsOperator self.now op.0 }
        ensures value { IfSome result (HasIdentityOfSort self.now op.0) }
        ensures one { (r : _) → HasIdentityOfSort self.now op.0 r → result ≡ Some r }
        ensures sort { IfSome result (IsSort self.now.hierarchy) }
    {
        match self.signature().theory(op).id {
            Some(identity) => self.sort_of(identity),
            None => None,
        }
    }

    // The sort of an identity, if it has one.
    fn sort_of(&self, identity: Identity) -> Option<u32>
        requires { IsIdentityOver self.now identity }
        ensures value { IfSome result (IsSortOfIdentity self.now identity) }
        ensures one { (r : _) → IsSortOfIdentity self.now identity r → result ≡ Some r }
        ensures sort { IfSome result (IsSort self.now.hierarchy) }
    {
        match identity {
            Identity::Const(constant) => self.result_of(constant, &[]),
            Identity::Num(value) => match self.signature().numerals() {
                Some((zero, other)) => Some(if value == 0 { zero } else { other }),
                None => None,
            },
        }
    }

    // Whether the operator gives these sorts a sort strictly below `x`.
    fn gives_below(&self, op: OpId, sorts: &[u32], x: u32) -> bool
        requires operator { IsOperator self.now op.0 }
        requires sorts { All (IsSort self.now.hierarchy) sorts.now }
        requires x { IsSort self.now.hierarchy x }
        ensures { IsTrue result ↔ GivesBelow self.now op.0 sorts.now x }
    {
        match self.result_of(op, sorts) {
            Some(lower) => self.is_strictly_below(lower, x),
            None => false,
        }
    }

    // Whether an identity of the sort `identity`, beside a term of the sort `x`, has a sort strictly below `x`.
    fn lowers(&self, op: OpId, identity: u32, x: u32) -> bool
        requires operator { IsOperator self.now op.0 }
        requires identity { IsSort self.now.hierarchy identity }
        requires x { IsSort self.now.hierarchy x }
        ensures { IsTrue result ↔ Lowers self.now op.0 identity x }
    {
        self.gives_below(op, &[identity, x], x) || self.gives_below(op, &[x, identity], x)
    }

    // The first sort, or else the kind, of the operator's kind that an identity of the sort `identity` lowers.
    fn first_lowered_by(&self, op: OpId, identity: u32) -> Option<u32>
        requires operator { IsOperator self.now op.0 }
        requires identity { IsSort self.now.hierarchy identity }
        ensures some { IfSome result (IsFirstLoweredBy self.now op.0 identity) }
        ensures none { IfNone result ((x : _) → IsInKind self.now.hierarchy (result_kind self.now op.0) x → ¬ Lowers self.now op.0 identity x) }
    {
        for x in self.members(self.result_kind(op)) {
            if self.lowers(op, identity, *x) {
                return Some(*x);
            }
        }
        None
    }

    /// The first sort, or else the kind, of the operator's kind that its identity lowers, if there are such.
    pub fn first_lowered(&self, op: OpId) -> Option<u32>
        requires { IsOperator self.now op.0 }
        ensures some { IfSome result (IsFirstLowered self.now op.0) }
        ensures none { IfNone result (KeepsSorts self.now op.0) }
    {
        match self.identity_sort(op) {
            Some(identity) => self.first_lowered_by(op, identity),
            None => None,
        }
    }
}
