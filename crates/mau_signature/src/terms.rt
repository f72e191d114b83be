//! What a signature says of terms: declared results and kinds.
ghost use Rattle.std.specs.Prelude.{◌≡◌, ◌<◌, ◌≤◌, All, IfSome, IfNone};
ghost use Rattle.mau_poset.specs.Order.{kind_of};
ghost use Rattle.mau_terms.specs.Bare.{IsBare, IsBareIn};
ghost use Rattle.mau_terms.specs.View.{tree_of};
ghost use Rattle.mau_signature.specs.Faults.{IsSort};
ghost use Rattle.mau_signature.specs.Signature.{IsOperator, declarations_at, result_of, terms_over, HasLeastResult, IsDeclaredResult};

use crate::Signature;
use crate::results::{is_below_results, lowest_result};
use mau_terms::{Bare, OpId};

impl Signature {
    /// The least result of the declarations that apply to these sorts or kinds, one for each argument; the kind of the
    /// result where none applies. It takes one step for each declaration.
    pub fn declared(&self, op: OpId, sorts: &[u32]) -> u32
        requires operator { IsOperator self.now op.0 }
        requires sorts { All (IsSort self.now.hierarchy) sorts.now }
        requires accepted { HasLeastResult self.now.hierarchy (declarations_at self.now op.0) sorts.now }
        ensures value { IsDeclaredResult self.now.hierarchy (declarations_at self.now op.0) sorts.now result }
    {
        let decls = self.declarations(op);
        match lowest_result(self.poset(), decls, sorts) {
            Some(result) => result,
            None => self.result_kind(op),
        }
    }

    /// The declared result for these sorts or kinds, if there is one: none exactly where declarations apply and none of
    /// their results is the least. It takes two steps for each declaration.
    pub fn least_result(&self, op: OpId, sorts: &[u32]) -> Option<u32>
        requires operator { IsOperator self.now op.0 }
        requires sorts { All (IsSort self.now.hierarchy) sorts.now }
        ensures value { IfSome result (IsDeclaredResult self.now.hierarchy (declarations_at self.now op.0) sorts.now) }
        ensures sort { IfSome result (IsSort self.now.hierarchy) }
        ensures none { IfNone result (¬ HasLeastResult self.now.hierarchy (declarations_at self.now op.0) sorts.now) }
    {
        let poset = self.poset();
        let decls = self.declarations(op);
        match lowest_result(poset, decls, sorts) {
            Some(low) => {
                if is_below_results(poset, decls, sorts, low) {
                    Some(low)
                } else {
                    None
                }
            }
            None => Some(self.result_kind(op)),
        }
    }

    /// The kind of the result of an operator, in constant time.
    pub fn result_kind(&self, op: OpId) -> u32
        requires { IsOperator self.now op.0 }
        ensures value { result ≡ kind_of self.now.hierarchy (result_of (declarations_at self.now op.0)) }
        ensures kind { IsSort self.now.hierarchy result }
        ensures own { kind_of self.now.hierarchy result ≡ result }
    {
        match self.declarations(op).first() {
            Some(decl) => self.poset().kind_of(decl.result),
            None => unreachable!(),
        }
    }

    /// The kind of a bare term, in constant time.
    pub fn kind(&self, term: &Bare) -> u32
        requires { IsBare (terms_over self.now) (tree_of term.now) }
        ensures value { IsBareIn (terms_over self.now) (tree_of term.now) result }
    {
        match term {
            Bare::Var(v) => self.poset().kind_of(v.sort),
            Bare::Num(_) => match self.numerals() {
                Some((zero, _)) => self.poset().kind_of(zero),
                None => unreachable!(),
            },
            Bare::App(op, _) => self.result_kind(*op),
        }
    }
}
