//! Signatures.
ghost use Rattle.std.specs.Prelude.{◌≡◌, ◌+◌, ◌<◌, ◌≤◌, ◌≢◌, ◌⊎◌, [], length, All, IfSome, IfOk, OnOk, IfErr};
ghost use Rattle.mau_poset.specs.Order.{kind_of, kinds};
ghost use Rattle.mau_terms.specs.Bare.{IsLawful};
ghost use Rattle.mau_signature.specs.Attributes.{is_given_number};
ghost use Rattle.mau_signature.specs.Faults.{IsSort, HasSorts, AreNumerals, given, IsFaultless, IsFirstAtFault, HasWrongArity, MismatchesKind, Conflicts, HasBadStrategy, LacksIdentity, IfArity, IfKindMismatch, IfAttrConflict, IfBadStrat, IfIdNotConstant};
ghost use Rattle.mau_signature.specs.Judged.{IsFirstFault};
ghost use Rattle.mau_signature.specs.Made.{IsSignature};
ghost use Rattle.mau_signature.specs.Names.{operator_of};
ghost use Rattle.mau_signature.specs.Signature.{number_of, IsOperator, declarations_at, form_of, theory_at, strategy_of, attributes_of, IsAlike, signature_of, terms_over};

use crate::build::{enter_all, group_all, name_all};
use crate::names::{Key, Names};
use crate::operator::Entry;
use crate::{Decl, Form, MAX_ARITY, MAX_DECLARATIONS, SigFault};
use mau_poset::Poset;
use mau_terms::{NoMemory, OpId, Theory};
use std::alloc::Global;
use std::marker::Model;

/// Operators over sorts, counted from 1 in the order of their first declarations. A contract sees what tells each operator
/// apart, its declarations with the united attributes, the order of the sorts, and the sorts of the numerals.
#[derive(Drop)]
pub struct Signature {
    poset: Poset,
    names: Names,
    entries: Vec<Entry>,
    numerals: Option<(u32, u32)>,
}

impl Model for Signature {
    ghost use Rattle.std.specs.Prelude.{map};
    ghost use Rattle.mau_signature.specs.Signature.{SignatureOf};

    ghost Value = { SignatureOf };

    ghost use Rattle.mau_signature.specs.Built.{declarations_in, IsBuilt};

    ghost view = { λ s. record { hierarchy = s.poset; names = s.names; declarations = map declarations_in s.entries.items; numerals = s.numerals } };

    ghost invariant = { λ s. IsBuilt s.poset s.names s.numerals s.entries.items };
}

impl Signature {
    /// The number of operators.
    pub fn operators(&self) -> u32
        ensures value { result ≡ length self.now.declarations }
        ensures limit { result ≤ MAX_DECLARATIONS }
        ensures signature { IsSignature self.now }
        ensures lawful { IsLawful (terms_over self.now) }
    {
        self.entries.len() as u32
    }

    /// The declarations of an operator in order, each with the united attributes.
    pub fn declarations(&self, op: OpId) -> &[Decl]
        requires { IsOperator self.now op.0 }
        ensures value { result.now ≡ declarations_at self.now op.0 }
        ensures some { result.now ≢ [] }
        ensures alike { All (IsAlike self.now.hierarchy result.now) result.now }
        ensures arity { All (λ d. length d.args ≤ MAX_ARITY) result.now }
        ensures sorts { All (HasSorts self.now.hierarchy) result.now }
    {
        &self.entries[op.0 as usize - 1].decls
    }

    /// The form of an operator.
    pub fn form(&self, op: OpId) -> &Form
        requires { IsOperator self.now op.0 }
        ensures value { result.now ≡ form_of (declarations_at self.now op.0) }
    {
        match self.entries[op.0 as usize - 1].decls.first() {
            Some(decl) => &decl.form,
            None => unreachable!(),
        }
    }

    /// The operator that a declaration over these sorts is one of, if it is one of this signature's.
    pub fn operator(&self, alloc: Global, decl: &Decl) -> Result<Option<OpId>, NoMemory>
        requires { HasSorts self.now.hierarchy decl.now }
        ensures number { IfOk result (λ op. op ≡ number_of self.now.names (operator_of self.now.hierarchy decl.now)) }
        ensures within { IfOk result (λ op. IfSome op (λ o. IsOperator self.now o.0)) }
    {
        let key = Key::of(alloc, &self.poset, decl)?;
        match self.names.place(&key) {
            Some(place) => Ok(Some(OpId(place as u32 + 1))),
            None => Ok(None),
        }
    }

    /// The axioms of an operator.
    pub fn theory(&self, op: OpId) -> &Theory
        requires { IsOperator self.now op.0 }
        ensures value { result.now ≡ theory_at self.now op.0 }
        ensures lawful { IsLawful (terms_over self.now) }
    {
        &self.entries[op.0 as usize - 1].theory
    }

    /// The arguments that are evaluated, counted from 1 and in their order, and a last 0. Where no declaration gives a
    /// strategy, these are all arguments from left to right.
    pub fn strat(&self, op: OpId) -> &[u8]
        requires { IsOperator self.now op.0 }
        ensures value { result.now ≡ strategy_of (declarations_at self.now op.0) }
    {
        &self.entries[op.0 as usize - 1].strategy
    }

    /// Whether an argument, counted from 1, is frozen.
    pub fn frozen(&self, op: OpId, argument: u8) -> bool
        requires { IsOperator self.now op.0 }
        ensures value { result ≡ is_given_number (attributes_of (declarations_at self.now op.0)).frozen argument }
    {
        match self.entries[op.0 as usize - 1].decls.first() {
            Some(decl) => match &decl.attrs.frozen {
                Some(numbers) => numbers.items().contains(&argument),
                None => false,
            },
            None => unreachable!(),
        }
    }

    /// The sorts and kinds.
    pub fn poset(&self) -> &Poset
        ensures value { result.now ≡ self.now.hierarchy }
    {
        &self.poset
    }

    /// The sort of 0 and the sort of all other numerals, if there are numerals. Both are in one kind.
    pub fn numerals(&self) -> Option<(u32, u32)>
        ensures value { result ≡ self.now.numerals }
        ensures zero { IfSome result (λ p. IsSort self.now.hierarchy p.0) }
        ensures others { IfSome result (λ p. IsSort self.now.hierarchy p.1) }
        ensures kinds { IfSome result (λ p. kind_of self.now.hierarchy p.0 ≡ kind_of self.now.hierarchy p.1) }
    {
        self.numerals
    }

    /// The signature of some declarations, over sorts and kinds in their order. `numerals` are the sort of 0 and the sort of
    /// all other numerals.
    ///
    /// A fault names the first declaration at fault, counted from 0.
    pub fn build(
        alloc: Global,
        poset: Poset,
        decls: Vec<Decl>,
        numerals: Option<(u32, u32)>,
    ) -> Result<Signature, SigFault>
        requires few { length decls.items ≤ MAX_DECLARATIONS }
        requires sorts { All (HasSorts poset) decls.items }
        requires numerals { AreNumerals poset decls.items numerals }
        ensures ok { IfOk result (λ s. s ≡ signature_of poset decls.items numerals) }
        ensures lawful { IfOk result (λ s. IsLawful (terms_over s)) }
        ensures faultless { OnOk result (IsFaultless (given poset decls.items numerals) decls.items) }
        ensures arity { IfErr result (IfArity (IsFirstAtFault (given poset decls.items numerals) HasWrongArity)) }
        ensures kind_mismatch { IfErr result (IfKindMismatch (IsFirstAtFault (given poset decls.items numerals) (MismatchesKind (given poset decls.items numerals)))) }
        ensures attr_conflict { IfErr result (IfAttrConflict (IsFirstAtFault (given poset decls.items numerals) (Conflicts (given poset decls.items numerals)))) }
        ensures bad_strat { IfErr result (IfBadStrat (IsFirstAtFault (given poset decls.items numerals) (HasBadStrategy (given poset decls.items numerals)))) }
        ensures id_not_constant { IfErr result (IfIdNotConstant (IsFirstAtFault (given poset decls.items numerals) (LacksIdentity (given poset decls.items numerals)))) }
    {
        Signature::assemble(alloc, poset, decls, numerals)
    }

    // The signature of some declarations, or the first fault of the first one at fault.
    fn assemble(
        alloc: Global,
        poset: Poset,
        decls: Vec<Decl>,
        numerals: Option<(u32, u32)>,
    ) -> Result<Signature, SigFault>
        requires few { length decls.items ≤ MAX_DECLARATIONS }
        requires sorts { All (HasSorts poset) decls.items }
        requires numerals { AreNumerals poset decls.items numerals }
        ensures ok { IfOk result (λ s. s ≡ signature_of poset decls.items numerals) }
        ensures lawful { IfOk result (λ s. IsLawful (terms_over s)) }
        ensures faultless { OnOk result (IsFaultless (given poset decls.items numerals) decls.items) }
        ensures fault { IfErr result (λ fault. (fault ≡ SigFault.NoMemory) ⊎ IsFirstFault (given poset decls.items numerals) fault) }
    {
        let names = name_all(alloc, &poset, &decls)?;
        let groups = group_all(alloc, &poset, &names, numerals, decls)?;
        let entries = enter_all(alloc, &poset, &names, groups)?;
        Ok(Signature {
            poset,
            names,
            entries,
            numerals,
        })
    }
}
