//! The order of sorts, and the signature of declarations.
ghost use Rattle.std.specs.Prelude.{◌≡◌, ◌<◌, ◌≤◌, ℕ, length, All, true, false, None, Some, Ok, Err, IfSome, IfOk, IfErr, OnOk};
ghost use Rattle.mau_poset.specs.Order.{IsPoset, IsWithin};
ghost use Rattle.mau_poset.specs.declared.TheConstants.{MAX_SORTS};
ghost use Rattle.mau_signature.specs.declared.TheConstants.{MAX_DECLARATIONS};
ghost use Rattle.mau_signature.specs.Faults.{HasSorts, AreNumerals, IsFaultless, given};
ghost use Rattle.mau_signature.specs.Signature.{signature_of};
ghost use Rattle.mau_sigcheck.specs.Accepted.{IsAccepted, IsWithinLimit};
ghost use Rattle.mau_declare.specs.Flattened.{AreLower};
ghost use Rattle.mau_signing.specs.Signed.{comes_first, stands_before, declaration_text, SignatureRead};
ghost use Rattle.mau_signing.specs.Refusals.{IfRefused, IsCycleRefusal, IsDeclarationRefusal, IsOperatorRefusal};

use crate::fault::SignFault;
use crate::refusal::{cycle_text, declaration_text, operator_fault_text};
use mau_declare::Names;
use mau_poset::{Poset, PosetFault};
use mau_sigcheck::check;
use mau_signature::{Decl, SigFault, Signature};
use mau_terms::{NoMemory, Seq};
use std::alloc::Global;

/// A fault with this text, if there was memory for the text.
fn with_text(text: Result<Vec<u8>, NoMemory>) -> SignFault
    ensures text { IfOk text (λ bytes. IfRefused result (λ refusal. refusal ≡ bytes.items)) }
    ensures memory { IfErr text (λ e. result ≡ SignFault.NoMemory) }
{
    match text {
        Ok(bytes) => SignFault::Refused(Seq::new(bytes)),
        Err(NoMemory) => SignFault::NoMemory,
    }
}

/// The order of sorts with these names.
pub fn order_sorts(alloc: Global, names: &Names, pairs: &[(u32, u32)]) -> Result<Poset, SignFault>
    requires few { length names.now ≤ MAX_SORTS }
    requires within { IsWithin pairs.now (length names.now) }
    ensures ok { IfOk result (λ poset. poset ≡ record { sorts = length names.now; pairs = pairs.now }) }
    ensures poset { IfOk result IsPoset }
    ensures cycle { IfErr result (λ fault. IfRefused fault (IsCycleRefusal names.now pairs.now)) }
{
    match Poset::build(alloc, names.len() as u32, pairs) {
        Ok(poset) => Ok(poset),
        Err(PosetFault::Cycle(a, b)) => Err(with_text(cycle_text(alloc, names, a, b))),
        Err(PosetFault::NoMemory) => Err(SignFault::NoMemory),
    }
}

/// Whether a fault comes before two values of one attribute in the list of the declaration `conflict`; want of memory does.
fn stands_before(conflict: usize, fault: SigFault) -> bool
    ensures { result ≡ stands_before conflict fault }
{
    match fault {
        SigFault::Arity(i) | SigFault::KindMismatch(i) | SigFault::AttrConflict(i) => {
            i as usize <= conflict
        }
        SigFault::BadStrat(i) | SigFault::IdNotConstant(i) => (i as usize) < conflict,
        SigFault::NoMemory => true,
    }
}

/// The fault that is told: this one of the declarations, or two values of one attribute in the list of the declaration `conflict`.
fn told(conflict: Option<usize>, fault: SigFault) -> SigFault
    requires { IfSome conflict (λ c. c < 4294967296) }
    ensures first { comes_first conflict fault ≡ true → result ≡ fault }
    ensures conflict { comes_first conflict fault ≡ false → (c : ℕ) × (conflict ≡ Some c) × (result ≡ SigFault.AttrConflict c) }
{
    match conflict {
        Some(declaration) => if stands_before(declaration, fault) {
            fault
        } else {
            SigFault::AttrConflict(declaration as u32)
        },
        None => fault,
    }
}

/// The fault of one of these declarations, with its text.
fn declaration_fault(alloc: Global, decls: &[Decl], fault: SigFault) -> SignFault
    ensures text { IfRefused result (λ text. text ≡ declaration_text decls.now fault) }
    ensures memory { fault ≡ SigFault.NoMemory → result ≡ SignFault.NoMemory }
{
    match fault {
        SigFault::NoMemory => SignFault::NoMemory,
        fault => with_text(declaration_text(alloc, decls, fault)),
    }
}

/// The signature of declarations, of which the one with the number `conflict`, if there is one, is the first that gives an attribute two
/// values. `named` are the same declarations, for the text of a refusal.
fn build_signature(
    alloc: Global,
    poset: Poset,
    decls: Vec<Decl>,
    named: &[Decl],
    numerals: Option<(u32, u32)>,
    conflict: Option<usize>,
) -> Result<Signature, SignFault>
    requires few { length decls.items ≤ MAX_DECLARATIONS }
    requires sorts { All (HasSorts poset) decls.items }
    requires numerals { AreNumerals poset decls.items numerals }
    requires named { named.now ≡ decls.items }
    requires conflict { IfSome conflict (λ c. c < 4294967296) }
    ensures ok { IfOk result (λ s. s ≡ signature_of poset named.now numerals) }
    ensures faultless { OnOk result (IsFaultless (given poset named.now numerals) named.now) }
    ensures no_conflict { OnOk result (conflict ≡ None) }
    ensures at_fault { IfErr result (λ fault. IfRefused fault (IsDeclarationRefusal (given poset named.now numerals) conflict)) }
{
    match Signature::build(alloc, poset, decls, numerals) {
        Ok(signature) => match conflict {
            None => Ok(signature),
            Some(declaration) => Err(declaration_fault(
                alloc,
                named,
                SigFault::AttrConflict(declaration as u32),
            )),
        },
        Err(fault) => Err(declaration_fault(alloc, named, told(conflict, fault))),
    }
}

/// Whether a signature is accepted, over the names of its sorts.
fn accept_signature(
    alloc: Global,
    names: &Names,
    signature: &Signature,
    lower: &[bool],
) -> Result<(), SignFault>
    requires { AreLower signature.now.hierarchy.sorts signature.now.hierarchy.pairs lower.now }
    ensures ok { OnOk result (IsAccepted signature.now) }
    ensures few { OnOk result (IsWithinLimit signature.now) }
    ensures at_fault { IfErr result (λ fault. IfRefused fault (IsOperatorRefusal names.now signature.now)) }
{
    match check(alloc, signature) {
        Ok(()) => Ok(()),
        Err(fault) => Err(with_text(operator_fault_text(alloc, names, signature, lower, &fault))),
    }
}

/// The signature of these declarations over the order of sorts with these names and pairs.
pub fn sign(
    alloc: Global,
    names: &Names,
    lower: &[bool],
    poset: Poset,
    decls: Vec<Decl>,
    named: &[Decl],
    numerals: Option<(u32, u32)>,
    conflict: Option<usize>,
) -> Result<Signature, SignFault>
    requires poset { IsPoset poset }
    requires lower { AreLower poset.sorts poset.pairs lower.now }
    requires few { length decls.items ≤ MAX_DECLARATIONS }
    requires sorts { All (HasSorts poset) decls.items }
    requires numerals { AreNumerals poset decls.items numerals }
    requires named { named.now ≡ decls.items }
    requires conflict { IfSome conflict (λ c. c < 4294967296) }
    ensures ok { IfOk result (λ s. SignatureRead names.now (given poset named.now numerals) conflict (Ok s)) }
    ensures hierarchy { IfOk result (λ s. s.hierarchy ≡ poset) }
    ensures refused { IfErr result (λ fault. IfRefused fault (λ text. SignatureRead names.now (given poset named.now numerals) conflict (Err text))) }
{
    let signature = match build_signature(alloc, poset, decls, named, numerals, conflict) {
        Ok(signature) => signature,
        Err(fault) => return Err(fault),
    };
    match accept_signature(alloc, names, &signature, lower) {
        Ok(()) => Ok(signature),
        Err(fault) => Err(fault),
    }
}
