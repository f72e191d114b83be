//! The signature of a module over what it includes.
ghost use Rattle.std.specs.Prelude.{◌≡◌, ◌<◌, ◌≤◌, ◌+◌, ◌++◌, ◌∷◌, [], length, true, All, Ok, Err, IfSome, IfOk, IfErr};
ghost use Rattle.mau_poset.specs.Order.{IsPoset, IsWithin};
ghost use Rattle.mau_poset.specs.declared.TheConstants.{MAX_SORTS};
ghost use Rattle.mau_signature.specs.Faults.{HasSorts, AreNumerals};
ghost use Rattle.mau_signature.specs.declared.TheConstants.{MAX_DECLARATIONS};
ghost use Rattle.mau_declare.specs.Flattened.{AreLower};
ghost use Rattle.mau_signing.specs.Signed.{SignatureRead};
ghost use Rattle.mau_module.specs.Faults.{IfSigned};
ghost use Rattle.mau_declare.specs.Elements.{AreOver};
ghost use Rattle.mau_declare.specs.Flattened.{declared_forms};
ghost use Rattle.mau_module.specs.Library.{HasPrelude, nat};
ghost use Rattle.mau_module.specs.Included.{has_part, numeral_kind};
ghost use Rattle.mau_module.specs.Known.{AreKnown};
ghost use Rattle.mau_module.specs.Made.{IsClosed};
ghost use Rattle.mau_module.specs.Ready.{AreNotBuiltIn};
ghost use Rattle.mau_module.specs.Framed.{included_declarations};
ghost use Rattle.mau_module.specs.Declarations.{all_declarations, given_over};
ghost use Rattle.mau_module.specs.Flattened.{hierarchy_in, own_in, given_in, conflict_in};

use crate::declarations::{add_copies, all_declarations, has_part, pairs_of};
use crate::fault::ModuleFault;
use crate::frame::Frame;
use crate::library::{Library, NAT};
use crate::limits::included_declarations;
use crate::numbering::number_in;
use mau_declare::{Elements, Names, add_declarations, first_conflict, lower_sorts};
use mau_poset::Poset;
use mau_signature::{Decl, Signature};
use mau_signing::{SignFault, order_sorts, sign};
use mau_terms::NoMemory;
use std::alloc::Global;

/// A signature, with a flag for each lower sort, and what the module itself declares.
#[derive(Drop)]
pub struct Signed {
    pub signature: Signature,
    pub lower: Vec<bool>,
    pub own: Vec<Decl>,
}

/// The fault of sorts, declarations or operators, as one of a module.
pub fn fault_of(fault: SignFault) -> ModuleFault
    ensures { result ≡ Rattle.mau_module.specs.Faults.fault_of fault }
{
    match fault {
        SignFault::Refused(text) => ModuleFault::Signed(text),
        SignFault::NoMemory => ModuleFault::NoMemory,
    }
}

/// Want of memory, where a fault can be nothing else.
pub fn only_memory(_fault: ModuleFault) -> NoMemory
    requires { _fault ≡ ModuleFault.NoMemory }
{
    NoMemory
}

/// The sort of 0 and that of all other numerals, if the module of numbers is among the parts.
fn numerals_of(library: &Library, names: &Names, parts: &[usize]) -> Option<(u32, u32)>
    requires few { length names.now ≤ MAX_SORTS }
    requires some { has_part (parts.now ++ length library.now ∷ []) nat ≡ true → 0 < length names.now }
    ensures value { result ≡ Rattle.mau_module.specs.Included.numerals_of names.now (parts.now ++ length library.now ∷ []) }
    ensures there { IfSome result (λ p. (p.0 < length names.now) × (p.1 < length names.now)) }
{
    if !has_part(library, parts, NAT) {
        return None;
    }
    Some((number_in(names, "Zero"), number_in(names, "NzNat")))
}

/// The subsort pairs of a module: those of its parts, and its own.
fn pairs_in(
    alloc: Global,
    library: &Library,
    frame: &Frame,
    elements: &Elements,
) -> Result<Vec<(u32, u32)>, NoMemory>
    requires few { length frame.now.names ≤ MAX_SORTS }
    requires parts { All (λ p. p < length library.now) frame.now.parts }
    requires known { AreKnown library.now frame.now.names frame.now.parts }
    requires over { AreOver (length frame.now.names) elements.now }
    ensures pairs { IfOk result (λ pairs. pairs.items ≡ (hierarchy_in library.now frame.now elements.now).pairs) }
    ensures within { IfOk result (λ pairs. IsWithin pairs.items (length frame.now.names)) }
{
    let mut pairs = pairs_of(alloc, library, &frame.names, &frame.parts)?;
    pairs.extend_from_slice(&elements.pairs)?;
    Ok(pairs)
}

/// The kind of the numerals.
fn numeral_kind(poset: &Poset, numerals: Option<(u32, u32)>) -> Option<u32>
    requires { IfSome numerals (λ p. (p.0 < poset.now.sorts) × (p.1 < poset.now.sorts)) }
    ensures { result ≡ numeral_kind poset.now numerals }
{
    match numerals {
        Some((zero, _)) => Some(poset.kind_of(zero)),
        None => None,
    }
}

/// The number, among all declarations, of the first one that gives an attribute two values.
fn conflict_in(library: &Library, frame: &Frame, elements: &Elements) -> Option<usize>
    requires parts { All (λ p. p < length library.now) frame.now.parts }
    requires count { included_declarations library.now frame.now.parts + length (declared_forms elements.now.operators) ≤ 1000000 }
    ensures value { result ≡ conflict_in library.now frame.now elements.now }
    ensures small { IfSome result (λ c. c ≤ 1000000) }
{
    match first_conflict(&elements.operators) {
        Some(number) => {
            Some(included_declarations(library, &frame.parts).saturating_add(number))
        }
        None => None,
    }
}

/// The signature of all declarations of a module that includes these parts and has its own declarations, over the order of its sorts.
pub fn sign_declarations(
    alloc: Global,
    library: &Library,
    names: &Names,
    parts: &[usize],
    lower: &[bool],
    poset: Poset,
    own: &[Decl],
    conflict: Option<usize>,
) -> Result<Signature, ModuleFault>
    requires few { length names.now ≤ MAX_SORTS }
    requires parts { All (λ p. p < length library.now) parts.now }
    requires known { AreKnown library.now names.now parts.now }
    requires named { length names.now ≡ poset.sorts }
    requires poset { IsPoset poset }
    requires lower { AreLower poset.sorts poset.pairs lower.now }
    requires sorts { All (HasSorts poset) own.now }
    requires conflict { IfSome conflict (λ c. c < 4294967296) }
    requires short { length (all_declarations library.now parts.now names.now poset own.now) ≤ MAX_DECLARATIONS }
    requires numerals { AreNumerals poset (all_declarations library.now parts.now names.now poset own.now)
        (Rattle.mau_module.specs.Included.numerals_of names.now (parts.now ++ length library.now ∷ [])) }
    ensures ok { IfOk result (λ s. SignatureRead names.now (given_over library.now parts.now names.now poset own.now) conflict (Ok s)) }
    ensures hierarchy { IfOk result (λ s. s.hierarchy ≡ poset) }
    ensures refused { IfErr result (λ fault. IfSigned fault (λ text. SignatureRead names.now (given_over library.now parts.now names.now poset own.now) conflict (Err text))) }
{
    let numerals = numerals_of(library, names, parts);
    let named = all_declarations(alloc, library, names, &poset, parts, own)?;
    let mut decls = Vec::new(alloc);
    add_copies(alloc, &mut decls, &named)?;
    match sign(
        alloc, names, lower, poset, decls, &named, numerals, conflict,
    ) {
        Ok(signature) => Ok(signature),
        Err(fault) => Err(fault_of(fault)),
    }
}

/// The signature of a module over what it includes.
pub fn sign_over(
    alloc: Global,
    library: &Library,
    frame: &Frame,
    elements: &Elements,
) -> Result<Signed, ModuleFault>
    requires prelude { HasPrelude library.now }
    requires few { length frame.now.names ≤ MAX_SORTS }
    requires parts { All (λ p. p < length library.now) frame.now.parts }
    requires known { AreKnown library.now frame.now.names frame.now.parts }
    requires closed { IsClosed library.now frame.now.names frame.now.parts }
    requires over { AreOver (length frame.now.names) elements.now }
    requires plain { AreNotBuiltIn (own_in library.now frame.now elements.now) }
    requires count { included_declarations library.now frame.now.parts + length (declared_forms elements.now.operators) ≤ 1000000 }
    ensures ok { IfOk result (λ signed. SignatureRead frame.now.names (given_in library.now frame.now elements.now) (conflict_in library.now frame.now elements.now) (Ok signed.signature)) }
    ensures hierarchy { IfOk result (λ signed. signed.signature.hierarchy ≡ hierarchy_in library.now frame.now elements.now) }
    ensures lower { IfOk result (λ signed. AreLower (length frame.now.names) (hierarchy_in library.now frame.now elements.now).pairs signed.lower.items) }
    ensures own { IfOk result (λ signed. signed.own.items ≡ own_in library.now frame.now elements.now) }
    ensures sorts { IfOk result (λ signed. All (HasSorts (hierarchy_in library.now frame.now elements.now)) signed.own.items) }
    ensures refused { IfErr result (λ fault. IfSigned fault (λ text. SignatureRead frame.now.names (given_in library.now frame.now elements.now) (conflict_in library.now frame.now elements.now) (Err text))) }
{
    // What is known of every library is needed below, and this call tells it.
    let _modules = library.len();
    let pairs = pairs_in(alloc, library, frame, elements)?;
    let lower = lower_sorts(alloc, frame.names.len() as u32, &pairs)?;
    let poset = match order_sorts(alloc, &frame.names, &pairs) {
        Ok(poset) => poset,
        Err(fault) => return Err(fault_of(fault)),
    };
    let numerals = numerals_of(library, &frame.names, &frame.parts);
    let mut own = Vec::new(alloc);
    add_declarations(
        alloc,
        &poset,
        numeral_kind(&poset, numerals),
        elements,
        &mut own,
    )?;
    let conflict = conflict_in(library, frame, elements);
    match sign_declarations(
        alloc,
        library,
        &frame.names,
        &frame.parts,
        &lower,
        poset,
        &own,
        conflict,
    ) {
        Ok(signature) => Ok(Signed {
            signature,
            lower,
            own,
        }),
        Err(fault) => Err(fault),
    }
}
