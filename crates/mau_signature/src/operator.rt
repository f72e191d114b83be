//! One operator of a signature.
ghost use Rattle.std.specs.Prelude.{◌≡◌, ◌≢◌, ◌+◌, ◌≤◌, ◌++◌, ◌∷◌, [], length, All, IfOk};
ghost use Rattle.mau_poset.specs.Order.{kind_of};
ghost use Rattle.mau_signature.specs.Attributes.{strategy_or_all, numbers_to};
ghost use Rattle.mau_signature.specs.Faults.{HasSorts, is_text};
ghost use Rattle.mau_signature.specs.Built.{IsWithinNumerals};
ghost use Rattle.mau_signature.specs.Signature.{theory_of, strategy_of, identity_in};

use crate::names::{Key, Names};
use crate::{Decl, IdSpec, MAX_DECLARATIONS};
use mau_poset::Poset;
use mau_terms::{Identity, NoMemory, OpId, Seq, Text, Theory};
use std::alloc::Global;

/// An operator: its declarations with the united attributes, its axioms and its strategy.
#[derive(Drop)]
pub struct Entry {
    pub decls: Vec<Decl>,
    pub theory: Theory,
    pub strategy: Vec<u8>,
}

// Whether the text is `wanted`.
fn is_text(text: &Option<Text>, wanted: &str) -> bool
    ensures { result ≡ is_text text.now wanted.now }
{
    match text {
        Some(text) => text.as_str() == wanted,
        None => false,
    }
}

// The identity in a kind, if one is given.
fn identity_in(
    alloc: Global,
    names: &Names,
    kind: u32,
    id: &Option<IdSpec>,
) -> Result<Option<Identity>, NoMemory>
    requires { length names.now ≤ MAX_DECLARATIONS }
    ensures value { IfOk result (λ i. i ≡ identity_in names.now kind id.now) }
    ensures numeral { IfOk result IsWithinNumerals }
{
    match id {
        Some(IdSpec::Const(form)) => {
            let key = Key::constant(alloc, form, kind)?;
            match names.place(&key) {
                Some(place) => Ok(Some(Identity::Const(OpId(place as u32 + 1)))),
                None => Ok(None),
            }
        }
        Some(IdSpec::Num(n)) => Ok(Some(Identity::Num(*n))),
        None => Ok(None),
    }
}

/// The axioms of an operator by its declarations.
pub fn theory_of(
    alloc: Global,
    poset: &Poset,
    names: &Names,
    decls: &[Decl],
) -> Result<Theory, NoMemory>
    requires few { length names.now ≤ MAX_DECLARATIONS }
    requires sorts { All (HasSorts poset.now) decls.now }
    requires some { decls.now ≢ [] }
    ensures value { IfOk result (λ theory. theory ≡ theory_of poset.now names.now decls.now) }
    ensures numeral { IfOk result (λ theory. IsWithinNumerals theory.id) }
{
    match decls.first() {
        Some(decl) => Ok(Theory {
            assoc: decl.attrs.assoc,
            comm: decl.attrs.comm,
            id: identity_in(alloc, names, poset.kind_of(decl.result), &decl.attrs.id)?,
            succ: is_text(&decl.attrs.builtin, "succ"),
        }),
        None => unreachable!(),
    }
}

// The strategy that is given, or all of n arguments from left to right, and then 0.
fn strategy_or_all(alloc: Global, n: usize, strat: &Option<Seq<u8>>) -> Result<Vec<u8>, NoMemory>
    requires { n ≤ 16 }
    ensures { IfOk result (λ strategy. strategy.items ≡ strategy_or_all n strat.now) }
{
    match strat {
        Some(numbers) => Ok(Vec::from_slice(alloc, numbers.items())?),
        None => all_arguments(alloc, n),
    }
}

// All of n arguments from left to right, and then 0.
fn all_arguments(alloc: Global, n: usize) -> Result<Vec<u8>, NoMemory>
    requires { n ≤ 16 }
    ensures { IfOk result (λ strategy. strategy.items ≡ numbers_to n ++ 0 ∷ []) }
{
    let mut strategy = Vec::with_capacity(alloc, n + 1)?;
    for i in 0..n {
        strategy.push(i as u8 + 1)?;
    }
    strategy.push(0)?;
    Ok(strategy)
}

/// The strategy of an operator by its declarations.
pub fn strategy_of(alloc: Global, decls: &[Decl]) -> Result<Vec<u8>, NoMemory>
    requires some { decls.now ≢ [] }
    requires arity { All (λ d. length d.args ≤ 16) decls.now }
    ensures { IfOk result (λ strategy. strategy.items ≡ strategy_of decls.now) }
{
    match decls.first() {
        Some(decl) => strategy_or_all(alloc, decl.args.items().len(), &decl.attrs.strat),
        None => unreachable!(),
    }
}
