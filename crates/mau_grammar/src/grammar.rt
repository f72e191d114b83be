//! The grammar of a signature.
ghost use Rattle.std.specs.Prelude.{◌≡◌, ◌<◌, ◌+◌, ◌^◌, ◌++◌, ◌∷◌, [], All, OnOk, IfOk, map, length};
ghost use Rattle.mau_poset.specs.Order.{kind_of, kinds};
ghost use Rattle.std.specs.Option.{option_map};
ghost use Rattle.mau_grammar.specs.Names.{AreDistinct};
ghost use Rattle.mau_signature.specs.Attributes.{has_number};
ghost use Rattle.mau_grammar.specs.Production.{IsShaped};
ghost use Rattle.mau_grammar.specs.Productions.{of_kinds, of_operators};
ghost use Rattle.mau_grammar.specs.Grammar.{grammar_of, successors_to};
ghost use Rattle.mau_grammar.specs.Index.{keyed, wordless};

use crate::aliases::{Alias, Variable, variables_of};
use crate::index::Index;
use crate::operators::push_operators;
use crate::parts::push_arguments;
use crate::production::{Part, Production};
use crate::sorts::{SortName, sort_names};
use mau_poset::Poset;
use mau_signature::Signature;
use mau_terms::{NoMemory, OpId, Seq, Text};
use std::alloc::Global;
use std::marker::Model;

/// How the terms of a signature are written: the productions, the sorts and declared variables by their names, and which
/// kinds, numerals and successors there are.
#[derive(Drop)]
pub struct Grammar {
    productions: Vec<Production>,
    index: Index,
    sorts: Vec<SortName>,
    aliases: Vec<Variable>,
    numerals: Option<u32>,
    successors: Vec<u32>,
    first_kind: u32,
    last_kind: u32,
}

impl Model for Grammar {
    ghost use Rattle.mau_grammar.specs.Grammar.{GrammarOf};

    ghost Value = { GrammarOf };

    ghost view = { λ g. record {
      productions = g.productions.items;
      sorts = g.sorts.items;
      aliases = g.aliases.items;
      numerals = g.numerals;
      successors = g.successors.items;
      first_kind = g.first_kind;
      last_kind = g.last_kind;
    } };

    ghost use Rattle.mau_grammar.specs.Grammar.{AreSound};
    ghost use Rattle.mau_grammar.specs.Index.{IsIndexOf};

    ghost invariant = { λ g. AreSound g.productions.items g.sorts.items × IsIndexOf g.productions.items g.index };
}

/// The level of a term in parentheses: every place admits it.
const ENCLOSED: u32 = 0;

/// `( t )` for a kind.
fn enclosed(alloc: Global, kind: u32) -> Result<Production, NoMemory>
    ensures { IfOk result (λ p. p ≡ Rattle.mau_grammar.specs.Productions.enclosed kind) }
{
    let mut parts = Vec::new(alloc);
    push_arguments(alloc, &mut parts, &[kind])?;
    Ok(Production {
        kind,
        level: ENCLOSED,
        op: None,
        parts: Seq::new(parts),
    })
}

/// `( t ) .S` for a sort.
fn sorted(alloc: Global, sort: &SortName) -> Result<Production, NoMemory>
    ensures { IfOk result (λ p. p ≡ Rattle.mau_grammar.specs.Productions.sorted sort.now) }
{
    let mut parts = Vec::new(alloc);
    push_arguments(alloc, &mut parts, &[sort.kind])?;
    let mut mark = String::from_str(alloc, ".")?;
    mark.push_str(sort.name.as_str())?;
    parts.push(Part::word(alloc, mark.as_str())?)?;
    Ok(Production {
        kind: sort.kind,
        level: ENCLOSED,
        op: None,
        parts: Seq::new(parts),
    })
}

/// Puts the parentheses of all kinds behind other productions.
fn push_kinds(alloc: Global, out: &mut Vec<Production>, poset: &Poset) -> Result<(), NoMemory>
    ensures { OnOk result (out.new.items ≡ out.old.items ++ of_kinds poset.now (kinds poset.now)) }
{
    for i in 0..poset.kinds() {
        out.push(enclosed(alloc, poset.sorts() + i)?)?;
    }
    Ok(())
}

/// Puts the parentheses with sorts behind other productions.
fn push_sorts(alloc: Global, out: &mut Vec<Production>, sorts: &[SortName]) -> Result<(), NoMemory>
    ensures { OnOk result (out.new.items ≡ out.old.items ++ map Rattle.mau_grammar.specs.Productions.sorted sorts.now) }
{
    for sort in sorts {
        out.push(sorted(alloc, sort)?)?;
    }
    Ok(())
}

/// The operators that are the successor.
fn successors(alloc: Global, sig: &Signature) -> Result<Vec<u32>, NoMemory>
    ensures { IfOk result (λ ops. ops.items ≡ successors_to sig.now (length sig.now.declarations)) }
{
    let mut ops = Vec::new(alloc);
    for i in 0..sig.operators() {
        if sig.theory(OpId(i + 1)).succ {
            ops.push(i + 1)?;
        }
    }
    Ok(ops)
}

/// All productions, where these are the sorts.
fn productions(
    alloc: Global,
    sig: &Signature,
    sorts: &[SortName],
) -> Result<Vec<Production>, NoMemory>
    ensures { IfOk result (λ ps. ps.items ≡ of_operators sig.now (length sig.now.declarations) ++ (of_kinds sig.now.hierarchy (kinds sig.now.hierarchy) ++ map Rattle.mau_grammar.specs.Productions.sorted sorts.now)) }
{
    let mut productions = Vec::new(alloc);
    push_operators(alloc, &mut productions, sig)?;
    push_kinds(alloc, &mut productions, sig.poset())?;
    push_sorts(alloc, &mut productions, sorts)?;
    Ok(productions)
}

/// The kind of the numerals, if there are any.
fn numerals(sig: &Signature) -> Option<u32>
    ensures { result ≡ option_map (λ p. kind_of sig.now.hierarchy p.0) sig.now.numerals }
{
    match sig.numerals() {
        Some((zero, _)) => Some(sig.poset().kind_of(zero)),
        None => None,
    }
}

impl Grammar {
    /// The grammar of a signature, whose sorts have these names, in the order of their numbers, and in which these variables are
    /// declared.
    pub fn of(
        alloc: Global,
        sig: &Signature,
        sorts: &[Text],
        aliases: &[Alias],
    ) -> Result<Grammar, NoMemory>
        requires names { length sorts.now ≡ sig.now.hierarchy.sorts }
        requires distinct { AreDistinct sorts.now }
        ensures ok { IfOk result (λ g. g ≡ grammar_of sig.now sorts.now aliases.now) }
    {
        let sorts = sort_names(alloc, sig.poset(), sorts)?;
        let productions = productions(alloc, sig, &sorts)?;
        let index = Index::of(alloc, &productions)?;
        let aliases = variables_of(alloc, sig.poset(), aliases)?;
        let first_kind = sig.poset().sorts();
        Ok(Grammar {
            productions,
            index,
            sorts,
            aliases,
            numerals: numerals(sig),
            successors: successors(alloc, sig)?,
            first_kind,
            last_kind: first_kind + sig.poset().kinds(),
        })
    }

    /// The productions.
    pub fn productions(&self) -> &[Production]
        ensures value { result.now ≡ self.now.productions }
        ensures shaped { All IsShaped result.now }
    {
        &self.productions
    }

    /// The numbers of the productions that have this word for their key, which is one of their words, in order.
    pub fn keyed(&self, word: &str) -> &[usize]
        ensures value { result.now ≡ keyed self.now.productions word.now }
    {
        self.index.keyed(word)
    }

    /// The numbers of the productions that have no word, in order.
    pub fn wordless(&self) -> &[usize]
        ensures value { result.now ≡ wordless self.now.productions }
    {
        &self.index.wordless
    }

    /// The sorts by their numbers: their names and kinds.
    pub fn sorts(&self) -> &[SortName]
        ensures value { result.now ≡ self.now.sorts }
        ensures few { length result.now < 2 ^ 32 }
    {
        &self.sorts
    }

    /// The declared variables.
    pub fn aliases(&self) -> &[Variable]
        ensures value { result.now ≡ self.now.aliases }
    {
        &self.aliases
    }

    /// The kind of the numerals, if there are any.
    pub fn numerals(&self) -> Option<u32>
        ensures value { result ≡ self.now.numerals }
    {
        self.numerals
    }

    /// The first kind. The kinds are the numbers from it to before `last_kind`.
    pub fn first_kind(&self) -> u32
        ensures value { result ≡ self.now.first_kind }
    {
        self.first_kind
    }

    /// One more than the greatest kind.
    pub fn last_kind(&self) -> u32
        ensures value { result ≡ self.now.last_kind }
    {
        self.last_kind
    }

    /// Whether the operator is the successor of the numerals.
    pub fn is_successor(&self, op: OpId) -> bool
        ensures value { result ≡ has_number self.now.successors op.0 }
    {
        self.successors.contains(&op.0)
    }
}
