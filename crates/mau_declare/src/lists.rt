//! Reading subsort declarations: lists of sorts, each sort of a list below each sort of the next.
ghost use Rattle.std.specs.Prelude.{◌≡◌, ◌<◌, ◌≤◌, ◌++◌, length, map, IfOk, IfErr, OnOk, Ok, Err};
ghost use Rattle.mau_poset.specs.Order.{IsWithin};
ghost use Rattle.mau_poset.specs.declared.TheConstants.{MAX_SORTS};
ghost use Rattle.mau_declare.specs.Readings.{read_all};
ghost use Rattle.mau_declare.specs.Elements.{AreListsBelow, sort_step, list_step, no_lists, subsort_pairs};
ghost use Rattle.mau_declare.specs.Faults.{IfUnknownSort};

use crate::fault::ElementFault;
use crate::names::Names;
use crate::uses::read_sort_use;
use crate::words::Words;
use mau_modtext::TokenList;
use mau_terms::{NoMemory, Seq};
use mau_tokens::Token;
use std::alloc::Global;
use std::marker::Model;

/// The pairs so far, the list before, and the list that is read.
#[derive(Drop)]
struct Lists {
    pairs: Vec<(u32, u32)>,
    below: Vec<u32>,
    above: Vec<u32>,
}

impl Model for Lists {
    ghost use Rattle.mau_declare.specs.Elements.{Lists};

    ghost Value = { Lists };

    ghost view = { λ l. record { pairs = l.pairs.items; below = l.below.items; above = l.above.items } };
}

/// Adds the pair of each of some sorts and this one.
fn add_pairs(pairs: &mut Vec<(u32, u32)>, below: &[u32], sort: u32) -> Result<(), NoMemory>
    ensures { OnOk result (pairs.new.items ≡ pairs.old.items ++ map (λ b. (b, sort)) below.now) }
{
    for lower in below {
        pairs.push((*lower, sort))?;
    }
    Ok(())
}

impl Lists {
    ghost use Rattle.std.specs.Prelude.{◌≡◌, OnOk};
    ghost use Rattle.mau_declare.specs.Elements.{no_lists, with_sort, with_list};

    fn new(alloc: Global) -> Lists
        ensures { result ≡ no_lists }
    {
        Lists {
            pairs: Vec::new(alloc),
            below: Vec::new(alloc),
            above: Vec::new(alloc),
        }
    }

    /// A sort more in the last list: each sort of the list before is below it.
    fn add_sort(&mut self, sort: u32) -> Result<(), NoMemory>
        ensures { OnOk result (self.new ≡ with_sort self.old sort) }
    {
        add_pairs(&mut self.pairs, &self.below, sort)?;
        self.above.push(sort)?;
        Ok(())
    }

    /// A list more.
    fn add_list(&mut self)
        ensures { self.new ≡ with_list self.old }
    {
        std::mem::swap(&mut self.below, &mut self.above);
        self.above.clear();
    }

    /// Reads a sort of the last list.
    fn read_sort(
        &mut self,
        words: &Words,
        sorts: &Names,
        sort: &[Token],
    ) -> Result<(), ElementFault>
        requires { length sorts.now ≤ MAX_SORTS }
        ensures ok { OnOk result (sort_step words.now sorts.now self.old sort.now ≡ Ok self.new) }
        ensures unknown { IfErr result (λ e. IfUnknownSort e (λ i. sort_step words.now sorts.now self.old sort.now ≡ Err i)) }
        ensures below { OnOk result (AreListsBelow (length sorts.now) self.old → AreListsBelow (length sorts.now) self.new) }
    {
        match read_sort_use(words, sorts, sort) {
            Ok(used) => match self.add_sort(used.sort) {
                Ok(()) => Ok(()),
                Err(NoMemory) => Err(ElementFault::NoMemory),
            },
            Err(at) => Err(ElementFault::UnknownSort(at)),
        }
    }

    /// Reads a list more.
    fn read_list(
        &mut self,
        words: &Words,
        sorts: &Names,
        list: &[TokenList],
    ) -> Result<(), ElementFault>
        requires { length sorts.now ≤ MAX_SORTS }
        ensures ok { OnOk result (list_step words.now sorts.now self.old list.now ≡ Ok self.new) }
        ensures unknown { IfErr result (λ e. IfUnknownSort e (λ i. list_step words.now sorts.now self.old list.now ≡ Err i)) }
        ensures below { OnOk result (AreListsBelow (length sorts.now) self.old → AreListsBelow (length sorts.now) self.new) }
    {
        self.add_list();
        for sort in list {
            match self.read_sort(words, sorts, sort.items()) {
                Ok(()) => (),
                Err(fault) => return Err(fault),
            }
        }
        Ok(())
    }
}

/// Reads lists, one after another.
fn read_lists(
    alloc: Global,
    words: &Words,
    sorts: &Names,
    lists: &[Seq<TokenList>],
) -> Result<Lists, ElementFault>
    requires { length sorts.now ≤ MAX_SORTS }
    ensures below { IfOk result (AreListsBelow (length sorts.now)) }
    ensures ok { IfOk result (λ x. read_all (list_step words.now sorts.now) no_lists lists.now ≡ Ok x) }
    ensures unknown { IfErr result (λ e. IfUnknownSort e (λ i. read_all (list_step words.now sorts.now) no_lists lists.now ≡ Err i)) }
{
    let mut read = Lists::new(alloc);
    for list in lists {
        match read.read_list(words, sorts, list.items()) {
            Ok(()) => (),
            Err(fault) => return Err(fault),
        }
    }
    Ok(read)
}

/// The pairs of a declaration of subsorts.
pub fn read_subsorts(
    alloc: Global,
    words: &Words,
    sorts: &Names,
    lists: &[Seq<TokenList>],
) -> Result<Vec<(u32, u32)>, ElementFault>
    requires { length sorts.now ≤ MAX_SORTS }
    ensures ok { IfOk result (λ pairs. subsort_pairs words.now sorts.now lists.now ≡ Ok pairs.items) }
    ensures within { IfOk result (λ pairs. IsWithin pairs.items (length sorts.now)) }
    ensures unknown { IfErr result (λ e. IfUnknownSort e (λ j. subsort_pairs words.now sorts.now lists.now ≡ Err j)) }
{
    match read_lists(alloc, words, sorts, lists) {
        Ok(read) => Ok(read.pairs),
        Err(fault) => Err(fault),
    }
}
