//! The trees of some words.
ghost use Rattle.std.specs.Prelude.{◌≡◌, ◌≤◌, length, IfOk};
ghost use Rattle.mau_grammar.specs.Leaves;
ghost use Rattle.mau_parse.specs.Parses.{AreParses, IsSingle, AreSingle, IsNumberOf, AreNumbersOf};
ghost use Rattle.mau_parse.specs.TooLarge.{AllSmall};

use crate::forms::forms_of;
use crate::goals::{Goal, highest_kind, lowest_kind};
use crate::leaves::leaves_of;
use crate::words::Words;
use mau_chart::{Forest, Trees, read};
use mau_grammar::Grammar;
use mau_terms::{NoMemory, TermId, Vars};
use std::alloc::Global;

/// The trees of some words, by their numbers in a store: none, one alone, or two that differ.
#[derive(Clone, Copy)]
pub enum Parses {
    Nothing,
    One(TermId),
    Two(TermId, TermId),
}

/// The number of the one tree.
fn number_of(trees: &Trees, ids: &[TermId]) -> TermId
    requires { IsSingle trees.now ids.now }
    ensures { IsNumberOf trees.now ids.now result }
{
    let _ = trees;
    ids[0]
}

/// The numbers of the readings, each of which is one tree.
fn numbers_of(trees: &Trees, reading: &Forest) -> Parses
    requires { AreSingle trees.now reading.now }
    ensures { AreNumbersOf trees.now reading.now result }
{
    match reading {
        Forest::Nothing => Parses::Nothing,
        Forest::One(ids) => Parses::One(number_of(trees, ids)),
        Forest::Two(first, second) => {
            let one = number_of(trees, first);
            Parses::Two(one, number_of(trees, second))
        }
    }
}

/// The trees of the words in the kinds that are asked for, with the pairs of name and sort for which variables stand there.
pub fn find(
    alloc: Global,
    grammar: &Grammar,
    words: &Words,
    goal: Goal,
) -> Result<(Trees, Vars, Parses), NoMemory>
    requires few { length words.now ≤ 1000 }
    requires small { AllSmall grammar.now.numerals words.now }
    ensures pairs { IfOk result (λ r. r.1 ≡ Leaves.pairs_of grammar.now words.now) }
    ensures found { IfOk result (λ r. AreParses grammar.now words.now goal r.0 r.2) }
{
    let (leaves, pairs) = leaves_of(alloc, grammar, words)?;
    let forms = forms_of(alloc, words, grammar)?;
    let before = words.len() + 1;
    let low = before + lowest_kind(grammar, goal);
    let high = before + highest_kind(grammar, goal);
    let (trees, reading) = read(alloc, &forms, &leaves, words.len(), low, high)?;
    let found = numbers_of(&trees, &reading);
    Ok((trees, pairs, found))
}
