//! What words are by themselves: leaves of a chart.
ghost use Rattle.std.specs.Prelude.{◌≡◌, ◌<◌, ◌≤◌, ◌+◌, ◌++◌, ◌∷◌, [], length, map, OnOk, IfOk, All};
ghost use Rattle.mau_grammar.specs.Leaves;
ghost use Rattle.mau_parse.specs.Charted.{AreLeavesOf};
ghost use Rattle.mau_parse.specs.Listed;
ghost use Rattle.mau_parse.specs.Listed.{IsKnown};
ghost use Rattle.mau_parse.specs.Readings.{seen, all_seen};
ghost use Rattle.mau_parse.specs.Terms.{added};
ghost use Rattle.mau_parse.specs.TooLarge.{AllSmall};

use crate::forms::word_number;
use crate::readings::{VariableReading, readings_at, readings_of};
use crate::words::Words;
use mau_chart::{Leaf, Said};
use mau_grammar::Grammar;
use mau_numerals::great_number;
use mau_terms::{NoMemory, Vars};
use std::alloc::Global;

/// One more than the greatest number of pairs that are held: with more, no memory is left.
const MAX_PAIRS: usize = 4294967294;

/// The pairs of name and sort of some variables, each once.
fn pairs_of(alloc: Global, readings: &[VariableReading<'_>]) -> Result<Vars, NoMemory>
    ensures ok { IfOk result (λ pairs. pairs ≡ added [] (map Leaves.pair_of (all_seen readings.now))) }
    ensures few { IfOk result (λ pairs. length pairs < 4294967295) }
{
    let mut pairs = Vars::new(alloc);
    for reading in readings {
        if pairs.len() >= MAX_PAIRS {
            return Err(NoMemory);
        }
        pairs.add(reading.name, reading.sort)?;
    }
    Ok(pairs)
}

/// The word at a place.
fn word_at(words: &Words, i: usize) -> Leaf
    requires within { i < length words.now }
    requires few { length words.now ≤ 1000 }
    ensures { result ≡ Listed.word_at words.now i }
{
    Leaf {
        kind: word_number(words, words.text(i)),
        level: 0,
        start: i,
        end: i + 1,
        said: Said::Word,
    }
}

/// Puts the numeral at a place behind other leaves, where the word is one and numerals have a kind.
fn push_numeral(
    out: &mut Vec<Leaf>,
    numerals: Option<u32>,
    words: &Words,
    i: usize,
) -> Result<(), NoMemory>
    requires within { i < length words.now }
    requires few { length words.now ≤ 1000 }
    requires small { AllSmall numerals words.now }
    ensures ok { OnOk result (out.new.items ≡ out.old.items ++ Listed.numerals_at numerals words.now i) }
{
    let Some(kind) = numerals else {
        return Ok(());
    };
    match great_number(words.text(i).as_bytes()) {
        None => Ok(()),
        Some(value) => {
            out.push(Leaf {
                kind: words.len() + 1 + kind as usize,
                level: 1,
                start: i,
                end: i + 1,
                said: Said::Num(value),
            })?;
            Ok(())
        }
    }
}

/// Puts a variable that begins at a place behind other leaves, by the place of its pair among those of the text.
fn push_variable(
    out: &mut Vec<Leaf>,
    pairs: &mut Vars,
    words: &Words,
    i: usize,
    reading: &VariableReading<'_>,
) -> Result<(), NoMemory>
    requires few { length words.now ≤ 1000 }
    requires room { length pairs.old < 4294967295 }
    requires known { IsKnown pairs.old (seen reading.now) }
    ensures ok { OnOk result (out.new.items ≡ out.old.items ++ Listed.variable_at words.now pairs.old i (seen reading.now) ∷ []) }
    ensures pairs { OnOk result (pairs.new ≡ pairs.old) }
{
    let variable = pairs.add(reading.name, reading.sort)?;
    out.push(Leaf {
        kind: words.len() + 1 + reading.kind as usize,
        level: 1,
        start: i,
        end: reading.end,
        said: Said::Var(variable),
    })?;
    Ok(())
}

/// Puts the variables that begin at a place behind other leaves.
fn push_variables(
    out: &mut Vec<Leaf>,
    pairs: &mut Vars,
    words: &Words,
    i: usize,
    readings: &[VariableReading<'_>],
) -> Result<(), NoMemory>
    requires few { length words.now ≤ 1000 }
    requires room { length pairs.old < 4294967295 }
    requires known { All (IsKnown pairs.old) (all_seen readings.now) }
    ensures ok { OnOk result (out.new.items ≡ out.old.items ++ map (Listed.variable_at words.now pairs.old i) (all_seen readings.now)) }
    ensures pairs { OnOk result (pairs.new ≡ pairs.old) }
{
    for reading in readings {
        push_variable(out, pairs, words, i, reading)?;
    }
    Ok(())
}

/// Puts what begins at a place behind other leaves.
fn push_leaves(
    alloc: Global,
    out: &mut Vec<Leaf>,
    pairs: &mut Vars,
    grammar: &Grammar,
    words: &Words,
    i: usize,
) -> Result<(), NoMemory>
    requires within { i < length words.now }
    requires few { length words.now ≤ 1000 }
    requires small { AllSmall grammar.now.numerals words.now }
    requires room { length pairs.old < 4294967295 }
    requires pairs { pairs.old ≡ Leaves.pairs_of grammar.now words.now }
    ensures ok { OnOk result (out.new.items ≡ out.old.items ++ Listed.leaves_at grammar.now words.now pairs.old i) }
    ensures pairs { OnOk result (pairs.new ≡ pairs.old) }
{
    out.push(word_at(words, i))?;
    push_numeral(out, grammar.numerals(), words, i)?;
    let found = readings_at(alloc, grammar, words, i)?;
    push_variables(out, pairs, words, i, &found)?;
    Ok(())
}

/// The leaves of words of which, where there are numerals, none is a numeral of 2^128 or more: each word, the numerals and the
/// variables. With them come the pairs of name and sort for which variables stand, each once.
pub fn leaves_of(
    alloc: Global,
    grammar: &Grammar,
    words: &Words,
) -> Result<(Vec<Leaf>, Vars), NoMemory>
    requires few { length words.now ≤ 1000 }
    requires small { AllSmall grammar.now.numerals words.now }
    ensures leaves { IfOk result (λ r. AreLeavesOf grammar.now words.now r.0.items) }
    ensures pairs { IfOk result (λ r. r.1 ≡ Leaves.pairs_of grammar.now words.now) }
{
    let readings = readings_of(alloc, grammar, words)?;
    let mut pairs = pairs_of(alloc, &readings)?;
    let mut leaves = Vec::new(alloc);
    for i in 0..words.len() {
        push_leaves(alloc, &mut leaves, &mut pairs, grammar, words, i)?;
    }
    Ok((leaves, pairs))
}
