//! The terms of trees, with the variables of an item.
ghost use Rattle.std.specs.Prelude.{◌≡◌, ◌<◌, ◌≤◌, ◌+◌, false, length, IfOk, IfErr, OnErr};
ghost use Rattle.mau_chart.specs.Nodes.{tree_at};
ghost use Rattle.mau_parse.specs.Overflow;
ghost use Rattle.mau_parse.specs.Results.{IsLargeSuccessor};
ghost use Rattle.mau_parse.specs.Terms.{pairs_in, AreGiven, IsTermOf, AreTermsOf};

use crate::fault::ParseFault;
use crate::overflow::overflows;
use crate::terms::term_of;
use mau_chart::Trees;
use mau_grammar::Grammar;
use mau_terms::{Bare, NoMemory, TermId, Vars};
use std::alloc::Global;

/// The same variables.
fn copy_of(alloc: Global, vars: &Vars) -> Result<Vars, NoMemory>
    requires { length vars.now < 4294967295 }
    ensures { IfOk result (λ copy. copy ≡ vars.now) }
{
    let mut copy = Vars::new(alloc);
    for i in 0..vars.len() {
        let v = vars.variable(i as u32).unwrap();
        let (name, sort) = vars.get(v).unwrap();
        copy.add(name, sort)?;
    }
    Ok(copy)
}

/// The term of a tree, whose variables are added to those of the item; or else that it has the successor over the greatest numeral.
pub fn one_term(
    alloc: Global,
    grammar: &Grammar,
    trees: &Trees,
    id: TermId,
    pairs: &Vars,
    vars: &mut Vars,
    at: u32,
) -> Result<Bare, ParseFault>
    requires there { id.0 < length trees.now }
    requires given { AreGiven pairs.now (tree_at trees.now id.0) }
    requires few { length (pairs_in pairs.now (tree_at trees.now id.0)) ≤ 1000 }
    requires room { length vars.old < 4000000000 }
    ensures term { IfOk result (IsTermOf pairs.now vars.old vars.new (tree_at trees.now id.0)) }
    ensures small { IfOk result (λ _. Overflow.overflows grammar.now.successors (tree_at trees.now id.0) ≡ false) }
    ensures fault { IfErr result (IsLargeSuccessor grammar.now.successors (tree_at trees.now id.0) at) }
    ensures unchanged { OnErr result (vars.new ≡ vars.old) }
{
    let mut more = copy_of(alloc, vars)?;
    let term = term_of(alloc, trees, id, pairs, &mut more)?;
    if overflows(grammar, &term) {
        return Err(ParseFault::SuccessorTooLarge(at));
    }
    *vars = more;
    Ok(term)
}

/// The terms of two trees, where the variables of the first are added to those of the item, and then those of the second.
pub fn two_terms(
    alloc: Global,
    trees: &Trees,
    first: TermId,
    second: TermId,
    pairs: &Vars,
    vars: &Vars,
) -> Result<(Bare, Bare), NoMemory>
    requires first_there { first.0 < length trees.now }
    requires second_there { second.0 < length trees.now }
    requires first_given { AreGiven pairs.now (tree_at trees.now first.0) }
    requires second_given { AreGiven pairs.now (tree_at trees.now second.0) }
    requires first_few { length (pairs_in pairs.now (tree_at trees.now first.0)) ≤ 1000 }
    requires second_few { length (pairs_in pairs.now (tree_at trees.now second.0)) ≤ 1000 }
    requires room { length vars.now < 4000000000 }
    ensures { IfOk result (λ r. AreTermsOf pairs.now vars.now (tree_at trees.now first.0) (tree_at trees.now second.0) r.0 r.1) }
{
    let mut more = copy_of(alloc, vars)?;
    let one = term_of(alloc, trees, first, pairs, &mut more)?;
    let other = term_of(alloc, trees, second, pairs, &mut more)?;
    Ok((one, other))
}
