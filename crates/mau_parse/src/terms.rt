//! The term of a tree of some words.
ghost use Rattle.std.specs.Prelude.{◌≡◌, ◌<◌, ◌≤◌, ◌+◌, length, IfOk, OnOk};
ghost use Rattle.mau_terms.specs.Vars.{IsGiven, with_pair, place_of};
ghost use Rattle.mau_terms.specs.View.{tree_of};
ghost use Rattle.mau_chart.specs.Nodes.{tree_at};
ghost use Rattle.mau_parse.specs.Terms.{pair_at, pairs_in, added, renamed, AreGiven};

use mau_chart::Trees;
use mau_store::NodeView;
use mau_terms::{Args, Bare, NoMemory, TermId, VarId, Vars};
use std::alloc::Global;

/// The variable of an item that stands for the same pair of name and sort as a variable of the text.
fn variable_of(pairs: &Vars, vars: &mut Vars, v: VarId) -> Result<VarId, NoMemory>
    requires given { IsGiven pairs.now v }
    requires room { length vars.old < 4294967295 }
    ensures ok { IfOk result (λ w. w.index ≡ place_of vars.old (pair_at pairs.now v.index)) }
    ensures sort { IfOk result (λ w. w.sort ≡ v.sort) }
    ensures vars { OnOk result (vars.new ≡ with_pair vars.old (pair_at pairs.now v.index)) }
{
    let (name, sort) = pairs.get(v).unwrap();
    vars.add(name, sort)
}

/// The term of a tree, in which a variable stands for one of the pairs of name and sort of the text by its place among these. The
/// pairs are added to the variables of the item from left to right, each where it first comes, and a variable of the term
/// has the place of its pair there. Out of memory, some may have been added.
#[cycle(term)]
pub fn term_of(
    alloc: Global,
    trees: &Trees,
    id: TermId,
    pairs: &Vars,
    vars: &mut Vars,
) -> Result<Bare, NoMemory>
    requires there { id.0 < length trees.now }
    requires given { AreGiven pairs.now (tree_at trees.now id.0) }
    requires room { length vars.old + length (pairs_in pairs.now (tree_at trees.now id.0)) ≤ 4294967295 }
    ensures term { IfOk result (λ term. tree_of term ≡ renamed pairs.now vars.new (tree_at trees.now id.0)) }
    ensures vars { OnOk result (vars.new ≡ added vars.old (pairs_in pairs.now (tree_at trees.now id.0))) }
{
    match trees.view(id) {
        NodeView::Num(n) => Ok(Bare::Num(n)),
        NodeView::Var(v) => Ok(Bare::Var(variable_of(pairs, vars, v)?)),
        NodeView::App(op, ids) => {
            let mut terms = Vec::with_capacity(alloc, ids.len())?;
            for id in ids {
                terms.push(term_of(alloc, trees, *id, pairs, vars)?)?;
            }
            Ok(Bare::App(op, Args::new(terms)))
        }
    }
}
