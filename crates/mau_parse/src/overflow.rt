//! The successor of the greatest numeral.
ghost use Rattle.std.specs.Prelude.{◌≡◌, map};
ghost use Rattle.mau_terms.specs.Tree.{tree, no_trees, trees_of};
ghost use Rattle.mau_terms.specs.Norm.{is_greatest_numeral};
ghost use Rattle.mau_terms.specs.View.{tree_of};
ghost use Rattle.mau_parse.specs.Overflow;

use mau_grammar::Grammar;
use mau_terms::Bare;

/// Whether the term is the greatest numeral.
fn is_greatest(term: &Bare) -> bool
    ensures { result ≡ is_greatest_numeral (tree (tree_of term.now) no_trees) }
{
    match term {
        Bare::Num(n) => *n == u128::MAX,
        _ => false,
    }
}

/// Whether there is one term, and it is the greatest numeral.
fn is_only_greatest(terms: &[Bare]) -> bool
    ensures { result ≡ is_greatest_numeral (trees_of (map tree_of terms.now)) }
{
    terms.len() == 1 && is_greatest(&terms[0])
}

/// Whether a term has the successor directly over 340282366920938463463374607431768211455, at its top or below.
#[cycle(overflow)]
pub fn overflows(grammar: &Grammar, term: &Bare) -> bool
    ensures { result ≡ Overflow.overflows grammar.now.successors (tree_of term.now) }
{
    match term {
        Bare::App(op, args) => {
            let terms = args.items();
            if grammar.is_successor(*op) && is_only_greatest(terms) {
                return true;
            }
            for argument in terms {
                if overflows(grammar, argument) {
                    return true;
                }
            }
            false
        }
        _ => false,
    }
}
