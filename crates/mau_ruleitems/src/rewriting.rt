//! Whether terms of a program are rewritten.
ghost use Rattle.std.specs.Prelude.{◌≡◌, IsTrue};
ghost use Rattle.std.specs.List.{list_any};
ghost use Rattle.mau_program.specs.LawfulPrograms.{IsLawfulProgram};
ghost use Rattle.mau_rules.specs.Runnable.{IsRunnable};
ghost use Rattle.mau_ruleitems.specs.Conditions;

use mau_program::{Fragment, Program, Rule};

/// Whether a fragment of a condition rewrites.
fn is_rewriting(fragment: &Fragment) -> bool
    ensures { result ≡ Conditions.is_rewriting fragment.now }
{
    match fragment {
        Fragment::Reach(_, _) => true,
        _ => false,
    }
}

/// Whether fragments of a condition rewrite.
fn are_rewriting(condition: &[Fragment]) -> bool
    ensures { result ≡ list_any Conditions.is_rewriting condition.now }
{
    condition.iter().any(is_rewriting)
}

/// Whether a rule may be used and its condition rewrites.
fn asks_to_rewrite(rule: &Rule) -> bool
    ensures { result ≡ Conditions.asks_to_rewrite rule.now }
{
    rule.exec && are_rewriting(rule.cond.items())
}

/// The number of the first of some rules that may be used and whose condition rewrites, counted from 0: by such rules terms are not
/// rewritten.
pub fn rewriting_condition(rules: &[Rule]) -> Option<usize>
    ensures { result ≡ Conditions.rewriting_condition rules.now }
{
    rules.iter().position(asks_to_rewrite)
}

/// Whether terms of a program are rewritten: no rule that may be used has a condition that rewrites.
pub fn is_runnable(program: &Program) -> bool
    requires { IsLawfulProgram program.now }
    ensures { IsTrue result → IsRunnable program.now }
{
    let _ = program.sig.operators();
    match rewriting_condition(program.rules.items()) {
        Some(_) => false,
        None => true,
    }
}
