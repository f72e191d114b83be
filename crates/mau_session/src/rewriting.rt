//! Whether terms of a module are rewritten.
ghost use Rattle.std.specs.Prelude.{◌≡◌};
ghost use Rattle.std.specs.List.{list_any};
ghost use Rattle.mau_session.specs.RuleRun;

use mau_module::Module;
use mau_program::{Fragment, Rule};

/// Whether a fragment of a condition rewrites.
fn is_rewriting(fragment: &Fragment) -> bool
    ensures { result ≡ RuleRun.is_rewriting fragment.now }
{
    match fragment {
        Fragment::Reach(_, _) => true,
        _ => false,
    }
}

/// Whether fragments of a condition rewrite.
fn are_rewriting(condition: &[Fragment]) -> bool
    ensures { result ≡ list_any RuleRun.is_rewriting condition.now }
{
    condition.iter().any(is_rewriting)
}

/// Whether a rule may be used and its condition rewrites.
fn asks_to_rewrite(rule: &Rule) -> bool
    ensures { result ≡ RuleRun.asks_to_rewrite rule.now }
{
    rule.exec && are_rewriting(rule.cond.items())
}

/// The number of the first rule of a module that may be used and whose condition rewrites, counted from 0: in such a module terms are
/// not rewritten.
pub fn rewriting_condition(module: &Module) -> Option<usize>
    ensures { result ≡ RuleRun.rewriting_condition «module».now }
{
    module.rules().iter().position(asks_to_rewrite)
}
