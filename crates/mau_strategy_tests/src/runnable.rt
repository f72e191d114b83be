//! Programs whose rules may be run.
ghost use Rattle.std.specs.Prelude.{◌≡◌, map, true, false, All};
ghost use Rattle.mau_evaluation.specs.Rules.{has_reach};
ghost use Rattle.mau_api.specs.Programs.{fragment_of, rule_of};
ghost use Rattle.mau_program.specs.LawfulPrograms.{IsLawfulProgram};
ghost use Rattle.mau_rules.specs.Runnable.{IsRunnable};

use mau_listing::is_lawful;
use mau_program::{Fragment, Program, Rule};

/// Whether no fragment is solved by rules.
fn are_plain(cond: &[Fragment]) -> bool
    ensures { result ≡ true → has_reach (map fragment_of cond.now) ≡ false }
{
    match cond {
        [] => true,
        [Fragment::Reach(..), ..] => false,
        [_, rest @ ..] => are_plain(rest),
    }
}

/// Whether the condition of no rule is solved by rules.
fn none_reaches(rules: &[Rule]) -> bool
    ensures { result ≡ true → All (λ q. has_reach (rule_of q).cond ≡ false) rules.now }
{
    match rules {
        [] => true,
        [rule, rest @ ..] => are_plain(rule.cond.items()) && none_reaches(rest),
    }
}

/// Whether the rules of a program may be run: no condition is solved by rules.
pub fn may_be_run(program: &Program) -> bool
    requires { IsLawfulProgram program.now }
    ensures { result ≡ true → IsRunnable program.now }
{
    is_lawful(&program.sig);
    none_reaches(program.rules.items())
}
