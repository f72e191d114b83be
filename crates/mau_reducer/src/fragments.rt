//! Fragments of conditions.
ghost use Rattle.std.specs.Prelude.{◌≡◌, ◌+◌, ◌<◌, suc, length, slice_get};
ghost use Rattle.std.specs.Option.{option_copied};
ghost use Rattle.mau_reducer.specs.Handles.{other_by, written_by, side_written, pattern_written, sort_written};

use mau_api::{Fragment, Program};
use mau_terms::Bare;

/// The number of the condition of the membership at a place.
pub(crate) fn number_of_member(program: &Program, at: usize) -> usize
    requires { at < length program.now.memberships }
    ensures { result ≡ suc (suc (length program.now.equations)) + at }
{
    // What holds of a list is told with its length.
    let _members = program.memberships.items().len();
    program.equations.items().len() + 2 + at
}

/// The fragment at a place of a condition behind those of equations, if there is one: of the one that is asked, or of a membership's.
fn other_at<'p>(
    program: &'p Program,
    asked: &'p Vec<Fragment>,
    condition: usize,
    at: usize,
) -> Option<&'p Fragment>
    ensures { option_copied result ≡ slice_get (other_by program.now asked.now.items condition) at }
{
    let equations = program.equations.items().len();
    if condition == equations + 1 {
        return asked.as_slice().get(at);
    }
    if condition > equations + 1 {
        return match program.memberships.items().get(condition - (equations + 2)) {
            Some(membership) => membership.cond.items().get(at),
            None => None,
        };
    }
    None
}

/// The fragment at a place of the condition with a number, if there is one: of an equation's, or of one behind those.
pub(crate) fn fragment_at<'p>(
    program: &'p Program,
    asked: &'p Vec<Fragment>,
    condition: usize,
    at: usize,
) -> Option<&'p Fragment>
    ensures { option_copied result ≡ slice_get (written_by program.now asked.now.items condition) at }
{
    let equations = program.equations.items();
    match equations.get(condition) {
        Some(equation) => equation.cond.items().get(at),
        None => other_at(program, asked, condition, at),
    }
}

/// The left or the right side of that fragment, if it has such a side that is evaluated.
pub(crate) fn side_at<'p>(
    program: &'p Program,
    asked: &'p Vec<Fragment>,
    condition: usize,
    at: usize,
    right: bool,
) -> Option<&'p Bare>
    ensures { option_copied result ≡ side_written right (slice_get (written_by program.now asked.now.items condition) at) }
{
    match fragment_at(program, asked, condition, at) {
        None => None,
        Some(Fragment::Equal(first, second)) => Some(if right { second } else { first }),
        Some(Fragment::Match(_, subject)) => Some(subject),
        Some(Fragment::Sort(tested, _)) => Some(tested),
        Some(Fragment::Reach(_, _)) => None,
    }
}

/// What that fragment matches, if it is a matching one.
pub(crate) fn pattern_at<'p>(
    program: &'p Program,
    asked: &'p Vec<Fragment>,
    condition: usize,
    at: usize,
) -> Option<&'p Bare>
    ensures { option_copied result ≡ pattern_written (slice_get (written_by program.now asked.now.items condition) at) }
{
    match fragment_at(program, asked, condition, at) {
        Some(Fragment::Match(pattern, _)) => Some(pattern),
        _ => None,
    }
}

/// The sort for which that fragment tests, if it does.
pub(crate) fn sort_at(
    program: &Program,
    asked: &Vec<Fragment>,
    condition: usize,
    at: usize,
) -> Option<u32>
    ensures { result ≡ sort_written (slice_get (written_by program.now asked.now.items condition) at) }
{
    match fragment_at(program, asked, condition, at) {
        Some(Fragment::Sort(_, sort)) => Some(*sort),
        _ => None,
    }
}
