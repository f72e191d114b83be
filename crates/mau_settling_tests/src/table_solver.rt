//! Conditions that test sorts of variables, solved by a table of sorts; equalities are answered as they are told.
use mau_api::EvalEnd;
use mau_program::{Fragment, Program};
use mau_settling::ConditionSolver;
use mau_sorts::SortTable;
use mau_store::Store;
use mau_terms::{Bare, TermId, VarId};

/// It writes down the numbers of the memberships, stops before one more condition than so many, and says of each equality the same.
#[derive(Drop)]
pub struct TableSolver {
    pub log: String,
    pub left: u32,
    pub equal: bool,
}

/// The value of a variable.
fn value_of(bound: &[(VarId, TermId)], variable: VarId) -> Option<TermId> {
    for pair in bound {
        if pair.0 == variable {
            return Some(pair.1);
        }
    }
    None
}

/// Whether a fragment `x : s` holds, where s is the sort that is shown for x.
fn fragment_holds(
    table: &SortTable,
    bound: &[(VarId, TermId)],
    equal: bool,
    fragment: &Fragment,
) -> bool {
    match fragment {
        Fragment::Equal(_, _) => equal,
        Fragment::Sort(Bare::Var(variable), sort) => match value_of(bound, *variable) {
            Some(value) => table.sort_of(value) == Some(*sort),
            None => false,
        },
        _ => false,
    }
}

/// Whether all fragments of a condition hold.
fn condition_holds(
    table: &SortTable,
    bound: &[(VarId, TermId)],
    equal: bool,
    condition: &[Fragment],
) -> bool {
    for fragment in condition {
        if !fragment_holds(table, bound, equal, fragment) {
            return false;
        }
    }
    true
}

impl ConditionSolver for TableSolver {
    ghost right = { λ _ _ _ _. ⊥ };

    fn holds(
        &mut self,
        _: &mut Store,
        program: &Program,
        table: &mut SortTable,
        membership: usize,
        bound: &[(VarId, TermId)],
    ) -> Result<bool, EvalEnd> {
        if self.left == 0 {
            return Err(EvalEnd::Stopped);
        }
        self.left -= 1;
        self.log
            .push((b'0').wrapping_add((membership & 7) as u8) as char)?;
        match program.memberships.items().get(membership) {
            Some(asked) => Ok(condition_holds(table, bound, self.equal, asked.cond.items())),
            None => Ok(false),
        }
    }
}
