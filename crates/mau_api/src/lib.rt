//! What the layers above the listings share: programs, listings, who evaluates over them, and who is told of the steps.
#![tactic(auto)]

mod evaluator;
mod first;
pub mod laws;
mod results;
mod step;
mod watcher;

pub use evaluator::Evaluator;
pub use first::{first_derived, solutions_in_value};
pub use mau_listing::{
    FirstSolutions, Lister, Solution, WholeLister, compare_lists, compare_values, first_solutions,
    has_nodes, is_lawful, places_of, put_identities, settle_store, settle_value, value_key_of,
};
pub use mau_program::{
    Assign, Equation, Fragment, Membership, PartUse, Program, Rule, StratDecl, StratDef, Strategy,
    StrategyForm, TestKind,
};
pub use results::{EvalEnd, Reduced};
pub use step::{Inner, Place, Statement, Step};
pub use watcher::{StepWatcher, Unwatched};
