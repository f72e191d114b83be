//! What waits, and what is done next.

use mau_terms::{OpId, TermId};

/// The arguments of a term, of which those at some places are evaluated by `level` levels. The places before `next` are done with.
#[derive(Drop)]
pub struct Arguments {
    pub level: u32,
    pub op: OpId,
    pub args: Vec<TermId>,
    pub order: Vec<usize>,
    pub next: usize,
}

/// The candidates for an application at the top of a term, and the condition of the one that was tried last; terms of conditions are
/// evaluated by `level` levels.
#[derive(Drop)]
pub struct Trial<A> {
    pub level: u32,
    pub term: TermId,
    pub condition: usize,
    pub attempts: A,
}

/// The settling of the sorts of a term, and the condition that it asks for. The condition has a budget of its own and counts nothing: what
/// is left of the budget, and what was counted, stand here.
#[derive(Drop)]
pub struct Settled<D> {
    pub level: u32,
    pub term: TermId,
    pub condition: usize,
    pub settling: D,
    pub budget: u64,
    pub before: u64,
}

/// A condition, from its fragment `at` on, under a binding: its first solution, or the first one behind another solution, which is boxed
/// so that frames are small.
#[derive(Drop)]
pub struct Condition<S> {
    pub level: u32,
    pub condition: usize,
    pub at: usize,
    pub binding: S,
    pub behind: Option<Box<S>>,
}

/// The solutions of a fragment `p := u` that are not yet tried; what led there was counted before.
#[derive(Drop)]
pub struct Choosing<C> {
    pub level: u32,
    pub condition: usize,
    pub at: usize,
    pub choices: C,
    pub before: u64,
}

/// What waits for a value, or for what becomes of a condition.
#[derive(Drop)]
pub enum Frame<A, C, S, D> {
    /// The arguments wait for the value of the one at a place.
    Argument(Arguments, usize),
    /// A term whose top has changed waits for its value.
    Again(TermId),
    /// `t = u` waits for the value of `t`.
    Left(Condition<S>),
    /// `t = u` waits for the value of `u`.
    Right(Condition<S>, TermId),
    /// `t : s` waits for the value of `t`.
    Sorting(Condition<S>),
    /// `p := u` waits for the value of `u`.
    Matching(Condition<S>),
    /// The fragments behind `p := u` are solved for one of its solutions; so much was told before.
    Choice(Choosing<C>, usize),
    /// The condition of a candidate is solved; so much was counted, and so much told before.
    Trying(Trial<A>, u64, usize),
    /// The condition of a membership is solved for a term whose sorts are settled; so much was told before.
    Deriving(Settled<D>, usize),
}

/// What is done next.
#[derive(Drop)]
pub enum Control<A, C, S, D> {
    /// A term is evaluated by so many levels.
    Eval(u32, TermId),
    /// The next argument is evaluated, or the term is built.
    Evaluating(Arguments),
    /// The sorts of a term are settled, and then an application at its top is looked for; conditions have so many levels.
    Top(u32, TermId),
    /// Its sorts are settled further.
    Settle(u32, TermId, D),
    /// They are settled.
    Ready(u32, TermId),
    /// The next candidate is tried.
    Attempt(Trial<A>),
    /// The next fragment is solved.
    Solve(Condition<S>),
    /// The next solution of a fragment is tried.
    Choose(Choosing<C>),
    /// The solution of a fragment is tried that a solution of the condition has there, and what is asked is behind that one.
    Own(Choosing<C>, Box<S>),
    /// The term is the value.
    Value(TermId),
    /// The condition with this number holds for a binding.
    Held(usize, S),
    /// It has no solution.
    Failed(usize),
}
