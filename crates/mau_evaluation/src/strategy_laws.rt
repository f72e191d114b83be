//! The laws of rule runs and strategies, as contracts.
ghost use Rattle.mau_evaluation.specs.StrategyLaws.{RuleRunsStay, LevelsAloneInRuns, BudgetsAloneInRuns, RuleRunsFall, RuleRunsGoOn, OrderedListsAreRight, AskingsAreRight, OrderedListsStay, FrontsStay, EnginesGrow};
ghost use Rattle.mau_evaluation.specs.StrategyLaws.{ListsExhaust, ReachedIsOne, EntriesAreApart, SolutionsAreSat, InsideIsSat, BranchesExhaust, EndedListsExhaust};
ghost use Rattle.mau_evaluation.specs.StrategyLaws.{RunsMeet, SolutionsHold, EndedRunsAreWhole, BranchesAreDecided, WithoutIsItself, NeedsAreMet};

/// What a rewrite run or a frewrite run gives is the same under larger limits.
pub fn rule_runs_stay()
    ensures { RuleRunsStay }
{}

/// More levels alone turn only Too deep of such a run into something else.
pub fn levels_alone_in_runs()
    ensures { LevelsAloneInRuns }
{}

/// More budget alone turns only Stopped of such a run into something else.
pub fn budgets_alone_in_runs()
    ensures { BudgetsAloneInRuns }
{}

/// What such a run counts and what it leaves are together at most its budget.
pub fn rule_runs_fall()
    ensures { RuleRunsFall }
{}

/// Rewriting is a round and then rewriting with what is left, and passing a pass and then passing.
pub fn rule_runs_go_on()
    ensures { RuleRunsGoOn }
{}

/// The ordered lists of results and bodies hold just what satisfies the strategy, and where they are whole nothing is cut.
pub fn ordered_lists_are_right()
    ensures { OrderedListsAreRight }
{}

/// Asked for one after another, a condition gives just the solutions that are shown, in their order.
pub fn askings_are_right()
    ensures { AskingsAreRight }
{}

/// Under larger limits the ordered lists have the same answers in the same order, and those that are whole are the same.
pub fn ordered_lists_stay()
    ensures { OrderedListsStay }
{}

/// First results and first bodies are so under larger limits too.
pub fn fronts_stay()
    ensures { FrontsStay }
{}

/// The engines of the definitions grow with their limits.
pub fn engines_grow()
    ensures { EnginesGrow }
{}

/// Where all successors are listed, each entry's first strategy is exhausted.
pub fn lists_exhaust()
    ensures { ListsExhaust }
{}

/// Of two lists that a run reaches one begins the other.
pub fn reached_is_one()
    ensures { ReachedIsOne }
{}

/// No entry stands in the list twice.
pub fn entries_are_apart()
    ensures { EntriesAreApart }
{}

/// Each solution that a run reaches satisfies its strategy.
pub fn solutions_are_sat()
    ensures { SolutionsAreSat }
{}

/// What is listed with nothing left inside a test satisfies the test's strategy.
pub fn inside_is_sat()
    ensures { InsideIsSat }
{}

/// When a run comes back to a branch, each result of its test is listed inside it, and the test is not cut.
pub fn branches_exhaust()
    ensures { BranchesExhaust }
{}

/// When a run has ended, each result of its strategy is a solution, and the strategy is not cut.
pub fn ended_lists_exhaust()
    ensures { EndedListsExhaust }
{}

/// A run whose steps hold each from some limits on is one run for all limits from some on.
pub fn runs_meet()
    ensures { RunsMeet }
{}

/// Each solution of such a run satisfies its strategy, for all limits from some on.
pub fn solutions_hold()
    ensures { SolutionsHold }
{}

/// Such a run that has ended lists each result of its strategy, and nothing is cut, for all limits from some on.
pub fn ended_runs_are_whole()
    ensures { EndedRunsAreWhole }
{}

/// When such a run comes back to a branch, what is listed inside decides which successors the branch has.
pub fn branches_are_decided()
    ensures { BranchesAreDecided }
{}

/// Where a question so ends, an engine without it is that engine.
pub fn without_is_itself()
    ensures { WithoutIsItself }
{}

/// Where a question that results or bodies need so ends, they come to this end within those that are given.
pub fn needs_are_met()
    ensures { NeedsAreMet }
{}
