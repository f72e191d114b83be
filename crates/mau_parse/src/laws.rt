//! What is proved of reading tokens. Each function does nothing and has a law for its contract.
ghost use Rattle.mau_parse.specs.Laws.{ChartsReadTrees, TermsAreBare, VariablesAreInOrder, CausesExcludeEachOther, AnswersAreOne};

/// What a chart of the tokens reads, by the forms of all productions and exactly the leaves of the tokens, is one tree each time, and
/// these are exactly the trees of the tokens.
pub fn charts_read_trees()
    ensures { ChartsReadTrees }
{}

/// The term of a tree of tokens is a bare term of the kind in which it was read, over each signature that has the grammar.
pub fn terms_are_bare()
    ensures { TermsAreBare }
{}

/// The variables of a tree of tokens, from left to right, come in the order of the tokens. So what is added to the variables of an
/// item is added by its first occurrence in the tokens.
pub fn variables_are_in_order()
    ensures { VariablesAreInOrder }
{}

/// No two causes of answers hold together, so each answer comes only where no other may.
pub fn causes_exclude_each_other()
    ensures { CausesExcludeEachOther }
{}

/// Tokens are one term, which adds the same variables each time, or have one fault, but for the two trees of an ambiguity.
pub fn answers_are_one()
    ensures { AnswersAreOne }
{}
