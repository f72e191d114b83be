//! What holds of things in other numbers: each function's contract is a law, and its body is empty.
ghost use Rattle.mau_renumber.specs.Keeps.{VariablesStayApart, TermsStayBare, LawfulStatementsStay};

/// The variables of a statement stay apart, each in its place.
pub fn variables_stay_apart()
    ensures { VariablesStayApart }
{}

/// Bare terms stay bare in numbers that keep kinds.
pub fn terms_stay_bare()
    ensures { TermsStayBare }
{}

/// Lawful statements stay lawful in numbers that keep kinds, where the left side or head is lawful again.
pub fn lawful_statements_stay()
    ensures { LawfulStatementsStay }
{}
