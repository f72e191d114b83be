//! What holds of the tokens of every text, of any length: each function's contract is a law, and
//! its body is empty.
ghost use Rattle.mau_tokens.specs.Laws.{EveryTextHasAnAnswer, AnswersAreOne, AnswersAreComputed, TokensAreSpans, TokensStandAlone};

/// Every list of bytes has tokens or a first fault.
pub fn every_text_has_an_answer()
    ensures { EveryTextHasAnAnswer }
{}

/// No list of bytes has two answers.
pub fn answers_are_one()
    ensures { AnswersAreOne }
{}

/// A function of the definitions computes the answer.
pub fn answers_are_computed()
    ensures { AnswersAreComputed }
{}

/// Tokens are non-empty slices of at most 1,024 bytes, between characters, ascending and without
/// overlap.
pub fn tokens_are_spans()
    ensures { TokensAreSpans }
{}

/// The text of each token of a text, tokenized alone, is that one token.
pub fn tokens_stand_alone()
    ensures { TokensStandAlone }
{}
