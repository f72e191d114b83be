//! What is proved of printing. Each function does nothing and has a law for its contract.
ghost use Rattle.mau_print.specs.Laws.{FormsRead, SortedTermsRead, DecimalsRead, TextsAreWords, TextsReadBack, TextsReadAsNothingElse, TokensAreNames, PartsOfTokensAreWords, ReadersKeepNames};

/// The words of a form over arguments, with the parentheses that are printed, read as its operator over the arguments.
pub fn forms_read()
    ensures { FormsRead }
{}

/// A term that is printed with a sort behind it reads as the term, and every place admits it.
pub fn sorted_terms_read()
    ensures { SortedTermsRead }
{}

/// A numeral that is printed reads as the numeral.
pub fn decimals_read()
    ensures { DecimalsRead }
{}

/// The tokens of what is printed are the words of the term.
pub fn texts_are_words()
    ensures { TextsAreWords }
{}

/// What is printed of a normal form has a tree of tokens that is a term of its class.
pub fn texts_read_back()
    ensures { TextsReadBack }
{}

/// What is printed of a normal form is never read as a term of another class, and never found to be none.
pub fn texts_read_as_nothing_else()
    ensures { TextsReadAsNothingElse }
{}

/// Which names a text can write: those of its tokens.
pub fn tokens_are_names()
    ensures { TokensAreNames }
{}

/// Which words a form can have: parts of a text's tokens.
pub fn parts_of_tokens_are_words()
    ensures { PartsOfTokensAreWords }
{}

/// What is read of a text has variables with names that a text can write.
pub fn readers_keep_names()
    ensures { ReadersKeepNames }
{}
